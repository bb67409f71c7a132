//! Sums of squared differences.

ghost use Rattle.std.specs.Prelude.{◌≡◌, ◌+◌, ◌*◌, ◌<◌, ◌≤◌, ◌^◌, length};
ghost use Rattle.std.specs.Int.{abs_diff};
ghost use Rattle.vp_search.specs.Sums.{sum_below};
ghost use Rattle.vp_search.specs.Differences.{squared_difference, sum_of_squares};

use crate::kernel::squares16;

/// The sum of squared differences of two slices of equal length below 2^48, so that the sum fits in u64.
pub fn sse(a: &[u8], b: &[u8]) -> u64
    requires same { length a.now ≡ length b.now }
    requires fits { length a.now < 2 ^ 48 }
    ensures value { result ≡ sum_of_squares a.now b.now }
    ensures bound { result ≤ 65025 * length a.now }
{
    let pieces = a.len() / 16;
    let mut sum = 0;
    for i in 0..pieces {
        sum += u64::from(squares16(a, b, 16 * i));
    }
    add_rest(a, b, 16 * pieces, sum)
}

/// Adds the squared differences from index `start` on to `sum`.
fn add_rest(a: &[u8], b: &[u8], start: usize, sum: u64) -> u64
    requires same { length a.now ≡ length b.now }
    requires fits { length a.now < 2 ^ 48 }
    requires start { start ≤ length a.now }
    requires sum { sum ≡ sum_below start (squared_difference a.now b.now) }
    requires bound { sum ≤ 255 * 255 * start }
    ensures value { result ≡ sum_of_squares a.now b.now }
    ensures bound { result ≤ 255 * 255 * length a.now }
{
    let mut total = sum;
    for i in start..a.len() {
        total += squared_difference(a[i], b[i]);
    }
    total
}

/// The squared difference of two pixels.
fn squared_difference(x: u8, y: u8) -> u64
    ensures value { result ≡ abs_diff x y * abs_diff x y }
    ensures bound { result ≤ 255 * 255 }
{
    let difference = u64::from(x.abs_diff(y));
    difference * difference
}
