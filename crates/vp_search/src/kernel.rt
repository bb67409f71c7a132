//! Sums of differences in lanes, which compile to one instruction per row.

ghost use Rattle.std.specs.Prelude.{◌≡◌, ℕ, ◌+◌, ◌*◌, ◌<◌, ◌≤◌, length, slice_index};
ghost use Rattle.std.specs.Int.{abs_diff};
ghost use Rattle.vp_search.specs.Sums.{sum_below};
ghost use Rattle.vp_search.specs.Differences.{sum_of_differences, strided_block, squared_difference};
ghost use Rattle.vp_search.specs.Rows.{HasRows};

use std::simd::prelude::*;
use vp_lanes::load16;

/// The absolute differences of the lanes. With bytes cast to i32 and back, the sum compiles to one instruction.
fn apart(p: u8x16, q: u8x16) -> u32x16
    ensures value { (j : ℕ) → j < 16 → slice_index result j ≡ abs_diff (slice_index p j) (slice_index q j) }
    ensures range { (j : ℕ) → j < 16 → slice_index result j ≤ 255 }
{
    (p.cast::<i32>() - q.cast::<i32>()).abs().cast::<u32>()
}

/// Adds two sums, each of at most two differences.
fn both(a: u32x16, b: u32x16) -> u32x16
    requires a_in { (j : ℕ) → j < 16 → slice_index a j ≤ 2 * 255 }
    requires b_in { (j : ℕ) → j < 16 → slice_index b j ≤ 2 * 255 }
    ensures { (j : ℕ) → j < 16 → slice_index result j ≡ slice_index a j + slice_index b j }
{
    a + b
}

/// The squares of differences.
fn squared(a: u32x16) -> u32x16
    requires { (j : ℕ) → j < 16 → slice_index a j ≤ 255 }
    ensures value { (j : ℕ) → j < 16 → slice_index result j ≡ slice_index a j * slice_index a j }
    ensures range { (j : ℕ) → j < 16 → slice_index result j ≤ 255 * 255 }
{
    a * a
}

/// The sum of all lanes, each a sum of at most four differences, or one square.
fn total(a: u32x16) -> u32
    requires { (j : ℕ) → j < 16 → slice_index a j ≤ 255 * 255 }
    ensures value { result ≡ sum_below 16 (slice_index a) }
    ensures bound { result ≤ 16 * 255 * 255 }
{
    a.strict_reduce_sum()
}

/// Four rows of sixteen pixels, in lanes.
#[derive(Clone, Copy)]
pub(crate) struct FourRows {
    pub(crate) first: u8x16,
    pub(crate) second: u8x16,
    pub(crate) third: u8x16,
    pub(crate) fourth: u8x16,
}

/// Loads four rows that are `step` apart, from index `at` on.
pub(crate) fn load_rows(s: &[u8], at: usize, step: usize) -> FourRows
    requires { at + 3 * step + 16 ≤ length s.now }
    ensures { HasRows (strided_block s.now at step) result }
{
    FourRows {
        first: load16(s, at),
        second: load16(s, at + step),
        third: load16(s, at + 2 * step),
        fourth: load16(s, at + 3 * step),
    }
}

/// The sum of absolute differences of four rows and four others.
pub(crate) fn four_differences(a: FourRows, b: FourRows) -> u32
    ensures value { (f g : ℕ → ℕ → ℕ) → HasRows f a → HasRows g b → result ≡ sum_of_differences 4 16 f g }
    ensures bound { result ≤ 4 * 16 * 255 }
{
    let upper = both(apart(a.first, b.first), apart(a.second, b.second));
    let lower = both(apart(a.third, b.third), apart(a.fourth, b.fourth));
    total(both(upper, lower))
}

/// The sum of absolute differences of sixteen numbers.
pub(crate) fn differences16(a: &[u8; 16], b: &[u8; 16]) -> u32
    ensures value { result ≡ sum_below 16 (λ j. abs_diff (slice_index a.now j) (slice_index b.now j)) }
    ensures bound { result ≤ 16 * 255 }
{
    total(apart(u8x16::from_array(*a), u8x16::from_array(*b)))
}

/// The sum of squared differences of sixteen numbers.
pub(crate) fn squares16(a: &[u8], b: &[u8], at: usize) -> u32
    requires a_room { at + 16 ≤ length a.now }
    requires b_room { at + 16 ≤ length b.now }
    ensures value { result ≡ sum_below 16 (λ j. squared_difference a.now b.now (at + j)) }
    ensures bound { result ≤ 16 * 255 * 255 }
{
    total(squared(apart(load16(a, at), load16(b, at))))
}
