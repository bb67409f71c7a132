//! The steps of the loop filter on sixteen lines at a time (RFC 6386, chapters 15.2 and 15.3). Signed numbers are
//! stored in bytes with a bias, usually 128. To add a difference to a pixel, its positive part is added and its
//! negative part is subtracted, both with saturation; one of the two is 0.

ghost use Rattle.std.specs.Prelude.{◌≡◌, ℕ, ◌+◌, ◌-◌, ◌*◌, ◌/◌, ◌≤◌, ◌<◌, ◌+ℤ◌, ◌-ℤ◌, ◌*ℤ◌, ◌==◌, ◌&&◌, pos, cond};
ghost use Rattle.std.specs.Prelude.{slice_index, nat_le, nat_lt, min, max};
ghost use Rattle.std.specs.Int.{abs_diff};
ghost use lib.Signed.{shr_z as floor_div};
ghost use Rattle.vp_lanes.specs.Lane.{biased, clamp_to_i8, clamp_to_byte};

use std::simd::prelude::*;

/// The maximum, lane by lane.
pub fn lane_max(a: u8x16, b: u8x16) -> u8x16
    ensures { (j : ℕ) → j < 16 → slice_index result j ≡ max (slice_index a j) (slice_index b j) }
{
    a.simd_max(b)
}

/// `x - y`, or 0 if that is negative, lane by lane.
pub fn saturating_difference(x: u8x16, y: u8x16) -> u8x16
    ensures { (j : ℕ) → j < 16 → slice_index result j ≡ slice_index x j - slice_index y j }
{
    x.saturating_sub(y)
}

/// `x + y`, or 255 if that is more, lane by lane.
pub fn saturating_sum(x: u8x16, y: u8x16) -> u8x16
    ensures { (j : ℕ) → j < 16 → slice_index result j ≡ min (slice_index x j + slice_index y j) 255 }
{
    x.saturating_add(y)
}

/// The absolute difference, lane by lane: the larger of both saturating differences.
pub fn lane_abs_diff(x: u8x16, y: u8x16) -> u8x16
    ensures { (j : ℕ) → j < 16 → slice_index result j ≡ abs_diff (slice_index x j) (slice_index y j) }
{
    lane_max(saturating_difference(x, y), saturating_difference(y, x))
}

/// `x - y` clamped to -128 to 127, with bias 128.
pub fn difference(x: u8x16, y: u8x16) -> u8x16
    ensures { (j : ℕ) → j < 16 → biased 128 result j ≡ clamp_to_i8 (pos (slice_index x j) -ℤ pos (slice_index y j)) }
{
    saturating_difference(
        saturating_sum(u8x16::splat(128), saturating_difference(x, y)),
        saturating_difference(y, x),
    )
}

/// `w + 3 * (y - x)` clamped to -128 to 127. `w` and the result have bias 128.
pub fn filter_value(w: u8x16, x: u8x16, y: u8x16) -> u8x16
    ensures { (j : ℕ) → j < 16 → biased 128 result j ≡ clamp_to_i8
        (biased 128 w j +ℤ pos 3 *ℤ (pos (slice_index y j) -ℤ pos (slice_index x j))) }
{
    let up = saturating_difference(y, x);
    let down = saturating_difference(x, y);
    let raised = saturating_sum(saturating_sum(saturating_sum(w, up), up), up);
    saturating_difference(
        saturating_difference(saturating_difference(raised, down), down),
        down,
    )
}

/// `a + by` clamped to 127, then divided by 8, rounded down. `a` has bias 128, the result 16.
pub fn eighth(a: u8x16, by: u8) -> u8x16
    requires { by ≤ 4 }
    ensures value { (j : ℕ) → j < 16 → biased 16 result j ≡ floor_div (clamp_to_i8 (biased 128 a j +ℤ pos by)) 8 }
    ensures range { (j : ℕ) → j < 16 → slice_index result j < 32 }
{
    saturating_sum(a, u8x16::splat(by)) >> 3
}

/// `(f + 1) / 2`, rounded down. `f` has bias 16, the result 8.
pub fn half(f: u8x16) -> u8x16
    requires { (j : ℕ) → j < 16 → slice_index f j < 32 }
    ensures { (j : ℕ) → j < 16 → biased 8 result j ≡ floor_div (biased 16 f j +ℤ pos 1) 2 }
{
    (f + u8x16::splat(1)) >> 1
}

/// `(w * k + 63) / 128`, rounded down. With `k` at most 27 it never leaves -128 to 127, where RFC 6386 clamps it. `w`
/// has bias 128, the result `k`.
pub fn weighted_filter_value(w: u8x16, k: u8) -> u8x16
    requires { k ≤ 27 }
    ensures { (j : ℕ) → j < 16 → biased k result j ≡ clamp_to_i8 (floor_div (biased 128 w j *ℤ pos k +ℤ pos 63) 128) }
{
    ((w.cast::<u16>() * u16x16::splat(k as u16) + u16x16::splat(63)) >> 7).cast::<u8>()
}

/// `x + by` clamped to 0 to 255; `by` has bias `bias`. The second clause states that the lanes of `x` are bytes, so
/// adding 0 doesn't change them.
pub fn raised(x: u8x16, by: u8x16, bias: u8) -> u8x16
    ensures value { (j : ℕ) → j < 16 → slice_index result j ≡ clamp_to_byte
        (pos (slice_index x j) +ℤ biased bias by j) }
    ensures bytes { (j : ℕ) → j < 16 → slice_index x j < 256 }
{
    let zero = u8x16::splat(bias);
    saturating_difference(
        saturating_sum(x, saturating_difference(by, zero)),
        saturating_difference(zero, by),
    )
}

/// `x - by` clamped to 0 to 255; `by` has bias `bias`. The second clause states that the lanes of `x` are bytes, so
/// subtracting 0 doesn't change them.
pub fn lowered(x: u8x16, by: u8x16, bias: u8) -> u8x16
    ensures value { (j : ℕ) → j < 16 → slice_index result j ≡ clamp_to_byte
        (pos (slice_index x j) -ℤ biased bias by j) }
    ensures bytes { (j : ℕ) → j < 16 → slice_index x j < 256 }
{
    let zero = u8x16::splat(bias);
    saturating_difference(
        saturating_sum(x, saturating_difference(zero, by)),
        saturating_difference(by, zero),
    )
}

/// 0 if a line is within the edge limit. `edge` is the absolute difference of the two pixels at the edge, `outer` that
/// of the next two.
fn excess(edge: u8x16, outer: u8x16, limit: u8) -> u8x16
    ensures { (j : ℕ) → j < 16 → (slice_index result j == 0) ≡ nat_le (slice_index edge j * 2
        + slice_index outer j / 2) limit }
{
    let half = outer >> 1;
    let most = u8x16::splat(limit);
    lane_max(
        saturating_difference(half, most),
        saturating_difference(edge, saturating_difference(most, half) >> 1),
    )
}

/// `w` in the lines that the filter mask includes, else 0. `most` is the greatest difference of neighbours on one side
/// of the edge. `w` and the result have bias 128.
pub fn masked(w: u8x16, edge: u8x16, outer: u8x16, limit: u8, most: u8x16, interior: u8) -> u8x16
    ensures { (j : ℕ) → j < 16 → biased 128 result j ≡ cond (nat_le (slice_index edge j * 2
        + slice_index outer j / 2) limit && nat_le (slice_index most j) interior) (biased 128 w j) (pos 0) }
{
    let rough = saturating_difference(most, u8x16::splat(interior));
    lane_max(excess(edge, outer, limit), rough)
        .simd_eq(u8x16::splat(0))
        .select(w, u8x16::splat(128))
}

/// `w` in the lines of high edge variance, else 0. `w` and the result have bias `bias`.
pub fn where_high(w: u8x16, apart: u8x16, threshold: u8, bias: u8) -> u8x16
    ensures { (j : ℕ) → j < 16 → biased bias result j ≡ cond (nat_lt threshold (slice_index apart j))
        (biased bias w j) (pos 0) }
{
    apart
        .simd_gt(u8x16::splat(threshold))
        .select(w, u8x16::splat(bias))
}

/// `w` in the lines without high edge variance, else 0. `w` and the result have bias `bias`.
pub fn where_low(w: u8x16, apart: u8x16, threshold: u8, bias: u8) -> u8x16
    ensures { (j : ℕ) → j < 16 → biased bias result j ≡ cond (nat_lt threshold (slice_index apart j)) (pos 0)
        (biased bias w j) }
{
    apart
        .simd_gt(u8x16::splat(threshold))
        .select(u8x16::splat(bias), w)
}

/// `a` in the lines of high edge variance, else `b`. `a` has bias 16, `b` and the result 27.
pub fn either(a: u8x16, b: u8x16, apart: u8x16, threshold: u8) -> u8x16
    requires { (j : ℕ) → j < 16 → slice_index a j < 32 }
    ensures { (j : ℕ) → j < 16 → biased 27 result j ≡ cond (nat_lt threshold (slice_index apart j)) (biased 16 a j)
        (biased 27 b j) }
{
    apart
        .simd_gt(u8x16::splat(threshold))
        .select(a + u8x16::splat(11), b)
}
