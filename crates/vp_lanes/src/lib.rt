//! Vectors of 16 lanes: the loop filter processes sixteen lines at a time.
#![tactic(auto)]

ghost use Rattle.std.specs.Prelude.{◌≡◌, ℕ, ◌+◌, ◌≤◌, ◌<◌, ◌≤ℤ◌, pos, length, cond, slice_index, int_lt};
ghost use Rattle.std.specs.Simd.Lanes.{chunk, put_chunk};
ghost use Rattle.std.specs.Int.{int_max, int_min, abs_diff};
ghost use Rattle.vp_lanes.specs.Lane.{lane};

mod steps;

use std::simd::prelude::*;
pub use steps::{
    difference, eighth, either, filter_value, half, lane_abs_diff, lane_max, lowered, masked,
    raised, saturating_difference, weighted_filter_value, where_high, where_low,
};

/// Loads sixteen bytes from index `at` on.
pub fn load16(s: &[u8], at: usize) -> u8x16
    requires { at + 16 ≤ length s.now }
    ensures { result ≡ chunk at 16 s.now }
{
    u8x16::from_slice(&s[at..])
}

/// Loads eight bytes from index `at` on.
pub fn load8(s: &[u8], at: usize) -> u8x8
    requires { at + 8 ≤ length s.now }
    ensures { result ≡ chunk at 8 s.now }
{
    u8x8::from_slice(&s[at..])
}

/// Stores sixteen bytes from index `at` on.
pub fn store16(s: &mut [u8], at: usize, lanes: u8x16)
    requires { at + 16 ≤ length s.old }
    ensures { s.new ≡ put_chunk at s.old lanes }
{
    lanes.copy_to_slice(&mut s[at..]);
}

/// Stores eight bytes from index `at` on.
pub fn store8(s: &mut [u8], at: usize, v: u8x8)
    requires { at + 8 ≤ length s.old }
    ensures { s.new ≡ put_chunk at s.old v }
{
    v.copy_to_slice(&mut s[at..]);
}

/// The absolute difference, lane by lane.
pub fn abs_diff16(a: u8x16, b: u8x16) -> u8x16
    ensures { (j : ℕ) → j < 16 → slice_index result j ≡ abs_diff (slice_index a j) (slice_index b j) }
{
    a.abs_diff(b)
}

/// Clamps each lane to `low` to `high`.
pub fn clamp_i16(v: i16x16, low: i16, high: i16) -> i16x16
    requires { low ≤ℤ high }
    ensures { (j : ℕ) → j < 16 → lane result j ≡ int_min high (int_max low (lane v j)) }
{
    v.simd_clamp(i16x16::splat(low), i16x16::splat(high))
}

/// Selects the lane of `a` if the mask's lane is set, else that of `b`.
pub fn select16(mask: mask16x16, a: i16x16, b: i16x16) -> i16x16
    ensures { (j : ℕ) → j < 16 → lane result j ≡ cond (int_lt (lane mask j) (pos 0)) (lane a j) (lane b j) }
{
    mask.select(a, b)
}
