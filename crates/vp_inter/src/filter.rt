//! The interpolation filters (RFC 6386, chapter 18.3), with one pixel per lane.

ghost use Rattle.std.specs.Prelude.{◌≡◌, ℕ, ℤ, pos, negsuc, ◌+◌, ◌*◌, ◌<◌, ◌≤◌, ◌+ℤ◌, ◌-ℤ◌, ◌≤ℤ◌, length};
ghost use Rattle.std.specs.Prelude.{slice_index, IsTrue};
ghost use lib.Signed.{shr_z as floor_div};
ghost use Rattle.vp_lanes.specs.Lane.{lane, clamp_to_byte};
ghost use Rattle.vp_inter.specs.Filter.{taps, filter_six};
ghost use Rattle.vp_inter.specs.Narrow.{IsFrom, IsShort, pair, sum_of_two, sum_of_four, sum_of_six};
ghost use Rattle.vp_inter.specs.Narrow.{OuterWeightsAreZero, SumsFitI16};

use std::simd::prelude::*;
use vp_tables::six_taps;

/// The bilinear filter weights, by eighths of a pixel.
static TWO_TAPS: [[i16; 6]; 8] = [
    [0, 0, 128, 0, 0, 0],
    [0, 0, 112, 16, 0, 0],
    [0, 0, 96, 32, 0, 0],
    [0, 0, 80, 48, 0, 0],
    [0, 0, 64, 64, 0, 0],
    [0, 0, 48, 80, 0, 0],
    [0, 0, 32, 96, 0, 0],
    [0, 0, 16, 112, 0, 0],
];

/// The filter weights of six pixels, at offsets -2 to 3.
#[derive(Clone, Copy)]
pub(crate) struct Weights {
    pub(crate) six: &'static [i16; 6],
    ghost count: { length six.now ≡ 6 },
    ghost gentle: { SumsFitI16 six.now },
}

/// The filter weights for a fraction.
#[tactic(auto, unfolding(crate::specs::Filter::taps))]
pub(crate) fn taps(version: u8, eighths: usize) -> Weights
    requires some { 0 < eighths }
    requires bound { eighths < 8 }
    ensures { result.six.now ≡ taps version eighths }
{
    if version == 0 {
        return Weights {
            six: six_taps(eighths),
        };
    }
    Weights {
        six: &TWO_TAPS[eighths],
    }
}

/// Loads `N` bytes from index `at` on.
#[inline(always)]
pub(crate) fn load<const N: usize>(s: &[u8], at: usize) -> Simd<u8, N>
    requires { at + N ≤ length s.now }
    ensures { (j : ℕ) → j < N → slice_index result j ≡ slice_index s.now (at + j) }
{
    Simd::from_slice(&s[at..])
}

/// The weighted sum of the two middle pixels, and the offset that `rounded_pixels` explains.
fn middle_pair_sum<const N: usize>(
    a: Simd<u8, N>,
    b: Simd<u8, N>,
    weight_a: i16,
    weight_b: i16,
) -> Simd<i16, N>
    requires lanes { N ≤ 16 }
    requires first { IsFrom (pos 0) (pos 128) weight_a }
    requires second { IsFrom (pos 0) (pos 128) weight_b }
    requires both { (weight_a +ℤ weight_b) ≤ℤ pos 154 }
    ensures { (j : ℕ) → j < N → lane result j ≡ pair (slice_index a.entry j)
        (slice_index b.entry j) weight_a weight_b -ℤ pos 16320 }
{
    a.cast::<i16>() * Simd::splat(weight_a)
        + Simd::splat(64 - 16384)
        + b.cast::<i16>() * Simd::splat(weight_b)
}

/// The sum, plus two more weighted pixels.
fn more<const N: usize>(
    sum: Simd<i16, N>,
    a: Simd<u8, N>,
    b: Simd<u8, N>,
    weight_a: i16,
    weight_b: i16,
) -> Simd<i16, N>
    requires lanes { N ≤ 16 }
    requires first { IsFrom (negsuc 15) (pos 16) weight_a }
    requires second { IsFrom (negsuc 15) (pos 16) weight_b }
    requires fits { (j : ℕ) → j < N → IsShort (lane sum j +ℤ pair (slice_index a j)
        (slice_index b j) weight_a weight_b) }
    ensures { (j : ℕ) → j < N → lane result j ≡ lane sum.entry j +ℤ pair (slice_index a.entry j)
        (slice_index b.entry j) weight_a weight_b }
{
    sum + (a.cast::<i16>() * Simd::splat(weight_a) + b.cast::<i16>() * Simd::splat(weight_b))
}

/// The filtered pixels: 128ths of the sums, rounded to the nearest, and clamped to 0 to 255.
///
/// A weighted sum of six pixels is from -8,160 to 40,800, which i16 doesn't hold. So each sum has an offset of
/// 64 - 16,384: 64 is for rounding, and without 16,384 the sum is from -24,480 to 24,480. The division by 128 makes 128
/// of 16,384. This is added back after the clamp, which is therefore to -128 to 127.
pub(crate) fn rounded_pixels<const N: usize>(sum: Simd<i16, N>) -> Simd<u8, N>
    requires { N ≤ 16 }
    ensures { (j : ℕ) → j < N → slice_index result j ≡ clamp_to_byte (floor_div (lane sum.entry j) 128 +ℤ pos 128) }
{
    ((sum >> 7).simd_clamp(Simd::splat(-128), Simd::splat(127)) + Simd::splat(128)).cast::<u8>()
}

/// The weighted sum of the middle two of six pixels, which begin at index `at` and are `step` apart.
fn middle<const N: usize>(s: &[u8], at: usize, step: usize, weights: &[i16; 6]) -> Simd<i16, N>
    requires lanes { N ≤ 16 }
    requires room { at + 5 * step + N ≤ length s.now }
    requires gentle { SumsFitI16 weights.now }
    ensures { (j : ℕ) → j < N → lane result j ≡ sum_of_two weights.now (λ k. slice_index s.now (at + k * step + j)) }
{
    middle_pair_sum::<N>(
        load::<N>(s, at + 2 * step),
        load::<N>(s, at + 3 * step),
        weights[2],
        weights[3],
    )
}

/// The weighted sum of the middle four of six pixels.
fn inner<const N: usize>(s: &[u8], at: usize, step: usize, weights: &[i16; 6]) -> Simd<i16, N>
    requires lanes { N ≤ 16 }
    requires room { at + 5 * step + N ≤ length s.now }
    requires gentle { SumsFitI16 weights.now }
    ensures { (j : ℕ) → j < N → lane result j ≡ sum_of_four weights.now (λ k. slice_index s.now (at + k * step + j)) }
{
    more::<N>(
        middle::<N>(s, at, step, weights),
        load::<N>(s, at + step),
        load::<N>(s, at + 4 * step),
        weights[1],
        weights[4],
    )
}

/// The weighted sum of all six pixels.
fn whole_sum<const N: usize>(s: &[u8], at: usize, step: usize, weights: &[i16; 6]) -> Simd<i16, N>
    requires lanes { N ≤ 16 }
    requires room { at + 5 * step + N ≤ length s.now }
    requires gentle { SumsFitI16 weights.now }
    ensures { (j : ℕ) → j < N → lane result j ≡ sum_of_six weights.now (λ k. slice_index s.now (at + k * step + j)) }
{
    more::<N>(
        inner::<N>(s, at, step, weights),
        load::<N>(s, at),
        load::<N>(s, at + 5 * step),
        weights[0],
        weights[5],
    )
}

/// Whether the first and the last weight are 0.
pub(crate) fn ends_are_zero(weights: &[i16; 6]) -> bool
    ensures { IsTrue result → OuterWeightsAreZero weights.now 4 }
{
    weights[0] == 0 && weights[5] == 0
}

/// Whether only the middle two weights aren't 0.
pub(crate) fn has_two_taps(weights: &[i16; 6]) -> bool
    ensures { IsTrue result → OuterWeightsAreZero weights.now 2 }
{
    weights[1] == 0 && weights[4] == 0 && ends_are_zero(weights)
}

/// Filters `N` pixels. Each is computed from six pixels that are `step` apart; pixel `j` begins at index `at + j`.
/// Only the middle `COUNT` weights are used: 2, 4 or 6. The others must be 0.
#[inline(always)]
pub(crate) fn pass<const N: usize, const COUNT: usize>(
    s: &[u8],
    at: usize,
    step: usize,
    weights: &[i16; 6],
) -> Simd<u8, N>
    requires lanes { N ≤ 16 }
    requires room { at + 5 * step + N ≤ length s.now }
    requires gentle { SumsFitI16 weights.now }
    requires few { OuterWeightsAreZero weights.now COUNT }
    ensures { (j : ℕ) → j < N → slice_index result j ≡ filter_six weights.now
        (λ k. slice_index s.now (at + k * step + j)) }
{
    if COUNT >= 6 {
        return rounded_pixels::<N>(whole_sum::<N>(s, at, step, weights));
    }
    if COUNT >= 4 {
        return rounded_pixels::<N>(inner::<N>(s, at, step, weights));
    }
    rounded_pixels::<N>(middle::<N>(s, at, step, weights))
}
