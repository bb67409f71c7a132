//! The six-tap filter on eight and sixteen pixels (RFC 6386, chapter 18.3), by multiply-add of bytes: products of bytes
//! and weights, added in pairs. The compiler turns this form, with weights that it loads from memory, into one
//! instruction for eight sums.

ghost use Rattle.std.specs.Prelude.{◌≡◌, ℕ, pos, negsuc, ◌+◌, ◌*◌, ◌/◌, ◌%◌, ◌<◌, ◌≤◌, ◌+ℤ◌, ◌-ℤ◌, ◌*ℤ◌};
ghost use Rattle.std.specs.Prelude.{length, slice_index, IsTrue};
ghost use Rattle.std.specs.Int.{int_max, int_min};
ghost use Rattle.vp_lanes.specs.Lane.{lane};
ghost use Rattle.vp_inter.specs.Filter.{filter_six};
ghost use Rattle.vp_inter.specs.Narrow.{IsFrom, IsShort, SumsFitI16, pair, weight};
ghost use Rattle.vp_inter.specs.Patches.{patch_pass, weights_of, HasRows, Selects};
ghost use Rattle.vp_inter.specs.Turns.{one_of_three};

use crate::filter::{Weights, load, rounded_pixels};
use crate::patch::Patch;
use crate::reference::{Span, shuffle, span_of};
use crate::rows::put_lanes;
use crate::weights::{HorizontalFilter, PairWeights};
use std::simd::prelude::*;

/// The weights in bytes, in the order 0 1 2 3 2 3 4 5, which takes two loads. The middle two are there twice.
fn byte_weights(weights: &[i16; 6]) -> i8x8
    requires { SumsFitI16 weights.now }
    ensures first { (lane result 0 ≡ weight weights.now 0) × (lane result 3 ≡ weight weights.now 3) }
    ensures second { (lane result 1 ≡ weight weights.now 1) × (lane result 6 ≡ weight weights.now 4) }
    ensures third { (lane result 2 ≡ weight weights.now 2) × (lane result 7 ≡ weight weights.now 5) }
{
    let [a, b, c, d, e, f] = *weights;
    i16x8::from_array([a, b, c, d, c, d, e, f]).cast::<i8>()
}

/// The weights in alternating lanes, for either pass.
pub(crate) fn paired_weights(weights: Weights) -> PairWeights
    ensures { weights_of result ≡ weights.six.now }
{
    let bytes = byte_weights(weights.six);
    PairWeights {
        first: bytes.swizzle::<16>([0, 3, 0, 3, 0, 3, 0, 3, 0, 3, 0, 3, 0, 3, 0, 3]),
        second: bytes.swizzle::<16>([1, 6, 1, 6, 1, 6, 1, 6, 1, 6, 1, 6, 1, 6, 1, 6]),
        third: bytes.swizzle::<16>([2, 7, 2, 7, 2, 7, 2, 7, 2, 7, 2, 7, 2, 7, 2, 7]),
    }
}

/// Adds the lanes of all three, and the offset that `rounded_pixels` explains.
fn sum_of_three(a: i16x8, b: i16x8, c: i16x8) -> i16x8
    requires first { (j : ℕ) → j < 8 → IsShort (lane a j -ℤ pos 16320) }
    requires both { (j : ℕ) → j < 8 → IsShort (lane a j -ℤ pos 16320 +ℤ lane b j) }
    requires all { (j : ℕ) → j < 8 → IsShort (lane a j -ℤ pos 16320 +ℤ lane b j +ℤ lane c j) }
    ensures { (j : ℕ) → j < 8 → lane result j ≡ lane a j -ℤ pos 16320 +ℤ lane b j +ℤ lane c j }
{
    a + Simd::splat(64 - 16384) + b + c
}

/// Interleaves the eight bytes of each.
pub(crate) fn interleave(even: u8x8, odd: u8x8) -> u8x16
    ensures even { (j : ℕ) → j < 8 → slice_index result (2 * j) ≡ slice_index even j }
    ensures odd { (j : ℕ) → j < 8 → slice_index result (2 * j + 1) ≡ slice_index odd j }
{
    even.shuffle::<16>(odd, [0, 8, 1, 9, 2, 10, 3, 11, 4, 12, 5, 13, 6, 14, 7, 15])
}

/// Concatenates both.
pub(crate) fn joined_halves(front: u8x8, back: u8x8) -> u8x16
    ensures front { (j : ℕ) → j < 8 → slice_index result j ≡ slice_index front j }
    ensures back { (j : ℕ) → j < 8 → slice_index result (8 + j) ≡ slice_index back j }
{
    front.shuffle::<16>(back, [0, 1, 2, 3, 4, 5, 6, 7, 8, 9, 10, 11, 12, 13, 14, 15])
}

/// Filters eight pixels, horizontally or vertically. Each vector interleaves pixels that are three apart in that
/// direction.
pub(crate) fn filtered_pairs(a: u8x16, b: u8x16, c: u8x16, weights: &PairWeights) -> u8x8
    ensures { (j : ℕ) → j < 8 → slice_index result j ≡ filter_six (weights_of weights.now)
        (λ k. slice_index (one_of_three a b c (k % 3)) (2 * j + k / 3)) }
{
    rounded_pixels::<8>(sum_of_three(
        pair_sums(a, weights.first),
        pair_sums(b, weights.second),
        pair_sums(c, weights.third),
    ))
}

/// Filters sixteen pixels vertically, from interleaved rows that are three apart.
pub(crate) fn vertical_sixteen(pairs: &[u8], at: usize, weights: &PairWeights) -> u8x16
    requires { at + 96 ≤ length pairs.now }
    ensures { (j : ℕ) → j < 16 → slice_index result j ≡ filter_six (weights_of weights.now)
        (λ k. slice_index pairs.now (at + 32 * (k % 3) + (2 * j + k / 3))) }
{
    joined_halves(
        filtered_pairs(
            load(pairs, at),
            load(pairs, at + 32),
            load(pairs, at + 64),
            weights,
        ),
        filtered_pairs(
            load(pairs, at + 16),
            load(pairs, at + 48),
            load(pairs, at + 80),
            weights,
        ),
    )
}

/// Interleaves `ROWS` rows of sixteen pixels, each with the row three below.
#[inline(never)]
pub(crate) fn pair_rows<const ROWS: usize>(pairs: &mut [u8], rows: &[u8])
    requires few { ROWS ≤ 19 }
    requires whole { length pairs.old ≡ 32 * ROWS }
    requires all { length rows.now ≡ 16 * ROWS + 48 }
    ensures { (x t : ℕ) → x < 16 * ROWS → t < 2
        → slice_index pairs.new (2 * x + t) ≡ slice_index rows.now (x + 48 * t) }
{
    for i in 0..2 * ROWS {
        let piece = interleave(load::<8>(rows, 8 * i), load::<8>(rows, 8 * i + 48));
        put_lanes::<16>(pairs, i, piece);
    }
}

/// The vertical pass to `ROWS` rows, over interleaved rows of sixteen pixels.
#[inline(never)]
pub(crate) fn vertical_wide_rows<const ROWS: usize>(
    pixels: &mut [u8],
    pairs: &[u8],
    weights: &PairWeights,
)
    requires few { ROWS ≤ 17 }
    requires room { length pairs.now ≡ 32 * ROWS + 64 }
    requires whole { length pixels.old ≡ 16 * ROWS }
    ensures { (r c : ℕ) → r < ROWS → c < 16 → slice_index pixels.new (r * 16 + c) ≡ filter_six
        (weights_of weights.now) (λ k. slice_index pairs.now (32 * r + 32 * (k % 3) + (2 * c + k / 3))) }
{
    for i in 0..ROWS {
        let row = vertical_sixteen(pairs, 32 * i, weights);
        put_lanes::<16>(pixels, i, row);
    }
}

/// The filter for the eight pixels of a row from column `from` on, 0 or 8. The plane has at least sixteen columns.
pub(crate) fn horizontal_filter(patch: &Patch, from: usize, weights: Weights) -> HorizontalFilter
    requires some { 16 ≤ patch.now.width }
    requires near { from ≤ 8 }
    ensures room { result.start + 16 ≤ patch.now.width }
    ensures selects { Selects result patch.now from }
    ensures weights { weights_of result.weights ≡ weights.six.now }
{
    let Span { start, indices } = span_of(patch.width, patch.left + from as i32);
    HorizontalFilter {
        start,
        first: indices.swizzle::<16>([0, 3, 1, 4, 2, 5, 3, 6, 4, 7, 5, 8, 6, 9, 7, 10]),
        second: indices.swizzle::<16>([1, 4, 2, 5, 3, 6, 4, 7, 5, 8, 6, 9, 7, 10, 8, 11]),
        third: indices.swizzle::<16>([2, 5, 3, 6, 4, 7, 5, 8, 6, 9, 7, 10, 8, 11, 9, 12]),
        weights: paired_weights(weights),
    }
}

/// Filters eight pixels of row `i`, those that `filter` selects. If `INSIDE`, the row is inside the plane. `weights`
/// are those of `filter`, which the loop around this reloads from memory: with weights in registers the compiler
/// doesn't select the multiply-add instruction.
#[inline(always)]
pub(crate) fn horizontal_row<const INSIDE: bool>(
    patch: &Patch,
    i: usize,
    filter: &HorizontalFilter,
    weights: &PairWeights,
) -> u8x8
    requires near { i ≤ 21 }
    requires inside { IsTrue INSIDE → HasRows patch.now (i + 1) }
    requires room { filter.now.start + 16 ≤ patch.now.width }
    ensures { (from : ℕ) → Selects filter.now patch.now from → (j : ℕ) → j < 8
        → slice_index result j ≡ patch_pass (weights_of weights.now) patch.now i (from + j) }
{
    let pixels = load::<16>(patch.row::<INSIDE>(i), filter.start);
    filtered_pairs(
        shuffle(pixels, filter.first),
        shuffle(pixels, filter.second),
        shuffle(pixels, filter.third),
        weights,
    )
}

fn evens(a: u8x16) -> u8x8
    ensures { (j : ℕ) → j < 8 → slice_index result j ≡ slice_index a (2 * j) }
{
    a.swizzle::<8>([0, 2, 4, 6, 8, 10, 12, 14])
}

fn odds(a: u8x16) -> u8x8
    ensures { (j : ℕ) → j < 8 → slice_index result j ≡ slice_index a (2 * j + 1) }
{
    a.swizzle::<8>([1, 3, 5, 7, 9, 11, 13, 15])
}

fn even_weights(w: i8x16) -> i8x8
    ensures { (j : ℕ) → j < 8 → lane result j ≡ lane w (2 * j) }
{
    w.swizzle::<8>([0, 2, 4, 6, 8, 10, 12, 14])
}

fn odd_weights(w: i8x16) -> i8x8
    ensures { (j : ℕ) → j < 8 → lane result j ≡ lane w (2 * j + 1) }
{
    w.swizzle::<8>([1, 3, 5, 7, 9, 11, 13, 15])
}

fn products(a: u8x8, w: i8x8) -> i32x8
    ensures value { (j : ℕ) → j < 8 → lane result j ≡ pos (slice_index a j) *ℤ lane w j }
    ensures range { (j : ℕ) → j < 8 → IsFrom (negsuc 32639) (pos 32640) (lane result j) }
{
    a.cast::<i32>() * w.cast::<i32>()
}

fn added(a: i32x8, b: i32x8) -> i32x8
    requires first { (j : ℕ) → j < 8 → IsFrom (negsuc 32639) (pos 32640) (lane a j) }
    requires second { (j : ℕ) → j < 8 → IsFrom (negsuc 32639) (pos 32640) (lane b j) }
    ensures { (j : ℕ) → j < 8 → lane result j ≡ lane a j +ℤ lane b j }
{
    a + b
}

/// Clamps each number to i16.
fn short(sum: i32x8) -> i16x8
    ensures { (j : ℕ) → j < 8 → lane result j ≡ int_min (pos 32767) (int_max (negsuc 32767) (lane sum j)) }
{
    sum.simd_clamp(i32x8::splat(-32768), i32x8::splat(32767))
        .cast::<i16>()
}

/// Multiplies sixteen bytes by their weights, and adds the products in pairs.
pub(crate) fn pair_sums(a: u8x16, w: i8x16) -> i16x8
    requires { (j : ℕ) → j < 8 → IsShort (pair (slice_index a (2 * j)) (slice_index a (2 * j + 1))
        (lane w (2 * j)) (lane w (2 * j + 1))) }
    ensures { (j : ℕ) → j < 8 → lane result j ≡ pair (slice_index a (2 * j)) (slice_index a (2 * j + 1))
        (lane w (2 * j)) (lane w (2 * j + 1)) }
{
    short(added(
        products(evens(a), even_weights(w)),
        products(odds(a), odd_weights(w)),
    ))
}
