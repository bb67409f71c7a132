//! Quantisation of a block, in 16-bit lanes, with one division for all AC coefficients.

ghost use Rattle.std.specs.Prelude.{◌≡◌, ◌≢◌, ℕ, ◌+◌, ◌*◌, ◌/◌, ◌<◌, ◌≤◌, ◌==◌, if◌then◌else◌, pos, map};
ghost use Rattle.std.specs.Prelude.{slice_index, slice_index_or, unsigned_abs, cond, int_lt, min, neg_ℤ};
ghost use Rattle.std.specs.List.{range_with_len};
ghost use Rattle.vp_lanes.specs.Lane.{lane};
ghost use Rattle.vp_tables.specs.Tables.{zigzag};
ghost use Rattle.vp_quant.specs.Level.{quantised};

use crate::level::quantise;
use crate::magnitudes::are_below;
use std::simd::prelude::*;

/// Quantises a block of coefficients in raster order; the levels are in zigzag order. The DC coefficient is quantised
/// by `dc`, the others by `ac`. Each level is the result of `quantise`.
pub fn quantise_block(coefficients: &[i16; 16], dc: u16, ac: u16) -> [i16; 16]
    requires dc { 1 ≤ dc }
    requires ac { 1 ≤ ac }
    requires range { (i : ℕ) → unsigned_abs (slice_index_or coefficients.now i (pos 0)) ≤ 32767 }
    ensures value { result ≡ map (λ i. quantised (slice_index_or coefficients.now (zigzag i) (pos 0))
        (if i == 0 then dc else ac)) (range_with_len 0 16) }
    ensures within { (i : ℕ) → unsigned_abs (slice_index_or result i (pos 0)) ≤ 2047 }
{
    let mut levels = quantised_lanes(without_dc(coefficients), ac).to_array();
    levels[0] = quantise(i64::from(coefficients[0]), dc);
    levels
}

/// The coefficients in zigzag order, with 0 in place of the DC coefficient.
fn without_dc(coefficients: &[i16; 16]) -> i16x16
    requires { (i : ℕ) → unsigned_abs (slice_index_or coefficients.now i (pos 0)) ≤ 32767 }
    ensures first { lane result 0 ≡ pos 0 }
    ensures others { (i : ℕ) → i < 16 → i ≢ 0 → lane result i ≡ lane coefficients.now (zigzag i) }
{
    i16x16::from_array(*coefficients).shuffle::<16>(
        i16x16::splat(0),
        [16, 1, 4, 8, 5, 2, 3, 6, 9, 12, 13, 10, 7, 11, 14, 15],
    )
}

/// Quantises each lane by the same factor.
fn quantised_lanes(v: i16x16, factor: u16) -> i16x16
    requires factor { 1 ≤ factor }
    requires range { (j : ℕ) → j < 16 → unsigned_abs (lane v j) ≤ 32767 }
    ensures { (j : ℕ) → j < 16 → lane result j ≡ quantised (lane v j) factor }
{
    let sizes = rounded_sizes(v, factor);
    if are_below(sizes, factor) {
        return i16x16::splat(0);
    }
    with_signs(quotients(sizes, factor), v)
}

/// The magnitude of each lane, plus half of the factor.
fn rounded_sizes(v: i16x16, factor: u16) -> u16x16
    requires { (j : ℕ) → j < 16 → unsigned_abs (lane v j) ≤ 32767 }
    ensures { (j : ℕ) → j < 16 → slice_index result j ≡ unsigned_abs (lane v j) + factor / 2 }
{
    v.abs().cast::<u16>() + u16x16::splat(factor / 2)
}

/// Divides each lane by the same number. The product with the number's reciprocal is the quotient or one less.
fn quotients(v: u16x16, by: u16) -> u16x16
    requires { 1 ≤ by }
    ensures { (j : ℕ) → j < 16 → slice_index result j ≡ slice_index v j / by }
{
    let divisor = u16x16::splat(by);
    let low = high_halves(v, 65535 / by);
    let rest = v - low * divisor;
    rest.simd_lt(divisor).select(low, low + u16x16::splat(1))
}

/// The high halves of the lanes times `k`.
fn high_halves(v: u16x16, k: u16) -> u16x16
    ensures { (j : ℕ) → j < 16 → slice_index result j ≡ slice_index v j * k / 65536 }
{
    ((v.cast::<u32>() * u32x16::splat(k as u32)) >> 16).cast::<u16>()
}

/// The magnitudes, at most 2,047, with the signs of the lanes of `signs`.
fn with_signs(sizes: u16x16, signs: i16x16) -> i16x16
    ensures { (j : ℕ) → j < 16 → lane result j ≡ cond (int_lt (lane signs j) (pos 0))
        (neg_ℤ (pos (min (slice_index sizes j) 2047))) (pos (min (slice_index sizes j) 2047)) }
{
    let levels = sizes.simd_min(u16x16::splat(2047)).cast::<i16>();
    let zero = i16x16::splat(0);
    signs.simd_lt(zero).select(zero - levels, levels)
}
