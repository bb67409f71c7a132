//! The DC coefficients of a plane's subblocks (RFC 6386, chapters 14.1 and 14.3).

ghost use Rattle.std.specs.Prelude.{◌≡◌, ℕ, ◌+◌, ◌<◌, ◌≤◌, ◌^◌, ℤ, pos, unsigned_abs};
ghost use Rattle.std.specs.Prelude.{Some, true, List, replicate, slice_index_or};
ghost use Rattle.vp_lanes.specs.Lane.{lane};
ghost use Rattle.vp_tokens.specs.Blocks.{block_of};
ghost use Rattle.vp_transform.specs.Fits.{EachWithin};
ghost use Rattle.vp_recon.specs.Residue.{luma_dcs};
ghost use Rattle.vp_quant.specs.Short.{IsShortFactor};
ghost use Rattle.vp_recon.specs.Parts.{AreDcs, AreSmall, luma_dc, own_dc};

use crate::residue::{block_of, scaled_dc};
use crate::segment_factors::{IDCT_MOST, IWHT_MOST, SegmentFactors};
use std::simd::prelude::*;
use vp_quant::{Factors, ShortFactor, dequant};
use vp_tokens::Tokens;
use vp_transform::{iwht, iwht_of_dc, iwht_short};

/// Returns the DC coefficients of luma, with a Y2 block or without, if they are small: from -2,200 to 2,200. Also None
/// where the Y2 block has coefficients below -8,191 or above 8,191, or its first level is too large for the AC factor.
#[inline(always)]
pub(crate) fn small_luma_dcs(
    y2: bool,
    tokens: &Tokens,
    factors: &SegmentFactors,
) -> Option<[i16; 16]>
    ensures value { (dcs : List ℤ) → result ≡ Some dcs
        → AreDcs 16 dcs (luma_dc y2 tokens.now factors.now) }
    ensures small { (dcs : List ℤ) → result ≡ Some dcs → AreSmall 16 dcs }
{
    if y2 {
        dcs_from_y2(tokens, factors)
    } else {
        own_luma_dcs(tokens, factors)
    }
}

/// Returns the DC coefficients of luma from the Y2 block, if they are small.
#[inline(always)]
fn dcs_from_y2(tokens: &Tokens, factors: &SegmentFactors) -> Option<[i16; 16]>
    ensures value { (dcs : List ℤ) → result ≡ Some dcs
        → AreDcs 16 dcs (luma_dc true tokens.now factors.now) }
    ensures small { (dcs : List ℤ) → result ≡ Some dcs → AreSmall 16 dcs }
{
    let block = block_of(tokens, 0);
    let dc = scaled_dc(&block.levels, factors.raw.y2_dc);
    if block.end <= 1 {
        return sixteen_times(iwht_of_dc(dc));
    }
    if dc.unsigned_abs() > IWHT_MOST {
        return None;
    }
    let Some(coefficients) = factors.y2_ac.coefficients(block.levels, dc as i16) else {
        return None;
    };
    let dcs = iwht_short(&coefficients);
    if u64::from(greatest(&dcs)) <= IDCT_MOST {
        Some(dcs)
    } else {
        None
    }
}

/// Returns sixteen times a DC coefficient, if it is small.
#[inline(always)]
fn sixteen_times(dc: i64) -> Option<[i16; 16]>
    ensures value { (dcs : List ℤ) → result ≡ Some dcs → dcs ≡ replicate 16 dc }
    ensures small { (dcs : List ℤ) → result ≡ Some dcs → AreSmall 16 dcs }
{
    if dc.unsigned_abs() <= IDCT_MOST {
        Some([dc as i16; 16])
    } else {
        None
    }
}

/// Returns the greatest magnitude of the numbers.
#[inline(always)]
fn greatest(numbers: &[i16; 16]) -> u16
    ensures { (i : ℕ) → i < 16 → unsigned_abs (slice_index_or numbers.now i (pos 0)) ≤ result }
{
    let mut greatest = 0;
    for number in numbers {
        greatest = greatest.max(number.unsigned_abs());
    }
    greatest
}

/// Returns the DC coefficients of luma without a Y2 block, if they are small.
fn own_luma_dcs(tokens: &Tokens, factors: &SegmentFactors) -> Option<[i16; 16]>
    ensures value { (dcs : List ℤ) → result ≡ Some dcs
        → AreDcs 16 dcs (own_dc tokens.now 1 factors.now.y_dc) }
    ensures small { (dcs : List ℤ) → result ≡ Some dcs → AreSmall 16 dcs }
{
    let Some(upper) = eight_dcs(tokens, 1, &factors.y_dc) else {
        return None;
    };
    let Some(lower) = eight_dcs(tokens, 9, &factors.y_dc) else {
        return None;
    };
    Some(joined(i16x8::from_array(upper), i16x8::from_array(lower)))
}

/// Returns the numbers of two vectors, one after the other.
#[inline(always)]
fn joined(upper: i16x8, lower: i16x8) -> [i16; 16]
    ensures upper { (j : ℕ) → j < 8 → slice_index_or result j (pos 0) ≡ lane upper j }
    ensures lower { (j : ℕ) → j < 8 → slice_index_or result (8 + j) (pos 0) ≡ lane lower j }
{
    upper
        .shuffle::<16>(
            lower,
            [0, 1, 2, 3, 4, 5, 6, 7, 8, 9, 10, 11, 12, 13, 14, 15],
        )
        .to_array()
}

/// Returns the DC coefficients of eight blocks, from block `first` on, from their own levels, if they are small.
#[inline(always)]
pub(crate) fn eight_dcs(tokens: &Tokens, first: usize, factor: &ShortFactor) -> Option<[i16; 8]>
    requires { first + 8 ≤ 25 }
    ensures value { (dcs : List ℤ) (dc : ℕ) → result ≡ Some dcs → IsShortFactor factor.now dc 2200
        → AreDcs 8 dcs (own_dc tokens.now first dc) }
    ensures small { (dcs : List ℤ) (dc : ℕ) → result ≡ Some dcs → IsShortFactor factor.now dc 2200
        → AreSmall 8 dcs }
{
    factor.products(dc_levels(tokens, first))
}

/// Returns the DC levels of eight blocks, from block `first` on.
#[inline(always)]
fn dc_levels(tokens: &Tokens, first: usize) -> i16x8
    requires { first + 8 ≤ 25 }
    ensures value { (k : ℕ) → k < 8 → lane result k
        ≡ slice_index_or (block_of tokens.now (first + k)).levels 0 (pos 0) }
    ensures small { (k : ℕ) → k < 8 → unsigned_abs (lane result k) ≤ 2114 }
{
    i16x8::from_array([
        dc_level(tokens, first),
        dc_level(tokens, first + 1),
        dc_level(tokens, first + 2),
        dc_level(tokens, first + 3),
        dc_level(tokens, first + 4),
        dc_level(tokens, first + 5),
        dc_level(tokens, first + 6),
        dc_level(tokens, first + 7),
    ])
}

/// Returns the DC level of block `n`.
#[inline(always)]
fn dc_level(tokens: &Tokens, n: usize) -> i16
    requires { n < 25 }
    ensures value { result ≡ slice_index_or (block_of tokens.now n).levels 0 (pos 0) }
    ensures small { unsigned_abs result ≤ 2114 }
{
    block_of(tokens, n).levels[0]
}

/// Returns the DC coefficients of luma, of any size, with a Y2 block or without.
pub(crate) fn large_luma_dcs(y2: bool, tokens: &Tokens, factors: &Factors) -> [i64; 16]
    ensures value { AreDcs 16 result (luma_dc y2 tokens.now factors.now) }
    ensures within { EachWithin (2 ^ 40) result }
{
    if y2 {
        luma_dcs(tokens, factors)
    } else {
        own_dcs(tokens, 1, 16, factors.y_dc)
    }
}

/// Returns the DC coefficients of luma from the Y2 block, of any size.
fn luma_dcs(tokens: &Tokens, factors: &Factors) -> [i64; 16]
    ensures value { result ≡ luma_dcs tokens.now factors.now }
    ensures within { EachWithin (2 ^ 40) result }
{
    let levels = &block_of(tokens, 0).levels;
    iwht(&dequant(levels, factors.y2_dc, factors.y2_ac))
}

/// Returns the DC coefficients, of any size, of the `count` blocks from block `first` on, from their own levels.
pub(crate) fn own_dcs(tokens: &Tokens, first: usize, count: usize, dc: u16) -> [i64; 16]
    requires blocks { first + count ≤ 25 }
    requires few { count ≤ 16 }
    ensures value { AreDcs count result (own_dc tokens.now first dc) }
    ensures within { EachWithin (2 ^ 40) result }
{
    let mut dcs = [0; 16];
    for k in 0..count {
        dcs[k] = scaled_dc(&block_of(tokens, first + k).levels, dc);
    }
    dcs
}
