//! The residues of a macroblock's subblocks (RFC 6386, chapter 14).

ghost use Rattle.std.specs.Prelude.{◌≡◌, ℕ, ◌+◌, ◌*◌, ◌<◌, ◌≤◌, ◌^◌, ℤ, pos, ◌*ℤ◌, List, true};
ghost use Rattle.std.specs.Prelude.{slice_index, slice_index_or, unsigned_abs, Some};
ghost use Rattle.vp_transform.specs.Transform.{idct, rounded};
ghost use Rattle.vp_quant.specs.Short.{IsShortFactor, coefficients_after};
ghost use Rattle.vp_tokens.specs.Blocks.{block_of};
ghost use Rattle.vp_transform.specs.Pair.{row_in};
ghost use Rattle.vp_lanes.specs.Lane.{lane};
ghost use Rattle.vp_recon.specs.Rebuilt.{summed};
ghost use Rattle.vp_recon.specs.Residue.{residue};
ghost use Rattle.vp_recon.specs.Parts.{HasBlocks, HasTokens, HasUpTo, residue_in, large_residue_in};
ghost use Rattle.vp_recon.specs.Sums.{HasEqualSums, AreLow, AreRows, Four};

use crate::add::summed;
use crate::residue_inputs::{LargeInputs, SmallInputs};
use crate::segment_factors::{IDCT_MOST, SegmentFactors};
use std::simd::prelude::*;
use vp_lanes::clamp_i16;
use vp_quant::{ShortFactor, dequant};
use vp_tokens::{Block, Tokens};
use vp_transform::{idct_cut, idct_interleaved, idct_short};

/// Returns block `n`: 0 is Y2, 1 to 16 are luma, 17 to 20 U, and 21 to 24 V.
pub(crate) fn block_of(tokens: &Tokens, n: usize) -> &Block
    requires { n < 25 }
    ensures { result.now ≡ block_of tokens.now n }
{
    &tokens.blocks[n]
}

/// Returns the bitwise OR of the end positions of the `count` blocks from block `first` on: at least the greatest of
/// them, and 0 or 1 only if that is.
#[inline(always)]
pub(crate) fn ends_in(tokens: &Tokens, first: usize, count: usize) -> u8
    requires { first + count ≤ 25 }
    ensures { (i : ℕ) → i < count → HasUpTo result (block_of tokens.now (first + i)) }
{
    let mut ends = 0;
    for i in 0..count {
        ends |= block_of(tokens, first + i).end;
    }
    ends
}

/// Returns the end position of the Y2 block, or 0 if the macroblock has none.
#[inline(always)]
pub(crate) fn y2_end(y2: bool, tokens: &Tokens) -> u8
    ensures { y2 ≡ true → HasUpTo result (block_of tokens.now 0) }
{
    if y2 { block_of(tokens, 0).end } else { 0 }
}

/// Returns the DC coefficient of a block, dequantised.
pub(crate) fn scaled_dc(levels: &[i16; 16], dc: u16) -> i64
    ensures value { result ≡ slice_index_or levels.now 0 (pos 0) *ℤ pos dc }
    ensures within { unsigned_abs result ≤ 2 ^ 31 }
{
    i64::from(levels[0]) * i64::from(dc)
}

/// Returns the residue of each pixel of a subblock that has a DC coefficient only.
#[inline(always)]
fn dc_residue(dc: i16) -> i16
    requires { unsigned_abs dc ≤ 2200 }
    ensures value { result ≡ rounded dc }
    ensures within { unsigned_abs result ≤ 275 }
{
    (dc + 4) >> 3
}

/// Returns the residue of a subblock, clamped to -255..255, for coefficients of any size.
pub(crate) fn large_residue(block: &Block, dc: i64, ac: u16) -> [i16; 16]
    requires { unsigned_abs dc ≤ 2 ^ 40 }
    ensures value { HasEqualSums result (idct (coefficients_after dc block.now.levels ac)) }
    ensures low { AreLow 16 result }
{
    let mut coefficients = dequant(&block.levels, 0, ac);
    coefficients[0] = dc;
    held(idct_cut(&coefficients))
}

/// Clamps each number to -255..255: more makes no difference to a pixel.
fn held(numbers: [i16; 16]) -> [i16; 16]
    ensures value { (residue : List ℤ) → HasEqualSums numbers residue → HasEqualSums result residue }
    ensures low { AreLow 16 result }
{
    clamp_i16(i16x16::from_array(numbers), -255, 255).to_array()
}

/// Adds the residue of a luma subblock without a Y2 block to its prediction.
pub(crate) fn with_residue(prediction: u8x16, block: &Block, factors: &SegmentFactors) -> u8x16
    ensures { (r c : ℕ) → r < 4 → c < 4 → slice_index result (r * 4 + c) ≡ summed (slice_index prediction (r * 4 + c))
        (slice_index_or (residue block.now.levels factors.now.y_dc factors.now.y_ac) (4 * r + c) (pos 0)) }
{
    if block.end == 0 {
        return prediction;
    }
    let numbers = own_residue(block, factors);
    summed::<16>(prediction, i16x16::from_array(numbers))
}

/// Returns numbers that add up like the residue of a luma subblock without a Y2 block.
fn own_residue(block: &Block, factors: &SegmentFactors) -> [i16; 16]
    ensures value { HasEqualSums result (residue block.now.levels factors.now.y_dc factors.now.y_ac) }
    ensures low { AreLow 16 result }
{
    let dc = scaled_dc(&block.levels, factors.raw.y_dc);
    if dc.unsigned_abs() > IDCT_MOST {
        return large_residue(block, dc, factors.raw.y_ac);
    }
    let small = dc as i16;
    if block.end <= 1 {
        return [dc_residue(small); 16];
    }
    match factors.y_ac.coefficients(block.levels, small) {
        Some(coefficients) => idct_short(&coefficients),
        None => large_residue(block, dc, factors.raw.y_ac),
    }
}

impl<'a> LargeInputs<'a> {
    /// Returns numbers that add up like the residue of subblock `k`.
    pub(crate) fn clamped_residue(&self, k: usize) -> [i16; 16]
        requires subblock { k < 16 }
        requires block { self.now.first + k < 25 }
        ensures value { HasEqualSums result (large_residue_in self.now k) }
        ensures low { AreLow 16 result }
    {
        let block = block_of(self.tokens, self.first + k);
        large_residue(block, self.dcs[k], self.ac)
    }
}

impl<'a> SmallInputs<'a> {
    /// Returns numbers that add up like the residue of subblock `k`.
    pub(crate) fn clamped_residue(&self, k: usize) -> [i16; 16]
        requires subblock { HasBlocks self.now (k + 1) }
        ensures value { HasEqualSums result (residue_in self.now k) }
        ensures low { AreLow 16 result }
    {
        let block = block_of(self.tokens, self.first + k);
        large_residue(block, i64::from(self.dcs[k]), self.ac)
    }

    /// Returns four rows of eight numbers that are the residues of subblocks `k` and `k + 1` side by side, if the AC
    /// coefficients are from -2,200 to 2,200. `factor` is the AC factor, made ready.
    #[inline(always)]
    pub(crate) fn idct_of_two(
        &self,
        k: usize,
        factor: &ShortFactor,
    ) -> Option<(i16x8, i16x8, i16x8, i16x8)>
        requires subblocks { HasBlocks self.now (k + 2) }
        requires factor { IsShortFactor factor.now self.now.ac 2200 }
        ensures { (v : Four) → result ≡ Some v → AreRows 8 v.0 v.1 v.2 v.3 (λ i. residue_in self.now (k + i)) }
    {
        let n = self.first + k;
        let left = block_of(self.tokens, n).levels;
        let right = block_of(self.tokens, n + 1).levels;
        let dcs = [self.dcs[k], self.dcs[k + 1]];
        let Some(rows) = factor.coefficients_of_two(left, right, dcs) else {
            return None;
        };
        let (a, b, c, d) = rows;
        Some(idct_interleaved(a, b, c, d))
    }

    /// Returns a row of the residues of subblocks `k` and `k + 1`, which have DC coefficients only: then their rows are
    /// all equal.
    #[inline(always)]
    pub(crate) fn dc_row_of_two(&self, k: usize) -> i16x8
        requires subblocks { HasBlocks self.now (k + 2) }
        requires dc_only { (i : ℕ) → i < 2 → HasTokens 1 self.now (k + i) }
        ensures { AreRows 8 result result result result (λ i. residue_in self.now (k + i)) }
    {
        flat_row(dc_residue(self.dcs[k]), dc_residue(self.dcs[k + 1]))
    }

    /// Returns a row of the residues of subblocks `k` to `k + 3`, which have DC coefficients only.
    #[inline(always)]
    pub(crate) fn dc_row_of_four(&self, k: usize) -> i16x16
        requires subblocks { HasBlocks self.now (k + 4) }
        requires dc_only { (i : ℕ) → i < 4 → HasTokens 1 self.now (k + i) }
        ensures { AreRows 16 result result result result (λ i. residue_in self.now (k + i)) }
    {
        four_times(dc_residues(i16x4::from_slice(&self.dcs[k..])))
    }
}

/// Returns a row of the residues of two subblocks, each of which has one value for all its pixels.
fn flat_row(left: i16, right: i16) -> i16x8
    ensures left { (j : ℕ) → j < 4 → lane result j ≡ left }
    ensures right { (j : ℕ) → j < 4 → lane result (4 + j) ≡ right }
{
    i16x8::splat(left).shuffle::<8>(i16x8::splat(right), [0, 1, 2, 3, 8, 9, 10, 11])
}

/// Returns what `dc_residue` does of each lane.
#[inline(always)]
fn dc_residues(dcs: i16x4) -> i16x4
    requires { (j : ℕ) → j < 4 → unsigned_abs (lane dcs j) ≤ 2200 }
    ensures { (j : ℕ) → j < 4 → lane result j ≡ rounded (lane dcs j) }
{
    (dcs + i16x4::splat(4)) >> 3
}

/// Returns each lane four times.
#[inline(always)]
fn four_times(v: i16x4) -> i16x16
    ensures { (i : ℕ) → i < 4 → (j : ℕ) → j < 4 → lane result (4 * i + j) ≡ lane v i }
{
    v.swizzle::<16>([0, 0, 0, 0, 1, 1, 1, 1, 2, 2, 2, 2, 3, 3, 3, 3])
}

/// Returns the rows of two subblocks side by side.
pub(crate) fn side_by_side(left: [i16; 16], right: [i16; 16]) -> (i16x8, i16x8, i16x8, i16x8)
    ensures top { result.0 ≡ row_in left right 0 }
    ensures upper { result.1 ≡ row_in left right 1 }
    ensures lower { result.2 ≡ row_in left right 2 }
    ensures bottom { result.3 ≡ row_in left right 3 }
{
    let left = i16x16::from_array(left);
    let right = i16x16::from_array(right);
    (
        left.shuffle::<8>(right, [0, 1, 2, 3, 16, 17, 18, 19]),
        left.shuffle::<8>(right, [4, 5, 6, 7, 20, 21, 22, 23]),
        left.shuffle::<8>(right, [8, 9, 10, 11, 24, 25, 26, 27]),
        left.shuffle::<8>(right, [12, 13, 14, 15, 28, 29, 30, 31]),
    )
}
