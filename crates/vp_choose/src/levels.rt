//! Computes the levels of a macroblock: the forward transforms of source minus prediction, quantised.

ghost use Rattle.std.specs.Prelude.{◌≡◌, ℕ, ◌+◌, ◌*◌, ◌/◌, ◌%◌, ◌<◌, ◌≤◌, pos, length};
ghost use Rattle.std.specs.Prelude.{true, Bool, slice_index_or, unsigned_abs};
ghost use Rattle.vp_tokens.specs.declared.contexts.Tokens.{Tokens};
ghost use Rattle.vp_tokens.specs.Block.{no_tokens};
ghost use Rattle.vp_transform.specs.Fits.{EachWithin};
ghost use Rattle.vp_intra.specs.Edges.{block as listed};
ghost use Rattle.vp_choose.specs.Levels.{ArePositive, HasLumaAndY2, part, coefficients, quantised_levels};
ghost use Rattle.vp_choose.specs.Levels.{part_coefficients};
ghost use Rattle.vp_choose.specs.Coding.{AreWritable, HaveLuma, IsEnded};

use vp_quant::{Factors, quantise_block};
use vp_tokens::Block;
use vp_transform::{differences, fdct_short, fwht_short};

/// Returns subblock `k` of a block that is `ACROSS` subblocks wide and high.
#[tactic(auto, using(crate::proofs::Listed::part_listed))]
pub(crate) fn part_of<const ACROSS: usize>(block: &[u8], k: usize) -> [u8; 16]
    requires some { 0 < ACROSS }
    requires size { ACROSS ≤ 4 }
    requires block { length block.now ≡ 4 * ACROSS * (4 * ACROSS) }
    requires k { k < ACROSS * ACROSS }
    ensures { (f : ℕ → ℕ → ℕ) → block.now ≡ listed (4 * ACROSS) f → result ≡ listed 4 (part ACROSS f k) }
{
    let width = 4 * ACROSS;
    let first = 4 * (k / ACROSS) * width + 4 * (k % ACROSS);
    let mut part = [0; 16];
    for i in 0..16 {
        part[i] = block[first + i / 4 * width + i % 4];
    }
    part
}

/// Returns the coefficients of a subblock: the forward transform of source minus prediction.
#[tactic(auto, unfolding(crate::specs::Levels::coefficients))]
pub(crate) fn coefficients(source: &[u8; 16], prediction: &[u8; 16]) -> [i16; 16]
    ensures value { (f g : ℕ → ℕ → ℕ) → source.now ≡ listed 4 f → prediction.now ≡ listed 4 g
        → result ≡ coefficients f g }
    ensures within { EachWithin 2040 result }
{
    fdct_short(&differences(source, prediction))
}

/// Quantises a block of coefficients and puts the levels in zigzag order. The DC coefficient is quantised by `dc`, the
/// others by `ac`.
#[tactic(auto, unfolding(crate::specs::Levels::quantised_levels))]
pub(crate) fn quantised_levels(coefficients: &[i16; 16], dc: u16, ac: u16) -> [i16; 16]
    requires dc { 1 ≤ dc }
    requires ac { 1 ≤ ac }
    requires range { EachWithin 16320 coefficients.now }
    ensures value { result ≡ quantised_levels coefficients.now dc ac }
    ensures within { (i : ℕ) → unsigned_abs (slice_index_or result i (pos 0)) ≤ 2047 }
{
    quantise_block(coefficients, dc, ac)
}

/// Quantises a block of coefficients. The block ends after its last nonzero level.
pub(crate) fn quantised(coefficients: &[i16; 16], dc: u16, ac: u16) -> Block
    requires dc { 1 ≤ dc }
    requires ac { 1 ≤ ac }
    requires range { EachWithin 16320 coefficients.now }
    ensures levels { result.levels ≡ quantised_levels coefficients.now dc ac }
    ensures ended { IsEnded result }
{
    Block::of_levels(&quantised_levels(coefficients, dc, ac))
}

/// Returns the blocks of luma with a Y2 block, which codes the DC coefficients. Chroma has no tokens yet.
pub(crate) fn blocks_with_y2(
    source: &[u8; 256],
    prediction: &[u8; 256],
    factors: &Factors,
) -> [Block; 25]
    requires { ArePositive factors.now }
    ensures luma { (f g : ℕ → ℕ → ℕ) → source.now ≡ listed 16 f → prediction.now ≡ listed 16 g
        → (t : Tokens) → HaveLuma result t → HasLumaAndY2 f g factors.now t }
    ensures writable { AreWritable true result }
{
    let mut blocks = [Block::NONE; 25];
    let mut firsts = [0; 16];
    for k in 0..16 {
        let numbers = coefficients(&part_of::<4>(source, k), &part_of::<4>(prediction, k));
        firsts[k] = numbers[0];
        let mut levels = quantised_levels(&numbers, factors.y_dc, factors.y_ac);
        levels[0] = 0;
        blocks[1 + k] = Block::of_levels(&levels);
    }
    blocks[0] = quantised(&fwht_short(&firsts), factors.y2_dc, factors.y2_ac);
    blocks
}

/// Puts the blocks of a chroma plane: 1 is U, 2 is V.
pub(crate) fn put_chroma(
    blocks: &mut [Block; 25],
    plane: usize,
    source: &[u8; 64],
    prediction: &[u8; 64],
    factors: &Factors,
)
    requires factors { ArePositive factors.now }
    requires plane { (1 ≤ plane) × (plane ≤ 2) }
    ensures levels { (f g : ℕ → ℕ → ℕ) → source.now ≡ listed 8 f → prediction.now ≡ listed 8 g → (k : ℕ) → k < 4
        → (slice_index_or blocks.new (13 + 4 * plane + k) no_tokens).levels
        ≡ quantised_levels (part_coefficients 2 f g k) factors.now.uv_dc factors.now.uv_ac }
    ensures others { (k : ℕ) → k < 13 + 4 * plane
        → slice_index_or blocks.new k no_tokens ≡ slice_index_or blocks.old k no_tokens }
    ensures writable { (with_y2 : Bool) → AreWritable with_y2 blocks.old → AreWritable with_y2 blocks.new }
{
    let first = 13 + 4 * plane;
    for k in 0..4 {
        let numbers = coefficients(&part_of::<2>(source, k), &part_of::<2>(prediction, k));
        blocks[first + k] = quantised(&numbers, factors.uv_dc, factors.uv_ac);
    }
}
