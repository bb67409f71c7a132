//! Chooses the modes of the luma subblocks for B_PRED.

ghost use Rattle.std.specs.Prelude.{◌≡◌, ℕ, ◌+◌, ◌*◌, ◌<◌, ◌≤◌, [], slice_index, slice_index_or};
ghost use Rattle.std.specs.Prelude.{false, IfSome, MatchOption};
ghost use Rattle.vp_base.specs.Image.{with_plane};
ghost use Rattle.vp_intra.specs.Edges.{block as listed};
ghost use Rattle.vp_recon.specs.Rebuilt.{with_sub};
ghost use Rattle.vp_recon.specs.Residue.{residue};
ghost use Rattle.vp_search.specs.Differences.{sum_of_differences, block_from_rows};
ghost use Rattle.vp_choose.specs.Costs.{sub_cost};
ghost use Rattle.vp_choose.specs.Levels.{ArePositive};
ghost use Rattle.vp_choose.specs.Coding.{AreWritable, IsEnded, IsRebuiltLuma};
ghost use Rattle.vp_choose.specs.Subblocks.{IsBestMode, AreSubblocksChosen, after_subblocks, sub_levels};
ghost use Rattle.vp_choose.specs.Below.{AreSubblocksOver, IsPartlyRebuilt};

use crate::levels::{coefficients, part_of, quantised};
use vp_base::{Picture, Place};
use vp_intra::predict_sub_modes;
use vp_recon::{SegmentFactors, rebuild_subblock_from};
use vp_search::{cut_luma, first_least, sad4};
use vp_tables::SubMode;
use vp_tokens::Block;

/// The modes in tie-breaking order.
const ORDER: [SubMode; 10] = [
    SubMode::Dc,
    SubMode::Tm,
    SubMode::Ve,
    SubMode::He,
    SubMode::Ld,
    SubMode::Rd,
    SubMode::Vr,
    SubMode::Vl,
    SubMode::Hd,
    SubMode::Hu,
];

/// The modes of the sixteen luma subblocks, in raster order, their blocks, and their cost.
#[derive(Clone, Copy)]
pub(crate) struct Subblocks {
    pub(crate) modes: [SubMode; 16],
    /// The blocks of the macroblock. There is no Y2 block, and chroma has no tokens yet.
    pub(crate) blocks: [Block; 25],
    pub(crate) cost: u32,
}

/// The choice for the sixteen luma subblocks, and the luma that is rebuilt by it, in raster order.
#[derive(Clone, Copy)]
pub(crate) struct RebuiltSubblocks {
    pub(crate) subblocks: Subblocks,
    pub(crate) luma: [u8; 256],
}

/// The mode, the block and the cost of one subblock.
#[derive(Clone, Copy)]
struct Subblock {
    mode: SubMode,
    block: Block,
    cost: u32,
}

/// Returns the cost of each mode: the sum of absolute differences.
fn costs_of(block: &[u8; 16], predictions: &[[u8; 16]; 10]) -> [u32; 10]
    ensures value { (i : ℕ) → i < 10 → slice_index result i ≡ sum_of_differences 4 4
        (block_from_rows 4 block.now) (block_from_rows 4 (slice_index_or predictions.now i [])) }
    ensures bound { (i : ℕ) → slice_index result i ≤ 4080 }
{
    let mut costs = [0; 10];
    for i in 0..10 {
        costs[i] = sad4(block, &predictions[i]);
    }
    costs
}

/// Chooses the mode of one subblock, and rebuilds it. `place` is its own, in columns and rows of subblocks.
fn choose_subblock(
    source: &[u8; 16],
    factors: &SegmentFactors,
    picture: &mut Picture,
    place: Place,
) -> Subblock
    requires columns { 4 * place.column + 4 ≤ picture.old.luma.width }
    requires rows { 4 * place.row + 4 ≤ picture.old.luma.height }
    requires factors { ArePositive factors.now }
    ensures mode { (f : ℕ → ℕ → ℕ) → source.now ≡ listed 4 f → IsBestMode f picture.old.luma place result.mode }
    ensures levels { (f : ℕ → ℕ → ℕ) → source.now ≡ listed 4 f
        → result.block.levels ≡ sub_levels f picture.old.luma place result.mode factors.now }
    ensures cost { (f : ℕ → ℕ → ℕ) → source.now ≡ listed 4 f → result.cost
        ≡ sub_cost f picture.old.luma place result.mode }
    ensures rebuilt { picture.new ≡ with_plane picture.old 0 (with_sub picture.old.luma place result.mode
        (residue result.block.levels factors.now.y_dc factors.now.y_ac)) }
    ensures ended { IsEnded result.block }
    ensures bound { result.cost ≤ 4080 }
{
    let _known = [picture.plane(0).width(), picture.plane(0).height()];
    let predictions = predict_sub_modes(picture.plane(0), 4 * place.column, 4 * place.row);
    let costs = costs_of(source, &predictions);
    let best = first_least(&costs);
    let prediction = predictions[best];
    let numbers = coefficients(source, &prediction);
    let raw = factors.raw();
    let block = quantised(&numbers, raw.y_dc, raw.y_ac);
    rebuild_subblock_from(picture, place, &prediction, &block, factors);
    Subblock {
        mode: ORDER[best],
        block,
        cost: costs[best],
    }
}

/// Chooses the modes of all subblocks of a macroblock, and rebuilds them; None if their cost reaches `limit` while one
/// is left.
fn choose_all(
    source: &[u8; 256],
    factors: &SegmentFactors,
    picture: &mut Picture,
    place: Place,
    limit: u32,
) -> Option<Subblocks>
    requires columns { 16 * place.column + 16 ≤ picture.old.luma.width }
    requires rows { 16 * place.row + 16 ≤ picture.old.luma.height }
    requires factors { ArePositive factors.now }
    ensures chosen { (f : ℕ → ℕ → ℕ) → source.now ≡ listed 16 f → MatchOption result
        (AreSubblocksOver f factors.now place picture.old.luma limit)
        (AreSubblocksChosen f factors.now place picture.old.luma) }
    ensures rebuilt { IsPartlyRebuilt factors.now place picture.old picture.new }
    ensures all_rebuilt { IfSome result (λ s. picture.new ≡ with_plane picture.old 0
        (after_subblocks factors.now place picture.old.luma s 16)) }
    ensures writable { IfSome result (λ s. AreWritable false s.blocks) }
{
    let _known = [picture.plane(0).width(), picture.plane(0).height()];
    let mut modes = [SubMode::Dc; 16];
    let mut blocks = [Block::NONE; 25];
    let mut cost = 0;
    for k in 0..16 {
        if cost >= limit {
            return None;
        }
        let here = Place {
            column: place.column * 4 + k % 4,
            row: place.row * 4 + k / 4,
        };
        let part = part_of::<4>(source, k);
        let chosen = choose_subblock(&part, factors, picture, here);
        modes[k] = chosen.mode;
        blocks[1 + k] = chosen.block;
        cost += chosen.cost;
    }
    Some(Subblocks {
        modes,
        blocks,
        cost,
    })
}

/// Returns the choice for all subblocks of a macroblock, and the luma rebuilt by it; None if it costs `limit` or more.
/// The picture is used as scratch memory and restored.
pub(crate) fn choose_subblocks(
    source: &[u8; 256],
    factors: &SegmentFactors,
    picture: &mut Picture,
    place: Place,
    limit: u32,
) -> Option<RebuiltSubblocks>
    requires columns { 16 * place.column + 16 ≤ picture.old.luma.width }
    requires rows { 16 * place.row + 16 ≤ picture.old.luma.height }
    requires factors { ArePositive factors.now }
    ensures chosen { (f : ℕ → ℕ → ℕ) → source.now ≡ listed 16 f → MatchOption result
        (AreSubblocksOver f factors.now place picture.old.luma limit)
        (λ s. AreSubblocksChosen f factors.now place picture.old.luma s.subblocks) }
    ensures rebuilt { IfSome result (λ s. IsRebuiltLuma factors.now place picture.old.luma s.subblocks s.luma) }
    ensures kept { picture.new ≡ picture.old }
    ensures below { IfSome result (λ s. s.subblocks.cost < limit) }
{
    let _known = [picture.plane(0).width(), picture.plane(0).height()];
    let kept = cut_luma(picture.plane(0), place);
    let chosen = choose_all(source, factors, picture, place, limit);
    let luma = cut_luma(picture.plane(0), place);
    picture.write_block::<16>(0, 16 * place.column, 16 * place.row, &kept);
    match chosen {
        Some(subblocks) if subblocks.cost < limit => Some(RebuiltSubblocks { subblocks, luma }),
        _ => None,
    }
}
