//! Searches and refinements of macroblocks of a plane, by one call each: tests make them, and no encoder does.

ghost use Rattle.std.specs.Prelude.{◌≡◌, pos, ◌+◌, ◌*◌, ◌<◌, ◌≤◌, ◌-ℤ◌, ◌*ℤ◌, unsigned_abs};
ghost use Rattle.vp_search.specs.Vectors.{quarters, IsNear};
ghost use Rattle.vp_search.specs.Differences.{block16};
ghost use Rattle.vp_search.specs.Blocks.{macroblock_pixels, whole_cost, quarter_cost};
ghost use Rattle.vp_search.specs.Least.{IsLeast};
ghost use Rattle.vp_search.specs.Refined.{IsRefined};

use crate::block::cut_luma;
use crate::difference::sad16;
use crate::refinement::refine_found;
use crate::searcher::Searcher;
use crate::vector::{Found, QuarterVector, Refined, WholeVector, quarters};
use vp_base::{Place, Plane};
use vp_inter::{luma_vector, predict_block};

/// Searches as `Searcher` does without sums and without a limit.
pub fn search_block(block: &[u8; 256], reference: &Plane, place: Place, range: u8) -> Found
    requires columns { 16 * place.column ≤ 16384 }
    requires rows { 16 * place.row ≤ 16384 }
    requires wide { 0 < reference.now.width }
    requires high { 0 < reference.now.height }
    requires range { range ≤ 64 }
    ensures cost { result.cost ≡ whole_cost (block16 block.now) reference.now place result.vector }
    ensures least { IsLeast range (whole_cost (block16 block.now) reference.now place) result.vector }
    ensures predicted { result.cost ≡ quarter_cost (block16 block.now) reference.now place (quarters result.vector) }
{
    let mut searcher = Searcher::without_sums(reference, range);
    searcher.search(block, place, u32::MAX).unwrap()
}

/// Searches as `search_block` does, for the source macroblock at `place`. Both planes are luma planes of whole
/// macroblocks.
pub fn full_search(source: &Plane, reference: &Plane, place: Place, range: u8) -> Found
    requires columns { 16 * place.column + 16 ≤ source.now.width }
    requires rows { 16 * place.row + 16 ≤ source.now.height }
    requires wide { 0 < reference.now.width }
    requires high { 0 < reference.now.height }
    requires range { range ≤ 64 }
    ensures cost { result.cost ≡ whole_cost (macroblock_pixels source.now place) reference.now place result.vector }
    ensures least { IsLeast range (whole_cost (macroblock_pixels source.now place) reference.now place) result.vector }
    ensures predicted { result.cost ≡ quarter_cost (macroblock_pixels source.now place) reference.now place
        (quarters result.vector) }
{
    let _known = [source.width(), source.height()];
    search_block(&cut_luma(source, place), reference, place, range)
}

/// Refines a vector as `refine_found` does, for the source macroblock at `place`.
pub fn refine(source: &Plane, reference: &Plane, place: Place, centre: WholeVector) -> Refined
    requires columns { 16 * place.column + 16 ≤ source.now.width }
    requires rows { 16 * place.row + 16 ≤ source.now.height }
    requires wide { 0 < reference.now.width }
    requires high { 0 < reference.now.height }
    requires near { IsNear 16384 centre }
    ensures cost { result.cost ≡ quarter_cost (macroblock_pixels source.now place) reference.now place result.vector }
    ensures refined { IsRefined (quarter_cost
        (macroblock_pixels source.now place) reference.now place) centre result.vector }
    ensures row { unsigned_abs (result.vector.row -ℤ pos 4 *ℤ centre.row) ≤ 3 }
    ensures column { unsigned_abs (result.vector.column -ℤ pos 4 *ℤ centre.column) ≤ 3 }
{
    let _known = [source.width(), source.height()];
    refine_block(&cut_luma(source, place), reference, place, centre)
}

/// Refines a vector as `refine_found` does, which makes its cost.
pub fn refine_block(
    block: &[u8; 256],
    reference: &Plane,
    place: Place,
    centre: WholeVector,
) -> Refined
    requires columns { 16 * place.column ≤ 16384 }
    requires rows { 16 * place.row ≤ 16384 }
    requires wide { 0 < reference.now.width }
    requires high { 0 < reference.now.height }
    requires near { IsNear 16384 centre }
    ensures cost { result.cost ≡ quarter_cost (block16 block.now) reference.now place result.vector }
    ensures refined { IsRefined (quarter_cost (block16 block.now) reference.now place) centre result.vector }
    ensures row { unsigned_abs (result.vector.row -ℤ pos 4 *ℤ centre.row) ≤ 3 }
    ensures column { unsigned_abs (result.vector.column -ℤ pos 4 *ℤ centre.column) ≤ 3 }
{
    let [x, y] = [16 * place.column, 16 * place.row];
    let QuarterVector { row, column } = quarters(centre);
    let prediction = predict_block::<16, 256>(reference, x, y, luma_vector(row, column), 0);
    let found = Found {
        vector: centre,
        cost: sad16(block, &prediction),
    };
    refine_found(block, reference, place, found)
}
