//! Refinement of a vector to quarter pixels.

ghost use Rattle.std.specs.Prelude.{◌≡◌, ℕ, ℤ, pos, negsuc, ◌+◌, ◌*◌, ◌<◌, ◌≤◌, ◌⊎◌, ◌+ℤ◌, ◌-ℤ◌, ◌*ℤ◌, ◌≤ℤ◌};
ghost use Rattle.std.specs.Prelude.{unsigned_abs};
ghost use Rattle.vp_search.specs.Vectors.{quarters, IsNear};
ghost use Rattle.vp_search.specs.Differences.{block16};
ghost use Rattle.vp_search.specs.Blocks.{quarter_cost};
ghost use Rattle.vp_search.specs.Refined.{candidates_around, IsBestOf, IsRefined};
ghost use Rattle.vp_search.specs.Columns.{IsColumn, AreWithin, AreBestOf};

use crate::columns::{cost_of_row, costs_above_and_below};
use crate::least::first_least;
use crate::rows::Block;
use crate::vector::{Found, QuarterVector, Refined, quarters};
use vp_base::{Place, Plane};
use vp_inter::{FilteredRows, luma_vector};

/// Refines a vector, whose cost is known as a search returns it, to quarter pixels, for a macroblock at `place` with
/// luma `block` in raster order. First the best of the vector and its eight neighbours half a pixel away is chosen;
/// then the best of that one and its eight neighbours a quarter pixel away. Of equal costs the middle one is chosen,
/// then the first in raster order. Prediction uses the six-tap filter of version 0 (RFC 6386, chapter 18).
pub fn refine_found(block: &[u8; 256], reference: &Plane, place: Place, found: Found) -> Refined
    requires columns { 16 * place.column ≤ 16384 }
    requires rows { 16 * place.row ≤ 16384 }
    requires wide { 0 < reference.now.width }
    requires high { 0 < reference.now.height }
    requires near { IsNear 16384 found.vector }
    requires cost { found.cost ≡ quarter_cost (block16 block.now) reference.now place (quarters found.vector) }
    ensures cost { result.cost ≡ quarter_cost (block16 block.now) reference.now place result.vector }
    ensures refined { IsRefined (quarter_cost (block16 block.now) reference.now place) found.vector result.vector }
    ensures row { unsigned_abs (result.vector.row -ℤ pos 4 *ℤ found.vector.row) ≤ 3 }
    ensures column { unsigned_abs (result.vector.column -ℤ pos 4 *ℤ found.vector.column) ≤ 3 }
{
    let middle = Refined {
        vector: quarters(found.vector),
        cost: found.cost,
    };
    // Nothing costs less than 0, and of equal costs the middle one is chosen.
    if middle.cost == 0 {
        return middle;
    }
    let target = Target {
        block: &Block::of(block),
        reference,
        place,
        above: found.vector.row - 1,
    };
    refine_target(target, middle)
}

/// What is refined: a block, the reference that it is predicted from, and the row of whole pixels above the vectors
/// that are tried.
#[derive(Clone, Copy)]
struct Target<'a> {
    block: &'a Block<'a>,
    reference: &'a Plane,
    place: Place,
    above: i32,
    ghost wide: { 0 < reference.now.width },
    ghost high: { 0 < reference.now.height },
    ghost columns: { 16 * place.column ≤ 16384 },
    ghost rows: { 16 * place.row ≤ 16384 },
    ghost near: { (negsuc 16384 ≤ℤ above) × (above ≤ℤ pos 16383) },
}

/// Refines a vector of whole pixels that costs something. A column that was tried by half pixels is not filtered again.
fn refine_target(target: Target, middle: Refined) -> Refined
    requires row { middle.vector.row ≡ pos 4 *ℤ target.above +ℤ pos 4 }
    requires column { unsigned_abs middle.vector.column ≤ 4 * 16384 }
    requires cost { middle.cost
        ≡ quarter_cost (block16 target.block.now) target.reference.now target.place middle.vector }
    ensures cost { result.cost
        ≡ quarter_cost (block16 target.entry.block.now) target.entry.reference.now target.entry.place result.vector }
    ensures refined { AreBestOf (quarter_cost
        (block16 target.entry.block.now) target.entry.reference.now target.entry.place) middle.vector result.vector }
    ensures row { unsigned_abs (result.vector.row -ℤ middle.vector.row) ≤ 3 }
    ensures column { unsigned_abs (result.vector.column -ℤ middle.vector.column) ≤ 3 }
{
    let column = middle.vector.column;
    let mut left = FilteredRows::new();
    let mut own = FilteredRows::new();
    let mut right = FilteredRows::new();
    filter_column(target, column - 2, &mut left);
    filter_column(target, column, &mut own);
    filter_column(target, column + 2, &mut right);
    let halves = costs_around(target, &left, &own, &right, middle, 2);
    let halfway = best_of(middle, 2, &halves);
    let column = halfway.vector.column;
    let nearest = column_beside(&left, &own, &right, column - middle.vector.column);
    let mut before = FilteredRows::new();
    let mut after = FilteredRows::new();
    filter_column(target, column - 1, &mut before);
    filter_column(target, column + 1, &mut after);
    let quarters = costs_around(target, &before, nearest, &after, halfway, 1);
    best_of(halfway, 1, &quarters)
}

/// The first of the least costs of `centre` and its eight neighbours at a distance, in the order of `around`. A cost
/// above that of `centre` need not be exact.
fn best_of(centre: Refined, distance: i32, costs: &[u32; 9]) -> Refined
    requires row { unsigned_abs centre.vector.row ≤ 4 * 16384 + 2 }
    requires column { unsigned_abs centre.vector.column ≤ 4 * 16384 + 2 }
    requires distance { (pos 1 ≤ℤ distance) × (distance ≤ℤ pos 2) }
    ensures best { (cost : QuarterVector → ℕ) → centre.cost ≡ cost centre.vector
        → AreWithin costs.now cost centre distance
        → IsBestOf cost centre.vector distance result.vector × (result.cost ≡ cost result.vector) }
    ensures row { unsigned_abs (result.vector.row -ℤ centre.vector.row) ≤ unsigned_abs distance }
    ensures column { (result.vector.column ≡ centre.vector.column -ℤ distance)
        ⊎ (result.vector.column ≡ centre.vector.column)
        ⊎ (result.vector.column ≡ centre.vector.column +ℤ distance) }
{
    let vectors = around(centre.vector, distance);
    let best = first_least(costs);
    Refined {
        vector: vectors[best],
        cost: costs[best],
    }
}

/// Filters the rows of the vectors with a column.
fn filter_column(target: Target, column: i32, rows: &mut FilteredRows)
    requires { unsigned_abs column ≤ 4 * 16384 + 4 }
    ensures { IsColumn target.entry.reference.now target.entry.place target.entry.above column rows.new }
{
    let [x, y] = [16 * target.place.column, 16 * target.place.row];
    let first = luma_vector(4 * target.above, column);
    rows.filter(target.reference, x, y, first);
}

/// The column that lies `beside` quarter pixels to the right of `own`: -2, 0 or 2.
fn column_beside<'a>(
    left: &'a FilteredRows,
    own: &'a FilteredRows,
    right: &'a FilteredRows,
    beside: i32,
) -> &'a FilteredRows
    ensures left { beside ≡ negsuc 1 → result.now ≡ left.now }
    ensures own { beside ≡ pos 0 → result.now ≡ own.now }
    ensures right { beside ≡ pos 2 → result.now ≡ right.now }
{
    match beside {
        -2 => left,
        0 => own,
        _ => right,
    }
}

/// The cost of `centre`, which is known, and those of its eight neighbours `distance` quarter pixels away, in the order
/// of `around`, from the filtered rows of their three columns. A cost above that of `centre` need not be exact.
fn costs_around(
    target: Target,
    left: &FilteredRows,
    own: &FilteredRows,
    right: &FilteredRows,
    centre: Refined,
    distance: usize,
) -> [u32; 9]
    requires cost { centre.cost
        ≡ quarter_cost (block16 target.block.now) target.reference.now target.place centre.vector }
    requires left { IsColumn target.reference.now target.place target.above
        (centre.vector.column -ℤ pos distance) left.now }
    requires own { IsColumn target.reference.now target.place target.above centre.vector.column own.now }
    requires right { IsColumn target.reference.now target.place target.above
        (centre.vector.column +ℤ pos distance) right.now }
    requires above { (pos 4 *ℤ target.above +ℤ pos 2) ≤ℤ centre.vector.row }
    requires below { centre.vector.row ≤ℤ (pos 4 *ℤ target.above +ℤ pos 6) }
    requires distance { (1 ≤ distance) × (distance ≤ 2) }
    requires halves { distance ≡ 2 → centre.vector.row ≡ pos 4 *ℤ target.above +ℤ pos 4 }
    ensures { AreWithin result (quarter_cost
        (block16 target.entry.block.now) target.entry.reference.now target.entry.place) centre (pos distance) }
{
    let (block, limit) = (target.block, centre.cost);
    let down = (centre.vector.row - 4 * target.above) as usize;
    let [above_left, below_left] = costs_above_and_below(block, left, down, distance, limit);
    let [above, below] = costs_above_and_below(block, own, down, distance, limit);
    let [above_right, below_right] = costs_above_and_below(block, right, down, distance, limit);
    [
        limit,
        above_left,
        above,
        above_right,
        cost_of_row(block, left, down, limit),
        cost_of_row(block, right, down, limit),
        below_left,
        below,
        below_right,
    ]
}

/// A vector, then its eight neighbours at a distance in raster order.
fn around(centre: QuarterVector, distance: i32) -> [QuarterVector; 9]
    requires row { unsigned_abs centre.row ≤ 4 * 16384 + 2 }
    requires column { unsigned_abs centre.column ≤ 4 * 16384 + 2 }
    requires distance { unsigned_abs distance ≤ 2 }
    ensures { result ≡ candidates_around centre distance }
{
    let QuarterVector { row, column } = centre;
    let (above, below) = (row - distance, row + distance);
    let (left, right) = (column - distance, column + distance);
    [
        centre,
        QuarterVector {
            row: above,
            column: left,
        },
        QuarterVector { row: above, column },
        QuarterVector {
            row: above,
            column: right,
        },
        QuarterVector { row, column: left },
        QuarterVector { row, column: right },
        QuarterVector {
            row: below,
            column: left,
        },
        QuarterVector { row: below, column },
        QuarterVector {
            row: below,
            column: right,
        },
    ]
}
