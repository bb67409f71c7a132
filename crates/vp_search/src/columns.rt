//! The costs of vectors of one column, from rows that they share. A cost is only followed as far as a limit.

ghost use Rattle.std.specs.Prelude.{◌≡◌, ℤ, pos, ◌+◌, ◌-◌, ◌*◌, ◌<◌, ◌≤◌, ◌+ℤ◌, ◌*ℤ◌, slice_index};
ghost use Rattle.vp_base.specs.Raster.{Raster};
ghost use Rattle.vp_search.specs.Differences.{sum_of_differences, block16};
ghost use Rattle.vp_search.specs.Blocks.{quarter_cost};
ghost use Rattle.vp_search.specs.Columns.{IsWithin, IsColumn, filtered};

use crate::difference::sad_up_to;
use crate::kernel::{FourRows, four_differences, load_rows};
use crate::rows::Block;
use vp_base::Place;
use vp_inter::{FilteredRows, VerticalFilter};

/// The cost of the vector `down` quarter pixels below the one that `rows` were filtered for, whose row is in whole
/// pixels. If it is above `limit`, returns some number above `limit`.
pub(crate) fn cost_of_row(block: &Block, rows: &FilteredRows, down: usize, limit: u32) -> u32
    requires { down < 8 }
    ensures { (p : Raster) (place : Place) (whole column : ℤ) → IsColumn p place whole column rows.now
        → IsWithin limit result (quarter_cost (block16 block.now) p place
        (record { row = pos 4 *ℤ whole +ℤ pos down; column = column })) }
{
    let skip = down / 4;
    let eighths = 2 * (down % 4);
    if eighths == 0 {
        return sad_up_to(block, rows.rows(), 16 * (skip + 2), 16, limit);
    }
    let mut sum = 0;
    add_cost(
        &mut sum,
        block,
        rows,
        &VerticalFilter::of(eighths),
        skip,
        limit,
    );
    sum
}

/// The costs of two vectors: `down - distance` and `down + distance` quarter pixels below the one that `rows` were
/// filtered for, whose row is in whole pixels. With a distance of 2 both lie half a pixel from whole pixels, so that
/// one vertical pass serves both. In place of a cost above `limit`, returns some number above `limit`.
pub(crate) fn costs_above_and_below(
    block: &Block,
    rows: &FilteredRows,
    down: usize,
    distance: usize,
    limit: u32,
) -> [u32; 2]
    requires down { (2 ≤ down) × (down ≤ 6) }
    requires distance { (1 ≤ distance) × (distance ≤ 2) }
    requires halves { distance ≡ 2 → down ≡ 4 }
    ensures above { (p : Raster) (place : Place) (whole column : ℤ) → IsColumn p place whole column rows.now
        → IsWithin limit (slice_index result 0) (quarter_cost (block16 block.now) p place
        (record { row = pos 4 *ℤ whole +ℤ pos (down - distance); column = column })) }
    ensures below { (p : Raster) (place : Place) (whole column : ℤ) → IsColumn p place whole column rows.now
        → IsWithin limit (slice_index result 1) (quarter_cost (block16 block.now) p place
        (record { row = pos 4 *ℤ whole +ℤ pos (down + distance); column = column })) }
{
    if distance == 1 {
        return [
            cost_of_row(block, rows, down - 1, limit),
            cost_of_row(block, rows, down + 1, limit),
        ];
    }
    let both = rows.filtered_rows(&VerticalFilter::of(4));
    [
        sad_up_to(block, &both, 0, 16, limit),
        sad_up_to(block, &both, 16, 16, limit),
    ]
}

/// Adds the cost of a block that a vertical pass predicts from row `skip` on, by four rows at a time until it is above
/// `limit`. The sum is in memory so that each turn loads the weights: with weights in registers the compiler doesn't
/// select the multiply-add instruction.
#[inline(never)]
fn add_cost(
    sum: &mut u32,
    block: &Block,
    rows: &FilteredRows,
    filter: &VerticalFilter,
    skip: usize,
    limit: u32,
)
    requires none { sum.old ≡ 0 }
    requires skip { skip ≤ 1 }
    ensures { IsWithin limit sum.new
        (sum_of_differences 16 16 (block16 block.now) (λ r c. filtered filter.now rows.now (skip + r) c)) }
{
    for i in 0..4 {
        *sum += four_filtered(block, rows, filter, skip, i);
        if *sum > limit {
            return;
        }
    }
}

/// The sum of absolute differences of rows `4 * i` to `4 * i + 3` of a block and of its prediction.
#[inline(always)]
fn four_filtered(
    block: &Block,
    rows: &FilteredRows,
    filter: &VerticalFilter,
    skip: usize,
    i: usize,
) -> u32
    requires skip { skip ≤ 1 }
    requires i { i < 4 }
    ensures value { result ≡ sum_of_differences 4 16 (λ r c. block16 block.now (4 * i + r) c)
        (λ r c. filtered filter.now rows.now (skip + (4 * i + r)) c) }
    ensures bound { result ≤ 4 * 16 * 255 }
{
    let r = skip + 4 * i;
    let predicted = FourRows {
        first: rows.filtered_row(filter, r),
        second: rows.filtered_row(filter, r + 1),
        third: rows.filtered_row(filter, r + 2),
        fourth: rows.filtered_row(filter, r + 3),
    };
    four_differences(load_rows(block.pixels(), 64 * i, 16), predicted)
}
