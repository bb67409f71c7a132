//! Filtering a picture in place.

ghost use Rattle.std.specs.Prelude.{◌≡◌, ◌+◌, ◌*◌, ◌<◌, ◌≤◌, length};
ghost use Rattle.vp_base.specs.Image.{macroblocks};
ghost use Rattle.vp_loop.specs.Filtered.{macroblock_filtered, row_filtered, filtered, level_in};

use crate::edges::{Planes, filter_planes};
use crate::limits::{EdgeLimits, FilterKind};
use crate::strength::Level;
use vp_base::Picture;

/// Filters the edges of one macroblock: in luma and, unless the filter is the simple one, in both chroma planes.
#[inline(always)]
fn filter_macroblock(picture: &mut Picture, level: Level, column: usize, row: usize)
    requires column { column < macroblocks picture.old.width }
    requires row { row < macroblocks picture.old.height }
    ensures { picture.new ≡ macroblock_filtered level column row picture.old }
{
    let _known = picture.dim();
    let limits = match EdgeLimits::of(level) {
        None => return,
        Some(limits) => limits,
    };
    filter_planes::<true>(picture, Planes::Luma, 16 * column, 16 * row, limits);
    match limits.kind {
        FilterKind::Simple => {}
        FilterKind::Normal => filter_planes::<false>(
            picture,
            Planes::Chroma,
            8 * column,
            8 * row,
            limits,
        ),
    }
}

/// Filters a row of macroblocks. `levels` are those of all macroblocks in raster order, at least through that row. It
/// may change the last three pixel rows of the macroblocks above.
pub fn filter_row(picture: &mut Picture, levels: &[Level], row: usize)
    requires row { row < macroblocks picture.old.height }
    requires levels { row * macroblocks picture.old.width + macroblocks picture.old.width ≤ length levels.now }
    ensures { picture.new ≡ row_filtered (level_in levels.now (macroblocks picture.old.width)) row picture.old }
{
    let cols = usize::from(picture.dim().mb_cols());
    let start = row * cols;
    for column in 0..cols {
        filter_macroblock(picture, levels[start + column], column, row);
    }
}

/// Filters a whole picture. `levels` are those of its macroblocks in raster order.
pub fn filter_picture(picture: &mut Picture, levels: &[Level])
    requires { macroblocks picture.old.height * macroblocks picture.old.width ≤ length levels.now }
    ensures { picture.new ≡ filtered (level_in levels.now (macroblocks picture.old.width)) picture.old }
{
    let rows = usize::from(picture.dim().mb_rows());
    for row in 0..rows {
        filter_row(picture, levels, row);
    }
}

/// A loop filter that works on one row of macroblocks at a time.
pub trait RowFilter {
    /// Filters a row of macroblocks as [`filter_row`] does.
    fn row(&mut self, picture: &mut Picture, levels: &[Level], row: usize)
        requires row { row < macroblocks picture.old.height }
        requires levels { row * macroblocks picture.old.width + macroblocks picture.old.width ≤ length levels.now }
        ensures { picture.new ≡ row_filtered (level_in levels.now (macroblocks picture.old.width)) row picture.old };
}

/// The loop filter of this crate, over `std::simd`: sixteen lines at a time. Callers rely on the name.
#[derive(Clone, Copy, Debug, PartialEq, Eq)]
pub struct Lanes;

impl RowFilter for Lanes {
    fn row(&mut self, picture: &mut Picture, levels: &[Level], row: usize) {
        filter_row(picture, levels, row);
    }
}
