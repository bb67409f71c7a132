//! Filters a frame's picture that is rebuilt already, without its tokens.

ghost use Rattle.std.specs.Prelude.{◌≡◌, ◌<◌, IfOk};
ghost use Rattle.vp_base.specs.declared.place.Place.{Place};
ghost use Rattle.vp_base.specs.Grid.{Has};
ghost use Rattle.vp_base.specs.Image.{macroblocks};
ghost use Rattle.vp_tokens.specs.declared.contexts.Tokens.{Tokens};
ghost use Rattle.vp_loop.specs.Filtered.{filtered};
ghost use Rattle.vp_decode.specs.Frame.{level_at};
ghost use Rattle.vp_decode.specs.SkippedLevels.{IsSkipOf, AreSkipsOf, AreRowLevels, level_by};

use crate::frame_buffers::FrameBuffers;
use crate::frame_info::FrameInfo;
use std::alloc::{AllocError, Global};
use vp_base::{Grid, Picture, Place};
use vp_loop::{Level, RowFilter};

/// Returns the filter level of the macroblock at a place, which has tokens unless it is skipped.
fn level_by_skip(info: &FrameInfo, place: Place) -> Level
    requires { Has info.now.maps.modes place }
    ensures { (tokens : Tokens) → IsSkipOf info.now place tokens → result ≡ level_at info.now place tokens }
{
    let macroblock = info.macroblock(info.row(place.row), place);
    let modes = macroblock.modes;
    info.level(&macroblock, !modes.skip)
}

/// Computes the filter levels of a row of macroblocks.
fn set_levels(levels: &mut Grid<Level>, info: &FrameInfo, row: usize)
    requires row { row < info.now.maps.modes.rows }
    requires columns { levels.old.columns ≡ info.now.maps.modes.columns }
    requires rows { levels.old.rows ≡ info.now.maps.modes.rows }
    ensures columns { levels.new.columns ≡ levels.old.columns }
    ensures rows { levels.new.rows ≡ levels.old.rows }
    ensures levels { AreRowLevels info.now row info.now.maps.modes.columns levels.new }
{
    for column in 0..info.columns() {
        let place = Place { column, row };
        levels.set(place, level_by_skip(info, place));
    }
}

/// Filters a frame's rebuilt picture, row by row of macroblocks. The levels of each row are computed first: macroblocks
/// have tokens unless they are skipped. Their memory is that of `buffers`. It is not inlined: its own memory then is
/// not part of the stack of other frames.
#[inline(never)]
pub(crate) fn filter_rebuilt<F: RowFilter>(
    alloc: Global,
    buffers: &mut FrameBuffers,
    info: &FrameInfo,
    rebuilt: Picture,
    filter: &mut F,
) -> Result<Picture, AllocError>
    requires columns { info.now.maps.modes.columns ≡ macroblocks rebuilt.width }
    requires rows { info.now.maps.modes.rows ≡ macroblocks rebuilt.height }
    ensures { IfOk result (λ p. (tokens : Place → Tokens) → AreSkipsOf info.now tokens
        → p ≡ filtered (level_by info.now tokens) rebuilt) }
{
    let rows = info.rows();
    let mut levels = buffers.levels(alloc, info.columns(), rows)?;
    let mut picture = rebuilt;
    for row in 0..rows {
        set_levels(&mut levels, info, row);
        filter.row(&mut picture, levels.as_slice(), row);
    }
    buffers.levels = levels;
    Ok(picture)
}
