//! Searches of one macroblock after another, by sums that are kept between them.

ghost use Rattle.std.specs.Prelude.{◌*◌, ◌<◌, ◌≤◌, IfOk};
ghost use Rattle.vp_base.specs.Raster.{Raster};
ghost use Rattle.vp_search.specs.Differences.{block16};
ghost use Rattle.vp_search.specs.Chosen.{IsChosen};
ghost use Rattle.vp_search.specs.Kept.{IsReady};

use crate::coarse::LEAST_COARSE_RANGE;
use crate::kept::{Kept, SLIDE};
use crate::rows::Block;
use crate::search_window::SearchWindow;
use crate::sums::fill_sums;
use crate::unbounded::{Progress, Unbounded};
use crate::vector::{Found, Spot, WholeVector};
use crate::window::{WINDOW_WIDTH, cut_window};
use std::alloc::{AllocError, Global};
use vp_base::{Place, Plane};

/// What one search leaves for the next: the sums of the pixels of the window's 8x8 squares, where its best vector leads,
/// and whether bounds excluded little; then a few macroblocks follow without sums. For the macroblock to the right of the one
/// before, only the sums of the new columns are made. Its memory is 84 KiB for range 64, 22 KiB for range 16.
#[derive(Drop)]
pub(crate) struct KeptSums {
    /// The pixels around the macroblock that was searched last.
    pub(crate) window: Vec<u8>,
    /// The sums of a window's 8x8 squares, and as many more as they slide.
    pub(crate) sums: Vec<u16>,
    /// The coarse sums of all of them; none below a range of `LEAST_COARSE_RANGE`.
    pub(crate) coarse: Vec<u8>,
    /// Which of the sums are made.
    pub(crate) kept: Kept,
    /// Where the vector leads that the last search by sums or rows found. The next one is often the same, so the next
    /// search begins there: the less its best vector costs, the more others are excluded by their bounds.
    pub(crate) begin: Spot,
    /// The macroblocks that follow without sums.
    pub(crate) unbounded: Unbounded,
}

impl KeptSums {
    /// Asks for memory three times, below a range of `LEAST_COARSE_RANGE` twice. No sums are made yet.
    pub(crate) fn new(alloc: Global, range: u8) -> Result<KeptSums, AllocError>
        requires { range ≤ 64 }
        ensures { (p : Raster) → IfOk result (IsReady p range) }
    {
        // Eight pixels more than a window has, as pixels are loaded by eight.
        let size = (2 * usize::from(range) + 16) * WINDOW_WIDTH + 8;
        let window = vec![in alloc; 0; size]?;
        let sums = vec![in alloc; 0; size + SLIDE]?;
        let coarse_size = if range < LEAST_COARSE_RANGE {
            0
        } else {
            size + SLIDE
        };
        let coarse = vec![in alloc; 0; coarse_size]?;
        Ok(KeptSums {
            window,
            sums,
            coarse,
            kept: Kept::none(Place { column: 0, row: 0 }),
            begin: spot_of(WholeVector { row: 0, column: 0 }, range),
            unbounded: Unbounded::none(),
        })
    }

    /// The best vector, if it costs less than `limit`, of the window around a macroblock. The lower the limit, the more
    /// vectors are excluded by their bounds.
    pub(crate) fn best(
        &mut self,
        block: &Block,
        reference: &Plane,
        place: Place,
        range: u8,
        limit: u32,
    ) -> Found
        requires columns { 16 * place.column ≤ 16384 }
        requires rows { 16 * place.row ≤ 16384 }
        requires wide { 0 < reference.now.width }
        requires high { 0 < reference.now.height }
        requires range { range ≤ 64 }
        requires ready { IsReady reference.now range self.old }
        ensures ready { IsReady reference.now range self.new }
        ensures chosen { IsChosen (block16 block.now) reference.now place range limit result }
        ensures bound { result.cost ≤ 16 * 16 * 255 }
    {
        cut_window(self.window.as_mut_slice(), reference, place, range);
        let window = SearchWindow {
            block,
            pixels: &self.window,
            range,
            limit,
            sums: None,
        };
        let (begin, unbounded) = (self.begin, self.unbounded);
        let first = window.better::<false>(window.centre(), begin, window.first_rows(begin));
        if unbounded.left > 0 {
            let best = window.search(first, unbounded).best;
            self.unbounded = unbounded.next();
            self.begin = spot_of(best.vector, range);
            return best;
        }
        let slid = self.kept.moved_to(place);
        let distance = place.column.saturating_sub(self.kept.place.column);
        let (sums, coarse) = (self.sums.as_mut_slice(), self.coarse.as_mut_slice());
        fill_sums(sums, coarse, window.pixels, range, slid);
        self.kept = Kept {
            columns: 2 * usize::from(range) + 9,
            ..slid
        };
        let coarse_start = slid.start.min(self.coarse.len());
        let summed = window.with_sums(&self.sums[slid.start..], &self.coarse[coarse_start..]);
        let Progress { best, unbounded } = summed.search(first, unbounded);
        self.unbounded = unbounded.macroblocks(distance);
        self.begin = spot_of(best.vector, range);
        best
    }
}

/// Where a vector leads in the window of a range; the nearest place of the window if that is outside.
fn spot_of(vector: WholeVector, range: u8) -> Spot
    ensures row { result.row ≤ 2 * range }
    ensures column { result.column ≤ 2 * range }
{
    let range = i32::from(range);
    Spot {
        row: vector.row.saturating_add(range).clamp(0, 2 * range) as usize,
        column: vector.column.saturating_add(range).clamp(0, 2 * range) as usize,
    }
}
