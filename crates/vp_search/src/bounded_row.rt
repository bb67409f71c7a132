//! Rows of a window by the bounds of their vectors. A vector whose bound is above the best known cost is skipped: it is
//! neither the best nor a tie. So is a longer one whose bound is that cost, as most are where the picture is flat: it
//! is no better, and loses a tie.

ghost use Rattle.std.specs.Prelude.{◌≡◌, ◌≢◌, ℕ, ◌+◌, ◌*◌, ◌<◌, ◌≤◌, Some};
ghost use Rattle.std.specs.Int.{bit_at};
ghost use Rattle.vp_search.specs.Window.{vector_at};
ghost use Rattle.vp_search.specs.Search.{cost_in, IsBestInRow, AreBounds};

use crate::search_window::SearchWindow;
use crate::summed::SquareSums;
use crate::sums::{next_within, within};
use crate::unbounded::{HALF, Progress, below_best};
use crate::vector::{Found, Spot, vector_length};
use crate::window::WINDOW_WIDTH;
use std::simd::prelude::*;

/// The first of the places whose bits are set, and the bits of the others.
fn take_first(places: u64) -> (usize, u64)
    requires some { 0 < places }
    requires eight { places < 256 }
    ensures place { result.0 < 8 }
    ensures fewer { result.1 < places }
    ensures others { (j : ℕ) → j < 8 → bit_at result.1 j ≡ 0 → j ≢ result.0 → bit_at places j ≡ 0 }
{
    let first = places.trailing_zeros() as usize;
    (first, places & !(1 << first))
}

impl<'a, 's> SearchWindow<'a, 's> {
    /// The best of a known vector and those of a row, by their bounds. Of the bounds that are counted, some are past
    /// the range: 7 of 24 at range 8.
    #[inline(always)]
    pub(crate) fn row_by_bounds(&self, sums: SquareSums, best: Found, row: usize) -> Progress
        requires sums { self.now.sums ≡ Some sums }
        requires row { row ≤ 2 * self.now.range }
        ensures { IsBestInRow self.now row 0 (2 * self.now.range + 1) best result.best }
    {
        let groups = usize::from(self.range) / 4 + 1;
        let mut found = best;
        let mut g = 0;
        let mut passed = 0;
        while let Some(next) = next_within(sums, row * WINDOW_WIDTH, g, groups, found.cost) {
            let spot = Spot {
                row,
                column: 8 * next.number,
            };
            passed += below_best(next.bounds, found.cost);
            self.best_of_eight(&mut found, spot, next.bounds);
            g = next.number + 1;
        }
        Progress {
            best: found,
            unbounded: self.unbounded_after(found.cost, row, passed > HALF * groups),
        }
    }

    /// Replaces a known vector by the best of it and of eight in a row that are within the range. Their costs are at
    /// least `bounds`. Not inlined: the loop over the bounds needs the registers. The window is copied so that its
    /// fields stay in registers too.
    #[inline(never)]
    fn best_of_eight(&self, best: &mut Found, spot: Spot, bounds: u16x8)
        requires row { spot.row ≤ 2 * self.now.range }
        requires column { spot.column ≤ 2 * self.now.range + 8 }
        requires bounds { AreBounds self.now spot.row spot.column bounds }
        ensures { IsBestInRow self.now spot.row spot.column (spot.column + 8) best.old best.new }
    {
        let window = *self;
        let each = bounds.to_array();
        let mut left = within(bounds, best.cost);
        while left != 0 {
            let (t, others) = take_first(left);
            let place = Spot {
                row: spot.row,
                column: spot.column + t,
            };
            let next = window.better_by_bound(*best, place, u32::from(each[t]));
            *best = next;
            left = others;
        }
    }

    /// The better of a known vector and the one at `spot`, whose cost is at least `bound`, if it is within the range.
    fn better_by_bound(&self, best: Found, spot: Spot, bound: u32) -> Found
        requires row { spot.row ≤ 2 * self.now.range }
        requires bound { spot.column ≤ 2 * self.now.range
            → bound ≤ cost_in self.now (vector_at self.now.range spot.row spot.column) }
        ensures { IsBestInRow self.now spot.row spot.column (spot.column + 1) best result }
    {
        if spot.column > 2 * usize::from(self.range) {
            return best;
        }
        if bound >= best.cost {
            let vector = spot.vector(self.range);
            if bound > best.cost || vector_length(vector) > vector_length(best.vector) {
                return best;
            }
        }
        self.better::<false>(best, spot, self.first_rows(spot))
    }
}
