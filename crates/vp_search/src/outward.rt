//! The best vector of a window. Rows are searched from the centre outwards; the result does not depend on the order.
//! Once a vector costs nothing, as in a repeated pattern, rows further away than it is long are left out.

ghost use Rattle.std.specs.Prelude.{◌+◌, ◌*◌, ◌≤◌};
ghost use Rattle.vp_search.specs.Search.{IsFound, IsBestInRow, IsBestBelow};

use crate::candidate::is_best_beyond;
use crate::search_window::SearchWindow;
use crate::sums::bounds_at;
use crate::unbounded::{HALF, Progress, Unbounded, below_best};
use crate::unbounded_row::LEAST_PAIRED_RANGE;
use crate::vector::Found;
use crate::window::WINDOW_WIDTH;

impl<'a, 's> SearchWindow<'a, 's> {
    /// The best vector of the window if it costs less than the limit; `first` is one whose cost is known. If it has
    /// sums, rows are searched by their bounds, or without where these exclude little; `unbounded` says how many are at
    /// the start. Without sums, all rows are. Always inlined: where there are no sums, only a small loop is left.
    #[inline(always)]
    pub(crate) fn search(&self, first: Found, unbounded: Unbounded) -> Progress
        requires first { IsFound self.now first }
        ensures { IsBestBelow self.now result.best }
    {
        let middle = usize::from(self.range);
        // A search begins at its limit, so that dearer vectors are not compared.
        let cost = first.cost.min(self.limit);
        let best = Found { cost, ..first };
        let mut progress = self.search_row(Progress { best, unbounded }, middle);
        for d in 1..middle + 1 {
            if is_best_beyond(progress.best, d) {
                return progress;
            }
            progress = self.search_row(progress, middle - d);
            progress = self.search_row(progress, middle + d);
        }
        progress
    }

    /// The best of a known vector and those of a row: by their bounds, or without. After the last of the rows without,
    /// the eight bounds that begin at its middle decide whether more follow: they do if most are below the best cost.
    /// Inlined at each of its calls: with one call a search takes some 3 % more instructions.
    #[inline(always)]
    fn search_row(&self, progress: Progress, row: usize) -> Progress
        requires row { row ≤ 2 * self.now.range }
        ensures { IsBestInRow self.now row 0 (2 * self.now.range + 1) progress.best result.best }
    {
        let Progress { best, unbounded } = progress;
        if let (Some(sums), 0) = (self.sums, unbounded.left) {
            return self.row_by_bounds(sums, best, row);
        }
        let best = if !unbounded.early {
            self.best_of_each::<false>(best, row)
        } else if self.range < LEAST_PAIRED_RANGE {
            self.best_of_each::<true>(best, row)
        } else {
            self.best_of_pairs(best, row)
        };
        let unbounded = match self.sums {
            Some(sums) if unbounded.left == 1 => {
                let middle = row * WINDOW_WIDTH + usize::from(self.range);
                let below = below_best(bounds_at(sums.block, sums.places, middle), best.cost);
                self.unbounded_after(best.cost, row, below > HALF)
            }
            _ => unbounded.next(),
        };
        Progress { best, unbounded }
    }
}
