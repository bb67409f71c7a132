//! Rows of a window without bounds. In fine texture most vectors differ so much by their first four rows of pixels
//! that they can't be the best.

ghost use Rattle.std.specs.Prelude.{◌≡◌, ◌+◌, ◌*◌, ◌<◌, ◌≤◌, IfSome, None};
ghost use Rattle.vp_search.specs.Window.{vector_at};
ghost use Rattle.vp_search.specs.Search.{cost_in, first_rows_in, IsBestInRow, AreAbove};

use crate::difference::rest_within;
use crate::search_window::SearchWindow;
use crate::vector::{Found, Spot};
use crate::window::WINDOW_WIDTH;

/// The least range within which vectors are compared in pairs: in a short row pairs do not pay.
pub(crate) const LEAST_PAIRED_RANGE: u8 = 8;

/// A vector of a row: its column, and its cost.
#[derive(Clone, Copy)]
struct Within {
    column: usize,
    cost: u32,
}

/// Two neighbours in a row: how many pairs are before them, and the sums of absolute differences of their first four
/// rows of pixels.
#[derive(Clone, Copy)]
struct Pair {
    number: usize,
    one: u32,
    two: u32,
}

impl<'a, 's> SearchWindow<'a, 's> {
    /// The best of a known vector and those of a row, one by one; with `EARLY` they are compared with the best after
    /// four rows of pixels too. Not inlined, so that there is one copy of each.
    #[inline(never)]
    pub(crate) fn best_of_each<const EARLY: bool>(&self, best: Found, row: usize) -> Found
        requires row { row ≤ 2 * self.now.range }
        ensures { IsBestInRow self.now row 0 (2 * self.now.range + 1) best result }
    {
        let mut found = best;
        let mut from = 0;
        while let Some(next) = self.next_within_limit::<EARLY>(row, from, found.cost) {
            let column = next.column;
            found = self.better_by_cost(found, Spot { row, column }, next.cost);
            from = column + 1;
        }
        found
    }

    /// The first of the vectors of a row, from column `from` on, that costs at most `limit`. The loop stores nothing,
    /// so that twelve rows of the block stay in registers.
    fn next_within_limit<const EARLY: bool>(
        &self,
        row: usize,
        from: usize,
        limit: u32,
    ) -> Option<Within>
        requires row { row ≤ 2 * self.now.range }
        requires from { from ≤ 2 * self.now.range + 1 }
        ensures place { IfSome result (λ next. (from ≤ next.column) × (next.column ≤ 2 * self.now.range)) }
        ensures cost { IfSome result (λ next. next.cost ≡ cost_in self.now
            (vector_at self.now.range row next.column)) }
        ensures skipped { IfSome result (λ next. AreAbove self.now limit row from next.column) }
        ensures none { result ≡ None → AreAbove self.now limit row from (2 * self.now.range + 1) }
    {
        for column in from..2 * usize::from(self.range) + 1 {
            let spot = Spot { row, column };
            let first = self.first_rows(spot);
            if EARLY && first > limit {
                continue;
            }
            let at = spot.at();
            let cost = rest_within(self.block, self.pixels, at, WINDOW_WIDTH, first, limit);
            if let Some(cost) = cost {
                return Some(Within { column, cost });
            }
        }
        None
    }

    /// The best of a known vector and those of a row, most of which differ by more than the best costs by their first
    /// four rows of pixels.
    #[inline(never)]
    pub(crate) fn best_of_pairs(&self, best: Found, row: usize) -> Found
        requires row { row ≤ 2 * self.now.range }
        ensures { IsBestInRow self.now row 0 (2 * self.now.range + 1) best result }
    {
        let mut found = best;
        let mut from = 0;
        while let Some(pair) = self.next_pair(row, from, found.cost) {
            let column = 2 * pair.number;
            let next = column + 1;
            found = self.better::<true>(found, Spot { row, column }, pair.one);
            found = self.better::<true>(found, Spot { row, column: next }, pair.two);
            from = pair.number + 1;
        }
        let column = 2 * usize::from(self.range);
        let last = Spot { row, column };
        self.better::<false>(found, last, self.first_rows(last))
    }

    /// The first pair of a row, from number `from` on, of which a vector differs by at most `limit` in its first
    /// four rows of pixels. Both are compared before a jump, as most differ by more: a jump for each costs up to a
    /// third more time. The place of the next pair does not depend on a comparison, so that the processor can begin
    /// with it before. The loop stores nothing: with the pairs compared in it, a search of a dither takes some 5 % more
    /// time.
    fn next_pair(&self, row: usize, from: usize, limit: u32) -> Option<Pair>
        requires row { row ≤ 2 * self.now.range }
        requires from { from ≤ self.now.range }
        ensures place { IfSome result (λ pair. (from ≤ pair.number) × (pair.number < self.now.range)) }
        ensures one { IfSome result (λ pair. pair.one ≡ first_rows_in self.now row (2 * pair.number)) }
        ensures two { IfSome result (λ pair. pair.two ≡ first_rows_in self.now row (2 * pair.number + 1)) }
        ensures bound { IfSome result (λ pair. (pair.one ≤ 4 * 16 * 255) × (pair.two ≤ 4 * 16 * 255)) }
        ensures skipped { IfSome result (λ pair. AreAbove self.now limit row (2 * from) (2 * pair.number)) }
        ensures none { result ≡ None → AreAbove self.now limit row (2 * from) (2 * self.now.range) }
    {
        for number in from..usize::from(self.range) {
            let column = 2 * number;
            let next = column + 1;
            let one = self.first_rows(Spot { row, column });
            let two = self.first_rows(Spot { row, column: next });
            if one.min(two) <= limit {
                return Some(Pair { number, one, two });
            }
        }
        None
    }
}
