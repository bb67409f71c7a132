//! The better of the best vector so far and another one. Vectors are ordered by cost, then length, then row, then
//! column.

ghost use Rattle.std.specs.Prelude.{◌≡◌, ℕ, ◌+◌, ◌*◌, ◌<◌, ◌≤◌, true, false, slice_index, unsigned_abs};
ghost use Rattle.vp_search.specs.declared.vector.WholeVector.{WholeVector};
ghost use Rattle.vp_search.specs.Vectors.{IsNear};
ghost use Rattle.vp_search.specs.Least.{IsNoWorse};
ghost use Rattle.vp_search.specs.Window.{vector_at};
ghost use Rattle.vp_search.specs.Search.{cost_in, first_rows_in, IsInRange, IsBestInRow};

use crate::difference::{four_rows, rest_within, sad_up_to};
use crate::search_window::SearchWindow;
use crate::vector::{Found, Spot, vector_length};
use crate::window::WINDOW_WIDTH;

/// Whether a vector is better than another.
fn is_better(new: Found, old: Found) -> bool
    ensures yes { result ≡ true → IsNoWorse new.cost new.vector old.cost old.vector }
    ensures no { result ≡ false → IsNoWorse old.cost old.vector new.cost new.vector }
{
    if new.cost != old.cost {
        return new.cost < old.cost;
    }
    let (new_size, old_size) = (vector_length(new.vector), vector_length(old.vector));
    if new_size != old_size {
        return new_size < old_size;
    }
    if new.vector.row != old.vector.row {
        return new.vector.row < old.vector.row;
    }
    new.vector.column < old.vector.column
}

/// Whether no vector `distance` or more rows away from the centre is better than `best`: it costs nothing, and is
/// shorter.
pub(crate) fn is_best_beyond(best: Found, distance: usize) -> bool
    ensures { result ≡ true → (c : ℕ) (v : WholeVector) → distance ≤ unsigned_abs v.row
        → IsNoWorse best.cost best.vector c v }
{
    best.cost == 0 && vector_length(best.vector) < distance as u64
}

impl<'a, 's> SearchWindow<'a, 's> {
    /// The zero vector, whose block is at the centre of the window, with its cost.
    pub(crate) fn centre(&self) -> Found
        ensures near { IsNear self.now.range result.vector }
        ensures known { result.cost ≡ cost_in self.now result.vector }
        ensures bound { result.cost ≤ 16 * 16 * 255 }
        ensures bytes { (k : ℕ) → slice_index self.now.pixels.now k ≤ 255 }
    {
        let middle = usize::from(self.range);
        let spot = Spot {
            row: middle,
            column: middle,
        };
        Found {
            vector: spot.vector(self.range),
            cost: sad_up_to(self.block, self.pixels, spot.at(), WINDOW_WIDTH, u32::MAX),
        }
    }

    /// The sum of absolute differences of the first four rows of the block and of the one at `spot`.
    pub(crate) fn first_rows(&self, spot: Spot) -> u32
        requires row { spot.row ≤ 2 * self.now.range }
        requires column { spot.column ≤ WINDOW_WIDTH }
        ensures value { result ≡ first_rows_in self.now spot.row spot.column }
        ensures bound { result ≤ 4 * 16 * 255 }
    {
        four_rows(self.block, 0, self.pixels, spot.at(), WINDOW_WIDTH)
    }

    /// The better of the best vector and the one at `spot`, of whose block the first four rows differ by `first`. With
    /// `EARLY` that is compared with the best cost. Always inlined: with a call for each vector, a search takes a third
    /// more instructions.
    #[inline(always)]
    pub(crate) fn better<const EARLY: bool>(&self, best: Found, spot: Spot, first: u32) -> Found
        requires spot { IsInRange self.now spot.row spot.column }
        requires first { first ≡ first_rows_in self.now spot.row spot.column }
        requires bound { first ≤ 4 * 16 * 255 }
        ensures { IsBestInRow self.now spot.row spot.column (spot.column + 1) best result }
    {
        if EARLY && first > best.cost {
            return best;
        }
        let at = spot.at();
        match rest_within(self.block, self.pixels, at, WINDOW_WIDTH, first, best.cost) {
            Some(cost) => self.better_by_cost(best, spot, cost),
            None => best,
        }
    }

    /// The better of the best vector and the one at `spot`, which costs `cost`.
    pub(crate) fn better_by_cost(&self, best: Found, spot: Spot, cost: u32) -> Found
        requires spot { IsInRange self.now spot.row spot.column }
        requires cost { cost ≡ cost_in self.now (vector_at self.now.range spot.row spot.column) }
        ensures { IsBestInRow self.now spot.row spot.column (spot.column + 1) best result }
    {
        let vector = spot.vector(self.range);
        let new = Found { vector, cost };
        // With `if .. { new } else { best }` the best would be kept in memory.
        let mut found = best;
        if is_better(new, best) {
            found = new;
        }
        found
    }
}
