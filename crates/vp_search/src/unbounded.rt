//! How many rows, or macroblocks, are searched without bounds. They are if bounds exclude less than half of the
//! vectors, as in noise and in fine texture.

ghost use Rattle.std.specs.Prelude.{◌*◌, ◌≤◌};

use crate::search_window::SearchWindow;
use crate::vector::{Found, Spot};
use std::simd::prelude::*;

/// The number of rows that are searched without bounds once most bounds of a row are below the best cost. After these,
/// a sample of the last row decides whether as many more follow.
const UNBOUNDED_ROWS: u8 = 7;

/// Half of a group of eight vectors.
pub(crate) const HALF: usize = 4;

/// The rows, or the macroblocks, that are searched next without bounds.
#[derive(Clone, Copy)]
pub(crate) struct Unbounded {
    /// How many they are.
    pub(crate) left: u8,
    /// Whether their vectors are compared with the best after four rows of pixels too.
    pub(crate) early: bool,
}

/// A search after some rows: the best vector so far, and the rows that follow without bounds.
#[derive(Clone, Copy)]
pub(crate) struct Progress {
    pub(crate) best: Found,
    pub(crate) unbounded: Unbounded,
}

impl Unbounded {
    /// None. A search without sums, all of whose rows have no bounds, begins with it too, and compares after four rows
    /// of pixels.
    pub(crate) fn none() -> Unbounded {
        Unbounded {
            left: 0,
            early: true,
        }
    }

    /// Those that are left after the next one.
    pub(crate) fn next(self) -> Unbounded {
        Unbounded {
            left: self.left.saturating_sub(1),
            early: self.early,
        }
    }

    /// How many macroblocks are searched without sums after one whose search ended so: none if its next row would
    /// have bounds, else 1; if vectors are compared after four rows too, 1, then 3, then 7 each time. `distance` is the
    /// number of columns since the last one with sums in this row; in another row it is only a guess.
    pub(crate) fn macroblocks(self, distance: usize) -> Unbounded {
        if self.left == 0 {
            return self;
        }
        let most = if self.early { 4 } else { 1 };
        Unbounded {
            left: (2 * distance.clamp(1, most) - 1) as u8,
            early: self.early,
        }
    }
}

/// How many of eight bounds are below the best cost.
pub(crate) fn below_best(bounds: u16x8, cost: u32) -> usize
    ensures { result ≤ 8 }
{
    let most = cost.min(65535) as u16;
    let below = bounds.simd_lt(u16x8::splat(most)).to_bitmask().count_ones();
    (below as usize).min(8)
}

impl<'a, 's> SearchWindow<'a, 's> {
    /// Whether at least half of the vectors of row `i` cost more than `limit` by their first four rows of pixels, by
    /// the eight that begin at its middle. If fewer do, as in noise, comparing there costs more than it saves.
    fn half_leave_early(&self, limit: u32, i: usize) -> bool
        requires { i ≤ 2 * self.now.range }
    {
        let middle = usize::from(self.range);
        let mut count = 0;
        for t in 0..8 {
            let spot = Spot {
                row: i,
                column: middle + t,
            };
            if self.first_rows(spot) > limit {
                count += 1;
            }
        }
        count >= HALF
    }

    /// The rows without bounds after row `i`: some if `pass` says that most of its bounds are below `cost`.
    pub(crate) fn unbounded_after(&self, cost: u32, i: usize, pass: bool) -> Unbounded
        requires { i ≤ 2 * self.now.range }
    {
        if !pass {
            return Unbounded::none();
        }
        Unbounded {
            left: UNBOUNDED_ROWS,
            early: self.half_leave_early(cost, i),
        }
    }
}
