//! Sums that serve one search after another.

ghost use Rattle.std.specs.Prelude.{◌≡◌, ℕ, ◌*◌, ◌≤◌, List};
ghost use Rattle.vp_base.specs.Raster.{Raster};
ghost use Rattle.vp_search.specs.Kept.{AreKept};

use vp_base::Place;

/// How far sums slide before all are made anew: by 64 macroblocks.
pub(crate) const SLIDE: usize = 16 * 64;

/// The sums of 8x8 squares that are made: those of the first `columns` columns of the window around the macroblock at
/// `place`, from index `start` on.
#[derive(Clone, Copy)]
pub(crate) struct Kept {
    pub(crate) place: Place,
    pub(crate) columns: usize,
    pub(crate) start: usize,
}

impl Kept {
    /// No sums.
    pub(crate) fn none(place: Place) -> Kept
        ensures { result ≡ record { place = place; columns = 0; start = 0 } }
    {
        Kept {
            place,
            columns: 0,
            start: 0,
        }
    }

    /// Those that serve another place. Further right in a row, the sums stay where they are and the first columns fall
    /// away.
    pub(crate) fn moved_to(self, place: Place) -> Kept
        requires column { 16 * place.column ≤ 16384 }
        requires start { self.start ≤ SLIDE }
        ensures place { result.place ≡ place }
        ensures start { result.start ≤ SLIDE }
        ensures kept { (p : Raster) (range : ℕ) (sums coarse : List ℕ) → AreKept p range self sums coarse
            → AreKept p range result sums coarse }
    {
        if place.row != self.place.row || place.column < self.place.column {
            return Kept::none(place);
        }
        let moved = 16 * (place.column - self.place.column);
        let start = self.start + moved;
        if start > SLIDE {
            return Kept::none(place);
        }
        Kept {
            place,
            columns: self.columns.saturating_sub(moved),
            start,
        }
    }
}
