//! The modes of a frame's macroblocks as a reader needs them, however they are stored.

ghost use Rattle.std.specs.Prelude.{◌≡◌, ◌<◌};
ghost use Rattle.vp_base.specs.Grid.{Grid, Has, at};
ghost use Rattle.vp_modes.specs.Entry.{Modes, plain};
ghost use Rattle.vp_modes.specs.Map.{sub_of};

use vp_base::Place;
use vp_tables::SubMode;

/// The modes of a frame's macroblocks, as far as they are read, in raster order.
pub trait ModeGrid {
    /// The modes of all macroblocks.
    ghost grid: { Self → Grid Modes };

    /// Returns the segment, 0 to 3, of the macroblock at a place before its modes are read (RFC 6386, chapter 9.3).
    fn segment(&self, place: Place) -> u8
        requires { Has (grid self.now) place }
        ensures value { result ≡ (at plain (grid self.now) place).segment }
        ensures small { result < 4 };

    /// Returns the mode of subblock `k`, 0 to 15, of the macroblock at a place, as other subblocks see it: their
    /// context (chapter 11.3).
    fn sub_mode(&self, place: Place, k: usize) -> SubMode
        requires place { Has (grid self.now) place }
        requires sub { k < 16 }
        ensures { result ≡ sub_of (at plain (grid self.now) place) k };
}
