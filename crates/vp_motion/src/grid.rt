//! What the readers of motion see of the frame's earlier macroblocks.

ghost use Rattle.std.specs.Prelude.{◌≡◌, ◌<◌, ◌≤◌};
ghost use Rattle.vp_base.specs.Grid.{Grid, Has, at, look};
ghost use Rattle.vp_base.specs.Place.{above, corner, left};
ghost use Rattle.vp_motion.specs.Map.{block_vector, intra};
ghost use Rattle.vp_motion.specs.Vector.{MacroblockMotion};

use crate::vector::{MacroblockMotion, Vector};
use vp_base::Place;

/// The motion of a frame's macroblocks, as far as it is read, in raster order.
pub trait MotionGrid {
    /// The motion of all macroblocks.
    ghost grid: { Self → Grid MacroblockMotion };

    /// Returns the number of macroblock columns, at most 1,024.
    fn columns(&self) -> usize
        ensures value { result ≡ (grid self.now).columns }
        ensures bound { result ≤ 1024 };

    /// Returns the number of macroblock rows, at most 1,024.
    fn rows(&self) -> usize
        ensures value { result ≡ (grid self.now).rows }
        ensures bound { result ≤ 1024 };

    /// Returns the motion to the left of a place; outside the frame that of an intra macroblock.
    fn left(&self, place: Place) -> &MacroblockMotion
        requires { Has (grid self.now) place }
        ensures { result.now ≡ look intra (grid self.now) (left place) };

    /// Returns the motion above a place, and above and to the left of it, which are often looked up
    /// together.
    fn row_above(&self, place: Place) -> (&MacroblockMotion, &MacroblockMotion)
        requires { Has (grid self.now) place }
        ensures above { result.0.now ≡ look intra (grid self.now) (above place) }
        ensures corner { result.1.now ≡ look intra (grid self.now) (corner place) };

    /// Returns the vector of block `b` of the macroblock at a place, in quarter luma pixels; zero if it is intra.
    fn vector(&self, place: Place, b: usize) -> Vector
        requires place { Has (grid self.now) place }
        requires block { b < 16 }
        ensures { result ≡ block_vector (at intra (grid self.now) place) b };
}
