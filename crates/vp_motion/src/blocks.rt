//! The motion vectors of neighbouring blocks.

ghost use Rattle.std.specs.Prelude.{◌≡◌, ◌<◌};
ghost use Rattle.vp_base.specs.Grid.{Has};
ghost use Rattle.vp_base.specs.Near.{IsBefore, value};
ghost use Rattle.vp_motion.specs.Map.{above_block, left_block, block_vector};
ghost use Rattle.vp_motion.specs.Vector.{zero_vector};

use crate::grid::MotionGrid;
use crate::vector::{STILL, Vector};
use vp_base::{Near, Place};

/// The vector of a block near the macroblock at `place`. `found` contains the vectors of that macroblock read so far.
fn vector_near<G: MotionGrid>(map: &G, place: Place, found: &[Vector; 16], near: Near) -> Vector
    requires place { Has (G.grid map.now) place }
    requires lower_bound { IsBefore place near }
    ensures { result ≡ value block_vector zero_vector (G.grid map.now) found.now near }
{
    match near {
        Near::Here(b) => found[b],
        Near::There(other, b) => map.vector(other, b),
        Near::Outside => STILL,
    }
}

/// The vector above block `b` of the macroblock at `place`. `found` contains the vectors of its blocks before `b`.
#[tactic(auto, unfolding(crate::specs::Map::above_block))]
pub(crate) fn vector_above<G: MotionGrid>(
    map: &G,
    place: Place,
    found: &[Vector; 16],
    b: usize,
) -> Vector
    requires place { Has (G.grid map.now) place }
    requires block { b < 16 }
    ensures { result ≡ above_block (G.grid map.now) place found.now b }
{
    vector_near(map, place, found, place.above_block(b))
}

/// The vector to the left of block `b` of the macroblock at `place`. `found` contains the vectors of its blocks before
/// `b`.
#[tactic(auto, unfolding(crate::specs::Map::left_block))]
pub(crate) fn vector_left<G: MotionGrid>(
    map: &G,
    place: Place,
    found: &[Vector; 16],
    b: usize,
) -> Vector
    requires place { Has (G.grid map.now) place }
    requires block { b < 16 }
    ensures { result ≡ left_block (G.grid map.now) place found.now b }
{
    vector_near(map, place, found, place.left_block(b))
}
