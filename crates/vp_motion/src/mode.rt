//! Reading a vector mode: the walk of its tree, unrolled (RFC 6386, chapter 16.3).

ghost use Rattle.std.specs.Prelude.{◌≡◌, ◌<◌, [], slice_index, slice_index_or};
ghost use Rattle.vp_base.specs.Grid.{Has};
ghost use Rattle.vp_tables.specs.declared.mode_probabilities.TheConstants.{VECTOR_MODE_PROBABILITIES};
ghost use Rattle.vp_motion.specs.Motion.{vector_mode};
ghost use Rattle.vp_motion.specs.ModeWalk.{any_mode, not_zero, not_nearest, not_near};
ghost use Rattle.vp_motion.specs.Near.{split_count};
ghost use Rattle.vp_motion.specs.Counting.{weights_of, AreLight};

use crate::candidates::split_count;
use crate::grid::MotionGrid;
use crate::vector::NeighbourCount;
use vp_base::Place;
use vp_bool::BoolDecoder;
use vp_tables::{VECTOR_MODE_PROBABILITIES, VectorMode};

/// Probability `i` of the vector mode, from weight `i` of the candidates. It is looked up only when it is used.
#[inline(always)]
fn mode_probability(weight: u8, i: usize) -> u8
    requires index { i < 4 }
    requires light { weight < 6 }
    ensures { result ≡ slice_index (slice_index_or VECTOR_MODE_PROBABILITIES weight []) i }
{
    VECTOR_MODE_PROBABILITIES[weight as usize][i]
}

/// The walk from the pair at index 6.
#[inline(always)]
#[tactic(auto, unfolding(crate::specs::ModeWalk::not_near, vp_bool::specs::Reader::bind))]
fn not_near<G: MotionGrid>(
    map: &G,
    place: Place,
    found: &NeighbourCount,
    d: &mut BoolDecoder,
) -> VectorMode
    requires place { Has (G.grid map.now) place }
    requires light { AreLight found.now }
    ensures value { result ≡ (not_near (weights_of (split_count (G.grid map.now) place) found.now) d.old).0 }
    ensures rest { d.new ≡ (not_near (weights_of (split_count (G.grid map.now) place) found.now) d.old).1 }
{
    if d.read(mode_probability(split_count(map, place), 3)) {
        VectorMode::Split
    } else {
        VectorMode::New
    }
}

/// The walk from the pair at index 4.
#[inline(always)]
#[tactic(auto, unfolding(crate::specs::ModeWalk::not_nearest, vp_bool::specs::Reader::bind))]
fn not_nearest<G: MotionGrid>(
    map: &G,
    place: Place,
    found: &NeighbourCount,
    d: &mut BoolDecoder,
) -> VectorMode
    requires place { Has (G.grid map.now) place }
    requires light { AreLight found.now }
    ensures value { result ≡ (not_nearest (weights_of (split_count (G.grid map.now) place) found.now) d.old).0 }
    ensures rest { d.new ≡ (not_nearest (weights_of (split_count (G.grid map.now) place) found.now) d.old).1 }
{
    if d.read(mode_probability(found.near.weight, 2)) {
        not_near(map, place, found, d)
    } else {
        VectorMode::Near
    }
}

/// The walk from the pair at index 2.
#[inline(always)]
#[tactic(auto, unfolding(crate::specs::ModeWalk::not_zero, vp_bool::specs::Reader::bind))]
fn not_zero<G: MotionGrid>(
    map: &G,
    place: Place,
    found: &NeighbourCount,
    d: &mut BoolDecoder,
) -> VectorMode
    requires place { Has (G.grid map.now) place }
    requires light { AreLight found.now }
    ensures value { result ≡ (not_zero (weights_of (split_count (G.grid map.now) place) found.now) d.old).0 }
    ensures rest { d.new ≡ (not_zero (weights_of (split_count (G.grid map.now) place) found.now) d.old).1 }
{
    if d.read(mode_probability(found.nearest.weight, 1)) {
        not_nearest(map, place, found, d)
    } else {
        VectorMode::Nearest
    }
}

/// The walk from the root.
#[inline(always)]
#[tactic(auto, unfolding(crate::specs::ModeWalk::any_mode, vp_bool::specs::Reader::bind))]
fn any_mode<G: MotionGrid>(
    map: &G,
    place: Place,
    found: &NeighbourCount,
    d: &mut BoolDecoder,
) -> VectorMode
    requires place { Has (G.grid map.now) place }
    requires light { AreLight found.now }
    ensures value { result ≡ (any_mode (weights_of (split_count (G.grid map.now) place) found.now) d.old).0 }
    ensures rest { d.new ≡ (any_mode (weights_of (split_count (G.grid map.now) place) found.now) d.old).1 }
{
    if d.read(mode_probability(found.zeros, 0)) {
        not_zero(map, place, found, d)
    } else {
        VectorMode::Zero
    }
}

/// Reads a vector mode. The compiler follows each mode from where it is read: no mode is looked at again.
#[inline(always)]
pub(crate) fn read_mode<G: MotionGrid>(
    map: &G,
    place: Place,
    found: &NeighbourCount,
    d: &mut BoolDecoder,
) -> VectorMode
    requires place { Has (G.grid map.now) place }
    requires light { AreLight found.now }
    ensures value { result ≡ (vector_mode (weights_of (split_count (G.grid map.now) place) found.now) d.old).0 }
    ensures rest { d.new ≡ (vector_mode (weights_of (split_count (G.grid map.now) place) found.now) d.old).1 }
{
    any_mode(map, place, found, d)
}
