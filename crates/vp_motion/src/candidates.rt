//! The candidate vectors of a macroblock (RFC 6386, chapter 16.3).

ghost use Rattle.std.specs.Prelude.{◌≡◌, ℕ, ◌+◌, ◌-◌, ◌*◌, ◌<◌, ◌≤◌, pos, neg_ℤ, ◌≤ℤ◌};
ghost use Rattle.std.specs.Int.{from_bool};
ghost use Rattle.vp_base.specs.Grid.{Has};
ghost use Rattle.vp_motion.specs.Vector.{IsWithin};
ghost use Rattle.vp_motion.specs.Near.{bias_corrected, bias_of, candidates, clamped, clamped_vector};
ghost use Rattle.vp_motion.specs.Near.{negated, same, splits, split_count, weighted_neighbour};
ghost use Rattle.vp_motion.specs.Counting.{candidates_by, weighted_vector, AreLight};

use crate::counting::count;
use crate::grid::MotionGrid;
use crate::packed::PackedVector;
use crate::vector::{Candidates, MacroblockMotion, NeighbourCount, Vector};
use vp_base::Place;
use vp_head::{Reference, SignBiases};

/// The lower bound of a clamped component, in quarter pixels. `macroblocks` counts those from the frame's left or top
/// edge up to this one, inclusive.
fn lower_bound(macroblocks: usize) -> i32
    requires { macroblocks ≤ 1024 }
    ensures { result ≡ neg_ℤ (pos (64 * macroblocks)) }
{
    -((64 * macroblocks) as i32)
}

/// The upper bound of a clamped component, in quarter pixels. `macroblocks` counts those from this one, inclusive, to
/// the frame's right or bottom edge.
fn upper_bound(macroblocks: usize) -> i32
    requires { macroblocks ≤ 1024 }
    ensures { result ≡ pos (64 * macroblocks) }
{
    (64 * macroblocks) as i32
}

fn clamp(low: i32, high: i32, z: i32) -> i32
    requires { low ≤ℤ high }
    ensures value { result ≡ clamped low high z }
    ensures least { low ≤ℤ result }
    ensures greatest { result ≤ℤ high }
{
    if z < low {
        low
    } else if high < z {
        high
    } else {
        z
    }
}

/// Clamps a vector so that the block lies at most one macroblock outside the frame.
#[tactic(auto, unfolding(crate::specs::Near::clamped_vector))]
pub(crate) fn clamp_vector<G: MotionGrid>(map: &G, place: Place, vector: Vector) -> Vector
    requires place { Has (G.grid map.now) place }
    ensures value { result ≡ clamped_vector (G.grid map.now) place vector }
    ensures short { IsWithin 65536 result }
{
    let (columns, rows) = (map.columns(), map.rows());
    Vector {
        row: clamp(
            lower_bound(place.row + 1),
            upper_bound(rows - place.row),
            vector.row,
        ),
        column: clamp(
            lower_bound(place.column + 1),
            upper_bound(columns - place.column),
            vector.column,
        ),
    }
}

#[tactic(auto, unfolding(crate::specs::Near::same))]
pub(crate) fn is_same(u: Vector, v: Vector) -> bool
    ensures { result ≡ same u v }
{
    u.row == v.row && u.column == v.column
}

/// The sign bias of a reference frame; false for the last frame.
fn bias(reference: Reference, biases: SignBiases) -> bool
    ensures { result ≡ bias_of reference biases }
{
    match reference {
        Reference::Intra => false,
        Reference::Last => false,
        Reference::Golden => biases.golden,
        Reference::Alt => biases.alt,
    }
}

/// Whether a neighbour has split vectors.
#[tactic(auto, unfolding(crate::specs::Near::splits))]
fn has_split(neighbour: &MacroblockMotion) -> bool
    ensures { result ≡ splits neighbour.now }
{
    if neighbour.reference.is_intra() {
        false
    } else {
        neighbour.mode.is_split()
    }
}

/// The weight of a neighbour, if it has split vectors.
fn split_weight(neighbour: &MacroblockMotion, weight: u8) -> u8
    ensures value { result ≡ weight * from_bool (splits neighbour.now) }
    ensures light { result ≤ weight }
{
    if has_split(neighbour) { weight } else { 0 }
}

fn negated(vector: Vector) -> Vector
    ensures { result ≡ negated vector }
{
    Vector {
        row: -vector.row,
        column: -vector.column,
    }
}

/// A neighbour's vector, negated if the sign biases of the two reference frames differ.
#[tactic(auto, unfolding(crate::specs::Near::bias_corrected, crate::specs::Map::own))]
fn corrected(reference: Reference, biases: SignBiases, neighbour: &MacroblockMotion) -> PackedVector
    ensures { result ≡ bias_corrected reference biases neighbour.now }
{
    let vector = neighbour.vectors[15];
    if !biases.golden && !biases.alt {
        return PackedVector::of(vector);
    }
    if bias(neighbour.reference, biases) == bias(reference, biases) {
        PackedVector::of(vector)
    } else {
        PackedVector::of(negated(vector))
    }
}

/// The vector of a neighbour, unless it is intra.
#[inline(always)]
#[tactic(auto, unfolding(crate::specs::Near::weighted_neighbour))]
fn seen_vector(
    reference: Reference,
    biases: SignBiases,
    neighbour: &MacroblockMotion,
) -> Option<PackedVector>
    ensures { (weight : ℕ) → weighted_vector weight result ≡ weighted_neighbour reference biases weight neighbour.now }
{
    if neighbour.reference.is_intra() {
        None
    } else {
        Some(corrected(reference, biases, neighbour))
    }
}

/// The count of the neighbours of the macroblock at `place`.
#[inline(always)]
pub(crate) fn count_neighbours<G: MotionGrid>(
    map: &G,
    place: Place,
    reference: Reference,
    biases: SignBiases,
) -> NeighbourCount
    requires place { Has (G.grid map.now) place }
    ensures value { candidates_by (clamped_vector (G.grid map.now) place) (split_count (G.grid map.now) place) result
        ≡ candidates (G.grid map.now) place reference biases }
    ensures light { AreLight result }
{
    let (above, corner) = map.row_above(place);
    let left = map.left(place);
    count(
        seen_vector(reference, biases, above),
        seen_vector(reference, biases, left),
        seen_vector(reference, biases, corner),
    )
}

/// The weights of the neighbours with split vectors. It is seldom needed, and so not inlined.
#[inline(never)]
#[tactic(auto, unfolding(crate::specs::Near::split_count))]
pub(crate) fn split_count<G: MotionGrid>(map: &G, place: Place) -> u8
    requires { Has (G.grid map.now) place }
    ensures value { result ≡ split_count (G.grid map.now) place }
    ensures light { result < 6 }
{
    let (above, corner) = map.row_above(place);
    let left = map.left(place);
    split_weight(above, 2) + split_weight(left, 2) + split_weight(corner, 1)
}

/// The candidate vectors of the macroblock at `place`, from the macroblocks above, to the left, and above left (RFC
/// 6386, chapter 16.3).
///
/// `reference` is the reference frame of the macroblock. A neighbour's vector is negated if its reference frame has
/// the other sign bias.
pub fn near<G: MotionGrid>(
    map: &G,
    place: Place,
    reference: Reference,
    biases: SignBiases,
) -> Candidates
    requires place { Has (G.grid map.now) place }
    ensures { result ≡ candidates (G.grid map.now) place reference biases }
{
    let found = count_neighbours(map, place, reference, biases);
    Candidates {
        counts: [
            found.zeros,
            found.nearest.weight,
            found.near.weight,
            split_count(map, place),
        ],
        best: clamp_vector(map, place, found.best()),
        nearest: clamp_vector(map, place, found.nearest.vector.vector()),
        near: clamp_vector(map, place, found.near.vector.vector()),
    }
}
