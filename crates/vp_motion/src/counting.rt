//! The count of the vectors of a macroblock's neighbours (RFC 6386, chapter 16.3).
//!
//! Each function is a state of the count: which neighbours are left, and how many entries (vectors that differ) there
//! are. So the entries stay in registers, and none is looked up. A neighbour has no vector if it is intra.

ghost use Rattle.std.specs.Prelude.{◌≡◌, ◌+◌, ◌≤◌, ◌++◌, [], ◌∷◌, false};
ghost use Rattle.vp_motion.specs.Near.{same};
ghost use Rattle.vp_motion.specs.Counting.{still_weight, moving, onto, runs, nobody, weighted_vector, Counts, AreLight};

use crate::packed::PackedVector;
use crate::vector::{NeighbourCount, Weighted};

/// The zero vector with weight 0, in place of an entry that is absent.
#[inline(always)]
fn nobody() -> Weighted
    ensures { result ≡ nobody }
{
    Weighted {
        vector: PackedVector::still(),
        weight: 0,
    }
}

/// The count if no vector is nonzero.
#[inline(always)]
fn none(zeros: u8) -> NeighbourCount
    requires { zeros ≤ 5 }
    ensures value { Counts result zeros [] }
    ensures light { AreLight result }
{
    NeighbourCount {
        zeros,
        nearest: nobody(),
        near: nobody(),
    }
}

/// The count with one entry.
#[inline(always)]
fn one(zeros: u8, first: Weighted) -> NeighbourCount
    requires zeros { zeros ≤ 5 }
    requires first { first.weight ≤ 5 }
    ensures value { Counts result zeros (first ∷ []) }
    ensures light { AreLight result }
{
    NeighbourCount {
        zeros,
        nearest: first,
        near: nobody(),
    }
}

/// The count with two entries, of which the second isn't heavier.
#[inline(always)]
fn two(zeros: u8, first: Weighted, second: Weighted) -> NeighbourCount
    requires zeros { zeros ≤ 5 }
    requires first { first.weight ≤ 5 }
    requires second { second.weight ≤ first.weight }
    ensures value { Counts result zeros (first ∷ (second ∷ [])) }
    ensures light { AreLight result }
{
    NeighbourCount {
        zeros,
        nearest: first,
        near: second,
    }
}

/// Counts the corner after neighbours that don't move.
#[inline(always)]
fn corner_after_none(zeros: u8, corner: Option<PackedVector>) -> NeighbourCount
    requires { zeros ≤ 4 }
    ensures value { Counts result (zeros + still_weight (weighted_vector 1 corner))
        (runs (moving (weighted_vector 1 corner))) }
    ensures light { AreLight result }
{
    let Some(vector) = corner else {
        return none(zeros);
    };
    if vector.is_still() {
        none(zeros + 1)
    } else {
        one(zeros, Weighted { vector, weight: 1 })
    }
}

/// Counts the corner after one entry.
#[inline(always)]
fn corner_after_one(zeros: u8, first: Weighted, corner: Option<PackedVector>) -> NeighbourCount
    requires zeros { zeros ≤ 4 }
    requires heavy { 1 ≤ first.weight }
    requires light { first.weight ≤ 4 }
    ensures value { Counts result (zeros + still_weight (weighted_vector 1 corner))
        (onto first (runs (moving (weighted_vector 1 corner)))) }
    ensures light { AreLight result }
{
    let Some(vector) = corner else {
        return one(zeros, first);
    };
    if vector.is_still() {
        one(zeros + 1, first)
    } else if first.vector.is_same(&vector) {
        let grown = Weighted {
            vector: first.vector,
            weight: first.weight + 1,
        };
        one(zeros, grown)
    } else {
        two(zeros, first, Weighted { vector, weight: 1 })
    }
}

/// Counts the corner after two entries: the vectors above and to the left, which differ.
#[inline(always)]
fn corner_after_two(
    above: PackedVector,
    left: PackedVector,
    corner: Option<PackedVector>,
) -> NeighbourCount
    requires { same above left ≡ false }
    ensures value { Counts result (still_weight (weighted_vector 1 corner))
        (onto (record { vector = above; weight = 2 })
        (onto (record { vector = left; weight = 2 }) (runs (moving (weighted_vector 1 corner))))) }
    ensures light { AreLight result }
{
    let first = Weighted {
        vector: above,
        weight: 2,
    };
    let second = Weighted {
        vector: left,
        weight: 2,
    };
    let Some(vector) = corner else {
        return two(0, first, second);
    };
    if vector.is_still() {
        two(1, first, second)
    } else if second.vector.is_same(&vector) {
        // Only here the second entry is the heavier one.
        NeighbourCount {
            zeros: 0,
            nearest: Weighted {
                vector: second.vector,
                weight: 3,
            },
            near: first,
        }
    } else if vector.is_same(&first.vector) {
        NeighbourCount {
            zeros: 0,
            nearest: Weighted {
                vector: first.vector,
                weight: 3,
            },
            near: second,
        }
    } else {
        NeighbourCount {
            zeros: 0,
            nearest: first,
            near: second,
        }
    }
}

/// Counts the left neighbour and the corner, if the one above has no nonzero vector.
#[inline(always)]
fn left_after_none(
    zeros: u8,
    left: Option<PackedVector>,
    corner: Option<PackedVector>,
) -> NeighbourCount
    requires { zeros ≤ 2 }
    ensures value { Counts result (zeros + still_weight (weighted_vector 2 left ++ weighted_vector 1 corner))
        (runs (moving (weighted_vector 2 left ++ weighted_vector 1 corner))) }
    ensures light { AreLight result }
{
    let Some(vector) = left else {
        return corner_after_none(zeros, corner);
    };
    if vector.is_still() {
        corner_after_none(zeros + 2, corner)
    } else {
        corner_after_one(zeros, Weighted { vector, weight: 2 }, corner)
    }
}

/// Counts the left neighbour and the corner after the vector above, which isn't zero.
#[inline(always)]
fn left_after_one(
    above: PackedVector,
    left: Option<PackedVector>,
    corner: Option<PackedVector>,
) -> NeighbourCount
    ensures value { Counts result (still_weight (weighted_vector 2 left ++ weighted_vector 1 corner))
        (onto (record { vector = above; weight = 2 })
        (runs (moving (weighted_vector 2 left ++ weighted_vector 1 corner)))) }
    ensures light { AreLight result }
{
    let first = Weighted {
        vector: above,
        weight: 2,
    };
    let Some(vector) = left else {
        return corner_after_one(0, first, corner);
    };
    if vector.is_still() {
        corner_after_one(2, first, corner)
    } else if first.vector.is_same(&vector) {
        let both = Weighted {
            vector: first.vector,
            weight: 4,
        };
        corner_after_one(0, both, corner)
    } else {
        corner_after_two(first.vector, vector, corner)
    }
}

/// Counts the neighbours: above and to the left with weight 2, and above left with weight 1.
#[inline(always)]
pub(crate) fn count(
    above: Option<PackedVector>,
    left: Option<PackedVector>,
    corner: Option<PackedVector>,
) -> NeighbourCount
    ensures value { Counts result
        (still_weight (weighted_vector 2 above ++ (weighted_vector 2 left ++ weighted_vector 1 corner)))
        (runs (moving (weighted_vector 2 above ++ (weighted_vector 2 left ++ weighted_vector 1 corner)))) }
    ensures light { AreLight result }
{
    let Some(vector) = above else {
        return left_after_none(0, left, corner);
    };
    if vector.is_still() {
        left_after_none(2, left, corner)
    } else {
        left_after_one(vector, left, corner)
    }
}
