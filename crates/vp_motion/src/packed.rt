//! A motion vector in one word.

ghost use Rattle.std.specs.Prelude.{◌≡◌};
ghost use Rattle.vp_motion.specs.Near.{same};
ghost use Rattle.vp_motion.specs.Vector.{zero_vector};

use crate::vector::Vector;
use std::marker::Model;

/// A motion vector in one 64-bit word: one instruction loads, compares or moves it.
#[derive(Drop)]
pub(crate) struct PackedVector {
    /// The row in the lower half, and the column in the upper half, each in two's complement.
    bits: u64,
}

impl Model for PackedVector {
    ghost use Rattle.std.specs.Prelude.{◌<◌};
    ghost use Rattle.vp_motion.specs.Packed.{unpacked};
    ghost use Rattle.vp_motion.specs.Vector.{Vector, IsSmall};

    ghost Value = { Vector };

    ghost view = { λ p. unpacked p.bits };

    ghost invariant = { λ p. (p.bits < 18446744073709551616) × IsSmall (unpacked p.bits) };
}

impl PackedVector {
    /// Packs a vector.
    #[inline(always)]
    pub(crate) fn of(vector: Vector) -> PackedVector
        ensures { result ≡ vector }
    {
        let row = u64::from(vector.row.cast_unsigned());
        let column = u64::from(vector.column.cast_unsigned());
        PackedVector {
            bits: row + column * (1 << 32),
        }
    }

    /// The zero vector.
    #[inline(always)]
    #[tactic(auto, unfolding(crate::specs::Packed::unpacked))]
    pub(crate) fn still() -> PackedVector
        ensures { result ≡ zero_vector }
    {
        PackedVector { bits: 0 }
    }

    /// The vector that is packed.
    #[inline(always)]
    #[tactic(auto, unfolding(crate::specs::Packed::unpacked))]
    pub(crate) fn vector(&self) -> Vector
        ensures { result ≡ self.now }
    {
        Vector {
            row: ((self.bits % (1 << 32)) as u32).cast_signed(),
            column: ((self.bits >> 32) as u32).cast_signed(),
        }
    }

    /// Whether both are the same vector.
    #[inline(always)]
    pub(crate) fn is_same(&self, other: &PackedVector) -> bool
        ensures { result ≡ same self.now other.now }
    {
        self.bits == other.bits
    }

    /// Whether it is the zero vector.
    #[inline(always)]
    pub(crate) fn is_still(&self) -> bool
        ensures { result ≡ same self.now zero_vector }
    {
        self.is_same(&PackedVector::still())
    }
}
