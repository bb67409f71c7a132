//! Writing the motion of a macroblock.

ghost use Rattle.std.specs.Prelude.{◌<◌, ◌↔◌, ℕ, IsTrue, OnOk, replicate, slice_index};
ghost use Rattle.vp_base.specs.declared.place.Place.{Place};
ghost use Rattle.vp_base.specs.Grid.{Grid, Has};
ghost use Rattle.vp_bool.specs.Writing.{Writes};
ghost use Rattle.vp_motion.specs.Vector.{MacroblockMotion, IsWithin};
ghost use Rattle.vp_motion.specs.Motion.{motion_at, motion_by, new_vector, vector_mode, vectors_by};
ghost use Rattle.vp_motion.specs.Near.{candidates};
ghost use Rattle.vp_motion.specs.Spelled.{CanBeWritten, GivesVector, difference_of};

use crate::candidates::{is_same, near};
use crate::map::VectorMap;
use crate::motion::probabilities_of;
use crate::vector::{Candidates, Motion, STILL, Vector};
use crate::writing::write_vector;
use std::alloc::AllocError;
use vp_base::Place;
use vp_bool::BoolEncoder;
use vp_head::{Header, Reference};
use vp_tables::{VECTOR_MODE_TREE, VectorMode};
use vp_tree::write_tree;

impl Candidates {
    /// Whether a vector mode can code this vector for the whole macroblock, so that `write_motion` accepts both.
    ///
    /// `New` codes vectors whose components differ from `best` by at most 1,023 quarter pixels. `Split` is never
    /// written.
    pub fn can_give(&self, mode: VectorMode, vector: Vector) -> bool
        ensures { IsTrue result ↔ GivesVector self.now mode vector }
    {
        match mode {
            VectorMode::Zero => is_same(vector, STILL),
            VectorMode::Nearest => is_same(vector, self.nearest),
            VectorMode::Near => is_same(vector, self.near),
            VectorMode::New => is_spelled(vector, self.best),
            VectorMode::Split => false,
        }
    }
}

/// Whether `New` can code this vector.
fn is_spelled(vector: Vector, best: Vector) -> bool
    requires { IsWithin 65536 best }
    ensures { IsTrue result ↔ IsWithin 1023 (difference_of vector best) }
{
    vector.row.abs_diff(best.row) <= 1023 && vector.column.abs_diff(best.column) <= 1023
}

fn write_mode(counts: &[u8; 4], mode: VectorMode, e: &mut BoolEncoder) -> Result<(), AllocError>
    requires { (k : ℕ) → slice_index counts.now k < 6 }
    ensures { OnOk result (Writes (vector_mode counts.now) e.old e.new mode) }
{
    write_tree(&VECTOR_MODE_TREE, &probabilities_of(counts), mode, e)?;
    Ok(())
}

/// Writes the difference between a new vector and `best`.
fn write_new(
    probabilities: &[[u8; 19]; 2],
    best: Vector,
    vector: Vector,
    e: &mut BoolEncoder,
) -> Result<(), AllocError>
    requires best { IsWithin 65536 best }
    requires near { IsWithin 1023 (difference_of vector best) }
    ensures { OnOk result (Writes (new_vector probabilities.now best) e.old e.new vector) }
{
    let difference = Vector {
        row: vector.row - best.row,
        column: vector.column - best.column,
    };
    write_vector(probabilities, difference, e)?;
    Ok(())
}

/// Writes the vector after the vector mode, if the mode needs it.
fn write_given(
    probabilities: &[[u8; 19]; 2],
    candidates: &Candidates,
    mode: VectorMode,
    vector: Vector,
    e: &mut BoolEncoder,
) -> Result<(), AllocError>
    requires { GivesVector candidates.now mode vector }
    ensures { OnOk result ((g : Grid MacroblockMotion) (p : Place)
        → Writes (vectors_by probabilities.now g p candidates.now mode) e.old e.new (replicate 16 vector)) }
{
    if mode == VectorMode::New {
        write_new(probabilities, candidates.best, vector, e)?;
    }
    Ok(())
}

/// Writes the vector mode and the vector, with these candidates.
fn write_by(
    probabilities: &[[u8; 19]; 2],
    candidates: &Candidates,
    motion: &Motion,
    e: &mut BoolEncoder,
) -> Result<(), AllocError>
    requires { CanBeWritten candidates.now motion.now }
    ensures { OnOk result ((g : Grid MacroblockMotion) (p : Place)
        → Writes (motion_by probabilities.now g p candidates.now) e.old e.new motion.now) }
{
    write_mode(&candidates.counts, motion.mode, e)?;
    write_given(
        probabilities,
        candidates,
        motion.mode,
        motion.vectors[15],
        e,
    )?;
    Ok(())
}

/// Writes the motion of an inter macroblock (RFC 6386, chapter 16.3).
///
/// The map contains the motion of this frame's earlier macroblocks. `reference` is the reference frame of the
/// macroblock. `Candidates::can_give`, on the result of `near`, decides whether a mode and a vector can be written. If
/// out of memory, a part may have been written, and the encoder must not be used again.
pub fn write_motion(
    header: &Header,
    map: &VectorMap,
    place: Place,
    reference: Reference,
    motion: &Motion,
    e: &mut BoolEncoder,
) -> Result<(), AllocError>
    requires place { Has map.now place }
    requires given { CanBeWritten (candidates map.now place reference header.now.biases) motion.now }
    // What was written is read as this motion by `read_motion` at this place, whatever follows.
    ensures { OnOk result (Writes (motion_at header.now map.now place reference) e.old e.new motion.now) }
{
    let candidates = near(map, place, reference, header.biases);
    write_by(&header.probabilities.vectors, &candidates, motion, e)?;
    Ok(())
}
