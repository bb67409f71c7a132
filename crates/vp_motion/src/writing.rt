//! Writing a motion vector.

ghost use Rattle.std.specs.Prelude.{◌<◌, ◌≤◌, nat_lt, pos, neg_ℤ, ◌≤ℤ◌, OnOk};
ghost use Rattle.vp_bool.specs.Reader.{when};
ghost use Rattle.vp_bool.specs.Writing.{Writes};
ghost use Rattle.vp_motion.specs.Vector.{IsWithin};
ghost use Rattle.vp_motion.specs.Motion.{component, component_magnitude, vector};
ghost use Rattle.vp_motion.specs.Pieces.{bit, short_size, long_bits};
ghost use Rattle.vp_motion.specs.Spelled.{bit_of};

use crate::vector::Vector;
use std::alloc::AllocError;
use vp_bool::BoolEncoder;
use vp_tables::SHORT_VECTOR_TREE;
use vp_tree::write_tree;

/// Writes bit `i` of a long magnitude.
fn write_bit(
    probabilities: &[u8; 19],
    magnitude: u32,
    i: usize,
    e: &mut BoolEncoder,
) -> Result<(), AllocError>
    requires { i < 10 }
    ensures { OnOk result (Writes (bit probabilities.now i) e.old e.new (bit_of magnitude i)) }
{
    e.write((magnitude >> i) & 1 == 1, probabilities[9 + i])?;
    Ok(())
}

/// Writes bit 3 if a higher bit is set. Otherwise it is 1, and not coded.
fn write_bit_3(
    probabilities: &[u8; 19],
    magnitude: u32,
    e: &mut BoolEncoder,
) -> Result<(), AllocError>
    requires { 8 ≤ magnitude }
    ensures { OnOk result (Writes (when (nat_lt 15 magnitude) (bit probabilities.now 3) 8) e.old e.new
        (bit_of magnitude 3)) }
{
    let is_implied = magnitude < 16;
    if !is_implied {
        write_bit(probabilities, magnitude, 3, e)?;
    }
    Ok(())
}

/// Writes a long magnitude, 8 to 1,023.
fn write_long(
    probabilities: &[u8; 19],
    magnitude: u32,
    e: &mut BoolEncoder,
) -> Result<(), AllocError>
    requires least { 8 ≤ magnitude }
    requires most { magnitude ≤ 1023 }
    ensures { OnOk result (Writes (long_bits probabilities.now) e.old e.new magnitude) }
{
    write_bit(probabilities, magnitude, 0, e)?;
    write_bit(probabilities, magnitude, 1, e)?;
    write_bit(probabilities, magnitude, 2, e)?;
    write_bit(probabilities, magnitude, 9, e)?;
    write_bit(probabilities, magnitude, 8, e)?;
    write_bit(probabilities, magnitude, 7, e)?;
    write_bit(probabilities, magnitude, 6, e)?;
    write_bit(probabilities, magnitude, 5, e)?;
    write_bit(probabilities, magnitude, 4, e)?;
    write_bit_3(probabilities, magnitude, e)?;
    Ok(())
}

/// Writes a short magnitude, 0 to 7.
fn write_short(
    probabilities: &[u8; 19],
    magnitude: u8,
    e: &mut BoolEncoder,
) -> Result<(), AllocError>
    requires { magnitude < 8 }
    ensures { OnOk result (Writes (short_size probabilities.now) e.old e.new magnitude) }
{
    write_tree(&SHORT_VECTOR_TREE, &probabilities[2..9], magnitude, e)?;
    Ok(())
}

/// Writes the magnitude of a component, 0 to 1,023.
fn write_size(
    probabilities: &[u8; 19],
    magnitude: u32,
    e: &mut BoolEncoder,
) -> Result<(), AllocError>
    requires { magnitude ≤ 1023 }
    ensures { OnOk result (Writes (component_magnitude probabilities.now) e.old e.new magnitude) }
{
    if magnitude < 8 {
        e.write(false, probabilities[0])?;
        write_short(probabilities, magnitude as u8, e)?;
    } else {
        e.write(true, probabilities[0])?;
        write_long(probabilities, magnitude, e)?;
    }
    Ok(())
}

/// Writes a component of a vector, -1,023 to 1,023.
fn write_component(
    probabilities: &[u8; 19],
    value: i32,
    e: &mut BoolEncoder,
) -> Result<(), AllocError>
    requires low { neg_ℤ (pos 1023) ≤ℤ value }
    requires high { value ≤ℤ pos 1023 }
    ensures { OnOk result (Writes (component probabilities.now) e.old e.new value) }
{
    let magnitude = value.unsigned_abs();
    write_size(probabilities, magnitude, e)?;
    let has_sign = magnitude != 0;
    if has_sign {
        e.write(value < 0, probabilities[1])?;
    }
    Ok(())
}

/// Writes a motion vector: the row, then the column (RFC 6386, chapter 17.1).
///
/// `difference` is the new vector minus `best`, in quarter luma pixels. The probabilities are those of `read_vector`.
/// If out of memory, a part may have been written, and the encoder must not be used again.
pub fn write_vector(
    probabilities: &[[u8; 19]; 2],
    difference: Vector,
    e: &mut BoolEncoder,
) -> Result<(), AllocError>
    requires { IsWithin 1023 difference }
    // What was written is read as this vector, whatever follows.
    ensures { OnOk result (Writes (vector probabilities.now) e.old e.new difference) }
{
    write_component(&probabilities[0], difference.row, e)?;
    write_component(&probabilities[1], difference.column, e)?;
    Ok(())
}
