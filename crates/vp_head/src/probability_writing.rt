//! Writing updates of the saved probabilities.

ghost use Rattle.std.specs.Prelude.{◌≡◌, ℕ, true, false, slice_index, OnOk};
ghost use Rattle.vp_bool.specs.Reader.{when};
ghost use Rattle.vp_bool.specs.Writing.{Writes};
ghost use Rattle.vp_head.specs.Probabilities.{context_rows, band_rows, type_rows, token_probability_updates};
ghost use Rattle.vp_head.specs.Probabilities.{luma_mode_probabilities, chroma, vector_renewed, component_rows, vectors};
ghost use Rattle.vp_head.specs.Spelled.{IsVectorProbability, AreVectorProbabilities};

use crate::row_writing::write_renewed;
use std::alloc::AllocError;
use vp_bool::BoolEncoder;
use vp_tables::{VECTOR_UPDATES, coefficient_updates};

fn write_context(
    table: &[u8; 11],
    old: &[u8; 11],
    new: &[u8; 11],
    e: &mut BoolEncoder,
) -> Result<(), AllocError>
    ensures { OnOk result (Writes (context_rows table.now old.now) e.old e.new new.now) }
{
    for i in 0..11 {
        write_renewed(table[i], old[i], new[i], e)?;
    }
    Ok(())
}

fn write_band(
    table: &[[u8; 11]; 3],
    old: &[[u8; 11]; 3],
    new: &[[u8; 11]; 3],
    e: &mut BoolEncoder,
) -> Result<(), AllocError>
    ensures { OnOk result (Writes (band_rows table.now old.now) e.old e.new new.now) }
{
    for i in 0..3 {
        write_context(&table[i], &old[i], &new[i], e)?;
    }
    Ok(())
}

fn write_type(
    table: &[[[u8; 11]; 3]; 8],
    old: &[[[u8; 11]; 3]; 8],
    new: &[[[u8; 11]; 3]; 8],
    e: &mut BoolEncoder,
) -> Result<(), AllocError>
    ensures { OnOk result (Writes (type_rows table.now old.now) e.old e.new new.now) }
{
    for i in 0..8 {
        write_band(&table[i], &old[i], &new[i], e)?;
    }
    Ok(())
}

/// Writes an update flag for each token probability, and the value of each that changed.
pub(crate) fn write_coefficients(
    old: &[[[[u8; 11]; 3]; 8]; 4],
    new: &[[[[u8; 11]; 3]; 8]; 4],
    e: &mut BoolEncoder,
) -> Result<(), AllocError>
    ensures { OnOk result (Writes (token_probability_updates old.now) e.old e.new new.now) }
{
    let table = coefficient_updates();
    for i in 0..4 {
        write_type(&table[i], &old[i], &new[i], e)?;
    }
    Ok(())
}

/// If `asked`: writes the luma mode probabilities, unless all are unchanged.
pub(crate) fn write_luma_if(
    asked: bool,
    old: &[u8; 4],
    new: &[u8; 4],
    e: &mut BoolEncoder,
) -> Result<(), AllocError>
    requires { asked ≡ false → new.now ≡ old.now }
    ensures { OnOk result (Writes (when asked (luma_mode_probabilities old.now) old.now) e.old e.new new.now) }
{
    if !asked {
        return Ok(());
    }
    let update = new != old;
    e.write(update, 128)?;
    if !update {
        return Ok(());
    }
    e.literal(new[0], 8)?;
    e.literal(new[1], 8)?;
    e.literal(new[2], 8)?;
    e.literal(new[3], 8)?;
    Ok(())
}

/// If `asked`: writes the chroma mode probabilities, unless all are unchanged.
pub(crate) fn write_chroma_if(
    asked: bool,
    old: &[u8; 3],
    new: &[u8; 3],
    e: &mut BoolEncoder,
) -> Result<(), AllocError>
    requires { asked ≡ false → new.now ≡ old.now }
    ensures { OnOk result (Writes (when asked (chroma old.now) old.now) e.old e.new new.now) }
{
    if !asked {
        return Ok(());
    }
    let update = new != old;
    e.write(update, 128)?;
    if !update {
        return Ok(());
    }
    e.literal(new[0], 8)?;
    e.literal(new[1], 8)?;
    e.literal(new[2], 8)?;
    Ok(())
}

/// Writes a flag of this probability, and the motion vector probability if it changed.
fn write_vector_renewed(
    probability: u8,
    old: u8,
    new: u8,
    e: &mut BoolEncoder,
) -> Result<(), AllocError>
    requires { IsVectorProbability old new }
    ensures { OnOk result (Writes (vector_renewed probability old) e.old e.new new) }
{
    if new == old {
        e.write(false, probability)?;
        return Ok(());
    }
    e.write(true, probability)?;
    e.literal(new / 2, 7)?;
    Ok(())
}

fn write_component(
    table: &[u8; 19],
    old: &[u8; 19],
    new: &[u8; 19],
    e: &mut BoolEncoder,
) -> Result<(), AllocError>
    requires { (j : ℕ) → IsVectorProbability (slice_index old.now j) (slice_index new.now j) }
    ensures { OnOk result (Writes (component_rows table.now old.now) e.old e.new new.now) }
{
    for i in 0..19 {
        write_vector_renewed(table[i], old[i], new[i], e)?;
    }
    Ok(())
}

fn write_vectors(
    old: &[[u8; 19]; 2],
    new: &[[u8; 19]; 2],
    e: &mut BoolEncoder,
) -> Result<(), AllocError>
    requires { AreVectorProbabilities old.now new.now }
    ensures { OnOk result (Writes (vectors old.now) e.old e.new new.now) }
{
    for i in 0..2 {
        write_component(&VECTOR_UPDATES[i], &old[i], &new[i], e)?;
    }
    Ok(())
}

/// If `asked`: writes the motion vector probabilities that changed.
pub(crate) fn write_vectors_if(
    asked: bool,
    old: &[[u8; 19]; 2],
    new: &[[u8; 19]; 2],
    e: &mut BoolEncoder,
) -> Result<(), AllocError>
    requires kept { asked ≡ false → new.now ≡ old.now }
    requires spelled { asked ≡ true → AreVectorProbabilities old.now new.now }
    ensures { OnOk result (Writes (when asked (vectors old.now) old.now) e.old e.new new.now) }
{
    if asked {
        write_vectors(old, new, e)?;
    }
    Ok(())
}
