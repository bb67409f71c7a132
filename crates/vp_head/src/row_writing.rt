//! Writing the parts of the frame header.

ghost use Rattle.std.specs.Prelude.{◌≡◌, ◌<◌, ◌≤◌, ◌^◌, ℕ, Bool, true, false, [], ◌∷◌, OnOk};
ghost use Rattle.vp_bool.specs.Reader.{when};
ghost use Rattle.vp_bool.specs.Writing.{Writes};
ghost use Rattle.vp_head.specs.declared.fields.SegmentValues.{SegmentValues};
ghost use Rattle.vp_head.specs.declared.fields.SignBiases.{SignBiases};
ghost use Rattle.vp_head.specs.Rows.{flag, optional_signed, renewed, four_signed};
ghost use Rattle.vp_head.specs.Header.{segment_values, tree_probabilities, segmentation, filter, level_deltas};
ghost use Rattle.vp_head.specs.Header.{quantiser_indices, copy_of, copy, refreshes, skip, reference_probabilities};
ghost use Rattle.vp_head.specs.Header.{no_references};
ghost use Rattle.vp_head.specs.Spelled.{IsSigned, AreSigned, AreSegmentValues, IsSegmentation, IsFilter, AreDeltas};
ghost use Rattle.vp_head.specs.Spelled.{IsQuantiser, AreUpdates};

use crate::fields::{
    Filter, LevelDeltas, QuantiserIndices, ReferenceCopy, ReferenceProbabilities, SegmentValues,
    Segmentation,
};
use crate::rows::Refreshes;
use std::alloc::AllocError;
use vp_bool::BoolEncoder;

/// Writes a flag, if `asked`.
pub(crate) fn write_flag_if(asked: bool, value: bool, e: &mut BoolEncoder) -> Result<(), AllocError>
    ensures { OnOk result ((otherwise : Bool) → (asked ≡ false → value ≡ otherwise)
        → Writes (when asked flag otherwise) e.old e.new value) }
{
    if asked {
        e.write(value, 128)?;
    }
    Ok(())
}

/// Writes a flag, and a signed number if it differs from the default.
fn write_signed(bits: u32, otherwise: i8, value: i8, e: &mut BoolEncoder) -> Result<(), AllocError>
    requires width { bits ≤ 7 }
    requires fits { IsSigned bits otherwise value }
    ensures { OnOk result (Writes (optional_signed bits otherwise) e.old e.new value) }
{
    if value == otherwise {
        e.write(false, 128)?;
        return Ok(());
    }
    e.write(true, 128)?;
    e.literal(value.unsigned_abs(), bits)?;
    e.write(value < 0, 128)?;
    Ok(())
}

/// Writes a flag of this probability, and the new probability if it changed.
#[tactic(auto, using(vp_bool::proofs::WritingLemmas::writes), unfolding(crate::specs::Rows::renewed))]
pub(crate) fn write_renewed(
    probability: u8,
    old: u8,
    new: u8,
    e: &mut BoolEncoder,
) -> Result<(), AllocError>
    ensures { OnOk result (Writes (renewed probability old) e.old e.new new) }
{
    if new == old {
        e.write(false, probability)?;
        return Ok(());
    }
    e.write(true, probability)?;
    e.literal(new, 8)?;
    Ok(())
}

fn write_four_signed(
    bits: u32,
    old: &[i8; 4],
    new: &[i8; 4],
    e: &mut BoolEncoder,
) -> Result<(), AllocError>
    requires width { bits ≤ 7 }
    requires fits { AreSigned bits old.now new.now }
    ensures { OnOk result (Writes (four_signed bits old.now) e.old e.new new.now) }
{
    write_signed(bits, old[0], new[0], e)?;
    write_signed(bits, old[1], new[1], e)?;
    write_signed(bits, old[2], new[2], e)?;
    write_signed(bits, old[3], new[3], e)?;
    Ok(())
}

fn write_segment_values(values: &SegmentValues, e: &mut BoolEncoder) -> Result<(), AllocError>
    requires { AreSegmentValues values.now }
    ensures { OnOk result (Writes segment_values e.old e.new values.now) }
{
    e.write(values.absolute, 128)?;
    write_four_signed(7, &[0; 4], &values.quantisers, e)?;
    write_four_signed(6, &[0; 4], &values.levels, e)?;
    Ok(())
}

/// Writes the segment values, if `asked`. Otherwise the kept ones stay in force.
fn write_segment_values_if(
    asked: bool,
    values: &SegmentValues,
    e: &mut BoolEncoder,
) -> Result<(), AllocError>
    requires { asked ≡ true → AreSegmentValues values.now }
    ensures { OnOk result ((kept : SegmentValues) → (asked ≡ false → values.now ≡ kept)
        → Writes (when asked segment_values kept) e.old e.new values.now) }
{
    if asked {
        write_segment_values(values, e)?;
    }
    Ok(())
}

fn are_same(a: &SegmentValues, b: &SegmentValues) -> bool
    ensures yes { result ≡ true → a.now ≡ b.now }
    ensures no { result ≡ false → ¬ (a.now ≡ b.now) }
{
    a == b
}

/// Writes the probabilities of the segment tree, if `asked`.
fn write_tree_probabilities_if(
    asked: bool,
    probabilities: &[u8; 3],
    e: &mut BoolEncoder,
) -> Result<(), AllocError>
    requires { asked ≡ false → probabilities.now ≡ 255 ∷ 255 ∷ 255 ∷ [] }
    ensures { OnOk result (Writes (when asked tree_probabilities (255 ∷ 255 ∷ 255
        ∷ [])) e.old e.new probabilities.now) }
{
    if !asked {
        return Ok(());
    }
    write_renewed(128, 255, probabilities[0], e)?;
    write_renewed(128, 255, probabilities[1], e)?;
    write_renewed(128, 255, probabilities[2], e)?;
    Ok(())
}

/// Writes segmentation. Its values are written only if they changed.
pub(crate) fn write_segmentation(
    kept: &SegmentValues,
    s: &Segmentation,
    e: &mut BoolEncoder,
) -> Result<(), AllocError>
    requires { IsSegmentation kept.now s.now }
    ensures { OnOk result (Writes (segmentation kept.now) e.old e.new s.now) }
{
    e.write(s.enabled, 128)?;
    if !s.enabled {
        return Ok(());
    }
    e.write(s.update_map, 128)?;
    let update = !are_same(&s.values, kept);
    e.write(update, 128)?;
    write_segment_values_if(update, &s.values, e)?;
    write_tree_probabilities_if(s.update_map, &s.tree_probabilities, e)?;
    Ok(())
}

#[tactic(auto, using(vp_bool::proofs::WritingLemmas::writes), unfolding(crate::specs::Header::filter))]
pub(crate) fn write_filter(f: &Filter, e: &mut BoolEncoder) -> Result<(), AllocError>
    requires { IsFilter f.now }
    ensures { OnOk result (Writes filter e.old e.new f.now) }
{
    e.write(f.simple, 128)?;
    e.literal(f.level, 6)?;
    e.literal(f.sharpness, 3)?;
    Ok(())
}

/// Writes whether the filter level deltas apply, and the deltas that changed.
pub(crate) fn write_level_deltas(
    kept: &LevelDeltas,
    enabled: bool,
    deltas: &LevelDeltas,
    e: &mut BoolEncoder,
) -> Result<(), AllocError>
    requires { AreDeltas kept.now enabled deltas.now }
    ensures { OnOk result (Writes (level_deltas kept.now) e.old e.new (enabled, deltas.now)) }
{
    e.write(enabled, 128)?;
    if !enabled {
        return Ok(());
    }
    e.write(true, 128)?;
    write_four_signed(6, &kept.reference, &deltas.reference, e)?;
    write_four_signed(6, &kept.mode, &deltas.mode, e)?;
    Ok(())
}

pub(crate) fn write_quantiser_indices(
    q: &QuantiserIndices,
    e: &mut BoolEncoder,
) -> Result<(), AllocError>
    requires { IsQuantiser q.now }
    ensures { OnOk result (Writes quantiser_indices e.old e.new q.now) }
{
    e.literal(q.y_ac, 7)?;
    write_signed(4, 0, q.y_dc, e)?;
    write_signed(4, 0, q.y2_dc, e)?;
    write_signed(4, 0, q.y2_ac, e)?;
    write_signed(4, 0, q.uv_dc, e)?;
    write_signed(4, 0, q.uv_ac, e)?;
    Ok(())
}

/// Writes the reference that is copied, if `asked`.
fn write_copy_if(asked: bool, from: ReferenceCopy, e: &mut BoolEncoder) -> Result<(), AllocError>
    requires { asked ≡ false → from ≡ ReferenceCopy.Nothing }
    ensures { OnOk result (Writes (when asked copy ReferenceCopy.Nothing) e.old e.new from) }
{
    if !asked {
        return Ok(());
    }
    e.literal(copy_number(from), 2)?;
    Ok(())
}

/// The code of a copied reference: 0 to 3.
fn copy_number(from: ReferenceCopy) -> u8
    ensures same { copy_of result ≡ from }
    ensures small { result < 2 ^ 2 }
{
    match from {
        ReferenceCopy::Nothing => 0,
        ReferenceCopy::Last => 1,
        ReferenceCopy::Other => 2,
        ReferenceCopy::Unused => 3,
    }
}

/// Writes the updates of reference frames, sign biases and probabilities.
pub(crate) fn write_refreshes(
    key: bool,
    r: &Refreshes,
    e: &mut BoolEncoder,
) -> Result<(), AllocError>
    requires { AreUpdates key r.now.updates }
    ensures { OnOk result ((kept : SignBiases) → (key ≡ true → r.now.biases ≡ kept)
        → Writes (refreshes key kept) e.old e.new r.now) }
{
    write_flag_if(!key, r.updates.refresh_golden, e)?;
    write_flag_if(!key, r.updates.refresh_alt, e)?;
    write_copy_if(!r.updates.refresh_golden, r.updates.copy_to_golden, e)?;
    write_copy_if(!r.updates.refresh_alt, r.updates.copy_to_alt, e)?;
    write_flag_if(!key, r.biases.golden, e)?;
    write_flag_if(!key, r.biases.alt, e)?;
    e.write(r.entropy, 128)?;
    write_flag_if(!key, r.updates.refresh_last, e)?;
    Ok(())
}

/// Writes the probability that a macroblock is not skipped, if skipping is coded.
pub(crate) fn write_skip(probability: Option<u8>, e: &mut BoolEncoder) -> Result<(), AllocError>
    ensures { OnOk result (Writes skip e.old e.new probability) }
{
    match probability {
        None => {
            e.write(false, 128)?;
            Ok(())
        }
        Some(value) => {
            e.write(true, 128)?;
            e.literal(value, 8)?;
            Ok(())
        }
    }
}

/// Writes the probabilities of reference frames, if `asked`.
pub(crate) fn write_reference_probabilities_if(
    asked: bool,
    probabilities: &ReferenceProbabilities,
    e: &mut BoolEncoder,
) -> Result<(), AllocError>
    requires { asked ≡ false → probabilities.now ≡ no_references }
    ensures { OnOk result (Writes (when asked reference_probabilities no_references) e.old e.new probabilities.now) }
{
    if !asked {
        return Ok(());
    }
    e.literal(probabilities.intra, 8)?;
    e.literal(probabilities.last, 8)?;
    e.literal(probabilities.golden, 8)?;
    Ok(())
}
