//! Writing the modes of a macroblock.

ghost use Rattle.std.specs.Prelude.{◌≡◌, ◌<◌, ℕ, false, true, replicate, None, OnOk};
ghost use Rattle.vp_base.specs.Grid.{Has};
ghost use Rattle.vp_bool.specs.Reader.{when};
ghost use Rattle.vp_bool.specs.Writing.{Writes};
ghost use Rattle.vp_tables.specs.Modes.{is_by_subblocks};
ghost use Rattle.vp_head.specs.Reference.{is_intra};
ghost use Rattle.vp_modes.specs.Modes.{skip_by, inter_reference, reference_of, luma_mode};
ghost use Rattle.vp_modes.specs.Pieces.{segment_id};
ghost use Rattle.vp_modes.specs.Entry.{unread};
ghost use Rattle.vp_modes.specs.Modes.{chroma_mode, sub_modes, intra_modes, modes_at};
ghost use Rattle.vp_modes.specs.Pieces.{sub_mode};
ghost use Rattle.vp_modes.specs.Spelled.{AreWritableModes};

use crate::entry::Modes;
use crate::map::ModeMap;
use crate::reading::probabilities_of;
use std::alloc::AllocError;
use vp_base::Place;
use vp_bool::BoolEncoder;
use vp_head::{Header, Reference, ReferenceProbabilities};
use vp_tables::{
    CHROMA_TREE, ChromaMode, KEY_CHROMA_PROBABILITIES, KEY_LUMA_PROBABILITIES, KEY_LUMA_TREE,
    LUMA_TREE, LumaMode, SEGMENT_TREE, SUB_TREE, SubMode,
};
use vp_tree::write_tree;

/// Writes a segment id by the segment tree, if `asked`.
fn write_segment_if(
    asked: bool,
    probabilities: &[u8; 3],
    segment: u8,
    e: &mut BoolEncoder,
) -> Result<(), AllocError>
    requires { segment < 4 }
    ensures { OnOk result ((otherwise : ℕ) → (asked ≡ false → segment ≡ otherwise)
        → Writes (when asked (segment_id probabilities.now) otherwise) e.old e.new segment) }
{
    if asked {
        write_tree(&SEGMENT_TREE, probabilities, segment, e)?;
    }
    Ok(())
}

fn write_skip(probability: Option<u8>, skip: bool, e: &mut BoolEncoder) -> Result<(), AllocError>
    requires { probability ≡ None → skip ≡ false }
    ensures { OnOk result (Writes (skip_by probability) e.old e.new skip) }
{
    if let Some(p) = probability {
        e.write(skip, p)?;
    }
    Ok(())
}

/// Writes the reference frame of an inter macroblock: last, golden or altref.
fn write_inter_reference(
    probabilities: &ReferenceProbabilities,
    reference: Reference,
    e: &mut BoolEncoder,
) -> Result<(), AllocError>
    requires { is_intra reference ≡ false }
    ensures { OnOk result (Writes (inter_reference probabilities.now) e.old e.new reference) }
{
    match reference {
        Reference::Intra => unreachable!(),
        Reference::Last => e.write(false, probabilities.last)?,
        Reference::Golden => {
            e.write(true, probabilities.last)?;
            e.write(false, probabilities.golden)?;
        }
        Reference::Alt => {
            e.write(true, probabilities.last)?;
            e.write(true, probabilities.golden)?;
        }
    }
    Ok(())
}

/// Writes the reference frame. In a key frame it is `Intra`, and not coded.
fn write_reference(
    header: &Header,
    reference: Reference,
    e: &mut BoolEncoder,
) -> Result<(), AllocError>
    requires { header.now.key ≡ true → reference ≡ Reference.Intra }
    ensures { OnOk result (Writes (reference_of header.now) e.old e.new reference) }
{
    if header.key {
        return Ok(());
    }
    let inter = !reference.is_intra();
    e.write(inter, header.references.intra)?;
    if inter {
        write_inter_reference(&header.references, reference, e)?;
    }
    Ok(())
}

/// Writes the luma mode of an intra macroblock.
fn write_luma(header: &Header, mode: LumaMode, e: &mut BoolEncoder) -> Result<(), AllocError>
    ensures { OnOk result (Writes (luma_mode header.now) e.old e.new mode) }
{
    if header.key {
        write_tree(&KEY_LUMA_TREE, &KEY_LUMA_PROBABILITIES, mode, e)?;
    } else {
        write_tree(&LUMA_TREE, &header.probabilities.luma, mode, e)?;
    }
    Ok(())
}

/// Writes the chroma mode of an intra macroblock.
fn write_chroma(header: &Header, mode: ChromaMode, e: &mut BoolEncoder) -> Result<(), AllocError>
    ensures { OnOk result (Writes (chroma_mode header.now) e.old e.new mode) }
{
    if header.key {
        write_tree(&CHROMA_TREE, &KEY_CHROMA_PROBABILITIES, mode, e)?;
    } else {
        write_tree(&CHROMA_TREE, &header.probabilities.chroma, mode, e)?;
    }
    Ok(())
}

fn write_sub(probabilities: &[u8; 9], mode: SubMode, e: &mut BoolEncoder) -> Result<(), AllocError>
    ensures { OnOk result (Writes (sub_mode probabilities.now) e.old e.new mode) }
{
    write_tree(&SUB_TREE, probabilities, mode, e)?;
    Ok(())
}

/// Writes the subblock modes of the macroblock at `place`.
fn write_subs(
    header: &Header,
    map: &ModeMap,
    place: Place,
    modes: &[SubMode; 16],
    e: &mut BoolEncoder,
) -> Result<(), AllocError>
    requires { Has map.now place }
    ensures { OnOk result (Writes (sub_modes header.now map.now place) e.old e.new modes.now) }
{
    let mut written = [SubMode::Dc; 16];
    for k in 0..16 {
        let probabilities = probabilities_of(header, map, place, &written, k);
        write_sub(probabilities, modes[k], e)?;
        written[k] = modes[k];
    }
    Ok(())
}

/// Writes the subblock modes if the luma mode is `B`.
fn write_subs_of(
    luma: LumaMode,
    header: &Header,
    map: &ModeMap,
    place: Place,
    modes: &[SubMode; 16],
    e: &mut BoolEncoder,
) -> Result<(), AllocError>
    requires place { Has map.now place }
    requires unread { is_by_subblocks luma ≡ false → modes.now ≡ replicate 16 SubMode.Dc }
    ensures { OnOk result (Writes (when (is_by_subblocks luma) (sub_modes header.now map.now place)
        (replicate 16 SubMode.Dc)) e.old e.new modes.now) }
{
    if luma.is_by_subblocks() {
        write_subs(header, map, place, modes, e)?;
    }
    Ok(())
}

/// Writes the modes of an intra macroblock.
fn write_intra(
    header: &Header,
    map: &ModeMap,
    place: Place,
    modes: &Modes,
    e: &mut BoolEncoder,
) -> Result<(), AllocError>
    requires place { Has map.now place }
    requires unread { is_by_subblocks modes.now.luma ≡ false → modes.now.subs ≡ replicate 16 SubMode.Dc }
    ensures { OnOk result (Writes (intra_modes header.now map.now place
        (unread modes.now.segment modes.now.skip modes.now.reference)) e.old e.new modes.now) }
{
    write_luma(header, modes.luma, e)?;
    write_subs_of(modes.luma, header, map, place, &modes.subs, e)?;
    write_chroma(header, modes.chroma, e)?;
    Ok(())
}

/// Writes the header of the macroblock at `place`, without motion vectors. The map contains the modes of this frame's
/// earlier macroblocks. At `place` it contains those of the previous frame, whose segment may be kept.
///
/// If out of memory, a part of the header may have been written.
pub fn write_modes(
    header: &Header,
    map: &ModeMap,
    place: Place,
    modes: &Modes,
    e: &mut BoolEncoder,
) -> Result<(), AllocError>
    requires place { Has map.now place }
    requires spelled { AreWritableModes header.now map.now place modes.now }
    // What was written is read as these modes, whatever follows.
    ensures { OnOk result (Writes (modes_at header.now map.now place) e.old e.new modes.now) }
{
    let segmentation = &header.segmentation;
    write_segment_if(
        segmentation.update_map,
        &segmentation.tree_probabilities,
        modes.segment,
        e,
    )?;
    write_skip(header.skip, modes.skip, e)?;
    write_reference(header, modes.reference, e)?;
    if modes.reference.is_intra() {
        write_intra(header, map, place, modes, e)?;
    }
    Ok(())
}
