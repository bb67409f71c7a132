//! Writes the modes and the motion of a frame's macroblocks.

ghost use Rattle.std.specs.Prelude.{◌≡◌, ◌<◌, ◌+◌, IfOk, OnOk};
ghost use Rattle.vp_base.specs.Grid.{Has};
ghost use Rattle.vp_base.specs.Image.{macroblocks};
ghost use Rattle.vp_bool.specs.Writing.{Writes};
ghost use Rattle.vp_decode.specs.MacroblockMaps.{macroblock_read, row_read, maps_read, place};
ghost use Rattle.vp_encode.specs.CodedFrame.{IsMotionSpelled};
ghost use Rattle.vp_encode.specs.FrameChoices.{IsMotionOf};
ghost use Rattle.vp_encode.specs.Written.{AreWrittenBefore, IsOnlyMotionBefore, maps_at, with_motion};

use crate::coded_frame::CodedFrame;
use std::alloc::{AllocError, Global};
use vp_base::{Dim, Place};
use vp_bool::BoolEncoder;
use vp_modes::{ModeMap, write_modes};
use vp_motion::{VectorMap, write_motion};

/// Stores the motion of the macroblock at a place, if it is an inter macroblock.
fn store_motion(coded: &CodedFrame, place: Place, motion: &mut VectorMap)
    requires place { Has coded.now.macroblocks place }
    requires stored { Has motion.old place }
    ensures { motion.new ≡ with_motion coded.now.macroblocks place motion.old }
{
    let macroblock = coded.macroblocks.get(place);
    let reference = macroblock.modes.reference;
    if reference.is_intra() {
        return;
    }
    let own = &macroblock.motion;
    motion.set(place, reference, own.mode, &own.vectors);
}

/// Stores the motion of a row of macroblocks.
fn store_row(coded: &CodedFrame, row: usize, motion: &mut VectorMap)
    requires row { row < coded.now.macroblocks.rows }
    requires before { IsOnlyMotionBefore coded.now.macroblocks (place row 0) motion.old }
    ensures { IsOnlyMotionBefore coded.now.macroblocks (place (row + 1) 0) motion.new }
{
    for column in 0..coded.macroblocks.columns() {
        store_motion(coded, Place { column, row }, motion);
    }
}

/// Returns the motion of all macroblocks of a frame of this size.
pub(crate) fn motion_of(
    alloc: Global,
    dim: Dim,
    coded: &CodedFrame,
) -> Result<VectorMap, AllocError>
    requires columns { coded.now.macroblocks.columns ≡ macroblocks dim.w }
    requires rows { coded.now.macroblocks.rows ≡ macroblocks dim.h }
    ensures { IfOk result (IsMotionOf coded.now.macroblocks) }
{
    let mut motion = VectorMap::new(alloc, dim)?;
    for row in 0..coded.macroblocks.rows() {
        store_row(coded, row, &mut motion);
    }
    Ok(motion)
}

/// Writes the modes of the macroblock at a place, and its motion if it is an inter macroblock, and stores the modes.
fn write_modes_and_motion_at(
    coded: &CodedFrame,
    modes: &mut ModeMap,
    motion: &VectorMap,
    place: Place,
    e: &mut BoolEncoder,
) -> Result<(), AllocError>
    requires place { Has coded.now.macroblocks place }
    requires before { AreWrittenBefore coded.now place modes.old }
    requires motion { IsMotionOf coded.now.macroblocks motion.now }
    requires spelled { IsMotionSpelled coded.now }
    ensures writes { OnOk result (Writes (macroblock_read coded.now.header place (maps_at coded.now place modes.old))
        e.old e.new (maps_at coded.now (record { column = place.column + 1; row = place.row }) modes.new)) }
    ensures written { OnOk result (AreWrittenBefore coded.now (record {
      column = place.column + 1;
      row = place.row;
    }) modes.new) }
{
    let macroblock = coded.macroblocks.get(place);
    write_modes(&coded.header, modes, place, &macroblock.modes, e)?;
    modes.set(place, &macroblock.modes);
    let reference = macroblock.modes.reference;
    if reference.is_intra() {
        return Ok(());
    }
    // Only the motion above, to the left, and above to the left is looked up.
    write_motion(
        &coded.header,
        motion,
        place,
        reference,
        &macroblock.motion,
        e,
    )?;
    Ok(())
}

/// Writes a row of macroblocks.
fn write_row_of_modes(
    coded: &CodedFrame,
    modes: &mut ModeMap,
    motion: &VectorMap,
    row: usize,
    e: &mut BoolEncoder,
) -> Result<(), AllocError>
    requires row { row < coded.now.macroblocks.rows }
    requires before { AreWrittenBefore coded.now (place row 0) modes.old }
    requires motion { IsMotionOf coded.now.macroblocks motion.now }
    requires spelled { IsMotionSpelled coded.now }
    ensures writes { OnOk result (Writes (row_read coded.now.header coded.now.macroblocks.columns row
        (maps_at coded.now (place row 0) modes.old)) e.old e.new (maps_at coded.now (place (row + 1) 0) modes.new)) }
    ensures written { OnOk result (AreWrittenBefore coded.now (place (row + 1) 0) modes.new) }
{
    for column in 0..coded.macroblocks.columns() {
        write_modes_and_motion_at(coded, modes, motion, Place { column, row }, e)?;
    }
    Ok(())
}

/// Writes the modes and the motion of all macroblocks of a frame, and stores the modes. At first they are those before
/// the frame. `motion` is that of the frame.
pub(crate) fn write_modes_and_motion(
    coded: &CodedFrame,
    modes: &mut ModeMap,
    motion: &VectorMap,
    e: &mut BoolEncoder,
) -> Result<(), AllocError>
    requires before { AreWrittenBefore coded.now (place 0 0) modes.old }
    requires motion { IsMotionOf coded.now.macroblocks motion.now }
    requires spelled { IsMotionSpelled coded.now }
    ensures writes { OnOk result (Writes (maps_read coded.now.header (maps_at coded.now (place 0 0) modes.old))
        e.old e.new (maps_at coded.now (place coded.now.macroblocks.rows 0) modes.new)) }
    ensures written { OnOk result (AreWrittenBefore coded.now (place coded.now.macroblocks.rows 0) modes.new) }
{
    for row in 0..coded.macroblocks.rows() {
        write_row_of_modes(coded, modes, motion, row, e)?;
    }
    Ok(())
}
