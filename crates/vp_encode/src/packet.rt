//! Writes a frame as a packet.

ghost use Rattle.std.specs.Prelude.{◌≡◌, ◌≤◌, ◌<◌, ◌^◌, ◌-◌, true, false, length, take, IfOk, IfErr, is_some};
ghost use Rattle.vp_base.specs.Image.{macroblocks};
ghost use Rattle.vp_modes.specs.Map.{of_segments};
ghost use Rattle.vp_tokens.specs.Partitions.{lists, AreBelow24Bits};
ghost use Rattle.vp_decode.specs.Step.{key_context, maps_before};
ghost use Rattle.vp_encode.specs.CodedFrame.{CanBeEncoded};
ghost use Rattle.vp_encode.specs.FrameChoices.{IsMotionOf};
ghost use Rattle.vp_encode.specs.PacketContents.{key_tag, IsKeyFramePacket, IsInterFramePacket};
ghost use Rattle.vp_encode.specs.Written.{IsFirst, IsPutTogether, IsPacket, HasLongTokenPart, HasLongPartition};
ghost use Rattle.vp_encode.specs.Written.{encoder_tag, kept_by};
ghost use Rattle.vp_encode.specs.declared.fault.PacketError.{PacketError};

use crate::coded_frame::CodedFrame;
use crate::fault::PacketError;
use crate::modes_and_motion::{motion_of, write_modes_and_motion};
use crate::tag::put_tag;
use crate::tokens::{finish, write_tokens};
use std::alloc::{AllocError, Global};
use vp_base::{ByteList, Dim, Grid};
use vp_bool::BoolEncoder;
use vp_head::{KeyTag, Saved, Tag};
use vp_modes::{ModeMap, Segment};
use vp_motion::VectorMap;
use vp_tokens::Partitions;

/// The maximum length of the first partition in bytes: its size has 19 bits (RFC 6386, chapter 9.1).
const MOST_FIRST: usize = 524_287;

/// The maximum length of a token partition other than the last: its size has 24 bits (RFC 6386, chapter 9.5).
const MOST_PART: usize = 16_777_215;

/// Writes the packet of a key frame of this size: tag, first partition (header, modes and motion), and token
/// partitions. The header gives the number of token partitions. Each partition ends with an additional byte of 0.
///
/// Errors: `TooLong`, `Memory`.
pub fn write_key_packet(
    alloc: Global,
    dim: Dim,
    coded: &CodedFrame,
) -> Result<ByteList, PacketError>
    requires columns { coded.now.macroblocks.columns ≡ macroblocks dim.w }
    requires rows { coded.now.macroblocks.rows ≡ macroblocks dim.h }
    requires told { CanBeEncoded true (key_context dim).saved (key_context dim).modes coded.now }
    ensures packet { IfOk result (λ v. IsKeyFramePacket dim coded.now v) }
    ensures too_long { IfErr result (λ e. e ≡ PacketError.TooLong
        → HasLongPartition (Some (key_tag dim)) (key_context dim).saved
        (maps_before (key_context dim).modes) coded.now) }
{
    let before = ModeMap::new(alloc, dim)?;
    let motion = motion_of(alloc, dim, coded)?;
    let key = Some(key_tag(dim));
    write_packet(alloc, key, &Saved::defaults(), before, coded, &motion)
}

/// Writes the packet of an inter frame, coded relative to the saved values and the segment map. Its size must be that
/// of the reference frames.
///
/// Errors: `TooLong`, `Memory`.
pub fn write_inter_packet(
    alloc: Global,
    dim: Dim,
    saved: &Saved,
    segments: &Grid<Segment>,
    coded: &CodedFrame,
) -> Result<ByteList, PacketError>
    requires columns { coded.now.macroblocks.columns ≡ macroblocks dim.w }
    requires rows { coded.now.macroblocks.rows ≡ macroblocks dim.h }
    requires segment_columns { segments.now.columns ≡ macroblocks dim.w }
    requires segment_rows { segments.now.rows ≡ macroblocks dim.h }
    requires told { CanBeEncoded false saved.now (of_segments segments.now) coded.now }
    ensures packet { IfOk result (λ v. IsInterFramePacket saved.now segments.now coded.now v) }
    ensures too_long { IfErr result (λ e. e ≡ PacketError.TooLong
        → HasLongPartition None saved.now (maps_before (of_segments segments.now)) coded.now) }
{
    let before = ModeMap::of_segments(alloc, segments)?;
    let motion = motion_of(alloc, dim, coded)?;
    write_packet(alloc, None, saved, before, coded, &motion)
}

/// Returns the key part of a tag of this size, without scaling.
pub(crate) fn key_tag(dim: Dim) -> KeyTag
    ensures { result ≡ key_tag dim }
{
    KeyTag {
        dim,
        horizontal_scale: 0,
        vertical_scale: 0,
    }
}

/// Writes the packet of a frame with this motion, coded relative to the saved values and the modes before it.
pub(crate) fn write_packet(
    alloc: Global,
    key: Option<KeyTag>,
    saved: &Saved,
    before: ModeMap,
    coded: &CodedFrame,
    motion: &VectorMap,
) -> Result<ByteList, PacketError>
    requires before_columns { before.columns ≡ coded.now.macroblocks.columns }
    requires before_rows { before.rows ≡ coded.now.macroblocks.rows }
    requires motion { IsMotionOf coded.now.macroblocks motion.now }
    requires told { CanBeEncoded (is_some key) (kept_by saved.now key) before coded.now }
    ensures packet { IfOk result (λ v. IsPacket key saved.now (maps_before before) coded.now v) }
    ensures too_long { IfErr result (λ e. e ≡ PacketError.TooLong
        → HasLongPartition key saved.now (maps_before before) coded.now) }
{
    let first = write_first(alloc, key, saved, before, coded, motion)?;
    if first.len() > MOST_FIRST {
        return Err(PacketError::TooLong);
    }
    let parts = write_tokens(alloc, coded, motion)?;
    put_together(alloc, key, &first, &parts)
}

/// Returns the first partition: the header, the modes and the motion.
fn write_first(
    alloc: Global,
    key: Option<KeyTag>,
    saved: &Saved,
    before: ModeMap,
    coded: &CodedFrame,
    motion: &VectorMap,
) -> Result<Vec<u8>, AllocError>
    requires before_columns { before.columns ≡ coded.now.macroblocks.columns }
    requires before_rows { before.rows ≡ coded.now.macroblocks.rows }
    requires motion { IsMotionOf coded.now.macroblocks motion.now }
    requires told { CanBeEncoded (is_some key) (kept_by saved.now key) before coded.now }
    ensures { IfOk result (λ v. IsFirst saved.now (encoder_tag key 0) (maps_before before) coded.now v.items) }
{
    // Of the tag, the header looks at no more than whether it is a key frame's.
    let tag = Tag {
        version: 0,
        show: true,
        first_partition: 0,
        key,
    };
    let mut modes = before;
    let mut encoder = BoolEncoder::new(alloc);
    coded.header.write(saved, &tag, &mut encoder)?;
    write_modes_and_motion(coded, &mut modes, motion, &mut encoder)?;
    let bytes = finish(encoder)?;
    Ok(bytes)
}

/// Returns whether the size of each token partition but the last fits in 24 bits.
fn are_short(parts: &[Vec<u8>]) -> bool
    requires some { 0 < length parts.now }
    ensures short { result ≡ true → AreBelow24Bits (take (length parts.now - 1) (lists parts.now)) }
    ensures long { result ≡ false → HasLongTokenPart (lists parts.now) }
{
    for part in &parts[..parts.len() - 1] {
        if part.len() > MOST_PART {
            return false;
        }
    }
    true
}

/// Concatenates the tag, the first partition, the partition table and the token partitions.
fn put_together(
    alloc: Global,
    key: Option<KeyTag>,
    first: &[u8],
    parts: &[Vec<u8>],
) -> Result<ByteList, PacketError>
    requires first { length first.now < 2 ^ 19 }
    requires some { 0 < length parts.now }
    requires few { length parts.now ≤ 8 }
    ensures together { IfOk result (λ v. IsPutTogether key first.now (lists parts.now) v) }
    ensures too_long { IfErr result (λ e. e ≡ PacketError.TooLong → HasLongTokenPart (lists parts.now)) }
{
    if !are_short(parts) {
        return Err(PacketError::TooLong);
    }
    let rest = Partitions::put(alloc, parts)?;
    let mut bytes = Vec::new(alloc);
    put_tag(key, first.len() as u32, &mut bytes)?;
    bytes.extend_from_slice(first)?;
    bytes.extend_from_slice(&rest)?;
    Ok(ByteList::from_vec(bytes))
}
