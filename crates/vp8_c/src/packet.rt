//! The C functions that say what is in a packet: its first bytes, and the frame of the last one.

ghost use Rattle.std.specs.Prelude.{◌≡◌};
ghost use Rattle.vp_base.specs.declared.limits.Limits.{Limits};
ghost use Rattle.vp8_c.specs.Handle.{handle_value_in};
ghost use Rattle.vp8_c.specs.Arguments.{GivesOrFails, Puts};
ghost use Rattle.vp8_c.specs.Packets.{flag, frame_in, packet_info, peeked};

use crate::handle::Handle;
use crate::status::{CLOSED, OK, fault_number};
use std::alloc::Global;
use vp_base::Limits;
use vp_decode::FrameFacts;
use vp_head::Tag;

/// What the first bytes of a packet say.
#[repr(C)]
#[derive(Clone, Copy)]
pub struct PacketInfo {
    /// 1 for a key packet, else 0.
    pub key: u32,
    /// 1 if its frame is shown, else 0.
    pub shown: u32,
    /// The width in pixels of a key packet's picture; 0 for an inter packet.
    pub width: u32,
    /// The height in pixels of a key packet's picture; 0 for an inter packet.
    pub height: u32,
}

/// Facts about the frame of a packet that is decoded.
#[repr(C)]
#[derive(Clone, Copy)]
pub struct FrameInfo {
    /// 1 for a key frame, else 0.
    pub key: u32,
    /// The bitstream version, 0 to 3.
    pub version: u32,
    /// 1 if it is shown, else 0.
    pub shown: u32,
    /// The width of its picture in pixels.
    pub width: u32,
    /// The height of its picture in pixels.
    pub height: u32,
    /// The horizontal upscaling code of a key frame, 0 to 3; 0 for an inter frame.
    pub horizontal_scale: u32,
    /// The vertical upscaling code of a key frame, 0 to 3; 0 for an inter frame.
    pub vertical_scale: u32,
    /// The quantiser index, 0 to 127.
    pub quantiser: u32,
    /// 1 if its picture becomes the last frame, else 0.
    pub refreshes_last: u32,
    /// 1 if its picture becomes golden, else 0.
    pub refreshes_golden: u32,
    /// 1 if its picture becomes altref, else 0.
    pub refreshes_altref: u32,
    /// 1 if a partition was read past its end, else 0. No other damage is reported.
    pub corrupt: u32,
}

impl FrameInfo {
    ghost use Rattle.vp8_c.specs.Packets.{frame_info};

    /// Returns facts as numbers.
    pub fn of(facts: &FrameFacts) -> FrameInfo
        ensures { result ≡ frame_info facts.now }
    {
        FrameInfo {
            key: flag(facts.key),
            version: u32::from(facts.version),
            shown: flag(facts.shown),
            width: u32::from(facts.width),
            height: u32::from(facts.height),
            horizontal_scale: u32::from(facts.horizontal_scale),
            vertical_scale: u32::from(facts.vertical_scale),
            quantiser: u32::from(facts.quantiser),
            refreshes_last: flag(facts.refreshes_last),
            refreshes_golden: flag(facts.refreshes_golden),
            refreshes_altref: flag(facts.refreshes_alt),
            corrupt: flag(facts.corrupt),
        }
    }
}

/// Returns a truth value as C has it.
pub fn flag(value: bool) -> u32
    ensures { result ≡ flag value }
{
    if value { 1 } else { 0 }
}

/// Returns what a tag says.
fn info_of(tag: &Tag) -> PacketInfo
    ensures { result ≡ packet_info tag.now }
{
    let (width, height) = match tag.key {
        Some(key) => (u32::from(key.dim.w), u32::from(key.dim.h)),
        None => (0, 0),
    };
    PacketInfo {
        key: flag(tag.key.is_some()),
        shown: flag(tag.show),
        width,
        height,
    }
}

/// Writes what the first bytes of a packet say: 10 of a key packet, 3 of an inter packet. No picture is too large.
///
/// Status: `TRUNCATED`, `VERSION`, `START_CODE`, `SIZE`.
#[unsafe(no_mangle)]
pub extern "C" fn vp8_peek(packet: &[u8], info: &mut PacketInfo) -> u32
    ensures { (limits : Limits) → limits.pixels ≡ 268402689
        → GivesOrFails Puts (peeked limits packet.now) result info.old info.new }
{
    let limits = Limits {
        pixels: 268_402_689,
        packet_bytes: 1,
        packets: 1,
        cache: 1,
    };
    match Tag::read(packet, &limits) {
        Ok(tag) => {
            *info = info_of(&tag);
            OK
        }
        Err(fault) => fault_number(fault),
    }
}

/// Writes facts about the frame of the packet that was decoded last. There are none before the first packet, after a
/// packet with a fault, and after an empty one.
///
/// Status: `NO_PICTURE`, `CLOSED`.
#[unsafe(no_mangle)]
pub extern "C" fn vp8_decoder_frame(
    alloc: Global,
    decoder: &mut Handle,
    info: &mut FrameInfo,
) -> u32
    ensures held { handle_value_in decoder.new ≡ handle_value_in decoder.old }
    ensures frame { GivesOrFails Puts (frame_in decoder.old) result info.old info.new }
{
    let Some(held) = decoder.take(alloc) else {
        return CLOSED;
    };
    let status = match held.frame() {
        Ok(frame) => {
            *info = frame;
            OK
        }
        Err(why) => why,
    };
    decoder.put(held);
    status
}
