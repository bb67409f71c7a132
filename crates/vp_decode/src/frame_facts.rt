//! Facts about the frame in a packet.

ghost use Rattle.std.specs.Prelude.{◌≡◌};
ghost use Rattle.vp_decode.specs.FrameFacts.{is_frame_corrupt};

use crate::parsed_packet::ParsedPacket;

/// Facts about the frame in a packet, which its tag and its header say (RFC 6386, chapters 9.1, 9.6 and 9.7), and
/// whether it is corrupt. A copy for callers, made after the frame is decoded; the decoder itself doesn't read it.
#[derive(Clone, Copy, Debug, PartialEq, Eq)]
pub struct FrameFacts {
    /// Whether it is a key frame.
    pub key: bool,
    /// The bitstream version, 0 to 3.
    pub version: u8,
    /// Whether it is shown.
    pub shown: bool,
    /// The width of its picture in pixels.
    pub width: u16,
    /// The height of its picture in pixels.
    pub height: u16,
    /// The horizontal upscaling code of a key frame, 0 to 3; 0 for an inter frame.
    pub horizontal_scale: u8,
    /// The vertical upscaling code of a key frame, 0 to 3; 0 for an inter frame.
    pub vertical_scale: u8,
    /// The quantiser index, 0 to 127.
    pub quantiser: u8,
    /// Whether its picture becomes the last frame.
    pub refreshes_last: bool,
    /// Whether its picture becomes golden.
    pub refreshes_golden: bool,
    /// Whether its picture becomes altref.
    pub refreshes_alt: bool,
    /// Whether a partition was read past its end, where zeros are read. That tells no other damage: a partition that
    /// was cut short or changed may be read within its bytes. Nor is it always damage: zeros at the end of a partition
    /// may be left out, and the picture is then the same. A partition that begins with 255, as no encoder's does,
    /// counts as one byte.
    pub corrupt: bool,
}

impl FrameFacts {
    ghost use Rattle.vp_decode.specs.FrameFacts.{facts_with};

    /// Returns the facts of a packet's frame. `corrupt` says whether one of its partitions was read past its end.
    pub(crate) fn of(packet: &ParsedPacket, corrupt: bool) -> FrameFacts
        ensures { result ≡ facts_with packet.now corrupt }
    {
        let opened = &packet.opened;
        let (tag, header, dim) = (&opened.tag, packet.header, opened.context.dim);
        let (horizontal_scale, vertical_scale) = match tag.key {
            Some(key) => (key.horizontal_scale, key.vertical_scale),
            None => (0, 0),
        };
        FrameFacts {
            key: tag.key.is_some(),
            version: tag.version,
            shown: tag.show,
            width: dim.w,
            height: dim.h,
            horizontal_scale,
            vertical_scale,
            quantiser: header.quantiser.y_ac,
            refreshes_last: header.key || header.updates.refresh_last,
            refreshes_golden: header.key || header.updates.refresh_golden,
            refreshes_alt: header.key || header.updates.refresh_alt,
            corrupt,
        }
    }
}

/// Returns whether a frame is corrupt. Without a frame it is not.
pub(crate) fn is_corrupt(frame: &Option<FrameFacts>) -> bool
    ensures { result ≡ is_frame_corrupt frame.now }
{
    match frame {
        Some(facts) => facts.corrupt,
        None => false,
    }
}
