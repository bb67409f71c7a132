//! Reading the frame tag.

ghost use Rattle.std.specs.Prelude.{IfOk, ◌≡◌, ◌≤◌, ◌<◌, ◌+◌, ◌^◌, length};
ghost use Rattle.vp_head.specs.Bounds.{IsTagInRange};
ghost use Rattle.vp_head.specs.Tag.{tag_of, tag_of_word, key_of, word_at, dim_within_limits, tag_dim};

use crate::fault::PacketFault;
use crate::fields::{KeyTag, Tag};
use vp_base::{Dim, DimFault, Limits};

impl Tag {
    /// Reads the tag of a packet: 3 bytes, or 10 of a key packet (RFC 6386, chapter 9.1). It returns the first fault
    /// in the order `Truncated`, `Version`, and in a key packet `Truncated`, `StartCode`, `Size`, `TooLarge`.
    #[tactic(auto, unfolding(crate::specs::Tag::tag_of))]
    pub fn read(packet: &[u8], limits: &Limits) -> Result<Tag, PacketFault>
        ensures value { result ≡ tag_of limits.now packet.now }
        ensures bounds { IfOk result (IsTagInRange limits.now) }
    {
        if packet.len() < 3 {
            return Err(PacketFault::Truncated);
        }
        let word = u32::from_le_bytes([packet[0], packet[1], packet[2], 0]);
        tag_from(word, packet, limits)
    }
}

/// The tag of the number in the first three bytes.
#[tactic(auto, unfolding(crate::specs::Tag::tag_of_word))]
fn tag_from(word: u32, packet: &[u8], limits: &Limits) -> Result<Tag, PacketFault>
    requires { word < 2 ^ 24 }
    ensures { result ≡ tag_of_word limits.now word packet.now }
{
    let version = (word >> 1 & 7) as u8;
    if version > 3 {
        return Err(PacketFault::Version);
    }
    let key = if word & 1 == 0 {
        Some(read_key(packet, limits)?)
    } else {
        None
    };
    Ok(Tag {
        version,
        show: word >> 4 & 1 == 1,
        first_partition: word >> 5,
        key,
    })
}

/// The further fields of a key packet.
#[tactic(auto, unfolding(crate::specs::Tag::key_of))]
fn read_key(packet: &[u8], limits: &Limits) -> Result<KeyTag, PacketFault>
    ensures { result ≡ key_of limits.now packet.now }
{
    if packet.len() < 10 {
        return Err(PacketFault::Truncated);
    }
    if packet[3] != 0x9d || packet[4] != 0x01 || packet[5] != 0x2a {
        return Err(PacketFault::StartCode);
    }
    let width = read_word(packet, 6);
    let height = read_word(packet, 8);
    let dim = dim_within(width, height, limits)?;
    Ok(KeyTag {
        dim,
        horizontal_scale: (width >> 14) as u8,
        vertical_scale: (height >> 14) as u8,
    })
}

/// The little-endian 16-bit number at index `at`.
fn read_word(packet: &[u8], at: usize) -> u16
    requires { at + 2 ≤ length packet.now }
    ensures { result ≡ word_at at packet.now }
{
    u16::from_le_bytes([packet[at], packet[at + 1]])
}

/// The size in the low 14 bits of both words, if it is within the limits.
fn dim_within(width: u16, height: u16, limits: &Limits) -> Result<Dim, PacketFault>
    ensures { result ≡ dim_within_limits limits.now (tag_dim width height) }
{
    match Dim::new(width & 0x3fff, height & 0x3fff, limits) {
        Ok(dim) => Ok(dim),
        Err(DimFault::Size) => Err(PacketFault::Size),
        Err(DimFault::TooLarge) => Err(PacketFault::TooLarge),
    }
}
