//! Reading a WebP file.

ghost use Rattle.std.specs.Prelude.{◌≡◌, ◌≤◌, ◌+◌, length, IfOk, true};
ghost use Rattle.vp_head.specs.Tag.{IsKeyPacket};
ghost use Rattle.vp_webp.specs.WebP.{is_key_packet, is_shown_packet, image_of, is_animated, canvas_of, after_extended};
ghost use Rattle.vp_webp.specs.WebP.{seen_after, image_in, still_image};
ghost use Rattle.vp_webp.specs.Place.{bytes_at, image_at, image_with, result_map, IsWithin};

use crate::chunk::{ChunkKind, next_chunk, riff_body};
use crate::fault::WebPFault;
use byteorder::{ByteOrder, LittleEndian};
use std::marker::Model;

/// The size of the canvas of an extended file.
#[derive(Clone, Copy, Debug, PartialEq, Eq)]
pub struct Canvas {
    /// Width in pixels, from 1 to 16,777,216.
    pub width: u32,
    /// Height in pixels, from 1 to 16,777,216.
    pub height: u32,
}

/// What the chunks before the picture tell.
#[derive(Clone, Copy)]
pub(crate) struct Seen {
    /// Whether there was a chunk of alpha.
    pub has_alpha: bool,
    /// The canvas of the last `VP8X` chunk.
    pub canvas: Option<Canvas>,
}

/// Where a packet lies among bytes.
#[derive(Clone, Copy, Debug, PartialEq, Eq)]
pub struct PacketPlace {
    /// The index of its first byte.
    pub start: usize,
    /// The number of its bytes.
    pub len: usize,
}

/// An image that is found among bytes.
#[derive(Clone, Copy)]
pub(crate) struct Found {
    /// Where its packet lies.
    pub place: PacketPlace,
    /// What the chunks before it tell.
    pub seen: Seen,
}

/// The still image of a lossy WebP file. Its packet is lent from the file.
#[derive(Drop)]
pub struct WebP<'a> {
    packet: &'a [u8],
    seen: Seen,
}

impl<'a> Model for WebP<'a> {
    ghost use Rattle.vp_webp.specs.WebP.{StillImage};

    ghost Value = { StillImage };

    ghost view = { λ o. record {
      packet = o.packet.now;
      has_alpha = o.seen.has_alpha;
      canvas = o.seen.canvas;
    } };
}

impl<'a> WebP<'a> {
    /// The bytes of the key frame.
    pub fn packet(&self) -> &'a [u8]
        ensures { result.now ≡ self.now.packet }
    {
        self.packet
    }

    /// Whether a chunk of alpha precedes the picture. It is not read.
    pub fn has_alpha(&self) -> bool
        ensures { result ≡ self.now.has_alpha }
    {
        self.seen.has_alpha
    }

    /// The canvas of an extended file. None if the file is a simple one.
    pub fn canvas(&self) -> Option<Canvas>
        ensures { result ≡ self.now.canvas }
    {
        self.seen.canvas
    }
}

/// Whether a packet is a key frame by its frame tag.
pub(crate) fn is_key_packet(packet: &[u8]) -> bool
    ensures { result ≡ is_key_packet packet.now }
{
    packet.len() >= 3 && packet[0] % 2 == 0
}

/// Whether the frame of a packet is shown, by its frame tag.
pub(crate) fn is_shown_packet(packet: &[u8]) -> bool
    requires { 1 ≤ length packet.now }
    ensures { result ≡ is_shown_packet packet.now }
{
    packet[0] >> 4 & 1 == 1
}

/// The image of a packet. `NotKey` or `Hidden` if it is no key frame or not shown.
fn image_of(seen: Seen, packet: &[u8]) -> Result<WebP<'_>, WebPFault>
    ensures value { result ≡ image_of seen packet.now }
    ensures image { IfOk result (λ image. image ≡ image_with seen packet.now) }
    ensures key { IfOk result (λ image. IsKeyPacket image.packet) }
{
    if !is_key_packet(packet) {
        return Err(WebPFault::NotKey);
    }
    if !is_shown_packet(packet) {
        return Err(WebPFault::Hidden);
    }
    Ok(WebP { packet, seen })
}

/// Whether the flags of a `VP8X` chunk have the one for animations.
fn is_animated(payload: &[u8]) -> bool
    requires { 1 ≤ length payload.now }
    ensures { result ≡ is_animated payload.now }
{
    payload[0] >> 1 & 1 == 1
}

/// The canvas of a `VP8X` chunk.
fn canvas_of(payload: &[u8]) -> Canvas
    requires { 10 ≤ length payload.now }
    ensures { result ≡ canvas_of payload.now }
{
    Canvas {
        width: LittleEndian::read_u24(payload.split_at(4).1) + 1,
        height: LittleEndian::read_u24(payload.split_at(7).1) + 1,
    }
}

/// What is known after a `VP8X` chunk. `Torn` if it ends inside its fields, `Animated` if its flags say so.
fn after_extended(payload: &[u8], seen: Seen) -> Result<Seen, WebPFault>
    ensures { result ≡ after_extended payload.now seen }
{
    if payload.len() < 10 {
        return Err(WebPFault::Torn);
    }
    if is_animated(payload) {
        return Err(WebPFault::Animated);
    }
    Ok(Seen {
        canvas: Some(canvas_of(payload)),
        ..seen
    })
}

/// What is known after a chunk that is not a picture, or the fault that it is.
fn seen_after(kind: ChunkKind, payload: &[u8], seen: Seen) -> Result<Seen, WebPFault>
    ensures { result ≡ seen_after kind payload.now seen }
{
    match kind {
        ChunkKind::Vp8 | ChunkKind::Other => Ok(seen),
        ChunkKind::Vp8L => Err(WebPFault::Lossless),
        ChunkKind::Vp8X => after_extended(payload, seen),
        ChunkKind::Alph => Ok(Seen {
            has_alpha: true,
            ..seen
        }),
        ChunkKind::Anmf => Err(WebPFault::Animated),
    }
}

// Finds the first image in the chunks.
fn find_image(body: &[u8]) -> Result<Found, WebPFault>
    ensures value { result_map (image_at body.now) result ≡ image_in body.now }
    ensures within { IfOk result (λ f. IsWithin f.place body.now) }
    ensures key { IfOk result (λ f. IsKeyPacket (bytes_at f.place body.now)) }
{
    let mut seen = Seen {
        has_alpha: false,
        canvas: None,
    };
    let mut rest = body;
    loop {
        let chunk = next_chunk(rest)?;
        if let ChunkKind::Vp8 = chunk.kind {
            let image = image_of(seen, chunk.payload)?;
            let place = PacketPlace {
                start: body.len() - rest.len() + 8,
                len: image.packet.len(),
            };
            return Ok(Found { place, seen });
        }
        seen = seen_after(chunk.kind, chunk.payload, seen)?;
        rest = chunk.rest;
    }
}

// The first image in the chunks.
fn first_image(body: &[u8]) -> Result<WebP<'_>, WebPFault>
    ensures value { result ≡ image_in body.now }
    ensures key { IfOk result (λ image. IsKeyPacket image.packet) }
{
    let Found { place, seen } = find_image(body)?;
    let packet = &body[place.start..place.start + place.len];
    Ok(WebP { packet, seen })
}

/// Reads the still image of a lossy WebP file, simple or extended. The packet is lent from the file.
///
/// Chunks are read in order until the first picture; those after it are not. The faults are in the order of the bytes
/// that reveal them: `Signature`, `Torn` if the file ends inside its header or before the end that its size gives;
/// then for each chunk `Torn`, `Lossless` for `VP8L`, `Animated` for `ANMF` or the flag in `VP8X`; `NoPicture` at the
/// end; `NotKey` and `Hidden` for the picture's packet.
#[tactic(auto, unfolding(crate::specs::WebP::still_image))]
pub fn read(file: &[u8]) -> Result<WebP<'_>, WebPFault>
    ensures image { result ≡ still_image file.now }
    ensures key { IfOk result (λ image. IsKeyPacket image.packet) }
{
    first_image(riff_body(file)?.taken)
}

/// Finds the packet of a lossy WebP file: where it begins among the file's bytes, and its length. The faults are those
/// of `read`.
pub fn packet_place(file: &[u8]) -> Result<PacketPlace, WebPFault>
    ensures packet { result_map (λ place. bytes_at place file.now) result
        ≡ result_map (λ image. image.packet) (still_image file.now) }
    ensures within { IfOk result (λ place. IsWithin place file.now) }
{
    let Found { place, seen: _ } = find_image(riff_body(file)?.taken)?;
    Ok(PacketPlace {
        start: place.start + 12,
        len: place.len,
    })
}
