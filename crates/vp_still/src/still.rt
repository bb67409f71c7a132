//! The WebP file of a picture.

ghost use Rattle.std.specs.Prelude.{◌≡◌, ◌≢◌, ◌⊎◌, ◌≤◌, ℕ, List, length, None, Some, Err, IfOk, IfErr};
ghost use Rattle.vp_scale.specs.declared.scale.Scale.{Scale};
ghost use Rattle.vp_scale.specs.Planes.{i420_size};
ghost use Rattle.vp_webp.specs.declared.fault.WebPWriteFault.{WebPWriteFault};
ghost use Rattle.vp_webp.specs.Text.{webp_text, webp_refusal};
ghost use Rattle.vp_encode.specs.TooLong.{IsTooLong};
ghost use Rattle.vp_still.specs.declared.fault.StillFault.{StillFault};
ghost use Rattle.vp_still.specs.Still.{still_settings, kept_file, IsEncodedStill, IsKeyFrameFor, IsStill};
ghost use Rattle.vp_still.specs.Smaller.{IsSmaller};
ghost use Rattle.vp_still.specs.TooLong.{IsTooLongStill, HasLongPart};

use crate::fault::StillFault;
use crate::found::{Found, ShownPacket};
use std::alloc::{AllocError, Global};
use vp_base::{ByteList, Counted, Dim, Picture};
use vp_encode::{EncodeFault, Encoded, Encoder, Settings};
use vp_scale::{Scale, scaled};
use vp_webp::{WebPWriteFault, write};

/// How a picture got into its file.
#[derive(Clone, Copy, Debug, PartialEq, Eq)]
pub enum Coding {
    /// The packet is in the file unchanged: nothing is lost.
    Kept,
    /// The picture is encoded anew. The number is the sum of the squared differences of the pixels.
    Encoded(u64),
}

/// A picture as a WebP file.
#[derive(Drop)]
pub struct Still {
    /// The bytes of the file.
    pub file: ByteList,
    /// How the picture got into it.
    pub coding: Coding,
}

/// Makes the WebP file of a picture: its packet unchanged, if that is a shown key frame, not too long for a file, and
/// the picture keeps its size. Any other picture is made smaller, and encoded as a key frame with this quantiser index.
///
/// Errors: `TooLong` for a picture that is encoded, if a part of its key frame is too long for the packet format, or
/// the packet for a file; `Memory`.
pub fn webp_of(
    alloc: Global,
    shown: ShownPacket<'_>,
    scale: Scale,
    qi: u8,
) -> Result<Still, StillFault>
    requires { qi ≤ 127 }
    ensures file { IfOk result (λ s. IsStill scale qi shown.entry.packet.now shown.entry.dim.w shown.entry.dim.h
        shown.entry.pixels.now s.coding s.file) }
    ensures kept { kept_file scale shown.entry.packet.now ≢ None → IfErr result (λ e. e ≡ StillFault.Memory) }
    ensures too_long { result ≡ Err StillFault.TooLong
        → IsTooLongStill scale qi shown.entry.dim.w shown.entry.dim.h shown.entry.pixels.now }
{
    if let Some(file) = kept_file(alloc, shown.packet, scale)? {
        return Ok(Still {
            file,
            coding: Coding::Kept,
        });
    }
    encoded_still(alloc, shown.dim, shown.pixels, scale, qi)
}

/// Makes the WebP file of a picture that was found, as `webp_of` does.
///
/// Errors: those of `webp_of`.
pub fn webp_still(alloc: Global, found: &Found, scale: Scale, qi: u8) -> Result<Still, StillFault>
    requires { qi ≤ 127 }
    ensures file { IfOk result (λ s. IsStill scale qi found.now.packet found.now.dim.w found.now.dim.h
        found.now.pixels s.coding s.file) }
    ensures kept { kept_file scale found.now.packet ≢ None → IfErr result (λ e. e ≡ StillFault.Memory) }
    ensures too_long { result ≡ Err StillFault.TooLong
        → IsTooLongStill scale qi found.now.dim.w found.now.dim.h found.now.pixels }
{
    webp_of(alloc, found.shown(), scale, qi)
}

// The file of a packet that is in it unchanged.
fn kept_file(alloc: Global, packet: &[u8], scale: Scale) -> Result<Option<ByteList>, AllocError>
    ensures { IfOk result (λ f. f ≡ kept_file scale packet.now) }
{
    if scale != Scale::Full {
        return Ok(None);
    }
    match webp_file(alloc, packet) {
        Ok(file) => Ok(Some(file)),
        Err(WebPWriteFault::Device) => Err(AllocError),
        Err(WebPWriteFault::NotKey | WebPWriteFault::Hidden | WebPWriteFault::TooLong) => Ok(None),
    }
}

// The WebP file of a packet. `Device` means a lack of memory.
fn webp_file(alloc: Global, packet: &[u8]) -> Result<ByteList, WebPWriteFault>
    ensures file { IfOk result (λ f. (webp_refusal packet.now ≡ None) × (f ≡ webp_text packet.now)) }
    ensures refused { IfErr result (λ e. (e ≡ WebPWriteFault.Device) ⊎ (webp_refusal packet.now ≡ Some e)) }
{
    let mut out = Counted::new(Vec::new(alloc));
    write(&mut out, packet)?;
    Ok(ByteList::from_vec(out.into_inner()))
}

// The file of a picture that is encoded.
fn encoded_still(
    alloc: Global,
    dim: Dim,
    pixels: &[u8],
    scale: Scale,
    qi: u8,
) -> Result<Still, StillFault>
    requires qi { qi ≤ 127 }
    requires size { length pixels.now ≡ i420_size dim.w dim.h }
    ensures file { IfOk result (λ s. IsEncodedStill scale qi dim.w dim.h pixels.now s.coding s.file) }
    ensures too_long { result ≡ Err StillFault.TooLong → IsTooLongStill scale qi dim.w dim.h pixels.now }
{
    let frame = encode(alloc, dim, pixels, scale, qi)?;
    match webp_file(alloc, frame.packet.as_slice()) {
        Ok(file) => Ok(Still {
            file,
            coding: Coding::Encoded(frame.squared_error),
        }),
        Err(WebPWriteFault::TooLong) => Err(StillFault::TooLong),
        Err(WebPWriteFault::Device) => Err(StillFault::Memory),
        Err(WebPWriteFault::NotKey) => unreachable!(),
        Err(WebPWriteFault::Hidden) => unreachable!(),
    }
}

// Makes a picture smaller, and encodes it as a key frame.
fn encode(
    alloc: Global,
    dim: Dim,
    pixels: &[u8],
    scale: Scale,
    qi: u8,
) -> Result<Encoded, StillFault>
    requires qi { qi ≤ 127 }
    requires size { length pixels.now ≡ i420_size dim.w dim.h }
    ensures frame { IfOk result (λ r. IsKeyFrameFor scale qi dim.w dim.h pixels.now r.packet r.squared_error) }
    ensures too_long { result ≡ Err StillFault.TooLong → HasLongPart scale qi dim.w dim.h pixels.now }
{
    let source = scaled(alloc, dim, pixels, scale)?;
    let Ok(mut encoder) = Encoder::new(alloc, scale.size(dim), settings(qi)) else {
        unreachable!();
    };
    key_frame(&mut encoder, &source)
}

// Encodes the first frame of an encoder: a picture of its size.
fn key_frame(encoder: &mut Encoder, source: &Picture) -> Result<Encoded, StillFault>
    requires width { source.now.width ≡ encoder.old.dim.w }
    requires height { source.now.height ≡ encoder.old.dim.h }
    ensures frame { IfOk result (λ r. (scale : Scale) (qi w h : ℕ) (pixels : List ℕ)
        → IsSmaller scale qi w h pixels source.now encoder.old
        → IsKeyFrameFor scale qi w h pixels r.packet r.squared_error) }
    ensures too_long { result ≡ Err StillFault.TooLong → IsTooLong encoder.old source.now }
{
    match encoder.encode(source) {
        Ok(encoded) => Ok(encoded),
        Err(EncodeFault::TooLong) => Err(StillFault::TooLong),
        Err(EncodeFault::Memory) => Err(StillFault::Memory),
        Err(EncodeFault::SourceSize) => unreachable!(),
    }
}

// The settings for one key frame.
fn settings(qi: u8) -> Settings
    ensures { result ≡ still_settings qi }
{
    Settings {
        qi,
        level: qi / 4,
        sharpness: 0,
        simple: false,
        key_every: 1,
        golden_every: 0,
        range: 0,
        subpel: false,
        partitions: 1,
    }
}
