//! The C functions for decoding packets.

ghost use Rattle.std.specs.Prelude.{◌≡◌, ◌⊎◌, ◌↔◌, None, IfSome, IsSomeAnd, Ok, false};
ghost use Rattle.vp8_c.specs.Handle.{handle_value_in};
ghost use Rattle.vp8_c.specs.Arguments.{CopiesPicture, GivesOrFails, IsClosed, Opens, Puts, size_of};
ghost use Rattle.vp8_c.specs.Planes.{planes_of};
ghost use Rattle.vp8_c.specs.Decoding.{Decodes, DecodesKeeping, IsFresh, IsNoLimit, decoder_in, handle_picture};
ghost use Rattle.vp8_c.specs.Decoding.{TellsCorrupt, TellsFrame, corrupt_in, last_frame_in};
ghost use Rattle.vp8_c.specs.Decoding.{reference_in, reference_size_in, shown_size_in};
ghost use Rattle.vp8_c.specs.Packets.{corrupt_number_in};
ghost use Rattle.vp8_c.specs.Lent.{IsLayoutOf, Lends};

use crate::decoder_handle::DecoderHandle;
use crate::handle::Handle;
use crate::handle_value::HandleValue;
use crate::lent::LentPicture;
use crate::packet::flag;
use crate::planes::{CallerPlanesMut, Strides};
use crate::rows::{put_picture, put_size};
use crate::status::{CLOSED, LIMITS, MEMORY, OK, OPEN};
use std::alloc::Global;
use vp_base::{Limits, Picture};
use vp_decode::{Decoder, OnFault};

/// Opens a decoder that refuses pictures of more than `max_pixels` pixels, from 1 to 268,402,689.
///
/// Status: `OPEN`, `LIMITS`, `MEMORY`.
#[unsafe(no_mangle)]
pub extern "C" fn vp8_decoder_new(alloc: Global, decoder: &mut Handle, max_pixels: u32) -> u32
    ensures answer { (result ≡ OK) ⊎ (result ≡ OPEN) ⊎ (result ≡ LIMITS) ⊎ (result ≡ MEMORY) }
    ensures opens { Opens (λ h. IsSomeAnd (decoder_in h) (IsFresh max_pixels)) result decoder.old decoder.new }
    ensures limits { handle_value_in decoder.old ≡ None → ((result ≡ LIMITS) ↔ IsNoLimit max_pixels) }
    ensures sound { result ≡ OK → corrupt_in decoder.new ≡ Ok false }
    ensures frame { result ≡ OK → last_frame_in decoder.new ≡ Ok None }
{
    if decoder.is_open() {
        return OPEN;
    }
    let Some(limits) = Limits::new(max_pixels, 1, 1, 1) else {
        return LIMITS;
    };
    let fresh = DecoderHandle {
        decoder: Decoder::new(alloc, limits),
        frame: None,
    };
    decoder.open(alloc, HandleValue::Decoder(fresh))
}

/// Decodes a packet, which is one frame. An empty packet is a frame that its sender dropped.
///
/// Status: `HIDDEN`, the faults of a packet, `MEMORY`, `CLOSED`.
#[unsafe(no_mangle)]
pub extern "C" fn vp8_decoder_decode(alloc: Global, decoder: &mut Handle, packet: &[u8]) -> u32
    ensures closed { decoder_in decoder.old ≡ None → IsClosed result decoder.old decoder.new }
    ensures decoded { IfSome (decoder_in decoder.old) (λ d. IsSomeAnd (decoder_in decoder.new)
        (Decodes packet.now result d)) }
    ensures corrupt { IfSome (decoder_in decoder.old)
        (TellsCorrupt packet.now result (corrupt_in decoder.old) (corrupt_in decoder.new)) }
    ensures frame { IfSome (decoder_in decoder.old)
        (TellsFrame packet.now result (last_frame_in decoder.old) (last_frame_in decoder.new)) }
{
    let Some(mut held) = decoder.take(alloc) else {
        return CLOSED;
    };
    let status = held.decode(packet, OnFault::Forget);
    decoder.put(held);
    status
}

/// Decodes a packet as `vp8_decoder_decode` does, but goes on after damage: a packet with a fault shows no picture and
/// changes nothing else.
///
/// Status: `HIDDEN`, the faults of a packet, `MEMORY`, `CLOSED`.
#[unsafe(no_mangle)]
pub extern "C" fn vp8_decoder_decode_keeping(
    alloc: Global,
    decoder: &mut Handle,
    packet: &[u8],
) -> u32
    ensures closed { decoder_in decoder.old ≡ None → IsClosed result decoder.old decoder.new }
    ensures decoded { IfSome (decoder_in decoder.old) (λ d. IsSomeAnd (decoder_in decoder.new)
        (DecodesKeeping packet.now result d)) }
    ensures corrupt { IfSome (decoder_in decoder.old)
        (TellsCorrupt packet.now result (corrupt_in decoder.old) (corrupt_in decoder.new)) }
    ensures frame { IfSome (decoder_in decoder.old)
        (TellsFrame packet.now result (last_frame_in decoder.old) (last_frame_in decoder.new)) }
{
    let Some(mut held) = decoder.take(alloc) else {
        return CLOSED;
    };
    let status = held.decode(packet, OnFault::Keep);
    decoder.put(held);
    status
}

/// Writes the size in pixels of the picture that the last packet showed.
///
/// Status: `NO_PICTURE`, `CLOSED`.
#[unsafe(no_mangle)]
pub extern "C" fn vp8_decoder_size(
    alloc: Global,
    decoder: &mut Handle,
    width: &mut u32,
    height: &mut u32,
) -> u32
    ensures held { handle_value_in decoder.new ≡ handle_value_in decoder.old }
    ensures size { GivesOrFails Puts (shown_size_in decoder.old) result (size_of width.old height.old)
        (size_of width.new height.new) }
{
    let Some(held) = decoder.take(alloc) else {
        return CLOSED;
    };
    let status = match held.shown() {
        Ok(picture) => put_size(picture.dim(), width, height),
        Err(why) => why,
    };
    decoder.put(held);
    status
}

/// Copies the picture that the last packet showed, row by row.
///
/// Status: `NO_PICTURE`, `BUFFER`, `CLOSED`.
#[unsafe(no_mangle)]
pub extern "C" fn vp8_decoder_copy(
    alloc: Global,
    decoder: &mut Handle,
    y: &mut [u8],
    y_stride: usize,
    u: &mut [u8],
    u_stride: usize,
    v: &mut [u8],
    v_stride: usize,
) -> u32
    ensures held { handle_value_in decoder.new ≡ handle_value_in decoder.old }
    ensures picture { GivesOrFails CopiesPicture (handle_picture decoder.old) result
        (planes_of y.old y_stride u.old u_stride v.old v_stride)
        (planes_of y.new y_stride u.new u_stride v.new v_stride) }
{
    let Some(held) = decoder.take(alloc) else {
        return CLOSED;
    };
    let strides = Strides {
        y: y_stride,
        u: u_stride,
        v: v_stride,
    };
    let status = match held.shown() {
        Ok(picture) => put_picture(picture, &mut CallerPlanesMut { y, u, v, strides }),
        Err(why) => why,
    };
    decoder.put(held);
    status
}

// Lends a picture where it lies in memory. It has no allocator, so it copies nothing.
fn lend_picture(picture: &Picture) -> LentPicture
    ensures { IsLayoutOf picture.now result }
{
    let (y, u, v) = (picture.plane(0), picture.plane(1), picture.plane(2));
    LentPicture::at(picture, y.pixels(), u.pixels(), v.pixels())
}

/// Lends the picture that the last packet showed, without a copy. It is valid until the next call for this decoder.
///
/// Status: `NO_PICTURE`, `CLOSED`.
#[unsafe(no_mangle)]
pub extern "C" fn vp8_decoder_lend(
    alloc: Global,
    decoder: &mut Handle,
    lent: &mut LentPicture,
) -> u32
    ensures held { handle_value_in decoder.new ≡ handle_value_in decoder.old }
    ensures lent { GivesOrFails Lends (handle_picture decoder.old) result lent.old lent.new }
{
    let Some(held) = decoder.take(alloc) else {
        return CLOSED;
    };
    let status = match held.shown() {
        Ok(picture) => {
            *lent = lend_picture(picture);
            OK
        }
        Err(why) => why,
    };
    decoder.put(held);
    status
}

/// Writes 1 if a partition of the last packet was read past its end, else 0: also for a packet with a fault or without
/// bytes, and before the first packet. No other damage is reported.
///
/// Status: `CLOSED`.
#[unsafe(no_mangle)]
pub extern "C" fn vp8_decoder_corrupt(alloc: Global, decoder: &mut Handle, corrupt: &mut u32) -> u32
    ensures held { handle_value_in decoder.new ≡ handle_value_in decoder.old }
    ensures corrupt { GivesOrFails Puts (corrupt_number_in decoder.old) result corrupt.old corrupt.new }
{
    let Some(held) = decoder.take(alloc) else {
        return CLOSED;
    };
    let status = match held.corrupt() {
        Ok(is_corrupt) => {
            *corrupt = flag(is_corrupt);
            OK
        }
        Err(why) => why,
    };
    decoder.put(held);
    status
}

/// Writes the size in pixels of the reference frames.
///
/// Status: `NO_PICTURE`, `CLOSED`.
#[unsafe(no_mangle)]
pub extern "C" fn vp8_decoder_reference_size(
    alloc: Global,
    decoder: &mut Handle,
    width: &mut u32,
    height: &mut u32,
) -> u32
    ensures held { handle_value_in decoder.new ≡ handle_value_in decoder.old }
    ensures size { GivesOrFails Puts (reference_size_in decoder.old) result (size_of width.old height.old)
        (size_of width.new height.new) }
{
    let Some(held) = decoder.take(alloc) else {
        return CLOSED;
    };
    let status = match held.reference(1) {
        Ok(picture) => put_size(picture.dim(), width, height),
        Err(why) => why,
    };
    decoder.put(held);
    status
}

/// Copies the picture of a reference frame, row by row: 1 is last, 2 golden, 3 altref.
///
/// Status: `NO_PICTURE`, `BUFFER`, `CLOSED`.
#[unsafe(no_mangle)]
pub extern "C" fn vp8_decoder_reference(
    alloc: Global,
    decoder: &mut Handle,
    reference: u32,
    y: &mut [u8],
    y_stride: usize,
    u: &mut [u8],
    u_stride: usize,
    v: &mut [u8],
    v_stride: usize,
) -> u32
    ensures held { handle_value_in decoder.new ≡ handle_value_in decoder.old }
    ensures picture { GivesOrFails CopiesPicture (reference_in reference decoder.old) result
        (planes_of y.old y_stride u.old u_stride v.old v_stride)
        (planes_of y.new y_stride u.new u_stride v.new v_stride) }
{
    let Some(held) = decoder.take(alloc) else {
        return CLOSED;
    };
    let strides = Strides {
        y: y_stride,
        u: u_stride,
        v: v_stride,
    };
    let status = match held.reference(reference) {
        Ok(picture) => put_picture(picture, &mut CallerPlanesMut { y, u, v, strides }),
        Err(why) => why,
    };
    decoder.put(held);
    status
}

/// Frees the decoder's memory, and closes the handle.
#[unsafe(no_mangle)]
pub extern "C" fn vp8_decoder_free(alloc: Global, decoder: &mut Handle)
    ensures { handle_value_in decoder.new ≡ None }
{
    let _known = decoder.take(alloc);
}
