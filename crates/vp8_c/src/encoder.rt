//! The C functions for encoding pictures.

ghost use Rattle.std.specs.Prelude.{◌≡◌, ◌⊎◌, ◌↔◌, None, IfSome, IsSomeAnd};
ghost use Rattle.vp_base.specs.Limits.{IsNoSide};
ghost use Rattle.vp_encode.specs.Encoder.{AreAllowed};
ghost use Rattle.vp8_c.specs.Handle.{handle_value_in};
ghost use Rattle.vp8_c.specs.Arguments.{CopiesBytes, CopiesPicture, GivesOrFails, IsClosed, Opens, Puts};
ghost use Rattle.vp8_c.specs.Planes.{planes_of};
ghost use Rattle.vp8_c.specs.EncoderHandle.{Encodes, IsReady, encoder_in, error_in, encoded_packet, packet_size_in};
ghost use Rattle.vp8_c.specs.EncoderHandle.{recon_in, settings_in};

use crate::bytes::put_front;
use crate::encoder_handle::EncoderHandle;
use crate::handle::Handle;
use crate::handle_value::HandleValue;
use crate::planes::{CallerPlanes, CallerPlanesMut, Strides};
use crate::rows::put_picture;
use crate::settings::{EncoderSettings, dim_of};
use crate::status::{CLOSED, DIMENSIONS, MEMORY, OK, OPEN, SETTINGS};
use std::alloc::Global;
use vp_encode::Encoder;

/// Opens an encoder for pictures of this size in pixels.
///
/// Status: `OPEN`, `DIMENSIONS`, `SETTINGS`, `MEMORY`.
#[unsafe(no_mangle)]
pub extern "C" fn vp8_encoder_new(
    alloc: Global,
    encoder: &mut Handle,
    width: u32,
    height: u32,
    settings: &EncoderSettings,
) -> u32
    ensures answer { (result ≡ OK) ⊎ (result ≡ OPEN) ⊎ (result ≡ DIMENSIONS) ⊎ (result ≡ SETTINGS) ⊎ (result ≡ MEMORY) }
    ensures opens { Opens (λ h. IsSomeAnd (encoder_in h) (IsReady width height
        (settings_in settings.now))) result encoder.old encoder.new }
    ensures dimensions { handle_value_in encoder.old ≡ None → (result ≡ DIMENSIONS) ↔ (IsNoSide width
        ⊎ IsNoSide height) }
    ensures settings { handle_value_in encoder.old ≡ None → ¬ (IsNoSide width ⊎ IsNoSide height)
        → (result ≡ SETTINGS) ↔ ¬ (AreAllowed (settings_in settings.now)) }
{
    if encoder.is_open() {
        return OPEN;
    }
    let Some(dim) = dim_of(width, height) else {
        return DIMENSIONS;
    };
    let Ok(made) = Encoder::new(alloc, dim, settings.settings()) else {
        return SETTINGS;
    };
    let Ok(coding) = EncoderHandle::of(alloc, made, dim) else {
        return MEMORY;
    };
    encoder.open(alloc, HandleValue::Encoder(coding))
}

/// Encodes a picture of the encoder's size, and keeps the packet and its reconstruction.
///
/// Status: `TOO_LONG`, `MEMORY`, `BUFFER`, `CLOSED`.
#[unsafe(no_mangle)]
pub extern "C" fn vp8_encoder_encode(
    alloc: Global,
    encoder: &mut Handle,
    y: &[u8],
    y_stride: usize,
    u: &[u8],
    u_stride: usize,
    v: &[u8],
    v_stride: usize,
) -> u32
    ensures closed { encoder_in encoder.old ≡ None → IsClosed result encoder.old encoder.new }
    ensures encoded { IfSome (encoder_in encoder.old) (λ e. IsSomeAnd (encoder_in encoder.new)
        (Encodes (planes_of y.now y_stride u.now u_stride v.now v_stride) result e)) }
{
    let Some(mut held) = encoder.take(alloc) else {
        return CLOSED;
    };
    let strides = Strides {
        y: y_stride,
        u: u_stride,
        v: v_stride,
    };
    let status = held.encode(CallerPlanes { y, u, v, strides });
    encoder.put(held);
    status
}

/// Writes the length in bytes of the last packet.
///
/// Status: `NO_PICTURE`, `CLOSED`.
#[unsafe(no_mangle)]
pub extern "C" fn vp8_encoder_packet_size(
    alloc: Global,
    encoder: &mut Handle,
    size: &mut usize,
) -> u32
    ensures held { handle_value_in encoder.new ≡ handle_value_in encoder.old }
    ensures size { GivesOrFails Puts (packet_size_in encoder.old) result size.old size.new }
{
    let Some(held) = encoder.take(alloc) else {
        return CLOSED;
    };
    let status = match held.encoded() {
        Ok(encoded) => {
            *size = encoded.packet.len();
            OK
        }
        Err(why) => why,
    };
    encoder.put(held);
    status
}

/// Copies the last packet.
///
/// Status: `NO_PICTURE`, `BUFFER`, `CLOSED`.
#[unsafe(no_mangle)]
pub extern "C" fn vp8_encoder_packet(alloc: Global, encoder: &mut Handle, out: &mut [u8]) -> u32
    ensures held { handle_value_in encoder.new ≡ handle_value_in encoder.old }
    ensures packet { GivesOrFails CopiesBytes (encoded_packet encoder.old) result out.old out.new }
{
    let Some(held) = encoder.take(alloc) else {
        return CLOSED;
    };
    let status = match held.encoded() {
        Ok(encoded) => put_front(out, encoded.packet.as_slice()),
        Err(why) => why,
    };
    encoder.put(held);
    status
}

/// Copies the reconstruction of the last packet, row by row: the picture that a decoder shows for it.
///
/// Status: `NO_PICTURE`, `BUFFER`, `CLOSED`.
#[unsafe(no_mangle)]
pub extern "C" fn vp8_encoder_reconstruction(
    alloc: Global,
    encoder: &mut Handle,
    y: &mut [u8],
    y_stride: usize,
    u: &mut [u8],
    u_stride: usize,
    v: &mut [u8],
    v_stride: usize,
) -> u32
    ensures held { handle_value_in encoder.new ≡ handle_value_in encoder.old }
    ensures picture { GivesOrFails CopiesPicture (recon_in encoder.old) result
        (planes_of y.old y_stride u.old u_stride v.old v_stride)
        (planes_of y.new y_stride u.new u_stride v.new v_stride) }
{
    let Some(held) = encoder.take(alloc) else {
        return CLOSED;
    };
    let strides = Strides {
        y: y_stride,
        u: u_stride,
        v: v_stride,
    };
    let status = match held.encoded() {
        Ok(encoded) => put_picture(&encoded.recon, &mut CallerPlanesMut { y, u, v, strides }),
        Err(why) => why,
    };
    encoder.put(held);
    status
}

/// Writes the sum of the squared differences between the source and that picture, over Y, U and V.
///
/// Status: `NO_PICTURE`, `CLOSED`.
#[unsafe(no_mangle)]
pub extern "C" fn vp8_encoder_squared_error(
    alloc: Global,
    encoder: &mut Handle,
    error: &mut u64,
) -> u32
    ensures held { handle_value_in encoder.new ≡ handle_value_in encoder.old }
    ensures error { GivesOrFails Puts (error_in encoder.old) result error.old error.new }
{
    let Some(held) = encoder.take(alloc) else {
        return CLOSED;
    };
    let status = match held.encoded() {
        Ok(encoded) => {
            *error = encoded.squared_error;
            OK
        }
        Err(why) => why,
    };
    encoder.put(held);
    status
}

/// Frees the encoder's memory, and closes the handle.
#[unsafe(no_mangle)]
pub extern "C" fn vp8_encoder_free(alloc: Global, encoder: &mut Handle)
    ensures { handle_value_in encoder.new ≡ None }
{
    let _known = encoder.take(alloc);
}
