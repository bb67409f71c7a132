//! The C functions for WebP files.

ghost use Rattle.std.specs.Prelude.{length};
ghost use Rattle.vp8_c.specs.Arguments.{CopiesBytes, GivesOrFails, Puts, result_map};
ghost use Rattle.vp8_c.specs.WebP.{PlacesPacket, file_of_packet, packet_of_file, place_of};

use crate::status::{OK, webp_number, webp_write_number};
use vp_webp::{copy_file, file_len, packet_place};

/// Writes where the packet of a lossy WebP file begins among the file's bytes, and its length in bytes.
///
/// Status: `SIGNATURE`, `TORN`, `LOSSLESS`, `ANIMATED`, `NO_PICTURE`, `NOT_KEY`, `HIDDEN`.
#[unsafe(no_mangle)]
pub extern "C" fn vp8_webp_packet(file: &[u8], start: &mut usize, len: &mut usize) -> u32
    ensures { GivesOrFails (PlacesPacket file.now) (packet_of_file file.now) result (place_of start.old len.old)
        (place_of start.new len.new) }
{
    match packet_place(file) {
        Ok(place) => {
            *start = place.start;
            *len = place.len;
            OK
        }
        Err(fault) => webp_number(fault),
    }
}

/// Writes the length in bytes of the WebP file of a key packet.
///
/// Status: `NOT_KEY`, `HIDDEN`, `TOO_LONG`.
#[unsafe(no_mangle)]
pub extern "C" fn vp8_webp_file_size(packet: &[u8], size: &mut usize) -> u32
    ensures { GivesOrFails Puts (result_map length (file_of_packet packet.now)) result size.old size.new }
{
    match file_len(packet) {
        Ok(len) => {
            *size = len;
            OK
        }
        Err(fault) => webp_write_number(fault),
    }
}

/// Copies the WebP file of a key packet.
///
/// Status: `NOT_KEY`, `HIDDEN`, `TOO_LONG`, `BUFFER`.
#[unsafe(no_mangle)]
pub extern "C" fn vp8_webp_file(packet: &[u8], out: &mut [u8]) -> u32
    ensures { GivesOrFails CopiesBytes (file_of_packet packet.now) result out.old out.new }
{
    match copy_file(out, packet) {
        Ok(()) => OK,
        Err(fault) => webp_write_number(fault),
    }
}
