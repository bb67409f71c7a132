//! Writing a WebP file.

ghost use Rattle.std.specs.Prelude.{◌≡◌, ◌≤◌, ◌<◌, ◌^◌, ◌-◌, ◌++◌, List, ℕ, length, drop, Some};
ghost use Rattle.std.specs.Prelude.{None, Ok, Err, IsOk, OnOk, OnErr, IfErr};
ghost use Rattle.std.specs.Io.KnownBytes.{Appends};
ghost use Rattle.vp_base.specs.Counted.{counted_contents, counted_failures, AppendsPrefix, HasFailed};
ghost use Rattle.vp_webp.specs.Text.{webp_head_text, padding, webp_text, webp_refusal, webp_file};
ghost use Rattle.vp_webp.specs.Place.{result_map};
ghost use Rattle.vp_webp.specs.declared.fault.WebPWriteFault.{WebPWriteFault};

use crate::fault::WebPWriteFault;
use crate::reading::{is_key_packet, is_shown_packet};
use byteorder::{ByteOrder, LittleEndian};
use std::io::Write;
use vp_base::{Counted, Device, put_all};

/// The bytes of the longest packet: with the bytes around it the sizes in the file stay below 2^32 - 9.
const MAX_PACKET_BYTES: usize = 4_294_967_274;

/// Why a packet has no file.
fn refusal(packet: &[u8]) -> Option<WebPWriteFault>
    ensures { result ≡ webp_refusal packet.now }
{
    if !is_key_packet(packet) {
        return Some(WebPWriteFault::NotKey);
    }
    if !is_shown_packet(packet) {
        return Some(WebPWriteFault::Hidden);
    }
    if packet.len() > MAX_PACKET_BYTES {
        return Some(WebPWriteFault::TooLong);
    }
    None
}

/// The 20 bytes before a packet of `size` bytes.
#[tactic(auto, unfolding(crate::specs::Text::webp_head_text))]
fn head_bytes(size: u32) -> [u8; 20]
    requires { size ≤ 2 ^ 32 - 22 }
    ensures { result ≡ webp_head_text size }
{
    let mut head = [0u8; 20];
    head[..4].copy_from_slice(b"RIFF");
    LittleEndian::write_u32(&mut head[4..], 12 + size + size % 2);
    head[8..16].copy_from_slice(b"WEBPVP8 ");
    LittleEndian::write_u32(&mut head[16..], size);
    head
}

// Writes the padding after `size` bytes.
fn put_padding<W: Write>(out: &mut Counted<W>, size: usize) -> Result<(), Device>
    ensures ok { OnOk result (Appends (counted_contents W.contents out.old) (counted_contents W.contents out.new)
        (padding size)) }
    ensures ok_count { OnOk result (counted_failures out.new ≡ counted_failures out.old) }
    ensures prefix { AppendsPrefix (counted_contents W.contents out.old) (counted_contents W.contents out.new)
        (padding size) }
    ensures device { OnErr result (HasFailed (counted_failures out.old) (counted_failures out.new)) }
{
    if size % 2 == 1 {
        return put_all(out, &[0]);
    }
    put_all(out, &[])
}

// Writes the file of a packet that has one.
fn put_file<W: Write>(out: &mut Counted<W>, packet: &[u8]) -> Result<(), Device>
    requires { length packet.now ≤ 2 ^ 32 - 22 }
    ensures ok { OnOk result (Appends (counted_contents W.contents out.old) (counted_contents W.contents out.new)
        (webp_text packet.now)) }
    ensures ok_count { OnOk result (counted_failures out.new ≡ counted_failures out.old) }
    ensures prefix { AppendsPrefix (counted_contents W.contents out.old) (counted_contents W.contents out.new)
        (webp_text packet.now) }
    ensures device { OnErr result (HasFailed (counted_failures out.old) (counted_failures out.new)) }
{
    let Ok(()) = put_all(out, &head_bytes(packet.len() as u32)) else {
        return Err(Device);
    };
    let Ok(()) = put_all(out, packet) else {
        return Err(Device);
    };
    put_padding(out, packet.len())
}

/// Writes the simple WebP file of a packet: `NotKey` if it is not a key frame, `Hidden` if it is not shown, `TooLong`
/// if the sizes in the file can't count it, and `Device` after a failed write. It does not allocate or flush.
pub fn write<W: Write>(out: &mut Counted<W>, packet: &[u8]) -> Result<(), WebPWriteFault>
    // A packet without a file is rejected, and nothing is written.
    ensures refused { (fault : WebPWriteFault) → webp_refusal packet.now ≡ Some fault →
        (result ≡ Err fault) × (out.new ≡ out.old) }

    // Otherwise the file is written, or a prefix of it if the device fails.
    ensures accepted { webp_refusal packet.now ≡ None → IfErr result (λ fault. fault ≡ WebPWriteFault.Device) }
    ensures ok { OnOk result (Appends (counted_contents W.contents out.old) (counted_contents W.contents out.new)
        (webp_text packet.now)) }
    ensures ok_count { OnOk result (counted_failures out.new ≡ counted_failures out.old) }
    ensures prefix { webp_refusal packet.now ≡ None →
        AppendsPrefix (counted_contents W.contents out.old) (counted_contents W.contents out.new)
        (webp_text packet.now) }
    ensures device { result ≡ Err WebPWriteFault.Device →
        HasFailed (counted_failures out.old) (counted_failures out.new) }
{
    if let Some(fault) = refusal(packet) {
        return Err(fault);
    }
    match put_file(out, packet) {
        Ok(()) => Ok(()),
        Err(Device) => Err(WebPWriteFault::Device),
    }
}

/// The length of the file of a packet, if it has one.
fn text_len(packet: &[u8]) -> usize
    requires { length packet.now ≤ 2 ^ 32 - 22 }
    ensures { result ≡ length (webp_text packet.now) }
{
    20 + packet.len() + packet.len() % 2
}

/// The length of the simple WebP file of a packet. The faults are those of `write` but `Device`.
pub fn file_len(packet: &[u8]) -> Result<usize, WebPWriteFault>
    ensures { result ≡ result_map length (webp_file packet.now) }
{
    match refusal(packet) {
        Some(fault) => Err(fault),
        None => Ok(text_len(packet)),
    }
}

// Copies the file of a packet that has one to the beginning of a buffer that has room for it.
fn fill_front(out: &mut [u8], packet: &[u8])
    requires room { length (webp_text packet.now) ≤ length out.old }
    requires size { length packet.now ≤ 2 ^ 32 - 22 }
    ensures { out.new ≡ webp_text packet.now ++ drop (length (webp_text packet.now)) out.old }
{
    let end = 20 + packet.len();
    out[..20].copy_from_slice(&head_bytes(packet.len() as u32));
    out[20..end].copy_from_slice(packet);
    if packet.len() % 2 == 1 {
        out[end] = 0;
    }
}

/// Copies the simple WebP file of a packet to the beginning of `out`. The faults are those of `write`: `Device` if the
/// file is longer than `out`.
pub fn copy_file(out: &mut [u8], packet: &[u8]) -> Result<(), WebPWriteFault>
    // A packet without a file is rejected, and so is a buffer without room for the file. Nothing is copied then.
    ensures refused { (fault : WebPWriteFault) → webp_file packet.now ≡ Err fault →
        (result ≡ Err fault) × (out.new ≡ out.old) }
    ensures short { (file : List ℕ) → webp_file packet.now ≡ Ok file → length out.old < length file →
        (result ≡ Err WebPWriteFault.Device) × (out.new ≡ out.old) }

    // Otherwise the file is copied. The bytes after it are unchanged.
    ensures copied { (file : List ℕ) → webp_file packet.now ≡ Ok file → length file ≤ length out.old →
        IsOk result × (out.new ≡ file ++ drop (length file) out.old) }
{
    if let Some(fault) = refusal(packet) {
        return Err(fault);
    }
    if out.len() < text_len(packet) {
        return Err(WebPWriteFault::Device);
    }
    fill_front(out, packet);
    Ok(())
}
