//! The IVF writer.

ghost use Rattle.std.specs.Prelude.{◌≡◌, ◌≢◌, ◌<◌, ◌^◌, ◌+◌, ◌-◌, true, false, length, None, Some, Ok, Err, OnOk};
ghost use Rattle.std.specs.Prelude.{OnErr, is_ok, not};
ghost use Rattle.std.specs.Io.KnownBytes.{Appends};
ghost use Rattle.vp_base.specs.Counted.{counted_contents, counted_failures, AppendsPrefix, HasFailed};
ghost use Rattle.vp_ivf.specs.Text.{head_text, packet_head_text, packet_text};
ghost use Rattle.vp_ivf.specs.Writer.{Written, IsWriterAfter, begun, with_packet, device_name, device_contents};
ghost use Rattle.vp_ivf.specs.Writer.{device_failures, packets_left, has_failed, packet_refusal, write_refusal};
ghost use Rattle.vp_ivf.specs.Writer.{finish_at};

use byteorder::{ByteOrder, LittleEndian};
use std::io::Write;
use vp_base::{Counted, Device, Dim, put_all};

/// Why a packet was not written, or why the file is incomplete.
#[derive(Clone, Copy, Debug, PartialEq, Eq)]
pub enum WriteFault {
    /// A write failed, in this call or an earlier one.
    Device,
    /// The number of packets is not the one in the file header.
    Count,
}

/// Writes an IVF file packet by packet. No call allocates memory or flushes the device.
///
/// After a failed write each call returns `Device`, and nothing more is written: the device then contains a prefix of
/// the file.
#[derive(Drop)]
pub struct Writer<'a, W: Write> {
    out: &'a mut Counted<W>,
    left: u32,
    failed: bool,
}

impl<'a, W: Write> Writer<'a, W> {
    /// Writes the header of a file of `count` packets, with a time base of `scale / rate` seconds. If the write fails,
    /// later calls return `Device`.
    pub fn begin(
        out: &'a mut Counted<W>,
        dim: Dim,
        rate: u32,
        scale: u32,
        count: u32,
    ) -> Writer<'a, W>
        ensures same_reference { device_name result ≡ out.entry.ghost_name }
        ensures left { packets_left result ≡ count }

        // The header is written, or a prefix of it if the device failed.
        ensures ok { has_failed result ≡ false →
            Appends (counted_contents W.contents out.entry.now) (device_contents W.contents result)
            (head_text dim.w dim.h rate scale count) }
        ensures ok_count { has_failed result ≡ false → device_failures result ≡ counted_failures out.entry.now }
        ensures prefix { AppendsPrefix (counted_contents W.contents out.entry.now) (device_contents W.contents result)
            (head_text dim.w dim.h rate scale count) }
        ensures device { has_failed result ≡ true → HasFailed (counted_failures out.entry.now)
            (device_failures result) }
        ensures stands { IsWriterAfter W.contents result
            (begun (counted_contents W.contents out.entry.now) (counted_failures out.entry.now)
            (record { w = dim.w; h = dim.h; rate = rate; scale = scale }) count (has_failed result)) }
    {
        let failed = put_all(out, &head_bytes(dim, rate, scale, count)).is_err();
        Writer {
            out,
            left: count,
            failed,
        }
    }

    /// Writes the next packet. `Device` after a failed write; `Count` if the header allows no more packets.
    pub fn packet(&mut self, time: u64, bytes: &[u8]) -> Result<(), WriteFault>
        requires size { length bytes.now < 2 ^ 32 }
        ensures same_reference { device_name self.new ≡ device_name self.old }

        // A failed device, then a reached count, reject the packet and change nothing.
        ensures refused { (fault : WriteFault) → packet_refusal self.old ≡ Some fault →
            (result ≡ Err fault) × (self.new ≡ self.old) }

        // Otherwise the packet is written, or a prefix of it if the device fails.
        ensures taken { packet_refusal self.old ≡ None → result ≢ Err WriteFault.Count }
        ensures failed { packet_refusal self.old ≡ None → has_failed self.new ≡ not (is_ok result) }
        ensures left { packet_refusal self.old ≡ None → packets_left self.new + 1 ≡ packets_left self.old }
        ensures ok { packet_refusal self.old ≡ None → result ≡ Ok tt →
            Appends (device_contents W.contents self.old) (device_contents W.contents self.new)
            (packet_text time bytes.now) }
        ensures ok_count { packet_refusal self.old ≡ None → result ≡ Ok tt →
            device_failures self.new ≡ device_failures self.old }
        ensures prefix { packet_refusal self.old ≡ None →
            AppendsPrefix (device_contents W.contents self.old) (device_contents W.contents self.new)
            (packet_text time bytes.now) }
        ensures device { packet_refusal self.old ≡ None → result ≡ Err WriteFault.Device →
            HasFailed (device_failures self.old) (device_failures self.new) }

        // For every history of the writer:
        ensures refusal { (h : Written) → IsWriterAfter W.contents self.old h →
            packet_refusal self.old ≡ write_refusal h.failed (h.count - length h.packets) }
        ensures stands { packet_refusal self.old ≡ None → (h : Written) → IsWriterAfter W.contents self.old h →
            IsWriterAfter W.contents self.new (with_packet h (record { time = time; bytes = bytes.now })
            (not (is_ok result))) }
    {
        if self.failed {
            return Err(WriteFault::Device);
        }
        if self.left == 0 {
            return Err(WriteFault::Count);
        }
        self.left -= 1;
        match put_packet(self.out, time, bytes) {
            Ok(()) => Ok(()),
            Err(Device) => {
                self.failed = true;
                Err(WriteFault::Device)
            }
        }
    }

    /// Checks that the file is complete. It writes nothing; after `Count` more packets may be written.
    pub fn finish(&self) -> Result<(), WriteFault>
        ensures answer { result ≡ finish_at (has_failed self.now) (packets_left self.now) }
        ensures whole { (h : Written) → IsWriterAfter W.contents self.now h →
            result ≡ finish_at h.failed (h.count - length h.packets) }
    {
        if self.failed {
            return Err(WriteFault::Device);
        }
        if self.left > 0 {
            return Err(WriteFault::Count);
        }
        Ok(())
    }
}

/// The 32 bytes of the file header.
#[tactic(auto, unfolding(crate::specs::Text::head_text))]
fn head_bytes(dim: Dim, rate: u32, scale: u32, count: u32) -> [u8; 32]
    ensures { result ≡ head_text dim.w dim.h rate scale count }
{
    let mut head = [0u8; 32];
    head[..4].copy_from_slice(b"DKIF");
    LittleEndian::write_u16(&mut head[6..], 32);
    head[8..12].copy_from_slice(b"VP80");
    LittleEndian::write_u16(&mut head[12..], dim.w);
    LittleEndian::write_u16(&mut head[14..], dim.h);
    LittleEndian::write_u32(&mut head[16..], rate);
    LittleEndian::write_u32(&mut head[20..], scale);
    LittleEndian::write_u32(&mut head[24..], count);
    head
}

/// The 12 bytes of a packet header.
#[tactic(auto, unfolding(crate::specs::Text::packet_head_text))]
fn packet_head_bytes(size: u32, time: u64) -> [u8; 12]
    ensures { result ≡ packet_head_text size time }
{
    let mut head = [0u8; 12];
    LittleEndian::write_u32(&mut head, size);
    LittleEndian::write_u64(&mut head[4..], time);
    head
}

// Writes the header and the bytes of a packet.
fn put_packet<W: Write>(out: &mut Counted<W>, time: u64, bytes: &[u8]) -> Result<(), Device>
    requires size { length bytes.now < 2 ^ 32 }
    ensures ok { OnOk result (Appends (counted_contents W.contents out.old) (counted_contents W.contents out.new)
        (packet_text time bytes.now)) }
    ensures ok_count { OnOk result (counted_failures out.new ≡ counted_failures out.old) }
    ensures prefix { AppendsPrefix (counted_contents W.contents out.old) (counted_contents W.contents out.new)
        (packet_text time bytes.now) }
    ensures device { OnErr result (HasFailed (counted_failures out.old) (counted_failures out.new)) }
{
    let Ok(()) = put_all(out, &packet_head_bytes(bytes.len() as u32, time)) else {
        return Err(Device);
    };
    put_all(out, bytes)
}
