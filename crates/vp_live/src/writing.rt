//! Writes the head of a live file, and one packet after another. Each is flushed at once.

ghost use Rattle.std.specs.Prelude.{◌≡◌, ◌<◌, ◌^◌, length, [], OnOk, OnErr};
ghost use Rattle.std.specs.Io.KnownBytes.{Appends, Keeps};
ghost use Rattle.vp_base.specs.Counted.{counted_contents, counted_failures, AppendsPrefix, HasFailed};
ghost use Rattle.vp_ivf.specs.Text.{packet_head_text, packet_text};
ghost use Rattle.vp_y4m.specs.Shown.{head_model};
ghost use Rattle.vp_live.specs.Live.{live_text};

use byteorder::{ByteOrder, LittleEndian};
use std::io::Write;
use vp_base::{Counted, Device, put_all};
use vp_ivf::Writer;
use vp_y4m::SourceHead;

/// Flushes the writer.
fn flush<W: Write>(writer: &mut Counted<W>) -> Result<(), Device>
    ensures bytes { Keeps (counted_contents W.contents writer.old) (counted_contents W.contents writer.new) }
    ensures device { OnErr result (HasFailed (counted_failures writer.old) (counted_failures writer.new)) }
    ensures quiet { OnOk result (counted_failures writer.new ≡ counted_failures writer.old) }
{
    match writer.flush() {
        Ok(()) => Ok(()),
        Err(_) => Err(Device),
    }
}

/// Writes the head of a file whose number of packets isn't known: it counts 0.
fn put_head<W: Write>(writer: &mut Counted<W>, head: &SourceHead) -> Result<(), Device>
    ensures ok { OnOk result (Appends (counted_contents W.contents writer.old)
        (counted_contents W.contents writer.new) (live_text (head_model head.now) [])) }
    ensures prefix { AppendsPrefix (counted_contents W.contents writer.old)
        (counted_contents W.contents writer.new) (live_text (head_model head.now) []) }
    ensures device { OnErr result (HasFailed (counted_failures writer.old) (counted_failures writer.new)) }
    ensures quiet { OnOk result (counted_failures writer.new ≡ counted_failures writer.old) }
{
    match Writer::begin(writer, head.dim, head.rate, head.scale, 0).finish() {
        Ok(()) => Ok(()),
        Err(_) => Err(Device),
    }
}

/// The 12 bytes before a packet: its size and its time.
#[tactic(auto, unfolding(vp_ivf::specs::Text::packet_head_text))]
fn packet_head_bytes(size: u32, time: u64) -> [u8; 12]
    ensures { result ≡ packet_head_text size time }
{
    let mut head = [0u8; 12];
    LittleEndian::write_u32(&mut head, size);
    LittleEndian::write_u64(&mut head[4..], time);
    head
}

/// Writes a packet after its size and its time.
fn put_packet<W: Write>(writer: &mut Counted<W>, time: u64, packet: &[u8]) -> Result<(), Device>
    requires size { length packet.now < 2 ^ 32 }
    ensures ok { OnOk result (Appends (counted_contents W.contents writer.old)
        (counted_contents W.contents writer.new) (packet_text time packet.now)) }
    ensures prefix { AppendsPrefix (counted_contents W.contents writer.old)
        (counted_contents W.contents writer.new) (packet_text time packet.now) }
    ensures device { OnErr result (HasFailed (counted_failures writer.old) (counted_failures writer.new)) }
    ensures quiet { OnOk result (counted_failures writer.new ≡ counted_failures writer.old) }
{
    let Ok(()) = put_all(writer, &packet_head_bytes(packet.len() as u32, time)) else {
        return Err(Device);
    };
    put_all(writer, packet)
}

/// Writes the head of a live file, and flushes it.
pub(crate) fn write_head<W: Write>(writer: &mut Counted<W>, head: &SourceHead) -> Result<(), Device>
    ensures ok { OnOk result (Appends (counted_contents W.contents writer.old)
        (counted_contents W.contents writer.new) (live_text (head_model head.now) [])) }
    ensures prefix { AppendsPrefix (counted_contents W.contents writer.old)
        (counted_contents W.contents writer.new) (live_text (head_model head.now) []) }
    ensures device { OnErr result (HasFailed (counted_failures writer.old) (counted_failures writer.new)) }
    ensures quiet { OnOk result (counted_failures writer.new ≡ counted_failures writer.old) }
{
    let Ok(()) = put_head(writer, head) else {
        return Err(Device);
    };
    flush(writer)
}

/// Writes the next packet of a live file, and flushes it.
pub(crate) fn write_packet<W: Write>(
    writer: &mut Counted<W>,
    time: u64,
    packet: &[u8],
) -> Result<(), Device>
    requires size { length packet.now < 2 ^ 32 }
    ensures ok { OnOk result (Appends (counted_contents W.contents writer.old)
        (counted_contents W.contents writer.new) (packet_text time packet.now)) }
    ensures prefix { AppendsPrefix (counted_contents W.contents writer.old)
        (counted_contents W.contents writer.new) (packet_text time packet.now) }
    ensures device { OnErr result (HasFailed (counted_failures writer.old) (counted_failures writer.new)) }
    ensures quiet { OnOk result (counted_failures writer.new ≡ counted_failures writer.old) }
{
    let Ok(()) = put_packet(writer, time, packet) else {
        return Err(Device);
    };
    flush(writer)
}
