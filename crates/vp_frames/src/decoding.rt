//! Decodes a range of packets.

ghost use Rattle.std.specs.Prelude.{◌≡◌, ◌≢◌, ◌-◌, ◌^◌, ◌≤◌, ◌+◌, ℕ, List, Err};
ghost use Rattle.vp_base.specs.Counted.{counted_contents, counted_failures, counted_reads, HasFailed, HasRisenBy};
ghost use Rattle.vp_stream.specs.declared.fault.DecodeFault.{DecodeFault};
ghost use Rattle.vp_stream.specs.Answers.{reading_of};
ghost use Rattle.vp_frames.specs.Written.{IsRangeDecoded, IsRangeWritten, read_side, written_side};

use crate::packets::PacketDecoder;
use crate::range::PacketRange;
use crate::reading::read_file;
use crate::report::{RangeFaults, RangeReport};
use std::alloc::Global;
use std::io::{Read, Write};
use vp_base::{Counted, Limits};
use vp_stream::{DecodeFault, Form, Stream};

/// Reads an IVF file to its end or its fault, and then writes the shown pictures of a range of its packets. They are
/// decoded from the last key packet up to the first of them on, each packet once. A packet that can't be decoded writes
/// nothing, and packets of the range that the file doesn't have write nothing.
///
/// Errors: `DecodeFault`. A file's fault is returned after the pictures of the packets before it. If the form requires
/// one size for all pictures, the output ends before the first picture of another size than the first one. After a
/// failed read nothing is written.
pub fn decode_range<R: Read, W: Write>(
    alloc: Global,
    reader: &mut Counted<R>,
    writer: &mut Counted<W>,
    form: Form,
    range: PacketRange,
    limits: Limits,
) -> Result<RangeReport, DecodeFault>
    ensures decoded { IsRangeDecoded limits form range result
        (read_side R.remaining reader.old) (read_side R.remaining reader.new)
        (written_side W.contents writer.old) (written_side W.contents writer.new) }

    // In all cases at most 2^32 - 1 reads are made. `ReadTurns` is returned after exactly that many.
    ensures reads { counted_reads reader.new ≤ counted_reads reader.old + (2 ^ 32 - 1) }
    ensures turns { result ≡ Err DecodeFault.ReadTurns →
        HasRisenBy (2 ^ 32 - 1) (counted_reads reader.old) (counted_reads reader.new) }
{
    let mut stream = Stream::new(alloc, limits);
    let fault = read_file(alloc, &mut stream, reader)?;
    let report = write_range(alloc, &stream, writer, form, range, limits)?;
    match fault {
        None => Ok(report),
        Some(fault) => Err(DecodeFault::File(fault)),
    }
}

// Writes the pictures of the packets of a range that the stream has.
fn write_range<W: Write>(
    alloc: Global,
    stream: &Stream,
    writer: &mut Counted<W>,
    form: Form,
    range: PacketRange,
    limits: Limits,
) -> Result<RangeReport, DecodeFault>
    requires { stream.now.limits ≡ limits }
    ensures written { (file : List ℕ) → stream.now.reading ≡ reading_of stream.now.limits file
        → IsRangeWritten stream.now.limits form file range result
        (HasFailed (counted_failures writer.old) (counted_failures writer.new))
        (counted_contents W.contents writer.old) (counted_contents W.contents writer.new) }
    ensures quiet { result ≢ Err DecodeFault.Device →
        counted_failures writer.new ≡ counted_failures writer.old }
{
    let count = stream.count();
    let Some(head) = stream.head() else {
        return Ok(RangeReport {
            count,
            decoded: 0,
            faults: RangeFaults::new(alloc),
        });
    };
    let mut decoder = PacketDecoder::new(alloc, limits, form, head);
    for number in range.first..range.end(count) {
        decoder.packet(stream, number, writer)?;
    }
    Ok(decoder.into_report(count))
}
