//! Decodes a whole IVF file.

ghost use Rattle.std.specs.Prelude.{◌≡◌, ◌≢◌, ◌⊎◌, ◌≤◌, ◌<◌, ◌+◌, ◌-◌, ◌^◌, ℕ, List, OnOk, Err, true, false};
ghost use Rattle.std.specs.Result.{result_map_both};
ghost use Rattle.std.specs.Io.KnownBytes.{Appends, Consumes, IsAtEnd};
ghost use Rattle.vp_base.specs.Counted.{counted_remaining, counted_contents, counted_failures, counted_reads};
ghost use Rattle.vp_base.specs.Counted.{AppendsPrefix, HasFailed, HasRisenBy};
ghost use Rattle.vp_ivf.specs.declared.fault.FileFault.{FileFault};
ghost use Rattle.vp_stream.specs.declared.fault.DecodeFault.{DecodeFault};
ghost use Rattle.vp_stream.specs.declared.fault.Interruption.{Interruption};
ghost use Rattle.vp_stream.specs.PacketReader.{before_first_read};
ghost use Rattle.vp_stream.specs.Transcode.{fresh, after_packet, picture_to, fits_shown, shown_text};
ghost use Rattle.vp_stream.specs.Written.{IsDecodeAnswerFor};

use crate::fault::{DecodeFault, Interruption};
use crate::form::Form;
use crate::packet_reader::{Next, PacketReader};
use crate::picture_writer::PictureWriter;
use crate::report::Report;
use std::alloc::Global;
use std::io::{Read, Write};
use std::marker::Model;
use vp_base::{Counted, Limits};
use vp_decode::Decoder;
use vp_ivf::IvfHead;

/// A decoder, a picture writer, and the report of the packets so far.
#[derive(Drop)]
struct TranscodeState {
    decoder: Decoder,
    pictures: PictureWriter,
    report: Report,
}

impl Model for TranscodeState {
    ghost use Rattle.std.specs.Prelude.{◌+◌, ◌≤◌};
    ghost use Rattle.vp_stream.specs.Transcode.{TranscodeState};

    ghost Value = { TranscodeState };

    ghost view = { λ a. record {
      limits = a.decoder.limits;
      state = a.decoder.state;
      sizing = a.pictures;
      report = a.report;
    } };

    ghost invariant = { λ a. a.report.shown + a.report.hidden ≤ a.report.packets };
}

impl TranscodeState {
    /// Creates the state before the first packet.
    fn new(alloc: Global, limits: Limits, form: Form) -> TranscodeState
        ensures { result ≡ fresh limits form }
    {
        TranscodeState {
            decoder: Decoder::new(alloc, limits),
            pictures: PictureWriter::new(alloc, form),
            report: Report::new(alloc),
        }
    }

    /// Decodes a packet, and writes its picture if it is shown. `head` is the file's head.
    fn packet<W: Write>(
        &mut self,
        head: IvfHead,
        packet: &[u8],
        writer: &mut Counted<W>,
    ) -> Result<(), Interruption>
        requires { self.old.report.packets + 1 < 2 ^ 32 }
        ensures ok { OnOk result (self.new ≡ after_packet self.old packet.now) }
        ensures fits { OnOk result (fits_shown self.old.sizing (picture_to self.old packet.now) ≡ true) }
        ensures change { result ≡ Err Interruption.SizeChange →
            fits_shown self.old.sizing (picture_to self.old packet.now) ≡ false }
        ensures written { OnOk result (Appends (counted_contents W.contents writer.old)
            (counted_contents W.contents writer.new) (shown_text self.old.sizing head
            (picture_to self.old packet.now))) }
        ensures prefix { AppendsPrefix (counted_contents W.contents writer.old)
            (counted_contents W.contents writer.new) (shown_text self.old.sizing head
            (picture_to self.old packet.now)) }
        ensures device { result ≡ Err Interruption.Device →
            HasFailed (counted_failures writer.old) (counted_failures writer.new) }
        ensures quiet { result ≢ Err Interruption.Device →
            counted_failures writer.new ≡ counted_failures writer.old }
    {
        let outcome = self.decoder.decode(packet)?;
        self.pictures.write_shown(head, &self.decoder, writer)?;
        self.report.count(outcome)?;
        Ok(())
    }

    /// Returns the report of all packets.
    pub(crate) fn into_report(self) -> Report
        ensures { result ≡ self.report }
    {
        let TranscodeState {
            decoder: _,
            pictures: _,
            report,
        } = self;
        report
    }
}

/// Decodes an IVF file to its end, and writes each shown picture as soon as its packet is read. A packet that can't be
/// decoded writes nothing, and decoding continues. As I420 a picture is written plane by plane, each by one call if the
/// writer takes all.
///
/// Errors: `DecodeFault`. If the form requires one size for all pictures, decoding ends before the first picture of
/// another size than the first one.
pub fn decode_all<R: Read, W: Write>(
    alloc: Global,
    reader: &mut Counted<R>,
    writer: &mut Counted<W>,
    form: Form,
    limits: Limits,
) -> Result<Report, DecodeFault>
    ensures decoded { (file : List ℕ)
        × Consumes (counted_remaining R.remaining reader.old) (counted_remaining R.remaining reader.new) file
        × IsDecodeAnswerFor limits form result (HasFailed (counted_failures writer.old)
        (counted_failures writer.new)) file
        (counted_contents W.contents writer.old) (counted_contents W.contents writer.new) }

    // A report and `Torn` are returned only at the reader's end.
    ensures end { OnOk result (IsAtEnd (counted_remaining R.remaining reader.new)) }
    ensures torn { result ≡ Err (DecodeFault.File FileFault.Torn) →
        IsAtEnd (counted_remaining R.remaining reader.new) }

    // `Device` is returned only after a failed read or write, and always after one.
    ensures device { result ≡ Err DecodeFault.Device →
        HasFailed (counted_failures reader.old) (counted_failures reader.new)
        ⊎ HasFailed (counted_failures writer.old) (counted_failures writer.new) }
    ensures quiet { result ≢ Err DecodeFault.Device →
        (counted_failures reader.new ≡ counted_failures reader.old)
        × (counted_failures writer.new ≡ counted_failures writer.old) }

    // In all cases at most 2^32 - 1 reads are made. `ReadTurns` is returned after exactly that many.
    ensures reads { counted_reads reader.new ≤ counted_reads reader.old + (2 ^ 32 - 1) }
    ensures turns { result ≡ Err DecodeFault.ReadTurns →
        HasRisenBy (2 ^ 32 - 1) (counted_reads reader.old) (counted_reads reader.new) }
{
    let mut file = PacketReader::new(alloc, limits);
    let mut run = TranscodeState::new(alloc, limits, form);
    // Cleared once, not for each read: that would cost more than taking in a short piece.
    let mut buffer = [0; 4096];
    decode_packets(&mut file, &mut run, reader, writer, &mut buffer)?;
    Ok(run.into_report())
}

// Decodes and writes the packets of a file that hasn't been read yet. Each piece is read into `buffer`.
fn decode_packets<R: Read, W: Write>(
    file: &mut PacketReader,
    run: &mut TranscodeState,
    reader: &mut Counted<R>,
    writer: &mut Counted<W>,
    buffer: &mut [u8; 4096],
) -> Result<(), DecodeFault>
    requires unread { file.old ≡ before_first_read run.old.limits }
    requires fresh { run.old ≡ fresh run.old.limits run.old.sizing.form }
    ensures decoded { (bytes : List ℕ)
        × Consumes (counted_remaining R.remaining reader.old) (counted_remaining R.remaining reader.new) bytes
        × IsDecodeAnswerFor run.old.limits run.old.sizing.form
        (result_map_both (λ _. run.new.report) (λ fault. fault) result)
        (HasFailed (counted_failures writer.old) (counted_failures writer.new)) bytes
        (counted_contents W.contents writer.old) (counted_contents W.contents writer.new) }
    ensures end { OnOk result (IsAtEnd (counted_remaining R.remaining reader.new)) }
    ensures torn { result ≡ Err (DecodeFault.File FileFault.Torn) →
        IsAtEnd (counted_remaining R.remaining reader.new) }
    ensures device { result ≡ Err DecodeFault.Device →
        HasFailed (counted_failures reader.old) (counted_failures reader.new)
        ⊎ HasFailed (counted_failures writer.old) (counted_failures writer.new) }
    ensures quiet { result ≢ Err DecodeFault.Device →
        (counted_failures reader.new ≡ counted_failures reader.old)
        × (counted_failures writer.new ≡ counted_failures writer.old) }
    ensures reads { counted_reads reader.new ≤ counted_reads reader.old + (2 ^ 32 - 1) }
    ensures turns { result ≡ Err DecodeFault.ReadTurns →
        HasRisenBy (2 ^ 32 - 1) (counted_reads reader.old) (counted_reads reader.new) }
{
    'packets: loop {
        match file.next(reader, buffer)? {
            Next::Packet(head, packet) => run.packet(head, packet.bytes.as_slice(), writer)?,
            Next::End(None) => return Ok(()),
            Next::End(Some(fault)) => return Err(DecodeFault::File(fault)),
        }
    }
}
