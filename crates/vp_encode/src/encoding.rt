//! Encodes a whole file.

ghost use Rattle.std.specs.Prelude.{◌≡◌, ◌≢◌, ◌<◌, ◌≤◌, ◌+◌, ◌*◌, ◌^◌, ◌++◌, ◌∷◌, ℕ, List, [], ⊤, length, OnOk, OnErr};
ghost use Rattle.std.specs.Prelude.{IfSome, Err};
ghost use Rattle.std.specs.List.{All};
ghost use Rattle.std.specs.Io.KnownBytes.{Appends, Consumes, IsAtEnd};
ghost use Rattle.vp_base.specs.Counted.{counted_remaining, counted_contents, counted_failures, counted_reads};
ghost use Rattle.vp_base.specs.Counted.{HasFailed, AppendsPrefix};
ghost use Rattle.vp_y4m.specs.Shown.{head_model};
ghost use Rattle.vp_y4m.specs.Reads.{TakesInReads};
ghost use Rattle.vp_y4m.specs.Text.{i420_length};
ghost use Rattle.vp_encode.specs.declared.report.EncodeAllFault.{EncodeAllFault};
ghost use Rattle.vp_encode.specs.declared.report.EncodedSoFar.{EncodedSoFar};
ghost use Rattle.vp_encode.specs.Encoder.{AreAllowed};
ghost use Rattle.vp_encode.specs.Encoded.{EncodedFrame, initial_encoder};
ghost use Rattle.vp_encode.specs.File.{IsAnswerOver, IsWrittenFurther, IsWatched, ivf_text, most_reads};
ghost use Rattle.vp_encode.specs.File.{progress_of_frames};
ghost use Rattle.vp_encode.specs.EncodeProgress.{start, IsHeadLine, EndsEncode};

use crate::encode_progress::EncodeProgress;
use crate::encoder::Encoder;
use crate::report::{EncodeAllFault, EncodeReport, EncodedSoFar};
use crate::settings::Settings;
use std::alloc::Global;
use std::io::{Read, Write};
use vp_base::{ByteList, Counted, Device, Limits};
use vp_ivf::Writer;
use vp_y4m::{Source, SourceHead};

/// The progress callback of encoding a file.
pub trait Watcher {
    /// What it has received so far, in order.
    ghost told: { Self → List EncodedSoFar → Type 0 };

    /// Receives the head of the source, and how much is encoded so far.
    fn encoded(&mut self, head: &SourceHead, so_far: EncodedSoFar)
        ensures { (before : List EncodedSoFar) → told self.old before → told self.new (before ++ so_far ∷ []) };
}

/// A progress callback that does nothing.
#[derive(Clone, Copy, Debug, PartialEq, Eq)]
pub struct Unwatched;

impl Watcher for Unwatched {
    ghost told = { λ _ _. ⊤ };

    fn encoded(&mut self, _head: &SourceHead, _so_far: EncodedSoFar) {}
}

/// Encodes a YUV4MPEG2 file to its end, and writes an IVF file with its size and rate. The times of the packets are 0,
/// 1, and so on. All packets are kept in memory until the end, because the IVF head has their number.
///
/// Errors, in the order of the work: a fault of the head; `Settings`; then for each picture its fault, `TooMany`,
/// `TooLong` and `PacketTooLarge`. Nothing is written in these cases. If a write fails, a prefix of the file is
/// written.
pub fn encode_all<R: Read, W: Write>(
    alloc: Global,
    reader: &mut Counted<R>,
    writer: &mut Counted<W>,
    settings: Settings,
    limits: Limits,
) -> Result<EncodeReport, EncodeAllFault>
    ensures answer { IsAnswerOver R.remaining W.contents limits settings result reader.old reader.new writer.old
        writer.new }

    // Each read except the last takes at least one byte. This bounds the number of reads, whether or not the reader's
    // bytes are known.
    ensures reads { TakesInReads 1 (counted_remaining R.remaining reader.old) (counted_remaining R.remaining reader.new)
        (counted_reads reader.old) (counted_reads reader.new) }
    ensures within { counted_reads reader.new ≤ counted_reads reader.old + most_reads limits }
    ensures most { IfSome (counted_remaining R.remaining reader.old) (λ bytes.
        counted_reads reader.new ≤ counted_reads reader.old + (length bytes + 1)) }
{
    encode_all_watched(alloc, reader, writer, settings, limits, &mut Unwatched)
}

/// Encodes a file as `encode_all` does. The progress callback receives how much is encoded with the first picture, with
/// the first two, .. up to all pictures encoded, whether encoding succeeds or fails.
pub fn encode_all_watched<R: Read, W: Write, T: Watcher>(
    alloc: Global,
    reader: &mut Counted<R>,
    writer: &mut Counted<W>,
    settings: Settings,
    limits: Limits,
    watcher: &mut T,
) -> Result<EncodeReport, EncodeAllFault>
    ensures answer { IsAnswerOver R.remaining W.contents limits settings result reader.old reader.new writer.old
        writer.new }
    ensures watched { IsWatched R.remaining W.contents limits settings result reader.old reader.new writer.old
        writer.new
        (T.told watcher.old) (T.told watcher.new) }

    // Each read except the last takes at least one byte. This bounds the number of reads, whether or not the reader's
    // bytes are known.
    ensures reads { TakesInReads 1 (counted_remaining R.remaining reader.old) (counted_remaining R.remaining reader.new)
        (counted_reads reader.old) (counted_reads reader.new) }
    ensures within { counted_reads reader.new ≤ counted_reads reader.old + most_reads limits }
    ensures most { IfSome (counted_remaining R.remaining reader.old) (λ bytes.
        counted_reads reader.new ≤ counted_reads reader.old + (length bytes + 1)) }
{
    let head = SourceHead::read(reader, limits)?;
    let encoder = Encoder::new(alloc, head.dim, settings)?;
    let mut run = EncodeProgress::new(alloc, encoder, limits);
    encode_pictures(alloc, reader, head, &mut run, watcher)?;
    write_file(head, run.packets(), writer)?;
    Ok(run.report())
}

/// Encodes the pictures that follow a file's head, which the callback receives.
fn encode_pictures<R: Read, T: Watcher>(
    alloc: Global,
    reader: &mut Counted<R>,
    head: SourceHead,
    run: &mut EncodeProgress,
    watcher: &mut T,
) -> Result<(), EncodeAllFault>
    requires start { run.old ≡ start run.old.limits (initial_encoder run.old.encoder.dim run.old.encoder.settings) }
    requires allowed { AreAllowed run.old.encoder.settings }
    requires width { run.old.encoder.dim.w ≡ head.dim.w }
    requires height { run.old.encoder.dim.h ≡ head.dim.h }
    ensures ends { (front : List ℕ) → IsHeadLine run.old.limits.pixels front (head_model head)
        → (bytes : List ℕ) × (frames : List EncodedFrame)
        × Consumes (counted_remaining R.remaining reader.old) (counted_remaining R.remaining reader.new) bytes
        × IsWrittenFurther (T.told watcher.old) (T.told watcher.new) (progress_of_frames frames)
        × EndsEncode run.old.limits run.old.encoder.settings result (head_model head) (front ++ bytes) frames run.new }
    ensures end { OnOk result (IsAtEnd (counted_remaining R.remaining reader.new)) }
    ensures torn { result ≡ Err EncodeAllFault.Torn → IsAtEnd (counted_remaining R.remaining reader.new) }
    ensures device { result ≡ Err EncodeAllFault.Device → HasFailed (counted_failures reader.old)
        (counted_failures reader.new) }
    ensures quiet { result ≢ Err EncodeAllFault.Device → counted_failures reader.new ≡ counted_failures reader.old }
    ensures reads { TakesInReads 1 (counted_remaining R.remaining reader.old) (counted_remaining R.remaining reader.new)
        (counted_reads reader.old) (counted_reads reader.new) }
    ensures within { counted_reads reader.new ≤ counted_reads reader.old
        + (run.old.limits.packets + 1) * (1025 + i420_length head.dim.w head.dim.h) }
{
    let mut source = Source::open(alloc, reader, head);
    while let Some(picture) = source.next_picture()? {
        run.encode(&picture)?;
        watcher.encoded(&head, run.so_far());
    }
    Ok(())
}

/// Writes a whole IVF file of packets.
fn write_file<W: Write>(
    head: SourceHead,
    packets: &[ByteList],
    writer: &mut Counted<W>,
) -> Result<(), Device>
    requires few { length packets.now < 2 ^ 32 }
    requires small { All (λ p. length p < 2 ^ 32) packets.now }
    ensures ok { OnOk result (Appends (counted_contents W.contents writer.old)
        (counted_contents W.contents writer.new) (ivf_text (head_model head) packets.now)) }
    ensures prefix { OnErr result (AppendsPrefix (counted_contents W.contents writer.old)
        (counted_contents W.contents writer.new) (ivf_text (head_model head) packets.now)) }
    ensures device { OnErr result (HasFailed (counted_failures writer.old) (counted_failures writer.new)) }
    ensures quiet { OnOk result (counted_failures writer.new ≡ counted_failures writer.old) }
{
    let mut file = Writer::begin(
        writer,
        head.dim,
        head.rate,
        head.scale,
        packets.len() as u32,
    );
    let mut time = 0;
    for packet in packets {
        if file.packet(time, packet.as_slice()).is_err() {
            return Err(Device);
        }
        time += 1;
    }
    match file.finish() {
        Ok(()) => Ok(()),
        Err(_) => Err(Device),
    }
}
