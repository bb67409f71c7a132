//! Encodes a source while it is read.

ghost use Rattle.std.specs.Prelude.{◌≡◌, ◌≢◌, ◌≤◌, ◌+◌, ◌*◌, ◌++◌, ◌⊎◌, ℕ, List, [], Option, length};
ghost use Rattle.std.specs.Prelude.{OnOk, IfSome, Err};
ghost use Rattle.std.specs.Io.KnownBytes.{Appends, Consumes, IsAtEnd};
ghost use Rattle.vp_base.specs.Counted.{counted_remaining, counted_contents, counted_failures, counted_reads};
ghost use Rattle.vp_base.specs.Counted.{HasFailed};
ghost use Rattle.vp_y4m.specs.Shown.{head_model};
ghost use Rattle.vp_y4m.specs.Reads.{TakesInReads};
ghost use Rattle.vp_y4m.specs.Text.{i420_length};
ghost use Rattle.vp_encode.specs.declared.settings.Settings.{Settings};
ghost use Rattle.vp_encode.specs.declared.report.EncodeAllFault.{EncodeAllFault};
ghost use Rattle.vp_encode.specs.Encoded.{EncodedFrame};
ghost use Rattle.vp_encode.specs.File.{IsWrittenFurther, most_reads, progress_of_frames};
ghost use Rattle.vp_live.specs.Live.{IsLiveOver, live_text};
ghost use Rattle.vp_live.specs.Progress.{IsLiveAt, EndsLive};

use crate::progress::LiveProgress;
use crate::writing::write_head;
use std::alloc::Global;
use std::io::{Read, Write};
use vp_base::{Counted, Limits};
use vp_encode::{EncodeAllFault, EncodeReport, Encoder, Settings, Watcher};
use vp_y4m::{Source, SourceHead};

/// Encodes a YUV4MPEG2 source while it is read, and writes an IVF file with its size and rate. The head counts 0
/// packets, as it is written before their number is known. Each packet is written and flushed before the next picture
/// is read, so that the memory is that of one picture and the references. The times of the packets are 0, 1, and so on.
/// The progress callback receives how much is encoded with the first picture, with the first two, .. up to all pictures
/// whose packets are written.
///
/// Errors, in the order of the work: a fault of the head, and `Settings`, write nothing. Then for each picture its
/// fault, `TooMany`, `TooLong` and `PacketTooLarge` leave the whole packets of all pictures before it. If a write or
/// a flush fails, a prefix of the head, or of the next packet after them, is written.
pub fn encode_live<R: Read, W: Write, T: Watcher>(
    alloc: Global,
    reader: &mut Counted<R>,
    writer: &mut Counted<W>,
    settings: Settings,
    limits: Limits,
    watcher: &mut T,
) -> Result<EncodeReport, EncodeAllFault>
    ensures answer { IsLiveOver R.remaining W.contents limits settings result reader.old reader.new writer.old
        writer.new (T.told watcher.old) (T.told watcher.new) }

    // Each read except the last takes at least one byte. This bounds the number of reads, whether or not the reader's
    // bytes are known.
    ensures reads { TakesInReads 1 (counted_remaining R.remaining reader.old) (counted_remaining R.remaining reader.new)
        (counted_reads reader.old) (counted_reads reader.new) }
    ensures within { counted_reads reader.new ≤ counted_reads reader.old + most_reads limits }
    ensures most { IfSome (counted_remaining R.remaining reader.old) (λ bytes.
        counted_reads reader.new ≤ counted_reads reader.old + (length bytes + 1)) }
{
    let head = SourceHead::read(reader, limits)?;
    let encoder = Encoder::new(alloc, head.dim, settings)?;
    write_head(writer, &head)?;
    let mut run = LiveProgress::new(encoder, limits);
    encode_pictures(alloc, reader, head, &mut run, writer, watcher)?;
    Ok(run.report())
}

/// Encodes the pictures that follow a file's head, and writes their packets after the head of the live file. The
/// callback receives the file's head.
fn encode_pictures<R: Read, W: Write, T: Watcher>(
    alloc: Global,
    reader: &mut Counted<R>,
    head: SourceHead,
    run: &mut LiveProgress,
    writer: &mut Counted<W>,
    watcher: &mut T,
) -> Result<(), EncodeAllFault>
    requires first { run.old.frames ≡ 0 }
    requires width { run.old.encoder.dim.w ≡ head.dim.w }
    requires height { run.old.encoder.dim.h ≡ head.dim.h }
    // For every file that begins with the head's line, and contents of the writer before the live file's head:
    ensures ends { (settings : Settings) (line : List ℕ) (before : Option (List ℕ))
        → IsLiveAt settings (head_model head) line [] run.old
        → Appends before (counted_contents W.contents writer.old) (live_text (head_model head) [])
        → (bytes : List ℕ) × (frames : List EncodedFrame)
        × Consumes (counted_remaining R.remaining reader.old) (counted_remaining R.remaining reader.new) bytes
        × IsWrittenFurther (T.told watcher.old) (T.told watcher.new) (progress_of_frames frames)
        × EndsLive run.old.limits settings result (line ++ bytes) frames run.new before
        (counted_contents W.contents writer.new) }
    ensures end { OnOk result (IsAtEnd (counted_remaining R.remaining reader.new)) }
    ensures torn { result ≡ Err EncodeAllFault.Torn → IsAtEnd (counted_remaining R.remaining reader.new) }
    ensures device { result ≡ Err EncodeAllFault.Device
        → HasFailed (counted_failures reader.old) (counted_failures reader.new)
        ⊎ HasFailed (counted_failures writer.old) (counted_failures writer.new) }
    ensures quiet { result ≢ Err EncodeAllFault.Device → (counted_failures reader.new ≡ counted_failures reader.old)
        × (counted_failures writer.new ≡ counted_failures writer.old) }
    ensures reads { TakesInReads 1 (counted_remaining R.remaining reader.old) (counted_remaining R.remaining reader.new)
        (counted_reads reader.old) (counted_reads reader.new) }
    ensures within { counted_reads reader.new ≤ counted_reads reader.old
        + (run.old.limits.packets + 1) * (1025 + i420_length head.dim.w head.dim.h) }
{
    let mut source = Source::open(alloc, reader, head);
    while let Some(picture) = source.next_picture()? {
        run.picture(&picture, writer)?;
        watcher.encoded(&head, run.so_far());
    }
    Ok(())
}
