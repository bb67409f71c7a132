//! Reading a YUV4MPEG2 file picture by picture.

ghost use Rattle.std.specs.Prelude.{◌≡◌, ◌≢◌, ◌≤◌, ◌+◌, ◌*◌, length, None, Ok, Err, IfOk, IfErr, IfSome};
ghost use Rattle.vp_base.specs.Counted.{counted_remaining, counted_failures, counted_reads, HasFailed};
ghost use Rattle.vp_y4m.specs.declared.fault.SourceFault.{SourceFault};
ghost use Rattle.vp_y4m.specs.declared.source.Progress.{Progress};
ghost use Rattle.vp_y4m.specs.Reads.{Shows, Fails, TakesInReads, idle_reads, idle_at_none};
ghost use Rattle.vp_y4m.specs.Shown.{head_model};
ghost use Rattle.vp_y4m.specs.Pictures.{file_head};
ghost use Rattle.vp_y4m.specs.Text.{i420_length};

use crate::fault::SourceFault;
use crate::frame::read_frame;
use crate::header::{SourceHead, read_head_line};
use crate::line::read_line;
use std::alloc::Global;
use std::io::Read;
use vp_base::{Counted, Dim, Limits, Picture};

impl SourceHead {
    /// Reads the header line, and nothing after it. Faults are not remembered: a second call reads the next line.
    pub fn read<R: Read>(reader: &mut Counted<R>, limits: Limits) -> Result<SourceHead, SourceFault>
        ensures ok { IfOk result (λ head. Shows (file_head limits.pixels) (λ rest. Ok (head_model head, rest))
            (counted_remaining R.remaining reader.old) (counted_remaining R.remaining reader.new)) }
        ensures small { IfOk result (λ head. head.dim.w * head.dim.h ≤ limits.pixels) }
        ensures err { IfErr result (λ f. Fails (file_head limits.pixels) f
            (counted_remaining R.remaining reader.old) (counted_remaining R.remaining reader.new)) }
        ensures device { result ≡ Err SourceFault.Device
            → HasFailed (counted_failures reader.old) (counted_failures reader.new) }
        ensures quiet { result ≢ Err SourceFault.Device → counted_failures reader.new ≡ counted_failures reader.old }

        // In every case each read except the last consumes at least one byte, and the last one too if the line is
        // complete. This bounds the number of reads, also for readers whose bytes are not known.
        ensures reads { TakesInReads (idle_reads (λ _. 0) result) (counted_remaining R.remaining reader.old)
            (counted_remaining R.remaining reader.new) (counted_reads reader.old) (counted_reads reader.new) }
        ensures within { counted_reads reader.new ≤ counted_reads reader.old + 1025 }
        ensures most { IfSome (counted_remaining R.remaining reader.old) (λ bytes.
            counted_reads reader.new ≤ counted_reads reader.old + (length bytes + 1)) }
    {
        let mut line = [0; 1024];
        match read_line(reader, &mut line) {
            Ok(Some(n)) => match read_head_line(&line[..n], limits) {
                Ok(head) => Ok(head),
                Err(fault) => Err(fault),
            },
            Ok(None) => Err(SourceFault::Torn),
            Err(fault) => Err(fault),
        }
    }
}

/// The progress of a source.
#[derive(Clone, Copy, Debug, PartialEq, Eq)]
pub enum Progress {
    /// More pictures may follow.
    Open,
    /// The input ended before a picture.
    Ended,
    /// This fault is returned by every call.
    Failed(SourceFault),
}

/// Reads a file picture by picture, without read-ahead: after each call exactly the bytes of the lines and pictures so
/// far are consumed.
#[derive(Drop)]
pub struct Source<'a, R: Read> {
    alloc: Global,
    reader: &'a mut Counted<R>,
    head: SourceHead,
    progress: Progress,
}

impl<'a, R: Read> Source<'a, R> {
    ghost use Rattle.vp_y4m.specs.Source.{reader_name, bytes_left, failures_of, reads_of, head_of, progress_of};
    ghost use Rattle.vp_y4m.specs.Source.{progress_after, AnswersNextPicture};

    /// Creates a source of the pictures after a header that was read from this reader.
    pub fn open(alloc: Global, reader: &'a mut Counted<R>, head: SourceHead) -> Source<'a, R>
        ensures same_reference { reader_name result ≡ reader.entry.ghost_name }
        ensures head { head_of result ≡ head_model head }
        ensures open { progress_of result ≡ Progress.Open }
        ensures bytes { bytes_left R.remaining result ≡ counted_remaining R.remaining reader.entry.now }
        ensures failures { failures_of result ≡ counted_failures reader.entry.now }
        ensures reads { reads_of result ≡ counted_reads reader.entry.now }
    {
        Source {
            alloc,
            reader,
            head,
            progress: Progress::Open,
        }
    }

    /// The size of its pictures.
    pub fn dim(&self) -> Dim
        ensures width { result.w ≡ (head_of self.now).w }
        ensures height { result.h ≡ (head_of self.now).h }
    {
        self.head.dim
    }

    /// Frame rate numerator: `rate / scale` pictures per second.
    pub fn rate(&self) -> u32
        ensures { result ≡ (head_of self.now).rate }
    {
        self.head.rate
    }

    /// Frame rate denominator: `rate / scale` pictures per second.
    pub fn scale(&self) -> u32
        ensures { result ≡ (head_of self.now).scale }
    {
        self.head.scale
    }

    /// Reads the next picture. Returns None at the end of the file. The pixels that aren't shown are 0.
    pub fn next_picture(&mut self) -> Result<Option<Picture>, SourceFault>
        ensures same_reference { reader_name self.new ≡ reader_name self.old }
        ensures head { head_of self.new ≡ head_of self.old }

        // The end and a fault are permanent. Memory is allocated before the first read.
        ensures ended { progress_of self.old ≡ Progress.Ended → (result ≡ Ok None) × (self.new ≡ self.old) }
        ensures failed { (fault : SourceFault) → progress_of self.old ≡ Progress.Failed fault
            → (result ≡ Err fault) × (self.new ≡ self.old) }
        ensures memory { progress_of self.old ≡ Progress.Open → result ≡ Err SourceFault.Memory → self.new ≡ self.old }

        // Otherwise the bytes determine the result.
        ensures answer { progress_of self.old ≡ Progress.Open → result ≢ Err SourceFault.Memory
            → AnswersNextPicture (head_of self.old).w (head_of self.old).h result
            (bytes_left R.remaining self.old) (bytes_left R.remaining self.new) }
        ensures progress { progress_of self.old ≡ Progress.Open → result ≢ Err SourceFault.Memory
            → progress_of self.new ≡ progress_after result }
        ensures device { progress_of self.old ≡ Progress.Open → result ≡ Err SourceFault.Device
            → HasFailed (failures_of self.old) (failures_of self.new) }
        ensures quiet { progress_of self.old ≡ Progress.Open → result ≢ Err SourceFault.Device
            → failures_of self.new ≡ failures_of self.old }

        // In every case each read except the last consumes at least one byte, and the last one too if there is a
        // picture. This bounds the number of reads, also for readers whose bytes are not known.
        ensures reads { TakesInReads (idle_reads idle_at_none result) (bytes_left R.remaining self.old)
            (bytes_left R.remaining self.new) (reads_of self.old) (reads_of self.new) }
        ensures within { reads_of self.new
            ≤ reads_of self.old + (1025 + i420_length (head_of self.old).w (head_of self.old).h) }
        ensures most { IfSome (bytes_left R.remaining self.old) (λ bytes.
            reads_of self.new ≤ reads_of self.old + (length bytes + 1)) }
    {
        match self.progress {
            Progress::Open => {}
            Progress::Ended => return Ok(None),
            Progress::Failed(fault) => return Err(fault),
        }
        let Ok(mut picture) = Picture::new(self.alloc, self.head.dim, 0) else {
            return Err(SourceFault::Memory);
        };
        match read_frame(self.reader, &mut picture) {
            Ok(true) => Ok(Some(picture)),
            Ok(false) => {
                self.progress = Progress::Ended;
                Ok(None)
            }
            Err(fault) => {
                self.progress = Progress::Failed(fault);
                Err(fault)
            }
        }
    }
}
