//! Decodes packets of a stream and writes their pictures, packet by packet.

ghost use Rattle.std.specs.Prelude.{◌≡◌, ◌≢◌, ◌+◌, ◌<◌, ◌++◌, true, false, length, OnOk, IfErr, Err, [], None};
ghost use Rattle.std.specs.Io.KnownBytes.{Appends};
ghost use Rattle.vp_base.specs.Counted.{counted_contents, counted_failures, HasFailed, AppendsPrefix};
ghost use Rattle.vp_stream.specs.declared.fault.DecodeFault.{DecodeFault};
ghost use Rattle.vp_stream.specs.Cursor.{IsCursorOf, initial_cursor, work_from};
ghost use Rattle.vp_stream.specs.Seeking.{answer_at, answer_value, saturating_count};
ghost use Rattle.vp_stream.specs.Transcode.{unsized};
ghost use Rattle.vp_frames.specs.Pictures.{with_answer, fits_answer, answer_text, faults_at};
ghost use Rattle.vp_frames.specs.Pictures.{HasAllPixels, IsWriteFault};

use crate::pictures::PictureWriter;
use crate::report::{RangeFaults, RangeReport};
use std::alloc::Global;
use std::io::Write;
use vp_base::{Counted, Limits};
use vp_ivf::IvfHead;
use vp_stream::{Answer, Cursor, DecodeFault, Form, Stream};

/// A cursor and a picture writer, the number of packets decoded so far, and the faults.
#[derive(Drop)]
pub struct PacketDecoder {
    head: IvfHead,
    cursor: Cursor,
    pictures: PictureWriter,
    decoded: u64,
    faults: RangeFaults,
}

impl PacketDecoder {
    /// Creates the state before the first packet. `head` is the file's head.
    pub(crate) fn new(alloc: Global, limits: Limits, form: Form, head: IvfHead) -> PacketDecoder
        ensures head { result.head ≡ head }
        ensures cursor { result.cursor ≡ initial_cursor limits }
        ensures pictures { result.pictures ≡ unsized form }
        ensures decoded { result.decoded ≡ 0 }
        ensures faults { result.faults ≡ [] }
    {
        PacketDecoder {
            head,
            cursor: Cursor::new(alloc, limits),
            pictures: PictureWriter::new(form),
            decoded: 0,
            faults: RangeFaults::new(alloc),
        }
    }

    /// Decodes packet `number` of a stream, and writes its picture if it is shown.
    #[tactic(auto, using(crate::proofs::PictureLemmas::whole_at, vp_stream::proofs::CursorLemmas::goes_behind))]
    pub(crate) fn packet<W: Write>(
        &mut self,
        stream: &Stream,
        number: u32,
        writer: &mut Counted<W>,
    ) -> Result<(), DecodeFault>
        requires cursor { IsCursorOf self.old.cursor stream.now }
        requires there { number < length stream.now.reading.packets }
        ensures head { self.new.head ≡ self.old.head }
        ensures cursor { OnOk result (IsCursorOf self.new.cursor stream.now) }
        ensures next { OnOk result (self.new.cursor.next ≡ number + 1) }
        ensures decoded { OnOk result (self.new.decoded ≡ saturating_count self.old.decoded
            (work_from stream.now.reading.packets self.old.cursor.next number)) }
        ensures pictures { OnOk result (self.new.pictures ≡ with_answer self.old.pictures
            (answer_at stream.now.limits stream.now.reading.packets number)) }
        ensures faults { OnOk result (self.new.faults ≡ self.old.faults ++ faults_at number
            (answer_at stream.now.limits stream.now.reading.packets number)) }
        ensures fits { OnOk result (fits_answer self.old.pictures
            (answer_at stream.now.limits stream.now.reading.packets number) ≡ true) }
        ensures change { result ≡ Err DecodeFault.SizeChange → fits_answer self.old.pictures
            (answer_at stream.now.limits stream.now.reading.packets number) ≡ false }
        ensures written { OnOk result (Appends (counted_contents W.contents writer.old)
            (counted_contents W.contents writer.new) (answer_text self.old.pictures self.old.head
            (answer_at stream.now.limits stream.now.reading.packets number))) }
        ensures prefix { AppendsPrefix (counted_contents W.contents writer.old)
            (counted_contents W.contents writer.new) (answer_text self.old.pictures self.old.head
            (answer_at stream.now.limits stream.now.reading.packets number)) }
        ensures stops { IfErr result IsWriteFault }
        ensures device { result ≡ Err DecodeFault.Device →
            HasFailed (counted_failures writer.old) (counted_failures writer.new) }
        ensures quiet { result ≢ Err DecodeFault.Device →
            counted_failures writer.new ≡ counted_failures writer.old }
    {
        let Ok(answer) = stream.picture_from(number, &mut self.cursor, &mut self.decoded) else {
            return Err(DecodeFault::Memory);
        };
        self.write(number, &answer, writer)
    }

    // Writes the picture of an answer if it shows one, or notes its fault.
    fn write<W: Write>(
        &mut self,
        number: u32,
        answer: &Answer,
        writer: &mut Counted<W>,
    ) -> Result<(), DecodeFault>
        requires { HasAllPixels (answer_value answer.now) }
        ensures head { self.new.head ≡ self.old.head }
        ensures cursor { self.new.cursor ≡ self.old.cursor }
        ensures decoded { self.new.decoded ≡ self.old.decoded }
        ensures pictures { OnOk result (self.new.pictures ≡ with_answer self.old.pictures (answer_value answer.now)) }
        ensures faults { OnOk result (self.new.faults
            ≡ self.old.faults ++ faults_at number (answer_value answer.now)) }
        ensures fits { OnOk result (fits_answer self.old.pictures (answer_value answer.now) ≡ true) }
        ensures change { result ≡ Err DecodeFault.SizeChange →
            fits_answer self.old.pictures (answer_value answer.now) ≡ false }
        ensures written { OnOk result (Appends (counted_contents W.contents writer.old)
            (counted_contents W.contents writer.new)
            (answer_text self.old.pictures self.old.head (answer_value answer.now))) }
        ensures prefix { AppendsPrefix (counted_contents W.contents writer.old)
            (counted_contents W.contents writer.new)
            (answer_text self.old.pictures self.old.head (answer_value answer.now)) }
        ensures stops { IfErr result IsWriteFault }
        ensures device { result ≡ Err DecodeFault.Device →
            HasFailed (counted_failures writer.old) (counted_failures writer.new) }
        ensures quiet { result ≢ Err DecodeFault.Device →
            counted_failures writer.new ≡ counted_failures writer.old }
    {
        match answer {
            Answer::Shown(dim, pixels) => self
                .pictures
                .write(self.head, *dim, pixels.as_slice(), writer),
            Answer::Fault(fault) => match self.faults.push(number, *fault) {
                Ok(()) => Ok(()),
                Err(_) => Err(DecodeFault::Memory),
            },
            Answer::Hidden | Answer::NoPacket => Ok(()),
        }
    }

    /// Returns the report for a file with `count` packets.
    pub(crate) fn into_report(self, count: u32) -> RangeReport
        ensures { result ≡ record { count = count; decoded = self.decoded; faults = self.faults } }
    {
        let PacketDecoder {
            head: _,
            cursor: _,
            pictures: _,
            decoded,
            faults,
        } = self;
        RangeReport {
            count,
            decoded,
            faults,
        }
    }
}
