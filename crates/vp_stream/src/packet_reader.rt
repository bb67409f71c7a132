//! Reads the packets of a file, one by one.

ghost use Rattle.std.specs.Prelude.{◌≡◌, ◌≢◌, ◌++◌, ◌+◌, ◌-◌, ◌^◌, ◌<◌, ◌≤◌, ℕ, List, None, Err, Ok, true};
ghost use Rattle.std.specs.Io.KnownBytes.{Consumes, IsAtEnd};
ghost use Rattle.vp_base.specs.declared.limits.Limits.{Limits};
ghost use Rattle.vp_base.specs.Counted.{counted_remaining, counted_failures, counted_reads, one_more, HasFailed};
ghost use Rattle.vp_ivf.specs.declared.packet.Packet.{Packet};
ghost use Rattle.vp_ivf.specs.Reader.{refusal};
ghost use Rattle.vp_stream.specs.declared.fault.SurveyFault.{SurveyFault};
ghost use Rattle.vp_stream.specs.PacketReader.{before_first_read, IsReading, HasRead, GivesNext, CountsReads, Took};
ghost use Rattle.vp_stream.specs.PacketReader.{next_waiting, without_next};

use crate::fault::SurveyFault;
use std::alloc::Global;
use std::io::Read;
use std::marker::Model;
use vp_base::{Counted, Limits};
use vp_ivf::{FeedError, FileFault, IvfHead, Packet, Reader};

/// The next item of a file.
#[derive(Drop)]
pub enum Next {
    /// A packet, with the file's head.
    Packet(IvfHead, Packet),
    /// The end of the file, or its fault.
    End(Option<FileFault>),
}

/// Reads a file in pieces, and returns each packet once.
#[derive(Drop)]
pub struct PacketReader {
    file: Reader,
    turns: u32,
}

impl Model for PacketReader {
    ghost use Rattle.vp_stream.specs.PacketReader.{PacketReader};

    ghost Value = { PacketReader };

    ghost view = { λ a. record { file = a.file; turns = a.turns } };
}

impl PacketReader {
    /// Creates a reader that hasn't read anything yet.
    pub(crate) fn new(alloc: Global, limits: Limits) -> PacketReader
        ensures { result ≡ before_first_read limits }
    {
        PacketReader {
            file: Reader::new(alloc, limits),
            turns: u32::MAX,
        }
    }

    /// Returns the file's head, once it is read.
    pub(crate) fn head(&self) -> Option<IvfHead>
        ensures { result ≡ self.now.file.reading.head }
    {
        self.file.head()
    }

    /// Reads until the next packet is whole, and returns it, or the file's end or fault. Each piece is read into
    /// `buffer`, whose contents before and after don't matter.
    pub(crate) fn next<R: Read>(
        &mut self,
        reader: &mut Counted<R>,
        buffer: &mut [u8; 4096],
    ) -> Result<Next, SurveyFault>
        ensures given { (limits : Limits) (fed : List ℕ) (given : List Packet)
            → IsReading limits self.old fed given
            → (more : List ℕ)
            × Consumes (counted_remaining R.remaining reader.old) (counted_remaining R.remaining reader.new) more
            × GivesNext limits result self.new (counted_remaining R.remaining reader.new) (fed ++ more) given }
        ensures device { result ≡ Err SurveyFault.Device →
            HasFailed (counted_failures reader.old) (counted_failures reader.new) }
        ensures quiet { result ≢ Err SurveyFault.Device →
            counted_failures reader.new ≡ counted_failures reader.old }
        ensures reads { (before : ℕ) → HasRead self.old before (counted_reads reader.old)
            → CountsReads result self.new before (counted_reads reader.new) }
        ensures most { (before : ℕ) → HasRead self.old before (counted_reads reader.old)
            → counted_reads reader.new ≤ before + (2 ^ 32 - 1) }
    {
        'reading: loop {
            if let Some((head, packet)) = self.waiting() {
                return Ok(Next::Packet(head, packet));
            }
            if let Some(fault) = self.file.refusal() {
                return Ok(Next::End(Some(fault)));
            }
            if !self.read_piece(reader, buffer)? {
                return Ok(Next::End(self.file.finish().err()));
            }
        }
    }

    // Returns the first packet that is read and not returned yet.
    fn waiting(&mut self) -> Option<(IvfHead, Packet)>
        ensures next { result ≡ next_waiting self.old }
        ensures rest { self.new ≡ without_next self.old }
    {
        let head = self.file.head()?;
        let packet = self.file.next_packet()?;
        Some((head, packet))
    }

    // Reads a piece into the buffer, and takes it in. Returns false at the reader's end.
    fn read_piece<R: Read>(
        &mut self,
        reader: &mut Counted<R>,
        buffer: &mut [u8; 4096],
    ) -> Result<bool, SurveyFault>
        requires { refusal self.old.file ≡ None }
        ensures took { (piece : List ℕ)
            × Consumes (counted_remaining R.remaining reader.old) (counted_remaining R.remaining reader.new) piece
            × Took result self.old self.new (counted_remaining R.remaining reader.new) piece }
        ensures device { result ≡ Err SurveyFault.Device →
            HasFailed (counted_failures reader.old) (counted_failures reader.new) }
        ensures quiet { result ≢ Err SurveyFault.Device →
            counted_failures reader.new ≡ counted_failures reader.old }
        ensures counts { result ≢ Err SurveyFault.ReadTurns →
            counted_reads reader.new ≡ one_more (counted_reads reader.old) }
        ensures rests { result ≡ Err SurveyFault.ReadTurns → counted_reads reader.new ≡ counted_reads reader.old }
        ensures turns { result ≢ Err SurveyFault.ReadTurns → 0 < self.old.turns }
    {
        if self.turns == 0 {
            return Err(SurveyFault::ReadTurns);
        }
        let Ok(count) = reader.read(buffer) else {
            return Err(SurveyFault::Device);
        };
        if count == 0 {
            return Ok(false);
        }
        self.turns -= 1;
        match self.file.feed(&buffer[..count]) {
            Err(FeedError::Memory) => Err(SurveyFault::Memory),
            Ok(()) | Err(FeedError::Fault(_)) => Ok(true),
        }
    }
}
