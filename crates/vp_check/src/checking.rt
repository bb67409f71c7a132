//! Checks a whole file.

ghost use Rattle.std.specs.Prelude.{◌≡◌, ◌≢◌, ◌≤◌, ◌+◌, ◌-◌, ◌^◌, ◌<◌, ℕ, List, length, None, Some, IfOk, Err};
ghost use Rattle.std.specs.Io.KnownBytes.{Consumes, IsAtEnd};
ghost use Rattle.vp_base.specs.Counted.{counted_remaining, counted_failures, counted_reads, one_more};
ghost use Rattle.vp_base.specs.Counted.{HasFailed, HasRisenBy};
ghost use Rattle.vp_ivf.specs.declared.fault.FileFault.{FileFault};
ghost use Rattle.vp_ivf.specs.Reader.{initial_reader, refusal};
ghost use Rattle.vp_stream.specs.declared.fault.SurveyFault.{SurveyFault};
ghost use Rattle.vp_check.specs.Checks.{IsCheckFor};
ghost use Rattle.vp_check.specs.Checking.{before_packets, EndsChecking, ReadsPiece};

use crate::checked::Checked;
use crate::packet_checker::PacketChecker;
use std::alloc::Global;
use std::io::Read;
use vp_base::{Counted, Limits};
use vp_ivf::{FeedError, FileFault, IvfHead, Reader};
use vp_stream::SurveyFault;

/// Reads an IVF file to its end or its fault, and decodes each packet as `decode_all` does. Lists what is found: the
/// length and the outcome of each packet, and whether it reads a partition past its end. The decoder's memory is kept,
/// and a few bytes for each packet.
///
/// Errors: `SurveyFault`. A fault of the file is part of what is found.
pub fn check<R: Read>(
    alloc: Global,
    reader: &mut Counted<R>,
    limits: Limits,
) -> Result<Checked, SurveyFault>
    ensures checked { (file : List ℕ)
        × Consumes (counted_remaining R.remaining reader.old) (counted_remaining R.remaining reader.new) file
        × IsCheckFor limits result file }

    // What is found without a fault, or with `Torn`, is returned only at the reader's end.
    ensures end { IfOk result (λ c. c.fault ≡ None → IsAtEnd (counted_remaining R.remaining reader.new)) }
    ensures torn { IfOk result (λ c. c.fault ≡ Some FileFault.Torn →
        IsAtEnd (counted_remaining R.remaining reader.new)) }

    // `Device` is returned only after a failed read, and always after one.
    ensures device { result ≡ Err SurveyFault.Device →
        HasFailed (counted_failures reader.old) (counted_failures reader.new) }
    ensures quiet { result ≢ Err SurveyFault.Device →
        counted_failures reader.new ≡ counted_failures reader.old }

    // In all cases at most 2^32 - 1 reads are made. `ReadTurns` is returned after exactly that many.
    ensures reads { counted_reads reader.new ≤ counted_reads reader.old + (2 ^ 32 - 1) }
    ensures turns { result ≡ Err SurveyFault.ReadTurns →
        HasRisenBy (2 ^ 32 - 1) (counted_reads reader.old) (counted_reads reader.new) }
{
    let mut file = Reader::new(alloc, limits);
    let mut packets = PacketChecker::new(alloc, limits);
    let (head, fault) = check_pieces(&mut file, &mut packets, reader)?;
    Ok(packets.into_checked(head, fault))
}

// Reads a file that hasn't been read yet, and decodes its packets. Returns the file's head and its fault.
fn check_pieces<R: Read>(
    file: &mut Reader,
    packets: &mut PacketChecker,
    reader: &mut Counted<R>,
) -> Result<(Option<IvfHead>, Option<FileFault>), SurveyFault>
    requires unread { file.old ≡ initial_reader packets.old.limits.packet_bytes packets.old.limits.packets }
    requires fresh { packets.old ≡ before_packets packets.old.limits }
    ensures checked { (bytes : List ℕ)
        × Consumes (counted_remaining R.remaining reader.old) (counted_remaining R.remaining reader.new) bytes
        × EndsChecking packets.old.limits result packets.new bytes (counted_remaining R.remaining reader.new) }
    ensures device { result ≡ Err SurveyFault.Device →
        HasFailed (counted_failures reader.old) (counted_failures reader.new) }
    ensures quiet { result ≢ Err SurveyFault.Device →
        counted_failures reader.new ≡ counted_failures reader.old }
    ensures reads { counted_reads reader.new ≤ counted_reads reader.old + (2 ^ 32 - 1) }
    ensures turns { result ≡ Err SurveyFault.ReadTurns →
        HasRisenBy (2 ^ 32 - 1) (counted_reads reader.old) (counted_reads reader.new) }
{
    // Cleared once, not for each read: that would cost more than taking in a short piece.
    let mut buffer = [0; 4096];
    for _turn in 0..u32::MAX {
        let goes_on = read_piece(file, reader, &mut buffer)?;
        packets.take_packets(file)?;
        if !goes_on {
            return Ok((file.head(), file.finish().err()));
        }
    }
    Err(SurveyFault::ReadTurns)
}

// Reads a piece into `buffer`, and feeds it. Returns false at the reader's end, and at the file's fault.
fn read_piece<R: Read>(
    file: &mut Reader,
    reader: &mut Counted<R>,
    buffer: &mut [u8; 4096],
) -> Result<bool, SurveyFault>
    requires { refusal file.old ≡ None }
    ensures fed { (piece : List ℕ)
        × Consumes (counted_remaining R.remaining reader.old) (counted_remaining R.remaining reader.new) piece
        × ReadsPiece result file.old file.new piece (counted_remaining R.remaining reader.new) }
    ensures device { result ≡ Err SurveyFault.Device →
        HasFailed (counted_failures reader.old) (counted_failures reader.new) }
    ensures quiet { result ≢ Err SurveyFault.Device →
        counted_failures reader.new ≡ counted_failures reader.old }
    ensures reads { counted_reads reader.new ≡ one_more (counted_reads reader.old) }
{
    let Ok(count) = reader.read(buffer) else {
        return Err(SurveyFault::Device);
    };
    if count == 0 {
        return Ok(false);
    }
    match file.feed(&buffer[..count]) {
        Ok(()) => Ok(true),
        Err(FeedError::Fault(_)) => Ok(false),
        Err(FeedError::Memory) => Err(SurveyFault::Memory),
    }
}
