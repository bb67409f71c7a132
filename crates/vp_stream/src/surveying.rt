//! Surveys a whole file: keeps the outcome of each packet, and decodes no pictures.

ghost use Rattle.std.specs.Prelude.{◌≡◌, ◌≢◌, ◌≤◌, ◌+◌, ◌-◌, ◌^◌, ◌++◌, ◌∷◌, ℕ, List, [], length, None, Some, OnOk};
ghost use Rattle.std.specs.Prelude.{IfOk, Err, Option};
ghost use Rattle.std.specs.Io.KnownBytes.{Consumes, IsAtEnd};
ghost use Rattle.vp_base.specs.Counted.{counted_remaining, counted_failures, counted_reads, HasFailed, HasRisenBy};
ghost use Rattle.vp_ivf.specs.declared.fault.FileFault.{FileFault};
ghost use Rattle.vp_base.specs.declared.limits.Limits.{Limits};
ghost use Rattle.vp_decode.specs.Outcomes.{reader_at};
ghost use Rattle.vp_decode.specs.Step.{DecoderState, step, outcome};
ghost use Rattle.vp_stream.specs.declared.fault.SurveyFault.{SurveyFault};
ghost use Rattle.vp_stream.specs.Written.{IsSurveyFor};

use crate::fault::SurveyFault;
use crate::outcomes::{OutcomeList, Survey};
use crate::packet_reader::{Next, PacketReader};
use std::alloc::{AllocError, Global};
use std::io::Read;
use vp_base::{Counted, Limits};
use vp_decode::OutcomeReader;

/// Reads a file to its end or its fault, and lists what decoding each packet gives, in order. Pictures are not decoded.
///
/// Errors: `SurveyFault`. A fault of the file is part of the survey.
pub fn survey<R: Read>(
    alloc: Global,
    reader: &mut Counted<R>,
    limits: Limits,
) -> Result<Survey, SurveyFault>
    ensures surveyed { (file : List ℕ)
        × Consumes (counted_remaining R.remaining reader.old) (counted_remaining R.remaining reader.new) file
        × IsSurveyFor limits result file }

    // A survey without a fault, or with `Torn`, is returned only at the reader's end.
    ensures end { IfOk result (λ s. s.fault ≡ None → IsAtEnd (counted_remaining R.remaining reader.new)) }
    ensures torn { IfOk result (λ s. s.fault ≡ Some FileFault.Torn →
        IsAtEnd (counted_remaining R.remaining reader.new)) }

    // `Device` is returned only after a failed read, and always after one.
    ensures device { result ≡ Err SurveyFault.Device →
        HasFailed (counted_failures reader.old) (counted_failures reader.new) }
    ensures quiet { result ≢ Err SurveyFault.Device →
        counted_failures reader.new ≡ counted_failures reader.old }

    // In all cases at most 2^32 - 1 reads are made. `ReadTurns` is returned after exactly that many.
    ensures reads { counted_reads reader.new ≤ counted_reads reader.old + (2 ^ 32 - 1) }
    ensures turns { result ≡ Err SurveyFault.ReadTurns →
        HasRisenBy (2 ^ 32 - 1) (counted_reads reader.old) (counted_reads reader.new) }
{
    let mut file = PacketReader::new(alloc, limits);
    let mut outcomes = OutcomeReader::new(limits);
    let mut packets = OutcomeList::new(alloc);
    // Cleared once, not for each read: that would cost more than taking in a short piece.
    let mut buffer = [0; 4096];
    'packets: loop {
        match file.next(reader, &mut buffer)? {
            Next::Packet(_, packet) => {
                tell(packet.bytes.as_slice(), &mut outcomes, &mut packets)?;
            }
            Next::End(fault) => {
                return Ok(Survey {
                    head: file.head(),
                    packets,
                    fault,
                });
            }
        }
    }
}

// Appends a packet to the list, with its outcome.
fn tell(
    packet: &[u8],
    outcomes: &mut OutcomeReader,
    packets: &mut OutcomeList,
) -> Result<(), AllocError>
    ensures outcomes { (limits : Limits) (state : Option DecoderState) → outcomes.old ≡ reader_at limits state
        → OnOk result (outcomes.new ≡ reader_at limits (step limits state packet.now).0) }
    ensures packets { (limits : Limits) (state : Option DecoderState) → outcomes.old ≡ reader_at limits state
        → OnOk result (packets.new ≡ packets.old
        ++ (length packet.now, outcome (step limits state packet.now).1) ∷ []) }
{
    let outcome = outcomes.outcome(packet);
    packets.push(packet.len(), outcome)?;
    Ok(())
}
