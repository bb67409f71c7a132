//! The command `vp8 decode` for a range of packets.

ghost use Rattle.std.specs.Prelude.{◌≡◌, ◌≤◌, false, true};
ghost use Rattle.vp_hints.specs.Overwrite.{is_begun};
ghost use Rattle.vp_hints.specs.Witness.{witness_inner};
ghost use Rattle.vp_commands.specs.Commands.{Side, form_by, read_side, status_by_range, written_side};
ghost use Rattle.vp_commands.specs.Commands.{DoesDecodeRange, IsFileRangeDecoded, WritesRange};

use crate::decode::{form_of, is_summed, report_ended, report_faults};
use crate::files::{finish_range, limits_of};
use crate::hints::hint_missing;
use crate::outside::Outside;
use crate::picture_fault::print_no_packet;
use crate::sums::sum_packets;
use crate::work::{FileWork, Work, over_files};
use std::fs::OpenFile;
use std::io::{Read, Write};
use std::rt::Files;
use std::time::Clock;
use vp_args::DecodeRangeArgs;
use vp_base::Counted;
use vp_frames::{PacketRange, RangeReport, decode_range};
use vp_hints::{Overwrite, Unit, Witness};
use vp_stream::DecodeFault;

/// Decodes a range of packets, and reports it.
#[tactic(auto, using(crate::proofs::TaskLemmas::written_range, crate::proofs::TaskLemmas::summed_range))]
pub fn run_range<H: Files + AllocGlobal + Clock + Eprint, R: Read, W: Write, E: Write>(
    outside: &mut Outside<'_, H>,
    wanted: &DecodeRangeArgs<'_>,
    input: &mut Counted<R>,
    output: &mut Counted<W>,
    errors: &mut Counted<E>,
) -> u8
    ensures status { result ≤ 1 }
    ensures does { DoesDecodeRange wanted.now result
        (read_side R.remaining input.old) (read_side R.remaining input.new)
        (written_side W.contents output.old) (written_side W.contents output.new) }
{
    outside.tell_progress(wanted.decoding.progress, Unit::Packets);
    if is_summed(&wanted.decoding) {
        sum_packets(outside, wanted, input, output, errors)
    } else {
        write_range(outside, wanted, input, output, errors)
    }
}

// Decodes a range of packets, writes their pictures, and reports it.
fn write_range<H: Files + AllocGlobal + Clock + Eprint, R: Read, W: Write, E: Write>(
    outside: &mut Outside<'_, H>,
    wanted: &DecodeRangeArgs<'_>,
    input: &mut Counted<R>,
    output: &mut Counted<W>,
    errors: &mut Counted<E>,
) -> u8
    ensures status { result ≤ 1 }
    ensures does { WritesRange wanted.now result
        (read_side R.remaining input.old) (read_side R.remaining input.new)
        (written_side W.contents output.old) (written_side W.contents output.new) }
{
    let (from, to) = (wanted.decoding.input, wanted.decoding.output);
    let done = over_files(outside, wanted, from, to, input, output);
    report_packets(outside, done, wanted, errors)
}

impl Work for DecodeRangeArgs<'_> {
    type Report = RangeReport;

    type Fault = DecodeFault;

    ghost use Rattle.vp_commands.specs.Commands.{IsFileRangeDecoded, form_by};

    ghost does = { λ wanted. IsFileRangeDecoded wanted.decoding.limits (form_by wanted.decoding.y4m)
        wanted.first wanted.last };

    fn over<H: Files + AllocGlobal + Clock + Eprint, R: Read, W: Write>(
        &self,
        outside: &mut Outside<'_, H>,
        input: &mut Counted<R>,
        output: &mut Counted<W>,
    ) -> Result<RangeReport, DecodeFault> {
        let (form, limits) = (form_of(self.decoding.y4m), limits_of(self.decoding.limits));
        let range = range_of(self);
        decode_range(outside.alloc(), input, output, form, range, limits)
    }
}

// Returns the packets that are wanted.
fn range_of(wanted: &DecodeRangeArgs<'_>) -> PacketRange
    ensures first { result.first ≡ wanted.now.first }
    ensures last { result.last ≡ wanted.now.last }
{
    PacketRange {
        first: wanted.first,
        last: wanted.last,
    }
}

impl FileWork for DecodeRangeArgs<'_> {
    // If the status is 0 although there is no picture, the file is empty afterwards.
    fn over_file<H: Files + AllocGlobal + Clock + Eprint, R: Read, F: OpenFile + Write>(
        &self,
        outside: &mut Outside<'_, H>,
        input: &mut Counted<R>,
        file: &mut Witness<Overwrite<F>>,
    ) -> Result<RangeReport, DecodeFault>
        ensures decoded { (a : Side) × (b : Side) × IsFileRangeDecoded self.now.decoding.limits
            (form_by self.now.decoding.y4m) self.now.first self.now.last result
            (read_side R.remaining input.old) (read_side R.remaining input.new) a b }
        ensures finished { status_by_range self.now.last result ≡ 0 → is_begun (witness_inner file.new) ≡ true }
    {
        let done = self.over(outside, input, &mut Counted::new(&mut *file));
        if finish_range(&done, self.last, file).is_err() {
            return Err(DecodeFault::Device);
        }
        done
    }
}

/// Prints the faults, or the first packet that is missing, and returns the exit status.
pub(crate) fn report_packets<H: AllocGlobal, E: Write>(
    outside: &Outside<'_, H>,
    done: Result<RangeReport, DecodeFault>,
    wanted: &DecodeRangeArgs<'_>,
    errors: &mut Counted<E>,
) -> u8
    ensures status { result ≡ status_by_range wanted.now.last done }
    ensures ended { result ≤ 1 }
{
    match done {
        Ok(report) => {
            report_faults(outside, report.faults.as_slice(), errors);
            if report.count <= wanted.last {
                print_missing(report.count, wanted, errors);
                return 1;
            }
            if report.faults.is_empty() { 0 } else { 1 }
        }
        Err(fault) => {
            let files = (wanted.decoding.input, wanted.decoding.output);
            report_ended(outside, fault, files, "read", errors)
        }
    }
}

// Prints the first packet of the range that is missing.
fn print_missing<E: Write>(count: u32, wanted: &DecodeRangeArgs<'_>, errors: &mut Counted<E>) {
    let (number, from) = (count.max(wanted.first), wanted.decoding.input);
    let _ = print_no_packet(number, count, "s", from, errors);
    let _ = hint_missing(from, errors);
}
