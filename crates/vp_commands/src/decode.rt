//! The command `vp8 decode` for a whole file.

ghost use Rattle.std.specs.Prelude.{◌≡◌, ◌≤◌, false, true};
ghost use Rattle.vp_hints.specs.Overwrite.{is_begun};
ghost use Rattle.vp_hints.specs.Witness.{witness_inner};
ghost use Rattle.vp_commands.specs.Commands.{Side, form_by, is_summed, read_side, written_side};
ghost use Rattle.vp_commands.specs.Commands.{DoesDecode, IsFileDecoded, WritesPictures};
ghost use Rattle.vp_commands.specs.Status.{status_of};

use crate::files::{finish_pictures, limits_of};
use crate::hints::hint_work;
use crate::outside::Outside;
use crate::sums::sum_pictures;
use crate::work::{FileWork, Work, over_files};
use std::fs::OpenFile;
use std::io::{Read, Write};
use std::rt::Files;
use std::time::Clock;
use vp_args::DecodeArgs;
use vp_base::Counted;
use vp_head::PacketFault;
use vp_hints::{Overwrite, Unit, Witness, hint_packets};
use vp_lines::print_faults;
use vp_stream::{DecodeFault, Form, Report, decode_all};

/// Decodes a file, and reports it.
#[tactic(auto, using(crate::proofs::TaskLemmas::written_pictures, crate::proofs::TaskLemmas::summed_pictures))]
pub fn run_decode<H: Files + AllocGlobal + Clock + Eprint, R: Read, W: Write, E: Write>(
    outside: &mut Outside<'_, H>,
    decoding: &DecodeArgs<'_>,
    input: &mut Counted<R>,
    output: &mut Counted<W>,
    errors: &mut Counted<E>,
) -> u8
    ensures status { result ≤ 1 }
    ensures does { DoesDecode decoding.now result
        (read_side R.remaining input.old) (read_side R.remaining input.new)
        (written_side W.contents output.old) (written_side W.contents output.new) }
{
    outside.tell_progress(decoding.progress, Unit::Packets);
    if is_summed(decoding) {
        sum_pictures(outside, decoding, input, output, errors)
    } else {
        write_pictures(outside, decoding, input, output, errors)
    }
}

/// Whether sums are printed in place of pictures.
pub(crate) fn is_summed(decoding: &DecodeArgs<'_>) -> bool
    ensures { result ≡ is_summed decoding.now }
{
    decoding.md5 || decoding.md5_each
}

// Decodes a file, writes its pictures, and reports it.
fn write_pictures<H: Files + AllocGlobal + Clock + Eprint, R: Read, W: Write, E: Write>(
    outside: &mut Outside<'_, H>,
    decoding: &DecodeArgs<'_>,
    input: &mut Counted<R>,
    output: &mut Counted<W>,
    errors: &mut Counted<E>,
) -> u8
    ensures status { result ≤ 1 }
    ensures does { WritesPictures decoding.now result
        (read_side R.remaining input.old) (read_side R.remaining input.new)
        (written_side W.contents output.old) (written_side W.contents output.new) }
{
    let (from, to) = (decoding.input, decoding.output);
    let done = over_files(outside, decoding, from, to, input, output);
    report_decode(outside, done, decoding, errors)
}

// Returns the form of the pictures: YUV4MPEG2, or I420.
pub(crate) fn form_of(y4m: bool) -> Form
    ensures { result ≡ form_by y4m }
{
    if y4m { Form::Y4m } else { Form::I420 }
}

impl Work for DecodeArgs<'_> {
    type Report = Report;

    type Fault = DecodeFault;

    ghost use Rattle.vp_commands.specs.Commands.{IsFileDecoded, form_by};

    ghost does = { λ decoding. IsFileDecoded decoding.limits (form_by decoding.y4m) };

    fn over<H: Files + AllocGlobal + Clock + Eprint, R: Read, W: Write>(
        &self,
        outside: &mut Outside<'_, H>,
        input: &mut Counted<R>,
        output: &mut Counted<W>,
    ) -> Result<Report, DecodeFault> {
        let limits = limits_of(self.limits);
        decode_all(outside.alloc(), input, output, form_of(self.y4m), limits)
    }
}

impl FileWork for DecodeArgs<'_> {
    // If the status is 0 although there is no picture, the file is empty afterwards.
    fn over_file<H: Files + AllocGlobal + Clock + Eprint, R: Read, F: OpenFile + Write>(
        &self,
        outside: &mut Outside<'_, H>,
        input: &mut Counted<R>,
        file: &mut Witness<Overwrite<F>>,
    ) -> Result<Report, DecodeFault>
        ensures decoded { (a : Side) × (b : Side) × IsFileDecoded self.now.limits (form_by self.now.y4m) result
            (read_side R.remaining input.old) (read_side R.remaining input.new) a b }
        ensures finished { status_of result ≡ 0 → is_begun (witness_inner file.new) ≡ true }
    {
        let done = self.over(outside, input, &mut Counted::new(&mut *file));
        if finish_pictures(&done, file).is_err() {
            return Err(DecodeFault::Device);
        }
        done
    }
}

// Prints the faults, and returns the exit status.
pub(crate) fn report_decode<H: AllocGlobal, E: Write>(
    outside: &Outside<'_, H>,
    done: Result<Report, DecodeFault>,
    decoding: &DecodeArgs<'_>,
    errors: &mut Counted<E>,
) -> u8
    ensures status { result ≡ status_of done }
    ensures ended { result ≤ 1 }
{
    match done {
        Ok(report) => {
            report_faults(outside, report.faults.as_slice(), errors);
            if report.faults.is_empty() { 0 } else { 1 }
        }
        Err(fault) => {
            let files = (decoding.input, decoding.output);
            report_ended(outside, fault, files, "decoded", errors)
        }
    }
}

/// Prints the packets' faults, and hints at them.
pub(crate) fn report_faults<H: AllocGlobal, E: Write>(
    outside: &Outside<'_, H>,
    faults: &[(u32, PacketFault)],
    errors: &mut Counted<E>,
) {
    let _ = print_faults(outside.alloc(), faults, errors);
    let _ = hint_packets(faults, errors);
}

/// Prints the fault that ended the work, and a hint at it. Returns the exit status. `done` says what happened to the
/// file's whole packets.
pub(crate) fn report_ended<H, E: Write>(
    outside: &Outside<'_, H>,
    fault: DecodeFault,
    files: (&str, &str),
    done: &str,
    errors: &mut Counted<E>,
) -> u8
    ensures { result ≡ 1 }
{
    let status = outside.report(fault, errors);
    let _ = hint_work(outside, fault, files, done, errors);
    status
}
