//! The command `vp8 encode`.

ghost use Rattle.std.specs.Prelude.{◌≡◌, ◌≤◌, Result, ⊤};
ghost use Rattle.vp_encode.specs.declared.report.EncodeReport.{EncodeReport};
ghost use Rattle.vp_encode.specs.declared.report.EncodeAllFault.{EncodeAllFault};
ghost use Rattle.vp_commands.specs.Commands.{status_by_report};
ghost use Rattle.vp_commands.specs.Commands.{encoding_of, read_side, settings_of, written_side, EncodesFile, IsFileEncoded};

use crate::encoded::tell_encoded;
use crate::files::limits_of;
use crate::hints::hint_encode;
use crate::outside::Outside;
use crate::work::{FileWork, Work, over_files};
use std::alloc::Global;
use std::fs::OpenFile;
use std::io::{Read, Write};
use std::rt::Files;
use std::time::Clock;
use vp_args::{EncodeArgs, EncodeOptions};
use vp_base::Counted;
use vp_encode::{
    EncodeAllFault, EncodeReport, EncodedSoFar, Settings, Watcher, encode_all_watched,
};
use vp_hints::{Film, Meter, Overwrite, Tally, Unit, Witness};
use vp_live::encode_live;
use vp_y4m::SourceHead;

/// Returns the encoder's settings, as the options say.
pub fn settings_of(options: &EncodeOptions) -> Settings
    ensures { result ≡ settings_of options.now }
{
    Settings {
        qi: options.qi,
        level: options.level,
        sharpness: options.sharpness,
        simple: options.simple,
        key_every: options.key_every,
        golden_every: options.golden_every,
        range: options.range,
        subpel: options.subpel,
        partitions: options.partitions,
    }
}

/// A progress callback that tells a meter the number of encoded frames, the film that they are, and the sum of their
/// squared errors.
#[derive(Drop)]
struct Frames<'a, H> {
    meter: &'a Meter<'a, H>,
}

impl<H: Clock + Eprint> Watcher for Frames<'_, H> {
    ghost told = { λ _ _. ⊤ };

    fn encoded(&mut self, head: &SourceHead, so_far: EncodedSoFar) {
        let EncodedSoFar {
            frames,
            bytes,
            error,
        } = so_far;
        let film = Film::of_packets(head.dim, head.rate, head.scale, frames, bytes);
        self.meter.has_made(frames, film, error);
    }
}

/// Encodes a file, and reports it: the number of frames and the sum of their squared errors, or the fault. Returns the
/// exit status.
pub fn run_encode<H: Files + AllocGlobal + Clock + Eprint, R: Read, W: Write, E: Write>(
    outside: &mut Outside<'_, H>,
    encoding: &EncodeArgs<'_>,
    input: &mut Counted<R>,
    output: &mut Counted<W>,
    errors: &mut Counted<E>,
) -> u8
    ensures status { result ≤ 1 }
    ensures does { (done : Result EncodeReport EncodeAllFault) × (result ≡ status_by_report done)
        × EncodesFile (encoding_of encoding.now) encoding.now.input.now encoding.now.output.now done
        (read_side R.remaining input.old) (read_side R.remaining input.new)
        (written_side W.contents output.old) (written_side W.contents output.new) }
{
    outside.tell_progress(encoding.progress, Unit::Frames);
    let (from, to) = (encoding.input, encoding.output);
    let done = over_files(outside, encoding, from, to, input, output);
    report_encode(outside, done, encoding, errors)
}

impl Work for EncodeArgs<'_> {
    type Report = EncodeReport;

    type Fault = EncodeAllFault;

    ghost use Rattle.vp_commands.specs.Commands.{IsFileEncoded, encoding_of};

    ghost does = { λ encoding. IsFileEncoded (encoding_of encoding) };

    fn over<H: Files + AllocGlobal + Clock + Eprint, R: Read, W: Write>(
        &self,
        outside: &mut Outside<'_, H>,
        input: &mut Counted<R>,
        output: &mut Counted<W>,
    ) -> Result<EncodeReport, EncodeAllFault> {
        let mut watcher = Frames {
            meter: outside.meter(),
        };
        encode_over(outside.alloc(), self, input, output, &mut watcher)
    }
}

impl FileWork for EncodeArgs<'_> {
    // What is written is remembered.
    fn over_file<H: Files + AllocGlobal + Clock + Eprint, R: Read, F: OpenFile + Write>(
        &self,
        outside: &mut Outside<'_, H>,
        input: &mut Counted<R>,
        file: &mut Witness<Overwrite<F>>,
    ) -> Result<EncodeReport, EncodeAllFault> {
        let mut tally = Tally::new(file);
        let done = self.over(outside, input, &mut Counted::new(&mut tally));
        outside.has_encoded(tally);
        done
    }
}

fn encode_over<R: Read, W: Write, T: Watcher>(
    alloc: Global,
    encoding: &EncodeArgs<'_>,
    input: &mut Counted<R>,
    output: &mut Counted<W>,
    watcher: &mut T,
) -> Result<EncodeReport, EncodeAllFault>
    ensures { IsFileEncoded (encoding_of encoding.now) result
        (read_side R.remaining input.old) (read_side R.remaining input.new)
        (written_side W.contents output.old) (written_side W.contents output.new) }
{
    let settings = settings_of(&encoding.options);
    let limits = limits_of(encoding.limits);
    if encoding.live {
        encode_live(alloc, input, output, settings, limits, watcher)
    } else {
        encode_all_watched(alloc, input, output, settings, limits, watcher)
    }
}

// Prints the number of frames and the sum of their squared errors, or the fault, and returns the exit status.
fn report_encode<H, E: Write>(
    outside: &Outside<'_, H>,
    done: Result<EncodeReport, EncodeAllFault>,
    encoding: &EncodeArgs<'_>,
    errors: &mut Counted<E>,
) -> u8
    ensures status { result ≤ 1 }
    ensures by { result ≡ status_by_report done }
{
    match done {
        Ok(report) => {
            let _ = writeln!(errors, "frames {} error {}", report.frames, report.error);
            let _ = tell_encoded(outside, &report, errors);
            0
        }
        Err(fault) => {
            let status = outside.report(fault, errors);
            let _ = hint_encode(outside, fault, encoding, errors);
            status
        }
    }
}
