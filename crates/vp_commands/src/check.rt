//! The command `vp8 check`, and `vp8 info` where it lists more than one file or more of it.

ghost use Rattle.std.specs.Prelude.{◌≡◌, ◌≤◌, List, Result, length, IfOk, OnErr};
ghost use Rattle.std.specs.List.{list_all};
ghost use Rattle.std.specs.Io.KnownBytes.{Appends};
ghost use Rattle.clap.specs.Walk.{texts};
ghost use Rattle.vp_base.specs.Counted.{counted_contents, counted_failures, HasFailed};
ghost use Rattle.vp_stream.specs.declared.fault.DecodeFault.{DecodeFault};
ghost use Rattle.vp_check.specs.declared.checked.Checked.{Checked};
ghost use Rattle.vp_lines.specs.CheckLines.{checks_text, counts_of, file_text, is_well};
ghost use Rattle.vp_commands.specs.Commands.{read_side, written_side, AreFilesChecked, ChecksEach, ChecksFile, DoesCheck};

use crate::files::limits_of;
use crate::hints::{hint_empty, hint_work};
use crate::outside::Outside;
use crate::unwritten::failed_write;
use crate::work::{Work, over_input};
use std::io;
use std::io::{Read, Write};
use std::rt::Files;
use std::time::Clock;
use vp_args::{CheckArgs, FileLimits};
use vp_base::{Counted, Device};
use vp_check::{Checked, check};
use vp_hints::{Unit, hint_length};
use vp_lines::{Counts, LineStyle, has_total, is_well, put_done, put_total, report_fault};
use vp_stream::DecodeFault;

/// Files that are checked one after another.
#[derive(Clone, Copy)]
pub(crate) struct CheckWork<'a> {
    /// The greatest files that are read.
    pub(crate) limits: FileLimits,
    /// The form of the lines.
    pub(crate) style: LineStyle,
    /// The names of the files.
    pub(crate) names: &'a [&'a str],
    /// The output's number of failed calls before the work.
    pub(crate) failures: u64,
}

/// Checks files, and prints what is found. Returns the exit status.
pub fn run_check<H: Files + AllocGlobal + Clock + Eprint, R: Read, W: Write, E: Write>(
    outside: &mut Outside<'_, H>,
    wanted: &CheckArgs<'_>,
    input: &mut Counted<R>,
    output: &mut Counted<W>,
    errors: &mut Counted<E>,
) -> u8
    ensures status { result ≤ 1 }
    ensures does { DoesCheck wanted.now result
        (read_side R.remaining input.old) (read_side R.remaining input.new)
        (written_side W.contents output.old) (written_side W.contents output.new) }
{
    outside.tell_progress(wanted.progress, Unit::Packets);
    let work = CheckWork {
        limits: wanted.limits,
        style: LineStyle::Counted {
            verbose: wanted.verbose,
        },
        names: &wanted.files,
        failures: output.failures(),
    };
    check_files(outside, &work, input, output, errors)
}

/// Checks files, one after another, and prints what is found. Returns the exit status: 0 only if nothing is wrong with
/// any of them, and all is printed.
pub(crate) fn check_files<H: Files + AllocGlobal + Clock + Eprint, R: Read, W: Write, E: Write>(
    outside: &mut Outside<'_, H>,
    work: &CheckWork<'_>,
    input: &mut Counted<R>,
    output: &mut Counted<W>,
    errors: &mut Counted<E>,
) -> u8
    requires { work.now.failures ≡ counted_failures output.old }
    ensures status { result ≤ 1 }
    ensures checked { ChecksEach work.now.limits work.now.style (texts work.now.names.now) result
        (read_side R.remaining input.old) (read_side R.remaining input.new)
        (written_side W.contents output.old) (written_side W.contents output.new) }
{
    match check_each(outside, work, input, output, errors) {
        Ok(true) => 0,
        Ok(false) => 1,
        Err(_) => report_fault(DecodeFault::Device, errors),
    }
}

// Checks files, one after another, and prints what is found. Returns whether nothing is wrong. It ends at a failed
// write.
fn check_each<H: Files + AllocGlobal + Clock + Eprint, R: Read, W: Write, E: Write>(
    outside: &mut Outside<'_, H>,
    work: &CheckWork<'_>,
    input: &mut Counted<R>,
    output: &mut Counted<W>,
    errors: &mut Counted<E>,
) -> Result<bool, Device>
    ensures checked { (dones : List (Result Checked DecodeFault))
        × AreFilesChecked work.now.limits (texts work.now.names.now) dones
        (read_side R.remaining input.old) (read_side R.remaining input.new)
        × IfOk result (λ well. (length dones ≡ length work.now.names.now)
        × (well ≡ list_all (is_well work.now.style) dones)
        × Appends (counted_contents W.contents output.old) (counted_contents W.contents output.new)
        (checks_text work.now.style (texts work.now.names.now) dones)) }
    ensures device { OnErr result (HasFailed work.now.failures (counted_failures output.new)) }
{
    let names = work.names;
    let mut total = Counts::none();
    let mut well = true;
    for name in names {
        let (counts, sound) = check_one(outside, work, name, input, output, errors)?;
        total = total.with(counts);
        well &= sound;
    }
    match put_total(work.style, names.len(), &total, output) {
        Ok(()) => Ok(well),
        Err(_) => Err(failed_write(work.failures, output)),
    }
}

// Checks a file, and prints what is found. Returns the numbers of its packets, and whether nothing is wrong.
fn check_one<H: Files + AllocGlobal + Clock + Eprint, R: Read, W: Write, E: Write>(
    outside: &mut Outside<'_, H>,
    work: &CheckWork<'_>,
    name: &str,
    input: &mut Counted<R>,
    output: &mut Counted<W>,
    errors: &mut Counted<E>,
) -> Result<(Counts, bool), Device>
    ensures checked { (done : Result Checked DecodeFault)
        × ChecksFile work.now.limits name.now done (read_side R.remaining input.old) (read_side R.remaining input.new)
        × IfOk result (λ found. (found.0 ≡ counts_of done) × (found.1 ≡ is_well work.now.style done)
        × Appends (counted_contents W.contents output.old) (counted_contents W.contents output.new)
        (file_text work.now.style name.now done)) }
    ensures device { OnErr result (HasFailed work.now.failures (counted_failures output.new)) }
{
    let done = check_file(outside, work.limits, name, input);
    if put_done(outside.alloc(), name, &done, work.style, output).is_err() {
        return Err(failed_write(work.failures, output));
    }
    hint_done(outside, name, &done, work.style, errors);
    Ok((Counts::of(&done), is_well(work.style, &done)))
}

// Prints what a person needs to know of a file beside its lines.
fn hint_done<H, E: Write>(
    outside: &Outside<'_, H>,
    name: &str,
    done: &Result<Checked, DecodeFault>,
    style: LineStyle,
    errors: &mut Counted<E>,
) {
    match done {
        Ok(checked) => hint_checked(outside, name, checked, style, errors),
        Err(fault) => hint_unread(outside, name, *fault, style, errors),
    }
}

// Prints what a person needs to know of a file that was read, beside its lines.
fn hint_checked<H, E: Write>(
    outside: &Outside<'_, H>,
    name: &str,
    checked: &Checked,
    style: LineStyle,
    errors: &mut Counted<E>,
) {
    match checked.fault {
        Some(fault) => hint_unread(outside, name, DecodeFault::File(fault), style, errors),
        None => {
            let _ = hint_length(name, &outside.input, errors);
        }
    }
    if tells_packets(style) {
        let _ = hint_empty(name, checked.packets.as_slice(), errors);
    }
}

// Whether each packet with damage is told.
fn tells_packets(style: LineStyle) -> bool {
    match style {
        LineStyle::Counted { verbose } => verbose,
        LineStyle::Packets { long, .. } => long,
        LineStyle::Json => false,
    }
}

// Prints why a file can't be read, or is not whole, and what to do.
fn hint_unread<H, E: Write>(
    outside: &Outside<'_, H>,
    name: &str,
    fault: DecodeFault,
    style: LineStyle,
    errors: &mut Counted<E>,
) {
    if !has_total(style) {
        report_fault(fault, errors);
    }
    let _ = hint_work(outside, fault, (name, "-"), "decoded", errors);
}

// Opens a file, and checks it.
#[tactic(auto, using(crate::proofs::WorkLemmas::looked_at))]
fn check_file<H: Files + AllocGlobal + Clock + Eprint, R: Read>(
    outside: &mut Outside<'_, H>,
    limits: FileLimits,
    from: &str,
    input: &mut Counted<R>,
) -> Result<Checked, DecodeFault>
    ensures { ChecksFile limits from.now result (read_side R.remaining input.old) (read_side R.remaining input.new) }
{
    outside.forget();
    let nowhere = &mut Counted::new(io::sink());
    over_input(outside, &Checking { limits }, from, input, nowhere)
}

// A check of a file within limits.
#[derive(Drop)]
struct Checking {
    limits: FileLimits,
}

impl Work for Checking {
    type Report = Checked;

    type Fault = DecodeFault;

    ghost use Rattle.vp_commands.specs.Commands.{ChecksInput};

    ghost does = { λ work done i j _ _. ChecksInput work.limits done i j };

    fn over<H: Files + AllocGlobal + Clock + Eprint, R: Read, W: Write>(
        &self,
        outside: &mut Outside<'_, H>,
        input: &mut Counted<R>,
        _output: &mut Counted<W>,
    ) -> Result<Checked, DecodeFault> {
        match check(outside.alloc(), input, limits_of(self.limits)) {
            Ok(checked) => Ok(checked),
            Err(fault) => Err(DecodeFault::from(fault)),
        }
    }
}
