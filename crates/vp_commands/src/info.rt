//! The command `vp8 info`.

ghost use Rattle.std.specs.Prelude.{◌≡◌, ◌≤◌, IfOk, IsOk, None};
ghost use Rattle.clap.specs.Walk.{texts};
ghost use Rattle.vp_commands.specs.Commands.{first_name, info_style, is_plain, read_side, written_side};
ghost use Rattle.vp_commands.specs.Commands.{DoesInfo, ListsFile, PrintsSurvey, SurveysFile};

use crate::check::{CheckWork, check_files};
use crate::files::limits_of;
use crate::hints::hint_work;
use crate::outside::Outside;
use crate::unwritten::report_unwritten;
use crate::work::{Work, over_input};
use std::io;
use std::io::{Read, Write};
use std::rt::Files;
use std::time::Clock;
use vp_args::{FileLimits, InfoArgs};
use vp_base::Counted;
use vp_hints::{Unit, hint_length};
use vp_lines::{LineStyle, print_survey, report_fault};
use vp_stream::{DecodeFault, Survey, survey};

/// Lists files.
#[tactic(auto, using(crate::proofs::TaskLemmas::listed_file, crate::proofs::TaskLemmas::listed_files))]
pub fn run_info<H: Files + AllocGlobal + Clock + Eprint, R: Read, W: Write, E: Write>(
    outside: &mut Outside<'_, H>,
    wanted: &InfoArgs<'_>,
    input: &mut Counted<R>,
    output: &mut Counted<W>,
    errors: &mut Counted<E>,
) -> u8
    ensures status { result ≤ 1 }
    ensures does { DoesInfo wanted.now result
        (read_side R.remaining input.old) (read_side R.remaining input.new)
        (written_side W.contents output.old) (written_side W.contents output.new) }
{
    outside.tell_progress(wanted.progress, Unit::Packets);
    if is_plain(wanted) {
        let from = first_name(&wanted.files);
        return list_file(outside, wanted.limits, from, input, output, errors);
    }
    let work = CheckWork {
        limits: wanted.limits,
        style: info_style(wanted),
        names: &wanted.files,
        failures: output.failures(),
    };
    check_files(outside, &work, input, output, errors)
}

// The first name, if there is one.
#[tactic(auto, using(crate::proofs::TaskLemmas::first_of_some, crate::proofs::TaskLemmas::first_of_none))]
fn first_name<'a>(names: &[&'a str]) -> &'a str
    ensures { result.now ≡ first_name (texts names.now) }
{
    match names {
        [name, ..] => name,
        [] => "",
    }
}

// Whether the lines of one file are asked for, without marks.
fn is_plain(wanted: &InfoArgs<'_>) -> bool
    ensures { result ≡ is_plain wanted.now }
{
    let marked = wanted.long || wanted.json;
    wanted.files.len() == 1 && !marked
}

// Returns the form of the lines otherwise.
fn info_style(wanted: &InfoArgs<'_>) -> LineStyle
    ensures { result ≡ info_style wanted.now }
{
    if wanted.json {
        LineStyle::Json
    } else {
        LineStyle::Packets {
            long: wanted.long,
            named: 1 < wanted.files.len(),
        }
    }
}

// Surveys a file, and prints what is found.
fn list_file<H: Files + AllocGlobal + Clock + Eprint, R: Read, W: Write, E: Write>(
    outside: &mut Outside<'_, H>,
    limits: FileLimits,
    from: &str,
    input: &mut Counted<R>,
    output: &mut Counted<W>,
    errors: &mut Counted<E>,
) -> u8
    ensures status { result ≤ 1 }
    ensures lists { ListsFile limits from.now result
        (read_side R.remaining input.old) (read_side R.remaining input.new)
        (written_side W.contents output.old) (written_side W.contents output.new) }
{
    let done = survey_file(outside, limits, from, input);
    report_survey(outside, done, from, output, errors)
}

// Opens the file, and surveys it.
#[tactic(auto, using(crate::proofs::WorkLemmas::looked_at))]
fn survey_file<H: Files + AllocGlobal + Clock + Eprint, R: Read>(
    outside: &mut Outside<'_, H>,
    limits: FileLimits,
    from: &str,
    input: &mut Counted<R>,
) -> Result<Survey, DecodeFault>
    ensures { SurveysFile limits from.now result (read_side R.remaining input.old) (read_side R.remaining input.new) }
{
    let nowhere = &mut Counted::new(io::sink());
    over_input(outside, &Surveying { limits }, from, input, nowhere)
}

// A survey of a file within limits.
#[derive(Drop)]
struct Surveying {
    limits: FileLimits,
}

impl Work for Surveying {
    type Report = Survey;

    type Fault = DecodeFault;

    ghost use Rattle.vp_commands.specs.Commands.{SurveysInput};

    ghost does = { λ work done i j _ _. SurveysInput work.limits done i j };

    fn over<H: Files + AllocGlobal + Clock + Eprint, R: Read, W: Write>(
        &self,
        outside: &mut Outside<'_, H>,
        input: &mut Counted<R>,
        _output: &mut Counted<W>,
    ) -> Result<Survey, DecodeFault> {
        match survey(outside.alloc(), input, limits_of(self.limits)) {
            Ok(survey) => Ok(survey),
            Err(fault) => Err(DecodeFault::from(fault)),
        }
    }
}

// Prints a survey and the file's fault, and returns the exit status.
fn report_survey<H: AllocGlobal, W: Write, E: Write>(
    outside: &Outside<'_, H>,
    done: Result<Survey, DecodeFault>,
    from: &str,
    output: &mut Counted<W>,
    errors: &mut Counted<E>,
) -> u8
    ensures status { result ≤ 1 }
    ensures well { result ≡ 0 → IsOk done × IfOk done (λ s. s.fault ≡ None) }
    ensures told { PrintsSurvey done result (written_side W.contents output.old)
        (written_side W.contents output.new) }
{
    let survey = match done {
        Ok(survey) => survey,
        Err(fault) => return report_unread(outside, fault, from, errors),
    };
    let failures = output.failures();
    if print_survey(outside.alloc(), &survey, output).is_err() {
        return report_unwritten(failures, output, errors);
    }
    match survey.fault {
        Some(fault) => report_unread(outside, DecodeFault::File(fault), from, errors),
        None => {
            let _ = hint_length(from, &outside.input, errors);
            0
        }
    }
}

// Prints the fault of a file that is not surveyed whole, and returns the exit status.
fn report_unread<H, E: Write>(
    outside: &Outside<'_, H>,
    fault: DecodeFault,
    from: &str,
    errors: &mut Counted<E>,
) -> u8
    ensures { result ≡ 1 }
{
    let status = report_fault(fault, errors);
    let _ = hint_work(outside, fault, (from, "-"), "read", errors);
    status
}
