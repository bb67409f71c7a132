//! Work over files, and over the standard streams in their place.

ghost use Rattle.std.specs.Prelude.{◌≡◌, ◌⊎◌, ℕ, List, Result};
ghost use Rattle.vp_commands.specs.Commands.{Side, WorksFrom, WorksInto, read_side, written_side};

use crate::files::file_fault;
use crate::outside::Outside;
use std::fs::OpenFile;
use std::io;
use std::io::{Read, Write};
use std::rt::Files;
use std::time::Clock;
use vp_base::Counted;
use vp_encode::EncodeAllFault;
use vp_hints::{Overwrite, Witness};
use vp_stream::DecodeFault;

/// The faults that end work over files.
pub(crate) trait WorkFault: Drop {
    /// A file is refused.
    ghost device: { Self };

    /// Out of memory.
    ghost memory: { Self };

    /// The fault of a file that can't be opened or created.
    fn of_file(error: &io::Error) -> Self
        ensures { (result ≡ device) ⊎ (result ≡ memory) };
}

impl WorkFault for DecodeFault {
    ghost use Rattle.vp_stream.specs.declared.fault.DecodeFault.{DecodeFault};

    ghost device = { DecodeFault.Device };

    ghost memory = { DecodeFault.Memory };

    fn of_file(error: &io::Error) -> DecodeFault {
        file_fault(error, DecodeFault::Device, DecodeFault::Memory)
    }
}

impl WorkFault for EncodeAllFault {
    ghost use Rattle.vp_encode.specs.declared.report.EncodeAllFault.{EncodeAllFault};

    ghost device = { EncodeAllFault.Device };

    ghost memory = { EncodeAllFault.Memory };

    fn of_file(error: &io::Error) -> EncodeAllFault {
        file_fault(error, EncodeAllFault::Device, EncodeAllFault::Memory)
    }
}

/// Work over an input and an output that are open.
pub(crate) trait Work {
    /// What is told of work that was done.
    type Report: Drop;

    /// Why the work ended before.
    type Fault: WorkFault;

    /// What is done to the input and to the output.
    ghost does: { Self → Result Self.Report Self.Fault → Side → Side → Side → Side → Type 0 };

    /// Does the work.
    fn over<H: Files + AllocGlobal + Clock + Eprint, R: Read, W: Write>(
        &self,
        outside: &mut Outside<'_, H>,
        input: &mut Counted<R>,
        output: &mut Counted<W>,
    ) -> Result<Self::Report, Self::Fault>
        ensures { does self.now result (read_side R.remaining input.old) (read_side R.remaining input.new)
            (written_side W.contents output.old) (written_side W.contents output.new) };
}

/// Work whose output may be a file.
pub(crate) trait FileWork: Work {
    /// Does the work over an output file, about whose bytes nothing is known.
    fn over_file<H: Files + AllocGlobal + Clock + Eprint, R: Read, F: OpenFile + Write>(
        &self,
        outside: &mut Outside<'_, H>,
        input: &mut Counted<R>,
        file: &mut Witness<Overwrite<F>>,
    ) -> Result<Self::Report, Self::Fault>
        ensures { (a : Side) × (b : Side) × Self.does self.now result
            (read_side R.remaining input.old) (read_side R.remaining input.new) a b };
}

/// Does work over the input of a name: standard input, or a file that is opened.
#[tactic(auto, using(crate::proofs::WorkLemmas::from_stream, crate::proofs::WorkLemmas::from_file, crate::proofs::WorkLemmas::from_none))]
pub(crate) fn over_input<H: Files + AllocGlobal + Clock + Eprint, R: Read, W: Write, T: Work>(
    outside: &mut Outside<'_, H>,
    work: &T,
    from: &str,
    input: &mut Counted<R>,
    output: &mut Counted<W>,
) -> Result<T::Report, T::Fault>
    ensures { WorksFrom T.Fault.device T.Fault.memory from.now (T.does work.now) result
        (read_side R.remaining input.old) (read_side R.remaining input.new)
        (written_side W.contents output.old) (written_side W.contents output.new) }
{
    if from == "-" {
        return work.over(outside, input, output);
    }
    match outside.open_metered(from) {
        Ok(mut file) => {
            let done = work.over(outside, &mut Counted::new(&mut file), output);
            outside.has_read(file.into_witness());
            done
        }
        Err(error) => Err(T::Fault::of_file(&error)),
    }
}

/// Does work over the input of a name, and over the output of a name. The output must not be the input file, because
/// creating it would empty it.
#[tactic(auto, using(crate::proofs::WorkLemmas::from_none))]
pub(crate) fn over_files<H: Files + AllocGlobal + Clock + Eprint, R: Read, W: Write, T: FileWork>(
    outside: &mut Outside<'_, H>,
    work: &T,
    from: &str,
    to: &str,
    input: &mut Counted<R>,
    output: &mut Counted<W>,
) -> Result<T::Report, T::Fault>
    ensures { WorksFrom T.Fault.device T.Fault.memory from.now
        (WorksInto T.Fault.device T.Fault.memory to.now (T.does work.now)) result
        (read_side R.remaining input.old) (read_side R.remaining input.new)
        (written_side W.contents output.old) (written_side W.contents output.new) }
{
    if from != "-" && from == to {
        outside.is_one_file = true;
        return Err(T::Fault::of_file(&io::Error::from(io::ErrorKind::InvalidInput)));
    }
    over_input(outside, &WithOutput { work, to }, from, input, output)
}

/// Work whose output has a name.
#[derive(Drop)]
struct WithOutput<'a, T> {
    work: &'a T,
    to: &'a str,
}

impl<T: FileWork> Work for WithOutput<'_, T> {
    type Report = T::Report;

    type Fault = T::Fault;

    ghost use Rattle.vp_commands.specs.Commands.{WorksInto};

    ghost does = { λ into. WorksInto T.Fault.device T.Fault.memory into.to.now (T.does into.work.now) };

    fn over<H: Files + AllocGlobal + Clock + Eprint, R: Read, W: Write>(
        &self,
        outside: &mut Outside<'_, H>,
        input: &mut Counted<R>,
        output: &mut Counted<W>,
    ) -> Result<T::Report, T::Fault> {
        over_output(outside, self.work, self.to, input, output)
    }
}

// Does work over the output of a name: standard output, or a file that is made.
#[tactic(auto, using(crate::proofs::WorkLemmas::into_stream, crate::proofs::WorkLemmas::into_file, crate::proofs::WorkLemmas::into_none))]
fn over_output<H: Files + AllocGlobal + Clock + Eprint, R: Read, W: Write, T: FileWork>(
    outside: &mut Outside<'_, H>,
    work: &T,
    to: &str,
    input: &mut Counted<R>,
    output: &mut Counted<W>,
) -> Result<T::Report, T::Fault>
    ensures { WorksInto T.Fault.device T.Fault.memory to.now (T.does work.now) result
        (read_side R.remaining input.old) (read_side R.remaining input.new)
        (written_side W.contents output.old) (written_side W.contents output.new) }
{
    if to == "-" {
        return work.over(outside, input, output);
    }
    match outside.make(to) {
        Ok(mut file) => {
            let done = work.over_file(outside, input, &mut file);
            outside.has_written(to, file);
            done
        }
        Err(error) => Err(T::Fault::of_file(&error)),
    }
}
