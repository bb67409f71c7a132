//! The arguments of `vp8 check`.

ghost use Rattle.std.specs.Prelude.{IfErr, IfOk, codes};
ghost use Rattle.clap.specs.Words.{found_of, rows_of};
ghost use Rattle.vp_args.specs.Args.{asked_at, IsRefusal, IsTaskFor};

use crate::args::{Refusal, Task, is_set, texts_of};
use crate::file_limits::FileLimits;
use crate::numbers::file_limits;
use clap::ArgMatches;
use std::alloc::Global;

/// The arguments of `vp8 check`.
#[derive(Drop)]
pub struct CheckArgs<'a> {
    /// Whether a line is printed for each packet with a fault or damage.
    pub verbose: bool,
    /// Whether progress is reported.
    pub progress: bool,
    /// The greatest files that are read.
    pub limits: FileLimits,
    /// The files, each an IVF file, or `-` for standard input.
    pub files: Vec<&'a str>,
}

/// The task of checking files.
pub(crate) fn check_task<'a>(alloc: Global, found: &ArgMatches<'a>) -> Result<Task<'a>, Refusal>
    ensures plan { IfOk result (IsTaskFor (asked_at (codes "check") (rows_of (found_of found.now)))) }
    ensures refusal { IfErr result (IsRefusal (asked_at (codes "check") (rows_of (found_of found.now)))) }
{
    let Some(files) = texts_of(found, "IN") else {
        return Ok(Task::Nothing);
    };
    let limits = file_limits(found)?;
    Ok(Task::Check(CheckArgs {
        verbose: is_set(found, "verbose"),
        progress: is_set(found, "progress"),
        limits,
        files: files.to_vec(alloc)?,
    }))
}
