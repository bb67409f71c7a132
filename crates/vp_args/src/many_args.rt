//! The options of `vp8 serve` for many connections at once.

ghost use Rattle.std.specs.Prelude.{◌≡◌, IfErr, IfOk, false, true};
ghost use Rattle.std.specs.List.{before_first, list_any};
ghost use Rattle.clap.specs.Words.{found_of, rows_of};
ghost use Rattle.clap.specs.Walk.{texts};
ghost use Rattle.vp_args.specs.Args.{asks_many, is_equals, is_input, is_many_option, many_of, serves_many, AreNamed};
ghost use Rattle.vp_args.specs.Args.{IsRefusal, IsTaskFor};
ghost use Rattle.vp_args.specs.Tables.{IsNoFollowing};

use crate::args::{Refusal, Task, is_set, named_files, text_of, texts_of};
use crate::numbers::{SERVE_NUMBERS, numbers};
use crate::serve_args::{NamedFile, ServeArgs, ServeManyArgs};
use clap::ArgMatches;
use std::alloc::Global;

// The options for many connections at once.
const MANY_OPTIONS: &[&str] = &[
    "--max-connections",
    "--idle-timeout",
    "--cursors",
    "--follow",
    "--poll-interval",
    "--access-log",
];

/// Whether an argument before `--` is an option for many connections at once.
#[tactic(auto, unfolding(crate::specs::Args::asks_many))]
pub(crate) fn asks_many(words: &[&str]) -> bool
    ensures { result ≡ asks_many (texts words.now) }
{
    for word in words {
        if *word == "--" {
            return false;
        }
        if is_many_option(word) {
            return true;
        }
    }
    false
}

// Whether an argument is an option for many connections at once, with its value or without.
fn is_many_option(word: &str) -> bool
    ensures { result ≡ is_many_option word.now }
{
    MANY_OPTIONS.contains(&option_name(word))
}

// What comes before the first `=`.
fn option_name(word: &str) -> &str
    ensures { result.now ≡ before_first is_equals word.now }
{
    match word.split_once('=') {
        Some((name, _)) => name,
        None => word,
    }
}

/// The task of serving many connections at once.
pub(crate) fn serve_many_task<'a>(
    alloc: Global,
    found: &ArgMatches<'a>,
) -> Result<Task<'a>, Refusal>
    ensures plan { IfOk result (IsTaskFor (many_of (rows_of (found_of found.now)))) }
    ensures refusal { IfErr result (IsRefusal (many_of (rows_of (found_of found.now)))) }
{
    match (text_of(found, "listen"), texts_of(found, "NAME=FILE")) {
        (Some(listen), Some(operands)) => serve_many_args(alloc, found, listen, operands),
        _ => Ok(Task::Nothing),
    }
}

fn serve_many_args<'a>(
    alloc: Global,
    found: &ArgMatches<'a>,
    listen: &'a str,
    operands: &[&'a str],
) -> Result<Task<'a>, Refusal>
    ensures plan { IfOk result (IsTaskFor (serves_many (rows_of (found_of found.now)) listen.entry.now
        (texts operands.now))) }
    ensures refusal { IfErr result (IsRefusal (serves_many (rows_of (found_of found.now)) listen.entry.now
        (texts operands.now))) }
{
    let [
        max_connections,
        idle_timeout,
        poll_interval,
        cursors,
        connections,
        cache,
    ] = numbers::<6>(found, SERVE_NUMBERS.as_slice())?;
    let follow = is_set(found, "follow");
    let streams = followed_files(alloc, follow, operands)?;
    Ok(Task::ServeMany(ServeManyArgs {
        service: ServeArgs {
            listen,
            connections,
            cache,
            show_address: is_set(found, "show-address"),
            webp: is_set(found, "webp"),
            streams,
        },
        max_connections,
        idle_timeout,
        follow,
        poll_interval,
        cursors,
        access_log: is_set(found, "access-log"),
    }))
}

// Splits operands of the form `NAME=FILE`; no file that is followed is standard input.
fn followed_files<'a>(
    alloc: Global,
    follow: bool,
    operands: &[&'a str],
) -> Result<Vec<NamedFile<'a>>, Refusal>
    ensures named { IfOk result (λ streams. AreNamed (texts operands.now) streams.items
        × (follow ≡ true → list_any is_input streams.items ≡ false)) }
    ensures refusal { IfErr result (IsNoFollowing follow (texts operands.now)) }
{
    let streams = named_files(alloc, operands)?;
    if follow && has_input(&streams) {
        return Err(Refusal::Value(
            "with --follow the file of an operand is not -, which can't be read while others are served",
        ));
    }
    Ok(streams)
}

// Whether a file is standard input.
fn has_input(streams: &[NamedFile<'_>]) -> bool
    ensures { result ≡ list_any is_input streams.now }
{
    streams.iter().any(|stream| stream.file == "-")
}
