//! Parses the command line.

ghost use Rattle.std.specs.Prelude.{◌≡◌, [], IfErr, IfOk, codes, option_map};
ghost use Rattle.clap.specs.Words.{found_of, rows_of, subcommand_rows_of};
ghost use Rattle.clap.specs.Kinds.{HasKind};
ghost use Rattle.clap.specs.Simple.{subcommand_of};
ghost use Rattle.clap.specs.Walk.{all_of, first_of, one_of, texts};
ghost use Rattle.vp_args.specs.Args.{asked_at, asks_many, encodes, faults_of, parsed_args};
ghost use Rattle.vp_args.specs.Args.{parsed_command, program, serves, turns_of, AreNamed};
ghost use Rattle.vp_args.specs.Args.{IsFlag, IsNoNaming, IsRefusal, IsRefusalFor, IsTaskFor};

use crate::check_args::{CheckArgs, check_task};
use crate::decode_args::{DecodeArgs, DecodeRangeArgs};
use crate::encode_args::{EncodeArgs, EncodeOptions};
use crate::file_limits::FileLimits;
use crate::info_args::{InfoArgs, info_task};
use crate::many_args::{asks_many, serve_many_task};
use crate::numbers::{CACHE, ENCODE_NUMBERS, decimal, number_of, numbers};
use crate::picture_args::PictureArgs;
use crate::picture_options::picture_task;
use crate::range_args::decode_task;
use crate::serve_args::{NamedFile, ServeArgs, ServeManyArgs};
use crate::words::program;
use clap::{ArgMatches, Error};
use std::alloc::{AllocError, Global};

/// The task that the arguments ask for. A file named `-` is standard input or output.
#[derive(Drop)]
pub enum Task<'a> {
    /// Decode a file, and write its pictures, or print their MD5 sum.
    Decode(DecodeArgs<'a>),
    /// Decode a file, and write the pictures of a range of packets.
    DecodeRange(DecodeRangeArgs<'a>),
    /// Encode a file of pictures.
    Encode(EncodeArgs<'a>),
    /// Print the contents of files.
    Info(InfoArgs<'a>),
    /// Check files for damage.
    Check(CheckArgs<'a>),
    /// Write the picture of a packet to a file.
    Picture(PictureArgs<'a>),
    /// Serve streams over HTTP.
    Serve(ServeArgs<'a>),
    /// Serve streams over HTTP to many connections at once.
    ServeMany(ServeManyArgs<'a>),
    /// No such task.
    Nothing,
}

/// The reasons for which the arguments are refused.
#[derive(Drop)]
pub enum Refusal {
    /// The error has a message, or is a request for help or the version.
    ClapError(Error),
    /// An operand, or the value of an option, is invalid. The text says what is expected.
    Value(&'static str),
}

impl From<Error> for Refusal {
    ghost use Rattle.std.specs.Prelude.{◌≡◌};
    ghost use Rattle.vp_args.specs.declared.args.Refusal.{Refusal};

    ghost from_gives = { λ error refusal. refusal ≡ Refusal.ClapError error };

    fn from(error: Error) -> Refusal {
        Refusal::ClapError(error)
    }
}

impl From<AllocError> for Refusal {
    ghost use Rattle.vp_args.specs.Args.{IsForMemory};

    ghost from_gives = { λ _ refusal. IsForMemory refusal };

    fn from(error: AllocError) -> Refusal {
        Refusal::ClapError(Error::from(error))
    }
}

/// Parses the arguments; the first is the program's name.
pub fn read_args<'a>(alloc: Global, words: &'a [&'a str]) -> Result<Task<'a>, Refusal>
    ensures plan { IfOk result (λ plan. (faults_of (texts words.now) ≡ [])
        × IsTaskFor (parsed_args (texts words.now)) plan) }
    ensures refusal { IfErr result (IsRefusalFor (texts words.now)) }
{
    let matches = parse_args(alloc, words)?;
    read_matches(alloc, &matches)
}

fn parse_args<'a>(alloc: Global, words: &'a [&'a str]) -> Result<ArgMatches<'a>, Error>
    ensures found { IfOk result (λ m. (faults_of (texts words.now) ≡ [])
        × (subcommand_rows_of m ≡ subcommand_of (program (asks_many (texts words.now))) (texts words.now))) }
    ensures fault { IfErr result (HasKind (faults_of (texts words.now))) }
{
    program(alloc, asks_many(words))?.try_get_matches_from(words)
}

// Converts parsed arguments into a task.
fn read_matches<'a>(alloc: Global, matches: &ArgMatches<'a>) -> Result<Task<'a>, Refusal>
    ensures plan { IfOk result (IsTaskFor (parsed_command (subcommand_rows_of matches.now))) }
    ensures refusal { IfErr result (IsRefusal (parsed_command (subcommand_rows_of matches.now))) }
{
    match matches.subcommand() {
        Some((name, found)) => named_task(alloc, name, found),
        None => Ok(Task::Nothing),
    }
}

// Converts the arguments of a subcommand into a task.
fn named_task<'a>(alloc: Global, name: &str, found: &ArgMatches<'a>) -> Result<Task<'a>, Refusal>
    ensures plan { IfOk result (IsTaskFor (asked_at name.now (rows_of (found_of found.now)))) }
    ensures refusal { IfErr result (IsRefusal (asked_at name.now (rows_of (found_of found.now)))) }
{
    match name {
        "decode" => decode_task(found),
        "encode" => encode_task(found),
        "info" => info_task(alloc, found),
        "check" => check_task(alloc, found),
        "picture" => picture_task(found),
        "serve" => serve_task(alloc, found),
        _ => Ok(Task::Nothing),
    }
}

// Returns the first value of an argument.
pub(crate) fn text_of<'a>(found: &ArgMatches<'a>, name: &str) -> Option<&'a str>
    ensures { option_map (λ t. t.now) result ≡ first_of name.now (rows_of (found_of found.now)) }
{
    found.get_str(name)
}

// Returns all values of an argument.
pub(crate) fn texts_of<'a, 'b>(found: &'b ArgMatches<'a>, name: &str) -> Option<&'b [&'a str]>
    ensures { option_map (λ all. texts all.now) result ≡ all_of name.now (rows_of (found_of found.now)) }
{
    found.get_strs(name)
}

// Returns whether a flag is set.
pub(crate) fn is_set(found: &ArgMatches<'_>, name: &str) -> bool
    ensures { IsFlag (one_of name.now (rows_of (found_of found.now))) result }
{
    found.get_flag(name)
}

fn encode_task<'a>(found: &ArgMatches<'a>) -> Result<Task<'a>, Refusal>
    ensures plan { IfOk result (IsTaskFor (asked_at (codes "encode") (rows_of (found_of found.now)))) }
    ensures refusal { IfErr result (IsRefusal (asked_at (codes "encode") (rows_of (found_of found.now)))) }
{
    match (text_of(found, "IN"), text_of(found, "OUT")) {
        (Some(input), Some(output)) => encode_task_args(found, input, output),
        _ => Ok(Task::Nothing),
    }
}

fn encode_task_args<'a>(
    found: &ArgMatches<'a>,
    input: &'a str,
    output: &'a str,
) -> Result<Task<'a>, Refusal>
    ensures plan { IfOk result (IsTaskFor (encodes (rows_of (found_of found.now)) input.entry.now output.entry.now)) }
    ensures refusal { IfErr result (IsRefusal (encodes (rows_of
        (found_of found.now)) input.entry.now output.entry.now)) }
{
    let [
        qi,
        level,
        sharpness,
        key_every,
        golden_every,
        range,
        partitions,
        packets,
        pixels,
    ] = numbers::<9>(found, ENCODE_NUMBERS.as_slice())?;
    Ok(Task::Encode(EncodeArgs {
        options: EncodeOptions {
            qi: qi as u8,
            level: level as u8,
            sharpness: sharpness as u8,
            simple: is_set(found, "simple"),
            key_every,
            golden_every,
            range: range as u8,
            subpel: is_set(found, "subpel"),
            partitions: partitions as u8,
        },
        progress: is_set(found, "progress"),
        live: is_set(found, "live"),
        limits: FileLimits { packets, pixels },
        input,
        output,
    }))
}

fn serve_task<'a>(alloc: Global, found: &ArgMatches<'a>) -> Result<Task<'a>, Refusal>
    ensures plan { IfOk result (IsTaskFor (asked_at (codes "serve") (rows_of (found_of found.now)))) }
    ensures refusal { IfErr result (IsRefusal (asked_at (codes "serve") (rows_of (found_of found.now)))) }
{
    match text_of(found, "max-connections") {
        Some(_) => serve_many_task(alloc, found),
        None => serve_turns_task(alloc, found),
    }
}

// The task of serving one connection after another.
fn serve_turns_task<'a>(alloc: Global, found: &ArgMatches<'a>) -> Result<Task<'a>, Refusal>
    ensures plan { IfOk result (IsTaskFor (turns_of (rows_of (found_of found.now)))) }
    ensures refusal { IfErr result (IsRefusal (turns_of (rows_of (found_of found.now)))) }
{
    match (
        text_of(found, "listen"),
        text_of(found, "connections"),
        texts_of(found, "NAME=FILE"),
    ) {
        (Some(listen), Some(connections), Some(operands)) => {
            serve_task_args(alloc, found, listen, connections, operands)
        }
        _ => Ok(Task::Nothing),
    }
}

fn serve_task_args<'a>(
    alloc: Global,
    found: &ArgMatches<'a>,
    listen: &'a str,
    connections: &str,
    operands: &[&'a str],
) -> Result<Task<'a>, Refusal>
    ensures plan { IfOk result (IsTaskFor (serves (rows_of (found_of found.now)) listen.entry.now connections.now
        (texts operands.now))) }
    ensures refusal { IfErr result (IsRefusal (serves (rows_of (found_of found.now)) listen.entry.now connections.now
        (texts operands.now))) }
{
    let Some(connections) = decimal(connections) else {
        return Err(Refusal::Value("--connections is a decimal number"));
    };
    let cache = number_of(found, &CACHE)?;
    Ok(Task::Serve(ServeArgs {
        listen,
        connections,
        cache,
        show_address: is_set(found, "show-address"),
        webp: is_set(found, "webp"),
        streams: named_files(alloc, operands)?,
    }))
}

// Splits operands of the form `NAME=FILE` at the first `=`.
pub(crate) fn named_files<'a>(
    alloc: Global,
    operands: &[&'a str],
) -> Result<Vec<NamedFile<'a>>, Refusal>
    ensures named { IfOk result (λ streams. AreNamed (texts operands.now) streams.items) }
    ensures refusal { IfErr result (IsNoNaming (texts operands.now)) }
{
    let mut streams = Vec::new(alloc);
    for operand in operands {
        let Some((name, file)) = operand.split_once('=') else {
            return Err(Refusal::Value("an operand of serve is NAME=FILE"));
        };
        if streams.push(NamedFile { name, file }).is_err() {
            return Err(Refusal::from(AllocError));
        }
    }
    Ok(streams)
}
