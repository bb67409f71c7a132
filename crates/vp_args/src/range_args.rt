//! The options of `vp8 decode`: which pictures are written.

ghost use Rattle.std.specs.Prelude.{◌≡◌, ◌≤◌, ◌^◌, IfErr, IfOk, IfSome, None, Ok, codes};
ghost use Rattle.clap.specs.Words.{found_of, rows_of};
ghost use Rattle.clap.specs.Walk.{first_of};
ghost use Rattle.vp_args.specs.Args.{asked_at, decoding_of, named_output, AreMiswanted, AreSums, AreWanted};
ghost use Rattle.vp_args.specs.Args.{HasNoOutput, IsDecimal, IsDecodeFor, IsNoDecimal, IsNoDecoding, IsRefusal};
ghost use Rattle.vp_args.specs.Args.{IsNoSpan, IsInvalidValue, IsSpan, IsTaskFor};

use crate::args::{Refusal, Task, is_set, text_of};
use crate::decode_args::{DecodeArgs, DecodeRangeArgs};
use crate::numbers::{decimal, file_limits};
use clap::ArgMatches;

/// The task of decoding a file: all its pictures, or those of a range of packets.
pub(crate) fn decode_task<'a>(found: &ArgMatches<'a>) -> Result<Task<'a>, Refusal>
    ensures plan { IfOk result (IsTaskFor (asked_at (codes "decode") (rows_of (found_of found.now)))) }
    ensures refusal { IfErr result (IsRefusal (asked_at (codes "decode") (rows_of (found_of found.now)))) }
{
    match text_of(found, "IN") {
        Some(input) => decode_task_args(found, input, output_of(found)),
        None => Ok(Task::Nothing),
    }
}

// Returns the file of pictures; `-` if it is not named.
fn output_of<'a>(found: &ArgMatches<'a>) -> &'a str
    ensures { result.now ≡ named_output (first_of (codes "OUT") (rows_of (found_of found.now))) }
{
    match text_of(found, "OUT") {
        Some(output) => output,
        None => "-",
    }
}

fn decode_task_args<'a>(
    found: &ArgMatches<'a>,
    input: &'a str,
    output: &'a str,
) -> Result<Task<'a>, Refusal>
    ensures plan { IfOk result (IsTaskFor (decoding_of (rows_of (found_of found.now))
        (first_of (codes "frame") (rows_of (found_of found.now)))
        (first_of (codes "frames") (rows_of (found_of found.now))) input.entry.now output.entry.now)) }
    ensures refusal { IfErr result (IsRefusal (decoding_of (rows_of (found_of found.now))
        (first_of (codes "frame") (rows_of (found_of found.now)))
        (first_of (codes "frames") (rows_of (found_of found.now))) input.entry.now output.entry.now)) }
{
    let packets = wanted(found)?;
    let decoding = decode_args(found, input, output)?;
    match packets {
        Some((first, last)) => Ok(Task::DecodeRange(DecodeRangeArgs {
            decoding,
            first,
            last,
        })),
        None => Ok(Task::Decode(decoding)),
    }
}

// Returns what is made of the pictures.
fn decode_args<'a>(
    found: &ArgMatches<'a>,
    input: &'a str,
    output: &'a str,
) -> Result<DecodeArgs<'a>, Refusal>
    ensures decoding { IfOk result (IsDecodeFor (rows_of (found_of found.now)) input.entry.now output.entry.now) }
    ensures refusal { IfErr result (λ r. IsInvalidValue r × IsNoDecoding (rows_of (found_of found.now))) }
{
    let limits = file_limits(found)?;
    let (md5, md5_each) = sums(found)?;
    Ok(DecodeArgs {
        y4m: is_set(found, "y4m"),
        md5,
        md5_each,
        progress: is_set(found, "progress"),
        limits,
        input,
        output,
    })
}

// Returns which sums are printed. If none is, the file of pictures has to be named.
fn sums(found: &ArgMatches<'_>) -> Result<(bool, bool), Refusal>
    ensures sums { IfOk result (λ s. AreSums (rows_of (found_of found.now)) s.0 s.1) }
    ensures refusal { IfErr result (λ r. IsInvalidValue r × HasNoOutput (rows_of (found_of found.now))) }
{
    let (md5, md5_each) = (is_set(found, "md5"), is_set(found, "md5-each"));
    if md5 || md5_each || text_of(found, "OUT").is_some() {
        Ok((md5, md5_each))
    } else {
        Err(Refusal::Value("give OUT, or --md5 for the sum of the pictures"))
    }
}

// Returns the first and the last of the packets that an option names, if one does.
fn wanted(found: &ArgMatches<'_>) -> Result<Option<(u32, u32)>, Refusal>
    ensures some { IfOk result (λ packets. IfSome packets (λ ends.
        AreWanted (first_of (codes "frame") (rows_of (found_of found.now)))
        (first_of (codes "frames") (rows_of (found_of found.now))) ends.0 ends.1 × (ends.0 ≤ ends.1))) }
    ensures none { result ≡ Ok None → (first_of (codes "frame") (rows_of (found_of found.now)) ≡ None)
        × (first_of (codes "frames") (rows_of (found_of found.now)) ≡ None) }
    ensures refusal { IfErr result (λ r. IsInvalidValue r
        × AreMiswanted (first_of (codes "frame") (rows_of (found_of found.now)))
        (first_of (codes "frames") (rows_of (found_of found.now)))) }
{
    match (text_of(found, "frame"), text_of(found, "frames")) {
        (None, None) => Ok(None),
        (Some(frame), None) => Ok(Some(one_packet(frame)?)),
        (None, Some(frames)) => Ok(Some(some_packets(frames)?)),
        (Some(_), Some(_)) => Err(Refusal::Value("give --frame or --frames, not both")),
    }
}

// Parses the number of a packet, which is the first and the last.
fn one_packet(frame: &str) -> Result<(u32, u32), Refusal>
    ensures ends { IfOk result (λ ends. IsDecimal frame.now ends.0 × (ends.1 ≡ ends.0)) }
    ensures refusal { IfErr result (λ r. IsInvalidValue r × IsNoDecimal (2 ^ 32) frame.now) }
{
    match decimal(frame) {
        Some(number) => Ok((number, number)),
        None => Err(Refusal::Value("--frame is a decimal number")),
    }
}

// Parses the numbers of the first and the last packet.
fn some_packets(frames: &str) -> Result<(u32, u32), Refusal>
    ensures ends { IfOk result (λ ends. IsSpan frames.now ends.0 ends.1) }
    ensures refusal { IfErr result (λ r. IsInvalidValue r × IsNoSpan frames.now) }
{
    match span(frames) {
        Some(ends) => Ok(ends),
        None => Err(Refusal::Value(
            "--frames is A-B: two decimal numbers, the first not above the second",
        )),
    }
}

// Parses two decimal numbers with a `-` between them, the first not above the second.
fn span(text: &str) -> Option<(u32, u32)>
    ensures some { IfSome result (λ ends. IsSpan text.now ends.0 ends.1) }
    ensures none { result ≡ None → IsNoSpan text.now }
{
    let (first, last) = text.split_once('-')?;
    let (first, last) = (decimal(first)?, decimal(last)?);
    if first <= last {
        Some((first, last))
    } else {
        None
    }
}
