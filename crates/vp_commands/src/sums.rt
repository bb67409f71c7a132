//! The command `vp8 decode --md5`: MD5 sums of pictures, in place of a file of them.

ghost use Rattle.std.specs.Prelude.{◌≡◌, ◌≤◌, ◌⊎◌};
ghost use Rattle.vp_base.specs.Counted.{counted_contents};
ghost use Rattle.vp_lines.specs.Sums.{PrintsSums};
ghost use Rattle.vp_commands.specs.Commands.{read_side, written_side, IsUnwritten, SumsPictures, SumsRange};

use crate::decode::report_decode;
use crate::outside::Outside;
use crate::range::report_packets;
use crate::unwritten::report_unwritten;
use crate::work::over_input;
use std::io::{Read, Write};
use std::rt::Files;
use std::time::Clock;
use vp_args::{DecodeArgs, DecodeRangeArgs};
use vp_base::Counted;
use vp_lines::{Arrival, Summer, print_sums};

// By which calls a picture is written, given those of a picture as I420.
fn arrival_of(y4m: bool, i420: Arrival) -> Arrival {
    if y4m { Arrival::AfterLine } else { i420 }
}

/// Decodes a file, and prints the sums of its pictures. Returns the exit status.
pub(crate) fn sum_pictures<H: Files + AllocGlobal + Clock + Eprint, R: Read, W: Write, E: Write>(
    outside: &mut Outside<'_, H>,
    decoding: &DecodeArgs<'_>,
    input: &mut Counted<R>,
    output: &mut Counted<W>,
    errors: &mut Counted<E>,
) -> u8
    ensures status { result ≤ 1 }
    ensures does { SumsPictures decoding.now result
        (read_side R.remaining input.old) (read_side R.remaining input.new)
        (written_side W.contents output.old) (written_side W.contents output.new) }
{
    let (each, y4m) = (decoding.md5_each, decoding.y4m);
    let mut summer = Summer::new(outside.alloc(), each, arrival_of(y4m, Arrival::Planes));
    let writer = &mut Counted::new(&mut summer);
    let done = over_input(outside, decoding, decoding.input, input, writer);
    let is_told = done.is_ok();
    let status = report_decode(outside, done, decoding, errors);
    if is_told {
        tell_sums(summer, each, decoding.output, status, output, errors)
    } else {
        status
    }
}

// Prints the sums of pictures. Returns this exit status, or 1 if the output fails.
fn tell_sums<W: Write, E: Write>(
    summer: Summer,
    each: bool,
    name: &str,
    status: u8,
    output: &mut Counted<W>,
    errors: &mut Counted<E>,
) -> u8
    requires { status ≤ 1 }
    ensures status { result ≤ 1 }
    ensures told { ((result ≡ status) × PrintsSums each name.now (counted_contents W.contents output.old)
        (counted_contents W.contents output.new))
        ⊎ IsUnwritten result (written_side W.contents output.old) (written_side W.contents output.new) }
{
    let failures = output.failures();
    match print_sums(summer, each, name, output) {
        Ok(()) => status,
        Err(_) => report_unwritten(failures, output, errors),
    }
}

/// Decodes a range of packets, and prints the sums of their pictures. Returns the exit status.
pub(crate) fn sum_packets<H: Files + AllocGlobal + Clock + Eprint, R: Read, W: Write, E: Write>(
    outside: &mut Outside<'_, H>,
    wanted: &DecodeRangeArgs<'_>,
    input: &mut Counted<R>,
    output: &mut Counted<W>,
    errors: &mut Counted<E>,
) -> u8
    ensures status { result ≤ 1 }
    ensures does { SumsRange wanted.now result
        (read_side R.remaining input.old) (read_side R.remaining input.new)
        (written_side W.contents output.old) (written_side W.contents output.new) }
{
    let (each, y4m) = (wanted.decoding.md5_each, wanted.decoding.y4m);
    let mut summer = Summer::new(outside.alloc(), each, arrival_of(y4m, Arrival::Whole));
    let writer = &mut Counted::new(&mut summer);
    let done = over_input(outside, wanted, wanted.decoding.input, input, writer);
    let is_told = done.is_ok();
    let status = report_packets(outside, done, wanted, errors);
    if is_told {
        tell_sums(summer, each, wanted.decoding.output, status, output, errors)
    } else {
        status
    }
}
