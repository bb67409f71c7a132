//! The options of `vp8 picture`: which picture is written, and how.

ghost use Rattle.std.specs.Prelude.{◌≡◌, ◌^◌, IfErr, IfOk, Some, None, codes};
ghost use Rattle.clap.specs.Words.{found_of, rows_of};
ghost use Rattle.clap.specs.Walk.{first_of};
ghost use Rattle.vp_scale.specs.Scale.{factor_of};
ghost use Rattle.vp_args.specs.Args.{asked_at, form_by_name, has_end, pictures, IsMisnumbered, IsRefusal};
ghost use Rattle.vp_args.specs.Args.{IsNoScale, IsNumber, IsInvalidValue, IsPacket, IsTaskFor};

use crate::args::{Refusal, Task, text_of};
use crate::numbers::{PICTURE_QI, count, decimal, file_limits, number_of};
use crate::picture_args::{PictureArgs, StillForm};
use clap::ArgMatches;
use vp_scale::Scale;

/// The task of writing a picture.
pub(crate) fn picture_task<'a>(found: &ArgMatches<'a>) -> Result<Task<'a>, Refusal>
    ensures plan { IfOk result (IsTaskFor (asked_at (codes "picture") (rows_of (found_of found.now)))) }
    ensures refusal { IfErr result (IsRefusal (asked_at (codes "picture") (rows_of (found_of found.now)))) }
{
    match (text_of(found, "IN"), text_of(found, "OUT")) {
        (Some(input), Some(output)) => picture_task_args(found, input, output),
        _ => Ok(Task::Nothing),
    }
}

fn picture_task_args<'a>(
    found: &ArgMatches<'a>,
    input: &'a str,
    output: &'a str,
) -> Result<Task<'a>, Refusal>
    ensures plan { IfOk result (IsTaskFor (pictures (rows_of (found_of found.now)) input.entry.now output.entry.now)) }
    ensures refusal { IfErr result (IsRefusal (pictures (rows_of
        (found_of found.now)) input.entry.now output.entry.now)) }
{
    let packet = packet(found)?;
    let scale = scale(found)?;
    let qi = number_of(found, PICTURE_QI)?;
    let limits = file_limits(found)?;
    let form = form(output)?;
    Ok(Task::Picture(PictureArgs {
        packet,
        scale,
        qi: qi as u8,
        limits,
        form,
        input,
        output,
    }))
}

// Returns the number of the wanted packet, if one is given.
fn packet(found: &ArgMatches<'_>) -> Result<Option<u32>, Refusal>
    ensures number { IfOk result (IsPacket (first_of (codes "packet") (rows_of (found_of found.now)))) }
    ensures refusal { IfErr result (λ r. IsInvalidValue r
        × IsMisnumbered (2 ^ 32) (first_of (codes "packet") (rows_of (found_of found.now)))) }
{
    let Some(text) = text_of(found, "packet") else {
        return Ok(None);
    };
    match decimal(text) {
        Some(number) => Ok(Some(number)),
        None => Err(Refusal::Value("--packet is a decimal number")),
    }
}

// Returns what the picture's sides are divided by.
fn scale(found: &ArgMatches<'_>) -> Result<Scale, Refusal>
    ensures factor { IfOk result (λ scale. IsNumber (first_of (codes "scale") (rows_of (found_of found.now))) 1
        (factor_of scale)) }
    ensures refusal { IfErr result (λ r. IsInvalidValue r
        × IsNoScale (first_of (codes "scale") (rows_of (found_of found.now)))) }
{
    match count(found, "scale", 1) {
        Some(1) => Ok(Scale::Full),
        Some(2) => Ok(Scale::Half),
        Some(4) => Ok(Scale::Quarter),
        Some(8) => Ok(Scale::Eighth),
        _ => Err(Refusal::Value("--scale is 1, 2, 4 or 8")),
    }
}

// Returns the form of a file by its name.
fn form(output: &str) -> Result<StillForm, Refusal>
    ensures form { IfOk result (λ form. form_by_name output.now ≡ Some form) }
    ensures refusal { IfErr result (λ r. IsInvalidValue r × (form_by_name output.now ≡ None)) }
{
    match form_by_name(output) {
        Some(form) => Ok(form),
        None => Err(Refusal::Value("the name of OUT ends in .webp, .y4m, .i420 or .ppm")),
    }
}

fn form_by_name(output: &str) -> Option<StillForm>
    ensures { result ≡ form_by_name output.now }
{
    if has_end(output, ".webp") {
        Some(StillForm::WebP)
    } else if has_end(output, ".y4m") {
        Some(StillForm::Y4m)
    } else if has_end(output, ".i420") {
        Some(StillForm::I420)
    } else if has_end(output, ".ppm") {
        Some(StillForm::Ppm)
    } else {
        None
    }
}

#[tactic(auto, unfolding(crate::specs::Args::has_end))]
fn has_end(name: &str, end: &str) -> bool
    ensures { result ≡ has_end name.now end.now }
{
    name.as_bytes().ends_with(end.as_bytes())
}
