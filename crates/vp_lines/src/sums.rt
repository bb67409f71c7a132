//! The lines of MD5 sums, as md5sum prints them.

ghost use Rattle.std.specs.Prelude.{◌≡◌, ℕ, List, OnOk, length};
ghost use Rattle.std.specs.Io.KnownBytes.{Appends};
ghost use Rattle.vp_base.specs.Counted.{counted_contents};
ghost use Rattle.vp_lines.specs.Sums.{picture_line, picture_lines, sum_line, PrintsSums};

use crate::summer::Summer;
use std::io::Write;
use std::{io, str};
use vp_base::{Counted, Device};

/// Prints the line of the sum of all, and before it, if that is asked for, one for each picture.
#[tactic(auto, using(crate::proofs::SumLemmas::each_printed, crate::proofs::SumLemmas::all_printed))]
pub fn print_sums<W: Write>(
    summer: Summer,
    each: bool,
    name: &str,
    output: &mut Counted<W>,
) -> Result<(), Device>
    ensures { OnOk result (PrintsSums each name.now (counted_contents W.contents output.old)
        (counted_contents W.contents output.new)) }
{
    let (pictures, all) = summer.into_digits();
    if each {
        print_pictures(&pictures, output)?;
    }
    print_all(&all, name, output)
}

// Prints the line of each picture.
fn print_pictures<W: Write>(pictures: &[[u8; 32]], output: &mut Counted<W>) -> Result<(), Device>
    ensures { OnOk result ((digits : List (List ℕ)) × (length digits ≡ length pictures.now)
        × Appends (counted_contents W.contents output.old) (counted_contents W.contents output.new)
        (picture_lines 0 digits)) }
{
    for (number, digits) in pictures.iter().enumerate() {
        print_picture(digits, number, output)?;
    }
    Ok(())
}

// Prints the line of a picture.
fn print_picture<W: Write>(
    digits: &[u8],
    number: usize,
    output: &mut Counted<W>,
) -> Result<(), Device>
    ensures { OnOk result ((text : List ℕ) × Appends (counted_contents W.contents output.old)
        (counted_contents W.contents output.new) (picture_line number text)) }
{
    let Ok(text) = str::from_utf8(digits) else {
        return Err(Device);
    };
    match write_picture(text, number, output) {
        Ok(()) => Ok(()),
        Err(_) => Err(Device),
    }
}

fn write_picture<W: Write>(text: &str, number: usize, output: &mut W) -> io::Result<()>
    ensures { OnOk result (Appends (W.contents output.old) (W.contents output.new) (picture_line number text.now)) }
{
    writeln!(output, "{text}  picture {number}")
}

// Prints the line of the sum of all.
fn print_all<W: Write>(digits: &[u8], name: &str, output: &mut Counted<W>) -> Result<(), Device>
    ensures { OnOk result ((text : List ℕ) × Appends (counted_contents W.contents output.old)
        (counted_contents W.contents output.new) (sum_line text name.now)) }
{
    let Ok(text) = str::from_utf8(digits) else {
        return Err(Device);
    };
    match write_sum(text, name, output) {
        Ok(()) => Ok(()),
        Err(_) => Err(Device),
    }
}

fn write_sum<W: Write>(text: &str, name: &str, output: &mut W) -> io::Result<()>
    ensures { OnOk result (Appends (W.contents output.old) (W.contents output.new) (sum_line text.now name.now)) }
{
    writeln!(output, "{text}  {name}")
}
