//! The lines of files, in each of their forms.

ghost use Rattle.std.specs.Prelude.{◌≡◌, codes, OnOk};
ghost use Rattle.std.specs.Io.KnownBytes.{Appends};
ghost use Rattle.vp_base.specs.Counted.{counted_contents};
ghost use Rattle.vp_lines.specs.CheckLines.{check_text, counts_line, file_text, has_total, is_all_well, is_well};
ghost use Rattle.vp_lines.specs.CheckLines.{is_whole, total_text};

use crate::counts::Counts;
use crate::file_names::print_file_name;
use crate::lines::{PacketLine, print_document, print_fault, print_listing, print_packets};
use crate::styles::LineStyle;
use std::alloc::Global;
use std::io;
use std::io::Write;
use vp_base::{Counted, Device, put_all};
use vp_check::Checked;
use vp_stream::DecodeFault;

/// Whether the sums are printed.
pub fn has_total(style: LineStyle) -> bool
    ensures { result ≡ has_total style }
{
    match style {
        LineStyle::Counted { .. } => true,
        LineStyle::Packets { .. } | LineStyle::Json => false,
    }
}

/// Returns whether nothing is wrong with a file, as far as the lines tell.
pub fn is_well(style: LineStyle, done: &Result<Checked, DecodeFault>) -> bool
    ensures { result ≡ is_well style done.now }
{
    match style {
        LineStyle::Counted { .. } => is_all_well(done),
        LineStyle::Packets { .. } | LineStyle::Json => is_whole(done),
    }
}

// Returns whether nothing is wrong with a file.
fn is_all_well(done: &Result<Checked, DecodeFault>) -> bool
    ensures { result ≡ is_all_well done.now }
{
    match done {
        Ok(checked) => checked.is_sound(),
        Err(_) => false,
    }
}

// Returns whether a file has no fault of its own.
fn is_whole(done: &Result<Checked, DecodeFault>) -> bool
    ensures { result ≡ is_whole done.now }
{
    match done {
        Ok(checked) => checked.fault.is_none(),
        Err(_fault) => false,
    }
}

/// Writes the lines of a file at once. If memory for that is refused, they are written one by one.
pub fn put_done<W: Write>(
    alloc: Global,
    name: &str,
    done: &Result<Checked, DecodeFault>,
    style: LineStyle,
    output: &mut Counted<W>,
) -> Result<(), Device>
    ensures { OnOk result (Appends (counted_contents W.contents output.old) (counted_contents W.contents output.new)
        (file_text style name.now done.now)) }
{
    let mut text = Vec::new(alloc);
    if print_done(name, done, style, &mut text).is_ok() {
        return put_all(output, &text);
    }
    match print_done(name, done, style, output) {
        Ok(()) => Ok(()),
        Err(_) => Err(Device),
    }
}

/// Writes the line of the sums, if they are printed and there are several files.
pub fn put_total<W: Write>(
    style: LineStyle,
    files: usize,
    total: &Counts,
    output: &mut Counted<W>,
) -> Result<(), Device>
    ensures { OnOk result (Appends (counted_contents W.contents output.old) (counted_contents W.contents output.new)
        (total_text style files total.now)) }
{
    if !has_total(style) || files < 2 {
        return Ok(());
    }
    match print_counts("total", total, output) {
        Ok(()) => Ok(()),
        Err(_) => Err(Device),
    }
}

// Prints the text of a file.
fn print_done<W: Write>(
    name: &str,
    done: &Result<Checked, DecodeFault>,
    style: LineStyle,
    output: &mut W,
) -> io::Result<()>
    ensures { OnOk result (Appends (W.contents output.old) (W.contents output.new)
        (file_text style name.now done.now)) }
{
    match style {
        LineStyle::Counted { verbose } => print_check(name, done, verbose, output),
        LineStyle::Packets { long, named } => print_listing(long, named, name, done, output),
        LineStyle::Json => print_document(name, done, output),
    }
}

// Prints the numbers of a file's packets, after its damage if that is asked for.
fn print_check<W: Write>(
    name: &str,
    done: &Result<Checked, DecodeFault>,
    verbose: bool,
    output: &mut W,
) -> io::Result<()>
    ensures { OnOk result (Appends (W.contents output.old) (W.contents output.new)
        (check_text verbose name.now done.now)) }
{
    match done {
        Ok(checked) => {
            if verbose {
                print_packets(PacketLine::Damage(name), checked.packets.as_slice(), output)?;
            }
            print_counts(name, &Counts::of(done), output)?;
            print_fault(name, checked.fault, output)
        }
        Err(fault) => {
            print_file_name(name, output)?;
            writeln!(output, ": {fault}")
        }
    }
}

// Prints the numbers of packets.
fn print_counts<W: Write>(name: &str, counts: &Counts, output: &mut W) -> io::Result<()>
    ensures { OnOk result (Appends (W.contents output.old) (W.contents output.new) (counts_line name.now counts.now)) }
{
    let Counts {
        packets,
        shown,
        hidden,
        faults,
        corrupt,
    } = *counts;
    print_file_name(name, output)?;
    writeln!(
        output,
        ": {packets} packets, {shown} shown, {hidden} hidden, {faults} faults, {corrupt} corrupt"
    )
}
