//! Prints the contents of a file, and the faults of its packets. Lines are gathered, and written many at once.

ghost use Rattle.std.specs.Prelude.{◌≡◌, ◌<◌, ◌+◌, ◌≤◌, length, true, OnOk};
ghost use Rattle.std.specs.Io.KnownBytes.{Appends};
ghost use Rattle.vp_base.specs.Counted.{counted_contents};
ghost use Rattle.vp_stream.specs.Texts.{head_lines};
ghost use Rattle.vp_lines.specs.FaultLines.{fault_line, fault_lines};
ghost use Rattle.vp_lines.specs.Listing.{head_text, lines_from, packet_lines, packet_line, survey_text};

use std::alloc::Global;
use std::io::Write;
use std::{fmt, io};
use vp_base::{Counted, Device, put_all};
use vp_decode::Outcome;
use vp_head::PacketFault;
use vp_ivf::IvfHead;
use vp_stream::Survey;

// The greatest number of lines that are written at once. A line has at most 64 bytes.
const GATHERED: usize = 1_024;

// Returns memory for lines. If it is refused, there is none, and lines are then written one by one.
fn room_for_lines(alloc: Global) -> Vec<u8> {
    match Vec::with_capacity(alloc, 64 * GATHERED) {
        Ok(text) => text,
        Err(_) => Vec::new(alloc),
    }
}

/// Prints a survey: the size and the rate if the head is valid, the number of packets, and a line for each packet. The
/// line has the packet's number, its length in bytes, and `Shown`, `Hidden` or its fault.
pub fn print_survey<W: Write>(
    alloc: Global,
    survey: &Survey,
    output: &mut Counted<W>,
) -> Result<(), Device>
    ensures { OnOk result (Appends (counted_contents W.contents output.old) (counted_contents W.contents output.new)
        (survey_text survey.now)) }
{
    let mut text = room_for_lines(alloc);
    put_head(survey, &mut text, output)?;
    put_packets(survey.packets.as_slice(), &mut text, output)?;
    Ok(())
}

// Writes the lines before those of the packets.
fn put_head<W: Write>(
    survey: &Survey,
    text: &mut Vec<u8>,
    output: &mut Counted<W>,
) -> Result<(), Device>
    ensures { OnOk result (Appends (counted_contents W.contents output.old) (counted_contents W.contents output.new)
        (head_text survey.now)) }
{
    text.clear();
    if print_head(survey, text).is_ok() {
        return put_all(output, text);
    }
    match print_head(survey, output) {
        Ok(()) => Ok(()),
        Err(_) => Err(Device),
    }
}

// Writes a line for each packet.
fn put_packets<W: Write>(
    packets: &[(usize, Outcome)],
    text: &mut Vec<u8>,
    output: &mut Counted<W>,
) -> Result<(), Device>
    ensures { OnOk result (Appends (counted_contents W.contents output.old) (counted_contents W.contents output.new)
        (packet_lines packets.now (length packets.now))) }
{
    let mut number = 0;
    while number < packets.len() {
        let left = packets.len() - number;
        let count = if left < GATHERED { left } else { GATHERED };
        put_lines(packets, number, count, text, output)?;
        number += count;
    }
    Ok(())
}

// Writes the lines of `count` packets, from packet `first` on. They are gathered in `text`. If memory for that is
// refused, they are written one by one.
fn put_lines<W: Write>(
    packets: &[(usize, Outcome)],
    first: usize,
    count: usize,
    text: &mut Vec<u8>,
    output: &mut Counted<W>,
) -> Result<(), Device>
    requires { first + count ≤ length packets.now }
    ensures { OnOk result (Appends (counted_contents W.contents output.old) (counted_contents W.contents output.new)
        (lines_from packets.now first count)) }
{
    text.clear();
    if print_lines(packets, first, count, text).is_ok() {
        return put_all(output, text);
    }
    match print_lines(packets, first, count, output) {
        Ok(()) => Ok(()),
        Err(_) => Err(Device),
    }
}

// Prints the lines before those of the packets.
fn print_head<W: Write>(survey: &Survey, output: &mut W) -> io::Result<()>
    ensures { OnOk result (Appends (W.contents output.old) (W.contents output.new) (head_text survey.now)) }
{
    print_rate(survey.head, output)?;
    writeln!(output, "packets {}", survey.packets.as_slice().len())
}

// Prints the lines of the size and the rate, if the head is valid.
pub(crate) fn print_rate<W: Write>(head: Option<IvfHead>, output: &mut W) -> io::Result<()>
    ensures { OnOk result (Appends (W.contents output.old) (W.contents output.new) (head_lines head)) }
{
    let Some(head) = head else {
        return Ok(());
    };
    writeln!(output, "size {}x{}", head.w, head.h)?;
    writeln!(output, "rate {}/{}", head.rate, head.scale)
}

// Prints the lines of `count` packets, from packet `first` on.
fn print_lines<W: Write>(
    packets: &[(usize, Outcome)],
    first: usize,
    count: usize,
    output: &mut W,
) -> io::Result<()>
    requires { first + count ≤ length packets.now }
    ensures { OnOk result (Appends (W.contents output.old) (W.contents output.new)
        (lines_from packets.now first count)) }
{
    for place in 0..count {
        let (bytes, outcome) = packets[first + place];
        print_packet(first + place, bytes, outcome, output)?;
    }
    Ok(())
}

// Prints the line of a packet.
fn print_packet<W: Write>(
    number: usize,
    bytes: usize,
    outcome: Outcome,
    output: &mut W,
) -> io::Result<()>
    ensures { OnOk result (Appends (W.contents output.old) (W.contents output.new) (packet_line number bytes outcome)) }
{
    match outcome {
        Outcome::Shown => writeln!(output, "{number} {bytes} Shown"),
        Outcome::Hidden => writeln!(output, "{number} {bytes} Hidden"),
        Outcome::Fault(fault) => writeln!(output, "{number} {bytes} {fault}"),
    }
}

/// Prints a line for each faulty packet. Returns whether all are written; after a failed write it goes on with the next
/// line.
pub fn print_faults<E: Write>(
    alloc: Global,
    faults: &[(u32, PacketFault)],
    errors: &mut Counted<E>,
) -> bool
    ensures { result ≡ true → Appends (counted_contents E.contents errors.old) (counted_contents E.contents errors.new)
        (fault_lines faults.now) }
{
    let mut text = room_for_lines(alloc);
    let mut well = true;
    let mut rest = faults;
    while !rest.is_empty() {
        let (some, others) = rest.split_at(GATHERED.min(rest.len()));
        well &= put_faults(some, &mut text, errors);
        rest = others;
    }
    well
}

// Writes the lines of faulty packets, as `print_faults` does. They are gathered in `text`. If memory for that is
// refused, they are written one by one.
fn put_faults<E: Write>(
    faults: &[(u32, PacketFault)],
    text: &mut Vec<u8>,
    errors: &mut Counted<E>,
) -> bool
    ensures { result ≡ true → Appends (counted_contents E.contents errors.old) (counted_contents E.contents errors.new)
        (fault_lines faults.now) }
{
    text.clear();
    if print_fault_lines(faults, text) {
        write_lines(text, errors)
    } else {
        print_fault_lines(faults, errors)
    }
}

// Prints the lines of faulty packets, as `print_faults` does.
fn print_fault_lines<W: Write>(faults: &[(u32, PacketFault)], output: &mut W) -> bool
    ensures { result ≡ true → Appends (W.contents output.old) (W.contents output.new) (fault_lines faults.now) }
{
    let mut well = true;
    for (packet, fault) in faults {
        well &= print_fault(*packet, *fault, output).is_ok();
    }
    well
}

// Prints the line of a faulty packet.
fn print_fault<W: Write>(packet: u32, fault: PacketFault, output: &mut W) -> io::Result<()>
    ensures { OnOk result (Appends (W.contents output.old) (W.contents output.new) (fault_line (packet, fault))) }
{
    writeln!(output, "vp8: packet {packet}: {fault}")
}

// Writes lines. Returns whether all are written; after a failed write it goes on with the next line.
fn write_lines<W: Write>(lines: &[u8], output: &mut Counted<W>) -> bool
    ensures { result ≡ true → Appends (counted_contents W.contents output.old) (counted_contents W.contents output.new)
        lines.now }
{
    let mut rest = lines;
    let mut well = true;
    while !rest.is_empty() {
        match output.write(rest) {
            Ok(taken) if 0 < taken => rest = &rest[taken..],
            _ => {
                well = false;
                rest = after_line(rest);
            }
        }
    }
    well
}

// Returns what follows the first line.
fn after_line(lines: &[u8]) -> &[u8]
    ensures { 0 < length lines.now → length result.now < length lines.now }
{
    match lines.iter().position(|byte| *byte == b'\n') {
        Some(place) => &lines[place + 1..],
        None => &[],
    }
}

/// Prints the fault that ended the work, and returns the exit status.
pub fn report_fault<F: fmt::Display + Drop, E: Write>(fault: F, errors: &mut Counted<E>) -> u8
    ensures { result ≡ 1 }
{
    let _ = writeln!(errors, "vp8: {fault}");
    1
}
