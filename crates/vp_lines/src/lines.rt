//! The text of packets and files that are checked.

ghost use Rattle.std.specs.Prelude.{OnOk};
ghost use Rattle.std.specs.Io.KnownBytes.{Appends};
ghost use Rattle.vp_lines.specs.CheckLines.{damage_line, document, fault_text, json_byte, json_head, json_packet};
ghost use Rattle.vp_lines.specs.CheckLines.{json_end, json_object, json_start, json_text, line_form};
ghost use Rattle.vp_lines.specs.CheckLines.{listed_line, name_line, packet_text, packet_texts, packets_text, whole_text};
ghost use Rattle.vp_lines.specs.Listing.{word_of};
ghost use Rattle.vp_stream.specs.Texts.{head_lines};

use crate::file_names::{hex_digit, print_file_name};
use crate::listing::print_rate;
use std::io::Write;
use std::{fmt, io};
use vp_check::{Checked, CheckedPacket};
use vp_decode::Outcome;
use vp_ivf::{FileFault, IvfHead};
use vp_stream::DecodeFault;

/// The form of the text of a packet.
#[derive(Clone, Copy)]
pub(crate) enum PacketLine<'a> {
    /// Its line, if it has a fault or is corrupt, after this name.
    Damage(&'a str),
    /// Its line, which says that it is corrupt or not.
    Listed(bool),
    /// JSON.
    Json,
}

/// An outcome, in a word.
#[derive(Clone, Copy)]
struct Word(Outcome);

impl fmt::Display for Word {
    ghost use Rattle.std.specs.Prelude.{Some};

    ghost output = { λ word. Some (word_of word.0) };

    fn fmt<W: fmt::Write>(&self, f: &mut fmt::Formatter<W>) -> fmt::Result {
        match self.0 {
            Outcome::Shown => f.write_str("Shown"),
            Outcome::Hidden => f.write_str("Hidden"),
            Outcome::Fault(fault) => write!(f, "{fault}"),
        }
    }
}

/// Prints the text of each packet.
pub(crate) fn print_packets<W: Write>(
    line: PacketLine<'_>,
    packets: &[CheckedPacket],
    output: &mut W,
) -> io::Result<()>
    ensures { OnOk result (Appends (W.contents output.old) (W.contents output.new)
        (packet_texts (line_form line.entry) 0 packets.now)) }
{
    for (number, packet) in packets.iter().enumerate() {
        print_packet(line, number, *packet, output)?;
    }
    Ok(())
}

// Prints the text of a packet.
fn print_packet<W: Write>(
    line: PacketLine<'_>,
    number: usize,
    packet: CheckedPacket,
    output: &mut W,
) -> io::Result<()>
    ensures { OnOk result (Appends (W.contents output.old) (W.contents output.new)
        (packet_text (line_form line.entry) number packet)) }
{
    match line {
        PacketLine::Damage(name) => print_damage(name, number, packet, output),
        PacketLine::Listed(long) => print_listed(long, number, packet, output),
        PacketLine::Json => print_json_packet(number, packet, output),
    }
}

// Prints the line of a packet, if it has a fault or is corrupt.
fn print_damage<W: Write>(
    name: &str,
    number: usize,
    packet: CheckedPacket,
    output: &mut W,
) -> io::Result<()>
    ensures { OnOk result (Appends (W.contents output.old) (W.contents output.new)
        (damage_line name.now number packet)) }
{
    match packet.outcome {
        Outcome::Fault(fault) => {
            print_file_name(name, output)?;
            writeln!(output, ": packet {number}: {fault}")
        }
        Outcome::Shown | Outcome::Hidden if packet.corrupt => {
            print_file_name(name, output)?;
            writeln!(output, ": packet {number}: corrupt")
        }
        Outcome::Shown | Outcome::Hidden => Ok(()),
    }
}

// Prints the line of a packet.
fn print_listed<W: Write>(
    long: bool,
    number: usize,
    packet: CheckedPacket,
    output: &mut W,
) -> io::Result<()>
    ensures { OnOk result (Appends (W.contents output.old) (W.contents output.new)
        (listed_line long number packet)) }
{
    let (bytes, word) = (packet.bytes, Word(packet.outcome));
    if long && packet.corrupt {
        writeln!(output, "{number} {bytes} {word} corrupt")
    } else {
        writeln!(output, "{number} {bytes} {word}")
    }
}

// Prints a packet as JSON, after a comma unless it is the first.
fn print_json_packet<W: Write>(
    number: usize,
    packet: CheckedPacket,
    output: &mut W,
) -> io::Result<()>
    ensures { OnOk result (Appends (W.contents output.old) (W.contents output.new) (json_packet number packet)) }
{
    if number == 0 {
        print_json_object(packet, output)
    } else {
        write!(output, ",")?;
        print_json_object(packet, output)
    }
}

// Prints a packet as JSON.
fn print_json_object<W: Write>(packet: CheckedPacket, output: &mut W) -> io::Result<()>
    ensures { OnOk result (Appends (W.contents output.old) (W.contents output.new) (json_object packet)) }
{
    let (bytes, word) = (packet.bytes, Word(packet.outcome));
    if packet.corrupt {
        write!(
            output,
            "{{\"bytes\":{bytes},\"outcome\":\"{word}\",\"corrupt\":true}}"
        )
    } else {
        write!(
            output,
            "{{\"bytes\":{bytes},\"outcome\":\"{word}\",\"corrupt\":false}}"
        )
    }
}

/// Prints the lines of a file: its name if it is wanted, its size and rate, and a line for each packet.
pub(crate) fn print_listing<W: Write>(
    long: bool,
    named: bool,
    name: &str,
    done: &Result<Checked, DecodeFault>,
    output: &mut W,
) -> io::Result<()>
    ensures { OnOk result (Appends (W.contents output.old) (W.contents output.new)
        (packets_text long named name.now done.now)) }
{
    print_name(named, name, output)?;
    match done {
        Ok(checked) => print_whole(long, checked, output),
        Err(_) => Ok(()),
    }
}

// Prints the line with a file's name, if it is wanted.
fn print_name<W: Write>(named: bool, name: &str, output: &mut W) -> io::Result<()>
    ensures { OnOk result (Appends (W.contents output.old) (W.contents output.new) (name_line named name.now)) }
{
    if named {
        output.write_all(b"file ")?;
        print_file_name(name, output)?;
        output.write_all(b"\n")
    } else {
        Ok(())
    }
}

// Prints the size and the rate, and a line for each packet.
fn print_whole<W: Write>(long: bool, checked: &Checked, output: &mut W) -> io::Result<()>
    ensures { OnOk result (Appends (W.contents output.old) (W.contents output.new) (whole_text long checked.now)) }
{
    print_rate(checked.head, output)?;
    writeln!(output, "packets {}", checked.packets.as_slice().len())?;
    print_packets(PacketLine::Listed(long), checked.packets.as_slice(), output)
}

/// Prints the JSON document of a file.
pub(crate) fn print_document<W: Write>(
    name: &str,
    done: &Result<Checked, DecodeFault>,
    output: &mut W,
) -> io::Result<()>
    ensures { OnOk result (Appends (W.contents output.old) (W.contents output.new) (document name.now done.now)) }
{
    match done {
        Ok(checked) => {
            print_json_start(name, checked.head, output)?;
            print_packets(PacketLine::Json, checked.packets.as_slice(), output)?;
            print_json_end(checked.fault, output)
        }
        Err(fault) => {
            print_json_start(name, None, output)?;
            writeln!(output, "],\"fault\":\"{fault}\"}}")
        }
    }
}

// Prints the start of a file's JSON document, up to its packets.
fn print_json_start<W: Write>(name: &str, head: Option<IvfHead>, output: &mut W) -> io::Result<()>
    ensures { OnOk result (Appends (W.contents output.old) (W.contents output.new) (json_start name.now head)) }
{
    write!(output, "{{\"file\":\"")?;
    print_json_text(name.as_bytes(), output)?;
    print_json_head(head, output)
}

// Prints a text as JSON does, without its quotation marks.
fn print_json_text<W: Write>(text: &[u8], output: &mut W) -> io::Result<()>
    ensures { OnOk result (Appends (W.contents output.old) (W.contents output.new) (json_text text.now)) }
{
    for byte in text {
        print_json_byte(*byte, output)?;
    }
    Ok(())
}

// Prints a byte of a text as JSON does.
fn print_json_byte<W: Write>(byte: u8, output: &mut W) -> io::Result<()>
    ensures { OnOk result (Appends (W.contents output.old) (W.contents output.new) (json_byte byte)) }
{
    if byte == b'"' {
        output.write_all(b"\\\"")
    } else if byte == b'\\' {
        output.write_all(b"\\\\")
    } else if byte < 32 {
        output.write_all(&[
            b'\\',
            b'u',
            b'0',
            b'0',
            hex_digit(byte / 16),
            hex_digit(byte % 16),
        ])
    } else {
        output.write_all(&[byte])
    }
}

// Prints a file's head as JSON, up to its packets.
fn print_json_head<W: Write>(head: Option<IvfHead>, output: &mut W) -> io::Result<()>
    ensures { OnOk result (Appends (W.contents output.old) (W.contents output.new) (json_head head)) }
{
    let Some(head) = head else {
        return write!(
            output,
            "\",\"width\":null,\"height\":null,\"rate\":null,\"scale\":null,\"packets\":["
        );
    };
    let (w, h, rate, scale) = (head.w, head.h, head.rate, head.scale);
    write!(
        output,
        "\",\"width\":{w},\"height\":{h},\"rate\":{rate},\"scale\":{scale},\"packets\":["
    )
}

// Prints the end of a file's JSON document, after its packets.
fn print_json_end<W: Write>(fault: Option<FileFault>, output: &mut W) -> io::Result<()>
    ensures { OnOk result (Appends (W.contents output.old) (W.contents output.new) (json_end fault)) }
{
    match fault {
        Some(fault) => writeln!(output, "],\"fault\":\"{fault}\"}}"),
        None => writeln!(output, "],\"fault\":null}}"),
    }
}

/// Prints the fault of a file, if it has one.
pub(crate) fn print_fault<W: Write>(
    name: &str,
    fault: Option<FileFault>,
    output: &mut W,
) -> io::Result<()>
    ensures { OnOk result (Appends (W.contents output.old) (W.contents output.new) (fault_text name.now fault)) }
{
    match fault {
        Some(fault) => {
            print_file_name(name, output)?;
            writeln!(output, ": {fault}")
        }
        None => Ok(()),
    }
}
