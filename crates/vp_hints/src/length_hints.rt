//! Hints about the number of packets that the head of an IVF file states.

use crate::film::number_at;
use crate::names::Printable;
use crate::seen::Seen;
use std::io;
use std::io::Write;

// What ffmpeg writes where it can't go back to the head.
const NOT_KNOWN: u64 = 0xffff_ffff;

/// Prints that an IVF file, which ends after a packet, has fewer packets than its head states, unless that number can
/// be their duration: ffmpeg writes it there. Nothing is known of a file of which no byte was seen.
pub fn hint_length<W: Write>(name: &str, seen: &Seen, output: &mut W) -> io::Result<()> {
    let (file, stated) = (Printable(name), number_at(seen.head(), 24, 4));
    let (packets, span) = (seen.packets().whole, span_of(seen));
    if stated <= packets || stated == NOT_KNOWN || is_duration(stated, seen) {
        return Ok(());
    }
    if packets < span && span <= stated {
        writeln!(
            output,
            "  {file}: its head says a duration of {stated}, its {packets} packets end at {span}; the file may be cut"
        )
    } else {
        hint_count(file, stated, packets, output)
    }
}

// Prints that a file has this number of packets, where its head states more.
fn hint_count<W: Write>(
    file: Printable<'_>,
    stated: u64,
    packets: u64,
    output: &mut W,
) -> io::Result<()> {
    let plural = if stated == 1 { "" } else { "s" };
    let are = if packets == 1 { "is" } else { "are" };
    writeln!(
        output,
        "  {file}: its head says {stated} packet{plural}, {packets} {are} there; the file may be cut"
    )
}

// The time from the first packet to the last, in the file's unit.
fn span_of(seen: &Seen) -> u64 {
    let first = number_at(seen.head(), 36, 8);
    seen.packets().time.saturating_sub(first)
}

// Whether a number can be the duration of a file's packets: the time from the first to the last, and up to one and a
// half of the mean time from one to the next. A single one lasts up to a second.
fn is_duration(stated: u64, seen: &Seen) -> bool {
    let (packets, span) = (seen.packets().whole, span_of(seen));
    let (rate, scale) = (number_at(seen.head(), 16, 4), number_at(seen.head(), 20, 4));
    let Some(last) = stated.checked_sub(span) else {
        return false;
    };
    match packets {
        0 => false,
        1 => last.saturating_mul(scale) <= rate,
        _ => last
            .saturating_mul(2)
            .saturating_mul(packets.saturating_sub(1))
            <= span.saturating_mul(3),
    }
}
