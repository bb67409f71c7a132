//! Hints under the lines of faulty packets.

use std::io::Write;
use std::{fmt, io};
use vp_head::PacketFault;

// The greatest number of hints under a list of faults.
const MOST_HINTS: u32 = 16;

// Packets in a row that have the same fault.
#[derive(Clone, Copy)]
struct Run {
    first: u32,
    last: u32,
    fault: PacketFault,
}

impl Run {
    // Takes a packet into the run, if it follows and has the same fault.
    fn takes(&mut self, packet: u32, fault: PacketFault) -> bool {
        let follows = packet > self.last && packet - self.last == 1 && fault == self.fault;
        if follows {
            self.last = packet;
        }
        follows
    }
}

/// Writes `packet 4` or `packets 0 to 28`, and what their fault means.
impl fmt::Display for Run {
    fn fmt<W: fmt::Write>(&self, f: &mut fmt::Formatter<W>) -> fmt::Result {
        let (first, last) = (self.first, self.last);
        if first == last {
            write!(f, "packet {first}: ")?;
        } else {
            write!(f, "packets {first} to {last}: ")?;
        }
        match self.fault {
            PacketFault::NoReference if first == 0 => f.write_str("no key frame yet"),
            PacketFault::Partition(number) => {
                write!(f, "token partition {number} ends behind the packet's end")
            }
            fault => f.write_str(meaning_of(fault)),
        }
    }
}

/// Returns what a packet's fault means.
pub fn meaning_of(fault: PacketFault) -> &'static str {
    match fault {
        PacketFault::Truncated => "fewer than 3 bytes, or than the 10 of a key frame's start",
        PacketFault::Version => "a version above 3, so damaged or not VP8",
        PacketFault::StartCode => {
            "a key frame without the start code 9d 01 2a, so damaged or not VP8"
        }
        PacketFault::Size => "a key frame without width or height",
        PacketFault::TooLarge => "more pixels than the limit, which --max-pixels sets",
        PacketFault::NoReference => "no key frame since the start or the last fault",
        PacketFault::FirstPartition => "the first partition ends behind the packet's end",
        PacketFault::PartitionTable => "the table of partitions ends behind the packet's end",
        PacketFault::Partition(_) => "a token partition ends behind the packet's end",
    }
}

/// Prints a hint for the packets in a row that have the same fault, up to 16 hints.
pub fn hint_packets<W: Write>(faults: &[(u32, PacketFault)], output: &mut W) -> io::Result<()> {
    let Some((first, fault)) = faults.first() else {
        return Ok(());
    };
    let mut run = Run {
        first: *first,
        last: *first,
        fault: *fault,
    };
    let mut printed: u32 = 0;
    for (packet, fault) in &faults[1..] {
        if run.takes(*packet, *fault) {
            continue;
        }
        writeln!(output, "  {run}")?;
        printed = printed.saturating_add(1);
        if printed == MOST_HINTS {
            return writeln!(output, "  and more");
        }
        run = Run {
            first: *packet,
            last: *packet,
            fault: *fault,
        };
    }
    writeln!(output, "  {run}")
}
