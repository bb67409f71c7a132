//! A socket whose connection is closed. Closing it at once, with unread bytes, would make the peer lose a reply that it
//! has not read yet; so writing is shut down, and what still comes is read away for a short while.

use mio::net::TcpStream;
use std::io::{ErrorKind, Read};

/// The milliseconds for which a socket lingers.
const LINGER_TIME: u64 = 1000;

/// The most reads of a socket that lingers.
const LINGER_READS: u32 = 256;

/// The most reads of a socket that lingers between two waits.
const READS_A_TURN: u32 = 16;

/// What the reads of a socket that lingers came to.
#[derive(Clone, Copy, Debug, PartialEq, Eq)]
pub(crate) enum Drained {
    /// There is nothing to read for now.
    Waits,
    /// There may be more to read.
    HasMore,
    /// The peer is gone, or it had its time.
    Over,
}

/// A socket that lingers.
#[derive(Drop)]
pub(crate) struct LingeringSocket {
    number: u32,
    stream: TcpStream,
    can_read: bool,
    // The time at which it lingers no longer, in milliseconds.
    until: u64,
    reads_left: u32,
}

impl LingeringSocket {
    /// A socket that begins to linger, at a time in milliseconds.
    pub(crate) fn new(number: u32, stream: TcpStream, now: u64) -> LingeringSocket {
        LingeringSocket {
            number,
            stream,
            can_read: true,
            until: now.saturating_add(LINGER_TIME),
            reads_left: LINGER_READS,
        }
    }

    /// The number that its connection had.
    pub(crate) fn number(&self) -> u32 {
        self.number
    }

    /// Notes that there may be bytes to read.
    pub(crate) fn mark(&mut self) {
        self.can_read = true;
    }

    /// Reads away some of what came, at a time in milliseconds.
    pub(crate) fn drain(&mut self, now: u64) -> Drained {
        if now >= self.until {
            return Drained::Over;
        }
        if !self.can_read {
            return Drained::Waits;
        }
        for _ in 0..READS_A_TURN {
            match self.read_away() {
                Drained::HasMore => {}
                Drained::Waits => return Drained::Waits,
                Drained::Over => return Drained::Over,
            }
        }
        Drained::HasMore
    }

    // Reads away up to 4,096 bytes.
    fn read_away(&mut self) -> Drained {
        if self.reads_left == 0 {
            return Drained::Over;
        }
        self.reads_left -= 1;
        let mut buffer = [0; 4096];
        match (&self.stream).read(&mut buffer) {
            Ok(0) => Drained::Over,
            Ok(_) => Drained::HasMore,
            Err(error) => match error.kind() {
                ErrorKind::WouldBlock => {
                    self.can_read = false;
                    Drained::Waits
                }
                ErrorKind::Interrupted => Drained::HasMore,
                _ => Drained::Over,
            },
        }
    }
}
