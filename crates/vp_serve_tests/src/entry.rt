//! The entries of a transport's log.

use std::fmt;
use vp_base::ByteList;
use vp_serve::CloseReason;

/// One transfer.
#[derive(Drop)]
pub enum Entry {
    /// A connection is accepted.
    Accepts(u32),
    /// Bytes are read from a connection.
    Reads(u32, ByteList),
    /// A connection takes bytes.
    Writes(u32, ByteList),
    /// The peer of a connection ends.
    PeerEnds(u32),
    /// A read or a write of a connection fails.
    Fails(u32),
    /// A connection is closed.
    Closes(u32, CloseReason),
    /// The file at an index, that of the stream of a name, has more bytes.
    Grows(usize, ByteList, ByteList),
    /// The server waits, or looks what is ready if it is busy; the clock says this many milliseconds.
    Waits(bool, u64),
}

/// Returns bytes as text.
pub fn text_of(bytes: &[u8]) -> &str {
    match str::from_utf8(bytes) {
        Ok(text) => text,
        Err(_) => "?",
    }
}

/// One line, with the bytes as text; none for a look of a busy server.
impl fmt::Display for Entry {
    fn fmt<W: fmt::Write>(&self, f: &mut fmt::Formatter<W>) -> fmt::Result {
        match self {
            Entry::Accepts(number) => write!(f, "accepts {number}\n"),
            Entry::Reads(number, bytes) => write!(
                f,
                "reads {number} {}\n",
                text_of(bytes.as_slice())
            ),
            Entry::Writes(number, bytes) => write!(
                f,
                "writes {number} {}\n",
                text_of(bytes.as_slice())
            ),
            Entry::PeerEnds(number) => write!(f, "peer ends {number}\n"),
            Entry::Fails(number) => write!(f, "fails {number}\n"),
            Entry::Closes(number, reason) => write!(f, "closes {number} {reason:?}\n"),
            Entry::Grows(place, name, bytes) => {
                write!(
                    f,
                    "grows {place} {} {}\n",
                    text_of(name.as_slice()),
                    text_of(bytes.as_slice())
                )
            }
            Entry::Waits(true, _) => Ok(()),
            Entry::Waits(false, _) => f.write_str("waits\n"),
        }
    }
}
