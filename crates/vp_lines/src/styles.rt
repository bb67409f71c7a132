//! The forms of the lines about files that are checked.

/// The form of the lines about files that are checked.
#[derive(Clone, Copy, Debug, PartialEq, Eq)]
pub enum LineStyle {
    /// The numbers of packets, and a line for each packet that has a fault or is corrupt if they are asked for.
    Counted {
        /// Whether they are asked for.
        verbose: bool,
    },
    /// A line for each packet.
    Packets {
        /// Whether it says that a packet is corrupt.
        long: bool,
        /// Whether the file's name comes before its lines.
        named: bool,
    },
    /// A JSON document.
    Json,
}
