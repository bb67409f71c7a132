//! The numbers of the packets to decode.

ghost use Rattle.std.specs.Prelude.{◌≡◌, ◌≤◌, ◌+◌, min};

/// The packets `first` to `last` of a file, both included. The first packet of a file has the number 0.
#[derive(Clone, Copy, Debug, PartialEq, Eq)]
pub struct PacketRange {
    /// The number of the first packet.
    pub first: u32,
    /// The number of the last packet: `first` or more.
    pub last: u32,
    ghost order: { first ≤ last },
}

impl PacketRange {
    /// Returns the number after the last packet of the range, or the number of packets of the file if that is less.
    pub(crate) fn end(&self, count: u32) -> u32
        ensures { result ≡ min (self.now.last + 1) count }
    {
        if self.last < count {
            self.last + 1
        } else {
            count
        }
    }
}
