//! Faults of packets.

ghost use Rattle.std.specs.Prelude.{Some};
ghost use Rattle.vp_head.specs.Names.{packet_fault_name};

use std::fmt;

/// Why a packet can't be decoded. The faults are checked in this order, except that the ten bytes of a key packet are
/// checked after its version.
#[derive(Clone, Copy, Debug, PartialEq, Eq)]
pub enum PacketFault {
    /// Fewer than 3 bytes, or fewer than 10 in a key packet (RFC 6386, chapter 9.1).
    Truncated,
    /// The version is above 3.
    Version,
    /// A key packet without the start code `9d 01 2a`.
    StartCode,
    /// The width or the height is 0.
    Size,
    /// The picture has more pixels than the limits allow.
    TooLarge,
    /// An inter packet without a key packet before it, or after a fault since.
    NoReference,
    /// The first partition extends past the end of the packet.
    FirstPartition,
    /// The table of token partition sizes extends past the end of the packet (chapter 9.5).
    PartitionTable,
    /// The first token partition that extends past the end of the packet, from 0.
    Partition(u8),
}

/// The name of the fault, as printed. `Partition 2` includes the partition's number.
impl fmt::Display for PacketFault {
    ghost output = { λ fault. Some (packet_fault_name fault) };

    fn fmt<W: fmt::Write>(&self, f: &mut fmt::Formatter<W>) -> fmt::Result {
        let name = match self {
            PacketFault::Truncated => "Truncated",
            PacketFault::Version => "Version",
            PacketFault::StartCode => "StartCode",
            PacketFault::Size => "Size",
            PacketFault::TooLarge => "TooLarge",
            PacketFault::NoReference => "NoReference",
            PacketFault::FirstPartition => "FirstPartition",
            PacketFault::PartitionTable => "PartitionTable",
            PacketFault::Partition(number) => return write!(f, "Partition {number}"),
        };
        f.write_str(name)
    }
}
