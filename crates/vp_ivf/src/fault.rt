//! Faults of IVF files.

ghost use Rattle.std.specs.Prelude.{Some};
ghost use Rattle.vp_ivf.specs.Names.{file_fault_name};

use std::fmt;

/// A fault of an IVF file.
#[derive(Clone, Copy, Debug, PartialEq, Eq)]
pub enum FileFault {
    /// The file header doesn't begin with `DKIF`.
    Signature,
    /// The codec in the file header is not `VP80`.
    Codec,
    /// The file has more packets than the limits allow.
    TooMany,
    /// A packet is larger than the limits allow.
    PacketTooLarge,
    /// The file ends inside the file header or a packet.
    Torn,
    /// The reader was fed after its end.
    Ended,
}

/// The name of the fault, as printed.
impl fmt::Display for FileFault {
    ghost output = { λ fault. Some (file_fault_name fault) };

    fn fmt<W: fmt::Write>(&self, f: &mut fmt::Formatter<W>) -> fmt::Result {
        f.write_str(match self {
            FileFault::Signature => "Signature",
            FileFault::Codec => "Codec",
            FileFault::TooMany => "TooMany",
            FileFault::PacketTooLarge => "PacketTooLarge",
            FileFault::Torn => "Torn",
            FileFault::Ended => "Ended",
        })
    }
}

/// Why a reader rejects a piece, or the fault of the file that the piece reveals.
#[derive(Clone, Copy, Debug, PartialEq, Eq)]
pub enum FeedError {
    /// Out of memory. The piece was not consumed.
    Memory,
    /// The fault that this piece reveals, or the earlier fault that makes the reader reject all pieces.
    Fault(FileFault),
}
