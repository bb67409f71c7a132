//! The status numbers of the C interface.

ghost use Rattle.std.specs.Prelude.{◌≡◌};
ghost use Rattle.vp8_c.specs.Status.{fault_number, file_number, outcome_number, webp_number, webp_write_number};

use vp_decode::Outcome;
use vp_head::PacketFault;
use vp_ivf::FileFault;
use vp_webp::{WebPFault, WebPWriteFault};

/// Success. For a packet: it is decoded and its picture is shown.
pub const OK: u32 = 0;
/// The packet is decoded and its picture is not shown.
pub const HIDDEN: u32 = 1;

/// The packet has too few bytes.
pub const TRUNCATED: u32 = 16;
/// The packet's version is greater than 3.
pub const VERSION: u32 = 17;
/// The key packet has no start code.
pub const START_CODE: u32 = 18;
/// The key packet's width or height is 0.
pub const SIZE: u32 = 19;
/// The picture has more pixels than the decoder allows.
pub const TOO_LARGE: u32 = 20;
/// An inter packet without a reference frame.
pub const NO_REFERENCE: u32 = 21;
/// The first partition extends past the end of the packet.
pub const FIRST_PARTITION: u32 = 22;
/// The partition table extends past the end of the packet.
pub const PARTITION_TABLE: u32 = 23;
/// `PARTITION + n`: token partition `n` extends past the end of the packet.
pub const PARTITION: u32 = 256;

/// The file's head doesn't begin with DKIF.
pub const SIGNATURE: u32 = 32;
/// The file's codec isn't VP80.
pub const CODEC: u32 = 33;
/// The file has more packets than allowed.
pub const TOO_MANY: u32 = 34;
/// A packet is larger than allowed.
pub const PACKET_TOO_LARGE: u32 = 35;
/// The file ends inside its head or a packet.
pub const TORN: u32 = 36;
/// The file has ended.
pub const ENDED: u32 = 37;
/// The picture of the WebP file is compressed losslessly.
pub const LOSSLESS: u32 = 38;
/// The WebP file is an animation.
pub const ANIMATED: u32 = 39;
/// The packet of the WebP file is not a key packet.
pub const NOT_KEY: u32 = 40;

/// A setting is out of its range.
pub const SETTINGS: u32 = 48;
/// A partition of the packet, or the packet of a WebP file, is too long for the format.
pub const TOO_LONG: u32 = 49;

/// The handle is closed, or has another kind of value.
pub const CLOSED: u32 = 64;
/// The handle is open already.
pub const OPEN: u32 = 65;
/// Out of memory.
pub const MEMORY: u32 = 66;
/// The pixel limit is 0 or too large.
pub const LIMITS: u32 = 67;
/// The width or height is 0 or too large.
pub const DIMENSIONS: u32 = 68;
/// There is no picture.
pub const NO_PICTURE: u32 = 69;
/// The file has no packet of this number.
pub const NO_PACKET: u32 = 70;
/// A length or a stride is too small.
pub const BUFFER: u32 = 71;

/// Returns the status number of a packet's fault.
pub fn fault_number(fault: PacketFault) -> u32
    ensures { result ≡ fault_number fault }
{
    match fault {
        PacketFault::Truncated => TRUNCATED,
        PacketFault::Version => VERSION,
        PacketFault::StartCode => START_CODE,
        PacketFault::Size => SIZE,
        PacketFault::TooLarge => TOO_LARGE,
        PacketFault::NoReference => NO_REFERENCE,
        PacketFault::FirstPartition => FIRST_PARTITION,
        PacketFault::PartitionTable => PARTITION_TABLE,
        PacketFault::Partition(number) => PARTITION + u32::from(number),
    }
}

/// Returns the status number of a packet's outcome.
pub fn outcome_number(outcome: Outcome) -> u32
    ensures { result ≡ outcome_number outcome }
{
    match outcome {
        Outcome::Shown => OK,
        Outcome::Hidden => HIDDEN,
        Outcome::Fault(fault) => fault_number(fault),
    }
}

/// Returns the status number of a file's fault.
pub fn file_number(fault: FileFault) -> u32
    ensures { result ≡ file_number fault }
{
    match fault {
        FileFault::Signature => SIGNATURE,
        FileFault::Codec => CODEC,
        FileFault::TooMany => TOO_MANY,
        FileFault::PacketTooLarge => PACKET_TOO_LARGE,
        FileFault::Torn => TORN,
        FileFault::Ended => ENDED,
    }
}

/// Returns the status number of a WebP file's fault.
pub fn webp_number(fault: WebPFault) -> u32
    ensures { result ≡ webp_number fault }
{
    match fault {
        WebPFault::Signature => SIGNATURE,
        WebPFault::Torn => TORN,
        WebPFault::Lossless => LOSSLESS,
        WebPFault::Animated => ANIMATED,
        WebPFault::NoPicture => NO_PICTURE,
        WebPFault::NotKey => NOT_KEY,
        WebPFault::Hidden => HIDDEN,
    }
}

/// Returns the status number of why a packet has no WebP file in the caller's buffer.
pub fn webp_write_number(fault: WebPWriteFault) -> u32
    ensures { result ≡ webp_write_number fault }
{
    match fault {
        WebPWriteFault::NotKey => NOT_KEY,
        WebPWriteFault::Hidden => HIDDEN,
        WebPWriteFault::TooLong => TOO_LONG,
        WebPWriteFault::Device => BUFFER,
    }
}
