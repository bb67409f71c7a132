//! The answer of a stream for one packet.

use vp_base::{ByteList, Dim};
use vp_head::PacketFault;

/// The answer of a stream for one packet.
#[derive(Debug, Drop)]
pub enum Answer {
    /// Its picture is shown: the size in pixels, and the cropped pixels as I420 (Y, U, V, each plane by rows).
    Shown(Dim, ByteList),
    /// The packet is decoded and its picture is not shown.
    Hidden,
    /// The packet can't be decoded.
    Fault(PacketFault),
    /// The file has no such packet, or not yet.
    NoPacket,
}
