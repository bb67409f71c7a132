//! The packets and the header of an IVF file.

use vp_base::ByteList;

/// A packet: one VP8 frame.
#[derive(Debug, Drop)]
pub struct Packet {
    /// Presentation time in units of `scale / rate` seconds.
    pub time: u64,
    /// The bytes of the frame.
    pub bytes: ByteList,
}

/// The fields of the file header.
#[derive(Clone, Copy, Debug, PartialEq, Eq)]
pub struct IvfHead {
    /// Width in pixels. Packets may have another one.
    pub w: u16,
    /// Height in pixels. Packets may have another one.
    pub h: u16,
    /// Time base denominator: `rate / scale` frames per second.
    pub rate: u32,
    /// Time base numerator: `rate / scale` frames per second.
    pub scale: u32,
}
