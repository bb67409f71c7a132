//! A packet and the picture that it shows.

ghost use Rattle.std.specs.Prelude.{◌≡◌, length};
ghost use Rattle.vp_scale.specs.Planes.{i420_size};

use vp_base::{ByteList, Dim};

/// A packet of a file, and the picture that it shows.
#[derive(Drop)]
pub struct Found {
    /// The number of the packet, counted from 0.
    pub number: u32,
    /// The packet.
    pub packet: ByteList,
    /// The size of the picture in pixels.
    pub dim: Dim,
    /// The picture as I420: Y, U and V by rows.
    pub pixels: ByteList,
    /// Whether the file has alpha for the picture, which is not read.
    pub has_alpha: bool,
    ghost whole: { length pixels ≡ i420_size dim.w dim.h },
}

/// A packet, and the picture that it shows, both lent.
#[derive(Clone, Copy)]
pub struct ShownPacket<'a> {
    /// The packet.
    pub packet: &'a [u8],
    /// The size of the picture in pixels.
    pub dim: Dim,
    /// The picture as I420: Y, U and V by rows.
    pub pixels: &'a [u8],
    ghost whole: { length pixels.now ≡ i420_size dim.w dim.h },
}

impl Found {
    /// Lends the packet and its picture.
    pub fn shown(&self) -> ShownPacket<'_>
        ensures packet { result.packet.now ≡ self.now.packet }
        ensures dim { result.dim ≡ self.now.dim }
        ensures pixels { result.pixels.now ≡ self.now.pixels }
    {
        ShownPacket {
            packet: self.packet.as_slice(),
            dim: self.dim,
            pixels: self.pixels.as_slice(),
        }
    }
}
