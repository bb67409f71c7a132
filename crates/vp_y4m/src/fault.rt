//! Faults of YUV4MPEG2 files.

/// Why a source gives no picture.
#[derive(Clone, Copy, Debug, PartialEq, Eq)]
pub enum SourceFault {
    /// A line is longer than 1,024 bytes or begins with the wrong word, or the frame rate is malformed.
    Magic,
    /// The width or the height is missing, malformed, or not allowed by the limits.
    Size,
    /// The chroma format is not 8-bit 4:2:0.
    Colour,
    /// The pictures are interlaced.
    Interlaced,
    /// The input ends before the header, inside a line or inside a picture.
    Torn,
    /// A read failed.
    Device,
    /// Out of memory.
    Memory,
}
