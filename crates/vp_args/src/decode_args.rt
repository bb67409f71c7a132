//! The arguments of `vp8 decode`.

ghost use Rattle.std.specs.Prelude.{◌≤◌};

use crate::file_limits::FileLimits;

/// What `vp8 decode` makes of the pictures, and which files they are of. A file named `-` is standard input or output.
#[derive(Clone, Copy, Debug, PartialEq, Eq)]
pub struct DecodeArgs<'a> {
    /// Whether the pictures are written as YUV4MPEG2, and not as I420.
    pub y4m: bool,
    /// Whether the MD5 sum of what would be written is printed instead.
    pub md5: bool,
    /// Whether the MD5 sum of each picture is printed too, and nothing is written.
    pub md5_each: bool,
    /// Whether progress is reported.
    pub progress: bool,
    /// The greatest files that are read.
    pub limits: FileLimits,
    /// The file of packets.
    pub input: &'a str,
    /// The file of pictures; `-` if it is not named, which needs one of the flags for sums.
    pub output: &'a str,
}

/// The arguments of `vp8 decode --frame` and `vp8 decode --frames`.
#[derive(Drop)]
pub struct DecodeRangeArgs<'a> {
    /// What is made of the pictures, and the files.
    pub decoding: DecodeArgs<'a>,
    /// The first packet whose picture is written, counted from 0.
    pub first: u32,
    /// The last such packet.
    pub last: u32,
    ghost in_order: { first ≤ last },
}
