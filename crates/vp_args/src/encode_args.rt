//! The arguments of `vp8 encode`.

use crate::file_limits::FileLimits;

/// The options of `vp8 encode`: the encoder's settings, which may be out of their ranges.
#[derive(Clone, Copy, Debug, PartialEq, Eq)]
pub struct EncodeOptions {
    /// The quantiser index.
    pub qi: u8,
    /// The level of the loop filter.
    pub level: u8,
    /// The sharpness of the loop filter.
    pub sharpness: u8,
    /// Whether the loop filter is the simple one.
    pub simple: bool,
    /// The number of frames from one key frame to the next.
    pub key_every: u32,
    /// The number of frames from one golden frame to the next; 0: key frames only.
    pub golden_every: u32,
    /// The range of motion vectors in whole pixels.
    pub range: u8,
    /// Whether motion vectors are refined to quarter pixels.
    pub subpel: bool,
    /// The number of token partitions.
    pub partitions: u8,
}

/// The arguments of `vp8 encode`. A file named `-` is standard input or output.
#[derive(Clone, Copy, Debug, PartialEq, Eq)]
pub struct EncodeArgs<'a> {
    /// The encoder's settings.
    pub options: EncodeOptions,
    /// Whether progress is reported.
    pub progress: bool,
    /// Whether each packet is written as soon as its picture is read.
    pub live: bool,
    /// The greatest files that are read: the pictures of the file, and the pixels of each.
    pub limits: FileLimits,
    /// The file of pictures.
    pub input: &'a str,
    /// The file of packets.
    pub output: &'a str,
}
