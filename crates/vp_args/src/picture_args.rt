//! The arguments of `vp8 picture`.

ghost use Rattle.std.specs.Prelude.{◌≤◌};

use crate::file_limits::FileLimits;
use vp_scale::Scale;

/// The form of a picture's file.
#[derive(Clone, Copy, Debug, PartialEq, Eq)]
pub enum StillForm {
    /// A lossy WebP file.
    WebP,
    /// A YUV4MPEG2 file of one frame.
    Y4m,
    /// Y, U and V by rows.
    I420,
    /// A binary PPM file: red, green and blue of each pixel.
    Ppm,
}

/// The arguments of `vp8 picture`.
#[derive(Drop)]
pub struct PictureArgs<'a> {
    /// The packet whose picture is written, counted from 0; `None`: the first that shows one.
    pub packet: Option<u32>,
    /// What the picture's sides are divided by.
    pub scale: Scale,
    /// The quantiser index of a picture that is encoded anew.
    pub qi: u8,
    /// The greatest files that are read.
    pub limits: FileLimits,
    /// The form of the written file.
    pub form: StillForm,
    /// The IVF or WebP file, or `-` for standard input.
    pub input: &'a str,
    /// The file of the picture.
    pub output: &'a str,
    ghost qi_in_range: { qi ≤ 127 },
}
