//! Faults of WebP files, and of writing them.

ghost use Rattle.std.specs.Prelude.{Some};
ghost use Rattle.vp_webp.specs.Names.{webp_fault_name, webp_write_fault_name};

use std::fmt;

/// A fault of a WebP file.
#[derive(Clone, Copy, Debug, PartialEq, Eq)]
pub enum WebPFault {
    /// The file does not begin with `RIFF`, its size, and `WEBP`.
    Signature,
    /// The file, or the size in its header, ends inside a chunk.
    Torn,
    /// The picture is compressed losslessly (`VP8L`).
    Lossless,
    /// The file is an animation.
    Animated,
    /// No chunk is a picture.
    NoPicture,
    /// The picture is not a key frame.
    NotKey,
    /// The key frame is not to be shown.
    Hidden,
}

/// The name of the fault, as printed.
impl fmt::Display for WebPFault {
    ghost output = { λ fault. Some (webp_fault_name fault) };

    fn fmt<W: fmt::Write>(&self, f: &mut fmt::Formatter<W>) -> fmt::Result {
        f.write_str(match self {
            WebPFault::Signature => "Signature",
            WebPFault::Torn => "Torn",
            WebPFault::Lossless => "Lossless",
            WebPFault::Animated => "Animated",
            WebPFault::NoPicture => "NoPicture",
            WebPFault::NotKey => "NotKey",
            WebPFault::Hidden => "Hidden",
        })
    }
}

/// Why a packet is not written as a WebP file, or why the file is incomplete.
#[derive(Clone, Copy, Debug, PartialEq, Eq)]
pub enum WebPWriteFault {
    /// The packet is not a key frame.
    NotKey,
    /// The key frame is not to be shown.
    Hidden,
    /// The packet is too long for the sizes in the file.
    TooLong,
    /// A write failed.
    Device,
}

/// The name of the fault, as printed.
impl fmt::Display for WebPWriteFault {
    ghost output = { λ fault. Some (webp_write_fault_name fault) };

    fn fmt<W: fmt::Write>(&self, f: &mut fmt::Formatter<W>) -> fmt::Result {
        f.write_str(match self {
            WebPWriteFault::NotKey => "NotKey",
            WebPWriteFault::Hidden => "Hidden",
            WebPWriteFault::TooLong => "TooLong",
            WebPWriteFault::Device => "Device",
        })
    }
}
