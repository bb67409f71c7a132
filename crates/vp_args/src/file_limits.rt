//! The limits on files that options give.

ghost use Rattle.std.specs.Prelude.{◌≤◌, ◌<◌};

/// The greatest files that are read.
#[derive(Clone, Copy, Debug, PartialEq, Eq)]
pub struct FileLimits {
    /// Packets of a file: at most 16,777,216.
    pub packets: u32,
    /// Pixels of a picture: at most 268,402,689.
    pub pixels: u32,
    ghost packets_in_range: { 0 < packets × packets ≤ 16777216 },
    ghost pixels_in_range: { 0 < pixels × pixels ≤ 268402689 },
}
