//! The encoder's settings.

/// The encoder's settings.
#[derive(Clone, Copy, Debug, PartialEq, Eq)]
pub struct Settings {
    /// The quantiser index, 0 to 127; 0 is the best quality.
    pub qi: u8,
    /// The loop filter level, 0 to 63; 0 turns the filter off.
    pub level: u8,
    /// The loop filter sharpness, 0 to 7.
    pub sharpness: u8,
    /// Whether the simple loop filter is used.
    pub simple: bool,
    /// The key frame interval in frames, at least 1; 1 makes each frame a key frame.
    pub key_every: u32,
    /// The golden frame interval in frames. With 0, golden stays that of the key frame, and isn't searched.
    pub golden_every: u32,
    /// The search range in whole pixels, in each direction: 0 to 64.
    pub range: u8,
    /// Whether vectors are refined to quarter pixels.
    pub subpel: bool,
    /// The number of token partitions in a packet: 1, 2, 4 or 8.
    pub partitions: u8,
}
