//! The encoder's settings in C's types.

ghost use Rattle.std.specs.Prelude.{◌≡◌, ◌⊎◌, IsNone, IfSome};
ghost use Rattle.vp_base.specs.Limits.{IsSide, IsNoSide};

use vp_base::{Dim, Limits};
use vp_encode::Settings;

/// The encoder's settings in C's types.
#[repr(C)]
#[derive(Clone, Copy)]
pub struct EncoderSettings {
    /// The quantiser index, 0 to 127; 0 is the best quality.
    pub qi: u8,
    /// The loop filter level, 0 to 63; 0 turns the filter off.
    pub level: u8,
    /// The loop filter sharpness, 0 to 7.
    pub sharpness: u8,
    /// Not 0: use the simple loop filter.
    pub simple: u8,
    /// The key frame interval in frames, at least 1.
    pub key_every: u32,
    /// The golden frame interval in frames. With 0, golden stays that of the key frame.
    pub golden_every: u32,
    /// The search range in whole pixels, 0 to 64.
    pub range: u8,
    /// Not 0: refine vectors to quarter pixels.
    pub subpel: u8,
    /// The number of token partitions in a packet: 1, 2, 4 or 8.
    pub partitions: u8,
}

impl EncoderSettings {
    ghost use Rattle.vp8_c.specs.EncoderHandle.{settings_in};

    /// Converts the settings to the library's type.
    pub fn settings(&self) -> Settings
        ensures { result ≡ settings_in self.now }
    {
        Settings {
            qi: self.qi,
            level: self.level,
            sharpness: self.sharpness,
            simple: self.simple != 0,
            key_every: self.key_every,
            golden_every: self.golden_every,
            range: self.range,
            subpel: self.subpel != 0,
            partitions: self.partitions,
        }
    }
}

/// Returns the size of a picture. None if a side is 0 or greater than 16,383.
pub fn dim_of(width: u32, height: u32) -> Option<Dim>
    ensures none { IsNone result → IsNoSide width ⊎ IsNoSide height }
    ensures some { IfSome result (λ d. (d.w ≡ width) × (d.h ≡ height) × IsSide width × IsSide height) }
{
    if width > 16_383 || height > 16_383 {
        return None;
    }
    let Some(limits) = Limits::new(268_402_689, 1, 1, 1) else {
        unreachable!();
    };
    match Dim::new(width as u16, height as u16, &limits) {
        Ok(dim) => Some(dim),
        Err(_) => None,
    }
}
