//! The six-tap interpolation filters.

ghost use Rattle.std.specs.Prelude.{◌≡◌, ◌<◌};
ghost use Rattle.vp_tables.specs.Tables.{six_taps};

/// Filter weights of the pixels at offsets -2 to 3, by eighths of a pixel (RFC 6386, chapter 18.3).
pub static SIX_TAPS: [[i16; 6]; 8] = [
    [0, 0, 128, 0, 0, 0],
    [0, -6, 123, 12, -1, 0],
    [2, -11, 108, 36, -8, 1],
    [0, -9, 93, 50, -6, 0],
    [3, -16, 77, 77, -16, 3],
    [0, -6, 50, 93, -9, 0],
    [1, -8, 36, 108, -11, 2],
    [0, -1, 12, 123, -6, 0],
];

/// The six filter weights at this many eighths of a pixel.
#[tactic(auto, unfolding(crate::specs::Tables::six_taps))]
pub fn six_taps(eighths: usize) -> &'static [i16; 6]
    requires { eighths < 8 }
    ensures { result.now ≡ six_taps eighths }
{
    &SIX_TAPS[eighths]
}
