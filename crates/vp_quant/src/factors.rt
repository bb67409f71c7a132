//! The dequantisation factors of a macroblock.

ghost use Rattle.std.specs.Prelude.{◌≡◌, ◌+◌, ◌<◌, ◌≤◌, pos, ◌+ℤ◌};
ghost use Rattle.vp_quant.specs.Quant.{clamped_index, index_of, factors};

use vp_head::{Header, QuantiserIndices};
use vp_tables::{ac_factor, dc_factor};

/// The dequantisation factors of a macroblock's blocks (RFC 6386, chapter 14.1).
#[derive(Clone, Copy, Debug, PartialEq, Eq)]
pub struct Factors {
    /// DC of a luma block.
    pub y_dc: u16,
    /// AC of a luma block.
    pub y_ac: u16,
    /// DC of the Y2 block, which contains the luma DCs.
    pub y2_dc: u16,
    /// AC of the Y2 block.
    pub y2_ac: u16,
    /// DC of a chroma block.
    pub uv_dc: u16,
    /// AC of a chroma block.
    pub uv_ac: u16,
}

impl Factors {
    /// The factors of a quantiser index with the frame's deltas; `y_ac` of the deltas is not used (chapter 9.6).
    pub fn of(index: u8, deltas: &QuantiserIndices) -> Self
        ensures value { result ≡ factors index deltas.now }
        ensures least { (1 ≤ result.y_dc) × (1 ≤ result.y_ac) × (1 ≤ result.y2_dc) × (1 ≤ result.y2_ac)
            × (1 ≤ result.uv_dc) × (1 ≤ result.uv_ac) }
        ensures greatest { (result.y_dc ≤ 157) × (result.y_ac ≤ 284) × (result.y2_dc ≤ 314) × (result.y2_ac ≤ 440)
            × (result.uv_dc ≤ 132) × (result.uv_ac ≤ 284) }
    {
        Self {
            y_dc: dc_factor(moved(index, deltas.y_dc)),
            y_ac: ac_factor(moved(index, 0)),
            y2_dc: 2 * dc_factor(moved(index, deltas.y2_dc)),
            y2_ac: (ac_factor(moved(index, deltas.y2_ac)) * 155 / 100).max(8),
            uv_dc: dc_factor(moved(index, deltas.uv_dc)).min(132),
            uv_ac: ac_factor(moved(index, deltas.uv_ac)),
        }
    }
}

/// The quantiser index of a segment, 0 to 127. Without segmentation it is the frame's; else the segment's value, or
/// the sum of both (chapters 9.3 and 9.6).
pub fn segment_index(header: &Header, segment: u8) -> u8
    requires { segment < 4 }
    ensures value { result ≡ index_of header.now segment }
    ensures bound { result ≤ 127 }
{
    let segmentation = &header.segmentation;
    if !segmentation.enabled {
        return moved(header.quantiser.y_ac, 0);
    }
    let value = segmentation.values.quantisers[segment as usize];
    let frame = if segmentation.values.absolute {
        0
    } else {
        header.quantiser.y_ac
    };
    moved(frame, value)
}

/// `index + difference`, clamped to 0 to 127.
fn moved(index: u8, difference: i8) -> u8
    ensures value { result ≡ clamped_index (pos index +ℤ difference) }
    ensures bound { result ≤ 127 }
{
    (i16::from(index) + i16::from(difference)).clamp(0, 127) as u8
}
