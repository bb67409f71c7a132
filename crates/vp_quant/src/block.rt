//! Dequantisation of a block.

ghost use Rattle.std.specs.Prelude.{◌≡◌, ℕ, ◌*◌, ◌^◌, ◌<◌, ◌≤◌, max, pos, unsigned_abs, slice_index_or};
ghost use Rattle.vp_tables.specs.Tables.{zigzag};
ghost use Rattle.vp_quant.specs.Quant.{coefficient, dequantised};

use vp_tables::zigzag;

/// Dequantises a block: sixteen levels in zigzag order give coefficients in raster order. The first level is
/// multiplied by `dc`, the others by `ac` (RFC 6386, chapters 13 and 14.1).
pub fn dequant(levels: &[i16; 16], dc: u16, ac: u16) -> [i64; 16]
    ensures value { result ≡ dequantised levels.now dc ac }
    ensures within { (i : ℕ) → unsigned_abs (slice_index_or result i (pos 0)) ≤ 2 ^ 31 }
    ensures places { (i : ℕ) → i < 16 → slice_index_or result (zigzag i) (pos 0) ≡ coefficient levels.now dc ac i }
    ensures small { (m : ℕ) → ((i : ℕ) → unsigned_abs (slice_index_or levels.now i (pos 0)) ≤ m) → (i : ℕ)
        → unsigned_abs (slice_index_or result i (pos 0)) ≤ m * max dc ac }
{
    let mut block = [0; 16];
    for position in 0..16 {
        block[zigzag(position)] = coefficient(levels, position, dc, ac);
    }
    block
}

/// The level at a position times its factor.
fn coefficient(levels: &[i16; 16], position: usize, dc: u16, ac: u16) -> i64
    requires { position < 16 }
    ensures value { result ≡ coefficient levels.now dc ac position }
    ensures within { unsigned_abs result ≤ 2 ^ 31 }
{
    let factor = if position == 0 { dc } else { ac };
    i64::from(levels[position]) * i64::from(factor)
}
