//! The inverse DCT clamped to i16, for a residue that is added to pixels.

ghost use Rattle.std.specs.Prelude.{◌≡◌, ℕ, ◌<◌, pos, slice_index_or};
ghost use Rattle.vp_transform.specs.Fits.{EachWithin, IdctFits};
ghost use Rattle.vp_transform.specs.Transform.{idct};
ghost use Rattle.vp_transform.specs.Short.{cut};

use crate::cosine::wide_idct;
use crate::lanes::{inverse_rows, is_narrow, row, short_joined};

/// Blocks whose numbers are below this bound are transformed in i32 lanes, and the results fit in i16.
const NARROW: u64 = 1 << 12;

/// The inverse DCT of a block, with each number clamped to i16.
pub fn idct_cut(block: &[i64; 16]) -> [i16; 16]
    requires { IdctFits block.now }
    ensures { (i : ℕ) → i < 16 → slice_index_or result i (pos 0) ≡ cut (slice_index_or (idct block.now) i (pos 0)) }
{
    if is_narrow(block, NARROW) {
        narrow_idct_cut(block)
    } else {
        all_cut(&wide_idct(block))
    }
}

/// The inverse DCT of a block of numbers from -4,096 to 4,096. No number has to be clamped.
fn narrow_idct_cut(block: &[i64; 16]) -> [i16; 16]
    requires { EachWithin 4096 block.now }
    ensures { result ≡ idct block.now }
{
    let (a, b, c, d) = inverse_rows(row(block, 0), row(block, 1), row(block, 2), row(block, 3));
    short_joined(a, b, c, d)
}

/// Clamps each number to i16.
pub(crate) fn all_cut(numbers: &[i64; 16]) -> [i16; 16]
    ensures { (i : ℕ) → i < 16 → slice_index_or result i (pos 0) ≡ cut (slice_index_or numbers.now i (pos 0)) }
{
    let mut kept = [0; 16];
    for i in 0..16 {
        kept[i] = cut(numbers[i]);
    }
    kept
}

/// Clamps a number to i16.
#[tactic(auto, unfolding(crate::specs::Short::cut))]
pub fn cut(z: i64) -> i16
    ensures { result ≡ cut z }
{
    z.clamp(-32768, 32767) as i16
}
