//! The inverse DCT in i32 lanes, one vector for each row. The numbers are so small that no intermediate result
//! overflows.

ghost use Rattle.std.specs.Prelude.{◌≡◌, ℕ, ◌*◌, ◌^◌, ◌<◌, ◌≤◌, true};
ghost use Rattle.vp_lanes.specs.Lane.{lane};
ghost use Rattle.vp_transform.specs.Fits.{EachWithin};
ghost use Rattle.vp_transform.specs.Narrow.{column_of, block_in, LanesWithin};
ghost use Rattle.vp_transform.specs.Transform.{element_at, turned, rounded, idct};

use std::simd::prelude::*;

/// sqrt 2 * sin (pi / 8), times 2^16.
const SINE: i32 = 35468;
/// sqrt 2 * cos (pi / 8) - 1, times 2^16.
const COSINE: i32 = 20091;

/// Whether each number is from `-bound` to `bound - 1`. `bound` must be a power of two.
pub(crate) fn is_narrow(block: &[i64; 16], bound: u64) -> bool
    requires { bound ≤ 2 ^ 40 }
    ensures { result ≡ true → EachWithin bound block.now }
{
    let mut bits = 0u64;
    for i in 0..16 {
        bits |= block[i].cast_unsigned().wrapping_add(bound);
    }
    bits < 2 * bound
}

/// Loads row `r` of a block of small numbers.
pub(crate) fn row(block: &[i64; 16], r: usize) -> i32x4
    requires inside { r < 4 }
    requires small { EachWithin (2 ^ 26) block.now }
    ensures { (j : ℕ) → j < 4 → lane result j ≡ element_at block.now r j }
{
    let i = 4 * r;
    i64x4::from_array([block[i], block[i + 1], block[i + 2], block[i + 3]]).cast::<i32>()
}

/// The block with these four rows.
pub(crate) fn joined(a: i32x4, b: i32x4, c: i32x4, d: i32x4) -> [i64; 16]
    ensures { result ≡ block_in a b c d }
{
    let [a0, a1, a2, a3] = a.cast::<i64>().to_array();
    let [b0, b1, b2, b3] = b.cast::<i64>().to_array();
    let [c0, c1, c2, c3] = c.cast::<i64>().to_array();
    let [d0, d1, d2, d3] = d.cast::<i64>().to_array();
    [
        a0, a1, a2, a3, b0, b1, b2, b3, c0, c1, c2, c3, d0, d1, d2, d3,
    ]
}

/// Transposes four rows.
pub(crate) fn transpose(a: i32x4, b: i32x4, c: i32x4, d: i32x4) -> (i32x4, i32x4, i32x4, i32x4)
    ensures first { result.0 ≡ column_of a b c d 0 }
    ensures second { result.1 ≡ column_of a b c d 1 }
    ensures third { result.2 ≡ column_of a b c d 2 }
    ensures fourth { result.3 ≡ column_of a b c d 3 }
{
    let (e, f) = a.interleave(c);
    let (g, h) = b.interleave(d);
    let (first, second) = e.interleave(g);
    let (third, fourth) = f.interleave(h);
    (first, second, third, fourth)
}

/// The one-dimensional transform of each column.
fn idct_1d(i0: i32x4, i1: i32x4, i2: i32x4, i3: i32x4) -> (i32x4, i32x4, i32x4, i32x4)
    requires first { LanesWithin 40960 i0 }
    requires second { LanesWithin 40960 i1 }
    requires third { LanesWithin 40960 i2 }
    requires fourth { LanesWithin 40960 i3 }
    ensures { (j : ℕ) → j < 4 → column_of result.0 result.1 result.2 result.3 j
        ≡ turned (lane i0 j) (lane i1 j) (lane i2 j) (lane i3 j) }
{
    let sine = i32x4::splat(SINE);
    let cosine = i32x4::splat(COSINE);
    let a = i0 + i2;
    let b = i0 - i2;
    let c = ((i1 * sine) >> 16) - (i3 + ((i3 * cosine) >> 16));
    let d = (i1 + ((i1 * cosine) >> 16)) + ((i3 * sine) >> 16);
    (a + d, b + c, b - c, a - d)
}

/// `(z + 4) / 8` in each lane, rounded down.
fn round(z: i32x4) -> i32x4
    requires { LanesWithin 204800 z }
    ensures { (j : ℕ) → j < 4 → lane result j ≡ rounded (lane z j) }
{
    (z + i32x4::splat(4)) >> 3
}

/// The inverse DCT of a block of small numbers; vectors are rows.
pub(crate) fn inverse_rows(a: i32x4, b: i32x4, c: i32x4, d: i32x4) -> (i32x4, i32x4, i32x4, i32x4)
    requires first { LanesWithin 8192 a }
    requires second { LanesWithin 8192 b }
    requires third { LanesWithin 8192 c }
    requires fourth { LanesWithin 8192 d }
    ensures { block_in result.0 result.1 result.2 result.3 ≡ idct (block_in a b c d) }
{
    let (a, b, c, d) = idct_1d(a, b, c, d);
    let (a, b, c, d) = transpose(a, b, c, d);
    let (a, b, c, d) = idct_1d(a, b, c, d);
    transpose(round(a), round(b), round(c), round(d))
}

/// The inverse DCT of a block of small numbers.
pub(crate) fn narrow_idct(block: &[i64; 16]) -> [i64; 16]
    requires { EachWithin 8192 block.now }
    ensures { result ≡ idct block.now }
{
    let (a, b, c, d) = inverse_rows(row(block, 0), row(block, 1), row(block, 2), row(block, 3));
    joined(a, b, c, d)
}

/// The inverse DCT of a block of numbers from -8,191 to 8,191. It gives the result of `idct`, in lanes and without a
/// test of the block.
pub fn idct_short(block: &[i16; 16]) -> [i16; 16]
    requires { EachWithin 8191 block.now }
    ensures { result ≡ idct block.now }
{
    let (a, b, c, d) = inverse_rows(
        short_row(block, 0),
        short_row(block, 1),
        short_row(block, 2),
        short_row(block, 3),
    );
    short_joined(a, b, c, d)
}

/// Loads row `r` of a block of small i16 numbers.
pub(crate) fn short_row(block: &[i16; 16], r: usize) -> i32x4
    requires inside { r < 4 }
    requires small { EachWithin 8191 block.now }
    ensures { (j : ℕ) → j < 4 → lane result j ≡ element_at block.now r j }
{
    let i = 4 * r;
    i16x4::from_array([block[i], block[i + 1], block[i + 2], block[i + 3]]).cast::<i32>()
}

/// The i16 block with these four rows.
pub(crate) fn short_joined(a: i32x4, b: i32x4, c: i32x4, d: i32x4) -> [i16; 16]
    requires first { LanesWithin 32764 a }
    requires second { LanesWithin 32764 b }
    requires third { LanesWithin 32764 c }
    requires fourth { LanesWithin 32764 d }
    ensures { result ≡ block_in a b c d }
{
    let [a0, a1, a2, a3] = a.cast::<i16>().to_array();
    let [b0, b1, b2, b3] = b.cast::<i16>().to_array();
    let [c0, c1, c2, c3] = c.cast::<i16>().to_array();
    let [d0, d1, d2, d3] = d.cast::<i16>().to_array();
    [
        a0, a1, a2, a3, b0, b1, b2, b3, c0, c1, c2, c3, d0, d1, d2, d3,
    ]
}
