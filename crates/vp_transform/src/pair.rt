//! The inverse DCT of two blocks at once, in i16 lanes. The numbers are so small that no intermediate result
//! overflows.

ghost use Rattle.std.specs.Prelude.{◌≡◌, ℕ, ◌<◌, ◌≤◌, pos, ◌*ℤ◌, map, unsigned_abs};
ghost use Rattle.vp_lanes.specs.Lane.{lane};
ghost use Rattle.vp_transform.specs.Fits.{EachWithin};
ghost use Rattle.vp_transform.specs.Pair.{row_in, even_block, odd_block, transposed};
ghost use Rattle.vp_transform.specs.Transform.{scaled, rounded, vertical, idct};
ghost use lib.Signed.{shr_z as floor_div};

use std::simd::prelude::*;

/// Half of sqrt 2 * sin (pi / 8), times 2^16.
const HALF_SINE: u16 = 17734;
/// sqrt 2 * cos (pi / 8) - 1, times 2^16.
const COSINE: u16 = 20091;

/// The inverse DCTs of two blocks of numbers from -2,200 to 2,200, given as four rows in which the numbers of both
/// alternate (RFC 6386, chapter 14.4). Each vector is a row of the first result, followed by the same row of the
/// second.
#[inline(always)]
pub fn idct_interleaved(i0: i16x8, i1: i16x8, i2: i16x8, i3: i16x8) -> (i16x8, i16x8, i16x8, i16x8)
    requires even { EachWithin 2200 (even_block i0 i1 i2 i3) }
    requires odd { EachWithin 2200 (odd_block i0 i1 i2 i3) }
    ensures top { result.0 ≡ row_in (idct (even_block i0 i1 i2 i3)) (idct (odd_block i0 i1 i2 i3)) 0 }
    ensures upper { result.1 ≡ row_in (idct (even_block i0 i1 i2 i3)) (idct (odd_block i0 i1 i2 i3)) 1 }
    ensures lower { result.2 ≡ row_in (idct (even_block i0 i1 i2 i3)) (idct (odd_block i0 i1 i2 i3)) 2 }
    ensures bottom { result.3 ≡ row_in (idct (even_block i0 i1 i2 i3)) (idct (odd_block i0 i1 i2 i3)) 3 }
{
    let (i0, i1, i2, i3) = idct_1d(i0, i1, i2, i3);
    let (i0, i1, i2, i3) = transpose(i0, i1, i2, i3);
    let (i0, i1, i2, i3) = idct_1d(i0, i1, i2, i3);
    let (i0, i1, i2, i3) = round(i0, i1, i2, i3);
    side_by_side(i0, i1, i2, i3)
}

/// The high halves of the lanes times `k`.
fn high(z: i16x8, k: u16) -> i16x8
    requires { k ≤ 32767 }
    ensures { (j : ℕ) → j < 8 → lane result j ≡ floor_div (lane z j *ℤ pos k) 65536 }
{
    ((z.cast::<i32>() * i32x8::splat(k as i32)) >> 16).cast::<i16>()
}

/// `sqrt 2 * sin (pi / 8) * z`, rounded down.
fn sine(z: i16x8) -> i16x8
    requires { (j : ℕ) → j < 8 → unsigned_abs (lane z j) ≤ 16383 }
    ensures { (j : ℕ) → j < 8 → lane result j ≡ scaled (lane z j) 35468 }
{
    high(z + z, HALF_SINE)
}

/// `(sqrt 2 * cos (pi / 8) - 1) * z`, rounded down.
fn cosine(z: i16x8) -> i16x8
    ensures { (j : ℕ) → j < 8 → lane result j ≡ scaled (lane z j) 20091 }
{
    high(z, COSINE)
}

/// The one-dimensional transform of each column.
fn idct_1d(i0: i16x8, i1: i16x8, i2: i16x8, i3: i16x8) -> (i16x8, i16x8, i16x8, i16x8)
    requires even { EachWithin 8466 (even_block i0 i1 i2 i3) }
    requires odd { EachWithin 8466 (odd_block i0 i1 i2 i3) }
    ensures even { even_block result.0 result.1 result.2 result.3 ≡ vertical (even_block i0 i1 i2 i3) }
    ensures odd { odd_block result.0 result.1 result.2 result.3 ≡ vertical (odd_block i0 i1 i2 i3) }
{
    let a = i0 + i2;
    let b = i0 - i2;
    let c = sine(i1) - (i3 + cosine(i3));
    let d = (i1 + cosine(i1)) + sine(i3);
    (a + d, b + c, b - c, a - d)
}

/// Transposes both blocks.
fn transpose(a: i16x8, b: i16x8, c: i16x8, d: i16x8) -> (i16x8, i16x8, i16x8, i16x8)
    ensures even { even_block result.0 result.1 result.2 result.3 ≡ transposed (even_block a b c d) }
    ensures odd { odd_block result.0 result.1 result.2 result.3 ≡ transposed (odd_block a b c d) }
{
    let e = a.shuffle::<8>(b, [0, 1, 8, 9, 2, 3, 10, 11]);
    let f = a.shuffle::<8>(b, [4, 5, 12, 13, 6, 7, 14, 15]);
    let g = c.shuffle::<8>(d, [0, 1, 8, 9, 2, 3, 10, 11]);
    let h = c.shuffle::<8>(d, [4, 5, 12, 13, 6, 7, 14, 15]);
    (
        e.shuffle::<8>(g, [0, 1, 2, 3, 8, 9, 10, 11]),
        e.shuffle::<8>(g, [4, 5, 6, 7, 12, 13, 14, 15]),
        f.shuffle::<8>(h, [0, 1, 2, 3, 8, 9, 10, 11]),
        f.shuffle::<8>(h, [4, 5, 6, 7, 12, 13, 14, 15]),
    )
}

/// `(z + 4) / 8` in each lane, rounded down.
fn round(a: i16x8, b: i16x8, c: i16x8, d: i16x8) -> (i16x8, i16x8, i16x8, i16x8)
    requires even { EachWithin 32763 (even_block a b c d) }
    requires odd { EachWithin 32763 (odd_block a b c d) }
    ensures even { even_block result.0 result.1 result.2 result.3 ≡ map (λ z. rounded z) (even_block a b c d) }
    ensures odd { odd_block result.0 result.1 result.2 result.3 ≡ map (λ z. rounded z) (odd_block a b c d) }
{
    let four = i16x8::splat(4);
    (
        (a + four) >> 3,
        (b + four) >> 3,
        (c + four) >> 3,
        (d + four) >> 3,
    )
}

/// Transposes two interleaved blocks, and puts their rows side by side.
fn side_by_side(a: i16x8, b: i16x8, c: i16x8, d: i16x8) -> (i16x8, i16x8, i16x8, i16x8)
    ensures top { result.0 ≡ row_in (transposed (even_block a b c d)) (transposed (odd_block a b c d)) 0 }
    ensures upper { result.1 ≡ row_in (transposed (even_block a b c d)) (transposed (odd_block a b c d)) 1 }
    ensures lower { result.2 ≡ row_in (transposed (even_block a b c d)) (transposed (odd_block a b c d)) 2 }
    ensures bottom { result.3 ≡ row_in (transposed (even_block a b c d)) (transposed (odd_block a b c d)) 3 }
{
    let (e, f) = a.interleave(c);
    let (g, h) = b.interleave(d);
    let (top, upper) = e.interleave(g);
    let (lower, bottom) = f.interleave(h);
    (top, upper, lower, bottom)
}
