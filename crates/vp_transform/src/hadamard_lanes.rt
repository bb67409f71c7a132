//! The Walsh-Hadamard transforms in i32 lanes, one vector for each row. The numbers are so small that no intermediate
//! result overflows.

ghost use Rattle.std.specs.Prelude.{◌≡◌, ℕ, ◌*◌, ◌^◌, pos, ◌+ℤ◌, map};
ghost use Rattle.vp_transform.specs.Fits.{EachWithin};
ghost use Rattle.vp_transform.specs.Forward.{fwht};
ghost use Rattle.vp_transform.specs.Narrow.{block_in};
ghost use Rattle.vp_transform.specs.Transform.{hadamard_times, iwht};
ghost use lib.Signed.{shr_z as floor_div};

use crate::lanes::{joined, row, short_joined, short_row, transpose};
use std::simd::prelude::*;

/// The product of the matrix and a block; the vectors are rows.
fn mix(i0: i32x4, i1: i32x4, i2: i32x4, i3: i32x4) -> (i32x4, i32x4, i32x4, i32x4)
    requires { EachWithin (2 ^ 28) (block_in i0 i1 i2 i3) }
    ensures { block_in result.0 result.1 result.2 result.3 ≡ hadamard_times (block_in i0 i1 i2 i3) }
{
    let a = i0 + i3;
    let b = i1 + i2;
    let c = i1 - i2;
    let d = i0 - i3;
    (a + b, c + d, a - b, d - c)
}

/// `(z + 3) / 8` in each lane, rounded down.
fn rounded(a: i32x4, b: i32x4, c: i32x4, d: i32x4) -> (i32x4, i32x4, i32x4, i32x4)
    requires { EachWithin (2 ^ 30) (block_in a b c d) }
    ensures { block_in result.0 result.1 result.2 result.3 ≡ map (λ z. floor_div (z +ℤ pos 3) 8) (block_in a b c d) }
{
    let three = i32x4::splat(3);
    (
        (a + three) >> 3,
        (b + three) >> 3,
        (c + three) >> 3,
        (d + three) >> 3,
    )
}

/// The inverse Walsh-Hadamard transform of a block of small numbers.
pub(crate) fn narrow_iwht(block: &[i64; 16]) -> [i64; 16]
    requires { EachWithin (2 ^ 26) block.now }
    ensures { result ≡ iwht block.now }
{
    let (a, b, c, d) = mix(row(block, 0), row(block, 1), row(block, 2), row(block, 3));
    let (a, b, c, d) = transpose(a, b, c, d);
    let (a, b, c, d) = mix(a, b, c, d);
    let (a, b, c, d) = rounded(a, b, c, d);
    let (a, b, c, d) = transpose(a, b, c, d);
    joined(a, b, c, d)
}

/// The inverse Walsh-Hadamard transform of a block of numbers from -8,191 to 8,191 (RFC 6386, chapter 14.3). It gives
/// the result of `iwht`, in lanes and without a test of the block.
pub fn iwht_short(block: &[i16; 16]) -> [i16; 16]
    requires { EachWithin 8191 block.now }
    ensures value { result ≡ iwht block.now }
    ensures within { (b : ℕ) → EachWithin b block.now → EachWithin (2 * b) result }
{
    let (a, b, c, d) = mix(
        short_row(block, 0),
        short_row(block, 1),
        short_row(block, 2),
        short_row(block, 3),
    );
    let (a, b, c, d) = transpose(a, b, c, d);
    let (a, b, c, d) = mix(a, b, c, d);
    let (a, b, c, d) = rounded(a, b, c, d);
    let (a, b, c, d) = transpose(a, b, c, d);
    short_joined(a, b, c, d)
}

/// `(z + 1) / 2` in each lane, rounded down.
fn halved(a: i32x4, b: i32x4, c: i32x4, d: i32x4) -> (i32x4, i32x4, i32x4, i32x4)
    requires { EachWithin (2 ^ 30) (block_in a b c d) }
    ensures { block_in result.0 result.1 result.2 result.3 ≡ map (λ z. floor_div (z +ℤ pos 1) 2) (block_in a b c d) }
{
    let one = i32x4::splat(1);
    (
        (a + one) >> 1,
        (b + one) >> 1,
        (c + one) >> 1,
        (d + one) >> 1,
    )
}

/// The forward Walsh-Hadamard transform of a block of numbers from -2,040 to 2,040, which are first coefficients of
/// `fdct_short`. It gives the result of `fwht`, in lanes.
pub fn fwht_short(block: &[i16; 16]) -> [i16; 16]
    requires { EachWithin 2040 block.now }
    ensures value { result ≡ fwht block.now }
    ensures within { EachWithin 16320 result }
{
    let (a, b, c, d) = mix(
        short_row(block, 0),
        short_row(block, 1),
        short_row(block, 2),
        short_row(block, 3),
    );
    let (a, b, c, d) = transpose(a, b, c, d);
    let (a, b, c, d) = mix(a, b, c, d);
    let (a, b, c, d) = halved(a, b, c, d);
    let (a, b, c, d) = transpose(a, b, c, d);
    short_joined(a, b, c, d)
}
