//! The encoder's forward DCT of small numbers, in 16-bit lanes with 32-bit products. No intermediate result overflows.

ghost use Rattle.std.specs.Prelude.{◌≡◌, ℕ, ◌<◌, ◌≤◌, pos, ◌+ℤ◌, ◌-ℤ◌, ◌*ℤ◌, slice_index, slice_index_or};
ghost use Rattle.std.specs.Prelude.{unsigned_abs};
ghost use Rattle.vp_lanes.specs.Lane.{lane};
ghost use Rattle.vp_transform.specs.Fits.{EachWithin};
ghost use Rattle.vp_transform.specs.Narrow.{block_in, LanesWithin};
ghost use Rattle.vp_transform.specs.Pair.{transposed};
ghost use Rattle.vp_transform.specs.Forward.{row_pass, column_pass, fdct};
ghost use lib.Signed.{shr_z as floor_div};

use std::simd::prelude::*;

/// sqrt 2 * sin (pi / 8), times 2^12.
const SINE: i32 = 2217;
/// sqrt 2 * cos (pi / 8), times 2^12.
const COSINE: i32 = 5352;

/// The forward DCT of a block of sixteen numbers from -255 to 255: the differences of two blocks of bytes. It gives
/// the result of `fdct`, in lanes.
pub fn fdct_short(block: &[i16; 16]) -> [i16; 16]
    requires { EachWithin 255 block.now }
    ensures value { result ≡ fdct block.now }
    ensures within { EachWithin 2040 result }
{
    let (a, b, c, d) = columns_of(block);
    let (a, b, c, d) = across(a, b, c, d);
    let (a, b, c, d) = transpose(a, b, c, d);
    let (a, b, c, d) = down(a, b, c, d);
    joined(a, b, c, d)
}

/// The differences of two blocks of bytes, as `fdct_short` takes them.
pub fn differences(a: &[u8; 16], b: &[u8; 16]) -> [i16; 16]
    ensures value { (i : ℕ) → i < 16
        → slice_index_or result i (pos 0) ≡ pos (slice_index a.now i) -ℤ pos (slice_index b.now i) }
    ensures within { EachWithin 255 result }
{
    lanes_apart(u8x16::from_array(*a), u8x16::from_array(*b)).to_array()
}

/// The differences of two vectors of bytes.
fn lanes_apart(a: u8x16, b: u8x16) -> i16x16
    ensures value { (j : ℕ) → j < 16 → lane result j ≡ pos (slice_index a j) -ℤ pos (slice_index b j) }
    ensures within { (j : ℕ) → j < 16 → unsigned_abs (lane result j) ≤ 255 }
{
    a.cast::<i16>() - b.cast::<i16>()
}

/// The columns of a block.
fn columns_of(block: &[i16; 16]) -> (i16x4, i16x4, i16x4, i16x4)
    requires { EachWithin 255 block.now }
    ensures { block_in result.0 result.1 result.2 result.3 ≡ transposed block.now }
{
    let all = i16x16::from_array(*block);
    (
        all.swizzle::<4>([0, 4, 8, 12]),
        all.swizzle::<4>([1, 5, 9, 13]),
        all.swizzle::<4>([2, 6, 10, 14]),
        all.swizzle::<4>([3, 7, 11, 15]),
    )
}

/// The block with these four rows.
fn joined(a: i16x4, b: i16x4, c: i16x4, d: i16x4) -> [i16; 16]
    ensures { result ≡ block_in a b c d }
{
    let [a0, a1, a2, a3] = a.to_array();
    let [b0, b1, b2, b3] = b.to_array();
    let [c0, c1, c2, c3] = c.to_array();
    let [d0, d1, d2, d3] = d.to_array();
    [
        a0, a1, a2, a3, b0, b1, b2, b3, c0, c1, c2, c3, d0, d1, d2, d3,
    ]
}

/// Transposes four rows.
fn transpose(a: i16x4, b: i16x4, c: i16x4, d: i16x4) -> (i16x4, i16x4, i16x4, i16x4)
    ensures { block_in result.0 result.1 result.2 result.3 ≡ transposed (block_in a b c d) }
{
    let (e, f) = a.interleave(c);
    let (g, h) = b.interleave(d);
    let (first, second) = e.interleave(g);
    let (third, fourth) = f.interleave(h);
    (first, second, third, fourth)
}

/// Transforms each row; the vectors are columns.
fn across(i0: i16x4, i1: i16x4, i2: i16x4, i3: i16x4) -> (i16x4, i16x4, i16x4, i16x4)
    requires { EachWithin 255 (block_in i0 i1 i2 i3) }
    ensures { block_in result.0 result.1 result.2 result.3
        ≡ transposed (row_pass (transposed (block_in i0 i1 i2 i3))) }
{
    let eight = i16x4::splat(8);
    let a = eight * (i0 + i3);
    let b = eight * (i1 + i2);
    let c = eight * (i1 - i2);
    let d = eight * (i0 - i3);
    (
        a + b,
        row_rounded(sum_of(c, d)),
        a - b,
        row_rounded(difference_of(c, d)),
    )
}

/// Transforms each column; the vectors are rows.
fn down(i0: i16x4, i1: i16x4, i2: i16x4, i3: i16x4) -> (i16x4, i16x4, i16x4, i16x4)
    requires { EachWithin 8160 (block_in i0 i1 i2 i3) }
    ensures { block_in result.0 result.1 result.2 result.3 ≡ column_pass (block_in i0 i1 i2 i3) }
{
    let seven = i16x4::splat(7);
    let a = i0 + i3;
    let b = i1 + i2;
    let c = i1 - i2;
    let d = i0 - i3;
    (
        (a + b + seven) >> 4,
        column_rounded(sum_of(c, d)),
        (a - b + seven) >> 4,
        column_rounded(difference_of(c, d)),
    )
}

/// The sine times `c` plus the cosine times `d`.
fn sum_of(c: i16x4, d: i16x4) -> i32x4
    requires c { LanesWithin 16320 c }
    requires d { LanesWithin 16320 d }
    ensures value { (j : ℕ) → j < 4 → lane result j ≡ pos 2217 *ℤ lane c j +ℤ pos 5352 *ℤ lane d j }
    ensures within { LanesWithin 123526080 result }
{
    i32x4::splat(SINE) * c.cast::<i32>() + i32x4::splat(COSINE) * d.cast::<i32>()
}

/// The sine times `d` minus the cosine times `c`.
fn difference_of(c: i16x4, d: i16x4) -> i32x4
    requires c { LanesWithin 16320 c }
    requires d { LanesWithin 16320 d }
    ensures value { (j : ℕ) → j < 4 → lane result j ≡ pos 2217 *ℤ lane d j -ℤ pos 5352 *ℤ lane c j }
    ensures within { LanesWithin 123526080 result }
{
    i32x4::splat(SINE) * d.cast::<i32>() - i32x4::splat(COSINE) * c.cast::<i32>()
}

/// `(z + 2048) / 4096` in each lane, rounded down.
fn row_rounded(z: i32x4) -> i16x4
    requires { LanesWithin 123526080 z }
    ensures { (j : ℕ) → j < 4 → lane result j ≡ floor_div (lane z j +ℤ pos 2048) 4096 }
{
    ((z + i32x4::splat(2048)) >> 12).cast::<i16>()
}

/// `(z + 32768) / 65536` in each lane, rounded down.
fn column_rounded(z: i32x4) -> i16x4
    requires { LanesWithin 123526080 z }
    ensures { (j : ℕ) → j < 4 → lane result j ≡ floor_div (lane z j +ℤ pos 32768) 65536 }
{
    ((z + i32x4::splat(32768)) >> 16).cast::<i16>()
}
