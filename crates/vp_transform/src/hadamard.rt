//! The inverse Walsh-Hadamard transform (RFC 6386, chapter 14.3).

ghost use Rattle.std.specs.Prelude.{◌≡◌, ℕ, ◌+◌, ◌*◌, ◌<◌, ◌≤◌, ◌^◌, ◌∷◌, replicate, pos, ◌+ℤ◌, map, slice_index_or};
ghost use Rattle.std.specs.Prelude.{unsigned_abs};
ghost use Rattle.vp_transform.specs.Steps.{mixed, column_product, row_product};
ghost use Rattle.vp_transform.specs.Fits.{Fits, IwhtFits, EachWithin, column_size, row_size};
ghost use Rattle.vp_transform.specs.Transform.{iwht, hadamard_times, times_hadamard};
ghost use lib.Signed.{shr_z as floor_div};

use crate::hadamard_lanes::narrow_iwht;
use crate::lanes::is_narrow;

/// Blocks whose numbers are below this bound are transformed in i32 lanes. The numbers of streams always are.
const NARROW: u64 = 1 << 26;

/// The inverse Walsh-Hadamard transform of a block of sixteen numbers in raster order (RFC 6386, chapter 14.3).
pub fn iwht(block: &[i64; 16]) -> [i64; 16]
    requires { IwhtFits block.now }
    ensures value { result ≡ iwht block.now }
    ensures within { (b : ℕ) → EachWithin b block.now → EachWithin (2 * b) result }
{
    if is_narrow(block, NARROW) {
        narrow_iwht(block)
    } else {
        wide_iwht(block)
    }
}

/// The inverse Walsh-Hadamard transform in i64, for every block whose transform fits.
pub(crate) fn wide_iwht(block: &[i64; 16]) -> [i64; 16]
    requires { IwhtFits block.now }
    ensures { result ≡ iwht block.now }
{
    all_rounded(&by_rows(&by_columns(block)))
}

/// The value of each number of `iwht` of a DC-only block, whose numbers after `dc` are all 0.
pub fn iwht_of_dc(dc: i64) -> i64
    requires { unsigned_abs dc + 3 < 2 ^ 63 }
    ensures value { iwht (dc ∷ replicate 15 (pos 0)) ≡ replicate 16 result }
    ensures within { unsigned_abs result ≤ unsigned_abs dc }
{
    round(dc)
}

/// The product of the matrix and the block.
pub(crate) fn by_columns(x: &[i64; 16]) -> [i64; 16]
    requires { IwhtFits x.now }
    ensures { result ≡ hadamard_times x.now }
{
    let a = column(x, 0);
    let b = column(x, 1);
    let c = column(x, 2);
    let d = column(x, 3);
    [
        a[0], b[0], c[0], d[0], a[1], b[1], c[1], d[1], a[2], b[2], c[2], d[2], a[3], b[3], c[3],
        d[3],
    ]
}

/// The product of the matrix and column `c`.
fn column(x: &[i64; 16], c: usize) -> [i64; 4]
    requires inside { c < 4 }
    requires fits { column_size x.now c < 2 ^ 63 }
    ensures { result ≡ column_product x.now c }
{
    mix(x[c], x[4 + c], x[8 + c], x[12 + c])
}

/// The product of the block and the matrix.
pub(crate) fn by_rows(x: &[i64; 16]) -> [i64; 16]
    requires { (r : ℕ) → r < 4 → row_size x.now r + 3 < 2 ^ 63 }
    ensures value { result ≡ times_hadamard x.now }
    ensures sizes { (k : ℕ) → k < 16 → unsigned_abs (slice_index_or result k (pos 0)) + 3 < 2 ^ 63 }
{
    let a = row(x, 0);
    let b = row(x, 1);
    let c = row(x, 2);
    let d = row(x, 3);
    [
        a[0], a[1], a[2], a[3], b[0], b[1], b[2], b[3], c[0], c[1], c[2], c[3], d[0], d[1], d[2],
        d[3],
    ]
}

/// The product of row `r` and the matrix.
fn row(x: &[i64; 16], r: usize) -> [i64; 4]
    requires inside { r < 4 }
    requires fits { row_size x.now r + 3 < 2 ^ 63 }
    ensures { result ≡ row_product x.now r }
{
    mix(x[4 * r], x[4 * r + 1], x[4 * r + 2], x[4 * r + 3])
}

/// Rounds each number of a block.
fn all_rounded(x: &[i64; 16]) -> [i64; 16]
    requires { (k : ℕ) → k < 16 → unsigned_abs (slice_index_or x.now k (pos 0)) + 3 < 2 ^ 63 }
    ensures { result ≡ map (λ z. floor_div (z +ℤ pos 3) 8) x.now }
{
    let mut block = [0; 16];
    for i in 0..16 {
        block[i] = round(x[i]);
    }
    block
}

fn round(z: i64) -> i64
    requires { Fits (z +ℤ pos 3) }
    ensures { result ≡ floor_div (z +ℤ pos 3) 8 }
{
    (z + 3) >> 3
}

/// The sums of four numbers with the signs of the matrix's rows.
pub(crate) fn mix(i0: i64, i1: i64, i2: i64, i3: i64) -> [i64; 4]
    requires { unsigned_abs i0 + unsigned_abs i1 + unsigned_abs i2 + unsigned_abs i3 < 2 ^ 63 }
    ensures { result ≡ mixed i0 i1 i2 i3 }
{
    let a = i0 + i3;
    let b = i1 + i2;
    let c = i1 - i2;
    let d = i0 - i3;
    [a + b, c + d, a - b, d - c]
}
