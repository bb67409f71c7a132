//! The plain transforms, which only tests call: the encoder's forward transforms are `fdct_short` and `fwht_short`, and
//! decoding has `idct_short`, `idct_interleaved` and `idct_cut`. They give the same results, in lanes.

ghost use Rattle.std.specs.Prelude.{◌≡◌, ℕ, ◌+◌, ◌*◌, ◌^◌, ◌<◌, pos, ◌+ℤ◌, map, slice_index_or, unsigned_abs};
ghost use Rattle.vp_transform.specs.Fits.{Fits, IwhtFits, IdctFits, EachWithin};
ghost use Rattle.vp_transform.specs.Transform.{element_at, idct};
ghost use Rattle.vp_transform.specs.Forward.{row_waves, column_waves, row_pass, column_pass, fdct, fwht};
ghost use lib.Signed.{shr_z as floor_div};

use crate::cosine::wide_idct;
use crate::hadamard::{by_columns, by_rows};
use crate::lanes::{is_narrow, narrow_idct};

/// sqrt 2 * sin (pi / 8), times 2^12.
const SINE: i64 = 2217;
/// sqrt 2 * cos (pi / 8), times 2^12.
const COSINE: i64 = 5352;

/// Blocks whose numbers are below this bound are transformed in i32 lanes.
const NARROW: u64 = 1 << 13;

/// The inverse DCT of a block of sixteen numbers in raster order (RFC 6386, chapter 14.4). Decoding calls
/// `idct_short`, `idct_interleaved` and `idct_cut`, which give its results.
pub fn idct(block: &[i64; 16]) -> [i64; 16]
    requires { IdctFits block.now }
    ensures value { result ≡ idct block.now }
    ensures within { (b : ℕ) → EachWithin b block.now → EachWithin (4 * b) result }
{
    if is_narrow(block, NARROW) {
        narrow_idct(block)
    } else {
        wide_idct(block)
    }
}

/// The forward DCT of a block of sixteen numbers in raster order, each from -2^44 to 2^44. Sixteen equal numbers give
/// eight times that number, and then fifteen zeros.
pub fn fdct(block: &[i64; 16]) -> [i64; 16]
    requires { EachWithin (2 ^ 44) block.now }
    ensures value { result ≡ fdct block.now }
    ensures within { (b : ℕ) → EachWithin b block.now → EachWithin (8 * b) result }
{
    columns(&rows(block))
}

/// Transforms each row.
fn rows(x: &[i64; 16]) -> [i64; 16]
    requires { EachWithin (2 ^ 44) x.now }
    ensures { result ≡ row_pass x.now }
{
    let a = row(x, 0);
    let b = row(x, 1);
    let c = row(x, 2);
    let d = row(x, 3);
    [
        a[0], a[1], a[2], a[3], b[0], b[1], b[2], b[3], c[0], c[1], c[2], c[3], d[0], d[1], d[2],
        d[3],
    ]
}

/// Transforms each column.
fn columns(x: &[i64; 16]) -> [i64; 16]
    requires { EachWithin (2 ^ 49) x.now }
    ensures { result ≡ column_pass x.now }
{
    let a = column(x, 0);
    let b = column(x, 1);
    let c = column(x, 2);
    let d = column(x, 3);
    [
        a[0], b[0], c[0], d[0], a[1], b[1], c[1], d[1], a[2], b[2], c[2], d[2], a[3], b[3], c[3],
        d[3],
    ]
}

/// Transforms row `r`.
fn row(x: &[i64; 16], r: usize) -> [i64; 4]
    requires inside { r < 4 }
    requires small { EachWithin (2 ^ 44) x.now }
    ensures { result ≡ row_waves (element_at x.now r 0) (element_at x.now r 1) (element_at x.now r 2)
        (element_at x.now r 3) }
{
    let a = 8 * (x[4 * r] + x[4 * r + 3]);
    let b = 8 * (x[4 * r + 1] + x[4 * r + 2]);
    let c = 8 * (x[4 * r + 1] - x[4 * r + 2]);
    let d = 8 * (x[4 * r] - x[4 * r + 3]);
    [
        a + b,
        (SINE * c + COSINE * d + 2048) >> 12,
        a - b,
        (SINE * d - COSINE * c + 2048) >> 12,
    ]
}

/// Transforms column `c`.
fn column(x: &[i64; 16], column: usize) -> [i64; 4]
    requires inside { column < 4 }
    requires small { EachWithin (2 ^ 49) x.now }
    ensures { result ≡ column_waves (element_at x.now 0 column) (element_at x.now 1 column) (element_at x.now 2 column)
        (element_at x.now 3 column) }
{
    let a = x[column] + x[12 + column];
    let b = x[4 + column] + x[8 + column];
    let c = x[4 + column] - x[8 + column];
    let d = x[column] - x[12 + column];
    [
        (a + b + 7) >> 4,
        (SINE * c + COSINE * d + 32768) >> 16,
        (a - b + 7) >> 4,
        (SINE * d - COSINE * c + 32768) >> 16,
    ]
}

/// The forward Walsh-Hadamard transform of a block of sixteen numbers in raster order.
pub fn fwht(block: &[i64; 16]) -> [i64; 16]
    requires { IwhtFits block.now }
    ensures value { result ≡ fwht block.now }
    ensures within { (b : ℕ) → EachWithin b block.now → EachWithin (8 * b) result }
{
    all_halved(&by_rows(&by_columns(block)))
}

/// Halves each number of a block, rounding up.
fn all_halved(x: &[i64; 16]) -> [i64; 16]
    requires { (k : ℕ) → k < 16 → unsigned_abs (slice_index_or x.now k (pos 0)) + 3 < 2 ^ 63 }
    ensures { result ≡ map (λ z. floor_div (z +ℤ pos 1) 2) x.now }
{
    let mut block = [0; 16];
    for i in 0..16 {
        block[i] = halved(x[i]);
    }
    block
}

fn halved(z: i64) -> i64
    requires { Fits (z +ℤ pos 1) }
    ensures { result ≡ floor_div (z +ℤ pos 1) 2 }
{
    (z + 1) >> 1
}
