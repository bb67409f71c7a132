//! The inverse DCT (RFC 6386, chapter 14.4).

ghost use Rattle.std.specs.Prelude.{map, ◌∷◌, replicate, ◌≡◌, ◌+◌, ◌*◌, ◌<◌, ◌≤◌, unsigned_abs, pos, ◌+ℤ◌};
ghost use Rattle.vp_transform.specs.Fits.{Fits, TurnFits, TurnAndRoundFits, ColumnsFit, RowsFit, IdctFits};
ghost use Rattle.vp_transform.specs.Transform.{element_at, column_turned, row_turned, turned, rounded, vertical};
ghost use Rattle.vp_transform.specs.Transform.{horizontal, idct};

/// sqrt 2 * sin (pi / 8), times 2^16.
const SINE: i64 = 35468;
/// sqrt 2 * cos (pi / 8) - 1, times 2^16.
const COSINE: i64 = 20091;

/// The inverse DCT in i64, for every block whose transform fits.
pub(crate) fn wide_idct(block: &[i64; 16]) -> [i64; 16]
    requires { IdctFits block.now }
    ensures { result ≡ idct block.now }
{
    by_rows(&by_columns(block))
}

/// The value of each number of `idct` of a DC-only block, whose numbers after `dc` are all 0.
pub fn idct_of_dc(dc: i64) -> i64
    requires { Fits (dc +ℤ pos 4) }
    ensures value { idct (dc ∷ replicate 15 (pos 0)) ≡ replicate 16 result }
    ensures within { unsigned_abs result ≤ unsigned_abs dc }
{
    round(dc)
}

/// Transforms each column.
fn by_columns(x: &[i64; 16]) -> [i64; 16]
    requires { ColumnsFit x.now }
    ensures { result ≡ vertical x.now }
{
    let a = column(x, 0);
    let b = column(x, 1);
    let c = column(x, 2);
    let d = column(x, 3);
    [
        a[0], b[0], c[0], d[0], a[1], b[1], c[1], d[1], a[2], b[2], c[2], d[2], a[3], b[3], c[3],
        d[3],
    ]
}

/// Transforms column `c`.
fn column(x: &[i64; 16], c: usize) -> [i64; 4]
    requires inside { c < 4 }
    requires fits { TurnFits (element_at x.now 0 c) (element_at x.now 1 c) (element_at x.now 2 c)
        (element_at x.now 3 c) }
    ensures { result ≡ column_turned x.now c }
{
    idct_1d(x[c], x[4 + c], x[8 + c], x[12 + c])
}

/// Transforms and rounds each row.
fn by_rows(x: &[i64; 16]) -> [i64; 16]
    requires { RowsFit x.now }
    ensures { result ≡ horizontal x.now }
{
    let a = row(x, 0);
    let b = row(x, 1);
    let c = row(x, 2);
    let d = row(x, 3);
    [
        a[0], a[1], a[2], a[3], b[0], b[1], b[2], b[3], c[0], c[1], c[2], c[3], d[0], d[1], d[2],
        d[3],
    ]
}

/// Transforms and rounds row `r`.
fn row(x: &[i64; 16], r: usize) -> [i64; 4]
    requires inside { r < 4 }
    requires fits { TurnAndRoundFits (element_at x.now r 0) (element_at x.now r 1) (element_at x.now r 2)
        (element_at x.now r 3) }
    ensures { result ≡ map rounded (row_turned x.now r) }
{
    let [i0, i1, i2, i3] = idct_1d(x[4 * r], x[4 * r + 1], x[4 * r + 2], x[4 * r + 3]);
    [round(i0), round(i1), round(i2), round(i3)]
}

fn round(z: i64) -> i64
    requires { Fits (z +ℤ pos 4) }
    ensures { result ≡ rounded z }
{
    (z + 4) >> 3
}

/// The one-dimensional transform of four numbers.
fn idct_1d(i0: i64, i1: i64, i2: i64, i3: i64) -> [i64; 4]
    requires { TurnFits i0 i1 i2 i3 }
    ensures { result ≡ turned i0 i1 i2 i3 }
{
    let a = i0 + i2;
    let b = i0 - i2;
    let c = ((i1 * SINE) >> 16) - (i3 + ((i3 * COSINE) >> 16));
    let d = (i1 + ((i1 * COSINE) >> 16)) + ((i3 * SINE) >> 16);
    [a + d, b + c, b - c, a - d]
}
