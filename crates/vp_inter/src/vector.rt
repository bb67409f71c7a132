//! Motion vectors of a plane: whole pixels, fractions, and chroma vectors.

ghost use Rattle.std.specs.Prelude.{◌≡◌, ℤ, pos, negsuc, ◌+◌, ◌<◌, ◌≤◌, ◌≤ℤ◌};
ghost use Rattle.vp_inter.specs.Vectors.{whole_pixels, fraction, first_tap, IsFarBelowI32, AreFarBelowI32};
ghost use Rattle.vp_inter.specs.Vectors.{mean_of_four, chroma_eighths, luma_vector, chroma_vector};

/// A motion vector in eighths of the plane's pixels (RFC 6386, chapter 5).
#[derive(Clone, Copy, Debug, PartialEq, Eq, Default)]
pub struct PlaneVector {
    /// Rows; positive is down.
    pub row: i32,
    /// Columns; positive is right.
    pub column: i32,
}

impl PlaneVector {
    /// The fraction that the vertical pass interpolates: the remaining eighths of a row, 0 to 7.
    pub(crate) fn vertical_fraction(self) -> usize
        ensures value { result ≡ fraction self.row }
        ensures bound { result < 8 }
    {
        fraction(self.row)
    }

    /// The fraction that the horizontal pass interpolates: the remaining eighths of a column, 0 to 7.
    pub(crate) fn horizontal_fraction(self) -> usize
        ensures value { result ≡ fraction self.column }
        ensures bound { result < 8 }
    {
        fraction(self.column)
    }
}

/// The whole pixels, rounded down.
#[tactic(auto, unfolding(crate::specs::Vectors::whole_pixels))]
pub(crate) fn whole_pixels(eighths: i32) -> i32
    ensures value { result ≡ whole_pixels eighths }
    ensures range { (negsuc 268435455 ≤ℤ result) × (result ≤ℤ pos 268435455) }
{
    eighths >> 3
}

/// The remaining eighths, 0 to 7.
#[tactic(auto, unfolding(crate::specs::Vectors::fraction))]
fn fraction(eighths: i32) -> usize
    ensures value { result ≡ fraction eighths }
    ensures bound { result < 8 }
{
    eighths.rem_euclid(8) as usize
}

/// The position of the first of the six pixels that the pixel at `at` is computed from.
#[tactic(auto, unfolding(crate::specs::Vectors::first_tap))]
pub(crate) fn first_tap(at: usize, eighths: i32) -> i32
    requires { at ≤ 16400 }
    ensures value { result ≡ first_tap at eighths }
    ensures range { (negsuc 300000000 ≤ℤ result) × (result ≤ℤ pos 300000000) }
{
    at as i32 + whole_pixels(eighths) - 2
}

/// The vector of a luma block, from quarter pixels.
#[tactic(auto, unfolding(crate::specs::Vectors::luma_vector))]
pub fn luma_vector(row: i32, column: i32) -> PlaneVector
    requires row { IsFarBelowI32 row }
    requires column { IsFarBelowI32 column }
    ensures { result ≡ luma_vector row column }
{
    PlaneVector {
        row: 2 * row,
        column: 2 * column,
    }
}

/// The vector of a 4x4 chroma block: the mean of the vectors of the four luma blocks that it covers, given by rows and
/// columns in quarter pixels. `version` is that of the frame tag; version 3 uses whole pixels.
#[tactic(auto, unfolding(crate::specs::Vectors::chroma_vector))]
pub fn chroma_vector(version: u8, rows: &[i32; 4], columns: &[i32; 4]) -> PlaneVector
    requires rows { AreFarBelowI32 rows.now }
    requires columns { AreFarBelowI32 columns.now }
    ensures { result ≡ chroma_vector version rows.now columns.now }
{
    PlaneVector {
        row: chroma_eighths(version, rows),
        column: chroma_eighths(version, columns),
    }
}

/// The mean of four rows or columns in quarter luma pixels, in eighths of a chroma pixel.
#[tactic(auto, unfolding(crate::specs::Vectors::chroma_eighths))]
fn chroma_eighths(version: u8, quarters: &[i32; 4]) -> i32
    requires { AreFarBelowI32 quarters.now }
    ensures { result ≡ chroma_eighths version quarters.now }
{
    let mean = mean_of_four((quarters[0] + quarters[1]) + (quarters[2] + quarters[3]));
    if version == 3 {
        whole_pixels(mean) * 8
    } else {
        mean
    }
}

/// A quarter of the sum, rounded to the nearest, halves away from zero.
#[tactic(auto, unfolding(crate::specs::Vectors::mean_of_four))]
fn mean_of_four(sum: i32) -> i32
    requires { (negsuc 67108863 ≤ℤ sum) × (sum ≤ℤ pos 67108864) }
    ensures { result ≡ mean_of_four sum }
{
    if sum < 0 {
        (sum - 2) / 4
    } else {
        (sum + 2) / 4
    }
}
