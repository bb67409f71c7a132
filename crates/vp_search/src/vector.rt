//! Motion vectors of a luma block, and search results.

ghost use Rattle.std.specs.Prelude.{◌≡◌, ◌+◌, ◌*◌, ◌≤◌};
ghost use Rattle.vp_search.specs.Vectors.{quarters, vector_length, IsNear};
ghost use Rattle.vp_search.specs.Window.{vector_at};

use crate::window::WINDOW_WIDTH;

/// A motion vector in whole luma pixels.
#[derive(Clone, Copy, Debug, PartialEq, Eq, Default)]
pub struct WholeVector {
    /// Rows; positive is down.
    pub row: i32,
    /// Columns; positive is right.
    pub column: i32,
}

/// A motion vector in quarter luma pixels (RFC 6386, chapter 5).
#[derive(Clone, Copy, Debug, PartialEq, Eq, Default)]
pub struct QuarterVector {
    /// Rows; positive is down.
    pub row: i32,
    /// Columns; positive is right.
    pub column: i32,
}

/// A vector of whole pixels with its cost, as a search finds it.
#[derive(Clone, Copy, Debug, PartialEq, Eq)]
pub struct Found {
    /// The vector.
    pub vector: WholeVector,
    /// Its sum of absolute differences.
    pub cost: u32,
}

/// The result of a refinement.
#[derive(Clone, Copy, Debug, PartialEq, Eq)]
pub struct Refined {
    /// The best vector, in quarter pixels.
    pub vector: QuarterVector,
    /// Its sum of absolute differences.
    pub cost: u32,
}

/// A row and a column of a window. Eight places side by side are named by the first.
#[derive(Clone, Copy)]
pub(crate) struct Spot {
    pub(crate) row: usize,
    pub(crate) column: usize,
}

impl Spot {
    /// The index in the window at which a block begins.
    pub(crate) fn at(self) -> usize
        requires row { self.row ≤ 128 }
        requires column { self.column ≤ WINDOW_WIDTH }
        ensures { result ≡ self.row * WINDOW_WIDTH + self.column }
    {
        self.row * WINDOW_WIDTH + self.column
    }

    /// The vector whose block begins there, in a window with `range` pixels on each side.
    pub(crate) fn vector(self, range: u8) -> WholeVector
        requires range { range ≤ 64 }
        requires row { self.row ≤ 2 * range }
        requires column { self.column ≤ 2 * range }
        ensures { result ≡ vector_at range self.row self.column }
    {
        WholeVector {
            row: self.row as i32 - i32::from(range),
            column: self.column as i32 - i32::from(range),
        }
    }
}

/// The length of a vector: the sum of the magnitudes of row and column.
pub(crate) fn vector_length(vector: WholeVector) -> u64
    ensures { result ≡ vector_length vector }
{
    u64::from(vector.row.unsigned_abs()) + u64::from(vector.column.unsigned_abs())
}

/// Converts whole pixels to quarter pixels.
pub fn quarters(vector: WholeVector) -> QuarterVector
    requires { IsNear 16384 vector }
    ensures { result ≡ quarters vector }
{
    QuarterVector {
        row: 4 * vector.row,
        column: 4 * vector.column,
    }
}
