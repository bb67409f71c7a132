//! Blocks of several vectors, predicted from one horizontal pass (RFC 6386, chapter 18.3).

ghost use Rattle.std.specs.Prelude.{◌≡◌, ℕ, ◌+◌, ◌*◌, ◌<◌, ◌≤◌, slice_index};
ghost use Rattle.vp_inter.specs.Filter.{taps, filter_six};
ghost use Rattle.vp_inter.specs.Filtered.{AreFiltered};

use crate::block::first_of_patch;
use crate::filter::taps;
use crate::patch::Patch;
use crate::rows::rows_between;
use crate::six_tap::{pair_rows, paired_weights, vertical_sixteen, vertical_wide_rows};
use crate::vector::PlaneVector;
use crate::weights::PairWeights;
use std::marker::Model;
use std::simd::prelude::*;
use vp_base::Plane;

/// The weights of the vertical pass of version 0, for a fraction of a row.
#[derive(Drop)]
pub struct VerticalFilter {
    weights: PairWeights,
}

impl Model for VerticalFilter {
    ghost use Rattle.std.specs.Prelude.{ℤ, List};
    ghost use Rattle.vp_inter.specs.Patches.{weights_of};

    ghost Value = { List ℤ };

    ghost view = { λ f. weights_of f.weights };
}

impl VerticalFilter {
    /// The weights for a fraction in eighths, which is not 0.
    pub fn of(eighths: usize) -> VerticalFilter
        requires some { 0 < eighths }
        requires bound { eighths < 8 }
        ensures { result ≡ taps 0 eighths }
    {
        VerticalFilter {
            weights: paired_weights(taps(0, eighths)),
        }
    }
}

/// The horizontal pass of version 0 over the rows of a 16x16 block. From it follow the blocks of all vectors with the
/// same column whose rows have as many whole pixels, or one more, each by a vertical pass of its own.
#[derive(Drop)]
pub struct FilteredRows {
    /// 22 rows of sixteen pixels.
    rows: [u8; 352],
    /// The first 19 of them, each interleaved with the row three below, as the vertical pass multiplies them.
    pairs: [u8; 608],
}

impl Model for FilteredRows {
    ghost use Rattle.std.specs.Prelude.{ℕ, List};
    ghost use Rattle.vp_inter.specs.Filtered.{ArePaired};

    ghost Value = { List ℕ };

    ghost view = { λ f. f.rows };

    ghost invariant = { λ f. ArePaired f.rows f.pairs };
}

impl FilteredRows {
    /// Rows of zeros, to be written by `filter`.
    pub fn new() -> FilteredRows
        ensures { (k : ℕ) → k < 352 → slice_index result k ≡ 0 }
    {
        FilteredRows {
            rows: [0; 352],
            pairs: [0; 608],
        }
    }

    /// Filters the rows of the 16x16 block at column `x` of row `y`, displaced by `vector`. `x` and `y` are at most
    /// 16,384, and the plane is not empty.
    pub fn filter(&mut self, plane: &Plane, x: usize, y: usize, vector: PlaneVector)
        requires columns { x ≤ 16384 }
        requires rows { y ≤ 16384 }
        requires wide { 0 < plane.now.width }
        requires high { 0 < plane.now.height }
        ensures { AreFiltered plane.now x y vector self.new }
    {
        let column = first_of_patch(x, vector.horizontal_fraction());
        let patch = Patch::at(plane, column, y, vector);
        rows_between::<16>(&mut self.rows, &patch, vector, 0, 22);
        pair_rows::<19>(&mut self.pairs, &self.rows);
    }

    /// The rows: those of the vector itself begin with the third.
    pub fn rows(&self) -> &[u8; 352]
        ensures { result.now ≡ self.now }
    {
        &self.rows
    }

    /// The vertical pass to one row, from row `r` and the five below it.
    #[inline(always)]
    pub fn filtered_row(&self, filter: &VerticalFilter, r: usize) -> u8x16
        requires { r ≤ 16 }
        ensures { (c : ℕ) → c < 16
            → slice_index result c ≡ filter_six filter.now (λ k. slice_index self.now ((r + k) * 16 + c)) }
    {
        vertical_sixteen(&self.pairs, 32 * r, &filter.weights)
    }

    /// The vertical pass to 17 rows: the blocks of two vectors, of which one lies a pixel below the other.
    pub fn filtered_rows(&self, filter: &VerticalFilter) -> [u8; 272]
        ensures { (r c : ℕ) → r < 17 → c < 16 → slice_index result (r * 16 + c)
            ≡ filter_six filter.now (λ k. slice_index self.now ((r + k) * 16 + c)) }
    {
        let mut pixels = [0; 272];
        vertical_wide_rows::<17>(&mut pixels, &self.pairs, &filter.weights);
        pixels
    }
}
