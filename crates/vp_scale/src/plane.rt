//! A plane of a picture that is given as I420, and the means of its squares.

ghost use Rattle.std.specs.Prelude.{◌≡◌, ◌<◌, ◌≤◌, ◌+◌, ◌*◌, ◌-◌, ℕ, length, min, sum, drop, slice_index};
ghost use Rattle.vp_base.specs.Raster.{pixel, row_of};
ghost use Rattle.vp_scale.specs.Scale.{IsFactor, scaled_side};
ghost use Rattle.vp_scale.specs.Planes.{plane_from};
ghost use Rattle.vp_scale.specs.Means.{square, rounded_mean, mean_at};
ghost use Rattle.vp_scale.specs.Runs.{run_from, block_sum};

use crate::lanes::{load_bytes, pair_sums, plus, rounded_means};
use std::marker::Model;
use std::simd::prelude::*;
use vp_lanes::store8;

/// A plane, lent from the bytes of a picture. It has one row and one column at least.
#[derive(Drop)]
pub(crate) struct PlaneView<'a> {
    width: usize,
    height: usize,
    pixels: &'a [u8],
}

impl<'a> Model for PlaneView<'a> {
    ghost use Rattle.std.specs.Prelude.{◌≡◌, ◌*◌, ◌<◌, ◌≤◌, length};
    ghost use Rattle.vp_base.specs.Raster.{Raster};

    ghost Value = { Raster };

    ghost view = { λ a. record { width = a.width; height = a.height; pixels = a.pixels.now } };

    ghost invariant = { λ a. (length a.pixels.now ≡ a.height * a.width) × (0 < a.width) × (a.width ≤ 16383)
        × (0 < a.height) × (a.height ≤ 16383) };
}

impl<'a> PlaneView<'a> {
    /// The plane of this size whose pixels begin at byte `at`.
    pub(crate) fn new(bytes: &'a [u8], at: usize, width: usize, height: usize) -> PlaneView<'a>
        requires width { (0 < width) × (width ≤ 16383) }
        requires height { (0 < height) × (height ≤ 16383) }
        requires room { at + height * width ≤ length bytes.now }
        ensures { result ≡ plane_from at width height bytes.now }
    {
        PlaneView {
            width,
            height,
            pixels: &bytes[at..at + height * width],
        }
    }

    /// The number of columns.
    pub(crate) fn width(&self) -> usize
        ensures value { result ≡ self.now.width }
        ensures some { 0 < result }
        ensures most { result ≤ 16383 }
    {
        self.width
    }

    /// The number of rows.
    pub(crate) fn height(&self) -> usize
        ensures value { result ≡ self.now.height }
        ensures some { 0 < result }
        ensures most { result ≤ 16383 }
    {
        self.height
    }

    // Row `y`, or the last one if the plane ends above it.
    #[inline(always)]
    fn row(&self, y: usize) -> &[u8]
        ensures value { result.now ≡ row_of self.now (min y (self.now.height - 1)) }
        ensures len { length result.now ≡ self.now.width }
        ensures some { 0 < length result.now }
        ensures most { length result.now ≤ 16383 }
    {
        let start = y.min(self.height - 1) * self.width;
        &self.pixels[start..start + self.width]
    }

    // The sum of the `k` by `k` pixels whose first one is at column `x` of row `y`.
    #[inline(always)]
    fn square_sum(&self, k: usize, x: usize, y: usize) -> u32
        requires few { k ≤ 8 }
        requires column { x < self.now.width }
        requires row { y < self.now.height }
        ensures value { result ≡ sum (square k self.now x y) }
        ensures bound { result ≤ 255 * (k * k) }
    {
        let _known = self.height();
        let mut total = 0;
        for r in 0..k {
            total += run_sum(self.row(y + r), k, x);
        }
        total
    }

    /// The pixel at column `x` of row `y` of the smaller plane: the mean of `k` by `k` pixels, rounded to the nearest.
    #[inline(always)]
    #[tactic(auto, unfolding(crate::specs::Means::mean_at))]
    fn mean_at(&self, k: usize, x: usize, y: usize) -> u8
        requires factor { IsFactor k }
        requires column { x < scaled_side k self.now.width }
        requires row { y < scaled_side k self.now.height }
        ensures { result ≡ mean_at k self.now x y }
    {
        let _known = (self.width(), self.height());
        let total = self.square_sum(k, x * k, y * k);
        let count = (k * k) as u32;
        ((total + count / 2) / count) as u8
    }

    // Eight pixels of row `y`, from column `x` on.
    #[inline(always)]
    fn eight_pixels(&self, x: usize, y: usize) -> u16x8
        requires columns { x + 8 ≤ self.now.width }
        requires row { y < self.now.height }
        ensures value { (j : ℕ) → j < 8 → slice_index result j ≡ pixel self.now (x + j) y }
        ensures bytes { (j : ℕ) → j < 8 → slice_index result j ≤ 255 }
    {
        load_bytes(self.pixels, y * self.width + x)
    }

    // The sums of `k` pixels of each of eight columns, whose first ones are at column `x` of row `y` and after it.
    #[inline(always)]
    fn column_sums(&self, k: usize, x: usize, y: usize) -> u16x8
        requires few { k ≤ 8 }
        requires columns { x + 8 ≤ self.now.width }
        requires rows { y + k ≤ self.now.height }
        ensures value { (j : ℕ) → j < 8 → slice_index result j ≡ block_sum 1 k self.now (x + j) y }
        ensures bound { (j : ℕ) → j < 8 → slice_index result j ≤ 255 * k }
    {
        let _known = self.height();
        let mut sums = u16x8::splat(0);
        for row in 0..k {
            sums = plus(sums, self.eight_pixels(x, y + row));
        }
        sums
    }

    // The sums of eight blocks side by side, each of two columns and `k` rows.
    #[inline(always)]
    fn sums_of_two(&self, k: usize, x: usize, y: usize) -> u16x8
        requires few { k ≤ 8 }
        requires columns { x + 16 ≤ self.now.width }
        requires rows { y + k ≤ self.now.height }
        ensures value { (j : ℕ) → j < 8 → slice_index result j ≡ block_sum 2 k self.now (x + 2 * j) y }
        ensures bound { (j : ℕ) → j < 8 → slice_index result j ≤ 510 * k }
    {
        let _known = self.width();
        pair_sums(self.column_sums(k, x, y), self.column_sums(k, x + 8, y))
    }

    // The sums of eight blocks side by side, each of four columns and `k` rows.
    #[inline(always)]
    fn sums_of_four(&self, k: usize, x: usize, y: usize) -> u16x8
        requires few { k ≤ 8 }
        requires columns { x + 32 ≤ self.now.width }
        requires rows { y + k ≤ self.now.height }
        ensures value { (j : ℕ) → j < 8 → slice_index result j ≡ block_sum 4 k self.now (x + 4 * j) y }
        ensures bound { (j : ℕ) → j < 8 → slice_index result j ≤ 1020 * k }
    {
        let _known = self.width();
        pair_sums(self.sums_of_two(k, x, y), self.sums_of_two(k, x + 16, y))
    }

    // The sums of eight blocks side by side, each of eight columns and `k` rows.
    #[inline(always)]
    fn sums_of_eight(&self, k: usize, x: usize, y: usize) -> u16x8
        requires few { k ≤ 8 }
        requires columns { x + 64 ≤ self.now.width }
        requires rows { y + k ≤ self.now.height }
        ensures value { (j : ℕ) → j < 8 → slice_index result j ≡ block_sum 8 k self.now (x + 8 * j) y }
        ensures bound { (j : ℕ) → j < 8 → slice_index result j ≤ 2040 * k }
    {
        let _known = self.width();
        pair_sums(self.sums_of_four(k, x, y), self.sums_of_four(k, x + 32, y))
    }

    // The means of eight squares of `k` by `k` pixels side by side, the first one at column `x` of row `y`.
    #[inline(always)]
    fn square_means(&self, k: usize, x: usize, y: usize) -> u8x8
        requires factor { IsFactor k }
        requires smaller { 1 < k }
        requires columns { x + 8 * k ≤ self.now.width }
        requires rows { y + k ≤ self.now.height }
        ensures long { length result ≡ 8 }
        ensures value { (j : ℕ) → j < 8
            → slice_index result j ≡ rounded_mean (square k self.now (x + k * j) y) }
    {
        match k {
            2 => rounded_means(self.sums_of_two(2, x, y), 2, 2),
            4 => rounded_means(self.sums_of_four(4, x, y), 8, 4),
            _ => rounded_means(self.sums_of_eight(8, x, y), 32, 6),
        }
    }

    // The number of groups of eight pixels of row `y` of the smaller plane whose squares are inside the plane.
    #[inline(always)]
    fn whole_groups(&self, k: usize, y: usize) -> usize
        requires factor { IsFactor k }
        requires row { y < scaled_side k self.now.height }
        ensures columns { result * (8 * k) ≤ self.now.width }
        ensures rows { 0 < result → y * k + k ≤ self.now.height }
        ensures smaller { 0 < result → 1 < k }
    {
        if k > 1 && y * k + k <= self.height {
            self.width / (8 * k)
        } else {
            0
        }
    }

    // Writes the first groups of eight pixels of row `y` of the smaller plane, a group at once.
    #[inline(always)]
    fn write_groups(&self, k: usize, y: usize, row: &mut [u8], groups: usize)
        requires factor { IsFactor k }
        requires columns { groups * (8 * k) ≤ self.now.width }
        requires rows { 0 < groups → y * k + k ≤ self.now.height }
        requires smaller { 0 < groups → 1 < k }
        requires room { 8 * groups ≤ length row.old }
        ensures means { (c : ℕ) → c < 8 * groups → slice_index row.new c ≡ mean_at k self.now c y }
        ensures behind { drop (8 * groups) row.new ≡ drop (8 * groups) row.old }
        ensures len { length row.new ≡ length row.old }
    {
        let _known = (self.width(), self.height());
        for g in 0..groups {
            store8(row, 8 * g, self.square_means(k, 8 * g * k, y * k));
        }
    }

    // Writes pixels `from` to `width` of row `y` of the smaller plane.
    #[inline(always)]
    fn write_rest(&self, k: usize, y: usize, row: &mut [u8], from: usize, width: usize)
        requires factor { IsFactor k }
        requires width { width ≡ scaled_side k self.now.width }
        requires row { y < scaled_side k self.now.height }
        requires from { from ≤ width }
        requires room { width ≤ length row.old }
        ensures means { (c : ℕ) → from ≤ c → c < width → slice_index row.new c ≡ mean_at k self.now c y }
        ensures before { (c : ℕ) → c < from → slice_index row.new c ≡ slice_index row.old c }
        ensures behind { drop width row.new ≡ drop width row.old }
        ensures len { length row.new ≡ length row.old }
    {
        for x in from..width {
            row[x] = self.mean_at(k, x, y);
        }
    }

    // Writes row `y` as it is.
    #[inline(always)]
    fn write_same(&self, y: usize, row: &mut [u8])
        requires row { y < self.now.height }
        requires room { self.now.width ≤ length row.old }
        ensures same { (c : ℕ) → c < self.now.width → slice_index row.new c ≡ pixel self.now c y }
        ensures behind { drop self.now.width row.new ≡ drop self.now.width row.old }
        ensures len { length row.new ≡ length row.old }
    {
        row[..self.width].copy_from_slice(self.row(y));
    }

    /// Writes row `y` of the smaller plane: the first `width` pixels of `row`.
    #[inline(always)]
    pub(crate) fn write_means(&self, k: usize, y: usize, row: &mut [u8], width: usize)
        requires factor { IsFactor k }
        requires width { width ≡ scaled_side k self.now.width }
        requires row { y < scaled_side k self.now.height }
        requires room { width ≤ length row.old }
        ensures means { (c : ℕ) → c < width → slice_index row.new c ≡ mean_at k self.now c y }
        ensures behind { drop width row.new ≡ drop width row.old }
        ensures len { length row.new ≡ length row.old }
    {
        if k == 1 {
            self.write_same(y, row);
        } else {
            let groups = self.whole_groups(k, y);
            self.write_groups(k, y, row, groups);
            self.write_rest(k, y, row, 8 * groups, width);
        }
    }
}

// The sum of `k` pixels of a row from column `x` on; beyond its end, the last one counts.
#[inline(always)]
fn run_sum(row: &[u8], k: usize, x: usize) -> u32
    requires few { k ≤ 8 }
    requires inside { x < length row.now }
    requires most { length row.now ≤ 16383 }
    ensures value { result ≡ sum (run_from k x row.now) }
    ensures bound { result ≤ 255 * k }
{
    let end = row.len().min(x + k);
    let mut total = 0;
    for pixel in &row[x..end] {
        total += u32::from(*pixel);
    }
    total + (x + k - end) as u32 * u32::from(row[row.len() - 1])
}
