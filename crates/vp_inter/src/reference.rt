//! Reading a reference plane, which is extended by its border pixels (RFC 6386, chapter 5).

ghost use Rattle.std.specs.Prelude.{◌≡◌, ℕ, ℤ, pos, ◌+◌, ◌-◌, ◌<◌, ◌≤◌, ◌+ℤ◌, length, min, slice_index};
ghost use Rattle.std.specs.Prelude.{IsTrue};
ghost use Rattle.vp_base.specs.Raster.{row_of};
ghost use Rattle.vp_inter.specs.Inter.{nearest, reference_pixel};
ghost use Rattle.vp_inter.specs.Narrow.{IsNear, IsNearWithin};
ghost use Rattle.vp_inter.specs.Patches.{raster, patch_pixel, IsAt, HasColumns, HasRows};

use crate::filter::load;
use crate::patch::Patch;
use crate::rows::put_lanes;
use crate::vector::{PlaneVector, first_tap};
use std::simd::prelude::*;
use vp_base::Plane;

/// Clamps `at` to 0 to `size - 1`: a reference is extended by its border pixels (RFC 6386, chapter 18.1).
pub fn nearest(at: i32, size: usize) -> usize
    requires some { 0 < size }
    ensures value { result ≡ nearest size at }
    ensures bound { result < size }
{
    if at < 0 {
        0
    } else {
        (at as usize).min(size - 1)
    }
}

/// States that pixels are bytes.
fn are_bytes(pixels: &[u8])
    ensures { (k : ℕ) → slice_index pixels.now k ≤ 255 }
{}

impl<'a> Patch<'a> {
    /// The first of the six rows and columns that the block at column `x` of row `y` is predicted from, displaced by
    /// `vector`. Without a fraction only the third counts, which is that of `x + 2` or `y + 2`. The second clause
    /// states that pixels are bytes, for callers that compute with them.
    #[inline(always)]
    pub(crate) fn at(plane: &'a Plane, x: usize, y: usize, vector: PlaneVector) -> Patch<'a>
        requires column { x ≤ 16400 }
        requires row { y ≤ 16400 }
        requires wide { 0 < plane.now.width }
        requires high { 0 < plane.now.height }
        ensures place { IsAt result plane.now x y vector }
        ensures bytes { (column row : ℤ) → reference_pixel plane.now column row ≤ 255 }
    {
        let pixels = plane.pixels();
        are_bytes(pixels);
        Patch {
            pixels,
            width: plane.width(),
            height: plane.height(),
            left: first_tap(x, vector.column),
            top: first_tap(y, vector.row),
        }
    }

    /// Whether the first `rows` rows are inside the plane.
    pub(crate) fn has_rows(&self, rows: usize) -> bool
        requires { rows ≤ 22 }
        ensures { IsTrue result → HasRows self.now rows }
    {
        self.top >= 0 && self.top as usize + rows <= self.height
    }

    /// Whether the first `columns` columns of the first `rows` rows are inside the plane.
    pub(crate) fn is_inside(&self, columns: usize, rows: usize) -> bool
        requires columns { columns ≤ 21 }
        requires rows { rows ≤ 22 }
        ensures { IsTrue result → HasColumns self.now columns × HasRows self.now rows }
    {
        self.left >= 0 && self.left as usize + columns <= self.width && self.has_rows(rows)
    }

    /// Borrows row `y` of the plane.
    fn line(&self, y: usize) -> &'a [u8]
        requires { y < self.now.height }
        ensures value { result.now ≡ row_of (raster self.now) y }
        ensures len { length result.now ≡ self.now.width }
    {
        let start = y * self.width;
        &self.pixels[start..start + self.width]
    }

    /// Borrows row `i`, or the nearest row of the plane. If `INSIDE`, it is inside.
    #[inline(always)]
    pub(crate) fn row<const INSIDE: bool>(&self, i: usize) -> &'a [u8]
        requires near { i ≤ 21 }
        requires inside { IsTrue INSIDE → HasRows self.now (i + 1) }
        ensures value { result.now ≡ row_of (raster self.now) (nearest self.now.height (self.now.top +ℤ pos i)) }
        ensures len { length result.now ≡ self.now.width }
    {
        if INSIDE {
            return self.line(self.top as usize + i);
        }
        self.line(nearest(self.top + i as i32, self.height))
    }
}

/// Loads `N` pixels of row `i`. If `inside`, they are read directly from the plane.
#[inline(always)]
pub(crate) fn plain_row<const N: usize>(patch: &Patch, inside: bool, i: usize) -> Simd<u8, N>
    requires size { N ≤ 16 }
    requires near { i ≤ 21 }
    requires inside { IsTrue inside → HasColumns patch.now N × HasRows patch.now (i + 1) }
    ensures { (c : ℕ) → c < N → slice_index result c ≡ patch_pixel patch.now i c }
{
    if inside {
        return load(patch.row::<true>(i), patch.left as usize);
    }
    load(&reference_line(patch, i), 0)
}

/// Loads 32 pixels of row `i`, inside the plane or not. The compiler hoists what depends on the column alone out of a
/// loop over rows, and drops pixels that aren't used.
#[inline(always)]
pub(crate) fn reference_line(patch: &Patch, i: usize) -> [u8; 32]
    requires { i ≤ 21 }
    ensures { (c : ℕ) → c < 32 → slice_index result c ≡ patch_pixel patch.now i c }
{
    let line = patch.row::<false>(i);
    if line.len() < 16 {
        return beyond(line, patch.left);
    }
    let mut pixels = [0; 32];
    put_lanes::<16>(&mut pixels, 0, sixteen(line, patch.left));
    put_lanes::<16>(&mut pixels, 1, sixteen(line, patch.left + 16));
    pixels
}

/// Sixteen consecutive entries select lanes of a vector of sixteen: from entry 16 on all of them in order. Earlier
/// entries repeat the first lane, later ones the last.
const INDICES: [u8; 48] = [
    0, 0, 0, 0, 0, 0, 0, 0, 0, 0, 0, 0, 0, 0, 0, 0, 0, 1, 2, 3, 4, 5, 6, 7, 8, 9, 10, 11, 12, 13,
    14, 15, 15, 15, 15, 15, 15, 15, 15, 15, 15, 15, 15, 15, 15, 15, 15, 15,
];

/// Sixteen entries of that table.
#[inline(always)]
fn indices(from: usize) -> u8x16
    requires { from ≤ 32 }
    ensures { (c : ℕ) → c < 16 → slice_index result c ≡ min (from + c - 16) 15 }
{
    load(&INDICES, from)
}

/// Selects the lanes at these indices.
#[inline(always)]
pub(crate) fn shuffle(lanes: u8x16, indices: u8x16) -> u8x16
    requires { (c : ℕ) → c < 16 → slice_index indices c < 16 }
    ensures { (c : ℕ) → c < 16 → slice_index result c ≡ slice_index lanes (slice_index indices c) }
{
    lanes.swizzle_dyn(indices)
}

/// Where sixteen consecutive pixels of an extended row are in the row itself: each lane of `indices` is an index among
/// the sixteen pixels from `start` on.
#[derive(Clone, Copy)]
pub(crate) struct Span {
    pub(crate) start: usize,
    pub(crate) indices: u8x16,
}

/// The span of the sixteen pixels from column `at` on, in a row of `size` pixels.
#[inline(always)]
pub(crate) fn span_of(size: usize, at: i32) -> Span
    requires some { 16 ≤ size }
    requires near { IsNearWithin 16 at }
    ensures room { result.start + 16 ≤ size }
    ensures lanes { (c : ℕ) → c < 16 → slice_index result.indices c < 16 }
    ensures indices { (c : ℕ) → c < 16 → result.start + slice_index result.indices c ≡ nearest size (at +ℤ pos c) }
{
    let start = nearest(at, size - 15);
    let from = (at - start as i32 + 16).clamp(0, 32);
    Span {
        start,
        indices: indices(from as usize),
    }
}

/// The sixteen pixels from column `at` on, extended by the border pixels. The row must have at least sixteen.
#[inline(always)]
fn sixteen(line: &[u8], at: i32) -> u8x16
    requires some { 16 ≤ length line.now }
    requires near { IsNearWithin 16 at }
    ensures { (c : ℕ) → c < 16 → slice_index result c ≡ slice_index line.now (nearest (length line.now) (at +ℤ pos c)) }
{
    let span = span_of(line.len(), at);
    shuffle(load(line, span.start), span.indices)
}

/// The 32 pixels of a row from column `left` on, extended by its border pixels, one by one.
#[inline(never)]
fn beyond(line: &[u8], left: i32) -> [u8; 32]
    requires some { 0 < length line.now }
    requires near { IsNear left }
    ensures len { length result ≡ 32 }
    ensures value { (c : ℕ) → c < 32 → slice_index result c ≡ slice_index line.now
        (nearest (length line.now) (left +ℤ pos c)) }
{
    let mut pixels = [0; 32];
    for c in 0..32 {
        pixels[c] = line[nearest(left + c as i32, line.len())];
    }
    pixels
}
