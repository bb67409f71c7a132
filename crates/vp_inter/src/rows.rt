//! Passes over the rows of a block, one or two rows at a time (RFC 6386, chapter 18.3). The first row is written at
//! index `at`; rows are `stride` apart.

ghost use Rattle.std.specs.Prelude.{◌≡◌, ℕ, ◌+◌, ◌*◌, ◌<◌, ◌≤◌, ◌⊎◌, List, length, slice_index, IsTrue};
ghost use Rattle.vp_base.specs.Raster.{Raster};
ghost use Rattle.vp_inter.specs.Filter.{filter_six, taps};
ghost use Rattle.vp_inter.specs.Inter.{horizontal_pass};
ghost use Rattle.vp_inter.specs.Narrow.{OuterWeightsAreZero, SumsFitI16};
ghost use Rattle.vp_inter.specs.Patches.{patch_pass, patch_pixel, weights_of, HasColumns, HasRows, IsForRows};
ghost use Rattle.vp_inter.specs.Patches.{Selects};
ghost use Rattle.vp_inter.specs.Vectors.{fraction, first_tap};
ghost use Rattle.vp_inter.specs.Written.{HasRoomForBlock, IsBlockWritten};

use crate::filter::{Weights, ends_are_zero, has_two_taps, pass, taps};
use crate::patch::Patch;
use crate::reference::{plain_row, reference_line};
use crate::six_tap::{horizontal_filter, horizontal_row, joined_halves};
use crate::vector::PlaneVector;
use crate::weights::{HorizontalFilter, WideFilter};
use std::simd::prelude::*;

/// Copies `rows` rows of the reference.
#[inline(never)]
pub(crate) fn copy_rows<const N: usize>(
    pixels: &mut [u8],
    at: usize,
    stride: usize,
    patch: &Patch,
    rows: usize,
)
    requires size { N ≤ 16 }
    requires rows { rows ≤ 22 }
    requires room { HasRoomForBlock N rows pixels.old at stride }
    ensures { IsBlockWritten N rows pixels.old pixels.new at stride (patch_pixel patch.now) }
{
    let inside = patch.is_inside(N, rows);
    let here = *patch;
    for r in 0..rows {
        let row = plain_row::<N>(&here, inside, r);
        put_row(pixels, at, stride, r, row);
    }
}

/// The horizontal pass over `rows` rows. Rows of four and eight pixels multiply bytes, if the plane has at least sixteen
/// columns.
#[inline(always)]
pub(crate) fn horizontal_rows<const N: usize>(
    pixels: &mut [u8],
    at: usize,
    stride: usize,
    patch: &Patch,
    weights: Weights,
    rows: usize,
)
    requires size { N ≤ 16 }
    requires rows { rows ≤ 22 }
    requires room { HasRoomForBlock N rows pixels.old at stride }
    ensures { IsBlockWritten N rows pixels.old pixels.new at stride (patch_pass weights.six.now patch.now) }
{
    if (N == 4 || N == 8) && patch.width >= 16 {
        let filter = horizontal_filter(patch, 0, weights);
        short_rows::<N>(pixels, at, stride, patch, &filter, rows);
    } else {
        other_rows::<N>(pixels, at, stride, patch, weights, rows);
    }
}

/// The horizontal pass over long rows, and over rows of narrow planes. All tests come before the loop over the rows.
#[inline(never)]
fn other_rows<const N: usize>(
    pixels: &mut [u8],
    at: usize,
    stride: usize,
    patch: &Patch,
    weights: Weights,
    rows: usize,
)
    requires size { N ≤ 16 }
    requires rows { rows ≤ 22 }
    requires room { HasRoomForBlock N rows pixels.old at stride }
    ensures { IsBlockWritten N rows pixels.old pixels.new at stride (patch_pass weights.six.now patch.now) }
{
    if has_two_taps(weights.six) {
        if patch.is_inside(N + 5, rows) {
            rows_by_taps::<N, true, 2>(pixels, at, stride, patch, weights.six, rows);
        } else {
            rows_by_taps::<N, false, 2>(pixels, at, stride, patch, weights.six, rows);
        }
    } else if N == 16 && patch.width >= 16 {
        wide_rows(pixels, at, stride, patch, weights, rows);
    } else {
        rows_by_taps::<N, false, 6>(pixels, at, stride, patch, weights.six, rows);
    }
}

/// Writes the `rows` rows between the passes, one after the other: the result of the horizontal pass, or copied if the
/// vector is in whole columns.
#[inline(always)]
pub(crate) fn rows_between<const N: usize>(
    pixels: &mut [u8],
    patch: &Patch,
    vector: PlaneVector,
    version: u8,
    rows: usize,
)
    requires size { N ≤ 16 }
    requires rows { rows ≤ 22 }
    requires whole { length pixels.old ≡ rows * N }
    ensures { (plane : Raster) (x y : ℕ) → IsForRows patch.now plane x y vector → (i c : ℕ) → i < rows → c < N
        → slice_index pixels.new (i * N + c) ≡ horizontal_pass (taps version (fraction vector.column)) plane
        (first_tap x vector.column) (first_tap y vector.row) i c }
{
    let eighths = vector.horizontal_fraction();
    if eighths == 0 {
        copy_rows::<N>(pixels, 0, N, patch, rows);
    } else {
        horizontal_rows::<N>(pixels, 0, N, patch, taps(version, eighths), rows);
    }
}

/// The horizontal pass over `rows` rows of four or eight pixels. It reads directly from the plane if all rows are
/// inside.
#[inline(always)]
pub(crate) fn short_rows<const N: usize>(
    pixels: &mut [u8],
    at: usize,
    stride: usize,
    patch: &Patch,
    filter: &HorizontalFilter,
    rows: usize,
)
    requires size { (N ≡ 4) ⊎ (N ≡ 8) }
    requires rows { rows ≤ 22 }
    requires room { HasRoomForBlock N rows pixels.old at stride }
    requires columns { filter.now.start + 16 ≤ patch.now.width }
    requires selects { Selects filter.now patch.now 0 }
    ensures { IsBlockWritten N rows pixels.old pixels.new at stride
        (patch_pass (weights_of filter.now.weights) patch.now) }
{
    match (patch.has_rows(rows), N == 4 && stride == 4) {
        (true, true) => short_rows_by_two::<N, true, true>(pixels, at, stride, patch, filter, rows),
        (true, false) => short_rows_by_two::<N, true, false>(
            pixels, at, stride, patch, filter, rows,
        ),
        (false, true) => short_rows_by_two::<N, false, true>(
            pixels, at, stride, patch, filter, rows,
        ),
        (false, false) => short_rows_by_two::<N, false, false>(
            pixels, at, stride, patch, filter, rows,
        ),
    }
}

/// The horizontal pass over `rows` rows, two in each iteration. If `INSIDE`, the rows are inside the plane. If `TIGHT`,
/// rows of four follow one another. What the loop reads but for the weights is in local variables, which no write to
/// `pixels` can alias.
#[inline(never)]
fn short_rows_by_two<const N: usize, const INSIDE: bool, const TIGHT: bool>(
    pixels: &mut [u8],
    at: usize,
    stride: usize,
    patch: &Patch,
    filter: &HorizontalFilter,
    rows: usize,
)
    requires size { (N ≡ 4) ⊎ (N ≡ 8) }
    requires rows { rows ≤ 22 }
    requires room { HasRoomForBlock N rows pixels.old at stride }
    requires inside { IsTrue INSIDE → HasRows patch.now rows }
    requires tight { IsTrue TIGHT → (N ≡ 4) × (stride ≡ 4) }
    requires columns { filter.now.start + 16 ≤ patch.now.width }
    requires selects { Selects filter.now patch.now 0 }
    ensures { IsBlockWritten N rows pixels.old pixels.new at stride
        (patch_pass (weights_of filter.now.weights) patch.now) }
{
    let here = *patch;
    let own = *filter;
    for i in 0..rows / 2 {
        let pair = joined_halves(
            horizontal_row::<INSIDE>(&here, 2 * i, &own, &filter.weights),
            horizontal_row::<INSIDE>(&here, 2 * i + 1, &own, &filter.weights),
        );
        put_two::<N, TIGHT>(pixels, at, stride, i, pair);
    }
    if rows % 2 == 1 {
        let row = horizontal_row::<INSIDE>(&here, rows - 1, &own, &filter.weights);
        put_eight::<N>(pixels, at, stride, rows - 1, row);
    }
}

/// The horizontal pass over `rows` rows of sixteen pixels, of a plane of at least sixteen columns. It reads directly
/// from the plane if all rows are inside.
fn wide_rows(
    pixels: &mut [u8],
    at: usize,
    stride: usize,
    patch: &Patch,
    weights: Weights,
    rows: usize,
)
    requires rows { rows ≤ 22 }
    requires room { HasRoomForBlock 16 rows pixels.old at stride }
    requires columns { 16 ≤ patch.now.width }
    ensures { IsBlockWritten 16 rows pixels.old pixels.new at stride (patch_pass weights.six.now patch.now) }
{
    let filter = WideFilter {
        left: horizontal_filter(patch, 0, weights),
        right: horizontal_filter(patch, 8, weights),
    };
    if patch.has_rows(rows) {
        wide_rows_by_halves::<true>(pixels, at, stride, patch, &filter, rows);
    } else {
        wide_rows_by_halves::<false>(pixels, at, stride, patch, &filter, rows);
    }
}

/// The horizontal pass over `rows` rows of sixteen pixels. If `INSIDE`, the rows are inside the plane.
#[inline(never)]
fn wide_rows_by_halves<const INSIDE: bool>(
    pixels: &mut [u8],
    at: usize,
    stride: usize,
    patch: &Patch,
    filter: &WideFilter,
    rows: usize,
)
    requires rows { rows ≤ 22 }
    requires room { HasRoomForBlock 16 rows pixels.old at stride }
    requires inside { IsTrue INSIDE → HasRows patch.now rows }
    requires left { filter.now.left.start + 16 ≤ patch.now.width }
    requires right { filter.now.right.start + 16 ≤ patch.now.width }
    requires selects { Selects filter.now.left patch.now 0 }
    requires selects_right { Selects filter.now.right patch.now 8 }
    ensures { IsBlockWritten 16 rows pixels.old pixels.new at stride
        (patch_pass (weights_of filter.now.left.weights) patch.now) }
{
    let here = *patch;
    let (left, right) = (filter.left, filter.right);
    for i in 0..rows {
        let row = joined_halves(
            horizontal_row::<INSIDE>(&here, i, &left, &filter.left.weights),
            horizontal_row::<INSIDE>(&here, i, &right, &filter.left.weights),
        );
        put_row::<16>(pixels, at, stride, i, row);
    }
}

/// The horizontal pass over `rows` rows with `COUNT` nonzero weights. If `INSIDE`, it reads directly from the plane.
/// The loop reads a local copy of the weights, which no write to `pixels` can alias, so each weight stays in a
/// register.
#[inline(always)]
fn rows_by_taps<const N: usize, const INSIDE: bool, const COUNT: usize>(
    pixels: &mut [u8],
    at: usize,
    stride: usize,
    patch: &Patch,
    weights: &[i16; 6],
    rows: usize,
)
    requires size { N ≤ 16 }
    requires rows { rows ≤ 22 }
    requires room { HasRoomForBlock N rows pixels.old at stride }
    requires gentle { SumsFitI16 weights.now }
    requires inside { IsTrue INSIDE → HasColumns patch.now (N + 5) × HasRows patch.now rows }
    requires few { OuterWeightsAreZero weights.now COUNT }
    ensures { IsBlockWritten N rows pixels.old pixels.new at stride (patch_pass weights.now patch.now) }
{
    let own = *weights;
    let here = *patch;
    for i in 0..rows {
        let row = row_by_taps::<N, INSIDE, COUNT>(&here, i, &own);
        put_row(pixels, at, stride, i, row);
    }
}

/// The horizontal pass over row `i`.
#[inline(always)]
fn row_by_taps<const N: usize, const INSIDE: bool, const COUNT: usize>(
    patch: &Patch,
    i: usize,
    weights: &[i16; 6],
) -> Simd<u8, N>
    requires size { N ≤ 16 }
    requires near { i ≤ 21 }
    requires gentle { SumsFitI16 weights.now }
    requires inside { IsTrue INSIDE → HasColumns patch.now (N + 5) × HasRows patch.now (i + 1) }
    requires few { OuterWeightsAreZero weights.now COUNT }
    ensures { (c : ℕ) → c < N → slice_index result c ≡ patch_pass weights.now patch.now i c }
{
    if INSIDE {
        return pass::<N, COUNT>(patch.row::<true>(i), patch.left as usize, 1, weights);
    }
    pass::<N, COUNT>(&reference_line(patch, i), 0, 1, weights)
}

/// The vertical pass to `N` rows, over `N + 5` rows of `N` pixels, one after the other.
#[inline(never)]
pub(crate) fn vertical_rows<const N: usize>(
    pixels: &mut [u8],
    at: usize,
    stride: usize,
    rows: &[u8],
    weights: &[i16; 6],
)
    requires size { N ≤ 16 }
    requires whole { length rows.now ≡ (N + 5) * N }
    requires room { HasRoomForBlock N N pixels.old at stride }
    requires gentle { SumsFitI16 weights.now }
    ensures { IsBlockWritten N N pixels.old pixels.new at stride
        (λ r c. filter_six weights.now (λ k. slice_index rows.now ((r + k) * N + c))) }
{
    if !ends_are_zero(weights) {
        vertical_by_taps::<N, 6>(pixels, at, stride, rows, weights);
    } else if !has_two_taps(weights) {
        vertical_by_taps::<N, 4>(pixels, at, stride, rows, weights);
    } else {
        vertical_by_taps::<N, 2>(pixels, at, stride, rows, weights);
    }
}

/// The vertical pass with `COUNT` nonzero weights. A 4x4 block is filtered as a whole. The loop reads a local copy of
/// the weights, as `rows_by_taps` does.
#[inline(always)]
fn vertical_by_taps<const N: usize, const COUNT: usize>(
    pixels: &mut [u8],
    at: usize,
    stride: usize,
    rows: &[u8],
    weights: &[i16; 6],
)
    requires size { N ≤ 16 }
    requires whole { length rows.now ≡ (N + 5) * N }
    requires room { HasRoomForBlock N N pixels.old at stride }
    requires gentle { SumsFitI16 weights.now }
    requires few { OuterWeightsAreZero weights.now COUNT }
    ensures { IsBlockWritten N N pixels.old pixels.new at stride
        (λ r c. filter_six weights.now (λ k. slice_index rows.now ((r + k) * N + c))) }
{
    let own = *weights;
    if N == 4 {
        let block = pass::<16, COUNT>(rows, 0, 4, &own);
        put_sixteen(pixels, at, stride, block);
        return;
    }
    for r in 0..N {
        let row = pass::<N, COUNT>(rows, r * N, N, &own);
        put_row(pixels, at, stride, r, row);
    }
}

/// Writes row `r` of a block of `N` columns whose rows follow one another.
#[inline(always)]
pub(crate) fn put_lanes<const N: usize>(pixels: &mut [u8], r: usize, row: Simd<u8, N>)
    requires size { N ≤ 16 }
    requires room { r * N + N ≤ length pixels.old }
    ensures here { (c : ℕ) → c < N → slice_index pixels.new (r * N + c) ≡ slice_index row.entry c }
    ensures before { (i : ℕ) → i < r * N → slice_index pixels.new i ≡ slice_index pixels.old i }
{
    row.copy_to_slice(&mut pixels[r * N..]);
}

/// Writes row `r` of a block of `N` columns, after the rows above it.
#[inline(always)]
pub(crate) fn put_row<const N: usize>(
    pixels: &mut [u8],
    at: usize,
    stride: usize,
    r: usize,
    row: Simd<u8, N>,
)
    requires { at + r * stride + N ≤ length pixels.old }
    ensures { (before : List ℕ) (f : ℕ → ℕ → ℕ) → IsBlockWritten N r before pixels.old at stride f
        → ((c : ℕ) → c < N → slice_index row.entry c ≡ f r c) → IsBlockWritten N (r + 1) before pixels.new at stride f }
{
    row.copy_to_slice(&mut pixels[at + r * stride..]);
}

/// Writes the first `N` of eight pixels as row `r`.
#[inline(always)]
fn put_eight<const N: usize>(pixels: &mut [u8], at: usize, stride: usize, r: usize, row: u8x8)
    requires size { (N ≡ 4) ⊎ (N ≡ 8) }
    requires room { at + r * stride + N ≤ length pixels.old }
    ensures { (before : List ℕ) (f : ℕ → ℕ → ℕ) → IsBlockWritten N r before pixels.old at stride f
        → ((c : ℕ) → c < N → slice_index row c ≡ f r c) → IsBlockWritten N (r + 1) before pixels.new at stride f }
{
    if N == 4 {
        put_row::<4>(pixels, at, stride, r, first_four(row));
    } else {
        put_row::<8>(pixels, at, stride, r, row);
    }
}

/// Writes the first `N` of each eight pixels as rows `2 * i` and `2 * i + 1`. If `TIGHT`, rows of four follow one
/// another, and one store takes fewer instructions than two.
#[inline(always)]
pub(crate) fn put_two<const N: usize, const TIGHT: bool>(
    pixels: &mut [u8],
    at: usize,
    stride: usize,
    i: usize,
    pair: u8x16,
)
    requires size { (N ≡ 4) ⊎ (N ≡ 8) }
    requires few { i ≤ 11 }
    requires tight { IsTrue TIGHT → (N ≡ 4) × (stride ≡ 4) }
    requires upper { at + 2 * i * stride + N ≤ length pixels.old }
    requires lower { at + (2 * i + 1) * stride + N ≤ length pixels.old }
    ensures { (before : List ℕ) (f : ℕ → ℕ → ℕ) → IsBlockWritten N (2 * i) before pixels.old at stride f
        → ((c : ℕ) → c < N → slice_index pair c ≡ f (2 * i) c)
        → ((c : ℕ) → c < N → slice_index pair (8 + c) ≡ f (2 * i + 1) c)
        → IsBlockWritten N (2 * (i + 1)) before pixels.new at stride f }
{
    if TIGHT {
        return put_fours(pixels, at, i, first_fours(pair));
    }
    put_eight::<N>(pixels, at, stride, 2 * i, first_eight(pair));
    put_eight::<N>(pixels, at, stride, 2 * i + 1, last_eight(pair));
}

/// Writes eight pixels as rows `2 * i` and `2 * i + 1` of four, which follow one another.
#[inline(always)]
fn put_fours(pixels: &mut [u8], at: usize, i: usize, rows: u8x8)
    requires few { i ≤ 11 }
    requires room { at + 2 * i * 4 + 8 ≤ length pixels.old }
    ensures { (before : List ℕ) (f : ℕ → ℕ → ℕ) → IsBlockWritten 4 (2 * i) before pixels.old at 4 f
        → ((c : ℕ) → c < 4 → slice_index rows c ≡ f (2 * i) c)
        → ((c : ℕ) → c < 4 → slice_index rows (4 + c) ≡ f (2 * i + 1) c)
        → IsBlockWritten 4 (2 * (i + 1)) before pixels.new at 4 f }
{
    rows.copy_to_slice(&mut pixels[at + 2 * i * 4..]);
}

/// Writes sixteen pixels as a 4x4 block.
#[inline(always)]
fn put_sixteen(pixels: &mut [u8], at: usize, stride: usize, block: u8x16)
    requires { HasRoomForBlock 4 4 pixels.old at stride }
    ensures { (f : ℕ → ℕ → ℕ) → ((r c : ℕ) → r < 4 → c < 4 → slice_index block (4 * r + c) ≡ f r c)
        → IsBlockWritten 4 4 pixels.old pixels.new at stride f }
{
    put_row(pixels, at, stride, 0, first_four(first_eight(block)));
    put_row(pixels, at, stride, 1, last_four(first_eight(block)));
    put_row(pixels, at, stride, 2, first_four(last_eight(block)));
    put_row(pixels, at, stride, 3, last_four(last_eight(block)));
}

/// The first eight of sixteen pixels.
pub(crate) fn first_eight(row: u8x16) -> u8x8
    ensures { (c : ℕ) → c < 8 → slice_index result c ≡ slice_index row c }
{
    row.extract::<0, 8>()
}

/// The last eight of sixteen pixels.
pub(crate) fn last_eight(row: u8x16) -> u8x8
    ensures { (c : ℕ) → c < 8 → slice_index result c ≡ slice_index row (8 + c) }
{
    row.extract::<8, 8>()
}

/// The first four of each eight pixels.
fn first_fours(pair: u8x16) -> u8x8
    ensures front { (c : ℕ) → c < 4 → slice_index result c ≡ slice_index pair c }
    ensures back { (c : ℕ) → c < 4 → slice_index result (4 + c) ≡ slice_index pair (8 + c) }
{
    pair.swizzle::<8>([0, 1, 2, 3, 8, 9, 10, 11])
}

/// The first four of eight pixels.
fn first_four(row: u8x8) -> u8x4
    ensures { (c : ℕ) → c < 4 → slice_index result c ≡ slice_index row c }
{
    row.extract::<0, 4>()
}

/// The last four of eight pixels.
fn last_four(row: u8x8) -> u8x4
    ensures { (c : ℕ) → c < 4 → slice_index result c ≡ slice_index row (4 + c) }
{
    row.extract::<4, 4>()
}
