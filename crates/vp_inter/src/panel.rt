//! Panels: eight columns of up to 21 rows, between the horizontal and the vertical pass (RFC 6386, chapter 18.3), both
//! by multiply-add of bytes. Each row of a panel is followed by the row three below, so that one load gives both. A
//! block of sixteen columns has two panels. It is written from index `at` on; its rows are `stride` apart.

ghost use Rattle.std.specs.Prelude.{◌≡◌, ℕ, ◌+◌, ◌*◌, ◌<◌, ◌≤◌, ◌⊎◌, length, slice_index, IsTrue};
ghost use Rattle.vp_inter.specs.Filter.{filter_six};
ghost use Rattle.vp_inter.specs.Patches.{patch_pixel, patch_pass, weights_of, HasColumns, HasRows, Selects};
ghost use Rattle.vp_inter.specs.Panels.{ArePanels, IsPanelOf, HoldsRows, IsPanel, IsShortPanel, IsPaired, IsPair};
ghost use Rattle.vp_inter.specs.Panels.{Interleave, IsFilteredRow};
ghost use Rattle.vp_inter.specs.Written.{HasRoomForBlock, IsBlockWritten};

use crate::filter::{Weights, load};
use crate::patch::Patch;
use crate::reference::{plain_row, shuffle};
use crate::rows::{first_eight, last_eight, put_lanes, put_row, put_two};
use crate::six_tap::{
    filtered_pairs, horizontal_filter, horizontal_row, joined_halves, paired_weights,
};
use crate::weights::{HorizontalFilter, PairWeights};
use std::simd::prelude::*;

/// Up to 21 rows of eight pixels. Rows 0, 3, 6 and so on are in the first chain, 1, 4, 7 and so on in the second, and
/// 2, 5, 8 and so on in the third.
#[derive(Clone, Copy)]
pub(crate) struct Panel {
    pub(crate) first: [u8; 56],
    pub(crate) second: [u8; 56],
    pub(crate) third: [u8; 56],
}

/// A row of sixteen pixels interleaved with the row three below: the left eight columns, and the right eight.
#[derive(Clone, Copy)]
struct Pair {
    left: u8x16,
    right: u8x16,
}

/// How the rows of a panel are filtered: the weights, and the indices that interleave two rows. These come from memory:
/// the compiler would see through constant ones, and then doesn't select the multiply-add instruction.
#[derive(Clone, Copy)]
pub(crate) struct PanelFilter {
    pub(crate) weights: PairWeights,
    pub(crate) indices: u8x16,
    ghost turns: { Interleave indices },
}

/// The vertical pass to a block, over rows that are inside the plane.
pub(crate) fn vertical_by_panels<const N: usize>(
    pixels: &mut [u8],
    at: usize,
    stride: usize,
    patch: &Patch,
    weights: Weights,
)
    requires size { (N ≡ 8) ⊎ (N ≡ 16) }
    requires room { HasRoomForBlock N N pixels.old at stride }
    requires columns { HasColumns patch.now N }
    requires rows { HasRows patch.now (N + 5) }
    ensures { IsBlockWritten N N pixels.old pixels.new at stride
        (λ r c. filter_six weights.six.now (λ k. patch_pixel patch.now (r + k) c)) }
{
    let filter = panel_filter(weights);
    let mut left = empty_panel();
    if N == 8 {
        copy_panel(&mut left, patch);
        vertical_from_panel(pixels, at, stride, &left, &filter);
        return;
    }
    let mut right = empty_panel();
    copy_panels(&mut left, &mut right, patch);
    vertical_from_panels(pixels, at, stride, &left, &right, &filter);
}

/// Both passes to a block of a plane of at least sixteen columns.
pub(crate) fn both_by_panels<const N: usize>(
    pixels: &mut [u8],
    at: usize,
    stride: usize,
    patch: &Patch,
    horizontal: Weights,
    vertical: Weights,
)
    requires size { (N ≡ 8) ⊎ (N ≡ 16) }
    requires room { HasRoomForBlock N N pixels.old at stride }
    requires width { 16 ≤ patch.now.width }
    ensures { IsBlockWritten N N pixels.old pixels.new at stride
        (λ r c. filter_six vertical.six.now (λ k. patch_pass horizontal.six.now patch.now (r + k) c)) }
{
    let filter = panel_filter(vertical);
    let mut left = empty_panel();
    if N == 8 {
        horizontal_to_panel::<13>(&mut left, patch, &horizontal_filter(patch, 0, horizontal));
        vertical_from_panel(pixels, at, stride, &left, &filter);
        return;
    }
    let mut right = empty_panel();
    horizontal_to_panel::<21>(&mut left, patch, &horizontal_filter(patch, 0, horizontal));
    horizontal_to_panel::<21>(&mut right, patch, &horizontal_filter(patch, 8, horizontal));
    vertical_from_panels(pixels, at, stride, &left, &right, &filter);
}

/// A panel of zeros.
#[inline(always)]
pub(crate) fn empty_panel() -> Panel {
    Panel {
        first: [0; 56],
        second: [0; 56],
        third: [0; 56],
    }
}

/// The filter of these weights.
#[inline(always)]
pub(crate) fn panel_filter(weights: Weights) -> PanelFilter
    ensures { weights_of result.weights ≡ weights.six.now }
{
    PanelFilter {
        weights: paired_weights(weights),
        indices: u8x16::from_array([0, 8, 1, 9, 2, 10, 3, 11, 4, 12, 5, 13, 6, 14, 7, 15]),
    }
}

/// Copies 13 rows of eight pixels, which are inside the plane, to a panel.
#[inline(never)]
fn copy_panel(panel: &mut Panel, patch: &Patch)
    requires columns { HasColumns patch.now 8 }
    requires rows { HasRows patch.now 13 }
    ensures { IsShortPanel panel.new (patch_pixel patch.now) }
{
    let here = *patch;
    for e in 0..4 {
        put_lanes::<8>(&mut panel.first, e, plain_row(&here, true, 3 * e));
        put_lanes::<8>(&mut panel.second, e, plain_row(&here, true, 3 * e + 1));
        put_lanes::<8>(&mut panel.third, e, plain_row(&here, true, 3 * e + 2));
    }
    put_lanes::<8>(&mut panel.first, 4, plain_row(&here, true, 12));
}

/// Copies 21 rows of sixteen pixels, which are inside the plane, to two panels.
#[inline(never)]
fn copy_panels(left: &mut Panel, right: &mut Panel, patch: &Patch)
    requires columns { HasColumns patch.now 16 }
    requires rows { HasRows patch.now 21 }
    ensures { ArePanels left.new right.new (patch_pixel patch.now) }
{
    let here = *patch;
    for e in 0..7 {
        let first = plain_row::<16>(&here, true, 3 * e);
        let second = plain_row::<16>(&here, true, 3 * e + 1);
        let third = plain_row::<16>(&here, true, 3 * e + 2);
        put_halves(&mut left.first, &mut right.first, e, first);
        put_halves(&mut left.second, &mut right.second, e, second);
        put_halves(&mut left.third, &mut right.third, e, third);
    }
}

/// Writes the halves of a row as row `e` of two chains.
#[inline(always)]
fn put_halves(left: &mut [u8], right: &mut [u8], e: usize, row: u8x16)
    requires left { 8 * e + 8 ≤ length left.old }
    requires right { 8 * e + 8 ≤ length right.old }
    ensures front { (c : ℕ) → c < 8 → slice_index left.new (e * 8 + c) ≡ slice_index row c }
    ensures back { (c : ℕ) → c < 8 → slice_index right.new (e * 8 + c) ≡ slice_index row (8 + c) }
    ensures before { (i : ℕ) → i < e * 8 → slice_index left.new i ≡ slice_index left.old i }
    ensures beside { (i : ℕ) → i < e * 8 → slice_index right.new i ≡ slice_index right.old i }
{
    put_lanes::<8>(left, e, first_eight(row));
    put_lanes::<8>(right, e, last_eight(row));
}

/// The horizontal pass over 13 or 21 rows, to a panel. It reads directly from the plane if all rows are inside.
#[inline(always)]
pub(crate) fn horizontal_to_panel<const ROWS: usize>(
    panel: &mut Panel,
    patch: &Patch,
    filter: &HorizontalFilter,
)
    requires rows { (ROWS ≡ 13) ⊎ (ROWS ≡ 21) }
    requires room { filter.now.start + 16 ≤ patch.now.width }
    ensures { (from : ℕ) → Selects filter.now patch.now from
        → IsPanelOf ROWS panel.new (λ r c. patch_pass (weights_of filter.now.weights) patch.now r (from + c)) }
{
    if patch.has_rows(ROWS) {
        fill_panel::<true, ROWS>(panel, patch, filter);
    } else {
        fill_panel::<false, ROWS>(panel, patch, filter);
    }
}

/// The horizontal pass over 13 or 21 rows, to a panel. If `INSIDE`, they are inside the plane. Rows are read before
/// others are written, since the weights are reloaded after a write.
#[inline(never)]
fn fill_panel<const INSIDE: bool, const ROWS: usize>(
    panel: &mut Panel,
    patch: &Patch,
    filter: &HorizontalFilter,
)
    requires rows { (ROWS ≡ 13) ⊎ (ROWS ≡ 21) }
    requires inside { IsTrue INSIDE → HasRows patch.now ROWS }
    requires room { filter.now.start + 16 ≤ patch.now.width }
    ensures { (from : ℕ) → Selects filter.now patch.now from
        → IsPanelOf ROWS panel.new (λ r c. patch_pass (weights_of filter.now.weights) patch.now r (from + c)) }
{
    let here = *patch;
    let own = *filter;
    let weights = &filter.weights;
    put_six_rows::<INSIDE>(panel, &here, 0, &own, weights);
    put_six_rows::<INSIDE>(panel, &here, 1, &own, weights);
    if ROWS == 13 {
        let last = horizontal_row::<INSIDE>(&here, 12, &own, weights);
        put_lanes::<8>(&mut panel.first, 4, last);
        return;
    }
    put_six_rows::<INSIDE>(panel, &here, 2, &own, weights);
    let first = horizontal_row::<INSIDE>(&here, 18, &own, weights);
    let second = horizontal_row::<INSIDE>(&here, 19, &own, weights);
    let third = horizontal_row::<INSIDE>(&here, 20, &own, weights);
    put_lanes::<8>(&mut panel.first, 6, first);
    put_lanes::<8>(&mut panel.second, 6, second);
    put_lanes::<8>(&mut panel.third, 6, third);
}

/// The horizontal pass over rows `6 * e` to `6 * e + 5`, to a panel that has those above. If `INSIDE`, they are inside
/// the plane.
#[inline(always)]
fn put_six_rows<const INSIDE: bool>(
    panel: &mut Panel,
    patch: &Patch,
    e: usize,
    filter: &HorizontalFilter,
    weights: &PairWeights,
)
    requires place { e < 3 }
    requires inside { IsTrue INSIDE → HasRows patch.now (6 * e + 6) }
    requires room { filter.now.start + 16 ≤ patch.now.width }
    ensures { (from : ℕ) → Selects filter.now patch.now from
        → IsPanel panel.old (λ r c. patch_pass (weights_of weights.now) patch.now r (from + c)) (2 * e)
        → IsPanel panel.new (λ r c. patch_pass (weights_of weights.now) patch.now r (from + c)) (2 * (e + 1)) }
{
    let first = joined_halves(
        horizontal_row::<INSIDE>(patch, 6 * e, filter, weights),
        horizontal_row::<INSIDE>(patch, 6 * e + 3, filter, weights),
    );
    let second = joined_halves(
        horizontal_row::<INSIDE>(patch, 6 * e + 1, filter, weights),
        horizontal_row::<INSIDE>(patch, 6 * e + 4, filter, weights),
    );
    let third = joined_halves(
        horizontal_row::<INSIDE>(patch, 6 * e + 2, filter, weights),
        horizontal_row::<INSIDE>(patch, 6 * e + 5, filter, weights),
    );
    put_lanes::<16>(&mut panel.first, e, first);
    put_lanes::<16>(&mut panel.second, e, second);
    put_lanes::<16>(&mut panel.third, e, third);
}

/// The vertical pass to an 8x8 block, over 13 rows of a panel. All rows are filtered before the first is written: so
/// each pair of rows is loaded once.
#[inline(never)]
pub(crate) fn vertical_from_panel(
    pixels: &mut [u8],
    at: usize,
    stride: usize,
    panel: &Panel,
    filter: &PanelFilter,
)
    requires { HasRoomForBlock 8 8 pixels.old at stride }
    ensures { (pixel : ℕ → ℕ → ℕ) → IsShortPanel panel.now pixel
        → IsBlockWritten 8 8 pixels.old pixels.new at stride
        (λ r c. filter_six (weights_of filter.now.weights) (λ k. pixel (r + k) c)) }
{
    let indices = filter.indices;
    let p0 = pair_of(&panel.first, 0, indices);
    let p1 = pair_of(&panel.second, 0, indices);
    let p2 = pair_of(&panel.third, 0, indices);
    let p3 = pair_of(&panel.first, 1, indices);
    let p4 = pair_of(&panel.second, 1, indices);
    let p5 = pair_of(&panel.third, 1, indices);
    let p6 = pair_of(&panel.first, 2, indices);
    let p7 = pair_of(&panel.second, 2, indices);
    let p8 = pair_of(&panel.third, 2, indices);
    let p9 = pair_of(&panel.first, 3, indices);
    let a = filtered_two(p0, p1, p2, p3, &filter.weights);
    let b = filtered_two(p2, p3, p4, p5, &filter.weights);
    let c = filtered_two(p4, p5, p6, p7, &filter.weights);
    let d = filtered_two(p6, p7, p8, p9, &filter.weights);
    put_two::<8, false>(pixels, at, stride, 0, a);
    put_two::<8, false>(pixels, at, stride, 1, b);
    put_two::<8, false>(pixels, at, stride, 2, c);
    put_two::<8, false>(pixels, at, stride, 3, d);
}

/// Filters two rows vertically, from four consecutive pairs of rows.
#[inline(always)]
fn filtered_two(a: u8x16, b: u8x16, c: u8x16, d: u8x16, weights: &PairWeights) -> u8x16
    ensures upper { (pixel : ℕ → ℕ → ℕ) → (r : ℕ) → IsPaired a pixel r → IsPaired b pixel (r + 1)
        → IsPaired c pixel (r + 2) → (x : ℕ) → x < 8
        → slice_index result x ≡ filter_six (weights_of weights.now) (λ k. pixel (r + k) x) }
    ensures lower { (pixel : ℕ → ℕ → ℕ) → (r : ℕ) → IsPaired b pixel r → IsPaired c pixel (r + 1)
        → IsPaired d pixel (r + 2) → (x : ℕ) → x < 8
        → slice_index result (8 + x) ≡ filter_six (weights_of weights.now) (λ k. pixel (r + k) x) }
{
    joined_halves(
        filtered_pairs(a, b, c, weights),
        filtered_pairs(b, c, d, weights),
    )
}

/// The vertical pass to a 16x16 block, over two panels. Each iteration gives three rows from five pairs of rows.
#[inline(never)]
fn vertical_from_panels(
    pixels: &mut [u8],
    at: usize,
    stride: usize,
    left: &Panel,
    right: &Panel,
    filter: &PanelFilter,
)
    requires { HasRoomForBlock 16 16 pixels.old at stride }
    ensures { (pixel : ℕ → ℕ → ℕ) → ArePanels left.now right.now pixel
        → IsBlockWritten 16 16 pixels.old pixels.new at stride
        (λ r c. filter_six (weights_of filter.now.weights) (λ k. pixel (r + k) c)) }
{
    let indices = filter.indices;
    for e in 0..5 {
        let a = pair_at(&left.first, &right.first, e, indices);
        let b = pair_at(&left.second, &right.second, e, indices);
        let c = pair_at(&left.third, &right.third, e, indices);
        let d = pair_at(&left.first, &right.first, e + 1, indices);
        let f = pair_at(&left.second, &right.second, e + 1, indices);
        let first = vertical_row(&a, &b, &c, &filter.weights);
        let second = vertical_row(&b, &c, &d, &filter.weights);
        let third = vertical_row(&c, &d, &f, &filter.weights);
        put_row::<16>(pixels, at, stride, 3 * e, first);
        put_row::<16>(pixels, at, stride, 3 * e + 1, second);
        put_row::<16>(pixels, at, stride, 3 * e + 2, third);
    }
    let a = pair_at(&left.first, &right.first, 5, indices);
    let b = pair_at(&left.second, &right.second, 5, indices);
    let c = pair_at(&left.third, &right.third, 5, indices);
    let last = vertical_row(&a, &b, &c, &filter.weights);
    put_row::<16>(pixels, at, stride, 15, last);
}

/// Filters one row vertically, from three consecutive pairs of rows.
#[inline(always)]
fn vertical_row(a: &Pair, b: &Pair, c: &Pair, weights: &PairWeights) -> u8x16
    ensures { (pixel : ℕ → ℕ → ℕ) → (r : ℕ) → IsPair a.now pixel r → IsPair b.now pixel (r + 1)
        → IsPair c.now pixel (r + 2) → IsFilteredRow (weights_of weights.now) pixel r result }
{
    joined_halves(
        filtered_pairs(a.left, b.left, c.left, weights),
        filtered_pairs(a.right, b.right, c.right, weights),
    )
}

/// Row `e` of two chains and the next, interleaved.
#[inline(always)]
fn pair_at(left: &[u8], right: &[u8], e: usize, indices: u8x16) -> Pair
    requires left { length left.now ≡ 56 }
    requires right { length right.now ≡ 56 }
    requires place { e < 6 }
    requires indices { Interleave indices }
    ensures { (pixel : ℕ → ℕ → ℕ) → (from : ℕ) → HoldsRows left.now pixel from 7
        → HoldsRows right.now (λ r c. pixel r (8 + c)) from 7 → IsPair result pixel (3 * e + from) }
{
    Pair {
        left: pair_of(left, e, indices),
        right: pair_of(right, e, indices),
    }
}

/// Row `e` of a chain and the next, interleaved.
#[inline(always)]
fn pair_of(chain: &[u8], e: usize, indices: u8x16) -> u8x16
    requires size { length chain.now ≡ 56 }
    requires place { e < 6 }
    requires indices { Interleave indices }
    ensures { (pixel : ℕ → ℕ → ℕ) → (from count : ℕ) → HoldsRows chain.now pixel from count → e + 1 < count
        → IsPaired result pixel (3 * e + from) }
{
    shuffle(load::<16>(chain, 8 * e), indices)
}
