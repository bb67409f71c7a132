//! Adds residues to the prediction that a picture already holds (RFC 6386, chapter 14.5).

ghost use Rattle.std.specs.Prelude.{◌≡◌, ℕ, ◌+◌, ◌-◌, ◌*◌, ◌<◌, ◌≤◌, true, List, ℤ, length, slice_index};
ghost use Rattle.vp_base.specs.Block.{IsWhole};
ghost use Rattle.vp_base.specs.Image.{macroblocks, plane_of, with_plane};
ghost use Rattle.vp_quant.specs.Short.{IsShortFactor};
ghost use Rattle.vp_recon.specs.Residue.{luma_residue, chroma_residue};
ghost use Rattle.vp_recon.specs.Rebuilt.{summed};
ghost use Rattle.vp_recon.specs.Sums.{IsAcross, IsBlockWritten, IsAdded, IsAddedToBlock, row_pixel, with_chroma};
ghost use Rattle.vp_recon.specs.Sums.{AreLow, AreLowRows, AreRows, HasEqualSums, IsNothing, with_sums};
ghost use Rattle.vp_recon.specs.Parts.{HasBlocks, HasTokens, residue_in, large_residue_in};
ghost use Rattle.std.specs.Simd.Lanes.{put_chunk};
ghost use Rattle.vp_lanes.specs.Lane.{lane};

use crate::dc_coefficients::{eight_dcs, large_luma_dcs, own_dcs, small_luma_dcs};
use crate::residue::{ends_in, side_by_side, y2_end};
use crate::residue_inputs::{LargeInputs, SmallInputs};
use crate::segment_factors::{IDCT_MOST, SegmentFactors};
use std::simd::prelude::*;
use vp_base::{Picture, Place};
use vp_quant::ShortFactor;
use vp_tokens::Tokens;

/// Adds the luma residues of a macroblock, with a Y2 block or without, to its prediction. The macroblock begins at
/// column `x` of row `y`.
pub(crate) fn add_luma(
    picture: &mut Picture,
    x: usize,
    y: usize,
    y2: bool,
    tokens: &Tokens,
    factors: &SegmentFactors,
)
    requires columns { x + 16 ≤ picture.old.luma.width }
    requires rows { y + 16 ≤ picture.old.luma.height }
    ensures { picture.new ≡ with_plane picture.old 0
        (with_sums 4 picture.old.luma x y (luma_residue y2 tokens.now factors.now)) }
{
    know_plane(picture, 0);
    let ends = ends_in(tokens, 1, 16);
    if (ends | y2_end(y2, tokens)) == 0 {
        return;
    }
    let Some(dcs) = small_luma_dcs(y2, tokens, factors) else {
        return add_large_luma(picture, x, y, y2, tokens, factors);
    };
    let inputs = SmallInputs {
        tokens,
        first: 1,
        dcs: &dcs,
        ac: factors.raw.y_ac,
        factor: factors.y_ac,
    };
    add_to_block::<4>(picture, 0, x, y, ends, &inputs);
}

/// Adds the luma residues of a macroblock as `add_luma` does, for DC coefficients of any size.
#[cold]
#[inline(never)]
fn add_large_luma(
    picture: &mut Picture,
    x: usize,
    y: usize,
    y2: bool,
    tokens: &Tokens,
    factors: &SegmentFactors,
)
    requires columns { x + 16 ≤ picture.old.luma.width }
    requires rows { y + 16 ≤ picture.old.luma.height }
    ensures { picture.new ≡ with_plane picture.old 0
        (with_sums 4 picture.old.luma x y (luma_residue y2 tokens.now factors.now)) }
{
    let inputs = LargeInputs {
        tokens,
        first: 1,
        dcs: large_luma_dcs(y2, tokens, &factors.raw),
        ac: factors.raw.y_ac,
        factor: factors.y_ac,
    };
    add_large_to_block::<4>(picture, 0, x, y, &inputs);
}

/// Adds the chroma residues of the macroblock at `place` to its prediction.
pub(crate) fn add_chroma(
    picture: &mut Picture,
    place: Place,
    tokens: &Tokens,
    factors: &SegmentFactors,
)
    requires column { place.column < macroblocks picture.old.width }
    requires row { place.row < macroblocks picture.old.height }
    ensures { picture.new ≡ with_chroma picture.old
        (λ k p. with_sums 2 p (8 * place.column) (8 * place.row) (chroma_residue tokens.now factors.now k)) }
{
    let _known = picture.dim();
    know_plane(picture, 1);
    know_plane(picture, 2);
    let [u, v] = [ends_in(tokens, 17, 4), ends_in(tokens, 21, 4)];
    if u | v == 0 {
        return;
    }
    let Some(dcs) = eight_dcs(tokens, 17, &factors.uv_dc) else {
        return add_large_chroma(picture, place, tokens, factors);
    };
    let of_u = SmallInputs {
        tokens,
        first: 17,
        dcs: &dcs[..4],
        ac: factors.raw.uv_ac,
        factor: factors.uv_ac,
    };
    let [x, y] = [8 * place.column, 8 * place.row];
    add_chroma_plane(picture, 1, x, y, u, &of_u);
    let of_v = SmallInputs {
        tokens,
        first: 21,
        dcs: &dcs[4..],
        ac: factors.raw.uv_ac,
        factor: factors.uv_ac,
    };
    add_chroma_plane(picture, 2, x, y, v, &of_v);
}

/// Adds the residues of a macroblock's chroma plane to its prediction: 1 is U, 2 is V. The block begins at column `x`
/// of row `y`. `ends` is the ORed ends of its blocks.
#[inline(always)]
fn add_chroma_plane(
    picture: &mut Picture,
    plane: usize,
    x: usize,
    y: usize,
    ends: u8,
    inputs: &SmallInputs,
)
    requires plane { plane < 3 }
    requires blocks { HasBlocks inputs.now 4 }
    requires few { (i : ℕ) → i < 4 → HasTokens ends inputs.now i }
    requires none { ends ≡ 0 → (i : ℕ) → i < 4 → IsNothing (residue_in inputs.now i) }
    requires columns { x + 8 ≤ (plane_of picture.old plane).width }
    requires rows { y + 8 ≤ (plane_of picture.old plane).height }
    ensures { picture.new ≡ with_plane picture.old plane
        (with_sums 2 (plane_of picture.old plane) x y (residue_in inputs.now)) }
{
    know_plane(picture, plane);
    if ends == 0 {
        return;
    }
    add_to_block::<2>(picture, plane, x, y, ends, inputs);
}

/// Adds the chroma residues of a macroblock as `add_chroma` does, for DC coefficients of any size.
#[cold]
#[inline(never)]
fn add_large_chroma(picture: &mut Picture, place: Place, tokens: &Tokens, factors: &SegmentFactors)
    requires column { place.column < macroblocks picture.old.width }
    requires row { place.row < macroblocks picture.old.height }
    ensures { picture.new ≡ with_chroma picture.old
        (λ k p. with_sums 2 p (8 * place.column) (8 * place.row) (chroma_residue tokens.now factors.now k)) }
{
    let _known = picture.dim();
    let [x, y] = [8 * place.column, 8 * place.row];
    let of_u = LargeInputs {
        tokens,
        first: 17,
        dcs: own_dcs(tokens, 17, 4, factors.raw.uv_dc),
        ac: factors.raw.uv_ac,
        factor: factors.uv_ac,
    };
    add_large_to_block::<2>(picture, 1, x, y, &of_u);
    let of_v = LargeInputs {
        tokens,
        first: 21,
        dcs: own_dcs(tokens, 21, 4, factors.raw.uv_dc),
        ac: factors.raw.uv_ac,
        factor: factors.uv_ac,
    };
    add_large_to_block::<2>(picture, 2, x, y, &of_v);
}

/// Adds the residues of a block's subblocks, with DC coefficients of any size, to its prediction. The block begins at
/// column `x` of row `y`, and is `ACROSS` subblocks (2 or 4) wide and high.
fn add_large_to_block<const ACROSS: usize>(
    picture: &mut Picture,
    plane: usize,
    x: usize,
    y: usize,
    inputs: &LargeInputs,
)
    requires plane { plane < 3 }
    requires across { IsAcross ACROSS }
    requires blocks { inputs.now.first + ACROSS * ACROSS ≤ 25 }
    requires columns { x + 4 * ACROSS ≤ (plane_of picture.old plane).width }
    requires rows { y + 4 * ACROSS ≤ (plane_of picture.old plane).height }
    ensures { picture.new ≡ with_plane picture.old plane
        (with_sums ACROSS (plane_of picture.old plane) x y (large_residue_in inputs.now)) }
{
    know_plane(picture, plane);
    let stride = picture.plane(plane).width();
    let pixels = picture.pixels_mut(plane);
    add_large_to_strips::<ACROSS>(pixels, y * stride + x, stride, inputs);
}

/// Adds the residues of a block's subblocks, with DC coefficients of any size, to its pixels. The first pixel is at
/// index `at`; rows are `stride` apart.
fn add_large_to_strips<const ACROSS: usize>(
    pixels: &mut [u8],
    at: usize,
    stride: usize,
    inputs: &LargeInputs,
)
    requires across { IsAcross ACROSS }
    requires blocks { inputs.now.first + ACROSS * ACROSS ≤ 25 }
    requires room { at + (4 * ACROSS - 1) * stride + 4 * ACROSS ≤ length pixels.old }
    ensures { IsAddedToBlock ACROSS pixels.old pixels.new at stride (large_residue_in inputs.now) }
{
    let mut strip = at;
    for i in 0..ACROSS {
        add_large_to_strip::<ACROSS>(pixels, strip, stride, inputs, ACROSS * i);
        strip += 4 * stride;
    }
}

/// Adds the residues of subblocks `k` to `k + ACROSS - 1`, with DC coefficients of any size, as `add_to_strip` does.
fn add_large_to_strip<const ACROSS: usize>(
    pixels: &mut [u8],
    at: usize,
    stride: usize,
    inputs: &LargeInputs,
    k: usize,
)
    requires across { IsAcross ACROSS }
    requires subblocks { k + ACROSS ≤ 16 }
    requires blocks { inputs.now.first + (k + ACROSS) ≤ 25 }
    requires room { at + 3 * stride + 4 * ACROSS ≤ length pixels.old }
    ensures { IsAdded (4 * ACROSS) pixels.old pixels.new at stride (λ i. large_residue_in inputs.now (k + i)) }
{
    for i in 0..ACROSS / 2 {
        add_large_to_pair(pixels, at + 8 * i, stride, inputs, k + 2 * i);
    }
}

/// Adds the residues of subblocks `k` and `k + 1`, which are side by side, with DC coefficients of any size: in 16 bits
/// if both are small. Their first pixel is at index `at`.
#[inline(never)]
fn add_large_to_pair(pixels: &mut [u8], at: usize, stride: usize, inputs: &LargeInputs, k: usize)
    requires subblocks { k + 2 ≤ 16 }
    requires blocks { inputs.now.first + (k + 2) ≤ 25 }
    requires room { at + 3 * stride + 8 ≤ length pixels.old }
    ensures { IsAdded 8 pixels.old pixels.new at stride (λ i. large_residue_in inputs.now (k + i)) }
{
    let left = inputs.dcs[k];
    let right = inputs.dcs[k + 1];
    if left.unsigned_abs() > IDCT_MOST || right.unsigned_abs() > IDCT_MOST {
        return add_numbers_to_pair(
            pixels,
            at,
            stride,
            inputs.clamped_residue(k),
            inputs.clamped_residue(k + 1),
        );
    }
    let two = SmallInputs {
        tokens: inputs.tokens,
        first: inputs.first + k,
        dcs: &[left as i16, right as i16],
        ac: inputs.ac,
        factor: inputs.factor,
    };
    add_to_pair(pixels, at, stride, &two, 0, &inputs.factor);
}

/// Adds the residues of a block's subblocks to its prediction. The block begins at column `x` of row `y`, and is
/// `ACROSS` subblocks (2 or 4) wide and high. `ends` is the ORed ends of its blocks.
#[inline(always)]
fn add_to_block<const ACROSS: usize>(
    picture: &mut Picture,
    plane: usize,
    x: usize,
    y: usize,
    ends: u8,
    inputs: &SmallInputs,
)
    requires plane { plane < 3 }
    requires across { IsAcross ACROSS }
    requires blocks { HasBlocks inputs.now (ACROSS * ACROSS) }
    requires few { (i : ℕ) → i < ACROSS * ACROSS → HasTokens ends inputs.now i }
    requires columns { x + 4 * ACROSS ≤ (plane_of picture.old plane).width }
    requires rows { y + 4 * ACROSS ≤ (plane_of picture.old plane).height }
    ensures { picture.new ≡ with_plane picture.old plane
        (with_sums ACROSS (plane_of picture.old plane) x y (residue_in inputs.now)) }
{
    know_plane(picture, plane);
    let stride = picture.plane(plane).width();
    let at = y * stride + x;
    let pixels = picture.pixels_mut(plane);
    if ends <= 1 {
        add_to_strips::<ACROSS, true>(pixels, at, stride, inputs);
    } else {
        add_to_strips::<ACROSS, false>(pixels, at, stride, inputs);
    }
}

/// Adds the residues of a block's subblocks to its pixels. The first pixel is at index `at`; rows are `stride` apart.
/// `DC_ONLY` says that all subblocks have DC coefficients only.
#[inline(never)]
fn add_to_strips<const ACROSS: usize, const DC_ONLY: bool>(
    pixels: &mut [u8],
    at: usize,
    stride: usize,
    inputs: &SmallInputs,
)
    requires across { IsAcross ACROSS }
    requires blocks { HasBlocks inputs.now (ACROSS * ACROSS) }
    requires dc_only { DC_ONLY ≡ true → (i : ℕ) → i < ACROSS * ACROSS → HasTokens 1 inputs.now i }
    requires room { at + (4 * ACROSS - 1) * stride + 4 * ACROSS ≤ length pixels.old }
    ensures { IsAddedToBlock ACROSS pixels.old pixels.new at stride (residue_in inputs.now) }
{
    let mut strip = at;
    // A copy, which stays in a register.
    let factor = inputs.factor;
    for i in 0..ACROSS {
        if DC_ONLY {
            add_dcs_to_strip::<ACROSS>(pixels, strip, stride, inputs, ACROSS * i);
        } else {
            add_to_strip::<ACROSS>(pixels, strip, stride, inputs, ACROSS * i, &factor);
        }
        strip += 4 * stride;
    }
}

/// Adds the residues of subblocks `k` to `k + ACROSS - 1`, which are side by side and have DC coefficients only. Their
/// first pixel is at index `at`.
#[inline(always)]
fn add_dcs_to_strip<const ACROSS: usize>(
    pixels: &mut [u8],
    at: usize,
    stride: usize,
    inputs: &SmallInputs,
    k: usize,
)
    requires across { IsAcross ACROSS }
    requires subblocks { HasBlocks inputs.now (k + ACROSS) }
    requires dc_only { (i : ℕ) → i < ACROSS → HasTokens 1 inputs.now (k + i) }
    requires room { at + 3 * stride + 4 * ACROSS ≤ length pixels.old }
    ensures { IsAdded (4 * ACROSS) pixels.old pixels.new at stride (λ i. residue_in inputs.now (k + i)) }
{
    if ACROSS == 4 {
        let row = inputs.dc_row_of_four(k);
        add_numbers_to_rows::<16>(pixels, at, stride, row, row, row, row);
    } else {
        let row = inputs.dc_row_of_two(k);
        add_numbers_to_rows::<8>(pixels, at, stride, row, row, row, row);
    }
}

/// Adds the residues of subblocks `k` to `k + ACROSS - 1`, which are side by side. Their first pixel is at index `at`.
/// `factor` is the AC factor, made ready.
#[inline(always)]
fn add_to_strip<const ACROSS: usize>(
    pixels: &mut [u8],
    at: usize,
    stride: usize,
    inputs: &SmallInputs,
    k: usize,
    factor: &ShortFactor,
)
    requires across { IsAcross ACROSS }
    requires subblocks { HasBlocks inputs.now (k + ACROSS) }
    requires factor { IsShortFactor factor.now inputs.now.ac 2200 }
    requires room { at + 3 * stride + 4 * ACROSS ≤ length pixels.old }
    ensures { IsAdded (4 * ACROSS) pixels.old pixels.new at stride (λ i. residue_in inputs.now (k + i)) }
{
    for i in 0..ACROSS / 2 {
        add_to_pair(pixels, at + 8 * i, stride, inputs, k + 2 * i, factor);
    }
}

/// Adds the residues of subblocks `k` and `k + 1`, which are side by side. Their first pixel is at index `at`. `factor`
/// is the AC factor, made ready.
#[inline(always)]
fn add_to_pair(
    pixels: &mut [u8],
    at: usize,
    stride: usize,
    inputs: &SmallInputs,
    k: usize,
    factor: &ShortFactor,
)
    requires subblocks { HasBlocks inputs.now (k + 2) }
    requires factor { IsShortFactor factor.now inputs.now.ac 2200 }
    requires room { at + 3 * stride + 8 ≤ length pixels.old }
    ensures { IsAdded 8 pixels.old pixels.new at stride (λ i. residue_in inputs.now (k + i)) }
{
    if ends_in(inputs.tokens, inputs.first + k, 2) <= 1 {
        if inputs.dcs[k] == 0 && inputs.dcs[k + 1] == 0 {
            return;
        }
        return add_dcs_to_strip::<2>(pixels, at, stride, inputs, k);
    }
    let Some(rows) = inputs.idct_of_two(k, factor) else {
        return add_clamped_to_pair(pixels, at, stride, inputs, k);
    };
    let (a, b, c, d) = rows;
    add_numbers_to_rows::<8>(pixels, at, stride, a, b, c, d);
}

/// Adds the residues of subblocks `k` and `k + 1`, which are side by side, with AC coefficients of any size. Their
/// first pixel is at index `at`.
#[cold]
#[inline(never)]
fn add_clamped_to_pair(pixels: &mut [u8], at: usize, stride: usize, inputs: &SmallInputs, k: usize)
    requires subblocks { HasBlocks inputs.now (k + 2) }
    requires room { at + 3 * stride + 8 ≤ length pixels.old }
    ensures { IsAdded 8 pixels.old pixels.new at stride (λ i. residue_in inputs.now (k + i)) }
{
    add_numbers_to_pair(
        pixels,
        at,
        stride,
        inputs.clamped_residue(k),
        inputs.clamped_residue(k + 1),
    );
}

/// Adds the numbers of two subblocks, which are side by side, to their pixels. The first pixel is at index `at`.
fn add_numbers_to_pair(
    pixels: &mut [u8],
    at: usize,
    stride: usize,
    left: [i16; 16],
    right: [i16; 16],
)
    requires room { at + 3 * stride + 8 ≤ length pixels.old }
    requires left { AreLow 16 left }
    requires right { AreLow 16 right }
    ensures { (own : ℕ → List ℤ) → HasEqualSums left (own 0) → HasEqualSums right (own 1)
        → IsAdded 8 pixels.old pixels.new at stride own }
{
    let (a, b, c, d) = side_by_side(left, right);
    add_numbers_to_rows::<8>(pixels, at, stride, a, b, c, d);
}

/// Adds the numbers of `a`, `b`, `c` and `d` to four rows of `N` pixels, the first from index `at` on; rows are
/// `stride` apart.
#[inline(always)]
fn add_numbers_to_rows<const N: usize>(
    pixels: &mut [u8],
    at: usize,
    stride: usize,
    a: Simd<i16, N>,
    b: Simd<i16, N>,
    c: Simd<i16, N>,
    d: Simd<i16, N>,
)
    requires few { N ≤ 16 }
    requires room { at + 3 * stride + N ≤ length pixels.old }
    requires low { AreLowRows N a b c d }
    ensures { (own : ℕ → List ℤ) → AreRows N a.entry b.entry c.entry d.entry own
        → IsAdded N pixels.old pixels.new at stride own }
{
    let second = at + stride;
    let third = second + stride;
    let fourth = third + stride;
    let a = summed_row::<N>(pixels, at, a);
    let b = summed_row::<N>(pixels, second, b);
    let c = summed_row::<N>(pixels, third, c);
    let d = summed_row::<N>(pixels, fourth, d);
    put_rows::<N>(pixels, at, stride, a, b, c, d);
}

/// Returns the `N` pixels from index `at` on, with numbers added, clamped to a byte.
#[inline(always)]
fn summed_row<const N: usize>(pixels: &[u8], at: usize, numbers: Simd<i16, N>) -> Simd<u8, N>
    requires few { N ≤ 16 }
    requires room { at + N ≤ length pixels.now }
    requires low { AreLow N numbers }
    ensures value { (j : ℕ) → j < N → slice_index result j
        ≡ summed (slice_index pixels.now (at + j)) (lane numbers.entry j) }
    ensures bytes { (j : ℕ) → j < N → slice_index pixels.now (at + j) ≤ 255 }
{
    summed::<N>(load::<N>(pixels, at), numbers)
}

/// Loads `N` pixels from index `at` on.
#[inline(always)]
fn load<const N: usize>(pixels: &[u8], at: usize) -> Simd<u8, N>
    requires { at + N ≤ length pixels.now }
    ensures { (j : ℕ) → j < N → slice_index result j ≡ slice_index pixels.now (at + j) }
{
    Simd::from_slice(&pixels[at..])
}

/// Adds numbers to `N` pixels, and clamps the sums to a byte.
pub(crate) fn summed<const N: usize>(pixels: Simd<u8, N>, numbers: Simd<i16, N>) -> Simd<u8, N>
    requires few { N ≤ 16 }
    requires low { AreLow N numbers }
    ensures { (j : ℕ) → j < N → slice_index result j ≡ summed (slice_index pixels.entry j) (lane numbers.entry j) }
{
    (pixels.cast::<i16>() + numbers)
        .simd_clamp(Simd::splat(0), Simd::splat(255))
        .cast::<u8>()
}

/// Stores four rows of `N` pixels, the first from index `at` on; rows are `stride` apart.
#[inline(always)]
fn put_rows<const N: usize>(
    pixels: &mut [u8],
    at: usize,
    stride: usize,
    a: Simd<u8, N>,
    b: Simd<u8, N>,
    c: Simd<u8, N>,
    d: Simd<u8, N>,
)
    requires few { N ≤ 16 }
    requires room { at + 3 * stride + N ≤ length pixels.old }
    ensures { IsBlockWritten N 4 pixels.old pixels.new at stride (λ _ _ _. row_pixel a.entry b.entry c.entry d.entry) }
{
    let second = at + stride;
    let third = second + stride;
    let fourth = third + stride;
    put::<N>(pixels, at, a);
    put::<N>(pixels, second, b);
    put::<N>(pixels, third, c);
    put::<N>(pixels, fourth, d);
}

/// Stores `N` pixels from index `at` on.
#[inline(always)]
fn put<const N: usize>(pixels: &mut [u8], at: usize, row: Simd<u8, N>)
    requires { at + N ≤ length pixels.old }
    ensures value { pixels.new ≡ put_chunk at pixels.old row.entry }
    ensures long { length row.entry ≡ N }
{
    row.copy_to_slice(&mut pixels[at..]);
}

/// States that pixels are bytes, for proofs: it does nothing.
#[inline(always)]
pub(crate) fn know_bytes(pixels: &[u8])
    ensures { (i : ℕ) → slice_index pixels.now i ≤ 255 }
{}

/// States that a plane has all its pixels and that they are bytes, for proofs: it does nothing.
#[inline(always)]
fn know_plane(picture: &Picture, plane: usize)
    requires { plane < 3 }
    ensures whole { IsWhole (plane_of picture.now plane) }
    ensures height { (plane_of picture.now plane).height ≤ 16384 }
    ensures bytes { (i : ℕ) → slice_index (plane_of picture.now plane).pixels i ≤ 255 }
{
    let plane = picture.plane(plane);
    let _known = plane.height();
    know_bytes(plane.pixels());
}
