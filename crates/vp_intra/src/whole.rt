//! Intra prediction of a whole macroblock's luma or chroma (RFC 6386, chapters 12.2 and 12.3).

ghost use Rattle.std.specs.Prelude.{◌≡◌, ℕ, ◌+◌, ◌*◌, ◌<◌, ◌≤◌, length, slice_index};
ghost use Rattle.vp_base.specs.Raster.{Raster, pixel};
ghost use Rattle.vp_base.specs.Block.{with_block};
ghost use Rattle.vp_base.specs.Image.{plane_of, with_plane};
ghost use Rattle.vp_intra.specs.Edges.{block, clamped_pixel};
ghost use Rattle.vp_intra.specs.Whole.{luma_pixel, chroma_pixel};

use crate::edges::{edge_above, edge_corner, edge_left, edge_mean};
use std::simd::prelude::*;
use vp_base::{Picture, Plane};
use vp_tables::{ChromaMode, LumaMode};

/// Predicts the 16x16 luma block at column `x` of row `y`. Returns it in raster order. `mode` must not be `B`.
pub fn predict_luma(plane: &Plane, x: usize, y: usize, mode: LumaMode) -> [u8; 256]
    requires columns { x + 16 ≤ plane.now.width }
    requires rows { y + 16 ≤ plane.now.height }
    requires whole { ¬ (mode ≡ LumaMode.B) }
    ensures { result ≡ block 16 (luma_pixel mode plane.now x y) }
{
    match mode {
        LumaMode::Dc => [edge_mean::<16>(plane, x, y); 256],
        LumaMode::V => vertical(&edge_above::<16>(plane, x, y)),
        LumaMode::H => horizontal(&edge_left::<16>(plane, x, y)),
        LumaMode::Tm => true_motion(
            &edge_above::<16>(plane, x, y),
            &edge_left::<16>(plane, x, y),
            edge_corner(plane, x, y),
        ),
        LumaMode::B => unreachable!(),
    }
}

/// Predicts the 8x8 chroma block at column `x` of row `y`. Returns it in raster order.
pub fn predict_chroma(plane: &Plane, x: usize, y: usize, mode: ChromaMode) -> [u8; 64]
    requires columns { x + 8 ≤ plane.now.width }
    requires rows { y + 8 ≤ plane.now.height }
    ensures { result ≡ block 8 (chroma_pixel mode plane.now x y) }
{
    match mode {
        ChromaMode::Dc => [edge_mean::<8>(plane, x, y); 64],
        ChromaMode::V => vertical(&edge_above::<8>(plane, x, y)),
        ChromaMode::H => horizontal(&edge_left::<8>(plane, x, y)),
        ChromaMode::Tm => true_motion(
            &edge_above::<8>(plane, x, y),
            &edge_left::<8>(plane, x, y),
            edge_corner(plane, x, y),
        ),
    }
}

/// Predicts the 16x16 luma block at column `x` of row `y`, and writes it to `picture`. `mode` must not be `B`. The
/// predicted pixels are bytes.
pub fn predict_luma_into(picture: &mut Picture, x: usize, y: usize, mode: LumaMode)
    requires columns { x + 16 ≤ picture.old.luma.width }
    requires rows { y + 16 ≤ picture.old.luma.height }
    requires whole { ¬ (mode ≡ LumaMode.B) }
    ensures value { picture.new ≡ with_plane picture.old 0 (with_block picture.old.luma x y 16 16
        (luma_pixel mode picture.old.luma x y)) }
    ensures bytes { (r c : ℕ) → r < 16 → c < 16 → luma_pixel mode picture.old.luma x y r c ≤ 255 }
{
    let plane = picture.plane(0);
    match mode {
        LumaMode::Dc => {
            let mean = edge_mean::<16>(plane, x, y);
            picture.write_block::<16>(0, x, y, &[mean; 256])
        }
        LumaMode::V => {
            let block: [u8; 256] = vertical(&edge_above::<16>(plane, x, y));
            picture.write_block::<16>(0, x, y, &block)
        }
        LumaMode::H => {
            let block: [u8; 256] = horizontal(&edge_left::<16>(plane, x, y));
            picture.write_block::<16>(0, x, y, &block)
        }
        LumaMode::Tm => {
            let above = edge_above::<16>(plane, x, y);
            let left = edge_left::<16>(plane, x, y);
            let corner = edge_corner(plane, x, y);
            let block: [u8; 256] = true_motion(&above, &left, corner);
            picture.write_block::<16>(0, x, y, &block)
        }
        LumaMode::B => unreachable!(),
    }
}

/// Predicts the 8x8 block at column `x` of row `y` of chroma plane `k`, and writes it to `picture`.
pub fn predict_chroma_into(picture: &mut Picture, k: usize, x: usize, y: usize, mode: ChromaMode)
    requires plane { k < 3 }
    requires columns { x + 8 ≤ (plane_of picture.old k).width }
    requires rows { y + 8 ≤ (plane_of picture.old k).height }
    ensures value { picture.new ≡ with_plane picture.old k (with_block (plane_of picture.old k) x y 8 8
        (chroma_pixel mode (plane_of picture.old k) x y)) }
    ensures bytes { (r c : ℕ) → r < 8 → c < 8 → chroma_pixel mode (plane_of picture.old k) x y r c ≤ 255 }
{
    let plane = picture.plane(k);
    match mode {
        ChromaMode::Dc => {
            let mean = edge_mean::<8>(plane, x, y);
            picture.write_block::<8>(k, x, y, &[mean; 64])
        }
        ChromaMode::V => {
            let block: [u8; 64] = vertical(&edge_above::<8>(plane, x, y));
            picture.write_block::<8>(k, x, y, &block)
        }
        ChromaMode::H => {
            let block: [u8; 64] = horizontal(&edge_left::<8>(plane, x, y));
            picture.write_block::<8>(k, x, y, &block)
        }
        ChromaMode::Tm => {
            let above = edge_above::<8>(plane, x, y);
            let left = edge_left::<8>(plane, x, y);
            let corner = edge_corner(plane, x, y);
            let block: [u8; 64] = true_motion(&above, &left, corner);
            picture.write_block::<8>(k, x, y, &block)
        }
    }
}

/// Vertical prediction: copies the row above to `N` rows.
fn vertical<const N: usize, const M: usize>(above: &[u8; N]) -> [u8; M]
    requires size { N ≤ 16 }
    requires square { M ≡ N * N }
    requires area { M ≤ 256 }
    ensures { result ≡ block N (λ r c. slice_index above.now c) }
{
    let row = Simd::from_array(*above);
    let mut pixels = [0; M];
    for r in 0..N {
        put_row(&mut pixels, r, row);
    }
    pixels
}

/// Horizontal prediction: copies the column to the left to `N` columns.
fn horizontal<const N: usize, const M: usize>(left: &[u8; N]) -> [u8; M]
    requires size { N ≤ 16 }
    requires square { M ≡ N * N }
    requires area { M ≤ 256 }
    ensures { result ≡ block N (λ r c. slice_index left.now r) }
{
    let mut pixels = [0; M];
    for r in 0..N {
        put_row(&mut pixels, r, even_row::<N>(left[r]));
    }
    pixels
}

/// A row of `N` equal pixels.
fn even_row<const N: usize>(pixel: u8) -> Simd<u8, N>
    requires size { N ≤ 16 }
    ensures { (c : ℕ) → c < N → slice_index result c ≡ pixel }
{
    Simd::splat(pixel)
}

/// TrueMotion prediction: left plus above minus corner, clamped.
fn true_motion<const N: usize, const M: usize>(
    above: &[u8; N],
    left: &[u8; N],
    corner: u8,
) -> [u8; M]
    requires size { N ≤ 16 }
    requires square { M ≡ N * N }
    requires area { M ≤ 256 }
    ensures { result ≡ block N (λ r c. clamped_pixel (slice_index left.now r) (slice_index above.now c) corner) }
{
    let row = Simd::from_array(*above);
    let mut pixels = [0; M];
    for r in 0..N {
        put_row(&mut pixels, r, true_motion_row::<N>(row, left[r], corner));
    }
    pixels
}

/// One row of TrueMotion prediction. The positive part of left minus corner is added to the row above, and the
/// negative part is subtracted, both with saturation. One of the two is 0.
fn true_motion_row<const N: usize>(above: Simd<u8, N>, left: u8, corner: u8) -> Simd<u8, N>
    requires size { N ≤ 16 }
    ensures { (c : ℕ) → c < N → slice_index result c ≡ clamped_pixel left (slice_index above.entry c) corner }
{
    let up = left.saturating_sub(corner);
    let down = corner.saturating_sub(left);
    above
        .saturating_add(Simd::splat(up))
        .saturating_sub(Simd::splat(down))
}

/// Writes row `r` of a block of `N` columns.
fn put_row<const N: usize>(pixels: &mut [u8], r: usize, row: Simd<u8, N>)
    requires size { N ≤ 16 }
    requires room { r * N + N ≤ length pixels.old }
    ensures here { (c : ℕ) → c < N → slice_index pixels.new (r * N + c) ≡ slice_index row.entry c }
    ensures before { (i : ℕ) → i < r * N → slice_index pixels.new i ≡ slice_index pixels.old i }
{
    row.copy_to_slice(&mut pixels[r * N..]);
}
