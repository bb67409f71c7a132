//! Intra prediction of a 4x4 subblock (RFC 6386, chapter 12.3).

ghost use Rattle.std.specs.Prelude.{◌≡◌, ℕ, ◌+◌, ◌<◌, ◌≤◌, length, map};
ghost use Rattle.std.specs.Simd.Lanes.{chunk};
ghost use Rattle.vp_intra.specs.Edges.{block, first, above_pixel};
ghost use Rattle.vp_intra.specs.Sub.{above_right_row, above_right_pixel, around, sub_pixel, sub_modes};
ghost use Rattle.vp_intra.specs.SubLanes.{padded};

use crate::edges::{edge_corner, edge_left};
use crate::modes::{predict, predict_modes};
use std::simd::prelude::*;
use vp_base::Plane;
use vp_tables::SubMode;

/// Predicts the 4x4 subblock at column `x` of row `y` of a luma plane; both are multiples of 4. Returns it in raster
/// order. In the last column of a macroblock, the pixels above and to the right are those of the row above the
/// macroblock.
pub fn predict_sub(plane: &Plane, x: usize, y: usize, mode: SubMode) -> [u8; 16]
    requires columns { x + 4 ≤ plane.now.width }
    requires rows { y + 4 ≤ plane.now.height }
    ensures { result ≡ block 4 (sub_pixel mode plane.now x y) }
{
    predict(mode, pixels_around(plane, x, y)).to_array()
}

/// Predicts the subblock by each of the ten modes, in the order of `SubMode`. Each is the prediction of `predict_sub`;
/// the pixels around are read once.
pub fn predict_sub_modes(plane: &Plane, x: usize, y: usize) -> [[u8; 16]; 10]
    requires columns { x + 4 ≤ plane.now.width }
    requires rows { y + 4 ≤ plane.now.height }
    ensures { result ≡ map (λ mode. block 4 (sub_pixel mode plane.now x y)) sub_modes }
{
    predict_modes(pixels_around(plane, x, y))
}

/// The row below the pixels above and to the right of a subblock.
#[tactic(auto, unfolding(crate::specs::Sub::above_right_row))]
fn row_of_above_right(x: usize, y: usize) -> usize
    ensures value { result ≡ above_right_row x y }
    ensures bound { result ≤ y }
{
    if x % 16 == 12 { y - y % 16 } else { y }
}

/// Pixel `i`, 0 to 3, of those above and to the right of a subblock. Right of the frame the row's last is repeated.
#[tactic(auto, unfolding(crate::specs::Sub::above_right_pixel))]
fn pixel_at_right(plane: &Plane, x: usize, y: usize, i: usize) -> u8
    requires column { x + 4 ≤ plane.now.width }
    requires row { y < plane.now.height }
    requires index { i < 4 }
    ensures { result ≡ above_right_pixel plane.now x y i }
{
    let width = plane.width();
    let row = row_of_above_right(x, y);
    if row == 0 {
        127
    } else {
        plane.get((x + 4 + i).min(width - 1), row - 1)
    }
}

/// Loads four bytes from index `at` on.
fn load4(line: &[u8], at: usize) -> u8x4
    requires { at + 4 ≤ length line.now }
    ensures { result ≡ chunk at 4 line.now }
{
    u8x4::from_slice(&line[at..])
}

/// The four pixels above a subblock; 127 above the frame.
fn above(plane: &Plane, x: usize, y: usize) -> u8x4
    requires columns { x + 4 ≤ plane.now.width }
    requires row { y < plane.now.height }
    ensures { result ≡ first 4 (above_pixel plane.now x y) }
{
    if y == 0 {
        return u8x4::splat(127);
    }
    load4(plane.row(y - 1), x)
}

/// The four pixels above and to the right of a subblock.
fn above_right(plane: &Plane, x: usize, y: usize) -> u8x4
    requires columns { x + 4 ≤ plane.now.width }
    requires row { y < plane.now.height }
    ensures { result ≡ first 4 (above_right_pixel plane.now x y) }
{
    let width = plane.width();
    let row = row_of_above_right(x, y);
    if row > 0 && x + 8 <= width {
        return load4(plane.row(row - 1), x + 4);
    }
    u8x4::from_array([
        pixel_at_right(plane, x, y, 0),
        pixel_at_right(plane, x, y, 1),
        pixel_at_right(plane, x, y, 2),
        pixel_at_right(plane, x, y, 3),
    ])
}

/// The thirteen pixels around a subblock: left column from the bottom, corner, row above; then the first three more times.
fn pixels_around(plane: &Plane, x: usize, y: usize) -> u8x16
    requires columns { x + 4 ≤ plane.now.width }
    requires rows { y + 4 ≤ plane.now.height }
    ensures { result ≡ padded (around plane.now x y) }
{
    let left = u8x4::from_array(edge_left::<4>(plane, x, y));
    let corner = u8x4::splat(edge_corner(plane, x, y));
    let row = above(plane, x, y).shuffle::<8>(above_right(plane, x, y), [0, 1, 2, 3, 4, 5, 6, 7]);
    left.shuffle::<8>(corner, [3, 2, 1, 0, 4, 4, 4, 4])
        .shuffle::<16>(row, [0, 1, 2, 3, 4, 8, 9, 10, 11, 12, 13, 14, 15, 0, 0, 0])
}
