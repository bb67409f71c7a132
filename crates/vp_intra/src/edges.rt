//! The pixels around a block (RFC 6386, chapter 12.2).

ghost use Rattle.std.specs.Prelude.{◌≡◌, ◌+◌, ◌*◌, ◌/◌, ◌<◌, ◌≤◌, sum};
ghost use Rattle.vp_base.specs.Raster.{pixel};
ghost use Rattle.vp_intra.specs.Edges.{first, above_pixel, left_pixel, corner_pixel, edge, rounded_mean};

use std::simd::prelude::*;
use vp_base::Plane;

/// The row above a block; 127 above the frame.
#[tactic(auto, unfolding(crate::specs::Edges::above_pixel))]
pub(crate) fn edge_above<const N: usize>(plane: &Plane, x: usize, y: usize) -> [u8; N]
    requires size { N ≤ 16 }
    requires columns { x + N ≤ plane.now.width }
    requires row { y < plane.now.height }
    ensures { result ≡ first N (above_pixel plane.now x y) }
{
    let mut edge = [127; N];
    if y > 0 {
        edge.copy_from_slice(&plane.row(y - 1)[x..x + N]);
    }
    edge
}

/// The column to the left of a block; 129 left of the frame.
#[tactic(auto, unfolding(crate::specs::Edges::left_pixel))]
pub(crate) fn edge_left<const N: usize>(plane: &Plane, x: usize, y: usize) -> [u8; N]
    requires size { N ≤ 16 }
    requires column { x < plane.now.width }
    requires rows { y + N ≤ plane.now.height }
    ensures { result ≡ first N (left_pixel plane.now x y) }
{
    let mut edge = [129; N];
    if x > 0 {
        let _known = plane.height();
        let stride = plane.width();
        let pixels = plane.pixels();
        // Each index is a sum: after the loop is unrolled, products would be worked out one by one.
        let mut at = y * stride + (x - 1);
        for r in 0..N {
            edge[r] = pixels[at];
            at += stride;
        }
    }
    edge
}

/// The pixel above and to the left of a block.
#[tactic(auto, unfolding(crate::specs::Edges::corner_pixel))]
pub(crate) fn edge_corner(plane: &Plane, x: usize, y: usize) -> u8
    requires column { x < plane.now.width }
    requires row { y < plane.now.height }
    ensures { result ≡ corner_pixel plane.now x y }
{
    if y == 0 {
        127
    } else if x == 0 {
        129
    } else {
        plane.get(x - 1, y - 1)
    }
}

/// The rounded mean of the pixels above and to the left that are inside the frame; 128 if there are none.
#[tactic(auto, unfolding(crate::specs::Edges::edge))]
pub(crate) fn edge_mean<const N: usize>(plane: &Plane, x: usize, y: usize) -> u8
    requires columns { x + N ≤ plane.now.width }
    requires rows { y + N ≤ plane.now.height }
    requires some { 0 < N }
    requires size { N ≤ 16 }
    ensures { result ≡ rounded_mean (edge plane.now x y N) }
{
    if y == 0 && x == 0 {
        return 128;
    }
    if y == 0 {
        return rounded(
            sum_of_edge::<N>(Simd::from_array(edge_left::<N>(plane, x, y))),
            N as u16,
        );
    }
    let sum = sum_of_edge::<N>(Simd::from_array(edge_above::<N>(plane, x, y)));
    if x == 0 {
        return rounded(sum, N as u16);
    }
    rounded(
        sum + sum_of_edge::<N>(Simd::from_array(edge_left::<N>(plane, x, y))),
        N as u16 + N as u16,
    )
}

fn rounded(sum: u16, count: u16) -> u8
    requires some { 0 < count }
    requires few { count ≤ 32 }
    requires bytes { sum ≤ 255 * count }
    ensures { result ≡ (sum + count / 2) / count }
{
    ((sum + count / 2) / count) as u8
}

/// Sums an edge in lanes; it compiles to one instruction.
pub(crate) fn sum_of_edge<const N: usize>(edge: Simd<u8, N>) -> u16
    requires size { N ≤ 16 }
    ensures value { result ≡ sum edge.entry }
    ensures bound { result ≤ 255 * N }
{
    edge.cast::<u16>().strict_reduce_sum()
}
