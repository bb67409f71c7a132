//! Storing the lines of an edge.

ghost use Rattle.std.specs.Prelude.{◌≡◌, ℕ, ◌+◌, ◌*◌, ◌<◌, ◌≤◌, List, length};
ghost use Rattle.std.specs.Simd.Lanes.{put_chunk};
ghost use Rattle.vp_base.specs.Raster.{Raster, pixel_index};
ghost use Rattle.vp_base.specs.Image.{plane_of};
ghost use Rattle.vp_base.specs.Block.{with_block, written, IsWhole};
ghost use Rattle.vp_loop.specs.declared.edges.Orientation.TheVariants.{Vertical, Horizontal};
ghost use Rattle.vp_loop.specs.Edges.{on_plane};
ghost use Rattle.vp_loop.specs.Lanes.{on_planes, pixel_of, with_lines, unwritten, IsEdgeIn, IsEdgeWithin, EachPlane};

use crate::edges::{Edge, Orientation, Planes};
use crate::lanes::Lines;
use crate::transpose::{first_halves, second_halves, untranspose, untranspose_middle};
use std::simd::prelude::*;
use vp_base::Picture;
use vp_lanes::{store8, store16};

/// A row of pixels in the lanes of a vector.
trait Row: Copy {
    ghost pixels: { Self → List ℕ };

    ghost count: { ℕ };

    /// Stores the pixels from index `at` on.
    fn put(self, to: &mut [u8], at: usize)
        requires { at + count ≤ length to.old }
        ensures value { to.new ≡ put_chunk at to.old (pixels self) }
        ensures long { length (pixels self) ≡ count };
}

impl Row for u8x4 {
    ghost pixels = { λ v. v };

    ghost count = { 4 };

    fn put(self, to: &mut [u8], at: usize) {
        self.copy_to_slice(&mut to[at..]);
    }
}

impl Row for u8x8 {
    ghost pixels = { λ v. v };

    ghost count = { 8 };

    fn put(self, to: &mut [u8], at: usize) {
        store8(to, at, self);
    }
}

impl Row for u8x16 {
    ghost pixels = { λ v. v };

    ghost count = { 16 };

    fn put(self, to: &mut [u8], at: usize) {
        store16(to, at, self);
    }
}

/// Stores rows of pixels, the first from index `at` on; rows are `stride` apart.
#[tactic(auto, using(crate::proofs::RowWrites::none_yet))]
#[inline(always)]
fn write_rows_at<R: Row>(pixels: &mut [u8], at: usize, stride: usize, rows: &[R])
    requires room { (r : ℕ) → r < length rows.now → at + r * stride + R.count ≤ length pixels.old }
    requires end { at + length rows.now * stride ≤ 300000000 }
    ensures value { (p : Raster) (x y : ℕ) → IsWhole p → p.pixels ≡ pixels.old → p.width ≡ stride
        → at ≡ pixel_index p x y
        → x + R.count ≤ p.width → y + length rows.now ≤ p.height
        → pixels.new ≡ written p x y R.count (length rows.now) (pixel_of R.pixels rows.now) }
    ensures len { length pixels.new ≡ length pixels.old }
{
    let mut next = at;
    for r in 0..rows.len() {
        rows[r].put(pixels, next);
        next += stride;
    }
}

/// Writes rows of pixels to plane `k`, with their top left corner at (`x`, `y`).
#[inline(always)]
fn write_rows<R: Row>(picture: &mut Picture, k: usize, x: usize, y: usize, rows: &[R])
    requires plane { k < 3 }
    requires columns { x + R.count ≤ (plane_of picture.old k).width }
    requires rows { y + length rows.now ≤ (plane_of picture.old k).height }
    ensures { picture.new ≡ on_plane k (λ p. with_block p x y R.count (length rows.now)
        (pixel_of R.pixels rows.now)) picture.old }
{
    let _known = picture.plane(k).height();
    let stride = picture.plane(k).width();
    write_rows_at(picture.pixels_mut(k), y * stride + x, stride, rows);
}

/// Writes sixteen rows of pixels, as lines across a vertical edge are, from column `x` of row `y` on: all to luma, or
/// eight to each chroma plane.
#[inline(always)]
fn write_sixteen_rows<R: Row>(picture: &mut Picture, planes: Planes, x: usize, y: usize, rows: &[R])
    requires len { length rows.now ≡ 16 }
    requires within { EachPlane planes (λ n lane p. (x + R.count ≤ p.width) × (y + n ≤ p.height)) picture.old }
    ensures { picture.new ≡ on_planes planes (λ n lane p. with_block p x y R.count n
        (λ r. pixel_of R.pixels rows.now (lane r))) picture.old }
{
    match planes {
        Planes::Luma => write_rows(picture, 0, x, y, rows),
        Planes::Chroma => {
            write_rows(picture, 1, x, y, &rows[0..8]);
            write_rows(picture, 2, x, y, &rows[8..16]);
        }
    }
}

/// Stores the lines of a horizontal edge, without the first and the last `kept` rows.
#[inline(always)]
fn store_rows(picture: &mut Picture, edge: Edge, l: Lines, kept: usize)
    requires few { kept ≤ 4 }
    requires within { EachPlane edge.planes (λ n lane. IsEdgeIn Horizontal n edge.x edge.y) picture.old }
    ensures { picture.new ≡ on_planes edge.planes (with_lines Horizontal edge.x edge.y kept l) picture.old }
{
    let _known = picture.dim();
    match edge.planes {
        Planes::Luma => {
            let rows = [l.p3, l.p2, l.p1, l.p0, l.q0, l.q1, l.q2, l.q3];
            write_rows(picture, 0, edge.x, edge.y + kept, &rows[kept..8 - kept]);
        }
        Planes::Chroma => {
            let u_rows = first_halves(l);
            let v_rows = second_halves(l);
            write_rows(picture, 1, edge.x, edge.y + kept, &u_rows[kept..8 - kept]);
            write_rows(picture, 2, edge.x, edge.y + kept, &v_rows[kept..8 - kept]);
        }
    }
}

/// Stores the lines of an edge. Of one `inside` a macroblock, only the middle four pixels of each line are stored.
#[inline(always)]
pub(crate) fn store_lines(picture: &mut Picture, edge: Edge, lines: Lines, inside: bool)
    requires { IsEdgeWithin edge picture.old }
    ensures { picture.new ≡ on_planes edge.planes (with_lines edge.orientation edge.x edge.y
        (unwritten inside edge.orientation) lines) picture.old }
{
    let _known = picture.dim();
    match edge.orientation {
        Orientation::Vertical if inside => {
            let rows = untranspose_middle(lines);
            write_sixteen_rows(picture, edge.planes, edge.x + 2, edge.y, &rows);
        }
        Orientation::Vertical => {
            let rows = untranspose(lines);
            write_sixteen_rows(picture, edge.planes, edge.x, edge.y, &rows);
        }
        Orientation::Horizontal => store_rows(picture, edge, lines, if inside { 2 } else { 1 }),
    }
}
