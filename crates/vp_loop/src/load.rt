//! Loading the sixteen lines of an edge.

ghost use Rattle.std.specs.Prelude.{◌≡◌, ℕ, ◌+◌, ◌*◌, ◌≤◌, ◌<◌, [], length, slice_index, slice_index_or};
ghost use Rattle.vp_loop.specs.Edges.{line_from};
ghost use Rattle.vp_loop.specs.Lanes.{line_of, IsEdgeIn, IsEdgeWithin, EachPlane, HasLines, HasCorner};

use crate::edges::{Edge, Orientation, Planes};
use crate::lanes::Lines;
use crate::transpose::{join, transpose};
use std::simd::prelude::*;
use vp_base::{Picture, Plane};
use vp_lanes::{load8, load16};

/// Eight rows of eight pixels, the first from index `at` on; rows are `stride` apart. Each index is the previous one
/// plus `stride`.
#[inline(always)]
fn rows8(pixels: &[u8], at: usize, stride: usize) -> [u8x8; 8]
    requires room { at + 7 * stride + 8 ≤ length pixels.now }
    ensures { (r c : ℕ) → r < 8 → c < 8
        → slice_index (slice_index_or result r []) c ≡ slice_index pixels.now (at + r * stride + c) }
{
    let a1 = at + stride;
    let a2 = a1 + stride;
    let a3 = a2 + stride;
    let a4 = a3 + stride;
    let a5 = a4 + stride;
    let a6 = a5 + stride;
    let a7 = a6 + stride;
    [
        load8(pixels, at),
        load8(pixels, a1),
        load8(pixels, a2),
        load8(pixels, a3),
        load8(pixels, a4),
        load8(pixels, a5),
        load8(pixels, a6),
        load8(pixels, a7),
    ]
}

/// Eight rows of sixteen pixels as the lines of a horizontal edge, the first from index `at` on.
#[inline(always)]
fn rows16(pixels: &[u8], at: usize, stride: usize) -> Lines
    requires room { at + 7 * stride + 16 ≤ length pixels.now }
    ensures { (c : ℕ) → c < 16 → line_of result c ≡ line_from (λ r. slice_index pixels.now (at + r * stride + c)) }
{
    let a1 = at + stride;
    let a2 = a1 + stride;
    let a3 = a2 + stride;
    let a4 = a3 + stride;
    let a5 = a4 + stride;
    let a6 = a5 + stride;
    let a7 = a6 + stride;
    Lines {
        p3: load16(pixels, at),
        p2: load16(pixels, a1),
        p1: load16(pixels, a2),
        p0: load16(pixels, a3),
        q0: load16(pixels, a4),
        q1: load16(pixels, a5),
        q2: load16(pixels, a6),
        q3: load16(pixels, a7),
    }
}

/// The sixteen lines across a luma edge.
#[inline(always)]
fn load_luma(plane: &Plane, edge: Edge) -> Lines
    requires { IsEdgeIn edge.orientation 16 edge.x edge.y plane.now }
    ensures { HasLines edge result 16 (λ k. k) plane.now }
{
    let _known = plane.height();
    let stride = plane.width();
    let at = edge.y * stride + edge.x;
    let pixels = plane.pixels();
    match edge.orientation {
        Orientation::Vertical => transpose(
            rows8(pixels, at, stride),
            rows8(pixels, at + 8 * stride, stride),
        ),
        Orientation::Horizontal => rows16(pixels, at, stride),
    }
}

/// Eight rows of eight pixels of a plane, with their top left corner at the edge's.
#[tactic(auto, using(crate::proofs::RowReads::pixel_is))]
#[inline(always)]
fn corner(plane: &Plane, edge: Edge) -> [u8x8; 8]
    requires { IsEdgeIn edge.orientation 8 edge.x edge.y plane.now }
    ensures { HasCorner edge result plane.now }
{
    let _known = plane.height();
    let stride = plane.width();
    rows8(plane.pixels(), edge.y * stride + edge.x, stride)
}

/// The lines across a chroma edge: eight of one plane, followed by eight of the other.
#[inline(always)]
fn load_chroma(u: &Plane, v: &Plane, edge: Edge) -> Lines
    requires u { IsEdgeIn edge.orientation 8 edge.x edge.y u.now }
    requires v { IsEdgeIn edge.orientation 8 edge.x edge.y v.now }
    ensures first { HasLines edge result 8 (λ k. k) u.now }
    ensures second { HasLines edge result 8 (λ k. k + 8) v.now }
{
    let u_rows = corner(u, edge);
    let v_rows = corner(v, edge);
    match edge.orientation {
        Orientation::Vertical => transpose(u_rows, v_rows),
        Orientation::Horizontal => join(u_rows, v_rows),
    }
}

/// Loads the sixteen lines across an edge.
#[inline(always)]
pub(crate) fn load_lines(picture: &Picture, edge: Edge) -> Lines
    requires { IsEdgeWithin edge picture.now }
    ensures { EachPlane edge.planes (HasLines edge result) picture.now }
{
    let _known = picture.dim();
    match edge.planes {
        Planes::Luma => load_luma(picture.plane(0), edge),
        Planes::Chroma => load_chroma(picture.plane(1), picture.plane(2), edge),
    }
}
