//! Filtering the edges of one macroblock. All lines of an edge are filtered at once, and those of both chroma planes
//! together. The parameters `LUMA` and `VERTICAL` change no result: they give each kind of edge its own copy of a
//! function, and a copy with one caller is compiled for that kind alone.

ghost use Rattle.std.specs.Prelude.{◌≡◌, ◌+◌, ◌-◌, ◌*◌, ◌/◌, ◌<◌, ◌≤◌, Some};
ghost use Rattle.vp_loop.specs.Edges.{pick, edge_lines, macroblock_edge, subblock_edges, block_edges};
ghost use Rattle.vp_loop.specs.Edges.{block_filtered};
ghost use Rattle.vp_loop.specs.Lanes.{KeepsEnds, unwritten, size_in, on_planes, IsEdgeWithin, IsBlockWithin};

use crate::limits::EdgeLimits;
use crate::lines::LineStep;
use crate::load::load_lines;
use crate::store::store_lines;
use vp_base::Picture;

/// The planes whose edges are filtered at once.
#[derive(Clone, Copy)]
pub(crate) enum Planes {
    /// Luma: an edge has sixteen lines.
    Luma,
    /// Both chroma planes: an edge has eight lines in each.
    Chroma,
}

/// The orientation of an edge; lines of eight pixels cross it.
#[derive(Clone, Copy)]
pub(crate) enum Orientation {
    /// The lines across it are in rows.
    Vertical,
    /// The lines across it are in columns.
    Horizontal,
}

/// An edge of a macroblock. To `filter_edge` column `x` of row `y` has pixel `p3` of the first line across it; before,
/// it is where the macroblock begins.
#[derive(Clone, Copy)]
pub(crate) struct Edge {
    pub(crate) planes: Planes,
    pub(crate) orientation: Orientation,
    pub(crate) x: usize,
    pub(crate) y: usize,
}

impl Planes {
    /// The number of subblock edges inside a macroblock in each direction.
    #[inline(always)]
    fn edges_inside(self) -> usize
        ensures { result ≡ size_in self / 4 - 1 }
    {
        match self {
            Planes::Luma => 3,
            Planes::Chroma => 1,
        }
    }
}

impl Edge {
    /// The edge `by` pixels further right or down.
    #[inline(always)]
    fn after(self, by: usize) -> Edge
        requires { self.x + self.y + by ≤ 100000 }
        ensures { result ≡ record self {
          x = pick self.orientation (self.x + by) self.x;
          y = pick self.orientation self.y (self.y + by);
        } }
    {
        match self.orientation {
            Orientation::Vertical => Edge {
                x: self.x + by,
                ..self
            },
            Orientation::Horizontal => Edge {
                y: self.y + by,
                ..self
            },
        }
    }
}

/// Filters one edge. Of an edge `inside` a macroblock, `step` changes only the middle four pixels of each line.
#[inline(always)]
fn filter_edge(picture: &mut Picture, edge: Edge, step: LineStep, inside: bool)
    requires within { IsEdgeWithin edge picture.old }
    requires ends { KeepsEnds (unwritten inside edge.orientation) step }
    ensures { picture.new ≡ on_planes edge.planes (λ n lane. edge_lines edge.orientation step n edge.x edge.y)
        picture.old }
{
    match step.apply_to_lines(load_lines(picture, edge)) {
        None => {}
        Some(lines) => store_lines(picture, edge, lines, inside),
    }
}

/// Filters the left or the top edge of a macroblock, unless the plane begins there. `edge` begins at the macroblock's
/// first pixel; the lines that cross it begin four pixels before.
#[inline(always)]
fn filter_macroblock_edge<const LUMA: bool, const VERTICAL: bool>(
    picture: &mut Picture,
    edge: Edge,
    step: LineStep,
)
    requires { IsBlockWithin edge.planes edge.x edge.y picture.old }
    ensures { picture.new ≡ on_planes edge.planes (λ n lane. macroblock_edge edge.orientation step n edge.x edge.y)
        picture.old }
{
    match edge.orientation {
        Orientation::Vertical if edge.x > 0 => {
            let x = edge.x - 4;
            filter_edge(picture, Edge { x, ..edge }, step, false);
        }
        Orientation::Horizontal if edge.y > 0 => {
            let y = edge.y - 4;
            filter_edge(picture, Edge { y, ..edge }, step, false);
        }
        _ => {}
    }
}

/// Filters the subblock edges of a macroblock in one direction: those inside it, every four pixels. `edge` begins at
/// the macroblock's first pixel.
#[inline(always)]
fn filter_subblock_edges(picture: &mut Picture, edge: Edge, step: LineStep)
    requires within { IsBlockWithin edge.planes edge.x edge.y picture.old }
    requires ends { KeepsEnds 2 step }
    ensures { picture.new ≡ on_planes edge.planes (λ n lane. subblock_edges edge.orientation step n edge.x edge.y)
        picture.old }
{
    let _known = picture.dim();
    for i in 0..edge.planes.edges_inside() {
        filter_edge(picture, edge.after(4 * i), step, true);
    }
}

/// Filters all edges of a macroblock in one direction: its left or top edge, then those inside. `edge` begins at the
/// macroblock's first pixel.
#[inline(always)]
fn filter_parallel_edges<const LUMA: bool, const VERTICAL: bool>(
    picture: &mut Picture,
    edge: Edge,
    limits: EdgeLimits,
)
    requires { IsBlockWithin edge.planes edge.x edge.y picture.old }
    ensures { picture.new ≡ on_planes edge.planes (λ n lane. block_edges edge.orientation n limits edge.x edge.y)
        picture.old }
{
    filter_macroblock_edge::<LUMA, VERTICAL>(picture, edge, limits.macroblock_step());
    match limits.subblock {
        None => {}
        Some(limit) => filter_subblock_edges(picture, edge, limits.subblock_step(limit)),
    }
}

/// Filters the edges of a macroblock in luma, or in both chroma planes: all vertical ones, then all horizontal ones.
/// Its first pixel is at column `x` of row `y` of these planes.
#[inline(always)]
pub(crate) fn filter_planes<const LUMA: bool>(
    picture: &mut Picture,
    planes: Planes,
    x: usize,
    y: usize,
    limits: EdgeLimits,
)
    requires { IsBlockWithin planes x y picture.old }
    ensures { picture.new ≡ on_planes planes (λ n lane. block_filtered n (Some limits) x y) picture.old }
{
    let orientation = Orientation::Vertical;
    let edge = Edge {
        planes,
        orientation,
        x,
        y,
    };
    filter_parallel_edges::<LUMA, true>(picture, edge, limits);
    let orientation = Orientation::Horizontal;
    let edge = Edge {
        orientation,
        ..edge
    };
    filter_parallel_edges::<LUMA, false>(picture, edge, limits);
}
