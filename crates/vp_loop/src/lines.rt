//! The eight pixels of one line across an edge, and the line step: how it is filtered. The functions are the scalar
//! form, which only tests call; the decoder takes the types, and filters sixteen lines at once (`lanes.rt`).

ghost use Rattle.std.specs.Prelude.{◌≡◌, ℤ, ◌+◌, ◌*◌, ◌/◌, ◌≤◌, ◌≤ℤ◌, ◌+ℤ◌, ◌-ℤ◌, ◌*ℤ◌, pos, negsuc, cond};
ghost use Rattle.std.specs.Prelude.{◌&&◌, ◌||◌, Bool, true};
ghost use Rattle.std.specs.Int.{abs_diff};
ghost use lib.Signed.{shr_z as floor_div};
ghost use Rattle.vp_loop.specs.LineSteps.{clamp8, signed, pixel_from, filter_value, eighth, common_adjusted};
ghost use Rattle.vp_loop.specs.LineSteps.{outer_tap_adjustment, subblock_edge_filtered, weighted_filter_value};
ghost use Rattle.vp_loop.specs.LineSteps.{macroblock_edge_filtered, is_small_step, is_smooth, is_high, stepped};

/// Eight pixels across an edge: `p3` to `p0` before it, `q0` to `q3` after it.
#[derive(Clone, Copy, Debug, PartialEq, Eq)]
pub struct Line {
    /// The pixel furthest before the edge.
    pub p3: u8,
    /// The third pixel before the edge.
    pub p2: u8,
    /// The second pixel before the edge.
    pub p1: u8,
    /// The pixel just before the edge.
    pub p0: u8,
    /// The pixel just after the edge.
    pub q0: u8,
    /// The second pixel after the edge.
    pub q1: u8,
    /// The third pixel after the edge.
    pub q2: u8,
    /// The pixel furthest after the edge.
    pub q3: u8,
}

/// The kind of filter of an edge (RFC 6386, chapters 15.2 and 15.3).
#[derive(Clone, Copy, Debug, PartialEq, Eq)]
pub enum EdgeKind {
    /// The simple filter, for both kinds of edges.
    Simple,
    /// The normal filter of an edge between subblocks.
    Subblock,
    /// The normal filter of an edge between macroblocks.
    Macroblock,
}

/// The parameters of the filter of an edge.
#[derive(Clone, Copy, Debug, PartialEq, Eq)]
pub struct LineStep {
    /// The kind of filter.
    pub kind: EdgeKind,
    /// The edge limit: of `2 |p0 - q0| + |p1 - q1| / 2`.
    pub limit: u8,
    /// The interior limit: of differences of adjacent pixels on either side. Unused by the simple filter.
    pub interior: u8,
    /// The threshold of high edge variance. Unused by the simple filter.
    pub hev: u8,
}

/// Clamps to -128 to 127 (`c` in the standard).
fn clamped(x: i32) -> i32
    ensures value { result ≡ clamp8 x }
    ensures range { (negsuc 127 ≤ℤ result) × (result ≤ℤ pos 127) }
{
    x.clamp(-128, 127)
}

/// A pixel minus 128.
fn signed(x: u8) -> i32
    ensures value { result ≡ signed x }
    ensures range { (negsuc 127 ≤ℤ result) × (result ≤ℤ pos 127) }
{
    i32::from(x) - 128
}

/// Clamps to -128 to 127, and adds 128.
fn pixel_from(x: i32) -> u8
    requires { (negsuc 9999 ≤ℤ x) × (x ≤ℤ pos 9999) }
    ensures { result ≡ pixel_from x }
{
    (clamped(x) + 128) as u8
}

/// `x + by` clamped to -128 to 127, then divided by 8, rounded down.
fn eighth(x: i32, by: i32) -> i32
    requires { (negsuc 127 ≤ℤ x) × (x ≤ℤ pos 127) × (pos 0 ≤ℤ by) × (by ≤ℤ pos 4) }
    ensures value { result ≡ eighth x by }
    ensures range { (negsuc 127 ≤ℤ result) × (result ≤ℤ pos 127) }
{
    clamped(x + by) >> 3
}

/// Half of `x`, rounded up.
fn half(x: i32) -> i32
    requires { (negsuc 127 ≤ℤ x) × (x ≤ℤ pos 127) }
    ensures value { result ≡ floor_div (x +ℤ pos 1) 2 }
    ensures range { (negsuc 127 ≤ℤ result) × (result ≤ℤ pos 127) }
{
    (x + 1) >> 1
}

/// The difference of two pixels, `p - q`.
fn difference(p: u8, q: u8) -> i32
    ensures value { result ≡ signed p -ℤ signed q }
    ensures range { (negsuc 254 ≤ℤ result) × (result ≤ℤ pos 255) }
{
    signed(p) - signed(q)
}

/// `p1 - q1` clamped to -128 to 127 if the outer taps are used, else 0.
fn outer_tap_difference(outer: bool, line: Line) -> i32
    ensures value { result ≡ cond outer (clamp8 (signed line.p1 -ℤ signed line.q1)) (pos 0) }
    ensures range { (negsuc 127 ≤ℤ result) × (result ≤ℤ pos 127) }
{
    if outer {
        clamped(difference(line.p1, line.q1))
    } else {
        0
    }
}

/// The filter value: `3 * (q0 - p0)`, with or without the outer taps, clamped to -128 to 127.
#[tactic(auto, using(crate::proofs::FilterValueLemmas::pull_same, crate::proofs::Shift::same_is))]
fn filter_value(outer: bool, line: Line) -> i32
    ensures value { result ≡ filter_value outer line }
    ensures range { (negsuc 127 ≤ℤ result) × (result ≤ℤ pos 127) }
{
    let apart = outer_tap_difference(outer, line);
    let step = difference(line.q0, line.p0);
    clamped(apart + 3 * step)
}

/// `weight / 128` of the filter value, rounded to the nearest and clamped to -128 to 127.
#[tactic(auto, using(crate::proofs::FilterValueLemmas::shared, crate::proofs::Shift::same_is))]
fn weighted_filter_value(weight: i32, w: i32) -> i32
    requires weight { (pos 0 ≤ℤ weight) × (weight ≤ℤ pos 27) }
    requires w { (negsuc 127 ≤ℤ w) × (w ≤ℤ pos 127) }
    ensures value { result ≡ clamp8 (floor_div (w *ℤ weight +ℤ pos 63) 128) }
    ensures range { (negsuc 127 ≤ℤ result) × (result ≤ℤ pos 127) }
{
    clamped((w * weight + 63) >> 7)
}

/// A pixel plus `by`, clamped to 0 to 255.
#[tactic(auto, using(crate::proofs::Shift::sum_same))]
fn raised(pixel: u8, by: i32) -> u8
    requires { (negsuc 127 ≤ℤ by) × (by ≤ℤ pos 127) }
    ensures { result ≡ pixel_from (signed pixel +ℤ by) }
{
    pixel_from(signed(pixel) + by)
}

/// A pixel minus `by`, clamped to 0 to 255.
#[tactic(auto, using(crate::proofs::Shift::difference_same))]
fn lowered(pixel: u8, by: i32) -> u8
    requires { (negsuc 127 ≤ℤ by) × (by ≤ℤ pos 127) }
    ensures { result ≡ pixel_from (signed pixel -ℤ by) }
{
    pixel_from(signed(pixel) - by)
}

/// Adjusts `p0` and `q0` by the filter value `by`.
fn common_adjust_by(by: i32, line: Line) -> Line
    requires { (negsuc 127 ≤ℤ by) × (by ≤ℤ pos 127) }
    ensures { (outer : Bool) → by ≡ filter_value outer line → result ≡ common_adjusted outer line }
{
    let up = eighth(by, 3);
    let down = eighth(by, 4);
    Line {
        p0: raised(line.p0, up),
        q0: lowered(line.q0, down),
        ..line
    }
}

/// Adjusts `p0` and `q0` by an eighth of the filter value.
fn common_adjust(outer: bool, line: Line) -> Line
    ensures { result ≡ common_adjusted outer line }
{
    common_adjust_by(filter_value(outer, line), line)
}

/// The adjustment of `p1` and `q1` for the filter value `by`.
fn outer_tap_adjustment(high: bool, by: i32) -> i32
    requires { (negsuc 127 ≤ℤ by) × (by ≤ℤ pos 127) }
    ensures value { (line : Line) → by ≡ filter_value high line → result ≡ outer_tap_adjustment high line }
    ensures range { (negsuc 127 ≤ℤ result) × (result ≤ℤ pos 127) }
{
    if high { 0 } else { half(eighth(by, 4)) }
}

/// The normal filter of a subblock edge.
fn subblock_edge_filtered(high: bool, line: Line) -> Line
    ensures { result ≡ subblock_edge_filtered high line }
{
    let w = filter_value(high, line);
    let half = outer_tap_adjustment(high, w);
    Line {
        p1: raised(line.p1, half),
        q1: lowered(line.q1, half),
        ..common_adjust_by(w, line)
    }
}

/// The normal filter of a macroblock edge.
fn macroblock_edge_filtered(high: bool, line: Line) -> Line
    ensures { result ≡ macroblock_edge_filtered high line }
{
    if high {
        return common_adjust(true, line);
    }
    let w = filter_value(true, line);
    let near = weighted_filter_value(27, w);
    let middle = weighted_filter_value(18, w);
    let far = weighted_filter_value(9, w);
    Line {
        p2: raised(line.p2, far),
        p1: raised(line.p1, middle),
        p0: raised(line.p0, near),
        q0: lowered(line.q0, near),
        q1: lowered(line.q1, middle),
        q2: lowered(line.q2, far),
        ..line
    }
}

/// Whether the differences at the edge are within the edge limit.
fn is_small_step(limit: u8, line: Line) -> bool
    ensures { result ≡ is_small_step limit line }
{
    u16::from(line.p0.abs_diff(line.q0)) * 2 + u16::from(line.p1.abs_diff(line.q1)) / 2
        <= u16::from(limit)
}

/// Whether the differences of adjacent pixels on either side are within the interior limit.
fn is_smooth(interior: u8, line: Line) -> bool
    ensures { result ≡ is_smooth interior line }
{
    line.p3.abs_diff(line.p2) <= interior
        && line.p2.abs_diff(line.p1) <= interior
        && line.p1.abs_diff(line.p0) <= interior
        && line.q1.abs_diff(line.q0) <= interior
        && line.q2.abs_diff(line.q1) <= interior
        && line.q3.abs_diff(line.q2) <= interior
}

/// Whether there is high edge variance.
fn is_high(threshold: u8, line: Line) -> bool
    ensures { result ≡ is_high threshold line }
{
    line.p1.abs_diff(line.p0) > threshold || line.q1.abs_diff(line.q0) > threshold
}

impl LineStep {
    /// Filters one line. A line that the filter mask excludes is unchanged.
    #[tactic(auto, unfolding(crate::specs::LineSteps::stepped))]
    pub fn apply(self, line: Line) -> Line
        ensures { result ≡ stepped self line }
    {
        let small = is_small_step(self.limit, line);
        let smooth = small && is_smooth(self.interior, line);
        let high = is_high(self.hev, line);
        match self.kind {
            EdgeKind::Simple if small => common_adjust(true, line),
            EdgeKind::Subblock if smooth => subblock_edge_filtered(high, line),
            EdgeKind::Macroblock if smooth => macroblock_edge_filtered(high, line),
            _ => line,
        }
    }
}
