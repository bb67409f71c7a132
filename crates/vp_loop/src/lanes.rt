//! The line step on sixteen lines at once, in the lanes of vectors. Each line has its own filter mask and high edge
//! variance. Values from -128 to 127 are bytes with bias 128, so sums that saturate clamp as the standard does. The
//! last argument of `raised`, `lowered` and `where_low` is the bias of smaller numbers.

ghost use Rattle.std.specs.Prelude.{◌≡◌, ℕ, ◌<◌, ◌≤◌, ◌+◌, ◌-ℤ◌, pos, slice_index, cond, ◌&&◌, nat_le, nat_lt};
ghost use Rattle.std.specs.Prelude.{Bool, true};
ghost use Rattle.vp_lanes.specs.Lane.{biased};
ghost use Rattle.vp_loop.specs.LineSteps.{stepped, common_adjusted, subblock_edge_filtered, macroblock_edge_filtered};
ghost use Rattle.vp_loop.specs.LineSteps.{clamp8, filter_value, is_small_step, is_smooth, is_high};
ghost use Rattle.vp_loop.specs.Lanes.{line_of, lines_or, AreBytes};

use crate::lines::{EdgeKind, LineStep};
use std::simd::prelude::*;
use vp_lanes::{
    abs_diff16, difference, eighth, either, filter_value, half, lane_abs_diff, lane_max, lowered,
    masked, raised, saturating_difference, weighted_filter_value, where_high, where_low,
};

/// Sixteen lines, with one vector for each of their eight pixels: lane j of it is that pixel of line j.
#[derive(Clone, Copy)]
pub(crate) struct Lines {
    pub(crate) p3: u8x16,
    pub(crate) p2: u8x16,
    pub(crate) p1: u8x16,
    pub(crate) p0: u8x16,
    pub(crate) q0: u8x16,
    pub(crate) q1: u8x16,
    pub(crate) q2: u8x16,
    pub(crate) q3: u8x16,
}

/// The greatest absolute difference of adjacent pixels on one side of the edge; a line is smooth if it is within the
/// interior limit.
#[tactic(auto, using(crate::proofs::LaneLines::smooth_is))]
#[inline(always)]
fn most_apart(l: Lines) -> u8x16
    ensures { (j interior : ℕ) → j < 16
        → nat_le (slice_index result j) interior ≡ is_smooth interior (line_of l j) }
{
    let p = lane_max(
        lane_max(abs_diff16(l.p3, l.p2), abs_diff16(l.p2, l.p1)),
        abs_diff16(l.p1, l.p0),
    );
    let q = lane_max(
        lane_max(abs_diff16(l.q1, l.q0), abs_diff16(l.q2, l.q1)),
        abs_diff16(l.q3, l.q2),
    );
    lane_max(p, q)
}

/// The greater of `|p1 - p0|` and `|q1 - q0|`: above the threshold, a line has high edge variance.
#[tactic(auto, using(crate::proofs::LaneLines::lt_max))]
#[inline(always)]
fn edge_variance(l: Lines) -> u8x16
    ensures { (j threshold : ℕ) → j < 16 → nat_lt threshold (slice_index result j) ≡ is_high threshold (line_of l j) }
{
    lane_max(abs_diff16(l.p1, l.p0), abs_diff16(l.q1, l.q0))
}

/// Whether all lanes are 0.
#[inline(always)]
fn is_zero(v: u8x16) -> bool
    ensures { result ≡ true → (j : ℕ) → j < 16 → slice_index v j ≡ 0 }
{
    v.simd_eq(u8x16::splat(0)).all()
}

/// Whether each lane of `w`, which has bias 128, is from `-reach` to `reach`.
#[inline(always)]
fn is_near_zero(w: u8x16, reach: u8) -> bool
    requires { reach ≤ 3 }
    ensures { result ≡ true → (j : ℕ) → j < 16 → (128 ≤ slice_index w j + reach) × (slice_index w j ≤ 128 + reach) }
{
    let above = saturating_difference(w, u8x16::splat(128 + reach));
    let below = saturating_difference(u8x16::splat(128 - reach), w);
    is_zero(lane_max(above, below))
}

/// The filter value of each line, with bias 128, or 0 where the filter mask excludes the line. `taps` is what `p1` and
/// `q1` contribute, with bias 128: their difference if the filter uses it, else 0. `most` is compared with the interior
/// limit.
#[inline(always)]
fn masked_filter_value(l: Lines, taps: u8x16, limit: u8, most: u8x16, interior: u8) -> u8x16
    ensures value { (j : ℕ) (outer : Bool) → j < 16
        → biased 128 taps j ≡ cond outer (clamp8 (pos (slice_index l.p1 j) -ℤ pos (slice_index l.q1 j))) (pos 0)
        → biased 128 result j ≡ cond (is_small_step limit (line_of l j) && nat_le (slice_index most j) interior)
        (filter_value outer (line_of l j)) (pos 0) }
    ensures bytes { (j : ℕ) → j < 16 → AreBytes (line_of l j) }
{
    let p0_q0 = lane_abs_diff(l.p0, l.q0);
    let p1_q1 = lane_abs_diff(l.p1, l.q1);
    let w = filter_value(taps, l.p0, l.q0);
    masked(w, p0_q0, p1_q1, limit, most, interior)
}

/// The normal filter of subblock edges, or `None` if it changes no line: a filter value of -3 to 3 changes no pixel.
#[inline(always)]
fn subblock_filter(l: Lines, limit: u8, interior: u8, threshold: u8) -> Option<Lines>
    ensures { (j : ℕ) → j < 16 → line_of (lines_or l result) j ≡ cond (is_small_step limit (line_of l j)
        && is_smooth interior (line_of l j)) (subblock_edge_filtered (is_high threshold (line_of l j)) (line_of l j))
        (line_of l j) }
{
    // In this order: the other one costs the compiled filter 0.6 %.
    let most = most_apart(l);
    let variance = edge_variance(l);
    let taps = where_high(difference(l.p1, l.q1), variance, threshold, 128);
    let w = masked_filter_value(l, taps, limit, most, interior);
    if is_near_zero(w, 3) {
        return None;
    }
    let f1 = eighth(w, 4);
    let f2 = eighth(w, 3);
    let a = where_low(half(f1), variance, threshold, 8);
    Some(Lines {
        p1: raised(l.p1, a, 8),
        p0: raised(l.p0, f2, 16),
        q0: lowered(l.q0, f1, 16),
        q1: lowered(l.q1, a, 8),
        ..l
    })
}

/// The normal filter of macroblock edges, or `None` if it changes no line: a filter value of -2 to 2 changes no pixel.
#[inline(always)]
fn macroblock_filter(l: Lines, limit: u8, interior: u8, threshold: u8) -> Option<Lines>
    ensures { (j : ℕ) → j < 16 → line_of (lines_or l result) j ≡ cond (is_small_step limit (line_of l j)
        && is_smooth interior (line_of l j)) (macroblock_edge_filtered (is_high threshold (line_of l j)) (line_of l j))
        (line_of l j) }
{
    // In this order: the other one costs the compiled filter 0.6 %.
    let most = most_apart(l);
    let variance = edge_variance(l);
    let taps = difference(l.p1, l.q1);
    let w = masked_filter_value(l, taps, limit, most, interior);
    if is_near_zero(w, 2) {
        return None;
    }
    let f1 = eighth(w, 4);
    let f2 = eighth(w, 3);
    let t0 = weighted_filter_value(w, 27);
    let t1 = weighted_filter_value(w, 18);
    let t2 = weighted_filter_value(w, 9);
    let u0 = either(f2, t0, variance, threshold);
    let v0 = either(f1, t0, variance, threshold);
    let a1 = where_low(t1, variance, threshold, 18);
    let a2 = where_low(t2, variance, threshold, 9);
    Some(Lines {
        p2: raised(l.p2, a2, 9),
        p1: raised(l.p1, a1, 18),
        p0: raised(l.p0, u0, 27),
        q0: lowered(l.q0, v0, 27),
        q1: lowered(l.q1, a1, 18),
        q2: lowered(l.q2, a2, 9),
        ..l
    })
}

/// The simple filter, or `None` if it changes no line: a filter value of -3 to 3 changes no pixel.
#[inline(always)]
fn simple_filter(l: Lines, limit: u8) -> Option<Lines>
    ensures { (j : ℕ) → j < 16 → line_of (lines_or l result) j ≡ cond (is_small_step limit (line_of l j))
        (common_adjusted true (line_of l j)) (line_of l j) }
{
    let taps = difference(l.p1, l.q1);
    // No byte is above 255, so this interior limit never excludes a line.
    let w = masked_filter_value(l, taps, limit, l.p0, 255);
    if is_near_zero(w, 3) {
        return None;
    }
    let f1 = eighth(w, 4);
    let f2 = eighth(w, 3);
    Some(Lines {
        p0: raised(l.p0, f2, 16),
        q0: lowered(l.q0, f1, 16),
        ..l
    })
}

impl LineStep {
    /// Filters sixteen lines. `None` says that each stays as it is.
    #[tactic(auto, unfolding(crate::specs::LineSteps::stepped))]
    #[inline(always)]
    pub(crate) fn apply_to_lines(self, lines: Lines) -> Option<Lines>
        ensures { (j : ℕ) → j < 16 → line_of (lines_or lines result) j ≡ stepped self (line_of lines j) }
    {
        match self.kind {
            EdgeKind::Simple => simple_filter(lines, self.limit),
            EdgeKind::Subblock => subblock_filter(lines, self.limit, self.interior, self.hev),
            EdgeKind::Macroblock => macroblock_filter(lines, self.limit, self.interior, self.hev),
        }
    }
}
