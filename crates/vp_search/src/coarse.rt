//! Coarse sums of 8x8 squares: 64ths of the sums, so that sixteen fit into a vector. The bound by coarse sums excludes
//! most vectors at half the cost of the bound by the sums; where it doesn't, that one decides. Short rows have none.

ghost use Rattle.std.specs.Prelude.{◌≡◌, ℕ, ◌+◌, ◌*◌, ◌<◌, ◌≤◌, length, min, slice_index, false};
ghost use Rattle.std.specs.Int.{abs_diff};
ghost use Rattle.vp_search.specs.Bounds.{bound_of};
ghost use Rattle.vp_search.specs.Coarse.{coarse_of, coarse_bound_of, AreCoarse};

use crate::summed::SquareSums;
use crate::window::WINDOW_WIDTH;
use std::simd::prelude::*;
use vp_lanes::{abs_diff16, load16, store8};

/// The least range for which coarse sums are made. Within a smaller one a row has fewer than eight groups of eight
/// vectors, and coarse bounds don't pay.
pub(crate) const LEAST_COARSE_RANGE: u8 = 28;

/// 64ths of eight sums.
fn coarse_lanes(sums: u16x8) -> u8x8
    ensures eight { length result ≡ 8 }
    ensures value { (j : ℕ) → j < 8 → slice_index result j ≡ coarse_of (slice_index sums j) }
{
    (sums >> 6).simd_min(u16x8::splat(255)).cast::<u8>()
}

/// Stores the coarse sums of eight sums from index `at` on, if any coarse sums are kept.
pub(crate) fn put_coarse(coarse: &mut [u8], at: usize, sums: u16x8)
    requires { 0 < length coarse.old → at + 8 ≤ length coarse.old }
    ensures here { 0 < length coarse.old → (j : ℕ) → j < 8
        → slice_index coarse.new (at + j) ≡ coarse_of (slice_index sums j) }
    ensures before { (k : ℕ) → k < at → slice_index coarse.new k ≡ slice_index coarse.old k }
    ensures after { (k : ℕ) → at + 8 ≤ k → slice_index coarse.new k ≡ slice_index coarse.old k }
{
    if !coarse.is_empty() {
        store8(coarse, at, coarse_lanes(sums));
    }
}

/// A 64th of a sum.
fn coarse(sum: u16) -> u8
    ensures { result ≡ coarse_of sum }
{
    (sum / 64).min(255) as u8
}

/// The coarse sums of the four squares of a block.
pub(crate) fn coarse_block(block: [u16; 4]) -> [u8; 4]
    ensures { AreCoarse 4 block result }
{
    let [first, second, third, fourth] = block;
    [coarse(first), coarse(second), coarse(third), coarse(fourth)]
}

/// The sum, at most 255, lane by lane.
fn plus(a: u8x16, b: u8x16) -> u8x16
    ensures { (j : ℕ) → j < 16 → slice_index result j ≡ min (slice_index a j + slice_index b j) 255 }
{
    a.saturating_add(b)
}

/// The differences of a coarse sum and the sixteen from index `at` on.
fn gaps(sum: u8, coarse: &[u8], at: usize) -> u8x16
    requires { at + 16 ≤ length coarse.now }
    ensures { (j : ℕ) → j < 16 → slice_index result j ≡ abs_diff sum (slice_index coarse.now (at + j)) }
{
    abs_diff16(u8x16::splat(sum), load16(coarse, at))
}

/// The coarse bounds of the sixteen vectors whose blocks begin at index `at` and after it.
fn coarse_bounds_at(block: [u8; 4], coarse: &[u8], at: usize) -> u8x16
    requires { at + 8 * WINDOW_WIDTH + 24 ≤ length coarse.now }
    ensures { (j : ℕ) → j < 16 → slice_index result j ≡ coarse_bound_of block coarse.now (at + j) }
{
    let [first, second, third, fourth] = block;
    let below = at + 8 * WINDOW_WIDTH;
    plus(
        plus(gaps(first, coarse, at), gaps(second, coarse, at + 8)),
        plus(gaps(third, coarse, below), gaps(fourth, coarse, below + 8)),
    )
}

/// Whether a bound may be within the limit, by its coarse bound: rounding adds at most 63 to each of four distances.
fn any_within(bounds: u8x16, limit: u32) -> bool
    ensures { result ≡ false → (j : ℕ) → j < 16 → limit + 252 < 64 * slice_index bounds j }
{
    let most = ((limit.min(65535) + 252) / 64).min(255) as u8;
    bounds.simd_le(u8x16::splat(most)).to_bitmask() != 0
}

/// The first group of eight vectors, from group `start` on in steps of two, where it or the next one may have a bound
/// within the limit. Returns `groups` if there is none. The blocks of group 0 begin at index `at` and after it.
pub(crate) fn next_coarse(
    sums: SquareSums,
    at: usize,
    start: usize,
    groups: usize,
    limit: u32,
) -> usize
    requires room { at + 8 * groups + 8 * WINDOW_WIDTH + 16 ≤ length sums.coarse.now }
    requires start { start ≤ groups }
    ensures later { start ≤ result }
    ensures bound { result ≤ groups }
    ensures skipped { (g t : ℕ) → start ≤ g → g < result → t < 8
        → limit < bound_of sums.entry.block sums.entry.places.now (at + 8 * g + t) }
{
    for pair in 0..(groups - start + 1) / 2 {
        let g = start + 2 * pair;
        let bounds = coarse_bounds_at(sums.coarse_block, sums.coarse, at + 8 * g);
        if any_within(bounds, limit) {
            return g;
        }
    }
    groups
}
