//! Sums of the pixels of 8x8 squares, in lanes. They bound the costs of vectors from below (successive elimination, Li
//! and Salari 1995): the difference of two sums is at most the sum of differences.

ghost use Rattle.std.specs.Prelude.{◌≡◌, ℕ, ◌+◌, ◌-◌, ◌*◌, ◌<◌, ◌≤◌, length, slice_index, IfSome, None};
ghost use Rattle.std.specs.Int.{abs_diff, bit_at};
ghost use Rattle.vp_search.specs.Sums.{sum_below};
ghost use Rattle.vp_search.specs.Bounds.{capped, column_sum, row_sum, square_sum, block_sums, bound_of};
ghost use Rattle.vp_search.specs.Bounds.{AreSummed};
ghost use Rattle.vp_search.specs.Coarse.{AreCoarse};

use crate::coarse::{next_coarse, put_coarse};
use crate::kept::Kept;
use crate::summed::SquareSums;
use crate::window::WINDOW_WIDTH;
use std::simd::prelude::*;

/// The number of column sums of a row, and eight more.
const COLUMNS: usize = WINDOW_WIDTH + 8;

/// Loads eight bytes from index `at` on.
fn load_bytes(s: &[u8], at: usize) -> u16x8
    requires { at + 8 ≤ length s.now }
    ensures { (j : ℕ) → j < 8 → slice_index result j ≡ slice_index s.now (at + j) }
{
    u8x8::from_slice(&s[at..]).cast::<u16>()
}

/// Loads eight numbers from index `at` on.
fn load_sums(s: &[u16], at: usize) -> u16x8
    requires { at + 8 ≤ length s.now }
    ensures { (j : ℕ) → j < 8 → slice_index result j ≡ slice_index s.now (at + j) }
{
    u16x8::from_slice(&s[at..])
}

/// Stores eight numbers from index `at` on.
fn store_sums(s: &mut [u16], at: usize, lanes: u16x8)
    requires { at + 8 ≤ length s.old }
    ensures here { (j : ℕ) → j < 8 → slice_index s.new (at + j) ≡ slice_index lanes j }
    ensures before { (k : ℕ) → k < at → slice_index s.new k ≡ slice_index s.old k }
    ensures after { (k : ℕ) → at + 8 ≤ k → slice_index s.new k ≡ slice_index s.old k }
{
    lanes.copy_to_slice(&mut s[at..]);
}

/// The sum, lane by lane.
fn plus(a: u16x8, b: u16x8) -> u16x8
    ensures { (j : ℕ) → j < 8 → slice_index result j ≡ capped (slice_index a j + slice_index b j) }
{
    a.saturating_add(b)
}

/// The absolute difference, lane by lane.
fn apart(a: u16x8, b: u16x8) -> u16x8
    ensures { (j : ℕ) → j < 8 → slice_index result j ≡ abs_diff (slice_index a j) (slice_index b j) }
{
    a.abs_diff(b)
}

/// `a - b`, or 0 if that is negative, lane by lane.
fn less(a: u16x8, b: u16x8) -> u16x8
    ensures { (j : ℕ) → j < 8 → slice_index result j ≡ slice_index a j - slice_index b j }
{
    a.saturating_sub(b)
}

/// The sums of four pixels of each of eight columns.
fn four_pixels(pixels: &[u8], at: usize, step: usize) -> u16x8
    requires { at + 3 * step + 8 ≤ length pixels.now }
    ensures { (j : ℕ) → j < 8 → slice_index result j ≡ capped
        (sum_below 4 (λ r. slice_index pixels.now (at + j + r * step))) }
{
    let first = load_bytes(pixels, at);
    let second = load_bytes(pixels, at + step);
    let third = load_bytes(pixels, at + 2 * step);
    let fourth = load_bytes(pixels, at + 3 * step);
    plus(plus(first, second), plus(third, fourth))
}

/// The sums of eight pixels of each of eight columns. The first pixels are at index `at`, each later row `step`
/// further.
fn column_sums(pixels: &[u8], at: usize, step: usize) -> u16x8
    requires { at + 7 * step + 8 ≤ length pixels.now }
    ensures { (j : ℕ) → j < 8 → slice_index result j ≡ column_sum pixels.now (at + j) step }
{
    let upper = four_pixels(pixels, at, step);
    let lower = four_pixels(pixels, at + 4 * step, step);
    plus(upper, lower)
}

/// The sums of four neighbours at each of eight places.
fn four_columns(columns: &[u16], at: usize) -> u16x8
    requires { at + 11 ≤ length columns.now }
    ensures { (j : ℕ) → j < 8 → slice_index result j ≡ capped
        (sum_below 4 (λ c. slice_index columns.now (at + j + c))) }
{
    let first = load_sums(columns, at);
    let second = load_sums(columns, at + 1);
    let third = load_sums(columns, at + 2);
    let fourth = load_sums(columns, at + 3);
    plus(plus(first, second), plus(third, fourth))
}

/// The sums of eight neighbours at each of eight places.
fn row_sums(columns: &[u16], at: usize) -> u16x8
    requires { at + 15 ≤ length columns.now }
    ensures { (j : ℕ) → j < 8 → slice_index result j ≡ row_sum columns.now (at + j) }
{
    let left = four_columns(columns, at);
    let right = four_columns(columns, at + 4);
    plus(left, right)
}

/// Writes the sums of the columns of eight rows, eight at a time. The first row begins at index `at`, each later one
/// `step` further.
fn put_columns(columns: &mut [u16], pixels: &[u8], at: usize, step: usize, groups: usize)
    requires room { 8 * groups ≤ length columns.old }
    requires pixels { at + 7 * step + 8 * groups ≤ length pixels.now }
    ensures { (x : ℕ) → x < 8 * groups → slice_index columns.new x ≡ column_sum pixels.now (at + x) step }
{
    for g in 0..groups {
        store_sums(columns, 8 * g, column_sums(pixels, at + 8 * g, step));
    }
}

/// Replaces the sums of the columns of eight rows by those of the eight rows that begin one row further.
fn slide_columns(columns: &mut [u16], pixels: &[u8], at: usize, step: usize, groups: usize)
    requires room { 8 * groups ≤ length columns.old }
    requires pixels { at + 8 * step + 8 * groups ≤ length pixels.now }
    requires known { (x : ℕ) → x < 8 * groups → slice_index columns.old x ≡ column_sum pixels.now (at + x) step }
    ensures { (x : ℕ) → x < 8 * groups → slice_index columns.new x ≡ column_sum pixels.now (at + step + x) step }
{
    for g in 0..groups {
        let sums = load_sums(columns, 8 * g);
        let above = load_bytes(pixels, at + 8 * g);
        let below = load_bytes(pixels, at + 8 * step + 8 * g);
        store_sums(columns, 8 * g, less(plus(sums, below), above));
    }
}

/// Writes the sums of eight neighbours each, and their coarse sums if there are any, to index `at`, eight at a time.
fn put_squares(sums: &mut [u16], coarse: &mut [u8], at: usize, columns: &[u16], groups: usize)
    requires room { at + 8 * groups ≤ length sums.old }
    requires coarse_room { 0 < length coarse.old → at + 8 * groups ≤ length coarse.old }
    requires columns { 8 * groups + 8 ≤ length columns.now }
    ensures here { (x : ℕ) → x < 8 * groups → slice_index sums.new (at + x) ≡ row_sum columns.now x }
    ensures before { (k : ℕ) → k < at → slice_index sums.new k ≡ slice_index sums.old k }
    ensures after { (k : ℕ) → at + 8 * groups ≤ k → slice_index sums.new k ≡ slice_index sums.old k }
    ensures coarse { 0 < length coarse.old → (n : ℕ) → AreCoarse n sums.old coarse.old
        → AreCoarse n sums.new coarse.new }
{
    for g in 0..groups {
        let squares = row_sums(columns, 8 * g);
        store_sums(sums, at + 8 * g, squares);
        put_coarse(coarse, at + 8 * g, squares);
    }
}

/// Writes the sums of the squares of a window that a search compares, and their coarse sums if there are any, from
/// index `kept.start` on. Those of the first `kept.columns` columns are already there. Not inlined: a search takes
/// fewer instructions so.
#[inline(never)]
pub(crate) fn fill_sums(sums: &mut [u16], coarse: &mut [u8], window: &[u8], range: u8, kept: Kept)
    requires range { range ≤ 64 }
    requires room { kept.start + (2 * range + 16) * WINDOW_WIDTH ≤ length sums.old }
    requires coarse_room { 0 < length coarse.old
        → kept.start + (2 * range + 16) * WINDOW_WIDTH ≤ length coarse.old }
    requires window { (2 * range + 16) * WINDOW_WIDTH + 8 ≤ length window.now }
    requires columns { kept.columns ≤ 2 * range + 9 }
    requires known { AreSummed window.now sums.old range kept.start kept.columns }
    ensures sums { AreSummed window.now sums.new range kept.start (2 * range + 9) }
    ensures coarse { 0 < length coarse.old → (n : ℕ) → AreCoarse n sums.old coarse.old
        → AreCoarse n sums.new coarse.new }
{
    let first = kept.columns;
    let groups = (2 * usize::from(range) + 16 - first) / 8;
    let mut columns = [0; COLUMNS];
    put_columns(&mut columns, window, first, WINDOW_WIDTH, groups + 1);
    put_squares(sums, coarse, kept.start + first, &columns, groups);
    for y in 0..2 * usize::from(range) + 8 {
        let at = y * WINDOW_WIDTH + first;
        slide_columns(&mut columns, window, at, WINDOW_WIDTH, groups + 1);
        let below = at + WINDOW_WIDTH;
        put_squares(sums, coarse, kept.start + below, &columns, groups);
    }
}

/// The sum of the pixels of the square at index `at` of a block.
fn square_sum(block: &[u8], at: usize) -> u16
    requires { at + 7 * 16 + 8 ≤ length block.now }
    ensures { result ≡ square_sum block.now at 16 }
{
    let mut columns = [0; 16];
    store_sums(&mut columns, 0, column_sums(block, at, 16));
    let mut sums = [0; 8];
    store_sums(&mut sums, 0, row_sums(&columns, 0));
    sums[0]
}

/// The sums of the four squares of a block.
pub(crate) fn block_sums(block: &[u8]) -> [u16; 4]
    requires { 256 ≤ length block.now }
    ensures { result ≡ block_sums block.now }
{
    [
        square_sum(block, 0),
        square_sum(block, 8),
        square_sum(block, 8 * 16),
        square_sum(block, 8 * 16 + 8),
    ]
}

/// The differences of a sum and the eight from index `at` on.
fn gaps(sum: u16, sums: &[u16], at: usize) -> u16x8
    requires { at + 8 ≤ length sums.now }
    ensures { (j : ℕ) → j < 8 → slice_index result j ≡ abs_diff sum (slice_index sums.now (at + j)) }
{
    apart(u16x8::splat(sum), load_sums(sums, at))
}

/// The bounds of the eight vectors whose blocks begin at index `at` and after it.
pub(crate) fn bounds_at(block: [u16; 4], sums: &[u16], at: usize) -> u16x8
    requires { at + 8 * WINDOW_WIDTH + 16 ≤ length sums.now }
    ensures { (j : ℕ) → j < 8 → slice_index result j ≡ bound_of block sums.now (at + j) }
{
    let [first, second, third, fourth] = block;
    let below = at + 8 * WINDOW_WIDTH;
    plus(
        plus(gaps(first, sums, at), gaps(second, sums, at + 8)),
        plus(gaps(third, sums, below), gaps(fourth, sums, below + 8)),
    )
}

/// Which of eight bounds are within the limit: bit `j` is set for bound `j`.
pub(crate) fn within(bounds: u16x8, limit: u32) -> u64
    ensures eight { result < 256 }
    ensures others { (j : ℕ) → j < 8 → bit_at result j ≡ 0 → limit < slice_index bounds j }
    ensures none { result ≡ 0 → (j : ℕ) → j < 8 → limit < slice_index bounds j }
{
    let most = limit.min(65535) as u16;
    bounds.simd_le(u16x8::splat(most)).to_bitmask()
}

/// A group of eight vectors of a row: its number, and their bounds.
#[derive(Clone, Copy)]
pub(crate) struct Group {
    pub(crate) number: usize,
    pub(crate) bounds: u16x8,
}

/// The first group of eight vectors, from group `start` on, that has a bound within the limit. The blocks of group 0
/// begin at index `at` and after it. Always inlined: a call would prepare the block's sums anew for each group
/// that passes.
#[inline(always)]
pub(crate) fn next_within(
    sums: SquareSums,
    at: usize,
    start: usize,
    groups: usize,
    limit: u32,
) -> Option<Group>
    requires room { at + 8 * groups + 8 * WINDOW_WIDTH + 16 ≤ length sums.places.now }
    requires start { start ≤ groups }
    ensures place { IfSome result (λ next. (start ≤ next.number) × (next.number < groups)) }
    ensures skipped { IfSome result (λ next. (g t : ℕ) → start ≤ g → g < next.number → t < 8
        → limit < bound_of sums.entry.block sums.entry.places.now (at + 8 * g + t)) }
    ensures bounds { IfSome result (λ next. (t : ℕ) → t < 8 → slice_index next.bounds t
        ≡ bound_of sums.entry.block sums.entry.places.now (at + 8 * next.number + t)) }
    ensures none { result ≡ None → (g t : ℕ) → start ≤ g → g < groups → t < 8
        → limit < bound_of sums.entry.block sums.entry.places.now (at + 8 * g + t) }
{
    let mut g = start;
    while g < groups {
        if !sums.coarse.is_empty() {
            g = next_coarse(sums, at, g, groups, limit);
        }
        if g < groups {
            let bounds = bounds_at(sums.block, sums.places, at + 8 * g);
            if within(bounds, limit) != 0 {
                return Some(Group { number: g, bounds });
            }
            g += 1;
        }
    }
    None
}
