//! The window of the reference that is searched.

ghost use Rattle.std.specs.Prelude.{◌≡◌, ℕ, pos, ◌+◌, ◌*◌, ◌<◌, ◌≤◌, ◌+ℤ◌, length, slice_index, unsigned_abs};
ghost use Rattle.vp_inter.specs.Inter.{nearest};
ghost use Rattle.vp_search.specs.Window.{searched_pixel};

use vp_base::{Place, Plane};
use vp_inter::nearest;

/// The greatest search range, in whole pixels.
pub(crate) const GREATEST_RANGE: usize = 64;

/// The number of pixels in each row of a window: a block, and the greatest range on each side. A search of a smaller
/// range uses only the first pixels of each row.
pub(crate) const WINDOW_WIDTH: usize = 16 + 2 * GREATEST_RANGE;

/// Fills the window with the pixels of the reference around the macroblock at `place`, `range` of them on each side.
pub(crate) fn cut_window(window: &mut [u8], reference: &Plane, place: Place, range: u8)
    requires range { range ≤ 64 }
    requires room { (2 * range + 16) * WINDOW_WIDTH ≤ length window.old }
    requires columns { 16 * place.column ≤ 16384 }
    requires rows { 16 * place.row ≤ 16384 }
    requires wide { 0 < reference.now.width }
    requires high { 0 < reference.now.height }
    ensures { (i j : ℕ) → i < 2 * range + 16 → j < 2 * range + 16
        → slice_index window.new (i * WINDOW_WIDTH + j) ≡ searched_pixel reference.now place range i j }
{
    let side = 2 * usize::from(range) + 16;
    let left = (16 * place.column) as i32 - i32::from(range);
    let top = (16 * place.row) as i32 - i32::from(range);
    for i in 0..side {
        let line = reference.row(nearest(top + i as i32, reference.height()));
        cut_row(window, i * WINDOW_WIDTH, side, line, left);
    }
}

/// Writes `side` pixels of `line` from column `left` on, extended by its border pixels, to index `at` of the window.
fn cut_row(window: &mut [u8], at: usize, side: usize, line: &[u8], left: i32)
    requires room { at + side ≤ length window.old }
    requires side { side ≤ WINDOW_WIDTH }
    requires some { 0 < length line.now }
    requires near { unsigned_abs left ≤ 16384 }
    ensures here { (c : ℕ) → c < side → slice_index window.new (at + c)
        ≡ slice_index line.now (nearest (length line.now) (left +ℤ pos c)) }
    ensures before { (k : ℕ) → k < at → slice_index window.new k ≡ slice_index window.old k }
{
    let outside = (left.min(0).unsigned_abs() as usize).min(side);
    let start = (left.max(0) as usize).min(line.len());
    let inside = (line.len() - start).min(side - outside);
    put_same(window, at, outside, line[0]);
    put_part(window, at + outside, &line[start..start + inside]);
    let last = line[line.len() - 1];
    put_same(window, at + outside + inside, side - outside - inside, last);
}

/// Writes a pixel `count` times, from index `at` of the window on.
fn put_same(window: &mut [u8], at: usize, count: usize, pixel: u8)
    requires { at + count ≤ length window.old }
    ensures here { (c : ℕ) → c < count → slice_index window.new (at + c) ≡ pixel }
    ensures before { (k : ℕ) → k < at → slice_index window.new k ≡ slice_index window.old k }
{
    for c in 0..count {
        window[at + c] = pixel;
    }
}

/// Writes pixels from index `at` of a window or block on.
pub(crate) fn put_part(window: &mut [u8], at: usize, part: &[u8])
    requires { at + length part.now ≤ length window.old }
    ensures here { (c : ℕ) → c < length part.now → slice_index window.new (at + c) ≡ slice_index part.now c }
    ensures before { (k : ℕ) → k < at → slice_index window.new k ≡ slice_index window.old k }
{
    window[at..at + part.len()].copy_from_slice(part);
}
