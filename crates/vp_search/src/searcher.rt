//! Searches of the macroblocks of a frame.

ghost use Rattle.std.specs.Prelude.{◌≡◌, ℕ, pos, ◌+◌, ◌*◌, ◌<◌, ◌≤◌, ◌-ℤ◌, ◌*ℤ◌, unsigned_abs, IfSome, IsSome, None};
ghost use Rattle.vp_search.specs.declared.vector.WholeVector.{WholeVector};
ghost use Rattle.vp_search.specs.Vectors.{quarters, IsNear};
ghost use Rattle.vp_search.specs.Differences.{block16};
ghost use Rattle.vp_search.specs.Blocks.{whole_cost, quarter_cost};
ghost use Rattle.vp_search.specs.Least.{IsLeast};
ghost use Rattle.vp_search.specs.Refined.{IsRefined};
ghost use Rattle.vp_search.specs.Chosen.{IsChosen};

use crate::difference::sad_up_to;
use crate::kept_sums::KeptSums;
use crate::refinement::refine_found;
use crate::rows::Block;
use crate::search_window::SearchWindow;
use crate::unbounded::Unbounded;
use crate::vector::{Found, Refined, WholeVector};
use crate::window::{GREATEST_RANGE, WINDOW_WIDTH, cut_window};
use std::alloc::Global;
use std::marker::Model;
use vp_base::{Place, Plane};

/// The least range for which a searcher makes the bounds of vectors: below it they cost more than they save.
const LEAST_BOUNDED_RANGE: u8 = 8;

/// Searches macroblocks of one reference plane, one after another. The plane is a luma plane of whole macroblocks,
/// extended by its border pixels (RFC 6386, chapter 5).
#[derive(Drop)]
pub struct Searcher<'a> {
    reference: &'a Plane,
    range: u8,
    /// The sums that its searches keep; none if they are independent.
    sums: Option<KeptSums>,
}

impl<'a> Model for Searcher<'a> {
    ghost use Rattle.std.specs.Prelude.{◌≡◌, ◌<◌, ◌≤◌, IfSome};
    ghost use Rattle.vp_search.specs.Searcher.{Searcher};
    ghost use Rattle.vp_search.specs.Kept.{IsReady};

    ghost Value = { Searcher };

    ghost view = { λ s. record { reference = s.reference.now; range = s.range } };

    ghost invariant = { λ s. (s.range ≤ 64) × (0 < s.reference.now.width) × (0 < s.reference.now.height)
        × IfSome s.sums (IsReady s.reference.now s.range) };
}

impl<'a> Searcher<'a> {
    /// Starts searches of all vectors of whole pixels whose row and column are from `-range` to `range`, at most 64.
    /// Asks for the memory of its sums, up to three times; not below the least range for which bounds pay. If it is
    /// refused, searches take longer and find the same.
    pub fn new(alloc: Global, reference: &'a Plane, range: u8) -> Searcher<'a>
        requires wide { 0 < reference.now.width }
        requires high { 0 < reference.now.height }
        requires range { range ≤ 64 }
        ensures reference { result.reference ≡ reference.now }
        ensures range { result.range ≡ range }
    {
        let sums = if range < LEAST_BOUNDED_RANGE {
            None
        } else {
            KeptSums::new(alloc, range).ok()
        };
        Searcher {
            reference,
            range,
            sums,
        }
    }

    /// Starts searches that use no memory and no sums: each is independent of those before it.
    pub fn without_sums(reference: &'a Plane, range: u8) -> Searcher<'a>
        requires wide { 0 < reference.now.width }
        requires high { 0 < reference.now.height }
        requires range { range ≤ 64 }
        ensures reference { result.reference ≡ reference.now }
        ensures range { result.range ≡ range }
    {
        Searcher {
            reference,
            range,
            sums: None,
        }
    }

    /// Searches for the vector with the least sum of absolute differences for the macroblock at `place` with luma
    /// `block` in raster order. Of equal costs the shortest vector is chosen (sum of both magnitudes), then the least
    /// row, then the least column. None only if none costs less than `limit`.
    pub fn search(&mut self, block: &[u8; 256], place: Place, limit: u32) -> Option<Found>
        requires columns { 16 * place.column ≤ 16384 }
        requires rows { 16 * place.row ≤ 16384 }
        ensures kept { self.new ≡ self.old }
        ensures below { IfSome result (λ f. f.cost < limit) }
        ensures cost { IfSome result (λ f. f.cost ≡ whole_cost (block16 block.now) self.old.reference place f.vector) }
        ensures least { IfSome result (λ f. IsLeast self.old.range (whole_cost
            (block16 block.now) self.old.reference place) f.vector) }
        ensures predicted { IfSome result (λ f. f.cost ≡ quarter_cost
            (block16 block.now) self.old.reference place (quarters f.vector)) }
        ensures none { result ≡ None → (v : WholeVector) → IsNear self.old.range v
            → limit ≤ quarter_cost (block16 block.now) self.old.reference place (quarters v) }
        ensures all { 65280 < limit → IsSome result }
    {
        // Nothing costs less than 0.
        if limit == 0 {
            return None;
        }
        if let Some(found) = still(block, self.reference, place) {
            return Some(found);
        }
        let (reference, range) = (self.reference, self.range);
        let area = (16 + 2 * usize::from(range)) * WINDOW_WIDTH;
        let found = if let Some(sums) = &mut self.sums {
            sums.best(&Block::of(block), reference, place, range, limit)
        } else if area <= LEAST_WINDOW {
            best_without_sums::<LEAST_WINDOW>(block, reference, place, range, limit)
        } else if area <= SMALL_WINDOW {
            best_without_sums::<SMALL_WINDOW>(block, reference, place, range, limit)
        } else {
            best_without_sums::<WHOLE_WINDOW>(block, reference, place, range, limit)
        };
        if found.cost < limit {
            Some(found)
        } else {
            None
        }
    }

    /// Refines a vector of whole pixels, as `search` finds it, to quarter pixels, as `refine_found` does.
    pub fn refined(&self, block: &[u8; 256], place: Place, found: Found) -> Refined
        requires columns { 16 * place.column ≤ 16384 }
        requires rows { 16 * place.row ≤ 16384 }
        requires near { IsNear 16384 found.vector }
        requires cost { found.cost ≡ quarter_cost (block16 block.now) self.now.reference place (quarters found.vector) }
        ensures cost { result.cost ≡ quarter_cost (block16 block.now) self.now.reference place result.vector }
        ensures refined { IsRefined (quarter_cost (block16 block.now) self.now.reference place) found.vector
            result.vector }
        ensures row { unsigned_abs (result.vector.row -ℤ pos 4 *ℤ found.vector.row) ≤ 3 }
        ensures column { unsigned_abs (result.vector.column -ℤ pos 4 *ℤ found.vector.column) ≤ 3 }
    {
        refine_found(block, self.reference, place, found)
    }
}

/// Measures the zero vector alone, before any window is cut: Some if it leads to the very pixels of the block, as then
/// it costs nothing and no vector is shorter. In a picture that moves, most blocks differ within twelve rows.
fn still(block: &[u8; 256], reference: &Plane, place: Place) -> Option<Found>
    requires columns { 16 * place.column ≤ 16384 }
    requires rows { 16 * place.row ≤ 16384 }
    ensures free { IfSome result (λ f. f.cost ≡ 0) }
    ensures cost { IfSome result (λ f. f.cost ≡ whole_cost (block16 block.now) reference.now place f.vector) }
    ensures least { IfSome result (λ f. (range : ℕ) → IsLeast range (whole_cost
        (block16 block.now) reference.now place) f.vector) }
    ensures predicted { IfSome result (λ f. f.cost ≡ quarter_cost
        (block16 block.now) reference.now place (quarters f.vector)) }
{
    let [x, y] = [16 * place.column, 16 * place.row];
    let (width, height) = (reference.width(), reference.height());
    if x + 16 > width || y + 16 > height {
        return None;
    }
    let (pixels, at) = (reference.pixels(), y * width + x);
    let cost = sad_up_to(&Block::of(block), pixels, at, width, 0);
    if cost > 0 {
        return None;
    }
    Some(Found {
        vector: WholeVector { row: 0, column: 0 },
        cost,
    })
}

/// The number of pixels in the window of a search of range 16 or less, so that less memory has to be cleared.
const SMALL_WINDOW: usize = (16 + 2 * 16) * WINDOW_WIDTH;

/// The number of pixels in the window of a search of range 8 or less.
const LEAST_WINDOW: usize = (16 + 2 * 8) * WINDOW_WIDTH;

/// The number of pixels in the window of a search of the greatest range.
const WHOLE_WINDOW: usize = (16 + 2 * GREATEST_RANGE) * WINDOW_WIDTH;

/// The best vector, if it costs less than `limit`, of a window of `AREA` pixels that has no sums: at a small range,
/// where sums cost more than they save, or if their memory was refused.
#[inline(never)]
fn best_without_sums<const AREA: usize>(
    block: &[u8; 256],
    reference: &Plane,
    place: Place,
    range: u8,
    limit: u32,
) -> Found
    requires range { range ≤ 64 }
    requires room { (2 * range + 16) * WINDOW_WIDTH ≤ AREA }
    requires small { AREA ≤ WHOLE_WINDOW }
    requires columns { 16 * place.column ≤ 16384 }
    requires rows { 16 * place.row ≤ 16384 }
    requires wide { 0 < reference.now.width }
    requires high { 0 < reference.now.height }
    ensures chosen { IsChosen (block16 block.now) reference.now place range limit result }
    ensures bound { result.cost ≤ 16 * 16 * 255 }
{
    let block = Block::of(block);
    let mut pixels = [0; AREA];
    cut_window(&mut pixels, reference, place, range);
    let window = SearchWindow {
        block: &block,
        pixels: &pixels,
        range,
        limit,
        sums: None,
    };
    window.search(window.centre(), Unbounded::none()).best
}
