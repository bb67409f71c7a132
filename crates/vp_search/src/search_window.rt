//! A block and the window in which it is searched.

ghost use Rattle.std.specs.Prelude.{◌≡◌, ◌+◌, ◌*◌, ◌≤◌, Some, length};
ghost use Rattle.vp_search.specs.declared.summed.SquareSums.{SquareSums};
ghost use Rattle.vp_search.specs.declared.window.TheConstants.{WINDOW_WIDTH};
ghost use Rattle.vp_search.specs.Summed.{AreSumsOf};

use crate::coarse::coarse_block;
use crate::rows::Block;
use crate::summed::SquareSums;
use crate::sums::block_sums;

/// A block, and the window of the reference in which the best vector for it is searched.
#[derive(Clone, Copy)]
pub(crate) struct SearchWindow<'a, 's> {
    pub(crate) block: &'a Block<'a>,
    pub(crate) pixels: &'a [u8],
    /// The greatest row and column of a vector.
    pub(crate) range: u8,
    /// Only vectors that cost less than this are sought; `u32::MAX` if all are.
    pub(crate) limit: u32,
    /// The sums of the pixels of the 8x8 squares of both; None if no bounds are made.
    pub(crate) sums: Option<SquareSums<'s>>,
    ghost small: { range ≤ 64 },
    ghost room: { (2 * range + 16) * WINDOW_WIDTH ≤ length pixels.now },
    ghost summed: { (s : SquareSums) → sums ≡ Some s → AreSumsOf block.now pixels.now range s },
}

impl<'a, 's> SearchWindow<'a, 's> {
    ghost use Rattle.std.specs.Prelude.{◌≡◌, ◌+◌, ◌*◌, ◌<◌, ◌≤◌, length};
    ghost use Rattle.vp_search.specs.declared.window.TheConstants.{WINDOW_WIDTH};
    ghost use Rattle.vp_search.specs.Bounds.{IsSummed};
    ghost use Rattle.vp_search.specs.Coarse.{AreCoarse};

    /// This window with sums: those of its 8x8 squares that are made and, if there are any, coarse ones. Not inlined:
    /// else their places are computed anew for each group of vectors.
    #[inline(never)]
    pub(crate) fn with_sums<'b>(&self, places: &'b [u16], coarse: &'b [u8]) -> SearchWindow<'a, 'b>
        requires room { (2 * self.now.range + 16) * WINDOW_WIDTH ≤ length places.now }
        requires places { IsSummed self.now.pixels.now places.now self.now.range }
        requires coarse_size { 0 < length coarse.now → length coarse.now ≡ length places.now }
        requires coarse { 0 < length coarse.now → AreCoarse (length places.now) places.now coarse.now }
        ensures block { result.block.now ≡ self.now.block.now }
        ensures pixels { result.pixels.now ≡ self.now.pixels.now }
        ensures range { result.range ≡ self.now.range }
        ensures limit { result.limit ≡ self.now.limit }
    {
        let block = block_sums(self.block.pixels());
        let sums = SquareSums {
            block,
            places,
            coarse_block: coarse_block(block),
            coarse,
        };
        SearchWindow {
            block: self.block,
            pixels: self.pixels,
            range: self.range,
            limit: self.limit,
            sums: Some(sums),
        }
    }
}
