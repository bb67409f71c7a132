//! The sums that a search uses.

ghost use Rattle.std.specs.Prelude.{◌≡◌, ◌<◌, length};
ghost use Rattle.vp_search.specs.Coarse.{AreCoarse};

/// The sums of the pixels of 8x8 squares, of a block and of a window.
#[derive(Clone, Copy)]
pub(crate) struct SquareSums<'a> {
    /// Those of the four squares of the block.
    pub(crate) block: [u16; 4],
    /// That of the square at each place of the window.
    pub(crate) places: &'a [u16],
    /// Coarse sums of the squares of the block.
    pub(crate) coarse_block: [u8; 4],
    /// Coarse sums of the squares at each place of the window; none if coarse bounds don't pay.
    pub(crate) coarse: &'a [u8],
    ghost coarse_block_is: { AreCoarse 4 block coarse_block },
    ghost coarse_size: { 0 < length coarse.now → length coarse.now ≡ length places.now },
    ghost coarse_is: { 0 < length coarse.now → AreCoarse (length places.now) places.now coarse.now },
}
