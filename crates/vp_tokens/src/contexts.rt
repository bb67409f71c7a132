//! The blocks of a macroblock, and the token contexts of a frame.

ghost use Rattle.std.specs.Prelude.{◌≡◌, ℕ, pos, Bool, false, ◌<◌, ◌≤◌, [], length, slice_index_or, slice_set};
ghost use Rattle.std.specs.Prelude.{unsigned_abs, IfOk};
ghost use Rattle.vp_base.specs.declared.place.Place.{Place};
ghost use Rattle.vp_base.specs.Grid.{all};
ghost use Rattle.vp_tokens.specs.Blocks.{Blocks, no_blocks_read, kind_of};
ghost use Rattle.vp_tokens.specs.Contexts.{had_of, flag_at};
ghost use Rattle.vp_tokens.specs.Pieces.{true_count};
ghost use Rattle.vp_tokens.specs.Blocks.{block_of, no_blocks, macroblock, any_token};
ghost use Rattle.vp_tokens.specs.Pieces.{y2_or};
ghost use Rattle.vp_tokens.specs.Contexts.{AreContextsAt, bottom_row_flags, right_column_flags, right};
ghost use Rattle.vp_tokens.specs.Flagged.{left_at, flags_after};
ghost use Rattle.vp_tokens.specs.Spelled.{levels_of, AreLevels, AreSpelled, AreTight};

use crate::block::{Block, BlockKind};
use std::alloc::{AllocError, Global};
use std::marker::Model;
use vp_base::Place;

/// The blocks of a macroblock: Y2, 16 Y, 4 U, 4 V, each plane in raster order (RFC 6386, chapter 13).
#[derive(Clone, Copy, Debug, PartialEq, Eq)]
pub struct Tokens {
    /// The 25 blocks. If the macroblock has no Y2 block, the first one has no tokens.
    pub blocks: [Block; 25],
}

impl Tokens {
    /// The blocks of a skipped macroblock: none has a token.
    pub const NONE: Tokens = Tokens {
        blocks: [Block::NONE; 25],
    };

    /// The blocks of these levels. The last token of each is its last nonzero level.
    pub fn of_levels(levels: &[[i16; 16]; 25]) -> Tokens
        requires { (k i : ℕ) → unsigned_abs (slice_index_or (levels_of levels.now k) i (pos 0)) ≤ 2114 }
        ensures levels { (k : ℕ) → k < 25 → (block_of result k).levels ≡ levels_of levels.now k }
        ensures tight { AreTight result.blocks }
        ensures spelled { (has_y2 : Bool) → AreLevels has_y2 levels.now → AreSpelled has_y2 result.blocks }
        ensures none { any_token result ≡ false → result.blocks ≡ no_blocks }
    {
        let mut blocks = [Block::NONE; 25];
        for k in 0..25 {
            blocks[k] = Block::of_levels(&levels[k]);
        }
        Tokens { blocks }
    }

    /// Whether any block has a token before its end.
    pub fn any(&self) -> bool
        ensures { result ≡ any_token self.now }
    {
        self.blocks.iter().any(|block| block.has_token())
    }
}

/// The token contexts: which blocks above and to the left of the next macroblock have a token before their end.
///
/// Nine flags for each column, and nine for the row: 4 Y, 2 U, 2 V, 1 Y2.
#[derive(Drop)]
pub struct Contexts {
    above: Vec<[bool; 9]>,
    left: [bool; 9],
}

impl Model for Contexts {
    ghost use Rattle.vp_tokens.specs.Contexts.{Contexts};

    ghost Value = { Contexts };

    ghost view = { λ c. record { above = c.above.items; left = c.left } };
}

/// The number of flags that are set: 0 to 2.
pub(crate) fn count(above: bool, left: bool) -> usize
    ensures value { result ≡ true_count above left }
    ensures small { result ≤ 2 }
{
    above as usize + left as usize
}

/// Whether block `k` of this macroblock has a token. Blocks: 0 is Y2, 1 to 16 Y, 17 to 20 U, 21 to 24 V.
pub(crate) fn had(blocks: &[Block; 25], k: usize) -> bool
    requires { k < 25 }
    ensures { result ≡ flag_at (had_of blocks.now) k }
{
    blocks[k].has_token()
}

/// The type of block `k`.
pub(crate) fn kind_of(has_y2: bool, k: usize) -> BlockKind
    ensures { result ≡ kind_of has_y2 k }
{
    if k == 0 {
        BlockKind::Y2
    } else if k > 16 {
        BlockKind::Chroma
    } else if has_y2 {
        BlockKind::LumaAfterY2
    } else {
        BlockKind::Luma
    }
}

/// The Y2 flag after a macroblock; without a Y2 block it stays `old`.
fn y2_flag(old: bool, has_y2: bool, blocks: &[Block; 25]) -> bool
    ensures { result ≡ y2_or (record { has_y2 = has_y2; had = had_of blocks.now }) old }
{
    if has_y2 { had(blocks, 0) } else { old }
}

/// The flags for the macroblock below, with this Y2 flag.
fn bottom_row_flags(blocks: &[Block; 25], y2: bool) -> [bool; 9]
    ensures { result ≡ bottom_row_flags (had_of blocks.now) y2 }
{
    [
        had(blocks, 13),
        had(blocks, 14),
        had(blocks, 15),
        had(blocks, 16),
        had(blocks, 19),
        had(blocks, 20),
        had(blocks, 23),
        had(blocks, 24),
        y2,
    ]
}

/// The flags for the macroblock to the right, with this Y2 flag.
fn right_column_flags(blocks: &[Block; 25], y2: bool) -> [bool; 9]
    ensures { result ≡ right_column_flags (had_of blocks.now) y2 }
{
    [
        had(blocks, 4),
        had(blocks, 8),
        had(blocks, 12),
        had(blocks, 16),
        had(blocks, 18),
        had(blocks, 20),
        had(blocks, 22),
        had(blocks, 24),
        y2,
    ]
}

impl Contexts {
    /// Contexts of no columns. Allocates nothing.
    pub fn empty(alloc: Global) -> Contexts
        ensures { result.above ≡ [] }
    {
        Contexts {
            above: Vec::new(alloc),
            left: [false; 9],
        }
    }

    /// Allocates contexts for a frame of this many macroblock columns, before its first macroblock.
    pub fn new(alloc: Global, columns: usize) -> Result<Contexts, AllocError>
        ensures stands { IfOk result (λ c. (rows : ℕ) → AreContextsAt (all columns rows no_blocks_read)
            (record { column = 0; row = 0 }) c) }
        ensures columns { IfOk result (λ c. length c.above ≡ columns) }
    {
        Contexts::empty(alloc).refill(columns)
    }

    /// Resets the contexts to `new(columns)`. Allocates only if the buffer is too small.
    pub fn refill(self, columns: usize) -> Result<Contexts, AllocError>
        ensures stands { IfOk result (λ c. (rows : ℕ) → AreContextsAt (all columns rows no_blocks_read)
            (record { column = 0; row = 0 }) c) }
        ensures columns { IfOk result (λ c. length c.above ≡ columns) }
    {
        let mut above = self.above;
        above.truncate(0);
        above.resize(columns, [false; 9])?;
        Ok(Contexts {
            above,
            left: [false; 9],
        })
    }

    /// The flags above the macroblock at a place.
    pub(crate) fn above_of(&self, place: Place) -> [bool; 9]
        requires { place.column < length self.now.above }
        ensures { result ≡ slice_index_or self.now.above place.column [] }
    {
        self.above[place.column]
    }

    /// The flags to the left of the macroblock at a place.
    pub(crate) fn left_of(&self, place: Place) -> [bool; 9]
        ensures { result ≡ left_at self.now place }
    {
        if place.column == 0 {
            [false; 9]
        } else {
            self.left
        }
    }

    /// Stores which blocks of the macroblock at a place have a token.
    pub(crate) fn keep(&mut self, place: Place, has_y2: bool, blocks: &[Block; 25])
        requires { place.column < length self.old.above }
        ensures { self.new ≡ flags_after self.old place (record { has_y2 = has_y2; had = had_of blocks.now }) }
    {
        let above = y2_flag(self.above_of(place)[8], has_y2, blocks);
        let left = y2_flag(self.left_of(place)[8], has_y2, blocks);
        self.put(
            place,
            bottom_row_flags(blocks, above),
            right_column_flags(blocks, left),
        );
    }

    /// Stores the flags for the macroblocks below and to the right of the one at a place.
    pub(crate) fn put(&mut self, place: Place, lower: [bool; 9], right: [bool; 9])
        requires { place.column < length self.old.above }
        ensures { self.new ≡ record { above = slice_set self.old.above place.column lower; left = right } }
    {
        self.above[place.column] = lower;
        self.left = right;
    }
}
