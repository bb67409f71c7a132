//! The coefficient levels of a block, and reading them.

ghost use Rattle.std.specs.Prelude.{◌≡◌, ◌≤◌, ◌<◌, ◌+◌, ◌-◌, ℕ, pos, slice_index_or, slice_set, unsigned_abs};
ghost use Rattle.std.specs.Prelude.{IfSome, option_map};
ghost use Rattle.vp_tokens.specs.Block.{has_token, IsTight, IsBlock};
ghost use Rattle.vp_tokens.specs.Levels.{bands_of, first_of, row};
ghost use Rattle.vp_tokens.specs.Placed.{banded};
ghost use Rattle.vp_tokens.specs.Zeros.{zeros};

use crate::magnitude::{context_after_token, read_magnitude, read_signed};
use crate::walks::{end_of_block, nonzero};
use std::marker::Model;
use vp_bool::BoolDecoder;
use vp_tables::band;

/// The levels of a 4x4 block of coefficients. Each level is from -2,114 to 2,114; levels after the last token are 0.
#[derive(Clone, Copy, Debug, PartialEq, Eq)]
pub struct Block {
    /// The levels in zigzag order, as they are coded.
    pub levels: [i16; 16],
    /// The end of block (libvpx: eob): the position after the last token; 0 if the block has no token.
    pub end: u8,
}

impl Model for Block {
    ghost use Rattle.vp_tokens.specs.Block.{Block, IsBlock};

    ghost Value = { Block };

    ghost view = { λ b. record { levels = b.levels; end = b.end } };

    ghost invariant = { λ b. IsBlock (record { levels = b.levels; end = b.end }) };

    ghost inverse = { λ b. record { levels = b.levels; end = b.end } };
}

/// The type of a block, which selects its token probabilities (RFC 6386, chapter 13.3).
#[derive(Clone, Copy, Debug, PartialEq, Eq)]
pub enum BlockKind {
    /// Luma in a macroblock with a Y2 block, which codes what stands at position 0.
    LumaAfterY2,
    /// Y2: the DC levels of the sixteen luma blocks, transformed once more.
    Y2,
    /// Chroma: U or V.
    Chroma,
    /// Luma in a macroblock without a Y2 block.
    Luma,
}

impl Block {
    /// A block without tokens: all levels are 0.
    pub const NONE: Block = Block {
        levels: [0; 16],
        end: 0,
    };

    /// The block of these levels. Its last token is the last nonzero level.
    pub fn of_levels(levels: &[i16; 16]) -> Block
        requires { (i : ℕ) → unsigned_abs (slice_index_or levels.now i (pos 0)) ≤ 2114 }
        ensures levels { result.levels ≡ levels.now }
        ensures tight { IsTight result }
        ensures block { IsBlock result }
    {
        let mut end = 16;
        while end > 0 && levels[end - 1] == 0 {
            end -= 1;
        }
        Block {
            levels: *levels,
            end: end as u8,
        }
    }

    /// Whether the block has a token before its end.
    pub fn has_token(&self) -> bool
        ensures { result ≡ has_token self.now }
    {
        self.end > 0
    }

    /// Stores the level of the next token.
    #[inline(always)]
    fn put(&mut self, position: usize, level: i16)
        requires position { position < 16 }
        requires behind { self.old.end ≤ position }
        requires within { unsigned_abs level ≤ 2114 }
        ensures { self.new ≡ record { levels = slice_set self.old.levels position level; end = position + 1 } }
    {
        self.levels[position] = level;
        self.end = position as u8 + 1;
    }

    /// Ends the block after its last position: the levels that are left are 0.
    #[inline(always)]
    fn end_after_last(&mut self)
        ensures { self.new ≡ record { levels = self.old.levels; end = 16 } }
    {
        self.end = 16;
    }
}

/// The probabilities of a block type, by band, context and token tree pair.
pub(crate) fn bands_of(
    probabilities: &[[[[u8; 11]; 3]; 8]; 4],
    kind: BlockKind,
) -> &[[[u8; 11]; 3]; 8]
    ensures { result.now ≡ bands_of probabilities.now kind }
{
    match kind {
        BlockKind::LumaAfterY2 => &probabilities[0],
        BlockKind::Y2 => &probabilities[1],
        BlockKind::Chroma => &probabilities[2],
        BlockKind::Luma => &probabilities[3],
    }
}

/// The position of the first token: 1 for luma after Y2, else 0.
pub(crate) fn first_of(kind: BlockKind) -> usize
    ensures value { result ≡ first_of kind }
    ensures small { result ≤ 1 }
{
    match kind {
        BlockKind::LumaAfterY2 => 1,
        _ => 0,
    }
}

/// The probabilities at a position, in a context.
#[tactic(auto, unfolding(crate::specs::Levels::row))]
pub(crate) fn row_of(bands: &[[[u8; 11]; 3]; 8], position: usize, context: usize) -> &[u8; 11]
    requires position_in { position < 16 }
    requires context_in { context < 3 }
    ensures { result.now ≡ row bands.now position context }
{
    &bands[band(position)][context]
}

/// The position of a token that isn't 0, and its probabilities.
#[derive(Clone, Copy, Drop)]
struct Nonzero<'a> {
    position: usize,
    row: &'a [u8; 11],
}

/// Reads the zeros from position `i` on, up to a token that isn't 0, if there is one. The token at `i` isn't the end of
/// block, and has this context. Nothing is stored: the levels are 0 already. In a loop of its own, which never asks
/// whether the end of block is coded.
#[inline(always)]
fn pass_zeros<'a>(
    bands: &'a [[[u8; 11]; 3]; 8],
    i: usize,
    context: usize,
    d: &mut BoolDecoder,
) -> Option<Nonzero<'a>>
    requires context_in { context < 3 }
    ensures value { option_map (λ n. record { position = n.position; row = n.row.now }) result
        ≡ (zeros bands.now (16 - i) i context d.old).0 }
    ensures rest { d.new ≡ (zeros bands.now (16 - i) i context d.old).1 }
    ensures later { IfSome result (λ n. i ≤ n.position) }
    ensures inside { IfSome result (λ n. n.position < 16) }
{
    let mut context = context;
    for position in i..16 {
        let row = row_of(bands, position, context);
        if d.read(row[1]) {
            return Some(Nonzero { position, row });
        }
        context = 0;
    }
    None
}

/// Reads the tokens of a block from its first position on, with the probabilities of its type and this context. `found`
/// is overwritten.
#[inline(always)]
pub(crate) fn read_block(
    bands: &[[[u8; 11]; 3]; 8],
    first: usize,
    context: usize,
    found: &mut Block,
    d: &mut BoolDecoder,
)
    requires first_in { first ≤ 1 }
    requires context_in { context < 3 }
    ensures value { found.new ≡ (banded bands.now first context d.old).0 }
    ensures rest { d.new ≡ (banded bands.now first context d.old).1 }
{
    *found = Block::NONE;
    let mut context = context;
    let mut i = first;
    while i < 16 {
        if end_of_block(row_of(bands, i, context), d) {
            return;
        }
        let Some(next) = pass_zeros(bands, i, context, d) else {
            found.end_after_last();
            return;
        };
        let token = nonzero(next.row, d);
        context = context_after_token(token);
        let magnitude = read_magnitude(token, d);
        found.put(next.position, read_signed(magnitude, d));
        i = next.position + 1;
    }
}
