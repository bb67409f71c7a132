//! Reading the tokens of a macroblock (RFC 6386, chapter 13).
ghost use Rattle.std.specs.Prelude.{◌≡◌, true, ◌+◌, ◌<◌, ◌≤◌, length};
ghost use Rattle.vp_base.specs.Grid.{Grid, Has, with_entry};
ghost use Rattle.vp_bool.specs.Bools.{State};
ghost use Rattle.vp_tokens.specs.Levels.{Probabilities};
ghost use Rattle.vp_tokens.specs.Blocks.{Blocks, blocks_of, no_blocks};
ghost use Rattle.vp_tokens.specs.Contexts.{had_of, flag_at};
ghost use Rattle.vp_tokens.specs.Pieces.{y2_or, all_blocks};
ghost use Rattle.vp_tokens.specs.Blocks.{without_tokens, macroblock};
ghost use Rattle.vp_tokens.specs.Contexts.{AreContextsAt, bottom_row_flags, right_column_flags, right};
ghost use Rattle.vp_tokens.specs.Flagged.{by_flags};
ghost use Rattle.vp_tokens.specs.Placed.{reading, placed, plane, blocks_read};
ghost use Rattle.vp_tokens.specs.Spelled.{AreSpelled};

use crate::block::{Block, BlockKind, bands_of, first_of, read_block};
use crate::contexts::{Contexts, Tokens, count, kind_of};
use vp_base::Place;
use vp_bool::BoolDecoder;

/// Which blocks above and to the left of the remaining blocks have a token: 4 Y, 2 U, 2 V, 1 Y2.
#[derive(Clone, Copy)]
pub(crate) struct Flags {
    pub(crate) above: [bool; 9],
    pub(crate) left: [bool; 9],
}

/// By block: the index of its flag among the nine above.
pub(crate) const ABOVE: [u8; 25] = [
    8, 0, 1, 2, 3, 0, 1, 2, 3, 0, 1, 2, 3, 0, 1, 2, 3, 4, 5, 4, 5, 6, 7, 6, 7,
];

/// By block: the index of its flag among the nine to the left.
pub(crate) const LEFT: [u8; 25] = [
    8, 0, 0, 0, 0, 1, 1, 1, 1, 2, 2, 2, 2, 3, 3, 3, 3, 4, 4, 5, 5, 6, 6, 7, 7,
];

/// Reads block `k`, and stores its flag for the blocks below and to the right.
#[inline(always)]
#[tactic(auto, unfolding(crate::specs::Placed::placed, vp_bool::specs::Reader::bind))]
fn read_placed(
    bands: &[[[u8; 11]; 3]; 8],
    first: usize,
    k: usize,
    blocks: &mut [Block; 25],
    flags: &mut Flags,
    d: &mut BoolDecoder,
)
    requires first_in { first ≤ 1 }
    requires k_in { k < 25 }
    ensures value { reading blocks.new flags.new ≡ (placed bands.now first k (reading blocks.old flags.old) d.old).0 }
    ensures rest { d.new ≡ (placed bands.now first k (reading blocks.old flags.old) d.old).1 }
{
    let up = ABOVE[k] as usize;
    let side = LEFT[k] as usize;
    let context = count(flags.above[up], flags.left[side]);
    read_block(bands, first, context, &mut blocks[k], d);
    let had = blocks[k].has_token();
    flags.above[up] = had;
    flags.left[side] = had;
}

/// Reads `count` blocks of one type from block `k` on.
#[inline(never)]
fn read_plane(
    probabilities: &[[[[u8; 11]; 3]; 8]; 4],
    kind: BlockKind,
    k: usize,
    count: usize,
    blocks: &mut [Block; 25],
    flags: &mut Flags,
    d: &mut BoolDecoder,
)
    requires inside { k + count ≤ 25 }
    ensures value { reading blocks.new flags.new ≡ (plane probabilities.now kind k count
        (reading blocks.old flags.old) d.old).0 }
    ensures rest { d.new ≡ (plane probabilities.now kind k count (reading blocks.old flags.old) d.old).1 }
{
    let bands = bands_of(probabilities, kind);
    let first = first_of(kind);
    // The compiler keeps a local decoder in registers.
    let mut own = d.copy();
    for i in 0..count {
        read_placed(bands, first, k + i, blocks, flags, &mut own);
    }
    *d = own;
}

/// Reads all blocks.
fn read_all(
    probabilities: &[[[[u8; 11]; 3]; 8]; 4],
    has_y2: bool,
    blocks: &mut [Block; 25],
    flags: &mut Flags,
    d: &mut BoolDecoder,
)
    ensures value { reading blocks.new flags.new ≡ (blocks_read probabilities.now has_y2
        (reading no_blocks flags.old) d.old).0 }
    ensures rest { d.new ≡ (blocks_read probabilities.now has_y2 (reading no_blocks flags.old) d.old).1 }
{
    if has_y2 {
        read_plane(probabilities, BlockKind::Y2, 0, 1, blocks, flags, d);
    } else {
        blocks[0] = Block::NONE;
    }
    let luma = kind_of(has_y2, 1);
    read_plane(probabilities, luma, 1, 16, blocks, flags, d);
    read_plane(probabilities, BlockKind::Chroma, 17, 8, blocks, flags, d);
}

/// The flags after a macroblock without tokens.
fn flags_without(old: &[bool; 9], has_y2: bool) -> [bool; 9]
    ensures bottom_row_flags { result ≡ bottom_row_flags (had_of no_blocks)
        (y2_or (record { has_y2 = has_y2; had = had_of no_blocks })
        (flag_at old.now 8)) }
    ensures right_column_flags { result ≡ right_column_flags (had_of no_blocks)
        (y2_or (record { has_y2 = has_y2; had = had_of no_blocks }) (flag_at old.now 8)) }
{
    let y2 = !has_y2 && old[8];
    [false, false, false, false, false, false, false, false, y2]
}

/// Reads all blocks, unless the macroblock is skipped. Then they must have no tokens yet.
fn read_unless(
    skipped: bool,
    probabilities: &[[[[u8; 11]; 3]; 8]; 4],
    has_y2: bool,
    blocks: &mut [Block; 25],
    flags: &mut Flags,
    d: &mut BoolDecoder,
)
    requires { skipped ≡ true → blocks.old ≡ no_blocks }
    ensures value { blocks.new ≡ (all_blocks probabilities.now has_y2 skipped
        (by_flags flags.old.above flags.old.left) d.old).0 }
    ensures rest { d.new ≡ (all_blocks probabilities.now has_y2 skipped
        (by_flags flags.old.above flags.old.left) d.old).1 }
    ensures above { flags.new.above ≡ bottom_row_flags (had_of blocks.new)
        (y2_or (record { has_y2 = has_y2; had = had_of blocks.new }) (flag_at flags.old.above 8)) }
    ensures left { flags.new.left ≡ right_column_flags (had_of blocks.new)
        (y2_or (record { has_y2 = has_y2; had = had_of blocks.new }) (flag_at flags.old.left 8)) }
{
    if skipped {
        flags.above = flags_without(&flags.above, has_y2);
        flags.left = flags_without(&flags.left, has_y2);
    } else {
        read_all(probabilities, has_y2, blocks, flags, d);
    }
}

/// Reads the tokens of the macroblock at `place` from the partition of its row, and updates the contexts. `tokens` is
/// overwritten. The macroblocks of a frame must be read in raster order.
///
/// `has_y2` is false for luma modes `B_PRED` and `SPLITMV`. If the macroblock is skipped, nothing is read.
pub fn read_macroblock(
    probabilities: &[[[[u8; 11]; 3]; 8]; 4],
    contexts: &mut Contexts,
    place: Place,
    has_y2: bool,
    skipped: bool,
    tokens: &mut Tokens,
    d: &mut BoolDecoder,
)
    requires { place.column < length contexts.old.above }
    ensures value { (g : Grid Blocks) → AreContextsAt g place contexts.old
        → tokens.new ≡ (macroblock probabilities.now g place has_y2 skipped d.old).0 }
    ensures rest { (g : Grid Blocks) → AreContextsAt g place contexts.old
        → d.new ≡ (macroblock probabilities.now g place has_y2 skipped d.old).1 }
    ensures stands { (g : Grid Blocks) → Has g place → AreContextsAt g place contexts.old
        → AreContextsAt (with_entry g place (blocks_of has_y2 tokens.new)) (right place) contexts.new }
    ensures columns { length contexts.new.above ≡ length contexts.old.above }
    // What is read can be written.
    ensures spelled { AreSpelled has_y2 tokens.new.blocks }
    ensures none { skipped ≡ true → tokens.new.blocks ≡ no_blocks }
{
    let mut flags = Flags {
        above: contexts.above_of(place),
        left: contexts.left_of(place),
    };
    if skipped {
        *tokens = Tokens::NONE;
    }
    let blocks = &mut tokens.blocks;
    read_unless(skipped, probabilities, has_y2, blocks, &mut flags, d);
    contexts.put(place, flags.above, flags.left);
}

/// Updates the contexts for the skipped macroblock at `place`, whose tokens are [`Tokens::NONE`], as
/// [`read_macroblock`] does. The macroblocks of a frame must be skipped or read in raster order.
///
/// `has_y2` is false for luma modes `B_PRED` and `SPLITMV`.
pub fn skip_macroblock(contexts: &mut Contexts, place: Place, has_y2: bool)
    requires { place.column < length contexts.old.above }
    ensures value { (g : Grid Blocks) (d : State) (probabilities : Probabilities) → AreContextsAt g place contexts.old
        → macroblock probabilities g place has_y2 true d ≡ (without_tokens, d) }
    ensures stands { (g : Grid Blocks) → Has g place → AreContextsAt g place contexts.old
        → AreContextsAt (with_entry g place (blocks_of has_y2 without_tokens)) (right place) contexts.new }
    ensures columns { length contexts.new.above ≡ length contexts.old.above }
{
    let above = flags_without(&contexts.above_of(place), has_y2);
    let left = flags_without(&contexts.left_of(place), has_y2);
    contexts.put(place, above, left);
}
