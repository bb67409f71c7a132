//! Writing the tokens of a macroblock (RFC 6386, chapter 13).

ghost use Rattle.std.specs.Prelude.{◌≡◌, ◌<◌, ◌+◌, Bool, List, true, false, length, OnOk, OnErr};
ghost use Rattle.vp_base.specs.Grid.{Grid, Has, with_entry};
ghost use Rattle.vp_bool.specs.Writing.{Writes};
ghost use Rattle.vp_tokens.specs.Blocks.{Blocks, blocks_of, block_at, no_blocks, macroblock};
ghost use Rattle.vp_tokens.specs.Contexts.{had_of};
ghost use Rattle.vp_tokens.specs.Pieces.{all_blocks};
ghost use Rattle.vp_tokens.specs.Contexts.{AreContextsAt, right};
ghost use Rattle.vp_tokens.specs.Flagged.{by_flags};
ghost use Rattle.vp_tokens.specs.Placed.{AreFlagsAt};
ghost use Rattle.vp_tokens.specs.Spelled.{AreSpelled};
ghost use Rattle.vp_tokens.specs.Written.{prefix_blocks};

use crate::block::Block;
use crate::block_writing::write_block;
use crate::contexts::{Contexts, Tokens, count, had, kind_of};
use crate::macroblock::{ABOVE, Flags, LEFT};
use std::alloc::AllocError;
use vp_base::Place;
use vp_bool::BoolEncoder;

/// Writes block `k`, if the macroblock has it, and stores its flag for the blocks below and to the right.
#[inline(always)]
fn write_at(
    probabilities: &[[[[u8; 11]; 3]; 8]; 4],
    has_y2: bool,
    k: usize,
    blocks: &[Block; 25],
    flags: &mut Flags,
    e: &mut BoolEncoder,
) -> Result<(), AllocError>
    requires k_in { k < 25 }
    requires spelled { AreSpelled has_y2 blocks.now }
    // `above` and `left` are the flags before block 0.
    ensures writes { OnOk result ((above left : List Bool)
        → AreFlagsAt has_y2 above left (had_of blocks.now) k flags.old
        → Writes (block_at probabilities.now has_y2 (by_flags above left) k (prefix_blocks k blocks.now))
        e.old e.new (prefix_blocks (k + 1) blocks.now)) }
    ensures flags { OnOk result ((above left : List Bool)
        → AreFlagsAt has_y2 above left (had_of blocks.now) k flags.old
        → AreFlagsAt has_y2 above left (had_of blocks.now) (k + 1) flags.new) }
{
    if k > 0 || has_y2 {
        let up = ABOVE[k] as usize;
        let side = LEFT[k] as usize;
        let context = count(flags.above[up], flags.left[side]);
        write_block(probabilities, kind_of(has_y2, k), context, &blocks[k], e)?;
        let had = had(blocks, k);
        flags.above[up] = had;
        flags.left[side] = had;
    }
    Ok(())
}

/// Writes all blocks, unless the macroblock is skipped.
fn write_all(
    probabilities: &[[[[u8; 11]; 3]; 8]; 4],
    above: &[bool; 9],
    left: &[bool; 9],
    has_y2: bool,
    skipped: bool,
    blocks: &[Block; 25],
    e: &mut BoolEncoder,
) -> Result<(), AllocError>
    requires spelled { AreSpelled has_y2 blocks.now }
    requires skipped { skipped ≡ true → blocks.now ≡ no_blocks }
    ensures { OnOk result (Writes (all_blocks probabilities.now has_y2 skipped
        (by_flags above.now left.now)) e.old e.new blocks.now) }
{
    if skipped {
        return Ok(());
    }
    let mut flags = Flags {
        above: *above,
        left: *left,
    };
    for k in 0..25 {
        write_at(probabilities, has_y2, k, blocks, &mut flags, e)?;
    }
    Ok(())
}

/// Writes the tokens of the macroblock at `place` into the partition of its row, and updates the contexts as
/// [`read_macroblock`](crate::read_macroblock) does. The macroblocks of a frame must be written in raster order.
///
/// `has_y2` is false for luma modes `B_PRED` and `SPLITMV`. A skipped macroblock has no tokens, and nothing is
/// written. If out of memory, a part of the tokens may have been written.
pub fn write_macroblock(
    probabilities: &[[[[u8; 11]; 3]; 8]; 4],
    contexts: &mut Contexts,
    place: Place,
    has_y2: bool,
    skipped: bool,
    tokens: &Tokens,
    e: &mut BoolEncoder,
) -> Result<(), AllocError>
    requires column { place.column < length contexts.old.above }
    requires spelled { AreSpelled has_y2 tokens.now.blocks }
    requires skipped { skipped ≡ true → tokens.now.blocks ≡ no_blocks }
    // What was written is read as these tokens, whatever follows.
    ensures writes { OnOk result ((g : Grid Blocks) → AreContextsAt g place contexts.old
        → Writes (macroblock probabilities.now g place has_y2 skipped) e.old e.new tokens.now) }
    ensures stands { OnOk result ((g : Grid Blocks) → Has g place → AreContextsAt g place contexts.old
        → AreContextsAt (with_entry g place (blocks_of has_y2 tokens.now)) (right place) contexts.new) }
    ensures columns { length contexts.new.above ≡ length contexts.old.above }
    ensures err { OnErr result (contexts.new ≡ contexts.old) }
{
    let above = contexts.above_of(place);
    let left = contexts.left_of(place);
    write_all(
        probabilities,
        &above,
        &left,
        has_y2,
        skipped,
        &tokens.blocks,
        e,
    )?;
    contexts.keep(place, has_y2, &tokens.blocks);
    Ok(())
}
