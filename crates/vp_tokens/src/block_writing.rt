//! Writing the tokens of a block.

ghost use Rattle.std.specs.Prelude.{◌<◌, OnOk};
ghost use Rattle.vp_bool.specs.Writing.{Writes};
ghost use Rattle.vp_tokens.specs.Levels.{token, coefficient_block};
ghost use Rattle.vp_tokens.specs.Spelled.{IsSpelledBlock};

use crate::block::{Block, BlockKind, bands_of, first_of, row_of};
use crate::level_writing::write_level;
use crate::walk_writing::write_walk;
use std::alloc::AllocError;
use vp_bool::BoolEncoder;
use vp_tables::Token;

/// Writes the end of the block before a position.
#[inline(always)]
fn write_end_of_block(
    bands: &[[[u8; 11]; 3]; 8],
    position: usize,
    context: usize,
    e: &mut BoolEncoder,
) -> Result<(), AllocError>
    requires position_in { position < 16 }
    requires context_in { context < 3 }
    ensures { OnOk result (Writes (token bands.now position context 0) e.old e.new Token.EndOfBlock) }
{
    write_walk(row_of(bands, position, context), 0, Token::EndOfBlock, e)?;
    Ok(())
}

/// Writes the tokens of a block of this type, in this context.
pub(crate) fn write_block(
    probabilities: &[[[[u8; 11]; 3]; 8]; 4],
    kind: BlockKind,
    context: usize,
    what: &Block,
    e: &mut BoolEncoder,
) -> Result<(), AllocError>
    requires context_in { context < 3 }
    requires spelled { IsSpelledBlock kind what.now }
    ensures { OnOk result (Writes (coefficient_block probabilities.now kind context) e.old e.new what.now) }
{
    let bands = bands_of(probabilities, kind);
    let end = what.end as usize;
    let mut context = context;
    let mut from = 0;
    for i in first_of(kind)..16 {
        if i >= end {
            write_end_of_block(bands, i, context, e)?;
            return Ok(());
        }
        let next = write_level(row_of(bands, i, context), from, what.levels[i], e)?;
        context = next.context;
        from = next.from;
    }
    Ok(())
}
