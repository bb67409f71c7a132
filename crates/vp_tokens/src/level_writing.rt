//! Writing a level: its token, its extra bits and its sign.

ghost use Rattle.std.specs.Prelude.{◌≡◌, ◌≤◌, if◌then◌else◌, unsigned_abs, IfOk, OnOk};
ghost use Rattle.vp_bool.specs.Reader.{give};
ghost use Rattle.vp_bool.specs.Writing.{Continues};
ghost use Rattle.vp_tables.specs.declared.modes.Token.TheVariants as token_is;
ghost use Rattle.vp_tables.specs.declared.trees.TheConstants.{TOKEN_TREE};
ghost use Rattle.vp_tree.specs.Tree.{walk_from};
ghost use Rattle.vp_tokens.specs.Pieces.{context_after, pair_after};
ghost use Rattle.vp_tokens.specs.Walks.{nonzero, IsStart};
ghost use Rattle.vp_tokens.specs.Written.{IsLevelWritten};

use crate::magnitude_writing::{token_of, write_magnitude, write_signed};
use crate::walk_writing::write_walk;
use std::alloc::AllocError;
use vp_bool::BoolEncoder;

/// What the token after a level depends on: its context, and the pair of the tree where its walk starts.
#[derive(Clone, Copy)]
pub(crate) struct Next {
    pub(crate) context: usize,
    pub(crate) from: usize,
}

/// Writes a level of any magnitude.
#[inline(always)]
fn write_any(row: &[u8; 11], from: usize, level: i16, e: &mut BoolEncoder) -> Result<(), AllocError>
    requires from_in { IsStart from }
    requires within { unsigned_abs level ≤ 2114 }
    ensures { OnOk result (IsLevelWritten (walk_from token_is.EndOfBlock TOKEN_TREE row.now from)
        (unsigned_abs level) level e.old e.new) }
{
    let magnitude = level.unsigned_abs();
    let token = token_of(magnitude);
    write_walk(row, from, token, e)?;
    write_magnitude(token, magnitude, e)?;
    write_signed(level, e)?;
    Ok(())
}

/// Writes that the block goes on, where that is coded, and whether its next level is nonzero.
#[inline(always)]
fn write_front(
    row: &[u8; 11],
    from: usize,
    is_nonzero: bool,
    e: &mut BoolEncoder,
) -> Result<(), AllocError>
    requires { IsStart from }
    ensures { OnOk result (Continues (walk_from token_is.EndOfBlock TOKEN_TREE row.now from)
        (if is_nonzero then nonzero row.now else give token_is.Zero) e.old e.new) }
{
    if from == 0 {
        e.write_pair(true, row[0], is_nonzero, row[1])?;
    } else {
        e.write(is_nonzero, row[1])?;
    }
    Ok(())
}

/// Writes a level, from a pair of the tree on. Magnitudes 0 and 1 have code of their own, which writes two bools at
/// once where there are two.
#[inline(always)]
pub(crate) fn write_level(
    row: &[u8; 11],
    from: usize,
    level: i16,
    e: &mut BoolEncoder,
) -> Result<Next, AllocError>
    requires from_in { IsStart from }
    requires within { unsigned_abs level ≤ 2114 }
    ensures written { OnOk result (IsLevelWritten (walk_from token_is.EndOfBlock TOKEN_TREE row.now from)
        (unsigned_abs level) level e.old e.new) }
    ensures context { IfOk result (λ next. next.context ≡ context_after (unsigned_abs level)) }
    ensures from { IfOk result (λ next. next.from ≡ pair_after (unsigned_abs level)) }
{
    let magnitude = level.unsigned_abs();
    if magnitude == 0 {
        write_front(row, from, false, e)?;
        return Ok(Next {
            context: 0,
            from: 2,
        });
    }
    if magnitude == 1 {
        write_front(row, from, true, e)?;
        e.write_pair(false, row[2], level < 0, 128)?;
        return Ok(Next {
            context: 1,
            from: 0,
        });
    }
    write_any(row, from, level, e)?;
    Ok(Next {
        context: 2,
        from: 0,
    })
}
