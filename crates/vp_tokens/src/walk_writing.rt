//! Writing the path of a token, unrolled pair by pair as the walk is (RFC 6386, chapter 13.2).

ghost use Rattle.std.specs.Prelude.{◌≡◌, ◌⊎◌, true, false, OnOk};
ghost use Rattle.vp_bool.specs.Writing.{Writes};
ghost use Rattle.vp_tables.specs.declared.modes.Token.TheVariants as token_is;
ghost use Rattle.vp_tables.specs.declared.trees.TheConstants.{TOKEN_TREE};
ghost use Rattle.vp_tree.specs.Tree.{walk_from};
ghost use Rattle.vp_tokens.specs.Levels.{is_end};
ghost use Rattle.vp_tokens.specs.Walks.{categories_3_6, any_category, two_to_four, above_one, nonzero, more};
ghost use Rattle.vp_tokens.specs.Walks.{end_of_block};
ghost use Rattle.vp_tokens.specs.Walks.{is_categories_3_6, is_any_category, is_two_to_four, is_above_one, is_nonzero};

use std::alloc::AllocError;
use vp_bool::BoolEncoder;
use vp_tables::Token;

/// Writes a token below the pair at index 16.
#[inline(always)]
#[tactic(auto, using(vp_bool::proofs::WritingLemmas::writes), unfolding(crate::specs::Walks::categories_3_6))]
fn write_categories_3_6(row: &[u8; 11], what: Token, e: &mut BoolEncoder) -> Result<(), AllocError>
    requires { is_categories_3_6 what ≡ true }
    ensures { OnOk result (Writes (categories_3_6 row.now) e.old e.new what) }
{
    match what {
        Token::Category6 => {
            e.write(true, row[8])?;
            e.write(true, row[10])?;
        }
        Token::Category5 => {
            e.write(true, row[8])?;
            e.write(false, row[10])?;
        }
        Token::Category4 => {
            e.write(false, row[8])?;
            e.write(true, row[9])?;
        }
        _ => {
            e.write(false, row[8])?;
            e.write(false, row[9])?;
        }
    }
    Ok(())
}

/// Writes a token below the pair at index 12.
#[inline(always)]
#[tactic(auto, using(vp_bool::proofs::WritingLemmas::writes), unfolding(crate::specs::Walks::any_category))]
fn write_any_category(row: &[u8; 11], what: Token, e: &mut BoolEncoder) -> Result<(), AllocError>
    requires { is_any_category what ≡ true }
    ensures { OnOk result (Writes (any_category row.now) e.old e.new what) }
{
    match what {
        Token::Category1 => {
            e.write(false, row[6])?;
            e.write(false, row[7])?;
        }
        Token::Category2 => {
            e.write(false, row[6])?;
            e.write(true, row[7])?;
        }
        _ => {
            e.write(true, row[6])?;
            write_categories_3_6(row, what, e)?;
        }
    }
    Ok(())
}

/// Writes a token below the pair at index 8.
#[inline(always)]
#[tactic(auto, using(vp_bool::proofs::WritingLemmas::writes), unfolding(crate::specs::Walks::two_to_four))]
fn write_two_to_four(row: &[u8; 11], what: Token, e: &mut BoolEncoder) -> Result<(), AllocError>
    requires { is_two_to_four what ≡ true }
    ensures { OnOk result (Writes (two_to_four row.now) e.old e.new what) }
{
    match what {
        Token::Two => {
            e.write(false, row[4])?;
        }
        Token::Three => {
            e.write(true, row[4])?;
            e.write(false, row[5])?;
        }
        _ => {
            e.write(true, row[4])?;
            e.write(true, row[5])?;
        }
    }
    Ok(())
}

/// Writes a token below the pair at index 6.
#[inline(always)]
#[tactic(auto, using(vp_bool::proofs::WritingLemmas::writes), unfolding(crate::specs::Walks::above_one))]
fn write_above_one(row: &[u8; 11], what: Token, e: &mut BoolEncoder) -> Result<(), AllocError>
    requires { is_above_one what ≡ true }
    ensures { OnOk result (Writes (above_one row.now) e.old e.new what) }
{
    match what {
        Token::Two | Token::Three | Token::Four => {
            e.write(false, row[3])?;
            write_two_to_four(row, what, e)?;
        }
        _ => {
            e.write(true, row[3])?;
            write_any_category(row, what, e)?;
        }
    }
    Ok(())
}

/// Writes a token below the pair at index 4.
#[inline(always)]
#[tactic(auto, using(vp_bool::proofs::WritingLemmas::writes), unfolding(crate::specs::Walks::nonzero))]
fn write_nonzero(row: &[u8; 11], what: Token, e: &mut BoolEncoder) -> Result<(), AllocError>
    requires { is_nonzero what ≡ true }
    ensures { OnOk result (Writes (nonzero row.now) e.old e.new what) }
{
    match what {
        Token::One => {
            e.write(false, row[2])?;
        }
        _ => {
            e.write(true, row[2])?;
            write_above_one(row, what, e)?;
        }
    }
    Ok(())
}

/// Writes a token below the pair at index 2.
#[inline(always)]
#[tactic(auto, using(vp_bool::proofs::WritingLemmas::writes), unfolding(crate::specs::Walks::more))]
fn write_more(row: &[u8; 11], what: Token, e: &mut BoolEncoder) -> Result<(), AllocError>
    requires { is_end what ≡ false }
    ensures { OnOk result (Writes (more row.now) e.old e.new what) }
{
    match what {
        Token::Zero => {
            e.write(false, row[1])?;
        }
        _ => {
            e.write(true, row[1])?;
            write_nonzero(row, what, e)?;
        }
    }
    Ok(())
}

/// Writes whether the block ends here. After a 0 this isn't coded.
#[inline(always)]
fn write_end(row: &[u8; 11], from: usize, ends: bool, e: &mut BoolEncoder) -> Result<(), AllocError>
    requires { (from ≡ 0) ⊎ ((from ≡ 2) × (ends ≡ false)) }
    ensures { OnOk result (Writes (end_of_block row.now from) e.old e.new ends) }
{
    if from == 0 {
        e.write(!ends, row[0])?;
    }
    Ok(())
}

/// Writes a token, from a pair of the tree on.
#[inline(always)]
pub(crate) fn write_walk(
    row: &[u8; 11],
    from: usize,
    what: Token,
    e: &mut BoolEncoder,
) -> Result<(), AllocError>
    requires { (from ≡ 0) ⊎ ((from ≡ 2) × (is_end what ≡ false)) }
    ensures { OnOk result (Writes (walk_from token_is.EndOfBlock TOKEN_TREE row.now from) e.old e.new what) }
{
    if let Token::EndOfBlock = what {
        write_end(row, from, true, e)?;
    } else {
        write_end(row, from, false, e)?;
        write_more(row, what, e)?;
    }
    Ok(())
}
