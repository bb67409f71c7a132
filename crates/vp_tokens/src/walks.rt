//! The walk of the token tree, unrolled (RFC 6386, chapter 13.2).
ghost use Rattle.std.specs.Prelude.{◌≡◌};
ghost use Rattle.vp_tokens.specs.Walks.{categories_3_6, any_category, two_to_four, above_one, nonzero, end_of_block};

use vp_bool::BoolDecoder;
use vp_tables::Token;

/// The walk from the pair at index 16.
#[inline(always)]
#[tactic(auto, unfolding(crate::specs::Walks::categories_3_6, vp_bool::specs::Reader::bind))]
fn categories_3_6(row: &[u8; 11], d: &mut BoolDecoder) -> Token
    ensures value { result ≡ (categories_3_6 row.now d.old).0 }
    ensures rest { d.new ≡ (categories_3_6 row.now d.old).1 }
{
    if d.read(row[8]) {
        if d.read(row[10]) {
            Token::Category6
        } else {
            Token::Category5
        }
    } else if d.read(row[9]) {
        Token::Category4
    } else {
        Token::Category3
    }
}

/// The walk from the pair at index 12.
#[inline(always)]
#[tactic(auto, unfolding(crate::specs::Walks::any_category, vp_bool::specs::Reader::bind))]
fn any_category(row: &[u8; 11], d: &mut BoolDecoder) -> Token
    ensures value { result ≡ (any_category row.now d.old).0 }
    ensures rest { d.new ≡ (any_category row.now d.old).1 }
{
    if d.read(row[6]) {
        categories_3_6(row, d)
    } else if d.read(row[7]) {
        Token::Category2
    } else {
        Token::Category1
    }
}

/// The walk from the pair at index 8.
#[inline(always)]
#[tactic(auto, unfolding(crate::specs::Walks::two_to_four, vp_bool::specs::Reader::bind))]
fn two_to_four(row: &[u8; 11], d: &mut BoolDecoder) -> Token
    ensures value { result ≡ (two_to_four row.now d.old).0 }
    ensures rest { d.new ≡ (two_to_four row.now d.old).1 }
{
    if d.read(row[4]) {
        if d.read(row[5]) {
            Token::Four
        } else {
            Token::Three
        }
    } else {
        Token::Two
    }
}

/// The walk from the pair at index 6.
#[inline(always)]
#[tactic(auto, unfolding(crate::specs::Walks::above_one, vp_bool::specs::Reader::bind))]
fn above_one(row: &[u8; 11], d: &mut BoolDecoder) -> Token
    ensures value { result ≡ (above_one row.now d.old).0 }
    ensures rest { d.new ≡ (above_one row.now d.old).1 }
{
    if d.read(row[3]) {
        any_category(row, d)
    } else {
        two_to_four(row, d)
    }
}

/// The walk from the pair at index 4.
#[inline(always)]
#[tactic(auto, unfolding(crate::specs::Walks::nonzero, vp_bool::specs::Reader::bind))]
pub(crate) fn nonzero(row: &[u8; 11], d: &mut BoolDecoder) -> Token
    ensures value { result ≡ (nonzero row.now d.old).0 }
    ensures rest { d.new ≡ (nonzero row.now d.old).1 }
{
    if d.read(row[2]) {
        above_one(row, d)
    } else {
        Token::One
    }
}

/// Reads whether the block ends here. After a 0 this isn't coded.
#[inline(always)]
#[tactic(auto, unfolding(crate::specs::Walks::end_of_block, vp_bool::specs::Reader::bind))]
pub(crate) fn end_of_block(row: &[u8; 11], d: &mut BoolDecoder) -> bool
    ensures value { result ≡ (end_of_block row.now 0 d.old).0 }
    ensures rest { d.new ≡ (end_of_block row.now 0 d.old).1 }
{
    !d.read(row[0])
}
