//! Reading the extra bits and the sign of a level.

ghost use Rattle.std.specs.Prelude.{◌≡◌, ◌≤◌, ◌<◌, ◌^◌, length, unsigned_abs};
ghost use Rattle.vp_tables.specs.Tables.{least_magnitude};
ghost use Rattle.vp_tokens.specs.Levels.{bits, level_magnitude, signed_level};
ghost use Rattle.vp_tokens.specs.Pieces.{context_after};
ghost use Rattle.vp_tokens.specs.Walks.{context_after_token};

use vp_bool::BoolDecoder;
use vp_tables::{Token, extra_probabilities, least_magnitude};

/// Reads a number of one bit for each probability, most significant first.
#[inline(always)]
fn read_bits(probabilities: &[u8], d: &mut BoolDecoder) -> u16
    requires { length probabilities.now ≤ 11 }
    ensures value { result ≡ (bits 0 probabilities.now d.old).0 }
    ensures rest { d.new ≡ (bits 0 probabilities.now d.old).1 }
    ensures small { result < 2 ^ 11 }
{
    let mut value = 0;
    for p in probabilities {
        value = 2 * value + d.read(*p) as u16;
    }
    value
}

/// Reads the magnitude of a token that has extra bits.
#[inline(always)]
#[tactic(auto, unfolding(crate::specs::Levels::level_magnitude, vp_bool::specs::Reader::bind))]
fn read_category(token: Token, d: &mut BoolDecoder) -> u16
    ensures value { result ≡ (level_magnitude token d.old).0 }
    ensures rest { d.new ≡ (level_magnitude token d.old).1 }
    ensures small { result ≤ 2114 }
    ensures least { least_magnitude token ≤ result }
{
    let extra = read_bits(extra_probabilities(token), d);
    least_magnitude(token) + extra
}

/// Reads the magnitude of a token.
#[inline(always)]
#[tactic(auto, unfolding(crate::specs::Levels::level_magnitude, crate::specs::Levels::bits, vp_tables::specs::Tables::least_magnitude, vp_tables::specs::Tables::extra_probabilities, vp_bool::specs::Reader::bind))]
pub(crate) fn read_magnitude(token: Token, d: &mut BoolDecoder) -> u16
    ensures value { result ≡ (level_magnitude token d.old).0 }
    ensures rest { d.new ≡ (level_magnitude token d.old).1 }
    ensures small { result ≤ 2114 }
    ensures context { context_after_token token ≡ context_after result }
{
    // Each token has its own arm, so that each is compiled with its own probabilities.
    match token {
        Token::EndOfBlock | Token::Zero => 0,
        Token::One => 1,
        Token::Two => 2,
        Token::Three => 3,
        Token::Four => 4,
        Token::Category1 => read_category(Token::Category1, d),
        Token::Category2 => read_category(Token::Category2, d),
        Token::Category3 => read_category(Token::Category3, d),
        Token::Category4 => read_category(Token::Category4, d),
        Token::Category5 => read_category(Token::Category5, d),
        Token::Category6 => read_category(Token::Category6, d),
    }
}

/// The context after a token.
#[inline(always)]
pub(crate) fn context_after_token(token: Token) -> usize
    ensures value { result ≡ context_after_token token }
    ensures small { result < 3 }
{
    match token {
        Token::EndOfBlock | Token::Zero => 0,
        Token::One => 1,
        _ => 2,
    }
}

/// Reads the sign of a magnitude, unless it is 0, and returns the level.
#[inline(always)]
#[tactic(auto, unfolding(crate::specs::Levels::signed_level, vp_bool::specs::Reader::bind))]
pub(crate) fn read_signed(magnitude: u16, d: &mut BoolDecoder) -> i16
    requires { magnitude ≤ 2114 }
    ensures value { result ≡ (signed_level magnitude d.old).0 }
    ensures rest { d.new ≡ (signed_level magnitude d.old).1 }
    ensures within { unsigned_abs result ≤ 2114 }
{
    if magnitude == 0 {
        return 0;
    }
    if d.read_even() {
        -(magnitude as i16)
    } else {
        magnitude as i16
    }
}
