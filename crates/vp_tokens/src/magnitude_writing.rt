//! Writing the extra bits and the sign of a level.

ghost use Rattle.std.specs.Prelude.{◌≡◌, ◌<◌, ◌≤◌, ◌^◌, length, unsigned_abs, OnOk};
ghost use Rattle.vp_bool.specs.Writing.{Writes};
ghost use Rattle.vp_tokens.specs.Levels.{bits, level_magnitude, signed_level};
ghost use Rattle.vp_tokens.specs.Written.{IsTokenOf};

use std::alloc::AllocError;
use vp_bool::BoolEncoder;
use vp_tables::{CATEGORY_BASES, Token, extra_probabilities, least_magnitude};

/// Writes a number of one bit for each probability, most significant first.
fn write_bits(value: u16, probabilities: &[u8], e: &mut BoolEncoder) -> Result<(), AllocError>
    requires few { length probabilities.now ≤ 11 }
    requires fits { value < 2 ^ length probabilities.now }
    ensures { OnOk result (Writes (bits 0 probabilities.now) e.old e.new value) }
{
    let n = probabilities.len();
    for i in 0..n {
        let bit = (value >> (n - 1 - i)) % 2 == 1;
        e.write(bit, probabilities[i])?;
    }
    Ok(())
}

/// The token of a magnitude.
#[inline(always)]
#[tactic(auto, unfolding(vp_tables::specs::Tables::least_magnitude, vp_tables::specs::Tables::extra_probabilities))]
pub(crate) fn token_of(value: u16) -> Token
    requires { value ≤ 2114 }
    ensures { IsTokenOf result value }
{
    match value {
        0 => Token::Zero,
        1 => Token::One,
        2 => Token::Two,
        3 => Token::Three,
        4 => Token::Four,
        5..=6 => Token::Category1,
        7..=10 => Token::Category2,
        11..=18 => Token::Category3,
        19..=34 => Token::Category4,
        35..=66 => Token::Category5,
        _ => Token::Category6,
    }
}

/// Writes the extra bits of a magnitude.
#[inline(always)]
pub(crate) fn write_magnitude(
    token: Token,
    value: u16,
    e: &mut BoolEncoder,
) -> Result<(), AllocError>
    requires { IsTokenOf token value }
    ensures { OnOk result (Writes (level_magnitude token) e.old e.new value) }
{
    if value < CATEGORY_BASES[0] {
        return Ok(());
    }
    write_category(token, value, e)?;
    Ok(())
}

/// Writes the extra bits of a magnitude, as many as its token has.
#[inline(never)]
#[tactic(auto, unfolding(crate::specs::Levels::level_magnitude))]
fn write_category(token: Token, value: u16, e: &mut BoolEncoder) -> Result<(), AllocError>
    requires { IsTokenOf token value }
    ensures { OnOk result (Writes (level_magnitude token) e.old e.new value) }
{
    write_bits(
        value - least_magnitude(token),
        extra_probabilities(token),
        e,
    )?;
    Ok(())
}

/// Writes the sign of a level, unless the level is 0.
#[inline(always)]
pub(crate) fn write_signed(level: i16, e: &mut BoolEncoder) -> Result<(), AllocError>
    requires { unsigned_abs level ≤ 2114 }
    ensures { OnOk result (Writes (signed_level (unsigned_abs level)) e.old e.new level) }
{
    if level == 0 {
        return Ok(());
    }
    e.write(level < 0, 128)?;
    Ok(())
}
