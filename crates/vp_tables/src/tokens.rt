//! Tables of tokens and of coefficient positions.

ghost use Rattle.std.specs.Prelude.{◌≡◌, ◌<◌, ◌≤◌, length};
ghost use Rattle.vp_tables.specs.Tables.{band, zigzag, least_magnitude, extra_probabilities};

use crate::modes::Token;

/// The band of each coefficient position (RFC 6386, chapter 13.3).
pub const BANDS: [u8; 16] = [0, 1, 2, 3, 6, 4, 5, 6, 6, 6, 6, 6, 6, 6, 6, 7];

/// Zigzag order: the raster index of each coefficient position (chapter 13).
pub const ZIGZAG: [u8; 16] = [0, 1, 4, 8, 5, 2, 3, 6, 9, 12, 13, 10, 7, 11, 14, 15];

/// The least magnitude of each category (chapter 13.2).
pub const CATEGORY_BASES: [u16; 6] = [5, 7, 11, 19, 35, 67];

/// Probabilities of the extra bit of category 1.
const CATEGORY_1: [u8; 1] = [159];

/// Probabilities of the extra bits of category 2, most significant first.
const CATEGORY_2: [u8; 2] = [165, 145];

/// Probabilities of the extra bits of category 3, most significant first.
const CATEGORY_3: [u8; 3] = [173, 148, 140];

/// Probabilities of the extra bits of category 4, most significant first.
const CATEGORY_4: [u8; 4] = [176, 155, 140, 135];

/// Probabilities of the extra bits of category 5, most significant first.
const CATEGORY_5: [u8; 5] = [180, 157, 141, 134, 130];

/// Probabilities of the extra bits of category 6, most significant first.
const CATEGORY_6: [u8; 11] = [254, 254, 243, 230, 196, 177, 153, 140, 133, 130, 129];

/// The band of a coefficient position: 0 to 7.
#[tactic(auto, unfolding(crate::specs::Tables::band))]
pub fn band(position: usize) -> usize
    requires { position < 16 }
    ensures value { result ≡ band position }
    ensures below { result < 8 }
{
    BANDS[position] as usize
}

/// The raster index of a coefficient position: 0 to 15.
#[tactic(auto, unfolding(crate::specs::Tables::zigzag))]
pub fn zigzag(position: usize) -> usize
    requires { position < 16 }
    ensures value { result ≡ zigzag position }
    ensures below { result < 16 }
{
    ZIGZAG[position] as usize
}

/// The least magnitude that a token encodes; 0 for the end of block.
#[tactic(auto, unfolding(crate::specs::Tables::least_magnitude))]
pub fn least_magnitude(token: Token) -> u16
    ensures value { result ≡ least_magnitude token }
    ensures small { result ≤ 67 }
{
    match token {
        Token::EndOfBlock | Token::Zero => 0,
        Token::One => 1,
        Token::Two => 2,
        Token::Three => 3,
        Token::Four => 4,
        Token::Category1 => CATEGORY_BASES[0],
        Token::Category2 => CATEGORY_BASES[1],
        Token::Category3 => CATEGORY_BASES[2],
        Token::Category4 => CATEGORY_BASES[3],
        Token::Category5 => CATEGORY_BASES[4],
        Token::Category6 => CATEGORY_BASES[5],
    }
}

/// The probabilities of a token's extra bits, most significant first. Empty unless the token is a category.
#[tactic(auto, unfolding(crate::specs::Tables::extra_probabilities))]
pub fn extra_probabilities(token: Token) -> &'static [u8]
    ensures value { result.now ≡ extra_probabilities token }
    ensures few { length result.now ≤ 11 }
{
    match token {
        Token::Category1 => &CATEGORY_1,
        Token::Category2 => &CATEGORY_2,
        Token::Category3 => &CATEGORY_3,
        Token::Category4 => &CATEGORY_4,
        Token::Category5 => &CATEGORY_5,
        Token::Category6 => &CATEGORY_6,
        _ => &[],
    }
}
