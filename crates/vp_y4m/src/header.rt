//! Parsing the header line.

ghost use Rattle.std.specs.Prelude.{◌≡◌, ◌==◌, ◌<◌, ◌≤◌, ◌*◌, length, position, IfSome, IfOk, IfErr, MatchOption, ◌⊎◌};
ghost use Rattle.std.specs.Char.{is_ascii_digit};
ghost use Rattle.std.specs.List.{list_all, position_or_len, before_first, after_first};
ghost use Rattle.vp_y4m.specs.declared.fault.SourceFault.{SourceFault};
ghost use Rattle.vp_y4m.specs.Header.{is_space, begins_with, text_after_kind, last_token, number_in, side_in, rate_in};
ghost use Rattle.vp_y4m.specs.Header.{size_within, option_pair, is_taken_colour, is_progressive, head_in};
ghost use Rattle.vp_y4m.specs.Shown.{outcome_model, borrowed_text, sides_of};

use crate::fault::SourceFault;
use vp_base::{Dim, Limits};

/// The fields of the header line. Its fields are public, so a value need not come from a file.
#[derive(Clone, Copy, Debug, PartialEq, Eq)]
pub struct SourceHead {
    /// The size of all pictures.
    pub dim: Dim,
    /// Frame rate numerator: `rate / scale` pictures per second.
    pub rate: u32,
    /// Frame rate denominator: `rate / scale` pictures per second.
    pub scale: u32,
}

// The index of the first occurrence of a byte.
fn place_of(text: &[u8], byte: u8) -> Option<usize>
    ensures place { result ≡ position (λ b. b == byte) text.now }
    ensures there { IfSome result (λ i. i < length text.now) }
{
    text.iter().position(|b| *b == byte)
}

// Whether the first token of the line is this word.
pub(crate) fn is_first_token(line: &[u8], word: &[u8]) -> bool
    ensures { result ≡ begins_with word.now line.now }
{
    match place_of(line, b' ') {
        Some(end) => &line[..end] == word,
        None => line == word,
    }
}

// The text of a token after its first byte, if that byte is `kind`.
fn text_after_kind(token: &[u8], kind: u8) -> Option<&[u8]>
    ensures { borrowed_text result ≡ text_after_kind kind token.now }
{
    match token {
        [first, text @ ..] if *first == kind => Some(text),
        _ => None,
    }
}

// The first token, and the text after the following space. None if the line is one token.
fn split_token(line: &[u8]) -> Option<(&[u8], &[u8])>
    ensures { MatchOption result (position_or_len is_space line.now ≡ length line.now) (λ p.
        (position_or_len is_space line.now < length line.now)
        × (p.0.now ≡ before_first is_space line.now) × (p.1.now ≡ after_first is_space line.now)) }
{
    let Some(end) = place_of(line, b' ') else {
        return None;
    };
    Some((&line[..end], &line[end + 1..]))
}

// The text of the last token of a kind.
fn last_text(line: &[u8], kind: u8) -> Option<&[u8]>
    ensures { borrowed_text result ≡ last_token kind line.now }
{
    let mut rest = line;
    let mut last = None;
    while let Some((token, behind)) = split_token(rest) {
        last = text_after_kind(token, kind).or(last);
        rest = behind;
    }
    text_after_kind(rest, kind).or(last)
}

fn all_digits(text: &[u8]) -> bool
    ensures { result ≡ list_all is_ascii_digit text.now }
{
    text.iter().all(|c| c.is_ascii_digit())
}

// Parses an unsigned decimal number.
fn number(text: &[u8]) -> Option<u32>
    ensures { result ≡ number_in text.now }
{
    if !all_digits(text) {
        return None;
    }
    let Ok(text) = std::str::from_utf8(text) else {
        return None;
    };
    text.parse::<u32>().ok()
}

// Parses the frame rate; 25:1 if there is none.
fn rate_of(text: Option<&[u8]>) -> Option<(u32, u32)>
    ensures { result ≡ rate_in (borrowed_text text.entry) }
{
    let Some(text) = text else {
        return Some((25, 1));
    };
    let colon = place_of(text, b':')?;
    let rate = number(&text[..colon])?;
    let scale = number(&text[colon + 1..])?;
    Some((rate, scale))
}

/// Parses a width or height.
fn side(text: Option<&[u8]>) -> Option<u32>
    ensures { result ≡ side_in (borrowed_text text.entry) }
{
    number(text?)
}

// The size, if both sides are valid and within the limits.
fn size_of(w: Option<u32>, h: Option<u32>, limits: Limits) -> Option<Dim>
    ensures sides { sides_of result ≡ size_within limits.pixels (option_pair w h) }
    ensures small { IfSome result (λ d. d.w * d.h ≤ limits.pixels) }
{
    let w = u16::try_from(w?).ok()?;
    let h = u16::try_from(h?).ok()?;
    Dim::new(w, h, &limits).ok()
}

/// Whether the chroma format is 8-bit 4:2:0; so if there is no token.
fn is_colour(text: Option<&[u8]>) -> bool
    ensures { result ≡ is_taken_colour (borrowed_text text.entry) }
{
    match text {
        None => true,
        Some(text) => {
            text == b"420".as_slice()
                || text == b"420jpeg".as_slice()
                || text == b"420mpeg2".as_slice()
                || text == b"420paldv".as_slice()
        }
    }
}

/// Whether the pictures are not interlaced: no token, `p`, or `?` (unknown).
fn is_frame_wise(text: Option<&[u8]>) -> bool
    ensures { result ≡ is_progressive (borrowed_text text.entry) }
{
    match text {
        None => true,
        Some(text) => text == b"p".as_slice() || text == b"?".as_slice(),
    }
}

/// Parses the header line. Returns the first fault in the order `Magic`, `Size`, `Colour`, `Interlaced`.
#[tactic(auto, unfolding(crate::specs::Header::head_in))]
pub(crate) fn read_head_line(line: &[u8], limits: Limits) -> Result<SourceHead, SourceFault>
    ensures value { outcome_model result ≡ head_in limits.pixels line.now }
    ensures faults { IfErr result (λ f. (f ≡ SourceFault.Magic) ⊎ ((f ≡ SourceFault.Size)
        ⊎ ((f ≡ SourceFault.Colour) ⊎ (f ≡ SourceFault.Interlaced)))) }
    ensures small { IfOk result (λ head. head.dim.w * head.dim.h ≤ limits.pixels) }
{
    if !is_first_token(line, b"YUV4MPEG2") {
        return Err(SourceFault::Magic);
    }
    let Some((rate, scale)) = rate_of(last_text(line, b'F')) else {
        return Err(SourceFault::Magic);
    };
    let sides = (side(last_text(line, b'W')), side(last_text(line, b'H')));
    let Some(dim) = size_of(sides.0, sides.1, limits) else {
        return Err(SourceFault::Size);
    };
    if !is_colour(last_text(line, b'C')) {
        return Err(SourceFault::Colour);
    }
    if !is_frame_wise(last_text(line, b'I')) {
        return Err(SourceFault::Interlaced);
    }
    Ok(SourceHead { dim, rate, scale })
}
