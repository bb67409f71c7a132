//! Byte ranges (RFC 9110, chapter 14).

ghost use Rattle.std.specs.Prelude.{◌≡◌, ◌<◌, ◌≤◌, All, length, map, position, IfSome};
ghost use Rattle.std.specs.List.{before_first, after_first, list_any};
ghost use Rattle.httparse.specs.Spans.{IsHeaderWithin, header_bytes};
ghost use Rattle.vp_heads.specs.Ranges.{is_dash, range_by, range_behind, range_of, IsPartWithin};
ghost use Rattle.vp_heads.specs.Ranges.{selected_part as part_is, range_in as range_is};
ghost use Rattle.vp_heads.specs.declared.ranges.Part.TheVariants.{Slice};

use crate::fields::{count_named, value_named};
use crate::numbers::count;
use httparse::spans::HeaderSpan;

/// The byte range that a Range field asks for. Bytes are counted from 0.
#[derive(Clone, Copy, Debug, PartialEq, Eq, Drop)]
pub enum Range {
    /// No valid range: the whole body.
    Whole,
    /// From the first number to the second, inclusive. It is ignored if the second is smaller.
    Between(u64, u64),
    /// From this byte to the end.
    From(u64),
    /// The last bytes; this is their number.
    Last(u64),
}

/// The part of a body that is sent.
#[derive(Clone, Copy, Debug, PartialEq, Eq, Drop)]
pub enum Part {
    /// The whole body.
    All,
    /// The bytes from the first number to the second, inclusive.
    Slice(usize, usize),
    /// Nothing: the range begins after the end of the body.
    Beyond,
}

/// Returns the part of a body of `size` bytes that a range selects.
pub fn part_of(range: Range, size: usize) -> Part
    ensures part { result ≡ part_is range size }
    ensures within { IsPartWithin size result }
{
    let length = size as u64;
    match range {
        Range::Whole => Part::All,
        Range::Between(first, last) if last < first => Part::All,
        Range::Between(first, last) if first < length => {
            Part::Slice(first as usize, last.min(length - 1) as usize)
        }
        Range::From(first) if first < length => Part::Slice(first as usize, size - 1),
        Range::Last(n) if n > 0 && size > 0 => {
            Part::Slice((length - n.min(length)) as usize, size - 1)
        }
        _ => Part::Beyond,
    }
}

/// Parses a range, given the text before the dash and after it.
fn range_between(front: &[u8], back: &[u8]) -> Range
    ensures { result ≡ range_by front.now back.now }
{
    if front.is_empty() {
        return match count(back) {
            Some(n) => Range::Last(n),
            None => Range::Whole,
        };
    }
    let Some(first) = count(front) else {
        return Range::Whole;
    };
    if back.is_empty() {
        return Range::From(first);
    }
    match count(back) {
        Some(last) => Range::Between(first, last),
        None => Range::Whole,
    }
}

fn dash_place(text: &[u8]) -> Option<usize>
    ensures place { result ≡ position is_dash text.now }
    ensures there { IfSome result (λ i. i < length text.now) }
{
    text.iter().position(|b| *b == b'-')
}

/// Parses the range after `bytes=`.
fn range_after(text: &[u8]) -> Range
    ensures { result ≡ range_behind text.now }
{
    match dash_place(text) {
        Some(place) => range_between(&text[..place], &text[place + 1..]),
        None => Range::Whole,
    }
}

/// Parses the value of a Range field.
fn read_range(value: &[u8]) -> Range
    ensures { result ≡ range_of value.now }
{
    if value.len() >= 6 && value[..6].eq_ignore_ascii_case(b"bytes=") {
        range_after(&value[6..])
    } else {
        Range::Whole
    }
}

/// Returns the range that the fields of a head ask for.
pub(crate) fn range_in(bytes: &[u8], fields: &[HeaderSpan]) -> Range
    requires { All (IsHeaderWithin (length bytes.now)) fields.now }
    ensures { result ≡ range_is (map (header_bytes bytes.now) fields.now) }
{
    if count_named(bytes, fields, b"range") == 1 && count_named(bytes, fields, b"if-range") == 0 {
        read_range(value_named(bytes, fields, b"range"))
    } else {
        Range::Whole
    }
}
