//! The header fields of a request that the server looks at (RFC 9110, chapter 5).

ghost use Rattle.std.specs.Prelude.{◌≡◌, ◌==◌, ◌<◌, ◌⊎◌, All, length, reverse, map, position, count_by, codes, IfSome};
ghost use Rattle.std.specs.Prelude.{MatchOption};
ghost use Rattle.std.specs.List.{list_any, position_or_len, before_first, after_first};
ghost use Rattle.httparse.specs.Grammar.{skip_ows, trim_ows};
ghost use Rattle.httparse.specs.Spans.{IsHeaderWithin, header_bytes};
ghost use Rattle.vp_heads.specs.Fields.{is_named, is_body_field, is_comma, is_close, has_close, is_closing_field};
ghost use Rattle.vp_heads.specs.Fields.{value_of};

use httparse::spans::HeaderSpan;

/// Returns whether a field has this name, ignoring case.
fn has_name(bytes: &[u8], field: &HeaderSpan, name: &[u8]) -> bool
    requires { IsHeaderWithin (length bytes.now) field.now }
    ensures { result ≡ is_named name.now (header_bytes bytes.now field.now) }
{
    field.name.of(bytes).eq_ignore_ascii_case(name)
}

/// Returns the number of fields with this name, ignoring case.
pub(crate) fn count_named(bytes: &[u8], fields: &[HeaderSpan], name: &[u8]) -> usize
    requires { All (IsHeaderWithin (length bytes.now)) fields.now }
    ensures { result ≡ count_by (λ field. is_named name.now (header_bytes bytes.now field)) fields.now }
{
    fields
        .iter()
        .filter(|field| has_name(bytes, field, name))
        .count()
}

/// Returns the value of the first field with this name, or no bytes.
pub(crate) fn value_named<'a>(bytes: &'a [u8], fields: &[HeaderSpan], name: &[u8]) -> &'a [u8]
    requires { All (IsHeaderWithin (length bytes.now)) fields.now }
    ensures { result.now ≡ value_of name.now (map (header_bytes bytes.now) fields.now) }
{
    for field in fields {
        if has_name(bytes, field, name) {
            return field.value.of(bytes);
        }
    }
    &[]
}

/// Returns whether a field announces a body: a Transfer-Encoding, or a Content-Length other than 0.
pub(crate) fn has_body_field(bytes: &[u8], fields: &[HeaderSpan]) -> bool
    requires { All (IsHeaderWithin (length bytes.now)) fields.now }
    ensures { result ≡ list_any (λ f. is_body_field (header_bytes bytes.now f)) fields.now }
{
    fields.iter().any(|field| announces_body(field.name.of(bytes), field.value.of(bytes)))
}

fn announces_body(name: &[u8], value: &[u8]) -> bool
    ensures { result ≡ is_body_field (name.now, value.now) }
{
    name.eq_ignore_ascii_case(b"transfer-encoding")
        || (name.eq_ignore_ascii_case(b"content-length") && value != b"0".as_slice())
}

/// Returns whether a Connection field asks to close the connection.
pub(crate) fn has_closing_field(bytes: &[u8], fields: &[HeaderSpan]) -> bool
    requires { All (IsHeaderWithin (length bytes.now)) fields.now }
    ensures { result ≡ list_any (λ f. is_closing_field (header_bytes bytes.now f)) fields.now }
{
    fields.iter().any(|field| closes(field.name.of(bytes), field.value.of(bytes)))
}

fn closes(name: &[u8], value: &[u8]) -> bool
    ensures { result ≡ is_closing_field (name.now, value.now) }
{
    name.eq_ignore_ascii_case(b"connection") && names_close(value)
}

/// Returns whether an element of the comma-separated value is `close`.
fn names_close(value: &[u8]) -> bool
    ensures { result ≡ has_close value.now }
{
    let mut rest = value;
    while let Some((member, behind)) = split_member(rest) {
        if is_close_member(member) {
            return true;
        }
        rest = behind;
    }
    is_close_member(rest)
}

/// Returns whether an element is `close`, ignoring case and surrounding spaces and tabs.
fn is_close_member(member: &[u8]) -> bool
    ensures { result ≡ is_close member.now }
{
    trim(member).eq_ignore_ascii_case(b"close")
}

/// Returns the position of the first comma.
fn comma_place(value: &[u8]) -> Option<usize>
    ensures place { result ≡ position is_comma value.now }
    ensures there { IfSome result (λ i. i < length value.now) }
{
    value.iter().position(|b| *b == b',')
}

/// Splits a value at its first comma. None if there is no comma.
fn split_member(value: &[u8]) -> Option<(&[u8], &[u8])>
    ensures { MatchOption result (position_or_len is_comma value.now ≡ length value.now) (λ p.
        (position_or_len is_comma value.now < length value.now)
        × (p.0.now ≡ before_first is_comma value.now) × (p.1.now ≡ after_first is_comma value.now)) }
{
    let Some(place) = comma_place(value) else {
        return None;
    };
    Some((&value[..place], &value[place + 1..]))
}

/// Removes spaces and tabs at both ends.
#[tactic(auto, unfolding(httparse::specs::Grammar::trim_ows))]
fn trim(bytes: &[u8]) -> &[u8]
    ensures { result.now ≡ trim_ows bytes.now }
{
    skip_back(skip_front(bytes))
}

fn skip_front(bytes: &[u8]) -> &[u8]
    ensures { result.now ≡ skip_ows bytes.now }
{
    let mut rest = bytes;
    while let [b' ' | b'\t', tail @ ..] = rest {
        rest = tail;
    }
    rest
}

fn skip_back(bytes: &[u8]) -> &[u8]
    ensures { result.now ≡ reverse (skip_ows (reverse bytes.now)) }
{
    let mut rest = bytes;
    while let [front @ .., b' ' | b'\t'] = rest {
        rest = front;
    }
    rest
}
