//! Writes HTTP responses (RFC 9112, chapter 4).

ghost use Rattle.std.specs.Prelude.{◌≡◌, ◌++◌, ◌+◌, ◌-◌, ◌<◌, ◌≤◌, ◌∷◌, [], length, take, drop, IfOk, OnOk, codes};
ghost use Rattle.std.specs.Prelude.{true};
ghost use Rattle.std.specs.String.{string_bytes};
ghost use Rattle.vp_heads.specs.Replies.{code_of, phrase_of, phrase_line, plain_text, octets, closing_line, reply_head};
ghost use Rattle.vp_heads.specs.Replies.{reply_text, error_text, allowing, range_line, no_range_line, reply_to};
ghost use Rattle.vp_heads.specs.Replies.{part_text, too_long, Lines, Pixels, WebP, Faulted, Failed};
ghost use Rattle.vp_heads.specs.Ranges.{selected_part};

use crate::buffer::Buffer;
use crate::ranges::{Part, part_of};
use crate::request::{Request, unreadable};
use crate::status::Status;
use std::alloc::{AllocError, Global};

/// A picture: its Content-Type, and its bytes, which are `front` followed by `back`.
#[derive(Clone, Copy)]
struct Body<'a> {
    kind: &'a str,
    front: &'a [u8],
    back: &'a [u8],
}

/// Returns the head of a response with a body of `length` bytes.
#[tactic(auto, unfolding(crate::specs::Replies::reply_head))]
fn head(
    alloc: Global,
    code: u16,
    phrase: &str,
    kind: &str,
    length: usize,
    more: &str,
    close: &str,
) -> Result<String, AllocError>
    ensures { IfOk result (λ r. string_bytes r ≡ reply_head code phrase.now kind.now length more.now close.now) }
{
    format!(in alloc;
        "HTTP/1.1 {code} {phrase}\r\nContent-Type: {kind}\r\nContent-Length: {length}\r\n{more}{close}\r\n"
    )
}

fn close_line(closing: bool) -> &'static str
    ensures { result.now ≡ closing_line closing }
{
    if closing { "Connection: close\r\n" } else { "" }
}

fn put_head(
    alloc: Global,
    request: Request,
    status: Status,
    kind: &str,
    length: usize,
    more: &str,
    out: &mut Buffer,
) -> Result<(), AllocError>
    ensures { OnOk result (out.new ≡ out.old
        ++ reply_head (code_of status) (phrase_of status) kind.now length more.now (closing_line request.closing)) }
{
    let code = status.code().as_u16();
    let close = close_line(request.closing);
    let text = head(alloc, code, status.phrase(), kind, length, more, close)?;
    out.append(text.as_bytes())
}

fn put_both(front: &[u8], back: &[u8], out: &mut Buffer) -> Result<(), AllocError>
    ensures { OnOk result (out.new ≡ out.old ++ (front.now ++ back.now)) }
{
    out.append(front)?;
    out.append(back)
}

/// Appends a response whose body is one line of text.
fn put_line(
    alloc: Global,
    request: Request,
    status: Status,
    more: &str,
    line: &str,
    out: &mut Buffer,
) -> Result<(), AllocError>
    ensures { OnOk result (out.new ≡ out.old ++ reply_text request status plain_text more.now (line.now ++ 10 ∷ [])) }
{
    put_head(
        alloc,
        request,
        status,
        "text/plain",
        line.len() + 1,
        more,
        out,
    )?;
    if request.head_only {
        return Ok(());
    }
    put_both(line.as_bytes(), b"\n", out)
}

/// Appends bytes `first` to `end - 1` of the concatenation of `front` and `back`.
fn put_slice(
    front: &[u8],
    back: &[u8],
    first: usize,
    end: usize,
    out: &mut Buffer,
) -> Result<(), AllocError>
    requires order { first ≤ end }
    requires within { end ≤ length (front.now ++ back.now) }
    ensures { OnOk result (out.new ≡ out.old ++ take (end - first) (drop first (front.now ++ back.now))) }
{
    let place = front.len();
    if end <= place {
        return out.append(&front[first..end]);
    }
    if first >= place {
        return out.append(&back[first - place..end - place]);
    }
    out.append(&front[first..])?;
    out.append(&back[..end - place])
}

fn size_of(front: &[u8], back: &[u8]) -> usize
    ensures { result ≡ length (front.now ++ back.now) }
{
    front.len() + back.len()
}

/// Appends a response with the whole picture.
fn put_all(
    alloc: Global,
    request: Request,
    body: Body<'_>,
    out: &mut Buffer,
) -> Result<(), AllocError>
    ensures { OnOk result (out.new ≡ out.old ++ part_text Part.All body.entry.kind.now request
        (body.entry.front.now ++ body.entry.back.now)) }
{
    let size = size_of(body.front, body.back);
    put_head(alloc, request, Status::Good, body.kind, size, "", out)?;
    if request.head_only {
        return Ok(());
    }
    put_both(body.front, body.back, out)
}

fn range_text(alloc: Global, first: usize, last: usize, size: usize) -> Result<String, AllocError>
    ensures { IfOk result (λ r. string_bytes r ≡ range_line first last size) }
{
    format!(in alloc; "Content-Range: bytes {first}-{last}/{size}\r\n")
}

fn no_range_text(alloc: Global, size: usize) -> Result<String, AllocError>
    ensures { IfOk result (λ r. string_bytes r ≡ no_range_line size) }
{
    format!(in alloc; "Content-Range: bytes */{size}\r\n")
}

/// Appends a response with bytes `first` to `last` of the picture.
fn put_part(
    alloc: Global,
    request: Request,
    body: Body<'_>,
    first: usize,
    last: usize,
    out: &mut Buffer,
) -> Result<(), AllocError>
    requires order { first ≤ last }
    requires within { last < length (body.front.now ++ body.back.now) }
    ensures { OnOk result (out.new ≡ out.old ++ part_text (Part.Slice first last) body.entry.kind.now request
        (body.entry.front.now ++ body.entry.back.now)) }
{
    let size = size_of(body.front, body.back);
    let line = range_text(alloc, first, last, size)?;
    let length = last + 1 - first;
    put_head(
        alloc,
        request,
        Status::Partial,
        body.kind,
        length,
        line.as_str(),
        out,
    )?;
    if request.head_only {
        return Ok(());
    }
    put_slice(body.front, body.back, first, last + 1, out)
}

/// Appends the response to a range that begins after the end of the picture (416).
fn put_no_part(
    alloc: Global,
    request: Request,
    size: usize,
    out: &mut Buffer,
) -> Result<(), AllocError>
    ensures { OnOk result (out.new ≡ out.old
        ++ reply_text request Status.RangeNotSatisfiable plain_text (no_range_line size)
        (phrase_line Status.RangeNotSatisfiable)) }
{
    let status = Status::RangeNotSatisfiable;
    let line = no_range_text(alloc, size)?;
    put_line(alloc, request, status, line.as_str(), status.phrase(), out)
}

/// Appends a response whose body is text. If memory runs out, `out` may hold a part of it.
#[tactic(auto, unfolding(crate::specs::Replies::reply_to))]
pub fn put_lines(
    alloc: Global,
    request: Request,
    body: &[u8],
    out: &mut Buffer,
) -> Result<(), AllocError>
    ensures { OnOk result (out.new ≡ out.old ++ reply_to request (Lines body.now)) }
{
    put_head(
        alloc,
        request,
        Status::Good,
        "text/plain",
        body.len(),
        "",
        out,
    )?;
    if request.head_only {
        return Ok(());
    }
    out.append(body)
}

/// Appends a response whose body is a picture, or the part of it that the request asks for.
fn put_picture(
    alloc: Global,
    request: Request,
    body: Body<'_>,
    out: &mut Buffer,
) -> Result<(), AllocError>
    ensures { OnOk result (out.new ≡ out.old ++ part_text
        (selected_part request.range (length (body.entry.front.now ++ body.entry.back.now))) body.entry.kind.now request
        (body.entry.front.now ++ body.entry.back.now)) }
{
    let size = size_of(body.front, body.back);
    match part_of(request.range, size) {
        Part::All => put_all(alloc, request, body, out),
        Part::Slice(first, last) => put_part(alloc, request, body, first, last, out),
        Part::Beyond => put_no_part(alloc, request, size, out),
    }
}

/// Appends a response whose body is a picture, or the part of it that the request asks for. The picture's bytes are
/// `front` followed by `back`. If memory runs out, `out` may hold a part of the response.
#[tactic(auto, unfolding(crate::specs::Replies::reply_to))]
pub fn put_pixels(
    alloc: Global,
    request: Request,
    front: &[u8],
    back: &[u8],
    out: &mut Buffer,
) -> Result<(), AllocError>
    ensures { OnOk result (out.new ≡ out.old ++ reply_to request (Pixels (front.now ++ back.now))) }
{
    let kind = "application/octet-stream";
    put_picture(alloc, request, Body { kind, front, back }, out)
}

/// Appends a response whose body is a WebP file, or the part of it that the request asks for. If memory runs out, `out`
/// may hold a part of the response.
#[tactic(auto, unfolding(crate::specs::Replies::reply_to))]
pub fn put_webp(
    alloc: Global,
    request: Request,
    file: &[u8],
    out: &mut Buffer,
) -> Result<(), AllocError>
    ensures { OnOk result (out.new ≡ out.old ++ reply_to request (WebP file.now)) }
{
    let body = Body {
        kind: "image/webp",
        front: file,
        back: &[],
    };
    put_picture(alloc, request, body, out)
}

/// Appends the response for a packet with a fault of this name (422). If memory runs out, `out` may hold a part of it.
#[tactic(auto, unfolding(crate::specs::Replies::reply_to))]
pub fn put_faulted(
    alloc: Global,
    request: Request,
    name: &str,
    out: &mut Buffer,
) -> Result<(), AllocError>
    ensures { OnOk result (out.new ≡ out.old ++ reply_to request (Faulted name.now)) }
{
    put_line(alloc, request, Status::Unprocessable, "", name, out)
}

/// Returns the Allow field for status 405, else no bytes.
fn allowed(status: Status) -> &'static str
    ensures { result.now ≡ allowing status }
{
    match status {
        Status::MethodNotAllowed => "Allow: GET, HEAD\r\n",
        _ => "",
    }
}

/// Appends an error response. If memory runs out, `out` may hold a part of it.
#[tactic(auto, unfolding(crate::specs::Replies::reply_to))]
pub fn put_error(
    alloc: Global,
    request: Request,
    status: Status,
    out: &mut Buffer,
) -> Result<(), AllocError>
    ensures { OnOk result (out.new ≡ out.old ++ reply_to request (Failed status)) }
{
    put_line(
        alloc,
        request,
        status,
        allowed(status),
        status.phrase(),
        out,
    )
}

/// Appends the response to a head that doesn't end within 8,192 bytes (431). If memory runs out, `out` may hold a part
/// of it.
#[tactic(auto, unfolding(crate::specs::Replies::too_long))]
pub fn put_too_long(alloc: Global, out: &mut Buffer) -> Result<(), AllocError>
    ensures { OnOk result (out.new ≡ out.old ++ too_long) }
{
    let status = Status::TooLong;
    put_line(
        alloc,
        unreadable(),
        status,
        allowed(status),
        status.phrase(),
        out,
    )
}
