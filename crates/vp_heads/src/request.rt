//! The request in a request head.

ghost use Rattle.std.specs.Prelude.{◌≡◌, ◌==◌, ◌||◌, ◌<◌, if◌then◌else◌, All, length, map, position, IfSome};
ghost use Rattle.std.specs.List.{list_any, before_first};
ghost use Rattle.httparse.specs.Grammar.{RequestHead};
ghost use Rattle.httparse.specs.Spans.{IsRequestAt, IsRequestWithin, IsHeaderWithin, header_bytes};
ghost use Rattle.vp_heads.specs.Fields.{is_named, is_body_field};
ghost use Rattle.vp_heads.specs.Requests.{asked, asked_by, wanted_by, IsRequestFor, is_bad, is_question};
ghost use Rattle.vp_heads.specs.Requests.{unreadable as no_request};
ghost use Rattle.vp_heads.specs.Requests.{is_get as names_get, is_head as names_head};
ghost use Rattle.vp_heads.specs.Ranges.{range_in as range_is};

use crate::fields::{count_named, has_body_field, has_closing_field};
use crate::heads::read_head;
use crate::ranges::{Range, range_in};
use crate::routes::{Page, wanted_at};
use httparse::spans::{EMPTY_HEADER_SPAN, HeaderSpan, RequestSpans};
use matchit::Router;
use vp_base::ByteList;
use vp_scale::Scale;

/// The resource that a request asks for. Streams are given by their index among the names.
#[derive(Clone, Copy, Debug, PartialEq, Eq, Drop)]
pub enum Resource {
    /// A bad request: no valid head, a body, a wrong number of Host fields, or a target that isn't a path.
    Bad,
    /// A method other than GET and HEAD.
    WrongMethod,
    /// No such page or stream, or an invalid packet number.
    Missing,
    /// The list of the names of all streams.
    Streams,
    /// Information about a stream.
    Info(usize),
    /// The picture of a packet as I420.
    Frame(usize, u32),
    /// The picture of a packet as a YUV4MPEG2 file.
    Video(usize, u32),
    /// The picture of a packet, in its size or smaller, as a WebP file.
    Still(usize, u32, Scale),
}

/// A parsed request.
#[derive(Clone, Copy, Debug, PartialEq, Eq, Drop)]
pub struct Request {
    /// The resource.
    pub wanted: Resource,
    /// Whether the response has no body: the method is HEAD (RFC 9110, chapter 9.3.2).
    pub head_only: bool,
    /// Whether the connection is closed after the response.
    pub closing: bool,
    /// The byte range of a picture.
    pub range: Range,
}

fn is_get(method: &[u8]) -> bool
    ensures { result ≡ names_get method.now }
{
    method == b"GET".as_slice()
}

fn is_head(method: &[u8]) -> bool
    ensures { result ≡ names_head method.now }
{
    method == b"HEAD".as_slice()
}

/// Returns whether the connection is closed after the response: a bad request, HTTP/1.0, or a Connection field that
/// closes.
fn is_last(wanted: Resource, minor: u8, closing: bool) -> bool
    ensures { result ≡ (is_bad wanted || (minor == 0 || closing)) }
{
    matches!(wanted, Resource::Bad) || minor == 0 || closing
}

/// Returns the range for a method: only GET has one.
fn range_for(method: &[u8], bytes: &[u8], fields: &[HeaderSpan]) -> Range
    requires { All (IsHeaderWithin (length bytes.now)) fields.now }
    ensures { result ≡ (if names_get method.now then range_is
        (map (header_bytes bytes.now) fields.now) else Range.Whole) }
{
    if is_get(method) {
        range_in(bytes, fields)
    } else {
        Range::Whole
    }
}

/// Returns the resource, given the parts of a head.
#[tactic(auto, unfolding(crate::specs::Requests::wanted_by))]
fn wanted_of(
    router: &Router<Page>,
    names: &[ByteList],
    method: &[u8],
    target: &[u8],
    minor: u8,
    hosts: usize,
    body: bool,
) -> Resource
    ensures { result ≡ wanted_by router.now names.now method.now target.now minor hosts body }
{
    if body || hosts > 1 || (minor == 1 && hosts == 0) {
        return Resource::Bad;
    }
    if !is_get(method) && !is_head(method) {
        return Resource::WrongMethod;
    }
    if !target.starts_with(b"/") {
        return Resource::Bad;
    }
    wanted_at(router, names, path_of(target))
}

/// Returns the target up to a question mark: the path without the query.
fn path_of(target: &[u8]) -> &[u8]
    ensures { result.now ≡ before_first is_question target.now }
{
    match question_place(target) {
        Some(place) => &target[..place],
        None => target,
    }
}

fn question_place(target: &[u8]) -> Option<usize>
    ensures place { result ≡ position is_question target.now }
    ensures there { IfSome result (λ i. i < length target.now) }
{
    target.iter().position(|b| *b == b'?')
}

/// Returns the request, given the parts of a head.
fn judge(
    router: &Router<Page>,
    names: &[ByteList],
    bytes: &[u8],
    fields: &[HeaderSpan],
    method: &[u8],
    target: &[u8],
    minor: u8,
) -> Request
    requires { All (IsHeaderWithin (length bytes.now)) fields.now }
    ensures { result ≡ asked_by router.now names.now method.now target.now minor
        (map (header_bytes bytes.now) fields.now) }
{
    let hosts = count_named(bytes, fields, b"host");
    let body = has_body_field(bytes, fields);
    let wanted = wanted_of(router, names, method, target, minor, hosts, body);
    Request {
        wanted,
        head_only: is_head(method),
        closing: is_last(wanted, minor, has_closing_field(bytes, fields)),
        range: range_for(method, bytes, fields),
    }
}

/// Returns the request of a parsed head.
fn judge_head(
    router: &Router<Page>,
    names: &[ByteList],
    bytes: &[u8],
    room: &[HeaderSpan],
    head: RequestSpans,
) -> Request
    requires { IsRequestWithin bytes.now room.now head }
    ensures { (h : RequestHead) → IsRequestAt bytes.now room.now head h → result ≡ asked router.now names.now h }
{
    judge(
        router,
        names,
        bytes,
        &room[..head.headers],
        head.method.of(bytes),
        head.path.of(bytes),
        head.version,
    )
}

/// Returns the request in the bytes of a head, by the routes of this router, for streams with these names. No memory is
/// allocated.
pub fn read_request(router: &Router<Page>, names: &[ByteList], bytes: &[u8]) -> Request
    ensures { IsRequestFor router.now names.now bytes.now result }
{
    let mut room = [EMPTY_HEADER_SPAN; 32];
    match read_head(bytes, &mut room) {
        Some(head) => judge_head(router, names, bytes, &room, head),
        None => unreadable(),
    }
}

/// Returns the bad request for bytes that aren't a valid head.
pub(crate) fn unreadable() -> Request
    ensures { result ≡ no_request }
{
    Request {
        wanted: Resource::Bad,
        head_only: false,
        closing: true,
        range: Range::Whole,
    }
}
