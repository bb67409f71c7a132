//! Test hubs with a handwritten stream, events of borrowed bytes, and the responses to connections.

use crate::check::equal;
use std::alloc::Global;
use std::process::Abort;
use vp_base::{ByteList, Limits};
use vp_hub::{Event, Hub, HubFault, Reply};

/// A request for the picture of packet 0.
pub const ASKS_KEY: [u8; 38] = *b"GET /s/a/frame/0 HTTP/1.1\r\nHost: x\r\n\r\n";

/// A request for the picture of packet 1.
pub const ASKS_INTER: [u8; 38] = *b"GET /s/a/frame/1 HTTP/1.1\r\nHost: x\r\n\r\n";

/// The head of an IVF file of 16 by 16 pixels, 30 pictures a second.
pub const HEAD: [u8; 32] = [
    0x44, 0x4b, 0x49, 0x46, 0, 0, 0x20, 0, 0x56, 0x50, 0x38, 0x30, 0x10, 0, 0x10, 0, 0x1e, 0, 0, 0,
    1, 0, 0, 0, 1, 0, 0, 0, 0, 0, 0, 0,
];

/// A key packet of 16 by 16 pixels without coefficients, after its frame header of twelve bytes.
pub const KEY: [u8; 22] = [
    0x0a, 0, 0, 0, 0, 0, 0, 0, 0, 0, 0, 0, 0x10, 0, 0, 0x9d, 0x01, 0x2a, 0x10, 0, 0x10, 0,
];

/// An inter packet that changes nothing, after its frame header of twelve bytes.
pub const INTER: [u8; 15] = [3, 0, 0, 0, 0, 0, 0, 0, 0, 0, 0, 0, 0x11, 0, 0];

/// The head of a response with a whole picture.
pub const LINES: &[u8] =
    b"HTTP/1.1 200 OK\r\nContent-Type: application/octet-stream\r\nContent-Length: 384\r\n\r\n";

/// The head of a response with a whole picture that closes the connection.
pub const LAST_LINES: &[u8] =
    b"HTTP/1.1 200 OK\r\nContent-Type: application/octet-stream\r\nContent-Length: 384\r\nConnection: close\r\n\r\n";

/// The response to a request for a page or packet that doesn't exist.
pub const NOT_FOUND: &[u8] =
    b"HTTP/1.1 404 Not Found\r\nContent-Type: text/plain\r\nContent-Length: 10\r\n\r\nNot Found\n";

/// The response to a bad request; it closes the connection.
pub const BAD: &[u8] =
    b"HTTP/1.1 400 Bad Request\r\nContent-Type: text/plain\r\nContent-Length: 12\r\n\
    Connection: close\r\n\r\nBad Request\n";

/// An event with borrowed bytes.
#[derive(Clone, Copy, Debug, PartialEq)]
pub(crate) enum Told<'a> {
    Feed(&'a [u8], &'a [u8]),
    End(&'a [u8]),
    Open(u32),
    Bytes(u32, &'a [u8]),
    Shut(u32),
}

/// The answer to an event: the bytes of the response and whether the connection is closed, or why it is refused.
pub(crate) type Answer<'a> = Result<(&'a [u8], bool), HubFault>;

/// The answer to an event that is accepted without a response.
pub(crate) const TAKEN: Answer<'static> = Ok((b"", false));

/// Copies bytes to a list.
pub(crate) fn list(rt: &impl Abort, alloc: Global, bytes: &[u8]) -> ByteList {
    ByteList::from_vec(bytes.to_vec(alloc).expect(rt, "memory"))
}

/// Returns a file's head, the key packet and the inter packet, each packet after its frame header of twelve bytes.
pub(crate) fn parts() -> [&'static [u8]; 3] {
    [&HEAD, &KEY, &INTER]
}

/// Copies names to a list.
pub(crate) fn names_of(rt: &impl Abort, alloc: Global, names: &[&[u8]]) -> Vec<ByteList> {
    let mut list_of_names = Vec::new(alloc);
    for name in names {
        list_of_names
            .push(list(rt, alloc, name))
            .expect(rt, "memory");
    }
    list_of_names
}

/// Returns a hub for streams with these names. The first name is `a`; that stream is fed these pieces. The hub caches
/// `cache` pictures of at most 16,384 pixels. Connections 1 and 3 are open.
pub(crate) fn named_hub(
    rt: &impl Abort,
    alloc: Global,
    names: &[&[u8]],
    fed: &[&[u8]],
    cache: u32,
) -> Hub {
    let limits = Limits::new(16_384, 16_384, 100, cache).expect(rt, "limits");
    let mut hub = Hub::new(alloc, names_of(rt, alloc, names), limits).expect(rt, "a hub");
    begin(rt, alloc, &mut hub, fed);
    hub
}

/// Returns such a hub for one stream.
pub(crate) fn hub_of(rt: &impl Abort, alloc: Global, fed: &[&[u8]], cache: u32) -> Hub {
    named_hub(rt, alloc, &[b"a"], fed, cache)
}

/// Returns such a hub for one stream, which was fed both packets. It caches one picture.
pub(crate) fn hub_of_both(rt: &impl Abort, alloc: Global) -> Hub {
    hub_of(rt, alloc, &parts(), 1)
}

/// Returns such a hub for one stream, which was fed the key packet. It caches sixteen pictures.
pub(crate) fn hub_of_key(rt: &impl Abort, alloc: Global) -> Hub {
    hub_of(rt, alloc, &parts()[..2], 16)
}

/// Returns such a hub for one stream, which was fed nothing. It caches one picture.
pub(crate) fn hub_of_none(rt: &impl Abort, alloc: Global) -> Hub {
    hub_of(rt, alloc, &[], 1)
}

/// Opens connections 1 and 3, and feeds these pieces to the stream `a`.
pub(crate) fn begin(rt: &impl Abort, alloc: Global, hub: &mut Hub, fed: &[&[u8]]) {
    pass(rt, alloc, hub, Told::Open(1));
    pass(rt, alloc, hub, Told::Open(3));
    for piece in fed {
        pass(rt, alloc, hub, Told::Feed(b"a", piece));
    }
}

/// Converts the event to one with bytes of its own.
pub(crate) fn event_of(rt: &impl Abort, alloc: Global, told: Told<'_>) -> Event {
    match told {
        Told::Feed(name, bytes) => { Event::Feed(list(rt, alloc, name), list(rt, alloc, bytes)) }
        Told::End(name) => Event::End(list(rt, alloc, name)),
        Told::Open(number) => Event::Open(number),
        Told::Bytes(number, bytes) => Event::Bytes(number, list(rt, alloc, bytes)),
        Told::Shut(number) => Event::Shut(number),
    }
}

/// Hands an event to the hub.
pub(crate) fn tell(
    rt: &impl Abort,
    alloc: Global,
    hub: &mut Hub,
    told: Told<'_>,
) -> Result<Reply, HubFault> {
    hub.step(&event_of(rt, alloc, told))
}

/// Hands an event to the hub, whatever is answered.
pub(crate) fn pass(rt: &impl Abort, alloc: Global, hub: &mut Hub, told: Told<'_>) {
    let _ = tell(rt, alloc, hub, told);
}

/// Returns an answer with borrowed bytes.
pub(crate) fn answer_of(found: &Result<Reply, HubFault>) -> Answer<'_> {
    match found {
        Ok(reply) => Ok((reply.bytes.as_slice(), reply.close)),
        Err(fault) => Err(*fault),
    }
}

/// Fails the test if this is not the answer to an event. `case` and the event tell which one it is.
pub(crate) fn check_answer(
    rt: &impl Abort,
    case: usize,
    told: Told<'_>,
    found: &Result<Reply, HubFault>,
    wanted: Answer<'_>,
) {
    equal!(rt; (case, told, answer_of(found)), (case, told, wanted));
}

/// Hands an event to the hub, and fails the test if it isn't answered so.
pub(crate) fn check(
    rt: &impl Abort,
    alloc: Global,
    hub: &mut Hub,
    case: usize,
    told: Told<'_>,
    wanted: Answer<'_>,
) {
    check_answer(rt, case, told, &tell(rt, alloc, hub, told), wanted);
}

/// Hands events to the hub one after another, and fails the test at the first one that isn't answered as its row says.
pub(crate) fn check_all(
    rt: &impl Abort,
    alloc: Global,
    hub: &mut Hub,
    rows: &[(Told<'_>, Answer<'_>)],
) {
    for (row, (told, wanted)) in rows.iter().enumerate() {
        check(rt, alloc, hub, row, *told, *wanted);
    }
}

/// Connection `number` sends bytes. Fails the test if they aren't answered by just these, or the connection is closed.
pub(crate) fn says(
    rt: &impl Abort,
    alloc: Global,
    hub: &mut Hub,
    case: usize,
    (number, bytes): (u32, &[u8]),
    reply: &[u8],
) {
    check(
        rt,
        alloc,
        hub,
        case,
        Told::Bytes(number, bytes),
        Ok((reply, false)),
    );
}

/// The key packet's picture: luma rows 0 to 3 are 128, rows 4 to 15 are 129, chroma is 128.
fn key_picture() -> [u8; 384] {
    let mut bytes = [128; 384];
    bytes[64..256].fill(129);
    bytes
}

/// The response with the key packet's picture.
pub(crate) fn key_reply() -> [u8; 464] {
    let mut bytes = [0; 464];
    bytes[..80].copy_from_slice(LINES);
    bytes[80..].copy_from_slice(&key_picture());
    bytes
}

/// The response with the key packet's picture if it closes the connection.
pub(crate) fn last_reply() -> [u8; 483] {
    let mut bytes = [0; 483];
    bytes[..99].copy_from_slice(LAST_LINES);
    bytes[99..].copy_from_slice(&key_picture());
    bytes
}

/// The response with the key packet's picture, and after it the one with the inter packet's: 128 everywhere. Each has a
/// head of 80 bytes and a picture of 384.
pub(crate) fn both_replies() -> [u8; 928] {
    let mut bytes = [128; 928];
    bytes[..464].copy_from_slice(&key_reply());
    bytes[464..544].copy_from_slice(LINES);
    bytes
}
