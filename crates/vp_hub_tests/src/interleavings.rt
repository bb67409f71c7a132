//! Tests of connections and a stream whose bytes are interleaved: each connection is answered as if it were alone.

use crate::check::equal;
use crate::hubs::{
    ASKS_INTER, ASKS_KEY, Answer, BAD, HEAD, KEY, NOT_FOUND, TAKEN, Told, answer_of, both_replies,
    check, check_all, hub_of, key_reply, parts, says, tell,
};
use Turn::{First, Second, Stream, Third};
use std::alloc::Global;
use std::process::Abort;
use vp_hub::{Hub, HubFault, Reply};

/// A client that sends one byte in each turn.
#[derive(Drop)]
struct Peer<'a> {
    number: u32,
    left: &'a [u8],
    got: Vec<u8>,
}

/// Records a response.
fn record(rt: &impl Abort, got: &mut Vec<u8>, answer: &Result<Reply, HubFault>) {
    let (bytes, _) = answer_of(answer).expect(rt, "a response");
    got.extend_from_slice(bytes).expect(rt, "memory");
}

/// A client's turn: its next byte, if there is one, is sent, and the response is recorded.
fn speak(rt: &impl Abort, alloc: Global, hub: &mut Hub, peer: &mut Peer<'_>) {
    if let Some((byte, rest)) = peer.left.split_first() {
        peer.left = rest;
        let told = Told::Bytes(peer.number, &[*byte]);
        record(rt, &mut peer.got, &tell(rt, alloc, hub, told));
    }
}

/// A bad request.
const BAD_REQUEST: &[u8] = b"GET /streams HTTP/1.1\r\n\r\n";

/// Connection 2 is opened, refused a second opening, sends a bad request, is refused more bytes, is shut, and is
/// refused a second shutting.
const THIRD_COMES: &[(Told<'static>, Answer<'static>)] = &[
    (Told::Open(2), TAKEN),
    (Told::Open(2), Err(HubFault::AlreadyOpen)),
    (Told::Bytes(2, BAD_REQUEST), Ok((BAD, true))),
    (Told::Bytes(2, BAD_REQUEST), Err(HubFault::Failed)),
    (Told::Shut(2), TAKEN),
    (Told::Shut(2), Err(HubFault::UnknownConn)),
    (Told::Bytes(2, BAD_REQUEST), Err(HubFault::UnknownConn)),
];

/// Two connections, and the bytes that are left of a stream.
#[derive(Drop)]
struct Speakers<'a> {
    first: Peer<'a>,
    second: Peer<'a>,
    stream: &'a [u8],
}

/// The stream's turn: its next byte, if there is one, is fed.
fn grow(rt: &impl Abort, alloc: Global, hub: &mut Hub, stream: &mut &[u8]) {
    if let Some((byte, rest)) = stream.split_first() {
        *stream = rest;
        check(rt, alloc, hub, 0, Told::Feed(b"a", &[*byte]), TAKEN);
    }
}

/// A participant whose turn it is.
#[derive(Clone, Copy)]
enum Turn {
    First,
    Second,
    Stream,
    /// The connection that is opened and shut again.
    Third,
}

/// Takes one turn.
fn take(rt: &impl Abort, alloc: Global, hub: &mut Hub, speakers: &mut Speakers<'_>, turn: Turn) {
    match turn {
        First => speak(rt, alloc, hub, &mut speakers.first),
        Second => speak(rt, alloc, hub, &mut speakers.second),
        Stream => grow(rt, alloc, hub, &mut speakers.stream),
        Third => check_all(rt, alloc, hub, THIRD_COMES),
    }
}

/// Another key packet and inter packet, each after its frame header of twelve bytes.
const MORE: [u8; 37] = [
    10, 0, 0, 0, 0, 0, 0, 0, 0, 0, 0, 0, 0x10, 0, 0, 0x9d, 0x01, 0x2a, 0x10, 0, 0x10, 0, 3, 0, 0,
    0, 0, 0, 0, 0, 0, 0, 0, 0, 0x11, 0, 0,
];

const ASKS_INFO: &[u8] = b"GET /s/a/info HTTP/1.1\r\nHost: x\r\n\r\n";

const INFO: &[u8] = b"HTTP/1.1 200 OK\r\nContent-Type: text/plain\r\nContent-Length: 42\r\n\r\n\
    state open\npackets 4\nsize 16x16\nrate 30/1\n";

const ASKS_LAST: &[u8] = b"GET /s/a/frame/3 HTTP/1.1\r\nHost: x\r\n\r\n";

/// Returns a client that sends these bytes.
fn new_peer(alloc: Global, number: u32, left: &[u8]) -> Peer<'_> {
    Peer {
        number,
        left,
        got: Vec::new(alloc),
    }
}

/// Two connections request two pictures in turns of this order, while the stream grows and a third connection is opened
/// and shut. The turns are repeated until no bytes are left: each participant has at most 38 bytes, and a turn in every
/// eight. Fails the test if one isn't answered with its picture. `case` is the number of the order.
fn ask_in_turns(rt: &impl Abort, alloc: Global, hub: &mut Hub, case: usize, order: [Turn; 8]) {
    let mut speakers = Speakers {
        first: new_peer(alloc, 1, &ASKS_KEY),
        second: new_peer(alloc, 3, &ASKS_INTER),
        stream: &MORE,
    };
    for number in 0..8 * 38 {
        take(rt, alloc, hub, &mut speakers, order[number % 8]);
    }
    check_got(rt, case, &speakers);
}

/// Fails the test if a connection didn't get its picture.
fn check_got(rt: &impl Abort, case: usize, speakers: &Speakers<'_>) {
    let both = both_replies();
    let got = (
        case,
        speakers.first.got.as_slice(),
        speakers.second.got.as_slice(),
    );
    equal!(rt; got, (case, &both[..464], &both[464..]));
}

/// The connections are answered, and the stream has four packets then, the last of which is shown.
fn check_order(rt: &impl Abort, alloc: Global, hub: &mut Hub, case: usize, order: [Turn; 8]) {
    ask_in_turns(rt, alloc, hub, case, order);
    says(rt, alloc, hub, case, (1, ASKS_INFO), INFO);
    says(rt, alloc, hub, case, (3, ASKS_LAST), &both_replies()[464..]);
}

/// Does so with a new hub that keeps this number of pictures.
fn check_turns(rt: &impl Abort, alloc: Global, cache: u32, case: usize, order: [Turn; 8]) {
    check_order(
        rt,
        alloc,
        &mut hub_of(rt, alloc, &parts(), cache),
        case,
        order,
    );
}

/// Orders of turns.
const ORDERS: &[[Turn; 8]] = &[
    [First, Second, Stream, Third, First, Second, Stream, Third],
    [Third, Stream, Second, First, Third, Stream, Second, First],
    [Stream, Second, Third, Third, First, Second, First, Stream],
    [First, First, First, First, Second, Second, Third, Stream],
    [Second, Third, Second, Stream, Stream, Stream, Stream, First],
    [
        First, Stream, Stream, Second, Second, Second, Second, Second,
    ],
];

/// One picture is kept, then two.
#[test]
fn bytes_in_turn(rt: HostRuntime) {
    for (case, order) in ORDERS.iter().enumerate() {
        check_turns(&rt, rt.alloc(), 1, case, *order);
        check_turns(&rt, rt.alloc(), 2, case, *order);
    }
}

/// Sends `place` bytes of a request, feeds the rest of a file, and sends the other bytes; `early` and `late` are
/// the answers. The picture is available to another connection after the last bytes of the file, and not before.
fn ask_around(
    rt: &impl Abort,
    alloc: Global,
    hub: &mut Hub,
    rest: &[u8],
    place: usize,
    (early, late): (&[u8], &[u8]),
) {
    let (first, second) = ASKS_KEY.split_at(place.min(38));
    says(rt, alloc, hub, place, (3, &ASKS_KEY), NOT_FOUND);
    says(rt, alloc, hub, place, (1, first), early);
    check(rt, alloc, hub, place, Told::Feed(b"a", rest), TAKEN);
    says(rt, alloc, hub, place, (1, second), late);
    says(rt, alloc, hub, place, (3, &ASKS_KEY), &key_reply());
}

/// The request is answered at its last byte: with 404 if that is before the last bytes of the file.
fn check_around(rt: &impl Abort, alloc: Global, hub: &mut Hub, rest: &[u8], place: usize) {
    if place == 38 {
        ask_around(rt, alloc, hub, rest, place, (NOT_FOUND, b""));
    } else {
        ask_around(rt, alloc, hub, rest, place, (b"", &key_reply()));
    }
}

/// Does so with a new hub that was fed the beginning of a file.
fn check_fed(rt: &impl Abort, alloc: Global, begun: &[&[u8]], rest: &[u8], place: usize) {
    check_around(rt, alloc, &mut hub_of(rt, alloc, begun, 1), rest, place);
}

#[test]
fn fed_between_each_two_bytes(rt: HostRuntime) {
    for place in 0..=38 {
        check_fed(&rt, rt.alloc(), &[&HEAD, &KEY[..21]], &KEY[21..], place);
    }
}

/// The file's head and its key packet in one piece.
#[test]
fn whole_file_fed_between(rt: HostRuntime) {
    let mut file = [0; 54];
    file[..32].copy_from_slice(&HEAD);
    file[32..].copy_from_slice(&KEY);
    for place in 0..=38 {
        check_fed(&rt, rt.alloc(), &[], &file, place);
    }
}
