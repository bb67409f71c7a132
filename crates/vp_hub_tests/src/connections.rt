//! Tests of requests in one piece, and of connections whose reads and writes fail one by one.

ghost use Rattle.std.specs.Prelude.{◌≡◌, ◌≤◌};

use crate::check::equal;
use crate::hubs::{ASKS_KEY, Told, both_replies, check, hub_of_both, key_reply, last_reply, says};
use std::alloc::Global;
use std::io;
use std::io::{Read, Write};
use std::process::Abort;
use vp_base::{Counted, FailAt};
use vp_hub::{Hub, HubFault, ServeFault, serve_one};

/// Two requests, for the key packet's picture and for the inter packet's.
const BOTH: [u8; 76] =
    *b"GET /s/a/frame/0 HTTP/1.1\r\nHost: x\r\n\r\nGET /s/a/frame/1 HTTP/1.1\r\nHost: x\r\n\r\n";

/// The two requests; the first one closes the connection.
const LAST: [u8; 95] =
    *b"GET /s/a/frame/0 HTTP/1.1\r\nHost: x\r\nConnection: close\r\n\r\nGET /s/a/frame/1 HTTP/1.1\r\nHost: x\r\n\r\n";

/// The second request isn't answered if the first one closes, and no more bytes are taken.
fn says_last(rt: &impl Abort, alloc: Global, hub: &mut Hub) {
    let told = Told::Bytes(1, &LAST);
    check(rt, alloc, hub, 0, told, Ok((&last_reply(), true)));
    check(rt, alloc, hub, 1, told, Err(HubFault::Failed));
}

/// Returns how many bytes of both responses are sent after `place` bytes of the requests.
fn sent_after(place: usize) -> usize
    ensures { result ≤ 928 }
{
    match place {
        0..38 => 0,
        38..76 => 464,
        _ => 928,
    }
}

/// Sends both requests to a hub in two pieces, the first of `place` bytes. Each request is answered at its last byte.
fn says_both(rt: &impl Abort, alloc: Global, hub: &mut Hub, place: usize)
    requires { place ≤ 76 }
{
    let replies = both_replies();
    let (early, late) = replies.split_at(sent_after(place));
    says(rt, alloc, hub, place, (1, &BOTH[..place]), early);
    says(rt, alloc, hub, place, (1, &BOTH[place..]), late);
}

/// Does so with a new hub.
fn check_cut(rt: &impl Abort, alloc: Global, place: usize)
    requires { place ≤ 76 }
{
    says_both(rt, alloc, &mut hub_of_both(rt, alloc), place);
}

/// Does so with a new hub.
fn check_last(rt: &impl Abort, alloc: Global) {
    says_last(rt, alloc, &mut hub_of_both(rt, alloc));
}

#[test]
fn two_requests_in_one_piece(rt: HostRuntime) {
    check_last(&rt, rt.alloc());
    for place in 0..=76 {
        check_cut(&rt, rt.alloc(), place);
    }
}

/// A reader that gives at most `size` bytes at each read.
#[derive(Drop)]
struct Pieces<'a> {
    /// The bytes that are not read yet.
    left: &'a [u8],
    /// The maximum length of a piece in bytes.
    size: usize,
}

impl Read for Pieces<'_> {
    fn read(&mut self, buf: &mut [u8]) -> io::Result<usize> {
        let end = buf.len().min(self.size);
        self.left.read(&mut buf[..end])
    }
}

/// A writer that takes at most 64 bytes at each write.
#[derive(Drop)]
struct Narrow(Vec<u8>);

impl Write for Narrow {
    fn write(&mut self, buf: &[u8]) -> io::Result<usize> {
        let end = buf.len().min(64);
        self.0.write(&buf[..end])
    }

    fn flush(&mut self) -> io::Result<()> {
        self.0.flush()
    }
}

impl Narrow {
    /// Returns the bytes written.
    fn into_bytes(self) -> Vec<u8>
        ensures { result ≡ self.0 }
    {
        let Narrow(bytes) = self;
        bytes
    }
}

/// Serves connection 2, which sends both requests in pieces of `size` bytes. The first `reads` reads and the first
/// `writes` writes succeed, and the next one fails. Returns the result, and the bytes written.
fn served(
    alloc: Global,
    hub: &mut Hub,
    size: usize,
    reads: u64,
    writes: u64,
) -> (Result<(), ServeFault>, Vec<u8>) {
    let pieces = Pieces { left: &BOTH, size };
    let mut reader = Counted::new(FailAt::new(pieces, reads));
    let mut writer = Counted::new(FailAt::new(Narrow(Vec::new(alloc)), writes));
    let end = serve_one(hub, 2, &mut reader, &mut writer);
    (end, writer.into_inner().into_inner().into_bytes())
}

/// Fails the test if such a connection doesn't end so, or other bytes are written.
fn check_served(
    rt: &impl Abort,
    alloc: Global,
    hub: &mut Hub,
    (size, reads, writes): (usize, u64, u64),
    wanted: (Result<(), ServeFault>, &[u8]),
) {
    let (end, written) = served(alloc, hub, size, reads, writes);
    equal!(rt; (size, reads, writes, (end, written.as_slice())), (size, reads, writes, wanted));
}

const FAILED: Result<(), ServeFault> = Err(ServeFault::Device);

/// Each of the sixteen writes of 928 bytes can fail, after those before it. Each response of 464 bytes is written by
/// itself, in eight writes.
fn check_writes(rt: &impl Abort, alloc: Global, hub: &mut Hub, whole: &[u8; 928]) {
    for writes in 0..16usize {
        let length = 464 * (writes / 8) + 64 * (writes % 8);
        let calls = (76, 10, writes as u64);
        check_served(rt, alloc, hub, calls, (FAILED, &whole[..length]));
    }
}

/// Each of the twelve reads of seven bytes can fail. The first request ends in the sixth, the second in the eleventh,
/// and the last one finds the end.
fn check_reads(rt: &impl Abort, alloc: Global, hub: &mut Hub, whole: &[u8; 928]) {
    for reads in 0..12u64 {
        let length = match reads {
            0..6 => 0,
            6..11 => 464,
            _ => 928,
        };
        check_served(rt, alloc, hub, (7, reads, 100), (FAILED, &whole[..length]));
    }
}

/// The hub serves connection 2 to its end, and again after all these failures, with the minimum numbers of reads and
/// writes.
fn check_calls(rt: &impl Abort, alloc: Global, hub: &mut Hub, whole: &[u8; 928]) {
    check_served(rt, alloc, hub, (76, 10, 100), (Ok(()), whole));
    check_writes(rt, alloc, hub, whole);
    check_reads(rt, alloc, hub, whole);
    check_served(rt, alloc, hub, (7, 12, 16), (Ok(()), whole));
}

/// Another connection can still complete the request that it sent a part of before.
fn check_beside(rt: &impl Abort, alloc: Global, hub: &mut Hub) {
    says(rt, alloc, hub, 0, (1, &ASKS_KEY[..20]), b"");
    check_calls(rt, alloc, hub, &both_replies());
    says(rt, alloc, hub, 1, (1, &ASKS_KEY[20..]), &key_reply());
}

/// Does so with a new hub.
fn check_each_call(rt: &impl Abort, alloc: Global) {
    check_beside(rt, alloc, &mut hub_of_both(rt, alloc));
}

#[test]
fn each_call_of_a_connection_fails(rt: HostRuntime) {
    check_each_call(&rt, rt.alloc());
}
