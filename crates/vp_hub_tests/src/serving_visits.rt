//! Tests of connections served over memory.

ghost use Rattle.std.specs.Prelude.{◌≤◌};

use crate::check::equal;
use crate::hubs::{Answer, TAKEN, Told, check_all, hub_of_key, key_reply};
use std::alloc::Global;
use std::cell::Cell;
use std::io;
use std::io::{Error, ErrorKind, Read, Write};
use std::process::Abort;
use vp_base::{Counted, FailAt};
use vp_hub::{Hub, HubFault, ServeFault, serve_one};

// A request for the picture of the first packet.
const SENT: &[u8] = b"GET /s/a/frame/0 HTTP/1.1\r\nHost: x\r\n\r\n";

/// A reader that gives one byte at each read.
#[derive(Drop)]
struct Single<'a>(&'a [u8]);

impl Read for Single<'_> {
    fn read(&mut self, buf: &mut [u8]) -> io::Result<usize> {
        let end = buf.len().min(1);
        self.0.read(&mut buf[..end])
    }
}

/// Serves connection 2 over single bytes. The first `reads` reads and the first `writes` writes succeed, and the next
/// one fails. Returns the result, and the bytes written.
fn served(
    alloc: Global,
    hub: &mut Hub,
    sent: &[u8],
    (reads, writes): (u64, u64),
) -> (Result<(), ServeFault>, Vec<u8>) {
    let mut reader = Counted::new(FailAt::new(Single(sent), reads));
    let mut writer = Counted::new(FailAt::new(Vec::new(alloc), writes));
    let end = serve_one(hub, 2, &mut reader, &mut writer);
    (end, writer.into_inner().into_inner())
}

/// Fails the test if such a connection of this hub doesn't end so, or other bytes are written.
fn check_served(
    rt: &impl Abort,
    alloc: Global,
    hub: &mut Hub,
    sent: &[u8],
    calls: (u64, u64),
    wanted: (Result<(), ServeFault>, &[u8]),
) {
    let (end, written) = served(alloc, hub, sent, calls);
    equal!(rt; (calls, (end, written.as_slice())), (calls, wanted));
}

/// Serves connection 2 of a new hub that was fed a key packet, over single bytes. Fails the test if it doesn't get just
/// these.
fn check_visit(rt: &impl Abort, alloc: Global, sent: &[u8], calls: (u64, u64), wanted: &[u8]) {
    check_served(
        rt,
        alloc,
        &mut hub_of_key(rt, alloc),
        sent,
        calls,
        (Ok(()), wanted),
    );
}

#[test]
fn serve_one_in_single_bytes(rt: HostRuntime) {
    check_visit(&rt, rt.alloc(), SENT, (1000, 1000), &key_reply());
}

/// 5,000 reads of an incomplete head are accepted without a response.
#[test]
fn reads_are_not_refused(rt: HostRuntime) {
    check_visit(&rt, rt.alloc(), &[b'x'; 5000], (6000, 0), b"");
}

/// The connection is gone, so that another one with its number is accepted.
const HAS_GONE: &[(Told<'static>, Answer<'static>)] = &[
    (Told::Shut(2), Err(HubFault::UnknownConn)),
    (Told::Open(2), TAKEN),
    (Told::Shut(2), TAKEN),
];

/// Two requests for the picture of the first packet.
const TWICE: &[u8] =
    b"GET /s/a/frame/0 HTTP/1.1\r\nHost: x\r\n\r\nGET /s/a/frame/0 HTTP/1.1\r\nHost: x\r\n\r\n";

/// Returns both responses to them.
fn key_replies() -> [u8; 928] {
    let mut replies = [0; 928];
    replies[..464].copy_from_slice(&key_reply());
    replies[464..].copy_from_slice(&key_reply());
    replies
}

/// Serves two requests up to a read or a write that fails. Just this number of responses is written before.
fn fails_after(rt: &impl Abort, alloc: Global, hub: &mut Hub, calls: (u64, u64), replies: usize)
    requires { replies ≤ 2 }
{
    let whole = key_replies();
    let wanted = (Err(ServeFault::Device), &whole[..464 * replies]);
    check_served(rt, alloc, hub, TWICE, calls, wanted);
    check_all(rt, alloc, hub, HAS_GONE);
}

/// Does so with a new hub.
fn check_failure(rt: &impl Abort, alloc: Global, calls: (u64, u64), replies: usize)
    requires { replies ≤ 2 }
{
    fails_after(rt, alloc, &mut hub_of_key(rt, alloc), calls, replies);
}

#[test]
fn each_write_fails(rt: HostRuntime) {
    check_failure(&rt, rt.alloc(), (1000, 0), 0);
    check_failure(&rt, rt.alloc(), (1000, 1), 1);
}

#[test]
fn each_read_fails(rt: HostRuntime) {
    for k in 0..38 {
        check_failure(&rt, rt.alloc(), (k, 1000), 0);
        check_failure(&rt, rt.alloc(), (38 + k, 1000), 1);
    }
    check_failure(&rt, rt.alloc(), (76, 1000), 2);
}

/// A connection whose number is in use is refused, and nothing is read or written.
fn check_refused(rt: &impl Abort, alloc: Global, hub: &mut Hub) {
    let mut reader = Counted::new(SENT);
    let mut writer = Counted::new(Vec::new(alloc));
    let end = serve_one(hub, 1, &mut reader, &mut writer);
    let found = (end, reader.into_inner(), writer.into_inner().len());
    equal!(rt; found, (Err(ServeFault::Hub(HubFault::AlreadyOpen)), SENT, 0));
}

/// Does so with a new hub.
fn check_opening(rt: &impl Abort, alloc: Global) {
    check_refused(rt, alloc, &mut hub_of_key(rt, alloc));
}

#[test]
fn refused_opening_reads_nothing(rt: HostRuntime) {
    check_opening(&rt, rt.alloc());
}

/// A reader that gives the first request, and the second one only after something is written.
#[derive(Drop)]
struct Asking<'a> {
    first: &'a [u8],
    second: &'a [u8],
    written: &'a Cell<bool>,
}

impl Read for Asking<'_> {
    fn read(&mut self, buf: &mut [u8]) -> io::Result<usize> {
        if !self.first.is_empty() {
            return self.first.read(buf);
        }
        if !self.written.get() {
            return Err(Error::from(ErrorKind::Other));
        }
        self.second.read(buf)
    }
}

/// A writer that records whether something is written.
#[derive(Drop)]
struct Noting<'a>(&'a Cell<bool>);

impl Write for Noting<'_> {
    fn write(&mut self, buf: &[u8]) -> io::Result<usize> {
        self.0.set(true);
        Ok(buf.len())
    }

    fn flush(&mut self) -> io::Result<()> {
        Ok(())
    }
}

/// The first response is written before the bytes after its request are read.
fn check_turns(rt: &impl Abort, hub: &mut Hub) {
    let written = Cell::new(false);
    let mut reader = Counted::new(Asking {
        first: SENT,
        second: SENT,
        written: &written,
    });
    let mut writer = Counted::new(Noting(&written));
    equal!(rt; serve_one(hub, 2, &mut reader, &mut writer), Ok(()));
}

/// Does so with a new hub.
fn check_order(rt: &impl Abort, alloc: Global) {
    check_turns(rt, &mut hub_of_key(rt, alloc));
}

#[test]
fn replies_come_before_the_next_read(rt: HostRuntime) {
    check_order(&rt, rt.alloc());
}
