//! The server over scripts: one for each way in which a connection goes, and one for a file that grows.

use crate::check::equal;
use crate::entry::Entry;
use crate::script::{Input, Piece, Room, Script, Scripted};
use std::alloc::{AllocError, Global};
use std::fmt::Write;
use std::process::Abort;
use vp_base::{ByteList, Limits};
use vp_hub::Hub;
use vp_serve::{ServeOptions, ServerLoop, Transport, catch_up, serve, take_turn};

/// A request for the names of the streams.
const ASKS: &[u8] = b"GET /streams HTTP/1.1\r\nHost: x\r\n\r\n";

/// A request for the names of the streams that closes the connection, and a second request after it.
const LAST: &[u8] =
    b"GET /streams HTTP/1.1\r\nHost: x\r\nConnection: close\r\n\r\nGET /streams HTTP/1.1\r\nHost: x\r\n\r\n";

/// A script in which nothing happens.
const NOTHING: Script = Script {
    waiting: 0,
    tick: 600,
    inputs: &[],
    rooms: &[],
    pieces: &[],
};

/// What passes if the reply is written in two parts.
const TWO_PARTS: &str = "waits
accepts 0
reads 0 GET /streams HTTP/1.1\r
Host: x\r
\r

writes 0 HTTP/1.1 200 OK
writes 0 \r
Content-Type: text/plain\r
Content-Length: 2\r
\r
a

peer ends 0
closes 0 PeerEnded
";

/// What passes if the request is read in two parts.
const TWO_READS: &str = "waits
accepts 0
reads 0 GET /streams HTTP/1.1\r
Ho
waits
reads 0 st: x\r
\r

writes 0 HTTP/1.1 200 OK\r
Content-Type: text/plain\r
Content-Length: 2\r
\r
a

peer ends 0
closes 0 PeerEnded
";

/// What passes if the first of two requests closes the connection.
const FINISHED: &str = "waits
accepts 0
reads 0 GET /streams HTTP/1.1\r
Host: x\r
Connection: close\r
\r
GET /streams HTTP/1.1\r
Host: x\r
\r

writes 0 HTTP/1.1 200 OK\r
Content-Type: text/plain\r
Content-Length: 2\r
Connection: close\r
\r
a

closes 0 Finished
";

/// What passes if the read of a connection fails, and then the write of the next one.
const FAILURES: &str = "waits
accepts 0
fails 0
closes 0 TransferFailed
accepts 1
reads 1 GET /streams HTTP/1.1\r
Host: x\r
\r

fails 1
closes 1 TransferFailed
";

/// What passes if a connection sends nothing.
const IDLE: &str = "waits\naccepts 0\nwaits\nwaits\nwaits\ncloses 0 IdleTimeout\n";

/// What passes if a file grows by two pieces, the second of which shows that it is no VP8 file.
const FILE: &str = "grows 0 a DKIF
grows 0 a     rubbish, which is no head of a file
waits
accepts 0
reads 0 GET /s/a/info HTTP/1.1\r
Host: x\r
\r

writes 0 HTTP/1.1 200 OK\r
Content-Type: text/plain\r
Content-Length: 22\r
\r
state Codec
packets 0

peer ends 0
closes 0 PeerEnded
";

/// Returns options with these limits.
pub(crate) fn options(max_connections: usize, total_connections: u32) -> ServeOptions {
    ServeOptions {
        max_connections,
        total_connections,
        idle_timeout: 1000,
        poll_interval: 100,
    }
}

/// Returns the name of the one stream, `a`.
pub(crate) fn names(alloc: Global) -> Result<Vec<ByteList>, AllocError> {
    let mut names = Vec::new(alloc);
    names.push(ByteList::from_vec(b"a".to_vec(alloc)?))?;
    Ok(names)
}

/// A server of one stream, `a`, which was fed nothing.
pub(crate) fn server(alloc: Global, options: ServeOptions) -> Option<ServerLoop> {
    let names = names(alloc).ok()?;
    let hub = Hub::new(alloc, names, Limits::usual()).ok()?;
    Some(ServerLoop::new(alloc, hub, options))
}

/// Returns what passed, a line for each entry.
fn text_of(rt: &impl Abort, alloc: Global, log: &[Entry]) -> String {
    let mut text = String::new(alloc);
    for entry in log {
        write!(text, "{entry}").expect(rt, "memory");
    }
    text
}

/// Fails the test if this is not what passed.
fn check_log(rt: &impl Abort, alloc: Global, log: &[Entry], wanted: &str) {
    equal!(rt; text_of(rt, alloc, log).as_str(), wanted);
}

/// Returns whether a new server of one stream serves all connections of a transport.
pub(crate) fn serves_all<T: Transport>(
    alloc: Global,
    options: ServeOptions,
    transport: &mut T,
) -> bool {
    match server(alloc, options) {
        Some(mut server) => serve(alloc, &mut server, transport, &[]),
        None => false,
    }
}

/// Fails the test if a server doesn't serve a script to its end, or other than this passes.
fn check(rt: &impl Abort, alloc: Global, options: ServeOptions, script: Script, wanted: &str) {
    let mut transport = Scripted::new(rt, alloc, script);
    equal!(rt; serves_all(alloc, options, &mut transport), true);
    check_log(rt, alloc, transport.log(), wanted);
}

#[test]
fn reply_is_written_in_two_parts(rt: HostRuntime) {
    let script = Script {
        waiting: 1,
        inputs: &[Input::Bytes(ASKS), Input::End],
        rooms: &[Room::Bytes(15), Room::Block],
        ..NOTHING
    };
    check(&rt, rt.alloc(), options(1, 1), script, TWO_PARTS);
}

#[test]
fn request_is_read_in_two_parts(rt: HostRuntime) {
    let script = Script {
        waiting: 1,
        inputs: &[
            Input::Bytes(b"GET /streams HTTP/1.1\r\nHo"),
            Input::Block,
            Input::Bytes(b"st: x\r\n\r\n"),
            Input::End,
        ],
        ..NOTHING
    };
    check(&rt, rt.alloc(), options(1, 1), script, TWO_READS);
}

#[test]
fn closing_reply_is_the_last(rt: HostRuntime) {
    let script = Script {
        waiting: 1,
        inputs: &[Input::Bytes(LAST)],
        ..NOTHING
    };
    check(&rt, rt.alloc(), options(1, 1), script, FINISHED);
}

#[test]
fn failures_close_one_connection(rt: HostRuntime) {
    let script = Script {
        waiting: 2,
        inputs: &[Input::Fail, Input::Bytes(ASKS)],
        rooms: &[Room::Fail],
        ..NOTHING
    };
    check(&rt, rt.alloc(), options(1, 2), script, FAILURES);
}

#[test]
fn idle_connection_is_closed(rt: HostRuntime) {
    let script = Script {
        waiting: 1,
        ..NOTHING
    };
    check(&rt, rt.alloc(), options(1, 1), script, IDLE);
}

/// Returns how many connections a new server has after two turns.
fn open_after_two_turns<T: Transport>(
    alloc: Global,
    options: ServeOptions,
    transport: &mut T,
) -> usize {
    let Some(mut server) = server(alloc, options) else {
        return 0;
    };
    take_turn(alloc, &mut server, transport, 0);
    take_turn(alloc, &mut server, transport, 0);
    server.connection_count()
}

/// The hub refuses the 65th connection, which is then closed at once.
#[test]
fn hub_refuses_one_too_many(rt: HostRuntime) {
    let script = Script {
        waiting: 65,
        ..NOTHING
    };
    let mut transport = Scripted::new(&rt, rt.alloc(), script);
    let open = open_after_two_turns(rt.alloc(), options(65, 65), &mut transport);
    equal!(&rt; open, 64);
    let last = transport.log().get(64..).unwrap_or(&[]);
    check_log(&rt, rt.alloc(), last, "accepts 64\ncloses 64 HubRefused\n");
}

/// Returns whether a new server reads the files of a transport, and then serves all its connections.
fn serves_files<T: Transport>(alloc: Global, transport: &mut T) -> bool {
    let (Some(mut server), Ok(names)) = (server(alloc, options(1, 1)), names(alloc)) else {
        return false;
    };
    catch_up(alloc, &mut server, transport, &names);
    serve(alloc, &mut server, transport, &names)
}

/// The pieces of a file are fed, and a request for the stream is answered by them.
#[test]
fn file_is_fed(rt: HostRuntime) {
    let script = Script {
        waiting: 1,
        inputs: &[
            Input::Bytes(b"GET /s/a/info HTTP/1.1\r\nHost: x\r\n\r\n"),
            Input::End,
        ],
        pieces: &[
            Piece(b"DKIF"),
            Piece(b"    rubbish, which is no head of a file"),
        ],
        ..NOTHING
    };
    let mut transport = Scripted::new(&rt, rt.alloc(), script);
    equal!(&rt; serves_files(rt.alloc(), &mut transport), true);
    check_log(&rt, rt.alloc(), transport.log(), FILE);
}

/// The head of an IVF file of 16 by 16 pixels, 30 pictures a second.
const HEAD: &[u8] = b"DKIF\0\0\x20\0VP80\x10\0\x10\0\x1e\0\0\0\x01\0\0\0\x01\0\0\0\0\0\0\0";

/// A key packet of 16 by 16 pixels without coefficients, after its frame header of twelve bytes.
const KEY: &[u8] = b"\x0a\0\0\0\0\0\0\0\0\0\0\0\x10\0\0\x9d\x01\x2a\x10\0\x10\0";

/// An inter packet that changes nothing, after its frame header of twelve bytes.
const INTER: &[u8] = b"\x03\0\0\0\0\0\0\0\0\0\0\0\x11\0\0";

/// What is reported of two requests one after the other in three pieces, the first after a blank line, and of one for a
/// stream that there isn't.
const TOLD: &str = "200 0 GET /s/a/frame/1 HTTP/1.1: 200, 464 bytes, 2 packets
400 0 GET /streams HTTP/1.1: 200, 66 bytes, 0 packets
500 0 GET /s/b/info HTTP/1.1: 404, 82 bytes, 0 packets
";

/// A file of two packets is fed, and then each reply is reported.
#[test]
fn replies_are_told(rt: HostRuntime) {
    let script = Script {
        waiting: 1,
        tick: 100,
        inputs: &[
            Input::Bytes(b"\r\nGET /s/a/fra"),
            Input::Bytes(b"me/1 HTTP/1.1\r\nHost: x\r\n\r\nGET /str"),
            Input::Bytes(b"eams HTTP/1.1\r\nHost: x\r\n\r\n"),
            Input::Bytes(b"GET /s/b/info HTTP/1.1\r\nHost: x\r\n\r\n"),
            Input::End,
        ],
        pieces: &[Piece(HEAD), Piece(KEY), Piece(INTER)],
        ..NOTHING
    };
    let mut transport = Scripted::new(&rt, rt.alloc(), script);
    equal!(&rt; serves_files(rt.alloc(), &mut transport), true);
    equal!(&rt; transport.told(), TOLD);
}
