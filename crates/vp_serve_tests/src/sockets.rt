//! The server over sockets of the loopback address, and over a file that fails.

use crate::check::equal;
use crate::traces::{names, options, server, serves_all};
use std::alloc::Global;
use std::io;
use std::io::{Read, Write};
use std::net::{TcpListener, TcpStream};
use std::process::Abort;
use vp_base::FailAt;
use vp_mio::{FollowedFile, MioTransport};
use vp_serve::{Transport, catch_up};

/// A request that closes the connection, and the begin of another one.
const ASKS: &[u8] =
    b"GET /streams HTTP/1.1\r\nHost: x\r\nConnection: close\r\n\r\nGET /streams HTTP/1.1\r\n";

/// What is replied to it.
const REPLY: &[u8] =
    b"HTTP/1.1 200 OK\r\nContent-Type: text/plain\r\nContent-Length: 2\r\nConnection: close\r\n\r\na\n";

/// What is logged of it, after the time, the connection and its peer.
const LOGGED: &[u8] = b" \"GET /streams HTTP/1.1\" 200 2 0\n";

/// What is printed if a file can't be read on.
const STOPPED: &[u8] = b"vp8: a=a.ivf: the file is read no more: other error\n";

/// What two clients get, and what is logged.
#[derive(Drop)]
struct Got {
    asking: Vec<u8>,
    silent: Vec<u8>,
    log: Vec<u8>,
}

/// Serves two connections that this listener accepts, with a log of accesses. Returns whether that goes well.
fn serves_over(rt: &HostRuntime, listener: TcpListener, log: &mut Vec<u8>) -> io::Result<bool> {
    let files: Vec<FollowedFile<'_, &[u8]>> = Vec::new(rt.alloc());
    let mut transport = MioTransport::new(rt, rt, rt.alloc(), 10, files, log)?;
    transport.log_accesses();
    transport.listen(listener)?;
    Ok(serves_all(rt.alloc(), options(2, 2), &mut transport))
}

/// Serves a silent client and one that asks, which this listener accepts. Returns whether that goes well.
fn serves_clients(
    rt: &HostRuntime,
    listener: TcpListener,
    silent: &mut TcpStream,
    asking: &mut TcpStream,
    got: &mut Got,
) -> io::Result<bool> {
    asking.write_all(ASKS)?;
    let is_served = serves_over(rt, listener, &mut got.log)?;
    asking.read_to_end(&mut got.asking)?;
    silent.read_to_end(&mut got.silent)?;
    Ok(is_served)
}

/// Serves both, each of which connects before the other one is served.
fn serves_both(rt: &HostRuntime, got: &mut Got) -> io::Result<bool> {
    let listener = TcpListener::bind(rt, "127.0.0.1:0")?;
    let mut silent = TcpStream::connect(rt, listener.local_addr()?)?;
    let mut asking = TcpStream::connect(rt, listener.local_addr()?)?;
    serves_clients(rt, listener, &mut silent, &mut asking, got)
}

/// Fails the test if the second client isn't answered, a client isn't closed, or the log hasn't a line for the one
/// request that was answered.
fn check_got(rt: &impl Abort, got: &Got) {
    equal!(rt; (got.asking.as_slice(), got.silent.as_slice()), (REPLY, b"".as_slice()));
    let log = got.log.as_slice();
    equal!(rt; (log, log.starts_with(b"["), log.ends_with(LOGGED)), (log, true, true));
}

#[test]
fn silent_client_keeps_nobody_waiting(rt: HostRuntime) {
    let alloc = rt.alloc();
    let mut got = Got {
        asking: Vec::new(alloc),
        silent: Vec::new(alloc),
        log: Vec::new(alloc),
    };
    equal!(&rt; serves_both(&rt, &mut got).ok(), Some(true));
    check_got(&rt, &got);
}

/// Reads the files of a transport for a server of one stream. Returns false if memory runs out.
fn catches_up<T: Transport>(alloc: Global, transport: &mut T) -> bool {
    let (Some(mut server), Ok(names)) = (server(alloc, options(1, 1)), names(alloc)) else {
        return false;
    };
    catch_up(alloc, &mut server, transport, &names);
    true
}

/// Reads a file. Returns whether it is read no more.
fn stops_over<R: Read + Drop>(
    rt: &HostRuntime,
    file: FollowedFile<'_, R>,
    errors: &mut Vec<u8>,
) -> io::Result<bool> {
    let mut files = Vec::new(rt.alloc());
    files.push(file)?;
    let mut transport = MioTransport::new(rt, rt, rt.alloc(), 10, files, errors)?;
    Ok(catches_up(rt.alloc(), &mut transport) && transport.has_stopped_file())
}

/// Reads a file whose second read fails. Returns whether it is read no more; what is printed is on `errors`.
fn stops_at_failure(rt: &HostRuntime, errors: &mut Vec<u8>) -> io::Result<bool> {
    let rubbish: &[u8] = b"DKIF    rubbish, which is no head of a file";
    stops_over(
        rt,
        FollowedFile::new("a", "a.ivf", FailAt::new(rubbish, 1)),
        errors,
    )
}

#[test]
fn file_that_fails_is_named(rt: HostRuntime) {
    let mut errors = Vec::new(rt.alloc());
    let stops = stops_at_failure(&rt, &mut errors).ok();
    equal!(&rt; (stops, errors.as_slice()), (Some(true), STOPPED));
}
