//! Tests of the server's own functions: connections over TCP, the printed address, and an output that fails.

use crate::check::equal;
use std::alloc::Global;
use std::io::{Read, Write};
use std::net::{Shutdown, TcpListener, TcpStream};
use std::process::Abort;
use vp_app::{command, listen, serve_each};
use vp_args::{ServeArgs, Task, read_args};
use vp_base::{ByteList, Counted, FailAt, Limits};
use vp_hub::{Event, Hub};

/// The head of an IVF file of 16 by 16 pixels, 30 pictures a second.
const HEAD: &[u8] = b"DKIF\0\0\x20\0VP80\x10\0\x10\0\x1e\0\0\0\x01\0\0\0\x01\0\0\0\0\0\0\0";

/// A key packet of 16 by 16 pixels without coefficients, after its frame header of twelve bytes.
const KEY: &[u8] = b"\x0a\0\0\0\0\0\0\0\0\0\0\0\x10\0\0\x9d\x01\x2a\x10\0\x10\0";

/// The head of a response with a whole picture that closes the connection.
const LINES: &[u8] =
    b"HTTP/1.1 200 OK\r\nContent-Type: application/octet-stream\r\nContent-Length: 384\r\nConnection: close\r\n\r\n";

/// A request for the picture of packet 0 that closes the connection.
const ASKS: &[u8] = b"GET /s/a/frame/0 HTTP/1.1\r\nHost: x\r\nConnection: close\r\n\r\n";

/// The same request, and the begin of another one.
const ASKS_MORE: &[u8] =
    b"GET /s/a/frame/0 HTTP/1.1\r\nHost: x\r\nConnection: close\r\n\r\nGET /streams";

/// Copies bytes to a list.
fn list(rt: &impl Abort, alloc: Global, bytes: &[u8]) -> ByteList {
    ByteList::from_vec(bytes.to_vec(alloc).expect(rt, "memory"))
}

/// Returns the name `a` as a list of names.
fn names(rt: &impl Abort, alloc: Global) -> Vec<ByteList> {
    let mut names = Vec::new(alloc);
    names.push(list(rt, alloc, b"a")).expect(rt, "memory");
    names
}

/// Returns the event that feeds a piece to the stream `a`.
fn piece_of_a(rt: &impl Abort, alloc: Global, piece: &[u8]) -> Event {
    Event::Feed(list(rt, alloc, b"a"), list(rt, alloc, piece))
}

/// Feeds a piece to the stream `a`.
fn feed(rt: &impl Abort, alloc: Global, hub: &mut Hub, piece: &[u8]) {
    hub.step(&piece_of_a(rt, alloc, piece))
        .expect(rt, "a piece of a stream");
}

/// Feeds a file's head and the key packet to the stream `a`.
fn feed_key(rt: &impl Abort, alloc: Global, hub: &mut Hub) {
    feed(rt, alloc, hub, HEAD);
    feed(rt, alloc, hub, KEY);
}

/// Returns a hub of the stream `a` with a key packet.
fn hub_of_one(rt: &impl Abort, alloc: Global) -> Hub {
    let mut hub = Hub::new(alloc, names(rt, alloc), Limits::usual()).expect(rt, "a hub");
    feed_key(rt, alloc, &mut hub);
    hub
}

/// Sends these bytes, and shuts down writing.
fn send(rt: &impl Abort, client: &mut TcpStream, sent: &[u8]) {
    client.write_all(sent).expect(rt, "a request");
    client
        .shutdown(Shutdown::Write)
        .expect(rt, "the end of writing");
}

/// Opens a connection, sends these bytes, and shuts down writing.
fn sending(rt: &impl Abort, host: &HostRuntime, listener: &TcpListener, sent: &[u8]) -> TcpStream {
    let address = listener.local_addr().expect(rt, "an address");
    let mut client = TcpStream::connect(host, address).expect(rt, "a connection");
    send(rt, &mut client, sent);
    client
}

/// Reads the rest of the bytes of a connection.
fn rest_of(rt: &impl Abort, alloc: Global, client: &mut TcpStream) -> Vec<u8> {
    let mut got = Vec::new(alloc);
    client.read_to_end(&mut got).expect(rt, "a response");
    got
}

/// The response with the key packet's picture: its luma rows 0 to 3 are 128, rows 4 to 15 are 129, and its chroma is
/// 128. Its head has 99 bytes.
fn key_reply() -> [u8; 483] {
    let mut bytes = [128; 483];
    bytes[..99].copy_from_slice(LINES);
    bytes[163..355].fill(129);
    bytes
}

/// Fails the test if a connection gets anything but these bytes. `client` tells whose connection it is.
fn check_rest(
    rt: &impl Abort,
    alloc: Global,
    client: &str,
    connection: &mut TcpStream,
    wanted: &[u8],
) {
    let got = rest_of(rt, alloc, connection);
    equal!(rt; (client, got.as_slice()), (client, wanted));
}

/// Serves the next connections. Returns whether each is served to its end, and what is printed.
fn serve_next(alloc: Global, hub: &mut Hub, listener: &TcpListener, count: u32) -> (bool, Vec<u8>) {
    let mut errors = Counted::new(Vec::new(alloc));
    let well = serve_each(hub, listener, count, &mut errors);
    (well, errors.into_inner())
}

/// Serves the next connections. Fails the test unless each is served to its end, or not, and just this is printed.
fn check_serves(
    rt: &impl Abort,
    alloc: Global,
    hub: &mut Hub,
    (listener, count): (&TcpListener, u32),
    wanted: (bool, &[u8]),
) {
    let (well, told) = serve_next(alloc, hub, listener, count);
    equal!(rt; (well, told.as_slice()), wanted);
}

/// Returns a listener on a free port of the loopback address.
fn listening(rt: &impl Abort, host: &HostRuntime) -> TcpListener {
    TcpListener::bind(host, "127.0.0.1:0").expect(rt, "a listener")
}

/// Fails the test if a request that closes the connection isn't answered with its picture and nothing else.
fn check_served(
    rt: &impl Abort,
    alloc: Global,
    hub: &mut Hub,
    listener: &TcpListener,
    client: &mut TcpStream,
) {
    check_serves(rt, alloc, hub, (listener, 1), (true, b""));
    check_rest(rt, alloc, "the client", client, &key_reply());
}

/// Does so with a new connection.
fn check_one(rt: &impl Abort, host: &HostRuntime, hub: &mut Hub, listener: &TcpListener) {
    let client = &mut sending(rt, host, listener, ASKS_MORE);
    check_served(rt, host.alloc(), hub, listener, client);
}

/// Does so with a new hub.
fn check_one_of(rt: &impl Abort, host: &HostRuntime, listener: &TcpListener) {
    check_one(rt, host, &mut hub_of_one(rt, host.alloc()), listener);
}

#[test]
fn one_connection_over_tcp(rt: HostRuntime) {
    check_one_of(&rt, &rt, &listening(&rt, &rt));
}

/// What is printed of a connection whose number is in use: its fault, and the hint under it.
const REFUSED: &[u8] = b"vp8: AlreadyOpen\n  connection 0: its requests are refused\n";

/// Two connections send the same request; the hub has the number of the first one already. Fails the test if the first
/// one isn't refused, with an error, or the second one isn't answered with its picture.
fn check_second(
    rt: &impl Abort,
    alloc: Global,
    hub: &mut Hub,
    listener: &TcpListener,
    (first, second): (&mut TcpStream, &mut TcpStream),
) {
    let _ = hub.step(&Event::Open(0));
    check_serves(rt, alloc, hub, (listener, 2), (false, REFUSED));
    check_rest(rt, alloc, "the first client", first, b"");
    check_rest(rt, alloc, "the second client", second, &key_reply());
}

/// Does so with new connections.
fn check_two(rt: &impl Abort, host: &HostRuntime, hub: &mut Hub, listener: &TcpListener) {
    let first = &mut sending(rt, host, listener, ASKS);
    let second = &mut sending(rt, host, listener, ASKS);
    check_second(rt, host.alloc(), hub, listener, (first, second));
}

/// Does so with a new hub.
fn check_two_of(rt: &impl Abort, host: &HostRuntime, listener: &TcpListener) {
    check_two(rt, host, &mut hub_of_one(rt, host.alloc()), listener);
}

#[test]
fn a_connection_behind_a_refused_one_is_served(rt: HostRuntime) {
    check_two_of(&rt, &rt, &listening(&rt, &rt));
}

/// Parses arguments of `vp8 serve`.
fn asked<'a>(alloc: Global, words: &'a [&'a str]) -> Option<ServeArgs<'a>> {
    match read_args(alloc, words) {
        Ok(Task::Serve(service)) => Some(service),
        _ => None,
    }
}

/// Returns the line with a listener's address.
fn address_of(rt: &impl Abort, alloc: Global, listener: &TcpListener) -> String {
    let address = listener.local_addr().expect(rt, "an address");
    format!(in alloc; "{address}\n").expect(rt, "memory")
}

/// Fails the test if anything but the listener's address is printed; or anything at all, where it isn't `shown`.
fn check_line(rt: &impl Abort, alloc: Global, listener: &TcpListener, printed: &[u8], shown: bool) {
    let line = address_of(rt, alloc, listener);
    let wanted = if shown { line.as_bytes() } else { b"" };
    equal!(rt; (shown, printed), (shown, wanted));
}

/// Listens with these arguments. Fails the test if other bytes are printed.
fn check_listens(rt: &impl Abort, host: &HostRuntime, service: &ServeArgs<'_>, shown: bool) {
    let mut output = Counted::new(Vec::new(host.alloc()));
    let listener = listen(host, service, &mut output).expect(rt, "a listener");
    let printed = output.into_inner();
    check_line(rt, host.alloc(), &listener, printed.as_slice(), shown);
}

/// Listens on a free port of the loopback address with these arguments. Fails the test if not exactly the address is
/// printed, or nothing where it isn't `shown`.
fn check_address(rt: &impl Abort, host: &HostRuntime, words: &[&str], shown: bool) {
    let service = asked(host.alloc(), words).expect(rt, "arguments of serve");
    check_listens(rt, host, &service, shown);
}

/// Arguments of `serve` that ask for the address.
const SHOWS: [&str; 8] = [
    "vp8",
    "serve",
    "--listen",
    "127.0.0.1:0",
    "--connections",
    "1",
    "a=-",
    "--show-address",
];

#[test]
fn addresses_are_printed_where_that_is_asked(rt: HostRuntime) {
    check_address(&rt, &rt, &SHOWS, true);
    check_address(&rt, &rt, &SHOWS[..7], false);
}

/// Returns the status of `info` for a file's head if every write fails, and what is printed of that.
fn info_unprinted(host: &HostRuntime) -> (u8, Vec<u8>) {
    let mut input = Counted::new(HEAD);
    let mut output = Counted::new(FailAt::new(Vec::new(host.alloc()), 0));
    let mut errors = Counted::new(Vec::new(host.alloc()));
    let words = ["vp8", "info", "-"];
    let status = command(host, &words, &mut input, &mut output, &mut errors);
    (status, errors.into_inner())
}

#[test]
fn info_that_is_not_printed_has_status_1(rt: HostRuntime) {
    let (status, told) = info_unprinted(&rt);
    equal!(&rt; (status, told.as_slice()), (1, b"vp8: Device\n".as_slice()));
}

/// Returns the status of `check` of a file of this name, and what it prints.
fn told_of(host: &HostRuntime, name: &str) -> (u8, Vec<u8>) {
    let mut input = Counted::new(HEAD);
    let mut output = Counted::new(Vec::new(host.alloc()));
    let mut errors = Counted::new(Vec::new(host.alloc()));
    let words = ["vp8", "check", name];
    let status = command(host, &words, &mut input, &mut output, &mut errors);
    (status, output.into_inner())
}

/// Fails the test if `check` of a missing file of this name hasn't status 1, or prints anything but this line.
fn check_told(rt: &impl Abort, host: &HostRuntime, name: &str, line: &[u8]) {
    let (status, told) = told_of(host, name);
    equal!(rt; (name, status, told.as_slice()), (name, 1, line));
}

#[test]
fn names_in_lines_have_no_control_bytes(rt: HostRuntime) {
    check_told(&rt, &rt, "no such \\ file", b"no such \\ file: Device\n");
    check_told(
        &rt,
        &rt,
        "no\nfi\u{1b}[31mle\u{7f}",
        b"no\\nfi\\x1b[31mle\\x7f: Device\n",
    );
}
