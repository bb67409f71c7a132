//! Tests of how a connection is read: the sizes and the number of its reads.

use crate::check::equal;
use crate::hubs::hub_of_none;
use std::alloc::Global;
use std::cell::Cell;
use std::io;
use std::io::{Error, ErrorKind, Read, Write};
use std::process::Abort;
use vp_base::Counted;
use vp_hub::{Hub, ServeFault, serve_one};

/// A reader that records the total number of bytes it gave, and the largest size it was asked for.
#[derive(Drop)]
struct Asked<'a> {
    left: &'a [u8],
    given: &'a Cell<usize>,
    most: &'a Cell<usize>,
}

impl Read for Asked<'_> {
    fn read(&mut self, buf: &mut [u8]) -> io::Result<usize> {
        self.most.set(self.most.get().max(buf.len()));
        let count = self.left.read(buf)?;
        self.given.set(self.given.get().saturating_add(count));
        Ok(count)
    }
}

/// A writer that records, at each write, the number of bytes read so far.
#[derive(Drop)]
struct Noted<'a> {
    given: &'a Cell<usize>,
    at: Vec<usize>,
}

impl Write for Noted<'_> {
    fn write(&mut self, buf: &[u8]) -> io::Result<usize> {
        match self.at.push(self.given.get()) {
            Ok(()) => Ok(buf.len()),
            Err(_) => Err(Error::from(ErrorKind::OutOfMemory)),
        }
    }

    fn flush(&mut self) -> io::Result<()> {
        Ok(())
    }
}

/// Returns a request of 3,000 bytes.
fn long_request() -> [u8; 3000] {
    let mut request = [b'b'; 3000];
    request[..35].copy_from_slice(b"GET /streams HTTP/1.1\r\nHost: x\r\nA: ");
    request[2996..].copy_from_slice(b"\r\n\r\n");
    request
}

/// Returns three such requests.
fn three_requests() -> [u8; 9000] {
    let mut requests = [0; 9000];
    for number in 0..3 {
        requests[number * 3000..(number + 1) * 3000].copy_from_slice(&long_request());
    }
    requests
}

/// Serves connection 2, which sends these bytes. Fails the test if it isn't read by four reads of at most 4,096 bytes,
/// or isn't answered after each of the first three.
fn check_pieces(rt: &impl Abort, alloc: Global, hub: &mut Hub, sent: &[u8]) {
    let (given, most) = (Cell::new(0), Cell::new(0));
    let mut reader = Counted::new(Asked {
        left: sent,
        given: &given,
        most: &most,
    });
    let mut writer = Counted::new(Noted {
        given: &given,
        at: Vec::new(alloc),
    });
    let end = serve_one(hub, 2, &mut reader, &mut writer);
    equal!(rt; (end, most.get(), reader.reads()), (Ok(()), 4096, 4));
    equal!(rt; writer.into_inner().at.as_slice(), [4096, 8192, 9000].as_slice());
}

/// Does so with a new hub.
fn check_reads(rt: &impl Abort, alloc: Global, sent: &[u8]) {
    check_pieces(rt, alloc, &mut hub_of_none(rt, alloc), sent);
}

/// At most 4,096 bytes are read at once, and handed to the hub before the next read. Of three requests of 3,000 bytes
/// each, one ends in each piece, and the last read finds the end.
#[test]
fn pieces_of_4096_bytes(rt: HostRuntime) {
    check_reads(&rt, rt.alloc(), &three_requests());
}

/// A reader that gives single bytes of a repeated request, up to a total number.
#[derive(Drop)]
struct Again<'a> {
    request: &'a [u8],
    given: usize,
    all: usize,
}

impl Read for Again<'_> {
    fn read(&mut self, buf: &mut [u8]) -> io::Result<usize> {
        if self.given >= self.all || buf.is_empty() {
            return Ok(0);
        }
        let Some(byte) = self.request.get(self.given % 3000) else {
            return Ok(0);
        };
        buf[0] = *byte;
        self.given += 1;
        Ok(1)
    }
}

/// A writer that discards everything.
#[derive(Drop)]
struct Nowhere;

impl Write for Nowhere {
    fn write(&mut self, buf: &[u8]) -> io::Result<usize> {
        Ok(buf.len())
    }

    fn flush(&mut self) -> io::Result<()> {
        Ok(())
    }
}

/// Serves connection 2, which gives `bytes` single bytes of a repeated request of 3,000. Fails the test if it doesn't
/// end so after 1,048,576 reads.
fn check_end(rt: &impl Abort, hub: &mut Hub, bytes: usize, wanted: Result<(), ServeFault>) {
    let request = long_request();
    let mut reader = Counted::new(Again {
        request: &request,
        given: 0,
        all: bytes,
    });
    let mut writer = Counted::new(Nowhere);
    let end = serve_one(hub, 2, &mut reader, &mut writer);
    equal!(rt; (bytes, end, reader.reads()), (bytes, wanted, 1_048_576));
}

/// Does so with a new hub.
fn check_count(rt: &impl Abort, alloc: Global, bytes: usize, wanted: Result<(), ServeFault>) {
    check_end(rt, &mut hub_of_none(rt, alloc), bytes, wanted);
}

/// A connection may end at its 1,048,576th read, and no later.
#[test]
fn reads_of_a_connection(rt: HostRuntime) {
    check_count(&rt, rt.alloc(), 1_048_575, Ok(()));
    check_count(&rt, rt.alloc(), 1_048_576, Err(ServeFault::ReadTurns));
}
