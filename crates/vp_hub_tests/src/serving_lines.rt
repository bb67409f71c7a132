//! Tests of many requests in one piece: its lines are handed to the hub one by one.

use crate::check::equal;
use crate::hubs::{ASKS_KEY, hub_of_key, key_reply};
use std::alloc::Global;
use std::cell::Cell;
use std::io;
use std::io::{Error, ErrorKind, Write};
use std::process::Abort;
use vp_base::Counted;
use vp_hub::{Hub, serve_one};

/// A writer that records the number of writes, and the largest number of bytes that it was handed at once.
#[derive(Drop)]
struct Widest<'a> {
    written: Vec<u8>,
    writes: &'a Cell<u64>,
    most: &'a Cell<usize>,
}

impl Write for Widest<'_> {
    fn write(&mut self, buf: &[u8]) -> io::Result<usize> {
        self.writes.set(self.writes.get().saturating_add(1));
        self.most.set(self.most.get().max(buf.len()));
        match self.written.extend_from_slice(buf) {
            Ok(()) => Ok(buf.len()),
            Err(_) => Err(Error::from(ErrorKind::OutOfMemory)),
        }
    }

    fn flush(&mut self) -> io::Result<()> {
        Ok(())
    }
}

/// Returns these bytes a hundred times.
fn hundred_times(rt: &impl Abort, alloc: Global, bytes: &[u8]) -> Vec<u8> {
    let mut all = Vec::new(alloc);
    for _ in 0..100 {
        all.extend_from_slice(bytes).expect(rt, "memory");
    }
    all
}

/// Serves connection 2, which sends these bytes in one piece. Fails the test if it isn't read by two reads, or doesn't
/// get just these by a hundred writes of at most 464 bytes.
fn check_served(rt: &impl Abort, alloc: Global, hub: &mut Hub, sent: &[u8], wanted: &[u8]) {
    let (writes, widest) = (Cell::new(0), Cell::new(0));
    let mut reader = Counted::new(sent);
    let mut writer = Counted::new(Widest {
        written: Vec::new(alloc),
        writes: &writes,
        most: &widest,
    });
    let end = serve_one(hub, 2, &mut reader, &mut writer);
    equal!(rt; (end, reader.reads(), writes.get(), widest.get()), (Ok(()), 2, 100, 464));
    equal!(rt; writer.into_inner().written.as_slice(), wanted);
}

/// A hundred requests of 38 bytes are read at once. No write has more than one response.
fn check_hundred(rt: &impl Abort, alloc: Global, hub: &mut Hub) {
    let sent = hundred_times(rt, alloc, &ASKS_KEY);
    let wanted = hundred_times(rt, alloc, &key_reply());
    check_served(rt, alloc, hub, &sent, &wanted);
}

/// Does so with a new hub.
fn check_lines(rt: &impl Abort, alloc: Global) {
    check_hundred(rt, alloc, &mut hub_of_key(rt, alloc));
}

#[test]
fn hundred_requests_in_one_piece(rt: HostRuntime) {
    check_lines(&rt, rt.alloc());
}
