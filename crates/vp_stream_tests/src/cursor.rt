//! Tests of cursors: the packets of a stream in any order, through one cursor.

ghost use Rattle.vp_stream.specs.Cursor.{IsCursorOf};

use crate::check::{equal, parts};
use crate::files::{HIDDEN, INTER, KEY, file};
use std::alloc::Global;
use std::process::Abort;
use vp_base::Limits;
use vp_stream::{Cursor, Stream};

// Asks for a packet through a cursor. The answer must be that of `picture_at`. Returns the number of decoded packets.
fn asked(rt: &impl Abort, stream: &Stream, n: u32, cursor: &mut Cursor) -> u64
    requires { IsCursorOf cursor.old stream.now }
    ensures { IsCursorOf cursor.new stream.now }
{
    let mut work = 0;
    let found = stream
        .picture_from(n, cursor, &mut work)
        .expect(rt, "memory");
    let wanted = stream.picture_at(n).expect(rt, "memory");
    equal!(rt; (n, parts(&found)), (n, parts(&wanted)));
    work
}

// Asks for packets one after another. Returns the number of decoded packets.
fn cost(rt: &impl Abort, stream: &Stream, numbers: &[u32], cursor: &mut Cursor) -> u64
    requires { IsCursorOf cursor.old stream.now }
    ensures { IsCursorOf cursor.new stream.now }
{
    let mut work = 0u64;
    for n in numbers {
        work = work.saturating_add(asked(rt, stream, *n, cursor));
    }
    work
}

// Two runs of pictures, a fault that loses the references, and a hidden key packet that an empty packet follows.
const PACKETS: [&[u8]; 9] = [
    &KEY,
    &INTER,
    &INTER,
    &KEY,
    &INTER,
    &[0x10, 0],
    &INTER,
    &HIDDEN,
    &[],
];

// Requests for these packets through a new cursor, and their costs.
const COSTS: [(&[u32], u64); 6] = [
    (&[0, 1, 2, 3, 4, 5, 6, 7, 8], 9),
    // The last packet again, then no packet.
    (&[8, 8, 9], 0),
    // Back to packets 3 and 4, on to 5 and 6, back to 0 and 1, and over key packets to 7 and 8.
    (&[4], 2),
    (&[6], 2),
    (&[1], 2),
    (&[8], 2),
];

// Makes these requests.
fn check_costs(rt: &impl Abort, stream: &Stream, cursor: &mut Cursor)
    requires { IsCursorOf cursor.old stream.now }
    ensures { IsCursorOf cursor.new stream.now }
{
    for (numbers, wanted) in &COSTS {
        equal!(rt; (numbers, cost(rt, stream, numbers, cursor)), (numbers, *wanted));
    }
}

// Makes them of a stream once it is fed these packets, and a request for one packet more.
fn ten_cost(rt: &impl Abort, alloc: Global, stream: &mut Stream, cursor: &mut Cursor)
    requires { IsCursorOf cursor.old stream.old }
{
    stream
        .feed(&file(rt, alloc, &PACKETS))
        .expect(rt, "nine packets");
    check_costs(rt, stream, cursor);
    let tenth = [3, 0, 0, 0, 9, 0, 0, 0, 0, 0, 0, 0, 0x11, 0, 0];
    stream.feed(&tenth).expect(rt, "a packet");
    equal!(rt; cost(rt, stream, &[9], cursor), 1);
}

#[test]
fn frames_through_a_cursor(rt: HostRuntime) {
    let limits = Limits::usual();
    let mut stream = Stream::new(rt.alloc(), limits);
    let mut cursor = Cursor::new(rt.alloc(), limits);
    ten_cost(&rt, rt.alloc(), &mut stream, &mut cursor);
}
