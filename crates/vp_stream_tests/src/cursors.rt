//! Tests of cursors of streams: packets in order, two readers, and packets in any order.

ghost use Rattle.std.specs.Prelude.{◌≡◌};
ghost use Rattle.vp_cache.specs.Cursors.{AreCursorsOf};

use crate::check::equal;
use crate::files::{KEY, file};
use std::alloc::Global;
use std::process::Abort;
use vp_base::Limits;
use vp_cache::Cursors;
use vp_stream::Stream;

// A file of sixty packets, the first of which is its only key packet.
fn sixty_packets(rt: &impl Abort, alloc: Global) -> Vec<u8> {
    let mut bytes = file(rt, alloc, &[&KEY]);
    for time in 1..60 {
        let packet = [3, 0, 0, 0, time, 0, 0, 0, 0, 0, 0, 0, 0x11, 0, 0];
        bytes.extend_from_slice(&packet).expect(rt, "memory");
    }
    bytes
}

// Its stream.
fn stream_of_sixty(rt: &impl Abort, alloc: Global, limits: Limits) -> Stream
    ensures { result.limits ≡ limits }
{
    let mut stream = Stream::new(alloc, limits);
    stream
        .feed(&sixty_packets(rt, alloc))
        .expect(rt, "sixty packets");
    stream
}

// Asks for packets of a stream one after another. Returns the number of decoded packets.
fn cost_with(rt: &impl Abort, stream: &Stream, cursors: &mut Cursors, numbers: &[u32]) -> u64
    requires cursors { AreCursorsOf 0 stream.now cursors.old.entries }
    requires limits { stream.now.limits ≡ cursors.old.limits }
{
    let mut work = 0;
    for n in numbers {
        let _ = cursors
            .picture_from(0, stream, *n, &mut work)
            .expect(rt, "memory");
    }
    work
}

// This for packets of the stream of sixty, with at most `capacity` cursors.
fn cost(rt: &impl Abort, alloc: Global, capacity: u32, numbers: &[u32]) -> u64 {
    let limits = Limits::usual();
    let stream = stream_of_sixty(rt, alloc, limits);
    let mut cursors = Cursors::new(alloc, capacity, limits).expect(rt, "memory");
    cost_with(rt, &stream, &mut cursors, numbers)
}

// This for all sixty packets in order.
fn cost_in_order(rt: &impl Abort, alloc: Global, capacity: u32) -> u64 {
    let mut numbers = [0; 60];
    for n in 0..60u32 {
        numbers[n as usize] = n;
    }
    cost(rt, alloc, capacity, &numbers)
}

#[test]
fn packets_in_order_cost_one_each(rt: HostRuntime) {
    equal!(&rt; cost_in_order(&rt, rt.alloc(), 1), 60);
    // Without cursors: 1 + 2 + .. + 60.
    equal!(&rt; cost_in_order(&rt, rt.alloc(), 0), 1830);
}

#[test]
fn readers_keep_their_cursors(rt: HostRuntime) {
    // One reader begins at packet 40, the other at packet 10: 41 and 11 packets, then one each.
    let in_turn = [40, 10, 41, 11, 42, 12, 43, 13];
    equal!(&rt; cost(&rt, rt.alloc(), 2, &in_turn), 58);
    // A third one begins at packet 5. There is room for two cursors: the one past packet 43 is dropped, and packet 44
    // is then decoded from packet 15 on. Packet 60 isn't there.
    let three = [40, 10, 41, 11, 42, 12, 43, 13, 5, 14, 6, 44, 60];
    equal!(&rt; cost(&rt, rt.alloc(), 2, &three), 96);
}

#[test]
fn packets_in_any_order(rt: HostRuntime) {
    let order = [17, 3, 3, 58, 20, 59, 4, 0];
    // 18 from the key packet, 4, none, 41 from packet 18 on, 17 from packet 4 on, 1, and 5 and 1 from the key packet.
    equal!(&rt; cost(&rt, rt.alloc(), 4, &order), 87);
    // From the key packet each time: 18 + 4 + 4 + 59 + 21 + 60 + 5 + 1.
    equal!(&rt; cost(&rt, rt.alloc(), 0, &order), 172);
}
