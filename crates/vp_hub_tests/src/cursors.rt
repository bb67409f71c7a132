//! Tests of hubs with cursors: frames in order, two readers, and frames in any order. The first of sixty packets is the
//! only key packet.

use crate::check::equal;
use crate::hubs::{INTER, Told, begin, names_of, parts, pass};
use std::alloc::Global;
use std::process::Abort;
use vp_base::Limits;
use vp_hub::Hub;

/// Returns a hub with one stream, `a`, without bytes. It keeps one picture and at most `cursors` cursors.
fn new_hub(rt: &impl Abort, alloc: Global, cursors: u32) -> Hub {
    let limits = Limits::new(16_384, 16_384, 100, 1).expect(rt, "limits");
    Hub::with_cursors(alloc, names_of(rt, alloc, &[b"a"]), limits, cursors).expect(rt, "a hub")
}

/// Feeds the sixty packets, and opens connection 1.
fn feed_all(rt: &impl Abort, alloc: Global, hub: &mut Hub) {
    begin(rt, alloc, hub, &parts());
    for _ in 2..60 {
        pass(rt, alloc, hub, Told::Feed(b"a", &INTER));
    }
}

/// Requests a frame. Returns the number of decoded packets.
fn work_for(rt: &impl Abort, alloc: Global, hub: &mut Hub, n: u32) -> u64 {
    let asked = format!(in alloc; "GET /s/a/frame/{n} HTTP/1.1\r\nHost: x\r\n\r\n");
    let asked = asked.expect(rt, "memory");
    pass(rt, alloc, hub, Told::Bytes(1, asked.as_bytes()));
    hub.work()
}

/// Feeds a hub, and requests frames one after another. Fails the test if this isn't the number of decoded packets.
fn check_cost(rt: &impl Abort, alloc: Global, hub: &mut Hub, numbers: &[u32], wanted: u64) {
    feed_all(rt, alloc, hub);
    let mut cost = 0u64;
    for n in numbers {
        cost = cost.saturating_add(work_for(rt, alloc, hub, *n));
    }
    equal!(rt; (numbers, cost), (numbers, wanted));
}

/// Does so with a new hub that has at most `cursors` cursors.
fn costs(rt: &impl Abort, alloc: Global, cursors: u32, numbers: &[u32], wanted: u64) {
    check_cost(rt, alloc, &mut new_hub(rt, alloc, cursors), numbers, wanted);
}

#[test]
fn frames_in_order_cost_one_each(rt: HostRuntime) {
    let mut numbers = [0; 60];
    for n in 0..60 {
        numbers[n as usize] = n;
    }
    costs(&rt, rt.alloc(), 16, &numbers, 60);
    // Without cursors: 1 + 2 + .. + 60.
    costs(&rt, rt.alloc(), 0, &numbers, 1830);
}

#[test]
fn two_readers_keep_their_cursors(rt: HostRuntime) {
    // One begins at packet 40, the other at packet 10: 41 and 11 packets, then one each.
    costs(&rt, rt.alloc(), 2, &[40, 10, 41, 11, 42, 12, 43, 13], 58);
}

#[test]
fn frames_in_any_order(rt: HostRuntime) {
    let order = [17, 3, 3, 58, 20, 59, 4, 0];
    // 18 from the key packet, 4, none, 41 from packet 18 on, 17 from packet 4 on, 1, and 5 and 1 from the key packet.
    costs(&rt, rt.alloc(), 4, &order, 87);
    // From the key packet each time but the third, which is in the cache: 18 + 4 + 59 + 21 + 60 + 5 + 1.
    costs(&rt, rt.alloc(), 0, &order, 168);
}
