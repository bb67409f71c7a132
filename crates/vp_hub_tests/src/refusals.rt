//! Tests of events in one run, some of which are refused and change nothing, and of a hub without streams.

use crate::check::equal;
use crate::hubs::{
    ASKS_KEY, Answer, BAD, TAKEN, Told, check_answer, event_of, key_reply, named_hub, parts, pass,
    says,
};
use std::alloc::Global;
use std::process::Abort;
use vp_base::Limits;
use vp_hub::{Event, Hub, HubFault, NewFault, Reply};

/// Events in order, and their answers. No stream is named `d` or `aa`; `b` has a fault in its head, and `c` ends
/// without a byte. The 64 connections 1 and 3 to 65 are open, until 65 is shut; then 2 is opened and shut.
const STEPS: &[(Told<'static>, Answer<'static>)] = &[
    (Told::Feed(b"d", b"x"), Err(HubFault::UnknownStream)),
    (Told::Feed(b"aa", b"x"), Err(HubFault::UnknownStream)),
    (Told::Feed(b"", b"x"), Err(HubFault::UnknownStream)),
    (Told::End(b"d"), Err(HubFault::UnknownStream)),
    (Told::Feed(b"b", &[b'x'; 32]), TAKEN),
    (Told::Feed(b"b", b"x"), Err(HubFault::Failed)),
    (Told::Feed(b"b", b""), Err(HubFault::Failed)),
    (Told::End(b"b"), TAKEN),
    (Told::Feed(b"b", b"x"), Err(HubFault::Ended)),
    (Told::End(b"b"), Err(HubFault::Ended)),
    (Told::End(b"c"), TAKEN),
    (Told::Feed(b"c", b"x"), Err(HubFault::Ended)),
    (Told::End(b"c"), Err(HubFault::Ended)),
    (Told::Open(66), Err(HubFault::TooMany)),
    (Told::Open(65), Err(HubFault::AlreadyOpen)),
    (Told::Shut(65), TAKEN),
    (Told::Open(1), Err(HubFault::AlreadyOpen)),
    (Told::Bytes(2, b"x"), Err(HubFault::UnknownConn)),
    (Told::Shut(2), Err(HubFault::UnknownConn)),
    (Told::Open(2), TAKEN),
    (Told::Open(65), Err(HubFault::TooMany)),
    (Told::Open(2), Err(HubFault::AlreadyOpen)),
    (
        Told::Bytes(2, b"GET /streams HTTP/1.1\r\n\r\n"),
        Ok((BAD, true)),
    ),
    (Told::Bytes(2, b"x"), Err(HubFault::Failed)),
    (Told::Open(2), Err(HubFault::AlreadyOpen)),
    (Told::Shut(2), TAKEN),
    (Told::Shut(2), Err(HubFault::UnknownConn)),
    (Told::Bytes(2, b"x"), Err(HubFault::UnknownConn)),
];

const ASKS_INFO: Told<'static> = Told::Bytes(3, b"GET /s/a/info HTTP/1.1\r\nHost: x\r\n\r\n");

const INFO: &[u8] = b"HTTP/1.1 200 OK\r\nContent-Type: text/plain\r\nContent-Length: 42\r\n\r\n\
    state open\npackets 2\nsize 16x16\nrate 30/1\n";

/// Connection 1 sends a request except for its last byte. Connections 4 to 65 are opened.
fn open_all(rt: &impl Abort, alloc: Global, hub: &mut Hub) {
    pass(rt, alloc, hub, Told::Bytes(1, &ASKS_KEY[..37]));
    for number in 4..66 {
        pass(rt, alloc, hub, Told::Open(number));
    }
}

/// Returns a hub with the streams `a`, `b` and `c`; `a` has two packets. Connections 1 and 3 are open.
fn hub_of_three(rt: &impl Abort, alloc: Global) -> Hub {
    named_hub(rt, alloc, &[b"a", b"b", b"c"], &parts(), 1)
}

/// Appends an event.
fn put(rt: &impl Abort, alloc: Global, events: &mut Vec<Event>, told: Told<'_>) {
    events.push(event_of(rt, alloc, told)).expect(rt, "memory");
}

/// Returns the events of all steps. After each of them, connection 3 requests the information about stream `a`.
fn events_of(rt: &impl Abort, alloc: Global, steps: &[(Told<'_>, Answer<'_>)]) -> Vec<Event> {
    let mut events = Vec::new(alloc);
    for (told, _) in steps {
        put(rt, alloc, &mut events, *told);
        put(rt, alloc, &mut events, ASKS_INFO);
    }
    events
}

/// Fails the test if a step doesn't have its answer, or the information about stream `a` isn't always the same.
fn check_answers(
    rt: &impl Abort,
    steps: &[(Told<'_>, Answer<'_>)],
    answers: &[Result<Reply, HubFault>],
) {
    equal!(rt; answers.len(), 56);
    for (place, found) in answers.iter().enumerate() {
        match steps.get(place / 2) {
            Some((told, wanted)) if place % 2 == 0 => {
                check_answer(rt, place, *told, found, *wanted);
            }
            _ => check_answer(rt, place, ASKS_INFO, found, Ok((INFO, false))),
        }
    }
}

/// Hands the hub all steps in one run.
fn check_run(rt: &impl Abort, alloc: Global, hub: &mut Hub, steps: &[(Told<'_>, Answer<'_>)]) {
    let events = events_of(rt, alloc, steps);
    let answers = hub.run(&events).expect(rt, "memory");
    check_answers(rt, steps, &answers);
}

/// Connection 1, after all steps, is answered with its picture at its request's last byte.
fn check_steps(rt: &impl Abort, alloc: Global, hub: &mut Hub) {
    open_all(rt, alloc, hub);
    check_run(rt, alloc, hub, STEPS);
    says(rt, alloc, hub, 0, (1, &ASKS_KEY[37..]), &key_reply());
}

/// Does so with a hub of the streams `a`, `b` and `c`; `a` has two packets. Connections 1 and 3 are open.
fn check_three(rt: &impl Abort, alloc: Global) {
    check_steps(rt, alloc, &mut hub_of_three(rt, alloc));
}

#[test]
fn refused_events_change_nothing(rt: HostRuntime) {
    check_three(&rt, rt.alloc());
}

/// A hub needs at least one stream.
#[test]
fn no_name_is_refused(rt: HostRuntime) {
    let hub = Hub::new(rt.alloc(), Vec::new(rt.alloc()), Limits::usual());
    equal!(&rt; hub.err(), Some(NewFault::Names));
}
