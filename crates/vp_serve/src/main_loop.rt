//! The loop of the server over any transport: turn after turn, with the idle timeouts and the files that grow.

ghost use Rattle.std.specs.Prelude.{◌≡◌, ◌≤◌, ◌<◌, ◌+◌, ◌^◌, ◌||◌, [], ℕ, List, Option, Some, IfOk};
ghost use Rattle.std.specs.Prelude.{is_some, not, slice_get, true, false};
ghost use Rattle.std.specs.List.{list_any};
ghost use Rattle.vp_hub.specs.View.{is_memory};
ghost use Rattle.vp_serve.specs.ServerLoop.{is_over};
ghost use Rattle.vp_serve.specs.Transfer.{Transfer, Logs};
ghost use Rattle.vp_serve.specs.Transport.{ContinuesLoop, piece_transfers};
ghost use Rattle.vp_serve.specs.ServerLoop.{AwaitsPeers};
ghost use Rattle.vp_serve.specs.Turns.{is_due};
ghost use Rattle.vp_serve.specs.Readiness.{AreNoReadier};
ghost use Rattle.vp_serve.specs.Schedule.{AreStillOpen, IsCounted, IsNoneIdle, IsScheduled, IsTimely};
ghost use Rattle.vp_serve.specs.LoopTurns.{FollowsFiles, IsIdleClosing, TakesLoopTurn, TakesLoopTurns};
ghost use Rattle.vp_serve.specs.Files.{is_refused};
ghost use Rattle.vp_serve.specs.Parts.{Feeds, FeedsThrough, Performs};
ghost use Rattle.vp_serve.specs.Connection.{Connection};
ghost use Rattle.vp_serve.specs.Connections.{connection_of};

use crate::options::FilePiece;
use crate::reason::CloseReason;
use crate::schedule::Schedule;
use crate::server_loop::ServerLoop;
use crate::transport::Transport;
use crate::turn::{close, either, turn, zeroed};
use std::alloc::{AllocError, Global};
use vp_base::ByteList;
use vp_hub::{HubFault, Reply};

/// The milliseconds between two checks of the idle timeouts.
const IDLE_CHECK_INTERVAL: u64 = 1000;

/// The most milliseconds that a turn counts for idle timeouts. Else a turn in which others' pictures are decoded for a
/// long time would end connections whose peers had no time to take their bytes.
const LONGEST_COUNTED_TURN: u64 = 250;

/// Serves until all connections were accepted and none is open. Follows the files of the streams of these names. True
/// at that end, and false after 18,446,744,073,709,551,615 turns. No failure of a connection ends the loop.
pub fn serve<T: Transport>(
    alloc: Global,
    server: &mut ServerLoop,
    transport: &mut T,
    names: &[ByteList],
) -> bool
    ensures continues { ContinuesLoop server.old server.new (T.log transport.old) (T.log transport.new) }
    ensures over { result ≡ true → is_over server.new ≡ true }
    ensures turns { TakesLoopTurns names.now result server.old server.new (T.log transport.old) (T.log transport.new) }
{
    let mut schedule = Schedule::new();
    for _turn in 0..u64::MAX {
        serve_turn(alloc, server, transport, names, &mut schedule);
        if server.is_over() {
            return true;
        }
    }
    false
}

/// Waits, unless something may be done at once, and takes one turn. Then closes the connections whose idle timeout is
/// over, once a second, and feeds the streams of these names, once in a poll interval or as long as a file grows.
pub fn serve_turn<T: Transport>(
    alloc: Global,
    server: &mut ServerLoop,
    transport: &mut T,
    names: &[ByteList],
    schedule: &mut Schedule,
)
    ensures continues { ContinuesLoop server.old server.new (T.log transport.old) (T.log transport.new) }
    ensures waits { schedule.new.is_busy ≡ false → AwaitsPeers server.new }
    ensures scheduled { IsScheduled schedule.old server.old → IsScheduled schedule.new server.new }
    ensures timely { IsScheduled schedule.old server.old → IsTimely schedule.new.time server.new }
    ensures forward { schedule.old.time ≤ schedule.new.time }
    ensures counted { IsCounted schedule.old schedule.new }
    ensures takes { TakesLoopTurn names.now schedule.old schedule.new server.old server.new
        (T.log transport.old) (T.log transport.new) (T.readiness transport.new) }
{
    let clock = transport.wait(is_busy(server, schedule.is_busy));
    let now = counted_time(schedule.time, schedule.clock, clock);
    let moved = turn(alloc, server, transport, now);
    let closed = close_idle(server, transport, now, schedule.next_check);
    let is_due = clock >= schedule.next_poll;
    let grew = poll_files(alloc, server, transport, names, is_due);
    let poll_interval = server.options().poll_interval;
    *schedule = Schedule {
        time: now,
        clock,
        next_check: next_time(schedule.next_check, now, IDLE_CHECK_INTERVAL),
        next_poll: next_poll(schedule.next_poll, clock, poll_interval, grew),
        is_busy: is_busy(server, either(either(moved, closed), grew)),
    };
}

// The time of the next turn, by what the clock said at the last one and says now.
fn counted_time(time: u64, last: u64, clock: u64) -> u64
    ensures forward { time ≤ result }
    ensures most { result ≤ time + 250 }
    ensures long { last + 250 ≤ clock → time + 250 < 2 ^ 64 → result ≡ time + 250 }
    ensures counts { last ≤ clock → clock ≤ last + 250 → time + clock < 2 ^ 64 → result + last ≡ time + clock }
{
    time.saturating_add(clock.saturating_sub(last).min(LONGEST_COUNTED_TURN))
}

// Whether something may be done at once. If something just happened, more may come of it.
fn is_busy(server: &ServerLoop, moved: bool) -> bool
    ensures awaits { result ≡ false → AwaitsPeers server.now }
    ensures test { result ≡ moved || list_any is_due server.now.connections }
{
    moved || server.is_due()
}

// The time of the next poll of the files: that which was due as long as they grow.
fn next_poll(due: u64, now: u64, interval: u64, grew: bool) -> u64
    ensures waits { now < due → result ≡ due }
    ensures stays { grew ≡ true → result ≡ due }
    ensures soon { due ≤ now → result ≤ now + interval }
    ensures rests { due ≤ now → grew ≡ false → now + interval < 2 ^ 64 → result ≡ now + interval }
{
    if grew {
        due
    } else {
        next_time(due, now, interval)
    }
}

// The next time that is due, once this one is reached.
fn next_time(due: u64, now: u64, interval: u64) -> u64
    ensures waits { now < due → result ≡ due }
    ensures next { due ≤ now → result ≤ now + interval }
    ensures whole { due ≤ now → now + interval < 2 ^ 64 → result ≡ now + interval }
{
    if now < due {
        due
    } else {
        now.saturating_add(interval)
    }
}

// Closes each connection whose idle timeout is over, once the time of the next check is reached. False if none was.
fn close_idle<T: Transport>(
    server: &mut ServerLoop,
    transport: &mut T,
    now: u64,
    next_check: u64,
) -> bool
    ensures closes { Performs (IsIdleClosing now) result server.old server.new
        (T.log transport.old) (T.log transport.new) }
    ensures still_open { AreStillOpen server.old.connections server.new.connections }
    ensures none { next_check ≤ now → IsNoneIdle now server.new }
    ensures no_readier { AreNoReadier (T.readiness transport.old) (T.readiness transport.new) }
{
    if now < next_check {
        return false;
    }
    let mut closed = false;
    let mut from = 0;
    while let Some(number) = server.next_open(from) {
        let is_closed = close_if_idle(server, transport, number, now);
        closed = either(closed, is_closed);
        from = u64::from(number) + 1;
    }
    closed
}

// Closes a connection, if its idle timeout is over. False if it isn't.
fn close_if_idle<T: Transport>(
    server: &mut ServerLoop,
    transport: &mut T,
    number: u32,
    now: u64,
) -> bool
    ensures closes { Performs (IsIdleClosing now) result server.old server.new
        (T.log transport.old) (T.log transport.new) }
    ensures still_open { AreStillOpen server.old.connections server.new.connections }
    ensures gone { (t : Connection) → connection_of number server.new.connections ≡ Some t
        → now < t.last_active + server.new.options.idle_timeout }
    ensures no_readier { AreNoReadier (T.readiness transport.old) (T.readiness transport.new) }
{
    if !server.is_idle(number, now) {
        return false;
    }
    close(server, transport, number, now, CloseReason::IdleTimeout);
    true
}

fn poll_files<T: Transport>(
    alloc: Global,
    server: &mut ServerLoop,
    transport: &mut T,
    names: &[ByteList],
    is_due: bool,
) -> bool
    ensures feeds { (fed : Feeds names.now result server.old server.new (T.log transport.old) (T.log transport.new))
        × (is_due ≡ false → fed.does.trace ≡ [])
        × (is_due ≡ true → is_some server.new.waiting ≡ true → list_any is_refused fed.does.trace ≡ true) }
    ensures kept { server.new.connections ≡ server.old.connections }
    ensures no_readier { AreNoReadier (T.readiness transport.old) (T.readiness transport.new) }
{
    if !is_due {
        return false;
    }
    read_files(alloc, server, transport, names)
}

/// Feeds the streams until no file has more, or memory is refused.
pub fn catch_up<T: Transport>(
    alloc: Global,
    server: &mut ServerLoop,
    transport: &mut T,
    names: &[ByteList],
)
    ensures files { FollowsFiles names.now server.old server.new (T.log transport.old) (T.log transport.new) }
    ensures continues { ContinuesLoop server.old server.new (T.log transport.old) (T.log transport.new) }
{
    for _turn in 0..u64::MAX {
        if !read_files(alloc, server, transport, names) {
            return;
        }
    }
}

// Feeds the piece that waits, and a piece of each file that has more. True if a stream took or refused a piece. A piece
// waits at the end only if memory was refused for it.
fn read_files<T: Transport>(
    alloc: Global,
    server: &mut ServerLoop,
    transport: &mut T,
    names: &[ByteList],
) -> bool
    ensures feeds { FeedsThrough names.now result false server.old server.new
        (T.log transport.old) (T.log transport.new) }
    ensures kept { server.new.connections ≡ server.old.connections }
    ensures no_readier { AreNoReadier (T.readiness transport.old) (T.readiness transport.new) }
{
    let mut grew = feed_waiting(server, transport);
    for (place, name) in names.iter().enumerate() {
        let fed = read_one(alloc, server, transport, place, name.as_slice());
        grew = either(grew, fed);
    }
    grew
}

// Feeds a stream the next piece of its file. No file is read while a piece waits. True if it took or refused the piece.
fn read_one<T: Transport>(
    alloc: Global,
    server: &mut ServerLoop,
    transport: &mut T,
    place: usize,
    name: &[u8],
) -> bool
    ensures feeds { (names : List (List ℕ)) → slice_get names place ≡ Some name.now
        → FeedsThrough names result (is_some server.old.waiting) server.old server.new
        (T.log transport.old) (T.log transport.new) }
    ensures kept { server.new.connections ≡ server.old.connections }
    ensures no_readier { AreNoReadier (T.readiness transport.old) (T.readiness transport.new) }
{
    if server.waiting_place().is_some() {
        return false;
    }
    let Ok(own) = copy_of(alloc, name) else {
        return false;
    };
    match read_piece(alloc, transport, place, name) {
        Some(bytes) => {
            server.grown(FilePiece {
                place,
                name: own,
                bytes,
            });
            feed_waiting(server, transport)
        }
        None => false,
    }
}

fn copy_of(alloc: Global, bytes: &[u8]) -> Result<ByteList, AllocError>
    ensures { IfOk result (λ l. l ≡ bytes.now) }
{
    Ok(ByteList::from_vec(bytes.to_vec(alloc)?))
}

// The next piece of a file, if there is one and memory for it.
fn read_piece<T: Transport>(
    alloc: Global,
    transport: &mut T,
    place: usize,
    name: &[u8],
) -> Option<ByteList>
    ensures logs { Logs (T.log transport.old) (T.log transport.new) (piece_transfers place name.now result) }
    ensures no_readier { AreNoReadier (T.readiness transport.old) (T.readiness transport.new) }
{
    let Ok(mut buffer) = zeroed(alloc, 65_536) else {
        return None;
    };
    let count = transport.read_file(place, name, &mut buffer);
    if count == 0 {
        return None;
    }
    buffer.truncate(count);
    Some(ByteList::from_vec(buffer))
}

// Feeds the piece that waits. False if there is none, or memory is refused and it goes on waiting.
fn feed_waiting<T: Transport>(server: &mut ServerLoop, transport: &mut T) -> bool
    ensures feeds { (names : List (List ℕ))
        → FeedsThrough names result false server.old server.new (T.log transport.old) (T.log transport.new) }
    ensures kept { server.new.connections ≡ server.old.connections }
    ensures no_readier { AreNoReadier (T.readiness transport.old) (T.readiness transport.new) }
{
    let Some(place) = server.waiting_place() else {
        return false;
    };
    let outcome = server.feed();
    report_feed(transport, place, outcome)
}

// Reports to the transport that a stream takes no more of its file. False if memory was refused.
fn report_feed<T: Transport>(
    transport: &mut T,
    place: usize,
    outcome: Result<Reply, HubFault>,
) -> bool
    ensures took { result ≡ not (is_memory outcome) }
    ensures logs { T.log transport.new ≡ T.log transport.old }
    ensures no_readier { AreNoReadier (T.readiness transport.old) (T.readiness transport.new) }
{
    match outcome {
        Ok(_) => true,
        Err(HubFault::Memory) => false,
        Err(fault) => {
            transport.stop_file(place, fault);
            true
        }
    }
}
