//! One turn of the server over a transport: it accepts connections and attends those that are ready.

ghost use Rattle.std.specs.Prelude.{◌≡◌, ◌∷◌, ◌||◌, [], List, Option, Some, IfOk, option_map, vec_len};
ghost use Rattle.std.specs.Prelude.{true, false, None, IfSome};
ghost use Rattle.vp_hub.specs.Hub.{Outcome};
ghost use Rattle.vp_serve.specs.Connection.{Connection};
ghost use Rattle.vp_serve.specs.Connections.{connection_of, next_action};
ghost use Rattle.vp_serve.specs.declared.connection.NextAction.TheVariants.{Send, Submit, Receive, Close};
ghost use Rattle.vp_serve.specs.Readiness.{AreNoReadier, IsReadyAt, is_ready_for};
ghost use Rattle.vp_serve.specs.Reasons.{IsNotFinished, IsReason};
ghost use Rattle.vp_serve.specs.ServerLoop.{Closed, IsTransition};
ghost use Rattle.vp_serve.specs.Transfer.{Transfer, Closes, Logs};
ghost use Rattle.vp_serve.specs.Transport.{ContinuesLoop};
ghost use Rattle.vp_serve.specs.Parts.{AreNoReadierBelow, IsArrival, IsSubmissionOf, IsTransferOf, Performs};
ghost use Rattle.vp_serve.specs.Turns.{AttendsOne, IsDueAt, TakesTurn};
ghost use Rattle.vp_serve.specs.Turns.{is_due_action};

use crate::connection::NextAction;
use crate::reason::{CloseReason, reason_of};
use crate::server_loop::ServerLoop;
use crate::transport::{ReadOutcome, Transport, WriteOutcome};
use std::alloc::{AllocError, Global};
use vp_base::ByteList;

/// One turn at a time in milliseconds: accepts connections, and attends each that is ready. False if nothing happened.
pub fn turn<T: Transport>(
    alloc: Global,
    server: &mut ServerLoop,
    transport: &mut T,
    now: u64,
) -> bool
    ensures continues { ContinuesLoop server.old server.new (T.log transport.old) (T.log transport.new) }
    ensures fair { TakesTurn now result server.old server.new (T.log transport.old) (T.log transport.new)
        (T.readiness transport.old) (T.readiness transport.new) }
    ensures still { result ≡ false → server.new ≡ server.old }
{
    let accepted = accept_all(server, transport, now);
    let moved = attend_all(alloc, server, transport, now);
    either(accepted, moved)
}

pub(crate) fn either(a: bool, b: bool) -> bool
    ensures { result ≡ a || b }
{
    a || b
}

fn accept_all<T: Transport>(server: &mut ServerLoop, transport: &mut T, now: u64) -> bool
    ensures performs { Performs (IsArrival now) result server.old server.new
        (T.log transport.old) (T.log transport.new) }
    ensures no_readier { AreNoReadierBelow server.old.next (T.readiness transport.old) (T.readiness transport.new) }
{
    let mut accepted = false;
    for _ in 0..64 {
        if !accept_one(server, transport, now) {
            break;
        }
        accepted = true;
    }
    accepted
}

// Accepts a connection, if there is one and it may be open. False if there is none.
fn accept_one<T: Transport>(server: &mut ServerLoop, transport: &mut T, now: u64) -> bool
    ensures performs { Performs (IsArrival now) result server.old server.new
        (T.log transport.old) (T.log transport.new) }
    ensures no_readier { AreNoReadierBelow server.old.next (T.readiness transport.old) (T.readiness transport.new) }
{
    if server.is_full() {
        return false;
    }
    let number = server.next_number();
    if !transport.accept(number) {
        return false;
    }
    match server.accept(now) {
        Ok(()) => true,
        Err(fault) => {
            transport.close(number, reason_of(Some(fault)));
            true
        }
    }
}

// Attends each connection that is ready, in ascending order of their numbers.
fn attend_all<T: Transport>(
    alloc: Global,
    server: &mut ServerLoop,
    transport: &mut T,
    now: u64,
) -> bool
    ensures turn { TakesTurn now result server.old server.new (T.log transport.old) (T.log transport.new)
        (T.readiness transport.old) (T.readiness transport.new) }
    ensures still { result ≡ false → server.new ≡ server.old }
{
    let mut moved = false;
    let mut from = 0;
    while let Some(number) = server.next_open(from) {
        let attended = attend_if_ready(alloc, server, transport, number, now);
        moved = either(moved, attended);
        from = u64::from(number) + 1;
    }
    moved
}

// Attends a connection, if it is ready for its next action.
fn attend_if_ready<T: Transport>(
    alloc: Global,
    server: &mut ServerLoop,
    transport: &mut T,
    number: u32,
    now: u64,
) -> bool
    ensures own { AttendsOne number now result server.old server.new (T.log transport.old) (T.log transport.new) }
    ensures due { IsDueAt number server.old → result ≡ true }
    ensures ready { IsReadyAt number (T.readiness transport.new) server.new → result ≡ true }
    ensures only { result ≡ true → IsReadyAt number (T.readiness transport.old) server.old }
    ensures no_readier { AreNoReadier (T.readiness transport.old) (T.readiness transport.new) }
{
    if !is_ready(transport, number, server.next_action(number)) {
        return false;
    }
    attend(alloc, server, transport, number, now)
}

fn is_ready<T: Transport>(transport: &T, number: u32, action: Option<NextAction>) -> bool
    ensures none { action ≡ None → result ≡ false }
    ensures due { IfSome action (λ a. is_due_action a ≡ true → result ≡ true) }
    ensures ready { IfSome action (λ a. result ≡ is_ready_for (T.readiness transport.now number) a) }
{
    match action {
        Some(NextAction::Send) => transport.can_write(number),
        Some(NextAction::Receive) => transport.can_read(number),
        Some(NextAction::Submit) => true,
        Some(NextAction::Close) => true,
        None => false,
    }
}

/// Does what can be done at once for a connection: writes, reads, hands lines to the hub, writes the reply, and closes
/// it if it is finished. False if nothing happened, and then it is not ready for its next action.
pub fn attend<T: Transport>(
    alloc: Global,
    server: &mut ServerLoop,
    transport: &mut T,
    number: u32,
    now: u64,
) -> bool
    ensures continues { ContinuesLoop server.old server.new (T.log transport.old) (T.log transport.new) }
    ensures closed { IsNotFinished number server.new.connections }
    ensures own { AttendsOne number now result server.old server.new (T.log transport.old) (T.log transport.new) }
    ensures still { result ≡ false → server.new ≡ server.old }
    ensures due { IsDueAt number server.old → result ≡ true }
    ensures ready { IsReadyAt number (T.readiness transport.new) server.new → result ≡ true }
    ensures no_readier { AreNoReadier (T.readiness transport.old) (T.readiness transport.new) }
{
    let sent = send(server, transport, number, now);
    let received = receive(alloc, server, transport, number, now);
    let submitted = submit_all(server, transport, number, now);
    let replied = send(server, transport, number, now);
    let closed = close_finished(server, transport, number, now);
    either(
        either(sent, received),
        either(submitted, either(replied, closed)),
    )
}

// Writes to a connection, if bytes of its reply are left.
fn send<T: Transport>(server: &mut ServerLoop, transport: &mut T, number: u32, now: u64) -> bool
    ensures performs { Performs (IsTransferOf number now) result server.old server.new
        (T.log transport.old) (T.log transport.new) }
    ensures blocks { option_map next_action (connection_of number server.old.connections) ≡ Some Send
        → result ≡ false → (T.readiness transport.new number).write ≡ false }
    ensures no_readier { AreNoReadier (T.readiness transport.old) (T.readiness transport.new) }
{
    let Some(NextAction::Send) = server.next_action(number) else {
        return false;
    };
    match transport.write(number, server.unsent(number)) {
        WriteOutcome::Bytes(count) => {
            server.sent(number, count, now);
            true
        }
        WriteOutcome::WouldBlock => false,
        WriteOutcome::Failed => {
            close(server, transport, number, now, CloseReason::TransferFailed);
            true
        }
    }
}

// Reads from a connection, if all its bytes are handed to the hub and all replies are written. Closes it if memory is
// refused for that.
fn receive<T: Transport>(
    alloc: Global,
    server: &mut ServerLoop,
    transport: &mut T,
    number: u32,
    now: u64,
) -> bool
    ensures performs { Performs (IsTransferOf number now) result server.old server.new
        (T.log transport.old) (T.log transport.new) }
    ensures blocks { option_map next_action (connection_of number server.old.connections) ≡ Some Receive
        → result ≡ false → (T.readiness transport.new number).read ≡ false }
    ensures no_readier { AreNoReadier (T.readiness transport.old) (T.readiness transport.new) }
{
    let Some(NextAction::Receive) = server.next_action(number) else {
        return false;
    };
    let Ok(mut buffer) = zeroed(alloc, 4096) else {
        close(server, transport, number, now, CloseReason::OutOfMemory);
        return true;
    };
    match transport.read(number, &mut buffer) {
        ReadOutcome::Bytes(count) => {
            buffer.truncate(count);
            server.received(number, ByteList::from_vec(buffer));
            true
        }
        ReadOutcome::WouldBlock => false,
        ReadOutcome::EndOfInput => {
            close(server, transport, number, now, CloseReason::PeerEnded);
            true
        }
        ReadOutcome::Failed => {
            close(server, transport, number, now, CloseReason::TransferFailed);
            true
        }
    }
}

// A buffer of zero bytes.
pub(crate) fn zeroed(alloc: Global, count: usize) -> Result<Vec<u8>, AllocError>
    ensures { IfOk result (λ v. vec_len v ≡ count) }
{
    Vec::from_elem(alloc, 0, count)
}

// Hands the bytes of a connection to the hub line by line, until there is a reply. False if nothing happened.
fn submit_all<T: Transport>(
    server: &mut ServerLoop,
    transport: &mut T,
    number: u32,
    now: u64,
) -> bool
    ensures performs { Performs (IsSubmissionOf number now) result server.old server.new
        (T.log transport.old) (T.log transport.new) }
    ensures due { option_map next_action (connection_of number server.old.connections) ≡ Some Submit
        → result ≡ true }
    ensures no_readier { AreNoReadier (T.readiness transport.old) (T.readiness transport.new) }
{
    let mut moved = false;
    for _line in 0..4096_u32 {
        if !submit_one(server, transport, number, now) {
            break;
        }
        moved = true;
    }
    moved
}

// Hands a line of a connection to the hub, or closes it if memory is refused for that. False if there is none, or a
// reply is to be written first.
fn submit_one<T: Transport>(
    server: &mut ServerLoop,
    transport: &mut T,
    number: u32,
    now: u64,
) -> bool
    ensures performs { Performs (IsSubmissionOf number now) result server.old server.new
        (T.log transport.old) (T.log transport.new) }
    ensures due { option_map next_action (connection_of number server.old.connections) ≡ Some Submit
        → result ≡ true }
    ensures no_readier { AreNoReadier (T.readiness transport.old) (T.readiness transport.new) }
{
    let Some(NextAction::Submit) = server.next_action(number) else {
        return false;
    };
    match server.submit(number, now) {
        Ok(()) => {
            tell_reply(server, transport, number, now);
            true
        }
        Err(_) => {
            close(server, transport, number, now, CloseReason::OutOfMemory);
            true
        }
    }
}

// Tells the transport of the reply to a line that was just handed to the hub, if there is one.
fn tell_reply<T: Transport>(server: &ServerLoop, transport: &mut T, number: u32, now: u64)
    ensures logs { T.log transport.new ≡ T.log transport.old }
    ensures no_readier { AreNoReadier (T.readiness transport.old) (T.readiness transport.new) }
{
    let reply = server.unsent(number);
    if reply.is_empty() {
        return;
    }
    let request = server.request_line(number);
    transport.replied(number, now, request, reply, server.packets(number));
}

// Closes a connection that the hub closes, once its reply is written.
fn close_finished<T: Transport>(
    server: &mut ServerLoop,
    transport: &mut T,
    number: u32,
    now: u64,
) -> bool
    ensures performs { Performs (IsTransferOf number now) result server.old server.new
        (T.log transport.old) (T.log transport.new) }
    ensures due { option_map next_action (connection_of number server.old.connections) ≡ Some Close → result ≡ true }
    ensures closed { IsNotFinished number server.new.connections }
    ensures no_readier { AreNoReadier (T.readiness transport.old) (T.readiness transport.new) }
{
    let Some(NextAction::Close) = server.next_action(number) else {
        return false;
    };
    let reason = reason_of(server.fault(number));
    close(server, transport, number, now, reason);
    true
}

// Closes a connection at both ends.
pub(crate) fn close<T: Transport>(
    server: &mut ServerLoop,
    transport: &mut T,
    number: u32,
    now: u64,
    reason: CloseReason,
)
    requires { (t : Connection) × (connection_of number server.old.connections ≡ Some t)
        × IsReason server.old.options now t reason }
    ensures closed { (o : Outcome) × IsTransition server.old (Closed number now reason o) server.new }
    ensures logs { Logs (T.log transport.old) (T.log transport.new) (Closes number reason ∷ []) }
    ensures no_readier { AreNoReadier (T.readiness transport.old) (T.readiness transport.new) }
{
    transport.close(number, reason);
    server.close(number, now, reason);
}
