//! The hub and its open connections, with one call for each action.

ghost use Rattle.std.specs.Prelude.{◌≡◌, ◌≢◌, ◌==◌, ◌||◌, ◌&&◌, ◌≤◌, ◌<◌, ◌-◌, ◌+◌, ◌^◌, ◌++◌, ◌∷◌, ℕ, List, Option};
ghost use Rattle.std.specs.Prelude.{Some, None, Ok, Err, OnOk, OnErr, IfSome, IfErr, option_map, is_some, slice_get};
ghost use Rattle.std.specs.Prelude.{[], take, length, true, false, nat_lt};
ghost use Rattle.vp_serve.specs.declared.connection.NextAction.TheVariants.{Send, Submit, Receive};
ghost use Rattle.vp_serve.specs.declared.options.FilePiece.{FilePiece};
ghost use Rattle.vp_hub.specs.declared.event.Event.TheVariants.{Feed, Open};
ghost use Rattle.vp_hub.specs.declared.event.HubFault.TheVariants.{Memory};
ghost use Rattle.vp_hub.specs.Hub.{Outcome, IsStep, no_bytes};
ghost use Rattle.vp_hub.specs.View.{is_memory as hub_is_memory};
ghost use Rattle.vp_serve.specs.Bounds.{IsKeptLine};
ghost use Rattle.vp_serve.specs.Connection.{Connection};
ghost use Rattle.vp_serve.specs.Connections.{connection_of, unsent_of, next_action};
ghost use Rattle.vp_serve.specs.Reasons.{IsReason};
ghost use Rattle.vp_serve.specs.ServerLoop.{LoopState, initial, is_full, is_over, after_feed, Action, Accepted};
ghost use Rattle.vp_serve.specs.ServerLoop.{Rejected, Received, Submitted, Sent, Closed, Grown, Fed, Ended};
ghost use Rattle.vp_serve.specs.ServerLoop.{IsTransition};
ghost use Rattle.vp_serve.specs.ServerLoop.{AwaitsPeers};
ghost use Rattle.vp_serve.specs.Turns.{IsNextOpen, is_due};
ghost use Rattle.std.specs.List.{list_any};
ghost use Rattle.vp_serve.specs.Reading.{refusal_of_feed, is_idle, is_past};

use crate::connection::{Connection, NextAction, find, is_one_due, next_open, remove_all};
use crate::options::{FilePiece, ServeOptions};
use crate::reason::CloseReason;
use std::alloc::{AllocError, Global};
use std::marker::Model;
use vp_base::ByteList;
use vp_hub::{Event, Hub, HubFault, Reply};

/// A hub and its open connections.
#[derive(Drop)]
pub struct ServerLoop {
    alloc: Global,
    options: ServeOptions,
    hub: Hub,
    connections: Vec<Connection>,
    next: u32,
    waiting: Option<FilePiece>,
}

impl Model for ServerLoop {
    ghost use Rattle.vp_serve.specs.ServerLoop.{LoopState};

    ghost Value = { LoopState };

    ghost view = { λ d. record {
      options = d.options;
      hub = d.hub.state;
      connections = d.connections.items;
      next = d.next;
      waiting = d.waiting;
    } };
}

impl ServerLoop {
    /// A server with no open connection.
    pub fn new(alloc: Global, hub: Hub, options: ServeOptions) -> ServerLoop
        ensures { result ≡ initial options hub.state }
    {
        ServerLoop {
            alloc,
            options,
            hub,
            connections: Vec::new(alloc),
            next: 0,
            waiting: None,
        }
    }

    /// What the server is limited to.
    pub fn options(&self) -> ServeOptions
        ensures { result ≡ self.now.options }
    {
        self.options
    }

    /// Whether no connection is accepted: too many are open, or all were accepted.
    pub fn is_full(&self) -> bool
        ensures { result ≡ is_full self.now }
    {
        self.connections.len() >= self.options.max_connections
            || self.next >= self.options.total_connections
    }

    /// Whether all connections were accepted, and none is open.
    pub fn is_over(&self) -> bool
        ensures { result ≡ is_over self.now }
    {
        self.next >= self.options.total_connections && self.connections.len() == 0
    }

    /// The number of the next connection, which is how many were accepted or rejected so far.
    pub fn next_number(&self) -> u32
        ensures { result ≡ self.now.next }
    {
        self.next
    }

    /// How many connections are open.
    pub fn connection_count(&self) -> usize
        ensures { result ≡ length self.now.connections }
    {
        self.connections.len()
    }

    /// The number of the connection at an index.
    pub fn number_at(&self, place: usize) -> Option<u32>
        ensures { result ≡ option_map (λ t. t.number) (slice_get self.now.connections place) }
    {
        match self.connections.get(place) {
            Some(connection) => Some(connection.number()),
            None => None,
        }
    }

    /// The number of the open connection of the smallest number that is at least `from`.
    pub fn next_open(&self, from: u64) -> Option<u32>
        ensures { IsNextOpen from self.now.connections result }
    {
        next_open(&self.connections, from)
    }

    /// Whether a connection has bytes that are to be handed to the hub, or is to be closed.
    pub fn is_due(&self) -> bool
        ensures all { result ≡ false → AwaitsPeers self.now }
        ensures test { result ≡ list_any is_due self.now.connections }
    {
        is_one_due(&self.connections)
    }

    /// What is done next for a connection; `None` if it is not open.
    pub fn next_action(&self, number: u32) -> Option<NextAction>
        ensures { result ≡ option_map next_action (connection_of number self.now.connections) }
    {
        let place = find(&self.connections, number)?;
        Some(self.connections[place].next_action())
    }

    /// The fault with which the hub refused the bytes of a connection.
    pub fn fault(&self, number: u32) -> Option<HubFault>
        ensures { result ≡ refusal_of_feed (connection_of number self.now.connections) }
    {
        match find(&self.connections, number) {
            Some(place) => self.connections[place].fault(),
            None => None,
        }
    }

    /// Whether a connection is open and its idle timeout is over at a time in milliseconds.
    pub fn is_idle(&self, number: u32, now: u64) -> bool
        ensures { result ≡ is_idle self.now.options now (connection_of number self.now.connections) }
    {
        match find(&self.connections, number) {
            Some(place) => is_past(
                self.connections[place].last_active(),
                self.options.idle_timeout,
                now,
            ),
            None => false,
        }
    }

    /// The bytes of a connection's reply that are not written yet.
    pub fn unsent(&self, number: u32) -> &[u8]
        ensures { result.now ≡ unsent_of number self.now.connections }
    {
        match find(&self.connections, number) {
            Some(place) => self.connections[place].unsent(),
            None => &[],
        }
    }

    /// The line of the request that the last reply of a connection answers, or of the next one if bytes were handed to
    /// the hub since: the first line of it that isn't blank, without its line end, and at most 8,192 bytes of it.
    pub fn request_line(&self, number: u32) -> &[u8]
        ensures none { connection_of number self.now.connections ≡ None → result.now ≡ [] }
        ensures short { IsKeptLine result.now }
    {
        match find(&self.connections, number) {
            Some(place) => self.connections[place].request_line(),
            None => &[],
        }
    }

    /// The number of packets that were decoded for that request. It saturates.
    pub fn packets(&self, number: u32) -> u64
        ensures { connection_of number self.now.connections ≡ None → result ≡ 0 }
    {
        match find(&self.connections, number) {
            Some(place) => self.connections[place].packets(),
            None => 0,
        }
    }

    /// Accepts the next connection. On an error it is rejected: its number is used up, and the hub is unchanged.
    pub fn accept(&mut self, now: u64) -> Result<(), HubFault>
        requires { is_full self.old ≡ false }
        ensures ok { OnOk result (IsTransition self.old (Accepted self.old.next now) self.new) }
        ensures err { IfErr result (λ fault. IsTransition self.old (Rejected self.old.next fault) self.new) }
    {
        let number = self.next;
        self.next += 1;
        let connection = Connection::new(self.alloc, number, now);
        let Ok(()) = self.connections.reserve(1) else {
            return Err(HubFault::Memory);
        };
        match open(&mut self.hub, number) {
            Ok(()) => {
                let Ok(()) = self.connections.push(connection) else {
                    unreachable!();
                };
                Ok(())
            }
            Err(fault) => Err(fault),
        }
    }

    /// These bytes were read from a connection.
    pub fn received(&mut self, number: u32, bytes: ByteList)
        requires reads { option_map next_action (connection_of number self.old.connections) ≡ Some Receive }
        requires small { length bytes ≤ 4096 }
        ensures { IsTransition self.old (Received number bytes) self.new }
    {
        let Some(place) = find(&self.connections, number) else {
            unreachable!();
        };
        self.connections[place].received(bytes);
    }

    /// Hands a line of a connection's bytes to the hub. If memory for the line is refused nothing changes.
    pub fn submit(&mut self, number: u32, now: u64) -> Result<(), AllocError>
        requires { option_map next_action (connection_of number self.old.connections) ≡ Some Submit }
        ensures ok { OnOk result ((line : List ℕ) × (o : Outcome)
            × IsTransition self.old (Submitted number now line o) self.new) }
        ensures err { OnErr result (self.new ≡ self.old) }
    {
        let Some(place) = find(&self.connections, number) else {
            unreachable!();
        };
        let connection = &mut self.connections[place];
        let line = connection.line(self.alloc)?;
        let count = line.len();
        let event = Event::Bytes(number, line);
        let outcome = self.hub.step(&event);
        keep_line(connection, event, self.hub.work());
        connection.submitted(self.alloc, count, outcome, now);
        Ok(())
    }

    /// The first `count` bytes of the rest of a connection's reply were written.
    pub fn sent(&mut self, number: u32, count: usize, now: u64)
        requires sends { option_map next_action (connection_of number self.old.connections) ≡ Some Send }
        requires most { count ≤ length (unsent_of number self.old.connections) }
        ensures { IsTransition self.old
            (Sent number now (take count (unsent_of number self.old.connections))) self.new }
    {
        let Some(place) = find(&self.connections, number) else {
            unreachable!();
        };
        self.connections[place].sent(count, now);
    }

    /// Closes a connection, here and in the hub, for a reason that is true of it.
    pub fn close(&mut self, number: u32, now: u64, reason: CloseReason)
        requires { (t : Connection) × (connection_of number self.old.connections ≡ Some t)
            × IsReason self.old.options now t reason }
        ensures { (o : Outcome) × IsTransition self.old (Closed number now reason o) self.new }
    {
        let _ = reason;
        let _ = self.hub.step(&Event::Shut(number));
        remove_all(&mut self.connections, number);
    }

    /// The index of the file whose piece waits to be fed.
    pub fn waiting_place(&self) -> Option<usize>
        ensures { result ≡ option_map (λ p. p.place) self.now.waiting }
    {
        match &self.waiting {
            Some(piece) => Some(piece.place),
            None => None,
        }
    }

    /// A piece was read from a file, and waits to be fed to its stream.
    pub fn grown(&mut self, piece: FilePiece)
        requires { self.old.waiting ≡ None }
        ensures { IsTransition self.old (Grown piece) self.new }
    {
        self.waiting = Some(piece);
    }

    /// Feeds the piece that waits to its stream. If memory is refused it goes on waiting.
    pub fn feed(&mut self) -> Result<Reply, HubFault>
        requires { is_some self.old.waiting ≡ true }
        ensures { (piece : FilePiece) × IsTransition self.old (Fed piece result) self.new }
    {
        let Some(piece) = self.waiting.take() else {
            unreachable!();
        };
        let FilePiece { place, name, bytes } = piece;
        let event = Event::Feed(name, bytes);
        let outcome = self.hub.step(&event);
        self.waiting = kept_piece(place, event, &outcome);
        outcome
    }

    /// Reports the end of a stream to the hub.
    pub fn end(&mut self, name: ByteList) -> Result<Reply, HubFault>
        requires { self.old.waiting ≡ None }
        ensures { IsTransition self.old (Ended name result) self.new }
    {
        self.hub.step(&Event::End(name))
    }
}

// Opens a connection in the hub. On an error the hub is unchanged.
fn open(hub: &mut Hub, number: u32) -> Result<(), HubFault>
    ensures ok { OnOk result (IsStep hub.old.state (Open number) (Ok no_bytes) hub.new.state) }
    ensures err { IfErr result (λ fault. (hub.new.state ≡ hub.old.state)
        × (fault ≢ Memory → IsStep hub.old.state (Open number) (Err fault) hub.old.state)) }
{
    match hub.step(&Event::Open(number)) {
        Ok(_) => Ok(()),
        Err(fault) => Err(fault),
    }
}

// The piece of an event, if memory was refused for it.
fn kept_piece(place: usize, event: Event, outcome: &Result<Reply, HubFault>) -> Option<FilePiece>
    ensures { (name bytes : List ℕ) → event ≡ Feed name bytes
        → result ≡ after_feed (record { place = place; name = name; bytes = bytes }) outcome.now }
{
    if !is_memory(outcome) {
        return None;
    }
    match event {
        Event::Feed(name, bytes) => Some(FilePiece { place, name, bytes }),
        Event::End(_name) => None,
        Event::Open(_number) => None,
        Event::Bytes(_number, _bytes) => None,
        Event::Shut(_number) => None,
    }
}

// Keeps the line of an event for the request that the next reply answers.
fn keep_line(connection: &mut Connection, event: Event, packets: u64)
    ensures { connection.new ≡ connection.old }
{
    match event {
        Event::Bytes(_number, line) => connection.keep_request(line, packets),
        Event::Feed(_name, _bytes) => {}
        Event::End(_name) => {}
        Event::Open(_number) => {}
        Event::Shut(_number) => {}
    }
}

fn is_memory(outcome: &Result<Reply, HubFault>) -> bool
    ensures { result ≡ hub_is_memory outcome.now }
{
    matches!(outcome, Err(HubFault::Memory))
}

// Whether a time limit is over that began at a time.
fn is_past(start: u64, limit: u64, now: u64) -> bool
    ensures { result ≡ is_past start limit now }
{
    match start.checked_add(limit) {
        Some(end) => end <= now,
        None => false,
    }
}
