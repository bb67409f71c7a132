//! One connection: the bytes that were read and not yet handed to the hub, and the reply bytes not yet written.

ghost use Rattle.std.specs.Prelude.{◌≢◌, ◌==◌, None, IfSome, IfOk, position, ◌≡◌, ◌≤◌, ◌<◌, ◌++◌, [], take, drop, length};
ghost use Rattle.std.specs.Prelude.{true, false, if◌then◌else◌, List, ◌∷◌};
ghost use Rattle.std.specs.List.{list_any};
ghost use Rattle.vp_serve.specs.declared.connection.NextAction.{NextAction};
ghost use Rattle.vp_hub.specs.Lines.{IsLine};
ghost use Rattle.vp_serve.specs.Bounds.{IsKeptLine};
ghost use Rattle.vp_serve.specs.Connection.{Connection as ConnectionModel};
ghost use Rattle.vp_serve.specs.Connections.{new_connection, IsPrefix, after_outcome, after_reply, next_action};
ghost use Rattle.vp_serve.specs.Connections.{connection_of, without, IsConnectionPlace};
ghost use Rattle.vp_serve.specs.Turns.{is_due, IsNextOpen};

use crate::request::PendingRequest;
use std::alloc::{AllocError, Global};
use std::marker::Model;
use vp_base::ByteList;
use vp_hub::{HubFault, Reply};

/// An open connection.
#[derive(Drop)]
pub struct Connection {
    number: u32,
    input: ByteList,
    // How many bytes of `input` were handed to the hub.
    submitted: usize,
    output: ByteList,
    // How many bytes of `output` were written.
    sent: usize,
    closing: bool,
    fault: Option<HubFault>,
    last_active: u64,
    // What the next reply answers. Contracts do not see it.
    request: PendingRequest,
}

impl Model for Connection {
    ghost use Rattle.std.specs.Prelude.{◌≤◌, drop, length};
    ghost use Rattle.vp_serve.specs.Connection.{Connection};

    ghost Value = { Connection };

    ghost view = { λ s. record {
      number = s.number;
      unsubmitted = drop s.submitted s.input;
      unsent = drop s.sent s.output;
      closing = s.closing;
      fault = s.fault;
      last_active = s.last_active;
    } };

    ghost invariant = { λ s. (s.submitted ≤ length s.input) × (s.sent ≤ length s.output)
        × (length s.input ≤ 4096) };
}

/// What is done next for a connection.
#[derive(Clone, Copy, Debug, PartialEq, Eq)]
pub enum NextAction {
    /// Write the rest of its reply.
    Send,
    /// Hand a line of its bytes to the hub.
    Submit,
    /// Read from it.
    Receive,
    /// Close it.
    Close,
}

impl Connection {
    /// A connection that was just accepted, at a time in milliseconds.
    pub fn new(alloc: Global, number: u32, now: u64) -> Connection
        ensures { result ≡ new_connection number now }
    {
        Connection {
            number,
            input: ByteList::from_vec(Vec::new(alloc)),
            submitted: 0,
            output: ByteList::from_vec(Vec::new(alloc)),
            sent: 0,
            closing: false,
            fault: None,
            last_active: now,
            request: PendingRequest::new(alloc),
        }
    }

    /// The number of the connection.
    pub fn number(&self) -> u32
        ensures { result ≡ self.now.number }
    {
        self.number
    }

    /// The time of the last reply or write, in milliseconds.
    pub fn last_active(&self) -> u64
        ensures { result ≡ self.now.last_active }
    {
        self.last_active
    }

    /// The fault with which the hub refused its bytes.
    pub fn fault(&self) -> Option<HubFault>
        ensures { result ≡ self.now.fault }
    {
        self.fault
    }

    /// The bytes that were read and not handed to the hub yet.
    pub fn unsubmitted(&self) -> &[u8]
        ensures { result.now ≡ self.now.unsubmitted }
    {
        &self.input.as_slice()[self.submitted..]
    }

    /// The bytes of the last reply that are not written yet.
    pub fn unsent(&self) -> &[u8]
        ensures { result.now ≡ self.now.unsent }
    {
        &self.output.as_slice()[self.sent..]
    }

    /// A copy of the first line of the bytes that were not handed to the hub yet.
    pub fn line(&self, alloc: Global) -> Result<ByteList, AllocError>
        ensures { IfOk result (λ line. IsPrefix line self.now.unsubmitted × IsLine line
            × (self.now.unsubmitted ≢ [] → line ≢ [])) }
    {
        let unsubmitted = self.unsubmitted();
        copy_line(alloc, unsubmitted, first_line(unsubmitted))
    }

    /// What is done next.
    pub fn next_action(&self) -> NextAction
        ensures { result ≡ next_action self.now }
    {
        if !self.unsent().is_empty() {
            NextAction::Send
        } else if self.closing {
            NextAction::Close
        } else if self.unsubmitted().is_empty() {
            NextAction::Receive
        } else {
            NextAction::Submit
        }
    }

    /// The line of the request that the last reply answers, or of the next one if bytes were handed to the hub since:
    /// the first line of it that isn't blank, without its line end, and at most 8,192 bytes of it.
    pub fn request_line(&self) -> &[u8]
        ensures { IsKeptLine result.now }
    {
        self.request.line()
    }

    /// The number of packets that were decoded for that request.
    pub fn packets(&self) -> u64 {
        self.request.packets()
    }

    /// Whether the server waits for nothing: it hands bytes of the connection to the hub, or closes it.
    pub fn is_due(&self) -> bool
        ensures { result ≡ is_due self.now }
    {
        match self.next_action() {
            NextAction::Submit | NextAction::Close => true,
            NextAction::Send | NextAction::Receive => false,
        }
    }

    /// These bytes were read.
    pub fn received(&mut self, bytes: ByteList)
        requires empty { self.old.unsubmitted ≡ [] }
        requires small { length bytes ≤ 4096 }
        ensures { self.new ≡ record self.old { unsubmitted = bytes } }
    {
        self.input = bytes;
        self.submitted = 0;
    }

    /// The first `count` bytes were handed to the hub, with an outcome: a reply is to be written, a fault closes the
    /// connection.
    pub fn submitted(
        &mut self,
        alloc: Global,
        count: usize,
        outcome: Result<Reply, HubFault>,
        now: u64,
    )
        requires count { count ≤ length self.old.unsubmitted }
        requires idle { self.old.unsent ≡ [] }
        ensures { self.new ≡ after_outcome outcome (drop count self.old.unsubmitted) now self.old }
    {
        self.skip(count);
        match outcome {
            Ok(reply) => self.replied(reply.bytes, reply.close, now),
            Err(fault) => {
                self.output = ByteList::from_vec(Vec::new(alloc));
                self.sent = 0;
                self.closing = true;
                self.fault = Some(fault);
            }
        }
    }

    /// A line was handed to the hub, and packets were decoded for it: for `request_line` and `packets`.
    pub fn keep_request(&mut self, line: ByteList, packets: u64)
        ensures { self.new ≡ self.old }
    {
        self.request.add(line, packets);
    }

    // The first bytes were handed to the hub.
    fn skip(&mut self, count: usize)
        requires { count ≤ length self.old.unsubmitted }
        ensures { self.new ≡ record self.old { unsubmitted = drop count self.old.unsubmitted } }
    {
        let _all = self.input.len();
        self.submitted += count;
    }

    // A reply is to be written.
    fn replied(&mut self, bytes: ByteList, close: bool, now: u64)
        requires { self.old.unsent ≡ [] }
        ensures { self.new ≡ after_reply bytes close now self.old }
    {
        if !bytes.is_empty() {
            self.last_active = now;
            self.request.answer();
        }
        self.output = bytes;
        self.sent = 0;
        self.closing = close;
    }

    /// The first `count` bytes of the rest of the reply were written.
    pub fn sent(&mut self, count: usize, now: u64)
        requires { count ≤ length self.old.unsent }
        ensures { self.new ≡ record self.old { unsent = drop count self.old.unsent; last_active = now } }
    {
        let _all = self.output.len();
        self.sent += count;
        self.last_active = now;
    }
}

fn place_of(connections: &[Connection], number: u32) -> Option<usize>
    ensures place { result ≡ position (λ x. x.number == number) connections.now }
    ensures there { IfSome result (λ i. i < length connections.now) }
{
    connections.iter().position(|x| x.number() == number)
}

/// The index of the connection of a number.
pub fn find(connections: &[Connection], number: u32) -> Option<usize>
    ensures none { result ≡ None → connection_of number connections.now ≡ None }
    ensures some { IfSome result (IsConnectionPlace number connections.now) }
{
    place_of(connections, number)
}

// The smaller of a number, if it is at least `from`, and the smallest one so far.
fn nearer(from: u64, next: Option<u32>, number: u32) -> Option<u32>
    ensures { (connections : List ConnectionModel) → IsNextOpen from connections next
        → (added : ConnectionModel) → added.number ≡ number → IsNextOpen from (connections ++ added ∷ []) result }
{
    if u64::from(number) < from {
        return next;
    }
    match next {
        Some(best) => { if best <= number { next } else { Some(number) } }
        None => Some(number),
    }
}

/// The number of the connection of the smallest number that is at least `from`.
pub fn next_open(connections: &[Connection], from: u64) -> Option<u32>
    ensures { IsNextOpen from connections.now result }
{
    let mut next = None;
    for connection in connections {
        next = nearer(from, next, connection.number());
    }
    next
}

/// Whether a connection has bytes that are to be handed to the hub, or is to be closed.
pub fn is_one_due(connections: &[Connection]) -> bool
    ensures { result ≡ list_any is_due connections.now }
{
    connections.iter().any(|x| x.is_due())
}

/// Removes the connection of a number.
pub fn remove_all(connections: &mut Vec<Connection>, number: u32)
    ensures { connections.new.items ≡ without number connections.old.items }
{
    connections.retain(|x| x.number() != number);
}

fn line_feed(bytes: &[u8]) -> Option<usize>
    ensures place { result ≡ position (λ b. b == 10) bytes.now }
    ensures there { IfSome result (λ i. i < length bytes.now) }
{
    bytes.iter().position(|b| *b == b'\n')
}

/// The length of the first line with its line feed, or of all bytes.
pub fn first_line(bytes: &[u8]) -> usize
    ensures most { result ≤ length bytes.now }
    ensures some { 0 < length bytes.now → 0 < result }
    ensures line { IsLine (take result bytes.now) }
{
    match line_feed(bytes) {
        Some(place) => place + 1,
        None => bytes.len(),
    }
}

fn copy_line(alloc: Global, bytes: &[u8], count: usize) -> Result<ByteList, AllocError>
    requires most { count ≤ length bytes.now }
    requires line { IsLine (take count bytes.now) }
    requires some { 0 < length bytes.now → 0 < count }
    ensures { IfOk result (λ line. IsPrefix line bytes.now × IsLine line × (bytes.now ≢ [] → line ≢ [])) }
{
    let copy = copy_prefix(alloc, bytes, count)?;
    Ok(copy)
}

fn copy_prefix(alloc: Global, bytes: &[u8], count: usize) -> Result<ByteList, AllocError>
    requires { count ≤ length bytes.now }
    ensures { IfOk result (λ copy. copy ≡ take count bytes.now) }
{
    Ok(ByteList::from_vec(bytes[..count].to_vec(alloc)?))
}
