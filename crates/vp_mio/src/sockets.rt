//! The sockets of the open connections, and those that linger: never more than 64 of each.

ghost use Rattle.std.specs.Prelude.{◌≡◌, ◌==◌, ◌≤◌, ◌<◌, IfSome, None, true, false, length, nat_lt, not, position};
ghost use Rattle.vp_serve.specs.declared.transport.ReadOutcome.{ReadOutcome};
ghost use Rattle.vp_serve.specs.declared.transport.WriteOutcome.{WriteOutcome};
ghost use Rattle.vp_serve.specs.Readiness.{AreNoReadier};
ghost use Rattle.vp_serve.specs.Transport.{read_count, written_count};
ghost use Rattle.vp_mio.specs.Sockets.{gains, has_socket, readiness_of, AreAsOpen, OthersStay};

use crate::lingering::{Drained, LingeringSocket};
use crate::socket::{Readiness, Socket};
use mio::net::TcpStream;
use std::alloc::{AllocError, Global};
use std::marker::Model;
use std::net::{Shutdown, SocketAddr};
use vp_serve::{ReadOutcome, WriteOutcome};

/// The most sockets of open connections, which is how many connections a hub has.
pub(crate) const MAX_OPEN: usize = 64;

/// The most sockets that linger.
pub(crate) const MAX_LINGERING: usize = 64;

/// The sockets of the open connections, one each, and those that linger, the longest first.
#[derive(Drop)]
pub(crate) struct Sockets {
    connected: Vec<Socket>,
    lingering: Vec<LingeringSocket>,
}

impl Model for Sockets {
    ghost use Rattle.std.specs.Prelude.{◌≤◌, List, length};
    ghost use Rattle.vp_mio.specs.Sockets.{OpenSocket, AreDistinct};

    ghost Value = { List OpenSocket };

    ghost view = { λ s. s.connected.items };

    ghost invariant = { λ s. (length s.connected.items ≤ 64) × (length s.lingering.items ≤ 64)
        × AreDistinct s.connected.items };
}

impl Sockets {
    /// No sockets, with room for all that there may be.
    pub(crate) fn new(alloc: Global) -> Result<Sockets, AllocError> {
        Ok(Sockets {
            connected: Vec::with_capacity(alloc, MAX_OPEN)?,
            lingering: Vec::with_capacity(alloc, MAX_LINGERING)?,
        })
    }

    /// Whether no socket can be added: there are 64.
    pub(crate) fn is_full(&self) -> bool
        ensures full { result ≡ not (nat_lt (length self.now) 64) }
        ensures most { length self.now ≤ 64 }
    {
        self.connected.len() >= MAX_OPEN
    }

    /// Adds the socket of a new connection. False if there is no room, or its number has one.
    pub(crate) fn add(&mut self, socket: Socket) -> bool
        ensures added { result ≡ true →
            (has_socket socket.number self.new ≡ true) × (readiness_of self.new socket.number ≡ socket.ready) }
        ensures refused { result ≡ false → self.new ≡ self.old }
        ensures others { OthersStay socket.number self.old self.new }
    {
        if self.connected.len() >= MAX_OPEN {
            return false;
        }
        if has_socket(&self.connected, socket.number()) {
            return false;
        }
        self.connected.push(socket).is_ok()
    }

    /// Whether a read of a connection may do something.
    pub(crate) fn can_read(&self, number: u32) -> bool
        ensures { result ≡ (readiness_of self.now number).read }
    {
        match place_of(&self.connected, number) {
            Some(place) => self.connected[place].can_read(),
            None => false,
        }
    }

    /// Whether a write of a connection may do something.
    pub(crate) fn can_write(&self, number: u32) -> bool
        ensures { result ≡ (readiness_of self.now number).write }
    {
        match place_of(&self.connected, number) {
            Some(place) => self.connected[place].can_write(),
            None => false,
        }
    }

    /// The address of the peer of a connection.
    pub(crate) fn peer(&self, number: u32) -> Option<SocketAddr> {
        let place = place_of(&self.connected, number)?;
        Some(self.connected[place].peer())
    }

    /// Notes what an event reports of a connection.
    pub(crate) fn mark(&mut self, number: u32, found: Readiness)
        ensures own { has_socket number self.old ≡ true →
            readiness_of self.new number ≡ gains (readiness_of self.old number) found.read found.write }
        ensures none { has_socket number self.old ≡ false → self.new ≡ self.old }
        ensures others { OthersStay number self.old self.new }
        ensures as_open { AreAsOpen self.old self.new }
    {
        match place_of(&self.connected, number) {
            Some(place) => self.connected[place].mark(found),
            None => self.mark_lingering(number),
        }
    }

    // Notes that there may be bytes to read from a socket that lingers.
    fn mark_lingering(&mut self, number: u32)
        ensures { self.new ≡ self.old }
    {
        if let Some(place) = lingering_place_of(&self.lingering, number) {
            self.lingering[place].mark();
        }
    }

    /// Reads from a connection.
    pub(crate) fn read(&mut self, number: u32, buffer: &mut [u8]) -> ReadOutcome
        ensures within { read_count result ≤ length buffer.new }
        ensures no_readier { AreNoReadier (readiness_of self.old) (readiness_of self.new) }
        ensures blocks { result ≡ ReadOutcome.WouldBlock → (readiness_of self.new number).read ≡ false }
        ensures others { OthersStay number self.old self.new }
        ensures as_open { AreAsOpen self.old self.new }
    {
        match place_of(&self.connected, number) {
            Some(place) => self.connected[place].read(buffer),
            None => ReadOutcome::Failed,
        }
    }

    /// Writes to a connection.
    pub(crate) fn write(&mut self, number: u32, bytes: &[u8]) -> WriteOutcome
        ensures within { written_count result ≤ length bytes.now }
        ensures no_readier { AreNoReadier (readiness_of self.old) (readiness_of self.new) }
        ensures blocks { result ≡ WriteOutcome.WouldBlock → (readiness_of self.new number).write ≡ false }
        ensures others { OthersStay number self.old self.new }
        ensures as_open { AreAsOpen self.old self.new }
    {
        match place_of(&self.connected, number) {
            Some(place) => self.connected[place].write(bytes),
            None => WriteOutcome::Failed,
        }
    }

    /// Closes the socket of a connection, at once or after it lingered.
    pub(crate) fn close(&mut self, number: u32, lingers: bool, now: u64)
        ensures no_readier { AreNoReadier (readiness_of self.old) (readiness_of self.new) }
        ensures gone { has_socket number self.new ≡ false }
        ensures others { OthersStay number self.old self.new }
    {
        let Some(stream) = self.take_stream(number) else {
            return;
        };
        if lingers && stream.shutdown(Shutdown::Write).is_ok() {
            self.add_lingering(LingeringSocket::new(number, stream, now));
        }
    }

    // Removes the socket of a connection, if there is one, and returns its stream.
    fn take_stream(&mut self, number: u32) -> Option<TcpStream>
        ensures no_readier { AreNoReadier (readiness_of self.old) (readiness_of self.new) }
        ensures gone { has_socket number self.new ≡ false }
        ensures others { OthersStay number self.old self.new }
    {
        let place = place_of(&self.connected, number)?;
        Some(self.connected.remove(place).into_stream())
    }

    // Lets a socket linger; one that lingers the longest gives way if there is no room.
    fn add_lingering(&mut self, socket: LingeringSocket)
        ensures { self.new ≡ self.old }
    {
        if self.lingering.len() >= MAX_LINGERING {
            drop(self.lingering.remove(0));
        }
        let _ = self.lingering.push(socket);
    }

    /// Reads away what came to the sockets that linger, and drops those that had their time. True if there may be more.
    pub(crate) fn drain(&mut self, now: u64) -> bool
        ensures { self.new ≡ self.old }
    {
        let count = self.lingering.len();
        let mut has_more = false;
        for back in 0..count {
            if let Drained::HasMore = self.drain_one(count - 1 - back, now) {
                has_more = true;
            }
        }
        has_more
    }

    // Reads away what came to the socket at an index, and drops it if it had its time.
    fn drain_one(&mut self, place: usize, now: u64) -> Drained
        ensures { self.new ≡ self.old }
    {
        if place >= self.lingering.len() {
            return Drained::Over;
        }
        let drained = self.lingering[place].drain(now);
        if drained == Drained::Over {
            drop(self.lingering.remove(place));
        }
        drained
    }
}

fn place_of(sockets: &[Socket], number: u32) -> Option<usize>
    ensures place { result ≡ position (λ x. x.number == number) sockets.now }
    ensures there { IfSome result (λ i. i < length sockets.now) }
{
    sockets.iter().position(|x| x.number() == number)
}

fn has_socket(sockets: &[Socket], number: u32) -> bool
    ensures { result ≡ has_socket number sockets.now }
{
    sockets.iter().any(|x| x.number() == number)
}

fn lingering_place_of(lingering: &[LingeringSocket], number: u32) -> Option<usize>
    ensures { IfSome result (λ i. i < length lingering.now) }
{
    lingering
        .iter()
        .position(|socket| socket.number() == number)
}
