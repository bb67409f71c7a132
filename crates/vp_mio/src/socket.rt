//! The socket of an open connection, and what it was found ready for.

ghost use Rattle.std.specs.Prelude.{◌≡◌, ◌≤◌, true, false, length};
ghost use Rattle.vp_serve.specs.declared.transport.ReadOutcome.{ReadOutcome};
ghost use Rattle.vp_serve.specs.declared.transport.WriteOutcome.{WriteOutcome};
ghost use Rattle.vp_serve.specs.Readiness.{IsNoReadier};
ghost use Rattle.vp_serve.specs.Transport.{read_count, written_count};
ghost use Rattle.vp_mio.specs.Sockets.{gains};

use mio::event::Event;
use mio::net::TcpStream;
use std::io::{ErrorKind, Read, Write};
use std::marker::Model;
use std::net::SocketAddr;
use vp_serve::{ReadOutcome, WriteOutcome};

/// What an event reports of a socket.
#[derive(Clone, Copy)]
pub(crate) struct Readiness {
    pub read: bool,
    pub write: bool,
    /// The peer sends no more than it has sent, so that no later event need report it.
    pub ended: bool,
}

/// What an event reports. A socket that failed is ready for both, so that the next call finds the failure.
pub(crate) fn readiness_of(event: &Event) -> Readiness {
    let ended = event.is_read_closed() || event.is_error();
    Readiness {
        read: event.is_readable() || ended,
        write: event.is_writable() || event.is_error() || event.is_write_closed(),
        ended,
    }
}

/// The socket of an open connection. Events report changes alone, so what a socket is ready for is kept until a call
/// shows that it is over.
#[derive(Drop)]
pub(crate) struct Socket {
    number: u32,
    stream: TcpStream,
    peer: SocketAddr,
    ready: Readiness,
}

impl Model for Socket {
    ghost use Rattle.vp_mio.specs.Sockets.{OpenSocket};

    ghost Value = { OpenSocket };

    ghost view = { λ s. record {
      number = s.number;
      ready = record { read = s.ready.read; write = s.ready.write };
    } };
}

impl Socket {
    /// A socket that was just accepted. Its first read and write are tried without an event.
    pub(crate) fn new(number: u32, stream: TcpStream, peer: SocketAddr) -> Socket
        ensures number { result.number ≡ number }
        ensures ready { result.ready ≡ record { read = true; write = true } }
    {
        Socket {
            number,
            stream,
            peer,
            ready: Readiness {
                read: true,
                write: true,
                ended: false,
            },
        }
    }

    /// The number of its connection.
    pub(crate) fn number(&self) -> u32
        ensures { result ≡ self.now.number }
    {
        self.number
    }

    /// The address of its peer.
    pub(crate) fn peer(&self) -> SocketAddr {
        self.peer
    }

    /// Whether a read may do something.
    pub(crate) fn can_read(&self) -> bool
        ensures { result ≡ self.now.ready.read }
    {
        self.ready.read
    }

    /// Whether a write may do something.
    pub(crate) fn can_write(&self) -> bool
        ensures { result ≡ self.now.ready.write }
    {
        self.ready.write
    }

    /// The stream, once its connection is closed.
    pub(crate) fn into_stream(self) -> TcpStream {
        let Socket {
            number: _,
            stream,
            peer: _,
            ready: _,
        } = self;
        stream
    }

    /// Notes what an event reports.
    pub(crate) fn mark(&mut self, found: Readiness)
        ensures number { self.new.number ≡ self.old.number }
        ensures ready { self.new.ready ≡ gains self.old.ready found.read found.write }
    {
        self.ready = Readiness {
            read: self.ready.read || found.read,
            write: self.ready.write || found.write,
            ended: self.ready.ended || found.ended,
        };
    }

    /// Reads once. A short read has taken all there was, and one that was interrupted nothing.
    pub(crate) fn read(&mut self, buffer: &mut [u8]) -> ReadOutcome
        ensures within { read_count result ≤ length buffer.new }
        ensures number { self.new.number ≡ self.old.number }
        ensures no_readier { IsNoReadier self.old.ready self.new.ready }
        ensures blocks { result ≡ ReadOutcome.WouldBlock → self.new.ready.read ≡ false }
    {
        match (&self.stream).read(buffer) {
            Ok(0) => ReadOutcome::EndOfInput,
            Ok(count) => {
                if count < buffer.len() && !self.ready.ended {
                    self.ready.read = false;
                }
                ReadOutcome::Bytes(count)
            }
            Err(error) => match error.kind() {
                ErrorKind::WouldBlock => {
                    self.ready.read = false;
                    ReadOutcome::WouldBlock
                }
                ErrorKind::Interrupted => ReadOutcome::Bytes(0),
                _ => ReadOutcome::Failed,
            },
        }
    }

    /// Writes once. A short write has filled all the room there was, and one that was interrupted none.
    pub(crate) fn write(&mut self, bytes: &[u8]) -> WriteOutcome
        ensures within { written_count result ≤ length bytes.now }
        ensures number { self.new.number ≡ self.old.number }
        ensures no_readier { IsNoReadier self.old.ready self.new.ready }
        ensures blocks { result ≡ WriteOutcome.WouldBlock → self.new.ready.write ≡ false }
    {
        match (&self.stream).write(bytes) {
            Ok(0) => {
                self.ready.write = false;
                WriteOutcome::WouldBlock
            }
            Ok(count) => {
                if count < bytes.len() {
                    self.ready.write = false;
                }
                WriteOutcome::Bytes(count)
            }
            Err(error) => match error.kind() {
                ErrorKind::WouldBlock => {
                    self.ready.write = false;
                    WriteOutcome::WouldBlock
                }
                ErrorKind::Interrupted => WriteOutcome::Bytes(0),
                _ => WriteOutcome::Failed,
            },
        }
    }
}
