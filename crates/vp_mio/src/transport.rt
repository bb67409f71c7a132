//! The transport over mio: a listener, sockets that do not block, and files.

ghost use Rattle.std.specs.Prelude.{◌≡◌, ◌≢◌, ◌≤◌, ◌||◌, ◌∷◌, [], ℕ, true, false, length, None, if◌then◌else◌};
ghost use Rattle.vp_serve.specs.Readiness.{AreNoReadier};
ghost use Rattle.vp_serve.specs.Transfer.{Accepts, Closes, Logs, Waits};
ghost use Rattle.vp_mio.specs.Sockets.{AreAsOpen, readiness_of};

use crate::access_log::{Access, access_line};
use crate::files::FollowedFile;
use crate::socket::{Socket, readiness_of};
use crate::sockets::Sockets;
use mio::net::TcpListener;
use mio::{Events, Interest, Poll, Token};
use std::alloc::Global;
use std::io::{ErrorKind, Read, Write};
use std::net::{Net, SocketAddr};
use std::time::{Clock, Duration, Instant, SystemTime, UNIX_EPOCH};
use std::{io, net};
use vp_hub::HubFault;
use vp_serve::{CloseReason, ReadOutcome, Transport, WriteOutcome};

/// The token of the listener; those of the sockets are the numbers of their connections, which are below it.
const LISTENER: usize = usize::MAX;

/// The most events that one wait reports; what is left is reported by the next.
const EVENTS: usize = 256;

/// Sockets by the numbers of their connections, and files. Faults of files are printed on `errors`.
#[derive(Drop)]
pub struct MioTransport<'a, C: Clock, F: Read + Drop, E: Write> {
    alloc: Global,
    clock: &'a C,
    start: Instant,
    now: u64,
    // The longest wait in milliseconds.
    tick: u64,
    poll: Poll,
    events: Events,
    listener: Option<TcpListener>,
    can_accept: bool,
    sockets: Sockets,
    // Whether a socket that lingers may have more to read.
    drains: bool,
    files: Vec<FollowedFile<'a, F>>,
    // Whether a line is printed for each reply.
    logs_accesses: bool,
    errors: &'a mut E,
}

impl<'a, C: Clock, F: Read + Drop, E: Write> MioTransport<'a, C, F, E> {
    /// No sockets, and these files. `tick` is the longest wait in milliseconds.
    pub fn new<H: Net>(
        rt: &H,
        clock: &'a C,
        alloc: Global,
        tick: u64,
        files: Vec<FollowedFile<'a, F>>,
        errors: &'a mut E,
    ) -> io::Result<MioTransport<'a, C, F, E>> {
        let (start, poll, events, sockets) = parts(rt, clock, alloc)?;
        Ok(MioTransport {
            alloc,
            clock,
            start,
            now: 0,
            tick,
            poll,
            events,
            listener: None,
            can_accept: false,
            sockets,
            drains: false,
            files,
            logs_accesses: false,
            errors,
        })
    }

    /// Prints a line on `errors` for each reply from now on: the time, the connection, its peer, the line of the
    /// request, the status, the number of bytes after the reply's head, and the number of decoded packets.
    pub fn log_accesses(&mut self) {
        self.logs_accesses = true;
    }

    /// Accepts connections from this listener from now on.
    pub fn listen(&mut self, bound: net::TcpListener) -> io::Result<()> {
        bound.set_nonblocking(true)?;
        let mut listener = TcpListener::from_std(bound);
        self.poll
            .registry()
            .register(&mut listener, Token(LISTENER), Interest::READABLE)?;
        self.listener = Some(listener);
        self.can_accept = true;
        Ok(())
    }

    /// Whether a file is read no more, because of a fault.
    pub fn has_stopped_file(&self) -> bool {
        self.files.iter().any(|file| file.is_stopped())
    }

    // Waits for events, and notes what they report. If that fails, it waits all the same.
    fn poll_sockets(&mut self, milliseconds: u64)
        ensures { AreAsOpen self.old.sockets self.new.sockets }
    {
        let timeout = Duration::from_millis(milliseconds);
        if self.poll.poll(&mut self.events, Some(timeout)).is_err() {
            self.clock.sleep(timeout);
        }
        if note_events(&self.events, &mut self.sockets) {
            self.can_accept = true;
        }
    }

    // The milliseconds since the start, or the last ones if the clock can't be read.
    fn read_clock(&mut self) -> u64
        ensures { self.new.sockets ≡ self.old.sockets }
    {
        if let Ok(passed) = self.start.elapsed(self.clock) {
            self.now = passed
                .as_secs()
                .saturating_mul(1000)
                .saturating_add(u64::from(passed.subsec_millis()));
        }
        self.now
    }

    // The seconds since 1970, or 0 if the clock can't be read.
    fn seconds_since_1970(&self) -> u64 {
        let Ok(now) = SystemTime::now(self.clock) else {
            return 0;
        };
        match now.duration_since(UNIX_EPOCH) {
            Ok(passed) => passed.as_secs(),
            Err(_) => 0,
        }
    }

    // The stream and the peer of the next connection that waits to be accepted.
    fn next_stream(&mut self) -> Option<(mio::net::TcpStream, SocketAddr)>
        ensures { self.new.sockets ≡ self.old.sockets }
    {
        let listener = self.listener.as_ref()?;
        match listener.accept() {
            Ok(accepted) => Some(accepted),
            Err(error) => {
                if error.kind() == ErrorKind::WouldBlock {
                    self.can_accept = false;
                }
                None
            }
        }
    }
}

// Makes the parts of a transport whose making may fail: the time of its start, what it polls with, and no sockets.
// `MioTransport::new` owns the files, and is quick to prove with one way out.
fn parts<C: Clock, H: Net>(
    rt: &H,
    clock: &C,
    alloc: Global,
) -> io::Result<(Instant, Poll, Events, Sockets)> {
    let start = Instant::now(clock)?;
    let poll = Poll::new(rt)?;
    let events = Events::with_capacity(alloc, EVENTS)?;
    let sockets = Sockets::new(alloc)?;
    Ok((start, poll, events, sockets))
}

// Notes what events report of sockets. True if one is of the listener.
fn note_events(events: &Events, sockets: &mut Sockets) -> bool
    ensures { AreAsOpen sockets.old sockets.new }
{
    let mut can_accept = false;
    for event in events.iter() {
        let token = event.token().0;
        if token == LISTENER {
            can_accept = true;
        } else if let Ok(number) = u32::try_from(token) {
            sockets.mark(number, readiness_of(event));
        }
    }
    can_accept
}

// How many milliseconds a wait may last: none while work is left, else a tick.
fn timeout_of(is_busy: bool, drains: bool, tick: u64) -> u64
    ensures { result ≡ (if is_busy || drains then 0 else tick) }
{
    if is_busy || drains { 0 } else { tick }
}

// Whether the peer of a connection that is closed may have to read its last reply yet.
fn lingers(reason: CloseReason) -> bool {
    match reason {
        CloseReason::Finished | CloseReason::HubRefused | CloseReason::OutOfMemory => true,
        CloseReason::PeerEnded | CloseReason::IdleTimeout | CloseReason::TransferFailed => false,
    }
}

impl<'a, C: Clock, F: Read + Drop, E: Write> Transport for MioTransport<'a, C, F, E> {
    ghost use Rattle.std.specs.Prelude.{None};
    ghost use Rattle.vp_mio.specs.Sockets.{readiness_of};

    ghost log = { λ _. None };

    ghost readiness = { λ t. readiness_of t.sockets };

    fn wait(&mut self, is_busy: bool) -> u64
        ensures logs { Logs None None (Waits is_busy result ∷ []) }
        ensures as_open { AreAsOpen self.old.sockets self.new.sockets }
    {
        self.poll_sockets(timeout_of(is_busy, self.drains, self.tick));
        let now = self.read_clock();
        self.drains = self.sockets.drain(now);
        now
    }

    fn accept(&mut self, number: u32) -> bool
        ensures logs { Logs None None (if result then Accepts number ∷ [] else []) }
        ensures others { (c : ℕ) → c ≢ number → readiness_of self.new.sockets c ≡ readiness_of self.old.sockets c }
        ensures added { result ≡ true → readiness_of self.new.sockets number ≡ record { read = true; write = true } }
        ensures refused { result ≡ false → self.new.sockets ≡ self.old.sockets }
    {
        if !self.can_accept || self.sockets.is_full() {
            return false;
        }
        let Some((mut stream, peer)) = self.next_stream() else {
            return false;
        };
        let _ = stream.set_nodelay(true);
        let both = Interest::READABLE | Interest::WRITABLE;
        let token = Token(number as usize);
        if self
            .poll
            .registry()
            .register(&mut stream, token, both)
            .is_err()
        {
            return false;
        }
        self.sockets.add(Socket::new(number, stream, peer))
    }

    fn can_read(&self, number: u32) -> bool {
        self.sockets.can_read(number)
    }

    fn can_write(&self, number: u32) -> bool {
        self.sockets.can_write(number)
    }

    fn read(&mut self, number: u32, buffer: &mut [u8]) -> ReadOutcome {
        self.sockets.read(number, buffer)
    }

    fn write(&mut self, number: u32, bytes: &[u8]) -> WriteOutcome {
        self.sockets.write(number, bytes)
    }

    fn replied(&mut self, number: u32, _now: u64, request: &[u8], reply: &[u8], packets: u64) {
        if !self.logs_accesses {
            return;
        }
        let access = Access {
            seconds: self.seconds_since_1970(),
            number,
            peer: self.sockets.peer(number),
            request,
            reply,
            packets,
        };
        if let Some(line) = access_line(self.alloc, &access) {
            let _ = self.errors.write_all(&line);
        }
    }

    fn close(&mut self, number: u32, reason: CloseReason)
        ensures logs { Logs None None (Closes number reason ∷ []) }
        ensures no_readier { AreNoReadier (readiness_of self.old.sockets) (readiness_of self.new.sockets) }
        ensures unready { readiness_of self.new.sockets number ≡ record { read = false; write = false } }
    {
        self.sockets.close(number, lingers(reason), self.now);
    }

    fn read_file(&mut self, place: usize, _name: &[u8], buffer: &mut [u8]) -> usize {
        if place >= self.files.len() {
            return 0;
        }
        self.files[place].read(buffer, self.errors)
    }

    fn stop_file(&mut self, place: usize, fault: HubFault) {
        if place < self.files.len() {
            self.files[place].stop(fault, self.errors);
        }
    }
}
