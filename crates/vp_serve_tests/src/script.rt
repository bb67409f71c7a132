//! A transport in memory: what it does is written beforehand, and what passed over it is its log.

ghost use Rattle.std.specs.Prelude.{◌≡◌, ◌≤◌, ◌++◌, ◌∷◌, [], length, take, IfOk, Some};
ghost use Rattle.vp_serve_tests.specs.Script.{transfer_of, transfers};
ghost use Rattle.vp_serve_tests.specs.declared.entry.Entry.{Entry};

use crate::entry::{Entry, text_of};
use std::alloc::Global;
use std::fmt::Write;
use std::process::Abort;
use vp_base::ByteList;
use vp_hub::HubFault;
use vp_serve::{CloseReason, ReadOutcome, Transport, WriteOutcome};

/// What the next read does.
#[derive(Clone, Copy)]
pub enum Input {
    /// It reads these bytes.
    Bytes(&'static [u8]),
    /// There are none for now.
    Block,
    /// The peer ends.
    End,
    /// It fails.
    Fail,
}

/// A piece of the file.
#[derive(Clone, Copy)]
pub struct Piece(pub &'static [u8]);

/// What the next write does.
#[derive(Clone, Copy)]
pub enum Room {
    /// It writes at most this many bytes.
    Bytes(usize),
    /// Nothing can be written for now.
    Block,
    /// It fails.
    Fail,
}

/// What a transport does, call by call.
#[derive(Clone, Copy)]
pub struct Script {
    /// How many connections wait to be accepted.
    pub waiting: u32,
    /// The milliseconds from one turn to the next.
    pub tick: u64,
    /// The reads, of whatever connection; after the last there are no bytes.
    pub inputs: &'static [Input],
    /// The writes, of whatever connection; after the last all bytes are written.
    pub rooms: &'static [Room],
    /// The pieces of the file, of whatever stream.
    pub pieces: &'static [Piece],
}

/// A transport that follows a script. It ends the process if memory for its log is refused.
#[derive(Drop)]
pub struct Scripted<'a, H: Abort> {
    rt: &'a H,
    alloc: Global,
    script: Script,
    now: u64,
    // Whether no read blocked since the last wait.
    can_read: bool,
    // Whether no write blocked since the last wait.
    can_write: bool,
    log: Vec<Entry>,
    // A line for each reply that was reported.
    told: String,
}

impl<'a, H: Abort> Scripted<'a, H> {
    /// A transport over which nothing passed.
    pub fn new(rt: &'a H, alloc: Global, script: Script) -> Scripted<'a, H> {
        Scripted {
            rt,
            alloc,
            script,
            now: 0,
            can_read: true,
            can_write: true,
            log: Vec::new(alloc),
            told: String::new(alloc),
        }
    }

    /// What passed over it.
    pub fn log(&self) -> &[Entry] {
        self.log.as_slice()
    }

    /// The replies that were reported to it, a line for each: the time in milliseconds, the number of the connection,
    /// the line of the request, the status, how many bytes it has, and how many packets were decoded for it.
    pub fn told(&self) -> &str {
        self.told.as_str()
    }
}

fn put<H: Abort>(rt: &H, log: &mut Vec<Entry>, entry: Entry)
    ensures { transfers log.new.items ≡ transfers log.old.items ++ transfer_of entry ∷ [] }
{
    add(rt, log, entry);
}

fn add<H: Abort>(rt: &H, log: &mut Vec<Entry>, entry: Entry)
    ensures { log.new.items ≡ log.old.items ++ entry ∷ [] }
{
    log.push(entry).expect(rt, "memory for the log");
}

fn copy_of<H: Abort>(rt: &H, alloc: Global, bytes: &[u8]) -> ByteList
    ensures { result ≡ bytes.now }
{
    ByteList::from_vec(bytes.to_vec(alloc).expect(rt, "memory for the log"))
}

// Copies as many bytes as there is room for.
fn fill(bytes: &[u8], buffer: &mut [u8]) -> usize
    ensures { result ≤ length buffer.new }
{
    let count = bytes.len().min(buffer.len());
    buffer[..count].copy_from_slice(&bytes[..count]);
    count
}

// The first bytes of a slice.
fn prefix<H: Abort>(rt: &H, alloc: Global, bytes: &[u8], count: usize) -> ByteList
    requires { count ≤ length bytes.now }
    ensures { result ≡ take count bytes.now }
{
    copy_of(rt, alloc, &bytes[..count])
}

fn next_input(script: &mut Script) -> Input {
    let inputs = script.inputs;
    match inputs.split_first() {
        Some((first, more)) => {
            script.inputs = more;
            *first
        }
        None => Input::Block,
    }
}

fn next_room(script: &mut Script) -> Room {
    let rooms = script.rooms;
    match rooms.split_first() {
        Some((first, more)) => {
            script.rooms = more;
            *first
        }
        None => Room::Bytes(usize::MAX),
    }
}

fn next_piece(script: &mut Script) -> Piece {
    let pieces = script.pieces;
    match pieces.split_first() {
        Some((first, more)) => {
            script.pieces = more;
            *first
        }
        None => Piece(&[]),
    }
}

impl<'a, H: Abort> Transport for Scripted<'a, H> {
    ghost use Rattle.std.specs.Prelude.{Some};
    ghost use Rattle.vp_serve_tests.specs.Script.{transfers};

    ghost log = { λ t. Some (transfers t.log.items) };

    ghost readiness = { λ t _. record { read = t.can_read; write = t.can_write } };

    fn wait(&mut self, is_busy: bool) -> u64 {
        self.can_read = true;
        self.can_write = true;
        self.now = self.now.saturating_add(self.script.tick);
        put(self.rt, &mut self.log, Entry::Waits(is_busy, self.now));
        self.now
    }

    fn accept(&mut self, number: u32) -> bool {
        if self.script.waiting == 0 {
            return false;
        }
        self.script.waiting -= 1;
        put(self.rt, &mut self.log, Entry::Accepts(number));
        true
    }

    fn can_read(&self, _number: u32) -> bool {
        self.can_read
    }

    fn can_write(&self, _number: u32) -> bool {
        self.can_write
    }

    fn read(&mut self, number: u32, buffer: &mut [u8]) -> ReadOutcome {
        match next_input(&mut self.script) {
            Input::Bytes(bytes) => {
                let count = fill(bytes, buffer);
                let copy = prefix(self.rt, self.alloc, buffer, count);
                put(self.rt, &mut self.log, Entry::Reads(number, copy));
                ReadOutcome::Bytes(count)
            }
            Input::Block => {
                self.can_read = false;
                ReadOutcome::WouldBlock
            }
            Input::End => {
                put(self.rt, &mut self.log, Entry::PeerEnds(number));
                ReadOutcome::EndOfInput
            }
            Input::Fail => {
                put(self.rt, &mut self.log, Entry::Fails(number));
                ReadOutcome::Failed
            }
        }
    }

    fn write(&mut self, number: u32, bytes: &[u8]) -> WriteOutcome {
        match next_room(&mut self.script) {
            Room::Bytes(most) => {
                let count = bytes.len().min(most);
                let copy = prefix(self.rt, self.alloc, bytes, count);
                put(self.rt, &mut self.log, Entry::Writes(number, copy));
                WriteOutcome::Bytes(count)
            }
            Room::Block => {
                self.can_write = false;
                WriteOutcome::WouldBlock
            }
            Room::Fail => {
                put(self.rt, &mut self.log, Entry::Fails(number));
                WriteOutcome::Failed
            }
        }
    }

    fn replied(&mut self, number: u32, now: u64, request: &[u8], reply: &[u8], packets: u64) {
        let (request, status) = (text_of(request), text_of(reply.get(9..12).unwrap_or(b"")));
        let length = reply.len();
        write!(
            self.told,
            "{now} {number} {request}: {status}, {length} bytes, {packets} packets\n"
        )
        .expect(self.rt, "memory for the log");
    }

    fn close(&mut self, number: u32, reason: CloseReason) {
        put(self.rt, &mut self.log, Entry::Closes(number, reason));
    }

    fn read_file(&mut self, place: usize, name: &[u8], buffer: &mut [u8]) -> usize {
        let piece = next_piece(&mut self.script);
        let count = fill(piece.0, buffer);
        if count == 0 {
            return 0;
        }
        let name = copy_of(self.rt, self.alloc, name);
        let copy = prefix(self.rt, self.alloc, buffer, count);
        put(self.rt, &mut self.log, Entry::Grows(place, name, copy));
        count
    }

    fn stop_file(&mut self, _place: usize, _fault: HubFault) {}
}
