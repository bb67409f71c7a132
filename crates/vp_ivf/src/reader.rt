//! The IVF reader.

ghost use Rattle.std.specs.Prelude.{◌≡◌, ◌≢◌, ◌≤◌, ◌+◌, ◌/◌, length, None, Some, Err, slice_get, option_to_list};
ghost use Rattle.std.specs.Prelude.{[], vec_len, drop};
ghost use Rattle.vp_ivf.specs.Ivf.{read_file, resume};
ghost use Rattle.vp_ivf.specs.declared.fault.FileFault.{FileFault};
ghost use Rattle.vp_ivf.specs.Reader.{ReaderHistory, IsReaderAfter, SameLimits, initial_reader, empty_reader_history};
ghost use Rattle.vp_ivf.specs.Reader.{with_reader_piece, with_taken, with_reader_end, after_end, without_packets};
ghost use Rattle.vp_ivf.specs.Reader.{refusal, answer_by, finish_answer, fed_packets};

use crate::cutting::{Cutting, is_waiting, read_on};
use crate::fault::{FeedError, FileFault};
use crate::packet::{IvfHead, Packet};
use std::alloc::Global;
use std::collections::VecDeque;
use std::marker::Model;
use vp_base::Limits;

/// Reads the packets of an IVF file that is fed in pieces of any length.
///
/// The results depend only on all bytes fed, the number of packets taken, and whether `finish` was called. A fault is
/// reported by the call that completes the bytes that reveal it. With the 32 bytes of the file header: `Signature`,
/// then `Codec`. With the 12 bytes of a packet header: `TooMany`, then `PacketTooLarge`. These four are permanent; the
/// packets before them can still be taken.
#[derive(Drop)]
pub struct Reader {
    alloc: Global,
    max: u32,
    limit: u32,
    head: Option<IvfHead>,
    packets: VecDeque<Packet>,
    left: u32,
    fault: Option<FileFault>,
    rest: Vec<u8>,
    ended: bool,
}

impl Model for Reader {
    ghost use Rattle.vp_ivf.specs.Reader.{ReaderState};

    ghost Value = { ReaderState };

    ghost view = { λ a. record {
      max = a.max;
      limit = a.limit;
      reading = record {
        head = a.head;
        packets = a.packets.items;
        left = a.left;
        fault = a.fault;
        rest = a.rest.items;
      };
      ended = a.ended;
    } };

    ghost use Rattle.vp_ivf.specs.Reader.{IsSettled};

    ghost invariant = { λ a. IsSettled a.max (record {
      head = a.head;
      packets = a.packets.items;
      left = a.left;
      fault = a.fault;
      rest = a.rest.items;
    }) };
}

impl Reader {
    /// Creates an empty reader. Of the limits it uses those on packets.
    pub fn new(alloc: Global, limits: Limits) -> Reader
        ensures state { result ≡ initial_reader limits.packet_bytes limits.packets }
        ensures stands { IsReaderAfter result empty_reader_history }
    {
        Reader {
            alloc,
            max: limits.packet_bytes,
            limit: limits.packets,
            head: None,
            packets: VecDeque::new(alloc),
            left: limits.packets,
            fault: None,
            rest: Vec::new(alloc),
            ended: false,
        }
    }

    /// The file header, once it is complete and valid.
    pub fn head(&self) -> Option<IvfHead>
        ensures value { result ≡ self.now.reading.head }
        ensures head { (h : ReaderHistory) → IsReaderAfter self.now h →
            result ≡ (read_file self.now.max self.now.limit h.fed).head }
    {
        self.head
    }

    /// The fault with which `feed` would reject any piece: the fault of the file, or `Ended`.
    pub fn refusal(&self) -> Option<FileFault>
        ensures { result ≡ refusal self.now }
    {
        match (self.fault, self.ended) {
            (Some(fault), _) => Some(fault),
            (None, true) => Some(FileFault::Ended),
            (None, false) => None,
        }
    }

    /// Takes the next packet that is complete. Allocates nothing.
    pub fn next_packet(&mut self) -> Option<Packet>
        ensures limits { SameLimits self.old self.new }
        ensures first { result ≡ slice_get self.old.reading.packets 0 }
        ensures rest { self.new ≡ record self.old { reading = without_packets 1 self.old.reading } }
        ensures packet { (h : ReaderHistory) → IsReaderAfter self.old h →
            result ≡ slice_get (fed_packets self.old h) h.taken }
        ensures stands { (h : ReaderHistory) → IsReaderAfter self.old h →
            IsReaderAfter self.new (with_taken h (length (option_to_list result))) }
    {
        self.packets.pop_front()
    }

    /// Feeds the next piece of the file, of any length. Reports the fault that it reveals, or `Memory`.
    pub fn feed(&mut self, piece: &[u8]) -> Result<(), FeedError>
        ensures limits { SameLimits self.old self.new }

        // An earlier fault is reported again and changes nothing. Nor does an out-of-memory error change anything.
        ensures refused { (fault : FileFault) → refusal self.old ≡ Some fault →
            (result ≡ Err (FeedError.Fault fault)) × (self.new ≡ self.old) }
        ensures memory { result ≡ Err FeedError.Memory → self.new ≡ self.old }

        // A piece adds at most one packet for each 12 bytes, and one more.
        ensures few { length self.new.reading.packets
            ≤ length self.old.reading.packets + length piece.now / 12 + 1 }

        // Otherwise the piece is consumed, and the result is the fault that it reveals, if any.
        ensures answer { refusal self.old ≡ None → result ≢ Err FeedError.Memory →
            result ≡ answer_by self.new.reading.fault }
        ensures reading { refusal self.old ≡ None → result ≢ Err FeedError.Memory →
            self.new ≡ record self.old { reading = resume self.old.max self.old.reading piece.now } }
        ensures stands { refusal self.old ≡ None → result ≢ Err FeedError.Memory →
            (h : ReaderHistory) → IsReaderAfter self.old h → IsReaderAfter self.new (with_reader_piece h piece.now) }
    {
        if let Some(fault) = self.refusal() {
            return Err(FeedError::Fault(fault));
        }
        self.take_piece(piece)
    }

    // Consumes a piece that is not rejected. Everything that can fail precedes the first change.
    fn take_piece(&mut self, piece: &[u8]) -> Result<(), FeedError>
        requires { refusal self.old ≡ None }
        ensures memory { result ≡ Err FeedError.Memory → self.new ≡ self.old }
        ensures few { length self.new.reading.packets
            ≤ length self.old.reading.packets + length piece.now / 12 + 1 }
        ensures answer { result ≢ Err FeedError.Memory → result ≡ answer_by self.new.reading.fault }
        ensures reading { result ≢ Err FeedError.Memory →
            self.new ≡ record self.old { reading = resume self.old.max self.old.reading piece.now } }
    {
        if self.rest.is_empty() {
            return self.take_alone(piece);
        }
        let held = self.rest.len();
        if self.rest.extend_from_slice(piece).is_err() {
            return Err(FeedError::Memory);
        }
        // Short pieces mostly end here.
        if is_waiting(self.head, self.max, self.left, &self.rest) {
            return Ok(());
        }
        let Ok(mut cutting) = read_on(self.alloc, self.head, self.max, self.left, &self.rest) else {
            self.rest.truncate(held);
            return Err(FeedError::Memory);
        };
        if self.packets.append(&mut cutting.packets).is_err() {
            self.rest.truncate(held);
            return Err(FeedError::Memory);
        }
        remove_front(&mut self.rest, cutting.used);
        self.head = cutting.head;
        self.left = cutting.left;
        self.fault = cutting.fault;
        answer(cutting.fault)
    }

    // Consumes a piece that is not rejected, while no bytes are kept. It is cut where it lies, and only the bytes after
    // its packets are copied. Room is made for all of it, as if it were kept whole.
    fn take_alone(&mut self, piece: &[u8]) -> Result<(), FeedError>
        requires calm { refusal self.old ≡ None }
        requires alone { self.old.reading.rest ≡ [] }
        ensures memory { result ≡ Err FeedError.Memory → self.new ≡ self.old }
        ensures few { length self.new.reading.packets
            ≤ length self.old.reading.packets + length piece.now / 12 + 1 }
        ensures answer { result ≢ Err FeedError.Memory → result ≡ answer_by self.new.reading.fault }
        ensures reading { result ≢ Err FeedError.Memory →
            self.new ≡ record self.old { reading = resume self.old.max self.old.reading piece.now } }
    {
        if self.rest.try_reserve(piece.len()).is_err() {
            return Err(FeedError::Memory);
        }
        let Ok(mut cutting) = read_on(self.alloc, self.head, self.max, self.left, piece) else {
            return Err(FeedError::Memory);
        };
        if self.packets.append(&mut cutting.packets).is_err() {
            return Err(FeedError::Memory);
        }
        let Ok(()) = self.rest.extend_from_slice(piece.split_at(cutting.used).1) else {
            unreachable!();
        };
        let fault = cutting.fault;
        self.head = cutting.head;
        self.left = cutting.left;
        self.fault = fault;
        answer(fault)
    }

    /// Ends the file. `Torn` if it ends inside the header or a packet. Repeated calls give the same result.
    pub fn finish(&mut self) -> Result<(), FileFault>
        ensures limits { SameLimits self.old self.new }
        ensures answer { result ≡ finish_answer self.old.reading }
        ensures state { self.new ≡ after_end self.old }
        ensures stands { (h : ReaderHistory) → IsReaderAfter self.old h →
            IsReaderAfter self.new (with_reader_end h self.old.reading.fault) }
    {
        if let Some(fault) = self.fault {
            return Err(fault);
        }
        self.ended = true;
        if self.head.is_none() || !self.rest.is_empty() {
            return Err(FileFault::Torn);
        }
        Ok(())
    }
}

/// The result of `feed` for a fault or none.
fn answer(fault: Option<FileFault>) -> Result<(), FeedError>
    ensures { result ≡ answer_by fault }
{
    match fault {
        Some(fault) => Err(FeedError::Fault(fault)),
        None => Ok(()),
    }
}

/// Removes the first `count` bytes. The others move to the front.
fn remove_front(bytes: &mut Vec<u8>, count: usize)
    requires { count ≤ vec_len bytes.old }
    ensures { bytes.new.items ≡ drop count bytes.old.items }
{
    let kept = bytes.len() - count;
    if kept <= count {
        let (front, back) = bytes.as_mut_slice().split_at_mut(count);
        front[..kept].copy_from_slice(back);
    } else {
        bytes.rotate_left(count);
    }
    bytes.truncate(kept);
}
