//! Cursors of streams, so that packets in order are decoded once each.

ghost use Rattle.std.specs.Prelude.{◌≡◌, ◌≢◌, ◌+◌, ◌^◌, ◌<◌, ◌≤◌, ◌∷◌, ℕ, None, Some, length, take, position, Contains};
ghost use Rattle.std.specs.Prelude.{IfOk, IfSome, OnOk, OnErr, MatchOption, vec_len};
ghost use Rattle.std.specs.Vec.{vec_capacity};
ghost use Rattle.vp_stream.specs.Seeking.{answer_value, answer_at, saturating_count};
ghost use Rattle.vp_stream.specs.Stream.{StreamHistory, IsStreamAfter, packets_of};
ghost use Rattle.vp_stream.specs.Stream.{Stream as StreamState};
ghost use Rattle.vp_stream.specs.Cursor.{initial_cursor};
ghost use Rattle.vp_cache.specs.Cursors.{AreCursorsOf, no_cursors, is_between, greater, nearest_between, stands_behind};
ghost use Rattle.vp_cache.specs.Cursors.{without, in_front, after_picture, least_work, IsChosen};

use std::alloc::{AllocError, Global};
use std::marker::Model;
use vp_base::Limits;
use vp_stream::{Answer, Cursor, Stream};

/// The most recently used cursors of all streams.
#[derive(Drop)]
pub struct Cursors {
    alloc: Global,
    limits: Limits,
    capacity: u32,
    // Each with the number of its stream, the most recently used one first. There is room for all.
    entries: Vec<(usize, Cursor)>,
}

impl Model for Cursors {
    ghost use Rattle.vp_cache.specs.Cursors.{Cursors};
    ghost use Rattle.std.specs.Prelude.{◌≤◌, length};
    ghost use Rattle.std.specs.Vec.{vec_capacity};

    ghost Value = { Cursors };

    ghost view = { λ a. record { entries = a.entries.items; capacity = a.capacity; limits = a.limits } };

    ghost invariant = { λ a. (length a.entries.items ≤ a.capacity) × (a.capacity ≤ vec_capacity a.entries) };
}

impl Cursors {
    /// Creates a list for at most `capacity` cursors of streams with these limits. With a capacity of 0 each packet is
    /// decoded from the last key packet on.
    pub fn new(alloc: Global, capacity: u32, limits: Limits) -> Result<Cursors, AllocError>
        ensures list { IfOk result (λ c. c ≡ no_cursors capacity limits) }
        ensures stands { IfOk result (λ c. (number : ℕ) (s : StreamState) → AreCursorsOf number s c.entries) }
    {
        Ok(Cursors {
            alloc,
            limits,
            capacity,
            entries: Vec::with_capacity(alloc, capacity as usize)?,
        })
    }

    /// Decodes packet `n` of a stream: the answer is that of `Stream::picture_at`. The nearest usable cursor of the
    /// stream goes on, or else a new one. A stream's number must always name the same stream, which may grow. The
    /// number of decoded packets is added to `work`; the sum saturates at 2^64 - 1.
    ///
    /// Errors: out of memory.
    pub fn picture_from(
        &mut self,
        stream_no: usize,
        stream: &Stream,
        n: u32,
        work: &mut u64,
    ) -> Result<Answer, AllocError>
        requires cursors { AreCursorsOf stream_no stream.now self.old.entries }
        requires limits { stream.now.limits ≡ self.old.limits }
        ensures answer { IfOk result (λ a.
            answer_value a ≡ answer_at stream.now.limits stream.now.reading.packets n) }
        ensures stands { IfOk result (λ a. (h : StreamHistory) → IsStreamAfter stream.now h →
            answer_value a ≡ answer_at stream.now.limits (packets_of stream.now h) n) }
        ensures there { OnErr result (n < length stream.now.reading.packets) }

        // No more packets are decoded than by any of the stream's cursors, or without one.
        ensures work { OnOk result (work.new ≡
            saturating_count work.old (least_work stream_no stream.now.reading.packets n self.old.entries)) }
        ensures most { OnErr result ((work.old ≤ work.new) × (work.new ≤
            saturating_count work.old (least_work stream_no stream.now.reading.packets n self.old.entries))) }

        // The used cursor moves to the front, and is past packet n. If memory runs out, it is past no
        // packet.
        ensures entries { OnOk result (self.new ≡ after_picture self.old stream_no stream.now n) }
        ensures cleared { OnErr result (self.new ≡
            in_front self.old stream_no stream.now.reading.packets n (initial_cursor stream.now.limits)) }
        ensures kept { AreCursorsOf stream_no stream.now self.new.entries }
        ensures others { (other : ℕ) (s : StreamState) → other ≢ stream_no →
            AreCursorsOf other s self.old.entries → AreCursorsOf other s self.new.entries }
        ensures limits { self.new.limits ≡ self.old.limits }
        ensures length { length self.new.entries ≤ self.new.capacity }
    {
        let _known = *work;
        let capacity = self.capacity as usize;
        if n >= stream.count() {
            return Ok(Answer::NoPacket);
        }
        let start = stream.key_before(n).unwrap_or(n);
        let mut cursor = take_or_new(
            self.alloc,
            self.limits,
            &mut self.entries,
            stream_no,
            start,
            n + 1,
        );
        let answer = stream.picture_from(n, &mut cursor, work);
        put(&mut self.entries, capacity, stream_no, cursor);
        answer
    }
}

/// Returns the greater one of two numbers, one of which may not exist.
fn greater(a: u32, b: Option<u32>) -> Option<u32>
    ensures { result ≡ greater a b }
{
    match b {
        Some(b) => Some(a.max(b)),
        None => Some(a),
    }
}

/// Returns whether it is a cursor of a stream that is past `start` to `end` packets.
fn is_between(entry: &(usize, Cursor), stream_no: usize, start: u32, end: u32) -> bool
    ensures { result ≡ is_between stream_no start end entry.now }
{
    entry.0 == stream_no && start <= entry.1.next() && entry.1.next() <= end
}

/// Returns the greatest number of packets, from `start` to `end`, that a cursor of a stream is past.
fn nearest(entries: &[(usize, Cursor)], stream_no: usize, start: u32, end: u32) -> Option<u32>
    ensures { result ≡ nearest_between stream_no start end entries.now }
{
    let mut best = None;
    for entry in entries {
        if is_between(entry, stream_no, start, end) {
            best = greater(entry.1.next(), best);
        }
    }
    best
}

/// Returns the place of the first cursor of a stream that is past this number of packets.
fn place_of(entries: &[(usize, Cursor)], stream_no: usize, next: u32) -> Option<usize>
    ensures place { result ≡ position (λ e. stands_behind stream_no next e) entries.now }
    ensures there { IfSome result (λ i. i < length entries.now) }
{
    entries
        .iter()
        .position(|entry| entry.0 == stream_no && entry.1.next() == next)
}

/// Takes the cursor of a stream that is past the greatest number of packets from `start` to `end`, if there is
/// one.
fn take_nearest(
    entries: &mut Vec<(usize, Cursor)>,
    stream_no: usize,
    start: u32,
    end: u32,
) -> Option<Cursor>
    ensures entries { entries.new.items ≡
        without stream_no (nearest_between stream_no start end entries.old.items) entries.old.items }
    ensures cursor { MatchOption result (nearest_between stream_no start end entries.old.items ≡ None)
        (λ c. (nearest_between stream_no start end entries.old.items ≡ Some c.next)
        × Contains entries.old.items (stream_no, c)) }
    ensures fewer { vec_len entries.new ≤ vec_len entries.old }
    ensures capacity { vec_capacity entries.new ≡ vec_capacity entries.old }
{
    let next = nearest(entries, stream_no, start, end)?;
    let place = place_of(entries, stream_no, next)?;
    Some(entries.remove(place).1)
}

/// Takes the cursor of a stream that is past the greatest number of packets from `start` to `end`, or creates
/// one.
fn take_or_new(
    alloc: Global,
    limits: Limits,
    entries: &mut Vec<(usize, Cursor)>,
    stream_no: usize,
    start: u32,
    end: u32,
) -> Cursor
    ensures entries { entries.new.items ≡
        without stream_no (nearest_between stream_no start end entries.old.items) entries.old.items }
    ensures cursor { IsChosen limits stream_no
        (nearest_between stream_no start end entries.old.items) entries.old.items result }
    ensures fewer { vec_len entries.new ≤ vec_len entries.old }
    ensures capacity { vec_capacity entries.new ≡ vec_capacity entries.old }
{
    match take_nearest(entries, stream_no, start, end) {
        Some(cursor) => cursor,
        None => Cursor::new(alloc, limits),
    }
}

/// Puts a cursor in front, and cuts the list at the capacity, for which there is room.
fn put(entries: &mut Vec<(usize, Cursor)>, capacity: usize, stream_no: usize, cursor: Cursor)
    requires { capacity ≤ vec_capacity entries.old }
    ensures items { entries.new.items ≡ take capacity ((stream_no, cursor) ∷ entries.old.items) }
    ensures len { vec_len entries.new ≤ capacity }
    ensures room { capacity ≤ vec_capacity entries.new }
{
    if capacity == 0 {
        entries.clear();
        return;
    }
    entries.truncate(capacity - 1);
    let Ok(()) = entries.insert(0, (stream_no, cursor)) else {
        unreachable!();
    };
}
