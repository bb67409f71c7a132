//! A growing IVF file, all packets of which are kept.

ghost use Rattle.std.specs.Prelude.{◌≡◌, ◌≢◌, ◌<◌, ◌≤◌, ◌+◌, ◌^◌, length, None, Some, Err, IfOk, OnOk, OnErr};
ghost use Rattle.std.specs.Prelude.{option_map, slice_get};
ghost use Rattle.vp_ivf.specs.declared.fault.FileFault.{FileFault};
ghost use Rattle.vp_ivf.specs.Reader.{answer_by, finish_answer, refusal_at};
ghost use Rattle.vp_stream.specs.Answers.{reading_of};
ghost use Rattle.vp_stream.specs.Seeking.{IsKeyBefore, key_before, answer_value, answer_at, work_of, saturating_count};
ghost use Rattle.vp_stream.specs.Stream.{StreamHistory, IsStreamAfter, initial_stream, empty_stream_history};
ghost use Rattle.vp_stream.specs.Stream.{stream_refusal, after_piece, stream_after_end, with_piece, with_end};
ghost use Rattle.vp_stream.specs.Stream.{packets_of};
ghost use Rattle.vp_stream.specs.Cursor.{Cursor, IsCursorOf, initial_cursor, cursor_behind, work_from, next_after};

use crate::answer::Answer;
use crate::cursor::Cursor;
use crate::laws::answers_come_from_the_last_key_packet;
use crate::seeking::{answer_from, keep_waiting, key_of};
use std::alloc::{AllocError, Global};
use std::marker::Model;
use vp_base::Limits;
use vp_decode::key_packet_resets;
use vp_head::first_byte_says_kind;
use vp_ivf::{FeedError, FileFault, IvfHead, Packet, Reader};

/// A growing IVF file. It is fed in pieces of any length, and any of its packets can be decoded at any time. Its
/// answers depend only on the bytes fed so far, and on whether `finish` was called.
#[derive(Drop)]
pub struct Stream {
    alloc: Global,
    limits: Limits,
    reader: Reader,
    packets: Vec<Packet>,
    // For each packet, the number of the last key packet up to it.
    keys: Vec<Option<u32>>,
}

impl Model for Stream {
    ghost use Rattle.vp_stream.specs.Stream.{Stream, with_taken_packets, IsKept};

    ghost Value = { Stream };

    ghost view = { λ a. record {
      limits = a.limits;
      reading = with_taken_packets a.reader a.packets.items;
      ended = a.reader.ended;
    } };

    ghost invariant = { λ a. IsKept a.limits a.reader a.packets.items a.keys.items };
}

impl Stream {
    /// Creates a stream without any bytes.
    pub fn new(alloc: Global, limits: Limits) -> Stream
        ensures state { result ≡ initial_stream limits }
        ensures stands { IsStreamAfter result empty_stream_history }
    {
        Stream {
            alloc,
            limits,
            reader: Reader::new(alloc, limits),
            packets: Vec::new(alloc),
            keys: Vec::new(alloc),
        }
    }

    /// Takes the next piece of the file, of any length.
    ///
    /// Errors: the fault of the file, if it has one; `Ended` after `finish`; `Memory`, which leaves the stream
    /// unchanged.
    pub fn feed(&mut self, piece: &[u8]) -> Result<(), FeedError>
        ensures limits { self.new.limits ≡ self.old.limits }

        // A fault of an earlier call is returned again. It, and running out of memory, leave the stream unchanged.
        ensures refused { (fault : FileFault) → stream_refusal self.old ≡ Some fault →
            (result ≡ Err (FeedError.Fault fault)) × (self.new ≡ self.old) }
        ensures memory { result ≡ Err FeedError.Memory → self.new ≡ self.old }

        // Otherwise the piece is taken, and the answer is the file's fault, if it has one now.
        ensures answer { stream_refusal self.old ≡ None → result ≢ Err FeedError.Memory →
            result ≡ answer_by self.new.reading.fault }
        ensures reading { stream_refusal self.old ≡ None → result ≢ Err FeedError.Memory →
            self.new ≡ after_piece self.old piece.now }
        ensures stands { stream_refusal self.old ≡ None → result ≢ Err FeedError.Memory →
            (h : StreamHistory) → IsStreamAfter self.old h → IsStreamAfter self.new (with_piece h piece.now) }
        // In all cases the cursors of the stream stay valid.
        ensures cursors { (cursor : Cursor) → IsCursorOf cursor self.old → IsCursorOf cursor self.new }
    {
        if let Some(fault) = self.reader.refusal() {
            return Err(FeedError::Fault(fault));
        }
        let most = piece.len() / 12 + 1;
        if self.packets.try_reserve(most).is_err() {
            return Err(FeedError::Memory);
        }
        if self.keys.try_reserve(most).is_err() {
            return Err(FeedError::Memory);
        }
        let result = self.reader.feed(piece);
        keep_waiting(&mut self.reader, &mut self.packets, &mut self.keys);
        result
    }

    /// Marks the end of the file, and returns its fault, if it has one. Later calls return the same answer, and no more
    /// pieces are taken.
    pub fn finish(&mut self) -> Result<(), FileFault>
        ensures limits { self.new.limits ≡ self.old.limits }
        ensures answer { result ≡ finish_answer self.old.reading }
        ensures file { (h : StreamHistory) → IsStreamAfter self.old h →
            result ≡ finish_answer (reading_of self.old.limits h.fed) }
        ensures state { self.new ≡ stream_after_end self.old }
        ensures stands { (h : StreamHistory) → IsStreamAfter self.old h →
            IsStreamAfter self.new (with_end h self.old.reading.fault) }
        ensures cursors { (cursor : Cursor) → IsCursorOf cursor self.old → IsCursorOf cursor self.new }
    {
        self.reader.finish()
    }

    /// Returns the error with which `feed` refuses any piece: the file's fault, or `Ended` after `finish`.
    pub fn refusal(&self) -> Option<FileFault>
        ensures value { result ≡ stream_refusal self.now }
        ensures file { (h : StreamHistory) → IsStreamAfter self.now h →
            result ≡ refusal_at (reading_of self.now.limits h.fed).fault h.ended }
    {
        self.reader.refusal()
    }

    /// Returns the file's head, once it is whole and valid.
    pub fn head(&self) -> Option<IvfHead>
        ensures value { result ≡ self.now.reading.head }
        ensures head { (h : StreamHistory) → IsStreamAfter self.now h →
            result ≡ (reading_of self.now.limits h.fed).head }
    {
        self.reader.head()
    }

    /// Returns the number of whole packets.
    pub fn count(&self) -> u32
        ensures value { result ≡ length self.now.reading.packets }
        ensures packets { (h : StreamHistory) → IsStreamAfter self.now h →
            result ≡ length (packets_of self.now h) }
        ensures limit { result ≤ self.now.limits.packets }
    {
        self.packets.len() as u32
    }

    /// Returns packet `n`, counted from 0, if the stream has it.
    pub fn packet(&self, n: u32) -> Option<&Packet>
        ensures value { option_map (λ p. p.now) result ≡ slice_get self.now.reading.packets n }
        ensures packets { (h : StreamHistory) → IsStreamAfter self.now h →
            option_map (λ p. p.now) result ≡ slice_get (packets_of self.now h) n }
    {
        self.packets.get(n as usize)
    }

    /// Returns the number of the last key packet among packets 0 to `n`. A key packet has three bytes or more, and its
    /// first byte is even (RFC 6386, chapter 9.1).
    pub fn key_before(&self, n: u32) -> Option<u32>
        ensures value { result ≡ key_before self.now.reading.packets n }
        ensures greatest { IsKeyBefore self.now.reading.packets n result }
        ensures packets { (h : StreamHistory) → IsStreamAfter self.now h →
            IsKeyBefore (packets_of self.now h) n result }
    {
        key_of(&self.packets, &self.keys, n)
    }

    /// Decodes packet `n`, starting at the last key packet up to it. Without a key packet it is decoded alone.
    ///
    /// Errors: out of memory.
    pub fn picture_at(&self, n: u32) -> Result<Answer, AllocError>
        ensures answer { IfOk result (λ a.
            answer_value a ≡ answer_at self.now.limits self.now.reading.packets n) }
        ensures stands { IfOk result (λ a. (h : StreamHistory) → IsStreamAfter self.now h →
            answer_value a ≡ answer_at self.now.limits (packets_of self.now h) n) }
        ensures memory { OnErr result (n < length self.now.reading.packets) }
    {
        let mut work = 0;
        self.picture_counted(n, &mut work)
    }

    /// Decodes packet `n` as `picture_at` does, and adds the number of decoded packets to `work`. The sum saturates at
    /// 2^64 - 1.
    pub fn picture_counted(&self, n: u32, work: &mut u64) -> Result<Answer, AllocError>
        ensures answer { IfOk result (λ a.
            answer_value a ≡ answer_at self.now.limits self.now.reading.packets n) }
        ensures stands { IfOk result (λ a. (h : StreamHistory) → IsStreamAfter self.now h →
            answer_value a ≡ answer_at self.now.limits (packets_of self.now h) n) }
        ensures memory { OnErr result (n < length self.now.reading.packets) }

        // The decoded packets are those from the key packet to n, or n alone. If memory runs out, there are at most as
        // many.
        ensures work { OnOk result (work.new ≡ saturating_count work.old (work_of self.now.reading.packets n)) }
        ensures most { OnErr result ((work.old ≤ work.new)
            × (work.new ≤ saturating_count work.old (work_of self.now.reading.packets n))) }
    {
        let mut decoded = 0;
        let answer = self.decode_to(n, &mut decoded);
        *work = work.saturating_add(decoded);
        answer
    }

    // Decodes packet n, and counts the packets that are decoded for it.
    fn decode_to(&self, n: u32, decoded: &mut u64) -> Result<Answer, AllocError>
        requires { decoded.old ≡ 0 }
        ensures answer { IfOk result (λ a.
            answer_value a ≡ answer_at self.now.limits self.now.reading.packets n) }
        ensures memory { OnErr result (n < length self.now.reading.packets) }
        ensures count { OnOk result (decoded.new ≡ work_of self.now.reading.packets n) }
        ensures most { OnErr result (decoded.new ≤ work_of self.now.reading.packets n) }
    {
        if n >= self.count() {
            return Ok(Answer::NoPacket);
        }
        // By this law no packet before the key packet is needed.
        answers_come_from_the_last_key_packet();
        let first = key_of(&self.packets, &self.keys, n).unwrap_or(n);
        answer_from(self.alloc, self.limits, &self.packets, first, n, decoded)
    }

    /// Decodes packet `n` as `picture_at` does, with a cursor of this stream: decoding goes on at the cursor's next
    /// packet, or starts at the last key packet. Adds the number of decoded packets to `work`. The sum saturates at
    /// 2^64 - 1.
    ///
    /// Errors: out of memory, after which the cursor is at the start.
    pub fn picture_from(
        &self,
        n: u32,
        cursor: &mut Cursor,
        work: &mut u64,
    ) -> Result<Answer, AllocError>
        requires { IsCursorOf cursor.old self.now }
        ensures answer { IfOk result (λ a.
            answer_value a ≡ answer_at self.now.limits self.now.reading.packets n) }
        ensures stands { IfOk result (λ a. (h : StreamHistory) → IsStreamAfter self.now h →
            answer_value a ≡ answer_at self.now.limits (packets_of self.now h) n) }
        ensures memory { OnErr result (n < length self.now.reading.packets) }

        // The cursor stays one of this stream. It is then past packet n, or where it was if there is no packet n.
        // If memory runs out, it is at the start.
        ensures cursor { IsCursorOf cursor.new self.now }
        ensures next { OnOk result (cursor.new.next ≡ next_after self.now.reading.packets cursor.old.next n) }
        ensures cleared { OnErr result (cursor.new ≡ initial_cursor self.now.limits) }

        // The decoded packets are those from the cursor's next packet to n, or from the key packet to n. If memory runs
        // out, there are at most as many. There are never more than without a cursor, and none if the cursor is
        // just past packet n.
        ensures work { OnOk result (work.new ≡ saturating_count work.old
            (work_from self.now.reading.packets cursor.old.next n)) }
        ensures most { OnErr result ((work.old ≤ work.new) × (work.new ≤ saturating_count work.old
            (work_from self.now.reading.packets cursor.old.next n))) }
        ensures least { work.new ≤ saturating_count work.old (work_of self.now.reading.packets n) }
        ensures again { cursor.old.next ≡ n + 1 → work.new ≡ work.old }
    {
        let mut decoded = 0;
        let answer = self.answer_from_cursor(n, cursor, &mut decoded);
        *work = work.saturating_add(decoded);
        if answer.is_err() {
            *cursor = Cursor::new(self.alloc, self.limits);
        }
        answer
    }

    // Decodes packet n with a cursor, and counts the packets that are decoded for it. If memory runs out, the cursor
    // may be none of this stream.
    fn answer_from_cursor(
        &self,
        n: u32,
        cursor: &mut Cursor,
        decoded: &mut u64,
    ) -> Result<Answer, AllocError>
        requires cursor { IsCursorOf cursor.old self.now }
        requires none { decoded.old ≡ 0 }
        ensures answer { IfOk result (λ a.
            answer_value a ≡ answer_at self.now.limits self.now.reading.packets n) }
        ensures memory { OnErr result (n < length self.now.reading.packets) }
        ensures cursor { OnOk result (IsCursorOf cursor.new self.now) }
        ensures next { OnOk result (cursor.new.next ≡ next_after self.now.reading.packets cursor.old.next n) }
        ensures count { OnOk result (decoded.new ≡ work_from self.now.reading.packets cursor.old.next n) }
        ensures most { OnErr result (decoded.new ≤ work_from self.now.reading.packets cursor.old.next n) }
    {
        if n >= self.count() {
            return Ok(Answer::NoPacket);
        }
        self.move_behind(n, cursor, decoded)?;
        cursor.answer(self.alloc)
    }

    // Decodes packets until a cursor is past packet n, and counts them.
    fn move_behind(&self, n: u32, cursor: &mut Cursor, decoded: &mut u64) -> Result<(), AllocError>
        requires there { n < length self.now.reading.packets }
        requires few { length self.now.reading.packets < 2 ^ 32 }
        requires cursor { IsCursorOf cursor.old self.now }
        requires none { decoded.old ≡ 0 }
        ensures cursor { OnOk result (cursor.new ≡ cursor_behind self.now.limits self.now.reading.packets (n + 1)) }
        ensures count { OnOk result (decoded.new ≡ work_from self.now.reading.packets cursor.old.next n) }
        ensures most { OnErr result (decoded.new ≤ work_from self.now.reading.packets cursor.old.next n) }
    {
        // By these laws no packet before the key packet is needed.
        key_packet_resets();
        first_byte_says_kind();
        let start = key_of(&self.packets, &self.keys, n).unwrap_or(n);
        let end = n + 1;
        cursor.place(self.alloc, self.limits, start, end);
        cursor.decode_each(&self.packets[cursor.next() as usize..end as usize], decoded)
    }
}
