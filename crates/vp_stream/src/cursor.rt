//! A decoder that is past the first packets of a stream.

ghost use Rattle.std.specs.Prelude.{◌≡◌, ◌+◌, ◌^◌, ◌<◌, ◌≤◌, length, IfOk, OnOk, OnErr};
ghost use Rattle.vp_stream.specs.Seeking.{answer_value};
ghost use Rattle.vp_stream.specs.Stream.{Stream};
ghost use Rattle.vp_stream.specs.Cursor.{IsCursorOf, initial_cursor, cursor_before, cursor_after, cursor_after_packets};
ghost use Rattle.vp_stream.specs.Cursor.{placed};

use crate::answer::Answer;
use crate::seeking::answer_of;
use std::alloc::{AllocError, Global};
use std::marker::Model;
use vp_base::Limits;
use vp_decode::{Decoder, Outcome};
use vp_ivf::Packet;

/// A decoder that is past the first packets of a stream, so that packets in order are decoded once each. It may
/// be used with one stream only, and stays valid while the stream grows.
#[derive(Drop)]
pub struct Cursor {
    decoder: Decoder,
    // The number of packets that it is past.
    next: u32,
    // The outcome of the last of them. None if nothing was decoded yet.
    outcome: Option<Outcome>,
}

impl Model for Cursor {
    ghost use Rattle.vp_stream.specs.Cursor.{Cursor, last_value};

    ghost Value = { Cursor };

    ghost view = { λ c. record {
      limits = c.decoder.limits;
      next = c.next;
      state = c.decoder.state;
      last = last_value c.decoder.shown c.outcome;
    } };
}

impl Cursor {
    /// Creates a cursor at the start. Its limits must be those of the stream.
    pub fn new(alloc: Global, limits: Limits) -> Cursor
        ensures state { result ≡ initial_cursor limits }
        ensures stands { (s : Stream) → s.limits ≡ limits → IsCursorOf result s }
    {
        Cursor::before(alloc, limits, 0)
    }

    /// Returns the number of packets that it is past, which is the number of its next packet.
    pub fn next(&self) -> u32
        ensures { result ≡ self.now.next }
    {
        self.next
    }

    /// Creates a decoder without a state, before packet `next`.
    fn before(alloc: Global, limits: Limits, next: u32) -> Cursor
        ensures { result ≡ cursor_before limits next }
    {
        Cursor {
            decoder: Decoder::new(alloc, limits),
            next,
            outcome: None,
        }
    }

    /// Goes to before packet `start`, without a state, unless the cursor is between it and packet `end`.
    pub(crate) fn place(&mut self, alloc: Global, limits: Limits, start: u32, end: u32)
        requires { start ≤ end }
        ensures place { self.new ≡ placed limits start end self.old }
        ensures order { self.new.next ≤ end }
    {
        if self.next < start || end < self.next {
            *self = Cursor::before(alloc, limits, start);
        }
    }

    /// Decodes the next packet.
    fn decode(&mut self, packet: &[u8]) -> Result<(), AllocError>
        requires { self.old.next + 1 < 2 ^ 32 }
        ensures { OnOk result (self.new ≡ cursor_after self.old packet.now) }
    {
        let outcome = self.decoder.decode(packet)?;
        self.outcome = Some(outcome);
        self.next += 1;
        Ok(())
    }

    /// Decodes the next packets, one after another, and counts them.
    pub(crate) fn decode_each(
        &mut self,
        packets: &[Packet],
        decoded: &mut u64,
    ) -> Result<(), AllocError>
        requires few { self.old.next + length packets.now < 2 ^ 32 }
        requires count { decoded.old + length packets.now < 2 ^ 64 }
        ensures cursor { OnOk result (self.new ≡ cursor_after_packets self.old packets.now) }
        ensures count { OnOk result (decoded.new ≡ decoded.old + length packets.now) }
        ensures most { OnErr result (decoded.new ≤ decoded.old + length packets.now) }
    {
        for packet in packets {
            *decoded += 1;
            self.decode(packet.bytes.as_slice())?;
        }
        Ok(())
    }

    /// Returns the answer for the packet decoded last.
    pub(crate) fn answer(&self, alloc: Global) -> Result<Answer, AllocError>
        ensures { IfOk result (λ a. answer_value a ≡ self.now.last) }
    {
        match self.outcome {
            Some(outcome) => answer_of(alloc, &self.decoder, outcome),
            None => Ok(Answer::NoPacket),
        }
    }
}
