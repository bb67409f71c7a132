//! The outcomes of packets, told without their pictures.

ghost use Rattle.std.specs.Prelude.{◌≡◌, ◌||◌, Option, is_some, None};
ghost use Rattle.vp_base.specs.declared.limits.Limits.{Limits};
ghost use Rattle.vp_decode.specs.Outcomes.{OutcomeReader, reader_at};
ghost use Rattle.vp_decode.specs.Passing.{tag_in, frame_outcome, repeated_outcome, was_shown, is_shown_after};
ghost use Rattle.vp_decode.specs.Step.{DecoderState, FrameContext, parsed_in_context, parsed, step, outcome};

use crate::decoder::Outcome;
use crate::header_start::read_log2_partitions;
use crate::parsed_packet::{open_parts, partition_count};
use std::marker::Model;
use vp_base::Limits;
use vp_head::{PacketFault, Tag};
use vp_tokens::Partitions;

/// Tells the outcomes of the packets of one stream, in order, as a `Decoder` gives them. It decodes no pictures and
/// needs no memory: all faults are found in a packet's tag, the start of its frame header and its partition sizes.
#[derive(Drop)]
pub struct OutcomeReader {
    limits: Limits,
    /// Whether a picture was shown since the last key packet. None before the first key packet and after a fault.
    shown: Option<bool>,
}

impl Model for OutcomeReader {
    ghost use Rattle.vp_decode.specs.Outcomes.{OutcomeReader};

    ghost Value = { OutcomeReader };

    ghost view = { λ r. record { limits = r.limits; shown = r.shown } };
}

impl OutcomeReader {
    /// Creates a reader without state, which refuses pictures that exceed the limits.
    pub fn new(limits: Limits) -> OutcomeReader
        ensures { result ≡ record { limits = limits; shown = None } }
    {
        OutcomeReader {
            limits,
            shown: None,
        }
    }

    /// Returns the outcome of a packet: what a `Decoder` that has decoded the same packets before gives for it.
    pub fn outcome(&mut self, packet: &[u8]) -> Outcome
        ensures after { (limits : Limits) (state : Option DecoderState) → self.old ≡ reader_at limits state
            → self.new ≡ reader_at limits (step limits state packet.now).0 }
        ensures outcome { (limits : Limits) (state : Option DecoderState) → self.old ≡ reader_at limits state
            → result ≡ outcome (step limits state packet.now).1 }
    {
        if packet.is_empty() {
            return repeated_outcome(self.shown);
        }
        match read_checked_tag(&self.limits, self.shown.is_some(), packet) {
            Ok(tag) => {
                self.shown = Some(is_shown_after(&tag, self.shown));
                frame_outcome(tag.show)
            }
            Err(fault) => {
                self.shown = None;
                Outcome::Fault(fault)
            }
        }
    }
}

/// Returns the outcome of a frame.
pub(crate) fn frame_outcome(show: bool) -> Outcome
    ensures { result ≡ frame_outcome show }
{
    if show {
        Outcome::Shown
    } else {
        Outcome::Hidden
    }
}

/// The outcome of an empty packet: the last shown picture is shown again.
fn repeated_outcome(shown: Option<bool>) -> Outcome
    ensures { result ≡ repeated_outcome shown }
{
    match shown {
        Some(shown) => frame_outcome(shown),
        None => Outcome::Fault(PacketFault::NoReference),
    }
}

/// Returns whether there is a shown picture after a frame with this tag. A key frame forgets the one before it.
fn is_shown_after(tag: &Tag, before: Option<bool>) -> bool
    ensures { result ≡ is_shown_after tag.now before }
{
    if tag.show {
        return true;
    }
    if tag.key.is_some() {
        return false;
    }
    match before {
        Some(shown) => shown,
        None => false,
    }
}

/// Returns whether a frame has a context: that of a key frame, or the state.
fn has_context(tag: &Tag, has_state: bool) -> bool
    ensures { result ≡ (is_some tag.now.key || has_state) }
{
    tag.key.is_some() || has_state
}

/// Returns the tag of a packet that is not empty, or the first of its faults, in the order of a `Decoder`.
fn read_checked_tag(limits: &Limits, has_state: bool, packet: &[u8]) -> Result<Tag, PacketFault>
    ensures { (state : Option DecoderState) → has_state ≡ is_some state
        → result ≡ tag_in (parsed limits.now state packet.now) }
{
    let tag = match Tag::read(packet, limits) {
        Ok(tag) => tag,
        Err(fault) => return Err(fault),
    };
    if !has_context(&tag, has_state) {
        return Err(PacketFault::NoReference);
    }
    check_partitions(tag, packet)
}

/// Returns the tag, or the first fault of the packet after it.
fn check_partitions(tag: Tag, packet: &[u8]) -> Result<Tag, PacketFault>
    ensures { (context : FrameContext) → result ≡ tag_in (parsed_in_context tag context packet.now) }
{
    let (mut first, rest) = open_parts(&tag, packet)?;
    let log2 = read_log2_partitions(tag.key.is_some(), &mut first);
    match Partitions::cut(rest, partition_count(log2)) {
        Ok(_) => Ok(tag),
        Err(fault) => Err(fault),
    }
}
