//! Parses a packet and detects its faults, in the order in which they are reported.

ghost use Rattle.std.specs.Prelude.{◌≡◌, ◌≤◌, ◌<◌, Ok, Err, IfOk, MatchResult};
ghost use Rattle.vp_base.specs.declared.limits.Limits.{Limits};
ghost use Rattle.vp_decode.specs.State.{finished, finished_from, parts_of, cut_partitions};
ghost use Rattle.vp_decode.specs.Step.{parsed, count_of, tag_length};

use crate::decoder::DecoderState;
use crate::frame_context::FrameContext;
use std::marker::Model;
use vp_base::Limits;
use vp_bool::BoolDecoder;
use vp_head::{Header, PacketFault, Saved, Tag};
use vp_tokens::Partitions;

/// An open packet, of which the tag is read: its context is chosen, and its first partition lies within the packet.
/// Made by `open_packet`. `read_header` moves `first` past the frame header.
#[derive(Drop)]
pub(crate) struct OpenPacket<'a> {
    pub tag: Tag,
    pub context: FrameContext<'a>,
    /// The first partition.
    pub first: BoolDecoder<'a>,
    /// The bytes after the first partition.
    rest: &'a [u8],
}

impl<'a> Model for OpenPacket<'a> {
    ghost use Rattle.vp_decode.specs.State.{HasConsistentSizes, OpenPacket};

    ghost Value = { OpenPacket };

    ghost view = { λ o. record { tag = o.tag; context = o.context; first = o.first; rest = o.rest.now } };

    ghost invariant = { λ o. HasConsistentSizes o.context };
}

/// A parsed packet, which has no fault: an open one, with the frame header that is read from it and its token
/// partitions. Made by `OpenPacket::cut_partitions`; `decode_frame` decodes it. Header and saved values are lent: they
/// don't move with the packet.
#[derive(Drop)]
pub(crate) struct ParsedPacket<'a> {
    /// Its first partition is left after the frame header.
    pub opened: OpenPacket<'a>,
    pub header: &'a Header,
    /// The values that are saved for the next frame's header.
    pub saved: &'a Saved,
    pub partitions: Partitions<'a>,
}

impl<'a> Model for ParsedPacket<'a> {
    ghost use Rattle.std.specs.Prelude.{◌<◌, ◌≤◌, length};
    ghost use Rattle.vp_decode.specs.State.{HasConsistentSizes};
    ghost use Rattle.vp_decode.specs.Step.{ParsedPacket};

    ghost Value = { ParsedPacket };

    ghost view = { λ o. record {
      tag = o.opened.tag;
      context = o.opened.context;
      header = o.header.now;
      saved = o.saved.now;
      first = o.opened.first;
      partitions = o.partitions;
    } };

    ghost invariant = { λ o. HasConsistentSizes o.opened.context
        × (0 < length o.partitions) × (length o.partitions ≤ 8) };
}

/// Returns the number of token partitions of a frame, 1 to 8, by the two bits of its header (RFC 6386, chapter 9.5).
pub fn partition_count(log2: u8) -> usize
    requires { log2 ≤ 3 }
    ensures value { result ≡ count_of log2 }
    ensures few { result ≤ 8 }
    ensures some { 0 < result }
{
    1 << log2
}

/// Returns the length of the tag in bytes: 10 for a key frame, else 3.
fn length_of(tag: &Tag) -> usize
    ensures value { result ≡ tag_length tag.now }
    ensures small { result ≤ 10 }
{
    if tag.key.is_some() { 10 } else { 3 }
}

impl<'a> OpenPacket<'a> {
    /// Reads the frame header, and returns it with the values that are saved for the next frame's header. It is not
    /// inlined: the memory for reading the header then is not part of the stack while the frame is decoded.
    #[inline(never)]
    pub(crate) fn read_header(&mut self) -> (Header, Saved)
        ensures read { cut_partitions self.new result.0 result.1 ≡ finished self.old }
        ensures few { result.0.log2_partitions ≤ 3 }
    {
        let Some(saved) = self.context.saved else {
            return Header::read(&Saved::defaults(), &self.tag, &mut self.first);
        };
        Header::read(saved, &self.tag, &mut self.first)
    }

    /// Cuts the token partitions of a packet whose frame header is read.
    pub(crate) fn cut_partitions(
        self,
        header: &'a Header,
        saved: &'a Saved,
    ) -> Result<ParsedPacket<'a>, PacketFault>
        requires { header.now.log2_partitions ≤ 3 }
        ensures value { result ≡ cut_partitions self.entry header.now saved.now }
        ensures header { IfOk result (λ o. o.header ≡ header.now) }
        ensures saved { IfOk result (λ o. o.saved ≡ saved.now) }
    {
        let count = partition_count(header.log2_partitions);
        let partitions = Partitions::cut(self.rest, count)?;
        Ok(ParsedPacket {
            opened: self,
            header,
            saved,
            partitions,
        })
    }
}

/// Returns a reader of the first partition, and the bytes after it.
pub(crate) fn open_parts<'a>(
    tag: &Tag,
    packet: &'a [u8],
) -> Result<(BoolDecoder<'a>, &'a [u8]), PacketFault>
    ensures { MatchResult result (λ parts. parts_of tag.now packet.now ≡ Ok (parts.0, parts.1.now))
        (λ fault. parts_of tag.now packet.now ≡ Err fault) }
{
    let begin = length_of(tag);
    let end = begin + tag.first_partition as usize;
    if packet.len() < end {
        return Err(PacketFault::FirstPartition);
    }
    Ok((BoolDecoder::new(&packet[begin..end]), &packet[end..]))
}

/// Opens a packet, or returns the first of its faults.
#[tactic(auto, unfolding(crate::specs::Step::parsed), using(crate::proofs::CutLemmas::opened_in_parts))]
pub(crate) fn open_packet<'a>(
    limits: &Limits,
    state: &'a Option<DecoderState>,
    packet: &'a [u8],
) -> Result<OpenPacket<'a>, PacketFault>
    ensures { finished_from result ≡ parsed limits.now state.now packet.now }
{
    let tag = Tag::read(packet, limits)?;
    let context = FrameContext::of(tag.key, state)?;
    let (first, rest) = open_parts(&tag, packet)?;
    Ok(OpenPacket {
        tag,
        context,
        first,
        rest,
    })
}
