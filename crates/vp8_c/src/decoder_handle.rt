//! The decoder of a handle.

ghost use Rattle.std.specs.Prelude.{◌≡◌};
ghost use Rattle.vp8_c.specs.Decoding.{reference_of};

use crate::status::{MEMORY, NO_PICTURE, outcome_number};
use vp_base::Picture;
use vp_decode::{Decoder, FrameFacts, OnFault};
use vp_head::Reference;

/// A decoder, and the facts about the frame of its last packet.
#[derive(Drop)]
pub struct DecoderHandle {
    /// The decoder.
    pub decoder: Decoder,
    /// The facts about the frame of the last packet. None before the first packet, after a fault and after an empty
    /// packet.
    pub frame: Option<FrameFacts>,
}

/// Returns the reference frame of a number: 1 is last, 2 golden, 3 altref.
fn reference_of(number: u32) -> Option<Reference>
    ensures { result ≡ reference_of number }
{
    match number {
        1 => Some(Reference::Last),
        2 => Some(Reference::Golden),
        3 => Some(Reference::Alt),
        _ => None,
    }
}

impl DecoderHandle {
    ghost use Rattle.vp8_c.specs.Decoding.{DecodesBy, reference_by, reference_of};
    ghost use Rattle.vp8_c.specs.Arguments.{result_map};
    ghost use Rattle.vp_decode.specs.FrameFacts.{is_frame_corrupt};

    /// Decodes a packet, and keeps the facts about its frame.
    pub fn decode(&mut self, packet: &[u8], on_fault: OnFault) -> u32
        ensures { DecodesBy on_fault packet.now result self.old self.new }
    {
        match self.decoder.decode_with_facts(packet, on_fault) {
            Ok(decoded) => {
                self.frame = decoded.frame;
                outcome_number(decoded.outcome)
            }
            Err(_) => MEMORY,
        }
    }

    /// Returns whether a partition of the last packet was read past its end.
    pub fn is_corrupt(&self) -> bool
        ensures { result ≡ is_frame_corrupt self.now.frame }
    {
        match &self.frame {
            Some(facts) => facts.corrupt,
            None => false,
        }
    }

    /// Returns the picture of the reference frame of a number, or the status of a call without one.
    pub fn reference(&self, number: u32) -> Result<&Picture, u32>
        ensures { result_map (λ p. p.now) result ≡ reference_by (reference_of number) self.now.decoder }
    {
        let Some(reference) = reference_of(number) else {
            return Err(NO_PICTURE);
        };
        match self.decoder.reference(reference) {
            Some(picture) => Ok(picture),
            None => Err(NO_PICTURE),
        }
    }
}
