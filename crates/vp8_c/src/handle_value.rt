//! The value of a handle: a decoder, a file or an encoder.

ghost use Rattle.std.specs.Prelude.{◌≡◌, None, IfSome, IsSomeAnd, option_map};
ghost use Rattle.vp8_c.specs.Planes.{planes_in};

use crate::decoder_handle::DecoderHandle;
use crate::encoder_handle::EncoderHandle;
use crate::file_handle::{FileHandle, KeptPicture};
use crate::packet::FrameInfo;
use crate::planes::CallerPlanes;
use crate::status::{CLOSED, NO_PICTURE};
use crate::stream_handle::StreamHandle;
use vp_base::Picture;
use vp_decode::OnFault;
use vp_encode::Encoded;

/// The value that an open handle refers to.
#[derive(Drop)]
pub enum HandleValue {
    /// A `vp8_decoder`.
    Decoder(DecoderHandle),
    /// A `vp8_stream`.
    Stream(StreamHandle),
    /// A `vp8_encoder`.
    Encoder(EncoderHandle),
}

impl HandleValue {
    ghost use Rattle.vp8_c.specs.Decoding.{DecodesBy, corrupt_of, handle_of, last_picture, reference_of_value};
    ghost use Rattle.vp8_c.specs.FileHandle.{AnswersPacket, Feeds, Finishes, kept_of, i420_picture, stream_of};
    ghost use Rattle.vp8_c.specs.StreamHandle.{KeepsCursor, Seeks, stream_handle_of};
    ghost use Rattle.vp8_c.specs.EncoderHandle.{Encodes, encoded_of, encoder_of};
    ghost use Rattle.vp8_c.specs.Arguments.{result_map};
    ghost use Rattle.vp8_c.specs.Packets.{frame_of_value};

    /// Decodes a packet. The status is `CLOSED` if the value isn't a decoder.
    pub fn decode(&mut self, packet: &[u8], on_fault: OnFault) -> u32
        ensures closed { handle_of self.old ≡ None → (result ≡ CLOSED) × (self.new ≡ self.old) }
        ensures decoded { IfSome (handle_of self.old) (λ d. IsSomeAnd (handle_of self.new)
            (DecodesBy on_fault packet.now result d)) }
    {
        match self {
            HandleValue::Decoder(decoder) => decoder.decode(packet, on_fault),
            HandleValue::Stream(_) | HandleValue::Encoder(_) => CLOSED,
        }
    }

    /// Returns whether the decoder's last packet was corrupt. The status is `CLOSED` if the value isn't a decoder.
    pub fn corrupt(&self) -> Result<bool, u32>
        ensures { result ≡ corrupt_of self.now }
    {
        match self {
            HandleValue::Decoder(decoder) => Ok(decoder.is_corrupt()),
            HandleValue::Stream(_) | HandleValue::Encoder(_) => Err(CLOSED),
        }
    }

    /// Returns the picture of a decoder's reference frame, or the status of a call without one.
    pub fn reference(&self, number: u32) -> Result<&Picture, u32>
        ensures { result_map (λ p. p.now) result ≡ reference_of_value number self.now }
    {
        match self {
            HandleValue::Decoder(decoder) => decoder.reference(number),
            HandleValue::Stream(_) | HandleValue::Encoder(_) => Err(CLOSED),
        }
    }

    /// Returns the facts about the frame of the decoder's last packet, or the status of a call without them.
    pub fn frame(&self) -> Result<FrameInfo, u32>
        ensures { result ≡ frame_of_value self.now }
    {
        match self {
            HandleValue::Decoder(decoder) => match &decoder.frame {
                Some(facts) => Ok(FrameInfo::of(facts)),
                None => Err(NO_PICTURE),
            },
            HandleValue::Stream(_) | HandleValue::Encoder(_) => Err(CLOSED),
        }
    }

    /// Returns the picture that the decoder's last packet showed, or the status of a call without one.
    pub fn shown(&self) -> Result<&Picture, u32>
        ensures { result_map (λ p. p.now) result ≡ last_picture self.now }
    {
        match self {
            HandleValue::Decoder(decoder) => match decoder.decoder.picture() {
                Some(picture) => Ok(picture),
                None => Err(NO_PICTURE),
            },
            HandleValue::Stream(_) | HandleValue::Encoder(_) => Err(CLOSED),
        }
    }

    /// Returns the file, if the value is one.
    pub fn asked(&self) -> Option<&FileHandle>
        ensures { option_map (λ a. a.now) result ≡ stream_of self.now }
    {
        match self {
            HandleValue::Stream(asked) => Some(&asked.file),
            HandleValue::Decoder(_) | HandleValue::Encoder(_) => None,
        }
    }

    /// Decodes packet `n` of the file. The status is `CLOSED` if the value isn't a file.
    pub fn ask(&mut self, n: u32) -> u32
        ensures closed { stream_of self.old ≡ None → (result ≡ CLOSED) × (self.new ≡ self.old) }
        ensures answered { IfSome (stream_of self.old) (λ a. IsSomeAnd (stream_of self.new)
            (AnswersPacket n result a)) }
        ensures cost { IfSome (stream_handle_of self.old) (λ a. IsSomeAnd (stream_handle_of self.new)
            (Seeks n result a)) }
    {
        match self {
            HandleValue::Stream(asked) => asked.ask(n),
            HandleValue::Decoder(_) | HandleValue::Encoder(_) => CLOSED,
        }
    }

    /// Takes the next piece of the file. The status is `CLOSED` if the value isn't a file.
    pub fn feed(&mut self, piece: &[u8]) -> u32
        ensures closed { stream_of self.old ≡ None → (result ≡ CLOSED) × (self.new ≡ self.old) }
        ensures fed { IfSome (stream_of self.old) (λ a. IsSomeAnd (stream_of self.new) (Feeds piece.now result a)) }
        ensures cursor { IfSome (stream_handle_of self.old) (λ a. IsSomeAnd (stream_handle_of self.new)
            (KeepsCursor a)) }
    {
        match self {
            HandleValue::Stream(growing) => growing.feed(piece),
            HandleValue::Decoder(_) | HandleValue::Encoder(_) => CLOSED,
        }
    }

    /// Marks the end of the file. The status is `CLOSED` if the value isn't a file.
    pub fn finish(&mut self) -> u32
        ensures closed { stream_of self.old ≡ None → (result ≡ CLOSED) × (self.new ≡ self.old) }
        ensures finished { IfSome (stream_of self.old) (λ a. IsSomeAnd (stream_of self.new) (Finishes result a)) }
        ensures cursor { IfSome (stream_handle_of self.old) (λ a. IsSomeAnd (stream_handle_of self.new)
            (KeepsCursor a)) }
    {
        match self {
            HandleValue::Stream(growing) => growing.finish(),
            HandleValue::Decoder(_) | HandleValue::Encoder(_) => CLOSED,
        }
    }

    /// Returns the picture of the last requested packet, or the status of a call without one.
    pub fn kept(&self) -> Result<KeptPicture<'_>, u32>
        ensures { result_map i420_picture result ≡ kept_of self.now }
    {
        match self {
            HandleValue::Stream(asked) => match asked.file.picture() {
                Some(picture) => Ok(picture),
                None => Err(NO_PICTURE),
            },
            HandleValue::Decoder(_) | HandleValue::Encoder(_) => Err(CLOSED),
        }
    }

    /// Encodes the picture in the caller's planes. The status is `CLOSED` if the value isn't an encoder.
    pub fn encode(&mut self, planes: CallerPlanes) -> u32
        ensures closed { encoder_of self.old ≡ None → (result ≡ CLOSED) × (self.new ≡ self.old) }
        ensures encoded { IfSome (encoder_of self.old) (λ e. IsSomeAnd (encoder_of self.new)
            (Encodes (planes_in planes.entry) result e)) }
    {
        match self {
            HandleValue::Encoder(coding) => coding.encode(planes),
            HandleValue::Decoder(_) | HandleValue::Stream(_) => CLOSED,
        }
    }

    /// Returns the last encoded frame, or the status of a call without one.
    pub fn encoded(&self) -> Result<&Encoded, u32>
        ensures { result_map (λ f. f.now) result ≡ encoded_of self.now }
    {
        match self {
            HandleValue::Encoder(coding) => match &coding.encoded {
                Some(encoded) => Ok(encoded),
                None => Err(NO_PICTURE),
            },
            HandleValue::Decoder(_) | HandleValue::Stream(_) => Err(CLOSED),
        }
    }
}
