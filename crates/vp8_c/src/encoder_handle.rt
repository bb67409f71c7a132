//! The encoder of a handle.

ghost use Rattle.std.specs.Prelude.{◌≡◌, ◌≢◌, ◌⊎◌, None, IfOk};
ghost use Rattle.vp_encode.specs.TooLong.{IsTooLong};
ghost use Rattle.vp8_c.specs.Planes.{planes_in};

use crate::planes::CallerPlanes;
use crate::rows::read_picture;
use crate::status::{BUFFER, MEMORY, OK, TOO_LONG};
use std::alloc::{AllocError, Global};
use vp_base::{Dim, Picture};
use vp_encode::{EncodeFault, Encoded, Encoder};

/// An encoder, a buffer for its source, and the last encoded frame, unless that was refused.
#[derive(Drop)]
pub struct EncoderHandle {
    /// The encoder.
    pub encoder: Encoder,
    /// A buffer for the source picture, of the encoder's size.
    pub source: Picture,
    /// The last encoded frame; None before the first one, and after a refused one.
    pub encoded: Option<Encoded>,
    ghost columns: { source.width ≡ encoder.dim.w },
    ghost rows: { source.height ≡ encoder.dim.h },
}

impl EncoderHandle {
    ghost use Rattle.vp8_c.specs.EncoderHandle.{Encodes, EncodesSource, IsFrameForgotten};

    /// Creates a handle's encoder for pictures of this size.
    pub fn of(alloc: Global, encoder: Encoder, dim: Dim) -> Result<EncoderHandle, AllocError>
        requires { encoder.dim ≡ dim }
        ensures encoder { IfOk result (λ c. c.encoder ≡ encoder) }
        ensures encoded { IfOk result (λ c. c.encoded ≡ None) }
    {
        Ok(EncoderHandle {
            encoder,
            source: Picture::new(alloc, dim, 0)?,
            encoded: None,
        })
    }

    /// Encodes the source in the buffer, and keeps the frame.
    fn encode_source(&mut self) -> u32
        ensures answer { (result ≡ OK) ⊎ (result ≡ TOO_LONG) ⊎ (result ≡ MEMORY) }
        ensures encoded { result ≡ OK → EncodesSource self.old.encoder self.old.source self.new }
        ensures too_long { result ≡ TOO_LONG → IsTooLong self.old.encoder self.old.source }
        ensures forgotten { result ≢ OK → IsFrameForgotten self.old.encoder self.new }
    {
        match self.encoder.encode(&self.source) {
            Ok(encoded) => {
                self.encoded = Some(encoded);
                OK
            }
            Err(EncodeFault::TooLong) => {
                self.encoded = None;
                TOO_LONG
            }
            Err(EncodeFault::Memory) => {
                self.encoded = None;
                MEMORY
            }
            Err(EncodeFault::SourceSize) => unreachable!(),
        }
    }

    /// Encodes the picture in the caller's planes, if they are large enough, and keeps the frame.
    pub fn encode(&mut self, planes: CallerPlanes) -> u32
        ensures { Encodes (planes_in planes.entry) result self.old self.new }
    {
        if !read_picture(&mut self.source, planes) {
            return BUFFER;
        }
        self.encode_source()
    }
}
