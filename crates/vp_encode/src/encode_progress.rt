//! Encodes a file picture by picture.

ghost use Rattle.std.specs.Prelude.{◌≡◌, length};
ghost use Rattle.vp_encode.specs.EncodeProgress.{start, TakesPicture};

use crate::encoder::Encoder;
use crate::report::{EncodeAllFault, EncodeReport, EncodedSoFar};
use std::alloc::Global;
use std::marker::Model;
use vp_base::{ByteList, Limits, Picture};

/// An encoder, the packets that it made of a file's pictures, and the sums of their lengths and squared errors.
#[derive(Drop)]
pub(crate) struct EncodeProgress {
    limits: Limits,
    encoder: Encoder,
    packets: Vec<ByteList>,
    bytes: u64,
    error: u128,
}

impl Model for EncodeProgress {
    ghost use Rattle.std.specs.Prelude.{◌≤◌, ◌*◌, ◌^◌, length};
    ghost use Rattle.vp_encode.specs.EncodeProgress.{EncodeProgress};

    ghost Value = { EncodeProgress };

    ghost view = { λ a. record {
      limits = a.limits;
      encoder = a.encoder;
      packets = a.packets.items;
      bytes = a.bytes;
      error = a.error;
    } };

    ghost invariant = { λ a. (length a.packets.items ≤ a.limits.packets)
        × (a.bytes ≤ length a.packets.items * 2 ^ 32)
        × (a.error ≤ length a.packets.items * 2 ^ 64) };
}

impl EncodeProgress {
    /// Creates the state before the first picture.
    pub(crate) fn new(alloc: Global, encoder: Encoder, limits: Limits) -> EncodeProgress
        ensures { result ≡ start limits encoder }
    {
        EncodeProgress {
            limits,
            encoder,
            packets: Vec::new(alloc),
            bytes: 0,
            error: 0,
        }
    }

    /// Encodes the next picture, which must have the encoder's size.
    pub(crate) fn encode(&mut self, picture: &Picture) -> Result<(), EncodeAllFault>
        requires width { picture.now.width ≡ self.old.encoder.dim.w }
        requires height { picture.now.height ≡ self.old.encoder.dim.h }
        ensures { TakesPicture self.old picture.now result self.new }
    {
        if self.packets.len() >= self.limits.packets as usize {
            return Err(EncodeAllFault::TooMany);
        }
        let encoded = match self.encoder.encode(picture) {
            Ok(encoded) => encoded,
            Err(fault) => return Err(EncodeAllFault::of_picture(fault)),
        };
        if encoded.packet.len() > self.limits.packet_bytes as usize {
            return Err(EncodeAllFault::PacketTooLarge);
        }
        let bytes = encoded.packet.len() as u64;
        if self.packets.push(encoded.packet).is_err() {
            return Err(EncodeAllFault::Memory);
        }
        self.bytes += bytes;
        self.error += u128::from(encoded.squared_error);
        Ok(())
    }

    /// Returns the packets, in order.
    pub(crate) fn packets(&self) -> &[ByteList]
        ensures { result.now ≡ self.now.packets }
    {
        self.packets.as_slice()
    }

    /// Returns how much is encoded so far.
    pub(crate) fn so_far(&self) -> EncodedSoFar
        ensures { result ≡ record { frames = length self.now.packets; bytes = self.now.bytes; error = self.now.error } }
    {
        EncodedSoFar {
            frames: self.packets.len() as u32,
            bytes: self.bytes,
            error: self.error,
        }
    }

    /// Returns the report of the pictures encoded.
    pub(crate) fn report(&self) -> EncodeReport
        ensures { result ≡ record { frames = length self.now.packets; error = self.now.error } }
    {
        EncodeReport {
            frames: self.packets.len() as u32,
            error: self.error,
        }
    }
}
