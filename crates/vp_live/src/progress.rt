//! Encodes a source picture by picture, and writes each packet.

ghost use Rattle.std.specs.Prelude.{◌≡◌, ◌≢◌, Err};
ghost use Rattle.vp_base.specs.Counted.{counted_contents, counted_failures, HasFailed};
ghost use Rattle.vp_encode.specs.declared.report.EncodeAllFault.{EncodeAllFault};
ghost use Rattle.vp_live.specs.Progress.{TakesPicture};

use crate::writing::write_packet;
use std::io::Write;
use std::marker::Model;
use vp_base::{Counted, Limits, Picture};
use vp_encode::{EncodeAllFault, EncodeReport, Encoded, EncodedSoFar, Encoder};

/// An encoder, the number of the packets that it made, the sum of their lengths, and that of their squared errors.
#[derive(Drop)]
pub(crate) struct LiveProgress {
    limits: Limits,
    encoder: Encoder,
    frames: u32,
    bytes: u64,
    error: u128,
}

impl Model for LiveProgress {
    ghost use Rattle.std.specs.Prelude.{◌≤◌, ◌*◌, ◌^◌};
    ghost use Rattle.vp_live.specs.Progress.{LiveProgress};

    ghost Value = { LiveProgress };

    ghost view = { λ a. record {
      limits = a.limits;
      encoder = a.encoder;
      frames = a.frames;
      bytes = a.bytes;
      error = a.error;
    } };

    ghost invariant = { λ a. (a.frames ≤ a.limits.packets) × (a.bytes ≤ a.frames * 2 ^ 32)
        × (a.error ≤ a.frames * 2 ^ 64) };
}

impl LiveProgress {
    ghost use Rattle.std.specs.Prelude.{IfOk, MatchResult};
    ghost use Rattle.vp_encode.specs.Encoded.{error_of};
    ghost use Rattle.vp_live.specs.Live.{IsRefused};
    ghost use Rattle.vp_live.specs.Progress.{IsMade, frame};

    /// Creates the state before the first picture.
    pub(crate) fn new(encoder: Encoder, limits: Limits) -> LiveProgress
        ensures { result ≡ record { limits = limits; encoder = encoder; frames = 0; bytes = 0; error = 0 } }
    {
        LiveProgress {
            limits,
            encoder,
            frames: 0,
            bytes: 0,
            error: 0,
        }
    }

    /// Encodes the next picture, which must have the encoder's size, and doesn't count it yet.
    fn encode(&mut self, picture: &Picture) -> Result<Encoded, EncodeAllFault>
        requires width { picture.now.width ≡ self.old.encoder.dim.w }
        requires height { picture.now.height ≡ self.old.encoder.dim.h }
        ensures limits { self.new.limits ≡ self.old.limits }
        ensures frames { self.new.frames ≡ self.old.frames }
        ensures bytes { self.new.bytes ≡ self.old.bytes }
        ensures error { self.new.error ≡ self.old.error }
        ensures made { MatchResult result
            (λ r. IsMade self.old picture.now (frame picture.now r.packet r.recon.value) self.new.encoder)
            (λ f. IsRefused self.old.limits self.old.encoder self.old.frames picture.now f) }
        ensures squared { IfOk result (λ r. r.squared_error
            ≡ error_of (frame picture.now r.packet r.recon.value)) }
        ensures unwritten { result ≢ Err EncodeAllFault.Device }
    {
        if self.frames >= self.limits.packets {
            return Err(EncodeAllFault::TooMany);
        }
        let encoded = match self.encoder.encode(picture) {
            Ok(encoded) => encoded,
            Err(fault) => return Err(EncodeAllFault::of_picture(fault)),
        };
        if encoded.packet.len() > self.limits.packet_bytes as usize {
            return Err(EncodeAllFault::PacketTooLarge);
        }
        Ok(encoded)
    }

    /// Encodes the next picture, which must have the encoder's size, and writes its packet.
    pub(crate) fn picture<W: Write>(
        &mut self,
        picture: &Picture,
        writer: &mut Counted<W>,
    ) -> Result<(), EncodeAllFault>
        requires width { picture.now.width ≡ self.old.encoder.dim.w }
        requires height { picture.now.height ≡ self.old.encoder.dim.h }
        ensures takes { TakesPicture self.old picture.now result self.new (counted_contents W.contents writer.old)
            (counted_contents W.contents writer.new) }
        ensures device { result ≡ Err EncodeAllFault.Device → HasFailed (counted_failures writer.old)
            (counted_failures writer.new) }
        ensures quiet { result ≢ Err EncodeAllFault.Device → counted_failures writer.new
            ≡ counted_failures writer.old }
    {
        let encoded = match self.encode(picture) {
            Ok(encoded) => encoded,
            Err(fault) => return Err(fault),
        };
        let time = u64::from(self.frames);
        if write_packet(writer, time, encoded.packet.as_slice()).is_err() {
            return Err(EncodeAllFault::Device);
        }
        self.frames += 1;
        self.bytes += encoded.packet.len() as u64;
        self.error += u128::from(encoded.squared_error);
        Ok(())
    }

    /// Returns how much is encoded and written so far.
    pub(crate) fn so_far(&self) -> EncodedSoFar
        ensures { result ≡ record { frames = self.now.frames; bytes = self.now.bytes; error = self.now.error } }
    {
        EncodedSoFar {
            frames: self.frames,
            bytes: self.bytes,
            error: self.error,
        }
    }

    /// Returns the report of the pictures whose packets are written.
    pub(crate) fn report(&self) -> EncodeReport
        ensures { result ≡ record { frames = self.now.frames; error = self.now.error } }
    {
        EncodeReport {
            frames: self.frames,
            error: self.error,
        }
    }
}
