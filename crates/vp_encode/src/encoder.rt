//! The encoder: encodes frames, one after another.

ghost use Rattle.std.specs.Prelude.{◌≡◌, ◌≢◌, ◌⊎◌, ◌≤◌, ◌+◌, ◌*◌, ◌↔◌, ◌++◌, ◌∷◌, [], List, None, Ok, Err, IsErr, IfOk};
ghost use Rattle.std.specs.Prelude.{IfErr, IfSome, IsTrue, option_map, if◌then◌else◌};
ghost use Rattle.vp_base.specs.declared.limits.Limits.{Limits};
ghost use Rattle.vp_base.specs.Image.{macroblocks};
ghost use Rattle.vp_decode.specs.RebuiltFrame.{IsRebuiltFrame};
ghost use Rattle.vp_decode.specs.Step.{ParsedPacket, Shown, parsed, step};
ghost use Rattle.vp_encode.specs.declared.fault.EncodeFault.{EncodeFault};
ghost use Rattle.vp_encode.specs.declared.fault.PacketError.{PacketError};
ghost use Rattle.vp_encode.specs.CodedFrame.{CanBeEncoded};
ghost use Rattle.vp_encode.specs.Encoder.{AreAllowed, next_is_key, kept_for, context_for, frame_for, refreshes_golden};
ghost use Rattle.vp_encode.specs.FrameChoices.{IsMotionOf, picture_by};
ghost use Rattle.vp_encode.specs.TooLong.{IsFrameFor, IsTooLong, IsTooLongOver};
ghost use Rattle.vp_encode.specs.Between.{HasSize, IsPacketOver, IsKeptFor, ShowsNewest};
ghost use Rattle.vp_encode.specs.Choice.{IsChosen, squared_distance};
ghost use Rattle.vp_encode.specs.Calls.{Call, IsEncodedWithError, IsEncoderAfter};

use crate::coded_frame::CodedFrame;
use crate::distance::squared_distance;
use crate::fault::{EncodeFault, PacketError, SettingsFault};
use crate::frame::{ChosenFrame, choose_frame};
use crate::packet::{key_tag, write_packet};
use crate::settings::Settings;
use std::alloc::{AllocError, Global};
use std::marker::Model;
use std::rc::Rc;
use vp_base::{ByteList, Dim, Limits, Picture};
use vp_decode::{Decoder, DecoderState};
use vp_head::Saved;
use vp_modes::ModeMap;
use vp_motion::VectorMap;
use vp_recon::unfiltered_picture_solves_its_equation;

/// An encoded frame.
#[derive(Drop)]
pub struct Encoded {
    /// The packet, to be decoded after those of the frames before it.
    pub packet: ByteList,
    /// The reconstruction: the picture that a decoder shows for the packet.
    pub recon: Rc<Picture>,
    /// The sum of the squared differences between the source and `recon`, over the shown pixels of Y, U and V.
    pub squared_error: u64,
}

/// Encodes the frames of one stream, in order (RFC 6386, chapter 5). Its own decoder reads the modes of each packet and
/// filters its rebuilt picture, so that its reference frames are those of any decoder.
#[derive(Drop)]
pub struct Encoder {
    alloc: Global,
    dim: Dim,
    settings: Settings,
    decoder: Decoder,
    /// The number of frames since the last key frame, including that one.
    since: u32,
}

impl Model for Encoder {
    ghost use Rattle.vp_encode.specs.Encoder.{EncoderState};
    ghost use Rattle.vp_encode.specs.Between.{IsSound};

    ghost Value = { EncoderState };

    ghost view = { λ e. record { dim = e.dim; settings = e.settings; state = e.decoder.state; since = e.since } };

    ghost invariant = { λ e. IsSound e.decoder.limits (record {
      dim = e.dim;
      settings = e.settings;
      state = e.decoder.state;
      since = e.since;
    }) };
}

/// Returns limits that allow pictures of every size.
fn widest() -> Limits
    ensures { result.pixels ≡ 268402689 }
{
    let Some(limits) = Limits::new(268_402_689, 1, 1, 1) else {
        unreachable!();
    };
    limits
}

/// Returns whether each setting is in its range.
fn are_allowed(settings: &Settings) -> bool
    ensures { IsTrue result ↔ AreAllowed settings.now }
{
    if settings.qi > 127 || settings.level > 63 || settings.sharpness > 7 {
        return false;
    }
    if settings.key_every == 0 || settings.range > 64 {
        return false;
    }
    matches!(settings.partitions, 1 | 2 | 4 | 8)
}

impl Encoder {
    /// Creates an encoder for pictures of this size.
    ///
    /// Errors: `SettingsFault` if a setting is out of its range.
    pub fn new(alloc: Global, dim: Dim, settings: Settings) -> Result<Encoder, SettingsFault>
        ensures ok { IfOk result (λ e. e ≡ record { dim = dim; settings = settings; state = None; since = 0 }) }
        ensures allowed { IfOk result (λ _. AreAllowed settings) }
        ensures settings { IsErr result → ¬ (AreAllowed settings) }
        ensures stands { IfOk result (λ e. IsEncoderAfter e []) }
    {
        if !are_allowed(&settings) {
            return Err(SettingsFault::Settings);
        }
        Ok(Encoder {
            alloc,
            dim,
            settings,
            decoder: Decoder::new(alloc, widest()),
            since: 0,
        })
    }

    /// Encodes a frame. It is a key frame at first, after `key_every` frames, and after a refused frame; else an inter
    /// frame.
    ///
    /// Errors: `SourceSize` leaves the encoder unchanged. After `TooLong` or `Memory` the next frame is a key frame,
    /// and the source may be tried again.
    pub fn encode(&mut self, source: &Picture) -> Result<Encoded, EncodeFault>
        ensures size { result ≡ Err EncodeFault.SourceSize ↔ ((source.now.width ≢ self.old.dim.w)
            ⊎ (source.now.height ≢ self.old.dim.h)) }
        ensures unchanged { result ≡ Err EncodeFault.SourceSize → self.new ≡ self.old }
        ensures dim { self.new.dim ≡ self.old.dim }
        ensures settings { self.new.settings ≡ self.old.settings }
        // Decoding the packet shows the reconstruction, and gives the state for the next frame.
        ensures decoded { IfOk result (λ r. (limits : Limits) → self.old.dim.w * self.old.dim.h ≤ limits.pixels
            → step limits self.old.state r.packet ≡ (self.new.state, Shown r.recon.value)) }
        ensures choice { IfOk result (λ r. IsChosen self.old source.now r.packet) }
        ensures error { IfOk result (λ r. r.squared_error ≡ squared_distance source.now r.recon.value) }
        ensures since { IfOk result (λ _. self.new.since ≡ (if next_is_key self.old then 1 else self.old.since + 1)) }
        // A refused frame leaves no state: the next frame is a key frame.
        ensures forgotten { (result ≡ Err EncodeFault.TooLong) ⊎ (result ≡ Err EncodeFault.Memory)
            → self.new.state ≡ None }
        ensures too_long { result ≡ Err EncodeFault.TooLong → IsTooLong self.old source.now }
        // The history of the encoder's calls is extended by this call.
        ensures stands { (calls : List Call) → IsEncoderAfter self.old calls
            → IsEncoderAfter self.new (calls ++ record { source = source.now; result = result } ∷ []) }
    {
        let dim = source.dim();
        if dim.w != self.dim.w || dim.h != self.dim.h {
            return Err(EncodeFault::SourceSize);
        }
        match self.encode_frame(source) {
            Ok(encoded) => Ok(encoded),
            Err(error) => {
                self.decoder = Decoder::new(self.alloc, widest());
                Err(EncodeFault::from(error))
            }
        }
    }

    /// Encodes a frame of the encoder's size. If it is refused, the state that is left must be dropped.
    #[tactic(auto, unfolding(crate::specs::Encoder::continued))]
    fn encode_frame(&mut self, source: &Picture) -> Result<Encoded, PacketError>
        requires { HasSize self.old.dim source.now }
        ensures dim { self.new.dim ≡ self.old.dim }
        ensures settings { self.new.settings ≡ self.old.settings }
        ensures encoded { IfOk result (λ r. IsEncodedWithError self.old source.now r self.new) }
        ensures too_long { IfErr result (λ e. e ≡ PacketError.TooLong → IsTooLong self.old source.now) }
    {
        unfiltered_picture_solves_its_equation();
        let since = self.next_since();
        let chosen = self.choose(source)?;
        let packet = self.write(&chosen.coded, &chosen.motion)?;
        let recon = self.decode(packet.as_slice(), chosen.rebuilt, since)?;
        let squared_error = squared_distance(source, &recon);
        Ok(Encoded {
            packet,
            recon,
            squared_error,
        })
    }

    /// Decodes the packet of the next frame, given its picture before the loop filter, and returns the picture that it
    /// shows. `since` is the number of frames from the last key frame to this one, both included.
    fn decode(
        &mut self,
        packet: &[u8],
        rebuilt: Picture,
        since: u32,
    ) -> Result<Rc<Picture>, AllocError>
        requires shows { ShowsNewest self.old.dim self.old.state packet.now }
        requires rebuilt { (limits : Limits) (o : ParsedPacket) → self.old.dim.w * self.old.dim.h ≤ limits.pixels
            → parsed limits self.old.state packet.now ≡ Ok o → IsRebuiltFrame o rebuilt }
        requires few { since ≤ self.old.settings.key_every }
        ensures dim { self.new.dim ≡ self.old.dim }
        ensures settings { self.new.settings ≡ self.old.settings }
        ensures since { IfOk result (λ _. self.new.since ≡ since) }
        ensures decoded { IfOk result (λ r. (limits : Limits) → self.old.dim.w * self.old.dim.h ≤ limits.pixels
            → step limits self.old.state packet.now ≡ (self.new.state, Shown r.value)) }
        ensures size { IfOk result (λ r. HasSize self.old.dim r.value) }
    {
        self.decoder.decode_rebuilt(packet, rebuilt)?;
        let recon = match self.decoder.kept() {
            Some(kept) => kept.references().newest().clone()?,
            None => unreachable!(),
        };
        self.since = since;
        Ok(recon)
    }

    /// Returns the state that the next frame is coded with; None for a key frame.
    fn kept(&self) -> Option<&DecoderState>
        ensures value { option_map (λ k. k.now) result ≡ kept_for self.now }
        ensures kept { IfSome result (λ k. IsKeptFor self.now.dim k.now) }
    {
        if self.since == self.settings.key_every {
            return None;
        }
        self.decoder.kept()
    }

    /// Returns the number of frames since the last key frame, once the next frame is encoded.
    fn next_since(&self) -> u32
        ensures value { result ≡ (if next_is_key self.now then 1 else self.now.since + 1) }
        ensures few { result ≤ self.now.settings.key_every }
    {
        if self.since == self.settings.key_every || self.decoder.kept().is_none() {
            return 1;
        }
        self.since + 1
    }

    /// Returns whether the next inter frame refreshes golden.
    fn refreshes_golden(&self) -> bool
        ensures { result ≡ refreshes_golden self.now }
    {
        let every = self.settings.golden_every;
        every != 0 && self.since % every == 0
    }

    /// Chooses the coding of a frame.
    fn choose(&self, source: &Picture) -> Result<ChosenFrame, AllocError>
        requires { HasSize self.now.dim source.now }
        ensures frame { IfOk result (λ f. IsFrameFor self.now source.now f.coded) }
        ensures motion { IfOk result (λ f. IsMotionOf f.coded.macroblocks f.motion) }
        ensures rebuilt { IfOk result (λ f. f.rebuilt ≡ picture_by (frame_for self.now source.now)
            f.coded.macroblocks) }
        ensures told { IfOk result (λ f. CanBeEncoded (next_is_key self.now) (context_for self.now).saved
            (context_for self.now).modes f.coded) }
        ensures allowed { AreAllowed self.now.settings }
        ensures kept { IfSome self.now.state (IsKeptFor self.now.dim) }
    {
        let golden = self.refreshes_golden();
        let kept = self.kept();
        choose_frame(self.alloc, self.dim, &self.settings, kept, golden, source)
    }

    /// Writes the packet of the next frame, which has this motion.
    fn write(&self, coded: &CodedFrame, motion: &VectorMap) -> Result<ByteList, PacketError>
        requires columns { coded.now.macroblocks.columns ≡ macroblocks self.now.dim.w }
        requires rows { coded.now.macroblocks.rows ≡ macroblocks self.now.dim.h }
        requires told { CanBeEncoded (next_is_key self.now) (context_for self.now).saved
            (context_for self.now).modes coded.now }
        requires motion { IsMotionOf coded.now.macroblocks motion.now }
        ensures packet { IfOk result (λ v. IsPacketOver self.now.dim (kept_for self.now) coded.now v) }
        ensures too_long { IfErr result (λ e. e ≡ PacketError.TooLong
            → IsTooLongOver self.now.dim (kept_for self.now) coded.now) }
    {
        match self.kept() {
            Some(kept) => {
                let before = ModeMap::of_segments(self.alloc, kept.segments())?;
                write_packet(self.alloc, None, kept.saved(), before, coded, motion)
            }
            None => {
                let before = ModeMap::new(self.alloc, self.dim)?;
                let key = Some(key_tag(self.dim));
                write_packet(self.alloc, key, &Saved::defaults(), before, coded, motion)
            }
        }
    }
}
