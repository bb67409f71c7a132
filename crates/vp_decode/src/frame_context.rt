//! The context that a frame is decoded in: defaults for a key frame, the saved state for an inter frame.

ghost use Rattle.std.specs.Prelude.{◌≡◌, Ok, Err, MatchResult};
ghost use Rattle.std.specs.Option.{ok_or};
ghost use Rattle.vp_head.specs.declared.fault.PacketFault.TheVariants.{NoReference};
ghost use Rattle.vp_decode.specs.Step.{context_of};

use crate::decoder::DecoderState;
use std::marker::Model;
use std::rc::Rc;
use vp_base::{Dim, Grid, Picture};
use vp_head::{KeyTag, PacketFault, Saved};
use vp_modes::Segment;
use vp_refs::Refs;

/// The context that a frame is decoded in: what it takes from before it. A key frame uses only its own size; an inter
/// frame uses the decoder's state. `open_packet` makes it from tag and state, as a part of an `OpenPacket`. The header,
/// the `MacroblockReader` and the `FrameInfo` start from it.
#[derive(Drop)]
pub(crate) struct FrameContext<'a> {
    pub dim: Dim,
    /// The values that the frame's header starts from. None for a key frame, which starts from the defaults.
    pub saved: Option<&'a Saved>,
    /// The segment map before the frame. None for a key frame, whose macroblocks start with segment 0.
    pub segments: Option<&'a Grid<Segment>>,
    /// None for a key frame.
    pub references: Option<&'a Refs>,
    /// The last shown picture, if there is one.
    pub shown: Option<&'a Rc<Picture>>,
}

impl<'a> Model for FrameContext<'a> {
    ghost use Rattle.std.specs.Prelude.{option_map};
    ghost use Rattle.vp_decode.specs.State.{modes_from, saved_from, HasConsistentSizes};
    ghost use Rattle.vp_decode.specs.Step.{FrameContext};

    ghost Value = { FrameContext };

    ghost view = { λ b. record {
      width = b.dim.w;
      height = b.dim.h;
      saved = saved_from (option_map (λ s. s.now) b.saved);
      modes = modes_from b.dim (option_map (λ s. s.now) b.segments);
      references = option_map (λ r. r.now) b.references;
      shown = option_map (λ p. p.now.value) b.shown;
    } };

    ghost invariant = { λ b. HasConsistentSizes (record {
      width = b.dim.w;
      height = b.dim.h;
      saved = saved_from (option_map (λ s. s.now) b.saved);
      modes = modes_from b.dim (option_map (λ s. s.now) b.segments);
      references = option_map (λ r. r.now) b.references;
      shown = option_map (λ p. p.now.value) b.shown;
    }) };
}

/// Returns the current state, or `NoReference` if there is none.
pub(crate) fn current_state(state: &Option<DecoderState>) -> Result<&DecoderState, PacketFault>
    ensures { MatchResult result (λ k. ok_or state.now NoReference ≡ Ok k.now)
        (λ f. ok_or state.now NoReference ≡ Err f) }
{
    match state {
        Some(kept) => Ok(kept),
        None => Err(PacketFault::NoReference),
    }
}

impl<'a> FrameContext<'a> {
    /// Returns the context of a frame. The tag selects defaults (key frame), the saved state (inter frame), or
    /// `NoReference`.
    pub(crate) fn of(
        key: Option<KeyTag>,
        state: &'a Option<DecoderState>,
    ) -> Result<FrameContext<'a>, PacketFault>
        ensures { result ≡ context_of key state.now }
    {
        match key {
            Some(key) => Ok(FrameContext {
                dim: key.dim,
                saved: None,
                segments: None,
                references: None,
                shown: None,
            }),
            None => {
                let kept = current_state(state)?;
                Ok(kept.context())
            }
        }
    }
}
