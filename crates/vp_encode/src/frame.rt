//! Chooses the coding of a frame: its header and its macroblocks.

ghost use Rattle.std.specs.Prelude.{◌≡◌, ◌≤◌, Option, IfOk, IfSome, is_none, option_map};
ghost use Rattle.vp_base.specs.declared.limits.Dim.{Dim};
ghost use Rattle.vp_choose.specs.Frame.{search_of};
ghost use Rattle.vp_decode.specs.Step.{DecoderState};
ghost use Rattle.vp_encode.specs.CodedFrame.{CanBeEncoded};
ghost use Rattle.vp_encode.specs.Encoder.{AreAllowed, context_over, header_over, search_in, frame_over};
ghost use Rattle.vp_encode.specs.FrameChoices.{AreChosen, AreUnsegmented, IsMotionOf, picture_by};

use crate::coded_frame::CodedFrame;
use crate::frame_choices::choose_macroblocks;
use crate::header::{header_over, quantiser};
use crate::settings::Settings;
use crate::source::continued;
use std::alloc::{AllocError, Global};
use vp_base::{Dim, Picture};
use vp_choose::{FrameSearch, Search};
use vp_decode::DecoderState;
use vp_head::Saved;
use vp_motion::VectorMap;
use vp_quant::Factors;
use vp_recon::SegmentFactors;

/// A frame that is chosen for a source.
#[derive(Drop)]
pub(crate) struct ChosenFrame {
    /// The frame to be written.
    pub coded: CodedFrame,
    /// The motion of its macroblocks.
    pub motion: VectorMap,
    /// Its picture before the loop filter.
    pub rebuilt: Picture,
}

/// Returns where the vectors of a frame are searched; None for a key frame.
fn search_in<'a>(settings: &Settings, kept: Option<&'a DecoderState>) -> Option<Search<'a>>
    requires { settings.now.range ≤ 64 }
    ensures value { option_map search_of result ≡ search_in settings.now (option_map (λ k. k.now) kept.entry) }
    ensures range { IfSome (option_map search_of result) (λ s. s.range ≤ 64) }
{
    match kept {
        Some(kept) => Some(Search {
            references: kept.references(),
            golden: settings.golden_every != 0,
            range: settings.range,
            subpel: settings.subpel,
        }),
        None => None,
    }
}

/// Returns the saved values that a frame's header is coded relative to; a key frame uses the defaults.
fn saved_in(kept: Option<&DecoderState>) -> Saved
    ensures { (dim : Dim) → result ≡ (context_over dim (option_map (λ k. k.now) kept.entry)).saved }
{
    match kept {
        Some(kept) => *kept.saved(),
        None => Saved::defaults(),
    }
}

/// Chooses the coding of a frame: a key frame if there is no state, else an inter frame. `refresh_golden` says
/// whether an inter frame refreshes golden.
pub(crate) fn choose_frame(
    alloc: Global,
    dim: Dim,
    settings: &Settings,
    kept: Option<&DecoderState>,
    refresh_golden: bool,
    source: &Picture,
) -> Result<ChosenFrame, AllocError>
    requires allowed { AreAllowed settings.now }
    requires width { source.now.width ≡ dim.w }
    requires height { source.now.height ≡ dim.h }
    requires segments { IfSome (option_map (λ k. k.now) kept) (λ k. AreUnsegmented dim k.segments) }
    ensures header { IfOk result (λ f. f.coded.header ≡ header_over
        (context_over dim (option_map (λ k. k.now) kept.entry)).saved (is_none kept.entry) refresh_golden
        settings.now) }
    ensures chosen { IfOk result (λ f. AreChosen (frame_over (option_map
        (λ k. k.now) kept.entry) settings.now source.now) f.coded.macroblocks) }
    ensures motion { IfOk result (λ f. IsMotionOf f.coded.macroblocks f.motion) }
    ensures rebuilt { IfOk result (λ f. f.rebuilt ≡ picture_by (frame_over (option_map
        (λ k. k.now) kept.entry) settings.now source.now) f.coded.macroblocks) }
    ensures told { IfOk result (λ f. CanBeEncoded (is_none kept.entry)
        (context_over dim (option_map (λ k. k.now) kept.entry)).saved
        (context_over dim (option_map (λ k. k.now) kept.entry)).modes f.coded) }
{
    let source = continued(alloc, source)?;
    let factors = SegmentFactors::of(&Factors::of(settings.qi, &quantiser(settings.qi)));
    let frame = FrameSearch {
        source: &source,
        factors: &factors,
        search: search_in(settings, kept),
    };
    let (macroblocks, motion, rebuilt) = choose_macroblocks(alloc, &frame)?;
    let header = header_over(&saved_in(kept), kept.is_none(), refresh_golden, settings);
    Ok(ChosenFrame {
        coded: CodedFrame {
            header,
            macroblocks,
        },
        motion,
        rebuilt,
    })
}
