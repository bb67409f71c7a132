//! The coding of a macroblock before its levels are known, and the choice that its levels complete.

ghost use Rattle.std.specs.Prelude.{◌≡◌, ℕ, false, not, is_some, IfSome};
ghost use Rattle.vp_tokens.specs.declared.contexts.Tokens.{Tokens};
ghost use Rattle.vp_intra.specs.Edges.{block as listed};
ghost use Rattle.vp_base.specs.declared.place.Place.{Place};
ghost use Rattle.vp_base.specs.Image.{Image};
ghost use Rattle.vp_recon.specs.Predictor.{Predictor, macroblock_of, has_y2};
ghost use Rattle.vp_recon.specs.Rebuilt.{rebuilt};
ghost use Rattle.vp_choose.specs.Costs.{HasMacroblock};
ghost use Rattle.vp_choose.specs.Levels.{ArePositive, HasLumaAndY2};
ghost use Rattle.vp_choose.specs.Intra.{HasSubblocks};
ghost use Rattle.vp_choose.specs.Coding.{AreCut, AreWritable, HaveLuma, HasPrediction, HasLevels, Completes};

use crate::frame::Choice;
use crate::levels::{blocks_with_y2, put_chroma};
use crate::subblocks::Subblocks;
use vp_base::{Picture, Place};
use vp_modes::Modes;
use vp_motion::Motion;
use vp_quant::Factors;
use vp_recon::{MacroblockPixels, SegmentFactors, rebuild_from};
use vp_tokens::{Block, Tokens};

/// How a macroblock is coded, and its prediction: the choice of the least cost.
#[derive(Clone, Copy)]
pub(crate) struct Coding {
    /// With `skip` false: whether the macroblock is skipped depends on its levels.
    pub(crate) modes: Modes,
    pub(crate) motion: Motion,
    /// With B_PRED its luma is no prediction: it is rebuilt already.
    pub(crate) prediction: MacroblockPixels,
    /// The subblocks of B_PRED, whose blocks are known.
    pub(crate) subblocks: Option<Subblocks>,
}

/// Returns the blocks of luma of a macroblock with these source pixels. Chroma has no tokens yet.
fn luma_blocks(coding: &Coding, source: &[u8; 256], factors: &Factors) -> [Block; 25]
    requires factors { ArePositive factors.now }
    requires writable { IfSome coding.now.subblocks (λ s. AreWritable false s.blocks) }
    ensures at_once { is_some coding.now.subblocks ≡ false → (f g : ℕ → ℕ → ℕ) → source.now ≡ listed 16 f
        → coding.now.prediction.luma ≡ listed 16 g → (t : Tokens) → HaveLuma result t → HasLumaAndY2 f g factors.now t }
    ensures by_subblocks { IfSome coding.now.subblocks (λ s. (t : Tokens) → HaveLuma result t → HasSubblocks s t) }
    ensures writable { AreWritable (not (is_some coding.now.subblocks)) result }
{
    match &coding.subblocks {
        Some(subblocks) => subblocks.blocks,
        None => blocks_with_y2(source, &coding.prediction.luma, factors),
    }
}

impl Coding {
    /// Returns the levels of a macroblock with these source pixels: source minus prediction, quantised; luma's of
    /// B_PRED are known.
    fn tokens(&self, source: &MacroblockPixels, factors: &Factors) -> Tokens
        requires factors { ArePositive factors.now }
        requires writable { IfSome self.now.subblocks (λ s. AreWritable false s.blocks) }
        ensures levels { (picture old : Image) (place : Place) (predictor : Predictor) → AreCut picture place source.now
            → HasPrediction predictor factors.now place old self.now
            → HasLevels picture predictor factors.now place old self.now result }
        ensures by_subblocks { IfSome self.now.subblocks (λ s. HasSubblocks s result) }
        ensures writable { AreWritable (not (is_some self.now.subblocks)) result.blocks }
    {
        let prediction = &self.prediction;
        let mut blocks = luma_blocks(self, &source.luma, factors);
        put_chroma(&mut blocks, 1, &source.u, &prediction.u, factors);
        put_chroma(&mut blocks, 2, &source.v, &prediction.v, factors);
        Tokens { blocks }
    }

    /// Quantises source minus prediction, adds the residue to the prediction in the picture, and returns the choice,
    /// which is skipped if it has no tokens. Luma of B_PRED, which is rebuilt already, is only stored.
    pub(crate) fn complete(
        &self,
        source: &MacroblockPixels,
        factors: &SegmentFactors,
        picture: &mut Picture,
        place: Place,
    ) -> Choice
        requires picture { HasMacroblock picture.old place }
        requires factors { ArePositive factors.now }
        requires writable { IfSome self.now.subblocks (λ s. AreWritable false s.blocks) }
        ensures completes { Completes self.now result }
        ensures levels { (original : Image) (predictor : Predictor) → AreCut original place source.now
            → HasPrediction predictor factors.now place picture.old self.now
            → HasLevels original predictor factors.now place picture.old self.now result.tokens }
        ensures writable { (predictor : Predictor) → HasPrediction predictor factors.now place picture.old self.now
            → AreWritable (has_y2 predictor) result.tokens.blocks }
        ensures rebuilt { (predictor : Predictor) → HasPrediction predictor factors.now place picture.old self.now
            → picture.new ≡ rebuilt (macroblock_of predictor result.tokens factors.now) place picture.old }
    {
        let tokens = self.tokens(source, factors.raw());
        let by_subblocks = self.subblocks.is_some();
        rebuild_from(
            picture,
            place,
            &self.prediction,
            by_subblocks,
            &tokens,
            factors,
        );
        Choice {
            modes: Modes {
                skip: !tokens.any(),
                ..self.modes
            },
            motion: self.motion,
            tokens,
        }
    }
}
