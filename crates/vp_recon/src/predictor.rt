//! The predictor of a macroblock.

ghost use Rattle.std.specs.Prelude.{◌≡◌, not, ◌||◌};
ghost use Rattle.vp_tables.specs.Modes.{is_by_subblocks, is_split};
ghost use Rattle.vp_recon.specs.Predictor.{predictor_of, predicts_by_subblocks, has_y2 as predictor_has_y2};

use vp_base::Picture;
use vp_modes::Modes;
use vp_motion::MacroblockMotion;
use vp_tables::{LumaMode, VectorMode};

/// The predictor of a macroblock (RFC 6386, chapter 5).
#[derive(Clone, Copy)]
pub enum Predictor<'a> {
    /// Intra: predicted from the unfiltered pixels above it and to its left in its own picture.
    Intra(&'a Modes),
    /// Inter: predicted from a reference frame, which is filtered, by motion vectors. The frame's version selects the
    /// interpolation filter.
    Inter {
        /// Its vectors, in quarter luma pixels.
        motion: &'a MacroblockMotion,
        /// The reference frame.
        reference: &'a Picture,
        /// The frame's version, 0 to 3.
        version: u8,
    },
}

impl<'a> Predictor<'a> {
    /// Returns whether the luma subblocks have intra modes of their own (B_PRED): each is then predicted from those
    /// before it.
    pub fn is_by_subblocks(&self) -> bool
        ensures { result ≡ predicts_by_subblocks (predictor_of self.now) }
    {
        match self {
            Predictor::Intra(modes) => modes.luma.is_by_subblocks(),
            Predictor::Inter { .. } => false,
        }
    }

    /// Returns whether the macroblock has a Y2 block (RFC 6386, chapter 13).
    pub fn has_y2(&self) -> bool
        ensures { result ≡ predictor_has_y2 (predictor_of self.now) }
    {
        match self {
            Predictor::Intra(modes) => has_y2(modes.luma, VectorMode::Zero),
            Predictor::Inter { motion, .. } => has_y2(LumaMode::Dc, motion.mode),
        }
    }
}

/// Returns whether a macroblock has a Y2 block: not with B_PRED or split vectors (RFC 6386, chapter 13). An intra
/// macroblock has no vectors (`vectors` is then not `Split`), an inter macroblock no luma mode (`luma` is then not
/// `B`).
#[inline(always)]
pub fn has_y2(luma: LumaMode, vectors: VectorMode) -> bool
    ensures { result ≡ not (is_split vectors || is_by_subblocks luma) }
{
    !(vectors.is_split() || luma.is_by_subblocks())
}
