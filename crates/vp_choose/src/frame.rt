//! The inputs and the result of the encoder's choice for a macroblock.

use vp_base::Picture;
use vp_modes::Modes;
use vp_motion::Motion;
use vp_recon::SegmentFactors;
use vp_refs::Refs;
use vp_tokens::Tokens;

/// Where and how motion vectors are searched in an inter frame.
#[derive(Clone, Copy)]
pub struct Search<'a> {
    /// The reference frames. The last frame is always searched.
    pub references: &'a Refs,
    /// Whether the golden frame is searched too.
    pub golden: bool,
    /// The search range in whole pixels, in each direction: 0 to 64.
    pub range: u8,
    /// Whether vectors are refined to quarter pixels.
    pub subpel: bool,
}

/// The inputs of the choice for all macroblocks of a frame.
#[derive(Clone, Copy)]
pub struct FrameSearch<'a> {
    /// The source picture, padded to whole macroblocks by its edge pixels.
    pub source: &'a Picture,
    /// The dequantisation factors; each is at least 1.
    pub factors: &'a SegmentFactors,
    /// None for a key frame.
    pub search: Option<Search<'a>>,
}

/// The encoder's choice for a macroblock.
#[derive(Clone, Copy)]
pub struct Choice {
    /// Whether it is skipped, its reference frame, and the modes of an intra macroblock.
    pub modes: Modes,
    /// The motion of an inter macroblock. That of an intra macroblock is chosen as zero, and is not written.
    pub motion: Motion,
    /// The levels of its blocks. A skipped macroblock has no tokens.
    pub tokens: Tokens,
}
