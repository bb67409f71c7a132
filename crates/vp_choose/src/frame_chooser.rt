//! Chooses the macroblocks of one frame, one after another.

ghost use Rattle.std.specs.Prelude.{◌≡◌, ◌<◌, ◌≤◌, true, false, IfSome, replicate};
ghost use Rattle.vp_base.specs.Grid.{Has};
ghost use Rattle.vp_base.specs.Image.{macroblocks};
ghost use Rattle.vp_base.specs.Rows.{AreOneSize};
ghost use Rattle.vp_tables.specs.declared.modes.VectorMode.TheVariants as vector_is;
ghost use Rattle.vp_head.specs.Reference.{is_intra};
ghost use Rattle.vp_motion.specs.Vector.{IsWithin, last_of, zero_vector};
ghost use Rattle.vp_motion.specs.Map.{AreWithin};
ghost use Rattle.vp_motion.specs.Near.{candidates};
ghost use Rattle.vp_motion.specs.Spelled.{CanBeWritten};
ghost use Rattle.vp_recon.specs.Predictor.{macroblock_of};
ghost use Rattle.vp_recon.specs.Rebuilt.{rebuilt};
ghost use Rattle.vp_choose.specs.Costs.{HasMacroblock};
ghost use Rattle.vp_choose.specs.Levels.{ArePositive};
ghost use Rattle.vp_choose.specs.Coding.{AreCut};
ghost use Rattle.vp_choose.specs.Frame.{lent_frame, source_by, no_biases};
ghost use Rattle.vp_choose.specs.Choice.{IsChoice};

use crate::frame::{Choice, FrameSearch};
use crate::macroblock::choose_coding;
use crate::motion::find_motion;
use crate::searchers::{Searchers, searchers_of};
use std::alloc::Global;
use std::marker::Model;
use vp_base::{Picture, Place};
use vp_motion::VectorMap;
use vp_recon::MacroblockPixels;
use vp_search::{cut_block, cut_luma};

/// Copies the source pixels of the macroblock at `place`.
fn cut_blocks(source: &Picture, place: Place) -> MacroblockPixels
    requires { HasMacroblock source.now place }
    ensures { AreCut source.now place result }
{
    let _known = source.dim();
    MacroblockPixels {
        luma: cut_luma(source.plane(0), place),
        u: cut_block::<8, 64>(source.plane(1), place),
        v: cut_block::<8, 64>(source.plane(2), place),
    }
}

/// Chooses the macroblocks of one frame, one after another, and keeps what the motion search can use again.
#[derive(Drop)]
pub struct FrameChooser<'a> {
    pub(crate) frame: FrameSearch<'a>,
    /// None in a key frame.
    pub(crate) searchers: Option<Searchers<'a>>,
}

impl<'a> Model for FrameChooser<'a> {
    ghost use Rattle.std.specs.Prelude.{◌≤◌, IfSome};
    ghost use Rattle.vp_choose.specs.Frame.{FrameSearch, lent_frame};
    ghost use Rattle.vp_choose.specs.Searchers.{AreSearchersOf};

    ghost Value = { FrameSearch };

    ghost view = { λ c. lent_frame c.frame };

    ghost invariant = { λ c. IfSome (lent_frame c.frame).search (λ s. s.range ≤ 64)
        × AreSearchersOf (lent_frame c.frame).search c.searchers };
}

impl<'a> FrameChooser<'a> {
    /// Prepares the choice for the macroblocks of `frame`, whose search range is at most 64. May ask for the memory of
    /// a motion searcher for each reference that is searched; if memory is refused, choices take longer and are the
    /// same.
    pub fn new(alloc: Global, frame: &FrameSearch<'a>) -> FrameChooser<'a>
        requires range { IfSome (lent_frame frame.now).search (λ s. s.range ≤ 64) }
        ensures { result ≡ lent_frame frame.now }
    {
        FrameChooser {
            frame: *frame,
            searchers: searchers_of(Some(alloc), frame),
        }
    }

    /// Chooses the coding of the macroblock at `place`, and rebuilds it in `picture`.
    ///
    /// In `picture` the macroblocks before it, in raster order, are rebuilt and not filtered yet; `vectors` has their
    /// motion. The macroblock's own motion is not stored there. The motion search is fastest if macroblocks are chosen
    /// from left to right. No memory is allocated.
    pub fn choose(&mut self, picture: &mut Picture, vectors: &VectorMap, place: Place) -> Choice
        requires column { place.column < macroblocks picture.old.width }
        requires row { place.row < macroblocks picture.old.height }
        requires size { AreOneSize self.old.source picture.old }
        requires factors { ArePositive self.old.factors }
        requires map { Has vectors.now place }
        requires short { AreWithin 511 vectors.now }
        ensures kept { self.new ≡ self.old }
        ensures chosen { IsChoice self.old picture.old vectors.now place result }
        ensures rebuilt { picture.new ≡ rebuilt (macroblock_of (source_by self.old.search result) result.tokens
            self.old.factors) place picture.old }
        // `write_motion` can code the motion at this place if no sign bias is set.
        ensures written { is_intra result.modes.reference ≡ false
            → CanBeWritten (candidates vectors.now place result.modes.reference no_biases) result.motion }
        ensures short { IsWithin 259 (last_of result.motion.vectors) }
        ensures unmoved { is_intra result.modes.reference ≡ true → (result.motion.mode ≡ vector_is.Zero)
            × (result.motion.vectors ≡ replicate 16 zero_vector) }
    {
        let _known = [self.frame.source.dim(), picture.dim()];
        let blocks = cut_blocks(self.frame.source, place);
        let moved = find_motion(&mut self.searchers, &self.frame, &blocks.luma, place);
        let coding = choose_coding(&self.frame, &blocks, picture, vectors, place, moved);
        coding.complete(&blocks, self.frame.factors, picture, place)
    }
}
