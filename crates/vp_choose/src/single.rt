//! One macroblock chosen by itself. Only tests do so: the encoder has a `FrameChooser` for all macroblocks of a frame.

ghost use Rattle.std.specs.Prelude.{◌≡◌, ◌<◌, ◌≤◌, true, false, IfSome, replicate};
ghost use Rattle.vp_base.specs.Grid.{Has};
ghost use Rattle.vp_base.specs.Image.{macroblocks};
ghost use Rattle.vp_base.specs.Rows.{AreOneSize};
ghost use Rattle.vp_head.specs.Reference.{is_intra};
ghost use Rattle.vp_motion.specs.Vector.{IsWithin, last_of, zero_vector};
ghost use Rattle.vp_motion.specs.Map.{AreWithin};
ghost use Rattle.vp_motion.specs.Near.{candidates};
ghost use Rattle.vp_motion.specs.Spelled.{CanBeWritten};
ghost use Rattle.vp_recon.specs.Predictor.{macroblock_of};
ghost use Rattle.vp_recon.specs.Rebuilt.{rebuilt};
ghost use Rattle.vp_choose.specs.Levels.{ArePositive};
ghost use Rattle.vp_choose.specs.Frame.{lent_frame, source_by, no_biases};
ghost use Rattle.vp_choose.specs.Choice.{IsChoice};
ghost use Rattle.vp_tables.specs.declared.modes.VectorMode.TheVariants as vector_is;

use crate::frame::{Choice, FrameSearch};
use crate::frame_chooser::FrameChooser;
use crate::searchers::searchers_of;
use vp_base::{Picture, Place};
use vp_motion::VectorMap;

/// Chooses the coding of the macroblock at `place`, and rebuilds it.
///
/// In `picture` the macroblocks before it, in raster order, are rebuilt and not filtered yet; `vectors` has their
/// motion. The macroblock's own motion is not stored there. No memory is allocated.
pub fn choose_macroblock(
    frame: &FrameSearch,
    picture: &mut Picture,
    vectors: &VectorMap,
    place: Place,
) -> Choice
    requires column { place.column < macroblocks picture.old.width }
    requires row { place.row < macroblocks picture.old.height }
    requires size { AreOneSize (lent_frame frame.now).source picture.old }
    requires factors { ArePositive (lent_frame frame.now).factors }
    requires range { IfSome (lent_frame frame.now).search (λ s. s.range ≤ 64) }
    requires map { Has vectors.now place }
    requires short { AreWithin 511 vectors.now }
    ensures chosen { IsChoice (lent_frame frame.now) picture.old vectors.now place result }
    ensures rebuilt { picture.new ≡ rebuilt (macroblock_of (source_by
        (lent_frame frame.now).search result) result.tokens (lent_frame frame.now).factors) place picture.old }
    // `write_motion` can code the motion at this place if no sign bias is set.
    ensures written { is_intra result.modes.reference ≡ false
        → CanBeWritten (candidates vectors.now place result.modes.reference no_biases) result.motion }
    ensures short { IsWithin 259 (last_of result.motion.vectors) }
    ensures unmoved { is_intra result.modes.reference ≡ true → (result.motion.mode ≡ vector_is.Zero)
        × (result.motion.vectors ≡ replicate 16 zero_vector) }
{
    let mut chooser = FrameChooser {
        frame: *frame,
        searchers: searchers_of(None, frame),
    };
    chooser.choose(picture, vectors, place)
}
