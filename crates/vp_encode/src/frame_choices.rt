//! Chooses the macroblocks of a frame, in raster order.

ghost use Rattle.std.specs.Prelude.{◌≡◌, ◌+◌, ◌<◌, ◌≤◌, IfOk, IfSome};
ghost use Rattle.vp_base.specs.Grid.{Has};
ghost use Rattle.vp_choose.specs.Frame.{lent_frame};
ghost use Rattle.vp_choose.specs.Levels.{ArePositive};
ghost use Rattle.vp_decode.specs.MacroblockMaps.{place};
ghost use Rattle.vp_encode.specs.CodedFrame.{nothing};
ghost use Rattle.vp_encode.specs.FrameChoices.{AreChosen, AreChosenBefore, IsMotionOf, picture_by};

use std::alloc::{AllocError, Global};
use vp_base::{Grid, Picture, Place};
use vp_choose::{Choice, FrameChooser, FrameSearch};
use vp_head::Reference;
use vp_modes::Modes;
use vp_motion::{Motion, Vector, VectorMap};
use vp_tables::{ChromaMode, LumaMode, SubMode, VectorMode};
use vp_tokens::{Block, Tokens};

/// Returns a placeholder for a macroblock that isn't chosen yet.
#[tactic(auto, unfolding(crate::specs::CodedFrame::nothing, vp_modes::specs::Entry::plain))]
fn nothing() -> Choice
    ensures { result ≡ nothing }
{
    Choice {
        modes: Modes {
            segment: 0,
            skip: false,
            reference: Reference::Intra,
            luma: LumaMode::Dc,
            subs: [SubMode::Dc; 16],
            chroma: ChromaMode::Dc,
        },
        motion: Motion {
            mode: VectorMode::Zero,
            vectors: [Vector { row: 0, column: 0 }; 16],
        },
        tokens: Tokens {
            blocks: [Block::NONE; 25],
        },
    }
}

/// A frame whose macroblocks are being chosen, in raster order.
#[derive(Drop)]
struct FrameChoices {
    /// The macroblocks chosen so far are rebuilt in it, and not filtered.
    picture: Picture,
    motion: VectorMap,
    chosen: Grid<Choice>,
}

impl FrameChoices {
    fn new(alloc: Global, frame: &FrameSearch) -> Result<FrameChoices, AllocError>
        ensures { IfOk result (AreChosenBefore (lent_frame frame.now) (place 0 0)) }
    {
        let dim = frame.source.dim();
        let picture = Picture::new(alloc, dim, 0)?;
        let motion = VectorMap::new(alloc, dim)?;
        let columns = usize::from(dim.mb_cols());
        let rows = usize::from(dim.mb_rows());
        let chosen = Grid::new(alloc, columns, rows, nothing())?;
        Ok(FrameChoices {
            picture,
            motion,
            chosen,
        })
    }

    /// Chooses the macroblock at a place, rebuilds it, and keeps the choice and its motion.
    fn macroblock(&mut self, chooser: &mut FrameChooser, place: Place)
        requires place { Has self.old.chosen place }
        requires factors { ArePositive chooser.old.factors }
        requires before { AreChosenBefore chooser.old place self.old }
        ensures kept { chooser.new ≡ chooser.old }
        ensures chosen { AreChosenBefore chooser.old (record {
          column = place.column + 1;
          row = place.row;
        }) self.new }
    {
        let choice = chooser.choose(&mut self.picture, &self.motion, place);
        self.chosen.set(place, choice);
        // An intra macroblock has zero motion, like a macroblock that isn't chosen yet.
        let motion = &choice.motion;
        self.motion.set(place, choice.modes.reference, motion.mode, &motion.vectors);
    }

    /// Chooses a row of macroblocks.
    fn row(&mut self, chooser: &mut FrameChooser, row: usize)
        requires row { row < self.old.chosen.rows }
        requires factors { ArePositive chooser.old.factors }
        requires before { AreChosenBefore chooser.old (place row 0) self.old }
        ensures kept { chooser.new ≡ chooser.old }
        ensures chosen { AreChosenBefore chooser.old (place (row + 1) 0) self.new }
    {
        for column in 0..self.chosen.columns() {
            self.macroblock(chooser, Place { column, row });
        }
    }
}

/// Chooses all macroblocks of a frame, and returns the choices, their motion, and their picture before the loop filter.
/// Each is predicted from the reconstruction of those before it, and its vectors are coded relative to theirs.
pub(crate) fn choose_macroblocks(
    alloc: Global,
    frame: &FrameSearch,
) -> Result<(Grid<Choice>, VectorMap, Picture), AllocError>
    requires factors { ArePositive (lent_frame frame.now).factors }
    requires range { IfSome (lent_frame frame.now).search (λ s. s.range ≤ 64) }
    ensures chosen { IfOk result (λ r. AreChosen (lent_frame frame.now) r.0) }
    ensures motion { IfOk result (λ r. IsMotionOf r.0 r.1) }
    ensures rebuilt { IfOk result (λ r. r.2 ≡ picture_by (lent_frame frame.now) r.0) }
{
    let mut choosing = FrameChoices::new(alloc, frame)?;
    let mut chooser = FrameChooser::new(alloc, frame);
    for row in 0..choosing.chosen.rows() {
        choosing.row(&mut chooser, row);
    }
    Ok((choosing.chosen, choosing.motion, choosing.picture))
}
