//! Rebuilds one macroblock of the unfiltered picture, or one of its luma subblocks.

ghost use Rattle.std.specs.Prelude.{◌≡◌, ◌+◌, ◌*◌, ◌<◌, ◌≤◌, false, true};
ghost use Rattle.vp_base.specs.Image.{with_plane, macroblocks};
ghost use Rattle.vp_tokens.specs.declared.contexts.Tokens.{Tokens};
ghost use Rattle.vp_tokens.specs.Blocks.{no_blocks};
ghost use Rattle.vp_quant.specs.declared.factors.Factors.{Factors};
ghost use Rattle.vp_recon.specs.Predictor.{macroblock_of, predictor_of, predicts_by_subblocks, Intra};
ghost use Rattle.vp_recon.specs.Rebuilt.{luma_rebuilt, rebuilt, with_sub};
ghost use Rattle.vp_tables.specs.Modes.{is_by_subblocks};
ghost use Rattle.vp_recon.specs.Residue.{residue};

use crate::add::{add_chroma, add_luma};
use crate::predict::{predict_chroma, predict_luma};
use crate::predictor::Predictor;
use crate::residue::{block_of, with_residue};
use crate::segment_factors::SegmentFactors;
use std::simd::prelude::*;
use vp_base::{Picture, Place};
use vp_intra::predict_sub;
use vp_modes::Modes;
use vp_quant::Factors;
use vp_tables::SubMode;
use vp_tokens::{Block, Tokens};

/// Rebuilds the macroblock at `place` from its prediction and its residue (RFC 6386, chapters 12, 14.5 and 18).
pub fn rebuild_macroblock(
    picture: &mut Picture,
    place: Place,
    predictor: &Predictor,
    tokens: &Tokens,
    factors: &Factors,
)
    requires column { place.column < macroblocks picture.old.width }
    requires row { place.row < macroblocks picture.old.height }
    ensures { picture.new
        ≡ rebuilt (macroblock_of (predictor_of predictor.now) tokens.now factors.now) place picture.old }
{
    let factors = SegmentFactors::of(factors);
    rebuild_macroblock_by(picture, place, predictor, tokens, &factors);
}

/// Rebuilds the macroblock at `place` as `rebuild_macroblock` does, by the factors of its segment. Luma is rebuilt
/// subblock by subblock where these have intra modes of their own (B_PRED), else at once: the residue is added to the
/// prediction where that lies. Not inlined: the caller's loop keeps its registers for macroblocks without tokens.
#[inline(never)]
pub fn rebuild_macroblock_by(
    picture: &mut Picture,
    place: Place,
    predictor: &Predictor,
    tokens: &Tokens,
    factors: &SegmentFactors,
)
    requires column { place.column < macroblocks picture.old.width }
    requires row { place.row < macroblocks picture.old.height }
    ensures { picture.new
        ≡ rebuilt (macroblock_of (predictor_of predictor.now) tokens.now factors.now) place picture.old }
{
    let _known = picture.dim();
    predict_chroma(picture, place, predictor);
    add_chroma(picture, place, tokens, factors);
    match predictor {
        Predictor::Intra(modes) if modes.luma.is_by_subblocks() => {
            rebuild_subs(picture, place, modes, tokens, factors);
        }
        _ => {
            predict_luma(picture, place, predictor);
            let [x, y] = [16 * place.column, 16 * place.row];
            add_luma(picture, x, y, predictor.has_y2(), tokens, factors);
        }
    }
}

/// Rebuilds the luma of a B_PRED macroblock: its subblocks have modes of their own.
fn rebuild_subs(
    picture: &mut Picture,
    place: Place,
    modes: &Modes,
    tokens: &Tokens,
    factors: &SegmentFactors,
)
    requires columns { 16 * place.column + 16 ≤ picture.old.luma.width }
    requires rows { 16 * place.row + 16 ≤ picture.old.luma.height }
    requires subs { is_by_subblocks modes.now.luma ≡ true }
    ensures { picture.new ≡ with_plane picture.old 0 (luma_rebuilt
        (macroblock_of (Intra modes.now) tokens.now factors.now) place picture.old.luma) }
{
    let _known = picture.plane(0).width();
    let _known = picture.plane(0).height();
    for k in 0..16 {
        let block = Place {
            column: place.column * 4 + k % 4,
            row: place.row * 4 + k / 4,
        };
        let levels = block_of(tokens, 1 + k);
        rebuild_sub(picture, block, modes.subs[k], levels, factors);
    }
}

/// Rebuilds one luma subblock of a macroblock without a Y2 block, from the pixels around it and its residue (RFC 6386,
/// chapters 12.3 and 14.5). `block` is its place among all luma subblocks of the picture.
pub fn rebuild_subblock(
    picture: &mut Picture,
    block: Place,
    mode: SubMode,
    levels: &Block,
    factors: &Factors,
)
    requires columns { 4 * block.column + 4 ≤ picture.old.luma.width }
    requires rows { 4 * block.row + 4 ≤ picture.old.luma.height }
    ensures { picture.new ≡ with_plane picture.old 0 (with_sub picture.old.luma block mode
        (residue levels.now.levels factors.now.y_dc factors.now.y_ac)) }
{
    rebuild_sub(picture, block, mode, levels, &SegmentFactors::of(factors));
}

/// Rebuilds a subblock as `rebuild_subblock` does, by the factors of its segment.
fn rebuild_sub(
    picture: &mut Picture,
    block: Place,
    mode: SubMode,
    levels: &Block,
    factors: &SegmentFactors,
)
    requires columns { 4 * block.column + 4 ≤ picture.old.luma.width }
    requires rows { 4 * block.row + 4 ≤ picture.old.luma.height }
    ensures { picture.new ≡ with_plane picture.old 0 (with_sub picture.old.luma block mode
        (residue levels.now.levels factors.now.y_dc factors.now.y_ac)) }
{
    let _known = picture.plane(0).width();
    let _known = picture.plane(0).height();
    let x = 4 * block.column;
    let y = 4 * block.row;
    let prediction = predict_sub(picture.plane(0), x, y, mode);
    let prediction = u8x16::from_array(prediction);
    let pixels = with_residue(prediction, levels, factors);
    picture.write_block::<4>(0, x, y, &pixels.to_array());
}
