//! Rebuilds macroblocks and subblocks whose prediction is made already: adds their residue to it (RFC 6386, chapter
//! 14.5).

ghost use Rattle.std.specs.Prelude.{◌≡◌, ◌+◌, ◌*◌, ◌<◌, ◌≤◌, pos, not, slice_index, slice_index_or};
ghost use Rattle.vp_base.specs.Block.{with_block};
ghost use Rattle.vp_base.specs.Image.{macroblocks, plane_of, with_plane};
ghost use Rattle.vp_recon.specs.Predictor.{Predictor, macroblock_of, predicts_by_subblocks, has_y2};
ghost use Rattle.vp_recon.specs.Rebuilt.{rebuilt, summed, residue_at};
ghost use Rattle.vp_recon.specs.Residue.{residue, chroma_residue};
ghost use Rattle.vp_recon.specs.Given.{IsGiven};

use crate::add::{add_chroma, add_luma};
use crate::residue::with_residue;
use crate::segment_factors::SegmentFactors;
use std::simd::prelude::*;
use vp_base::{Picture, Place};
use vp_tokens::{Block, Tokens};

/// The pixels of a macroblock, each plane in raster order.
#[derive(Clone, Copy)]
pub struct MacroblockPixels {
    /// 16 by 16 pixels.
    pub luma: [u8; 256],
    /// 8 by 8 pixels.
    pub u: [u8; 64],
    /// 8 by 8 pixels.
    pub v: [u8; 64],
}

/// Rebuilds the macroblock at `place`, which has no split vectors, from its prediction and its residue. With B_PRED
/// each luma subblock is predicted from those rebuilt before it: then `by_subblocks` is true, and the luma that is
/// given is rebuilt already.
pub fn rebuild_from(
    picture: &mut Picture,
    place: Place,
    prediction: &MacroblockPixels,
    by_subblocks: bool,
    tokens: &Tokens,
    factors: &SegmentFactors,
)
    requires column { place.column < macroblocks picture.old.width }
    requires row { place.row < macroblocks picture.old.height }
    ensures { (predictor : Predictor) → predicts_by_subblocks predictor ≡ by_subblocks → has_y2 predictor ≡ not by_subblocks
        → IsGiven (macroblock_of predictor tokens.now factors.now) place picture.old prediction.now
        → picture.new ≡ rebuilt (macroblock_of predictor tokens.now factors.now) place picture.old }
{
    let _known = picture.dim();
    let [x, y] = [8 * place.column, 8 * place.row];
    picture.write_block::<8>(1, x, y, &prediction.u);
    picture.write_block::<8>(2, x, y, &prediction.v);
    add_chroma(picture, place, tokens, factors);
    let [x, y] = [16 * place.column, 16 * place.row];
    picture.write_block::<16>(0, x, y, &prediction.luma);
    if !by_subblocks {
        add_luma(picture, x, y, true, tokens, factors);
    }
}

/// Rebuilds one luma subblock of a macroblock without a Y2 block from its prediction, in raster order, and its residue.
/// `block` is its place among all luma subblocks of the picture.
pub fn rebuild_subblock_from(
    picture: &mut Picture,
    block: Place,
    prediction: &[u8; 16],
    levels: &Block,
    factors: &SegmentFactors,
)
    requires columns { 4 * block.column + 4 ≤ picture.old.luma.width }
    requires rows { 4 * block.row + 4 ≤ picture.old.luma.height }
    ensures { picture.new ≡ with_plane picture.old 0 (with_block picture.old.luma (4 * block.column) (4 * block.row) 4 4
        (λ r c. summed (slice_index prediction.now (r * 4 + c))
        (slice_index_or (residue levels.now.levels factors.now.y_dc factors.now.y_ac) (4 * r + c) (pos 0)))) }
{
    let _known = [picture.plane(0).width(), picture.plane(0).height()];
    let prediction = u8x16::from_array(*prediction);
    let pixels = with_residue(prediction, levels, factors);
    picture.write_block::<4>(0, 4 * block.column, 4 * block.row, &pixels.to_array());
}
