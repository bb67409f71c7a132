//! Chooses an intra macroblock's chroma mode.

ghost use Rattle.std.specs.Prelude.{◌≡◌, ◌+◌, ◌*◌};
ghost use Rattle.vp_base.specs.Image.{Image};
ghost use Rattle.vp_intra.specs.Edges.{block as listed};
ghost use Rattle.vp_intra.specs.Whole.{chroma_pixel};
ghost use Rattle.vp_choose.specs.Costs.{HasMacroblock, chroma_cost};
ghost use Rattle.vp_choose.specs.Coding.{AreCut};
ghost use Rattle.vp_choose.specs.Intra.{IsChroma};

use vp_base::{Picture, Place};
use vp_intra::predict_chroma;
use vp_recon::MacroblockPixels;
use vp_search::{first_least, sad8};
use vp_tables::ChromaMode;

/// The chroma of an intra macroblock.
#[derive(Clone, Copy)]
pub(crate) struct IntraChroma {
    pub(crate) mode: ChromaMode,
    /// The prediction of U, in raster order.
    pub(crate) u: [u8; 64],
    /// That of V.
    pub(crate) v: [u8; 64],
    /// The sum of absolute differences over both.
    cost: u32,
}

/// Predicts chroma by a mode.
fn predicted(
    blocks: &MacroblockPixels,
    picture: &Picture,
    place: Place,
    mode: ChromaMode,
) -> IntraChroma
    requires { HasMacroblock picture.now place }
    ensures mode { result.mode ≡ mode }
    ensures u { result.u ≡ listed 8 (chroma_pixel mode picture.now.u (8 * place.column) (8 * place.row)) }
    ensures v { result.v ≡ listed 8 (chroma_pixel mode picture.now.v (8 * place.column) (8 * place.row)) }
    ensures cost { (source : Image) → AreCut source place blocks.now
        → result.cost ≡ chroma_cost source picture.now place mode }
{
    let _known = picture.dim();
    let [x, y] = [8 * place.column, 8 * place.row];
    let u = predict_chroma(picture.plane(1), x, y, mode);
    let v = predict_chroma(picture.plane(2), x, y, mode);
    let cost = sad8(&blocks.u, &u) + sad8(&blocks.v, &v);
    IntraChroma { mode, u, v, cost }
}

/// Returns the chroma by the mode of the least cost.
pub(crate) fn choose_chroma(
    blocks: &MacroblockPixels,
    picture: &Picture,
    place: Place,
) -> IntraChroma
    requires { HasMacroblock picture.now place }
    ensures best { (source : Image) → AreCut source place blocks.now → IsChroma source place picture.now result.mode }
    ensures u { result.u ≡ listed 8 (chroma_pixel result.mode picture.now.u (8 * place.column) (8 * place.row)) }
    ensures v { result.v ≡ listed 8 (chroma_pixel result.mode picture.now.v (8 * place.column) (8 * place.row)) }
{
    let dc = predicted(blocks, picture, place, ChromaMode::Dc);
    let v = predicted(blocks, picture, place, ChromaMode::V);
    let h = predicted(blocks, picture, place, ChromaMode::H);
    let tm = predicted(blocks, picture, place, ChromaMode::Tm);
    match first_least(&[dc.cost, v.cost, h.cost, tm.cost]) {
        0 => dc,
        1 => v,
        2 => h,
        _ => tm,
    }
}
