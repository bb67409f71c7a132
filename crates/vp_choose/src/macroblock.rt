//! Chooses for one macroblock: intra or inter.

ghost use Rattle.std.specs.Prelude.{◌≡◌, ◌*◌, ◌≤◌, true, false, None, replicate};
ghost use Rattle.vp_base.specs.Grid.{Grid, Has};
ghost use Rattle.vp_base.specs.Image.{Image};
ghost use Rattle.vp_base.specs.Raster.{Raster};
ghost use Rattle.vp_head.specs.Reference.{is_intra};
ghost use Rattle.vp_motion.specs.Vector.{MacroblockMotion};
ghost use Rattle.vp_motion.specs.Map.{AreWithin};
ghost use Rattle.vp_quant.specs.declared.factors.Factors.{Factors};
ghost use Rattle.vp_intra.specs.Edges.{block as listed};
ghost use Rattle.vp_recon.specs.Predictor.{Intra, Inter};
ghost use Rattle.vp_recon.specs.Prediction.{luma_prediction, chroma_prediction};
ghost use Rattle.vp_choose.specs.Costs.{HasMacroblock};
ghost use Rattle.vp_choose.specs.Levels.{ArePositive};
ghost use Rattle.vp_choose.specs.Coding.{AreCut, IsCoding, IsCodedBy, IsLumaOf, IsPredictedLuma, IsShortMotion};
ghost use Rattle.vp_choose.specs.Intra.{LumaChoice, IsIntra};
ghost use Rattle.vp_choose.specs.Frame.{lent_frame, search_of};
ghost use Rattle.vp_choose.specs.Inter.{IsInter, IsInSearchRange, moved_source};
ghost use Rattle.vp_choose.specs.Searched.{IsSearched};

use crate::chroma::{IntraChroma, choose_chroma};
use crate::coding::Coding;
use crate::frame::{FrameSearch, Search};
use crate::luma::{IntraLuma, choose_luma_below};
use crate::motion::{Moved, coded_motion};
use vp_base::{Picture, Place};
use vp_head::Reference;
use vp_inter::{chroma_vector, luma_vector, predict_block};
use vp_modes::Modes;
use vp_motion::{Motion, Vector, VectorMap};
use vp_recon::MacroblockPixels;
use vp_search::QuarterVector;
use vp_tables::{ChromaMode, LumaMode, SubMode, VectorMode};

/// The version of all frames that are encoded (RFC 6386, chapter 9.1): six-tap filters, and the normal loop filter.
const VERSION: u8 = 0;

/// Returns the intra coding of a macroblock whose luma is chosen.
fn intra_coding(
    blocks: &MacroblockPixels,
    picture: &Picture,
    place: Place,
    luma: &IntraLuma,
) -> Coding
    requires { HasMacroblock picture.now place }
    ensures coded { (source : Image) (factors : Factors) (choice : LumaChoice) → AreCut source place blocks.now
        → IsPredictedLuma factors place picture.now.luma luma.now → IsLumaOf choice luma.now
        → IsCodedBy source factors place picture.now (λ c. Intra c.modes)
        (λ c. IsIntra source factors place picture.now choice c.modes c.tokens) result }
    ensures reference { is_intra result.modes.reference ≡ true }
    ensures motion { (g : Grid MacroblockMotion) → IsShortMotion g place result }
    ensures subblocks { result.subblocks ≡ luma.now.subblocks }
{
    let chroma = choose_chroma(blocks, picture, place);
    let subs = match &luma.subblocks {
        Some(subblocks) => subblocks.modes,
        None => [SubMode::Dc; 16],
    };
    let modes = Modes {
        segment: 0,
        skip: false,
        reference: Reference::Intra,
        luma: luma.mode,
        subs,
        chroma: chroma.mode,
    };
    let motion = Motion {
        mode: VectorMode::Zero,
        vectors: [Vector { row: 0, column: 0 }; 16],
    };
    let pixels = luma.prediction;
    let IntraChroma { u, v, .. } = chroma;
    let prediction = MacroblockPixels { luma: pixels, u, v };
    Coding {
        modes,
        motion,
        prediction,
        subblocks: luma.subblocks,
    }
}

/// Predicts an inter macroblock, as version 0 does: the encoder writes no other.
fn inter_prediction(reference: &Picture, place: Place, vector: QuarterVector) -> MacroblockPixels
    requires columns { 16 * place.column ≤ 16384 }
    requires rows { 16 * place.row ≤ 16384 }
    requires short { IsInSearchRange vector }
    ensures luma { (e : MacroblockMotion) (p : Raster)
        → e.vectors ≡ replicate 16 (record { row = vector.row; column = vector.column })
        → result.luma ≡ listed 16 (luma_prediction (Inter e reference.now 0) place p) }
    ensures u { (e : MacroblockMotion) (p : Raster)
        → e.vectors ≡ replicate 16 (record { row = vector.row; column = vector.column })
        → result.u ≡ listed 8 (chroma_prediction (Inter e reference.now 0) 1 place p) }
    ensures v { (e : MacroblockMotion) (p : Raster)
        → e.vectors ≡ replicate 16 (record { row = vector.row; column = vector.column })
        → result.v ≡ listed 8 (chroma_prediction (Inter e reference.now 0) 2 place p) }
{
    let _known = reference.dim();
    let [x, y] = [8 * place.column, 8 * place.row];
    let QuarterVector { row, column } = vector;
    let vector = chroma_vector(VERSION, &[row; 4], &[column; 4]);
    let u = predict_block::<8, 64>(reference.plane(1), x, y, vector, VERSION);
    let v = predict_block::<8, 64>(reference.plane(2), x, y, vector, VERSION);
    let vector = luma_vector(row, column);
    let [x, y] = [16 * place.column, 16 * place.row];
    let luma = predict_block::<16, 256>(reference.plane(0), x, y, vector, VERSION);
    MacroblockPixels { luma, u, v }
}

/// Returns the inter coding of a macroblock whose vector is chosen.
fn inter_coding(search: &Search, vectors: &VectorMap, place: Place, moved: &Moved) -> Coding
    requires columns { 16 * place.column ≤ 16384 }
    requires rows { 16 * place.row ≤ 16384 }
    requires place { Has vectors.now place }
    requires map { AreWithin 511 vectors.now }
    requires short { IsInSearchRange moved.now.vector }
    ensures coded { (source p : Image) (factors : Factors) → IsCodedBy source factors place p
        (moved_source (search_of search.now) moved.now)
        (IsInter source factors (search_of search.now) vectors.now place p moved.now) result }
    ensures reference { result.modes.reference ≡ moved.now.reference }
    ensures motion { is_intra moved.now.reference ≡ false → IsShortMotion vectors.now place result }
    ensures subblocks { result.subblocks ≡ None }
{
    let reference = search.references.get(moved.reference);
    let prediction = inter_prediction(reference, place, moved.vector);
    let motion = coded_motion(vectors, place, moved);
    let modes = Modes {
        segment: 0,
        skip: false,
        reference: moved.reference,
        luma: LumaMode::Dc,
        subs: [SubMode::Dc; 16],
        chroma: ChromaMode::Dc,
    };
    Coding {
        modes,
        motion,
        prediction,
        subblocks: None,
    }
}

/// Chooses the coding of a macroblock: intra if its luma costs less than `moved`, the motion that was found, which is
/// None in a key frame. The picture is used as scratch memory and restored.
pub(crate) fn choose_coding(
    frame: &FrameSearch,
    blocks: &MacroblockPixels,
    picture: &mut Picture,
    vectors: &VectorMap,
    place: Place,
    moved: Option<Moved>,
) -> Coding
    requires picture { HasMacroblock picture.old place }
    requires factors { ArePositive (lent_frame frame.now).factors }
    requires cut { AreCut (lent_frame frame.now).source place blocks.now }
    requires moved { IsSearched (lent_frame frame.now).search (lent_frame frame.now).source.luma place moved }
    requires map { Has vectors.now place }
    requires short { AreWithin 511 vectors.now }
    ensures chosen { IsCoding (lent_frame frame.now) picture.new vectors.now place result }
    ensures kept { picture.new ≡ picture.old }
{
    let limit = moved.map_or(u32::MAX, |moved| moved.cost);
    if let Some(luma) = choose_luma_below(&blocks.luma, frame.factors, picture, place, limit) {
        return intra_coding(blocks, picture, place, &luma);
    }
    let _known = picture.dim();
    inter_coding(&frame.search.unwrap(), vectors, place, &moved.unwrap())
}
