//! Predicts macroblocks: from their own picture (RFC 6386, chapter 12) or from a reference frame (chapter 18).

ghost use Rattle.std.specs.Prelude.{◌≡◌, ◌+◌, ◌*◌, ◌<◌, ◌≤◌, length, false, true};
ghost use Rattle.vp_base.specs.Block.{with_block};
ghost use Rattle.vp_base.specs.Image.{macroblocks, plane_of, with_plane};
ghost use Rattle.vp_tables.specs.Modes.{is_split};
ghost use Rattle.vp_inter.specs.Vectors.{chroma_vector};
ghost use Rattle.vp_tokens.specs.declared.contexts.Tokens.{Tokens};
ghost use Rattle.vp_tokens.specs.Blocks.{no_blocks};
ghost use Rattle.vp_quant.specs.declared.factors.Factors.{Factors};
ghost use Rattle.vp_recon.specs.Predictor.{Inter, macroblock_of, predictor_of, predicts_by_subblocks};
ghost use Rattle.vp_recon.specs.Rebuilt.{rebuilt};
ghost use Rattle.vp_recon.specs.Prediction.{moved_pixel, luma_moved, chroma_moved, luma_predicted, chroma_predicted};
ghost use Rattle.vp_recon.specs.Sums.{AreVectors, vector_at, sub_of_quarter, with_chroma};

use crate::add::know_bytes;
use crate::predictor::Predictor;
use vp_base::{Picture, Place, Plane};
use vp_inter::{PlaneVector, chroma_vector, luma_vector, predict_into, predict_into_chroma};
use vp_intra::{predict_chroma_into, predict_luma_into};
use vp_motion::MacroblockMotion;

/// Rebuilds the macroblock at `place`, which has no tokens and no intra modes of subblocks, so that its pixels are
/// those of its prediction (RFC 6386, chapters 12 and 18).
pub fn predict_macroblock(picture: &mut Picture, place: Place, predictor: &Predictor)
    requires column { place.column < macroblocks picture.old.width }
    requires row { place.row < macroblocks picture.old.height }
    requires whole { predicts_by_subblocks (predictor_of predictor.now) ≡ false }
    ensures { (tokens : Tokens) (factors : Factors) → tokens.blocks ≡ no_blocks
        → picture.new ≡ rebuilt (macroblock_of (predictor_of predictor.now) tokens factors) place picture.old }
{
    let _known = picture.dim();
    predict_luma(picture, place, predictor);
    know_bytes(picture.plane(0).pixels());
    predict_chroma(picture, place, predictor);
    know_bytes(picture.plane(1).pixels());
    know_bytes(picture.plane(2).pixels());
}

/// Predicts the luma of a macroblock whose subblocks have no intra modes of their own. Inlined into both callers, so
/// that most macroblocks take one call less.
#[inline(always)]
pub(crate) fn predict_luma(picture: &mut Picture, place: Place, predictor: &Predictor)
    requires columns { 16 * place.column + 16 ≤ picture.old.luma.width }
    requires rows { 16 * place.row + 16 ≤ picture.old.luma.height }
    requires whole { predicts_by_subblocks (predictor_of predictor.now) ≡ false }
    ensures { picture.new ≡ with_plane picture.old 0
        (luma_predicted (predictor_of predictor.now) place picture.old.luma) }
{
    let _known = [picture.plane(0).width(), picture.plane(0).height()];
    let [x, y] = [16 * place.column, 16 * place.row];
    match predictor {
        Predictor::Intra(modes) => predict_luma_into(picture, x, y, modes.luma),
        Predictor::Inter {
            motion,
            reference,
            version,
        } => {
            let _known = reference.dim();
            let reference = reference.plane(0);
            if motion.mode.is_split() {
                predict_quarters(picture, x, y, reference, motion, *version);
            } else {
                let vector = luma_vector_of(motion, 0);
                predict_into::<16>(picture, 0, x, y, reference, vector, *version);
            }
        }
    }
}

/// Predicts both chroma planes of a macroblock.
#[inline(always)]
pub(crate) fn predict_chroma(picture: &mut Picture, place: Place, predictor: &Predictor)
    requires column { place.column < macroblocks picture.old.width }
    requires row { place.row < macroblocks picture.old.height }
    ensures { picture.new ≡ with_chroma picture.old (λ k. chroma_predicted (predictor_of predictor.now) k place) }
{
    let _known = picture.dim();
    match predictor {
        Predictor::Intra(modes) => {
            let [x, y] = [8 * place.column, 8 * place.row];
            predict_chroma_into(picture, 1, x, y, modes.chroma);
            predict_chroma_into(picture, 2, x, y, modes.chroma);
        }
        Predictor::Inter {
            motion,
            reference,
            version,
        } => predict_inter_chroma(picture, place, motion, reference, *version),
    }
}

/// Predicts both chroma planes of an inter macroblock, which have the same vectors.
fn predict_inter_chroma(
    picture: &mut Picture,
    place: Place,
    motion: &MacroblockMotion,
    reference: &Picture,
    version: u8,
)
    requires column { place.column < macroblocks picture.old.width }
    requires row { place.row < macroblocks picture.old.height }
    ensures { picture.new ≡ with_chroma picture.old
        (λ k. chroma_predicted (Inter motion.now reference.now version) k place) }
{
    let _known = [picture.dim(), reference.dim()];
    let [x, y] = [8 * place.column, 8 * place.row];
    if motion.mode.is_split() {
        let u = reference.plane(1);
        let v = reference.plane(2);
        let vectors = chroma_vectors(version, motion);
        predict_four(picture, 1, x, y, u, &vectors, version);
        predict_four(picture, 2, x, y, v, &vectors, version);
    } else {
        let vector = whole_chroma_vector(version, motion);
        predict_into_chroma(picture, x, y, reference, vector, version);
    }
}

/// Returns the motion vector of luma subblock `k`.
#[tactic(auto, unfolding(crate::specs::Prediction::luma_moved))]
fn luma_vector_of(motion: &MacroblockMotion, k: usize) -> PlaneVector
    requires { k < 16 }
    ensures { result ≡ luma_moved motion.now k }
{
    let vector = motion.vectors[k];
    luma_vector(vector.row, vector.column)
}

/// Returns the motion vector of subblock `k` of either chroma plane.
#[tactic(auto, unfolding(crate::specs::Prediction::chroma_moved))]
fn chroma_vector_of(version: u8, motion: &MacroblockMotion, k: usize) -> PlaneVector
    requires { k < 4 }
    ensures { result ≡ chroma_moved version motion.now k }
{
    let corner = 8 * (k / 2) + 2 * (k % 2);
    let vectors = &motion.vectors;
    let [a, b] = [vectors[corner], vectors[corner + 1]];
    let [c, d] = [vectors[corner + 4], vectors[corner + 5]];
    chroma_vector(
        version,
        &[a.row, b.row, c.row, d.row],
        &[a.column, b.column, c.column, d.column],
    )
}

/// Returns the motion vector of both chroma planes of a macroblock that isn't split. Its luma vectors are equal, and so
/// their mean is one of them; version 3 has whole pixels.
fn whole_chroma_vector(version: u8, motion: &MacroblockMotion) -> PlaneVector
    requires { is_split motion.now.mode ≡ false }
    ensures { result ≡ chroma_moved version motion.now 0 }
{
    if version == 3 {
        return chroma_vector_of(version, motion, 0);
    }
    let vector = motion.vectors[0];
    PlaneVector {
        row: vector.row,
        column: vector.column,
    }
}

/// Returns the motion vectors of the four subblocks in a quarter of the luma.
fn quarter_vectors(motion: &MacroblockMotion, quarter: usize) -> [PlaneVector; 4]
    requires { quarter < 4 }
    ensures len { length result ≡ 4 }
    ensures value { AreVectors 4 result (λ k. luma_moved motion.now (sub_of_quarter quarter k)) }
{
    let corner = 8 * (quarter / 2) + 2 * (quarter % 2);
    [
        luma_vector_of(motion, corner),
        luma_vector_of(motion, corner + 1),
        luma_vector_of(motion, corner + 4),
        luma_vector_of(motion, corner + 5),
    ]
}

/// Returns the motion vectors of the four subblocks of either chroma plane.
fn chroma_vectors(version: u8, motion: &MacroblockMotion) -> [PlaneVector; 4]
    ensures len { length result ≡ 4 }
    ensures value { AreVectors 4 result (chroma_moved version motion.now) }
{
    [
        chroma_vector_of(version, motion, 0),
        chroma_vector_of(version, motion, 1),
        chroma_vector_of(version, motion, 2),
        chroma_vector_of(version, motion, 3),
    ]
}

/// Predicts luma with split vectors, quarter by quarter.
fn predict_quarters(
    picture: &mut Picture,
    x: usize,
    y: usize,
    reference: &Plane,
    motion: &MacroblockMotion,
    version: u8,
)
    requires columns { x + 16 ≤ picture.old.luma.width }
    requires rows { y + 16 ≤ picture.old.luma.height }
    requires wide { 0 < reference.now.width }
    requires high { 0 < reference.now.height }
    ensures { picture.new ≡ with_plane picture.old 0 (with_block picture.old.luma x y 16 16
        (moved_pixel version reference.now x y 4 (luma_moved motion.now))) }
{
    let _known = picture.plane(0).width();
    let _known = picture.plane(0).height();
    for quarter in 0..4 {
        let column = x + 8 * (quarter % 2);
        let row = y + 8 * (quarter / 2);
        let vectors = quarter_vectors(motion, quarter);
        predict_four(picture, 0, column, row, reference, &vectors, version);
    }
}

/// Predicts a square of four subblocks: as one block if their vectors are equal, else one by one.
fn predict_four(
    picture: &mut Picture,
    plane: usize,
    x: usize,
    y: usize,
    reference: &Plane,
    vectors: &[PlaneVector; 4],
    version: u8,
)
    requires plane { plane < 3 }
    requires columns { x + 8 ≤ (plane_of picture.old plane).width }
    requires rows { y + 8 ≤ (plane_of picture.old plane).height }
    requires wide { 0 < reference.now.width }
    requires high { 0 < reference.now.height }
    ensures { picture.new ≡ with_plane picture.old plane (with_block (plane_of picture.old plane) x y 8 8
        (moved_pixel version reference.now x y 2 (vector_at vectors.now))) }
{
    let _known = picture.plane(plane).width();
    let _known = picture.plane(plane).height();
    if are_alike(vectors) {
        predict_into::<8>(picture, plane, x, y, reference, vectors[0], version);
        return;
    }
    for k in 0..4 {
        let column = x + 4 * (k % 2);
        let row = y + 4 * (k / 2);
        predict_into::<4>(picture, plane, column, row, reference, vectors[k], version);
    }
}

/// Returns whether four vectors are equal.
fn are_alike(vectors: &[PlaneVector; 4]) -> bool
    ensures { result ≡ true → AreVectors 4 vectors.now (λ _. vector_at vectors.now 0) }
{
    let [a, b, c, d] = *vectors;
    b == a && c == a && d == a
}
