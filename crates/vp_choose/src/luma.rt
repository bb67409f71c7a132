//! Chooses an intra macroblock's luma mode.

ghost use Rattle.std.specs.Prelude.{◌≡◌, ℕ, ◌+◌, ◌*◌, ◌<◌, ◌≤◌, false, None, IfSome, IsSome, MatchOption};
ghost use Rattle.vp_tables.specs.Modes.{is_by_subblocks};
ghost use Rattle.vp_intra.specs.Edges.{block as listed};
ghost use Rattle.vp_intra.specs.Whole.{luma_pixel};
ghost use Rattle.vp_choose.specs.Costs.{HasMacroblock, luma_mode_cost};
ghost use Rattle.vp_choose.specs.Levels.{ArePositive};
ghost use Rattle.vp_choose.specs.Coding.{IsIntraLuma, IsPredictedLuma};
ghost use Rattle.vp_choose.specs.Below.{IsLumaOver, IsWholeLuma};

use crate::subblocks::{Subblocks, choose_subblocks};
use vp_base::{Picture, Place, Plane};
use vp_intra::predict_luma;
use vp_recon::SegmentFactors;
use vp_search::{first_least, sad16};
use vp_tables::LumaMode;

/// The luma of an intra macroblock.
#[derive(Clone, Copy)]
pub(crate) struct IntraLuma {
    pub(crate) mode: LumaMode,
    /// In raster order. With B_PRED it is rebuilt already.
    pub(crate) prediction: [u8; 256],
    /// Those of B_PRED; None with another mode.
    pub(crate) subblocks: Option<Subblocks>,
    /// The sum of absolute differences; with B_PRED that of its subblocks and 128.
    pub(crate) cost: u32,
}

/// Predicts luma by a mode other than B_PRED.
fn predicted(block: &[u8; 256], plane: &Plane, place: Place, mode: LumaMode) -> IntraLuma
    requires columns { 16 * place.column + 16 ≤ plane.now.width }
    requires rows { 16 * place.row + 16 ≤ plane.now.height }
    requires whole { ¬ (mode ≡ LumaMode.B) }
    ensures mode { result.mode ≡ mode }
    ensures subblocks { result.subblocks ≡ None }
    ensures prediction { result.prediction
        ≡ listed 16 (luma_pixel mode plane.now (16 * place.column) (16 * place.row)) }
    ensures cost { (f : ℕ → ℕ → ℕ) → block.now ≡ listed 16 f → result.cost ≡ luma_mode_cost f plane.now place mode }
    ensures bound { result.cost ≤ 65280 }
{
    let _known = [plane.width(), plane.height()];
    let prediction = predict_luma(plane, 16 * place.column, 16 * place.row, mode);
    let cost = sad16(block, &prediction);
    IntraLuma {
        mode,
        prediction,
        subblocks: None,
        cost,
    }
}

/// Returns the luma by the mode other than B_PRED of the least cost.
fn choose_whole_luma(block: &[u8; 256], plane: &Plane, place: Place) -> IntraLuma
    requires columns { 16 * place.column + 16 ≤ plane.now.width }
    requires rows { 16 * place.row + 16 ≤ plane.now.height }
    ensures best { (f : ℕ → ℕ → ℕ) → block.now ≡ listed 16 f → IsWholeLuma f place plane.now result }
    ensures prediction { result.prediction
        ≡ listed 16 (luma_pixel result.mode plane.now (16 * place.column) (16 * place.row)) }
    ensures whole { is_by_subblocks result.mode ≡ false }
    ensures subblocks { result.subblocks ≡ None }
    ensures bound { result.cost ≤ 65280 }
{
    let dc = predicted(block, plane, place, LumaMode::Dc);
    let v = predicted(block, plane, place, LumaMode::V);
    let h = predicted(block, plane, place, LumaMode::H);
    let tm = predicted(block, plane, place, LumaMode::Tm);
    match first_least(&[dc.cost, v.cost, h.cost, tm.cost]) {
        0 => dc,
        1 => v,
        2 => h,
        _ => tm,
    }
}

/// Returns the luma by the mode of the least cost for a source `block`; None if that is not less than `limit`. The
/// picture is used as scratch memory and restored.
#[tactic(auto, using(crate::proofs::LumaModes::luma_choices))]
pub(crate) fn choose_luma_below(
    block: &[u8; 256],
    factors: &SegmentFactors,
    picture: &mut Picture,
    place: Place,
    limit: u32,
) -> Option<IntraLuma>
    requires picture { HasMacroblock picture.old place }
    requires factors { ArePositive factors.now }
    ensures luma { (f : ℕ → ℕ → ℕ) → block.now ≡ listed 16 f → MatchOption result
        (IsLumaOver f factors.now place picture.old.luma limit)
        (IsIntraLuma f factors.now place picture.old.luma) }
    ensures predicted { IfSome result (IsPredictedLuma factors.now place picture.old.luma) }
    ensures below { IfSome result (λ l. l.cost < limit) }
    ensures kept { picture.new ≡ picture.old }
    ensures all { 65280 < limit → IsSome result }
{
    // No choice costs less than 0.
    if limit == 0 {
        return None;
    }
    let _known = picture.dim();
    let whole = choose_whole_luma(block, picture.plane(0), place);
    // B_PRED costs 128 more than its subblocks, as `luma_cost` defines. It is last in order, so it is chosen only if it
    // costs less.
    let most = whole.cost.min(limit).saturating_sub(128);
    if let Some(rebuilt) = choose_subblocks(block, factors, picture, place, most) {
        let prediction = rebuilt.luma;
        return Some(IntraLuma {
            mode: LumaMode::B,
            prediction,
            cost: rebuilt.subblocks.cost + 128,
            subblocks: Some(rebuilt.subblocks),
        });
    }
    if whole.cost >= limit {
        return None;
    }
    Some(whole)
}
