//! Inter prediction of both chroma planes, written to a picture (RFC 6386, chapter 18). What depends on the vector
//! alone is worked out once.

ghost use Rattle.std.specs.Prelude.{◌≡◌, ℕ, ◌+◌, ◌<◌, ◌≤◌, IsTrue};
ghost use Rattle.vp_base.specs.Block.{with_block};
ghost use Rattle.vp_inter.specs.Inter.{inter_pixel};
ghost use Rattle.vp_inter.specs.Chroma.{with_chroma, HasChroma};
ghost use Rattle.vp_inter.specs.Vectors.{fraction};

use crate::block::{predict_into, whole_place};
use crate::filter::taps;
use crate::panel::{empty_panel, horizontal_to_panel, panel_filter, vertical_from_panel};
use crate::patch::Patch;
use crate::rows::short_rows;
use crate::six_tap::horizontal_filter;
use crate::vector::PlaneVector;
use vp_base::Picture;

/// Predicts the 8x8 blocks of both chroma planes at column `x` of row `y`, as `predict_into` does each.
pub fn predict_into_chroma(
    picture: &mut Picture,
    x: usize,
    y: usize,
    reference: &Picture,
    vector: PlaneVector,
    version: u8,
)
    requires u_columns { x + 8 ≤ picture.old.u.width }
    requires u_rows { y + 8 ≤ picture.old.u.height }
    requires v_columns { x + 8 ≤ picture.old.v.width }
    requires v_rows { y + 8 ≤ picture.old.v.height }
    ensures { picture.new ≡ record picture.old {
      u = with_block picture.old.u x y 8 8 (inter_pixel version reference.now.u x y vector);
      v = with_block picture.old.v x y 8 8 (inter_pixel version reference.now.v x y vector);
    } }
{
    let _known = [picture.plane(1).width(), picture.plane(1).height()];
    let _known = reference.dim();
    if copy_chroma(picture, x, y, reference, vector) {
        return;
    }
    let u = reference.plane(1);
    let v = reference.plane(2);
    if vector.horizontal_fraction() == 0 || u.width() < 16 {
        predict_into::<8>(picture, 1, x, y, u, vector, version);
        predict_into::<8>(picture, 2, x, y, v, vector, version);
    } else if vector.vertical_fraction() == 0 {
        horizontal_into_chroma(picture, x, y, reference, vector, version);
    } else {
        filter_into_chroma(picture, x, y, reference, vector, version);
    }
}

/// Copies both chroma blocks for a vector of whole pixels, if the reference contains all of them. Returns whether it
/// did.
#[inline(always)]
fn copy_chroma(
    picture: &mut Picture,
    x: usize,
    y: usize,
    reference: &Picture,
    vector: PlaneVector,
) -> bool
    requires room { HasChroma picture.old x y }
    ensures written { (version : ℕ) → IsTrue result
        → picture.new ≡ with_chroma picture.old reference.now x y vector version }
    ensures kept { (IsTrue result → ⊥) → picture.new ≡ picture.old }
{
    let _known = [picture.plane(1).width(), picture.plane(1).height()];
    let _known = reference.dim();
    let u = reference.plane(1);
    let Some((column, row)) = whole_place(u, x, y, vector, 8) else {
        return false;
    };
    let v = reference.plane(2);
    picture.copy_block::<8>(1, x, y, u, column, row);
    picture.copy_block::<8>(2, x, y, v, column, row);
    true
}

/// Predicts both chroma blocks by the horizontal pass alone.
fn horizontal_into_chroma(
    picture: &mut Picture,
    x: usize,
    y: usize,
    reference: &Picture,
    vector: PlaneVector,
    version: u8,
)
    requires room { HasChroma picture.old x y }
    requires horizontal { 0 < fraction vector.column }
    requires level { fraction vector.row ≡ 0 }
    requires wide { 16 ≤ reference.now.u.width }
    ensures { picture.new ≡ with_chroma picture.old reference.now x y vector version }
{
    let _known = [picture.plane(1).width(), picture.plane(1).height()];
    let _known = [reference.dim(), picture.dim()];
    let u = reference.plane(1);
    let v = reference.plane(2);
    let from_u = Patch::at(u, x, y + 2, vector);
    let from_v = Patch::at(v, x, y + 2, vector);
    let filter = horizontal_filter(&from_u, 0, taps(version, vector.horizontal_fraction()));
    let stride = picture.plane(1).width();
    let at = y * stride + x;
    short_rows::<8>(picture.pixels_mut(1), at, stride, &from_u, &filter, 8);
    short_rows::<8>(picture.pixels_mut(2), at, stride, &from_v, &filter, 8);
}

/// Predicts both chroma blocks by both passes.
fn filter_into_chroma(
    picture: &mut Picture,
    x: usize,
    y: usize,
    reference: &Picture,
    vector: PlaneVector,
    version: u8,
)
    requires room { HasChroma picture.old x y }
    requires horizontal { 0 < fraction vector.column }
    requires vertical { 0 < fraction vector.row }
    requires wide { 16 ≤ reference.now.u.width }
    ensures { picture.new ≡ with_chroma picture.old reference.now x y vector version }
{
    let _known = [picture.plane(1).width(), picture.plane(1).height()];
    let _known = [reference.dim(), picture.dim()];
    let u = reference.plane(1);
    let v = reference.plane(2);
    let from_u = Patch::at(u, x, y, vector);
    let from_v = Patch::at(v, x, y, vector);
    let filter = horizontal_filter(&from_u, 0, taps(version, vector.horizontal_fraction()));
    let vertical = panel_filter(taps(version, vector.vertical_fraction()));
    let mut panel = empty_panel();
    let stride = picture.plane(1).width();
    let at = y * stride + x;
    horizontal_to_panel::<13>(&mut panel, &from_u, &filter);
    vertical_from_panel(picture.pixels_mut(1), at, stride, &panel, &vertical);
    horizontal_to_panel::<13>(&mut panel, &from_v, &filter);
    vertical_from_panel(picture.pixels_mut(2), at, stride, &panel, &vertical);
}
