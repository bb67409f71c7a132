//! Inter prediction of square blocks, returned or written to a picture (RFC 6386, chapter 18).

ghost use Rattle.std.specs.Prelude.{◌≡◌, ℕ, pos, ◌+◌, ◌*◌, ◌<◌, ◌≤◌, ◌⊎◌, slice_index, IfSome, IsTrue};
ghost use Rattle.vp_base.specs.Block.{with_block};
ghost use Rattle.vp_base.specs.Image.{plane_of, with_plane};
ghost use Rattle.vp_base.specs.Raster.{Raster};
ghost use Rattle.vp_inter.specs.Patches.{first_read, IsFor};
ghost use Rattle.vp_inter.specs.Inter.{inter_pixel};
ghost use Rattle.vp_inter.specs.Vectors.{fraction, first_tap};
ghost use Rattle.vp_inter.specs.Written.{HasRoomForBlock, IsBlockWritten};

use crate::filter::taps;
use crate::panel::{both_by_panels, vertical_by_panels};
use crate::patch::Patch;
use crate::rows::{copy_rows, horizontal_rows, rows_between, vertical_rows};
use crate::vector::PlaneVector;
use vp_base::{Picture, Plane};

/// Predicts the block of `N` by `N` pixels at column `x` of row `y` from the reference plane, displaced by `vector`.
/// `N` is 4, 8 or 16. Returns the block in raster order. `version` is that of the frame tag. `x` and `y` are at most
/// 16,384, and the plane is not empty.
#[inline(always)]
pub fn predict_block<const N: usize, const M: usize>(
    plane: &Plane,
    x: usize,
    y: usize,
    vector: PlaneVector,
    version: u8,
) -> [u8; M]
    requires size { (N ≡ 4) ⊎ (N ≡ 8) ⊎ (N ≡ 16) }
    requires whole { M ≡ N * N }
    requires columns { x ≤ 16384 }
    requires rows { y ≤ 16384 }
    requires wide { 0 < plane.now.width }
    requires high { 0 < plane.now.height }
    ensures { (r c : ℕ) → r < N → c < N → slice_index result (r * N + c)
        ≡ inter_pixel version plane.now x y vector r c }
{
    let mut block = [0; M];
    let patch = patch_for(plane, x, y, vector);
    predict::<N>(&mut block, 0, N, &patch, vector, version);
    block
}

/// Predicts the block of `N` by `N` pixels at column `x` of row `y` of plane `k`, and writes it to `picture`. `N` is 4,
/// 8 or 16. The reference plane is displaced by `vector`, and not empty. `version` is that of the frame tag.
pub fn predict_into<const N: usize>(
    picture: &mut Picture,
    k: usize,
    x: usize,
    y: usize,
    reference: &Plane,
    vector: PlaneVector,
    version: u8,
)
    requires size { (N ≡ 4) ⊎ (N ≡ 8) ⊎ (N ≡ 16) }
    requires plane { k < 3 }
    requires columns { x + N ≤ (plane_of picture.old k).width }
    requires rows { y + N ≤ (plane_of picture.old k).height }
    requires wide { 0 < reference.now.width }
    requires high { 0 < reference.now.height }
    ensures { picture.new ≡ with_plane picture.old k (with_block (plane_of picture.old k) x y N N
        (inter_pixel version reference.now x y vector)) }
{
    if copy_whole::<N>(picture, k, x, y, reference, vector) {
        return;
    }
    let patch = patch_for(reference, x, y, vector);
    let stride = picture.plane(k).width();
    let at = y * stride + x;
    predict::<N>(picture.pixels_mut(k), at, stride, &patch, vector, version);
}

/// Predicts a block from its place in the reference. Its first pixel is written at index `at`; rows are `stride` apart.
/// A vector without a fractional row or column needs only one pass. Panels are the fastest way to the vertical pass,
/// for six taps and at least eight columns.
#[inline(always)]
fn predict<const N: usize>(
    pixels: &mut [u8],
    at: usize,
    stride: usize,
    patch: &Patch,
    vector: PlaneVector,
    version: u8,
)
    requires size { (N ≡ 4) ⊎ (N ≡ 8) ⊎ (N ≡ 16) }
    requires room { HasRoomForBlock N N pixels.old at stride }
    ensures { (plane : Raster) (x y : ℕ) → IsFor patch.now plane x y vector
        → IsBlockWritten N N pixels.old pixels.new at stride (inter_pixel version plane x y vector) }
{
    let horizontal = vector.horizontal_fraction();
    let vertical = vector.vertical_fraction();
    let has_panels = N != 4 && version == 0;
    match (horizontal, vertical) {
        (0, 0) => copy_rows::<N>(pixels, at, stride, patch, N),
        (_, 0) => horizontal_rows::<N>(pixels, at, stride, patch, taps(version, horizontal), N),
        (0, _) if has_panels && patch.is_inside(N, N + 5) => {
            vertical_by_panels::<N>(pixels, at, stride, patch, taps(version, vertical));
        }
        (1.., _) if has_panels && patch.width >= 16 => {
            let (horizontal, vertical) = (taps(version, horizontal), taps(version, vertical));
            both_by_panels::<N>(pixels, at, stride, patch, horizontal, vertical);
        }
        (_, _) => by_rows::<N>(pixels, at, stride, patch, vector, version),
    }
}

/// Predicts a block by both passes, or by the vertical one alone, with `N + 5` rows between them.
fn by_rows<const N: usize>(
    pixels: &mut [u8],
    at: usize,
    stride: usize,
    patch: &Patch,
    vector: PlaneVector,
    version: u8,
)
    requires size { (N ≡ 4) ⊎ (N ≡ 8) ⊎ (N ≡ 16) }
    requires room { HasRoomForBlock N N pixels.old at stride }
    requires vertical { 0 < fraction vector.row }
    ensures { (plane : Raster) (x y : ℕ) → IsFor patch.now plane x y vector
        → IsBlockWritten N N pixels.old pixels.new at stride (inter_pixel version plane x y vector) }
{
    if N == 4 {
        by_rows_between::<N, 36>(pixels, at, stride, patch, vector, version);
    } else if N == 8 {
        by_rows_between::<N, 104>(pixels, at, stride, patch, vector, version);
    } else {
        by_rows_between::<N, 336>(pixels, at, stride, patch, vector, version);
    }
}

/// Predicts a block as `by_rows` does. The rows between the passes have `L` pixels in all.
#[inline(always)]
fn by_rows_between<const N: usize, const L: usize>(
    pixels: &mut [u8],
    at: usize,
    stride: usize,
    patch: &Patch,
    vector: PlaneVector,
    version: u8,
)
    requires size { N ≤ 16 }
    requires between { L ≡ (N + 5) * N }
    requires room { HasRoomForBlock N N pixels.old at stride }
    requires vertical { 0 < fraction vector.row }
    ensures { (plane : Raster) (x y : ℕ) → IsFor patch.now plane x y vector
        → IsBlockWritten N N pixels.old pixels.new at stride (inter_pixel version plane x y vector) }
{
    let mut rows = [0; L];
    rows_between::<N>(&mut rows, patch, vector, version, N + 5);
    let weights = taps(version, vector.vertical_fraction());
    vertical_rows::<N>(pixels, at, stride, &rows, weights.six);
}

/// Copies a block for a vector of whole pixels, if the reference contains it. Returns whether it did.
#[inline(always)]
fn copy_whole<const N: usize>(
    picture: &mut Picture,
    k: usize,
    x: usize,
    y: usize,
    reference: &Plane,
    vector: PlaneVector,
) -> bool
    requires size { N ≤ 16 }
    requires plane { k < 3 }
    requires columns { x + N ≤ (plane_of picture.old k).width }
    requires rows { y + N ≤ (plane_of picture.old k).height }
    requires wide { 0 < reference.now.width }
    requires high { 0 < reference.now.height }
    ensures written { (version : ℕ) → IsTrue result → picture.new ≡ with_plane picture.old k
        (with_block (plane_of picture.old k) x y N N (inter_pixel version reference.now x y vector)) }
    ensures kept { (IsTrue result → ⊥) → picture.new ≡ picture.old }
    // A picture has at most 16,384 columns and rows.
    ensures near { (x ≤ 16384) × (y ≤ 16384) }
{
    let _known = [picture.plane(k).width(), picture.plane(k).height()];
    let Some((column, row)) = whole_place(reference, x, y, vector, N) else {
        return false;
    };
    picture.copy_block::<N>(k, x, y, reference, column, row);
    true
}

/// The column and row of the reference from which a block of `size` by `size` pixels at (`x`, `y`) is copied. None
/// unless the vector is in whole pixels and the reference contains the block.
pub(crate) fn whole_place(
    reference: &Plane,
    x: usize,
    y: usize,
    vector: PlaneVector,
    size: usize,
) -> Option<(usize, usize)>
    requires size { size ≤ 16 }
    requires column { x ≤ 16384 }
    requires row { y ≤ 16384 }
    requires wide { 0 < reference.now.width }
    requires high { 0 < reference.now.height }
    ensures inside { IfSome result (λ at. (at.0 + size ≤ reference.now.width) × (at.1 + size ≤ reference.now.height)) }
    ensures whole { IfSome result (λ at. (fraction vector.column ≡ 0) × (fraction vector.row ≡ 0)) }
    ensures place { IfSome result (λ at. (pos at.0 ≡ first_tap (x + 2) vector.column)
        × (pos at.1 ≡ first_tap (y + 2) vector.row)) }
{
    if vector.horizontal_fraction() != 0 || vector.vertical_fraction() != 0 {
        return None;
    }
    let patch = Patch::at(reference, x + 2, y + 2, vector);
    if !patch.is_inside(size, size) {
        return None;
    }
    Some((patch.left as usize, patch.top as usize))
}

/// The column or row at which a patch for a block at `at` begins: without a fraction the first of the six pixels that
/// are read is the block's own.
#[inline(always)]
pub(crate) fn first_of_patch(at: usize, fraction: usize) -> usize
    requires { at ≤ 16384 }
    ensures value { result ≡ first_read at fraction }
    ensures bound { result ≤ 16400 }
{
    if fraction == 0 { at + 2 } else { at }
}

/// The place that the block at column `x` of row `y`, displaced by `vector`, is predicted from.
#[inline(always)]
fn patch_for<'a>(plane: &'a Plane, x: usize, y: usize, vector: PlaneVector) -> Patch<'a>
    requires columns { x ≤ 16384 }
    requires rows { y ≤ 16384 }
    requires wide { 0 < plane.now.width }
    requires high { 0 < plane.now.height }
    ensures { IsFor result plane.now x y vector }
{
    let column = first_of_patch(x, vector.horizontal_fraction());
    let row = first_of_patch(y, vector.vertical_fraction());
    Patch::at(plane, column, row, vector)
}
