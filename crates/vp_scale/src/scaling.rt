//! Making a picture smaller.

ghost use Rattle.std.specs.Prelude.{◌≡◌, ◌<◌, ◌≤◌, ◌+◌, ◌*◌, ◌/◌, ℕ, List, length, slice_index, IfOk};
ghost use Rattle.vp_base.specs.Raster.{with_run};
ghost use Rattle.vp_base.specs.Block.{with_block};
ghost use Rattle.vp_base.specs.Image.{i420, plane_of, with_plane, blank_image};
ghost use Rattle.vp_scale.specs.declared.scale.Scale.{Scale};
ghost use Rattle.vp_scale.specs.Scale.{IsFactor, factor_of, scaled_side};
ghost use Rattle.vp_scale.specs.Planes.{i420_size};
ghost use Rattle.vp_scale.specs.Means.{mean_at, scaled_i420};

use crate::plane::PlaneView;
use crate::scale::Scale;
use std::alloc::{AllocError, Global};
use vp_base::{Dim, Picture};

// Writes row `y` of the smaller plane into plane `to` of a picture: its first `width` pixels.
#[inline(always)]
fn scale_row(
    plane: &PlaneView<'_>,
    k: usize,
    y: usize,
    picture: &mut Picture,
    to: usize,
    width: usize,
)
    requires factor { IsFactor k }
    requires width { width ≡ scaled_side k plane.now.width }
    requires row { y < scaled_side k plane.now.height }
    requires plane { to < 3 }
    requires columns { width ≤ (plane_of picture.old to).width }
    requires rows { y < (plane_of picture.old to).height }
    ensures { (run : List ℕ) × (length run ≡ width)
        × ((c : ℕ) → c < width → slice_index run c ≡ mean_at k plane.now c y)
        × (picture.new ≡ with_plane picture.old to (with_run (plane_of picture.old to) 0 y run)) }
{
    let _known = picture.plane(to).width();
    plane.write_means(k, y, picture.row_mut(to, y), width);
}

// Writes the smaller plane into the top left corner of plane `to` of a picture.
#[inline(always)]
fn scale_plane(plane: &PlaneView<'_>, k: usize, picture: &mut Picture, to: usize)
    requires factor { IsFactor k }
    requires plane { to < 3 }
    requires columns { scaled_side k plane.now.width ≤ (plane_of picture.old to).width }
    requires rows { scaled_side k plane.now.height ≤ (plane_of picture.old to).height }
    ensures { picture.new ≡ with_plane picture.old to (with_block (plane_of picture.old to) 0 0
        (scaled_side k plane.now.width) (scaled_side k plane.now.height) (λ r c. mean_at k plane.now c r)) }
{
    let _known = picture.plane(to).width();
    let width = (plane.width() + (k - 1)) / k;
    let height = (plane.height() + (k - 1)) / k;
    for y in 0..height {
        scale_row(plane, k, y, picture, to, width);
    }
}

// Writes the smaller planes into a picture of zeros of the smaller size.
#[inline(always)]
fn scale_planes(pixels: &[u8], dim: Dim, k: usize, picture: &mut Picture)
    requires factor { IsFactor k }
    requires size { length pixels.now ≡ i420_size dim.w dim.h }
    requires blank { picture.old ≡ blank_image (scaled_side k dim.w) (scaled_side k dim.h) 0 }
    ensures width { picture.new.width ≡ picture.old.width }
    ensures height { picture.new.height ≡ picture.old.height }
    ensures shown { i420 picture.new ≡ scaled_i420 k dim.w dim.h pixels.now }
{
    let [width, height] = [usize::from(dim.w), usize::from(dim.h)];
    let [half_width, half_height] = [(width + 1) / 2, (height + 1) / 2];
    let luma = PlaneView::new(pixels, 0, width, height);
    let at = height * width;
    let u = PlaneView::new(pixels, at, half_width, half_height);
    let at = at + half_height * half_width;
    let v = PlaneView::new(pixels, at, half_width, half_height);
    scale_plane(&luma, k, picture, 0);
    scale_plane(&u, k, picture, 1);
    scale_plane(&v, k, picture, 2);
}

/// Makes a picture smaller. It is given as I420: planes Y, U and V by rows, U and V of half its sides, rounded up. Each
/// pixel of the result is the mean of a square of pixels, rounded to the nearest, a half up; where the square extends
/// beyond an edge, the nearest pixel counts. With `Scale::Full` the picture stays as it is.
///
/// Errors: out of memory. Nothing but the result is allocated.
pub fn scaled(alloc: Global, dim: Dim, pixels: &[u8], scale: Scale) -> Result<Picture, AllocError>
    requires { length pixels.now ≡ i420_size dim.w dim.h }
    ensures width { IfOk result (λ p. p.width ≡ scaled_side (factor_of scale) dim.w) }
    ensures height { IfOk result (λ p. p.height ≡ scaled_side (factor_of scale) dim.h) }
    ensures shown { IfOk result (λ p. i420 p ≡ scaled_i420 (factor_of scale) dim.w dim.h pixels.now) }
    ensures same { scale ≡ Scale.Full → IfOk result (λ p. i420 p ≡ pixels.now) }
{
    let mut picture = Picture::new(alloc, scale.size(dim), 0)?;
    match scale {
        Scale::Full => scale_planes(pixels, dim, 1, &mut picture),
        Scale::Half => scale_planes(pixels, dim, 2, &mut picture),
        Scale::Quarter => scale_planes(pixels, dim, 4, &mut picture),
        Scale::Eighth => scale_planes(pixels, dim, 8, &mut picture),
    }
    Ok(picture)
}
