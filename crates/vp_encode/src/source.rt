//! Extends the source to whole macroblocks.

ghost use Rattle.std.specs.Prelude.{◌≡◌, ◌<◌, IfOk};
ghost use Rattle.vp_base.specs.Image.{plane_of, with_plane};
ghost use Rattle.vp_encode.specs.Encoder.{continued, continued_plane};
ghost use Rattle.vp_encode.specs.Continued.{ExtendsPlane, row_continued};

use std::alloc::{AllocError, Global};
use vp_base::{Picture, Plane};

/// Writes row `y` of plane `k`: row `y` of the source, or its last shown row if `y` is below that, extended by its last
/// pixel.
fn continue_row(
    source: &Plane,
    width: usize,
    height: usize,
    y: usize,
    k: usize,
    picture: &mut Picture,
)
    requires plane { k < 3 }
    requires row { y < source.now.height }
    requires size { ExtendsPlane width height source.now (plane_of picture.old k) }
    ensures { picture.new ≡ with_plane picture.old k (row_continued width height source.now y
        (plane_of picture.old k)) }
{
    let row = source.row(y.min(height - 1));
    let behind = [row[width - 1]; 16];
    picture.write_run(k, 0, y, &row[..width]);
    picture.write_run(k, width, y, &behind[..source.width() - width]);
}

/// Writes plane `k`: the first `width` columns and `height` rows of the source, extended by the nearest pixel.
fn continue_plane(source: &Plane, width: usize, height: usize, k: usize, picture: &mut Picture)
    requires plane { k < 3 }
    requires size { ExtendsPlane width height source.now (plane_of picture.old k) }
    ensures { picture.new ≡ with_plane picture.old k (continued_plane width height source.now) }
{
    for y in 0..source.height() {
        continue_row(source, width, height, y, k, picture);
    }
}

/// Returns the source padded to whole macroblocks: each pixel that isn't shown is the nearest shown one.
#[tactic(auto, unfolding(crate::specs::Encoder::continued))]
pub(crate) fn continued(alloc: Global, source: &Picture) -> Result<Picture, AllocError>
    ensures value { IfOk result (λ p. p ≡ continued source.now) }
    ensures width { IfOk result (λ p. p.width ≡ source.now.width) }
    ensures height { IfOk result (λ p. p.height ≡ source.now.height) }
{
    let dim = source.dim();
    let [width, height] = [usize::from(dim.w), usize::from(dim.h)];
    let [half_width, half_height] = [(width + 1) / 2, (height + 1) / 2];
    let mut picture = Picture::new(alloc, dim, 0)?;
    continue_plane(source.plane(0), width, height, 0, &mut picture);
    continue_plane(source.plane(1), half_width, half_height, 1, &mut picture);
    continue_plane(source.plane(2), half_width, half_height, 2, &mut picture);
    Ok(picture)
}
