//! The squared distance of two pictures.

ghost use Rattle.std.specs.Prelude.{◌≡◌, ◌*◌, ◌≤◌};
ghost use Rattle.vp_base.specs.Raster.{pixel};
ghost use Rattle.vp_base.specs.Block.{numbers};
ghost use Rattle.vp_search.specs.Differences.{sum_of_squares};
ghost use Rattle.vp_encode.specs.Choice.{squared_distance};

use vp_base::{Picture, Plane};
use vp_search::sse;

/// Returns the sum of squared differences over the first `width` columns and `height` rows of two planes.
fn plane_distance(a: &Plane, b: &Plane, width: usize, height: usize) -> u64
    requires columns { (width ≤ a.now.width) × (width ≤ b.now.width) }
    requires rows { (height ≤ a.now.height) × (height ≤ b.now.height) }
    requires wide { width ≤ 16384 }
    requires high { height ≤ 16384 }
    ensures value { result ≡ sum_of_squares (numbers width height (pixel a.now)) (numbers width height (pixel b.now)) }
    ensures bound { result ≤ 65025 * (height * width) }
{
    let mut sum = 0;
    for y in 0..height {
        sum += sse(&a.row(y)[..width], &b.row(y)[..width]);
    }
    sum
}

/// Returns the squared distance of two pictures of one size, over their shown pixels.
#[tactic(auto, unfolding(vp_base::specs::Image::i420))]
pub(crate) fn squared_distance(source: &Picture, recon: &Picture) -> u64
    requires width { source.now.width ≡ recon.now.width }
    requires height { source.now.height ≡ recon.now.height }
    ensures { result ≡ squared_distance source.now recon.now }
{
    let dim = source.dim();
    let _known = recon.dim();
    let [width, height] = [usize::from(dim.w), usize::from(dim.h)];
    let [half_width, half_height] = [(width + 1) / 2, (height + 1) / 2];
    let luma = plane_distance(source.plane(0), recon.plane(0), width, height);
    let u = plane_distance(source.plane(1), recon.plane(1), half_width, half_height);
    let v = plane_distance(source.plane(2), recon.plane(2), half_width, half_height);
    luma + u + v
}
