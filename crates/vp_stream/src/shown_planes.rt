//! The shown pixels of a picture, lent from its planes.

ghost use Rattle.std.specs.Prelude.{◌≡◌, ◌≤◌, ◌++◌, IfSome, OnOk, OnErr, length};
ghost use Rattle.std.specs.Io.KnownBytes.{Appends};
ghost use Rattle.vp_base.specs.Counted.{counted_contents, counted_failures, HasFailed, AppendsPrefix};
ghost use Rattle.vp_base.specs.Block.{numbers};
ghost use Rattle.vp_base.specs.Image.{i420};
ghost use Rattle.vp_base.specs.Raster.{pixel};
ghost use Rattle.vp_y4m.specs.Text.{i420_length};

use std::io::Write;
use vp_base::{Counted, Device, Dim, Picture, Plane, put_all};

/// The shown pixels of a picture, plane by plane, each in raster order.
#[derive(Clone, Copy)]
pub(crate) struct ShownPlanes<'a> {
    y: &'a [u8],
    u: &'a [u8],
    v: &'a [u8],
}

/// The first `height` rows of a plane, if it has `width` columns: then these pixels lie side by side.
#[tactic(auto, using(crate::proofs::PictureLemmas::whole_rows))]
fn shown_rows<'a>(plane: &'a Plane, width: usize, height: usize) -> Option<&'a [u8]>
    requires { height ≤ plane.now.height }
    ensures { IfSome result (λ s. s.now ≡ numbers width height (pixel plane.now)) }
{
    let _known = plane.height();
    if plane.width() != width {
        return None;
    }
    Some(&plane.pixels()[..height * width])
}

impl<'a> ShownPlanes<'a> {
    /// Those of a picture that shows all columns of its planes; None for another one.
    #[tactic(auto, unfolding(vp_base::specs::Image::i420))]
    pub(crate) fn of(picture: &'a Picture) -> Option<ShownPlanes<'a>>
        ensures { IfSome result (λ s. s.y.now ++ s.u.now ++ s.v.now ≡ i420 picture.now) }
    {
        let dim = picture.dim();
        let (width, height) = (usize::from(dim.w), usize::from(dim.h));
        let (half_width, half_height) = ((width + 1) / 2, (height + 1) / 2);
        let y = shown_rows(picture.plane(0), width, height)?;
        let u = shown_rows(picture.plane(1), half_width, half_height)?;
        let v = shown_rows(picture.plane(2), half_width, half_height)?;
        Some(ShownPlanes { y, u, v })
    }

    /// Those of a picture of this size whose I420 pixels these are.
    pub(crate) fn cut(dim: Dim, pixels: &'a [u8]) -> ShownPlanes<'a>
        requires { length pixels.now ≡ i420_length dim.w dim.h }
        ensures { result.y.now ++ result.u.now ++ result.v.now ≡ pixels.now }
    {
        let (width, height) = (usize::from(dim.w), usize::from(dim.h));
        let (y, chroma) = pixels.split_at(width * height);
        let (u, v) = chroma.split_at(chroma.len() / 2);
        ShownPlanes { y, u, v }
    }

    /// Writes them as I420, plane by plane. On `Device` a prefix of them is written; a failed write is not retried.
    pub(crate) fn put<W: Write>(&self, writer: &mut Counted<W>) -> Result<(), Device>
        ensures ok { OnOk result (Appends (counted_contents W.contents writer.old)
            (counted_contents W.contents writer.new) (self.now.y.now ++ self.now.u.now ++ self.now.v.now)) }
        ensures ok_count { OnOk result (counted_failures writer.new ≡ counted_failures writer.old) }
        ensures device { OnErr result (HasFailed (counted_failures writer.old) (counted_failures writer.new)) }
        ensures prefix { AppendsPrefix (counted_contents W.contents writer.old)
            (counted_contents W.contents writer.new) (self.now.y.now ++ self.now.u.now ++ self.now.v.now) }
    {
        put_all(writer, self.y)?;
        put_all(writer, self.u)?;
        put_all(writer, self.v)
    }
}
