//! Pictures without compression, made smaller.

ghost use Rattle.std.specs.Prelude.{◌≡◌, ◌++◌, length, IfOk, OnOk};
ghost use Rattle.std.specs.Io.KnownBytes.{Appends};
ghost use Rattle.vp_base.specs.Counted.{counted_contents};
ghost use Rattle.vp_scale.specs.Scale.{factor_of};
ghost use Rattle.vp_scale.specs.Means.{scaled_i420};
ghost use Rattle.vp_y4m.specs.Text.{header_text, picture_text, i420_length};
ghost use Rattle.vp_still.specs.Still.{y4m_still};

use crate::found::Found;
use std::alloc::{AllocError, Global};
use std::io::Write;
use vp_base::{ByteList, Counted, Device, Dim};
use vp_scale::{Scale, scaled};
use vp_y4m::{write_header, write_picture};

/// The picture, made smaller, as I420: Y, U and V by rows.
pub fn i420_still(alloc: Global, found: &Found, scale: Scale) -> Result<ByteList, AllocError>
    ensures { IfOk result (λ f. f ≡ scaled_i420 (factor_of scale) found.now.dim.w found.now.dim.h found.now.pixels) }
{
    let picture = scaled(alloc, found.dim, found.pixels.as_slice(), scale)?;
    let pixels = picture.crop_i420(alloc)?;
    Ok(ByteList::from_vec(pixels))
}

/// The picture, made smaller, as a YUV4MPEG2 file of one frame a second.
pub fn y4m_still(alloc: Global, found: &Found, scale: Scale) -> Result<ByteList, AllocError>
    ensures { IfOk result (λ f. f ≡ y4m_still scale found.now.dim.w found.now.dim.h found.now.pixels) }
{
    let picture = scaled(alloc, found.dim, found.pixels.as_slice(), scale)?;
    let pixels = picture.crop_i420(alloc)?;
    let mut out = Counted::new(Vec::new(alloc));
    match put_y4m(&mut out, picture.dim(), &pixels) {
        Ok(()) => Ok(ByteList::from_vec(out.into_inner())),
        Err(Device) => Err(AllocError),
    }
}

// Writes a file of one picture.
fn put_y4m<W: Write>(out: &mut Counted<W>, dim: Dim, pixels: &[u8]) -> Result<(), Device>
    requires { length pixels.now ≡ i420_length dim.w dim.h }
    ensures { OnOk result (Appends (counted_contents W.contents out.old) (counted_contents W.contents out.new)
        (header_text dim.w dim.h 1 1 ++ picture_text pixels.now)) }
{
    let Ok(()) = write_header(out, dim, 1, 1) else {
        return Err(Device);
    };
    match write_picture(out, dim, pixels, dim) {
        Ok(()) => Ok(()),
        Err(_) => Err(Device),
    }
}
