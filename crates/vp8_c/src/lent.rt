//! Pictures that are lent to C: addresses in place of a copy.

ghost use Rattle.std.specs.Prelude.{◌≡◌};
ghost use denote.RawPtr.{block_ptr};
ghost use Rattle.vp8_c.specs.Lent.{IsLayoutOf};

use vp_base::Picture;

/// A plane that is lent to C.
#[repr(C)]
#[derive(Clone, Copy)]
pub struct LentPlane {
    /// The address of the first pixel.
    at: *const u8,
    /// The distance in bytes from one row to the next.
    stride: usize,
}

/// A picture that is lent to C.
#[repr(C)]
#[derive(Clone, Copy)]
pub struct LentPicture {
    /// The width in pixels.
    width: u32,
    /// The height in pixels.
    height: u32,
    /// The plane of luma.
    y: LentPlane,
    /// The plane of U.
    u: LentPlane,
    /// The plane of V.
    v: LentPlane,
}

/// Returns the address of the first byte. It is valid for as long as the bytes stay in their place.
fn address_of(bytes: &[u8]) -> *const u8
    ensures { result ≡ block_ptr bytes.entry.ref_ptr.0 bytes.entry.ref_ptr.1 }
{
    bytes.as_ptr()
}

impl LentPlane {
    /// Lends a plane: these pixels, with this distance from one row to the next.
    fn of(pixels: &[u8], stride: usize) -> LentPlane
        ensures at { result.at ≡ block_ptr pixels.entry.ref_ptr.0 pixels.entry.ref_ptr.1 }
        ensures stride { result.stride ≡ stride }
    {
        LentPlane {
            at: address_of(pixels),
            stride,
        }
    }
}

impl LentPicture {
    /// Lends a picture, given the pixels of its planes where they lie in memory. No other function makes addresses.
    pub fn at(picture: &Picture, y: &[u8], u: &[u8], v: &[u8]) -> LentPicture
        requires pixels_of_y { y.now ≡ picture.now.luma.pixels }
        requires pixels_of_u { u.now ≡ picture.now.u.pixels }
        requires pixels_of_v { v.now ≡ picture.now.v.pixels }
        ensures layout { IsLayoutOf picture.now result }
        ensures at_y { result.y.at ≡ block_ptr y.entry.ref_ptr.0 y.entry.ref_ptr.1 }
        ensures at_u { result.u.at ≡ block_ptr u.entry.ref_ptr.0 u.entry.ref_ptr.1 }
        ensures at_v { result.v.at ≡ block_ptr v.entry.ref_ptr.0 v.entry.ref_ptr.1 }
    {
        let dim = picture.dim();
        LentPicture {
            width: u32::from(dim.w),
            height: u32::from(dim.h),
            y: LentPlane::of(y, picture.plane(0).width()),
            u: LentPlane::of(u, picture.plane(1).width()),
            v: LentPlane::of(v, picture.plane(2).width()),
        }
    }
}

#[cfg(test)]
impl LentPicture {
    /// Returns a picture that lends nothing, to be written to.
    pub fn none() -> LentPicture {
        let plane = LentPlane::of(b"", 9);
        LentPicture {
            width: 9,
            height: 9,
            y: plane,
            u: plane,
            v: plane,
        }
    }

    /// Returns the width and the height in pixels, and the strides of Y, U and V in bytes.
    pub fn layout(&self) -> (u32, u32, [usize; 3]) {
        let strides = [self.y.stride, self.u.stride, self.v.stride];
        (self.width, self.height, strides)
    }
}
