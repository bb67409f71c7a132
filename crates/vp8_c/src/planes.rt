//! The three planes of a picture in the caller's memory.

ghost use Rattle.std.specs.Prelude.{◌≡◌, ◌↔◌, IsTrue, length};
ghost use Rattle.vp8_c.specs.Planes.{AllFit, HasRoomForRows, colour_layout, luma_layout, planes_in, planes_in_mut};

use vp_base::Dim;

/// The strides of the three planes: the distance in bytes from one row to the next.
#[derive(Clone, Copy)]
pub struct Strides {
    /// The stride of luma.
    pub y: usize,
    /// The stride of U.
    pub u: usize,
    /// The stride of V.
    pub v: usize,
}

/// Planes to read from.
#[derive(Clone, Copy)]
pub struct CallerPlanes<'a> {
    /// The bytes of luma.
    pub y: &'a [u8],
    /// The bytes of U.
    pub u: &'a [u8],
    /// The bytes of V.
    pub v: &'a [u8],
    /// The strides of the planes.
    pub strides: Strides,
}

/// Planes to write to.
#[derive(Drop)]
pub struct CallerPlanesMut<'a> {
    /// The bytes of luma.
    pub y: &'a mut [u8],
    /// The bytes of U.
    pub u: &'a mut [u8],
    /// The bytes of V.
    pub v: &'a mut [u8],
    /// The strides of the planes.
    pub strides: Strides,
}

/// The size of a plane in pixels, and its stride in bytes.
#[derive(Clone, Copy)]
pub struct Layout {
    /// The width in pixels, which is also the bytes of a row.
    pub width: usize,
    /// The number of rows.
    pub height: usize,
    /// The distance in bytes from one row to the next.
    pub stride: usize,
}

impl Layout {
    /// Returns the layout of the luma plane of a picture.
    pub fn luma(dim: Dim, stride: usize) -> Layout
        ensures { result ≡ luma_layout dim.w dim.h stride }
    {
        Layout {
            width: usize::from(dim.w),
            height: usize::from(dim.h),
            stride,
        }
    }

    /// Returns the layout of a chroma plane of a picture.
    pub fn colour(dim: Dim, stride: usize) -> Layout
        ensures { result ≡ colour_layout dim.w dim.h stride }
    {
        Layout {
            width: (usize::from(dim.w) + 1) / 2,
            height: (usize::from(dim.h) + 1) / 2,
            stride,
        }
    }

    /// Returns whether `len` bytes have room for the rows.
    pub fn fits(self, len: usize) -> bool
        ensures { IsTrue result ↔ HasRoomForRows self len }
    {
        if self.width > self.stride {
            return false;
        }
        let Some(last) = self.height.saturating_sub(1).checked_mul(self.stride) else {
            return false;
        };
        match last.checked_add(self.width) {
            Some(end) => end <= len,
            None => false,
        }
    }
}

impl<'a> CallerPlanes<'a> {
    /// Returns whether the planes have room for a picture of this size.
    pub fn fit(&self, dim: Dim) -> bool
        ensures { IsTrue result ↔ AllFit dim.w dim.h (planes_in self.now) }
    {
        Layout::luma(dim, self.strides.y).fits(self.y.len())
            && Layout::colour(dim, self.strides.u).fits(self.u.len())
            && Layout::colour(dim, self.strides.v).fits(self.v.len())
    }
}

impl<'a> CallerPlanesMut<'a> {
    /// Returns whether the planes have room for a picture of this size.
    pub fn fit(&self, dim: Dim) -> bool
        ensures { IsTrue result ↔ AllFit dim.w dim.h (planes_in_mut self.now) }
    {
        Layout::luma(dim, self.strides.y).fits(self.y.len())
            && Layout::colour(dim, self.strides.u).fits(self.u.len())
            && Layout::colour(dim, self.strides.v).fits(self.v.len())
    }
}
