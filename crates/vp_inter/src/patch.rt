//! A place in a reference plane, from which a block is predicted (RFC 6386, chapter 18.1).

ghost use Rattle.std.specs.Prelude.{◌≡◌, ◌*◌, ◌<◌, ◌≤◌, length};
ghost use Rattle.vp_inter.specs.Narrow.{IsNear};

/// The pixels of a reference plane from column `left` and row `top` on, of which any may be outside the plane. The
/// plane is not empty, and the place is near enough that the columns and rows of a block fit in i32. A loop that writes
/// pixels has a copy of its own, which no write can alias: so the compiler hoists what depends on it.
#[derive(Clone, Copy)]
pub(crate) struct Patch<'a> {
    pub(crate) pixels: &'a [u8],
    pub(crate) width: usize,
    pub(crate) height: usize,
    pub(crate) left: i32,
    pub(crate) top: i32,
    ghost all: { length pixels.now ≡ height * width },
    ghost wide: { (0 < width) × (width ≤ 16384) },
    ghost high: { (0 < height) × (height ≤ 16384) },
    ghost near: { IsNear left },
    ghost beside: { IsNear top },
}
