//! Copies pictures to and from the caller's planes.

ghost use Rattle.std.specs.Prelude.{◌≡◌, ◌≤◌, ◌<◌, ◌+◌, ◌↔◌, length, IsTrue};
ghost use Rattle.std.specs.Bool.{OnTrue, OnFalse};
ghost use Rattle.vp_base.specs.Raster.{overlay, pixel};
ghost use Rattle.vp_base.specs.Image.{plane_of};
ghost use Rattle.vp8_c.specs.Arguments.{CopiesPicture, Puts, size_of};
ghost use Rattle.vp8_c.specs.Planes.{AllFit, AreRowsOf, AreSameMemory, HasRoomForRows, HoldsRows, ReadsPlane};
ghost use Rattle.vp8_c.specs.Planes.{planes_in, planes_in_mut};

use crate::planes::{CallerPlanes, CallerPlanesMut, Layout};
use crate::status::{BUFFER, OK};
use vp_base::{Dim, Picture, Plane};

/// Writes bytes from `start` on.
#[tactic(auto, unfolding(vp_base::specs::Raster::overlay))]
fn put_run(out: &mut [u8], start: usize, run: &[u8])
    requires { start + length run.now ≤ length out.old }
    ensures { out.new ≡ overlay out.old start run.now }
{
    out[start..start + run.len()].copy_from_slice(run);
}

/// Copies a plane, without its padding, to rows in the caller's memory.
fn copy_plane(plane: &Plane, layout: Layout, out: &mut [u8])
    requires columns { layout.width ≤ plane.now.width }
    requires rows { layout.height ≤ plane.now.height }
    requires fits { HasRoomForRows layout (length out.old) }
    ensures { HoldsRows layout (pixel plane.now) out.old out.new }
{
    for y in 0..layout.height {
        put_run(out, y * layout.stride, &plane.row(y)[..layout.width]);
    }
}

/// Copies the shown pixels of a picture, or returns `BUFFER` if the planes are too small.
pub fn put_picture(picture: &Picture, planes: &mut CallerPlanesMut) -> u32
    ensures memory { AreSameMemory planes.old planes.new }
    ensures picture { CopiesPicture picture.now result (planes_in_mut planes.old) (planes_in_mut planes.new) }
{
    let dim = picture.dim();
    if !planes.fit(dim) {
        return BUFFER;
    }
    let strides = planes.strides;
    copy_plane(picture.plane(0), Layout::luma(dim, strides.y), planes.y);
    copy_plane(picture.plane(1), Layout::colour(dim, strides.u), planes.u);
    copy_plane(picture.plane(2), Layout::colour(dim, strides.v), planes.v);
    OK
}

/// Writes the width and the height of a picture.
pub fn put_size(dim: Dim, width: &mut u32, height: &mut u32) -> u32
    ensures { Puts (size_of dim.w dim.h) result (size_of width.old height.old) (size_of width.new height.new) }
{
    *width = u32::from(dim.w);
    *height = u32::from(dim.h);
    OK
}

/// Reads a plane, without its padding, from rows in the caller's memory.
fn read_plane(picture: &mut Picture, k: usize, layout: Layout, bytes: &[u8])
    requires plane { k < 3 }
    requires columns { layout.width ≤ (plane_of picture.old k).width }
    requires rows { layout.height ≤ (plane_of picture.old k).height }
    requires fits { HasRoomForRows layout (length bytes.now) }
    ensures { ReadsPlane layout bytes.now k picture.old picture.new }
{
    let _known = picture.plane(k).width();
    for y in 0..layout.height {
        let _known = picture.plane(k).width();
        let start = y * layout.stride;
        picture.write_run(k, 0, y, &bytes[start..start + layout.width]);
    }
}

/// Reads the shown pixels of a picture from the caller's planes, if they are large enough. Returns whether they are.
pub fn read_picture(picture: &mut Picture, planes: CallerPlanes) -> bool
    ensures fits { IsTrue result ↔ AllFit picture.old.width picture.old.height (planes_in planes.entry) }
    ensures read { OnTrue result (AreRowsOf picture.old.width picture.old.height (planes_in planes.entry) picture.new) }
    ensures width { picture.new.width ≡ picture.old.width }
    ensures height { picture.new.height ≡ picture.old.height }
    ensures unchanged { OnFalse result (picture.new ≡ picture.old) }
{
    let dim = picture.dim();
    if !planes.fit(dim) {
        return false;
    }
    let strides = planes.strides;
    read_plane(picture, 0, Layout::luma(dim, strides.y), planes.y);
    let _known = picture.dim();
    read_plane(picture, 1, Layout::colour(dim, strides.u), planes.u);
    let _known = picture.dim();
    read_plane(picture, 2, Layout::colour(dim, strides.v), planes.v);
    true
}
