//! Copying blocks out of a plane.

ghost use Rattle.std.specs.Prelude.{◌≡◌, ℕ, ◌+◌, ◌*◌, ◌<◌, ◌≤◌, slice_index};
ghost use Rattle.vp_base.specs.Raster.{pixel};
ghost use Rattle.vp_search.specs.Blocks.{macroblock_pixels};

use crate::window::put_part;
use vp_base::{Place, Plane};

/// Copies the block of `SIDE` by `SIDE` pixels at `place`, which is in units of such blocks, in raster order.
pub fn cut_block<const SIDE: usize, const AREA: usize>(plane: &Plane, place: Place) -> [u8; AREA]
    requires side { SIDE ≤ 16 }
    requires area { AREA ≡ SIDE * SIDE }
    requires columns { SIDE * place.column + SIDE ≤ plane.now.width }
    requires rows { SIDE * place.row + SIDE ≤ plane.now.height }
    ensures { (r c : ℕ) → r < SIDE → c < SIDE → slice_index result (r * SIDE + c)
        ≡ pixel plane.now (SIDE * place.column + c) (SIDE * place.row + r) }
{
    let _known = [plane.width(), plane.height()];
    let mut pixels = [0; AREA];
    for r in 0..SIDE {
        let line = plane.row(SIDE * place.row + r);
        let start = SIDE * place.column;
        put_part(&mut pixels, r * SIDE, &line[start..start + SIDE]);
    }
    pixels
}

/// Copies the luma pixels of the macroblock at `place`, in raster order.
pub fn cut_luma(plane: &Plane, place: Place) -> [u8; 256]
    requires columns { 16 * place.column + 16 ≤ plane.now.width }
    requires rows { 16 * place.row + 16 ≤ plane.now.height }
    ensures { (r c : ℕ) → r < 16 → c < 16 → slice_index result (r * 16 + c) ≡ macroblock_pixels plane.now place r c }
{
    cut_block::<16, 256>(plane, place)
}
