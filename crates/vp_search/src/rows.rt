//! A macroblock in lanes.

ghost use Rattle.std.specs.Prelude.{◌≡◌, ◌*◌, ◌<◌};
ghost use Rattle.vp_search.specs.Differences.{strided_block};
ghost use Rattle.vp_search.specs.Rows.{HasRows};

use crate::kernel::{FourRows, load_rows};
use std::marker::Model;

/// The luma of a macroblock that others are compared with. Its rows lie as the processor takes them, so that a row of
/// another is compared without loading this one's first.
#[derive(Drop)]
pub(crate) struct Block<'a> {
    /// The pixels in raster order.
    pixels: &'a [u8; 256],
    first: FourRows,
    second: FourRows,
    third: FourRows,
    fourth: FourRows,
}

impl<'a> Model for Block<'a> {
    ghost use Rattle.std.specs.Prelude.{ℕ, List};
    ghost use Rattle.vp_search.specs.Differences.{strided_block};
    ghost use Rattle.vp_search.specs.Rows.{HasRows};

    ghost Value = { List ℕ };

    ghost view = { λ b. b.pixels.now };

    ghost invariant = { λ b. HasRows (strided_block b.pixels.now 0 16) b.first
        × HasRows (strided_block b.pixels.now 64 16) b.second
        × HasRows (strided_block b.pixels.now 128 16) b.third
        × HasRows (strided_block b.pixels.now 192 16) b.fourth };
}

impl<'a> Block<'a> {
    /// The block of these pixels, in raster order.
    pub(crate) fn of(pixels: &'a [u8; 256]) -> Block<'a>
        ensures { result ≡ pixels.now }
    {
        Block {
            pixels,
            first: load_rows(pixels, 0, 16),
            second: load_rows(pixels, 64, 16),
            third: load_rows(pixels, 128, 16),
            fourth: load_rows(pixels, 192, 16),
        }
    }

    /// The pixels, in raster order.
    pub(crate) fn pixels(&self) -> &'a [u8; 256]
        ensures { result.now ≡ self.now }
    {
        self.pixels
    }

    /// Rows `4 * i` to `4 * i + 3`.
    pub(crate) fn rows(&self, i: usize) -> FourRows
        requires { i < 4 }
        ensures { HasRows (strided_block self.now (64 * i) 16) result }
    {
        match i {
            0 => self.first,
            1 => self.second,
            2 => self.third,
            _ => self.fourth,
        }
    }
}
