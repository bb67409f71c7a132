//! The means of neighbouring pixels around a subblock, in lanes (RFC 6386, chapter 12.3).

ghost use Rattle.std.specs.Prelude.{◌≡◌, ℕ, ◌<◌, List, slice_index};
ghost use Rattle.vp_intra.specs.Edges.{first};
ghost use Rattle.vp_intra.specs.Sub.{avg2, avg3};
ghost use Rattle.vp_intra.specs.SubLanes.{padded, twos_of, threes_of};

use std::simd::prelude::*;

/// The means of two pixels, rounded, lane by lane. It compiles to one instruction.
fn mean2(x: u8x16, y: u8x16) -> u8x16
    ensures { result ≡ first 16 (λ j. avg2 (slice_index x j) (slice_index y j)) }
{
    ((x.cast::<u16>() + y.cast::<u16>() + u16x16::splat(1)) >> 1).cast::<u8>()
}

/// The means of three pixels with weights 1, 2, 1, rounded, lane by lane.
fn mean3(x: u8x16, y: u8x16, z: u8x16) -> u8x16
    ensures { result ≡ first 16 (λ j. avg3 (slice_index x j) (slice_index y j) (slice_index z j)) }
{
    let middle = y.cast::<u16>() * u16x16::splat(2);
    ((x.cast::<u16>() + middle + z.cast::<u16>() + u16x16::splat(2)) >> 2).cast::<u8>()
}

/// The means of each pixel and the next.
pub(crate) fn twos(pixels: u8x16) -> u8x16
    ensures { (es : List ℕ) → pixels ≡ padded es → result ≡ twos_of es }
{
    mean2(
        pixels,
        pixels.swizzle::<16>([1, 2, 3, 4, 5, 6, 7, 8, 9, 10, 11, 12, 12, 13, 13, 13]),
    )
}

/// The weighted means of each pixel and both neighbours.
pub(crate) fn threes(pixels: u8x16) -> u8x16
    ensures { (es : List ℕ) → pixels ≡ padded es → result ≡ threes_of es }
{
    mean3(
        pixels.swizzle::<16>([0, 0, 1, 2, 3, 4, 5, 6, 7, 8, 9, 10, 11, 13, 13, 13]),
        pixels,
        pixels.swizzle::<16>([1, 2, 3, 4, 5, 6, 7, 8, 9, 10, 11, 12, 12, 13, 13, 13]),
    )
}
