//! The ten prediction modes of a 4x4 subblock in lanes (RFC 6386, chapter 12.3). All modes but DC and TrueMotion take
//! their pixels from the means of neighbouring pixels around the subblock.

ghost use Rattle.std.specs.Prelude.{◌≡◌, ℕ, ◌+◌, ◌-◌, ◌<◌, List, length, min, map, slice_index};
ghost use Rattle.vp_intra.specs.Edges.{first, clamped_pixel};
ghost use Rattle.vp_intra.specs.Sub.{predicted, sub_modes};
ghost use Rattle.vp_intra.specs.SubLanes.{padded, twos_of, threes_of};

use crate::edges::sum_of_edge;
use crate::means::{threes, twos};
use std::simd::prelude::*;
use vp_lanes::saturating_difference;
use vp_tables::SubMode;

fn vertical(threes: u8x16) -> u8x16
    ensures { (es : List ℕ) → threes ≡ threes_of es → result ≡ predicted SubMode.Ve es }
{
    threes.swizzle::<16>([5, 6, 7, 8, 5, 6, 7, 8, 5, 6, 7, 8, 5, 6, 7, 8])
}

fn horizontal(threes: u8x16) -> u8x16
    ensures { (es : List ℕ) → threes ≡ threes_of es → result ≡ predicted SubMode.He es }
{
    threes.swizzle::<16>([3, 3, 3, 3, 2, 2, 2, 2, 1, 1, 1, 1, 0, 0, 0, 0])
}

fn down_left(threes: u8x16) -> u8x16
    ensures { (es : List ℕ) → threes ≡ threes_of es → result ≡ predicted SubMode.Ld es }
{
    threes.swizzle::<16>([6, 7, 8, 9, 7, 8, 9, 10, 8, 9, 10, 11, 9, 10, 11, 12])
}

fn down_right(threes: u8x16) -> u8x16
    ensures { (es : List ℕ) → threes ≡ threes_of es → result ≡ predicted SubMode.Rd es }
{
    threes.swizzle::<16>([4, 5, 6, 7, 3, 4, 5, 6, 2, 3, 4, 5, 1, 2, 3, 4])
}

fn vertical_right(twos: u8x16, threes: u8x16) -> u8x16
    ensures { (es : List ℕ) → twos ≡ twos_of es → threes ≡ threes_of es → result ≡ predicted SubMode.Vr es }
{
    twos.shuffle::<16>(
        threes,
        [4, 5, 6, 7, 20, 21, 22, 23, 19, 4, 5, 6, 18, 20, 21, 22],
    )
}

fn vertical_left(twos: u8x16, threes: u8x16) -> u8x16
    ensures { (es : List ℕ) → twos ≡ twos_of es → threes ≡ threes_of es → result ≡ predicted SubMode.Vl es }
{
    twos.shuffle::<16>(
        threes,
        [5, 6, 7, 8, 22, 23, 24, 25, 6, 7, 8, 26, 23, 24, 25, 27],
    )
}

fn horizontal_down(twos: u8x16, threes: u8x16) -> u8x16
    ensures { (es : List ℕ) → twos ≡ twos_of es → threes ≡ threes_of es → result ≡ predicted SubMode.Hd es }
{
    twos.shuffle::<16>(
        threes,
        [3, 20, 21, 22, 2, 19, 3, 20, 1, 18, 2, 19, 0, 17, 1, 18],
    )
}

fn horizontal_up(twos: u8x16, threes: u8x16) -> u8x16
    ensures { (es : List ℕ) → twos ≡ twos_of es → threes ≡ threes_of es → result ≡ predicted SubMode.Hu es }
{
    twos.shuffle::<16>(
        threes,
        [2, 18, 1, 17, 1, 17, 0, 16, 0, 16, 13, 14, 15, 13, 14, 15],
    )
}

/// DC prediction: the mean of the pixels above and to the left.
fn direct(pixels: u8x16) -> u8x16
    ensures { (es : List ℕ) → length es ≡ 13 → pixels ≡ padded es → result ≡ predicted SubMode.Dc es }
{
    let sum = sum_of_edge::<8>(pixels.swizzle::<8>([0, 1, 2, 3, 5, 6, 7, 8]));
    u8x16::splat(((sum + 4) >> 3) as u8)
}

/// `x + y`, or 255 if that is more, lane by lane.
fn saturating_sum(x: u8x16, y: u8x16) -> u8x16
    ensures { (j : ℕ) → j < 16 → slice_index result j ≡ min (slice_index x j + slice_index y j) 255 }
{
    x.saturating_add(y)
}

/// Left plus above minus corner, clamped, lane by lane. The positive part of left minus corner is added and the
/// negative part is subtracted, both with saturation. One of the two is 0.
fn clamped(left: u8x16, above: u8x16, corner: u8x16) -> u8x16
    ensures { result ≡ first 16 (λ j. clamped_pixel (slice_index left j) (slice_index above j) (slice_index corner j)) }
{
    saturating_difference(
        saturating_sum(above, saturating_difference(left, corner)),
        saturating_difference(corner, left),
    )
}

fn true_motion(pixels: u8x16) -> u8x16
    ensures { (es : List ℕ) → pixels ≡ padded es → result ≡ predicted SubMode.Tm es }
{
    clamped(
        pixels.swizzle::<16>([3, 3, 3, 3, 2, 2, 2, 2, 1, 1, 1, 1, 0, 0, 0, 0]),
        pixels.swizzle::<16>([5, 6, 7, 8, 5, 6, 7, 8, 5, 6, 7, 8, 5, 6, 7, 8]),
        pixels.swizzle::<16>([4, 4, 4, 4, 4, 4, 4, 4, 4, 4, 4, 4, 4, 4, 4, 4]),
    )
}

/// Predicts a 4x4 block by one mode from the thirteen pixels around it.
pub(crate) fn predict(mode: SubMode, pixels: u8x16) -> u8x16
    ensures { (es : List ℕ) → length es ≡ 13 → pixels ≡ padded es → result ≡ predicted mode es }
{
    match mode {
        SubMode::Dc => direct(pixels),
        SubMode::Tm => true_motion(pixels),
        SubMode::Ve => vertical(threes(pixels)),
        SubMode::He => horizontal(threes(pixels)),
        SubMode::Ld => down_left(threes(pixels)),
        SubMode::Rd => down_right(threes(pixels)),
        SubMode::Vr => vertical_right(twos(pixels), threes(pixels)),
        SubMode::Vl => vertical_left(twos(pixels), threes(pixels)),
        SubMode::Hd => horizontal_down(twos(pixels), threes(pixels)),
        SubMode::Hu => horizontal_up(twos(pixels), threes(pixels)),
    }
}

/// Predicts a 4x4 block by each mode from the thirteen pixels around it.
pub(crate) fn predict_modes(pixels: u8x16) -> [[u8; 16]; 10]
    ensures { (es : List ℕ) → length es ≡ 13 → pixels ≡ padded es → result ≡ map (λ mode. predicted mode es) sub_modes }
{
    let twos = twos(pixels);
    let threes = threes(pixels);
    [
        direct(pixels).to_array(),
        true_motion(pixels).to_array(),
        vertical(threes).to_array(),
        horizontal(threes).to_array(),
        down_left(threes).to_array(),
        down_right(threes).to_array(),
        vertical_right(twos, threes).to_array(),
        vertical_left(twos, threes).to_array(),
        horizontal_down(twos, threes).to_array(),
        horizontal_up(twos, threes).to_array(),
    ]
}
