//! Sums of absolute differences of blocks.

ghost use Rattle.std.specs.Prelude.{◌≡◌, ℕ, ◌+◌, ◌*◌, ◌<◌, ◌≤◌, length, slice_index, IfSome, None};
ghost use Rattle.vp_search.specs.Differences.{sum_of_differences, strided_block, block16, block_from_rows};
ghost use Rattle.vp_search.specs.Columns.{IsWithin};

use crate::kernel::{differences16, four_differences, load_rows};
use crate::rows::Block;

/// The sum of absolute differences of two 16x16 blocks in raster order.
pub fn sad16(a: &[u8; 256], b: &[u8; 256]) -> u32
    ensures value { result ≡ sum_of_differences 16 16 (block16 a.now) (block16 b.now) }
    ensures bound { result ≤ 65280 }
{
    sad_up_to(&Block::of(a), b, 0, 16, u32::MAX)
}

/// The sum of absolute differences of two 8x8 blocks in raster order.
pub fn sad8(a: &[u8; 64], b: &[u8; 64]) -> u32
    ensures value { result ≡ sum_of_differences 8 8 (block_from_rows 8 a.now) (block_from_rows 8 b.now) }
    ensures bound { result ≤ 16320 }
{
    // Two rows of eight pixels lie as one of sixteen.
    four_differences(load_rows(a, 0, 16), load_rows(b, 0, 16))
}

/// The sum of absolute differences of two 4x4 blocks in raster order.
pub fn sad4(a: &[u8; 16], b: &[u8; 16]) -> u32
    ensures value { result ≡ sum_of_differences 4 4 (block_from_rows 4 a.now) (block_from_rows 4 b.now) }
    ensures bound { result ≤ 4080 }
{
    differences16(a, b)
}

/// The sum of absolute differences of rows `4 * i` to `4 * i + 3` of a block and four rows of a window that are
/// `stride` apart, from index `at` on.
pub(crate) fn four_rows(block: &Block, i: usize, window: &[u8], at: usize, stride: usize) -> u32
    requires i { i < 4 }
    requires window { at + 3 * stride + 16 ≤ length window.now }
    ensures value { result ≡ sum_of_differences 4 16 (strided_block block.now (64 * i) 16)
        (strided_block window.now at stride) }
    ensures bound { result ≤ 4 * 16 * 255 }
{
    four_differences(block.rows(i), load_rows(window, at, stride))
}

/// The sum of absolute differences of a block and the one at index `at` of a window with rows of `stride` pixels. If
/// it is above `limit`, returns some number above `limit`.
pub(crate) fn sad_up_to(block: &Block, window: &[u8], at: usize, stride: usize, limit: u32) -> u32
    requires { at + 15 * stride + 16 ≤ length window.now }
    ensures within { IsWithin limit result (sum_of_differences 16 16 (strided_block block.now 0 16)
        (strided_block window.now at stride)) }
    ensures bound { result ≤ 16 * 16 * 255 }
    ensures bytes { (k : ℕ) → slice_index window.now k ≤ 255 }
{
    let most = four_rows(block, 0, window, at, stride)
        + four_rows(block, 1, window, at + 4 * stride, stride)
        + four_rows(block, 2, window, at + 8 * stride, stride);
    if most > limit {
        return most;
    }
    most + four_rows(block, 3, window, at + 12 * stride, stride)
}

/// As `sad_up_to`, given the sum of the first four rows; None if the sum is above `limit`. It is already compared
/// after twelve rows: after eight few vectors are above it.
pub(crate) fn rest_within(
    block: &Block,
    window: &[u8],
    at: usize,
    stride: usize,
    first: u32,
    limit: u32,
) -> Option<u32>
    requires window { at + 15 * stride + 16 ≤ length window.now }
    requires first { first ≡ sum_of_differences 4 16 (strided_block block.now 0 16)
        (strided_block window.now at stride) }
    requires bound { first ≤ 4 * 16 * 255 }
    ensures within { IfSome result (λ sum. sum ≤ limit) }
    ensures value { IfSome result (λ sum. sum ≡ sum_of_differences 16 16 (strided_block block.now 0 16)
        (strided_block window.now at stride)) }
    ensures over { result ≡ None → limit < sum_of_differences 16 16 (strided_block block.now 0 16)
        (strided_block window.now at stride) }
{
    let second = first + four_rows(block, 1, window, at + 4 * stride, stride);
    let third = second + four_rows(block, 2, window, at + 8 * stride, stride);
    if third > limit {
        return None;
    }
    let all = third + four_rows(block, 3, window, at + 12 * stride, stride);
    if all > limit {
        return None;
    }
    Some(all)
}
