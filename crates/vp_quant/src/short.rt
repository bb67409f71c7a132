//! Products of levels and a factor in 16 bits, and coefficients from them (RFC 6386, chapters 13 and 14.1).

ghost use Rattle.std.specs.Prelude.{◌≡◌, ◌≢◌, ℕ, ◌+◌, ◌*◌, ◌<◌, ◌≤◌, pos, ◌*ℤ◌, ℤ, List, [], ◌∷◌, ◌++◌, Some, None};
ghost use Rattle.std.specs.Prelude.{unsigned_abs, slice_index_or};
ghost use Rattle.vp_lanes.specs.Lane.{lane};
ghost use Rattle.vp_quant.specs.Short.{IsShortFactor, HasSmallProduct, HasBlock, Four, coefficients_after};
ghost use Rattle.vp_quant.specs.Short.{in_raster, after_dcs, by_turns};

use crate::magnitudes::{are_below, eight_are_below, larger, sizes};
use std::simd::prelude::*;

/// A factor, made ready once to multiply many levels in 16 bits (RFC 6386, chapter 14.1).
#[derive(Clone, Copy)]
pub struct ShortFactor {
    /// One more than the greatest magnitude of a level whose product is small enough.
    bound: u16,
    /// The factor, but at most the greatest product: with a larger one all levels are 0.
    factor: i16,
}

impl ShortFactor {
    /// A factor of any size, for products from -`most` to `most`.
    pub fn of(factor: u16, most: u16) -> ShortFactor
        requires { most ≤ 32767 }
        ensures { IsShortFactor result factor most }
    {
        ShortFactor {
            bound: most / factor.max(1) + 1,
            factor: factor.min(most) as i16,
        }
    }

    /// The products of eight levels, if each is from -`most` to `most`. No level may be -32,768.
    #[inline(always)]
    pub fn products(&self, levels: i16x8) -> Option<[i16; 8]>
        requires { (j : ℕ) → j < 8 → unsigned_abs (lane levels j) ≤ 32767 }
        ensures value { (v : List ℤ) (factor most : ℕ) → result ≡ Some v → IsShortFactor self.now factor most
            → (j : ℕ) → j < 8 → lane v j ≡ lane levels j *ℤ pos factor }
        ensures small { (v : List ℤ) (factor most : ℕ) → result ≡ Some v → IsShortFactor self.now factor most
            → (j : ℕ) → j < 8 → unsigned_abs (lane v j) ≤ most }
        ensures some { (factor most : ℕ) → IsShortFactor self.now factor most
            → ((j : ℕ) → j < 8 → HasSmallProduct (lane levels j) factor most) → result ≢ None }
    {
        if eight_are_below(sizes(levels), self.bound) {
            Some(times(levels, self.factor).to_array())
        } else {
            None
        }
    }

    /// The product of a level, if it is from -`most` to `most`. The level may not be -32,768.
    #[inline(always)]
    pub fn product(&self, level: i16) -> Option<i16>
        requires { unsigned_abs level ≤ 32767 }
        ensures value { (z : ℤ) (factor most : ℕ) → result ≡ Some z → IsShortFactor self.now factor most
            → z ≡ level *ℤ pos factor }
        ensures small { (z : ℤ) (factor most : ℕ) → result ≡ Some z → IsShortFactor self.now factor most
            → unsigned_abs z ≤ most }
        ensures some { (factor most : ℕ) → IsShortFactor self.now factor most → HasSmallProduct level factor most
            → result ≢ None }
    {
        if level.unsigned_abs() < self.bound {
            Some(level.wrapping_mul(self.factor))
        } else {
            None
        }
    }

    /// The coefficients of a block in raster order: `dc`, then the AC levels times the factor, if the product of
    /// each level is from -`most` to `most`. The levels are in zigzag order, and none is -32,768.
    #[inline(always)]
    pub fn coefficients(&self, levels: [i16; 16], dc: i16) -> Option<[i16; 16]>
        requires { (i : ℕ) → unsigned_abs (slice_index_or levels i (pos 0)) ≤ 32767 }
        ensures value { (block : List ℤ) (factor most : ℕ) → result ≡ Some block → IsShortFactor self.now factor most
            → block ≡ coefficients_after dc levels factor }
        ensures small { (block : List ℤ) (factor most : ℕ) → result ≡ Some block → IsShortFactor self.now factor most
            → unsigned_abs dc ≤ most → (i : ℕ) → unsigned_abs (slice_index_or block i (pos 0)) ≤ most }
        ensures some { (factor most : ℕ) → IsShortFactor self.now factor most
            → ((i : ℕ) → i < 16 → HasSmallProduct (slice_index_or levels i (pos 0)) factor most) → result ≢ None }
    {
        let levels = i16x16::from_array(levels);
        if are_below(sizes(levels), self.bound) {
            Some(placed(with_dc(times(levels, self.factor), dc)).to_array())
        } else {
            None
        }
    }

    /// The coefficients of two blocks, in four rows of eight numbers, those of `left` in the even lanes: their
    /// `dcs`, then their AC levels times the factor, if the product of each level is from -`most` to `most`. The
    /// levels are in zigzag order, and none is -32,768.
    #[inline(always)]
    pub fn coefficients_of_two(
        &self,
        left: [i16; 16],
        right: [i16; 16],
        dcs: [i16; 2],
    ) -> Option<(i16x8, i16x8, i16x8, i16x8)>
        requires left { (i : ℕ) → unsigned_abs (slice_index_or left i (pos 0)) ≤ 32767 }
        requires right { (i : ℕ) → unsigned_abs (slice_index_or right i (pos 0)) ≤ 32767 }
        ensures left { (v : Four) (factor most : ℕ) → result ≡ Some v → IsShortFactor self.now factor most
            → HasBlock v 0 (coefficients_after (slice_index_or dcs 0 (pos 0)) left factor) }
        ensures right { (v : Four) (factor most : ℕ) → result ≡ Some v → IsShortFactor self.now factor most
            → HasBlock v 1 (coefficients_after (slice_index_or dcs 1 (pos 0)) right factor) }
        ensures small { (v : Four) (factor most : ℕ) → result ≡ Some v → IsShortFactor self.now factor most
            → ((i : ℕ) → i < 2 → unsigned_abs (slice_index_or dcs i (pos 0)) ≤ most)
            → (r j : ℕ) → r < 4 → j < 8
            → unsigned_abs (lane (slice_index_or (v.0 ∷ v.1 ∷ v.2 ∷ v.3 ∷ []) r []) j) ≤ most }
        ensures some { (factor most : ℕ) → IsShortFactor self.now factor most
            → ((i : ℕ) → i < 16 → HasSmallProduct (slice_index_or left i (pos 0)) factor most)
            → ((i : ℕ) → i < 16 → HasSmallProduct (slice_index_or right i (pos 0)) factor most) → result ≢ None }
    {
        let (upper, lower) = alternated(left, right);
        let first_sizes = sizes(upper);
        let last_sizes = sizes(lower);
        if are_below(larger(first_sizes, last_sizes), self.bound) {
            let upper = with_dcs(times(upper, self.factor), dcs);
            let lower = times(lower, self.factor);
            Some(placed_rows(upper, lower))
        } else {
            None
        }
    }
}

/// The lanes times the factor, if the products fit in 16 bits.
fn times<const N: usize>(v: Simd<i16, N>, factor: i16) -> Simd<i16, N>
    ensures { ((j : ℕ) → j < N → unsigned_abs (lane v.entry j *ℤ factor) ≤ 32767)
        → (j : ℕ) → j < N → lane result j ≡ lane v.entry j *ℤ factor }
{
    v * Simd::splat(factor)
}

/// The numbers of two blocks by turns: those of `left` are in the even lanes.
fn alternated(left: [i16; 16], right: [i16; 16]) -> (i16x16, i16x16)
    ensures upper { result.0 ≡ by_turns left right 0 }
    ensures lower { result.1 ≡ by_turns left right 8 }
{
    i16x16::from_array(left).interleave(i16x16::from_array(right))
}

/// The lanes with another number in the first.
fn with_dc(v: i16x16, dc: i16) -> i16x16
    ensures { result ≡ after_dcs 1 (dc ∷ []) v }
{
    v.shuffle::<16>(
        i16x16::splat(dc),
        [16, 1, 2, 3, 4, 5, 6, 7, 8, 9, 10, 11, 12, 13, 14, 15],
    )
}

/// The lanes with other numbers in the first two.
fn with_dcs(v: i16x16, dcs: [i16; 2]) -> i16x16
    ensures { result ≡ after_dcs 2 dcs v }
{
    let dcs = i16x2::from_array(dcs).swizzle::<16>([
        0, 1, 0, 1, 0, 1, 0, 1, 0, 1, 0, 1, 0, 1, 0, 1,
    ]);
    v.shuffle::<16>(
        dcs,
        [16, 17, 2, 3, 4, 5, 6, 7, 8, 9, 10, 11, 12, 13, 14, 15],
    )
}

/// Moves each lane from its zigzag position to its raster index.
fn placed(v: i16x16) -> i16x16
    ensures { result ≡ in_raster (lane v) }
{
    v.swizzle::<16>([0, 1, 5, 6, 2, 4, 7, 12, 3, 8, 11, 13, 9, 10, 14, 15])
}

/// Moves each lane of two blocks that alternate from its zigzag position to its raster index; the vectors are rows.
fn placed_rows(upper: i16x16, lower: i16x16) -> (i16x8, i16x8, i16x8, i16x8)
    ensures left { HasBlock result 0 (in_raster (λ p. lane (upper ++ lower) (2 * p))) }
    ensures right { HasBlock result 1 (in_raster (λ p. lane (upper ++ lower) (2 * p + 1))) }
{
    let first = upper.shuffle::<16>(
        lower,
        [0, 1, 2, 3, 10, 11, 12, 13, 4, 5, 8, 9, 14, 15, 24, 25],
    );
    let second = upper.shuffle::<16>(
        lower,
        [6, 7, 16, 17, 22, 23, 26, 27, 18, 19, 20, 21, 28, 29, 30, 31],
    );
    (
        first.extract::<0, 8>(),
        first.extract::<8, 8>(),
        second.extract::<0, 8>(),
        second.extract::<8, 8>(),
    )
}
