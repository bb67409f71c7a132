//! Magnitudes in 16-bit lanes.

ghost use Rattle.std.specs.Prelude.{◌≡◌, ℕ, ◌<◌, ◌≤◌, true, max, unsigned_abs, slice_index};
ghost use Rattle.vp_lanes.specs.Lane.{lane};

use std::simd::prelude::*;

/// The magnitude of each lane.
pub(crate) fn sizes<const N: usize>(v: Simd<i16, N>) -> Simd<u16, N>
    requires { (j : ℕ) → j < N → unsigned_abs (lane v j) ≤ 32767 }
    ensures { (j : ℕ) → j < N → slice_index result j ≡ unsigned_abs (lane v.entry j) }
{
    v.abs().cast::<u16>()
}

/// The larger of two lanes.
pub(crate) fn larger<const N: usize>(a: Simd<u16, N>, b: Simd<u16, N>) -> Simd<u16, N>
    ensures { (j : ℕ) → j < N → slice_index result j ≡ max (slice_index a.entry j) (slice_index b.entry j) }
{
    a.simd_max(b)
}

/// Whether each of eight lanes is less than the bound.
pub(crate) fn eight_are_below(v: u16x8, bound: u16) -> bool
    ensures below { result ≡ true → (j : ℕ) → j < 8 → slice_index v j < bound }
    ensures all { ((j : ℕ) → j < 8 → slice_index v j < bound) → result ≡ true }
{
    v.simd_lt(u16x8::splat(bound)).all()
}

/// Whether each lane is less than the bound.
pub(crate) fn are_below(v: u16x16, bound: u16) -> bool
    ensures below { result ≡ true → (j : ℕ) → j < 16 → slice_index v j < bound }
    ensures all { ((j : ℕ) → j < 16 → slice_index v j < bound) → result ≡ true }
{
    eight_are_below(larger(v.extract::<0, 8>(), v.extract::<8, 8>()), bound)
}
