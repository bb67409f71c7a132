//! Eight sums and eight means at once, in lanes.

ghost use Rattle.std.specs.Prelude.{◌≡◌, ◌⊎◌, ℕ, ◌+◌, ◌*◌, ◌/◌, ◌^◌, ◌<◌, ◌≤◌, length, slice_index};

use std::simd::prelude::*;

/// Loads eight bytes from index `at` on.
#[inline(always)]
pub(crate) fn load_bytes(s: &[u8], at: usize) -> u16x8
    requires { at + 8 ≤ length s.now }
    ensures value { (j : ℕ) → j < 8 → slice_index result j ≡ slice_index s.now (at + j) }
    ensures bytes { (j : ℕ) → j < 8 → slice_index result j ≤ 255 }
{
    u8x8::from_slice(&s[at..]).cast::<u16>()
}

/// The sum, lane by lane.
#[inline(always)]
pub(crate) fn plus(a: u16x8, b: u16x8) -> u16x8
    requires { (j : ℕ) → j < 8 → slice_index a j + slice_index b j < 65536 }
    ensures { (j : ℕ) → j < 8 → slice_index result j ≡ slice_index a j + slice_index b j }
{
    a + b
}

/// The first lane of each pair of `a`, then those of `b`.
#[inline(always)]
fn first_lanes(a: u16x8, b: u16x8) -> u16x8
    ensures front { (j : ℕ) → j < 4 → slice_index result j ≡ slice_index a (2 * j) }
    ensures back { (j : ℕ) → j < 4 → slice_index result (4 + j) ≡ slice_index b (2 * j) }
{
    a.shuffle::<8>(b, [0, 2, 4, 6, 8, 10, 12, 14])
}

/// The second lane of each pair of `a`, then those of `b`.
#[inline(always)]
fn second_lanes(a: u16x8, b: u16x8) -> u16x8
    ensures front { (j : ℕ) → j < 4 → slice_index result j ≡ slice_index a (2 * j + 1) }
    ensures back { (j : ℕ) → j < 4 → slice_index result (4 + j) ≡ slice_index b (2 * j + 1) }
{
    a.shuffle::<8>(b, [1, 3, 5, 7, 9, 11, 13, 15])
}

/// The sums of the pairs of lanes of `a`, then of `b`.
#[inline(always)]
pub(crate) fn pair_sums(a: u16x8, b: u16x8) -> u16x8
    requires small { (j : ℕ) → j < 8 → slice_index a j < 32768 }
    requires small_too { (j : ℕ) → j < 8 → slice_index b j < 32768 }
    ensures front { (j : ℕ) → j < 4 → slice_index result j ≡ slice_index a (2 * j) + slice_index a (2 * j + 1) }
    ensures back { (j : ℕ) → j < 4
        → slice_index result (4 + j) ≡ slice_index b (2 * j) + slice_index b (2 * j + 1) }
{
    plus(first_lanes(a, b), second_lanes(a, b))
}

/// The means of `2 * half` numbers, a power of two, with these sums, rounded to the nearest, a half up.
#[inline(always)]
pub(crate) fn rounded_means(sums: u16x8, half: u16, shift: u16) -> u8x8
    requires count { 2 * half ≡ 2 ^ shift }
    requires shift { (shift ≡ 2) ⊎ (shift ≡ 4) ⊎ (shift ≡ 6) }
    requires bytes { (j : ℕ) → j < 8 → slice_index sums j ≤ 255 * (2 * half) }
    ensures long { length result ≡ 8 }
    ensures value { (j : ℕ) → j < 8 → slice_index result j ≡ (slice_index sums j + half) / (2 * half) }
{
    (plus(sums, u16x8::splat(half)) >> u16x8::splat(shift)).cast::<u8>()
}
