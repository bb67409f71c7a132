//! Rows of pixels to lines in lanes, and back. The lines of a vertical edge are transposed.

ghost use Rattle.std.specs.Prelude.{◌≡◌, ℕ, ◌+◌, ◌<◌, [], length, slice_index, slice_index_or};
ghost use Rattle.vp_loop.specs.Edges.{line_from, pixel_at};
ghost use Rattle.vp_loop.specs.Lanes.{line_of, pixels_of, middle_of};

use crate::lanes::Lines;
use std::simd::prelude::*;

/// The lines in eight rows of eight pixels, followed by those in eight others.
#[inline(always)]
pub(crate) fn transpose(first: [u8x8; 8], second: [u8x8; 8]) -> Lines
    ensures first { (j : ℕ) → j < 8 → line_of result j ≡ line_from (slice_index (slice_index_or first j [])) }
    ensures second { (j : ℕ) → j < 8 → line_of result (j + 8) ≡ line_from (slice_index (slice_index_or second j [])) }
{
    let [r0, r1, r2, r3, r4, r5, r6, r7] = first;
    let [r8, r9, r10, r11, r12, r13, r14, r15] = second;
    let a0 = r0.shuffle::<16>(r8, [0, 8, 1, 9, 2, 10, 3, 11, 4, 12, 5, 13, 6, 14, 7, 15]);
    let a1 = r1.shuffle::<16>(r9, [0, 8, 1, 9, 2, 10, 3, 11, 4, 12, 5, 13, 6, 14, 7, 15]);
    let a2 = r2.shuffle::<16>(r10, [0, 8, 1, 9, 2, 10, 3, 11, 4, 12, 5, 13, 6, 14, 7, 15]);
    let a3 = r3.shuffle::<16>(r11, [0, 8, 1, 9, 2, 10, 3, 11, 4, 12, 5, 13, 6, 14, 7, 15]);
    let a4 = r4.shuffle::<16>(r12, [0, 8, 1, 9, 2, 10, 3, 11, 4, 12, 5, 13, 6, 14, 7, 15]);
    let a5 = r5.shuffle::<16>(r13, [0, 8, 1, 9, 2, 10, 3, 11, 4, 12, 5, 13, 6, 14, 7, 15]);
    let a6 = r6.shuffle::<16>(r14, [0, 8, 1, 9, 2, 10, 3, 11, 4, 12, 5, 13, 6, 14, 7, 15]);
    let a7 = r7.shuffle::<16>(r15, [0, 8, 1, 9, 2, 10, 3, 11, 4, 12, 5, 13, 6, 14, 7, 15]);
    let (b0, e0) = a0.interleave(a4);
    let (b1, e1) = a1.interleave(a5);
    let (b2, e2) = a2.interleave(a6);
    let (b3, e3) = a3.interleave(a7);
    let (b0l, b0h) = b0.interleave(b2);
    let (b1l, b1h) = b1.interleave(b3);
    let (e0l, e0h) = e0.interleave(e2);
    let (e1l, e1h) = e1.interleave(e3);
    let (p3, p2) = b0l.interleave(b1l);
    let (p1, p0) = b0h.interleave(b1h);
    let (q0, q1) = e0l.interleave(e1l);
    let (q2, q3) = e0h.interleave(e1h);
    Lines {
        p3,
        p2,
        p1,
        p0,
        q0,
        q1,
        q2,
        q3,
    }
}

/// Transposes sixteen lines to rows of eight pixels.
#[inline(always)]
pub(crate) fn untranspose(l: Lines) -> [u8x8; 16]
    ensures len { length result ≡ 16 }
    ensures value { (j : ℕ) → j < 16 → slice_index_or result j [] ≡ pixels_of (line_of l j) }
{
    let (a0, a1) = l.p3.interleave(l.q0);
    let (b0, b1) = l.p2.interleave(l.q1);
    let (c0, c1) = l.p1.interleave(l.q2);
    let (d0, d1) = l.p0.interleave(l.q3);
    let (e0, e1) = a0.interleave(c0);
    let (e2, e3) = a1.interleave(c1);
    let (f0, f1) = b0.interleave(d0);
    let (f2, f3) = b1.interleave(d1);
    let (v0, v1) = e0.interleave(f0);
    let (v2, v3) = e1.interleave(f1);
    let (v4, v5) = e2.interleave(f2);
    let (v6, v7) = e3.interleave(f3);
    [
        v0.extract::<0, 8>(),
        v0.extract::<8, 8>(),
        v1.extract::<0, 8>(),
        v1.extract::<8, 8>(),
        v2.extract::<0, 8>(),
        v2.extract::<8, 8>(),
        v3.extract::<0, 8>(),
        v3.extract::<8, 8>(),
        v4.extract::<0, 8>(),
        v4.extract::<8, 8>(),
        v5.extract::<0, 8>(),
        v5.extract::<8, 8>(),
        v6.extract::<0, 8>(),
        v6.extract::<8, 8>(),
        v7.extract::<0, 8>(),
        v7.extract::<8, 8>(),
    ]
}

/// Transposes the middle four pixels of sixteen lines to rows.
#[tactic(auto, using(crate::proofs::TransposeLemmas::joined_four_is))]
pub(crate) fn untranspose_middle(l: Lines) -> [u8x4; 16]
    ensures len { length result ≡ 16 }
    ensures value { (j : ℕ) → j < 16 → slice_index_or result j [] ≡ middle_of (line_of l j) }
{
    let (a0, a1) = l.p1.interleave(l.q0);
    let (b0, b1) = l.p0.interleave(l.q1);
    let (v0, v1) = a0.interleave(b0);
    let (v2, v3) = a1.interleave(b1);
    [
        v0.extract::<0, 4>(),
        v0.extract::<4, 4>(),
        v0.extract::<8, 4>(),
        v0.extract::<12, 4>(),
        v1.extract::<0, 4>(),
        v1.extract::<4, 4>(),
        v1.extract::<8, 4>(),
        v1.extract::<12, 4>(),
        v2.extract::<0, 4>(),
        v2.extract::<4, 4>(),
        v2.extract::<8, 4>(),
        v2.extract::<12, 4>(),
        v3.extract::<0, 4>(),
        v3.extract::<4, 4>(),
        v3.extract::<8, 4>(),
        v3.extract::<12, 4>(),
    ]
}

/// The first eight lanes.
fn first_half(v: u8x16) -> u8x8
    ensures { (c : ℕ) → c < 8 → slice_index result c ≡ slice_index v c }
{
    v.extract::<0, 8>()
}

/// The last eight lanes.
fn second_half(v: u8x16) -> u8x8
    ensures { (c : ℕ) → c < 8 → slice_index result c ≡ slice_index v (c + 8) }
{
    v.extract::<8, 8>()
}

/// The eight rows of the first eight lines.
pub(crate) fn first_halves(l: Lines) -> [u8x8; 8]
    ensures len { length result ≡ 8 }
    ensures value { (c : ℕ) → c < 8 → (r : ℕ) → r < 8 → slice_index (slice_index_or result r []) c
        ≡ pixel_at (line_of l c) r }
{
    [
        first_half(l.p3),
        first_half(l.p2),
        first_half(l.p1),
        first_half(l.p0),
        first_half(l.q0),
        first_half(l.q1),
        first_half(l.q2),
        first_half(l.q3),
    ]
}

/// The eight rows of the last eight lines.
pub(crate) fn second_halves(l: Lines) -> [u8x8; 8]
    ensures len { length result ≡ 8 }
    ensures value { (c : ℕ) → c < 8 → (r : ℕ) → r < 8 → slice_index (slice_index_or result r []) c
        ≡ pixel_at (line_of l (c + 8)) r }
{
    [
        second_half(l.p3),
        second_half(l.p2),
        second_half(l.p1),
        second_half(l.p0),
        second_half(l.q0),
        second_half(l.q1),
        second_half(l.q2),
        second_half(l.q3),
    ]
}

/// Eight lanes, followed by eight others.
#[inline(always)]
fn concat_halves(first: u8x8, second: u8x8) -> u8x16
    ensures first { (c : ℕ) → c < 8 → slice_index result c ≡ slice_index first c }
    ensures second { (c : ℕ) → c < 8 → slice_index result (c + 8) ≡ slice_index second c }
{
    first.shuffle::<16>(
        second,
        [0, 1, 2, 3, 4, 5, 6, 7, 8, 9, 10, 11, 12, 13, 14, 15],
    )
}

/// The lines down eight rows of eight pixels, followed by those down eight others.
#[inline(always)]
pub(crate) fn join(first: [u8x8; 8], second: [u8x8; 8]) -> Lines
    ensures first { (j : ℕ) → j < 8 → line_of result j ≡ line_from (λ r. slice_index (slice_index_or first r []) j) }
    ensures second { (j : ℕ) → j < 8
        → line_of result (j + 8) ≡ line_from (λ r. slice_index (slice_index_or second r []) j) }
{
    let [u0, u1, u2, u3, u4, u5, u6, u7] = first;
    let [v0, v1, v2, v3, v4, v5, v6, v7] = second;
    Lines {
        p3: concat_halves(u0, v0),
        p2: concat_halves(u1, v1),
        p1: concat_halves(u2, v2),
        p0: concat_halves(u3, v3),
        q0: concat_halves(u4, v4),
        q1: concat_halves(u5, v5),
        q2: concat_halves(u6, v6),
        q3: concat_halves(u7, v7),
    }
}
