//! Tests of vp_transform: worked blocks, and direct code for the formulas of RFC 6386, chapter 14.

ghost use Rattle.std.specs.Prelude.{◌*◌, ◌^◌, ◌≤◌, unsigned_abs};
ghost use Rattle.vp_transform.specs.Fits.{EachWithin, IdctFits, IwhtFits};

use crate::check::equal;
use std::process::Abort;
use std::simd::prelude::*;
use vp_transform::{
    cut, differences, fdct, fdct_short, fwht, fwht_short, idct, idct_cut, idct_interleaved,
    idct_of_dc, idct_short, iwht, iwht_of_dc, iwht_short,
};

/// The expected numbers of the second block are those of RFC 6386's own program (chapters 14.3 and 14.4).
#[test]
fn inverse_examples(rt: HostRuntime) {
    let mut first = [0; 16];
    first[0] = 8;
    let of_first = (iwht(&first), idct(&first), idct_of_dc(8), iwht_of_dc(12));
    let block = [
        -700, 123, -45, 6, 77, -888, 99, -10, 11, 12, -1313, 14, -15, 160, 17, -1818,
    ];
    let wanted = [
        [
            -447, 174, -18, -7, 146, -669, 181, 16, 28, 192, -694, 88, -18, 5, 174, -551,
        ],
        [
            -534, 229, -75, 66, 199, -588, 96, -17, -34, 123, -621, 130, 61, -33, 213, -617,
        ],
    ];
    let found = (of_first, [idct(&block), iwht(&block)]);
    equal!(&rt; found, (([1; 16], [1; 16], 1, 1), wanted));
}

/// The inverse transforms of that block of 16-bit numbers.
#[test]
fn short_example(rt: HostRuntime) {
    let block = [
        -700, 123, -45, 6, 77, -888, 99, -10, 11, 12, -1313, 14, -15, 160, 17, -1818,
    ];
    let wanted = (
        [
            -447, 174, -18, -7, 146, -669, 181, 16, 28, 192, -694, 88, -18, 5, 174, -551,
        ],
        [
            -534, 229, -75, 66, 199, -588, 96, -17, -34, 123, -621, 130, 61, -33, 213, -617,
        ],
    );
    equal!(&rt; (idct_short(&block), iwht_short(&block)), wanted);
}

/// Returns the rows as arrays.
pub(crate) fn rows_of((top, upper, lower, bottom): (i16x8, i16x8, i16x8, i16x8)) -> [[i16; 8]; 4] {
    [
        top.to_array(),
        upper.to_array(),
        lower.to_array(),
        bottom.to_array(),
    ]
}

/// The inverse transform of that block and the first one as a pair, in either order. Their numbers alternate.
#[test]
fn pair_example(rt: HostRuntime) {
    let rt = &rt;
    let found = rows_of(idct_interleaved(
        i16x8::from_array([-700, 8, 123, 0, -45, 0, 6, 0]),
        i16x8::from_array([77, 0, -888, 0, 99, 0, -10, 0]),
        i16x8::from_array([11, 0, 12, 0, -1313, 0, 14, 0]),
        i16x8::from_array([-15, 0, 160, 0, 17, 0, -1818, 0]),
    ));
    let wanted = [
        [-447, 174, -18, -7, 1, 1, 1, 1],
        [146, -669, 181, 16, 1, 1, 1, 1],
        [28, 192, -694, 88, 1, 1, 1, 1],
        [-18, 5, 174, -551, 1, 1, 1, 1],
    ];
    equal!(rt; found, wanted);
    let found = rows_of(idct_interleaved(
        i16x8::from_array([8, -700, 0, 123, 0, -45, 0, 6]),
        i16x8::from_array([0, 77, 0, -888, 0, 99, 0, -10]),
        i16x8::from_array([0, 11, 0, 12, 0, -1313, 0, 14]),
        i16x8::from_array([0, -15, 0, 160, 0, 17, 0, -1818]),
    ));
    let wanted = [
        [1, 1, 1, 1, -447, 174, -18, -7],
        [1, 1, 1, 1, 146, -669, 181, 16],
        [1, 1, 1, 1, 28, 192, -694, 88],
        [1, 1, 1, 1, -18, 5, 174, -551],
    ];
    equal!(rt; found, wanted);
}

/// Two blocks of extreme numbers, and one of pseudo-random numbers. The expected results come from the formulas of RFC
/// 6386, chapter 14.4, computed by an independent script.
#[test]
fn scattered_pairs(rt: HostRuntime) {
    let rt = &rt;
    let found = rows_of(idct_interleaved(
        i16x8::from_array([2200, -2200, 2200, -2200, 2200, 2200, 2200, 2200]),
        i16x8::from_array([2200, -2200, 2200, -2200, 2200, 2200, 2200, 2200]),
        i16x8::from_array([2200, 2200, 2200, 2200, 2200, -2200, 2200, -2200]),
        i16x8::from_array([2200, -2200, 2200, 2200, 2200, -2200, 2200, 2200]),
    ));
    let wanted = [
        [4071, -810, 810, 161, -298, -1496, 59, -297],
        [-810, 161, -161, -32, -480, -2414, -381, 1918],
        [810, -161, 161, 32, -362, -1819, 214, -1075],
        [162, -32, 32, 7, 298, 1496, -59, 298],
    ];
    equal!(rt; found, wanted);
    let found = rows_of(idct_interleaved(
        i16x8::from_array([-108, 2200, 737, 2200, 2142, 2200, -1963, 2200]),
        i16x8::from_array([1614, 2200, -160, 2200, -1776, 2200, -916, 2200]),
        i16x8::from_array([-1273, 2200, 845, 2200, 1642, 2200, -181, 2200]),
        i16x8::from_array([919, 2200, -1365, 2200, -158, 2200, -2093, 2200]),
    ));
    let wanted = [
        [126, 754, -793, 525, 4071, -810, 810, 161],
        [363, 169, 104, -217, -810, 161, -161, -32],
        [-224, 564, -505, 910, 810, -161, 161, 32],
        [701, -1131, -1413, -150, 162, -32, 32, 7],
    ];
    equal!(rt; found, wanted);
}

/// The expected numbers of the second block come from the formulas, computed by an independent script.
#[test]
fn forward_examples(rt: HostRuntime) {
    let mut even = [0; 16];
    even[0] = 576;
    let block = [
        -700, 123, -45, 6, 77, -888, 99, -10, 11, 12, -1313, 14, -15, 160, 17, -1818,
    ];
    let wanted = [
        even,
        [
            -2135, 947, -300, -104, 829, -2440, 682, -78, -137, 654, -2482, 292, -80, -143, 642,
            -2382,
        ],
        [
            -2135, 915, -300, 266, 797, -2353, 384, -66, -137, 493, -2482, 520, 243, -131, 854,
            -2468,
        ],
    ];
    equal!(&rt; [fdct(&[72; 16]), fdct(&block), fwht(&block)], wanted);
}

/// These rows in 16-bit lanes.
#[test]
fn short_forward_examples(rt: HostRuntime) {
    let mut even = [0i16; 16];
    even[0] = 576;
    let block = [
        -700, 123, -45, 6, 77, -888, 99, -10, 11, 12, -1313, 14, -15, 160, 17, -1818,
    ];
    let wanted = [
        -2135, 915, -300, 266, 797, -2353, 384, -66, -137, 493, -2482, 520, 243, -131, 854, -2468,
    ];
    let differing = differences(&[200; 16], &[128; 16]);
    let found = (differing, fdct_short(&[72; 16]), fwht_short(&block));
    equal!(&rt; found, ([72; 16], even, wanted));
}

/// Multiplies by sqrt(2) sin(pi / 8), in the integer form of RFC 6386, chapter 14.4.
fn sine(x: i64) -> i64 {
    x.wrapping_mul(35468) >> 16
}

/// Multiplies by sqrt(2) cos(pi / 8), in the integer form of RFC 6386, chapter 14.4.
fn cosine(x: i64) -> i64 {
    x.wrapping_add(x.wrapping_mul(20091) >> 16)
}

/// One line of the inverse DCT.
fn cosine_line([a, b, c, d]: [i64; 4]) -> [i64; 4] {
    let [even, odd] = [a.wrapping_add(c), a.wrapping_sub(c)];
    let inner = sine(b).wrapping_sub(cosine(d));
    let outer = cosine(b).wrapping_add(sine(d));
    [
        even.wrapping_add(outer),
        odd.wrapping_add(inner),
        odd.wrapping_sub(inner),
        even.wrapping_sub(outer),
    ]
}

/// One line of the inverse Walsh-Hadamard transform (RFC 6386, chapter 14.3).
fn hadamard_line([a, b, c, d]: [i64; 4]) -> [i64; 4] {
    let [outer, inner] = [a.wrapping_add(d), b.wrapping_add(c)];
    let [apart, beside] = [a.wrapping_sub(d), b.wrapping_sub(c)];
    [
        outer.wrapping_add(inner),
        beside.wrapping_add(apart),
        outer.wrapping_sub(inner),
        apart.wrapping_sub(beside),
    ]
}

/// Returns four numbers of a block; `apart` is the distance from one to the next.
fn line_of(block: &[i64; 16], first: usize, apart: usize) -> [i64; 4] {
    let mut four = [0; 4];
    for k in 0..4 {
        four[k] = block[first.wrapping_add(apart.wrapping_mul(k)) % 16];
    }
    four
}

/// Returns the block with those four numbers replaced.
fn with_line(block: &[i64; 16], first: usize, apart: usize, four: [i64; 4]) -> [i64; 16] {
    let mut block = *block;
    for k in 0..4 {
        block[first.wrapping_add(apart.wrapping_mul(k)) % 16] = four[k];
    }
    block
}

/// Adds `half` to each number, and divides by 8.
fn eighths(block: &[i64; 16], half: i64) -> [i64; 16] {
    let mut rounded = [0; 16];
    for i in 0..16 {
        rounded[i] = block[i].wrapping_add(half) >> 3;
    }
    rounded
}

/// The inverse DCT as in the RFC's program: columns, then rows.
fn plain_idct(block: &[i64; 16]) -> [i64; 16] {
    let mut block = *block;
    for (first, apart) in LINES {
        let line = cosine_line(line_of(&block, first, apart));
        block = with_line(&block, first, apart, line);
    }
    eighths(&block, 4)
}

/// The inverse Walsh-Hadamard transform as in the RFC's program.
fn plain_iwht(block: &[i64; 16]) -> [i64; 16] {
    let mut block = *block;
    for (first, apart) in LINES {
        let line = hadamard_line(line_of(&block, first, apart));
        block = with_line(&block, first, apart, line);
    }
    eighths(&block, 3)
}

/// The start of each line, and the distance between its numbers: four columns, then four rows.
const LINES: [(usize, usize); 8] = [
    (0, 4),
    (1, 4),
    (2, 4),
    (3, 4),
    (0, 1),
    (4, 1),
    (8, 1),
    (12, 1),
];

/// Returns the numbers of a block, clamped to 16 bits.
fn cut_block(block: &[i64; 16]) -> [i16; 16] {
    let mut numbers = [0; 16];
    for i in 0..16 {
        numbers[i] = cut(block[i]);
    }
    numbers
}

/// Fails the test if `idct` differs from the direct formula.
fn check_idct(rt: &impl Abort, block: &[i64; 16])
    requires { IdctFits block.now }
{
    equal!(rt; (block, idct(block)), (block, plain_idct(block)));
}

/// Numbers at the bounds of 16-bit arithmetic and one beyond, in the first and in the last place, and the largest of a
/// stream.
#[test]
fn narrow_and_wide_blocks(rt: HostRuntime) {
    let rt = &rt;
    check_idct(rt, &[-2114 * 157; 16]);
    let mut block = [
        8191, -8192, 8191, 8191, -8192, -8192, 8191, -8192, -8192, 8191, -8192, 8191, 8191, 8191,
        -8192, -8192,
    ];
    check_idct(rt, &block);
    block[15] = -8193;
    check_idct(rt, &block);
    block[15] = 8192;
    block[0] = 2114 * 157;
    check_idct(rt, &block);
}

/// Fails the test if `idct_cut` differs from the direct formula, clamped to 16 bits.
fn check_idct_cut(rt: &impl Abort, block: &[i64; 16])
    requires { IdctFits block.now }
{
    equal!(rt; (block, idct_cut(block)), (block, cut_block(&plain_idct(block))));
}

/// Numbers whose transform is clamped, numbers at the bounds of 16-bit arithmetic, and one beyond.
#[test]
fn cut_blocks(rt: HostRuntime) {
    let rt = &rt;
    equal!(rt; [cut(-32769), cut(32768)], [-32768, 32767]);
    check_idct_cut(rt, &[-2114 * 157; 16]);
    let mut block = [
        4095, -4096, 4095, 4095, -4096, -4096, 4095, -4096, -4096, 4095, -4096, 4095, 4095, 4095,
        -4096, -4096,
    ];
    check_idct_cut(rt, &block);
    block[15] = 4096;
    check_idct_cut(rt, &block);
    block[15] = -4097;
    check_idct_cut(rt, &block);
}

/// Fails the test if `iwht` differs from the direct formula.
fn check_iwht(rt: &impl Abort, block: &[i64; 16])
    requires { IwhtFits block.now }
{
    equal!(rt; (block, iwht(block)), (block, plain_iwht(block)));
}

/// Numbers at the bounds of the arithmetic of `iwht` and one beyond.
#[test]
fn narrow_and_wide_hadamard_blocks(rt: HostRuntime) {
    let rt = &rt;
    check_iwht(rt, &[-2114 * 157; 16]);
    let mut block = [
        67108863, -67108864, 67108863, 67108863, -67108864, -67108864, 67108863, -67108864,
        -67108864, 67108863, -67108864, 67108863, 67108863, 67108863, -67108864, -67108864,
    ];
    check_iwht(rt, &block);
    block[15] = -67108865;
    check_iwht(rt, &block);
    block[15] = 67108864;
    block[0] = 1 << 40;
    check_iwht(rt, &block);
}

/// Returns a pseudo-random number.
fn scattered(seed: u64) -> i64
    ensures { unsigned_abs result ≤ 2 ^ 14 }
{
    (seed.wrapping_mul(6364136223846793005) >> 49) as i64 - 16384
}

/// Returns sixteen pseudo-random numbers.
fn scattered_block(seed: u64) -> [i64; 16]
    ensures { EachWithin (2 ^ 14) result }
{
    let mut block = [0; 16];
    for i in 0..16 {
        block[i] = scattered(seed.wrapping_mul(16).wrapping_add(i as u64));
    }
    block
}

/// Both transforms equal their direct formulas, for numbers within the bounds of 16-bit arithmetic and beyond.
#[test]
fn scattered_blocks(rt: HostRuntime) {
    let rt = &rt;
    for seed in 1..50 {
        let block = scattered_block(seed);
        check_idct(rt, &block);
        check_idct_cut(rt, &block);
        check_iwht(rt, &block);
    }
}
