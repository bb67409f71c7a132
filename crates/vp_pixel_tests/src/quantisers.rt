//! Tests of vp_quant: factors by quantiser indices, and dequantised and quantised levels.

use crate::check::equal;
use crate::transforms::rows_of;
use std::simd::prelude::*;
use vp_bool::BoolDecoder;
use vp_head::{Header, QuantiserIndices, Saved, Tag};
use vp_quant::{Factors, ShortFactor, dequant, quantise, quantise_block, segment_index};

/// The first and the last entries of the tables in RFC 6386, chapter 14.1, and the clamped factors.
#[test]
fn factors_of_both_ends(rt: HostRuntime) {
    let same = QuantiserIndices {
        y_ac: 0,
        y_dc: 0,
        y2_dc: 0,
        y2_ac: 0,
        uv_dc: 0,
        uv_ac: 0,
    };
    let least = Factors {
        y_dc: 4,
        y_ac: 4,
        y2_dc: 8,
        y2_ac: 8,
        uv_dc: 4,
        uv_ac: 4,
    };
    let greatest = Factors {
        y_dc: 157,
        y_ac: 284,
        y2_dc: 314,
        y2_ac: 440,
        uv_dc: 132,
        uv_ac: 284,
    };
    let mixed = QuantiserIndices {
        y_dc: 15,
        y2_dc: -15,
        y2_ac: -7,
        uv_dc: 8,
        uv_ac: 15,
        ..same
    };
    let near_the_end = Factors {
        y_dc: 157,
        y_ac: 259,
        y2_dc: 220,
        y2_ac: 348,
        uv_dc: 132,
        uv_ac: 284,
    };
    let found = [
        Factors::of(0, &same),
        Factors::of(127, &same),
        Factors::of(122, &mixed),
    ];
    equal!(&rt; found, [least, greatest, near_the_end]);
}

/// Returns the luma DC factor for the frame's index, the segment's delta, and the frame's DC delta.
fn first_factor(y_ac: u8, of_segment: i8, y_dc: i8) -> u16 {
    let tag = Tag {
        version: 0,
        show: true,
        first_partition: 0,
        key: None,
    };
    let (mut header, _) = Header::read(&Saved::defaults(), &tag, &mut BoolDecoder::new(&[]));
    header.quantiser.y_ac = y_ac;
    header.quantiser.y_dc = y_dc;
    header.segmentation.enabled = true;
    header.segmentation.values.quantisers[0] = of_segment;
    Factors::of(segment_index(&header, 0), &header.quantiser).y_dc
}

/// A segment's index is clamped to 0..127 before the frame's delta is added: the results are 112 and 15, not 125 and 0.
#[test]
fn indices_are_held(rt: HostRuntime) {
    equal!(&rt; [first_factor(120, 20, -15), first_factor(5, -20, 15)], [122, 17]);
}

/// The zigzag order of RFC 6386, chapter 13: positions 2 and 3 are places 4 and 8.
#[test]
fn levels_at_their_places(rt: HostRuntime) {
    let mut levels = [0i16; 16];
    levels[0] = -3;
    levels[2] = 5;
    levels[3] = -7;
    let mut wanted = [0i64; 16];
    wanted[0] = -30;
    wanted[4] = 100;
    wanted[8] = -140;
    equal!(&rt; dequant(&levels, 10, 20), wanted);
}

#[test]
fn quantised_numbers(rt: HostRuntime) {
    equal!(&rt; [quantise(576, 4), quantise(-7, 4), quantise(1 << 40, 4)], [144, -2, 2047]);
}

/// Halves are rounded away from 0. The last place in raster order is the last in zigzag order too; place 4 is third.
#[test]
fn quantised_blocks(rt: HostRuntime) {
    let mut block = [0i16; 16];
    block[0] = 576;
    block[4] = -7;
    block[15] = 30;
    let mut wanted = [0i16; 16];
    wanted[0] = 144;
    wanted[2] = -1;
    wanted[15] = 5;
    equal!(&rt; quantise_block(&block, 4, 6), wanted);
}

/// Products in 16 bits equal those in 64 bits up to 2200, and are refused beyond.
#[test]
fn short_coefficients(rt: HostRuntime) {
    let mut levels = [0i16; 16];
    levels[0] = -3;
    levels[2] = 5;
    levels[3] = -7;
    levels[15] = 11;
    let mut wanted = [0i16; 16];
    wanted[0] = -30;
    wanted[4] = 100;
    wanted[8] = -140;
    wanted[15] = 220;
    let found = [
        ShortFactor::of(20, 2200).coefficients(levels, -30),
        ShortFactor::of(1, 2200).coefficients([-2200; 16], -2200),
        ShortFactor::of(1, 2200).coefficients([2201; 16], 0),
        ShortFactor::of(276, 2200).coefficients(
            [0, 0, 0, 0, 0, 0, 0, 8, 0, 0, 0, 0, 0, 0, 0, 0],
            0,
        ),
    ];
    equal!(&rt; found, [Some(wanted), Some([-2200; 16]), None, None]);
}

/// Products of one level and of eight.
#[test]
fn short_products(rt: HostRuntime) {
    let tens = ShortFactor::of(10, 2200);
    let found = [tens.product(-3), ShortFactor::of(276, 2200).product(8)];
    equal!(&rt; found, [Some(-30), None]);
    let found = [
        tens.products(i16x8::from_array([-3, 5, -7, 11, 0, 0, 220, -220])),
        tens.products(i16x8::from_array([0, 0, 0, 0, 0, 0, 0, 221])),
    ];
    equal!(&rt; found, [Some([-30, 50, -70, 110, 0, 0, 2200, -2200]), None]);
}

/// Returns the rows as arrays, or zeros if there are none.
fn rows_or_zeros(rows: Option<(i16x8, i16x8, i16x8, i16x8)>) -> [[i16; 8]; 4] {
    match rows {
        Some(rows) => rows_of(rows),
        None => [[0; 8]; 4],
    }
}

/// Two blocks, of which the first is in the even lanes. A large level of either is refused.
#[test]
fn coefficients_of_two_blocks(rt: HostRuntime) {
    let left = [-3, 0, 5, -7, 0, 0, 0, 0, 0, 0, 0, 0, 0, 0, 0, 11];
    let right = [0, 1, 0, 0, 0, 0, 0, -2, 0, 0, 0, 0, 0, 0, 3, 0];
    let large = [0, 0, 0, 0, 0, 0, 0, 0, 0, 0, 0, 0, 0, 0, 0, 111];
    let twenties = ShortFactor::of(20, 2200);
    let found = rows_or_zeros(twenties.coefficients_of_two(left, right, [-30, 9]));
    let wanted = [
        [-30, 9, 0, 20, 0, 0, 0, 0],
        [100, 0, 0, 0, 0, -40, 0, 0],
        [-140, 0, 0, 0, 0, 0, 0, 0],
        [0, 0, 0, 0, 0, 60, 220, 0],
    ];
    equal!(&rt; found, wanted);
    let refused = [
        twenties.coefficients_of_two(large, right, [0, 0]).is_none(),
        twenties.coefficients_of_two(left, large, [0, 0]).is_none(),
    ];
    equal!(&rt; refused, [true, true]);
}
