//! Tests of vp_scale: pictures made smaller. The expected pixels are numpy's: each plane padded by `pad(mode="edge")`,
//! the means of its squares, and `floor(mean + 0.5)`.

use crate::check::equal;
use std::alloc::{AllocError, Global};
use std::process::Abort;
use vp_base::{Dim, Limits};
use vp_scale::{Scale, scaled};

// A picture of 11 by 5 pixels, by chance, with many black and white ones.
const PIXELS: [u8; 91] = [
    255, 0, 0, 255, 0, 255, 255, 0, 0, 255, 0, 133, 0, 0, 0, 102, 224, 0, 108, 0, 48, 0, 255, 227,
    255, 255, 0, 255, 255, 0, 255, 20, 255, 255, 0, 241, 0, 152, 0, 255, 212, 0, 0, 13, 0, 45, 0,
    255, 0, 255, 0, 0, 0, 0, 194, 255, 137, 255, 255, 255, 0, 9, 0, 0, 0, 46, 55, 104, 255, 0, 255,
    255, 0, 255, 0, 255, 255, 188, 244, 201, 255, 193, 0, 140, 0, 255, 0, 29, 11, 61, 255,
];

// Planes of 6 by 3, 3 by 2 and 3 by 2 pixels.
const HALF: [u8; 30] = [
    97, 64, 145, 91, 76, 0, 184, 188, 102, 181, 69, 134, 23, 128, 128, 0, 0, 194, 100, 128, 89,
    180, 128, 128, 178, 176, 143, 128, 20, 158,
];

// Planes of 3 by 2, 2 by 1 and 2 by 1 pixels.
const QUARTER: [u8; 10] = [133, 130, 70, 75, 64, 97, 134, 61, 125, 170];

// Planes of 2 by 1, 1 by 1 and 1 by 1 pixels.
const EIGHTH: [u8; 4] = [100, 107, 103, 144];

/// The picture, made smaller, has this size and these pixels.
fn check_smaller(rt: &impl Abort, alloc: Global, scale: Scale, size: (u16, u16), wanted: &[u8]) {
    let dim = Dim::new(11, 5, &Limits::usual()).expect(rt, "a size");
    let picture = scaled(alloc, dim, &PIXELS, scale).expect(rt, "memory");
    let pixels = picture.crop_i420(alloc).expect(rt, "memory");
    let found = (picture.dim().w, picture.dim().h);
    equal!(rt; (found, pixels.as_slice()), (size, wanted));
}

#[test]
fn planes_are_scaled_alike(rt: HostRuntime) {
    let alloc = rt.alloc();
    let rt = &rt;
    check_smaller(rt, alloc, Scale::Half, (6, 3), &HALF);
    check_smaller(rt, alloc, Scale::Quarter, (3, 2), &QUARTER)
}

#[test]
fn edges_are_repeated(rt: HostRuntime) {
    let alloc = rt.alloc();
    let rt = &rt;
    check_smaller(rt, alloc, Scale::Eighth, (2, 1), &EIGHTH);
    check_smaller(rt, alloc, Scale::Full, (11, 5), &PIXELS)
}

/// Appends a plane whose pixels are `step` more from column to column and from row to row.
fn append_slope(
    out: &mut Vec<u8>,
    width: u8,
    height: u8,
    step: u8,
    first: u8,
) -> Result<(), AllocError> {
    for y in 0..height {
        for x in 0..width {
            let sum = x.wrapping_add(y).wrapping_mul(step);
            out.push(sum.wrapping_add(first))?;
        }
    }
    Ok(())
}

/// Three planes that rise alike, of a picture of 144 by 16 pixels, made smaller by `step`: the mean of a square is half
/// way between its first pixel and its last one.
fn slopes(rt: &impl Abort, alloc: Global, step: u8) -> Vec<u8> {
    let mut out = Vec::new(alloc);
    let half = 72 / step.max(1);
    let first = step.wrapping_sub(1);
    let luma = append_slope(&mut out, 144 / step.max(1), 16 / step.max(1), step, first);
    luma.expect(rt, "memory");
    for _ in 0..2 {
        let chroma = append_slope(&mut out, half, 8 / step.max(1), step, first);
        chroma.expect(rt, "memory");
    }
    out
}

/// The slopes of a picture of 144 by 16 pixels, made smaller, are those that rise by `step`.
fn check_slopes(rt: &impl Abort, alloc: Global, scale: Scale, step: u8) {
    let dim = Dim::new(144, 16, &Limits::usual()).expect(rt, "a size");
    let pixels = slopes(rt, alloc, 1);
    if pixels.len() != 3456 {
        panic!(rt; "a picture of another size");
    }
    let picture = scaled(alloc, dim, &pixels, scale).expect(rt, "memory");
    let found = picture.crop_i420(alloc).expect(rt, "memory");
    equal!(rt; (step, found), (step, slopes(rt, alloc, step)));
}

// Each row of these planes has whole groups of eight squares, and some more.
#[test]
fn squares_of_wide_planes(rt: HostRuntime) {
    let alloc = rt.alloc();
    let rt = &rt;
    check_slopes(rt, alloc, Scale::Half, 2);
    check_slopes(rt, alloc, Scale::Quarter, 4);
    check_slopes(rt, alloc, Scale::Eighth, 8);
}

#[test]
fn sizes_are_rounded_up(rt: HostRuntime) {
    let rt = &rt;
    let dim = Dim::new(17, 1, &Limits::usual()).expect(rt, "a size");
    let size = Scale::Eighth.size(dim);
    equal!(rt; (size.w, size.h), (3, 1));
}
