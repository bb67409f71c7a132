//! Tests of the encoder's source: its padding by the nearest shown pixels, and an error over shown pixels only.

use crate::check::equal;
use crate::worked_rows::{encoded, settings};
use std::alloc::Global;
use std::process::Abort;
use vp_base::{Dim, Limits, Picture};
use vp_encode::Encoded;

/// Sets a pixel, if it exists.
fn put(picture: &mut Picture, k: usize, x: usize, y: usize, value: u8) {
    if k < 3 && x < picture.plane(k).width() && y < picture.plane(k).height() {
        picture.set(k, x, y, value);
    }
}

/// Returns a pixel, if it exists.
fn pixel(picture: &Picture, k: usize, x: usize, y: usize) -> Option<u8> {
    if k < 3 && x < picture.plane(k).width() && y < picture.plane(k).height() {
        return Some(picture.plane(k).get(x, y));
    }
    None
}

/// Returns the luma of the last shown column, of one after it, and of the last corner.
fn first_luma(picture: &Picture) -> [Option<u8>; 3] {
    [
        pixel(picture, 0, 16, 0),
        pixel(picture, 0, 20, 0),
        pixel(picture, 0, 31, 15),
    ]
}

/// Returns luma below the shown pixels, in two columns; U in its last column and after it; and the last corner of V.
fn other_pixels(picture: &Picture) -> [Option<u8>; 5] {
    [
        pixel(picture, 0, 3, 7),
        pixel(picture, 0, 15, 15),
        pixel(picture, 1, 15, 7),
        pixel(picture, 1, 7, 7),
        pixel(picture, 2, 15, 7),
    ]
}

/// Returns a picture of 17 by 1 pixels with other values in the padding.
fn narrow(rt: &impl Abort, alloc: Global) -> Picture {
    let dim = Dim::new(17, 1, &Limits::usual()).expect(rt, "a size");
    let mut source = Picture::new(alloc, dim, 5).expect(rt, "memory");
    put(&mut source, 0, 16, 0, 9);
    put(&mut source, 0, 20, 0, 77);
    put(&mut source, 0, 3, 7, 88);
    put(&mut source, 1, 8, 0, 30);
    source
}

/// Fails the test unless the reconstruction is the padded source.
fn check_padding(rt: &impl Abort, found: &Encoded) {
    equal!(rt; found.squared_error, 0);
    equal!(rt; first_luma(&found.recon), [Some(9); 3]);
    let wanted = [Some(5), Some(5), Some(30), Some(5), Some(5)];
    equal!(rt; other_pixels(&found.recon), wanted);
}

/// That picture is encoded without loss: each macroblock has one value in each plane.
#[test]
fn source_is_continued(rt: HostRuntime) {
    let source = narrow(&rt, rt.alloc());
    let found = encoded(&rt, rt.alloc(), &source, settings(0, 1));
    check_padding(&rt, &found);
}

/// Returns the sum of the squared differences of the bytes.
fn squared_differences(a: &[u8], b: &[u8]) -> u64 {
    let mut sum = 0u64;
    for i in 0..a.len().min(b.len()) {
        let apart = u64::from(a[i].abs_diff(b[i]));
        sum = sum.wrapping_add(apart.wrapping_mul(apart));
    }
    sum
}

/// Returns the sum of the squared differences of the shown pixels.
fn distance(rt: &impl Abort, alloc: Global, a: &Picture, b: &Picture) -> u64 {
    let a = a.crop_i420(alloc).expect(rt, "memory");
    let b = b.crop_i420(alloc).expect(rt, "memory");
    squared_differences(&a, &b)
}

/// Fails the test unless the error is that distance.
fn check_error(rt: &impl Abort, alloc: Global, source: &Picture, found: &Encoded) {
    let wanted = distance(rt, alloc, source, &found.recon);
    equal!(rt; (wanted > 0, found.squared_error), (true, wanted));
}

/// With the largest factors the reconstruction differs from the source, most of all in the padding.
#[test]
fn error_over_shown_pixels(rt: HostRuntime) {
    let source = narrow(&rt, rt.alloc());
    let found = encoded(&rt, rt.alloc(), &source, settings(127, 1));
    check_error(&rt, rt.alloc(), &source, &found);
}
