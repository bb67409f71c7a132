//! Tests of vp_inter: inter prediction against RFC 6386, chapter 18.3, pixel by pixel.

ghost use Rattle.std.specs.Prelude.{◌<◌, ◌≤◌};

use crate::check::equal;
use std::alloc::Global;
use std::process::Abort;
use vp_base::{Dim, Limits, Picture, Plane};
use vp_inter::{PlaneVector, chroma_vector, luma_vector, predict_block, predict_into};

/// Sets three columns of a plane of 16 columns to 0.
fn darken(plane: &mut Plane) {
    for y in 0..16 {
        if plane.width() == 16 && y < plane.height() {
            plane.write_run(0, y, [0; 3].as_slice());
        }
    }
}

/// Returns predicted pixels at the edge of a plane of 16 by 16, for vectors of a quarter pixel and far outside.
fn edge_pixels(plane: &Plane) -> Option<[u8; 4]> {
    if plane.width() != 16 || plane.height() != 16 {
        return None;
    }
    let quarter = luma_vector(0, 1);
    let turned = luma_vector(-400, 1 - 4000);
    let six_taps = predict_block::<4, 16>(plane, 0, 0, quarter, 0)[2];
    let bilinear = predict_block::<4, 16>(plane, 0, 0, quarter, 1)[2];
    let large = predict_block::<16, 256>(plane, 0, 0, quarter, 0)[242];
    let outside = predict_block::<8, 64>(plane, 8, 8, turned, 0)[63];
    Some([six_taps, bilinear, large, outside])
}

/// Three columns of 0, followed by 255.
#[test]
fn kernel_examples(rt: HostRuntime) {
    let alloc = rt.alloc();
    let rt = &rt;
    let mut plane = Plane::new(alloc, 16, 16, 255).expect(rt, "memory");
    darken(&mut plane);
    let sides = (plane.width(), plane.height());
    equal!(rt; (sides, edge_pixels(&plane)), ((16, 16), Some([58, 64, 58, 0])));
    let of_quarters = chroma_vector(0, &[-1, -1, -1, -2], &[1, 2, 3, 4]);
    let of_whole_pixels = chroma_vector(3, &[-1, -1, -1, -2], &[9, 9, 9, 9]);
    let wanted = [
        PlaneVector { row: -1, column: 3 },
        PlaneVector { row: -8, column: 8 },
    ];
    equal!(rt; [of_quarters, of_whole_pixels], wanted);
}

/// Offsets in whole pixels: far outside, across each border, just outside and just inside, for each block size.
const OFFSETS: [i32; 19] = [
    -1000, -18, -17, -16, -15, -14, 0, 13, 14, 16, 17, 21, 22, 24, 25, 26, 28, 29, 1000,
];

/// Fills a row with 0, 51, .. 255, so that adjacent pixels differ greatly.
fn fill(row: &mut [u8], y: usize) {
    for x in 0..row.len() {
        let mixed = x
            .wrapping_mul(x.wrapping_mul(31).wrapping_add(y))
            .wrapping_add(y.wrapping_mul(57));
        row[x] = (mixed % 6) as u8 * 51;
    }
}

/// The filter taps of RFC 6386, chapter 18.3, for each eighth of a pixel, for the pixels at -2 to 3.
const SIX: [[i32; 6]; 8] = [
    [0, 0, 128, 0, 0, 0],
    [0, -6, 123, 12, -1, 0],
    [2, -11, 108, 36, -8, 1],
    [0, -9, 93, 50, -6, 0],
    [3, -16, 77, 77, -16, 3],
    [0, -6, 50, 93, -9, 0],
    [1, -8, 36, 108, -11, 2],
    [0, -1, 12, 123, -6, 0],
];

/// Returns the filter taps of a version: six taps, or two bilinear ones.
fn weights(version: u8, eighths: i32) -> [i32; 6] {
    let eighths = (eighths & 7) as usize % 8;
    if version == 0 {
        return SIX[eighths];
    }
    let second = 16 * eighths as i32;
    [0, 0, 128 - second, second, 0, 0]
}

/// Applies filter taps to six pixels.
fn weighed(six: [i32; 6], weights: [i32; 6]) -> i32 {
    let mut sum = 64i32;
    for k in 0..6 {
        sum = sum.wrapping_add(six[k].wrapping_mul(weights[k]));
    }
    (sum >> 7).clamp(0, 255)
}

/// Returns the pixel at a place, clamped to the plane.
fn pixel(plane: &Plane, x: i32, y: i32) -> i32 {
    let x = (x.max(0) as usize).min(plane.width().wrapping_sub(1));
    let y = (y.max(0) as usize).min(plane.height().wrapping_sub(1));
    if x < plane.width() && y < plane.height() {
        i32::from(plane.get(x, y))
    } else {
        0
    }
}

/// Filters a row horizontally at a place.
fn across(plane: &Plane, x: i32, y: i32, weights: [i32; 6]) -> i32 {
    let mut six = [0; 6];
    for k in 0..6 {
        six[k] = pixel(plane, x.wrapping_add(k as i32).wrapping_sub(2), y);
    }
    weighed(six, weights)
}

/// Predicts columns 16 to 31 of one row, filtered horizontally.
fn moved_row(plane: &Plane, y: i32, vector: PlaneVector, version: u8) -> [i32; 16] {
    let weights = weights(version, vector.column);
    let x = 16i32.wrapping_add(vector.column >> 3);
    let mut row = [0; 16];
    for c in 0..16 {
        row[c] = across(plane, x.wrapping_add(c as i32), y, weights);
    }
    row
}

/// Predicts the rows from which rows 16 to 31 are filtered vertically: two more above, and three below.
fn moved_rows(plane: &Plane, vector: PlaneVector, version: u8) -> [[i32; 16]; 21] {
    let y = 14i32.wrapping_add(vector.row >> 3);
    let mut rows = [[0; 16]; 21];
    for i in 0..21 {
        rows[i] = moved_row(plane, y.wrapping_add(i as i32), vector, version);
    }
    rows
}

/// Returns the predicted pixel of the block, by RFC 6386, chapter 18.3: filtered horizontally, then vertically.
fn moved(rows: &[[i32; 16]; 21], column: usize, row: usize, weights: [i32; 6]) -> i32 {
    let mut six = [0; 6];
    for k in 0..6 {
        six[k] = rows[row.wrapping_add(k) % 21][column % 16];
    }
    weighed(six, weights)
}

/// Returns whether a block with rows of `size` pixels equals the prediction from these rows.
fn is_made_of(block: &[u8], size: usize, rows: &[[i32; 16]; 21], weights: [i32; 6]) -> bool
    requires { 0 < size }
{
    for i in 0..block.len() {
        if i32::from(block[i]) != moved(rows, i % size, i / size, weights) {
            return false;
        }
    }
    block.len() == size.wrapping_mul(size)
}

/// Returns whether the prediction of some block size at column and row 16 differs from the expected one.
fn differ(plane: &Plane, vector: PlaneVector, version: u8) -> bool
    requires wide { 0 < plane.now.width }
    requires high { 0 < plane.now.height }
{
    let rows = moved_rows(plane, vector, version);
    let down = weights(version, vector.row);
    let large = predict_block::<16, 256>(plane, 16, 16, vector, version);
    let middle = predict_block::<8, 64>(plane, 16, 16, vector, version);
    let small = predict_block::<4, 16>(plane, 16, 16, vector, version);
    !is_made_of(&large, 16, &rows, down)
        || !is_made_of(&middle, 8, &rows, down)
        || !is_made_of(&small, 4, &rows, down)
}

/// Returns the first vector with those whole pixels, and the version, for which the prediction differs.
fn difference_at(plane: &Plane, row: i32, column: i32) -> Option<(PlaneVector, u8)>
    requires wide { 0 < plane.now.width }
    requires high { 0 < plane.now.height }
{
    for eighths in 0..64 {
        let vector = PlaneVector {
            row: row.wrapping_mul(8).wrapping_add(eighths / 8),
            column: column.wrapping_mul(8).wrapping_add(eighths % 8),
        };
        for version in 0..4 {
            if differ(plane, vector, version) {
                return Some((vector, version));
            }
        }
    }
    None
}

/// Returns the first vector and version for which the prediction differs: across one border, or across two at a corner.
fn first_difference(plane: &Plane) -> Option<(PlaneVector, u8)>
    requires wide { 0 < plane.now.width }
    requires high { 0 < plane.now.height }
{
    for offset in OFFSETS {
        let turned = 0i32.wrapping_sub(offset);
        for (row, column) in [(offset, 0), (0, offset), (offset, offset), (turned, offset)] {
            let found = difference_at(plane, row, column);
            if found.is_some() {
                return found;
            }
        }
    }
    None
}

/// Fills the rows of a plane of 48 by 48.
fn fill_rows(rt: &impl Abort, plane: &mut Plane) {
    for y in 0..48 {
        assert!(rt; y < plane.height(), "no row {y}");
        fill(plane.row_mut(y), y);
    }
}

/// Returns a plane of 48 by 48 with filled rows.
fn filled(rt: &impl Abort, alloc: Global) -> Plane
    ensures wide { 0 < result.width }
    ensures high { 0 < result.height }
{
    let mut plane = Plane::new(alloc, 48, 48, 0).expect(rt, "memory");
    fill_rows(rt, &mut plane);
    assert!(rt; 0 < plane.width() && 0 < plane.height(), "an empty plane");
    plane
}

#[test]
fn lanes_predict_as_pixels(rt: HostRuntime) {
    let plane = filled(&rt, rt.alloc());
    equal!(&rt; first_difference(&plane), None);
}

/// Returns the expected pixel: of the block of `size` by `size` pixels from column and row `at` on, or 7 outside it.
fn wanted(block: &[u8], size: usize, at: usize, x: usize, y: usize) -> u8 {
    let [column, row] = [x.wrapping_sub(at), y.wrapping_sub(at)];
    if column >= size || row >= size {
        return 7;
    }
    match block.get(row.wrapping_mul(size).wrapping_add(column)) {
        Some(pixel) => *pixel,
        None => 0,
    }
}

/// A pixel that isn't as expected: its column and row, its value, and the expected one.
type Pixel = (usize, usize, u8, u8);

/// Returns the first pixel of row `y` that isn't as expected.
fn other_of_row(row: &[u8], block: &[u8], size: usize, at: usize, y: usize) -> Option<Pixel> {
    for x in 0..row.len() {
        let expected = wanted(block, size, at, x, y);
        if row[x] != expected {
            return Some((x, y, row[x], expected));
        }
    }
    None
}

/// Returns the first pixel that isn't as expected: the block at column and row `at`, and 7 elsewhere.
fn other_of_plane(plane: &Plane, block: &[u8], size: usize, at: usize) -> Option<Pixel> {
    for y in 0..plane.height() {
        let other = other_of_row(plane.row(y), block, size, at, y);
        if other.is_some() {
            return other;
        }
    }
    None
}

/// Returns the first pixel of each plane that isn't as expected: the predicted blocks at their places, and 7 elsewhere.
fn other_pixels(picture: &Picture, reference: &Plane, vector: PlaneVector) -> [Option<Pixel>; 3]
    requires wide { 0 < reference.now.width }
    requires high { 0 < reference.now.height }
{
    let large = predict_block::<16, 256>(reference, 16, 16, vector, 0);
    let middle = predict_block::<8, 64>(reference, 8, 8, vector, 0);
    let small = predict_block::<4, 16>(reference, 8, 8, vector, 0);
    [
        other_of_plane(picture.plane(0), &large, 16, 16),
        other_of_plane(picture.plane(1), &middle, 8, 8),
        other_of_plane(picture.plane(2), &small, 4, 8),
    ]
}

/// Writes blocks of each size to the planes of a picture of 7. Returns the first pixel of each plane that isn't as
/// expected: the blocks at their places, and all other pixels unchanged.
fn others_of_written(
    rt: &impl Abort,
    alloc: Global,
    dim: Dim,
    reference: &Plane,
    vector: PlaneVector,
) -> [Option<Pixel>; 3]
    requires wide { 0 < reference.now.width }
    requires high { 0 < reference.now.height }
    requires columns { 48 ≤ dim.w }
    requires rows { 48 ≤ dim.h }
{
    let mut picture = Picture::new(alloc, dim, 7).expect(rt, "memory");
    predict_into::<16>(&mut picture, 0, 16, 16, reference, vector, 0);
    predict_into::<8>(&mut picture, 1, 8, 8, reference, vector, 0);
    predict_into::<4>(&mut picture, 2, 8, 8, reference, vector, 0);
    other_pixels(&picture, reference, vector)
}

#[test]
fn blocks_are_written_where_they_stand(rt: HostRuntime) {
    let alloc = rt.alloc();
    let rt = &rt;
    let dim = Dim::new(48, 48, &Limits::usual()).expect(rt, "a usual size");
    let reference = filled(rt, alloc);
    for (row, column) in [(0, 0), (16, -8), (3, 5), (-4000, 4001)] {
        let vector = PlaneVector { row, column };
        let others = others_of_written(rt, alloc, dim, &reference, vector);
        equal!(rt; (vector, others), (vector, [None; 3]));
    }
}
