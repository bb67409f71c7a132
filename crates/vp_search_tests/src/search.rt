//! Tests of vp_search: where blocks are found, and how ties are broken.

ghost use Rattle.std.specs.Prelude.{◌≡◌, ◌<◌, ◌≤◌, length};
ghost use Rattle.vp_search.specs.Vectors.{IsNear};

use crate::check::equal;
use std::alloc::Global;
use std::process::Abort;
use vp_base::{Place, Plane};
use vp_inter::{luma_vector, predict_block};
use vp_search::{
    Found, QuarterVector, Refined, Searcher, WholeVector, first_least, full_search, refine,
    refine_found, sad16, search_block, sse,
};

/// Returns a pseudo-random number for each column and row.
fn noise(x: usize, y: usize) -> u8 {
    let a = (x % 256) as u8;
    let b = (y % 256) as u8;
    let c = a.wrapping_mul(a).wrapping_mul(37).wrapping_add(b);
    c.wrapping_mul(c ^ b.wrapping_mul(113))
}

/// Returns a number for each column and row that differs little between neighbours: slopes that change direction every
/// few pixels.
fn slope(x: usize, y: usize) -> u8 {
    let a = (x % 24) as u8;
    let b = (y % 20) as u8;
    a.abs_diff(12) * 10 + b.abs_diff(10) * 12
}

/// Returns `at + by`, clamped to 0..47.
fn shifted(at: usize, by: i32) -> usize
    requires { at < 48 }
{
    if at as i64 + i64::from(by) < 0 {
        return 0;
    }
    ((at as i64 + i64::from(by)) as usize).min(47)
}

/// Fills a plane of 48 by 48 with noise, shifted down and to the right.
fn fill(plane: &mut Plane, down: i32, right: i32) {
    for y in 0..48 {
        for x in 0..48 {
            if x < plane.width() && y < plane.height() {
                plane.set(x, y, noise(shifted(x, right), shifted(y, down)));
            }
        }
    }
}

fn fill_slope(plane: &mut Plane) {
    for y in 0..48 {
        for x in 0..48 {
            if x < plane.width() && y < plane.height() {
                plane.set(x, y, slope(x, y));
            }
        }
    }
}

/// Fills a plane of 48 by 48 with noise that is constant along lines: `slant` rows down for each column to the left.
fn fill_lines(plane: &mut Plane, slant: usize, later: usize) {
    for y in 0..48 {
        for x in 0..48 {
            if x < plane.width() && y < plane.height() {
                let at = slant.wrapping_mul(x).wrapping_add(y);
                plane.set(x, y, noise(at.wrapping_add(later), 0));
            }
        }
    }
}

fn found(row: i32, column: i32, cost: u32) -> Found {
    Found {
        vector: WholeVector { row, column },
        cost,
    }
}

/// Searches for a macroblock in planes of 48 by 48; None outside them.
fn search(
    source: &Plane,
    reference: &Plane,
    column: usize,
    row: usize,
    range: u8,
) -> Option<Found> {
    let is_wide = source.width() == 48 && reference.width() == 48;
    let is_high = source.height() == 48 && reference.height() == 48;
    if is_wide && is_high && column < 3 && row < 3 && range <= 64 {
        Some(full_search(source, reference, Place { column, row }, range))
    } else {
        None
    }
}

/// Searches for the middle macroblock of a source that is shifted `later` rows up in a plane of lines.
fn along_lines(
    source: &mut Plane,
    reference: &mut Plane,
    slant: usize,
    later: usize,
) -> Option<Found> {
    fill_lines(reference, slant, 0);
    fill_lines(source, slant, later);
    search(source, reference, 1, 1, 4)
}

/// Refines the vector of the middle macroblock of a plane in `reference`.
fn refined(source: &Plane, reference: &Plane, row: i32, column: i32) -> Option<Refined>
    requires { IsNear 100 (record { row = row; column = column }) }
{
    let is_wide = source.width() == 48 && reference.width() == 48;
    let is_high = source.height() == 48 && reference.height() == 48;
    let place = Place { column: 1, row: 1 };
    if is_wide && is_high {
        Some(refine(source, reference, place, WholeVector { row, column }))
    } else {
        None
    }
}

/// Replaces the middle macroblock by its prediction with a vector in quarter pixels.
fn predict_middle(source: &mut Plane, reference: &Plane, row: i32, column: i32)
    requires { IsNear 100 (record { row = row; column = column }) }
{
    let is_wide = source.width() == 48 && reference.width() == 48;
    if is_wide && source.height() == 48 && reference.height() == 48 {
        let block = predict_block::<16, 256>(reference, 16, 16, luma_vector(row, column), 0);
        source.write_block::<16>(16, 16, &block);
    }
}

/// Searches for the prediction of the middle macroblock with a vector in quarter pixels, and refines what is found.
fn searched(reference: &Plane, row: i32, column: i32) -> Option<Refined>
    requires { IsNear 100 (record { row = row; column = column }) }
{
    if reference.width() != 48 || reference.height() != 48 {
        return None;
    }
    let place = Place { column: 1, row: 1 };
    let block = predict_block::<16, 256>(reference, 16, 16, luma_vector(row, column), 0);
    let found = search_block(&block, reference, place, 8);
    Some(refine_found(&block, reference, place, found))
}

/// The sum of absolute differences, computed directly.
fn plain_differences(a: &[u8; 256], b: &[u8; 256]) -> u32 {
    let mut sum = 0u32;
    for i in 0..256 {
        sum = sum.wrapping_add(u32::from(a[i].abs_diff(b[i])));
    }
    sum
}

/// The sum of squared differences, computed directly.
fn plain_squares(a: &[u8], b: &[u8]) -> u64
    requires { length a.now ≡ length b.now }
{
    let mut sum = 0u64;
    for i in 0..a.len() {
        let difference = u64::from(a[i].abs_diff(b[i]));
        sum = sum.wrapping_add(difference.wrapping_mul(difference));
    }
    sum
}

fn noise_block(row: usize) -> [u8; 256] {
    let mut block = [0; 256];
    for i in 0..256 {
        block[i] = noise(i, row);
    }
    block
}

/// Returns the first length up to 67 at which the sum of squares differs from the direct one.
fn first_wrong_length(a: &[u8; 256], b: &[u8; 256]) -> Option<usize> {
    for n in 0..68 {
        if sse(&a[..n], &b[..n]) != plain_squares(&a[..n], &b[..n]) {
            return Some(n);
        }
    }
    None
}

/// Returns a flat plane of 48 by 48 pixels.
fn flat(rt: &impl Abort, alloc: Global, pixel: u8) -> Plane {
    Plane::new(alloc, 48, 48, pixel).expect(rt, "memory")
}

/// Blocks of flat planes are found in place.
#[test]
fn flat_planes_stand_still(rt: HostRuntime) {
    let alloc = rt.alloc();
    let rt = &rt;
    let source = flat(rt, alloc, 100);
    let reference = flat(rt, alloc, 103);
    let same = search(&source, &source, 1, 1, 16);
    let other = search(&source, &reference, 0, 2, 64);
    equal!(rt; [same, other], [Some(found(0, 0, 0)), Some(found(0, 0, 768))]);
    let still = Refined {
        vector: QuarterVector { row: 0, column: 0 },
        cost: 768,
    };
    equal!(rt; refined(&source, &reference, 0, 0), Some(still));
}

/// Columns and rows of macroblocks, and the rows down and columns to the right by which the noise is shifted.
const MOVES: [(usize, usize, i32, i32); 7] = [
    (1, 1, 5, -9),
    (1, 1, -16, 16),
    (1, 1, 16, -16),
    (0, 1, 3, -12),
    (2, 1, -2, 15),
    (1, 0, -14, 1),
    (0, 2, 13, -7),
];

/// Searches a plane of noise for the middle, or another, macroblock of noise that is shifted down and to the right.
fn moved(source: &mut Plane, reference: &Plane, to: (usize, usize, i32, i32)) -> Option<Found> {
    let (column, row, down, right) = to;
    fill(source, down, right);
    search(source, reference, column, row, 16)
}

/// Blocks are found where they were moved to.
#[test]
fn moved_blocks_are_found(rt: HostRuntime) {
    let alloc = rt.alloc();
    let rt = &rt;
    let mut source = flat(rt, alloc, 0);
    let mut reference = flat(rt, alloc, 0);
    fill(&mut reference, 0, 0);
    for to in MOVES {
        let (_, _, down, right) = to;
        equal!(rt; (to, moved(&mut source, &reference, to)), (to, Some(found(down, right, 0))));
    }
}

/// Far below and to the left of the plane all pixels equal its corner: the shortest such vector is chosen.
#[test]
fn far_outside_the_shortest_is_taken(rt: HostRuntime) {
    let alloc = rt.alloc();
    let rt = &rt;
    let mut source = flat(rt, alloc, 0);
    let mut reference = flat(rt, alloc, 0);
    fill(&mut reference, 0, 0);
    fill(&mut source, 40, -50);
    equal!(rt; search(&source, &reference, 1, 1, 64), Some(found(31, -31, 0)));
}

/// Along lines many vectors find equal pixels. A column to the right, or a row down: the least row is chosen. Three
/// columns to the right, or two and two rows down: the shortest, with both directions added. Every second column: the
/// least one.
#[test]
fn of_equal_vectors_by_length_row_and_column(rt: HostRuntime) {
    let alloc = rt.alloc();
    let rt = &rt;
    let mut source = flat(rt, alloc, 0);
    let mut reference = flat(rt, alloc, 0);
    for (slant, later, column) in [(1, 1, 1), (2, 6, 3), (32, 32, -1)] {
        let wanted = Some(found(0, column, 0));
        let found = along_lines(&mut source, &mut reference, slant, later);
        equal!(rt; (slant, later, found), (slant, later, wanted));
    }
}

/// Along lines that go as far down as to the left, half a pixel to the right equals half a pixel down: the first by
/// rows is chosen.
#[test]
fn of_equal_neighbours_by_rows(rt: HostRuntime) {
    let alloc = rt.alloc();
    let rt = &rt;
    let mut source = flat(rt, alloc, 0);
    let mut reference = flat(rt, alloc, 0);
    fill_lines(&mut reference, 1, 0);
    predict_middle(&mut source, &reference, 2, 0);
    let best = Refined {
        vector: QuarterVector { row: 0, column: 2 },
        cost: 0,
    };
    equal!(rt; refined(&source, &reference, 0, 0), Some(best));
}

/// The vector of predicted blocks in planes of slopes.
const SLOPED: Refined = Refined {
    vector: QuarterVector {
        row: 10,
        column: -11,
    },
    cost: 0,
};

/// Predicts a block of a plane of slopes, and refines a vector that is near it.
fn refined_slope(source: &mut Plane, reference: &mut Plane) -> Option<Refined> {
    fill_slope(reference);
    predict_middle(source, reference, 10, -11);
    refined(source, reference, 2, -3)
}

#[test]
fn predicted_blocks_are_refined(rt: HostRuntime) {
    let alloc = rt.alloc();
    let rt = &rt;
    let mut source = flat(rt, alloc, 0);
    let mut reference = flat(rt, alloc, 0);
    equal!(rt; refined_slope(&mut source, &mut reference), Some(SLOPED));
}

#[test]
fn found_blocks_are_refined(rt: HostRuntime) {
    let mut reference = flat(&rt, rt.alloc(), 0);
    fill_slope(&mut reference);
    equal!(&rt; searched(&reference, 10, -11), Some(SLOPED));
}

#[test]
fn sums_are_the_plain_ones(rt: HostRuntime) {
    let rt = &rt;
    let a = noise_block(3);
    let b = noise_block(201);
    equal!(rt; sad16(&a, &b), plain_differences(&a, &b));
    let found = (
        sad16(&[0; 256], &[255; 256]),
        sse(&[0, 3], &[5, 1]),
        first_least(&[7, 2, 5, 2]),
    );
    equal!(rt; (first_wrong_length(&a, &b), found), (None, (65280, 29, 1)));
}

/// Fills a plane of this size with noise.
fn fill_with_noise(plane: &mut Plane, width: usize, height: usize) {
    for y in 0..height {
        for x in 0..width {
            if x < plane.width() && y < plane.height() {
                plane.set(x, y, noise(x, y));
            }
        }
    }
}

/// The block of noise that is `down` rows and `right` columns from a macroblock's place.
fn noise_at(place: Place, down: usize, right: usize) -> [u8; 256] {
    let left = place.column.wrapping_mul(16).wrapping_add(right);
    let top = place.row.wrapping_mul(16).wrapping_add(down);
    let mut block = [0; 256];
    for i in 0..256 {
        block[i] = noise(left.wrapping_add(i % 16), top.wrapping_add(i / 16));
    }
    block
}

/// The place at a step of a walk: along two rows, the last place again, back to the first row, along the second one and
/// beyond the plane, and along the first one again.
fn stop(step: usize) -> Place
    ensures column { result.column ≤ 11 }
    ensures row { result.row ≤ 1 }
{
    let (column, row) = match step {
        0..=7 => (step % 4, step / 4),
        8 => (3, 1),
        9 => (1, 0),
        10 => (3, 0),
        11..=22 => (step - 11, 1),
        _ => (step.saturating_sub(23).min(3), 0),
    };
    Place { column, row }
}

/// The block at a step of that walk: noise that has moved, at one step not at all. On the way beyond the plane blocks
/// match nothing, so that bounds exclude little.
fn block_at(step: usize) -> [u8; 256] {
    match step {
        1 => noise_at(stop(step), 0, 0),
        11..=22 => noise_block(step),
        _ => {
            let moved = step.wrapping_add(1);
            noise_at(stop(step), moved % 3, moved % 13)
        }
    }
}

/// Returns the first step of a walk at which a searcher finds something else than `search_block` does, and what both
/// find, or the number of the steps.
fn first_other_along(
    alloc: Global,
    reference: &Plane,
    range: u8,
) -> (usize, Option<(Option<Found>, Found)>) {
    if reference.width() == 0 || reference.height() == 0 || range > 64 {
        return (0, None);
    }
    let mut searcher = Searcher::new(alloc, reference, range);
    for step in 0..28 {
        let place = stop(step);
        let block = block_at(step);
        let found = searcher.search(&block, place, u32::MAX);
        let wanted = search_block(&block, reference, place, range);
        if found != Some(wanted) {
            return (step, Some((found, wanted)));
        }
    }
    (28, None)
}

/// Returns a plane of noise.
fn noisy(rt: &impl Abort, alloc: Global, width: usize, height: usize) -> Plane
    requires width { width ≤ 16384 }
    requires height { height ≤ 16384 }
{
    let mut plane = Plane::new(alloc, width, height, 0).expect(rt, "memory");
    fill_with_noise(&mut plane, width, height);
    plane
}

/// A searcher keeps sums from one macroblock to the next, leaves them out for some, and finds what a search from
/// nothing does.
#[test]
fn kept_sums_are_the_same(rt: HostRuntime) {
    let alloc = rt.alloc();
    let rt = &rt;
    let reference = noisy(rt, alloc, 53, 37);
    for range in [7, 8, 16, 17, 27, 28, 64] {
        let other = first_other_along(alloc, &reference, range);
        equal!(rt; (range, other), (range, (28, None)));
    }
}

/// Returns the first step of a walk at which a searcher finds something else than the best vector below a limit that is
/// one above its cost, or something below its cost: what it finds at both, and the best vector. Or the number of the
/// steps.
fn first_unlimited_along(
    alloc: Global,
    reference: &Plane,
    range: u8,
) -> (usize, Option<(Option<Found>, Option<Found>, Found)>) {
    if reference.width() == 0 || reference.height() == 0 || range > 64 {
        return (0, None);
    }
    let mut searcher = Searcher::new(alloc, reference, range);
    for step in 0..28 {
        let place = stop(step);
        let block = block_at(step);
        let best = search_block(&block, reference, place, range);
        let above = searcher.search(&block, place, best.cost.saturating_add(1));
        let below = searcher.search(&block, place, best.cost);
        if above != Some(best) || below.is_some() {
            return (step, Some((above, below, best)));
        }
    }
    (28, None)
}

/// What costs as much as the limit is not found.
#[test]
fn limits_are_kept(rt: HostRuntime) {
    let alloc = rt.alloc();
    let rt = &rt;
    let reference = noisy(rt, alloc, 53, 37);
    for range in [7, 8, 28, 64] {
        let other = first_unlimited_along(alloc, &reference, range);
        equal!(rt; (range, other), (range, (28, None)));
    }
}

/// Returns the first of 67 columns at which a searcher finds something else than `search_block` does, and what both
/// find, or their number.
fn first_other_across(alloc: Global, reference: &Plane) -> (usize, Option<(Option<Found>, Found)>) {
    if reference.width() == 0 || reference.height() == 0 {
        return (0, None);
    }
    let mut searcher = Searcher::new(alloc, reference, 16);
    for column in 0..67 {
        let place = Place { column, row: 0 };
        let block = noise_at(place, column % 3, column % 5);
        let found = searcher.search(&block, place, u32::MAX);
        let wanted = search_block(&block, reference, place, 16);
        if found != Some(wanted) {
            return (column, Some((found, wanted)));
        }
    }
    (67, None)
}

/// Sums slide by 64 macroblocks at most; then all are made anew.
#[test]
fn kept_sums_begin_anew(rt: HostRuntime) {
    let alloc = rt.alloc();
    let rt = &rt;
    let reference = noisy(rt, alloc, 1072, 16);
    equal!(rt; first_other_across(alloc, &reference), (67, None));
}
