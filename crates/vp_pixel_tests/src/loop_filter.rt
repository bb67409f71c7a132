//! Tests of vp_loop: levels, single steps, and pictures against a filter that processes one line of pixels at a time.

ghost use Rattle.std.specs.Prelude.{◌≡◌, ◌*◌, ◌<◌, ◌≤◌, IsTrue, ◌↔◌};
ghost use Rattle.vp_base.specs.Image.{macroblocks};

use crate::check::equal;
use std::alloc::Global;
use std::process::Abort;
use vp_base::{Dim, Limits, Picture, Plane};
use vp_bool::BoolDecoder;
use vp_head::{Header, KeyTag, LevelDeltas, Reference, Saved, Tag};
use vp_loop::{
    EdgeKind, Level, LevelTable, Line, LineStep, MacroblockKind, ModeClass, filter_picture, levels,
};

/// Returns a key frame's header with filter level 16 and sharpness 0; all other fields are 0 or defaults.
fn header(dim: Dim) -> Header {
    let tag = Tag {
        version: 0,
        show: true,
        first_partition: 0,
        key: Some(KeyTag {
            dim,
            horizontal_scale: 0,
            vertical_scale: 0,
        }),
    };
    let (mut header, _) = Header::read(&Saved::defaults(), &tag, &mut BoolDecoder::new(&[]));
    header.filter.level = 16;
    header
}

/// Returns the size of a macroblock.
fn size(rt: &impl Abort) -> Dim {
    Dim::new(16, 16, &Limits::usual()).expect(rt, "a size")
}

fn level(dim: Dim, coded: bool) -> Level {
    levels(
        &header(dim),
        0,
        &MacroblockKind {
            reference: Reference::Intra,
            prediction: ModeClass::Whole,
            coded,
        },
    )
}

fn line(pixels: [u8; 8]) -> Line {
    Line {
        p3: pixels[0],
        p2: pixels[1],
        p1: pixels[2],
        p0: pixels[3],
        q0: pixels[4],
        q1: pixels[5],
        q2: pixels[6],
        q3: pixels[7],
    }
}

#[test]
fn filter_one_line(rt: HostRuntime) {
    let own = Level {
        edge: 52,
        inner: 48,
        interior: 16,
        hev: 1,
    };
    let rt = &rt;
    equal!(rt; level(size(rt), true), own);
    let step = line([100, 100, 100, 100, 110, 110, 110, 110]);
    let table = [
        (
            EdgeKind::Macroblock,
            52,
            [100, 101, 103, 104, 106, 107, 109, 110],
        ),
        (
            EdgeKind::Subblock,
            48,
            [100, 100, 102, 104, 106, 108, 110, 110],
        ),
        (
            EdgeKind::Simple,
            52,
            [100, 100, 100, 102, 107, 110, 110, 110],
        ),
    ];
    for (kind, limit, after) in table {
        let across = LineStep {
            kind,
            limit,
            interior: 16,
            hev: 1,
        };
        equal!(rt; (kind, across.apply(step)), (kind, line(after)));
    }
}

/// Returns the strength for a B_PRED macroblock of a key frame. `own` is the frame's level, `segment` replaces it, and
/// `deltas` are those of the reference and the mode.
fn level_with(dim: Dim, own: u8, sharpness: u8, segment: Option<i8>, deltas: [i8; 2]) -> Level {
    let mut header = header(dim);
    header.filter.level = own;
    header.filter.sharpness = sharpness;
    header.segmentation.enabled = segment.is_some();
    header.segmentation.values.absolute = true;
    header.segmentation.values.levels[0] = segment.unwrap_or(0);
    header.deltas_enabled = true;
    header.deltas.reference[0] = deltas[0];
    header.deltas.mode[0] = deltas[1];
    levels(
        &header,
        0,
        &MacroblockKind {
            reference: Reference::Intra,
            prediction: ModeClass::Subblocks,
            coded: true,
        },
    )
}

fn strength(edge: u8, inner: u8, interior: u8, hev: u8) -> Level {
    Level {
        edge,
        inner,
        interior,
        hev,
    }
}

/// Levels are clamped to 0..63: the segment's level before the deltas, and their sum after both deltas. Key frames have
/// the delta of intra macroblocks too. The interior limit is at least 1.
#[test]
fn levels_are_held(rt: HostRuntime) {
    let rt = &rt;
    let dim = size(rt);
    for (own, sharpness, segment, deltas, wanted) in [
        (16, 0, Some(-5), [10, 0], strength(34, 30, 10, 0)),
        (60, 0, None, [20, -30], strength(154, 150, 50, 2)),
        (60, 0, None, [20, 0], strength(193, 189, 63, 2)),
        (16, 0, None, [4, 0], strength(64, 60, 20, 1)),
        (1, 7, None, [0, 0], strength(7, 3, 1, 0)),
    ] {
        let found = level_with(dim, own, sharpness, segment, deltas);
        equal!(rt; (own, segment, deltas, found), (own, segment, deltas, wanted));
    }
}

/// Differences and filter values are clamped to -128..127.
#[test]
fn steps_are_held(rt: HostRuntime) {
    let simple = LineStep {
        kind: EdgeKind::Simple,
        limit: 193,
        interior: 0,
        hev: 0,
    };
    let apart = line([255, 255, 255, 128, 108, 0, 0, 0]);
    let wide = LineStep {
        kind: EdgeKind::Macroblock,
        limit: 193,
        interior: 63,
        hev: 3,
    };
    let far = line([90, 90, 90, 90, 160, 160, 160, 160]);
    let wanted = [
        line([255, 255, 255, 136, 100, 0, 0, 0]),
        line([90, 99, 108, 117, 133, 142, 151, 160]),
    ];
    equal!(&rt; [simple.apply(apart), wide.apply(far)], wanted);
}

fn flat_block(pixel: u8) -> [u8; 256] {
    [pixel; 256]
}

/// Returns a filtered picture of two macroblocks: 100 beside 110 in luma, and 128 in chroma.
fn two_macroblocks(rt: &impl Abort, alloc: Global) -> Picture {
    let dim = Dim::new(32, 16, &Limits::usual()).expect(rt, "a size");
    let mut picture = Picture::new(alloc, dim, 128).expect(rt, "memory");
    picture.write_block::<16>(0, 0, 0, &flat_block(100));
    picture.write_block::<16>(0, 16, 0, &flat_block(110));
    filter_picture(&mut picture, &[level(dim, false); 2]);
    picture
}

/// Returns the first of the plane's first `count` rows that is another one than this: its number and its pixels.
fn other_row<'a>(plane: &'a Plane, count: usize, row: &[u8]) -> Option<(usize, &'a [u8])> {
    for y in 0..count {
        if y >= plane.height() {
            return Some((y, &[]));
        }
        if plane.row(y) != row {
            return Some((y, plane.row(y)));
        }
    }
    None
}

/// Fails the test if not only the edge between the macroblocks is smoothed.
fn check_two(rt: &impl Abort, picture: &Picture) {
    let mut row = [100; 32];
    row[12..20].copy_from_slice(&[100, 101, 103, 104, 106, 107, 109, 110]);
    row[20..].fill(110);
    let luma = other_row(picture.plane(0), 16, &row);
    let first_chroma = other_row(picture.plane(1), 8, &[128; 16]);
    let second_chroma = other_row(picture.plane(2), 8, &[128; 16]);
    equal!(rt; [luma, first_chroma, second_chroma], [None, None, None]);
}

#[test]
fn filter_two_macroblocks(rt: HostRuntime) {
    let alloc = rt.alloc();
    let rt = &rt;
    check_two(rt, &two_macroblocks(rt, alloc));
}

/// Fills a row with (17 x + 31 y) mod 256.
fn fill(row: &mut [u8], y: usize) {
    for x in 0..row.len() {
        row[x] = (x.wrapping_mul(17).wrapping_add(y.wrapping_mul(31)) % 256) as u8;
    }
}

fn fill_plane(picture: &mut Picture, k: usize)
    requires { k < 3 }
{
    let height = picture.plane(k).height();
    for y in 0..height {
        if y < picture.plane(k).height() {
            fill(picture.row_mut(k, y), y);
        }
    }
}

/// The pixels of a plane of at most 48 by 48, in raster order.
#[derive(Clone, Copy)]
struct Pixels {
    all: [u8; 2304],
    width: usize,
}

impl Pixels {
    fn of(plane: &Plane) -> Pixels {
        let width = plane.width();
        let mut pixels = Pixels {
            all: [0; 2304],
            width,
        };
        for y in 0..plane.height() {
            for x in 0..width {
                let pixel = if x < plane.width() {
                    plane.get(x, y)
                } else {
                    0
                };
                pixels.set(y.wrapping_mul(width).wrapping_add(x), pixel);
            }
        }
        pixels
    }

    fn get(&self, at: usize) -> u8 {
        if at < 2304 { self.all[at] } else { 0 }
    }

    fn set(&mut self, at: usize, pixel: u8) {
        if at < 2304 {
            self.all[at] = pixel;
        }
    }

    /// Filters the line of eight pixels that begins at `at`; `apart` is the distance from one pixel to the next.
    fn filter_line(&mut self, at: usize, apart: usize, step: LineStep) {
        let mut eight = [0; 8];
        for k in 0..8 {
            eight[k] = self.get(at.wrapping_add(apart.wrapping_mul(k)));
        }
        let stepped = step.apply(line(eight));
        let changed = [
            stepped.p2, stepped.p1, stepped.p0, stepped.q0, stepped.q1, stepped.q2,
        ];
        for k in 0..6 {
            let place = at.wrapping_add(apart.wrapping_mul(k + 1));
            self.set(place, changed[k]);
        }
    }

    /// Filters an edge: `count` lines; `next` is the distance from one line to the next.
    fn filter_edge(&mut self, at: usize, apart: usize, next: usize, count: usize, step: LineStep) {
        for j in 0..count {
            self.filter_line(at.wrapping_add(next.wrapping_mul(j)), apart, step);
        }
    }

    /// Filters the edges inside a block, at every fourth position.
    fn filter_inside(&mut self, at: usize, apart: usize, next: usize, size: usize, step: LineStep) {
        for i in 0..size.saturating_sub(4) / 4 {
            let edge = at.wrapping_add(apart.wrapping_mul(i.wrapping_mul(4)));
            self.filter_edge(edge, apart, next, size, step);
        }
    }

    /// Filters a block of `size` by `size` pixels from column `x` of row `y`, in the order of RFC 6386, chapter 15. Its
    /// left edge is first, then the vertical edges inside, its top edge, and the horizontal edges inside.
    fn filter_block(&mut self, x: usize, y: usize, size: usize, level: &Level) {
        let width = self.width;
        let at = width.wrapping_mul(y).wrapping_add(x);
        let outer = step_of(level, EdgeKind::Macroblock, level.edge);
        let inner = step_of(level, EdgeKind::Subblock, level.inner);
        if x > 0 {
            self.filter_edge(at.wrapping_sub(4), 1, width, size, outer);
        }
        if level.inner > 0 {
            self.filter_inside(at, 1, width, size, inner);
        }
        if y > 0 {
            let above = at.wrapping_sub(width.wrapping_mul(4));
            self.filter_edge(above, width, 1, size, outer);
        }
        if level.inner > 0 {
            self.filter_inside(at, width, 1, size, inner);
        }
    }

    /// Filters a plane, block by block in raster order.
    fn filter(&mut self, columns: usize, rows: usize, size: usize, level: &Level) {
        for row in 0..rows {
            for column in 0..columns {
                let (x, y) = (column.wrapping_mul(size), row.wrapping_mul(size));
                self.filter_block(x, y, size, level);
            }
        }
    }

    /// Returns the first row in which the plane differs.
    fn differs_at(&self, plane: &Plane) -> Option<usize> {
        for y in 0..plane.height() {
            for x in 0..plane.width() {
                let own = self.get(y.wrapping_mul(self.width).wrapping_add(x));
                if y < plane.height() && own != plane.get(x, y) {
                    return Some(y);
                }
            }
        }
        None
    }
}

/// Returns the step for edges of a kind with this limit. A level of the simple filter has an interior limit of 0.
fn step_of(level: &Level, kind: EdgeKind, limit: u8) -> LineStep {
    LineStep {
        kind: if level.interior == 0 {
            EdgeKind::Simple
        } else {
            kind
        },
        limit,
        interior: level.interior,
        hev: level.hev,
    }
}

/// Filters a plane's pixels line by line, at one level. The simple filter leaves chroma unchanged, and level 0 leaves
/// all planes unchanged.
fn filtered_by_lines(plane: &Plane, k: usize, level: &Level) -> Pixels {
    let mut pixels = Pixels::of(plane);
    let size = if k == 0 { 16 } else { 8 };
    if level.edge > 0 && (k == 0 || level.interior > 0) {
        pixels.filter(plane.width() / size, plane.height() / size, size, level);
    }
    pixels
}

/// Returns the plane and row in which the filtered picture differs from the one filtered line by line.
fn difference(rt: &impl Abort, alloc: Global, dim: Dim, level: Level) -> Option<(usize, usize)> {
    let mut picture = Picture::new(alloc, dim, 0).expect(rt, "memory");
    for k in 0..3 {
        fill_plane(&mut picture, k);
    }
    let before = picture.copy(alloc).expect(rt, "memory");
    if picture_fits(&picture) {
        filter_picture(&mut picture, &[level; 9]);
    }
    first_difference(&before, &picture, &level)
}

fn first_difference(before: &Picture, after: &Picture, level: &Level) -> Option<(usize, usize)> {
    for k in 0..3 {
        let wanted = filtered_by_lines(before.plane(k), k, level);
        if let Some(row) = wanted.differs_at(after.plane(k)) {
            return Some((k, row));
        }
    }
    None
}

/// Returns whether the picture has at most nine macroblocks.
fn picture_fits(picture: &Picture) -> bool
    ensures { IsTrue result ↔ (macroblocks picture.now.height * macroblocks picture.now.width ≤ 9) }
{
    let dim = picture.dim();
    usize::from(dim.mb_rows()) * usize::from(dim.mb_cols()) <= 9
}

/// Returns where they differ for some sharpness, filter type and kind of frame.
fn difference_at(rt: &impl Abort, alloc: Global, dim: Dim, strength: u8) -> Option<(usize, usize)> {
    for sharpness in [0, 1, 5, 7] {
        for (simple, key) in [(false, true), (false, false), (true, true)] {
            let mut header = header(dim);
            header.filter.level = strength;
            header.filter.sharpness = sharpness;
            header.filter.simple = simple;
            header.key = key;
            let kind = MacroblockKind {
                reference: Reference::Intra,
                prediction: ModeClass::Subblocks,
                coded: true,
            };
            let found = difference(rt, alloc, dim, levels(&header, 0, &kind));
            if found.is_some() {
                return found;
            }
        }
    }
    None
}

/// The widths and heights of the pictures.
const SIDES: [u16; 6] = [1, 15, 16, 17, 33, 48];

/// Returns the first height at which they differ on a picture of this width and level.
fn height_of_difference(rt: &impl Abort, alloc: Global, width: u16, strength: u8) -> Option<u16> {
    for height in SIDES {
        let dim = Dim::new(width, height, &Limits::usual()).expect(rt, "a size");
        if difference_at(rt, alloc, dim, strength).is_some() {
            return Some(height);
        }
    }
    None
}

#[test]
fn lanes_filter_as_lines(rt: HostRuntime) {
    let alloc = rt.alloc();
    let rt = &rt;
    for width in SIDES {
        for strength in [0, 1, 16, 63] {
            let height = height_of_difference(rt, alloc, width, strength);
            equal!(rt; (width, strength, height), (width, strength, None));
        }
    }
}

/// Returns the high edge variance threshold of a level, in a key frame or an inter frame.
fn threshold(dim: Dim, key: bool, own: u8) -> u8 {
    let mut header = header(dim);
    header.key = key;
    header.filter.level = own;
    let kind = MacroblockKind {
        reference: Reference::Intra,
        prediction: ModeClass::Whole,
        coded: true,
    };
    levels(&header, 0, &kind).hev
}

/// Levels at both ends of each threshold's range: it changes at 15 and 40 in key frames, and at 15, 20 and 40 in inter
/// frames.
#[test]
fn thresholds_by_frame(rt: HostRuntime) {
    let rt = &rt;
    let dim = size(rt);
    for (own, key, inter) in [
        (1, 0, 0),
        (14, 0, 0),
        (15, 1, 1),
        (19, 1, 1),
        (20, 1, 2),
        (39, 1, 2),
        (40, 2, 3),
        (63, 2, 3),
    ] {
        let found = (threshold(dim, true, own), threshold(dim, false, own));
        equal!(rt; (own, found), (own, (key, inter)));
    }
}

/// The level is halved from sharpness 1 on, and quartered from 5 on; then it is at most 9 minus the sharpness, and at
/// least 1.
#[test]
fn interior_limits(rt: HostRuntime) {
    let rt = &rt;
    let dim = size(rt);
    for (own, sharpness, interior) in [
        (63, 0, 63),
        (63, 1, 8),
        (15, 1, 7),
        (8, 4, 4),
        (63, 4, 5),
        (8, 5, 2),
        (63, 5, 4),
        (8, 7, 2),
        (63, 7, 2),
        (1, 1, 1),
    ] {
        let found = level_with(dim, own, sharpness, None, [0, 0]).interior;
        equal!(rt; (own, sharpness, found), (own, sharpness, interior));
    }
}

/// Returns the strength in the frame's table for a kind of macroblock without coefficients, at level 20 with eight
/// different deltas.
fn strength_of(dim: Dim, reference: Reference, prediction: ModeClass) -> Level {
    let mut header = header(dim);
    header.key = false;
    header.filter.level = 20;
    header.deltas_enabled = true;
    header.deltas = LevelDeltas {
        reference: [1, 2, 3, 4],
        mode: [9, -10, 5, 7],
    };
    let kind = MacroblockKind {
        reference,
        prediction,
        coded: false,
    };
    LevelTable::of(&header).level(0, &kind)
}

/// Each reference and each mode class has its own delta. Without coefficients, only B_PRED and split macroblocks have
/// inner edges filtered. The levels are 21, 30, 12, 28 and 31.
#[test]
fn deltas_by_kind(rt: HostRuntime) {
    let rt = &rt;
    let dim = size(rt);
    for (reference, prediction, wanted) in [
        (Reference::Intra, ModeClass::Whole, strength(67, 0, 21, 2)),
        (
            Reference::Intra,
            ModeClass::Subblocks,
            strength(94, 90, 30, 2),
        ),
        (Reference::Last, ModeClass::Zero, strength(40, 0, 12, 0)),
        (Reference::Golden, ModeClass::Moved, strength(88, 0, 28, 2)),
        (Reference::Alt, ModeClass::Split, strength(97, 93, 31, 2)),
    ] {
        let found = strength_of(dim, reference, prediction);
        equal!(rt; (reference, prediction, found), (reference, prediction, wanted));
    }
}

/// A frame level of 0 turns the filter off, whatever segments and deltas add.
#[test]
fn no_level_no_filter(rt: HostRuntime) {
    let rt = &rt;
    let dim = size(rt);
    equal!(rt; level_with(dim, 0, 0, Some(30), [20, 0]), strength(0, 0, 0, 0));
}
