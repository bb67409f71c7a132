//! Tests of vp_base: pictures, planes, grids, sizes and limits, and counting and failing devices.

ghost use Rattle.std.specs.Prelude.{◌≡◌, ◌<◌};

use crate::check::{equal, size};
use std::alloc::Global;
use std::io::{Read, Write};
use std::process::Abort;
use vp_base::{Counted, Dim, DimFault, FailAt, Grid, Limits, Picture, Plane, put_all};

// Returns a picture of 17 by 1 shown pixels, all of them 128.
fn seventeen_pixels(rt: &impl Abort, alloc: Global) -> Picture
    ensures wide { result.width ≡ 17 }
    ensures high { result.height ≡ 1 }
{
    Picture::new(alloc, size(rt, 17, 1), 128).expect(rt, "memory")
}

// The pixels that `mark` writes among the 35 shown ones: positions and values.
const MARKS: [(usize, u8); 6] = [(14, 5), (15, 6), (16, 1), (24, 2), (25, 4), (26, 3)];

// Writes a block, a pixel, a run and a row's first pixel. Returns a pixel of the block that isn't shown.
fn mark(picture: &mut Picture) -> u8
    requires wide { picture.old.width ≡ 17 }
    requires high { picture.old.height ≡ 1 }
{
    let _known = picture.dim();
    picture.write_block::<2>(0, 14, 0, &[5, 6, 7, 8]);
    picture.set(0, 16, 0, 1);
    picture.write_run(1, 7, 0, &[2, 4]);
    picture.row_mut(2, 0)[0] = 3;
    picture.plane(0).get(15, 1)
}

// Returns the value of `marks` at position i, or 128.
fn value_at(i: usize, marks: &[(usize, u8)]) -> u8 {
    for (at, value) in marks {
        if *at == i {
            return *value;
        }
    }
    128
}

// Returns the first pixel that is neither 128 nor as marked: its position, its value and the wanted one.
fn first_other(bytes: &[u8], marks: &[(usize, u8)]) -> Option<(usize, u8, u8)> {
    for (i, byte) in bytes.iter().enumerate() {
        let wanted = value_at(i, marks);
        if *byte != wanted {
            return Some((i, *byte, wanted));
        }
    }
    None
}

// The 35 shown pixels are 128, except for the marks.
fn check_shown(rt: &impl Abort, alloc: Global, picture: &Picture, marks: &[(usize, u8)]) {
    let bytes = picture.crop_i420(alloc).expect(rt, "memory");
    let found = (bytes.len(), first_other(&bytes, marks));
    equal!(rt; (marks, found), (marks, (35, None)));
}

// A picture is marked. The copy that was made before keeps its pixels.
#[test]
fn seventeen_by_one(rt: HostRuntime) {
    let alloc = rt.alloc();
    let rt = &rt;
    let mut picture = seventeen_pixels(rt, alloc);
    let before = picture.copy(alloc).expect(rt, "memory");
    equal!(rt; mark(&mut picture), 8);
    check_shown(rt, alloc, &before, &[]);
    check_shown(rt, alloc, &picture, &MARKS);
}

// Returns the length and the capacity of the shown pixels, in memory that had this room before.
fn size_of_shown(rt: &impl Abort, alloc: Global, picture: &Picture, room: usize) -> (usize, usize) {
    let mut shown = Vec::with_capacity(alloc, room).expect(rt, "memory");
    picture.crop_into(alloc, &mut shown).expect(rt, "memory");
    (shown.len(), shown.capacity())
}

// The memory of the shown pixels is of their size, whatever memory there was before.
#[test]
fn memory_of_the_size(rt: HostRuntime) {
    let alloc = rt.alloc();
    let rt = &rt;
    let picture = seventeen_pixels(rt, alloc);
    for room in [0, 34, 35, 36, 1_000] {
        equal!(rt; (room, size_of_shown(rt, alloc, &picture, room)), (room, (35, 35)));
    }
}

// Copies a block of a plane of nine pixels. Returns its last pixel, which isn't shown.
fn copy_four(rt: &impl Abort, alloc: Global, picture: &mut Picture) -> u8
    requires wide { picture.old.width ≡ 17 }
    requires high { picture.old.height ≡ 1 }
{
    let _known = picture.dim();
    let mut nine = Plane::new(alloc, 3, 3, 0).expect(rt, "memory");
    nine.write_block::<3>(0, 0, &[1, 2, 3, 4, 5, 6, 7, 8, 9]);
    picture.copy_block::<2>(0, 15, 0, &nine, 1, 1);
    picture.plane(0).get(16, 1)
}

#[test]
fn copied_block(rt: HostRuntime) {
    let alloc = rt.alloc();
    let rt = &rt;
    let mut picture = seventeen_pixels(rt, alloc);
    equal!(rt; copy_four(rt, alloc, &mut picture), 9);
    check_shown(rt, alloc, &picture, &[(15, 5), (16, 6)]);
}

#[test]
fn size_limits(rt: HostRuntime) {
    let rt = &rt;
    let limits = Limits::new(16_384, 1, 1, 1).expect(rt, "limits");
    let refused = [Dim::new(0, 16, &limits), Dim::new(129, 129, &limits)];
    equal!(rt; refused, [Err(DimFault::Size), Err(DimFault::TooLarge)]);
    let dim = Dim::new(128, 128, &limits).expect(rt, "a size");
    equal!(rt; (dim.mb_cols(), dim.mb_rows(), Limits::new(16_384, 1, 0, 1)), (8, 8, None));
}

// Writes two bytes three times. Returns the number of bytes that are written.
fn put_three(writer: &mut Counted<FailAt<Vec<u8>>>) -> u64 {
    let mut written = 0u64;
    for _ in 0..3 {
        if put_all(writer, b"ab").is_ok() {
            written = written.wrapping_add(2);
        }
    }
    written
}

// Writes to a device that fails from its write k on. Returns the number of bytes that are written and that of failures,
// whether flushing fails, the number of failures after it, and that of the bytes that are kept.
fn failures_of(alloc: Global, k: u64) -> (u64, u64, bool, u64, u64) {
    let mut writer = Counted::new(FailAt::new(Vec::new(alloc), k));
    let written = put_three(&mut writer);
    let failures = writer.failures();
    let fails = writer.flush().is_err();
    let after = writer.failures();
    let kept = writer.into_inner().into_inner().len() as u64;
    (written, failures, fails, after, kept)
}

#[test]
fn fails_at_each_write(rt: HostRuntime) {
    let alloc = rt.alloc();
    for k in 0..3u64 {
        equal!(&rt; (k, failures_of(alloc, k)), (k, (2 * k, 3 - k, true, 4 - k, 2 * k)));
    }
}

/// Returns the next two bytes, unless the read fails, and the number of failures so far.
fn next_two(reader: &mut Counted<FailAt<&[u8]>>) -> (Option<[u8; 2]>, u64) {
    let mut piece = [0u8; 2];
    let two = match reader.read(&mut piece) {
        Ok(2) => Some(piece),
        _ => None,
    };
    (two, reader.failures())
}

#[test]
fn reads_are_passed_on(rt: HostRuntime) {
    let mut reader = Counted::new(FailAt::new(&b"abcd"[..], 2));
    let pieces = [
        next_two(&mut reader),
        next_two(&mut reader),
        next_two(&mut reader),
    ];
    let wanted = [(Some(*b"ab"), 0), (Some(*b"cd"), 0), (None, 1)];
    equal!(&rt; (pieces, reader.reads()), (wanted, 3));
}

// Checks the greatest sides, which have 14 bits.
fn check_sides(rt: &impl Abort, limits: &Limits) {
    let dim = size(rt, 16_383, 1);
    let farther = [Dim::new(16_384, 1, limits), Dim::new(1, 16_384, limits)];
    let refused = [Err(DimFault::Size), Err(DimFault::Size)];
    equal!(rt; (dim.mb_cols(), dim.mb_rows(), farther), (1_024, 1, refused));
}

// Checks the greatest limits.
fn check_limits(rt: &impl Abort) {
    let is_limits = Limits::new(268_402_689, 268_435_456, 16_777_216, 4_096).is_some();
    let greater = [
        Limits::new(268_402_690, 1, 1, 1),
        Limits::new(1, 268_435_457, 1, 1),
        Limits::new(1, 1, 16_777_217, 1),
        Limits::new(1, 1, 1, 4_097),
    ];
    equal!(rt; (is_limits, greater), (true, [None, None, None, None]));
}

// The greatest sides, the greatest limits and the default ones.
#[test]
fn greatest_sides_and_limits(rt: HostRuntime) {
    let rt = &rt;
    let usual = Limits::usual();
    let found = (usual.pixels, usual.packet_bytes, usual.packets, usual.cache);
    equal!(rt; found, (16_777_216, 16_777_216, 1_048_576, 16));
    check_sides(rt, &usual);
    check_limits(rt);
}

// The memory of 35 places is used again for six.
#[test]
fn a_grid_refilled(rt: HostRuntime) {
    let rt = &rt;
    let large = Grid::new(rt.alloc(), 7, 5, 1).expect(rt, "memory");
    let grid = large.refill(3, 2, 2).expect(rt, "memory");
    let (columns, rows) = (grid.columns(), grid.rows());
    let entries = grid.into_entries();
    equal!(rt; (columns, rows, entries.as_slice()), (3, 2, [2; 6].as_slice()));
}
