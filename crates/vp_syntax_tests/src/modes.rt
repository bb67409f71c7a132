//! Tests of vp_modes: modes read from worked partitions and from streams, and written again.

ghost use Rattle.std.specs.Prelude.{◌≡◌, ◌<◌};
ghost use Rattle.vp_base.specs.Image.{macroblocks};

use crate::check::{equal, equal_bytes, size};
use std::alloc::Global;
use std::process::Abort;
use vp_base::Dim;
use vp_bool::{BoolDecoder, BoolEncoder};
use vp_head::{Header, KeyTag, Reference, Saved, Tag};
use vp_modes::{ModeMap, Modes, Place, read_modes, write_modes};
use vp_tables::SubMode::{Dc, Hd, He, Hu, Ld, Rd, Tm, Ve, Vr};
use vp_tables::{ChromaMode, LumaMode, SubMode};

/// Allocates a map for frames of this size.
fn new_map(rt: &impl Abort, alloc: Global, dim: Dim) -> ModeMap
    ensures columns { result.columns ≡ macroblocks dim.w }
    ensures rows { result.rows ≡ macroblocks dim.h }
{
    ModeMap::new(alloc, dim).expect(rt, "a map")
}

fn key_tag(dim: Dim) -> Tag {
    Tag {
        version: 0,
        show: true,
        first_partition: 1,
        key: Some(KeyTag {
            dim,
            horizontal_scale: 0,
            vertical_scale: 0,
        }),
    }
}

const FIRST: Place = Place { column: 0, row: 0 };

/// Reads the first macroblock's modes from a partition of their own, with the header of another one.
fn modes_of(dim: Dim, map: &ModeMap, of_header: &[u8], of_modes: &[u8]) -> Modes
    requires column { 0 < map.now.columns }
    requires row { 0 < map.now.rows }
{
    let (header, _) = Header::read(
        &Saved::defaults(),
        &key_tag(dim),
        &mut BoolDecoder::new(of_header),
    );
    read_modes(&header, map, FIRST, &mut BoolDecoder::new(of_modes))
}

/// A partition that begins with 255 gives only bools of 1.
#[test]
fn all_ones_header(rt: HostRuntime) {
    let alloc = rt.alloc();
    let rt = &rt;
    let dim = size(rt, 16, 16);
    let modes = modes_of(dim, &new_map(rt, alloc, dim), &[255], &[255]);
    let wanted = Modes {
        segment: 3,
        skip: true,
        reference: Reference::Intra,
        luma: LumaMode::Tm,
        subs: modes.subs,
        chroma: ChromaMode::Tm,
    };
    equal!(rt; &modes, &wanted);
}

const CHANGED: Modes = Modes {
    segment: 2,
    skip: true,
    reference: Reference::Golden,
    luma: LumaMode::B,
    subs: [Hu; 16],
    chroma: ChromaMode::H,
};

/// A change of one place of the copy changes no other place, and not the original map.
fn check_change(rt: &impl Abort, map: &ModeMap, copy: &mut ModeMap)
    requires columns { map.now.columns ≡ 2 }
    requires rows { map.now.rows ≡ 3 }
    requires copied_columns { copy.old.columns ≡ 2 }
    requires copied_rows { copy.old.rows ≡ 3 }
{
    let place = Place { column: 1, row: 2 };
    let beside = Place { column: 0, row: 2 };
    let plain = *map.get(place);
    copy.set(place, &CHANGED);
    let found = [*copy.get(place), *copy.get(beside), *map.get(place)];
    equal!(rt; found, [CHANGED, plain, plain]);
}

/// A new map, and one that is copied and then changed.
#[test]
fn succeeds_with_memory_maps(rt: HostRuntime) {
    let alloc = rt.alloc();
    let rt = &rt;
    let map = new_map(rt, alloc, size(rt, 17, 33));
    equal!(rt; (map.columns(), map.rows()), (2, 3));
    let mut copy = map.copy(alloc).expect(rt, "a copy");
    check_change(rt, &map, &mut copy);
}

/// A picture of 16 by 16 pixels, encoded by libwebp.
const PICTURE: [u8; 20] = [
    3, 0, 52, 37, 176, 2, 116, 48, 79, 8, 133, 12, 124, 3, 29, 8, 44, 253, 232, 0,
];

const SUBS_OF_PICTURE: [SubMode; 16] = [
    Dc, Ld, Dc, Tm, Dc, Ld, Rd, Dc, Ld, Dc, Dc, Tm, Tm, Dc, Hu, Hu,
];

/// Reads the first macroblock's modes, which follow the header.
fn modes_after_header(dim: Dim, map: &ModeMap, bytes: &[u8]) -> Modes
    requires column { 0 < map.now.columns }
    requires row { 0 < map.now.rows }
{
    let mut d = BoolDecoder::new(bytes);
    let (header, _) = Header::read(&Saved::defaults(), &key_tag(dim), &mut d);
    read_modes(&header, map, FIRST, &mut d)
}

#[test]
fn modes_of_a_picture(rt: HostRuntime) {
    let alloc = rt.alloc();
    let rt = &rt;
    let dim = size(rt, 16, 16);
    let modes = modes_after_header(dim, &new_map(rt, alloc, dim), &PICTURE);
    let subs = modes.subs;
    let found = (modes.luma, subs, modes.chroma);
    equal!(rt; found, (LumaMode::B, SUBS_OF_PICTURE, ChromaMode::V));
}

/// A header with segmentation and skipping, and four macroblocks with random modes, the first of them not B_PRED.
const FOUR: [u8; 42] = [
    53, 226, 121, 200, 0, 0, 0, 64, 1, 6, 47, 195, 174, 105, 99, 6, 195, 189, 51, 32, 249, 213, 89,
    77, 66, 205, 207, 181, 77, 255, 67, 232, 104, 113, 33, 125, 119, 21, 158, 84, 103, 32,
];

const MODES: [Modes; 4] = [
    Modes {
        segment: 3,
        skip: false,
        reference: Reference::Intra,
        luma: LumaMode::V,
        subs: [Dc; 16],
        chroma: ChromaMode::V,
    },
    Modes {
        segment: 1,
        skip: true,
        reference: Reference::Intra,
        luma: LumaMode::B,
        subs: [
            Rd, Ve, Vr, Dc, Tm, Hd, Tm, Rd, Hu, Dc, Hd, He, Dc, Tm, Vr, Vr,
        ],
        chroma: ChromaMode::Tm,
    },
    Modes {
        segment: 2,
        skip: true,
        reference: Reference::Intra,
        luma: LumaMode::B,
        subs: [
            Tm, He, Tm, Hd, Vr, Dc, Hu, Tm, He, Hu, Dc, Hu, Hu, Vr, Dc, He,
        ],
        chroma: ChromaMode::H,
    },
    Modes {
        segment: 0,
        skip: false,
        reference: Reference::Intra,
        luma: LumaMode::B,
        subs: [
            Dc, Hd, Ve, Ld, Vr, Ve, Hd, Tm, Hu, Ld, Hd, Ve, Tm, Hu, Hu, He,
        ],
        chroma: ChromaMode::Dc,
    },
];

/// Reads a macroblock, stores it in the map, and checks it.
fn put_next(rt: &impl Abort, header: &Header, map: &mut ModeMap, place: Place, d: &mut BoolDecoder)
    requires columns { map.old.columns ≡ 2 }
    requires rows { map.old.rows ≡ 2 }
    requires column { place.column < 2 }
    requires row { place.row < 2 }
    ensures columns { map.new.columns ≡ 2 }
    ensures rows { map.new.rows ≡ 2 }
{
    let modes = read_modes(header, map, place, d);
    map.set(place, &modes);
    equal!(rt; (place, modes), (place, MODES[place.row * 2 + place.column]));
}

/// Reads, stores and checks the four macroblocks.
fn put_four(rt: &impl Abort, header: &Header, map: &mut ModeMap, d: &mut BoolDecoder)
    requires columns { map.old.columns ≡ 2 }
    requires rows { map.old.rows ≡ 2 }
{
    put_next(rt, header, map, FIRST, d);
    put_next(rt, header, map, Place { column: 1, row: 0 }, d);
    put_next(rt, header, map, Place { column: 0, row: 1 }, d);
    put_next(rt, header, map, Place { column: 1, row: 1 }, d);
}

/// Checks the four macroblocks of the partition.
fn check_four(rt: &impl Abort, dim: Dim, map: &mut ModeMap)
    requires columns { map.old.columns ≡ 2 }
    requires rows { map.old.rows ≡ 2 }
{
    let mut d = BoolDecoder::new(&FOUR);
    let (header, _) = Header::read(&Saved::defaults(), &key_tag(dim), &mut d);
    put_four(rt, &header, map, &mut d);
}

#[test]
fn modes_by_their_neighbours(rt: HostRuntime) {
    let alloc = rt.alloc();
    let rt = &rt;
    let dim = size(rt, 32, 32);
    check_four(rt, dim, &mut new_map(rt, alloc, dim));
}

/// Reads a partition's header and the first macroblock's modes, and writes them again.
fn written_again(rt: &impl Abort, alloc: Global, dim: Dim, map: &ModeMap, bytes: &[u8]) -> Vec<u8>
    requires column { 0 < map.now.columns }
    requires row { 0 < map.now.rows }
{
    let saved = Saved::defaults();
    let tag = key_tag(dim);
    let mut d = BoolDecoder::new(bytes);
    let (header, _) = Header::read(&saved, &tag, &mut d);
    let modes = read_modes(&header, map, FIRST, &mut d);
    let mut e = BoolEncoder::new(alloc);
    header.write(&saved, &tag, &mut e).expect(rt, "memory");
    write_modes(&header, map, FIRST, &modes, &mut e).expect(rt, "memory");
    e.finish().expect(rt, "memory")
}

#[test]
fn a_picture_written_again(rt: HostRuntime) {
    let alloc = rt.alloc();
    let rt = &rt;
    let dim = size(rt, 16, 16);
    let bytes = written_again(rt, alloc, dim, &new_map(rt, alloc, dim), &PICTURE);
    // libwebp's partition has one more byte of 0.
    equal_bytes!(rt; bytes, &PICTURE[..19]);
}
