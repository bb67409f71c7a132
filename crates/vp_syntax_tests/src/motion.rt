//! Tests of vp_motion: vectors coded relative to their neighbours, read and written.

ghost use Rattle.std.specs.Prelude.{◌≡◌, ◌<◌};
ghost use Rattle.vp_base.specs.Grid.{Has};
ghost use Rattle.vp_base.specs.Image.{macroblocks};

use crate::check::{equal, size};
use std::alloc::{AllocError, Global};
use std::process::Abort;
use vp_bool::{BoolDecoder, BoolEncoder};
use vp_head::{Header, Reference, Saved, SignBiases, Tag};
use vp_modes::{ModeMap, Place, read_modes};
use vp_motion::{
    MacroblockMotion, Motion, Vector, VectorMap, near, read_motion, read_split, read_vector,
    write_motion, write_vector,
};
use vp_tables::VectorMode::{self, Near, Nearest, New, Split, Zero};

const INTER: Tag = Tag {
    version: 0,
    show: true,
    first_partition: 1,
    key: None,
};

const UNBIASED: SignBiases = SignBiases {
    golden: false,
    alt: false,
};

const STILL: Vector = Vector { row: 0, column: 0 };

const FIRST: Place = Place { column: 0, row: 0 };

const MIDDLE: Place = Place { column: 1, row: 1 };

const FAR: Vector = Vector {
    row: -1023,
    column: -1023,
};

const BEST: Vector = Vector {
    row: 0,
    column: 1023,
};

const SIDE: Vector = Vector {
    row: -1023,
    column: 0,
};

/// Allocates a map for frames of this size.
fn map_of(rt: &impl Abort, alloc: Global, w: u16, h: u16) -> VectorMap
    ensures columns { result.columns ≡ macroblocks w }
    ensures rows { result.rows ≡ macroblocks h }
{
    VectorMap::new(alloc, size(rt, w, h)).expect(rt, "a map")
}

/// Reads the reference of the only macroblock of a frame.
fn reference_of(rt: &impl Abort, alloc: Global, header: &Header, d: &mut BoolDecoder) -> Reference {
    let modes = ModeMap::new(alloc, size(rt, 16, 16)).expect(rt, "a map");
    read_modes(header, &modes, FIRST, d).reference
}

/// The motion that the decoder is at, a vector after it, and the vectors of a split after that.
fn check_far_vectors(rt: &impl Abort, header: &Header, map: &VectorMap, d: &mut BoolDecoder)
    requires { Has map.now FIRST }
{
    let probabilities = &header.probabilities.vectors;
    let motion = read_motion(header, map, FIRST, Reference::Alt, d);
    let far = read_vector(probabilities, d);
    let split = read_split(probabilities, map, FIRST, BEST, d);
    let wanted = Motion {
        mode: Split,
        vectors: [FAR; 16],
    };
    equal!(rt; (motion, far, split), (wanted, FAR, [SIDE; 16]));
}

/// A partition that begins with 255 gives only bools of 1: every optional field of an inter packet is present.
#[test]
fn split_vectors_far_outside(rt: HostRuntime) {
    let alloc = rt.alloc();
    let rt = &rt;
    let map = map_of(rt, alloc, 16, 16);
    let mut d = BoolDecoder::new(&[255]);
    let (header, _) = Header::read(&Saved::defaults(), &INTER, &mut d);
    equal!(rt; reference_of(rt, alloc, &header, &mut d), Reference::Alt);
    check_far_vectors(rt, &header, &map, &mut d);
}

const FOUR: Vector = Vector { row: 4, column: 0 };

fn put_four(map: &mut VectorMap, place: Place)
    requires column { place.column < map.old.columns }
    requires row { place.row < map.old.rows }
    ensures columns { map.new.columns ≡ map.old.columns }
    ensures rows { map.new.rows ≡ map.old.rows }
{
    map.set(place, Reference::Last, New, &[FOUR; 16]);
}

/// Stores motion above the macroblock (1, 1) and to its left.
fn put_neighbours(map: &mut VectorMap)
    requires columns { 1 < map.old.columns }
    requires rows { 1 < map.old.rows }
    ensures columns { map.new.columns ≡ map.old.columns }
    ensures rows { map.new.rows ≡ map.old.rows }
{
    put_four(map, Place { column: 1, row: 0 });
    put_four(map, Place { column: 0, row: 1 });
}

fn check_neighbours(rt: &impl Abort, map: &mut VectorMap)
    requires columns { map.old.columns ≡ 3 }
    requires rows { map.old.rows ≡ 3 }
{
    put_neighbours(map);
    let found = near(map, MIDDLE, Reference::Last, UNBIASED);
    let counts = found.counts;
    let last = map.get(Place { column: 2, row: 2 }).reference;
    equal!(rt; (counts, found.best, last), ([0, 4, 0, 0], FOUR, Reference::Intra));
}

/// A new map, and the motion that is stored in it.
#[test]
fn succeeds_with_memory_map(rt: HostRuntime) {
    let alloc = rt.alloc();
    let rt = &rt;
    let mut map = map_of(rt, alloc, 48, 33);
    equal!(rt; (map.columns(), map.rows()), (3, 3));
    check_neighbours(rt, &mut map);
}

// Random bytes, and the motion of the inter macroblocks of three rows of three that libvpx reads from them with the
// default probabilities.
const BYTES: [u8; 80] = [
    107, 218, 150, 93, 61, 147, 228, 23, 119, 170, 253, 218, 157, 52, 25, 178, 23, 196, 104, 26,
    93, 191, 128, 86, 115, 254, 38, 218, 153, 190, 90, 102, 113, 164, 74, 254, 247, 60, 223, 184,
    136, 57, 154, 8, 7, 60, 238, 42, 225, 234, 202, 192, 49, 233, 176, 44, 14, 230, 163, 95, 78,
    67, 191, 77, 197, 250, 148, 198, 97, 25, 153, 170, 194, 197, 150, 42, 11, 216, 3, 96,
];

const MODES: [VectorMode; 9] = [New, Split, Split, Split, Split, Zero, Split, Near, Nearest];

const ROWS: [[i32; 16]; 9] = [
    [108; 16],
    [0, 0, 0, 0, 0, 0, 0, 0, 108, 108, 108, -65, 0, 0, 108, 108],
    [
        0, 0, 0, 0, 0, 0, 0, 0, -65, -65, -65, -65, -65, -65, -65, -65,
    ],
    [
        108, 108, 108, 108, 108, 108, 108, 108, 0, 0, 108, 108, 0, 0, 108, 108,
    ],
    [
        0, 0, 108, 108, 0, 0, 108, 108, 108, 108, 108, 108, 108, 108, 108, 108,
    ],
    [0; 16],
    [
        0, 0, 108, 108, 0, 0, 108, 108, 0, 0, 108, 108, 0, 0, 108, 108,
    ],
    [-108; 16],
    [-108; 16],
];

const COLUMNS: [[i32; 16]; 9] = [
    [6; 16],
    [0, 0, 0, 0, 0, 0, 0, 0, 6, 6, 6, 32, 0, 0, 6, 6],
    [0, 0, 0, 0, 0, 0, 0, 0, 32, 32, 32, 32, 32, 32, 32, 32],
    [6, 6, 6, 6, 6, 6, 6, 6, 0, 0, 6, 6, 0, 0, 6, 6],
    [0, 0, 6, 6, 0, 0, 6, 6, 6, 6, 6, 6, 6, 6, 6, 6],
    [0; 16],
    [0, 0, 6, 6, 0, 0, 6, 6, 0, 0, 6, 6, 0, 0, 6, 6],
    [-6; 16],
    [-6; 16],
];

const REFERENCES: [Reference; 9] = [
    Reference::Last,
    Reference::Golden,
    Reference::Last,
    Reference::Alt,
    Reference::Last,
    Reference::Intra,
    Reference::Golden,
    Reference::Last,
    Reference::Alt,
];

/// Returns the first block whose vector isn't the expected one of macroblock i.
fn first_other_block(vectors: &[Vector; 16], i: usize) -> Option<usize>
    requires { i < 9 }
{
    for (b, vector) in vectors.iter().enumerate() {
        if vector.row != ROWS[i][b] || vector.column != COLUMNS[i][b] {
            return Some(b);
        }
    }
    None
}

/// Returns the next motion. The decoder stays where it is.
fn next_motion(
    header: &Header,
    map: &VectorMap,
    place: Place,
    reference: Reference,
    d: &BoolDecoder,
) -> Motion
    requires { Has map.now place }
{
    read_motion(header, map, place, reference, &mut d.copy())
}

/// The motion that is read of macroblock i, and the one that is kept, are as expected.
fn check_motion(rt: &impl Abort, i: usize, read: &Motion, kept: &MacroblockMotion)
    requires { i < 9 }
{
    let of_read = (read.mode, first_other_block(&read.vectors, i));
    let of_kept = (
        kept.mode,
        first_other_block(&kept.vectors, i),
        kept.reference,
    );
    let wanted = (MODES[i], None);
    equal!(rt; (i, of_read, of_kept), (i, wanted, (MODES[i], None, REFERENCES[i])));
}

/// Reads a macroblock's motion, and stores it in the map: both are as expected.
fn put_next(
    rt: &impl Abort,
    header: &Header,
    map: &mut VectorMap,
    place: Place,
    d: &mut BoolDecoder,
)
    requires columns { map.old.columns ≡ 3 }
    requires rows { map.old.rows ≡ 3 }
    requires column { place.column < 3 }
    requires row { place.row < 3 }
    ensures columns { map.new.columns ≡ 3 }
    ensures rows { map.new.rows ≡ 3 }
{
    let i = place.row * 3 + place.column;
    let reference = REFERENCES[i];
    let motion = next_motion(header, map, place, reference, d);
    let read = read_motion(header, map, place, reference, d);
    map.set(place, reference, read.mode, &read.vectors);
    check_motion(rt, i, &motion, map.get(place));
}

/// Puts all macroblocks but the intra one.
fn put_all(rt: &impl Abort, header: &Header, map: &mut VectorMap, d: &mut BoolDecoder)
    requires columns { map.old.columns ≡ 3 }
    requires rows { map.old.rows ≡ 3 }
{
    put_next(rt, header, map, FIRST, d);
    put_next(rt, header, map, Place { column: 1, row: 0 }, d);
    put_next(rt, header, map, Place { column: 2, row: 0 }, d);
    put_next(rt, header, map, Place { column: 0, row: 1 }, d);
    put_next(rt, header, map, MIDDLE, d);
    put_next(rt, header, map, Place { column: 0, row: 2 }, d);
    put_next(rt, header, map, Place { column: 1, row: 2 }, d);
    put_next(rt, header, map, Place { column: 2, row: 2 }, d);
}

/// Returns the header of an empty partition.
fn empty_header() -> Header {
    let (header, _) = Header::read(&Saved::defaults(), &INTER, &mut BoolDecoder::new(&[]));
    header
}

#[test]
fn vectors_by_their_neighbours(rt: HostRuntime) {
    let mut header = empty_header();
    header.biases.golden = true;
    let alloc = rt.alloc();
    let rt = &rt;
    let mut map = map_of(rt, alloc, 48, 48);
    put_all(rt, &header, &mut map, &mut BoolDecoder::new(&BYTES));
}

const MIXED: Vector = Vector { row: 4, column: -9 };

/// Writes two vectors.
fn written_vectors(rt: &impl Abort, alloc: Global, probabilities: &[[u8; 19]; 2]) -> Vec<u8> {
    let mut e = BoolEncoder::new(alloc);
    write_vector(probabilities, MIXED, &mut e).expect(rt, "memory");
    write_vector(probabilities, SIDE, &mut e).expect(rt, "memory");
    e.finish().expect(rt, "memory")
}

/// Two vectors in one partition, coded with the default probabilities.
#[test]
fn write_vector_examples(rt: HostRuntime) {
    let alloc = rt.alloc();
    let rt = &rt;
    let probabilities = &Saved::defaults().probabilities.vectors;
    let bytes = written_vectors(rt, alloc, probabilities);
    let mut d = BoolDecoder::new(&bytes);
    let found = [
        read_vector(probabilities, &mut d),
        read_vector(probabilities, &mut d),
    ];
    equal!(rt; found, [MIXED, SIDE]);
}

/// Writes a motion with the reference `Last`, if its mode can give its vector. Returns whether it is written.
fn write_if_given(
    header: &Header,
    map: &VectorMap,
    place: Place,
    mode: VectorMode,
    vector: Vector,
    e: &mut BoolEncoder,
) -> Result<bool, AllocError>
    requires { Has map.now place }
{
    let candidates = near(map, place, Reference::Last, header.biases);
    if !candidates.can_give(mode, vector) {
        return Ok(false);
    }
    let motion = Motion {
        mode,
        vectors: [vector; 16],
    };
    write_motion(header, map, place, Reference::Last, &motion, e)?;
    Ok(true)
}

/// The farthest vector down from (4, 0), and one farther.
const DOWN: Vector = Vector {
    row: 1027,
    column: -1023,
};

const TOO_FAR: Vector = Vector {
    row: 1028,
    column: -1023,
};

/// Motions between two neighbours with (4, 0), and some that their modes can't give.
const GIVEN: [(VectorMode, Vector); 4] = [
    (Zero, STILL),
    (Nearest, FOUR),
    (Near, STILL),
    (New, DOWN),
];

const REFUSED: [(VectorMode, Vector); 4] = [
    (Zero, FOUR),
    (Nearest, STILL),
    (New, TOO_FAR),
    (Split, FOUR),
];

/// Returns the first of these motions that is written, or that isn't.
fn first_given(
    header: &Header,
    map: &VectorMap,
    place: Place,
    motions: &[(VectorMode, Vector)],
    is_given: bool,
    e: &mut BoolEncoder,
) -> Result<Option<usize>, AllocError>
    requires { Has map.now place }
{
    for (i, (mode, vector)) in motions.iter().enumerate() {
        if write_if_given(header, map, place, *mode, *vector, e)? == is_given {
            return Ok(Some(i));
        }
    }
    Ok(None)
}

/// Returns the first motion that isn't read back from these bytes.
fn first_other(header: &Header, map: &VectorMap, place: Place, bytes: &[u8]) -> Option<usize>
    requires { Has map.now place }
{
    let mut d = BoolDecoder::new(bytes);
    for (i, (mode, vector)) in GIVEN.iter().enumerate() {
        let wanted = Motion {
            mode: *mode,
            vectors: [*vector; 16],
        };
        if read_motion(header, map, place, Reference::Last, &mut d) != wanted {
            return Some(i);
        }
    }
    None
}

/// Writes the motions that can be coded, and reads them back. Returns the first of them that isn't written, the first
/// other that is, and the first that isn't read back.
fn read_back(
    rt: &impl Abort,
    alloc: Global,
    header: &Header,
    map: &VectorMap,
    place: Place,
) -> (Option<usize>, Option<usize>, Option<usize>)
    requires { Has map.now place }
{
    let mut e = BoolEncoder::new(alloc);
    let given = first_given(header, map, place, &GIVEN, false, &mut e).expect(rt, "memory");
    let refused = first_given(header, map, place, &REFUSED, true, &mut e).expect(rt, "memory");
    let bytes = e.finish().expect(rt, "memory");
    (given, refused, first_other(header, map, place, &bytes))
}

/// All modes except split.
#[test]
fn motions_read_back(rt: HostRuntime) {
    let alloc = rt.alloc();
    let rt = &rt;
    let mut map = map_of(rt, alloc, 32, 32);
    put_neighbours(&mut map);
    let first = read_back(rt, alloc, &empty_header(), &map, MIDDLE);
    equal!(rt; (map.columns(), map.rows(), first), (2, 2, (None, None, None)));
}
