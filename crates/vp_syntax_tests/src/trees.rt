//! Tests of vp_tree: paths, and leaves read and written.

use crate::check::{equal, equal_bytes};
use std::alloc::Global;
use std::process::Abort;
use vp_bool::{BoolDecoder, BoolEncoder};
use vp_tree::TreeEntry::{self, Leaf, Pair};
use vp_tree::{Step, path, path_from, read_tree, read_tree_from, write_tree, write_tree_from};

#[derive(Clone, Copy, Debug, Drop, PartialEq)]
enum Season {
    Spring,
    Summer,
    Autumn,
    Winter,
}

const SEASONS: [TreeEntry<Season>; 6] = [
    Leaf(Season::Spring),
    Pair(2),
    Pair(4),
    Leaf(Season::Winter),
    Leaf(Season::Summer),
    Leaf(Season::Autumn),
];

/// Reads a leaf from these bytes.
fn leaf_of(bytes: &[u8], probabilities: &[u8; 3]) -> Season {
    read_tree(&SEASONS, probabilities, &mut BoolDecoder::new(bytes))
}

/// Reads two leaves from bools of 0: one from the root, and one from pair 2.
fn leaves_of_zeros() -> (Season, Season) {
    let mut zeros = BoolDecoder::new(&[]);
    let root = read_tree(&SEASONS, &[1, 0, 255], &mut zeros);
    let pair = read_tree_from(&SEASONS, &[1, 0, 255], 2, &mut zeros);
    (root, pair)
}

#[test]
fn reads_leaves(rt: HostRuntime) {
    let even = [128; 3];
    // The bools 1, 0, 1: the number 5 in three bits.
    let of_five = leaf_of(&[0x9f, 0xc0], &even);
    let of_ones = leaf_of(&[255], &[255, 0, 1]);
    // A single bool of 1.
    let of_one = read_tree_from(&SEASONS, &even, 4, &mut BoolDecoder::new(&[0x80, 0]));
    let found = (of_five, leaves_of_zeros(), of_ones, of_one);
    let of_zeros = (Season::Spring, Season::Summer);
    equal!(&rt; found, (Season::Autumn, of_zeros, Season::Winter, Season::Autumn));
}

#[test]
fn finds_paths(rt: HostRuntime) {
    let to_autumn = [
        Step { pair: 0, bit: true },
        Step {
            pair: 2,
            bit: false,
        },
        Step { pair: 4, bit: true },
    ];
    let from_root = path(&SEASONS, Season::Autumn);
    let from_pair = path_from(&SEASONS, 2, Season::Autumn);
    let found = (from_root.as_slice(), from_pair.as_slice());
    equal!(&rt; found, (to_autumn.as_slice(), &to_autumn[1..]));
}

/// Writes the bools 1, 0, 1: the number 5 in three bits.
fn autumn(rt: &impl Abort, alloc: Global) -> Vec<u8> {
    let mut e = BoolEncoder::new(alloc);
    write_tree(&SEASONS, &[128; 3], Season::Autumn, &mut e).expect(rt, "memory");
    e.finish().expect(rt, "memory")
}

/// Writes a single bool of 1.
fn autumn_from_its_pair(rt: &impl Abort, alloc: Global) -> Vec<u8> {
    let mut e = BoolEncoder::new(alloc);
    write_tree_from(&SEASONS, &[128; 3], 4, Season::Autumn, &mut e).expect(rt, "memory");
    e.finish().expect(rt, "memory")
}

#[test]
fn writes_leaves(rt: HostRuntime) {
    let alloc = rt.alloc();
    let rt = &rt;
    equal_bytes!(rt; autumn(rt, alloc), &[0x9f, 0xc0]);
    equal_bytes!(rt; autumn_from_its_pair(rt, alloc), &[0x80, 0]);
}
