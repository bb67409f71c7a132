//! Tests of vp_recon: intra macroblocks.

ghost use Rattle.std.specs.Prelude.{◌≡◌, ◌≤◌, ◌≤ℤ◌, pos, negsuc};

use crate::check::equal;
use std::alloc::Global;
use std::process::Abort;
use vp_base::{Dim, Limits, Picture, Place, Plane};
use vp_head::Reference;
use vp_modes::Modes;
use vp_quant::Factors;
use vp_recon::{Predictor, rebuild_macroblock, rebuild_subblock};
use vp_tables::{ChromaMode, LumaMode, SubMode};
use vp_tokens::{Block, Tokens};

pub(crate) const FACTORS: Factors = Factors {
    y_dc: 4,
    y_ac: 4,
    y2_dc: 8,
    y2_ac: 8,
    uv_dc: 4,
    uv_ac: 4,
};

pub(crate) const TOP: Place = Place { column: 0, row: 0 };

fn modes(luma: LumaMode) -> Modes {
    Modes {
        segment: 0,
        skip: false,
        reference: Reference::Intra,
        luma,
        subs: [SubMode::Dc; 16],
        chroma: ChromaMode::Dc,
    }
}

/// Returns the first pixel that isn't that of the empty picture: its position, its value, and the expected one. Luma is
/// 128 in rows 0 to 3 and 129 below, of 16 columns and 32 rows, and chroma is 128.
fn first_not_empty(bytes: &[u8]) -> Option<(usize, u8, u8)> {
    for (i, byte) in bytes.iter().enumerate() {
        let wanted = if i >= 64 && i < 512 { 129 } else { 128 };
        if *byte != wanted {
            return Some((i, *byte, wanted));
        }
    }
    None
}

/// Fails the test if this isn't the empty picture.
fn check_empty(rt: &impl Abort, alloc: Global, picture: &Picture) {
    let bytes = picture.crop_i420(alloc).expect(rt, "memory");
    equal!(rt; (bytes.len(), first_not_empty(&bytes)), (768, None));
}

/// Two B_PRED macroblocks without residue give the empty picture.
fn rebuild_empty(rt: &impl Abort, alloc: Global, picture: &mut Picture)
    requires width { picture.old.width ≡ 16 }
    requires height { picture.old.height ≡ 32 }
{
    let below = Place { column: 0, row: 1 };
    let modes = modes(LumaMode::B);
    let source = Predictor::Intra(&modes);
    let tokens = Tokens {
        blocks: [Block::NONE; 25],
    };
    rebuild_macroblock(picture, TOP, &source, &tokens, &FACTORS);
    rebuild_macroblock(picture, below, &source, &tokens, &FACTORS);
    check_empty(rt, alloc, picture);
}

#[test]
fn two_macroblock_rows(rt: HostRuntime) {
    let alloc = rt.alloc();
    let rt = &rt;
    let dim = Dim::new(16, 32, &Limits::usual()).expect(rt, "a size");
    let mut picture = Picture::new(alloc, dim, 0).expect(rt, "memory");
    rebuild_empty(rt, alloc, &mut picture);
}

/// Returns the 4 by 4 block of the plane at column and row `at`.
fn block_at(plane: &Plane, at: usize) -> Option<[[u8; 4]; 4]>
    requires { at ≤ 4 }
{
    if plane.width() < 8 || plane.height() < 8 {
        return None;
    }
    let mut block = [[0; 4]; 4];
    for y in 0..4 {
        block[y].copy_from_slice(&plane.row(at + y)[at..at + 4]);
    }
    Some(block)
}

const LEAST: Block = Block {
    levels: [-2114; 16],
    end: 16,
};

const FIRST_OF_ONES: [[u8; 4]; 4] = [
    [0, 255, 0, 0],
    [255, 0, 255, 251],
    [0, 255, 0, 5],
    [0, 251, 5, 104],
];

/// Returns a black picture of one macroblock.
fn black(rt: &impl Abort, alloc: Global) -> Picture
    ensures width { result.width ≡ 16 }
    ensures height { result.height ≡ 16 }
{
    let dim = Dim::new(16, 16, &Limits::usual()).expect(rt, "a size");
    Picture::new(alloc, dim, 0).expect(rt, "memory")
}

/// Returns a picture of one macroblock, first black, rebuilt with this luma mode.
fn rebuilt(rt: &impl Abort, alloc: Global, luma: LumaMode, tokens: &Tokens) -> Picture {
    let mut picture = black(rt, alloc);
    let modes = modes(luma);
    rebuild_macroblock(
        &mut picture,
        TOP,
        &Predictor::Intra(&modes),
        tokens,
        &FACTORS,
    );
    picture
}

/// Returns the first block of each plane.
fn first_blocks(picture: &Picture) -> [Option<[[u8; 4]; 4]>; 3] {
    [
        block_at(picture.plane(0), 0),
        block_at(picture.plane(1), 0),
        block_at(picture.plane(2), 0),
    ]
}

/// Returns whether a macroblock with this luma mode has a Y2 block.
fn has_y2(luma: LumaMode) -> bool {
    Predictor::Intra(&modes(luma)).has_y2()
}

/// Returns the first block of each plane, rebuilt from the least levels.
fn blocks_of_ones(rt: &impl Abort, alloc: Global) -> [Option<[[u8; 4]; 4]>; 3] {
    let tokens = Tokens {
        blocks: [LEAST; 25],
    };
    first_blocks(&rebuilt(rt, alloc, LumaMode::B, &tokens))
}

#[test]
fn all_ones_tokens(rt: HostRuntime) {
    let alloc = rt.alloc();
    let rt = &rt;
    let wanted = [Some(FIRST_OF_ONES); 3];
    equal!(rt; (has_y2(LumaMode::B), blocks_of_ones(rt, alloc)), (false, wanted));
}

/// Returns a black picture's first subblock, rebuilt from this block.
fn subblock_of(
    rt: &impl Abort,
    alloc: Global,
    block: &Block,
    factors: &Factors,
) -> Option<[[u8; 4]; 4]> {
    let mut picture = black(rt, alloc);
    rebuild_subblock(&mut picture, TOP, SubMode::Dc, block, factors);
    block_at(picture.plane(0), 0)
}

#[test]
fn one_subblock(rt: HostRuntime) {
    let found = subblock_of(&rt, rt.alloc(), &LEAST, &FACTORS);
    equal!(&rt; found, Some(FIRST_OF_ONES));
}

/// Two levels; the product of the first one exceeds 16 bits.
const GREAT: Block = Block {
    levels: [300, 1, 0, 0, 0, 0, 0, 0, 0, 0, 0, 0, 0, 0, 0, 0],
    end: 2,
};

/// 300 times 157 is 47,100, an eighth of which exceeds 255 for each pixel. In 16 bits it would wrap to a negative
/// number.
#[test]
fn great_products_do_not_wrap(rt: HostRuntime) {
    let factors = Factors {
        y_dc: 157,
        y_ac: 284,
        ..FACTORS
    };
    let found = subblock_of(&rt, rt.alloc(), &GREAT, &factors);
    equal!(&rt; found, Some([[255; 4]; 4]));
}

const Y2: Block = Block {
    levels: [5, -3, 0, 0, 0, 0, 0, 0, 0, 0, 0, 0, 0, 0, 0, 0],
    end: 2,
};

const SIXTH: Block = Block {
    levels: [0, 7, -9, 0, 0, 0, 0, 0, 0, 0, 0, 0, 0, 0, 0, 0],
    end: 3,
};

fn tokens_of_two_blocks() -> Tokens {
    let mut blocks = [Block::NONE; 25];
    blocks[0] = Y2;
    blocks[6] = SIXTH;
    Tokens { blocks }
}

const MIXED: [[u8; 4]; 4] = [
    [127, 124, 120, 118],
    [130, 128, 124, 121],
    [135, 133, 129, 126],
    [139, 136, 132, 130],
];

/// Returns the first and the last pixel of a plane of one macroblock.
fn corners(plane: &Plane) -> Option<(u8, u8)> {
    if plane.width() != 16 || plane.height() != 16 {
        return None;
    }
    Some((plane.get(0, 0), plane.get(15, 15)))
}

/// Returns luma where the sixth block is, and in its corners, which show Y2 alone.
fn luma_of_two_blocks(rt: &impl Abort, alloc: Global) -> (Option<[[u8; 4]; 4]>, Option<(u8, u8)>) {
    let picture = rebuilt(rt, alloc, LumaMode::Dc, &tokens_of_two_blocks());
    (block_at(picture.plane(0), 4), corners(picture.plane(0)))
}

#[test]
fn first_coefficients_of_y2(rt: HostRuntime) {
    let alloc = rt.alloc();
    let rt = &rt;
    let wanted = (Some(MIXED), Some((128, 129)));
    equal!(rt; (has_y2(LumaMode::Dc), luma_of_two_blocks(rt, alloc)), (true, wanted));
}

const OTHER: Block = Block {
    levels: [3, 0, 0, 40, 0, -25, 0, 0, 0, 0, 0, 0, 0, 0, 0, 0],
    end: 6,
};

/// Its coefficients are too large for the path for pairs of subblocks.
const LARGE: Block = Block {
    levels: [0, 600, 0, 0, 0, 0, 0, 0, 0, 0, 0, 0, 0, 0, 0, 0],
    end: 2,
};

/// Returns a block with only a DC level.
fn first_alone(level: i16) -> Block
    requires low { negsuc 99 ≤ℤ level }
    requires high { level ≤ℤ pos 100 }
{
    let mut levels = [0; 16];
    levels[0] = level;
    Block { levels, end: 1 }
}

/// Pairs of adjacent subblocks: both with AC levels, both with DC only, one of each, and one too large.
fn tokens_of_pairs() -> Tokens {
    let mut blocks = [Block::NONE; 25];
    blocks[1] = SIXTH;
    blocks[2] = OTHER;
    blocks[3] = LARGE;
    blocks[4] = SIXTH;
    blocks[17] = first_alone(30);
    blocks[18] = first_alone(-7);
    blocks[21] = first_alone(9);
    blocks[22] = OTHER;
    Tokens { blocks }
}

/// Returns four rows of eight pixels of the plane from column `x` of its first row on.
fn pair_at(plane: &Plane, x: usize) -> Option<[[u8; 8]; 4]>
    requires { x ≤ 8 }
{
    if plane.width() < x + 8 || plane.height() < 4 {
        return None;
    }
    let mut pair = [[0; 8]; 4];
    for y in 0..4 {
        pair[y].copy_from_slice(&plane.row(y)[x..x + 8]);
    }
    Some(pair)
}

const BOTH_WITH_AC: [[u8; 8]; 4] = [
    [127, 124, 120, 118, 136, 161, 161, 136],
    [130, 127, 124, 121, 96, 121, 121, 96],
    [135, 132, 129, 126, 96, 121, 121, 96],
    [139, 136, 132, 130, 136, 161, 161, 136],
];

const LARGE_AND_AC: [[u8; 8]; 4] = [
    [255, 255, 0, 0, 127, 124, 120, 118],
    [255, 255, 0, 0, 130, 127, 124, 121],
    [255, 255, 0, 0, 135, 132, 129, 126],
    [255, 255, 0, 0, 139, 136, 132, 130],
];

const BOTH_WITH_DC: [u8; 8] = [143, 143, 143, 143, 125, 125, 125, 125];

const DC_AND_AC: [[u8; 8]; 4] = [
    [133, 133, 133, 133, 137, 162, 162, 137],
    [133, 133, 133, 133, 97, 122, 122, 97],
    [133, 133, 133, 133, 97, 122, 122, 97],
    [133, 133, 133, 133, 137, 162, 162, 137],
];

/// Fails the test if the planes have other pairs.
fn check_pairs(rt: &impl Abort, picture: &Picture) {
    let luma = picture.plane(0);
    let pairs = [
        pair_at(luma, 0),
        pair_at(luma, 8),
        pair_at(picture.plane(1), 0),
        pair_at(picture.plane(2), 0),
    ];
    let wanted = [
        Some(BOTH_WITH_AC),
        Some(LARGE_AND_AC),
        Some([BOTH_WITH_DC; 4]),
        Some(DC_AND_AC),
    ];
    equal!(rt; (pairs, corners(luma)), (wanted, Some((127, 128))));
}

/// The expected sums come from the formulas of RFC 6386, chapter 14, computed by an independent script. The prediction
/// is 128 everywhere.
#[test]
fn subblocks_side_by_side(rt: HostRuntime) {
    let alloc = rt.alloc();
    let rt = &rt;
    check_pairs(rt, &rebuilt(rt, alloc, LumaMode::Dc, &tokens_of_pairs()));
}
