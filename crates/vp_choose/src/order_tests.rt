//! Tests of ties and near-ties between costs, worked by hand.

ghost use Rattle.std.specs.Prelude.{◌≡◌, ◌<◌, ◌≤◌};
ghost use Rattle.vp_motion.specs.Vector.{IsWithin};

use crate::check::equal;
use crate::chroma::choose_chroma;
use crate::frame::Search;
use crate::luma::choose_luma_below;
use crate::motion::{choose_reference, mode_of};
use crate::searchers::inter_searchers;
use crate::tests::FACTORS;
use std::alloc::{AllocError, Global};
use std::rc::Rc;
use std::test::Fail;
use vp_base::{Dim, Limits, Picture, Place};
use vp_head::{
    Filter, Header, QuantiserIndices, Reference, ReferenceCopy, ReferenceProbabilities,
    ReferenceUpdates, Saved, Segmentation,
};
use vp_motion::{Candidates, Vector};
use vp_recon::{MacroblockPixels, SegmentFactors};
use vp_refs::Refs;
use vp_tables::{ChromaMode, LumaMode, VectorMode};

/// The pixels above the first macroblock are 127, and those to its left 129.
const FIRST: Place = Place { column: 0, row: 0 };

const SECOND: Place = Place { column: 1, row: 1 };

/// The LD prediction from 130 above and 127 above and to the right, except for its first pixel, which would be 130.
const SLOPE: [u8; 16] = [
    129, 130, 129, 128, 130, 129, 128, 127, 129, 128, 127, 127, 128, 127, 127, 127,
];

fn put(picture: &mut Picture, k: usize, x: usize, y: usize, value: u8)
    requires { k < 3 }
{
    if x < picture.plane(k).width() && y < picture.plane(k).height() {
        picture.set(k, x, y, value);
    }
}

/// Writes the pixels around the second macroblock: a corner, and two alternating values above it and to its left.
fn surround(picture: &mut Picture, k: usize, side: usize, corner: u8, beside: [[u8; 2]; 2])
    requires plane { k < 3 }
    requires side { (1 ≤ side) × (side ≤ 16) }
{
    put(picture, k, side - 1, side - 1, corner);
    for i in 0..side {
        put(picture, k, side + i, side - 1, beside[0][i % 2]);
        put(picture, k, side - 1, side + i, beside[1][i % 2]);
    }
}

/// Returns the luma mode of a macroblock; None outside the picture.
fn luma_mode(block: &[u8; 256], picture: &mut Picture, place: Place) -> Option<LumaMode>
    ensures { picture.new ≡ picture.old }
{
    let dim = picture.dim();
    if place.column >= usize::from(dim.mb_cols()) || place.row >= usize::from(dim.mb_rows()) {
        return None;
    }
    let Some(chosen) = choose_luma_below(
        block,
        &SegmentFactors::of(&FACTORS),
        picture,
        place,
        u32::MAX,
    ) else {
        return None;
    };
    Some(chosen.mode)
}

/// Returns the chroma mode of a macroblock whose U and V are equal; None outside the picture.
fn chroma_mode(block: &[u8; 64], picture: &Picture, place: Place) -> Option<ChromaMode> {
    let dim = picture.dim();
    if place.column >= usize::from(dim.mb_cols()) || place.row >= usize::from(dim.mb_rows()) {
        return None;
    }
    let blocks = MacroblockPixels {
        luma: [0; 256],
        u: *block,
        v: *block,
    };
    Some(choose_chroma(&blocks, picture, place).mode)
}

/// `number`, and `number + 1` in nine subblocks: those of the lower half, and the first of the row above it.
fn nine_more(number: u8) -> [u8; 256]
    requires { number < 255 }
{
    let mut pixels = [number; 256];
    for i in 0..256 {
        if i >= 128 || (i >= 64 && i % 16 < 4) {
            pixels[i] = number + 1;
        }
    }
    pixels
}

/// `nine_more(129)`, with a slope in the last subblock.
fn nine_more_with_slope() -> [u8; 256] {
    let mut pixels = nine_more(129);
    for i in 0..16 {
        pixels[(12 + i / 4) * 16 + 12 + i % 4] = SLOPE[i];
    }
    pixels
}

/// 100 and 102 alternately: in the first two of each four rows by column, in the others by row.
fn woven<const SIDE: usize, const AREA: usize>() -> [u8; AREA]
    requires { (1 ≤ SIDE) × (AREA ≤ 256) }
{
    let mut pixels = [100; AREA];
    for i in 0..AREA {
        let (row, column) = (i / SIDE, i % SIDE);
        let turn = if row % 4 < 2 { column } else { row };
        if turn % 2 == 1 {
            pixels[i] = 102;
        }
    }
    pixels
}

/// 127 and 128 alternately.
fn between<const AREA: usize>() -> [u8; AREA]
    requires { AREA ≤ 256 }
{
    let mut pixels = [127; AREA];
    for i in 0..AREA {
        if i % 2 == 1 {
            pixels[i] = 128;
        }
    }
    pixels
}

fn square(alloc: Global, side: u16) -> Result<Picture, Fail> {
    let dim = Dim::new(side, side, &Limits::usual())?;
    Ok(Picture::new(alloc, dim, 0)?)
}

/// DC is 128, V 127, H and TM are 129. With nine subblocks of 130 and seven of 129, H costs 9 * 16 = 144, as TM does.
/// B_PRED predicts the first of the nine by 129, for a cost of 16, and all others exactly. The sum 16 + 128 is 144 too,
/// and H is first in order. With a penalty of 127 instead of 128 B_PRED would be chosen.
///
/// With the slope, the last subblock costs H 18 instead of 16, 146 in all. B_PRED predicts it by LD from 130 above and
/// 127 above and to the right, and misses its first pixel by 1. The sum 17 + 128 is 145, less than 146. With a penalty
/// of 129 H would be chosen.
#[test]
fn subblocks_cost_128_more(rt: HostRuntime) -> Result<(), Fail> {
    let mut picture = square(rt.alloc(), 32)?;
    equal!(&rt; luma_mode(&nine_more(129), &mut picture, FIRST), Some(LumaMode::H));
    equal!(&rt; luma_mode(&nine_more_with_slope(), &mut picture, FIRST), Some(LumaMode::B));
    Ok(())
}

/// Between 127 and 128, DC (128) and V (127) cost 128 each, H and TM (129) 384: DC is first in order.
///
/// The second block is below and to the right of 100 and 102 alternately. V misses by 2 the pixels that vary by row,
/// and H those that vary by column: a quarter of the pixels each, so 128. DC (101) and TM (99, 101, 103; the corner is
/// 101) miss all by 1: 256. B_PRED costs 128 at least: V is first in order.
///
/// The third is below 100 and to the right of 102, with 99 at the corner: TM is 103. With nine subblocks of 104 and
/// seven of 103 it costs 144. So does B_PRED, as above. H (102), V (100) and DC (101) cost 400 at least: TM is before
/// B_PRED in order.
#[test]
fn ties_of_luma_modes(rt: HostRuntime) -> Result<(), Fail> {
    let mut picture = square(rt.alloc(), 32)?;
    equal!(&rt; luma_mode(&between(), &mut picture, FIRST), Some(LumaMode::Dc));
    surround(&mut picture, 0, 16, 101, [[100, 102], [100, 102]]);
    equal!(&rt; luma_mode(&woven::<16, 256>(), &mut picture, SECOND), Some(LumaMode::V));
    surround(&mut picture, 0, 16, 99, [[100, 100], [102, 102]]);
    equal!(&rt; luma_mode(&nine_more(103), &mut picture, SECOND), Some(LumaMode::Tm));
    Ok(())
}

/// The ties of luma modes with a quarter of the pixels: DC and V cost 32 in each plane, then V and H. With 129, H and
/// TM cost nothing.
#[test]
fn ties_of_chroma_modes(rt: HostRuntime) -> Result<(), Fail> {
    let mut picture = square(rt.alloc(), 32)?;
    equal!(&rt; chroma_mode(&between(), &picture, FIRST), Some(ChromaMode::Dc));
    equal!(&rt; chroma_mode(&[129; 64], &picture, FIRST), Some(ChromaMode::H));
    surround(&mut picture, 1, 8, 101, [[100, 102], [100, 102]]);
    surround(&mut picture, 2, 8, 101, [[100, 102], [100, 102]]);
    equal!(&rt; chroma_mode(&woven::<8, 64>(), &picture, SECOND), Some(ChromaMode::V));
    Ok(())
}

/// Candidate vectors without weights.
fn candidates(nearest: Vector, near: Vector) -> Candidates
    requires nearest { IsWithin 65536 nearest }
    requires near { IsWithin 65536 near }
    ensures nearest { result.nearest ≡ nearest }
    ensures near { result.near ≡ near }
{
    Candidates {
        counts: [0; 4],
        best: nearest,
        nearest,
        near,
    }
}

/// Two neighbours' vectors that reach too far outside the picture may both be clamped to one vector.
#[test]
fn first_mode_that_gives_a_vector(rt: HostRuntime) {
    let cut = Vector {
        row: 0,
        column: -140,
    };
    let other = Vector { row: 4, column: 0 };
    let still = Vector { row: 0, column: 0 };
    equal!(&rt; mode_of(&candidates(cut, cut), cut), VectorMode::Nearest);
    equal!(&rt; mode_of(&candidates(cut, other), cut), VectorMode::Nearest);
    equal!(&rt; mode_of(&candidates(other, cut), cut), VectorMode::Near);
    equal!(&rt; mode_of(&candidates(other, other), cut), VectorMode::New);
    equal!(&rt; mode_of(&candidates(still, still), still), VectorMode::Zero);
}

/// An inter frame's header that replaces the last frame only.
fn to_last() -> Header {
    let saved = Saved::defaults();
    Header {
        key: false,
        color_space: false,
        clamping_type: false,
        segmentation: Segmentation {
            enabled: false,
            update_map: false,
            values: saved.segments,
            tree_probabilities: [255; 3],
        },
        filter: Filter {
            simple: false,
            level: 0,
            sharpness: 0,
        },
        deltas_enabled: false,
        deltas: saved.deltas,
        log2_partitions: 0,
        quantiser: QuantiserIndices {
            y_ac: 0,
            y_dc: 0,
            y2_dc: 0,
            y2_ac: 0,
            uv_dc: 0,
            uv_ac: 0,
        },
        updates: ReferenceUpdates {
            refresh_golden: false,
            refresh_alt: false,
            copy_to_golden: ReferenceCopy::Nothing,
            copy_to_alt: ReferenceCopy::Nothing,
            refresh_last: true,
        },
        biases: saved.biases,
        refresh_entropy: true,
        probabilities: saved.probabilities,
        skip: None,
        references: ReferenceProbabilities {
            intra: 128,
            last: 128,
            golden: 128,
        },
    }
}

/// A picture whose luma rises by 4 from column to column: `first`, `first` + 4, ..
fn ramp(alloc: Global, first: u8) -> Result<Picture, Fail>
    requires { first ≤ 2 }
{
    let mut picture = square(alloc, 48)?;
    for i in 0..2304 {
        put(&mut picture, 0, i % 48, i / 48, first + 4 * (i % 48) as u8);
    }
    Ok(picture)
}

/// Reference frames to choose from.
fn references(alloc: Global, last: Picture, golden: Picture) -> Result<Refs, Fail> {
    let last = Rc::new(alloc, last)?;
    let mut references = Refs::of_key(Rc::new(alloc, golden)?)?;
    references.update(&to_last(), last)?;
    Ok(references)
}

/// Returns the reference frame that is chosen for a macroblock of the ramp that begins with 2.
fn reference_of(references: &Refs) -> Reference {
    let search = Search {
        references,
        golden: true,
        range: 1,
        subpel: true,
    };
    let mut block = [0; 256];
    for i in 0..256 {
        block[i] = 66 + 4 * (i % 16) as u8;
    }
    choose_reference(&mut inter_searchers(None, &search), &search, &block, SECOND).reference
}

/// The ramp that begins with 2, with one pixel changed.
fn spotted(alloc: Global) -> Result<Picture, Fail> {
    let mut picture = ramp(alloc, 2)?;
    put(&mut picture, 0, 20, 20, 90);
    Ok(picture)
}

/// In whole pixels the ramp that begins with 0 costs 2 a pixel, 512; half a pixel to the right it costs nothing. The
/// changed ramp that begins with 2 costs 8, in one pixel, with or without refinement. So the first is better, but only
/// after refinement, be it last or golden.
#[test]
fn references_are_weighed_refined(rt: HostRuntime) -> Result<(), Fail> {
    let alloc = rt.alloc();
    let better_last = references(alloc, ramp(alloc, 0)?, spotted(alloc)?)?;
    equal!(&rt; reference_of(&better_last), Reference::Last);
    let better_golden = references(alloc, spotted(alloc)?, ramp(alloc, 0)?)?;
    equal!(&rt; reference_of(&better_golden), Reference::Golden);
    Ok(())
}

/// Both references are the ramp that begins with 2, which costs nothing in either.
#[test]
fn last_is_taken_before_golden(rt: HostRuntime) -> Result<(), Fail> {
    let alloc = rt.alloc();
    let equal = references(alloc, ramp(alloc, 2)?, ramp(alloc, 2)?)?;
    equal!(&rt; reference_of(&equal), Reference::Last);
    Ok(())
}

/// A key frame is both references; the frame after it is last alone.
#[test]
fn golden_is_last_after_a_key_frame(rt: HostRuntime) -> Result<(), Fail> {
    let alloc = rt.alloc();
    let mut frames = Refs::of_key(Rc::new(alloc, square(alloc, 16)?)?)?;
    equal!(&rt; frames.golden_is_last(), true);
    frames.update(&to_last(), Rc::new(alloc, square(alloc, 16)?)?)?;
    equal!(&rt; frames.golden_is_last(), false);
    Ok(())
}
