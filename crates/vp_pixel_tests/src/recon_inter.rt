//! Tests of vp_recon: inter macroblocks.

ghost use Rattle.std.specs.Prelude.{◌≡◌, ◌<◌};

use crate::check::equal;
use crate::recon::{FACTORS, TOP};
use std::alloc::Global;
use std::process::Abort;
use vp_base::{Dim, Limits, Picture};
use vp_head::Reference;
use vp_motion::{MacroblockMotion, Vector};
use vp_recon::{Predictor, predict_macroblock, rebuild_macroblock};
use vp_tables::VectorMode;
use vp_tokens::{Block, Tokens};

/// One luma pixel to the right.
const RIGHT: Vector = Vector { row: 0, column: 4 };

const STILL: Vector = Vector { row: 0, column: 0 };

/// The positions in a picture at which pixels of 200 begin and end.
type Lit = (usize, usize);

/// Returns the first pixel that isn't as expected: its position, its value, and the expected one. Pixels are 200 from
/// one position to another, and 7 elsewhere.
fn first_other(bytes: &[u8], lit: Lit) -> Option<(usize, u8, u8)> {
    for (i, byte) in bytes.iter().enumerate() {
        let wanted = if i >= lit.0 && i < lit.1 { 200 } else { 7 };
        if *byte != wanted {
            return Some((i, *byte, wanted));
        }
    }
    None
}

/// Returns the size of a macroblock.
fn size(rt: &impl Abort) -> Dim
    ensures width { result.w ≡ 16 }
    ensures height { result.h ≡ 16 }
{
    Dim::new(16, 16, &Limits::usual()).expect(rt, "a size")
}

/// Returns a picture of 16 by 16 pixels, all 7 except for one luma pixel, which is 200.
fn lit_at(rt: &impl Abort, alloc: Global, dim: Dim, x: usize, y: usize) -> Picture
    requires width { dim.w ≡ 16 }
    requires height { dim.h ≡ 16 }
    requires column { x < 16 }
    requires row { y < 16 }
{
    let mut picture = Picture::new(alloc, dim, 7).expect(rt, "memory");
    let _known = picture.dim();
    picture.set(0, x, y, 200);
    picture
}

/// Returns the number of a picture's pixels, and the first that isn't as expected.
fn other_pixel(
    rt: &impl Abort,
    alloc: Global,
    picture: &Picture,
    lit: Lit,
) -> (usize, Option<(usize, u8, u8)>) {
    let bytes = picture.crop_i420(alloc).expect(rt, "memory");
    (bytes.len(), first_other(&bytes, lit))
}

/// Fails the test if the macroblock rebuilt with this motion, without residue, has other pixels.
fn check_rebuilt(
    rt: &impl Abort,
    alloc: Global,
    dim: Dim,
    motion: &MacroblockMotion,
    reference: &Picture,
    lit: Lit,
)
    requires width { dim.w ≡ 16 }
    requires height { dim.h ≡ 16 }
{
    let tokens = Tokens {
        blocks: [Block::NONE; 25],
    };
    let source = Predictor::Inter {
        motion,
        reference,
        version: 0,
    };
    let mut rebuilt = Picture::new(alloc, dim, 0).expect(rt, "memory");
    rebuild_macroblock(&mut rebuilt, TOP, &source, &tokens, &FACTORS);
    equal!(rt; other_pixel(rt, alloc, &rebuilt, lit), (384, None));
}

/// Fails the test if the macroblock predicted with this motion has other pixels.
fn check_predicted(
    rt: &impl Abort,
    alloc: Global,
    dim: Dim,
    motion: &MacroblockMotion,
    reference: &Picture,
    lit: Lit,
)
    requires width { dim.w ≡ 16 }
    requires height { dim.h ≡ 16 }
{
    let source = Predictor::Inter {
        motion,
        reference,
        version: 0,
    };
    let mut predicted = Picture::new(alloc, dim, 0).expect(rt, "memory");
    predict_macroblock(&mut predicted, TOP, &source);
    equal!(rt; other_pixel(rt, alloc, &predicted, lit), (384, None));
}

/// Fails the test if the luma pixel at column `x` of row `y` is not moved as expected, by either function.
fn check_moved(
    rt: &impl Abort,
    alloc: Global,
    motion: &MacroblockMotion,
    x: usize,
    y: usize,
    lit: Lit,
)
    requires column { x < 16 }
    requires row { y < 16 }
{
    let dim = size(rt);
    let reference = lit_at(rt, alloc, dim, x, y);
    check_rebuilt(rt, alloc, dim, motion, &reference, lit);
    check_predicted(rt, alloc, dim, motion, &reference, lit);
}

fn moved() -> MacroblockMotion {
    MacroblockMotion {
        reference: Reference::Last,
        mode: VectorMode::New,
        vectors: [RIGHT; 16],
    }
}

#[test]
fn a_moved_macroblock(rt: HostRuntime) {
    check_moved(&rt, rt.alloc(), &moved(), 5, 3, (52, 53));
}

fn split() -> MacroblockMotion {
    let mut vectors = [STILL; 16];
    vectors[0] = RIGHT;
    MacroblockMotion {
        reference: Reference::Last,
        mode: VectorMode::Split,
        vectors,
    }
}

#[test]
fn a_split_macroblock(rt: HostRuntime) {
    check_moved(&rt, rt.alloc(), &split(), 4, 0, (3, 5));
}
