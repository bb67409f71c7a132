//! Tests of vp_intra: predicted blocks, worked by hand.

ghost use Rattle.std.specs.Prelude.{◌≡◌};

use crate::check::equal;
use std::alloc::Global;
use std::process::Abort;
use vp_base::Plane;
use vp_intra::{predict_chroma, predict_luma, predict_sub, predict_sub_modes};
use vp_tables::{ChromaMode, LumaMode, SubMode};

/// Returns a plane of 32 by 32 different pixels.
fn sample(rt: &impl Abort, alloc: Global) -> Plane {
    let mut plane = Plane::new(alloc, 32, 32, 0).expect(rt, "memory");
    for y in 0..plane.height() {
        for x in 0..plane.width() {
            if x < plane.width() && y < plane.height() {
                plane.set(x, y, ((x * x * 7 + y * 53 + x * y * 11) % 251) as u8);
            }
        }
    }
    plane
}

// The prediction of each subblock mode at column 4 of row 4.
const SUB_MODES: [(SubMode, [u8; 16]); 10] = [
    (
        SubMode::Dc,
        [
            172, 172, 172, 172, 172, 172, 172, 172, 172, 172, 172, 172, 172, 172, 172, 172,
        ],
    ),
    (
        SubMode::Tm,
        [
            238, 255, 193, 255, 255, 255, 255, 255, 159, 255, 114, 238, 245, 255, 200, 255,
        ],
    ),
    (
        SubMode::Ve,
        [
            156, 189, 173, 172, 156, 189, 173, 172, 156, 189, 173, 172, 156, 189, 173, 172,
        ],
    ),
    (
        SubMode::He,
        [
            156, 156, 156, 156, 179, 179, 179, 179, 140, 140, 140, 140, 142, 142, 142, 142,
        ],
    ),
    (
        SubMode::Ld,
        [
            189, 173, 172, 122, 173, 172, 122, 85, 172, 122, 85, 126, 122, 85, 126, 132,
        ],
    ),
    (
        SubMode::Rd,
        [
            112, 156, 189, 173, 156, 112, 156, 189, 179, 156, 112, 156, 140, 179, 156, 112,
        ],
    ),
    (
        SubMode::Vr,
        [
            111, 200, 178, 169, 112, 156, 189, 173, 156, 111, 200, 178, 179, 112, 156, 189,
        ],
    ),
    (
        SubMode::Vl,
        [
            200, 178, 169, 175, 189, 173, 172, 122, 178, 169, 175, 85, 173, 172, 122, 126,
        ],
    ),
    (
        SubMode::Hd,
        [
            113, 112, 156, 189, 199, 156, 113, 112, 160, 179, 199, 156, 120, 140, 160, 179,
        ],
    ),
    (
        SubMode::Hu,
        [
            199, 179, 160, 140, 160, 140, 120, 142, 120, 142, 163, 163, 163, 163, 163, 163,
        ],
    ),
];

/// Fails the test if a subblock mode gives another prediction.
fn check_modes(rt: &impl Abort, plane: &Plane)
    requires width { plane.now.width ≡ 32 }
    requires height { plane.now.height ≡ 32 }
{
    for (mode, pixels) in &SUB_MODES {
        let found = predict_sub(plane, 4, 4, *mode);
        equal!(rt; (*mode, found), (*mode, *pixels));
    }
}

const RIGHT_OF_MACROBLOCK: [u8; 16] = [
    79, 100, 158, 178, 100, 158, 178, 105, 158, 178, 105, 75, 178, 105, 75, 139,
];

const RIGHT_OF_FRAME: [u8; 16] = [
    95, 89, 106, 105, 89, 106, 105, 87, 106, 105, 87, 87, 105, 87, 87, 87,
];

/// Fails the test if the plane has another size.
fn check_size(rt: &impl Abort, plane: &Plane)
    ensures width { plane.now.width ≡ 32 }
    ensures height { plane.now.height ≡ 32 }
{
    let (width, height) = (plane.width(), plane.height());
    if width != 32 || height != 32 {
        panic!(rt; "a plane of {width} by {height} in place of 32 by 32");
    }
}

/// Fails the test if a subblock is predicted otherwise.
fn check_subs(rt: &impl Abort, plane: &Plane) {
    check_size(rt, plane);
    check_modes(rt, plane);
    let right = predict_sub(plane, 12, 20, SubMode::Ld);
    let at_end = predict_sub(plane, 28, 20, SubMode::Ld);
    // The fifth mode is LD.
    let fifth = predict_sub_modes(plane, 12, 20)[4];
    equal!(rt; [right, at_end, fifth], [RIGHT_OF_MACROBLOCK, RIGHT_OF_FRAME, RIGHT_OF_MACROBLOCK]);
}

#[test]
fn ten_subblock_modes(rt: HostRuntime) {
    let alloc = rt.alloc();
    let rt = &rt;
    check_subs(rt, &sample(rt, alloc));
}

const ROW_OF_MOTION: [u8; 16] = [
    255, 220, 128, 255, 237, 187, 151, 129, 121, 127, 147, 181, 229, 255, 255, 206,
];

/// Fails the test if a whole block is predicted otherwise.
fn check_whole(rt: &impl Abort, plane: &Plane) {
    check_size(rt, plane);
    let mean = predict_luma(plane, 16, 16, LumaMode::Dc)[255];
    let motion = predict_luma(plane, 16, 16, LumaMode::Tm);
    let outside = predict_chroma(plane, 0, 0, ChromaMode::V)[63];
    let beside = predict_chroma(plane, 0, 8, ChromaMode::H)[0];
    let found = (mean, &motion[48..64], outside, beside);
    equal!(rt; found, (108, ROW_OF_MOTION.as_slice(), 127, 129));
}

#[test]
fn whole_modes(rt: HostRuntime) {
    let alloc = rt.alloc();
    let rt = &rt;
    check_whole(rt, &sample(rt, alloc));
}
