//! Tests of a long run of an encoder, and of the forward transforms of numbers far larger than any residue.

use crate::check::equal;
use crate::worked_rows::{flat, settings};
use std::process::Abort;
use vp_base::Picture;
use vp_encode::Encoder;
use vp_transform::{fdct, fwht};

/// Encodes a picture as frame `number`, and compares its kind: by its lowest bit (RFC 6386, chapter 9.1) every 64th
/// packet is a key packet.
fn check_kind(rt: &impl Abort, encoder: &mut Encoder, source: &Picture, number: usize) {
    let encoded = encoder.encode(source).expect(rt, "a frame");
    let first = encoded.packet.as_slice().first().expect(rt, "a packet");
    equal!(rt; (number, first % 2 == 0), (number, number % 64 == 0));
}

/// Encodes 66 frames.
fn check_kinds(rt: &impl Abort, encoder: &mut Encoder, source: &Picture) {
    for number in 0..66 {
        check_kind(rt, encoder, source, number);
    }
}

/// Frames 0 and 64 are key frames of an encoder whose `key_every` is 64.
#[test]
fn a_key_frame_behind_64_frames(rt: HostRuntime) {
    let source = flat(&rt, rt.alloc(), 128);
    let mut encoder = Encoder::new(rt.alloc(), source.dim(), settings(0, 1)).expect(
        &rt, "settings",
    );
    check_kinds(&rt, &mut encoder, &source);
}

/// Sixteen times the least level times the greatest luma DC factor, and the same numbers with the signs of a
/// chessboard. The expected results come from the formulas, computed by an independent script.
#[test]
fn great_numbers_forward(rt: HostRuntime) {
    let level = [-2114 * 157; 16];
    let mut first = [0; 16];
    first[0] = -2_655_184;
    equal!(&rt; [fdct(&level), fwht(&level)], [first, first]);
    let [low, high] = [-2114 * 157, 2114 * 157];
    let turned = [
        low, high, low, high, high, low, high, low, low, high, low, high, high, low, high, low,
    ];
    let mut last = [0; 16];
    last[15] = -2_655_184;
    equal!(&rt; fwht(&turned), last);
    last[5] = -388_857;
    last[7] = -938_838;
    last[13] = -938_838;
    last[15] = -2_266_688;
    equal!(&rt; fdct(&turned), last);
}
