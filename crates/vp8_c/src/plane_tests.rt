//! Tests of pictures whose planes and whose references differ: each is copied, or lent, as itself.

use crate::call_tests::{PACKETS, copy_reference};
use crate::decoder::{
    vp8_decoder_copy, vp8_decoder_decode, vp8_decoder_decode_keeping, vp8_decoder_free,
    vp8_decoder_lend, vp8_decoder_new,
};
use crate::handle::Handle;
use crate::lent::LentPicture;
use std::alloc::Global;
use std::fmt::Debug;
use std::process::Abort;

/// Fails the test if the values differ, and prints both.
fn equal<T: PartialEq + Debug>(rt: &impl Abort, found: &T, wanted: &T) {
    assert_eq!(rt; found, wanted);
}

/// The planes of a picture of 17 by 1 pixels.
type Planes = ([u8; 17], [u8; 9], [u8; 9]);

/// The pictures that these packets show by vpxdec and by ffmpeg.
const PICTURES: [Planes; 3] = [
    (
        [
            128, 128, 128, 128, 129, 129, 129, 129, 128, 127, 128, 129, 125, 126, 127, 127, 128,
        ],
        [128, 128, 128, 128, 128, 128, 128, 128, 128],
        [128, 128, 128, 128, 127, 128, 128, 129, 129],
    ),
    (
        [
            127, 127, 127, 127, 127, 127, 127, 127, 127, 127, 127, 127, 127, 127, 127, 127, 127,
        ],
        [128, 128, 128, 128, 125, 125, 125, 125, 128],
        [128, 128, 128, 128, 128, 128, 128, 128, 128],
    ),
    (
        [
            128, 128, 128, 128, 128, 128, 128, 128, 134, 134, 134, 134, 134, 130, 126, 123, 127,
        ],
        [133, 133, 133, 133, 128, 128, 128, 128, 128],
        [128, 128, 128, 128, 125, 125, 125, 125, 128],
    ),
];

/// Decodes a packet, and returns the status and the planes of its picture.
fn decode_and_copy(alloc: Global, decoder: &mut Handle, packet: &[u8]) -> (u32, Planes) {
    let mut planes = ([9; 17], [9; 9], [9; 9]);
    let (y, u, v) = (&mut planes.0, &mut planes.1, &mut planes.2);
    let decoded = vp8_decoder_decode(alloc, decoder, packet);
    let copied = vp8_decoder_copy(alloc, decoder, y, 17, u, 9, v, 9);
    (decoded.max(copied), planes)
}

/// Each plane of a picture is copied to the plane of its name.
#[test]
fn planes_are_told_apart(rt: HostRuntime) {
    let alloc = rt.alloc();
    let mut decoder = Handle::closed();
    let opened = vp8_decoder_new(alloc, &mut decoder, 17);
    let first = decode_and_copy(alloc, &mut decoder, PACKETS[0]);
    let second = decode_and_copy(alloc, &mut decoder, PACKETS[1]);
    let third = decode_and_copy(alloc, &mut decoder, PACKETS[2]);
    vp8_decoder_free(alloc, &mut decoder);
    decoder.forget();
    equal(&rt, &opened, &0);
    equal(&rt, &first, &(0, PICTURES[0]));
    equal(&rt, &second, &(0, PICTURES[1]));
    equal(&rt, &third, &(0, PICTURES[2]));
}

/// After three packets the key packet's picture is the last frame, and those of the other two are golden and altref.
#[test]
fn references_are_told_apart(rt: HostRuntime) {
    let alloc = rt.alloc();
    let mut decoder = Handle::closed();
    let opened = vp8_decoder_new(alloc, &mut decoder, 17);
    let decoded = [
        vp8_decoder_decode(alloc, &mut decoder, PACKETS[0]),
        vp8_decoder_decode(alloc, &mut decoder, PACKETS[1]),
        vp8_decoder_decode(alloc, &mut decoder, PACKETS[2]),
    ];
    let last = copy_reference(alloc, &mut decoder, 1);
    let golden = copy_reference(alloc, &mut decoder, 2);
    let altref = copy_reference(alloc, &mut decoder, 3);
    vp8_decoder_free(alloc, &mut decoder);
    decoder.forget();
    equal(&rt, &opened, &0);
    equal(&rt, &decoded, &[0; 3]);
    equal(&rt, &last, &(0, PICTURES[0].0));
    equal(&rt, &golden, &(0, PICTURES[1].0));
    equal(&rt, &altref, &(0, PICTURES[2].0));
}

/// The width and the height in pixels of a lent picture, and the strides of Y, U and V in bytes.
type Layout = (u32, u32, [usize; 3]);

/// Writes the pixels at the beginning of a plane.
fn begin(pixels: &[u8], out: &mut [u8]) {
    for (to, from) in out.iter_mut().zip(pixels) {
        *to = *from;
    }
}

/// Lends the picture of a decoder. Returns the status, the layout, and the row of each plane of the picture that is
/// there to lend. What lies at the addresses is read by the tests of the bindings.
fn lend(alloc: Global, decoder: &mut Handle) -> (u32, Layout, Planes) {
    let mut lent = LentPicture::none();
    let mut planes = ([9; 17], [9; 9], [9; 9]);
    let status = vp8_decoder_lend(alloc, decoder, &mut lent);
    if let Some(held) = decoder.take(alloc) {
        if let Ok(picture) = held.shown() {
            begin(picture.plane(0).pixels(), &mut planes.0);
            begin(picture.plane(1).pixels(), &mut planes.1);
            begin(picture.plane(2).pixels(), &mut planes.2);
        }
        decoder.put(held);
    }
    (status, lent.layout(), planes)
}

/// A picture of 17 by 1 pixels, two macroblocks wide, is lent with rows of 32 and 16 bytes. Without a picture nothing
/// is written.
#[test]
fn pictures_are_lent(rt: HostRuntime) {
    let alloc = rt.alloc();
    let mut decoder = Handle::closed();
    let none = ((9, 9, [9; 3]), ([9; 17], [9; 9], [9; 9]));
    let closed = lend(alloc, &mut decoder);
    let opened = vp8_decoder_new(alloc, &mut decoder, 17);
    let early = lend(alloc, &mut decoder);
    let mut decoded = [9; 4];
    decoded[0] = vp8_decoder_decode(alloc, &mut decoder, PACKETS[0]);
    let first = lend(alloc, &mut decoder);
    decoded[1] = vp8_decoder_decode(alloc, &mut decoder, PACKETS[1]);
    let second = lend(alloc, &mut decoder);
    decoded[2] = vp8_decoder_decode(alloc, &mut decoder, PACKETS[2]);
    let third = lend(alloc, &mut decoder);
    decoded[3] = vp8_decoder_decode_keeping(alloc, &mut decoder, &[0x31]);
    let late = lend(alloc, &mut decoder);
    vp8_decoder_free(alloc, &mut decoder);
    decoder.forget();
    let layout = (17, 1, [32, 16, 16]);
    equal(&rt, &(opened, decoded), &(0, [0, 0, 0, 16]));
    equal(&rt, &closed, &(64, none.0, none.1));
    equal(&rt, &early, &(69, none.0, none.1));
    equal(&rt, &first, &(0, layout, PICTURES[0]));
    equal(&rt, &second, &(0, layout, PICTURES[1]));
    equal(&rt, &third, &(0, layout, PICTURES[2]));
    equal(&rt, &late, &(69, none.0, none.1));
}
