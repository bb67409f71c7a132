//! Tests of calls as C makes them: a handle is opened, used and freed.

use crate::decoder::{
    vp8_decoder_copy, vp8_decoder_corrupt, vp8_decoder_decode, vp8_decoder_decode_keeping,
    vp8_decoder_free, vp8_decoder_new, vp8_decoder_reference, vp8_decoder_reference_size,
    vp8_decoder_size,
};
use crate::encoder::{
    vp8_encoder_encode, vp8_encoder_free, vp8_encoder_new, vp8_encoder_packet,
    vp8_encoder_packet_size, vp8_encoder_reconstruction, vp8_encoder_squared_error,
};
use crate::file_handle::StreamInfo;
use crate::handle::Handle;
use crate::handle_value::HandleValue;
use crate::names::vp8_status_name;
use crate::packet::{FrameInfo, PacketInfo, vp8_decoder_frame, vp8_peek};
use crate::settings::EncoderSettings;
use crate::stream::{
    vp8_stream_copy_i420, vp8_stream_feed, vp8_stream_finish, vp8_stream_free, vp8_stream_get_info,
    vp8_stream_new, vp8_stream_new_empty, vp8_stream_picture_at, vp8_stream_size,
};
use std::alloc::Global;
use std::fmt::Debug;
use std::process::Abort;
use vp_encode::Settings;

/// Fails the test if the values differ, and prints both.
fn equal<T: PartialEq + Debug>(rt: &impl Abort, found: &T, wanted: &T) {
    assert_eq!(rt; found, wanted);
}

/// A key packet of 17 by 1 pixels whose first partition is empty: each pixel of its picture is 128.
const KEY: [u8; 10] = [0x10, 0, 0, 0x9d, 0x01, 0x2a, 17, 0, 1, 0];

/// An inter packet whose first partition is empty.
const INTER: [u8; 3] = [0x11, 0, 0];

/// A file of 17 by 1 pixels, 30 pictures in 2 seconds. It has the key packet, a hidden packet, a packet of one byte,
/// and five of the twelve bytes before a fourth one.
const FILE: [u8; 87] = [
    0x44, 0x4b, 0x49, 0x46, 0, 0, 0x20, 0, 0x56, 0x50, 0x38, 0x30, 17, 0, 1, 0, 30, 0, 0, 0, 2, 0,
    0, 0, 4, 0, 0, 0, 0, 0, 0, 0, 10, 0, 0, 0, 0, 0, 0, 0, 0, 0, 0, 0, 0x10, 0, 0, 0x9d, 0x01,
    0x2a, 17, 0, 1, 0, 3, 0, 0, 0, 1, 0, 0, 0, 0, 0, 0, 0, 0x01, 0, 0, 1, 0, 0, 0, 2, 0, 0, 0, 0,
    0, 0, 0, 0x11, 3, 0, 0, 0, 3,
];

/// Requests each packet of a file, and one that it doesn't have.
#[test]
fn a_file_is_asked(rt: HostRuntime) {
    let alloc = rt.alloc();
    let mut stream = Handle::closed();
    let (mut width, mut height) = (9, 9);
    let mut i420 = [9; 36];
    let unopened = vp8_stream_picture_at(alloc, &mut stream, 0);
    let opened = vp8_stream_new(alloc, &mut stream, &FILE);
    let unasked = vp8_stream_size(alloc, &mut stream, &mut width, &mut height);
    let shown = [
        vp8_stream_picture_at(alloc, &mut stream, 0),
        vp8_stream_size(alloc, &mut stream, &mut width, &mut height),
        vp8_stream_copy_i420(alloc, &mut stream, &mut i420[..34]),
        vp8_stream_copy_i420(alloc, &mut stream, &mut i420),
    ];
    let others = [
        vp8_stream_picture_at(alloc, &mut stream, 1),
        vp8_stream_copy_i420(alloc, &mut stream, &mut i420),
        vp8_stream_picture_at(alloc, &mut stream, 2),
        vp8_stream_picture_at(alloc, &mut stream, 3),
    ];
    vp8_stream_free(alloc, &mut stream);
    stream.forget();
    equal(&rt, &[unopened, opened, unasked], &[64, 0, 69]);
    equal(&rt, &shown, &[0, 0, 71, 0]);
    equal(&rt, &others, &[1, 69, 16, 70]);
    equal(&rt, &(width, height), &(17, 1));
    let mut wanted = [128; 36];
    wanted[35] = 9;
    assert!(rt; i420 == wanted);
}

/// Gets the information about a file that ends inside a packet, and about bytes that are not a file.
#[test]
fn a_file_is_told(rt: HostRuntime) {
    let alloc = rt.alloc();
    let mut stream = Handle::closed();
    let mut info = StreamInfo {
        width: 9,
        height: 9,
        rate: 9,
        scale: 9,
        packets: 9,
        fault: 9,
    };
    let mut other = info;
    let calls = [
        vp8_stream_new(alloc, &mut stream, &FILE),
        vp8_stream_new(alloc, &mut stream, b""),
        vp8_stream_get_info(alloc, &mut stream, &mut info),
    ];
    vp8_stream_free(alloc, &mut stream);
    let again = [
        vp8_stream_get_info(alloc, &mut stream, &mut other),
        vp8_stream_new(alloc, &mut stream, &FILE[1..]),
        vp8_stream_get_info(alloc, &mut stream, &mut other),
    ];
    vp8_stream_free(alloc, &mut stream);
    stream.forget();
    equal(&rt, &calls, &[0, 65, 0]);
    equal(&rt, &again, &[64, 0, 0]);
    equal(
        &rt,
        &(info.width, info.height, info.rate, info.scale),
        &(17, 1, 30, 2),
    );
    equal(&rt, &(info.packets, info.fault), &(3, 36));
    equal(
        &rt,
        &(other.width, other.height, other.rate, other.scale),
        &(0, 0, 0, 0),
    );
    equal(&rt, &(other.packets, other.fault), &(0, 32));
}

/// Feeds bytes one by one, and returns the greatest status.
fn feed_each(alloc: Global, stream: &mut Handle, bytes: &[u8]) -> u32 {
    let mut greatest = 0;
    for byte in bytes {
        greatest = greatest.max(vp8_stream_feed(alloc, stream, &[*byte]));
    }
    greatest
}

/// Returns the number of packets and the fault in the information about a file.
fn count_and_fault(alloc: Global, stream: &mut Handle) -> (u32, u32) {
    let mut info = StreamInfo {
        width: 9,
        height: 9,
        rate: 9,
        scale: 9,
        packets: 9,
        fault: 9,
    };
    let status = vp8_stream_get_info(alloc, stream, &mut info);
    if status == 0 {
        (info.packets, info.fault)
    } else {
        (status, status)
    }
}

/// A file that is fed byte by byte has the packets of the bytes so far, and in the end the answers of the whole file.
#[test]
fn a_file_is_fed(rt: HostRuntime) {
    let alloc = rt.alloc();
    let mut stream = Handle::closed();
    let opened = [
        vp8_stream_new_empty(alloc, &mut stream),
        vp8_stream_new_empty(alloc, &mut stream),
    ];
    let front = [
        feed_each(alloc, &mut stream, &FILE[..53]),
        vp8_stream_picture_at(alloc, &mut stream, 0),
        feed_each(alloc, &mut stream, &FILE[53..54]),
        vp8_stream_picture_at(alloc, &mut stream, 0),
    ];
    let early = count_and_fault(alloc, &mut stream);
    let rest = [
        feed_each(alloc, &mut stream, &FILE[54..]),
        vp8_stream_picture_at(alloc, &mut stream, 1),
        vp8_stream_picture_at(alloc, &mut stream, 2),
        vp8_stream_picture_at(alloc, &mut stream, 3),
    ];
    let late = count_and_fault(alloc, &mut stream);
    let finished = [
        vp8_stream_finish(alloc, &mut stream),
        vp8_stream_finish(alloc, &mut stream),
        vp8_stream_feed(alloc, &mut stream, &FILE),
        vp8_stream_picture_at(alloc, &mut stream, 2),
    ];
    let last = count_and_fault(alloc, &mut stream);
    vp8_stream_free(alloc, &mut stream);
    stream.forget();
    equal(&rt, &opened, &[0, 65]);
    equal(&rt, &front, &[0, 70, 0, 0]);
    equal(&rt, &rest, &[0, 1, 16, 70]);
    equal(&rt, &finished, &[36, 36, 37, 16]);
    equal(&rt, &[early, late, last], &[(1, 0), (3, 0), (3, 36)]);
}

/// A closed handle and a decoder take no piece. A file with a fault, and a whole file, take no more.
#[test]
fn pieces_are_refused(rt: HostRuntime) {
    let alloc = rt.alloc();
    let mut stream = Handle::closed();
    let mut decoder = Handle::closed();
    let closed = [
        vp8_stream_feed(alloc, &mut stream, &FILE),
        vp8_stream_finish(alloc, &mut stream),
        vp8_decoder_new(alloc, &mut decoder, 17),
        vp8_stream_feed(alloc, &mut decoder, &FILE),
        vp8_stream_finish(alloc, &mut decoder),
    ];
    vp8_decoder_free(alloc, &mut decoder);
    decoder.forget();
    let faulty = [
        vp8_stream_new_empty(alloc, &mut stream),
        vp8_stream_feed(alloc, &mut stream, &FILE[1..]),
        vp8_stream_feed(alloc, &mut stream, &FILE),
        vp8_stream_finish(alloc, &mut stream),
    ];
    let fault = count_and_fault(alloc, &mut stream);
    vp8_stream_free(alloc, &mut stream);
    let whole = [
        vp8_stream_new(alloc, &mut stream, &FILE[..82]),
        vp8_stream_feed(alloc, &mut stream, &FILE[82..]),
        vp8_stream_finish(alloc, &mut stream),
    ];
    vp8_stream_free(alloc, &mut stream);
    stream.forget();
    equal(&rt, &closed, &[64, 64, 0, 64, 64]);
    equal(&rt, &faulty, &[0, 32, 32, 32]);
    equal(&rt, &fault, &(0, 32));
    equal(&rt, &whole, &[0, 37, 0]);
}

/// Returns the number of packets decoded for the requests of a stream.
fn decoded_for(alloc: Global, stream: &mut Handle) -> u64 {
    let Some(held) = stream.take(alloc) else {
        return 0;
    };
    let decoded = match &*held {
        HandleValue::Stream(asked) => asked.decoded,
        HandleValue::Decoder(_) | HandleValue::Encoder(_) => 0,
    };
    stream.put(held);
    decoded
}

/// Packets in order are decoded once each, and the one decoded last not again. In another order, decoding starts at the
/// key packet or goes on after the last request, and each answer is the same.
#[test]
fn packets_in_order_are_decoded_once(rt: HostRuntime) {
    let alloc = rt.alloc();
    let mut stream = Handle::closed();
    let ordered = [
        vp8_stream_new(alloc, &mut stream, &FILE),
        vp8_stream_picture_at(alloc, &mut stream, 0),
        vp8_stream_picture_at(alloc, &mut stream, 1),
        vp8_stream_picture_at(alloc, &mut stream, 2),
        vp8_stream_picture_at(alloc, &mut stream, 2),
    ];
    let once = decoded_for(alloc, &mut stream);
    let others = [
        vp8_stream_picture_at(alloc, &mut stream, 1),
        vp8_stream_picture_at(alloc, &mut stream, 3),
        vp8_stream_picture_at(alloc, &mut stream, 2),
        vp8_stream_picture_at(alloc, &mut stream, 0),
        vp8_stream_picture_at(alloc, &mut stream, 2),
    ];
    let more = decoded_for(alloc, &mut stream);
    vp8_stream_free(alloc, &mut stream);
    stream.forget();
    equal(&rt, &ordered, &[0, 0, 1, 16, 16]);
    equal(&rt, &others, &[1, 70, 16, 0, 16]);
    equal(&rt, &(once, more), &(3, 9));
}

/// Copies a packet's picture to the caller's rows, and tries sizes for which no decoder can be opened.
#[test]
fn a_packet_is_decoded(rt: HostRuntime) {
    let alloc = rt.alloc();
    let mut decoder = Handle::closed();
    let (mut width, mut height) = (9, 9);
    let (mut y, mut u, mut v) = ([9; 18], [9; 9], [9; 9]);
    let refused = [
        vp8_decoder_new(alloc, &mut decoder, 0),
        vp8_decoder_new(alloc, &mut decoder, 268_402_690),
        vp8_decoder_decode(alloc, &mut decoder, &KEY),
    ];
    let small = [
        vp8_decoder_new(alloc, &mut decoder, 16),
        vp8_decoder_decode(alloc, &mut decoder, &KEY),
        vp8_decoder_size(alloc, &mut decoder, &mut width, &mut height),
    ];
    vp8_decoder_free(alloc, &mut decoder);
    let calls = [
        vp8_decoder_new(alloc, &mut decoder, 17),
        vp8_decoder_new(alloc, &mut decoder, 17),
        vp8_decoder_decode(alloc, &mut decoder, &KEY),
        vp8_decoder_size(alloc, &mut decoder, &mut width, &mut height),
        vp8_decoder_copy(alloc, &mut decoder, &mut y, 17, &mut u, 9, &mut v, 9),
        vp8_decoder_decode(alloc, &mut decoder, &[0x01, 0, 0]),
        vp8_decoder_copy(alloc, &mut decoder, &mut y, 17, &mut u, 9, &mut v, 9),
    ];
    vp8_decoder_free(alloc, &mut decoder);
    decoder.forget();
    equal(&rt, &refused, &[67, 67, 64]);
    equal(&rt, &small, &[0, 20, 69]);
    equal(&rt, &calls, &[0, 65, 0, 0, 0, 1, 69]);
    equal(&rt, &(width, height), &(17, 1));
    let mut wanted = [128; 18];
    wanted[17] = 9;
    assert!(rt; y == wanted && u == [128; 9] && v == [128; 9]);
}

/// Decodes packets by a decoder that goes on after damage, and returns the statuses of the packets and of asking for
/// the size after each.
fn kept_and_sized(alloc: Global, decoder: &mut Handle, packets: [&[u8]; 5]) -> [(u32, u32); 5] {
    let (mut width, mut height) = (9, 9);
    let mut found = [(0, 0); 5];
    for (status, packet) in found.iter_mut().zip(packets) {
        status.0 = vp8_decoder_decode_keeping(alloc, decoder, packet);
        status.1 = vp8_decoder_size(alloc, decoder, &mut width, &mut height);
    }
    found
}

/// A packet with a fault between good ones shows no picture. The packets after it are decoded as if it had not come. An
/// empty packet after it shows the last picture again.
#[test]
fn decoding_goes_on_after_damage(rt: HostRuntime) {
    let alloc = rt.alloc();
    let mut decoder = Handle::closed();
    let closed = vp8_decoder_decode_keeping(alloc, &mut decoder, &KEY);
    let opened = vp8_decoder_new(alloc, &mut decoder, 17);
    let first = kept_and_sized(
        alloc,
        &mut decoder,
        [&INTER, &KEY, &KEY[..9], &INTER, &INTER[..2]],
    );
    let second = kept_and_sized(
        alloc,
        &mut decoder,
        [&[], &[0x18, 0, 0], &[0x31, 0, 0], &INTER, &[0x01, 0, 0]],
    );
    let dropped = [
        vp8_decoder_decode(alloc, &mut decoder, &KEY[..9]),
        vp8_decoder_decode_keeping(alloc, &mut decoder, &INTER),
    ];
    vp8_decoder_free(alloc, &mut decoder);
    decoder.forget();
    equal(&rt, &(closed, opened), &(64, 0));
    equal(&rt, &first, &[(21, 69), (0, 0), (16, 69), (0, 0), (16, 69)]);
    equal(&rt, &second, &[(0, 0), (17, 69), (22, 69), (0, 0), (1, 69)]);
    equal(&rt, &dropped, &[16, 21]);
}

/// Returns the status of peeking at a packet, and the numbers.
fn peeked(packet: &[u8]) -> [u32; 5] {
    let mut info = PacketInfo {
        key: 9,
        shown: 9,
        width: 9,
        height: 9,
    };
    let status = vp8_peek(packet, &mut info);
    [status, info.key, info.shown, info.width, info.height]
}

/// The first bytes of a packet say its kind, and those of a key packet its size.
#[test]
fn packets_are_peeked(rt: HostRuntime) {
    let great = [0, 0, 0, 0x9d, 0x01, 0x2a, 0xff, 0xff, 0xff, 0x7f];
    equal(&rt, &peeked(&KEY), &[0, 1, 1, 17, 1]);
    equal(&rt, &peeked(&great), &[0, 1, 0, 16383, 16383]);
    equal(&rt, &peeked(&[0x11, 0, 0]), &[0, 0, 1, 0, 0]);
    equal(&rt, &peeked(&[0x07, 9, 9, 9]), &[0, 0, 0, 0, 0]);
    equal(&rt, &peeked(&KEY[..9]), &[16, 9, 9, 9, 9]);
    equal(&rt, &peeked(&[0x11, 0]), &[16, 9, 9, 9, 9]);
    equal(&rt, &peeked(&[0x19, 0, 0]), &[17, 9, 9, 9, 9]);
    equal(&rt, &peeked(&[0; 10]), &[18, 9, 9, 9, 9]);
    equal(
        &rt,
        &peeked(&[0, 0, 0, 0x9d, 0x01, 0x2a, 0, 0xc0, 1, 0]),
        &[19, 9, 9, 9, 9],
    );
}

/// Returns the status of asking a decoder for the facts of its last packet, and the numbers.
fn frame(alloc: Global, decoder: &mut Handle) -> (u32, [u32; 12]) {
    let mut info = FrameInfo {
        key: 9,
        version: 9,
        shown: 9,
        width: 9,
        height: 9,
        horizontal_scale: 9,
        vertical_scale: 9,
        quantiser: 9,
        refreshes_last: 9,
        refreshes_golden: 9,
        refreshes_altref: 9,
        corrupt: 9,
    };
    let status = vp8_decoder_frame(alloc, decoder, &mut info);
    let numbers = [
        info.key,
        info.version,
        info.shown,
        info.width,
        info.height,
        info.horizontal_scale,
        info.vertical_scale,
        info.quantiser,
        info.refreshes_last,
        info.refreshes_golden,
        info.refreshes_altref,
        info.corrupt,
    ];
    (status, numbers)
}

/// Decodes a packet, and returns its status, that of asking for its facts, and the numbers.
fn decode_for_facts(alloc: Global, decoder: &mut Handle, packet: &[u8]) -> (u32, u32, [u32; 12]) {
    let decoded = vp8_decoder_decode_keeping(alloc, decoder, packet);
    let (asked, numbers) = frame(alloc, decoder);
    (decoded, asked, numbers)
}

/// A key packet with upscaling codes 1 and 2, and an inter packet whose bools are all 1; libvpx flags both. Packets
/// with faults and empty packets have no facts.
#[test]
fn facts_of_frames_are_written(rt: HostRuntime) {
    let alloc = rt.alloc();
    let mut decoder = Handle::closed();
    let scaled = [0x14, 0, 0, 0x9d, 0x01, 0x2a, 17, 0x40, 1, 0x80];
    let mut ones = [0; 25];
    ones[..4].copy_from_slice(&[0x27, 0, 0, 0xff]);
    let closed = frame(alloc, &mut decoder);
    let opened = vp8_decoder_new(alloc, &mut decoder, 17);
    let fresh = frame(alloc, &mut decoder);
    let early = decode_for_facts(alloc, &mut decoder, &INTER);
    let key = decode_for_facts(alloc, &mut decoder, &scaled);
    let cut = decode_for_facts(alloc, &mut decoder, &ones[..24]);
    let all = decode_for_facts(alloc, &mut decoder, &ones);
    let empty = decode_for_facts(alloc, &mut decoder, &[]);
    vp8_decoder_free(alloc, &mut decoder);
    decoder.forget();
    equal(&rt, &(closed, opened), &((64, [9; 12]), 0));
    equal(&rt, &fresh, &(69, [9; 12]));
    equal(&rt, &early, &(21, 69, [9; 12]));
    equal(&rt, &key, &(0, 0, [1, 2, 1, 17, 1, 1, 2, 0, 1, 1, 1, 1]));
    equal(&rt, &cut, &(23, 69, [9; 12]));
    equal(&rt, &all, &(1, 0, [0, 3, 0, 17, 1, 0, 0, 127, 1, 1, 1, 1]));
    equal(&rt, &empty, &(0, 69, [9; 12]));
}

/// Quantiser indices, references and damage as libvpx gives them: of a key packet, of inter packets for golden and
/// altref, and of a key packet without its last byte.
#[test]
fn facts_are_those_of_libvpx(rt: HostRuntime) {
    let alloc = rt.alloc();
    let mut decoder = Handle::closed();
    let opened = vp8_decoder_new(alloc, &mut decoder, 17);
    let key = decode_for_facts(alloc, &mut decoder, PACKETS[0]);
    let golden = decode_for_facts(alloc, &mut decoder, PACKETS[1]);
    let altref = decode_for_facts(alloc, &mut decoder, PACKETS[2]);
    let cut = decode_for_facts(alloc, &mut decoder, &WHOLE[..40]);
    vp8_decoder_free(alloc, &mut decoder);
    decoder.forget();
    equal(&rt, &opened, &0);
    equal(&rt, &key, &(0, 0, [1, 0, 1, 17, 1, 0, 0, 0, 1, 1, 1, 0]));
    equal(
        &rt,
        &golden,
        &(0, 0, [0, 0, 1, 17, 1, 0, 0, 30, 0, 1, 0, 0]),
    );
    equal(
        &rt,
        &altref,
        &(0, 0, [0, 0, 1, 17, 1, 0, 0, 30, 0, 0, 1, 0]),
    );
    equal(&rt, &cut, &(0, 0, [1, 0, 1, 17, 1, 0, 0, 0, 1, 1, 1, 1]));
}

/// Settings whose numbers all differ.
fn settings(simple: u8, subpel: u8) -> EncoderSettings {
    EncoderSettings {
        qi: 0,
        level: 2,
        sharpness: 3,
        simple,
        key_every: 4,
        golden_every: 5,
        range: 6,
        subpel,
        partitions: 8,
    }
}

/// Each C setting becomes the library's setting of the same name.
#[test]
fn settings_of_c(rt: HostRuntime) {
    let wanted = Settings {
        qi: 0,
        level: 2,
        sharpness: 3,
        simple: true,
        key_every: 4,
        golden_every: 5,
        range: 6,
        subpel: false,
        partitions: 8,
    };
    equal(&rt, &settings(7, 0).settings(), &wanted);
    let turned = Settings {
        simple: false,
        subpel: true,
        ..wanted
    };
    equal(&rt, &settings(0, 1).settings(), &turned);
}

/// A flat picture is reconstructed exactly. Rows that don't fit after it change nothing.
#[test]
fn a_picture_is_encoded(rt: HostRuntime) {
    let alloc = rt.alloc();
    let mut encoder = Handle::closed();
    let (y, colour) = ([128; 256], [128; 64]);
    let (mut size, mut after, mut error) = (9, 9, 9);
    let (mut luma, mut first, mut second) = ([9; 256], [9; 64], [9; 64]);
    let wrong = EncoderSettings {
        qi: 128,
        ..settings(0, 0)
    };
    let made = [
        vp8_encoder_encode(alloc, &mut encoder, &y, 16, &colour, 8, &colour, 8),
        vp8_encoder_new(alloc, &mut encoder, 16, 0, &wrong),
        vp8_encoder_new(alloc, &mut encoder, 16, 16, &wrong),
        vp8_encoder_new(alloc, &mut encoder, 16, 16, &settings(0, 0)),
        vp8_encoder_new(alloc, &mut encoder, 16, 0, &wrong),
        vp8_encoder_packet_size(alloc, &mut encoder, &mut size),
    ];
    let encoded = [
        vp8_encoder_encode(alloc, &mut encoder, &y, 16, &colour, 8, &colour, 8),
        vp8_encoder_packet_size(alloc, &mut encoder, &mut size),
        vp8_encoder_encode(alloc, &mut encoder, &y[1..], 16, &colour, 8, &colour, 8),
        vp8_encoder_packet_size(alloc, &mut encoder, &mut after),
        vp8_encoder_squared_error(alloc, &mut encoder, &mut error),
        vp8_encoder_reconstruction(
            alloc,
            &mut encoder,
            &mut luma,
            16,
            &mut first,
            8,
            &mut second,
            8,
        ),
    ];
    vp8_encoder_free(alloc, &mut encoder);
    encoder.forget();
    equal(&rt, &made, &[64, 68, 48, 0, 65, 69]);
    equal(&rt, &encoded, &[0, 0, 71, 0, 0, 0]);
    assert!(rt; 10 < size && after == size && error == 0);
    assert!(rt; luma == y && first == colour && second == colour);
}

/// A packet is copied to a buffer of exactly its length, and decodes to the flat picture again.
#[test]
fn a_packet_is_handed_out(rt: HostRuntime) {
    let alloc = rt.alloc();
    let mut encoder = Handle::closed();
    let mut decoder = Handle::closed();
    let (y, colour) = ([128; 256], [128; 64]);
    let (mut luma, mut first, mut second) = ([9; 256], [9; 64], [9; 64]);
    let mut packet = [9; 100];
    let mut size = 0;
    let encoded = [
        vp8_encoder_new(alloc, &mut encoder, 16, 16, &settings(0, 0)),
        vp8_encoder_encode(alloc, &mut encoder, &y, 16, &colour, 8, &colour, 8),
        vp8_encoder_packet_size(alloc, &mut encoder, &mut size),
    ];
    let size = size.clamp(1, 99);
    let short = vp8_encoder_packet(alloc, &mut encoder, &mut packet[..size - 1]);
    let kept = packet[0];
    let decoded = [
        vp8_encoder_packet(alloc, &mut encoder, &mut packet[..size]),
        vp8_decoder_new(alloc, &mut decoder, 256),
        vp8_decoder_decode(alloc, &mut decoder, &packet[..size]),
        vp8_decoder_copy(
            alloc,
            &mut decoder,
            &mut luma,
            16,
            &mut first,
            8,
            &mut second,
            8,
        ),
    ];
    vp8_encoder_free(alloc, &mut encoder);
    encoder.forget();
    vp8_decoder_free(alloc, &mut decoder);
    decoder.forget();
    equal(&rt, &encoded, &[0, 0, 0]);
    equal(&rt, &(short, kept), &(71, 9));
    equal(&rt, &decoded, &[0, 0, 0, 0]);
    assert!(rt; luma == y && first == colour && second == colour && packet[size] == 9);
}

/// A name and its final 0 are copied if there is room for both.
#[test]
fn a_name_is_copied(rt: HostRuntime) {
    let mut out = [9; 10];
    equal(&rt, &vp8_status_name(20, &mut out[..8]), &8);
    equal(&rt, &out, &[9; 10]);
    equal(&rt, &vp8_status_name(20, &mut out[..9]), &8);
    assert!(rt; &out == b"TooLarge\0\t");
    equal(&rt, &vp8_status_name(2, &mut out), &0);
    equal(&rt, &out[0], &0);
}

/// A key packet of 17 by 1 pixels that libvpx finds complete, and read past its end with one byte less.
const WHOLE: [u8; 41] = [
    0x90, 2, 0, 0x9d, 1, 0x2a, 0x11, 0, 1, 0, 0, 0, 0, 0, 0, 0, 0, 0, 0, 0, 0, 0, 0, 0, 0, 0, 0, 0,
    0, 0, 0x29, 0xf8, 0x85, 0x12, 0, 0x4a, 0xf0, 0xbf, 0xa3, 0x0b, 0x8b,
];

/// Decodes a packet, and returns its status, and whether it is corrupt.
fn decode_and_ask(alloc: Global, decoder: &mut Handle, packet: &[u8]) -> [u32; 3] {
    let mut corrupt = 9;
    let decoded = vp8_decoder_decode_keeping(alloc, decoder, packet);
    let asked = vp8_decoder_corrupt(alloc, decoder, &mut corrupt);
    [decoded, asked, corrupt]
}

/// A packet that is read past its end is reported, and one after it is judged by itself.
#[test]
fn damage_is_told(rt: HostRuntime) {
    let alloc = rt.alloc();
    let mut decoder = Handle::closed();
    let closed = decode_and_ask(alloc, &mut decoder, &WHOLE);
    let opened = vp8_decoder_new(alloc, &mut decoder, 17);
    let told = [
        decode_and_ask(alloc, &mut decoder, &WHOLE),
        decode_and_ask(alloc, &mut decoder, &WHOLE[..40]),
        decode_and_ask(alloc, &mut decoder, &[]),
        decode_and_ask(alloc, &mut decoder, &WHOLE[..9]),
    ];
    vp8_decoder_free(alloc, &mut decoder);
    decoder.forget();
    equal(&rt, &closed, &[64, 64, 9]);
    equal(&rt, &opened, &0);
    equal(&rt, &told, &[[0, 0, 0], [0, 0, 1], [0, 0, 0], [16, 0, 0]]);
}

/// Copies a reference frame of 17 by 1 pixels, and returns the status and the luma.
pub fn copy_reference(alloc: Global, decoder: &mut Handle, reference: u32) -> (u32, [u8; 17]) {
    let mut y = [9; 17];
    let (mut u, mut v) = ([9; 9], [9; 9]);
    let status = vp8_decoder_reference(alloc, decoder, reference, &mut y, 17, &mut u, 9, &mut v, 9);
    (status, y)
}

/// A key frame is the last, the golden and the altref frame.
#[test]
fn references_are_copied(rt: HostRuntime) {
    let alloc = rt.alloc();
    let mut decoder = Handle::closed();
    let (mut width, mut height) = (9, 9);
    let opened = vp8_decoder_new(alloc, &mut decoder, 17);
    let early = [
        vp8_decoder_reference_size(alloc, &mut decoder, &mut width, &mut height),
        copy_reference(alloc, &mut decoder, 1).0,
    ];
    let decoded = vp8_decoder_decode(alloc, &mut decoder, &KEY);
    let last = copy_reference(alloc, &mut decoder, 1);
    let golden = copy_reference(alloc, &mut decoder, 2);
    let altref = copy_reference(alloc, &mut decoder, 3);
    let none = copy_reference(alloc, &mut decoder, 4);
    let size = vp8_decoder_reference_size(alloc, &mut decoder, &mut width, &mut height);
    vp8_decoder_free(alloc, &mut decoder);
    decoder.forget();
    equal(&rt, &[opened, decoded, size], &[0; 3]);
    equal(&rt, &early, &[69; 2]);
    equal(&rt, &[last, golden, altref], &[(0, [128; 17]); 3]);
    equal(&rt, &none, &(69, [9; 17]));
    equal(&rt, &(width, height), &(17, 1));
}

/// Packets of 17 by 1 pixels, made from random bytes: a key packet, an inter packet that only golden is refreshed with,
/// and one for altref alone.
pub const PACKETS: [&[u8]; 3] = [
    &[
        0x90, 2, 0, 0x9d, 1, 0x2a, 0x11, 0, 1, 0, 0, 0, 0, 0, 0, 0, 0, 0, 0, 0, 0, 0, 0, 0, 0, 0,
        0, 0, 0, 0, 0xa7, 0xe9, 0x8c, 0xbc, 0xd0, 0xc8, 0x1a, 0xcc, 0xe9, 0x31, 0xbc, 0x41, 0x0b,
        0x89, 0x67, 0x5c, 0x2c, 0x87, 0x47, 0xf7, 0x7c, 0x89, 0x3f, 0x56, 0x91, 0x58, 0x0a, 0x96,
        0xf9, 0x67, 0xc9, 0x0a, 0xf1, 0x65, 0x84, 0xe8, 0x27, 0xe7, 0xc0, 0x97,
    ],
    &[
        0x31, 2, 0, 0, 0, 0xf0, 0x20, 0, 0, 0x97, 0xf1, 0x61, 0, 0, 0, 0, 0, 0, 0, 0, 0xf1, 0x56,
        0xfd, 0x1d, 0xdb, 0xfd, 0xd7, 0x91, 0xcc, 0x9f, 0xbb, 0x92, 0xf7, 0x8a, 0x91, 0x97, 0x0d,
        7, 0x7d, 0x15, 0x50, 0xd1, 0xc7, 0x1b, 0xa1, 0xcb, 0x19, 0xa3, 0x25, 0x72,
    ],
    &[
        0x31, 2, 0, 0, 0, 0xf0, 0x10, 0, 0, 0x97, 0xf1, 0x61, 0, 0, 0, 0, 0, 0, 0, 0, 0xbc, 0xe9,
        0xed, 0xf8, 0x87, 0xbe, 0xa3, 0x99, 0xdd, 0x51, 0x67, 0xe9, 0x9f, 0x5b, 0x2a, 0xe4, 0x52,
        0x61, 0x62, 0x47, 0xaa, 0xd2, 0x3b, 0x9a, 0xf8, 0x5f, 0xda, 0xe5, 0x60, 0xbc,
    ],
];
