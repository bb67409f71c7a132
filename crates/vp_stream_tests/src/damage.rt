//! Tests of a decoder that goes on after damage, and of the facts of frames.

use crate::check::equal;
use crate::files::{HIDDEN, INTER, KEY, key_picture};
use std::alloc::Global;
use std::process::Abort;
use vp_base::Limits;
use vp_decode::{DecodedPacket, Decoder, FrameFacts, OnFault, Outcome};
use vp_head::PacketFault;

// Returns the bytes of the decoder's picture, and none if it shows none.
fn shown(rt: &impl Abort, alloc: Global, decoder: &Decoder) -> Vec<u8> {
    match decoder.picture() {
        Some(picture) => picture.crop_i420(alloc).expect(rt, "memory"),
        None => Vec::new(alloc),
    }
}

// Decodes a packet by a decoder that goes on after damage. Its outcome, and the bytes that are shown, must be these.
// The step tells packets apart that come more than once.
fn play(
    rt: &impl Abort,
    alloc: Global,
    decoder: &mut Decoder,
    (step, packet): (u32, &[u8]),
    outcome: Outcome,
    wanted: &[u8],
) {
    let found = decoder.decode_keeping(packet);
    equal!(rt; (step, packet, found), (step, packet, Ok(outcome)));
    let bytes = shown(rt, alloc, decoder);
    equal!(rt; (step, packet, bytes.as_slice()), (step, packet, wanted));
}

// An inter packet whose first token partition passes its end.
const CUT_PARTITION: [u8; 25] = [
    0x31, 0, 0, 0xff, 1, 0, 0, 0, 0, 0, 0, 0, 0, 0, 0, 0, 0, 0, 0, 0, 0, 0, 0, 0, 0,
];

// A packet with each kind of fault but `NoReference` and `TooLarge`.
const DAMAGED: [(&[u8], PacketFault); 7] = [
    (&[0x11, 0], PacketFault::Truncated),
    (&[0x18, 0, 0], PacketFault::Version),
    (
        &[0x10, 0, 0, 0x9d, 0x01, 0x2b, 0x10, 0, 0x10, 0],
        PacketFault::StartCode,
    ),
    (
        &[0x10, 0, 0, 0x9d, 0x01, 0x2a, 0, 0, 0x10, 0],
        PacketFault::Size,
    ),
    (&[0x31, 0, 0], PacketFault::FirstPartition),
    (
        &[0x30, 0, 0, 0x9d, 0x01, 0x2a, 0x10, 0, 0x10, 0, 0xff],
        PacketFault::PartitionTable,
    ),
    (&CUT_PARTITION, PacketFault::Partition(0)),
];

// Plays these packets: they show nothing.
fn play_damage(rt: &impl Abort, alloc: Global, decoder: &mut Decoder, step: u32) {
    for (packet, fault) in &DAMAGED {
        play(
            rt,
            alloc,
            decoder,
            (step, packet),
            Outcome::Fault(*fault),
            &[],
        );
    }
}

// Plays a stream with damage between its packets.
fn play_stream(rt: &impl Abort, alloc: Global, decoder: &mut Decoder) {
    play(
        rt,
        alloc,
        decoder,
        (0, &KEY),
        Outcome::Shown,
        &key_picture(),
    );
    play_damage(rt, alloc, decoder, 1);
    play(rt, alloc, decoder, (2, &[]), Outcome::Shown, &key_picture());
    play(rt, alloc, decoder, (3, &INTER), Outcome::Shown, &[128; 384]);
    play_damage(rt, alloc, decoder, 4);
    play(rt, alloc, decoder, (5, &HIDDEN), Outcome::Hidden, &[]);
    play(rt, alloc, decoder, (6, &[]), Outcome::Hidden, &[]);
}

/// Damage between packets shows no picture. The packets after it show the pictures of a stream without it.
#[test]
fn a_stream_goes_on_after_damage(rt: HostRuntime) {
    let mut decoder = Decoder::new(rt.alloc(), Limits::usual());
    play_stream(&rt, rt.alloc(), &mut decoder);
}

// The first packets of a stream of 16 by 16 pixels, from a generator of random syntax. `vp_transcripts` decodes all of
// it, and compares its pictures with those of another decoder.
const STREAM_KEY: [u8; 73] = [
    0x36, 4, 0, 0x9d, 1, 0x2a, 0x10, 0, 0x10, 0, 0x0c, 0x6b, 0x3f, 0x2c, 0xeb, 0x22, 0x69, 0xea,
    0x84, 0x80, 0xe3, 0x79, 0x63, 0xc0, 0x0c, 0xac, 0x66, 0xa6, 0x1d, 0xbb, 0x89, 0x9f, 0xb5, 0x18,
    0x40, 0xe0, 0x14, 0x58, 0x86, 0x1b, 0x63, 0xf6, 0, 2, 0, 0, 1, 0, 0, 1, 0, 0, 1, 0, 0, 1, 0, 0,
    1, 0, 0, 1, 0, 0, 0, 0, 0, 0, 0, 0, 0, 0, 0,
];

const STREAM_INTER_1: [u8; 73] = [
    0x17, 5, 0, 0xbd, 0x7b, 0x55, 0xb8, 0x43, 0xe1, 0x51, 0x3a, 0x63, 0xfc, 0x9d, 0xba, 0xe5, 0xf6,
    0xe8, 0x74, 0x7d, 0xc0, 0x60, 0xdb, 0xfe, 0x67, 0x8e, 0x5c, 0x81, 0x75, 0xea, 0x6c, 0x45, 0x52,
    0xfe, 0x59, 0xe2, 0x20, 0x73, 0x48, 0x6c, 0x1c, 0xf6, 0x80, 2, 0, 0, 1, 0, 0, 1, 0, 0, 1, 0, 0,
    1, 0, 0, 1, 0, 0, 1, 0, 0, 0, 0, 0, 0, 0, 0, 0, 0, 0,
];

const STREAM_INTER_2: [u8; 43] = [
    0x77, 4, 0, 0xdb, 0x85, 0x61, 0x62, 0xf4, 0xd4, 0x70, 0xa9, 4, 0x31, 0x3f, 0xff, 0xe3, 0xb8,
    0xc9, 0xee, 0x8d, 0xd8, 0xed, 0x6d, 0x31, 0xa5, 0x20, 0xf8, 0xf6, 0x5f, 0xa2, 0x1b, 0x25, 0xc9,
    0x21, 0x45, 0xee, 8, 0x40, 1, 0, 0, 0, 0,
];

const STREAM_INTER_3: [u8; 55] = [
    0xd7, 4, 0, 0x72, 0x3d, 0xc1, 0x6b, 0xb3, 0xf2, 0x17, 0x99, 0x97, 0x35, 0x56, 0x8a, 0xc9, 0xbb,
    0x86, 0x9c, 0x1e, 0x5c, 0xdb, 0xf7, 0x48, 0xe0, 0x65, 0x52, 0x31, 1, 0x4c, 0xa9, 1, 0xd6, 0xfe,
    0x7e, 0xe9, 0x8d, 0x1d, 0x50, 0x4e, 0x80, 0, 0, 0, 0, 1, 0x80, 0, 0, 0, 0x38, 0, 0, 0, 0,
];

// These packets.
const STREAM: [&[u8]; 4] = [
    &STREAM_KEY,
    &STREAM_INTER_1,
    &STREAM_INTER_2,
    &STREAM_INTER_3,
];

// Decodes a packet by a decoder, and by one that goes on after damage, which gets a packet that is cut in its first
// partition before. Both must show the same picture of 384 bytes.
fn play_both(
    rt: &impl Abort,
    alloc: Global,
    decoder: &mut Decoder,
    keeping: &mut Decoder,
    packet: &[u8],
) {
    let cut = packet.get(..12).expect(rt, "a packet");
    let fault = Outcome::Fault(PacketFault::FirstPartition);
    play(rt, alloc, keeping, (0, cut), fault, &[]);
    let outcome = decoder.decode(packet).expect(rt, "memory");
    let wanted = shown(rt, alloc, decoder);
    play(rt, alloc, keeping, (1, packet), outcome, &wanted);
    equal!(rt; (packet, wanted.len()), (packet, 384));
}

// Does so with each packet of the stream.
fn play_all(rt: &impl Abort, alloc: Global, decoder: &mut Decoder, keeping: &mut Decoder) {
    for packet in &STREAM {
        play_both(rt, alloc, decoder, keeping, packet);
    }
}

/// The pictures of a stream with damage between its packets are those of the stream without it.
#[test]
fn pictures_after_damage_are_those_without_it(rt: HostRuntime) {
    let mut decoder = Decoder::new(rt.alloc(), Limits::usual());
    let mut keeping = Decoder::new(rt.alloc(), Limits::usual());
    play_all(&rt, rt.alloc(), &mut decoder, &mut keeping);
}

// A key packet of 16 by 17 pixels, version 3, with upscaling codes 3 and 1.
const SCALED: [u8; 10] = [0x16, 0, 0, 0x9d, 0x01, 0x2a, 0x10, 0xc0, 0x11, 0x40];

// The facts of an inter frame of this size, whose bools are all 0: its partitions are empty. libvpx flags this frame
// and the others below.
const ZEROS: FrameFacts = FrameFacts {
    key: false,
    version: 0,
    shown: true,
    width: 16,
    height: 17,
    horizontal_scale: 0,
    vertical_scale: 0,
    quantiser: 0,
    refreshes_last: false,
    refreshes_golden: false,
    refreshes_alt: false,
    corrupt: true,
};

// Returns the result for a packet with this outcome and these facts.
fn decoded(outcome: Outcome, frame: Option<FrameFacts>) -> DecodedPacket {
    DecodedPacket { outcome, frame }
}

// Returns the result for a packet with this fault.
fn refused(fault: PacketFault) -> DecodedPacket {
    decoded(Outcome::Fault(fault), None)
}

// Decodes a packet, and compares the result.
fn check_facts(
    rt: &impl Abort,
    decoder: &mut Decoder,
    packet: &[u8],
    on_fault: OnFault,
    wanted: DecodedPacket,
) {
    let found = decoder.decode_with_facts(packet, on_fault);
    equal!(rt; (packet, found), (packet, Ok(wanted)));
}

// The facts of a key frame and of an inter frame. Packets with a fault and empty packets have none.
fn check_frames(rt: &impl Abort, decoder: &mut Decoder) {
    let key = FrameFacts {
        key: true,
        version: 3,
        horizontal_scale: 3,
        vertical_scale: 1,
        refreshes_last: true,
        refreshes_golden: true,
        refreshes_alt: true,
        ..ZEROS
    };
    let early = refused(PacketFault::NoReference);
    check_facts(rt, decoder, &INTER, OnFault::Keep, early);
    let first = decoded(Outcome::Shown, Some(key));
    check_facts(rt, decoder, &SCALED, OnFault::Forget, first);
    let second = decoded(Outcome::Shown, Some(ZEROS));
    check_facts(rt, decoder, &INTER, OnFault::Keep, second);
    let dropped = decoded(Outcome::Shown, None);
    check_facts(rt, decoder, &[], OnFault::Keep, dropped);
}

#[test]
fn facts_of_frames(rt: HostRuntime) {
    let mut decoder = Decoder::new(rt.alloc(), Limits::usual());
    check_frames(&rt, &mut decoder);
}

// The facts of a hidden inter frame whose bools are all 1, with eight partitions.
fn check_inter_frame(rt: &impl Abort, decoder: &mut Decoder) {
    equal!(rt; decoder.decode(&SCALED), Ok(Outcome::Shown));
    let mut packet = [0; 25];
    packet[..4].copy_from_slice(&[0x21, 0, 0, 0xff]);
    let ones = FrameFacts {
        shown: false,
        quantiser: 127,
        refreshes_last: true,
        refreshes_golden: true,
        refreshes_alt: true,
        ..ZEROS
    };
    let cut = refused(PacketFault::PartitionTable);
    check_facts(rt, decoder, &packet[..24], OnFault::Keep, cut);
    let whole = decoded(Outcome::Hidden, Some(ones));
    check_facts(rt, decoder, &packet, OnFault::Keep, whole);
}

#[test]
fn facts_of_an_inter_frame(rt: HostRuntime) {
    let mut decoder = Decoder::new(rt.alloc(), Limits::usual());
    check_inter_frame(&rt, &mut decoder);
}

// The start code and the size of a key packet of 17 by 1 pixels.
const WIDE: [u8; 7] = [0x9d, 0x01, 0x2a, 17, 0, 1, 0];

// Token partitions of key packets of this size, made from random bytes: as many as libvpx 1.12 needs to find the frame
// complete, after a first partition of 20 zeros. With one byte less it reports damage.
const WHOLE: [&[u8]; 4] = [
    &[
        0x1c, 0x2e, 0x2b, 0xb8, 0x56, 0x9d, 0x80, 0x6c, 0x12, 0x51, 0xdc, 0xc9,
    ],
    &[
        0x29, 0xf8, 0x85, 0x12, 0, 0x4a, 0xf0, 0xbf, 0xa3, 0x0b, 0x8b,
    ],
    &[
        0x82, 0xb7, 0x0e, 0xee, 0x7f, 0x1a, 0x50, 0x39, 0xbe, 0xf0, 0x7e, 0xc2, 0x34, 0x7f, 6,
    ],
    &[
        0x44, 0x20, 0x82, 0x3c, 0xfd, 0xe6, 0xf1, 0xc2, 0x6b, 0x30, 0xf9, 0x0e, 0xc7, 0xdd, 1,
    ],
];

// Returns whether the key packet is corrupt.
fn is_corrupt(rt: &impl Abort, alloc: Global, packet: &[u8], on_fault: OnFault) -> bool {
    let mut decoder = Decoder::new(alloc, Limits::usual());
    let checked = decoder.decode_checked(packet, on_fault);
    checked.expect(rt, "memory").corrupt
}

// Appends parts of a packet.
fn append_parts(rt: &impl Abort, packet: &mut Vec<u8>, parts: &[&[u8]]) {
    for part in parts {
        packet.extend_from_slice(part).expect(rt, "memory");
    }
}

// Returns whether the key packet made of these parts is corrupt.
fn is_joined_corrupt(rt: &impl Abort, alloc: Global, parts: &[&[u8]]) -> bool {
    let mut packet = Vec::new(alloc);
    append_parts(rt, &mut packet, parts);
    is_corrupt(rt, alloc, &packet, OnFault::Keep)
}

// Fails the test unless the key packet with this token partition is whole, and corrupt with one byte less.
fn check_tokens(rt: &impl Abort, alloc: Global, tokens: &[u8]) {
    let cut = &tokens[..tokens.len().saturating_sub(1)];
    let whole = is_joined_corrupt(rt, alloc, &[&[0x90, 2, 0], &WIDE, &[0; 20], tokens]);
    let less = is_joined_corrupt(rt, alloc, &[&[0x90, 2, 0], &WIDE, &[0; 20], cut]);
    equal!(rt; (tokens, whole, less), (tokens, false, true));
}

/// A frame is corrupt if its token partition ends too early, and not with one byte more. It is too if its first
/// partition has no bytes.
#[test]
fn corrupt_frames(rt: HostRuntime) {
    for tokens in &WHOLE {
        check_tokens(&rt, rt.alloc(), tokens);
    }
    equal!(&rt; is_corrupt(&rt, rt.alloc(), &KEY, OnFault::Forget), true);
}

/// A frame is corrupt if only its first partition ends too early. Its header and the modes of two macroblocks, all
/// zeros, shift in 51 bits, counted by another program: 7 bytes after the first one, and not 6.
#[test]
fn first_partitions_are_judged(rt: HostRuntime) {
    let eight = is_joined_corrupt(&rt, rt.alloc(), &[&[0x10, 1, 0], &WIDE, &[0; 8], WHOLE[0]]);
    let seven = is_joined_corrupt(&rt, rt.alloc(), &[&[0xf0, 0, 0], &WIDE, &[0; 7], WHOLE[0]]);
    equal!(&rt; [eight, seven], [false, true]);
}

// The first bytes of a key packet of 1 by 17 pixels, up to the size of its first token partition.
const ROWS: [u8; 29] = [
    0x70, 2, 0, 0x9d, 0x01, 0x2a, 1, 0, 17, 0, 0, 1, 0x0a, 0, 0, 0, 0, 0, 0, 0, 0, 0, 0, 0, 0, 0,
    0, 0, 0,
];

// Its token partitions, made from random bytes: one for each row of macroblocks, and as many bytes as libvpx 1.12 needs
// to find the frame complete. With one byte less of either it reports damage.
const FIRST_ROW: [u8; 7] = [0x82, 0xb7, 0x0e, 0xee, 0x7f, 0x1a, 0x50];

const SECOND_ROW: [u8; 10] = [0x40, 0x43, 0, 2, 0x6b, 0x6e, 0x54, 0x55, 0x94, 0xa0];

// Returns whether the key packet with these two token partitions is corrupt.
fn is_corrupt_by_rows(rt: &impl Abort, alloc: Global, first: &[u8], second: &[u8]) -> bool {
    let size = u8::try_from(first.len()).expect(rt, "a short partition");
    is_joined_corrupt(rt, alloc, &[&ROWS, &[size, 0, 0], first, second])
}

/// A frame is corrupt if only one of its token partitions ends too early, whichever it is.
#[test]
fn token_partitions_are_judged_one_by_one(rt: HostRuntime) {
    let whole = is_corrupt_by_rows(&rt, rt.alloc(), &FIRST_ROW, &SECOND_ROW);
    let first_cut = is_corrupt_by_rows(&rt, rt.alloc(), &FIRST_ROW[..6], &SECOND_ROW);
    let second_cut = is_corrupt_by_rows(&rt, rt.alloc(), &FIRST_ROW, &SECOND_ROW[..9]);
    equal!(&rt; [whole, first_cut, second_cut], [false, true, true]);
}
