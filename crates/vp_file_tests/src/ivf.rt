//! Tests of vp_ivf: files read in pieces, the order of their faults, and files written.

ghost use Rattle.std.specs.Prelude.{◌<◌};

use crate::check::equal;
use std::alloc::Global;
use std::process::Abort;
use vp_base::{Counted, Dim, FailAt, Limits};
use vp_ivf::{FeedError, FileFault, IvfHead, Packet, Reader, WriteFault, Writer};

// A file of one packet, 16 by 16 pixels, whose frame is an empty key frame of ten bytes.
const FILE: [u8; 54] = [
    0x44, 0x4b, 0x49, 0x46, 0, 0, 0x20, 0, 0x56, 0x50, 0x38, 0x30, 0x10, 0, 0x10, 0, 0x1e, 0, 0, 0,
    1, 0, 0, 0, 1, 0, 0, 0, 0, 0, 0, 0, 0x0a, 0, 0, 0, 0, 0, 0, 0, 0, 0, 0, 0, 0x10, 0, 0, 0x9d,
    0x01, 0x2a, 0x10, 0, 0x10, 0,
];

// A file of two packets, 273 by 1 pixels, of three bytes and of none.
const WIDE: [u8; 59] = [
    0x44, 0x4b, 0x49, 0x46, 0, 0, 0x20, 0, 0x56, 0x50, 0x38, 0x30, 0x11, 1, 1, 0, 0x30, 0x75, 0, 0,
    0xe9, 3, 0, 0, 2, 0, 0, 0, 0, 0, 0, 0, 3, 0, 0, 0, 4, 3, 0, 0, 2, 1, 0, 0x80, 0xaa, 0xbb, 0xcc,
    0, 0, 0, 0, 0, 1, 0, 0, 0, 0, 0, 0,
];

/// Returns whether no packet is ready before the byte, and the answer to it, at the second attempt if the first fails.
fn fed(reader: &mut Reader, byte: &[u8]) -> (bool, Result<(), FeedError>) {
    let is_between = reader.next_packet().is_none();
    if reader.feed(byte) == Ok(()) {
        (is_between, Ok(()))
    } else {
        (is_between, reader.feed(byte))
    }
}

/// Returns the time and the bytes of a packet.
fn parts_of(packet: &Option<Packet>) -> Option<(u64, &[u8])> {
    match packet {
        Some(packet) => Some((packet.time, packet.bytes.as_slice())),
        None => None,
    }
}

/// The next packet has this time and these bytes.
fn check_next(rt: &impl Abort, reader: &mut Reader, time: u64, bytes: &[u8]) {
    let packet = reader.next_packet();
    equal!(rt; parts_of(&packet), Some((time, bytes)));
}

/// Marking the end succeeds, twice, and no more bytes are taken.
fn check_end(rt: &impl Abort, reader: &mut Reader) {
    let before = (reader.next_packet().is_none(), reader.refusal());
    let ends = (reader.finish(), reader.finish());
    equal!(rt; (before, ends), ((true, None), (Ok(()), Ok(()))));
    let ended = FileFault::Ended;
    let found = (reader.refusal(), reader.feed(&[]));
    equal!(rt; found, (Some(ended), Err(FeedError::Fault(ended))));
}

#[test]
fn fed_byte_by_byte(rt: HostRuntime) {
    let mut reader = Reader::new(rt.alloc(), Limits::usual());
    let rt = &rt;
    for i in 0..54 {
        let fed = fed(&mut reader, &FILE[i..i + 1]);
        equal!(rt; (i, fed), (i, (true, Ok(()))));
    }
    check_next(rt, &mut reader, 0, &FILE[44..]);
    check_end(rt, &mut reader);
}

/// What a reader says of a prefix of the file: its answer, whether the head is there, whether no packet is, and the
/// answer when its end is marked.
type End = (Result<(), FeedError>, bool, bool, Result<(), FileFault>);

/// Feeds a prefix of the file, and marks its end.
fn end_of(alloc: Global, front: &[u8]) -> End {
    let mut reader = Reader::new(alloc, Limits::usual());
    let answer = reader.feed(front);
    let has_head = reader.head().is_some();
    let has_none = reader.next_packet().is_none();
    (answer, has_head, has_none, reader.finish())
}

#[test]
fn file_cut_short(rt: HostRuntime) {
    let alloc = rt.alloc();
    let torn = Err(FileFault::Torn);
    for (length, has_head, end) in [(31, false, torn), (32, true, Ok(())), (53, true, torn)] {
        let found = end_of(alloc, &FILE[..length]);
        equal!(&rt; (length, found), (length, (Ok(()), has_head, true, end)));
    }
}

/// The file with another byte in its head has this fault, once the head is complete.
fn check_head_fault(rt: &impl Abort, alloc: Global, at: usize, letter: u8, fault: FileFault)
    requires { at < 54 }
{
    let mut bytes = FILE;
    bytes[at] = letter;
    let mut reader = Reader::new(alloc, Limits::usual());
    let refused = Err(FeedError::Fault(fault));
    let fed = (reader.feed(&bytes[..31]), reader.feed(&bytes[31..]));
    let after = (reader.head(), reader.finish(), reader.feed(&[]));
    equal!(rt; (at, fed, after), (at, (Ok(()), refused), (None, Err(fault), refused)));
}

#[test]
fn head_faults(rt: HostRuntime) {
    let alloc = rt.alloc();
    let rt = &rt;
    check_head_fault(rt, alloc, 3, b'X', FileFault::Signature);
    check_head_fault(rt, alloc, 10, b'9', FileFault::Codec);
}

const HEAD: IvfHead = IvfHead {
    w: 16,
    h: 16,
    rate: 30,
    scale: 1,
};

/// The file, followed by the head of a second packet of eleven bytes, has this fault.
fn check_fault(rt: &impl Abort, reader: &mut Reader, fault: FileFault) {
    let one = (reader.feed(&FILE), reader.head());
    equal!(rt; (fault, one), (fault, (Ok(()), Some(HEAD))));
    let front = reader.feed(&[11, 0, 0, 0, 1, 0, 0, 0, 0, 0, 0]);
    let back = reader.feed(&[0]);
    let end = (reader.next_packet().is_some(), reader.finish());
    let refused = Err(FeedError::Fault(fault));
    equal!(rt; (front, back, end), (Ok(()), refused, (true, Err(fault))));
}

/// Readers with a limit of one or two packets of ten bytes.
#[test]
fn packet_limits(rt: HostRuntime) {
    let alloc = rt.alloc();
    let rt = &rt;
    let one = Limits::new(256, 10, 1, 1).expect(rt, "limits of one packet");
    check_fault(rt, &mut Reader::new(alloc, one), FileFault::TooMany);
    let two = Limits::new(256, 10, 2, 1).expect(rt, "limits of two packets");
    check_fault(rt, &mut Reader::new(alloc, two), FileFault::PacketTooLarge);
}

const WIDE_HEAD: IvfHead = IvfHead {
    w: 273,
    h: 1,
    rate: 30_000,
    scale: 1_001,
};

/// The time of the first packet in the wide file.
const TIME: u64 = 0x8000_0102_0000_0304;

#[test]
fn numbers_of_several_bytes(rt: HostRuntime) {
    let mut reader = Reader::new(rt.alloc(), Limits::usual());
    let rt = &rt;
    equal!(rt; (reader.feed(&WIDE), reader.head()), (Ok(()), Some(WIDE_HEAD)));
    check_next(rt, &mut reader, TIME, &[0xaa, 0xbb, 0xcc]);
    check_next(rt, &mut reader, 256, &[]);
    equal!(rt; reader.finish(), Ok(()));
}

/// Returns the size of a picture.
fn size(rt: &impl Abort, w: u16, h: u16) -> Dim {
    Dim::new(w, h, &Limits::usual()).expect(rt, "a size")
}

/// The file is complete after one packet, and no other packet is taken.
fn write_one(rt: &impl Abort, writer: &mut Writer<Vec<u8>>) {
    let count = Err(WriteFault::Count);
    let before = (writer.finish(), writer.packet(0, &FILE[44..]));
    let after = (writer.packet(1, &FILE[44..]), writer.finish());
    equal!(rt; [before, after], [(count, Ok(())), (count, Ok(()))]);
}

#[test]
fn file_of_one_packet(rt: HostRuntime) {
    let mut out = Counted::new(Vec::new(rt.alloc()));
    let rt = &rt;
    write_one(rt, &mut Writer::begin(&mut out, size(rt, 16, 16), 30, 1, 1));
    equal!(rt; out.into_inner().as_slice(), FILE.as_slice());
}

/// The file is complete after two packets, and not after one.
fn write_two(rt: &impl Abort, writer: &mut Writer<Vec<u8>>) {
    let one = (writer.packet(TIME, &[0xaa, 0xbb, 0xcc]), writer.finish());
    let two = (writer.packet(256, &[]), writer.finish());
    equal!(rt; [one, two], [(Ok(()), Err(WriteFault::Count)), (Ok(()), Ok(()))]);
}

#[test]
fn file_of_two_packets(rt: HostRuntime) {
    let mut out = Counted::new(Vec::new(rt.alloc()));
    let rt = &rt;
    write_two(
        rt,
        &mut Writer::begin(&mut out, size(rt, 273, 1), 30_000, 1_001, 2),
    );
    equal!(rt; out.into_inner().as_slice(), WIDE.as_slice());
}

/// Each call reports the device's failure.
fn write_failing(rt: &impl Abort, writer: &mut Writer<FailAt<Vec<u8>>>) {
    let first = writer.packet(0, &FILE[44..]);
    let found = (first, writer.packet(0, &FILE[44..]), writer.finish());
    let device = Err(WriteFault::Device);
    equal!(rt; found, (device, device, device));
}

/// The file of one packet fails at write `k`, after these bytes are written.
fn check_failure(rt: &impl Abort, alloc: Global, dim: Dim, k: u64, written: &[u8]) {
    let mut out = Counted::new(FailAt::new(Vec::new(alloc), k));
    write_failing(rt, &mut Writer::begin(&mut out, dim, 30, 1, 1));
    let failures = out.failures();
    let bytes = out.into_inner().into_inner();
    equal!(rt; (k, failures, bytes.as_slice()), (k, 1, written));
}

#[test]
fn fails_at_each_write(rt: HostRuntime) {
    let alloc = rt.alloc();
    let rt = &rt;
    let dim = size(rt, 16, 16);
    check_failure(rt, alloc, dim, 0, &[]);
    check_failure(rt, alloc, dim, 1, &FILE[..32]);
    check_failure(rt, alloc, dim, 2, &FILE[..44]);
}

fn check_name(rt: &impl Abort, alloc: Global, fault: FileFault, name: &str) {
    let text = format!(in alloc; "{fault}").expect(rt, "memory");
    equal!(rt; text.as_str(), name);
}

const NAMES: [(FileFault, &str); 6] = [
    (FileFault::Signature, "Signature"),
    (FileFault::Codec, "Codec"),
    (FileFault::TooMany, "TooMany"),
    (FileFault::PacketTooLarge, "PacketTooLarge"),
    (FileFault::Torn, "Torn"),
    (FileFault::Ended, "Ended"),
];

#[test]
fn names_of_file_faults(rt: HostRuntime) {
    let alloc = rt.alloc();
    for (fault, name) in NAMES {
        check_name(&rt, alloc, fault, name);
    }
}

// Version, length and frame count of the head are not checked: packets begin at byte 32.
#[test]
fn other_numbers_of_a_head(rt: HostRuntime) {
    let mut bytes = FILE;
    bytes[4..8].copy_from_slice(&[1, 0, 44, 0]);
    bytes[24..32].copy_from_slice(&[9; 8]);
    let mut reader = Reader::new(rt.alloc(), Limits::usual());
    let rt = &rt;
    equal!(rt; (reader.feed(&bytes), reader.head()), (Ok(()), Some(HEAD)));
    check_next(rt, &mut reader, 0, &FILE[44..]);
    equal!(rt; reader.finish(), Ok(()));
}
