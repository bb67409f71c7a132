//! Tests of vp_webp: files of cwebp, webpmux and img2webp read, their faults, and files written.

ghost use Rattle.std.specs.Prelude.{◌<◌, ◌≤◌};

use crate::check::equal;
use std::alloc::Global;
use std::process::Abort;
use vp_base::{Counted, FailAt};
use vp_webp::{
    Canvas, PacketPlace, WebPFault, WebPWriteFault, copy_file, file_len, packet_place, read, write,
};

// A simple file of 16 by 16 pixels, by cwebp: its key frame is the 28 bytes from 20 on.
const HALF: [u8; 48] = [
    0x52, 0x49, 0x46, 0x46, 0x28, 0, 0, 0, 0x57, 0x45, 0x42, 0x50, 0x56, 0x50, 0x38, 0x20, 0x1c, 0,
    0, 0, 0x50, 1, 0, 0x9d, 1, 0x2a, 0x10, 0, 0x10, 0, 7, 0x40, 0x96, 0x25, 0xa4, 0, 4, 0x74, 0, 0,
    0xfe, 0x83, 0xff, 0xfd, 0x7c, 0, 0, 0,
];

// An extended file with alpha, by cwebp. Its key frame is the 32 bytes from 64 on, by webpinfo.
const ALPHA: [u8; 96] = [
    0x52, 0x49, 0x46, 0x46, 0x58, 0, 0, 0, 0x57, 0x45, 0x42, 0x50, 0x56, 0x50, 0x38, 0x58, 0x0a, 0,
    0, 0, 0x10, 0, 0, 0, 0x0f, 0, 0, 0x0f, 0, 0, 0x41, 0x4c, 0x50, 0x48, 0x12, 0, 0, 0, 1, 0x0f,
    0x30, 0xff, 0x11, 0x11, 0x42, 0x2c, 0x98, 0xe4, 0x2f, 0xdd, 0x39, 0x85, 0x88, 0xfe, 0xe7, 0x8c,
    0x56, 0x50, 0x38, 0x20, 0x20, 0, 0, 0, 0x30, 1, 0, 0x9d, 1, 0x2a, 0x10, 0, 0x10, 0, 7, 0x40,
    0x96, 0x25, 0xa4, 0, 3, 0x70, 0, 0xfe, 0xd7, 0x3b, 0xf8, 0x17, 0xf1, 0xb7, 0xff, 0xf2, 0x2c, 0,
    0, 0,
];

// The first file with a colour profile of 3 bytes before the picture, and Exif and XMP metadata of 5 and 7 bytes after
// it, by webpmux. Its key frame is the 28 bytes from 50 on, by webpinfo.
const PROFILE: [u8; 108] = [
    0x52, 0x49, 0x46, 0x46, 0x64, 0, 0, 0, 0x57, 0x45, 0x42, 0x50, 0x56, 0x50, 0x38, 0x58, 0x0a, 0,
    0, 0, 0x2c, 0, 0, 0, 0x0f, 0, 0, 0x0f, 0, 0, 0x49, 0x43, 0x43, 0x50, 3, 0, 0, 0, 0x61, 0x62,
    0x63, 0, 0x56, 0x50, 0x38, 0x20, 0x1c, 0, 0, 0, 0x50, 1, 0, 0x9d, 1, 0x2a, 0x10, 0, 0x10, 0, 7,
    0x40, 0x96, 0x25, 0xa4, 0, 4, 0x74, 0, 0, 0xfe, 0x83, 0xff, 0xfd, 0x7c, 0, 0, 0, 0x45, 0x58,
    0x49, 0x46, 5, 0, 0, 0, 0x65, 0x78, 0x69, 0x66, 0x21, 0, 0x58, 0x4d, 0x50, 0x20, 7, 0, 0, 0,
    0x78, 0x6d, 0x70, 0x64, 0x61, 0x74, 0x61, 0,
];

// A lossless file, by cwebp.
const LOSSLESS: [u8; 50] = [
    0x52, 0x49, 0x46, 0x46, 0x2a, 0, 0, 0, 0x57, 0x45, 0x42, 0x50, 0x56, 0x50, 0x38, 0x4c, 0x1d, 0,
    0, 0, 0x2f, 0x0f, 0xc0, 3, 0, 0x0f, 0x70, 0x14, 0xd0, 0xa3, 0x80, 0x1e, 5, 0x74, 0xfe, 3, 0x0f,
    0x62, 0xc1, 0x64, 0xfe, 0xd2, 0xdd, 0x19, 0x44, 0xf4, 0x3f, 0x72, 1, 0,
];

// An animation of two lossy frames, by img2webp.
const ANIMATION: [u8; 158] = [
    0x52, 0x49, 0x46, 0x46, 0x96, 0, 0, 0, 0x57, 0x45, 0x42, 0x50, 0x56, 0x50, 0x38, 0x58, 0x0a, 0,
    0, 0, 2, 0, 0, 0, 0x0f, 0, 0, 0x0f, 0, 0, 0x41, 0x4e, 0x49, 0x4d, 6, 0, 0, 0, 0xff, 0xff, 0xff,
    0xff, 0, 0, 0x41, 0x4e, 0x4d, 0x46, 0x32, 0, 0, 0, 0, 0, 0, 0, 0, 0, 0x0f, 0, 0, 0x0f, 0, 0,
    0x64, 0, 0, 2, 0x56, 0x50, 0x38, 0x20, 0x1a, 0, 0, 0, 0x30, 1, 0, 0x9d, 1, 0x2a, 0x10, 0, 0x10,
    0, 7, 0x40, 0x96, 0x25, 0xa4, 0, 3, 0x70, 0, 0xfe, 0x83, 0xff, 0xfd, 0x7c, 0, 0, 0x41, 0x4e,
    0x4d, 0x46, 0x30, 0, 0, 0, 0, 0, 0, 0, 0, 0, 0x0f, 0, 0, 0x0f, 0, 0, 0x64, 0, 0, 0, 0x56, 0x50,
    0x38, 0x20, 0x18, 0, 0, 0, 0x54, 1, 0, 0x9d, 1, 0x2a, 0x10, 0, 0x10, 0, 0, 0, 0x96, 0x25, 0xa4,
    0, 4, 0x74, 0, 0, 0, 0, 0, 0,
];

/// The canvas of the extended files.
const CANVAS: Canvas = Canvas {
    width: 16,
    height: 16,
};

/// Returns the packet of a file, whether it has alpha, and its canvas.
fn parts_of(file: &[u8]) -> Result<(&[u8], bool, Option<Canvas>), WebPFault> {
    match read(file) {
        Ok(image) => Ok((image.packet(), image.has_alpha(), image.canvas())),
        Err(fault) => Err(fault),
    }
}

#[test]
fn webp_files(rt: HostRuntime) {
    let found = [parts_of(&HALF), parts_of(&ALPHA), parts_of(&PROFILE)];
    let wanted = [
        Ok((&HALF[20..], false, None)),
        Ok((&ALPHA[64..], true, Some(CANVAS))),
        Ok((&PROFILE[50..78], false, Some(CANVAS))),
    ];
    equal!(&rt; found, wanted);
}

/// The packets lie where webpinfo says that they do. A file without one has the fault of `read`.
#[test]
fn webp_places(rt: HostRuntime) {
    let half = PacketPlace { start: 20, len: 28 };
    let alpha = PacketPlace { start: 64, len: 32 };
    let profile = PacketPlace { start: 50, len: 28 };
    let rt = &rt;
    let found = [
        packet_place(&HALF),
        packet_place(&ALPHA),
        packet_place(&PROFILE),
    ];
    equal!(rt; found, [Ok(half), Ok(alpha), Ok(profile)]);
    let faulty = [packet_place(&LOSSLESS), packet_place(&HALF[..47])];
    equal!(rt; faulty, [Err(WebPFault::Lossless), Err(WebPFault::Torn)]);
}

fn fault_of(file: &[u8]) -> Option<WebPFault> {
    read(file).err()
}

/// Each file that lacks bytes at its end is torn.
fn check_cuts(rt: &impl Abort, file: &[u8]) {
    for count in 0..file.len() {
        let fault = fault_of(file.split_at(count).0);
        let torn = Some(WebPFault::Torn);
        equal!(rt; (file.len(), count, fault), (file.len(), count, torn));
    }
}

#[test]
fn webp_cut_short(rt: HostRuntime) {
    let rt = &rt;
    check_cuts(rt, &HALF);
    check_cuts(rt, &ALPHA);
    check_cuts(rt, &PROFILE);
}

/// Files, and their faults.
const FAULTY: [(&[u8], WebPFault); 8] = [
    (&LOSSLESS, WebPFault::Lossless),
    (&ANIMATION, WebPFault::Animated),
    (b"RIFF\x04\0\0\0WEBP", WebPFault::NoPicture),
    (b"RIFF\x03\0\0\0WEBP", WebPFault::Torn),
    (b"DKIF", WebPFault::Signature),
    (b"RIX", WebPFault::Signature),
    (b"RIFF\xff\xff\xff\xffWAVE", WebPFault::Signature),
    (b"RIFF\xff\xff\xff\xffWEBP", WebPFault::Torn),
];

#[test]
fn webp_faults(rt: HostRuntime) {
    for (file, fault) in FAULTY {
        equal!(&rt; (file, fault_of(file)), (file, Some(fault)));
    }
}

/// The first file with another byte at one place.
fn with_byte(at: usize, byte: u8) -> [u8; 48]
    requires { at < 48 }
{
    let mut file = HALF;
    file[at] = byte;
    file
}

#[test]
fn webp_sizes(rt: HostRuntime) {
    let rt = &rt;
    // The file ends one byte before its size, or the chunk after that size, with its padding or before it.
    for (at, byte) in [(4, 0x29), (16, 0x1d), (4, 0x26), (19, 0xff)] {
        let found = fault_of(&with_byte(at, byte));
        equal!(rt; (at, byte, found), (at, byte, Some(WebPFault::Torn)));
    }
    // The file ends one byte after its size.
    let longer = with_byte(16, 0x1b);
    // A size that does not count the padding of the last chunk; dwebp reads such a file.
    let mut odd = with_byte(4, 0x27);
    odd[16] = 0x1b;
    let found = [parts_of(&longer), parts_of(odd.split_at(47).0)];
    let wanted = Ok((&HALF[20..47], false, None));
    equal!(rt; found, [wanted, wanted]);
    equal!(rt; fault_of(odd.split_at(46).0), Some(WebPFault::Torn));
}

// The first bytes of an extended file: its canvas is 16,777,216 by 513 pixels, with one more field than today's files.
const WIDE: [u8; 32] = [
    0x52, 0x49, 0x46, 0x46, 60, 0, 0, 0, 0x57, 0x45, 0x42, 0x50, 0x56, 0x50, 0x38, 0x58, 11, 0, 0,
    0, 0, 0, 0, 0, 0xff, 0xff, 0xff, 0, 2, 0, 9, 0,
];

/// The extended file with the packet of the first one, and another flag and size in its `VP8X` chunk.
fn wide(flags: u8, size: u8) -> [u8; 68] {
    let mut file = [0; 68];
    file[..32].copy_from_slice(&WIDE);
    file[32..].copy_from_slice(&HALF[12..]);
    file[16] = size;
    file[20] = flags;
    file
}

/// An extended file whose first chunk has this name.
fn named(name: &[u8; 4]) -> [u8; 68] {
    let mut file = wide(0, 11);
    file[12..16].copy_from_slice(name);
    file
}

/// The parameters of an animation without its flag are passed over, as dwebp does; its frames are not.
#[test]
fn chunks_before_the_picture(rt: HostRuntime) {
    let rt = &rt;
    let canvas = Some(Canvas {
        width: 16_777_216,
        height: 513,
    });
    let plain = wide(0, 11);
    let flagged = wide(0xfd, 12);
    let animated = named(b"ANIM");
    let found = [parts_of(&plain), parts_of(&flagged), parts_of(&animated)];
    let packet = &HALF[20..];
    let wanted = [
        Ok((packet, false, canvas)),
        Ok((packet, false, canvas)),
        Ok((packet, false, None)),
    ];
    equal!(rt; found, wanted);
    check_wide_faults(rt);
}

fn check_wide_faults(rt: &impl Abort) {
    let found = [
        fault_of(&wide(2, 11)),
        fault_of(&wide(0, 9)),
        fault_of(&named(b"ANMF")),
    ];
    let animated = Some(WebPFault::Animated);
    equal!(rt; found, [animated, Some(WebPFault::Torn), animated]);
}

#[test]
fn webp_packets(rt: HostRuntime) {
    let found = [
        fault_of(&with_byte(20, 0x51)),
        fault_of(&with_byte(20, 0x40)),
        fault_of(b"RIFF\x0e\0\0\0WEBPVP8 \x02\0\0\0\x10\0"),
    ];
    let no_key = Some(WebPFault::NotKey);
    equal!(&rt; found, [no_key, Some(WebPFault::Hidden), no_key]);
}

/// A packet is written as this file, with this answer.
fn check_written(
    rt: &impl Abort,
    alloc: Global,
    packet: &[u8],
    answer: Result<(), WebPWriteFault>,
    file: &[u8],
) {
    let mut out = Counted::new(Vec::new(alloc));
    let found = write(&mut out, packet);
    let bytes = out.into_inner();
    equal!(rt; (packet, found, bytes.as_slice()), (packet, answer, file));
}

// The second file has a packet of 27 bytes, and a byte of padding in place of the last one.
#[test]
fn webp_written(rt: HostRuntime) {
    let alloc = rt.alloc();
    let rt = &rt;
    let odd = with_byte(16, 0x1b);
    check_written(rt, alloc, &HALF[20..], Ok(()), &HALF);
    check_written(rt, alloc, &HALF[20..47], Ok(()), &odd);
}

#[test]
fn webp_refused(rt: HostRuntime) {
    let alloc = rt.alloc();
    let rt = &rt;
    let inter = with_byte(20, 0x51);
    let hidden = with_byte(20, 0x40);
    let no_key = Err(WebPWriteFault::NotKey);
    let is_hidden = Err(WebPWriteFault::Hidden);
    check_written(rt, alloc, &inter[20..], no_key, &[]);
    check_written(rt, alloc, &hidden[20..], is_hidden, &[]);
    check_written(rt, alloc, &HALF[20..22], no_key, &[]);
}

/// Copies the file of a packet to the first `count` bytes of 50 nines. Returns the answer and the buffer.
fn copied(packet: &[u8], count: usize) -> (Result<(), WebPWriteFault>, [u8; 50])
    requires { count ≤ 50 }
{
    let mut out = [9; 50];
    let answer = copy_file(&mut out[..count], packet);
    (answer, out)
}

/// Returns a file and two nines.
fn with_nines(file: &[u8; 48]) -> [u8; 50] {
    let mut bytes = [9; 50];
    bytes[..48].copy_from_slice(file);
    bytes
}

#[test]
fn webp_copied(rt: HostRuntime) {
    let rt = &rt;
    let (even, odd) = (&HALF[20..], &HALF[20..47]);
    equal!(rt; [file_len(even), file_len(odd)], [Ok(48), Ok(48)]);
    let odd_file = with_byte(16, 0x1b);
    let device = Err(WebPWriteFault::Device);
    let found = [copied(even, 50), copied(odd, 48), copied(even, 47)];
    let wanted = [
        (Ok(()), with_nines(&HALF)),
        (Ok(()), with_nines(&odd_file)),
        (device, [9; 50]),
    ];
    equal!(rt; found, wanted);
}

#[test]
fn webp_not_copied(rt: HostRuntime) {
    let hidden = with_byte(20, 0x40);
    let rt = &rt;
    let fault = Err(WebPWriteFault::Hidden);
    let lengths = [file_len(&HALF[20..22]), file_len(&hidden[20..])];
    equal!(rt; lengths, [Err(WebPWriteFault::NotKey), Err(WebPWriteFault::Hidden)]);
    equal!(rt; copied(&hidden[20..], 50), (fault, [9; 50]));
}

/// The file of the odd packet fails at write `k`, after its first `count` bytes are written.
fn check_failure(rt: &impl Abort, alloc: Global, k: u64, count: usize)
    requires { count ≤ 48 }
{
    let file = with_byte(16, 0x1b);
    let mut out = Counted::new(FailAt::new(Vec::new(alloc), k));
    let answer = write(&mut out, &HALF[20..47]);
    let device = Err(WebPWriteFault::Device);
    let failures = out.failures();
    let bytes = out.into_inner().into_inner();
    let found = (k, answer, failures, bytes.as_slice());
    equal!(rt; found, (k, device, 1, file.split_at(count).0));
}

#[test]
fn webp_device_fails(rt: HostRuntime) {
    let alloc = rt.alloc();
    let rt = &rt;
    check_failure(rt, alloc, 0, 0);
    check_failure(rt, alloc, 1, 20);
    check_failure(rt, alloc, 2, 47);
}

fn check_name(rt: &impl Abort, alloc: Global, fault: WebPFault, name: &str) {
    let text = format!(in alloc; "{fault}").expect(rt, "memory");
    equal!(rt; text.as_str(), name);
}

const NAMES: [(WebPFault, &str); 7] = [
    (WebPFault::Signature, "Signature"),
    (WebPFault::Torn, "Torn"),
    (WebPFault::Lossless, "Lossless"),
    (WebPFault::Animated, "Animated"),
    (WebPFault::NoPicture, "NoPicture"),
    (WebPFault::NotKey, "NotKey"),
    (WebPFault::Hidden, "Hidden"),
];

#[test]
fn names_of_webp_faults(rt: HostRuntime) {
    let alloc = rt.alloc();
    for (fault, name) in NAMES {
        check_name(&rt, alloc, fault, name);
    }
}
