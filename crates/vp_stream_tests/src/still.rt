//! Tests of vp_still: pictures of files, and their WebP files. KEY is an empty key frame of 16 by 16 pixels, whose
//! picture is worked out by hand: luma rows 0 to 3 are 128, rows 4 to 15 are 129, and chroma is 128.

use crate::check::equal;
use crate::files::{HIDDEN, INTER, KEY, file, file_and, key_picture};
use std::alloc::Global;
use std::process::Abort;
use vp_base::Limits;
use vp_head::PacketFault;
use vp_ivf::FileFault;
use vp_scale::Scale;
use vp_still::{Coding, FindFault, Found, find, i420_still, ppm_still, webp_still, y4m_still};
use vp_webp::WebPFault;

// The WebP file of KEY, by the layout of RFC 9649.
const KEY_FILE: [u8; 30] = [
    0x52, 0x49, 0x46, 0x46, 0x16, 0, 0, 0, 0x57, 0x45, 0x42, 0x50, 0x56, 0x50, 0x38, 0x20, 0x0a, 0,
    0, 0, 0x10, 0, 0, 0x9d, 0x01, 0x2a, 0x10, 0, 0x10, 0,
];

// The file of KEY with a chunk `ALPH` of one byte, and so with a chunk `VP8X`.
const ALPHA_FILE: [u8; 58] = [
    0x52, 0x49, 0x46, 0x46, 0x32, 0, 0, 0, 0x57, 0x45, 0x42, 0x50, 0x56, 0x50, 0x38, 0x58, 0x0a, 0,
    0, 0, 0x10, 0, 0, 0, 15, 0, 0, 15, 0, 0, 0x41, 0x4c, 0x50, 0x48, 1, 0, 0, 0, 0, 0, 0x56, 0x50,
    0x38, 0x20, 0x0a, 0, 0, 0, 0x10, 0, 0, 0x9d, 0x01, 0x2a, 0x10, 0, 0x10, 0,
];

// A picture of 5 by 3 pixels that cwebp wrote, with -q 60.
const SMALL_FILE: [u8; 100] = [
    0x52, 0x49, 0x46, 0x46, 0x5c, 0x00, 0x00, 0x00, 0x57, 0x45, 0x42, 0x50, 0x56, 0x50, 0x38, 0x20,
    0x50, 0x00, 0x00, 0x00, 0xf0, 0x01, 0x00, 0x9d, 0x01, 0x2a, 0x05, 0x00, 0x03, 0x00, 0x02, 0x80,
    0x42, 0x25, 0xb0, 0x02, 0x74, 0x38, 0x80, 0x01, 0x28, 0xd8, 0xbb, 0x80, 0x00, 0xfc, 0x1e, 0x17,
    0xcb, 0xde, 0x0d, 0x4e, 0xd7, 0xa8, 0x34, 0xfe, 0xbc, 0x81, 0xfd, 0xe9, 0x1d, 0x1a, 0x4b, 0xee,
    0x10, 0x0a, 0x23, 0xd8, 0x38, 0x12, 0x7c, 0x9a, 0xef, 0x67, 0x9b, 0xfd, 0x8f, 0xfe, 0x45, 0x7f,
    0xf3, 0x43, 0xef, 0x17, 0xff, 0xff, 0xda, 0xd0, 0xff, 0x8a, 0x7f, 0xe6, 0x87, 0xdd, 0xcd, 0xff,
    0xb4, 0xb0, 0x00, 0x00,
];

// Its colours, by dwebp with -nofancy -ppm.
const SMALL_PPM: [u8; 56] = [
    80, 54, 10, 53, 32, 51, 10, 50, 53, 53, 10, 19, 47, 6, 147, 175, 134, 135, 92, 102, 255, 220,
    230, 21, 246, 231, 51, 78, 37, 0, 27, 0, 145, 103, 112, 181, 139, 148, 62, 255, 255, 95, 125,
    69, 152, 182, 126, 255, 242, 245, 38, 0, 0, 35, 255, 251,
];

// Returns why a file gives no picture.
fn fault_of(alloc: Global, file: &[u8], wanted: Option<u32>) -> Option<FindFault> {
    find(alloc, file, wanted, Limits::usual()).err()
}

// Fails the test unless a file gives no picture for each of these numbers, for this reason.
fn check_faults(rt: &impl Abort, alloc: Global, file: &[u8], cases: &[(Option<u32>, FindFault)]) {
    for (number, fault) in cases {
        equal!(rt; (number, fault_of(alloc, file, *number)), (number, Some(*fault)));
    }
}

// Returns a picture of a file.
fn found_in(rt: &impl Abort, alloc: Global, file: &[u8], wanted: Option<u32>) -> Found {
    find(alloc, file, wanted, Limits::usual()).expect(rt, "a picture")
}

// Fails the test unless the packet that is found has this number, and its picture is that of KEY.
fn check_key(rt: &impl Abort, alloc: Global, file: &[u8], wanted: Option<u32>, number: u32) {
    let picture = key_picture();
    let found = found_in(rt, alloc, file, wanted);
    equal!(rt; (found.number, found.pixels.as_slice()), (number, picture.as_slice()));
}

#[test]
fn pictures_by_their_numbers(rt: HostRuntime) {
    let file = file(&rt, rt.alloc(), &[&HIDDEN, &KEY, &KEY]);
    check_key(&rt, rt.alloc(), &file, None, 1);
    check_key(&rt, rt.alloc(), &file, Some(2), 2);
    check_key(&rt, rt.alloc(), &KEY_FILE, None, 0);
}

#[test]
fn fault_before_the_first_picture(rt: HostRuntime) {
    let faults = [
        (None, FindFault::NoPicture(1)),
        (Some(0), FindFault::Packet(PacketFault::NoReference)),
    ];
    let behind = file(&rt, rt.alloc(), &[&INTER, &KEY]);
    check_key(&rt, rt.alloc(), &behind, None, 1);
    let alone = file(&rt, rt.alloc(), &[&INTER]);
    check_faults(&rt, rt.alloc(), &alone, &faults);
}

#[test]
fn torn_files_without_the_picture(rt: HostRuntime) {
    let faults = [
        (None, FindFault::File(FileFault::Torn)),
        (Some(1), FindFault::File(FileFault::Torn)),
        (Some(0), FindFault::Hidden),
    ];
    let file = file_and(&rt, rt.alloc(), &[&HIDDEN], &[1, 2, 3]);
    check_faults(&rt, rt.alloc(), &file, &faults);
}

#[test]
fn packets_of_a_webp_file(rt: HostRuntime) {
    check_key(&rt, rt.alloc(), &KEY_FILE, Some(0), 0);
    let missing = [(Some(1), FindFault::NoPacket(1))];
    check_faults(&rt, rt.alloc(), &KEY_FILE, &missing);
    let torn = [(Some(1), FindFault::WebP(WebPFault::Torn))];
    check_faults(&rt, rt.alloc(), &KEY_FILE[..28], &torn);
}

// Returns whether a file has alpha.
fn has_alpha(rt: &impl Abort, alloc: Global, file: &[u8]) -> bool {
    found_in(rt, alloc, file, None).has_alpha
}

#[test]
fn alpha_is_told(rt: HostRuntime) {
    equal!(&rt; has_alpha(&rt, rt.alloc(), &ALPHA_FILE), true);
    equal!(&rt; has_alpha(&rt, rt.alloc(), &KEY_FILE), false);
}

#[test]
fn files_without_the_picture(rt: HostRuntime) {
    let torn = [(None, FindFault::WebP(WebPFault::Torn))];
    check_faults(&rt, rt.alloc(), &KEY_FILE[..29], &torn);
    let faults = [
        (None, FindFault::NoPicture(1)),
        (Some(0), FindFault::Hidden),
        (Some(1), FindFault::NoPacket(1)),
    ];
    let file = file(&rt, rt.alloc(), &[&HIDDEN]);
    check_faults(&rt, rt.alloc(), &file, &faults);
}

// Fails the test unless the WebP file of the picture of KEY is that of KEY.
fn check_kept(rt: &impl Abort, alloc: Global, found: &Found) {
    let still = webp_still(alloc, found, Scale::Full, 8).expect(rt, "a file");
    equal!(rt; (still.file.as_slice(), still.coding), (KEY_FILE.as_slice(), Coding::Kept));
}

#[test]
fn key_packet_is_kept(rt: HostRuntime) {
    let found = found_in(&rt, rt.alloc(), &KEY_FILE, None);
    check_kept(&rt, rt.alloc(), &found);
}

// Compares the picture of KEY, an eighth as wide and high, and the end of its file.
fn check_smaller(rt: &impl Abort, alloc: Global, found: &Found) {
    let pixels = [129, 129, 129, 129, 128, 128];
    let raw = i420_still(alloc, found, Scale::Eighth).expect(rt, "memory");
    equal!(rt; raw.as_slice(), pixels.as_slice());
    let file = y4m_still(alloc, found, Scale::Eighth).expect(rt, "memory");
    equal!(rt; file.as_slice().last_chunk::<6>(), Some(&pixels));
}

#[test]
fn smaller_pictures(rt: HostRuntime) {
    let found = found_in(&rt, rt.alloc(), &KEY_FILE, None);
    check_smaller(&rt, rt.alloc(), &found);
}

// Fails the test unless a file shows these pixels.
fn check_pixels(rt: &impl Abort, alloc: Global, file: &[u8], pixels: &[u8]) {
    let shown = found_in(rt, alloc, file, None);
    equal!(rt; shown.pixels.as_slice(), pixels);
}

// Fails the test unless a picture is encoded at this distance, and its file shows these pixels.
fn check_encoded(
    rt: &impl Abort,
    alloc: Global,
    found: &Found,
    scale: Scale,
    apart: u64,
    pixels: &[u8],
) {
    let still = webp_still(alloc, found, scale, 8).expect(rt, "a file");
    equal!(rt; still.coding, Coding::Encoded(apart));
    check_pixels(rt, alloc, still.file.as_slice(), pixels);
}

// The pixels are those that dwebp shows of the file, and the distance is theirs from the means of the picture that
// dwebp shows of SMALL_FILE.
#[test]
fn smaller_picture_is_encoded(rt: HostRuntime) {
    let pixels = [75, 145, 184, 135, 129, 178, 116, 158, 131, 30];
    let found = found_in(&rt, rt.alloc(), &SMALL_FILE, None);
    check_encoded(&rt, rt.alloc(), &found, Scale::Half, 22, &pixels);
}

// All pixels of INTER are 128, and dwebp shows the same of the file.
#[test]
fn inter_picture_is_encoded(rt: HostRuntime) {
    let file = file(&rt, rt.alloc(), &[&KEY, &INTER]);
    let found = found_in(&rt, rt.alloc(), &file, Some(1));
    check_encoded(&rt, rt.alloc(), &found, Scale::Full, 0, &[128; 384]);
}

// Compares the whole YUV4MPEG2 file of the picture of KEY.
fn check_y4m(rt: &impl Abort, alloc: Global, found: &Found) {
    let mut wanted = [128; 430];
    wanted[..46].copy_from_slice(b"YUV4MPEG2 W16 H16 F1:1 Ip A0:0 C420jpeg\nFRAME\n");
    wanted[110..302].fill(129);
    let file = y4m_still(alloc, found, Scale::Full).expect(rt, "memory");
    equal!(rt; file.as_slice(), wanted.as_slice());
}

#[test]
fn y4m_of_a_picture(rt: HostRuntime) {
    let found = found_in(&rt, rt.alloc(), &KEY_FILE, None);
    check_y4m(&rt, rt.alloc(), &found);
}

// The PPM file of SMALL_FILE is that of dwebp.
#[test]
fn ppm_of_a_picture(rt: HostRuntime) {
    let found = found_in(&rt, rt.alloc(), &SMALL_FILE, None);
    let file = ppm_still(rt.alloc(), &found, Scale::Full).expect(&rt, "memory");
    equal!(&rt; file.as_slice(), SMALL_PPM.as_slice());
}
