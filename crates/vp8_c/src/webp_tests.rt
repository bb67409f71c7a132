//! Tests of the calls for WebP files.

ghost use Rattle.std.specs.Prelude.{◌<◌};

use crate::webp::{vp8_webp_file, vp8_webp_file_size, vp8_webp_packet};
use std::fmt::Debug;
use std::process::Abort;

/// Fails the test if the values differ, and prints both.
fn equal<T: PartialEq + Debug>(rt: &impl Abort, found: &T, wanted: &T) {
    assert_eq!(rt; found, wanted);
}

/// A file of 16 by 16 pixels, by cwebp: its key packet is the 28 bytes from 20 on, by webpinfo.
const FILE: [u8; 48] = [
    0x52, 0x49, 0x46, 0x46, 0x28, 0, 0, 0, 0x57, 0x45, 0x42, 0x50, 0x56, 0x50, 0x38, 0x20, 0x1c, 0,
    0, 0, 0x50, 1, 0, 0x9d, 1, 0x2a, 0x10, 0, 0x10, 0, 7, 0x40, 0x96, 0x25, 0xa4, 0, 4, 0x74, 0, 0,
    0xfe, 0x83, 0xff, 0xfd, 0x7c, 0, 0, 0,
];

/// The status of asking for a file's packet, and where it is.
fn place(file: &[u8]) -> (u32, usize, usize) {
    let (mut start, mut len) = (9, 9);
    let status = vp8_webp_packet(file, &mut start, &mut len);
    (status, start, len)
}

/// The file with another byte at one place.
fn with_byte(at: usize, byte: u8) -> [u8; 48]
    requires { at < 48 }
{
    let mut file = FILE;
    file[at] = byte;
    file
}

#[test]
fn a_webp_file_is_read(rt: HostRuntime) {
    equal(&rt, &place(&FILE), &(0, 20, 28));
    equal(&rt, &place(&with_byte(0, 0x72)), &(32, 9, 9));
    equal(&rt, &place(&FILE[..47]), &(36, 9, 9));
    equal(&rt, &place(&with_byte(15, b'L')), &(38, 9, 9));
    equal(&rt, &place(&with_byte(15, b'?')), &(69, 9, 9));
    equal(&rt, &place(&with_byte(20, 0x51)), &(40, 9, 9));
    equal(&rt, &place(&with_byte(20, 0x40)), &(1, 9, 9));
}

/// The status of asking for the length of a packet's file, and the length.
fn size(packet: &[u8]) -> (u32, usize) {
    let mut size = 9;
    let status = vp8_webp_file_size(packet, &mut size);
    (status, size)
}

/// The file of a packet is the one that it came from. A packet that has none, and a short buffer, are refused.
#[test]
fn a_webp_file_is_made(rt: HostRuntime) {
    let mut out = [9; 48];
    equal(&rt, &size(&FILE[20..]), &(0, 48));
    equal(&rt, &size(&with_byte(20, 0x51)[20..]), &(40, 9));
    equal(&rt, &size(&with_byte(20, 0x40)[20..]), &(1, 9));
    equal(&rt, &vp8_webp_file(&FILE[20..], &mut out[..47]), &71);
    equal(&rt, &vp8_webp_file(&FILE[20..22], &mut out), &40);
    equal(&rt, &out, &[9; 48]);
    equal(&rt, &vp8_webp_file(&FILE[20..], &mut out), &0);
    equal(&rt, &out, &FILE);
}
