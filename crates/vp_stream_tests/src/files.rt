//! Test files: empty frames of 16 by 16 pixels, IVF files of them, and their pictures.

use std::alloc::Global;
use std::process::Abort;

/// The head of an IVF file of 16 by 16 pixels, 30 pictures a second.
pub const HEAD: [u8; 32] = [
    0x44, 0x4b, 0x49, 0x46, 0, 0, 0x20, 0, 0x56, 0x50, 0x38, 0x30, 0x10, 0, 0x10, 0, 0x1e, 0, 0, 0,
    1, 0, 0, 0, 1, 0, 0, 0, 0, 0, 0, 0,
];

/// A key packet of 16 by 16 pixels whose first partition is empty: all its bools are 0.
pub const KEY: [u8; 10] = [0x10, 0, 0, 0x9d, 0x01, 0x2a, 0x10, 0, 0x10, 0];

/// `KEY`, not to be shown.
pub const HIDDEN: [u8; 10] = [0, 0, 0, 0x9d, 0x01, 0x2a, 0x10, 0, 0x10, 0];

/// An inter packet whose first partition is empty.
pub const INTER: [u8; 3] = [0x11, 0, 0];

/// Returns an IVF file of these packets, each of at most 255 bytes, with times 0, 1, ..
pub(crate) fn file(rt: &impl Abort, alloc: Global, packets: &[&[u8]]) -> Vec<u8> {
    let mut bytes = Vec::from_slice(alloc, &HEAD).expect(rt, "memory");
    let mut time = 0u8;
    for packet in packets {
        let size = u8::try_from(packet.len()).expect(rt, "a short packet");
        let head = [size, 0, 0, 0, time, 0, 0, 0, 0, 0, 0, 0];
        bytes.extend_from_slice(&head).expect(rt, "memory");
        bytes.extend_from_slice(packet).expect(rt, "memory");
        time = time.wrapping_add(1);
    }
    bytes
}

/// Returns an IVF file of these packets, followed by more bytes.
pub(crate) fn file_and(
    rt: &impl Abort,
    alloc: Global,
    packets: &[&[u8]],
    behind: &[u8],
) -> Vec<u8> {
    let mut bytes = file(rt, alloc, packets);
    bytes.extend_from_slice(behind).expect(rt, "memory");
    bytes
}

/// Returns the key packet's picture as I420: luma rows 0 to 3 are 128, rows 4 to 15 are 129, chroma is 128.
pub(crate) fn key_picture() -> [u8; 384] {
    let mut bytes = [128; 384];
    bytes[64..256].fill(129);
    bytes
}

/// Returns that picture as a YUV4MPEG2 file.
pub(crate) fn y4m() -> [u8; 431] {
    let mut text = [128; 431];
    text[..47].copy_from_slice(b"YUV4MPEG2 W16 H16 F30:1 Ip A0:0 C420jpeg\nFRAME\n");
    text[111..303].fill(129);
    text
}
