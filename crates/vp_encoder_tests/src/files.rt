//! The test file, its pictures byte by byte, and readers and writers that transfer a few bytes at a time.

ghost use Rattle.std.specs.Prelude.{◌≡◌, ◌≤◌, ◌<◌, ◌-◌, ◌%◌, IsTrue, None, length};

use std::io;
use std::io::{Read, Write};
use vp_decode::Outcome;
use vp_head::PacketFault;

/// A key packet of 16 by 16 pixels whose first partition is empty: all its bools are 0.
pub const KEY: [u8; 10] = [0x10, 0, 0, 0x9d, 0x01, 0x2a, 0x10, 0, 0x10, 0];

/// An inter packet whose first partition is empty.
pub const INTER: [u8; 3] = [0x11, 0, 0];

/// The length of the file in bytes.
pub const SIZE: usize = 117;

/// A file of 16 by 16 pixels, 30 pictures a second. Each packet follows its header of 12 bytes. The head ends at byte
/// 32. A shown key packet of 10 bytes ends at 54, and a hidden inter packet of 3 bytes at 69. An empty packet ends at
/// 81: it shows the first picture again. An inter packet of 2 bytes, which is too short, ends at 95, and the key packet
/// again at 117.
pub const FILE: [u8; SIZE] = [
    0x44, 0x4b, 0x49, 0x46, 0, 0, 0x20, 0, 0x56, 0x50, 0x38, 0x30, 0x10, 0, 0x10, 0, 0x1e, 0, 0, 0,
    1, 0, 0, 0, 5, 0, 0, 0, 0, 0, 0, 0, 10, 0, 0, 0, 0, 0, 0, 0, 0, 0, 0, 0, 0x10, 0, 0, 0x9d,
    0x01, 0x2a, 0x10, 0, 0x10, 0, 3, 0, 0, 0, 1, 0, 0, 0, 0, 0, 0, 0, 0x01, 0, 0, 0, 0, 0, 0, 2, 0,
    0, 0, 0, 0, 0, 0, 2, 0, 0, 0, 3, 0, 0, 0, 0, 0, 0, 0, 0x11, 0, 10, 0, 0, 0, 4, 0, 0, 0, 0, 0,
    0, 0, 0x10, 0, 0, 0x9d, 0x01, 0x2a, 0x10, 0, 0x10, 0,
];

/// The packets of the file: their lengths and outcomes.
pub const PACKETS: [(usize, Outcome); 5] = [
    (10, Outcome::Shown),
    (3, Outcome::Hidden),
    (0, Outcome::Shown),
    (2, Outcome::Fault(PacketFault::Truncated)),
    (10, Outcome::Shown),
];

/// Returns the number of whole packets in the file's first bytes.
pub(crate) fn packets_in(length: usize) -> usize
    ensures { result ≤ 5 }
{
    match length {
        0..54 => 0,
        54..69 => 1,
        69..81 => 2,
        81..95 => 3,
        95..SIZE => 4,
        _ => 5,
    }
}

/// Returns the number of shown packets among the first ones: the first, the third and the fifth are shown.
pub(crate) fn shown_of(packets: usize) -> usize
    ensures few { result ≤ 3 }
    ensures some { 0 < packets → 0 < result }
{
    match packets {
        0 => 0,
        1 | 2 => 1,
        3 | 4 => 2,
        _ => 3,
    }
}

/// Returns whether the file may end after its first bytes: after the head or a packet.
pub(crate) fn is_whole(length: usize) -> bool
    ensures { IsTrue result → 32 ≤ length }
{
    matches!(length, 32 | 54 | 69 | 81 | 95 | SIZE)
}

/// Returns byte `i` of the key packet's picture as I420: luma rows 0 to 3 are 128, rows 4 to 15 are 129, chroma is 128.
fn picture_byte(i: usize) -> u8
    ensures least { 128 ≤ result }
    ensures most { result ≤ 129 }
{
    match i {
        64..256 => 129,
        _ => 128,
    }
}

/// Returns the first position at which the bytes aren't the picture, repeated.
pub(crate) fn other_pixel(bytes: &[u8]) -> Option<usize>
    ensures { length bytes.now ≡ 0 → result ≡ None }
{
    for (i, byte) in bytes.iter().enumerate() {
        if *byte != picture_byte(i % 384) {
            return Some(i);
        }
    }
    None
}

/// The header line of a YUV4MPEG2 file with the size and rate of the file, 41 bytes.
pub const LINE: &[u8; 41] = b"YUV4MPEG2 W16 H16 F30:1 Ip A0:0 C420jpeg\n";

/// Returns byte `i` of a YUV4MPEG2 file with that header line in which the picture is repeated, each time after a frame
/// line.
pub(crate) fn video_byte(i: usize) -> u8
    ensures { 41 ≤ i → 6 ≤ (i - 41) % 390 → 128 ≤ result }
{
    if i < 41 {
        return LINE[i];
    }
    let place = (i - 41) % 390;
    if place < 6 {
        return b"FRAME\n"[place];
    }
    picture_byte(place - 6)
}

/// Returns the first position at which the bytes aren't those of that file.
pub(crate) fn other_video(bytes: &[u8]) -> Option<usize>
    ensures { length bytes.now ≡ 0 → result ≡ None }
{
    for (i, byte) in bytes.iter().enumerate() {
        if *byte != video_byte(i) {
            return Some(i);
        }
    }
    None
}

/// A reader that gives at most `size` bytes at each read.
#[derive(Drop)]
pub struct Pieces<'a> {
    /// The bytes that are not read yet.
    pub left: &'a [u8],
    /// The maximum length of a piece in bytes.
    pub size: usize,
}

impl Read for Pieces<'_> {
    fn read(&mut self, buf: &mut [u8]) -> io::Result<usize> {
        let end = buf.len().min(self.size);
        self.left.read(&mut buf[..end])
    }
}

/// A writer that takes at most 64 bytes at each write.
#[derive(Drop)]
pub struct Narrow(pub Vec<u8>);

impl Write for Narrow {
    fn write(&mut self, buf: &[u8]) -> io::Result<usize> {
        let end = buf.len().min(64);
        self.0.write(&buf[..end])
    }

    fn flush(&mut self) -> io::Result<()> {
        self.0.flush()
    }
}

impl Narrow {
    /// Returns the bytes written.
    pub(crate) fn into_bytes(self) -> Vec<u8>
        ensures { result ≡ self.0 }
    {
        let Narrow(bytes) = self;
        bytes
    }
}
