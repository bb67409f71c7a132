//! Tests of vp_hints: kinds of files, counted packets, what a reader and an overwritten file remember.

use crate::check::equal;
use std::io::{Read, Write};
use std::process::Abort;
use std::{fs, io};
use vp_base::FailAt;
use vp_hints::{
    FileKind, Meter, Metered, Overwrite, PacketCount, Tally, Unit, Witness, head_fault, kind_of,
    open_to_overwrite,
};
use vp_ivf::FileFault;

// The head of a file, and two packets of three bytes and of none.
const TWO: [u8; 59] = [
    0x44, 0x4b, 0x49, 0x46, 0, 0, 0x20, 0, 0x56, 0x50, 0x38, 0x30, 0x11, 1, 1, 0, 0x30, 0x75, 0, 0,
    0xe9, 3, 0, 0, 2, 0, 0, 0, 0, 0, 0, 0, 3, 0, 0, 0, 4, 3, 0, 0, 2, 1, 0, 0x80, 0xaa, 0xbb, 0xcc,
    0, 0, 0, 0, 0, 1, 0, 0, 0, 0, 0, 0,
];

// The first bytes of files, and their kinds.
const KINDS: [(&[u8], FileKind); 13] = [
    (b"", FileKind::Empty),
    (&TWO, FileKind::Ivf),
    (b"\x1a\x45\xdf\xa3\x01", FileKind::WebM),
    (b"\x00\x00\x00\x20ftypisom", FileKind::Mp4),
    (b"RIFF\x24\x00\x00\x00AVI LIST", FileKind::Avi),
    (b"RIFF\x24\x00\x00\x00WEBPVP8 ", FileKind::WebP),
    (b"YUV4MPEG2 W16 H16", FileKind::Y4m),
    (b"OggS\x00\x02", FileKind::Ogg),
    (b"\x00\x00\x00\x01\x67", FileKind::H264),
    (b"\x89PNG\r\n\x1a\n", FileKind::Png),
    (b"\xff\xd8\xff\xe0", FileKind::Jpeg),
    (b"GIF89a", FileKind::Gif),
    (b"DKI", FileKind::Unknown),
];

#[test]
fn kinds_of_files(rt: HostRuntime) {
    for (bytes, kind) in KINDS {
        equal!(&rt; (bytes, kind_of(bytes)), (bytes, kind));
    }
}

#[test]
fn heads_with_faults(rt: HostRuntime) {
    let found = [
        head_fault(&TWO),
        head_fault(&TWO[..31]),
        head_fault(&TWO[1..]),
        head_fault(b"DKIF....VP90...................."),
    ];
    equal!(&rt; found, [None, None, Some(FileFault::Signature), Some(FileFault::Codec)]);
}

// The number of packets in some bytes.
fn packets_in(bytes: &[u8]) -> u64 {
    let mut count = PacketCount::new();
    count.pass(bytes);
    count.whole
}

// The time of the last packet in some bytes.
fn last_time_in(bytes: &[u8]) -> u64 {
    let mut count = PacketCount::new();
    count.pass(bytes);
    count.time
}

#[test]
fn packets_are_counted(rt: HostRuntime) {
    let rt = &rt;
    let times = [last_time_in(&TWO), last_time_in(&TWO[..47])];
    equal!(rt; times, [256, 0x8000_0102_0000_0304]);
    for (length, packets) in [(59, 2), (58, 1), (47, 1), (46, 0), (32, 0)] {
        equal!(rt; (length, packets_in(&TWO[..length])), (length, packets));
    }
}

// Reads into 40 bytes, and then once more. Returns the number of bytes, and whether the second read fails.
fn read_twice(reader: &mut Witness<FailAt<&[u8]>>) -> (usize, bool) {
    let mut buffer = [0; 40];
    let first = reader.read(&mut buffer).unwrap_or(0);
    (first, reader.read(&mut buffer).is_err())
}

#[test]
fn a_witness_remembers(rt: HostRuntime) {
    let mut reader = Witness::new(FailAt::new(&TWO[..], 1));
    let rt = &rt;
    let fails_before = reader.error().is_some();
    let read = read_twice(&mut reader);
    let kind = reader.error().map(|error| error.kind());
    equal!(rt; (fails_before, read, kind), (false, (40, true), Some(io::ErrorKind::Other)));
    let (_, seen) = reader.into_parts();
    let found = (seen.bytes(), seen.head(), seen.kind());
    equal!(rt; found, (40, &TWO[..40], FileKind::Ivf));
}

#[test]
fn a_metered_reader_reads_on(rt: HostRuntime) {
    let meter = Meter::new(&rt);
    meter.count(Unit::Packets);
    let mut reader = Metered::new(&TWO[..], &meter);
    let mut buffer = [0; 58];
    let read = reader.read(&mut buffer).unwrap_or(0);
    equal!(&rt; (read, reader.into_witness().seen().packets().whole), (58, 1));
}

#[test]
fn a_tally_remembers(rt: HostRuntime) {
    let mut tally = Tally::new(Vec::new(rt.alloc()));
    let written = tally.write(&TWO).unwrap_or(0);
    let seen = tally.into_seen();
    equal!(&rt; (written, seen.packets().whole, seen.head()), (TWO.len(), 2, &TWO[..]));
}

// Overwrites an old file. Returns the numbers of bytes that two writes take, of none and of one, and what the file
// holds between them and in the end.
fn overwritten(rt: &HostRuntime, name: &str) -> io::Result<((usize, usize), Vec<u8>, Vec<u8>)> {
    fs::write(rt, name, "old film")?;
    let mut file = Overwrite::new(open_to_overwrite(rt, name)?);
    let none = file.write(&[])?;
    let before = fs::read(rt, name)?;
    let one = file.write(b"n")?;
    file.finish()?;
    Ok(((none, one), before, fs::read(rt, name)?))
}

// Finishes an old file without a write. Returns what it holds before and afterwards.
fn finished(rt: &HostRuntime, name: &str) -> io::Result<(Vec<u8>, Vec<u8>)> {
    fs::write(rt, name, "old film")?;
    let mut file = Overwrite::new(open_to_overwrite(rt, name)?);
    let before = fs::read(rt, name)?;
    file.finish()?;
    Ok((before, fs::read(rt, name)?))
}

// Fails the test if a file held other bytes than its old ones until then, or than these afterwards.
fn check_bytes(rt: &impl Abort, before: Vec<u8>, after: Vec<u8>, wanted: &[u8]) {
    let old = b"old film".as_slice();
    equal!(rt; (before.as_slice(), after.as_slice()), (old, wanted));
}

#[test]
fn an_old_file_is_emptied_late(rt: HostRuntime) {
    let (taken, before, after) = overwritten(&rt, "late.tmp").expect(&rt, "a file");
    equal!(&rt; taken, (0, 1));
    check_bytes(&rt, before, after, b"n");
    let (before, after) = finished(&rt, "late.tmp").expect(&rt, "a file");
    check_bytes(&rt, before, after, b"");
    let _ = fs::remove_file(&rt, "late.tmp");
}
