//! Tests of readers and writers whose calls fail one by one: the result and the output follow from the structure of the
//! files.

ghost use Rattle.std.specs.Prelude.{◌+◌, ◌*◌, ◌≤◌};

use crate::check::equal;
use crate::files::{FILE, Narrow, Pieces, SIZE, other_video, packets_in, shown_of, video_byte};
use std::alloc::Global;
use std::process::Abort;
use vp_base::{Counted, FailAt, Limits};
use vp_encode::{EncodeAllFault, EncodeReport, Settings, encode_all};
use vp_stream::{DecodeFault, Form, decode_all};

/// Decodes the file to YUV4MPEG2, by reads of single bytes and writes of at most 64 bytes. The first `reads` reads and
/// the first `writes` writes succeed, and the next one fails. Fails the test unless the fault and the length of the
/// output are as expected.
fn check_decoding(
    rt: &impl Abort,
    alloc: Global,
    (reads, writes): (usize, usize),
    fault: Option<DecodeFault>,
    length: usize,
) {
    let single = Pieces {
        left: &FILE,
        size: 1,
    };
    let mut reader = Counted::new(FailAt::new(single, reads as u64));
    let mut writer = Counted::new(FailAt::new(Narrow(Vec::new(alloc)), writes as u64));
    let end = decode_all(alloc, &mut reader, &mut writer, Form::Y4m, Limits::usual());
    let written = writer.into_inner().into_inner().into_bytes();
    equal!(rt;
        (reads, writes, end.err(), written.len(), other_video(&written)),
        (reads, writes, fault, length, None)
    );
}

/// The last read finds the file's end.
#[test]
fn each_read_of_a_decoding(rt: HostRuntime) {
    let device = Some(DecodeFault::Device);
    for reads in 0..=SIZE {
        let length = match shown_of(packets_in(reads)) {
            0 => 0,
            shown => 41 + 390 * shown,
        };
        check_decoding(&rt, rt.alloc(), (reads, 100), device, length);
    }
    check_decoding(&rt, rt.alloc(), (SIZE + 1, 100), None, 1211);
}

/// Returns the number of bytes in this number of writes: one for the header line, and for each picture one for its line
/// and six for its pixels.
fn written_by(writes: usize) -> usize
    requires { writes ≤ 22 }
    ensures { result ≤ 41 + 390 * writes }
{
    if writes == 0 {
        return 0;
    }
    let (pictures, more) = ((writes - 1) / 7, (writes - 1) % 7);
    let begun = if more == 0 { 0 } else { 6 + 64 * (more - 1) };
    41 + 390 * pictures + begun
}

#[test]
fn each_write_of_a_decoding(rt: HostRuntime) {
    let device = Some(DecodeFault::Device);
    for writes in 0..22usize {
        check_decoding(&rt, rt.alloc(), (200, writes), device, written_by(writes));
    }
    check_decoding(&rt, rt.alloc(), (200, 22), None, 1211);
}

/// Returns a file of two pictures.
fn video() -> [u8; 821] {
    let mut bytes = [0; 821];
    for i in 0..821usize {
        bytes[i] = video_byte(i);
    }
    bytes
}

const SETTINGS: Settings = Settings {
    qi: 0,
    level: 0,
    sharpness: 0,
    simple: false,
    key_every: 64,
    golden_every: 0,
    range: 4,
    subpel: false,
    partitions: 1,
};

/// The result of encoding, and the bytes written.
type Encoded = (Result<EncodeReport, EncodeAllFault>, Vec<u8>);

/// Encodes a file. The first `reads` reads and the first `writes` writes succeed, and the next one fails.
fn encoded(alloc: Global, video: &[u8], reads: u64, writes: u64) -> Encoded {
    let mut reader = Counted::new(FailAt::new(video, reads));
    let mut writer = Counted::new(FailAt::new(Vec::new(alloc), writes));
    let end = encode_all(alloc, &mut reader, &mut writer, SETTINGS, Limits::usual());
    (end, writer.into_inner().into_inner())
}

/// Decodes a file that was encoded without loss: it is the video.
fn check_playing(rt: &impl Abort, alloc: Global, video: &[u8], coded: &[u8]) {
    let mut reader = Counted::new(coded);
    let mut writer = Counted::new(Vec::new(alloc));
    let end = decode_all(alloc, &mut reader, &mut writer, Form::Y4m, Limits::usual());
    let written = writer.into_inner();
    equal!(rt; (end.err(), written.as_slice()), (None, video));
}

/// The header line is read byte by byte, and so is the line of a picture, which has 16 rows of luma and 8 of each
/// chroma plane. The last read finds the end, and nothing is written before it.
fn check_reads(rt: &impl Abort, alloc: Global, video: &[u8]) {
    for reads in 0..41 + 2 * (6 + 32) + 1 {
        let (end, written) = encoded(alloc, video, reads, 0);
        equal!(rt; (reads, end, written.len()), (reads, Err(EncodeAllFault::Device), 0));
    }
}

/// Encodes with a writer that fails after `writes` writes: at least `least` bytes of the whole file are written.
/// Returns the number of bytes.
fn check_write(
    rt: &impl Abort,
    alloc: Global,
    video: &[u8],
    whole: &[u8],
    writes: u64,
    least: usize,
) -> usize {
    let (end, written) = encoded(alloc, video, 118, writes);
    let is_front = whole.starts_with(&written);
    let length = written.len();
    equal!(rt; (writes, end), (writes, Err(EncodeAllFault::Device)));
    equal!(rt; (writes, is_front, length, length >= least), (writes, true, length, true));
    length
}

/// There is one write for the head, and two for each packet: its header of 12 bytes, and its own bytes. A prefix is
/// written, longer each time.
fn check_writes(rt: &impl Abort, alloc: Global, video: &[u8], whole: &[u8]) {
    let mut least = 0usize;
    for writes in 0..5u64 {
        least = check_write(rt, alloc, video, whole, writes, least).saturating_add(1);
    }
    equal!(rt; (least, least <= whole.len()), (least, true));
}

#[test]
fn each_call_of_an_encoding(rt: HostRuntime) {
    let video = video();
    let (end, whole) = encoded(rt.alloc(), &video, 118, 5);
    equal!(&rt; end, Ok(EncodeReport { frames: 2, error: 0 }));
    check_playing(&rt, rt.alloc(), &video, &whole);
    check_reads(&rt, rt.alloc(), &video);
    check_writes(&rt, rt.alloc(), &video, &whole);
}
