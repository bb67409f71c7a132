//! Tests of live encoding: the output, and what a source or a writer that fails leaves. Heads, sizes and times are
//! worked by hand from the format; flat pictures are encoded without loss at the best quality, so that they decode to
//! themselves.

use crate::check::equal;
use crate::encoding_files::{Keeping, check_steps};
use std::alloc::Global;
use std::cell::Cell;
use std::io;
use std::io::{Read, Write};
use std::process::Abort;
use vp_base::{Counted, FailAt, Limits};
use vp_encode::{EncodeAllFault, EncodeReport, Settings, Unwatched};
use vp_live::encode_live;
use vp_stream::{Form, decode_all};

/// The header line of a source of 16 by 16 pixels, 30 pictures a second.
const LINE: &[u8; 24] = b"YUV4MPEG2 W16 H16 F30:1\n";

/// The head of its live file, which counts 0 packets.
const HEAD: [u8; 32] = [
    0x44, 0x4b, 0x49, 0x46, 0, 0, 0x20, 0, 0x56, 0x50, 0x38, 0x30, 0x10, 0, 0x10, 0, 0x1e, 0, 0, 0,
    1, 0, 0, 0, 0, 0, 0, 0, 0, 0, 0, 0,
];

/// Returns a source of two pictures, of 128 and of 200.
fn source() -> [u8; 804] {
    let mut bytes = [128; 804];
    bytes[..24].copy_from_slice(LINE);
    bytes[24..30].copy_from_slice(b"FRAME\n");
    bytes[414..420].copy_from_slice(b"FRAME\n");
    bytes[420..].fill(200);
    bytes
}

fn settings(qi: u8) -> Settings {
    Settings {
        qi,
        level: 0,
        sharpness: 0,
        simple: false,
        key_every: 64,
        golden_every: 0,
        range: 4,
        subpel: false,
        partitions: 1,
    }
}

/// A writer that keeps its length at each flush.
#[derive(Drop)]
struct Flushed {
    bytes: Vec<u8>,
    flushes: u32,
    length: usize,
}

impl Write for Flushed {
    fn write(&mut self, buf: &[u8]) -> io::Result<usize> {
        self.bytes.write(buf)
    }

    fn flush(&mut self) -> io::Result<()> {
        self.flushes = self.flushes.saturating_add(1);
        self.length = self.bytes.len();
        Ok(())
    }
}

/// The number of pictures and their error, or a fault.
type End = Result<EncodeReport, EncodeAllFault>;

/// The report of two pictures that are encoded without loss.
const TWO: EncodeReport = EncodeReport {
    frames: 2,
    error: 0,
};

/// Returns the result of encoding a source live by a writer whose first `writes` calls succeed, and what it wrote.
fn live(alloc: Global, source: &[u8], qi: u8, writes: u64) -> (End, Flushed) {
    let inner = Flushed {
        bytes: Vec::new(alloc),
        flushes: 0,
        length: 0,
    };
    let mut reader = Counted::new(source);
    let mut writer = Counted::new(FailAt::new(inner, writes));
    let end = encode_live(
        alloc,
        &mut reader,
        &mut writer,
        settings(qi),
        Limits::usual(),
        &mut Unwatched,
    );
    (end, writer.into_inner().into_inner())
}

/// Returns the size of the packet whose 12 bytes of header begin here and have this time; it is below 65536.
fn packet_size(rt: &impl Abort, file: &[u8], at: usize, time: u8) -> usize {
    let head = file.get(at..at.saturating_add(12)).expect(rt, "a header");
    let [low, high] = [head[0], head[1]];
    equal!(rt; head, [low, high, 0, 0, time, 0, 0, 0, 0, 0, 0, 0].as_slice());
    usize::from(low) + 256 * usize::from(high)
}

/// Returns the sizes of the packets of a file of two: after the head each packet has 12 bytes of header.
fn sizes(rt: &impl Abort, file: &[u8]) -> (usize, usize) {
    let first = packet_size(rt, file, 32, 0);
    (first, packet_size(rt, file, first.saturating_add(44), 1))
}

/// Fails the test unless a file is decoded to these pictures.
fn check_shown(rt: &impl Abort, alloc: Global, file: &[u8], pictures: &[u8]) {
    let mut reader = Counted::new(file);
    let mut writer = Counted::new(Vec::new(alloc));
    let end = decode_all(alloc, &mut reader, &mut writer, Form::I420, Limits::usual());
    let written = writer.into_inner();
    equal!(rt; (end.err(), written.as_slice()), (None, pictures));
}

/// Fails the test unless a file has two packets with these pictures, and each was flushed.
fn check_two(rt: &impl Abort, alloc: Global, written: &Flushed, pictures: &[u8]) {
    let file = written.bytes.as_slice();
    equal!(rt; file.get(..32), Some(HEAD.as_slice()));
    let (first, second) = sizes(rt, file);
    let length = first.saturating_add(second).saturating_add(56);
    equal!(rt; (file.len(), written.flushes, written.length), (length, 3, length));
    check_shown(rt, alloc, file, pictures);
}

#[test]
fn live_file_of_two_frames(rt: HostRuntime) {
    let mut pictures = [128; 768];
    pictures[384..].fill(200);
    let (end, written) = live(rt.alloc(), &source(), 0, 100);
    equal!(&rt; end, Ok(TWO));
    check_two(&rt, rt.alloc(), &written, &pictures);
}

/// Each step is that of the packets so far.
#[test]
fn live_pictures_are_told(rt: HostRuntime) {
    let bytes = source();
    let mut reader = Counted::new(bytes.as_slice());
    let mut writer = Counted::new(Vec::new(rt.alloc()));
    let mut watcher = Keeping {
        steps: Vec::new(rt.alloc()),
        refused: false,
    };
    let end = encode_live(
        rt.alloc(),
        &mut reader,
        &mut writer,
        settings(0),
        Limits::usual(),
        &mut watcher,
    );
    equal!(&rt; (end, watcher.steps.len()), (Ok(TWO), 2));
    check_steps(&rt, &watcher.steps, &writer.into_inner());
}

#[test]
fn live_file_without_pictures(rt: HostRuntime) {
    let (end, written) = live(rt.alloc(), LINE, 0, 100);
    equal!(&rt; end, Ok(EncodeReport { frames: 0, error: 0 }));
    equal!(&rt; written.bytes.as_slice(), HEAD.as_slice());
}

#[test]
fn live_settings_are_refused(rt: HostRuntime) {
    let (end, written) = live(rt.alloc(), LINE, 128, 100);
    let found = (end, written.flushes, written.bytes.len());
    equal!(&rt; found, (Err(EncodeAllFault::Settings), 0, 0));
}

/// Fails the test unless a file has one packet, all 128, which was flushed.
fn check_one(rt: &impl Abort, alloc: Global, written: &Flushed) {
    let file = written.bytes.as_slice();
    let length = packet_size(rt, file, 32, 0).saturating_add(44);
    equal!(rt; (file.len(), written.flushes, written.length), (length, 2, length));
    check_shown(rt, alloc, file, &[128; 384]);
}

/// The source ends inside its second picture: the first one is left.
#[test]
fn torn_source_leaves_its_frames(rt: HostRuntime) {
    let bytes = source();
    let torn = bytes.get(..600).expect(&rt, "a front");
    let (end, written) = live(rt.alloc(), torn, 0, 100);
    equal!(&rt; end, Err(EncodeAllFault::Torn));
    check_one(&rt, rt.alloc(), &written);
}

/// A writer whose first `writes` calls succeed gets this many bytes of the file, and then fails.
fn check_cut(rt: &impl Abort, alloc: Global, writes: usize, file: &[u8], length: usize) {
    let (end, written) = live(alloc, &source(), 0, writes as u64);
    equal!(rt;
        (writes, end, Some(written.bytes.as_slice())),
        (writes, Err(EncodeAllFault::Device), file.get(..length))
    );
}

/// The calls are a write and a flush for the head, and two writes and a flush for each packet.
fn check_cuts(rt: &impl Abort, alloc: Global, file: &[u8]) {
    let (first, second) = sizes(rt, file);
    let [packet, header] = [first.saturating_add(44), first.saturating_add(56)];
    let whole = header.saturating_add(second);
    let lengths = [0, 32, 32, 44, packet, packet, header, whole];
    for writes in 0..8usize {
        check_cut(rt, alloc, writes, file, lengths[writes]);
    }
}

#[test]
fn live_write_fails(rt: HostRuntime) {
    let (end, written) = live(rt.alloc(), &source(), 0, 8);
    equal!(&rt; end, Ok(TWO));
    check_cuts(&rt, rt.alloc(), &written.bytes);
}

/// A writer that keeps in a cell its length at the last flush.
#[derive(Drop)]
struct Told<'a> {
    bytes: Vec<u8>,
    flushed: &'a Cell<usize>,
}

impl Write for Told<'_> {
    fn write(&mut self, buf: &[u8]) -> io::Result<usize> {
        self.bytes.write(buf)
    }

    fn flush(&mut self) -> io::Result<()> {
        self.flushed.set(self.bytes.len());
        Ok(())
    }
}

/// A reader of a source of two pictures, which keeps in a cell what the other one has when the second picture is read.
#[derive(Drop)]
struct Watching<'a> {
    left: &'a [u8],
    flushed: &'a Cell<usize>,
    at_second: &'a Cell<usize>,
}

impl Read for Watching<'_> {
    fn read(&mut self, buf: &mut [u8]) -> io::Result<usize> {
        if self.left.len() == 390 {
            self.at_second.set(self.flushed.get());
        }
        self.left.read(buf)
    }
}

/// The second picture is read once the first packet, whole, is written and flushed.
#[test]
fn packets_are_flushed_while_pictures_are_read(rt: HostRuntime) {
    let bytes = source();
    let (flushed, at_second) = (Cell::new(0), Cell::new(0));
    let mut reader = Counted::new(Watching {
        left: &bytes,
        flushed: &flushed,
        at_second: &at_second,
    });
    let mut writer = Counted::new(Told {
        bytes: Vec::new(rt.alloc()),
        flushed: &flushed,
    });
    let end = encode_live(
        rt.alloc(),
        &mut reader,
        &mut writer,
        settings(0),
        Limits::usual(),
        &mut Unwatched,
    );
    equal!(&rt; end, Ok(TWO));
    let first = packet_size(&rt, &writer.into_inner().bytes, 32, 0);
    equal!(&rt; at_second.get(), first.saturating_add(44));
}
