//! Tests of encoding whole files: the output, and the faults.

ghost use Rattle.std.specs.Prelude.{◌≡◌, false};

use crate::check::equal;
use std::alloc::Global;
use std::process::Abort;
use vp_base::{Counted, FailAt, Limits};
use vp_encode::{
    EncodeAllFault, EncodeReport, EncodedSoFar, Settings, Watcher, encode_all, encode_all_watched,
};
use vp_y4m::SourceHead;

/// The header line of a source of 16 by 16 pixels, 30 pictures a second.
const LINE: &[u8] = b"YUV4MPEG2 W16 H16 F30:1\n";

/// An IVF file of that size and rate without packets.
const EMPTY: [u8; 32] = [
    0x44, 0x4b, 0x49, 0x46, 0, 0, 0x20, 0, 0x56, 0x50, 0x38, 0x30, 0x10, 0, 0x10, 0, 0x1e, 0, 0, 0,
    1, 0, 0, 0, 0, 0, 0, 0, 0, 0, 0, 0,
];

/// Returns a source of `pictures` pictures, all 128.
fn source(rt: &impl Abort, alloc: Global, pictures: u32) -> Vec<u8> {
    let mut bytes = LINE.to_vec(alloc).expect(rt, "memory");
    for _ in 0..pictures {
        bytes.extend_from_slice(b"FRAME\n").expect(rt, "memory");
        bytes.extend_from_slice(&[128; 384]).expect(rt, "memory");
    }
    bytes
}

fn settings(qi: u8) -> Settings {
    Settings {
        qi,
        level: 0,
        sharpness: 0,
        simple: false,
        key_every: 64,
        golden_every: 0,
        range: 4,
        subpel: false,
        partitions: 1,
    }
}

/// Returns limits of this number of packets of this length.
fn limits(packet_bytes: u32, packets: u32) -> Limits {
    let usual = Limits::usual();
    match Limits::new(usual.pixels, packet_bytes, packets, usual.cache) {
        Some(limits) => limits,
        None => usual,
    }
}

/// The number of pictures and their error, or a fault.
type End = Result<EncodeReport, EncodeAllFault>;

/// Returns the result of encoding a source, and the bytes written.
fn written_by(alloc: Global, source: &[u8], qi: u8, limits: Limits) -> (End, Vec<u8>) {
    let mut reader = Counted::new(source);
    let mut writer = Counted::new(Vec::new(alloc));
    let end = encode_all(alloc, &mut reader, &mut writer, settings(qi), limits);
    (end, writer.into_inner())
}

/// Returns the result of encoding a source, and the number of bytes written.
fn ends(alloc: Global, source: &[u8], qi: u8, limits: Limits) -> (End, usize) {
    let (end, bytes) = written_by(alloc, source, qi, limits);
    (end, bytes.len())
}

#[test]
fn first_line_alone(rt: HostRuntime) {
    let (end, bytes) = written_by(rt.alloc(), LINE, 0, Limits::usual());
    equal!(&rt; end, Ok(EncodeReport { frames: 0, error: 0 }));
    equal!(&rt; bytes.as_slice(), EMPTY.as_slice());
}

#[test]
fn settings_are_refused(rt: HostRuntime) {
    let bytes = source(&rt, rt.alloc(), 1);
    let found = ends(rt.alloc(), &bytes, 128, Limits::usual());
    equal!(&rt; found, (Err(EncodeAllFault::Settings), 0));
}

/// Sources that are refused.
const REFUSED: [(&[u8], EncodeAllFault); 7] = [
    (b"YUV4MPEG W1 H1\n", EncodeAllFault::Magic),
    (b"YUV4MPEG2 W1\n", EncodeAllFault::Size),
    (b"YUV4MPEG2 W1 H1 C444\n", EncodeAllFault::Colour),
    (b"YUV4MPEG2 W1 H1 It\n", EncodeAllFault::Interlaced),
    (b"YUV4MPEG2 W1 H1", EncodeAllFault::Torn),
    (b"YUV4MPEG2 W1 H1\nFRAM\n", EncodeAllFault::Magic),
    (b"YUV4MPEG2 W1 H1\nFRAME\nab", EncodeAllFault::Torn),
];

#[test]
fn sources_are_refused(rt: HostRuntime) {
    for (bytes, fault) in &REFUSED {
        let found = ends(rt.alloc(), bytes, 0, Limits::usual());
        equal!(&rt; (*bytes, found), (*bytes, (Err(*fault), 0)));
    }
}

/// Returns the fault of a source, with a reader that fails after this number of reads.
fn read_until(alloc: Global, source: &[u8], reads: u64) -> Option<EncodeAllFault> {
    let mut reader = Counted::new(FailAt::new(source, reads));
    let mut writer = Counted::new(Vec::new(alloc));
    encode_all(
        alloc,
        &mut reader,
        &mut writer,
        settings(0),
        Limits::usual(),
    )
    .err()
}

#[test]
fn fails_at_each_read(rt: HostRuntime) {
    let device = Some(EncodeAllFault::Device);
    for reads in 0..25u64 {
        equal!(&rt; (reads, read_until(rt.alloc(), LINE, reads)), (reads, device));
    }
    equal!(&rt; read_until(rt.alloc(), LINE, 25), None);
}

/// Returns the number of reads in which a source is encoded.
fn reads_of(alloc: Global, source: &[u8]) -> Result<u64, EncodeAllFault> {
    let mut reader = Counted::new(source);
    let mut writer = Counted::new(Vec::new(alloc));
    encode_all(
        alloc,
        &mut reader,
        &mut writer,
        settings(0),
        Limits::usual(),
    )?;
    Ok(reader.reads())
}

/// The header line's 24 bytes and the frame line's 6 are read one by one, then 16 rows of Y, 8 of U and 8 of V. One
/// more read finds the end.
#[test]
fn reads_are_counted(rt: HostRuntime) {
    let bytes = source(&rt, rt.alloc(), 1);
    equal!(&rt; reads_of(rt.alloc(), &bytes), Ok(63));
}

#[test]
fn fails_at_the_first_write(rt: HostRuntime) {
    let mut reader = Counted::new(LINE);
    let mut writer = Counted::new(FailAt::new(Vec::new(rt.alloc()), 0));
    let done = encode_all(
        rt.alloc(),
        &mut reader,
        &mut writer,
        settings(0),
        Limits::usual(),
    );
    equal!(&rt; (done.err(), writer.failures()), (Some(EncodeAllFault::Device), 1));
}

/// A progress callback that records what it receives, unless memory runs out.
#[derive(Drop)]
pub(crate) struct Keeping {
    pub(crate) steps: Vec<EncodedSoFar>,
    pub(crate) refused: bool,
}

impl Watcher for Keeping {
    ghost told = { λ w steps. w.refused ≡ false → w.steps.items ≡ steps };

    fn encoded(&mut self, _head: &SourceHead, so_far: EncodedSoFar) {
        if self.steps.push(so_far).is_err() {
            self.refused = true;
        }
    }
}

/// Returns the size of the packet whose 12 bytes of header begin here, if it is below 65536.
fn packet_size(file: &[u8], place: usize) -> Option<usize> {
    match file.get(place..place.saturating_add(4)) {
        Some([low, high, 0, 0]) => {
            Some(usize::from(*low).saturating_add(usize::from(*high).saturating_mul(256)))
        }
        _ => None,
    }
}

/// Fails the test unless this is how much is encoded with the first packet of a file, with the first two, .. with all
/// of them, each without an error.
pub(crate) fn check_steps(rt: &impl Abort, steps: &[EncodedSoFar], file: &[u8]) {
    let error = 0;
    let (mut frames, mut bytes, mut place) = (0u32, 0u64, 32usize);
    for step in steps {
        let size = packet_size(file, place).expect(rt, "a packet");
        frames = frames.saturating_add(1);
        bytes = bytes.saturating_add(size as u64);
        place = place.saturating_add(12).saturating_add(size);
        equal!(rt; *step, EncodedSoFar { frames, bytes, error });
    }
    equal!(rt; place, file.len());
}

/// The result of encoding, what the callback received, and the file.
type Watched = (Option<EncodeAllFault>, Vec<EncodedSoFar>, Vec<u8>);

/// Encodes a source.
fn watched_by(alloc: Global, source: &[u8], limits: Limits) -> Watched {
    let mut reader = Counted::new(source);
    let mut writer = Counted::new(Vec::new(alloc));
    let mut watcher = Keeping {
        steps: Vec::new(alloc),
        refused: false,
    };
    let done = encode_all_watched(
        alloc,
        &mut reader,
        &mut writer,
        settings(0),
        limits,
        &mut watcher,
    );
    let Keeping { steps, refused: _ } = watcher;
    (done.err(), steps, writer.into_inner())
}

/// Encodes a source of three pictures.
fn watched(rt: &impl Abort, alloc: Global, limits: Limits) -> Watched {
    let bytes = source(rt, alloc, 3);
    watched_by(alloc, &bytes, limits)
}

#[test]
fn pictures_are_told(rt: HostRuntime) {
    let (fault, steps, file) = watched(&rt, rt.alloc(), Limits::usual());
    equal!(&rt; (fault, steps.len()), (None, 3));
    check_steps(&rt, &steps, &file);
}

/// The third picture is refused.
#[test]
fn pictures_before_a_fault_are_told(rt: HostRuntime) {
    let (_, whole, _) = watched(&rt, rt.alloc(), Limits::usual());
    let (fault, steps, file) = watched(&rt, rt.alloc(), limits(16_777_216, 2));
    equal!(&rt;
        (fault, Some(steps.as_slice()), file.len()),
        (Some(EncodeAllFault::TooMany), whole.get(..2), 0)
    );
}

#[test]
fn two_pictures(rt: HostRuntime) {
    let bytes = source(&rt, rt.alloc(), 2);
    let (end, written) = ends(rt.alloc(), &bytes, 0, Limits::usual());
    equal!(&rt; end, Ok(EncodeReport { frames: 2, error: 0 }));
    equal!(&rt; (written, written > 32 + 12 + 12), (written, true));
}

#[test]
fn a_packet_too_large(rt: HostRuntime) {
    let bytes = source(&rt, rt.alloc(), 1);
    let found = ends(rt.alloc(), &bytes, 0, limits(1, 1));
    equal!(&rt; found, (Err(EncodeAllFault::PacketTooLarge), 0));
}

#[test]
fn too_many_pictures(rt: HostRuntime) {
    let bytes = source(&rt, rt.alloc(), 2);
    let found = ends(rt.alloc(), &bytes, 0, limits(16_777_216, 1));
    equal!(&rt; found, (Err(EncodeAllFault::TooMany), 0));
}

/// Rows of points of 255 on 64: a large quantiser index loses many of them.
const POINTS: [[u8; 40]; 4] = [
    [
        64, 64, 64, 64, 64, 64, 64, 64, 64, 64, 64, 64, 64, 64, 64, 64, 64, 64, 64, 64, 64, 64, 64,
        64, 64, 64, 64, 64, 64, 64, 64, 255, 64, 64, 64, 64, 64, 64, 255, 64,
    ],
    [
        255, 64, 64, 64, 64, 64, 64, 64, 64, 64, 64, 64, 64, 64, 64, 64, 255, 64, 64, 64, 64, 64,
        64, 64, 64, 64, 64, 64, 64, 64, 64, 64, 64, 64, 64, 64, 64, 64, 64, 64,
    ],
    [
        64, 64, 64, 64, 255, 64, 64, 64, 64, 64, 64, 64, 64, 64, 64, 64, 64, 64, 64, 64, 64, 64,
        64, 64, 64, 64, 64, 64, 64, 64, 64, 64, 64, 255, 64, 64, 64, 64, 64, 64,
    ],
    [
        64, 64, 64, 64, 64, 64, 64, 64, 64, 64, 64, 255, 64, 64, 64, 255, 64, 64, 64, 64, 255, 64,
        64, 64, 64, 64, 64, 255, 64, 64, 64, 64, 64, 64, 64, 64, 64, 64, 64, 64,
    ],
];

/// Appends a row of points `count` times.
fn add_row(rt: &impl Abort, bytes: &mut Vec<u8>, row: &[u8; 40], count: u32) {
    for _ in 0..count {
        bytes.extend_from_slice(row).expect(rt, "memory");
    }
}

/// Appends 1,264 rows of points, each repeated `count` times.
fn add_rows(rt: &impl Abort, bytes: &mut Vec<u8>, count: u32) {
    for row in 0..1264usize {
        add_row(rt, bytes, &POINTS[row % 4], count);
    }
}

/// The source is one picture of 1,200 by 1,264 pixels: Y, then U and V. Both numbers come from an independent encoder.
#[test]
fn an_error_of_over_32_bits(rt: HostRuntime) {
    let line = b"YUV4MPEG2 W1200 H1264 F1:1\nFRAME\n";
    let mut bytes = line.to_vec(rt.alloc()).expect(&rt, "memory");
    add_rows(&rt, &mut bytes, 30);
    add_rows(&rt, &mut bytes, 15);
    let (end, written) = ends(rt.alloc(), &bytes, 127, Limits::usual());
    let report = EncodeReport {
        frames: 1,
        error: 4_404_395_212,
    };
    equal!(&rt; (end, written), (Ok(report), 267_593));
}
