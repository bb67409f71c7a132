//! Tests of whole files: `decode_all` and `survey`.

use crate::check::{equal, parts};
use crate::files::{HIDDEN, INTER, KEY, file, file_and, key_picture, y4m};
use std::alloc::Global;
use std::io::Read;
use std::process::Abort;
use vp_base::{Counted, FailAt, Limits};
use vp_decode::Outcome;
use vp_head::PacketFault;
use vp_ivf::{FileFault, IvfHead};
use vp_stream::{DecodeFault, Form, Report, Stream, SurveyFault, decode_all, survey};

// An empty key frame of 17 by 1 pixels.
const WIDE: [u8; 10] = [0x10, 0, 0, 0x9d, 0x01, 0x2a, 0x11, 0, 0x01, 0];

fn decoded(
    alloc: Global,
    file: &[u8],
    form: Form,
    written: &mut Vec<u8>,
) -> Result<Report, DecodeFault> {
    let mut reader = Counted::new(file);
    let mut writer = Counted::new(written);
    decode_all(alloc, &mut reader, &mut writer, form, Limits::usual())
}

// Fails the test unless decoding a file of these packets gives a report with these faults and numbers: of packets, of
// shown and of hidden ones, and of the bytes written.
fn check_report(
    rt: &impl Abort,
    alloc: Global,
    packets: &[&[u8]],
    form: Form,
    faults: &[(u32, PacketFault)],
    wanted: (u32, u32, u32, usize),
) {
    let mut written = Vec::new(alloc);
    let end = decoded(alloc, &file(rt, alloc, packets), form, &mut written);
    let report = end.expect(rt, "a report");
    let numbers = (report.packets, report.shown, report.hidden, written.len());
    equal!(rt; (packets, form, numbers), (packets, form, wanted));
    equal!(rt; (packets, form, report.faults.as_slice()), (packets, form, faults));
}

// Fails the test unless decoding a file of these packets ends with this fault, if any, and writes exactly these bytes.
fn check_written(
    rt: &impl Abort,
    alloc: Global,
    packets: &[&[u8]],
    form: Form,
    fault: Option<DecodeFault>,
    bytes: &[u8],
) {
    let mut written = Vec::new(alloc);
    let end = decoded(alloc, &file(rt, alloc, packets), form, &mut written);
    equal!(rt; (packets, form, end.err(), written.as_slice()), (packets, form, fault, bytes));
}

#[test]
fn empty_key_frame(rt: HostRuntime) {
    check_report(&rt, rt.alloc(), &[&KEY], Form::I420, &[], (1, 1, 0, 384));
    check_written(&rt, rt.alloc(), &[&KEY], Form::I420, None, &key_picture());
}

#[test]
fn numbers_of_a_report(rt: HostRuntime) {
    let faults = [(2, PacketFault::Truncated)];
    let packets: [&[u8]; 4] = [&HIDDEN, &KEY, &KEY[..2], &HIDDEN];
    check_report(
        &rt,
        rt.alloc(),
        &packets,
        Form::I420,
        &faults,
        (4, 1, 2, 384),
    );
    check_report(
        &rt,
        rt.alloc(),
        &packets,
        Form::Y4m,
        &faults,
        (4, 1, 2, 431),
    );
}

#[test]
fn decode_to_y4m(rt: HostRuntime) {
    check_report(&rt, rt.alloc(), &[&KEY], Form::Y4m, &[], (1, 1, 0, 431));
    check_written(&rt, rt.alloc(), &[&KEY], Form::Y4m, None, &y4m());
    let change = Some(DecodeFault::SizeChange);
    check_written(&rt, rt.alloc(), &[&KEY, &WIDE], Form::Y4m, change, &y4m());
    check_report(
        &rt,
        rt.alloc(),
        &[&KEY, &WIDE],
        Form::I420,
        &[],
        (2, 2, 0, 419),
    );
}

#[test]
fn no_picture_no_bytes(rt: HostRuntime) {
    let faults = [(1, PacketFault::Truncated)];
    check_report(
        &rt,
        rt.alloc(),
        &[&HIDDEN, &KEY[..2]],
        Form::Y4m,
        &faults,
        (2, 0, 1, 0),
    );
}

// Returns the fault that ends decoding a file, and the number of bytes written.
fn ended(alloc: Global, file: &[u8], form: Form) -> (Option<DecodeFault>, usize) {
    let mut written = Vec::new(alloc);
    let fault = decoded(alloc, file, form, &mut written).err();
    (fault, written.len())
}

// The lengths at which a file is cut, and how decoding it ends.
const CUTS: [(usize, Option<DecodeFault>, usize); 4] = [
    (31, Some(DecodeFault::File(FileFault::Torn)), 0),
    (32, None, 0),
    (53, Some(DecodeFault::File(FileFault::Torn)), 0),
    (75, Some(DecodeFault::File(FileFault::Torn)), 431),
];

// Decodes the file cut at each of these lengths.
fn check_cuts(rt: &impl Abort, alloc: Global, whole: &[u8]) {
    for (length, fault, written) in &CUTS {
        let front = whole.get(..*length).expect(rt, "a front");
        equal!(rt; (length, ended(alloc, front, Form::Y4m)), (length, (*fault, *written)));
    }
}

#[test]
fn file_cut_short(rt: HostRuntime) {
    let whole = file(&rt, rt.alloc(), &[&KEY, &WIDE]);
    check_cuts(&rt, rt.alloc(), &whole);
}

#[test]
fn size_change_before_file_fault(rt: HostRuntime) {
    let large = [1, 0, 0, 1, 2, 0, 0, 0, 0, 0, 0, 0];
    let too_large = Some(DecodeFault::File(FileFault::PacketTooLarge));
    let wanted = [(too_large, 419), (Some(DecodeFault::SizeChange), 431)];
    let bytes = file_and(&rt, rt.alloc(), &[&KEY, &WIDE], &large);
    let found = [
        ended(rt.alloc(), &bytes, Form::I420),
        ended(rt.alloc(), &bytes, Form::Y4m),
    ];
    equal!(&rt; found, wanted);
}

// Decodes a file, read in two pieces, with a reader and a writer that fail from some call on. Returns the number of
// packets in the report or the fault, and the number of bytes written.
fn failing(
    alloc: Global,
    (first, second): (&[u8], &[u8]),
    form: Form,
    reads: u64,
    writes: u64,
) -> (Result<u32, DecodeFault>, usize) {
    let mut written = Vec::new(alloc);
    let mut reader = Counted::new(FailAt::new(first.chain(second), reads));
    let mut writer = Counted::new(FailAt::new(&mut written, writes));
    let end = match decode_all(alloc, &mut reader, &mut writer, form, Limits::usual()) {
        Ok(report) => Ok(report.packets),
        Err(fault) => Err(fault),
    };
    (end, written.len())
}

// How the decoding of two pictures ends after some reads and writes. As I420 each picture is written by three, a plane
// each.
const FAILURES: [(Form, u64, u64, Result<u32, DecodeFault>, usize); 15] = [
    (Form::I420, 0, 6, Err(DecodeFault::Device), 0),
    (Form::I420, 1, 6, Err(DecodeFault::Device), 384),
    (Form::I420, 2, 6, Err(DecodeFault::Device), 768),
    (Form::I420, 3, 6, Ok(2), 768),
    (Form::I420, 3, 0, Err(DecodeFault::Device), 0),
    (Form::I420, 3, 1, Err(DecodeFault::Device), 256),
    (Form::I420, 3, 2, Err(DecodeFault::Device), 320),
    (Form::I420, 3, 3, Err(DecodeFault::Device), 384),
    (Form::Y4m, 1, 9, Err(DecodeFault::Device), 431),
    (Form::Y4m, 3, 5, Ok(2), 821),
    (Form::Y4m, 3, 0, Err(DecodeFault::Device), 0),
    (Form::Y4m, 3, 1, Err(DecodeFault::Device), 41),
    (Form::Y4m, 3, 2, Err(DecodeFault::Device), 47),
    (Form::Y4m, 3, 3, Err(DecodeFault::Device), 431),
    (Form::Y4m, 3, 4, Err(DecodeFault::Device), 437),
];

// Tries each of these.
fn check_failures(rt: &impl Abort, alloc: Global, pieces: (&[u8], &[u8])) {
    for (form, reads, writes, end, written) in &FAILURES {
        let found = failing(alloc, pieces, *form, *reads, *writes);
        equal!(rt; (*form, reads, writes, found), (*form, reads, writes, (*end, *written)));
    }
}

#[test]
fn a_read_or_a_write_fails(rt: HostRuntime) {
    let bytes = file(&rt, rt.alloc(), &[&KEY, &KEY]);
    let pieces = bytes
        .as_slice()
        .split_at_checked(60)
        .expect(&rt, "two pieces");
    check_failures(&rt, rt.alloc(), pieces);
}

// Fails the test unless the survey of a file gives these three packets, and this fault.
fn check_survey(rt: &impl Abort, alloc: Global, file: &[u8], fault: Option<FileFault>) {
    let packets = [
        (9, Outcome::Fault(PacketFault::Truncated)),
        (3, Outcome::Fault(PacketFault::NoReference)),
        (10, Outcome::Shown),
    ];
    let head = IvfHead {
        w: 16,
        h: 16,
        rate: 30,
        scale: 1,
    };
    let mut reader = Counted::new(file);
    let found = survey(alloc, &mut reader, Limits::usual()).expect(rt, "a survey");
    equal!(rt;
        (found.head, found.packets.as_slice(), found.fault),
        (Some(head), packets.as_slice(), fault)
    );
}

// Returns why a file can't be surveyed by a reader whose second read fails.
fn failed_survey(alloc: Global, file: &[u8]) -> Option<SurveyFault> {
    let mut reader = Counted::new(FailAt::new(file, 1));
    survey(alloc, &mut reader, Limits::usual()).err()
}

#[test]
fn survey_of_three_packets(rt: HostRuntime) {
    let packets = [&KEY[..9], &INTER, &KEY];
    let whole = file(&rt, rt.alloc(), &packets);
    check_survey(&rt, rt.alloc(), &whole, None);
    let torn = file_and(&rt, rt.alloc(), &packets, &[1, 0]);
    check_survey(&rt, rt.alloc(), &torn, Some(FileFault::Torn));
    equal!(&rt; failed_survey(rt.alloc(), &torn), Some(SurveyFault::Device));
}

// Fails the test unless the fault is told by this name.
fn check_name(rt: &impl Abort, alloc: Global, fault: DecodeFault, name: &str) {
    let text = format!(in alloc; "{fault}").expect(rt, "memory");
    equal!(rt; text.as_str(), name);
}

#[test]
fn names_of_decode_faults(rt: HostRuntime) {
    check_name(&rt, rt.alloc(), DecodeFault::File(FileFault::Torn), "Torn");
    check_name(&rt, rt.alloc(), DecodeFault::SizeChange, "SizeChange");
    check_name(&rt, rt.alloc(), DecodeFault::Device, "Device");
    check_name(&rt, rt.alloc(), DecodeFault::ReadTurns, "ReadTurns");
    check_name(&rt, rt.alloc(), DecodeFault::Memory, "Memory");
}

// Asks a stream for its second packet, a picture, when the count of the work is one below its greatest.
fn check_count(rt: &impl Abort, stream: &Stream) {
    let mut work = u64::MAX - 1;
    let found = stream.picture_counted(1, &mut work).expect(rt, "memory");
    equal!(rt; (parts(&found).0, work), ("shown", u64::MAX));
}

#[test]
fn a_count_stays_at_its_greatest(rt: HostRuntime) {
    let mut stream = Stream::new(rt.alloc(), Limits::usual());
    let bytes = file(&rt, rt.alloc(), &[&KEY, &INTER]);
    stream.feed(&bytes).expect(&rt, "two packets");
    check_count(&rt, &stream);
}
