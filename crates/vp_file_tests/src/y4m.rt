//! Tests of vp_y4m: files written and read back, their faults, and failing devices.

use crate::check::equal;
use std::alloc::Global;
use std::io::{Read, Write};
use std::process::Abort;
use vp_base::{Counted, Dim, FailAt, Limits, Picture};
use vp_y4m::{PictureFault, Source, SourceFault, SourceHead, write_header, write_picture};

// A picture of 16 by 16: the first four rows of luma are 128, the others 129, and both chroma planes 128.
fn pixels() -> [u8; 384] {
    let mut bytes = [128u8; 384];
    for byte in &mut bytes[64..256] {
        *byte = 129;
    }
    bytes
}

// Returns the result of reading the header line, with a reader that fails after k reads.
fn head_of(line: &[u8], k: u64) -> Result<SourceHead, SourceFault> {
    let mut reader = Counted::new(FailAt::new(line, k));
    SourceHead::read(&mut reader, Limits::usual())
}

#[test]
fn header_text(rt: HostRuntime) {
    let mut file = Counted::new(Vec::new(rt.alloc()));
    let rt = &rt;
    let dim = Dim::new(16, 16, &Limits::usual()).expect(rt, "a size");
    let is_written = write_header(&mut file, dim, 30, 1).is_ok();
    let text = b"YUV4MPEG2 W16 H16 F30:1 Ip A0:0 C420jpeg\n".as_slice();
    let bytes = file.into_inner();
    equal!(rt; (is_written, bytes.as_slice()), (true, text));
}

// Writes a picture of 16 by 15 to a file of another size.
fn write_other<W: Write>(file: &mut Counted<W>, dim: Dim) -> Option<Result<(), PictureFault>> {
    let other = Dim::new(16, 15, &Limits::usual()).ok()?;
    let zeros = [0; 368];
    Some(write_picture(file, dim, &zeros, other))
}

// Writes a picture of 16 by 16 and one of 16 by 15 to a file of 16 by 16, and returns both results.
fn write_two<W: Write>(
    file: &mut Counted<W>,
) -> Option<(Result<(), PictureFault>, Result<(), PictureFault>)> {
    let dim = Dim::new(16, 16, &Limits::usual()).ok()?;
    let first = write_picture(file, dim, &pixels(), dim);
    Some((first, write_other(file, dim)?))
}

#[test]
fn picture_of_another_size(rt: HostRuntime) {
    let mut file = Counted::new(Vec::new(rt.alloc()));
    let fault = Err(PictureFault::SizeChange);
    let written = write_two(&mut file);
    equal!(&rt; (written, file.into_inner().len()), (Some((Ok(()), fault)), 390));
}

// Writes a header and a picture. Returns whether the header is written, and the result for the picture.
fn write_file<W: Write>(file: &mut Counted<W>) -> Option<(bool, Result<(), PictureFault>)> {
    let dim = Dim::new(16, 16, &Limits::usual()).ok()?;
    let header = write_header(file, dim, 30, 1).is_ok();
    Some((header, write_picture(file, dim, &pixels(), dim)))
}

fn check_picture(rt: &impl Abort, alloc: Global, picture: &Picture, wanted: &[u8]) {
    let bytes = picture.crop_i420(alloc).expect(rt, "memory");
    equal!(rt; bytes.as_slice(), wanted);
}

// The next picture has these bytes.
fn check_next(rt: &impl Abort, alloc: Global, source: &mut Source<'_, &[u8]>, wanted: &[u8]) {
    match source.next_picture() {
        Ok(Some(picture)) => check_picture(rt, alloc, &picture, wanted),
        Ok(None) => panic!(rt; "no picture of {wanted:?}"),
        Err(fault) => panic!(rt; "{fault:?} in place of {wanted:?}"),
    }
}

/// Returns the number of pictures, up to four, and the fault after them.
fn pictures_of<R: Read>(source: &mut Source<'_, R>) -> (u64, Option<SourceFault>) {
    for pictures in 0..4u64 {
        match source.next_picture() {
            Ok(Some(_)) => {}
            Ok(None) => return (pictures, None),
            Err(fault) => return (pictures, Some(fault)),
        }
    }
    (4, None)
}

/// A file has one picture, and these are its bytes.
fn check_one_picture(rt: &impl Abort, alloc: Global, file: &[u8], wanted: &[u8]) {
    let mut reader = Counted::new(file);
    let head = SourceHead::read(&mut reader, Limits::usual()).expect(rt, "a head");
    let mut source = Source::open(alloc, &mut reader, head);
    check_next(rt, alloc, &mut source, wanted);
    equal!(rt; pictures_of(&mut source), (0, None));
}

#[test]
fn source_reads_back(rt: HostRuntime) {
    let alloc = rt.alloc();
    let rt = &rt;
    let mut file = Counted::new(Vec::new(alloc));
    equal!(rt; write_file(&mut file), Some((true, Ok(()))));
    let bytes = file.into_inner();
    check_one_picture(rt, alloc, bytes.as_slice(), &pixels());
}

#[test]
fn source_says_its_head(rt: HostRuntime) {
    let alloc = rt.alloc();
    let rt = &rt;
    let mut reader = Counted::new(b"YUV4MPEG2 W3 H2 F30:1\n".as_slice());
    let head = SourceHead::read(&mut reader, Limits::usual()).expect(rt, "a head");
    let source = Source::open(alloc, &mut reader, head);
    let dim = source.dim();
    equal!(rt; (dim.w, dim.h, source.rate(), source.scale()), (3, 2, 30, 1));
}

// Returns the width, height, rate and scale in the header line.
fn said_of(line: &[u8], k: u64) -> Option<(u16, u16, u32, u32)> {
    match head_of(line, k) {
        Ok(head) => Some((head.dim.w, head.dim.h, head.rate, head.scale)),
        Err(_) => None,
    }
}

/// Header lines, numbers of reads that don't fail, and the width, height, rate and scale in the lines.
const LINES: [(&[u8], u64, (u16, u16, u32, u32)); 4] = [
    (
        b"YUV4MPEG2  H02 W9 W007 Xany C420paldv I? F24:1\n",
        2_000,
        (7, 2, 24, 1),
    ),
    (b"YUV4MPEG2 W1 H1\nFRAME\n", 16, (1, 1, 25, 1)),
    (b"YUV4MPEG2 W1 H1 C420\n", 2_000, (1, 1, 25, 1)),
    (b"YUV4MPEG2 W1 H1 C420mpeg2\n", 2_000, (1, 1, 25, 1)),
];

#[test]
fn header_lines(rt: HostRuntime) {
    for (line, reads, said) in LINES {
        equal!(&rt; (line, said_of(line, reads)), (line, Some(said)));
    }
}

#[test]
fn header_of_another_writer(rt: HostRuntime) {
    let line =
        b"YUV4MPEG2 W35 H17 F30000:1001 Ip A1:1 C420jpeg XYSCSS=420JPEG XCOLORRANGE=LIMITED\n";
    equal!(&rt; said_of(line, 2_000), Some((35, 17, 30_000, 1_001)));
}

/// Header lines that are refused, and their faults.
const REFUSED: [(&[u8], SourceFault); 11] = [
    (b"YUV4MPEG W1 H1\n", SourceFault::Magic),
    (b"YUV4MPEG2 F30\n", SourceFault::Magic),
    (b"YUV4MPEG2 W1 H1 F+30:1\n", SourceFault::Magic),
    (&[b' '; 1_025], SourceFault::Magic),
    (b"YUV4MPEG2 W1 C444\n", SourceFault::Size),
    (b"YUV4MPEG2 W70000 H1\n", SourceFault::Size),
    (b"YUV4MPEG2 W16000 H16000\n", SourceFault::Size),
    (b"YUV4MPEG2 W1 H1 C444 Ii\n", SourceFault::Colour),
    (b"YUV4MPEG2 W1 H1 Ip It\n", SourceFault::Interlaced),
    (b"", SourceFault::Torn),
    (&[b' '; 1_024], SourceFault::Torn),
];

#[test]
fn header_faults(rt: HostRuntime) {
    for (line, fault) in REFUSED {
        let found = head_of(line, 2_000).err();
        equal!(&rt; (line, found), (line, Some(fault)));
    }
}

const SMALL: &[u8] = b"YUV4MPEG2 W1 H1\nFRAME\nabcFRAME x\ndefFRAME\ngh";

/// Returns the number of pictures in a file, and the fault after them, with a reader that fails after k reads.
fn read_all(alloc: Global, file: &[u8], k: u64) -> (u64, Option<SourceFault>) {
    let mut reader = Counted::new(FailAt::new(file, k));
    match SourceHead::read(&mut reader, Limits::usual()) {
        Ok(head) => pictures_of(&mut Source::open(alloc, &mut reader, head)),
        Err(fault) => (0, Some(fault)),
    }
}

fn pictures_before(k: u64) -> u64 {
    if k < 25 {
        0
    } else if k < 36 {
        1
    } else {
        2
    }
}

fn fault_after(k: u64) -> SourceFault {
    if k < 45 {
        SourceFault::Device
    } else {
        SourceFault::Torn
    }
}

#[test]
fn fails_at_each_read(rt: HostRuntime) {
    let alloc = rt.alloc();
    for k in 0..46u64 {
        let wanted = (pictures_before(k), Some(fault_after(k)));
        equal!(&rt; (k, read_all(alloc, SMALL, k)), (k, wanted));
    }
}

/// Returns the number of reads for the header, how the pictures end, and the number of all reads.
fn reads_of(alloc: Global, file: &[u8]) -> Option<(u64, (u64, Option<SourceFault>), u64)> {
    let mut reader = Counted::new(FailAt::new(file, 2_000));
    let head = SourceHead::read(&mut reader, Limits::usual()).ok()?;
    let first = reader.reads();
    let ended = pictures_of(&mut Source::open(alloc, &mut reader, head));
    Some((first, ended, reader.reads()))
}

/// The header line's 16 bytes, the frame line's 6 and the 3 pixels are read one by one; one more read finds the end.
#[test]
fn reads_are_counted(rt: HostRuntime) {
    let file = b"YUV4MPEG2 W1 H1\nFRAME\nabc";
    equal!(&rt; reads_of(rt.alloc(), file), Some((16, (1, None), 26)));
}

/// After a failed read there are no more reads.
#[test]
fn a_failed_read_is_the_last(rt: HostRuntime) {
    let mut reader = Counted::new(FailAt::new(SMALL, 3));
    let fault = SourceHead::read(&mut reader, Limits::usual()).err();
    equal!(&rt; (fault, reader.reads()), (Some(SourceFault::Device), 4));
}

// Returns the results for header and picture, and the number of bytes written, with a writer that fails after k writes.
fn write_all(alloc: Global, k: u64) -> (Option<(bool, Result<(), PictureFault>)>, usize) {
    let mut file = Counted::new(FailAt::new(Vec::new(alloc), k));
    let told = write_file(&mut file);
    (told, file.into_inner().into_inner().len())
}

#[test]
fn fails_at_each_write(rt: HostRuntime) {
    let alloc = rt.alloc();
    let fault = Err(PictureFault::Device);
    for (k, header, length) in [(0, false, 0), (1, true, 41), (2, true, 47)] {
        equal!(&rt; (k, write_all(alloc, k)), (k, (Some((header, fault)), length)));
    }
}

/// The rows of Y, U and V follow each other; those of chroma have half of three pixels, rounded up.
#[test]
fn planes_stand_in_order(rt: HostRuntime) {
    let alloc = rt.alloc();
    let rt = &rt;
    let mut reader = Counted::new(b"YUV4MPEG2 W3 H1\nFRAME\nabcdefg".as_slice());
    let head = SourceHead::read(&mut reader, Limits::usual()).expect(rt, "a head");
    let mut source = Source::open(alloc, &mut reader, head);
    check_next(rt, alloc, &mut source, b"abcdefg");
}

/// Files with longer words, and the number of pictures before them.
const LONGER: [(&[u8], u64); 3] = [
    (b"YUV4MPEG22 W1 H1\nFRAME\nabc", 0),
    (b"YUV4MPEG2 W1 H1\nFRAMES\nabc", 0),
    (b"YUV4MPEG2 W1 H1\nFRAME\nabcFRAMES x\nabc", 1),
];

/// The keyword of a line must be a whole word, not only a prefix of one.
#[test]
fn first_words_are_whole(rt: HostRuntime) {
    let alloc = rt.alloc();
    for (file, pictures) in LONGER {
        let found = read_all(alloc, file, 2_000);
        equal!(&rt; (file, found), (file, (pictures, Some(SourceFault::Magic))));
    }
}
