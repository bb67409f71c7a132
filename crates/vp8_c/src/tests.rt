//! Tests of the numbers in `include/vp8.h`, and of planes with strides.

use crate::decoder_handle::DecoderHandle;
use crate::handle_value::HandleValue;
use crate::names::status_name;
use crate::planes::{CallerPlanes, CallerPlanesMut, Strides};
use crate::rows::{put_picture, put_size, read_picture};
use crate::status::{
    ANIMATED, BUFFER, CLOSED, CODEC, DIMENSIONS, ENDED, FIRST_PARTITION, HIDDEN, LIMITS, LOSSLESS,
    MEMORY, NO_PACKET, NO_PICTURE, NO_REFERENCE, NOT_KEY, OK, OPEN, PACKET_TOO_LARGE, PARTITION,
    PARTITION_TABLE, SETTINGS, SIGNATURE, SIZE, START_CODE, TOO_LARGE, TOO_LONG, TOO_MANY, TORN,
    TRUNCATED, VERSION, fault_number, file_number, outcome_number, webp_number, webp_write_number,
};
use std::alloc::Global;
use std::fmt::Debug;
use std::process::Abort;
use std::test::Fail;
use vp_base::{Dim, Limits, Picture};
use vp_decode::{Decoder, Outcome};
use vp_head::PacketFault;
use vp_ivf::FileFault;
use vp_webp::{WebPFault, WebPWriteFault};

/// Fails the test if the values differ, and prints both.
fn equal<T: PartialEq + Debug>(rt: &impl Abort, found: &T, wanted: &T) {
    assert_eq!(rt; found, wanted);
}

/// The numbers and names of a packet's faults are those of the header.
#[test]
fn numbers_of_packet_faults(rt: HostRuntime) {
    let faults = [
        (PacketFault::Truncated, 16, "Truncated"),
        (PacketFault::Version, 17, "Version"),
        (PacketFault::StartCode, 18, "StartCode"),
        (PacketFault::Size, 19, "Size"),
        (PacketFault::TooLarge, 20, "TooLarge"),
        (PacketFault::NoReference, 21, "NoReference"),
        (PacketFault::FirstPartition, 22, "FirstPartition"),
        (PacketFault::PartitionTable, 23, "PartitionTable"),
        (PacketFault::Partition(0), 256, "Partition 0"),
        (PacketFault::Partition(7), 263, "Partition 7"),
    ];
    for (fault, number, name) in faults {
        equal(&rt, &fault_number(fault), &number);
        equal(&rt, &outcome_number(Outcome::Fault(fault)), &number);
        assert!(rt; status_name(number) == name);
    }
    equal(&rt, &outcome_number(Outcome::Shown), &0);
    equal(&rt, &outcome_number(Outcome::Hidden), &1);
}

/// The numbers and names of a file's faults are those of the header.
#[test]
fn numbers_of_file_faults(rt: HostRuntime) {
    let faults = [
        (FileFault::Signature, 32, "Signature"),
        (FileFault::Codec, 33, "Codec"),
        (FileFault::TooMany, 34, "TooMany"),
        (FileFault::PacketTooLarge, 35, "PacketTooLarge"),
        (FileFault::Torn, 36, "Torn"),
        (FileFault::Ended, 37, "Ended"),
    ];
    for (fault, number, name) in faults {
        equal(&rt, &file_number(fault), &number);
        assert!(rt; status_name(number) == name);
    }
}

/// The numbers and names of a WebP file's faults, and of why a packet has no file, are those of the header.
#[test]
fn numbers_of_webp_faults(rt: HostRuntime) {
    let faults = [
        (WebPFault::Signature, 32, "Signature"),
        (WebPFault::Torn, 36, "Torn"),
        (WebPFault::Lossless, 38, "Lossless"),
        (WebPFault::Animated, 39, "Animated"),
        (WebPFault::NoPicture, 69, "NoPicture"),
        (WebPFault::NotKey, 40, "NotKey"),
        (WebPFault::Hidden, 1, "Hidden"),
    ];
    for (fault, number, name) in faults {
        equal(&rt, &webp_number(fault), &number);
        assert!(rt; status_name(number) == name);
    }
    equal(&rt, &webp_write_number(WebPWriteFault::NotKey), &40);
    equal(&rt, &webp_write_number(WebPWriteFault::Hidden), &1);
    equal(&rt, &webp_write_number(WebPWriteFault::TooLong), &49);
    equal(&rt, &webp_write_number(WebPWriteFault::Device), &71);
}

/// The names of the other statuses.
#[test]
fn names_of_other_numbers(rt: HostRuntime) {
    let names = [
        (0, "Ok"),
        (1, "Hidden"),
        (48, "Settings"),
        (49, "TooLong"),
        (64, "Closed"),
        (65, "Open"),
        (66, "Memory"),
        (67, "Limits"),
        (68, "Dimensions"),
        (69, "NoPicture"),
        (70, "NoPacket"),
        (71, "Buffer"),
        (2, ""),
        (24, ""),
        (72, ""),
        (264, ""),
    ];
    for (number, name) in names {
        assert!(rt; status_name(number) == name);
    }
}

/// The numbers of the header, one by one.
#[test]
fn numbers_of_the_header(rt: HostRuntime) {
    let numbers = [
        (OK, 0),
        (HIDDEN, 1),
        (TRUNCATED, 16),
        (VERSION, 17),
        (START_CODE, 18),
        (SIZE, 19),
        (TOO_LARGE, 20),
        (NO_REFERENCE, 21),
        (FIRST_PARTITION, 22),
        (PARTITION_TABLE, 23),
        (SIGNATURE, 32),
        (CODEC, 33),
        (TOO_MANY, 34),
        (PACKET_TOO_LARGE, 35),
        (TORN, 36),
        (ENDED, 37),
        (LOSSLESS, 38),
        (ANIMATED, 39),
        (NOT_KEY, 40),
        (SETTINGS, 48),
        (TOO_LONG, 49),
        (CLOSED, 64),
        (OPEN, 65),
        (MEMORY, 66),
        (LIMITS, 67),
        (DIMENSIONS, 68),
        (NO_PICTURE, 69),
        (NO_PACKET, 70),
        (BUFFER, 71),
        (PARTITION, 256),
    ];
    for (constant, number) in numbers {
        equal(&rt, &constant, &number);
    }
}

/// A decoder before its first packet has no picture, and is neither a file nor an encoder.
#[test]
fn nothing_to_give(rt: HostRuntime) {
    let held = HandleValue::Decoder(DecoderHandle {
        decoder: Decoder::new(rt.alloc(), Limits::usual()),
        frame: None,
    });
    assert!(rt; matches!(held.shown(), Err(NO_PICTURE)));
    assert!(rt; matches!(held.kept(), Err(CLOSED)));
    assert!(rt; matches!(held.encoded(), Err(CLOSED)));
}

/// Three rows of three pixels with a stride of 5 bytes, ending directly after the last row.
const LUMA: [u8; 13] = [1, 2, 3, 0, 0, 4, 5, 6, 0, 0, 7, 8, 9];

const FIRST: [u8; 4] = [10, 11, 12, 13];

const SECOND: [u8; 4] = [14, 15, 16, 17];

fn strides(y: usize, u: usize, v: usize) -> Strides {
    Strides { y, u, v }
}

fn picture_of_rows(alloc: Global) -> Result<Picture, Fail> {
    let dim = Dim::new(3, 3, &Limits::usual()).ok().ok_or("a size")?;
    let mut picture = Picture::new(alloc, dim, 128)?;
    let planes = CallerPlanes {
        y: &LUMA,
        u: &FIRST,
        v: &SECOND,
        strides: strides(5, 2, 2),
    };
    if read_picture(&mut picture, planes) {
        return Ok(picture);
    }
    Err("the rows don't fit".into())
}

/// Reads the shown pixels of rows with a stride, and writes them with a stride of 4 bytes. The bytes between rows are
/// unchanged.
#[test]
fn rows_stand_apart(rt: HostRuntime) -> Result<(), Fail> {
    let picture = picture_of_rows(rt.alloc())?;
    let shown = picture.crop_i420(rt.alloc())?;
    let all = [1, 2, 3, 4, 5, 6, 7, 8, 9, 10, 11, 12, 13, 14, 15, 16, 17];
    assert!(rt; shown.as_slice() == all.as_slice());
    let mut luma = [99; 11];
    let mut first = [99; 5];
    let mut second = [99; 4];
    let mut planes = CallerPlanesMut {
        y: &mut luma,
        u: &mut first,
        v: &mut second,
        strides: strides(4, 3, 2),
    };
    equal(&rt, &put_picture(&picture, &mut planes), &OK);
    assert!(rt; luma == [1, 2, 3, 99, 4, 5, 6, 99, 7, 8, 9]);
    assert!(rt; first == [10, 11, 99, 12, 13]);
    assert!(rt; second == SECOND);
    Ok(())
}

/// If a plane is one byte too short, or a row is longer than the stride, nothing is written.
#[test]
fn rows_that_do_not_fit(rt: HostRuntime) -> Result<(), Fail> {
    let picture = picture_of_rows(rt.alloc())?;
    let mut luma = [99; 10];
    let mut first = [99; 4];
    let mut second = [99; 4];
    let mut planes = CallerPlanesMut {
        y: &mut luma,
        u: &mut first,
        v: &mut second,
        strides: strides(4, 2, 2),
    };
    equal(&rt, &put_picture(&picture, &mut planes), &BUFFER);
    planes.strides = strides(2, 2, 2);
    equal(&rt, &put_picture(&picture, &mut planes), &BUFFER);
    assert!(rt; luma == [99; 10] && first == [99; 4] && second == [99; 4]);
    let (mut width, mut height) = (0, 0);
    equal(&rt, &put_size(picture.dim(), &mut width, &mut height), &OK);
    equal(&rt, &(width, height), &(3, 3));
    Ok(())
}
