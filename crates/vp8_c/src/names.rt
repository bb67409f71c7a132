//! The names of status numbers.

ghost use Rattle.std.specs.Prelude.{◌≡◌, ◌≢◌, ◌≤◌, ◌<◌, ◌+◌, ◌++◌, [], ◌∷◌, length};
ghost use Rattle.vp8_c.specs.Bytes.{BeginsWith};
ghost use Rattle.vp8_c.specs.Names.{status_name, packet_name, partition_name, file_name, call_name, done_name};
ghost use Rattle.vp8_c.specs.Names.{frame_name};

use crate::status::{
    ANIMATED, BUFFER, CLOSED, CODEC, DIMENSIONS, ENDED, FIRST_PARTITION, HIDDEN, LIMITS, LOSSLESS,
    MEMORY, NO_PACKET, NO_PICTURE, NO_REFERENCE, NOT_KEY, OK, OPEN, PACKET_TOO_LARGE, PARTITION,
    PARTITION_TABLE, SETTINGS, SIGNATURE, SIZE, START_CODE, TOO_LARGE, TOO_LONG, TOO_MANY, TORN,
    TRUNCATED, VERSION,
};

/// Returns the name of a status of success.
fn done_name(status: u32) -> &'static str
    ensures { result.now ≡ done_name status }
{
    match status {
        OK => "Ok",
        HIDDEN => "Hidden",
        _ => "",
    }
}

/// Returns the name of a packet's fault.
fn packet_name(status: u32) -> &'static str
    ensures { result.now ≡ packet_name status }
{
    match status {
        TRUNCATED => "Truncated",
        VERSION => "Version",
        START_CODE => "StartCode",
        SIZE => "Size",
        TOO_LARGE => "TooLarge",
        NO_REFERENCE => "NoReference",
        FIRST_PARTITION => "FirstPartition",
        PARTITION_TABLE => "PartitionTable",
        _ => "",
    }
}

/// Returns the name of a file's fault.
fn file_name(status: u32) -> &'static str
    ensures { result.now ≡ file_name status }
{
    match status {
        SIGNATURE => "Signature",
        CODEC => "Codec",
        TOO_MANY => "TooMany",
        PACKET_TOO_LARGE => "PacketTooLarge",
        TORN => "Torn",
        ENDED => "Ended",
        LOSSLESS => "Lossless",
        ANIMATED => "Animated",
        NOT_KEY => "NotKey",
        _ => "",
    }
}

/// Returns the name of an encoder's fault.
fn frame_name(status: u32) -> &'static str
    ensures { result.now ≡ frame_name status }
{
    match status {
        SETTINGS => "Settings",
        TOO_LONG => "TooLong",
        _ => "",
    }
}

/// Returns the name of a refused call.
fn call_name(status: u32) -> &'static str
    ensures { result.now ≡ call_name status }
{
    match status {
        CLOSED => "Closed",
        OPEN => "Open",
        MEMORY => "Memory",
        LIMITS => "Limits",
        DIMENSIONS => "Dimensions",
        NO_PICTURE => "NoPicture",
        NO_PACKET => "NoPacket",
        BUFFER => "Buffer",
        _ => "",
    }
}

/// Returns the name of the fault of token partition `i`, from 0 to 7.
fn partition_name(i: u32) -> &'static str
    ensures { result.now ≡ partition_name i }
{
    match i {
        0 => "Partition 0",
        1 => "Partition 1",
        2 => "Partition 2",
        3 => "Partition 3",
        4 => "Partition 4",
        5 => "Partition 5",
        6 => "Partition 6",
        7 => "Partition 7",
        _ => "",
    }
}

/// Returns the name of a status number; empty if there is no such status.
pub fn status_name(status: u32) -> &'static str
    ensures { result.now ≡ status_name status }
{
    if status < TRUNCATED {
        done_name(status)
    } else if status < SIGNATURE {
        packet_name(status)
    } else if status < SETTINGS {
        file_name(status)
    } else if status < CLOSED {
        frame_name(status)
    } else if status < PARTITION {
        call_name(status)
    } else {
        partition_name(status - PARTITION)
    }
}

/// Copies the name of a status and a final 0, if there is room for both. Returns the name's length without the 0.
#[unsafe(no_mangle)]
pub extern "C" fn vp8_status_name(status: u32, out: &mut [u8]) -> usize
    ensures len { result ≡ length (status_name status) }
    ensures copied { length (status_name status) < length out.old
        → BeginsWith (status_name status ++ 0 ∷ []) out.old out.new }
    ensures unchanged { length out.old ≤ length (status_name status) → out.new ≡ out.old }
{
    let name = status_name(status).as_bytes();
    if name.len() < out.len() {
        out[name.len()] = 0;
        out[..name.len()].copy_from_slice(name);
    }
    name.len()
}
