//! The jobs that decode files and list what is in them.

use crate::digest::Digest;
use crate::pieces::Pieces;
use crate::random::Random;
use crate::stream::{Kind, damage, file_of};
use std::alloc::Global;
use std::io::Read;
use std::{fs, io};
use vp_base::{Counted, Limits};
use vp_decode::Outcome;
use vp_head::PacketFault;
use vp_ivf::FileFault;
use vp_stream::{Form, Survey, decode_all, survey};

/// A small picture, often fed byte by byte; golden and altref with their signs turned, whole-pixel vectors.
const SMALL: Kind = Kind {
    width: 175,
    height: 143,
    version: 3,
    quantiser: 10,
    level: 20,
    log2_partitions: 1,
    coded: 100,
    intra: 30,
    last: 100,
    biases: true,
    key_every: 50,
    token_bytes: 60,
};

/// One macroblock a picture.
const TINY: Kind = Kind {
    width: 16,
    height: 16,
    version: 0,
    quantiser: 20,
    level: 10,
    log2_partitions: 0,
    coded: 128,
    intra: 20,
    last: 200,
    biases: false,
    key_every: 30,
    token_bytes: 40,
};

/// Key frames at a high rate.
const KEYS: Kind = Kind {
    width: 352,
    height: 288,
    version: 0,
    quantiser: 4,
    level: 30,
    log2_partitions: 0,
    coded: 250,
    intra: 0,
    last: 0,
    biases: false,
    key_every: 1,
    token_bytes: 150,
};

/// All references, eight partitions, bilinear prediction, many split and far vectors.
const WILD: Kind = Kind {
    width: 640,
    height: 360,
    version: 1,
    quantiser: 2,
    level: 40,
    log2_partitions: 3,
    coded: 60,
    intra: 20,
    last: 90,
    biases: true,
    key_every: 100,
    token_bytes: 40,
};

/// A film of small pictures at a usual rate.
pub(crate) const FILM: Kind = Kind {
    width: 352,
    height: 288,
    version: 0,
    quantiser: 6,
    level: 24,
    log2_partitions: 0,
    coded: 40,
    intra: 6,
    last: 240,
    biases: false,
    key_every: 60,
    token_bytes: 12,
};

/// Returns an error for input that the benchmark does not expect.
pub(crate) fn unexpected() -> io::Error {
    io::Error::from(io::ErrorKind::InvalidInput)
}

/// Decodes a file, and adds its pictures and its report to a digest.
fn decode<R: Read + Drop>(alloc: Global, input: R, digest: &mut Digest) -> io::Result<()> {
    let mut reader = Counted::new(input);
    let mut writer = Counted::new(Digest::new());
    let Ok(report) = decode_all(alloc, &mut reader, &mut writer, Form::I420, Limits::usual()) else {
        return Err(unexpected());
    };
    digest.number(writer.into_inner().value());
    digest.number(u64::from(report.packets));
    digest.number(u64::from(report.shown));
    digest.number(report.faults.as_slice().len() as u64);
    for (packet, fault) in report.faults.as_slice() {
        digest.number(u64::from(*packet));
        digest.number(packet_fault_number(*fault));
    }
    Ok(())
}

/// Decodes files.
pub(crate) fn decode_files(
    rt: &HostRuntime,
    names: &[String],
    digest: &mut Digest,
) -> io::Result<()> {
    for name in names {
        decode(rt.alloc(), fs::open(rt, name.as_str())?, digest)?;
    }
    Ok(())
}

/// Makes a file, and decodes it in pieces of at most `size` bytes.
fn decode_made(
    alloc: Global,
    random: &mut Random,
    kind: &Kind,
    packets: u32,
    size: usize,
    digest: &mut Digest,
) -> io::Result<()> {
    let file = file_of(alloc, random, kind, packets)?;
    decode(alloc, Pieces { left: &file, size }, digest)
}

/// Decodes `count` files of each awkward kind.
pub(crate) fn decode_awkward(
    alloc: Global,
    random: &mut Random,
    count: u32,
    digest: &mut Digest,
) -> io::Result<()> {
    for _ in 0..count {
        decode_made(alloc, random, &WILD, 24, 65_536, digest)?;
        decode_made(alloc, random, &SMALL, 60, 1, digest)?;
        decode_made(alloc, random, &KEYS, 8, 1_400, digest)?;
        decode_made(alloc, random, &TINY, 2_000, 16, digest)?;
    }
    Ok(())
}

/// Returns the number of a packet's fault.
fn packet_fault_number(fault: PacketFault) -> u64 {
    match fault {
        PacketFault::Truncated => 2,
        PacketFault::Version => 3,
        PacketFault::StartCode => 4,
        PacketFault::Size => 5,
        PacketFault::TooLarge => 6,
        PacketFault::NoReference => 7,
        PacketFault::FirstPartition => 8,
        PacketFault::PartitionTable => 9,
        PacketFault::Partition(number) => 10 + u64::from(number),
    }
}

/// Returns the number of an outcome.
fn outcome_number(outcome: Outcome) -> u64 {
    match outcome {
        Outcome::Shown => 0,
        Outcome::Hidden => 1,
        Outcome::Fault(fault) => packet_fault_number(fault),
    }
}

/// Returns the number of what follows the packets of a file: its fault, or 0.
fn end_number(fault: Option<FileFault>) -> u64 {
    match fault {
        None => 0,
        Some(FileFault::Signature) => 1,
        Some(FileFault::Codec) => 2,
        Some(FileFault::TooMany) => 3,
        Some(FileFault::PacketTooLarge) => 4,
        Some(FileFault::Torn) => 5,
        Some(FileFault::Ended) => 6,
    }
}

/// Adds what a survey lists to a digest.
fn add_survey(survey: &Survey, digest: &mut Digest) {
    if let Some(head) = survey.head {
        digest.number(u64::from(head.w));
        digest.number(u64::from(head.h));
        digest.number(u64::from(head.rate));
        digest.number(u64::from(head.scale));
    }
    for (bytes, outcome) in survey.packets.as_slice() {
        digest.number(*bytes as u64);
        digest.number(outcome_number(*outcome));
    }
    digest.number(end_number(survey.fault));
}

/// Makes `count` files, and lists the packets of each. Every fourth is damaged.
pub(crate) fn list(
    alloc: Global,
    random: &mut Random,
    count: u32,
    digest: &mut Digest,
) -> io::Result<()> {
    for n in 0..count {
        let mut file = file_of(alloc, random, &FILM, 240)?;
        if n % 4 == 3 {
            damage(&mut file, random, 240);
        }
        let mut reader = Counted::new(Pieces {
            left: &file,
            size: 4_096,
        });
        let Ok(survey) = survey(alloc, &mut reader, Limits::usual()) else {
            return Err(unexpected());
        };
        add_survey(&survey, digest);
    }
    Ok(())
}
