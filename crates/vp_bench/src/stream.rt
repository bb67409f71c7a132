//! Makes IVF files from a number. The headers of the packets are written bool by bool; the data of macroblocks and the
//! tokens are pseudorandom bytes, which read as modes, vectors and coefficients that occur as often as the
//! probabilities of the header say (RFC 6386, chapters 7, 9 and 19).

ghost use Rattle.std.specs.Prelude.{◌<◌, ◌≤◌, ◌^◌};

use crate::random::Random;
use byteorder::{ByteOrder, LittleEndian};
use std::alloc::{AllocError, Global};
use vp_bool::BoolEncoder;
use vp_tables::{VECTOR_UPDATES, coefficient_updates};

/// What the packets of a stream are like.
#[derive(Clone, Copy)]
pub(crate) struct Kind {
    pub(crate) width: u16,
    pub(crate) height: u16,
    /// The version of the bitstream, 0 to 3.
    pub(crate) version: u8,
    /// The quantiser index, 0 to 127.
    pub(crate) quantiser: u8,
    /// The loop filter level, 0 to 63.
    pub(crate) level: u8,
    /// The logarithm of the number of token partitions, 0 to 3.
    pub(crate) log2_partitions: u8,
    /// The probability of 256 that a macroblock of an inter frame has tokens.
    pub(crate) coded: u8,
    /// The probability of 256 that a macroblock of an inter frame is intra.
    pub(crate) intra: u8,
    /// The probability of 256 that an inter macroblock is predicted from the last frame.
    pub(crate) last: u8,
    /// Whether vectors of golden and altref have their signs turned, and both are renewed now and then.
    pub(crate) biases: bool,
    /// The number of packets from one key packet to the next.
    pub(crate) key_every: u32,
    /// The bytes of tokens for each macroblock.
    pub(crate) token_bytes: u32,
    ghost version_bits: { version < 4 },
    ghost quantiser_bits: { quantiser < 128 },
    ghost level_bits: { level < 64 },
    ghost partition_bits: { log2_partitions < 4 },
    ghost keys: { 0 < key_every },
    ghost tokens: { token_bytes ≤ 400 },
    ghost narrow: { width ≤ 2048 },
    ghost low: { height ≤ 2048 },
}

/// The headers of a stream's frames, as the first bytes of their first partitions.
#[derive(Drop)]
struct Headers {
    key: Vec<u8>,
    /// A frame that renews last alone.
    inter: Vec<u8>,
    /// A frame that renews golden or altref too.
    renewing: Vec<u8>,
}

/// Writes a flag.
fn flag(e: &mut BoolEncoder, set: bool) -> Result<(), AllocError> {
    e.write(set, 128)
}

/// Writes that none of the probabilities of coefficients changes.
fn no_coefficient_updates(e: &mut BoolEncoder) -> Result<(), AllocError> {
    for table in coefficient_updates().iter().flatten().flatten().flatten() {
        e.write(false, *table)?;
    }
    Ok(())
}

/// Writes that none of the probabilities of modes and vectors changes.
fn no_motion_updates(e: &mut BoolEncoder) -> Result<(), AllocError> {
    flag(e, false)?;
    flag(e, false)?;
    for row in &VECTOR_UPDATES {
        for probability in row {
            e.write(false, *probability)?;
        }
    }
    Ok(())
}

/// Writes segmentation (none), the loop filter, the partitions and the quantiser.
fn write_common(kind: &Kind, e: &mut BoolEncoder) -> Result<(), AllocError> {
    flag(e, false)?;
    flag(e, kind.version == 3)?;
    e.literal(kind.level, 6)?;
    e.literal(0, 3)?;
    flag(e, false)?;
    e.literal(kind.log2_partitions, 2)?;
    e.literal(kind.quantiser, 7)?;
    e.literal(0, 5)
}

/// Returns the header of a key frame.
fn key_header(alloc: Global, kind: &Kind) -> Result<Vec<u8>, AllocError> {
    let mut e = BoolEncoder::new(alloc);
    e.literal(0, 2)?;
    write_common(kind, &mut e)?;
    flag(&mut e, true)?;
    no_coefficient_updates(&mut e)?;
    flag(&mut e, true)?;
    e.literal(kind.coded.max(128), 8)?;
    e.finish()
}

/// Returns the header of an inter frame. If it renews, golden is the new frame and altref the old golden.
fn inter_header(alloc: Global, kind: &Kind, renews: bool) -> Result<Vec<u8>, AllocError> {
    let mut e = BoolEncoder::new(alloc);
    write_common(kind, &mut e)?;
    flag(&mut e, renews)?;
    flag(&mut e, false)?;
    if !renews {
        e.literal(0, 2)?;
    }
    e.literal(if renews { 2 } else { 0 }, 2)?;
    flag(&mut e, kind.biases)?;
    flag(&mut e, kind.biases)?;
    flag(&mut e, true)?;
    flag(&mut e, true)?;
    no_coefficient_updates(&mut e)?;
    flag(&mut e, true)?;
    e.literal(kind.coded, 8)?;
    e.literal(kind.intra, 8)?;
    e.literal(kind.last, 8)?;
    e.literal(128, 8)?;
    no_motion_updates(&mut e)?;
    e.finish()
}

/// Appends the tag of a packet, and the start code and size of a key frame (chapter 9.1).
fn append_tag(bytes: &mut Vec<u8>, kind: &Kind, key: bool, first: usize) -> Result<(), AllocError> {
    let low = u32::from(!key) | u32::from(kind.version) << 1 | 1 << 4;
    let tag = low | ((first & 0x7_ffff) as u32) << 5;
    bytes.extend_from_slice(&tag.to_le_bytes()[..3])?;
    if key {
        bytes.extend_from_slice(&[0x9d, 0x01, 0x2a])?;
        bytes.extend_from_slice(&kind.width.to_le_bytes())?;
        bytes.extend_from_slice(&kind.height.to_le_bytes())?;
    }
    Ok(())
}

/// The number of macroblocks of a picture.
fn macroblocks(kind: &Kind) -> usize
    ensures { result ≤ 16384 }
{
    (usize::from(kind.width).div_ceil(16) * usize::from(kind.height).div_ceil(16)).min(16_384)
}

/// Appends a packet with this header.
fn append_packet(
    bytes: &mut Vec<u8>,
    random: &mut Random,
    kind: &Kind,
    key: bool,
    header: &[u8],
) -> Result<(), AllocError> {
    // All modes and vectors fit in this many bytes, but for rare frames, whose rest reads as zeros.
    let modes = (macroblocks(kind) * if key { 9 } else { 5 }).div_ceil(8) * 8;
    append_tag(bytes, kind, key, header.len().wrapping_add(modes))?;
    bytes.extend_from_slice(header)?;
    random.append(bytes, modes)?;
    let partitions = 1usize << kind.log2_partitions;
    let size = (macroblocks(kind) * kind.token_bytes as usize / partitions).div_ceil(8) * 8;
    for _ in 1..partitions {
        bytes.extend_from_slice(&(size as u32).to_le_bytes()[..3])?;
    }
    for _ in 0..partitions {
        random.append(bytes, size)?;
    }
    Ok(())
}

/// Appends the head of an IVF file.
fn append_head(bytes: &mut Vec<u8>, kind: &Kind, packets: u32) -> Result<(), AllocError> {
    bytes.extend_from_slice(b"DKIF\0\0\x20\0VP80")?;
    bytes.extend_from_slice(&kind.width.to_le_bytes())?;
    bytes.extend_from_slice(&kind.height.to_le_bytes())?;
    bytes.extend_from_slice(&[30, 0, 0, 0, 1, 0, 0, 0])?;
    bytes.extend_from_slice(&packets.to_le_bytes())?;
    bytes.extend_from_slice(&[0; 4])
}

impl Headers {
    /// Returns the headers of a stream of this kind.
    fn new(alloc: Global, kind: &Kind) -> Result<Headers, AllocError> {
        Ok(Headers {
            key: key_header(alloc, kind)?,
            inter: inter_header(alloc, kind, false)?,
            renewing: inter_header(alloc, kind, kind.biases)?,
        })
    }

    /// Returns the header of packet `n`, and whether it is a key packet.
    fn of(&self, kind: &Kind, n: u32) -> (&[u8], bool) {
        if n % kind.key_every == 0 {
            (&self.key, true)
        } else if n % 7 == 3 {
            (&self.renewing, false)
        } else {
            (&self.inter, false)
        }
    }
}

/// Returns an IVF file of this kind.
pub(crate) fn file_of(
    alloc: Global,
    random: &mut Random,
    kind: &Kind,
    packets: u32,
) -> Result<Vec<u8>, AllocError> {
    let headers = Headers::new(alloc, kind)?;
    let mut file = Vec::new(alloc);
    append_head(&mut file, kind, packets)?;
    let mut packet = Vec::new(alloc);
    for n in 0..packets {
        let (header, key) = headers.of(kind, n);
        packet.clear();
        append_packet(&mut packet, random, kind, key, header)?;
        file.extend_from_slice(&((packet.len() & 0xffff_ffff) as u32).to_le_bytes())?;
        file.extend_from_slice(&u64::from(n).to_le_bytes())?;
        file.extend_from_slice(&packet)?;
    }
    Ok(file)
}

/// Damages an IVF file of this many packets: one of the first ten bytes of one packet in sixteen, and the end of the
/// last packet, which is cut off.
pub(crate) fn damage(file: &mut Vec<u8>, random: &mut Random, packets: u32) {
    let mut at = 32;
    for _ in 0..packets {
        if file.len() < 22 || at > file.len() - 22 {
            break;
        }
        let size = LittleEndian::read_u32(&file[at..at + 4]) as usize;
        if random.below(16) == 0 {
            file[at + 12 + random.below(10) as usize] = (random.next() & 255) as u8;
        }
        at += 12 + size;
    }
    file.truncate(file.len().saturating_sub(5));
}
