//! The jobs that encode files.

ghost use Rattle.std.specs.Prelude.{◌≤◌, length};

use crate::decoding::unexpected;
use crate::digest::Digest;
use crate::random::Random;
use crate::video::video_of;
use std::alloc::Global;
use std::{fs, io};
use vp_base::{Counted, Limits};
use vp_encode::{Settings, encode_all};
use vp_stream::{Form, decode_all};

/// The settings of a recorder: quarter pixels, and a key frame now and then.
pub(crate) const RECORDER: Settings = Settings {
    qi: 24,
    level: 20,
    sharpness: 0,
    simple: false,
    key_every: 100,
    golden_every: 0,
    range: 16,
    subpel: true,
    partitions: 1,
};

/// The settings of an archive: the widest search, golden too.
pub(crate) const ARCHIVE: Settings = Settings {
    qi: 40,
    level: 24,
    sharpness: 0,
    simple: false,
    key_every: 100,
    golden_every: 4,
    range: 64,
    subpel: false,
    partitions: 1,
};

/// The settings for a film that is kept: the widest search.
const KEPT: Settings = Settings {
    range: 64,
    subpel: false,
    ..RECORDER
};

/// Encodes a YUV4MPEG2 file, and adds the encoded file and the report to a digest.
fn encode_video(
    alloc: Global,
    video: &[u8],
    settings: Settings,
    digest: &mut Digest,
) -> io::Result<()> {
    let mut reader = Counted::new(video);
    let mut writer = Counted::new(Digest::new());
    let Ok(report) = encode_all(alloc, &mut reader, &mut writer, settings, Limits::usual()) else {
        return Err(unexpected());
    };
    digest.number(writer.into_inner().value());
    digest.number(u64::from(report.frames));
    digest.add(&report.error.to_le_bytes());
    Ok(())
}

/// Makes a video of this number of pictures, encodes it, and adds the file and the report to a digest.
pub(crate) fn encode(
    alloc: Global,
    random: &mut Random,
    settings: Settings,
    pictures: u16,
    digest: &mut Digest,
) -> io::Result<()> {
    let video = video_of(alloc, random, 352, 288, pictures)?;
    encode_video(alloc, &video, settings, digest)
}

/// Returns the length in bytes of the first `pictures` pictures of a YUV4MPEG2 file that has `all` of them, with the
/// file's head.
fn length_of_first(video: &[u8], pictures: u16, all: u32) -> usize
    ensures { result ≤ length video.now }
{
    let head = video.iter().position(|byte| *byte == b'\n').unwrap_or(0) + 1;
    let picture = video.len().saturating_sub(head) / (all.max(1) as usize);
    head.saturating_add(picture.saturating_mul(usize::from(pictures)))
        .min(video.len())
}

/// Decodes a film, and encodes its first `pictures` pictures as a recorder does and as they are kept.
pub(crate) fn encode_film(
    rt: &HostRuntime,
    name: &str,
    pictures: u16,
    digest: &mut Digest,
) -> io::Result<()> {
    let alloc = rt.alloc();
    let mut reader = Counted::new(fs::open(rt, name)?);
    let mut writer = Counted::new(Vec::new(alloc));
    let Ok(report) = decode_all(alloc, &mut reader, &mut writer, Form::Y4m, Limits::usual()) else {
        return Err(unexpected());
    };
    let video = writer.into_inner();
    let first = &video[..length_of_first(&video, pictures, report.shown)];
    encode_video(alloc, first, RECORDER, digest)?;
    encode_video(alloc, first, KEPT, digest)
}
