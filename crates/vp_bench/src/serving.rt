//! The job of a thumbnail service and an editor: files that arrive in pieces, and requests for single pictures.

use crate::decoding::{FILM, unexpected};
use crate::digest::Digest;
use crate::random::Random;
use crate::stream::{Kind, file_of};
use std::alloc::{AllocError, Global};
use std::io;
use vp_base::{ByteList, Limits};
use vp_hub::{Event, Hub};

/// The names of the streams.
const NAMES: [&[u8]; 2] = [b"film", b"other"];

/// The number of packets of each stream.
const PACKETS: u32 = 180;

/// The number of cursors of a hub that serves players, which is the default of `vp8 serve`.
pub(crate) const CURSORS: u32 = 16;

/// A film of small pictures at a usual rate, in one scene: only the first packet is a key packet.
const SCENE: Kind = Kind {
    width: 352,
    height: 288,
    version: 0,
    quantiser: 6,
    level: 24,
    log2_partitions: 0,
    coded: 40,
    intra: 6,
    last: 240,
    biases: false,
    key_every: 65_536,
    token_bytes: 12,
};

/// Copies bytes.
fn list(alloc: Global, bytes: &[u8]) -> Result<ByteList, AllocError> {
    Ok(ByteList::from_vec(bytes.to_vec(alloc)?))
}

/// Handles an event, and adds the reply to a digest.
fn handle(hub: &mut Hub, event: &Event, digest: &mut Digest) {
    match hub.step(event) {
        Ok(reply) => digest.add(reply.bytes.as_slice()),
        Err(_) => digest.number(1),
    }
    digest.number(hub.work());
}

/// The names of the streams.
fn names(alloc: Global) -> Result<Vec<ByteList>, AllocError> {
    let mut names = Vec::new(alloc);
    for name in NAMES {
        names.push(list(alloc, name)?).map_err(AllocError::from)?;
    }
    Ok(names)
}

/// Feeds a file to a stream in pieces of 1,400 bytes.
fn feed(
    alloc: Global,
    hub: &mut Hub,
    name: &[u8],
    file: &[u8],
    digest: &mut Digest,
) -> Result<(), AllocError> {
    for piece in file.chunks(1_400) {
        let event = Event::Feed(list(alloc, name)?, list(alloc, piece)?);
        handle(hub, &event, digest);
    }
    handle(hub, &Event::End(list(alloc, name)?), digest);
    Ok(())
}

/// Feeds each stream a file of this kind, and opens connection 1.
fn begin(
    alloc: Global,
    hub: &mut Hub,
    random: &mut Random,
    kind: &Kind,
    packets: u32,
    digest: &mut Digest,
) -> Result<(), AllocError> {
    for name in NAMES {
        let file = file_of(alloc, random, kind, packets)?;
        feed(alloc, hub, name, &file, digest)?;
    }
    handle(hub, &Event::Open(1), digest);
    Ok(())
}

/// Requests picture `n` of a stream.
fn ask(
    alloc: Global,
    hub: &mut Hub,
    film: bool,
    n: u32,
    digest: &mut Digest,
) -> Result<(), AllocError> {
    let name = if film { "film" } else { "other" };
    let head = format!(in alloc; "GET /s/{name}/frame/{n} HTTP/1.1\r\nHost: localhost\r\n\r\n")?;
    let event = Event::Bytes(1, list(alloc, head.as_bytes())?);
    handle(hub, &event, digest);
    Ok(())
}

/// Requests pictures at random, with their neighbours and once more, `count` times.
fn ask_around(
    alloc: Global,
    hub: &mut Hub,
    random: &mut Random,
    count: u32,
    digest: &mut Digest,
) -> Result<(), AllocError> {
    begin(alloc, hub, random, &FILM, PACKETS, digest)?;
    for _ in 0..count {
        let film = random.below(2) == 0;
        let n = random.below(PACKETS - 2);
        ask(alloc, hub, film, n, digest)?;
        ask(alloc, hub, film, n + 1, digest)?;
        ask(alloc, hub, film, n, digest)?;
        ask(alloc, hub, film, n + 2, digest)?;
    }
    Ok(())
}

/// Requests the pictures of the first stream in order, and then back in steps of ten.
fn ask_in_order(
    alloc: Global,
    hub: &mut Hub,
    random: &mut Random,
    count: u32,
    digest: &mut Digest,
) -> Result<(), AllocError> {
    begin(alloc, hub, random, &SCENE, count, digest)?;
    for n in 0..count {
        ask(alloc, hub, true, n, digest)?;
    }
    for step in 1..=count / 10 {
        ask(alloc, hub, true, count - step * 10, digest)?;
    }
    Ok(())
}

/// Makes two files, and requests pictures at random, with their neighbours and once more, `count` times.
pub(crate) fn scrub(
    alloc: Global,
    random: &mut Random,
    count: u32,
    digest: &mut Digest,
) -> io::Result<()> {
    let names = names(alloc)?;
    let Ok(mut hub) = Hub::new(alloc, names, Limits::usual()) else {
        return Err(unexpected());
    };
    Ok(ask_around(alloc, &mut hub, random, count, digest)?)
}

/// Makes two files of `count` packets with one key packet each, and requests the pictures of the first one in order,
/// and then back in steps of ten, from a hub with this number of cursors.
pub(crate) fn play(
    alloc: Global,
    random: &mut Random,
    count: u32,
    cursors: u32,
    digest: &mut Digest,
) -> io::Result<()> {
    let names = names(alloc)?;
    let Ok(mut hub) = Hub::with_cursors(alloc, names, Limits::usual(), cursors) else {
        return Err(unexpected());
    };
    Ok(ask_in_order(alloc, &mut hub, random, count, digest)?)
}
