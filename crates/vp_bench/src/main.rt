//! The benchmark: jobs that users of the libraries wait for. Each prints one digest of all its results.
//!
//! `decode FILE..` decodes files, and `film FILE COUNT` encodes the first pictures of one; `awkward`, `list`, `scrub`,
//! `play`, `play-plain`, `record` and `archive`, each with SEED COUNT, make their input from the number SEED, as much
//! of it as COUNT says.
#![tactic(auto)]

mod decoding;
mod digest;
mod encoding;
mod pieces;
mod random;
mod serving;
mod stream;
mod video;

use crate::decoding::{decode_awkward, decode_files, list, unexpected};
use crate::digest::Digest;
use crate::encoding::{ARCHIVE, RECORDER, encode, encode_film};
use crate::random::Random;
use crate::serving::{CURSORS, play, scrub};
use std::{env, io};

/// Runs the job of this name on input made from a seed.
fn run_made(
    rt: &HostRuntime,
    job: &str,
    seed: &str,
    count: &str,
    digest: &mut Digest,
) -> io::Result<()> {
    let (Ok(seed), Ok(count)) = (seed.parse::<u32>(), count.parse::<u16>()) else {
        return Err(unexpected());
    };
    let alloc = rt.alloc();
    let mut random = Random::new(u64::from(seed));
    match job {
        "awkward" => decode_awkward(alloc, &mut random, u32::from(count), digest),
        "list" => list(alloc, &mut random, u32::from(count), digest),
        "scrub" => scrub(alloc, &mut random, u32::from(count), digest),
        "play" => play(alloc, &mut random, u32::from(count), CURSORS, digest),
        "play-plain" => play(alloc, &mut random, u32::from(count), 0, digest),
        "record" => encode(alloc, &mut random, RECORDER, count, digest),
        "archive" => encode(alloc, &mut random, ARCHIVE, count, digest),
        _ => Err(unexpected()),
    }
}

/// Runs the job that the words name.
fn run(rt: &HostRuntime, words: &[String], digest: &mut Digest) -> io::Result<()> {
    let [_, job, rest @ ..] = words else {
        return Err(unexpected());
    };
    if job.as_str() == "decode" {
        return decode_files(rt, rest, digest);
    }
    let [first, count] = rest else {
        return Err(unexpected());
    };
    if job.as_str() == "film" {
        let Ok(count) = count.parse::<u16>() else {
            return Err(unexpected());
        };
        return encode_film(rt, first.as_str(), count, digest);
    }
    run_made(rt, job.as_str(), first.as_str(), count.as_str(), digest)
}

fn main(rt: HostRuntime) -> io::Result<()> {
    let words: Vec<String> = env::args(&rt)?.collect(rt.alloc())?;
    let mut digest = Digest::new();
    run(&rt, &words, &mut digest)?;
    println!(rt; "{:016x}", digest.value())
}
