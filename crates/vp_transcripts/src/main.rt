//! Runs transcripts, and prints the MD5 of the pictures of streams from other encoders. Its arguments are files:
//! streams (`ivf`) and transcripts (`packets`, `commands`, `connections`). It prints the digest of each stream's
//! pictures, the name of each case of a transcript, and each line whose result is unexpected.
#![tactic(auto)]

mod commands;
mod connections;

use crate::commands::Commands;
use crate::connections::Connections;
use std::{env, fs, io};
use vp_scripts::{Packets, malformed, tell as tell_transcript, tell_stream};

/// Prints the result for a transcript of this kind.
fn tell_text(rt: &HostRuntime, file: &str, kind: &str, text: &str) -> io::Result<()> {
    match kind {
        "packets" => tell_transcript(rt, file, text, &mut Packets::new(rt.alloc())),
        "commands" => tell_transcript(rt, file, text, &mut Commands::new()),
        "connections" => tell_transcript(rt, file, text, &mut Connections::new(rt.alloc())),
        _ => Err(malformed()),
    }
}

/// Prints the result for a file.
fn tell(rt: &HostRuntime, file: &str) -> io::Result<()> {
    let (name, kind) = file.rsplit_once('.').ok_or(malformed())?;
    if kind == "ivf" {
        return tell_stream(rt, file, name);
    }
    tell_text(rt, file, kind, fs::read_to_string(rt, file)?.as_str())
}

/// Prints the results for the files that are the program's arguments.
fn tell_all(rt: &HostRuntime) -> io::Result<()> {
    let words: Vec<String> = env::args(rt)?.collect(rt.alloc())?;
    for word in &words[1.min(words.len())..] {
        tell(rt, word.as_str())?;
    }
    Ok(())
}

fn main(rt: HostRuntime) -> io::Result<()> {
    tell_all(&rt)
}
