//! Hints under the faults of IVF files.

use crate::kinds::FileKind;
use crate::names::{Printable, ShellWord};
use crate::packets::Place;
use crate::seen::Seen;
use crate::y4m_hints::hint_pipe;
use std::io::Write;
use std::{fmt, io};
use vp_ivf::FileFault;

// What a file's name is followed by where it has too many packets.
const TOO_MANY: &str =
    ": more packets than the limit. Try: a greater --max-packets, up to 16777216";

// Up to four bytes as hexadecimal numbers.
#[derive(Clone, Copy)]
struct Hexadecimal<'a>(&'a [u8]);

impl fmt::Display for Hexadecimal<'_> {
    fn fmt<W: fmt::Write>(&self, f: &mut fmt::Formatter<W>) -> fmt::Result {
        let mut mark = "";
        for byte in &self.0[..self.0.len().min(4)] {
            write!(f, "{mark}{byte:02x}")?;
            mark = " ";
        }
        Ok(())
    }
}

// What a file is that isn't of the wanted kind, by its first bytes: behind ` but ` its kind, if that is known.
#[derive(Clone, Copy)]
pub(crate) struct Found<'a>(pub(crate) FileKind, pub(crate) &'a [u8]);

impl fmt::Display for Found<'_> {
    fn fmt<W: fmt::Write>(&self, f: &mut fmt::Formatter<W>) -> fmt::Result {
        let (kind, start) = (self.0, Hexadecimal(self.1));
        match kind {
            FileKind::Empty => Ok(()),
            FileKind::Unknown => write!(f, "; it begins with {start}"),
            _ => write!(f, " but {kind} ({start})"),
        }
    }
}

// The number of packets that something was done to, as `1 packet was decoded`.
#[derive(Clone, Copy)]
struct Done<'a>(u64, &'a str);

impl fmt::Display for Done<'_> {
    fn fmt<W: fmt::Write>(&self, f: &mut fmt::Formatter<W>) -> fmt::Result {
        let Done(number, done) = *self;
        if number == 1 {
            write!(f, "1 packet was {done}")
        } else {
            write!(f, "{number} packets were {done}")
        }
    }
}

/// Prints what is wrong with an IVF file, and what to do. `done` says what happened to its whole packets, as
/// `decoded`.
pub fn hint_file<W: Write>(
    fault: FileFault,
    name: &str,
    seen: &Seen,
    done: &str,
    output: &mut W,
) -> io::Result<()> {
    let file = Printable(name);
    let number = seen.packets().whole;
    let done = Done(number, done);
    match fault {
        FileFault::Signature => hint_not_ivf(name, seen, output),
        FileFault::Codec => hint_codec(name, seen.head(), output),
        FileFault::TooMany => writeln!(output, "  {file}{TOO_MANY}"),
        FileFault::PacketTooLarge => writeln!(
            output,
            "  {file}: packet {number} has over 16,777,216 bytes; {done}"
        ),
        FileFault::Torn => hint_torn(file, seen, done, output),
        FileFault::Ended => Ok(()),
    }
}

// Prints where a file ends that isn't whole.
fn hint_torn<W: Write>(
    file: Printable<'_>,
    seen: &Seen,
    done: Done<'_>,
    output: &mut W,
) -> io::Result<()> {
    let packets = seen.packets();
    if let Place::FileHead(_) = packets.place {
        return hint_short_head(file, seen.bytes(), output);
    }
    let number = packets.whole;
    writeln!(output, "  {file} ends inside packet {number}; {done}")
}

// Prints that a file ends after this number of bytes, inside its head.
fn hint_short_head<W: Write>(file: Printable<'_>, bytes: u64, output: &mut W) -> io::Result<()> {
    if bytes == 0 {
        writeln!(output, "  {file} is empty")
    } else {
        writeln!(
            output,
            "  {file} ends inside its head, after {bytes} of 32 bytes"
        )
    }
}

/// Prints what is wrong with an IVF file of which no byte was seen, as standard input.
pub fn hint_stream_file<W: Write>(
    fault: FileFault,
    file: Printable<'_>,
    output: &mut W,
) -> io::Result<()> {
    let words = match fault {
        FileFault::Signature => ": not an IVF file",
        FileFault::Codec => ": not VP8",
        FileFault::TooMany => TOO_MANY,
        FileFault::PacketTooLarge => ": a packet has over 16,777,216 bytes",
        FileFault::Torn => " ends inside its head or a packet",
        FileFault::Ended => return Ok(()),
    };
    writeln!(output, "  {file}{words}")
}

// Prints the codec of a file that isn't VP8, and how to encode those that ffmpeg decodes.
fn hint_codec<W: Write>(name: &str, head: &[u8], output: &mut W) -> io::Result<()> {
    let Some(codec) = head.get(8..) else {
        return Ok(());
    };
    if codec.starts_with(b"VP90") {
        hint_other_codec(name, "VP9", output)
    } else if codec.starts_with(b"AV01") {
        hint_other_codec(name, "AV1", output)
    } else {
        let (file, bytes) = (Printable(name), Hexadecimal(codec));
        writeln!(output, "  {file}: codec {bytes}, not VP8")
    }
}

// Prints the name of a codec that ffmpeg decodes, and how to encode the file.
fn hint_other_codec<W: Write>(name: &str, codec: &str, output: &mut W) -> io::Result<()> {
    let file = Printable(name);
    write!(output, "  {file}: {codec}, not VP8")?;
    hint_pipe(ShellWord(name, ""), made_of(name), output)
}

/// Prints what a file is that isn't IVF, and how to make an IVF file of it.
pub fn hint_not_ivf<W: Write>(name: &str, seen: &Seen, output: &mut W) -> io::Result<()> {
    let (file, kind) = (Printable(name), seen.kind());
    let found = Found(kind, seen.head());
    write!(output, "  {file}: not an IVF file{found}")?;
    hint_making(name, kind, output)
}

// Prints how to make an IVF file, or a picture, of a file of another kind, after what it is.
fn hint_making<W: Write>(name: &str, kind: FileKind, output: &mut W) -> io::Result<()> {
    let (word, made) = (ShellWord(name, ""), made_of(name));
    match kind {
        FileKind::WebM | FileKind::Avi => writeln!(
            output,
            ". Try: ffmpeg -i {word} -c copy -r 30 {made}, with the film's rate for 30"
        ),
        FileKind::Y4m => writeln!(output, ". Try: vp8 encode {word} {made}"),
        FileKind::WebP => {
            let picture = renamed(name, ".ppm");
            writeln!(output, ". Try: vp8 picture {word} {picture}")
        }
        FileKind::Mp4 | FileKind::H264 | FileKind::Ogg => hint_pipe(word, made, output),
        _ => writeln!(output),
    }
}

// Returns the name of the IVF file that is made of a file, which is another name.
fn made_of(name: &str) -> ShellWord<'_> {
    match name.strip_suffix(".ivf") {
        Some(stem) => ShellWord(stem, ".vp8.ivf"),
        None => renamed(name, ".ivf"),
    }
}

// Returns a file's name with another ending.
fn renamed<'a>(name: &'a str, ending: &'a str) -> ShellWord<'a> {
    match name.rsplit_once('.') {
        Some((stem, old)) if !stem.is_empty() && !old.contains('/') => ShellWord(stem, ending),
        _ => ShellWord(name, ending),
    }
}
