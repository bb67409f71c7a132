//! The line under a command's fault, indented by two spaces: the file or address in the user's words, why, what to do.

use crate::outside::Outside;
use crate::picture_fault::PictureFault;
use std::io;
use std::io::Write;
use vp_args::{EncodeArgs, EncodeOptions, PictureArgs};
use vp_check::CheckedPacket;
use vp_encode::EncodeAllFault;
use vp_head::PacketFault;
use vp_hints::{
    Cause, FileKind, Printable, hint_file, hint_not_ivf, hint_not_y4m, hint_stream_file,
    hint_y4m_colour, hint_y4m_size, meaning_of,
};
use vp_ivf::FileFault;
use vp_still::FindFault;
use vp_stream::DecodeFault;
use vp_webp::WebPFault;

// The name of standard input in words.
const STANDARD_INPUT: &str = "standard input";

// What a file does that is not read to its end.
const ENDLESS: &str = "did not end within 4,294,967,295 reads";

// Where a file of pictures ends.
const Y4M_ENDS: &str = "ends inside its first line, a frame's line or a picture";

// How packets are counted.
const FROM_0: &str = "packets are counted from 0";

// What to do if a packet gives no picture.
const ANOTHER: &str = ". Try: another --packet, which vp8 info lists";

/// Prints why work on packets ended, and what to do. `done` says what happened to the whole packets before.
pub(crate) fn hint_work<H, W: Write>(
    outside: &Outside<'_, H>,
    fault: DecodeFault,
    (from, to): (&str, &str),
    done: &str,
    output: &mut W,
) -> io::Result<()> {
    let file = input_name(from);
    match fault {
        DecodeFault::File(fault) => hint_input(outside, fault, from, done, output),
        DecodeFault::SizeChange => say(
            file,
            "its pictures change in size, which YUV4MPEG2 can't hold",
            ". Try: without --y4m",
            output,
        ),
        DecodeFault::Device => hint_device(outside, from, to, output),
        DecodeFault::ReadTurns => tell(file, ENDLESS, output),
        DecodeFault::Memory => hint_memory(output),
    }
}

/// Prints that packets have no byte: how many, and which is the first.
pub(crate) fn hint_empty<W: Write>(
    from: &str,
    packets: &[CheckedPacket],
    output: &mut W,
) -> io::Result<()> {
    let (mut count, mut first): (usize, usize) = (0, 0);
    for (number, packet) in packets.iter().enumerate() {
        if packet.bytes == 0 {
            first = if count == 0 { number } else { first };
            count = count.saturating_add(1);
        }
    }
    if count == 0 {
        return Ok(());
    }
    let file = input_name(from);
    writeln!(
        output,
        "  {file}: empty packets: {count}, the first is packet {first}: frames that were dropped, or are lost"
    )
}

/// Prints how packets are counted, under a packet that is missing.
pub(crate) fn hint_missing<W: Write>(from: &str, output: &mut W) -> io::Result<()> {
    say(input_name(from), FROM_0, "", output)
}

// Prints what is wrong with a file, and what to do.
fn say<W: Write>(file: Printable<'_>, words: &str, advice: &str, output: &mut W) -> io::Result<()> {
    writeln!(output, "  {file}: {words}{advice}")
}

// Prints what a file is or does.
fn tell<W: Write>(file: Printable<'_>, words: &str, output: &mut W) -> io::Result<()> {
    writeln!(output, "  {file} {words}")
}

/// Prints that memory is refused.
pub fn hint_memory<W: Write>(output: &mut W) -> io::Result<()> {
    writeln!(output, "  out of memory")
}

// Prints what is wrong with an IVF file. Of standard input nothing was seen.
fn hint_input<H, W: Write>(
    outside: &Outside<'_, H>,
    fault: FileFault,
    from: &str,
    done: &str,
    output: &mut W,
) -> io::Result<()> {
    if from == "-" {
        hint_stream_file(fault, Printable(STANDARD_INPUT), output)
    } else {
        hint_file(fault, from, &outside.input, done, output)
    }
}

// The name of an input in words.
fn input_name(from: &str) -> Printable<'_> {
    if from == "-" {
        Printable(STANDARD_INPUT)
    } else {
        Printable(from)
    }
}

// Prints which file can't be read or written, and why. Of standard input and output nothing is known here. If no call
// failed, a write took no byte.
fn hint_device<H, W: Write>(
    outside: &Outside<'_, H>,
    from: &str,
    to: &str,
    output: &mut W,
) -> io::Result<()> {
    if outside.is_one_file {
        return writeln!(output, "  in and out are one file");
    }
    match (outside.refused, outside.unwritten) {
        (Some(error), _) => hint_refused(from, error, output),
        (None, Some(error)) => hint_refused(to, error, output),
        (None, None) if from != "-" && to != "-" => {
            hint_refused(to, io::Error::from(io::ErrorKind::WriteZero), output)
        }
        (None, None) => Ok(()),
    }
}

// Prints why the system refuses a file. A reader that closes its pipe is no mistake.
fn hint_refused<W: Write>(name: &str, error: io::Error, output: &mut W) -> io::Result<()> {
    if error.kind() == io::ErrorKind::BrokenPipe {
        return Ok(());
    }
    let (name, cause) = (Printable(name), Cause(error));
    writeln!(output, "  {name}: {cause}")
}

/// Prints why a file was not encoded, and what to do; and what is in OUT, if packets were written as they were encoded.
pub(crate) fn hint_encode<H, W: Write>(
    outside: &Outside<'_, H>,
    fault: EncodeAllFault,
    encoding: &EncodeArgs<'_>,
    output: &mut W,
) -> io::Result<()> {
    hint_encode_fault(outside, fault, encoding, output)?;
    match &outside.encoded {
        Some(file) if encoding.live => hint_kept(file.packets().whole, encoding.output, output),
        _ => Ok(()),
    }
}

// Prints the number of frames that are in a file.
fn hint_kept<W: Write>(frames: u64, to: &str, output: &mut W) -> io::Result<()> {
    if frames == 0 {
        return Ok(());
    }
    let file = Printable(to);
    let are = if frames == 1 {
        "frame is"
    } else {
        "frames are"
    };
    writeln!(output, "  {frames} {are} in {file}")
}

// Prints why a file was not encoded, and what to do.
fn hint_encode_fault<H, W: Write>(
    outside: &Outside<'_, H>,
    fault: EncodeAllFault,
    encoding: &EncodeArgs<'_>,
    output: &mut W,
) -> io::Result<()> {
    let (from, to) = (encoding.input, encoding.output);
    match fault {
        EncodeAllFault::Magic
        | EncodeAllFault::Torn
        | EncodeAllFault::Colour
        | EncodeAllFault::Size => hint_source(outside, fault, encoding, output),
        EncodeAllFault::Settings => hint_settings(&encoding.options, to, output),
        EncodeAllFault::Device => hint_device(outside, from, to, output),
        EncodeAllFault::Memory => hint_memory(output),
        _ => say(input_name(from), words_of(fault), "", output),
    }
}

// Prints what is wrong with a file of pictures.
fn hint_source<H, W: Write>(
    outside: &Outside<'_, H>,
    fault: EncodeAllFault,
    encoding: &EncodeArgs<'_>,
    output: &mut W,
) -> io::Result<()> {
    let (file, to) = (input_name(encoding.input), encoding.output);
    match fault {
        EncodeAllFault::Torn => hint_torn(outside, file, to, output),
        EncodeAllFault::Colour => hint_y4m_colour(file, &outside.input, output),
        EncodeAllFault::Size => hint_y4m_size(file, &outside.input, encoding.limits.pixels, output),
        _ => hint_not_y4m(file, &outside.input, to, output),
    }
}

/// Prints why no picture was written, and what to do.
pub(crate) fn hint_picture<H, W: Write>(
    outside: &Outside<'_, H>,
    fault: PictureFault,
    wanted: &PictureArgs<'_>,
    output: &mut W,
) -> io::Result<()> {
    let file = input_name(wanted.input);
    match fault {
        PictureFault::Find(fault) => hint_find(outside, fault, wanted.input, output),
        PictureFault::TooLong => say(
            file,
            "a part of the picture's key frame is too long",
            ". Try: a greater --qi",
            output,
        ),
        PictureFault::Device => hint_device(outside, wanted.input, wanted.output, output),
        PictureFault::ReadTurns => tell(file, ENDLESS, output),
        PictureFault::Memory => hint_memory(output),
    }
}

// Prints why a file gives no picture, and what to do.
fn hint_find<H, W: Write>(
    outside: &Outside<'_, H>,
    fault: FindFault,
    from: &str,
    output: &mut W,
) -> io::Result<()> {
    match fault {
        FindFault::File(fault) => hint_input(outside, fault, from, "read", output),
        FindFault::WebP(WebPFault::Signature) if from != "-" => {
            hint_not_ivf(from, &outside.input, output)
        }
        FindFault::Memory => hint_memory(output),
        _ => {
            let (words, advice) = find_words(outside, fault);
            say(input_name(from), words, advice, output)
        }
    }
}

// Why a file gives no picture, and what to do.
fn find_words<H>(outside: &Outside<'_, H>, fault: FindFault) -> (&'static str, &'static str) {
    match fault {
        FindFault::WebP(fault) => (webp_words(fault), ""),
        FindFault::Packet(fault) => (meaning_of(fault), packet_advice(outside, fault)),
        FindFault::Hidden => ("the packet shows no picture", ANOTHER),
        FindFault::NoPacket(_) => (FROM_0, ""),
        _ => ("no packet shows a picture", ""),
    }
}

// What to do about a packet that gives no picture.
fn packet_advice<H>(outside: &Outside<'_, H>, fault: PacketFault) -> &'static str {
    if outside.input.kind() == FileKind::WebP || fault == PacketFault::TooLarge {
        ""
    } else {
        ANOTHER
    }
}

// What is wrong with a WebP file.
fn webp_words(fault: WebPFault) -> &'static str {
    match fault {
        WebPFault::Signature => "not a WebP file",
        WebPFault::Torn => "ends inside a chunk",
        WebPFault::Lossless => "lossless WebP; only lossy WebP is read. Try: dwebp or ffmpeg",
        WebPFault::Animated =>
            "animated WebP; only still pictures are read. Try: webpmux -get frame 1",
        WebPFault::NoPicture => "has no picture",
        WebPFault::NotKey => "its picture is no VP8 key frame",
        WebPFault::Hidden => "its picture is a hidden frame",
    }
}

// Prints where a file of pictures ends, or what it is if it holds no pictures.
fn hint_torn<H, W: Write>(
    outside: &Outside<'_, H>,
    file: Printable<'_>,
    to: &str,
    output: &mut W,
) -> io::Result<()> {
    match outside.input.kind() {
        FileKind::Empty if file.0 != STANDARD_INPUT => tell(file, "is empty", output),
        FileKind::Empty | FileKind::Y4m => tell(file, Y4M_ENDS, output),
        _ => hint_not_y4m(file, &outside.input, to, output),
    }
}

// Returns what is wrong with a file of pictures.
fn words_of(fault: EncodeAllFault) -> &'static str {
    match fault {
        EncodeAllFault::Interlaced => "interlaced; only progressive pictures are read",
        EncodeAllFault::TooMany => {
            "more pictures than the limit. Try: a greater --max-packets, up to 16777216"
        }
        EncodeAllFault::TooLong => {
            "a picture's modes and vectors need over 524,287 bytes. Try: a greater --qi"
        }
        EncodeAllFault::PacketTooLarge => {
            "a picture needs over 16,777,216 bytes. Try: a greater --qi"
        }
        _ => "",
    }
}

// Prints the first option that is out of its range. To standard output a program encodes, which reads the fault alone.
fn hint_settings<W: Write>(options: &EncodeOptions, to: &str, output: &mut W) -> io::Result<()> {
    if to == "-" {
        return Ok(());
    }
    let (option, value, range) = odd_setting(options);
    writeln!(output, "  {option} {value}: {range}")
}

// The first option that is out of its range, its value, and the range.
fn odd_setting(options: &EncodeOptions) -> (&'static str, u32, &'static str) {
    if options.qi > 127 {
        ("--qi", u32::from(options.qi), "0 to 127")
    } else if options.level > 63 {
        ("--filter", u32::from(options.level), "0 to 63")
    } else if options.sharpness > 7 {
        ("--sharpness", u32::from(options.sharpness), "0 to 7")
    } else if options.key_every == 0 {
        ("--key-every", 0, "at least 1")
    } else if options.range > 64 {
        ("--range", u32::from(options.range), "0 to 64")
    } else {
        (
            "--partitions",
            u32::from(options.partitions),
            "1, 2, 4 or 8",
        )
    }
}
