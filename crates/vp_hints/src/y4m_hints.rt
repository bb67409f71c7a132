//! Hints under the faults of YUV4MPEG2 files.

use crate::file_hints::Found;
use crate::kinds::FileKind;
use crate::names::{Printable, ShellWord};
use crate::numbers::Grouped;
use crate::seen::Seen;
use std::io;
use std::io::Write;

// The most pixels of a side of a VP8 picture.
const LONGEST_SIDE: u64 = 16_383;

/// Prints what a file is that isn't YUV4MPEG2, and how to encode it into the file `to`.
pub fn hint_not_y4m<W: Write>(
    file: Printable<'_>,
    seen: &Seen,
    to: &str,
    output: &mut W,
) -> io::Result<()> {
    let kind = seen.kind();
    if let FileKind::Y4m = kind {
        return writeln!(
            output,
            "  {file}: a line of it is no line of YUV4MPEG2, or its rate is not two numbers"
        );
    }
    let found = Found(kind, seen.head());
    write!(output, "  {file}: not a YUV4MPEG2 file{found}")?;
    match kind {
        FileKind::Empty | FileKind::Unknown => writeln!(output),
        _ => hint_pipe(ShellWord(file.0, ""), ShellWord(to, ""), output),
    }
}

/// Prints how to encode a file of another kind, after what it is.
pub(crate) fn hint_pipe<W: Write>(
    from: ShellWord<'_>,
    to: ShellWord<'_>,
    output: &mut W,
) -> io::Result<()> {
    writeln!(
        output,
        ". Try: ffmpeg -i {from} -pix_fmt yuv420p -f yuv4mpegpipe - | vp8 encode - {to}"
    )
}

/// Prints the chroma format of a YUV4MPEG2 file that isn't 4:2:0 with 8 bits, if its first bytes say it.
pub fn hint_y4m_colour<W: Write>(
    file: Printable<'_>,
    seen: &Seen,
    output: &mut W,
) -> io::Result<()> {
    let (words, mark) = match colour_of(seen.head()) {
        Some(words) => (words, "; "),
        None => ("", ""),
    };
    writeln!(
        output,
        "  {file}: {words}{mark}only 4:2:0 with 8 bits is read"
    )
}

// The bytes before the first end of a line, or all.
fn first_line(head: &[u8]) -> &[u8] {
    match head.iter().position(|byte| *byte == b'\n') {
        Some(end) => &head[..end],
        None => head,
    }
}

// Returns the words for the last token of the first line that begins with a C.
fn colour_of(head: &[u8]) -> Option<&'static str> {
    let mut words = None;
    for token in first_line(head).split(|byte| *byte == b' ') {
        words = colour_words(token).or(words);
    }
    words
}

// Returns the words for a token of the chroma format.
fn colour_words(token: &[u8]) -> Option<&'static str> {
    match token {
        [b'C', b'4', b'2', b'0', b'p', ..] => Some("4:2:0 with more than 8 bits"),
        [b'C', b'4', _, _, b'p', ..] => Some("not 4:2:0, with more than 8 bits"),
        _ => format_words(token),
    }
}

// Returns the words for a chroma format that has 8 bits.
fn format_words(token: &[u8]) -> Option<&'static str> {
    match token {
        b"C444" => Some("4:4:4"),
        b"C422" => Some("4:2:2"),
        b"C411" => Some("4:1:1"),
        b"C440" => Some("4:4:0"),
        b"Cmono" => Some("gray"),
        b"C444alpha" => Some("4:4:4 with alpha"),
        _ => None,
    }
}

/// Prints why the size of the pictures of a YUV4MPEG2 file is refused where they may have this number of pixels, if its
/// first bytes say it.
pub fn hint_y4m_size<W: Write>(
    file: Printable<'_>,
    seen: &Seen,
    limit: u32,
    output: &mut W,
) -> io::Result<()> {
    let most = Grouped(u64::from(limit));
    match sides_of(seen.head()) {
        Some(sides) => hint_sides(file, sides, most, output),
        None => writeln!(
            output,
            "  {file}: no width and height, a side over 16,383, or more than {most} pixels. Try: --max-pixels"
        ),
    }
}

// Prints why a picture with these sides is refused.
fn hint_sides<W: Write>(
    file: Printable<'_>,
    (width, height): (u64, u64),
    most: Grouped,
    output: &mut W,
) -> io::Result<()> {
    let pixels = width.saturating_mul(height);
    if pixels == 0 {
        return writeln!(output, "  {file}: its first line has no width or no height");
    }
    write!(output, "  {file}: {width}x{height}")?;
    if width.max(height) > LONGEST_SIDE {
        writeln!(output, "; a side has at most 16,383 pixels")
    } else {
        let grouped = Grouped(pixels);
        writeln!(
            output,
            " is {grouped} pixels, the limit {most}. Try: --max-pixels {pixels}"
        )
    }
}

// Returns the width and the height in the first line, if it is whole; 0 for one that it does not state.
fn sides_of(head: &[u8]) -> Option<(u64, u64)> {
    let line = first_line(head);
    if line.len() == head.len() {
        return None;
    }
    let mut width: u64 = 0;
    let mut height: u64 = 0;
    for token in line.split(|byte| *byte == b' ') {
        match token {
            [b'W', digits @ ..] => width = decimal(digits),
            [b'H', digits @ ..] => height = decimal(digits),
            _ => {}
        }
    }
    Some((width, height))
}

// A decimal number, which saturates; 0 for other text.
fn decimal(digits: &[u8]) -> u64 {
    let mut number: u64 = 0;
    for digit in digits {
        if !digit.is_ascii_digit() {
            return 0;
        }
        let value = u64::from(digit.saturating_sub(b'0'));
        number = number.saturating_mul(10).saturating_add(value);
    }
    number
}
