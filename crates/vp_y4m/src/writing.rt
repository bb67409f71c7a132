//! Writing headers and pictures.

ghost use Rattle.std.specs.Prelude.{◌≡◌, ◌≢◌, ◌≤◌, ◌+◌, ◌++◌, ◌↔◌, ◌⊎◌, ℕ, length, take, OnOk, OnErr, Err};
ghost use Rattle.std.specs.Fmt.{decimal};
ghost use Rattle.std.specs.Io.KnownBytes.{Appends};
ghost use Rattle.vp_base.specs.Counted.{counted_contents, counted_failures, HasFailed, AppendsPrefix};
ghost use Rattle.vp_y4m.specs.Text.{header_text, picture_text, i420_length};

use std::io::Write;
use vp_base::{Counted, Device, Dim, put_all};

/// Why a picture is not written.
#[derive(Clone, Copy, Debug, PartialEq, Eq)]
pub enum PictureFault {
    /// Its size is not that of the file.
    SizeChange,
    /// A write failed.
    Device,
}

// Writes text to the line from index `at` on. Returns the index after it.
fn put_text(line: &mut [u8], at: usize, text: &[u8]) -> usize
    requires { at + length text.now ≤ length line.old }
    ensures place { result ≡ at + length text.now }
    ensures text { take result line.new ≡ take at line.old ++ text.now }
{
    let end = at + text.len();
    line[at..end].copy_from_slice(text);
    end
}

// Writes a decimal number to the line from index `at` on. Returns the index after it.
fn put_digits(line: &mut [u8], at: usize, n: u32) -> usize
    requires { at + length (decimal n) ≤ length line.old }
    ensures place { result ≡ at + length (decimal n) }
    ensures text { take result line.new ≡ take at line.old ++ decimal n }
{
    let digit = [b'0' + (n % 10) as u8];
    if n < 10 {
        return put_text(line, at, &digit);
    }
    let at = put_digits(line, at, n / 10);
    put_text(line, at, &digit)
}

// Writes a decimal number as `put_digits` does. There is room for any 32-bit number.
fn put_number(line: &mut [u8], at: usize, n: u32) -> usize
    requires { at + 10 ≤ length line.old }
    ensures place { result ≤ at + 10 }
    ensures text { take result line.new ≡ take at line.old ++ decimal n }
{
    put_digits(line, at, n)
}

// Writes the header line. Returns its length.
#[tactic(auto, unfolding(crate::specs::Text::header_text))]
fn put_header(line: &mut [u8], dim: Dim, rate: u32, scale: u32) -> usize
    requires { length line.old ≡ 80 }
    ensures len { result ≤ 80 }
    ensures text { take result line.new ≡ header_text dim.w dim.h rate scale }
{
    let at = put_text(line, 0, b"YUV4MPEG2 W");
    let at = put_number(line, at, u32::from(dim.w));
    let at = put_text(line, at, b" H");
    let at = put_number(line, at, u32::from(dim.h));
    let at = put_text(line, at, b" F");
    let at = put_number(line, at, rate);
    let at = put_text(line, at, b":");
    let at = put_number(line, at, scale);
    put_text(line, at, b" Ip A0:0 C420jpeg\n")
}

/// Writes the header line of a file with pictures of this size, `rate / scale` of them per second. It is one write if
/// the writer takes all bytes at once.
pub fn write_header<W: Write>(
    out: &mut Counted<W>,
    dim: Dim,
    rate: u32,
    scale: u32,
) -> Result<(), Device>
    ensures ok { OnOk result (Appends (counted_contents W.contents out.old)
        (counted_contents W.contents out.new) (header_text dim.w dim.h rate scale)) }
    ensures ok_count { OnOk result (counted_failures out.new ≡ counted_failures out.old) }
    ensures device { OnErr result (HasFailed (counted_failures out.old) (counted_failures out.new)) }
    ensures prefix { AppendsPrefix (counted_contents W.contents out.old)
        (counted_contents W.contents out.new) (header_text dim.w dim.h rate scale) }
{
    let mut line = [0; 80];
    let at = put_header(&mut line, dim, rate, scale);
    put_all(out, &line[..at])
}

/// Writes a picture of size `dim`, given as I420, to a file of size `file`. `SizeChange` if the sizes differ.
#[tactic(auto, unfolding(crate::specs::Text::picture_text))]
pub fn write_picture<W: Write>(
    out: &mut Counted<W>,
    file: Dim,
    bytes: &[u8],
    dim: Dim,
) -> Result<(), PictureFault>
    requires { length bytes.now ≡ i420_length dim.w dim.h }
    ensures size_change { (result ≡ Err PictureFault.SizeChange) ↔ ((file.w ≢ dim.w) ⊎ (file.h ≢ dim.h)) }
    ensures same_size { result ≢ Err PictureFault.SizeChange → (file.w ≡ dim.w) × (file.h ≡ dim.h) }
    ensures unchanged { result ≡ Err PictureFault.SizeChange → out.new ≡ out.old }
    ensures ok { OnOk result (Appends (counted_contents W.contents out.old)
        (counted_contents W.contents out.new) (picture_text bytes.now)) }
    ensures ok_count { OnOk result (counted_failures out.new ≡ counted_failures out.old) }
    ensures device { result ≡ Err PictureFault.Device
        → HasFailed (counted_failures out.old) (counted_failures out.new) }
    ensures prefix { AppendsPrefix (counted_contents W.contents out.old)
        (counted_contents W.contents out.new) (picture_text bytes.now) }
{
    if file.w != dim.w || file.h != dim.h {
        return Err(PictureFault::SizeChange);
    }
    let Ok(()) = put_all(out, b"FRAME\n") else {
        return Err(PictureFault::Device);
    };
    let Ok(()) = put_all(out, bytes) else {
        return Err(PictureFault::Device);
    };
    Ok(())
}
