//! Names of files in lines.

ghost use Rattle.std.specs.Prelude.{◌≡◌, ◌<◌, List, ℕ, OnOk, true};
ghost use Rattle.std.specs.List.{list_all};
ghost use Rattle.std.specs.Io.KnownBytes.{Appends};
ghost use Rattle.vp_lines.specs.CheckLines.{hex_digit, is_plain_byte, name_byte, shown_name};

use std::io;
use std::io::Write;

/// Prints a file's name. Control bytes are written as `\n` or `\x1b`, so that a name can't end a line or move a
/// terminal's cursor.
pub(crate) fn print_file_name<W: Write>(name: &str, output: &mut W) -> io::Result<()>
    ensures { OnOk result (Appends (W.contents output.old) (W.contents output.new) (shown_name name.now)) }
{
    print_name_bytes(name.as_bytes(), output)
}

fn print_name_bytes<W: Write>(name: &[u8], output: &mut W) -> io::Result<()>
    ensures { OnOk result (Appends (W.contents output.old) (W.contents output.new) (shown_name name.now)) }
{
    for byte in name {
        print_name_byte(*byte, output)?;
    }
    Ok(())
}

// Prints a byte of a file's name.
fn print_name_byte<W: Write>(byte: u8, output: &mut W) -> io::Result<()>
    ensures { OnOk result (Appends (W.contents output.old) (W.contents output.new) (name_byte byte)) }
{
    if is_plain_byte(byte) {
        output.write_all(&[byte])
    } else if byte == b'\n' {
        output.write_all(b"\\n")
    } else {
        output.write_all(&[b'\\', b'x', hex_digit(byte / 16), hex_digit(byte % 16)])
    }
}

// Whether a byte is written as it is.
fn is_plain_byte(byte: u8) -> bool
    ensures { result ≡ is_plain_byte byte }
{
    !(byte < 32) && !(byte == 127)
}

/// A hexadecimal digit.
pub(crate) fn hex_digit(value: u8) -> u8
    requires { value < 16 }
    ensures { result ≡ hex_digit value }
{
    if value < 10 { value + 48 } else { value + 87 }
}

/// A name without control bytes is printed as it is, and no name prints one.
#[tactic(auto, using(crate::proofs::NameLemmas::plain_name, crate::proofs::NameLemmas::all_plain))]
pub fn names_have_no_control_bytes()
    ensures plain { (name : List ℕ) → list_all is_plain_byte name ≡ true → shown_name name ≡ name }
    ensures shown { (name : List ℕ) → list_all is_plain_byte (shown_name name) ≡ true }
{}
