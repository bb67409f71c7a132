//! A line of text that is put together from bytes of any kind.

ghost use Rattle.std.specs.Prelude.{◌≡◌, ◌<◌, ◌++◌, ◌∷◌, [], IfSome, true, flat_map};
ghost use Rattle.vp_mio.specs.Growth.{GrowsBy};
ghost use Rattle.vp_mio.specs.Lines.{is_plain, IsPlainLine, hexadecimal_digit, escaped, printed, quoted, quotation};

use std::alloc::Global;
use std::marker::Model;

/// A line that is put together. All its bytes are printable characters of ASCII.
#[derive(Drop)]
pub(crate) struct Line {
    bytes: Vec<u8>,
    // Whether memory sufficed so far.
    is_whole: bool,
}

impl Model for Line {
    ghost use Rattle.std.specs.Prelude.{◌≡◌, true};
    ghost use Rattle.std.specs.List.{list_all};
    ghost use Rattle.vp_mio.specs.Growth.{Draft};
    ghost use Rattle.vp_mio.specs.Lines.{is_plain};

    ghost Value = { Draft };

    ghost view = { λ l. record { bytes = l.bytes.items; is_whole = l.is_whole } };

    ghost invariant = { λ l. list_all is_plain l.bytes.items ≡ true };
}

impl Line {
    /// An empty line.
    pub(crate) fn new(alloc: Global) -> Line
        ensures { result.bytes ≡ [] }
    {
        Line {
            bytes: Vec::new(alloc),
            is_whole: true,
        }
    }

    /// Appends a text. A byte that is no printable character of ASCII is written as `\xHH`.
    pub(crate) fn put(&mut self, text: &[u8])
        ensures { GrowsBy self.old self.new (flat_map printed text.now) }
    {
        for byte in text {
            self.put_byte(*byte);
        }
    }

    /// Appends a text between quotation marks. In it a quotation mark and a backslash are written as `\xHH` too.
    pub(crate) fn put_quoted(&mut self, text: &[u8])
        ensures { GrowsBy self.old self.new (quotation text.now) }
    {
        self.push(b'"');
        for byte in text {
            self.put_quoted_byte(*byte);
        }
        self.push(b'"');
    }

    /// Ends the line by a line feed; `None` if memory was refused.
    pub(crate) fn end(self) -> Option<Vec<u8>>
        ensures plain { IfSome result (λ line. IsPlainLine line.items) }
        ensures text { IfSome result (λ line. (self.is_whole ≡ true) × (line.items ≡ self.bytes ++ 10 ∷ [])) }
    {
        let Line {
            mut bytes,
            is_whole,
        } = self;
        if !is_whole || bytes.push(b'\n').is_err() {
            return None;
        }
        Some(bytes)
    }

    fn put_quoted_byte(&mut self, byte: u8)
        ensures { GrowsBy self.old self.new (quoted byte) }
    {
        if byte == b'"' || byte == b'\\' {
            self.put_escaped(byte);
        } else {
            self.put_byte(byte);
        }
    }

    fn put_byte(&mut self, byte: u8)
        ensures { GrowsBy self.old self.new (printed byte) }
    {
        if is_plain(byte) {
            self.push(byte);
        } else {
            self.put_escaped(byte);
        }
    }

    fn put_escaped(&mut self, byte: u8)
        ensures { GrowsBy self.old self.new (escaped byte) }
    {
        self.push(b'\\');
        self.push(b'x');
        self.push(digit(byte / 16));
        self.push(digit(byte % 16));
    }

    fn push(&mut self, byte: u8)
        requires { is_plain byte ≡ true }
        ensures { GrowsBy self.old self.new (byte ∷ []) }
    {
        if self.bytes.push(byte).is_err() {
            self.is_whole = false;
        }
    }
}

// Whether a byte is a printable character of ASCII.
fn is_plain(byte: u8) -> bool
    ensures { result ≡ is_plain byte }
{
    32 <= byte && byte < 127
}

// A hexadecimal digit.
fn digit(value: u8) -> u8
    requires { value < 16 }
    ensures plain { is_plain result ≡ true }
    ensures digit { result ≡ hexadecimal_digit value }
{
    if value < 10 {
        b'0' + value
    } else {
        b'A' + (value - 10)
    }
}
