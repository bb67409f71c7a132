//! The text form of bytes. Printable characters and spaces are themselves; `\r`, `
//! ` and `\\` are one byte each. Braces contain bytes in two hexadecimal digits, and named bytes; each item may be
//! sliced and repeated: `DKIF{00 00 KEY KEY[..21] 00*11}`.

use std::alloc::{AllocError, Global};
use std::collections::BTreeMap;
use std::io;
use std::io::{Error, ErrorKind};
use vp_base::Limits;

/// Named bytes.
#[derive(Drop)]
pub struct Names {
    alloc: Global,
    bytes: BTreeMap<String, Vec<u8>>,
}

/// Returns the error for a malformed text.
pub fn malformed() -> Error {
    Error::from(ErrorKind::InvalidData)
}

/// Parses a decimal number.
pub fn number(digits: &str) -> io::Result<u32> {
    digits.parse::<u32>().map_err(|_| malformed())
}

/// Parses the four limits: pixels, bytes of a packet, packets, and cached pictures.
pub fn limits(line: &str) -> io::Result<Limits> {
    let mut numbers = [0; 4];
    for (to, digits) in numbers.iter_mut().zip(line.split(' ')) {
        *to = number(digits)?;
    }
    let [pixels, packet_bytes, packets, cache] = numbers;
    Limits::new(pixels, packet_bytes, packets, cache).ok_or(malformed())
}

/// Returns a part of the bytes, given `FROM..TO`; each number may be left out.
pub fn part<'a>(bytes: &'a [u8], range: &str) -> io::Result<&'a [u8]> {
    let (from, to) = range.split_once("..").ok_or(malformed())?;
    let from = if from.is_empty() {
        0
    } else {
        number(from)? as usize
    };
    let to = if to.is_empty() {
        bytes.len()
    } else {
        number(to)? as usize
    };
    bytes.get(from..to).ok_or(malformed())
}

/// Appends the bytes of the text outside braces.
fn add_plain(text: &str, bytes: &mut Vec<u8>) -> io::Result<()> {
    let mut escaped = false;
    for byte in text.bytes() {
        match (escaped, byte) {
            (false, b'\\') => {}
            (true, b'r') => bytes.push(b'\r')?,
            (true, b'n') => bytes.push(b'\n')?,
            _ => bytes.push(byte)?,
        }
        escaped = !escaped && byte == b'\\';
    }
    Ok(())
}

impl Names {
    pub fn new(alloc: Global) -> Names {
        Names {
            alloc,
            bytes: BTreeMap::new(alloc),
        }
    }

    /// Gives bytes a name, given `NAME TEXT`.
    pub fn name(&mut self, line: &str) -> io::Result<()> {
        let (name, text) = line.split_once(' ').ok_or(malformed())?;
        let bytes = self.read(text)?;
        self.keep(name, &bytes)
    }

    /// Stores bytes under a name.
    pub fn keep(&mut self, name: &str, bytes: &[u8]) -> io::Result<()> {
        let bytes = bytes.to_vec(self.alloc)?;
        self.bytes
            .insert(String::from_str(self.alloc, name)?, bytes)?;
        Ok(())
    }

    /// Returns the bytes of a name.
    pub fn get(&self, name: &str) -> io::Result<&[u8]> {
        match self.bytes.get(name) {
            Some(bytes) => Ok(bytes.as_slice()),
            None => Err(malformed()),
        }
    }

    /// Returns the bytes of a text.
    pub fn read(&self, text: &str) -> io::Result<Vec<u8>> {
        let mut bytes = Vec::new(self.alloc);
        for (i, part) in text.split('{').enumerate() {
            let plain = match part.split_once('}') {
                Some((items, plain)) if 0 < i => {
                    self.add_items(items, &mut bytes)?;
                    plain
                }
                None if i == 0 => part,
                _ => return Err(malformed()),
            };
            add_plain(plain, &mut bytes)?;
        }
        Ok(bytes)
    }

    /// Appends the bytes of the items in braces.
    fn add_items(&self, items: &str, bytes: &mut Vec<u8>) -> io::Result<()> {
        for item in items.split(' ') {
            let (item, count) = match item.split_once('*') {
                Some((item, count)) => (item, number(count)?),
                None => (item, 1),
            };
            self.add_repeated(item, count, bytes)?;
        }
        Ok(())
    }

    fn add_repeated(&self, item: &str, count: u32, bytes: &mut Vec<u8>) -> io::Result<()> {
        for _ in 0..count {
            match u8::from_str_radix(item, 16) {
                Ok(byte) if item.len() == 2 => bytes.push(byte)?,
                _ => bytes.extend_from_slice(self.named(item)?)?,
            }
        }
        Ok(())
    }

    /// Returns the bytes of `NAME` or `NAME[FROM..TO]`.
    fn named(&self, item: &str) -> io::Result<&[u8]> {
        match item.split_once('[') {
            Some((name, range)) => {
                let range = range.strip_suffix(']').ok_or(malformed())?;
                part(self.get(name)?, range)
            }
            None => self.get(item),
        }
    }
}

/// The text form of the bytes written so far.
#[derive(Drop)]
struct Written {
    text: String,
    /// Whether a brace is open.
    is_open: bool,
}

impl Written {
    /// Appends a byte, `count` times.
    fn add(&mut self, byte: u8, count: usize) -> Result<(), AllocError> {
        let sign = match byte {
            b'\r' => "\\r",
            b'\n' => "\\n",
            b'\\' => "\\\\",
            b' '..=b'z' | b'|' | b'~' => return self.add_sign(byte, count),
            _ => return self.add_number(byte, count),
        };
        self.close()?;
        for _ in 0..count {
            self.text.push_str(sign)?;
        }
        Ok(())
    }

    /// Appends a printable character, `count` times.
    fn add_sign(&mut self, byte: u8, count: usize) -> Result<(), AllocError> {
        self.close()?;
        for _ in 0..count {
            self.text.push(char::from(byte))?;
        }
        Ok(())
    }

    /// Appends a byte in braces, `count` times.
    fn add_number(&mut self, byte: u8, count: usize) -> Result<(), AllocError> {
        self.text.push(if self.is_open { ' ' } else { '{' })?;
        self.is_open = true;
        write!(self.text, "{byte:02x}")?;
        if count > 1 {
            write!(self.text, "*{count}")?;
        }
        Ok(())
    }

    /// Closes the braces.
    fn close(&mut self) -> Result<(), AllocError> {
        if self.is_open {
            self.text.push('}')?;
        }
        self.is_open = false;
        Ok(())
    }
}

/// Returns the text form of bytes, without names.
pub fn text_of(alloc: Global, bytes: &[u8]) -> Result<String, AllocError> {
    let mut written = Written {
        text: String::new(alloc),
        is_open: false,
    };
    let mut count = 0usize;
    for (i, byte) in bytes.iter().enumerate() {
        count = count.saturating_add(1);
        if bytes.get(i + 1) != Some(byte) {
            written.add(*byte, count)?;
            count = 0;
        }
    }
    written.close()?;
    Ok(written.text)
}
