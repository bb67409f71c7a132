//! A writer that sums up pictures.

ghost use Rattle.std.specs.Prelude.{◌<◌, ◌≤◌};

use md5::{Digest, Md5};
use std::alloc::Global;
use std::io::Write;
use std::{io, mem};

/// By which calls a picture is written.
#[derive(Clone, Copy, Debug, PartialEq, Eq)]
pub enum Arrival {
    /// By one call.
    Whole,
    /// By three calls, a plane each.
    Planes,
    /// By one call after that of the line of its frame, as in YUV4MPEG2.
    AfterLine,
}

impl Arrival {
    // How many calls write a picture that no line comes before.
    fn calls(self) -> u8
        ensures { result ≤ 3 }
    {
        match self {
            Arrival::Whole => 1,
            Arrival::Planes => 3,
            Arrival::AfterLine => 0,
        }
    }
}

/// A writer that takes the MD5 sum of what is written, and if that is asked for of each picture.
#[derive(Drop)]
pub struct Summer {
    all: Md5,
    each: bool,
    arrival: Arrival,
    // The sum of what is written of a picture, and how many calls are left of it; 0 before the line of a frame.
    picture: Md5,
    left: u8,
    pictures: Vec<[u8; 32]>,
}

impl Summer {
    /// Nothing was written yet.
    pub fn new(alloc: Global, each: bool, arrival: Arrival) -> Summer {
        Summer {
            all: Md5::new(),
            each,
            arrival,
            picture: Md5::new(),
            left: arrival.calls(),
            pictures: Vec::new(alloc),
        }
    }

    // The digits of the sums of the pictures, in order, and of all.
    pub(crate) fn into_digits(self) -> (Vec<[u8; 32]>, [u8; 32]) {
        let Summer {
            all,
            each: _,
            arrival: _,
            picture: _,
            left: _,
            pictures,
        } = self;
        (pictures, digits_of(all))
    }

    // Takes the sum of a picture, whose last bytes these may be.
    fn sum_picture(&mut self, bytes: &[u8]) -> io::Result<()> {
        if self.left == 0 {
            self.left = u8::from(bytes == b"FRAME\n".as_slice());
            return Ok(());
        }
        self.picture.update(bytes);
        self.left -= 1;
        if self.left == 0 {
            let picture = mem::replace(&mut self.picture, Md5::new());
            self.pictures.push(digits_of(picture))?;
            self.left = self.arrival.calls();
        }
        Ok(())
    }
}

impl Write for Summer {
    fn write(&mut self, buf: &[u8]) -> io::Result<usize> {
        self.all.update(buf);
        if self.each {
            self.sum_picture(buf)?;
        }
        Ok(buf.len())
    }

    fn flush(&mut self) -> io::Result<()> {
        Ok(())
    }
}

// The hexadecimal digits of a sum.
fn digits_of(hasher: Md5) -> [u8; 32] {
    let sum = hasher.finalize();
    let mut digits = [b'0'; 32];
    for (place, byte) in sum.iter().enumerate() {
        digits[2 * place] = hex_digit(*byte / 16);
        digits[2 * place + 1] = hex_digit(*byte % 16);
    }
    digits
}

// A hexadecimal digit.
fn hex_digit(value: u8) -> u8
    requires { value < 16 }
{
    if value < 10 {
        b'0' + value
    } else {
        b'a' + (value - 10)
    }
}
