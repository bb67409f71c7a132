//! The transcript commands for packets and growing files. `packet TEXT` decodes a packet. `picture` prints the shown
//! picture, cropped and as I420; `pixels FROM..TO` a part of it. `feed TEXT` feeds a piece of a file, `single TEXT`
//! does so byte by byte, and `finish` marks its end. `head`, `count` and `refusal` print what is known of the file.
//! `key NUMBER` prints the last key packet up to that one; `at NUMBER` that packet's picture, and the number of packets
//! decoded for it. `limits PIXELS BYTES PACKETS CACHE` starts again with a new decoder and a new stream.

use crate::text::{Names, limits, malformed, number, part};
use crate::transcript::{Found, Script};
use std::alloc::Global;
use std::io;
use vp_base::Limits;
use vp_decode::{Decoder, Outcome};
use vp_ivf::FeedError;
use vp_stream::{Answer, Stream};

/// A decoder and a stream.
#[derive(Drop)]
pub struct Packets {
    alloc: Global,
    decoder: Decoder,
    stream: Stream,
}

impl Packets {
    pub fn new(alloc: Global) -> Packets {
        Packets {
            alloc,
            decoder: Decoder::new(alloc, Limits::usual()),
            stream: Stream::new(alloc, Limits::usual()),
        }
    }

    /// Starts again under these limits.
    fn begin_within(&mut self, limits: Limits) {
        self.decoder = Decoder::new(self.alloc, limits);
        self.stream = Stream::new(self.alloc, limits);
    }

    /// Decodes a packet, and prints its outcome.
    fn packet(&mut self, bytes: &[u8], found: &mut Found) -> io::Result<()> {
        match self.decoder.decode(bytes)? {
            Outcome::Shown => found.word("Shown")?,
            Outcome::Hidden => found.word("Hidden")?,
            Outcome::Fault(fault) => found.line(format!(in self.alloc; "{fault}")?)?,
        }
        Ok(())
    }

    /// Prints the pixels of the shown picture.
    fn picture(&self, found: &mut Found) -> io::Result<()> {
        match self.decoder.picture() {
            Some(picture) => found.bytes("pixels", &picture.crop_i420(self.alloc)?)?,
            None => found.word("no picture")?,
        }
        Ok(())
    }

    /// Prints a part of these pixels, given `FROM..TO`.
    fn pixels(&self, range: &str, found: &mut Found) -> io::Result<()> {
        let picture = self.decoder.picture().ok_or(malformed())?;
        let pixels = picture.crop_i420(self.alloc)?;
        Ok(found.bytes("pixels", part(&pixels, range)?)?)
    }

    /// Feeds a piece, and prints why it is refused.
    fn feed(&mut self, bytes: &[u8], found: &mut Found) -> io::Result<()> {
        match self.stream.feed(bytes) {
            Ok(()) => Ok(()),
            Err(FeedError::Fault(fault)) => {
                Ok(found.line(format!(in self.alloc; "refused {fault}")?)?)
            }
            Err(FeedError::Memory) => Err(malformed()),
        }
    }

    /// Feeds single bytes, and prints the numbers of bytes at which a packet is completed.
    fn feed_singly(&mut self, bytes: &[u8], found: &mut Found) -> io::Result<()> {
        let mut count = self.stream.count();
        for (i, byte) in bytes.iter().enumerate() {
            self.feed(&[*byte], found)?;
            if self.stream.count() != count {
                count = self.stream.count();
                found.line(format!(in self.alloc; "packets {count} behind {} bytes", i + 1)?)?;
            }
        }
        Ok(())
    }

    /// Marks the end of the file, and prints the result.
    fn finish(&mut self, found: &mut Found) -> io::Result<()> {
        match self.stream.finish() {
            Ok(()) => Ok(found.word("ended")?),
            Err(fault) => Ok(found.line(format!(in self.alloc; "{fault}")?)?),
        }
    }

    /// Prints what is known of the file.
    fn tell(&self, line: &str, found: &mut Found) -> io::Result<()> {
        match line {
            "picture" => return self.picture(found),
            "count" => found.line(format!(in self.alloc; "packets {}", self.stream.count())?)?,
            "head" => match self.stream.head() {
                Some(head) => found.line(format!(in self.alloc;
                    "size {}x{} rate {}/{}",
                    head.w, head.h, head.rate, head.scale
                )?)?,
                None => found.word("no head")?,
            },
            "refusal" => match self.stream.refusal() {
                Some(fault) => found.line(format!(in self.alloc; "{fault}")?)?,
                None => found.word("none")?,
            },
            _ => return Err(malformed()),
        }
        Ok(())
    }

    /// Prints the number of the last key packet up to packet `n`.
    fn key(&self, n: u32, found: &mut Found) -> io::Result<()> {
        match self.stream.key_before(n) {
            Some(key) => Ok(found.line(format!(in self.alloc; "packet {key}")?)?),
            None => Ok(found.word("none")?),
        }
    }

    /// Prints the answer for packet `n`.
    fn at(&self, n: u32, found: &mut Found) -> io::Result<()> {
        let mut work = 0;
        match self.stream.picture_counted(n, &mut work)? {
            Answer::Shown(dim, bytes) => {
                found.line(format!(in self.alloc; "size {}x{}", dim.w, dim.h)?)?;
                found.bytes("pixels", bytes.as_slice())?;
            }
            Answer::Hidden => found.word("Hidden")?,
            Answer::Fault(fault) => found.line(format!(in self.alloc; "{fault}")?)?,
            Answer::NoPacket => found.word("no packet")?,
        }
        Ok(found.count_if_any("work", work)?)
    }
}

impl Script for Packets {
    fn begin(&mut self) {
        self.begin_within(Limits::usual());
    }

    fn command(
        &mut self,
        _rt: &HostRuntime,
        line: &str,
        names: &mut Names,
        found: &mut Found,
    ) -> io::Result<()> {
        match line.split_once(' ') {
            None if line == "finish" => self.finish(found),
            None => self.tell(line, found),
            Some(("packet", text)) => self.packet(&names.read(text)?, found),
            Some(("pixels", range)) => self.pixels(range, found),
            Some(("feed", text)) => self.feed(&names.read(text)?, found),
            Some(("single", text)) => self.feed_singly(&names.read(text)?, found),
            Some(("key", digits)) => self.key(number(digits)?, found),
            Some(("at", digits)) => self.at(number(digits)?, found),
            Some(("limits", numbers)) => {
                self.begin_within(limits(numbers)?);
                Ok(())
            }
            _ => Err(malformed()),
        }
    }
}
