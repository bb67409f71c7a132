//! Streams of other encoders: the MD5 of the pictures of each, cropped and as I420, one after another. The expected
//! digests come from other decoders.

use md5::{Digest, Md5};
use std::alloc::Global;
use std::io::Read;
use std::{fs, io};
use vp_base::Limits;
use vp_decode::{Decoder, Outcome};
use vp_ivf::Reader;

/// The MD5 of the pictures so far.
#[derive(Drop)]
struct Work {
    alloc: Global,
    decoder: Decoder,
    digest: Md5,
}

impl Work {
    /// Decodes a packet; false if memory runs out.
    fn packet(&mut self, bytes: &[u8]) -> bool {
        let Ok(Outcome::Shown) = self.decoder.decode(bytes) else {
            return true;
        };
        let Some(picture) = self.decoder.picture() else {
            return true;
        };
        let Ok(pixels) = picture.crop_i420(self.alloc) else {
            return false;
        };
        self.digest.update(&pixels);
        true
    }

    /// Decodes the packets that are ready.
    fn packets(&mut self, file: &mut Reader) -> bool {
        for _ in 0..u16::MAX {
            let Some(packet) = file.next_packet() else {
                return true;
            };
            if !self.packet(packet.bytes.as_slice()) {
                return false;
            }
        }
        false
    }
}

/// Decodes a whole file.
fn decode<R: Read>(input: &mut R, file: &mut Reader, work: &mut Work) -> io::Result<()> {
    let mut buffer = [0; 4096];
    for _ in 0..u32::MAX {
        let count = input.read(&mut buffer)?;
        if count == 0 {
            break;
        }
        if file.feed(&buffer[..count]).is_err() || !work.packets(file) {
            return Err(io::Error::from(io::ErrorKind::Other));
        }
    }
    Ok(())
}

/// Returns the digest of a whole file.
fn digest<R: Read>(alloc: Global, input: &mut R) -> io::Result<[u8; 16]> {
    let mut file = Reader::new(alloc, Limits::usual());
    let mut work = Work {
        alloc,
        decoder: Decoder::new(alloc, Limits::usual()),
        digest: Md5::new(),
    };
    decode(input, &mut file, &mut work)?;
    Ok(work.digest.finalize())
}

/// Prints the stream's name and the digest of its pictures.
pub fn tell(rt: &HostRuntime, file: &str, name: &str) -> io::Result<()> {
    let mut input = fs::open(rt, file)?;
    let sum = digest(rt.alloc(), &mut input)?;
    print!(rt; "{name} ")?;
    for byte in &sum {
        print!(rt; "{byte:02x}")?;
    }
    println!(rt; "")
}
