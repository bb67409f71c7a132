//! A writer that keeps only a digest of its bytes.

ghost use Rattle.std.specs.Prelude.{◌≡◌, ◌<◌, length};

use byteorder::{ByteOrder, LittleEndian};
use std::io;
use std::io::Write;

/// The number of bytes that are digested at once.
const BLOCK: usize = 32;

/// A digest of the bytes written so far. It depends on the bytes and their order, and not on how calls divide them.
#[derive(Drop)]
pub(crate) struct Digest {
    lanes: [u64; 4],
    pending: [u8; 32],
    filled: usize,
    length: u64,
    ghost filled_in_block: { filled < 32 },
}

/// Mixes a block into the lanes.
fn mix(lanes: &mut [u64; 4], block: &[u8])
    requires { length block.now ≡ 32 }
{
    for lane in 0..4 {
        let word = LittleEndian::read_u64(&block[8 * lane..8 * lane + 8]);
        lanes[lane] = (lanes[lane] ^ word).wrapping_mul(0x9e37_79b9_7f4a_7c15) ^ (word >> 32);
    }
}

impl Digest {
    /// Creates the digest of no bytes.
    pub(crate) fn new() -> Digest {
        Digest {
            lanes: [1, 2, 3, 4],
            pending: [0; 32],
            filled: 0,
            length: 0,
        }
    }

    /// Adds bytes to the block that is being filled, and returns the others.
    fn fill<'a>(&mut self, bytes: &'a [u8]) -> &'a [u8] {
        let taken = (BLOCK - self.filled).min(bytes.len());
        let end = self.filled + taken;
        self.pending[self.filled..end].copy_from_slice(&bytes[..taken]);
        if end == BLOCK {
            let block = self.pending;
            mix(&mut self.lanes, &block);
            self.filled = 0;
        } else {
            self.filled = end;
        }
        &bytes[taken..]
    }

    /// Adds bytes.
    pub(crate) fn add(&mut self, bytes: &[u8]) {
        self.length = self.length.wrapping_add(bytes.len() as u64);
        let rest = if self.filled > 0 {
            self.fill(bytes)
        } else {
            bytes
        };
        let whole = rest.len() / BLOCK * BLOCK;
        let mut lanes = self.lanes;
        for block in rest[..whole].chunks_exact(BLOCK) {
            mix(&mut lanes, block);
        }
        self.lanes = lanes;
        if whole < rest.len() {
            self.fill(&rest[whole..]);
        }
    }

    /// Adds a number.
    pub(crate) fn number(&mut self, number: u64) {
        self.add(&number.to_le_bytes());
    }

    /// Returns the digest.
    pub(crate) fn value(&self) -> u64 {
        let mut lanes = self.lanes;
        let mut block = [0; 32];
        block[..self.filled].copy_from_slice(&self.pending[..self.filled]);
        mix(&mut lanes, &block);
        let mut sum = self.length.wrapping_add(self.filled as u64);
        for lane in lanes {
            sum = (sum ^ lane).wrapping_mul(0xbf58_476d_1ce4_e5b9);
            sum ^= sum >> 29;
        }
        sum
    }
}

impl Write for Digest {
    fn write(&mut self, buf: &[u8]) -> io::Result<usize> {
        self.add(buf);
        Ok(buf.len())
    }

    fn flush(&mut self) -> io::Result<()> {
        Ok(())
    }
}
