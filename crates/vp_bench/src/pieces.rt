//! A reader that gives its bytes in pieces, as a network does.

use std::io;
use std::io::Read;

/// A reader that gives at most `size` bytes at each read.
#[derive(Drop)]
pub(crate) struct Pieces<'a> {
    /// The bytes that are not read yet.
    pub(crate) left: &'a [u8],
    /// The greatest length of a piece in bytes.
    pub(crate) size: usize,
}

impl Read for Pieces<'_> {
    fn read(&mut self, buf: &mut [u8]) -> io::Result<usize> {
        let end = buf.len().min(self.size);
        self.left.read(&mut buf[..end])
    }
}
