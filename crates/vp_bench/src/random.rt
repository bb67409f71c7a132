//! Pseudorandom numbers: the generator splitmix64 (Steele, Lea and Flood, 2014).

ghost use Rattle.std.specs.Prelude.{◌<◌};

use std::alloc::AllocError;

/// A generator of pseudorandom numbers, which a seed determines.
#[derive(Clone, Copy)]
pub(crate) struct Random {
    state: u64,
}

impl Random {
    /// Creates the generator of a seed.
    pub(crate) fn new(seed: u64) -> Random {
        Random { state: seed }
    }

    /// Returns the next number.
    pub(crate) fn next(&mut self) -> u64 {
        self.state = self.state.wrapping_add(0x9e37_79b9_7f4a_7c15);
        let first = self.state;
        let second = (first ^ (first >> 30)).wrapping_mul(0xbf58_476d_1ce4_e5b9);
        let third = (second ^ (second >> 27)).wrapping_mul(0x94d0_49bb_1331_11eb);
        third ^ (third >> 31)
    }

    /// Returns a number below `end`.
    pub(crate) fn below(&mut self, end: u32) -> u32
        requires { 0 < end }
        ensures { result < end }
    {
        (self.next() % u64::from(end)) as u32
    }

    /// Appends `count` bytes, rounded up to a multiple of eight.
    pub(crate) fn append(&mut self, bytes: &mut Vec<u8>, count: usize) -> Result<(), AllocError> {
        for _ in 0..count.div_ceil(8) {
            bytes.extend_from_slice(&self.next().to_le_bytes())?;
        }
        Ok(())
    }
}
