//! The pictures that a hub keeps, with a count of decoded packets.

ghost use Rattle.std.specs.Prelude.{◌≡◌};

use vp_cache::{Cache, Cursors};

/// The pictures that a hub keeps: cached ones, and cursors that decode the next ones.
#[derive(Drop)]
pub struct Pictures {
    /// The cache.
    pub cache: Cache,
    /// The cursors of the streams.
    pub cursors: Cursors,
}

/// The pictures, and the number of packets decoded for the last event.
#[derive(Drop)]
pub struct PictureCache {
    /// The pictures.
    pub kept: Pictures,
    /// The number of decoded packets; it saturates at 2^64 - 1.
    pub work: u64,
}

impl PictureCache {
    /// Resets the count at the start of an event.
    pub(crate) fn begin(&mut self)
        ensures { self.new ≡ record self.old { work = 0 } }
    {
        self.work = 0;
    }
}
