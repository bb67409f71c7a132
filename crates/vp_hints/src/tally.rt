//! Writers that remember what was written.

ghost use Rattle.std.specs.Prelude.{◌≡◌, IfOk, OnErr, take};
ghost use Rattle.std.specs.Io.{WritesAtMost};
ghost use Rattle.std.specs.Io.KnownBytes.{Keeps, WriteAppends};
ghost use Rattle.vp_hints.specs.Seen.{more_seen, nothing_seen, seen_view};
ghost use Rattle.vp_hints.specs.Tally.{tally_contents, tally_sight};

use crate::seen::Seen;
use std::io;
use std::io::Write;

/// A writer that forwards each call to an inner one, and remembers what was seen of the bytes that it took.
#[derive(Drop)]
pub struct Tally<W> {
    inner: W,
    seen: Seen,
}

impl<W: Drop> Tally<W> {
    /// Wraps a writer.
    pub fn new(inner: W) -> Tally<W>
        ensures { tally_sight result ≡ nothing_seen }
    {
        Tally {
            inner,
            seen: Seen::new(),
        }
    }

    /// What was seen of the bytes.
    pub fn into_seen(self) -> Seen
        ensures { seen_view result ≡ tally_sight self }
    {
        let Tally { inner: _, seen } = self;
        seen
    }
}

impl<W: Write> Write for Tally<W> {
    ghost contents = { tally_contents W.contents };

    fn write(&mut self, buf: &[u8]) -> io::Result<usize>
        ensures bound { WritesAtMost result buf.now }
        ensures bytes { WriteAppends (tally_contents W.contents self.old)
            (tally_contents W.contents self.new) result buf.now }
        ensures seen { IfOk result (λ n. tally_sight self.new ≡ more_seen (tally_sight self.old) (take n buf.now)) }
        ensures unseen { OnErr result (tally_sight self.new ≡ tally_sight self.old) }
    {
        let result = self.inner.write(buf);
        if let Ok(count) = &result {
            self.seen.pass(&buf[..*count]);
        }
        result
    }

    fn flush(&mut self) -> io::Result<()>
        ensures bytes { Keeps (tally_contents W.contents self.old) (tally_contents W.contents self.new) }
        ensures sight { tally_sight self.new ≡ tally_sight self.old }
    {
        self.inner.flush()
    }
}
