//! A program's streams, when a reader closes the pipe that it writes to.

ghost use Rattle.std.specs.Prelude.{◌≡◌};
ghost use Rattle.std.specs.Io.{WritesAtMost};
ghost use Rattle.std.specs.Io.KnownBytes.{Keeps, WriteAppends};
ghost use Rattle.vp_hints.specs.Pipes.{muted_inner, outlet_contents, outlet_inner};

use std::cell::Cell;
use std::io;
use std::io::Write;

/// A writer that forwards each call to an inner one, and notes in a cell that the inner one is a pipe without a reader.
#[derive(Drop)]
pub struct Outlet<'a, W> {
    inner: W,
    is_closed: &'a Cell<bool>,
}

impl<'a, W> Outlet<'a, W> {
    /// Wraps a writer.
    pub fn new(inner: W, is_closed: &'a Cell<bool>) -> Outlet<'a, W>
        ensures { outlet_inner result ≡ inner }
    {
        Outlet { inner, is_closed }
    }
}

impl<W: Write> Write for Outlet<'_, W> {
    ghost contents = { outlet_contents W.contents };

    fn write(&mut self, buf: &[u8]) -> io::Result<usize>
        ensures bound { WritesAtMost result buf.now }
        ensures bytes { WriteAppends (outlet_contents W.contents self.old)
            (outlet_contents W.contents self.new) result buf.now }
    {
        let result = self.inner.write(buf);
        if let Err(error) = &result {
            if error.kind() == io::ErrorKind::BrokenPipe {
                self.is_closed.set(true);
            }
        }
        result
    }

    fn flush(&mut self) -> io::Result<()>
        ensures bytes { Keeps (outlet_contents W.contents self.old) (outlet_contents W.contents self.new) }
    {
        self.inner.flush()
    }
}

/// A writer that forwards each call to an inner one, until a cell says that the program's output has no reader. From
/// then on nothing is written, as there is no mistake to tell.
#[derive(Drop)]
pub struct Muted<'a, W> {
    inner: W,
    is_closed: &'a Cell<bool>,
}

impl<'a, W> Muted<'a, W> {
    /// Wraps a writer.
    pub fn new(inner: W, is_closed: &'a Cell<bool>) -> Muted<'a, W>
        ensures { muted_inner result ≡ inner }
    {
        Muted { inner, is_closed }
    }
}

impl<W: Write> Write for Muted<'_, W> {
    fn write(&mut self, buf: &[u8]) -> io::Result<usize> {
        if self.is_closed.get() {
            return Ok(buf.len());
        }
        self.inner.write(buf)
    }

    fn flush(&mut self) -> io::Result<()> {
        self.inner.flush()
    }
}
