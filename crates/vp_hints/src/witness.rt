//! Readers and writers that remember what passed through them, and why a call failed.

ghost use Rattle.std.specs.Prelude.{◌≡◌, Some, None, IfErr, IfOk, OnErr, OnOk, take, true};
ghost use Rattle.std.specs.Io.{ReadsAtMost, WritesAtMost};
ghost use Rattle.std.specs.Io.KnownBytes.{Keeps, ReadConsumes, WriteAppends};
ghost use Rattle.vp_hints.specs.Overwrite.{is_begun};
ghost use Rattle.vp_hints.specs.Seen.{more_seen, nothing_seen, seen_view};
ghost use Rattle.vp_hints.specs.Witness.{witness_contents, witness_error, witness_inner};
ghost use Rattle.vp_hints.specs.Witness.{witness_remaining, witness_sight};

use crate::overwrite::Overwrite;
use crate::seen::Seen;
use std::fs::OpenFile;
use std::io;
use std::io::{Read, Write};

/// A reader or writer that forwards each call to an inner one. It remembers what was seen of the bytes that were read,
/// and the error of the last call that failed.
#[derive(Drop)]
pub struct Witness<T> {
    inner: T,
    seen: Seen,
    error: Option<io::Error>,
}

impl<T> Witness<T> {
    /// Wraps a reader or writer.
    pub fn new(inner: T) -> Witness<T>
        ensures inner { witness_inner result ≡ inner }
        ensures sight { witness_sight result ≡ nothing_seen }
        ensures error { witness_error result ≡ None }
    {
        Witness {
            inner,
            seen: Seen::new(),
            error: None,
        }
    }

    /// The error of the last call that failed.
    pub fn error(&self) -> Option<io::Error>
        ensures { result ≡ witness_error self.now }
    {
        self.error
    }

    /// What was seen of the bytes that were read.
    pub fn seen(&self) -> &Seen
        ensures { seen_view result.now ≡ witness_sight self.now }
    {
        &self.seen
    }

    /// Unwraps the reader or writer, with what was seen of its bytes.
    pub fn into_parts(self) -> (T, Seen)
        ensures inner { result.0 ≡ witness_inner self }
        ensures sight { seen_view result.1 ≡ witness_sight self }
    {
        let Witness {
            inner,
            seen,
            error: _,
        } = self;
        (inner, seen)
    }
}

impl<F: OpenFile> Witness<Overwrite<F>> {
    /// Finishes a file that is overwritten, and remembers why that failed.
    pub fn finish(&mut self) -> io::Result<()>
        ensures begun { OnOk result (is_begun (witness_inner self.new) ≡ true) }
        ensures failed { IfErr result (λ error. witness_error self.new ≡ Some error) }
        ensures well { OnOk result (witness_error self.new ≡ witness_error self.old) }
    {
        let result = self.inner.finish();
        if let Err(error) = &result {
            self.error = Some(*error);
        }
        result
    }
}

impl<R: Read> Read for Witness<R> {
    ghost remaining = { witness_remaining R.remaining };

    fn read(&mut self, buf: &mut [u8]) -> io::Result<usize>
        ensures bound { ReadsAtMost result buf.new }
        ensures bytes { ReadConsumes (witness_remaining R.remaining self.old)
            (witness_remaining R.remaining self.new) result buf.new }
        ensures seen { IfOk result (λ n. witness_sight self.new ≡ more_seen (witness_sight self.old) (take n buf.new)) }
        ensures unseen { OnErr result (witness_sight self.new ≡ witness_sight self.old) }
        ensures failed { IfErr result (λ error. witness_error self.new ≡ Some error) }
        ensures well { OnOk result (witness_error self.new ≡ witness_error self.old) }
    {
        let result = self.inner.read(buf);
        match &result {
            Ok(count) => self.seen.pass(&buf[..*count]),
            Err(error) => self.error = Some(*error),
        }
        result
    }
}

impl<W: Write> Write for Witness<W> {
    ghost contents = { witness_contents W.contents };

    fn write(&mut self, buf: &[u8]) -> io::Result<usize>
        ensures bound { WritesAtMost result buf.now }
        ensures bytes { WriteAppends (witness_contents W.contents self.old)
            (witness_contents W.contents self.new) result buf.now }
        ensures failed { IfErr result (λ error. witness_error self.new ≡ Some error) }
        ensures well { OnOk result (witness_error self.new ≡ witness_error self.old) }
        ensures sight { witness_sight self.new ≡ witness_sight self.old }
    {
        let result = self.inner.write(buf);
        if let Err(error) = &result {
            self.error = Some(*error);
        }
        result
    }

    fn flush(&mut self) -> io::Result<()>
        ensures bytes { Keeps (witness_contents W.contents self.old) (witness_contents W.contents self.new) }
        ensures failed { IfErr result (λ error. witness_error self.new ≡ Some error) }
        ensures well { OnOk result (witness_error self.new ≡ witness_error self.old) }
        ensures sight { witness_sight self.new ≡ witness_sight self.old }
    {
        let result = self.inner.flush();
        if let Err(error) = &result {
            self.error = Some(*error);
        }
        result
    }
}
