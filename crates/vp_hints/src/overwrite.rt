//! Files that are overwritten, and emptied no sooner than that.

ghost use Rattle.std.specs.Prelude.{◌≡◌, ◌<◌, false, true, IfOk, IsOk, OnErr, OnOk};
ghost use Rattle.std.specs.Io.{WritesAtMost};
ghost use Rattle.std.specs.Io.KnownBytes.{Keeps, WriteAppends};
ghost use Rattle.vp_hints.specs.Overwrite.{is_begun, overwrite_contents, overwritten};

use std::fs::{OpenFile, OpenOptions};
use std::io;
use std::io::Write;
use std::rt::Files;

/// A file that is overwritten: what it held before stays until the first write, also one that fails, or until `finish`.
#[derive(Drop)]
pub struct Overwrite<F> {
    file: F,
    begun: bool,
}

/// Opens a file to be overwritten, and creates it if it isn't there. What it holds stays.
pub fn open_to_overwrite<H: Files>(system: &H, name: &str) -> io::Result<H::File> {
    OpenOptions::new()
        .write(true)
        .create(true)
        .open(system, name)
}

/// Creates a file to be overwritten; fails if there is one of this name.
pub fn create_to_overwrite<H: Files>(system: &H, name: &str) -> io::Result<H::File> {
    OpenOptions::new()
        .write(true)
        .create_new(true)
        .open(system, name)
}

impl<F: OpenFile> Overwrite<F> {
    /// Wraps a file that was opened for writing and not emptied. A pipe or a device holds nothing that could be lost.
    pub fn new(file: F) -> Overwrite<F>
        ensures { overwritten result ≡ file }
    {
        let begun = match file.metadata() {
            Ok(metadata) => !metadata.is_file(),
            Err(_) => false,
        };
        Overwrite { file, begun }
    }

    /// Whether what the file held before is gone.
    pub fn is_begun(&self) -> bool
        ensures { result ≡ is_begun self.now }
    {
        self.begun
    }

    /// Removes what the file held before, if no byte was written yet. If that fails, nothing has changed.
    pub fn finish(&mut self) -> io::Result<()>
        ensures file { overwritten self.new ≡ overwritten self.old }
        ensures ok { OnOk result (is_begun self.new ≡ true) }
        ensures err { OnErr result (self.new ≡ self.old) }
        ensures begun { is_begun self.old ≡ true → IsOk result }
    {
        if self.begun {
            return Ok(());
        }
        self.file.set_len(0)?;
        self.begun = true;
        Ok(())
    }
}

impl<F: OpenFile + Write> Write for Overwrite<F> {
    ghost contents = { overwrite_contents F.contents };

    fn write(&mut self, buf: &[u8]) -> io::Result<usize>
        ensures bound { WritesAtMost result buf.now }
        ensures bytes { WriteAppends (overwrite_contents F.contents self.old)
            (overwrite_contents F.contents self.new) result buf.now }
        ensures begins { IfOk result (λ n. 0 < n → is_begun self.new ≡ true) }
        ensures untouched { is_begun self.new ≡ false → overwritten self.new ≡ overwritten self.old }
    {
        if buf.is_empty() {
            return Ok(0);
        }
        self.finish()?;
        self.file.write(buf)
    }

    fn flush(&mut self) -> io::Result<()>
        ensures begun { is_begun self.new ≡ is_begun self.old }
        ensures bytes { Keeps (overwrite_contents F.contents self.old) (overwrite_contents F.contents self.new) }
    {
        self.file.flush()
    }
}
