//! Transcripts: files of commands, each followed by the lines of its result, indented by two spaces. `let NAME TEXT`
//! gives bytes a name, `write PATH TEXT` writes a file, `case NAME` begins a case, and `#` begins a comment.

use crate::text::{Names, malformed, text_of};
use md5::{Digest, Md5};
use std::alloc::{AllocError, Global};
use std::collections::VecDeque;
use std::{fs, io};

/// Returns the MD5 of bytes.
fn md5_of(bytes: &[u8]) -> [u8; 16] {
    let mut digest = Md5::new();
    digest.update(bytes);
    digest.finalize()
}

/// The lines of the results that haven't been compared yet.
#[derive(Drop)]
pub struct Found {
    alloc: Global,
    lines: VecDeque<String>,
}

impl Found {
    /// Adds a line.
    pub fn line(&mut self, line: String) -> Result<(), AllocError> {
        self.lines.push_back(line)?;
        Ok(())
    }

    /// Adds a line of one word.
    pub fn word(&mut self, word: &str) -> Result<(), AllocError> {
        self.line(String::from_str(self.alloc, word)?)
    }

    /// Adds a line of bytes, after a word that says what they are.
    pub fn bytes(&mut self, word: &str, bytes: &[u8]) -> Result<(), AllocError> {
        let text = text_of(self.alloc, bytes)?;
        self.line(format!(in self.alloc; "{word} {}", text.as_str())?)
    }

    /// Adds such a line, unless there are no bytes.
    pub fn bytes_if_any(&mut self, word: &str, bytes: &[u8]) -> Result<(), AllocError> {
        if bytes.is_empty() {
            return Ok(());
        }
        self.bytes(word, bytes)
    }

    /// Adds a line with the MD5 of bytes.
    pub fn sum(&mut self, bytes: &[u8]) -> Result<(), AllocError> {
        let mut text = String::from_str(self.alloc, "sum ")?;
        for byte in &md5_of(bytes) {
            write!(text, "{byte:02x}")?;
        }
        self.line(text)
    }

    /// Adds a line with a number, after a word that says what it counts, unless the number is 0.
    pub fn count_if_any(&mut self, word: &str, count: u64) -> Result<(), AllocError> {
        if count == 0 {
            return Ok(());
        }
        self.line(format!(in self.alloc; "{word} {count}")?)
    }
}

/// The commands of a kind of transcript, and their state.
pub trait Script {
    /// Begins a case: only the names of the one before are kept.
    fn begin(&mut self);

    /// Runs a command, and adds its result.
    fn command(
        &mut self,
        rt: &HostRuntime,
        line: &str,
        names: &mut Names,
        found: &mut Found,
    ) -> io::Result<()>;
}

/// A transcript that is being run.
#[derive(Drop)]
struct Transcript<'a> {
    file: &'a str,
    names: Names,
    found: Found,
}

/// Runs the commands of a transcript. Prints its name, that of each case, and each line whose result is unexpected. A
/// command that can't be carried out ends the run, and its line number is printed.
pub fn tell<S: Script>(rt: &HostRuntime, file: &str, text: &str, script: &mut S) -> io::Result<()> {
    let mut transcript = Transcript {
        file,
        names: Names::new(rt.alloc()),
        found: Found {
            alloc: rt.alloc(),
            lines: VecDeque::new(rt.alloc()),
        },
    };
    println!(rt; "{file}")?;
    for (i, line) in text.lines().enumerate() {
        transcript.line(rt, i.saturating_add(1), line, script)?;
    }
    transcript.tell_unmet(rt, 0)
}

impl Transcript<'_> {
    /// Handles a line, and prints its number if that fails.
    fn line<S: Script>(
        &mut self,
        rt: &HostRuntime,
        number: usize,
        line: &str,
        script: &mut S,
    ) -> io::Result<()> {
        let file = self.file;
        let done = self.carry_out(rt, number, line, script);
        if let Err(error) = &done {
            println!(rt; "{file}:{number}: {error}")?;
        }
        done
    }

    /// Runs a command, or compares an expected line.
    fn carry_out<S: Script>(
        &mut self,
        rt: &HostRuntime,
        number: usize,
        line: &str,
        script: &mut S,
    ) -> io::Result<()> {
        if let Some(wanted) = line.strip_prefix("  ") {
            return self.meet(rt, number, wanted);
        }
        self.tell_unmet(rt, number)?;
        match line.split_once(' ') {
            _ if line.is_empty() || line.starts_with('#') => Ok(()),
            Some(("case", name)) => {
                script.begin();
                println!(rt; "  {name}")
            }
            Some(("let", rest)) => self.names.name(rest),
            Some(("write", rest)) => self.write(rt, rest),
            _ => script.command(rt, line, &mut self.names, &mut self.found),
        }
    }

    /// Writes a file.
    fn write(&self, rt: &HostRuntime, line: &str) -> io::Result<()> {
        let (path, text) = line.split_once(' ').ok_or(malformed())?;
        fs::write(rt, path, self.names.read(text)?)
    }

    /// Prints the line if the result differs from the expected one.
    fn meet(&mut self, rt: &HostRuntime, number: usize, wanted: &str) -> io::Result<()> {
        let file = self.file;
        let wanted = text_of(rt.alloc(), &self.names.read(wanted)?)?;
        match self.found.lines.pop_front() {
            Some(line) if line.as_str() == wanted.as_str() => Ok(()),
            Some(line) => println!(rt; "{file}:{number}: {}", line.as_str()),
            None => println!(rt; "{file}:{number}: nothing"),
        }
    }

    /// Prints results without an expected line.
    fn tell_unmet(&mut self, rt: &HostRuntime, number: usize) -> io::Result<()> {
        let file = self.file;
        for _ in 0..self.found.lines.len() {
            if let Some(line) = self.found.lines.pop_front() {
                println!(rt; "{file}:{number}: {}", line.as_str())?;
            }
        }
        Ok(())
    }
}
