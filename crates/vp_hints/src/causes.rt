//! The reasons of the system for a call that failed.

use std::io::Write;
use std::{fmt, io};

/// Why the system refused a call, in a person's words; where there are none, the error's own text.
#[derive(Clone, Copy)]
pub struct Cause(pub io::Error);

impl fmt::Display for Cause {
    fn fmt<W: fmt::Write>(&self, f: &mut fmt::Formatter<W>) -> fmt::Result {
        match known_cause(self.0.kind()) {
            Some(words) => f.write_str(words),
            None => {
                let error = self.0;
                write!(f, "{error}")
            }
        }
    }
}

// Returns the words for the errors that people meet.
fn known_cause(kind: io::ErrorKind) -> Option<&'static str> {
    match kind {
        io::ErrorKind::NotFound => Some("no such file or directory"),
        io::ErrorKind::PermissionDenied => Some("permission denied"),
        io::ErrorKind::IsADirectory => Some("is a directory"),
        io::ErrorKind::NotADirectory => Some("a part of its path is not a directory"),
        io::ErrorKind::StorageFull => Some("no space left on device"),
        io::ErrorKind::QuotaExceeded => Some("disk quota exceeded"),
        io::ErrorKind::FileTooLarge => Some("the file would be too large"),
        io::ErrorKind::ReadOnlyFilesystem => Some("read-only file system"),
        io::ErrorKind::FilesystemLoop => Some("a loop of symbolic links"),
        io::ErrorKind::InvalidFilename => Some("the name is too long"),
        io::ErrorKind::ExecutableFileBusy => Some("the program is running"),
        io::ErrorKind::AddrInUse => Some("address in use"),
        io::ErrorKind::AddrNotAvailable => Some("not an address of this machine"),
        io::ErrorKind::WriteZero => Some("no more bytes are taken"),
        io::ErrorKind::OutOfMemory => Some("out of memory"),
        _ => None,
    }
}

/// Prints why a standard stream failed, if it did. A reader that closes its pipe is no mistake.
pub fn hint_stream<W: Write>(
    name: &str,
    error: Option<io::Error>,
    output: &mut W,
) -> io::Result<()> {
    match error {
        Some(error) if error.kind() != io::ErrorKind::BrokenPipe => {
            let cause = Cause(error);
            writeln!(output, "  {name}: {cause}")
        }
        _ => Ok(()),
    }
}
