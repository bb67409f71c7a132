//! Tests of vp_lines: faults that are printed to a device that fails.

use crate::check::equal;
use std::alloc::Global;
use std::io;
use std::io::{Error, ErrorKind, Write};
use std::process::Abort;
use vp_base::Counted;
use vp_head::PacketFault;
use vp_lines::print_faults;

/// A device whose first call fails, and that keeps what it takes.
#[derive(Drop)]
struct FailOnce {
    has_failed: bool,
    got: Vec<u8>,
}

impl Write for FailOnce {
    fn write(&mut self, buf: &[u8]) -> io::Result<usize> {
        if !self.has_failed {
            self.has_failed = true;
            return Err(Error::from(ErrorKind::Other));
        }
        match self.got.extend_from_slice(buf) {
            Ok(()) => Ok(buf.len()),
            Err(_) => Err(Error::from(ErrorKind::OutOfMemory)),
        }
    }

    fn flush(&mut self) -> io::Result<()> {
        Ok(())
    }
}

// Fails the test unless only the first of these lines is lost.
fn check_lines(rt: &impl Abort, alloc: Global, faults: &[(u32, PacketFault)], wanted: &[u8]) {
    let mut errors = Counted::new(FailOnce {
        has_failed: false,
        got: Vec::new(alloc),
    });
    let is_whole = print_faults(alloc, faults, &mut errors);
    equal!(rt; (is_whole, errors.into_inner().got.as_slice()), (false, wanted));
}

/// After a failed write the next line is written.
#[test]
fn the_line_after_a_failed_write(rt: HostRuntime) {
    let faults = [
        (3, PacketFault::Truncated),
        (4, PacketFault::NoReference),
        (7, PacketFault::Truncated),
    ];
    let wanted = b"vp8: packet 4: NoReference\nvp8: packet 7: Truncated\n";
    check_lines(&rt, rt.alloc(), &faults, wanted);
}
