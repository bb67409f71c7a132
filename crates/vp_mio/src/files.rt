//! Files that are read on as they grow.

ghost use Rattle.std.specs.Prelude.{◌≤◌, length};

use std::io::{ErrorKind, Read, Write};
use vp_hub::HubFault;

/// The file of a stream.
#[derive(Drop)]
pub struct FollowedFile<'a, F: Read + Drop> {
    name: &'a str,
    path: &'a str,
    // The file, unless it is read no more.
    file: Option<F>,
}

impl<'a, F: Read + Drop> FollowedFile<'a, F> {
    /// A file that was just opened. Messages name it by the name of its stream and its path.
    pub fn new(name: &'a str, path: &'a str, file: F) -> FollowedFile<'a, F> {
        FollowedFile {
            name,
            path,
            file: Some(file),
        }
    }

    /// Whether the file is read no more.
    pub(crate) fn is_stopped(&self) -> bool {
        self.file.is_none()
    }

    /// Reads the bytes that follow; 0 at its end for now. After a failed read it is read no more, which is printed.
    pub(crate) fn read<E: Write>(&mut self, buffer: &mut [u8], errors: &mut E) -> usize
        ensures { result ≤ length buffer.new }
    {
        let Some(file) = &mut self.file else {
            return 0;
        };
        match file.read(buffer) {
            Ok(count) => count,
            Err(error) if error.kind() == ErrorKind::Interrupted => 0,
            Err(error) => {
                let (name, path) = (self.name, self.path);
                let _ = writeln!(
                    errors,
                    "vp8: {name}={path}: the file is read no more: {error}"
                );
                self.file = None;
                0
            }
        }
    }

    /// Reads the file no more, since its stream refused its bytes, which is printed.
    pub(crate) fn stop<E: Write>(&mut self, fault: HubFault, errors: &mut E) {
        let (name, path) = (self.name, self.path);
        let _ = writeln!(
            errors,
            "vp8: {name}={path}: {fault}: the file is read no more; GET /s/{name}/info says why"
        );
        self.file = None;
    }
}
