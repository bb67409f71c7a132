//! The system that a command works on, and what it met there: the facts for the hints under its faults.

ghost use Rattle.std.specs.Prelude.{◌≡◌};

use std::alloc::Global;
use std::fs::{Metadata, OpenFile};
use std::io::{Read, Write};
use std::net::{Net, TcpListener, TcpStream};
use std::os::unix::fs::MetadataExt;
use std::rt::Files;
use std::{fmt, fs, io};
use vp_base::Counted;
use vp_hints::{
    Meter, Metered, Overwrite, Place, Seen, Tally, Unit, Witness, create_to_overwrite, head_fault,
    open_to_overwrite,
};
use vp_ivf::FileFault;
use vp_lines::report_fault;

// The greatest number of streams that are served.
const MOST_STREAMS: usize = 16;

/// The system that a command works on, and what it met there.
#[derive(Drop)]
pub struct Outside<'a, H> {
    system: &'a H,
    meter: &'a Meter<'a, H>,
    /// What was seen of the input file.
    pub input: Seen,
    /// Why the input file can't be opened or read, or the address not be listened on.
    pub refused: Option<io::Error>,
    /// Why the output file can't be made or written.
    pub(crate) unwritten: Option<io::Error>,
    /// What was seen of the output file, if it is one that was encoded.
    pub(crate) encoded: Option<Seen>,
    /// Whether the input and the output are one file.
    pub(crate) is_one_file: bool,
    identity: Option<(u64, u64)>,
    // Whether the output file was created for the work.
    is_new: bool,
    fed: usize,
    oddities: [Option<FileFault>; MOST_STREAMS],
}

impl<'a, H> Outside<'a, H> {
    /// Nothing was met yet.
    pub fn new(system: &'a H, meter: &'a Meter<'a, H>) -> Outside<'a, H> {
        Outside {
            system,
            meter,
            input: Seen::new(),
            refused: None,
            unwritten: None,
            encoded: None,
            is_one_file: false,
            identity: None,
            is_new: false,
            fed: 0,
            oddities: [None; MOST_STREAMS],
        }
    }

    /// The system.
    pub fn system(&self) -> &'a H {
        self.system
    }

    /// What tells how far the work is.
    pub(crate) fn meter(&self) -> &'a Meter<'a, H> {
        self.meter
    }

    /// Lets progress be told in this unit, if that is asked for.
    pub(crate) fn tell_progress(&self, asked: bool, unit: Unit) {
        if asked {
            self.meter.count(unit);
        }
    }

    /// Forgets the input file before, and what it met.
    pub(crate) fn forget(&mut self) {
        self.input = Seen::new();
        self.refused = None;
        self.identity = None;
        self.meter.begin(None);
    }

    /// Remembers what was encoded into a file.
    pub(crate) fn has_encoded<W: Drop>(&mut self, file: Tally<W>) {
        self.encoded = Some(file.into_seen());
    }

    /// Remembers what was read, and closes the file.
    pub fn has_read<F: Drop>(&mut self, file: Witness<F>) {
        self.refused = file.error();
        let (_, seen) = file.into_parts();
        self.input = seen;
    }

    /// Whether the output is a pipe that its reader has closed, which is no mistake.
    pub(crate) fn is_cut_off(&self) -> bool {
        match self.unwritten {
            Some(error) => error.kind() == io::ErrorKind::BrokenPipe,
            None => false,
        }
    }

    /// Prints the fault that ended the work, unless the reader of the output is gone. Returns the exit status.
    pub(crate) fn report<F: fmt::Display + Drop, E: Write>(
        &self,
        fault: F,
        errors: &mut Counted<E>,
    ) -> u8
        ensures { result ≡ 1 }
    {
        if self.is_cut_off() {
            return 1;
        }
        report_fault(fault, errors)
    }
}

impl<H> Outside<'_, H> {
    /// Remembers what was odd about the file of the next stream.
    pub fn has_fed(&mut self) {
        if self.fed < MOST_STREAMS {
            self.oddities[self.fed] = oddity_of(&self.input);
            self.fed += 1;
        }
        self.input = Seen::new();
    }

    /// The number of streams whose files were fed.
    pub fn fed_files(&self) -> usize {
        self.fed
    }

    /// What was odd about the file of the stream at a place.
    pub fn oddity(&self, place: usize) -> Option<FileFault> {
        match self.oddities.get(place) {
            Some(oddity) => *oddity,
            None => None,
        }
    }
}

impl<H: Net<Stream = TcpStream, Listener = TcpListener>> Outside<'_, H> {
    /// Listens on an address.
    pub fn listen(&mut self, address: &str) -> io::Result<TcpListener> {
        let bound = TcpListener::bind(self.system, address);
        if let Err(error) = &bound {
            self.refused = Some(*error);
        }
        bound
    }
}

impl<H: AllocGlobal> Outside<'_, H> {
    /// The allocator.
    pub fn alloc(&self) -> Global {
        self.system.alloc()
    }
}

impl<'a, H: Files> Outside<'a, H> {
    /// Opens an input file.
    pub fn open(&mut self, name: &str) -> io::Result<Witness<H::File>> {
        match fs::open(self.system, name) {
            Ok(file) => {
                self.identity = identity_of(file.metadata());
                Ok(Witness::new(file))
            }
            Err(error) => {
                self.refused = Some(error);
                Err(error)
            }
        }
    }

    /// Opens an input file, and lets it tell how far it is read.
    pub(crate) fn open_metered(&mut self, name: &str) -> io::Result<Metered<'a, H::File, H>> {
        match fs::open(self.system, name) {
            Ok(file) => {
                let metadata = file.metadata();
                self.meter.begin(size_of(&metadata));
                self.identity = identity_of(metadata);
                Ok(Metered::new(file, self.meter))
            }
            Err(error) => {
                self.refused = Some(error);
                Err(error)
            }
        }
    }

    /// Makes an output file. What an old file holds stays until the first write, or until the file is finished. The
    /// input file is refused.
    pub(crate) fn make(&mut self, name: &str) -> io::Result<Witness<Overwrite<H::File>>> {
        match self.create_or_open(name) {
            Ok(file) => self.overwrite(file),
            Err(error) => {
                self.unwritten = Some(error);
                Err(error)
            }
        }
    }

    // Creates an output file, or opens an old one.
    fn create_or_open(&mut self, name: &str) -> io::Result<H::File> {
        match create_to_overwrite(self.system, name) {
            Ok(file) => {
                self.is_new = true;
                Ok(file)
            }
            Err(_) => open_to_overwrite(self.system, name),
        }
    }

    /// Remembers why an output file was not written, and closes it. If it was created for the work, and nothing was
    /// written, it is removed.
    pub(crate) fn has_written(&mut self, name: &str, file: Witness<Overwrite<H::File>>) {
        self.unwritten = file.error();
        let (file, _) = file.into_parts();
        if self.is_new && !file.is_begun() {
            let _ = fs::remove_file(self.system, name);
        }
    }

    // Wraps an output file, unless it is the input file.
    fn overwrite(&mut self, file: H::File) -> io::Result<Witness<Overwrite<H::File>>> {
        let identity = identity_of(file.metadata());
        if identity.is_some() && identity == self.identity {
            self.is_one_file = true;
            return Err(io::Error::from(io::ErrorKind::InvalidInput));
        }
        Ok(Witness::new(Overwrite::new(file)))
    }
}

/// What is odd about a file of which this was seen, if it is read on no more: it is no IVF file of VP8, or ends inside
/// its head.
pub fn oddity_of(seen: &Seen) -> Option<FileFault> {
    match seen.packets().place {
        Place::FileHead(_) => Some(FileFault::Torn),
        _ => head_fault(seen.head()),
    }
}

/// What is odd about the first bytes of a regular file, if they are there. It is opened anew, as its reader needs
/// them too.
pub fn oddity_at<H: Files>(system: &H, name: &str) -> Option<FileFault> {
    let Ok(mut file) = fs::open(system, name) else {
        return None;
    };
    let mut head = [0; 32];
    match file.read_exact(&mut head) {
        Ok(()) => head_fault(&head),
        Err(_) => None,
    }
}

/// Whether a file is a regular one.
pub fn is_regular<F: OpenFile>(file: &F) -> bool {
    identity_of(file.metadata()).is_some()
}

// The device and the number of a regular file, which no other file has.
fn identity_of(metadata: io::Result<Metadata>) -> Option<(u64, u64)> {
    match metadata {
        Ok(metadata) if metadata.is_file() => Some((metadata.dev(), metadata.ino())),
        _ => None,
    }
}

// The size of a regular file.
fn size_of(metadata: &io::Result<Metadata>) -> Option<u64> {
    match metadata {
        Ok(metadata) if metadata.is_file() => Some(metadata.len()),
        _ => None,
    }
}
