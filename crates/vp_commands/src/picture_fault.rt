//! The faults of `vp8 picture`.

ghost use Rattle.std.specs.Prelude.{◌≡◌, ◌≢◌};
ghost use Rattle.std.specs.IoError.{error_kind};
ghost use Rattle.std.specs.declared.io.ErrorKind.{ErrorKind};
ghost use Rattle.vp_commands.specs.declared.picture_fault.PictureFault.{PictureFault};

use crate::files::file_fault;
use std::alloc::AllocError;
use std::io::Write;
use std::{fmt, io};
use vp_args::PictureArgs;
use vp_base::Counted;
use vp_hints::Printable;
use vp_still::{FindFault, StillFault};

/// The reasons for which no picture is written.
#[derive(Clone, Copy, Debug, PartialEq, Eq)]
pub enum PictureFault {
    /// The input file gives no picture.
    Find(FindFault),
    /// A part of the picture's key frame is too long for the packet format or for the file.
    TooLong,
    /// A file can't be opened, read, created or written, or the output is the input file.
    Device,
    /// The input did not end within 4,294,967,295 reads.
    ReadTurns,
    /// Out of memory.
    Memory,
}

impl From<AllocError> for PictureFault {
    ghost from_gives = { λ _ fault. fault ≡ PictureFault.Memory };

    fn from(_: AllocError) -> PictureFault {
        PictureFault::Memory
    }
}

impl From<io::Error> for PictureFault {
    ghost from_gives = { λ error fault.
        (error_kind error ≡ ErrorKind.OutOfMemory → fault ≡ PictureFault.Memory)
        × (error_kind error ≢ ErrorKind.OutOfMemory → fault ≡ PictureFault.Device) };

    fn from(error: io::Error) -> PictureFault {
        file_fault(&error, PictureFault::Device, PictureFault::Memory)
    }
}

impl From<StillFault> for PictureFault {
    ghost use Rattle.std.specs.Prelude.{◌≡◌};
    ghost use Rattle.vp_commands.specs.Picturing.{fault_of_still};

    ghost from_gives = { λ fault r. r ≡ fault_of_still fault };

    fn from(fault: StillFault) -> PictureFault {
        match fault {
            StillFault::TooLong => PictureFault::TooLong,
            StillFault::Memory => PictureFault::Memory,
        }
    }
}

/// Prints a fault.
pub(crate) fn report_picture_fault<E: Write>(
    fault: PictureFault,
    wanted: &PictureArgs<'_>,
    errors: &mut Counted<E>,
) {
    let _ = match fault {
        PictureFault::Find(fault) => print_find_fault(fault, wanted, errors),
        _ => print_fault(name_of(fault), errors),
    };
}

// The name of a fault that the input does not have.
fn name_of(fault: PictureFault) -> &'static str {
    match fault {
        PictureFault::Find(..) => "",
        PictureFault::TooLong => "TooLong",
        PictureFault::Device => "Device",
        PictureFault::ReadTurns => "ReadTurns",
        PictureFault::Memory => "Memory",
    }
}

// Prints why a file gives no picture.
fn print_find_fault<E: Write>(
    fault: FindFault,
    wanted: &PictureArgs<'_>,
    errors: &mut Counted<E>,
) -> io::Result<()> {
    let number = wanted.packet.unwrap_or(0);
    match fault {
        FindFault::File(fault) => print_fault(fault, errors),
        FindFault::WebP(fault) => print_fault(fault, errors),
        FindFault::Packet(fault) => print_packet_fault(number, fault, errors),
        FindFault::Hidden => print_packet_fault(number, "Hidden", errors),
        FindFault::NoPacket(count) => {
            let plural = if count == 1 { "" } else { "s" };
            print_no_packet(number, count, plural, wanted.input, errors)
        }
        FindFault::NoPicture(count) => print_no_picture(count, wanted.input, errors),
        FindFault::Memory => print_fault("Memory", errors),
    }
}

// Prints the name of a fault.
fn print_fault<F: fmt::Display + Copy, E: Write>(
    fault: F,
    errors: &mut Counted<E>,
) -> io::Result<()> {
    writeln!(errors, "vp8: {fault}")
}

// Prints the name of a packet's fault.
fn print_packet_fault<F: fmt::Display + Copy, E: Write>(
    number: u32,
    fault: F,
    errors: &mut Counted<E>,
) -> io::Result<()> {
    writeln!(errors, "vp8: packet {number}: {fault}")
}

/// Prints that a file with this number of packets lacks one. `plural` ends their noun.
pub(crate) fn print_no_packet<E: Write>(
    number: u32,
    count: u32,
    plural: &str,
    from: &str,
    errors: &mut Counted<E>,
) -> io::Result<()> {
    let name = Printable(from);
    writeln!(
        errors,
        "vp8: no packet {number}: {name} has {count} packet{plural}"
    )
}

// Prints that none of a file's packets shows a picture.
fn print_no_picture<E: Write>(count: u32, from: &str, errors: &mut Counted<E>) -> io::Result<()> {
    let name = Printable(from);
    writeln!(
        errors,
        "vp8: no picture: none of the {count} packets of {name} shows one"
    )
}
