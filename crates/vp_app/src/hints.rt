//! The line under a fault of `vp8 serve`, indented by two spaces: the file or address in the user's words, why, what to
//! do.

use crate::service::ServiceFault;
use std::io;
use std::io::Write;
use vp_args::{NamedFile, ServeArgs};
use vp_commands::{Outside, hint_memory};
use vp_hints::{Cause, Printable};
use vp_hub::{HubFault, ServeFault};
use vp_ivf::FileFault;

/// Prints why nothing is served, and what to do.
pub(crate) fn hint_serve<H, W: Write>(
    outside: &Outside<'_, H>,
    fault: ServiceFault,
    service: &ServeArgs<'_>,
    output: &mut W,
) -> io::Result<()> {
    match fault {
        ServiceFault::Names => hint_names(output),
        ServiceFault::Device => hint_service_device(outside, service, output),
        ServiceFault::ReadTurns => writeln!(
            output,
            "  a file did not end within 4,294,967,295 reads"
        ),
        ServiceFault::Memory => hint_memory(output),
    }
}

/// Prints what names of streams are.
pub(crate) fn hint_names<W: Write>(output: &mut W) -> io::Result<()> {
    writeln!(
        output,
        "  give 1 to 16 streams, each with a name of its own of 1 to 32 of the characters a-z, 0-9, - and _"
    )
}

/// Prints why a connection was not served to its end.
pub(crate) fn hint_connection<W: Write>(
    number: u32,
    fault: ServeFault,
    output: &mut W,
) -> io::Result<()> {
    let words = match fault {
        ServeFault::Hub(HubFault::Memory) => ": out of memory",
        ServeFault::Hub(_) => ": its requests are refused",
        ServeFault::Device => ": the client broke it off, or it failed",
        ServeFault::ReadTurns => " did not end within 1,048,576 reads",
    };
    writeln!(output, "  connection {number}{words}")
}

// Prints which file or address is refused, and why.
fn hint_service_device<H, W: Write>(
    outside: &Outside<'_, H>,
    service: &ServeArgs<'_>,
    output: &mut W,
) -> io::Result<()> {
    let Some(error) = outside.refused else {
        return Ok(());
    };
    match service.streams.get(outside.fed_files()) {
        Some(stream) => hint_stream(stream, error, output),
        None => hint_address(service.listen, error, output),
    }
}

/// Prints why the file of a stream is refused.
pub(crate) fn hint_stream<W: Write>(
    stream: &NamedFile<'_>,
    error: io::Error,
    output: &mut W,
) -> io::Result<()> {
    let (name, file, cause) = (Printable(stream.name), Printable(stream.file), Cause(error));
    writeln!(output, "  {name}: {file}: {cause}")
}

/// Prints why an address is refused.
pub(crate) fn hint_address<W: Write>(
    address: &str,
    error: io::Error,
    output: &mut W,
) -> io::Result<()> {
    let is_invalid = error.kind() == io::ErrorKind::InvalidInput;
    let advice = if is_invalid {
        ". Try: ADDR:PORT, as 127.0.0.1:8080"
    } else {
        ""
    };
    let (address, cause) = (Printable(address), Cause(error));
    writeln!(output, "  {address}: {cause}{advice}")
}

/// Prints which of the files that were fed are not IVF files of VP8.
pub(crate) fn hint_odd_files<H, W: Write>(
    outside: &Outside<'_, H>,
    service: &ServeArgs<'_>,
    output: &mut W,
) {
    for (place, stream) in service.streams.iter().enumerate() {
        let _ = hint_odd_file(outside.oddity(place), stream, output);
    }
}

/// Prints that a stream's file is not a whole IVF file of VP8, if that was odd about it. Of standard input nothing is
/// known.
pub(crate) fn hint_odd_file<W: Write>(
    oddity: Option<FileFault>,
    stream: &NamedFile<'_>,
    output: &mut W,
) -> io::Result<()> {
    match oddity {
        Some(fault) if stream.file != "-" => hint_file(stream, odd_words(fault), output),
        _ => Ok(()),
    }
}

// What is odd about a file.
fn odd_words(fault: FileFault) -> &'static str {
    match fault {
        FileFault::Torn => " is empty, or ends inside its head",
        FileFault::Codec => ": not VP8",
        _ => ": not an IVF file",
    }
}

/// Prints what is wrong with the file of a stream.
pub(crate) fn hint_file<W: Write>(
    stream: &NamedFile<'_>,
    words: &str,
    output: &mut W,
) -> io::Result<()> {
    let (name, file) = (Printable(stream.name), Printable(stream.file));
    writeln!(output, "  {name}: {file}{words}")
}
