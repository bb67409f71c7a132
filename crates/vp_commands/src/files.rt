//! Errors of opening files, and the limits on them.

ghost use Rattle.std.specs.Prelude.{◌≡◌, ◌≢◌, ◌⊎◌, IsOk, true};
ghost use Rattle.std.specs.IoError.{error_kind};
ghost use Rattle.std.specs.declared.io.ErrorKind.{ErrorKind};
ghost use Rattle.vp_hints.specs.Overwrite.{is_begun};
ghost use Rattle.vp_hints.specs.Witness.{witness_inner};
ghost use Rattle.vp_commands.specs.Commands.{status_by_range};
ghost use Rattle.vp_commands.specs.Status.{status_of};
ghost use Rattle.vp_commands.specs.Usual.{AreLimitsOf};

use std::fs::OpenFile;
use std::io;
use vp_args::FileLimits;
use vp_base::Limits;
use vp_frames::RangeReport;
use vp_hints::{Overwrite, Witness};
use vp_stream::{DecodeFault, Report};

/// Converts the error of a file that can't be opened or created: out of memory, or else a device fault.
pub fn file_fault<F: Drop>(error: &io::Error, device: F, memory: F) -> F
    ensures either { (result ≡ device) ⊎ (result ≡ memory) }
    ensures memory { error_kind error.now ≡ ErrorKind.OutOfMemory → result ≡ memory }
    ensures device { error_kind error.now ≢ ErrorKind.OutOfMemory → result ≡ device }
{
    if error.kind() == io::ErrorKind::OutOfMemory {
        memory
    } else {
        device
    }
}

/// Returns the limits of the program, with these on files.
pub fn limits_of(most: FileLimits) -> Limits
    ensures { AreLimitsOf most result }
{
    let usual = Limits::usual();
    match Limits::new(most.pixels, usual.packet_bytes, most.packets, usual.cache) {
        Some(limits) => limits,
        None => unreachable!(),
    }
}

/// Finishes the file of decoded pictures, if the exit status will be 0: an old file to which no byte was written is
/// then emptied. Else it stays as it is.
pub(crate) fn finish_pictures<F: OpenFile>(
    done: &Result<Report, DecodeFault>,
    file: &mut Witness<Overwrite<F>>,
) -> io::Result<()>
    ensures emptied { status_of done.now ≡ 0 → IsOk result → is_begun (witness_inner file.new) ≡ true }
    ensures kept { status_of done.now ≡ 1 → IsOk result × (file.new ≡ file.old) }
{
    match done {
        Ok(report) if report.faults.is_empty() => file.finish(),
        _ => Ok(()),
    }
}

/// Finishes the file of a range's pictures, if the exit status will be 0, as `finish_pictures` does. The last packet of
/// the range is `last`.
pub(crate) fn finish_range<F: OpenFile>(
    done: &Result<RangeReport, DecodeFault>,
    last: u32,
    file: &mut Witness<Overwrite<F>>,
) -> io::Result<()>
    ensures emptied { status_by_range last done.now ≡ 0 → IsOk result → is_begun (witness_inner file.new) ≡ true }
    ensures kept { status_by_range last done.now ≡ 1 → IsOk result × (file.new ≡ file.old) }
{
    match done {
        Ok(report) if last < report.count && report.faults.is_empty() => file.finish(),
        _ => Ok(()),
    }
}
