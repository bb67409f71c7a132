//! Outputs to which a write failed.

ghost use Rattle.std.specs.Prelude.{◌≡◌, ◌≤◌};
ghost use Rattle.vp_base.specs.Counted.{counted_failures, counted_inner, HasFailed};

use std::io::Write;
use vp_base::{Counted, Device};
use vp_lines::report_fault;
use vp_stream::DecodeFault;

/// Prints that a write to the output failed, and returns the exit status. `before` is the output's number of failed
/// calls before the work.
pub(crate) fn report_unwritten<W, E: Write>(
    before: u64,
    output: &mut Counted<W>,
    errors: &mut Counted<E>,
) -> u8
    ensures status { result ≡ 1 }
    ensures failed { HasFailed before (counted_failures output.new) }
    ensures inner { counted_inner output.new ≡ counted_inner output.old }
{
    let _ = failed_write(before, output);
    report_fault(DecodeFault::Device, errors)
}

/// Returns the fault of a failed write. If no failed call was counted since their number was `before`, it counts one.
pub(crate) fn failed_write<W>(before: u64, output: &mut Counted<W>) -> Device
    ensures failed { HasFailed before (counted_failures output.new) }
    ensures inner { counted_inner output.new ≡ counted_inner output.old }
{
    if output.failures() <= before {
        count_up_to(before, output);
        output.count_failure();
    }
    Device
}

// Counts failed calls up to a number.
fn count_up_to<W>(number: u64, output: &mut Counted<W>)
    requires { counted_failures output.old ≤ number }
    ensures number { counted_failures output.new ≡ number }
    ensures inner { counted_inner output.new ≡ counted_inner output.old }
{
    for _count in output.failures()..number {
        output.count_failure();
    }
}
