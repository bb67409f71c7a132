//! Reading lines.

ghost use Rattle.std.specs.Prelude.{◌≡◌, ◌≢◌, ◌==◌, ◌≤◌, ◌+◌, if◌then◌else◌, length, None, Ok, Err};
ghost use Rattle.vp_base.specs.Counted.{counted_remaining, counted_failures, counted_reads, one_more, HasFailed};
ghost use Rattle.vp_y4m.specs.declared.fault.SourceFault.{SourceFault};
ghost use Rattle.vp_y4m.specs.Lines.{ReadsByte, ReadsLine};
ghost use Rattle.vp_y4m.specs.Reads.{TakesInReads, idle_reads, idle_at_none};

use crate::fault::SourceFault;
use std::io::Read;
use vp_base::Counted;

// Reads the next byte. Returns None at the end of the input.
fn read_byte<R: Read>(reader: &mut Counted<R>) -> Result<Option<u8>, SourceFault>
    ensures byte { ReadsByte result (counted_remaining R.remaining reader.old)
        (counted_remaining R.remaining reader.new) }
    ensures device { result ≡ Err SourceFault.Device
        → HasFailed (counted_failures reader.old) (counted_failures reader.new) }
    ensures quiet { result ≢ Err SourceFault.Device → counted_failures reader.new ≡ counted_failures reader.old }
    ensures reads { counted_reads reader.new ≡ one_more (counted_reads reader.old) }
{
    let mut byte = [0];
    match reader.read(&mut byte) {
        Ok(0) => Ok(None),
        Ok(_) => Ok(Some(byte[0])),
        Err(_) => Err(SourceFault::Device),
    }
}

/// Reads a line of at most 1,024 bytes and its line feed, and nothing after it. Returns the line's length, or None if
/// the input ends before the first byte.
pub(crate) fn read_line<R: Read>(
    reader: &mut Counted<R>,
    line: &mut [u8],
) -> Result<Option<usize>, SourceFault>
    requires { length line.old ≡ 1024 }
    ensures line { ReadsLine result line.new (counted_remaining R.remaining reader.old)
        (counted_remaining R.remaining reader.new) }
    ensures device { result ≡ Err SourceFault.Device
        → HasFailed (counted_failures reader.old) (counted_failures reader.new) }
    ensures quiet { result ≢ Err SourceFault.Device → counted_failures reader.new ≡ counted_failures reader.old }
    ensures reads { TakesInReads (idle_reads idle_at_none result) (counted_remaining R.remaining reader.old)
        (counted_remaining R.remaining reader.new) (counted_reads reader.old) (counted_reads reader.new) }
    ensures within { counted_reads reader.new ≤ counted_reads reader.old + 1025 }
{
    for n in 0..1024 {
        match read_byte(reader) {
            Ok(Some(b'\n')) => return Ok(Some(n)),
            Ok(Some(byte)) => line[n] = byte,
            Ok(None) => return end_after(n),
            Err(fault) => return Err(fault),
        }
    }
    match read_byte(reader) {
        Ok(Some(b'\n')) => Ok(Some(1024)),
        Ok(Some(_)) => Err(SourceFault::Magic),
        Ok(None) => Err(SourceFault::Torn),
        Err(fault) => Err(fault),
    }
}

// The result at the end of the input, after the first `n` bytes of a line.
fn end_after(n: usize) -> Result<Option<usize>, SourceFault>
    ensures { result ≡ (if n == 0 then Ok None else Err SourceFault.Torn) }
{
    if n == 0 {
        return Ok(None);
    }
    Err(SourceFault::Torn)
}
