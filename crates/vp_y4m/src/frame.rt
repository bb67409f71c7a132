//! Reading one picture with its frame line.

ghost use Rattle.std.specs.Prelude.{◌≡◌, ◌≢◌, ◌≤◌, ◌+◌, if◌then◌else◌, Err};
ghost use Rattle.vp_base.specs.Image.{blank_image};
ghost use Rattle.vp_base.specs.Counted.{counted_remaining, counted_failures, counted_reads, HasFailed};
ghost use Rattle.vp_y4m.specs.declared.fault.SourceFault.{SourceFault};
ghost use Rattle.vp_y4m.specs.Text.{i420_length};
ghost use Rattle.vp_y4m.specs.Reads.{TakesInReads, idle_reads};
ghost use Rattle.vp_y4m.specs.Frames.{FindsFrame, FindsPicture};

use crate::fault::SourceFault;
use crate::header::is_first_token;
use crate::line::read_line;
use crate::pixels::read_pixels;
use std::io::Read;
use vp_base::{Counted, Picture};

// Reads the frame line of a picture. Returns false at the end of the input.
fn read_frame_line<R: Read>(reader: &mut Counted<R>) -> Result<bool, SourceFault>
    ensures found { FindsFrame result (counted_remaining R.remaining reader.old)
        (counted_remaining R.remaining reader.new) }
    ensures device { result ≡ Err SourceFault.Device
        → HasFailed (counted_failures reader.old) (counted_failures reader.new) }
    ensures quiet { result ≢ Err SourceFault.Device → counted_failures reader.new ≡ counted_failures reader.old }
    ensures reads { TakesInReads (idle_reads (λ found. if found then 0 else 1) result)
        (counted_remaining R.remaining reader.old)
        (counted_remaining R.remaining reader.new) (counted_reads reader.old) (counted_reads reader.new) }
    ensures within { counted_reads reader.new ≤ counted_reads reader.old + 1025 }
{
    let mut line = [0; 1024];
    match read_line(reader, &mut line) {
        Ok(Some(n)) => {
            if !is_first_token(&line[..n], b"FRAME") {
                return Err(SourceFault::Magic);
            }
            Ok(true)
        }
        Ok(None) => Ok(false),
        Err(fault) => Err(fault),
    }
}

/// Reads the next picture into a picture of zeros. Returns false at the end of the input.
pub(crate) fn read_frame<R: Read>(
    reader: &mut Counted<R>,
    picture: &mut Picture,
) -> Result<bool, SourceFault>
    requires { picture.old ≡ blank_image picture.old.width picture.old.height 0 }
    ensures found { FindsPicture picture.old.width picture.old.height result picture.new
        (counted_remaining R.remaining reader.old) (counted_remaining R.remaining reader.new) }
    ensures device { result ≡ Err SourceFault.Device
        → HasFailed (counted_failures reader.old) (counted_failures reader.new) }
    ensures quiet { result ≢ Err SourceFault.Device → counted_failures reader.new ≡ counted_failures reader.old }
    ensures reads { TakesInReads (idle_reads (λ found. if found then 0 else 1) result)
        (counted_remaining R.remaining reader.old)
        (counted_remaining R.remaining reader.new) (counted_reads reader.old) (counted_reads reader.new) }
    ensures within { counted_reads reader.new ≤ counted_reads reader.old
        + (1025 + i420_length picture.old.width picture.old.height) }
{
    match read_frame_line(reader) {
        Ok(true) => {}
        Ok(false) => return Ok(false),
        Err(fault) => return Err(fault),
    }
    match read_pixels(reader, picture) {
        Ok(()) => Ok(true),
        Err(fault) => Err(fault),
    }
}
