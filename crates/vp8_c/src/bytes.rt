//! Copies bytes to the caller's memory.

ghost use Rattle.vp8_c.specs.Arguments.{CopiesBytes};

use crate::status::{BUFFER, OK};

/// Copies bytes to the beginning of `out`, or returns `BUFFER` if they don't fit.
pub fn put_front(out: &mut [u8], bytes: &[u8]) -> u32
    ensures { CopiesBytes bytes.now result out.old out.new }
{
    if bytes.len() > out.len() {
        return BUFFER;
    }
    out[..bytes.len()].copy_from_slice(bytes);
    OK
}
