//! Reading bytes and letters.

ghost use Rattle.std.specs.Prelude.{◌≡◌, ◌+◌, length, IfOk};
ghost use Rattle.vp_webp.specs.Bytes.{take_bytes, letters};

use crate::fault::WebPFault;
use std::marker::Model;

/// The bytes that were read, and the bytes after them.
#[derive(Drop)]
pub(crate) struct Cut<'a> {
    pub taken: &'a [u8],
    pub rest: &'a [u8],
}

impl<'a> Model for Cut<'a> {
    ghost use Rattle.std.specs.Prelude.{List, ℕ};

    ghost Value = { List ℕ × List ℕ };

    ghost view = { λ o. (o.taken.now, o.rest.now) };
}

/// The next `count` bytes. `Torn` if there are fewer.
pub(crate) fn take_bytes(count: usize, bytes: &[u8]) -> Result<Cut<'_>, WebPFault>
    ensures value { result ≡ take_bytes count bytes.now }
    ensures whole { IfOk result (λ c. count + length c.1 ≡ length bytes.now) }
{
    if bytes.len() < count {
        return Err(WebPFault::Torn);
    }
    let (taken, rest) = bytes.split_at(count);
    Ok(Cut { taken, rest })
}

/// Four letters. `Torn` if the bytes end inside them, `Signature` if there are other bytes.
pub(crate) fn take_letters<'a>(word: &[u8], bytes: &'a [u8]) -> Result<Cut<'a>, WebPFault>
    ensures { result ≡ letters word.now bytes.now }
{
    let (start, _) = bytes.split_at(bytes.len().min(4));
    if !word.starts_with(start) {
        return Err(WebPFault::Signature);
    }
    take_bytes(4, bytes)
}
