//! Writes the tag of a packet.

ghost use Rattle.std.specs.Prelude.{◌≡◌, ◌<◌, ◌^◌, ◌++◌, OnOk};
ghost use Rattle.vp_encode.specs.Written.{three_bytes, two_bytes, tag_bytes};

use std::alloc::AllocError;
use vp_head::KeyTag;

/// Returns a 24-bit number, little-endian.
fn three_bytes(number: u32) -> [u8; 3]
    requires { number < 2 ^ 24 }
    ensures { result ≡ three_bytes number }
{
    [
        (number % 256) as u8,
        (number / 256 % 256) as u8,
        (number / 65_536) as u8,
    ]
}

/// Returns a 16-bit number, little-endian.
fn two_bytes(number: u16) -> [u8; 2]
    ensures { result ≡ two_bytes number }
{
    [(number % 256) as u8, (number / 256) as u8]
}

/// Appends the tag of a shown packet of version 0 (RFC 6386, chapter 9.1). `first` is the length of the first partition
/// in bytes; a key packet's tag also has its size.
pub(crate) fn put_tag(
    key: Option<KeyTag>,
    first: u32,
    bytes: &mut Vec<u8>,
) -> Result<(), AllocError>
    requires { first < 2 ^ 19 }
    ensures { OnOk result (bytes.new.items ≡ bytes.old.items ++ tag_bytes key first) }
{
    match key {
        Some(key) => {
            bytes.extend_from_slice(&three_bytes(32 * first + 16))?;
            bytes.extend_from_slice(&[0x9d, 0x01, 0x2a])?;
            bytes.extend_from_slice(&two_bytes(key.dim.w))?;
            bytes.extend_from_slice(&two_bytes(key.dim.h))?;
        }
        None => bytes.extend_from_slice(&three_bytes(32 * first + 17))?,
    }
    Ok(())
}
