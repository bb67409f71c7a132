//! What the tests of all layers use.

ghost use Rattle.std.specs.Prelude.{◌≡◌};

use std::fmt::Debug;
use std::process::Abort;
use vp_base::{Dim, Limits};

/// Two values that differ.
#[derive(Debug, Drop)]
pub(crate) struct Difference<T> {
    found: T,
    wanted: T,
}

/// Returns both values if they differ.
pub(crate) fn compare<T: PartialEq + Debug + Drop>(
    found: T,
    wanted: T,
) -> Result<(), Difference<T>> {
    if found == wanted {
        Ok(())
    } else {
        Err(Difference { found, wanted })
    }
}

/// Fails the test if the values differ, and prints the expression of the first one and both. The line of the call
/// follows them, which a function that asserts would hide. The handle is lent already: a `&` here would lend a local
/// of the caller, which its proof pays for at each call.
macro_rules! equal {
    ($rt:expr; $found:expr, $wanted:expr) => {
        $crate::check::compare($found, $wanted).expect($rt, stringify!($found))
    };
}

pub(crate) use equal;

/// A `Vec` and other bytes than its own.
#[derive(Debug, Drop)]
pub(crate) struct OtherBytes<'a> {
    found: Vec<u8>,
    wanted: &'a [u8],
}

/// Returns both if these aren't the wanted bytes.
pub(crate) fn compare_bytes(found: Vec<u8>, wanted: &[u8]) -> Result<(), OtherBytes<'_>> {
    if found.as_slice() == wanted {
        Ok(())
    } else {
        Err(OtherBytes { found, wanted })
    }
}

/// Fails the test if these aren't the wanted bytes, and prints the expression of the first ones and both.
macro_rules! equal_bytes {
    ($rt:expr; $found:expr, $wanted:expr) => {
        $crate::check::compare_bytes($found, $wanted).expect($rt, stringify!($found))
    };
}

pub(crate) use equal_bytes;

/// Returns a size within the usual limits.
pub(crate) fn size(rt: &impl Abort, w: u16, h: u16) -> Dim
    ensures width { result.w ≡ w }
    ensures height { result.h ≡ h }
{
    Dim::new(w, h, &Limits::usual()).expect(rt, "a size")
}
