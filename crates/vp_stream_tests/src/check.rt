//! The comparison that tests use, and what is compared of answers.

use std::fmt::Debug;
use vp_head::PacketFault;
use vp_stream::Answer;

/// Two values that differ.
#[derive(Debug, Drop)]
pub(crate) struct Difference<T> {
    found: T,
    wanted: T,
}

/// Returns both values if they differ.
pub(crate) fn compare<T: PartialEq + Debug + Drop>(
    found: T,
    wanted: T,
) -> Result<(), Difference<T>> {
    if found == wanted {
        Ok(())
    } else {
        Err(Difference { found, wanted })
    }
}

/// Fails the test if the values differ, and prints the expression of the first one and both. The line of the call
/// follows them, which a function that asserts would hide.
macro_rules! equal {
    ($rt:expr; $found:expr, $wanted:expr) => {
        $crate::check::compare($found, $wanted).expect($rt, stringify!($found))
    };
}

pub(crate) use equal;

/// An answer's kind, its fault, and the size and the pixels of its picture.
pub(crate) type Parts<'a> = (
    &'static str,
    Option<PacketFault>,
    Option<((u16, u16), &'a [u8])>,
);

/// Returns these parts.
pub(crate) fn parts(answer: &Answer) -> Parts<'_> {
    match answer {
        Answer::Shown(dim, bytes) => ("shown", None, Some(((dim.w, dim.h), bytes.as_slice()))),
        Answer::Hidden => ("hidden", None, None),
        Answer::Fault(fault) => ("fault", Some(*fault), None),
        Answer::NoPacket => ("no packet", None, None),
    }
}
