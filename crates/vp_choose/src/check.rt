//! The comparison that tests use.

use std::fmt::Debug;

/// Two values that differ.
#[derive(Debug, Drop)]
pub(crate) struct Difference<T> {
    found: T,
    wanted: T,
}

/// Returns both values if they differ.
pub(crate) fn compare<T: PartialEq + Debug + Drop>(
    found: T,
    wanted: T,
) -> Result<(), Difference<T>> {
    if found == wanted {
        Ok(())
    } else {
        Err(Difference { found, wanted })
    }
}

/// Fails the test if the values differ, and prints the expression of the first one and both. The line of the call
/// follows them, which a function that asserts would hide. The handle is lent already: a `&` here would lend a local
/// of the caller, which its proof pays for at each call.
macro_rules! equal {
    ($rt:expr; $found:expr, $wanted:expr) => {
        $crate::check::compare($found, $wanted).expect($rt, stringify!($found))
    };
}

pub(crate) use equal;
