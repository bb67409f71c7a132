//! What all tests compare by.

use std::fmt::Debug;

/// Two values that differ.
#[derive(Debug, Drop)]
pub(crate) struct Difference<T> {
    found: T,
    wanted: T,
}

/// Returns both values if they differ.
pub(crate) fn compare<T: PartialEq + Debug + Drop>(
    found: T,
    wanted: T,
) -> Result<(), Difference<T>> {
    if found == wanted {
        Ok(())
    } else {
        Err(Difference { found, wanted })
    }
}

/// Fails the test if the values differ, and prints the expression of the first one, both values and the line of the
/// call. The handle is lent: `&rt` where the test owns it.
macro_rules! equal {
    ($rt:expr; $found:expr, $wanted:expr) => {
        $crate::check::compare($found, $wanted).expect($rt, stringify!($found))
    };
}

pub(crate) use equal;
