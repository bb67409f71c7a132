//! The reference frames: last, golden and altref.
#![tactic(auto)]

mod refs;

pub use refs::Refs;
