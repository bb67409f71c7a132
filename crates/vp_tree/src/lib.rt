//! Binary trees of bools, with leaves of any type (RFC 6386, chapter 8.1).
#![tactic(auto)]

mod entry;
mod laws;
mod reading;
mod steps;
mod writing;

pub use entry::TreeEntry;
pub use laws::{one_leaf, one_path, takes_paths};
pub use reading::{read_tree, read_tree_from};
pub use steps::{Step, path, path_from};
pub use writing::{write_tree, write_tree_from};
