//! Token partitions of a packet, and reading and writing the coefficient levels of macroblocks (RFC 6386, chapters 9.5
//! and 13).
#![tactic(auto)]

mod block;
mod block_writing;
mod contexts;
mod level_writing;
mod macroblock;
mod magnitude;
mod magnitude_writing;
mod partitions;
mod walk_writing;
mod walks;
mod writing;

pub use block::Block;
pub use contexts::{Contexts, Tokens};
pub use macroblock::{read_macroblock, skip_macroblock};
pub use partitions::Partitions;
pub use writing::write_macroblock;
