//! The encoder's choices for one macroblock: modes, motion vector and levels. RFC 6386 leaves all of them open.
#![tactic(auto)]

#[cfg(test)]
mod check;
mod chroma;
mod coding;
mod frame;
mod frame_chooser;
mod laws;
mod levels;
mod luma;
mod macroblock;
mod motion;
#[cfg(test)]
mod order_tests;
mod searchers;
mod single;
mod subblocks;
#[cfg(test)]
mod tests;

pub use frame::{Choice, FrameSearch, Search};
pub use frame_chooser::FrameChooser;
pub use laws::choice_is_one;
pub use single::choose_macroblock;
