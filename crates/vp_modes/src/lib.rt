//! The modes of a frame's macroblocks, and the map that contains them.
#![tactic(auto)]

mod contexts;
mod entry;
mod grid;
mod laws;
mod map;
mod reading;
mod segment;
mod walks;
mod writing;

pub use entry::Modes;
pub use grid::ModeGrid;
pub use laws::what_is_read_can_be_written;
pub use map::ModeMap;
pub use reading::read_modes;
pub use segment::Segment;
pub use vp_base::Place;
pub use writing::write_modes;
