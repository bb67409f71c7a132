//! The frame tag, the frame header, and the state that is saved between frames.
#![tactic(auto)]

mod fault;
mod fields;
mod header;
mod header_writing;
mod laws;
mod probabilities;
mod probability_writing;
mod row_writing;
mod rows;
mod tag;

pub use fault::PacketFault;
pub use fields::{
    Filter, Header, KeyTag, LevelDeltas, Probabilities, QuantiserIndices, Reference, ReferenceCopy,
    ReferenceProbabilities, ReferenceUpdates, Saved, SegmentValues, Segmentation, SignBiases, Tag,
};
pub use laws::{
    first_byte_says_kind, key_header_resets, numbers_are_in_range, probabilities_come_back,
    what_is_read_can_be_written,
};
