//! IVF files: a reader that is fed pieces of any length, and a writer; both work packet by packet.
#![tactic(auto)]

mod cutting;
mod fault;
mod laws;
mod packet;
mod reader;
mod writer;

pub use fault::{FeedError, FileFault};
pub use laws::{
    cutting_leaves_no_packet, growing_keeps_what_was_read, laws_determine_the_reading,
    reading_is_faithful, reading_keeps_to_limits, written_is_read,
};
pub use packet::{IvfHead, Packet};
pub use reader::Reader;
pub use writer::{WriteFault, Writer};
