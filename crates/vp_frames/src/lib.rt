//! Decodes some packets of an IVF file, by number.
#![tactic(auto)]

mod decoding;
mod laws;
mod packets;
mod pictures;
mod range;
mod reading;
mod report;

pub use decoding::decode_range;
pub use laws::{
    a_range_has_the_files_header, a_range_is_a_part_of_the_file, all_packets_are_the_file,
};
pub use range::PacketRange;
pub use report::{RangeFaults, RangeReport};
