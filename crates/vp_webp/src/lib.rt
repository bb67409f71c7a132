//! Lossy WebP files: the key frame of a file is found, and the file of a key frame is written.
#![tactic(auto)]

mod bytes;
mod chunk;
mod fault;
mod laws;
mod reading;
mod writing;

pub use fault::{WebPFault, WebPWriteFault};
pub use laws::{chunks_determine_the_image, packet_is_in_the_file, written_is_read};
pub use reading::{Canvas, PacketPlace, WebP, packet_place, read};
pub use writing::{copy_file, file_len, write};
