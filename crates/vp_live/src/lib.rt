//! Live encoding: a YUV4MPEG2 source to an IVF file that is written while the source is read.
#![tactic(auto)]

mod encoding;
mod laws;
mod progress;
mod writing;

pub use encoding::encode_live;
pub use laws::{live_files_are_encoded_files, live_files_play_back};
