//! Transcripts: their text and their lines, the commands for packets and growing files, and the digests of streams. A
//! part of the program `vp_transcripts` that needs nothing of the commands and the server.
#![tactic(auto)]

mod packets;
mod streams;
mod text;
mod transcript;

pub use crate::packets::Packets;
pub use crate::streams::tell as tell_stream;
pub use crate::text::{Names, limits, malformed, number};
pub use crate::transcript::{Found, Script, tell};
