//! The VP8 encoder (RFC 6386, chapters 5, 9 and 19): choices, packets, reconstructions, and whole files.
#![tactic(auto)]

mod coded_frame;
mod distance;
mod encode_progress;
mod encoder;
mod encoding;
mod fault;
mod frame;
mod frame_choices;
mod header;
mod laws;
mod modes_and_motion;
mod packet;
mod report;
mod settings;
mod source;
mod tag;
mod tokens;

pub use coded_frame::CodedFrame;
pub use encoder::{Encoded, Encoder};
pub use encoding::{Unwatched, Watcher, encode_all, encode_all_watched};
pub use fault::{EncodeFault, PacketError, SettingsFault};
pub use laws::{encoded_files_play_back, encoded_frames_play_back};
pub use packet::{write_inter_packet, write_key_packet};
pub use report::{EncodeAllFault, EncodeReport, EncodedSoFar};
pub use settings::Settings;
