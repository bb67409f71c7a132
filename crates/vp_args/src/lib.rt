//! The command line of `vp8`: commands, options and operands, and the tasks that they ask for.
#![tactic(auto)]

mod args;
mod check_args;
mod decode_args;
mod encode_args;
mod file_limits;
mod info_args;
mod laws;
mod many_args;
mod numbers;
mod picture_args;
mod picture_options;
mod range_args;
mod serve_args;
mod words;

pub use args::{Refusal, Task, read_args};
pub use check_args::CheckArgs;
pub use decode_args::{DecodeArgs, DecodeRangeArgs};
pub use encode_args::{EncodeArgs, EncodeOptions};
pub use file_limits::FileLimits;
pub use info_args::InfoArgs;
pub use laws::{check_words, decode_words, frame_words, info_words, picture_words};
pub use picture_args::{PictureArgs, StillForm};
pub use serve_args::{NamedFile, ServeArgs, ServeManyArgs};
