//! The C interface: decoding, encoding and IVF files. Its header is `include/vp8.h`.
#![tactic(auto)]

mod bytes;
#[cfg(test)]
mod call_tests;
mod decoder;
mod decoder_handle;
mod encoder;
mod encoder_handle;
mod file_handle;
mod handle;
mod handle_value;
mod laws;
mod lent;
mod names;
mod packet;
#[cfg(test)]
mod plane_tests;
mod planes;
mod raw_box;
mod rows;
mod settings;
mod slot;
mod status;
mod stream;
mod stream_handle;
#[cfg(test)]
mod tests;
mod webp;
#[cfg(test)]
mod webp_tests;

pub use laws::{given_pictures_are_read, the_last_packet_is_told, webp_files_are_read};
