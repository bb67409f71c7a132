//! The commands over files, over any standard streams: `vp8 decode`, `encode`, `info`, `check` and `picture`.
#![tactic(auto)]

mod check;
mod decode;
mod encode;
mod encoded;
mod files;
mod hints;
mod info;
mod laws;
mod outside;
mod picture;
mod picture_fault;
mod range;
mod sums;
mod unwritten;
mod work;

pub use check::run_check;
pub use decode::run_decode;
pub use encode::{run_encode, settings_of};
pub use files::{file_fault, limits_of};
pub use hints::hint_memory;
pub use info::run_info;
pub use laws::{
    lines_are_printed_unless_the_output_failed, standard_input_is_left_or_answered,
    status_0_of_check_says_that_nothing_is_wrong, status_0_of_info_says_that_all_is_printed,
    what_is_not_begun_changes_nothing,
};
pub use outside::{Outside, is_regular, oddity_at, oddity_of};
pub use picture::{MadePicture, run_picture};
pub use picture_fault::PictureFault;
pub use range::run_range;
