//! The lines that `vp8` prints of files, of their packets and of sums.
#![tactic(auto)]

mod counts;
mod file_names;
mod files;
mod lines;
mod listing;
mod styles;
mod summer;
mod sums;

pub use counts::Counts;
pub use file_names::names_have_no_control_bytes;
pub use files::{has_total, is_well, put_done, put_total};
pub use listing::{print_faults, print_survey, report_fault};
pub use styles::LineStyle;
pub use summer::{Arrival, Summer};
pub use sums::print_sums;
