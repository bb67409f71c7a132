//! Pictures made smaller: each pixel is the mean of a square of pixels.
#![tactic(auto)]

mod lanes;
mod laws;
mod plane;
mod scale;
mod scaling;

pub use laws::{full_size_changes_nothing, smaller_planes_fit};
pub use scale::Scale;
pub use scaling::scaled;
