//! Quantiser indices and factors, dequantisation of blocks (RFC 6386, chapters 9.3, 9.6 and 14.1), and quantisation of
//! coefficients.
#![tactic(auto)]

mod block;
mod factors;
mod level;
mod magnitudes;
mod quantised_block;
mod short;

pub use block::dequant;
pub use factors::{Factors, segment_index};
pub use level::quantise;
pub use quantised_block::quantise_block;
pub use short::ShortFactor;
