//! The inverse transforms of a block (RFC 6386, chapter 14), and the encoder's forward transforms.
#![tactic(auto)]

mod cosine;
mod forward_short;
mod hadamard;
mod hadamard_lanes;
mod lanes;
mod pair;
mod reference;
mod short;

pub use cosine::idct_of_dc;
pub use forward_short::{differences, fdct_short};
pub use hadamard::{iwht, iwht_of_dc};
pub use hadamard_lanes::{fwht_short, iwht_short};
pub use lanes::idct_short;
pub use pair::idct_interleaved;
pub use reference::{fdct, fwht, idct};
pub use short::{cut, idct_cut};
