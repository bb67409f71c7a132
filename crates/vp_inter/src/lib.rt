//! Inter prediction: blocks of a reference frame, displaced by a motion vector (RFC 6386, chapter 18). Its fraction of
//! a pixel (subpixel, subpel) is interpolated.
#![tactic(auto)]

mod block;
mod chroma;
mod filter;
mod filtered;
mod panel;
mod patch;
mod reference;
mod rows;
mod six_tap;
mod vector;
mod weights;

pub use block::{predict_block, predict_into};
pub use chroma::predict_into_chroma;
pub use filtered::{FilteredRows, VerticalFilter};
pub use reference::nearest;
pub use vector::{PlaneVector, chroma_vector, luma_vector};
