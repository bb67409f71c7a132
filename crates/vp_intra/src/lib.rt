//! Intra prediction: a block from the pixels around it (RFC 6386, chapter 12).
#![tactic(auto)]

mod edges;
mod means;
mod modes;
mod sub;
mod whole;

pub use sub::{predict_sub, predict_sub_modes};
pub use whole::{predict_chroma, predict_chroma_into, predict_luma, predict_luma_into};
