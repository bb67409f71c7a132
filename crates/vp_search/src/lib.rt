//! The motion search of the encoder: differences of blocks, and the vectors that minimise them.
#![tactic(auto)]

mod block;
mod bounded_row;
mod candidate;
mod coarse;
mod columns;
mod difference;
mod kept;
mod kept_sums;
mod kernel;
mod laws;
mod least;
mod outward;
mod reference;
mod refinement;
mod rows;
mod search_window;
mod searcher;
mod squared_error;
mod summed;
mod sums;
mod unbounded;
mod unbounded_row;
mod vector;
mod window;

pub use block::{cut_block, cut_luma};
pub use difference::{sad4, sad8, sad16};
pub use laws::{least_vector_is_one, refined_vector_is_one, whole_vectors_are_predicted};
pub use least::first_least;
pub use reference::{full_search, refine, refine_block, search_block};
pub use refinement::refine_found;
pub use searcher::Searcher;
pub use squared_error::sse;
pub use vector::{Found, QuarterVector, Refined, WholeVector, quarters};
