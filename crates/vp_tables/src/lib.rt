//! The constant tables of VP8: trees, probabilities, dequantisation factors, filter taps.
#![tactic(auto)]

mod coefficients;
mod factors;
mod laws;
mod mode_probabilities;
mod modes;
mod sub_probabilities;
mod taps;
mod tokens;
mod trees;

pub use coefficients::{
    COEFFICIENT_PROBABILITIES, COEFFICIENT_UPDATES, coefficient_probabilities, coefficient_updates,
};
pub use factors::{AC_FACTORS, DC_FACTORS, ac_factor, dc_factor};
pub use laws::{taps_sum_to_128, trees_are_formed, zigzag_meets_each_place_once};
pub use mode_probabilities::{
    CHROMA_PROBABILITIES, KEY_CHROMA_PROBABILITIES, KEY_LUMA_PROBABILITIES, LUMA_PROBABILITIES,
    PART_PROBABILITIES, SPLIT_PROBABILITIES, SUB_PROBABILITIES, VECTOR_MODE_PROBABILITIES,
    VECTOR_PROBABILITIES, VECTOR_UPDATES,
};
pub use modes::{ChromaMode, LumaMode, PartMode, SplitKind, SubMode, Token, VectorMode};
pub use sub_probabilities::{KEY_SUB_PROBABILITIES, key_sub_probabilities};
pub use taps::{SIX_TAPS, six_taps};
pub use tokens::{
    BANDS, CATEGORY_BASES, ZIGZAG, band, extra_probabilities, least_magnitude, zigzag,
};
pub use trees::{
    CHROMA_TREE, KEY_LUMA_TREE, LUMA_TREE, PART_TREE, SEGMENT_TREE, SHORT_VECTOR_TREE, SPLIT_TREE,
    SUB_TREE, TOKEN_TREE, VECTOR_MODE_TREE,
};
