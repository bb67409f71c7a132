//! Rebuilds macroblocks: prediction plus residue (RFC 6386, chapters 12, 14 and 18).
#![tactic(auto)]

mod add;
mod dc_coefficients;
mod given;
mod laws;
mod macroblock;
mod predict;
mod predictor;
mod residue;
mod residue_inputs;
mod segment_factors;

pub use given::{MacroblockPixels, rebuild_from, rebuild_subblock_from};
pub use laws::{
    luma_is_rebuilt_by_subblocks, rebuilding_keeps_rows_above, rebuilding_keeps_shape,
    rebuilding_reads_one_row_above, unfiltered_equation_has_one_solution,
    unfiltered_picture_solves_its_equation,
};
pub use macroblock::{rebuild_macroblock, rebuild_macroblock_by, rebuild_subblock};
pub use predict::predict_macroblock;
pub use predictor::{Predictor, has_y2};
pub use segment_factors::SegmentFactors;
