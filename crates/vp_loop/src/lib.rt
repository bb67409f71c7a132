//! The loop filters (RFC 6386, chapter 15): filter levels of macroblocks, line steps, and filtered pictures.
#![tactic(auto)]

mod edges;
mod frame;
mod lanes;
mod laws;
mod level_table;
mod limits;
mod lines;
mod load;
mod store;
mod strength;
mod transpose;

pub use frame::{Lanes, RowFilter, filter_picture, filter_row};
pub use laws::{
    disjoint_steps_commute, edge_at_once, planes_commute, rows_above_are_final,
    rows_below_are_kept, sizes_are_kept,
};
pub use level_table::LevelTable;
pub use lines::{EdgeKind, Line, LineStep};
pub use strength::{Level, MacroblockKind, ModeClass, levels};
