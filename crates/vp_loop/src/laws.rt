//! Laws of line steps and of rows of macroblocks, for any pixels.
ghost use Rattle.vp_loop.specs.Laws.{DisjointStepsCommute, EdgesAtOnce, PlanesCommute, EdgeByEdge, RowKeepsBelow};
ghost use Rattle.vp_loop.specs.Laws.{RowReadsAbove, RowKeepsAbove, RowKeepsSize, RowKeepsAligned, RowKeepsWhole};

/// Line steps that share no pixel commute.
#[tactic(auto, using(crate::proofs::LawLemmas::commutes))]
pub fn disjoint_steps_commute()
    ensures { DisjointStepsCommute }
{}

/// The lines of an edge may be filtered at once, each from the plane before any of them.
pub fn edge_at_once()
    ensures { EdgesAtOnce }
{}

/// Steps on two planes commute, so a macroblock may be filtered plane by plane or edge by edge.
#[tactic(auto, using(crate::proofs::PlaneLaws::edge_by_edge))]
pub fn planes_commute()
    ensures commute { PlanesCommute }
    ensures edges { EdgeByEdge }
{}

/// Filtering a row of macroblocks neither reads nor changes the pixels below it.
pub fn rows_below_are_kept()
    ensures keeps { RowKeepsBelow }
    ensures reads { RowReadsAbove }
{}

/// Filtering a row of macroblocks changes at most three rows of pixels above it: rows further up are final.
pub fn rows_above_are_final()
    ensures { RowKeepsAbove }
{}

/// Filtering a row of macroblocks changes no size.
#[tactic(auto, using(crate::proofs::WindowLemmas::row_size, crate::proofs::WindowLemmas::row_aligned))]
pub fn sizes_are_kept()
    ensures sizes { RowKeepsSize }
    ensures aligned { RowKeepsAligned }
    ensures whole { RowKeepsWhole }
{}
