//! Chooses a macroblock's reference frame, motion vector and vector mode.

ghost use Rattle.std.specs.Prelude.{◌≡◌, ◌*◌, ◌<◌, ◌≤◌, replicate, IfSome, IsSome, MatchOption};
ghost use Rattle.vp_base.specs.Grid.{Has};
ghost use Rattle.vp_base.specs.Raster.{Raster};
ghost use Rattle.vp_motion.specs.Vector.{IsWithin, last_of};
ghost use Rattle.vp_motion.specs.Map.{AreWithin};
ghost use Rattle.vp_motion.specs.Near.{candidates};
ghost use Rattle.vp_motion.specs.Spelled.{CanBeWritten};
ghost use Rattle.vp_refs.specs.References.{reference_picture};
ghost use Rattle.vp_intra.specs.Edges.{block as listed};
ghost use Rattle.vp_choose.specs.Costs.{block_pixels};
ghost use Rattle.vp_choose.specs.Frame.{lent_frame, search_of, no_biases};
ghost use Rattle.vp_choose.specs.Inter.{IsFirstGiving, IsInSearchRange, vector_of};
ghost use Rattle.vp_choose.specs.Searched.{IsBestMotion, IsFoundIn, IsOver, IsSearched};
ghost use Rattle.vp_choose.specs.Searchers.{AreSearchers, AreSearchersOf, searcher_of};

use crate::frame::{FrameSearch, Search};
use crate::searchers::Searchers;
use vp_base::Place;
use vp_head::{Reference, SignBiases};
use vp_motion::{Candidates, Motion, Vector, VectorMap, near};
use vp_search::{QuarterVector, Refined, Searcher, quarters};
use vp_tables::VectorMode;

/// A reference frame, the best vector found in it, and its cost.
#[derive(Clone, Copy)]
pub(crate) struct Moved {
    pub(crate) reference: Reference,
    pub(crate) vector: QuarterVector,
    pub(crate) cost: u32,
}

/// Finds the best motion in one reference frame; None only if it costs `limit` or more.
#[tactic(auto, using(crate::proofs::Found::found_is, crate::proofs::Found::over_is))]
fn find(
    searcher: &mut Searcher,
    search: &Search,
    block: &[u8; 256],
    reference: Reference,
    place: Place,
    limit: u32,
) -> Option<Moved>
    requires columns { 16 * place.column ≤ 16384 }
    requires rows { 16 * place.row ≤ 16384 }
    requires range { search.now.range ≤ 64 }
    requires searcher { searcher.old ≡ searcher_of (search_of search.now) reference }
    ensures kept { searcher.new ≡ searcher.old }
    ensures found { (source : Raster) → block.now ≡ listed 16 (block_pixels 16 source place) → MatchOption result
        (IsOver (search_of search.now) source (reference_picture search.now.references.now reference).luma place limit)
        (IsFoundIn (search_of search.now) source reference place) }
    ensures all { 65280 < limit → IsSome result }
{
    if !search.subpel {
        let whole = searcher.search(block, place, limit)?;
        return Some(Moved {
            reference,
            vector: quarters(whole.vector),
            cost: whole.cost,
        });
    }
    // A refinement may make a vector cheaper than the limit, so the search in whole pixels has none.
    let whole = searcher.search(block, place, u32::MAX).unwrap();
    let Refined { vector, cost } = searcher.refined(block, place, whole);
    Some(Moved {
        reference,
        vector,
        cost,
    })
}

/// Returns the motion of the least cost.
#[tactic(auto, using(crate::proofs::Found::free_motion))]
pub(crate) fn choose_reference(
    searchers: &mut Searchers,
    search: &Search,
    block: &[u8; 256],
    place: Place,
) -> Moved
    requires columns { 16 * place.column ≤ 16384 }
    requires rows { 16 * place.row ≤ 16384 }
    requires range { search.now.range ≤ 64 }
    requires searchers { AreSearchers (search_of search.now) searchers.old }
    ensures kept { searchers.new ≡ searchers.old }
    ensures best { (source : Raster) → block.now ≡ listed 16 (block_pixels 16 source place)
        → IsBestMotion (search_of search.now) source place result }
{
    let last = find(
        &mut searchers.last,
        search,
        block,
        Reference::Last,
        place,
        u32::MAX,
    )
    .unwrap();
    // Golden is chosen only if it costs less.
    if last.cost == 0 {
        return last;
    }
    let Some(searcher) = &mut searchers.golden else {
        return last;
    };
    match find(searcher, search, block, Reference::Golden, place, last.cost) {
        Some(golden) if golden.cost < last.cost => golden,
        _ => last,
    }
}

/// Finds the motion of a macroblock with luma `block`; None in a key frame, which has no searchers.
pub(crate) fn find_motion(
    searchers: &mut Option<Searchers>,
    frame: &FrameSearch,
    block: &[u8; 256],
    place: Place,
) -> Option<Moved>
    requires columns { 16 * place.column ≤ 16384 }
    requires rows { 16 * place.row ≤ 16384 }
    requires range { IfSome (lent_frame frame.now).search (λ s. s.range ≤ 64) }
    requires searchers { AreSearchersOf (lent_frame frame.now).search searchers.old }
    ensures kept { searchers.new ≡ searchers.old }
    ensures motion { (source : Raster) → block.now ≡ listed 16 (block_pixels 16 source place)
        → IsSearched (lent_frame frame.now).search source place result }
{
    let search = frame.search?;
    let searchers = searchers.as_mut()?;
    Some(choose_reference(searchers, &search, block, place))
}

/// Returns the first mode that gives a vector: zero, nearest, near, or new.
pub(crate) fn mode_of(candidates: &Candidates, vector: Vector) -> VectorMode
    ensures { IsFirstGiving candidates.now vector result }
{
    if candidates.can_give(VectorMode::Zero, vector) {
        return VectorMode::Zero;
    }
    if candidates.can_give(VectorMode::Nearest, vector) {
        return VectorMode::Nearest;
    }
    if candidates.can_give(VectorMode::Near, vector) {
        return VectorMode::Near;
    }
    VectorMode::New
}

/// Returns the vector mode and the vectors that code the chosen motion.
pub(crate) fn coded_motion(vectors: &VectorMap, place: Place, moved: &Moved) -> Motion
    requires place { Has vectors.now place }
    requires map { AreWithin 511 vectors.now }
    requires short { IsInSearchRange moved.now.vector }
    ensures vectors { result.vectors ≡ replicate 16 (vector_of moved.now) }
    ensures mode { IsFirstGiving (candidates vectors.now place moved.now.reference no_biases)
        (vector_of moved.now) result.mode }
    ensures written { CanBeWritten (candidates vectors.now place moved.now.reference no_biases) result }
    ensures short { IsWithin 259 (last_of result.vectors) }
{
    let vector = Vector {
        row: moved.vector.row,
        column: moved.vector.column,
    };
    let biases = SignBiases {
        golden: false,
        alt: false,
    };
    let candidates = near(vectors, place, moved.reference, biases);
    Motion {
        mode: mode_of(&candidates, vector),
        vectors: [vector; 16],
    }
}
