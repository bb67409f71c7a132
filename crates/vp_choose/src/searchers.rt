//! The motion searchers of the reference frames of one frame.

ghost use Rattle.std.specs.Prelude.{◌≡◌, ◌≤◌, IfSome};
ghost use Rattle.vp_choose.specs.Frame.{lent_frame, search_of};
ghost use Rattle.vp_choose.specs.Searchers.{AreSearchers, AreSearchersOf, searcher_of};

use crate::frame::{FrameSearch, Search};
use std::alloc::Global;
use vp_head::Reference;
use vp_search::Searcher;

/// The motion searchers of the reference frames that are searched.
#[derive(Drop)]
pub(crate) struct Searchers<'a> {
    pub(crate) last: Searcher<'a>,
    /// None if golden is not searched, or is the last frame's picture.
    pub(crate) golden: Option<Searcher<'a>>,
}

/// Makes the motion searcher of one reference frame; without sums if there is no allocator, as in tests only.
fn searcher_of<'a>(alloc: Option<Global>, search: &Search<'a>, reference: Reference) -> Searcher<'a>
    requires { search.now.range ≤ 64 }
    ensures { result ≡ searcher_of (search_of search.now) reference }
{
    let picture = search.references.get(reference);
    let _known = picture.dim();
    match alloc {
        Some(alloc) => Searcher::new(alloc, picture.plane(0), search.range),
        None => Searcher::without_sums(picture.plane(0), search.range),
    }
}

/// Makes the motion searchers of an inter frame. Golden gets none if it is the last frame's picture: its vectors would
/// cost the same, and last wins ties.
pub(crate) fn inter_searchers<'a>(alloc: Option<Global>, search: &Search<'a>) -> Searchers<'a>
    requires { search.now.range ≤ 64 }
    ensures { AreSearchers (search_of search.now) result }
{
    let last = searcher_of(alloc, search, Reference::Last);
    if search.golden && !search.references.golden_is_last() {
        let golden = Some(searcher_of(alloc, search, Reference::Golden));
        return Searchers { last, golden };
    }
    Searchers { last, golden: None }
}

/// Makes the motion searchers of a frame; none in a key frame.
pub(crate) fn searchers_of<'a>(
    alloc: Option<Global>,
    frame: &FrameSearch<'a>,
) -> Option<Searchers<'a>>
    requires { IfSome (lent_frame frame.now).search (λ s. s.range ≤ 64) }
    ensures { AreSearchersOf (lent_frame frame.now).search result }
{
    let search = frame.search?;
    Some(inter_searchers(alloc, &search))
}
