//! The path to a leaf of a tree.

ghost use Rattle.std.specs.Prelude.{◌≡◌, ◌≤◌, ◌<◌, ◌*◌, ◌+◌, ◌%◌, true, length, slice_get, IsTrue};
ghost use Rattle.vp_tree.specs.Tree.{is_tree, IsPathTo};
ghost use Rattle.vp_tree.specs.Search.{leads, has_leaf};

use crate::entry::TreeEntry;
use arrayvec::ArrayVec;

/// One step of a path: from a pair to one of its two entries.
#[derive(Clone, Copy, Debug, Default, PartialEq, Eq)]
pub struct Step {
    /// The index of the pair's first entry.
    pub pair: u8,
    /// Whether the step goes to the second entry.
    pub bit: bool,
}

/// The path from a pair of the tree to a leaf (RFC 6386, chapter 8.1).
///
/// `from` is the index of that pair's first entry. No tree of VP8 has more than 22 entries.
pub fn path_from<T: Copy + PartialEq>(
    tree: &[TreeEntry<T>],
    from: usize,
    leaf: T,
) -> ArrayVec<Step, 16>
    requires formed { IsTrue (is_tree tree.now) }
    requires small { length tree.now ≤ 32 }
    requires from_in { from + 1 < length tree.now }
    requires from_even { from % 2 ≡ 0 }
    requires leaf_in { IsTrue (has_leaf (T.eq leaf) tree.now from) }
    // Nothing else equals the leaf.
    requires exact { (other : T) → T.eq leaf other ≡ true → leaf ≡ other }
    ensures { IsPathTo tree.now from result.items leaf }
{
    let mut path = ArrayVec::new();
    let mut place = from;
    'walk: loop {
        let bit = !leads_to(tree, place, leaf);
        path.push(Step {
            pair: place as u8,
            bit,
        });
        match tree[place + bit as usize] {
            TreeEntry::Leaf(_) => return path,
            TreeEntry::Pair(pair) => place = pair as usize,
        }
    }
}

/// The path from the root of the tree to a leaf (RFC 6386, chapter 8.1).
pub fn path<T: Copy + PartialEq>(tree: &[TreeEntry<T>], leaf: T) -> ArrayVec<Step, 16>
    requires formed { IsTrue (is_tree tree.now) }
    requires small { length tree.now ≤ 32 }
    requires leaf_in { IsTrue (has_leaf (T.eq leaf) tree.now 0) }
    // Nothing else equals the leaf.
    requires exact { (other : T) → T.eq leaf other ≡ true → leaf ≡ other }
    ensures { IsPathTo tree.now 0 result.items leaf }
{
    path_from(tree, 0, leaf)
}

/// Whether the entry at an index is the leaf, or a pair above the leaf.
fn leads_to<T: Copy + PartialEq>(tree: &[TreeEntry<T>], place: usize, leaf: T) -> bool
    requires formed { IsTrue (is_tree tree.now) }
    requires place_in { place < length tree.now }
    ensures { result ≡ leads (T.eq leaf) (has_leaf (T.eq leaf) tree.now) (slice_get tree.now place) }
{
    match tree[place] {
        TreeEntry::Leaf(other) => leaf == other,
        TreeEntry::Pair(pair) => {
            leads_to(tree, pair as usize, leaf) || leads_to(tree, pair as usize + 1, leaf)
        }
    }
}
