//! Reading a leaf of a tree.

ghost use Rattle.std.specs.Prelude.{◌≡◌, ◌≤◌, ◌<◌, ◌*◌, ◌+◌, Bool, length, IsTrue};
ghost use Rattle.vp_tree.specs.Tree.{is_tree, walk_from, LeadsToLeaf, leaves_pass};

use crate::entry::TreeEntry;
use vp_bool::BoolDecoder;

/// Reads bools from a pair of the tree down to a leaf (RFC 6386, chapter 8.1).
///
/// `from` is the index of that pair's first entry.
#[inline(always)]
pub fn read_tree_from<T: Copy>(
    tree: &[TreeEntry<T>],
    probabilities: &[u8],
    from: usize,
    decoder: &mut BoolDecoder,
) -> T
    requires formed { IsTrue (is_tree tree.now) }
    requires from_in { from + 1 < length tree.now }
    requires probs_in { length tree.now ≤ 2 * length probabilities.now }
    // `default` is never used.
    ensures value { (default : T) → result ≡ (walk_from default tree.now probabilities.now from decoder.old).0 }
    ensures rest { (default : T) → decoder.new ≡ (walk_from default tree.now probabilities.now from decoder.old).1 }
    // The bools read are those of a path to that leaf.
    ensures path { LeadsToLeaf tree.now probabilities.now from decoder.old result decoder.new }
    // A test that all leaves pass is passed by this one.
    ensures leaf { (passes : T → Bool) → IsTrue (leaves_pass passes tree.now) → IsTrue (passes result) }
{
    let mut place = from;
    'walk: loop {
        let bit = decoder.read(probabilities[place / 2]);
        match tree[place + bit as usize] {
            TreeEntry::Leaf(leaf) => return leaf,
            TreeEntry::Pair(pair) => place = pair as usize,
        }
    }
}

/// Reads bools from the root of the tree down to a leaf (RFC 6386, chapter 8.1).
#[inline(always)]
pub fn read_tree<T: Copy>(
    tree: &[TreeEntry<T>],
    probabilities: &[u8],
    decoder: &mut BoolDecoder,
) -> T
    requires formed { IsTrue (is_tree tree.now) }
    requires probs_in { length tree.now ≤ 2 * length probabilities.now }
    // `default` is never used.
    ensures value { (default : T) → result ≡ (walk_from default tree.now probabilities.now 0 decoder.old).0 }
    ensures rest { (default : T) → decoder.new ≡ (walk_from default tree.now probabilities.now 0 decoder.old).1 }
    // The bools read are those of a path to that leaf.
    ensures path { LeadsToLeaf tree.now probabilities.now 0 decoder.old result decoder.new }
    // A test that all leaves pass is passed by this one.
    ensures leaf { (passes : T → Bool) → IsTrue (leaves_pass passes tree.now) → IsTrue (passes result) }
{
    read_tree_from(tree, probabilities, 0, decoder)
}
