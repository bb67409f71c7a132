//! Writing a leaf of a tree.

ghost use Rattle.std.specs.Prelude.{◌≡◌, ◌≤◌, ◌<◌, ◌*◌, ◌/◌, ◌+◌, ◌%◌, ℕ, true, length, slice_get, Some, IsTrue, OnOk};
ghost use Rattle.vp_bool.specs.Writing.{write_all, Writes};
ghost use Rattle.vp_tree.specs.declared.steps.Step.{Step};
ghost use Rattle.vp_tree.specs.Tree.{is_tree, spelled, walk_from};
ghost use Rattle.vp_tree.specs.Search.{has_leaf};

use crate::entry::TreeEntry;
use crate::steps::{Step, path_from};
use std::alloc::AllocError;
use vp_bool::BoolEncoder;

/// Writes the bools of the path from a pair of the tree to a leaf (RFC 6386, chapter 8.1).
///
/// `from` is the index of that pair's first entry. If out of memory, a part of the path may have been written.
pub fn write_tree_from<T: Copy + PartialEq>(
    tree: &[TreeEntry<T>],
    probabilities: &[u8],
    from: usize,
    leaf: T,
    encoder: &mut BoolEncoder,
) -> Result<(), AllocError>
    requires formed { IsTrue (is_tree tree.now) }
    requires small { length tree.now ≤ 32 }
    requires from_in { from + 1 < length tree.now }
    requires from_even { from % 2 ≡ 0 }
    requires probs_in { length tree.now ≤ 2 * length probabilities.now }
    requires leaf_in { IsTrue (has_leaf (T.eq leaf) tree.now from) }
    // Nothing else equals the leaf.
    requires exact { (other : T) → T.eq leaf other ≡ true → leaf ≡ other }
    // What was written is read as the leaf, whatever follows. `default` is never used.
    ensures { OnOk result ((default : T) → Writes
        (walk_from default tree.now probabilities.now from) encoder.old encoder.new leaf) }
{
    let path = path_from(tree, from, leaf);
    write_path(path.as_slice(), probabilities, encoder)?;
    Ok(())
}

/// Writes the bools of the path from the root of the tree to a leaf (RFC 6386, chapter 8.1).
///
/// If out of memory, a part of the path may have been written.
pub fn write_tree<T: Copy + PartialEq>(
    tree: &[TreeEntry<T>],
    probabilities: &[u8],
    leaf: T,
    encoder: &mut BoolEncoder,
) -> Result<(), AllocError>
    requires formed { IsTrue (is_tree tree.now) }
    requires small { length tree.now ≤ 32 }
    requires probs_in { length tree.now ≤ 2 * length probabilities.now }
    requires leaf_in { IsTrue (has_leaf (T.eq leaf) tree.now 0) }
    // Nothing else equals the leaf.
    requires exact { (other : T) → T.eq leaf other ≡ true → leaf ≡ other }
    // What was written is read as the leaf, whatever follows. `default` is never used.
    ensures { OnOk result ((default : T) → Writes
        (walk_from default tree.now probabilities.now 0) encoder.old encoder.new leaf) }
{
    write_tree_from(tree, probabilities, 0, leaf, encoder)
}

/// Writes the bools of a path, each with the probability of its pair.
fn write_path(
    path: &[Step],
    probabilities: &[u8],
    encoder: &mut BoolEncoder,
) -> Result<(), AllocError>
    requires { (k : ℕ) (step : Step) → slice_get path.now k ≡ Some step → step.pair / 2 < length probabilities.now }
    ensures { OnOk result (encoder.new ≡ write_all (spelled probabilities.now path.now) encoder.old) }
{
    for i in 0..path.len() {
        let step = path[i];
        encoder.write(step.bit, probabilities[step.pair as usize / 2])?;
    }
    Ok(())
}
