//! Laws of all trees.
ghost use Rattle.std.specs.Prelude.{IsTrue};
ghost use Rattle.vp_tree.specs.Tree.{is_tree, OnePath, OneLeaf, TakesPaths};

use crate::entry::TreeEntry;

/// At most one path leads to a leaf.
pub fn one_path<T>(tree: &[TreeEntry<T>])
    requires { IsTrue (is_tree tree.now) }
    ensures { OnePath tree.now }
{
    let _ = tree;
}

/// The bools of a partition lead to one leaf, by one path.
pub fn one_leaf<T>(tree: &[TreeEntry<T>])
    ensures { OneLeaf tree.now }
{
    let _ = tree;
}

/// A walk along the bools of a path gives its leaf.
pub fn takes_paths<T>(tree: &[TreeEntry<T>])
    requires { IsTrue (is_tree tree.now) }
    ensures { TakesPaths tree.now }
{
    let _ = tree;
}
