//! The entries of a tree table.

/// One of the two entries of a pair: a leaf, or the index of another pair.
///
/// A tree is a table of entries, two for each pair; the root is the pair at indices 0 and 1 (RFC 6386, chapter 8.1).
/// The probability of the pair at indices `i` and `i + 1` has index `i / 2`.
#[derive(Clone, Copy)]
pub enum TreeEntry<T> {
    /// The value that the bools so far encode.
    Leaf(T),
    /// The index of the first entry of a later pair. It is even.
    Pair(u8),
}
