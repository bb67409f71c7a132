//! Laws of the constant tables.

ghost use Rattle.std.specs.Prelude.{◌≡◌, ℕ, ◌<◌, IsTrue, pos, slice_index_or, []};
ghost use Rattle.vp_tree.specs.Tree.{is_tree};
ghost use Rattle.vp_tables.specs.Tables.{occurrences, sum_of_weights};

use crate::taps::SIX_TAPS;
use crate::tokens::ZIGZAG;
use crate::trees::{
    CHROMA_TREE, KEY_LUMA_TREE, LUMA_TREE, PART_TREE, SEGMENT_TREE, SHORT_VECTOR_TREE, SPLIT_TREE,
    SUB_TREE, TOKEN_TREE, VECTOR_MODE_TREE,
};

/// Every tree table is a valid tree.
pub fn trees_are_formed()
    ensures segment { IsTrue (is_tree SEGMENT_TREE) }
    ensures key_luma { IsTrue (is_tree KEY_LUMA_TREE) }
    ensures luma { IsTrue (is_tree LUMA_TREE) }
    ensures chroma { IsTrue (is_tree CHROMA_TREE) }
    ensures sub { IsTrue (is_tree SUB_TREE) }
    ensures vector_mode { IsTrue (is_tree VECTOR_MODE_TREE) }
    ensures split { IsTrue (is_tree SPLIT_TREE) }
    ensures part { IsTrue (is_tree PART_TREE) }
    ensures short_vector { IsTrue (is_tree SHORT_VECTOR_TREE) }
    ensures token { IsTrue (is_tree TOKEN_TREE) }
{}

/// Each place of a block occurs exactly once in the zigzag order.
pub fn zigzag_meets_each_place_once()
    ensures { (place : ℕ) → place < 16 → occurrences place ZIGZAG ≡ 1 }
{}

/// The six filter weights at each eighth of a pixel sum to 128.
pub fn taps_sum_to_128()
    ensures { (eighths : ℕ) → eighths < 8 → sum_of_weights (slice_index_or SIX_TAPS eighths []) ≡ pos 128 }
{}
