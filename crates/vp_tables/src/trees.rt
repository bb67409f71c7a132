//! The trees of all syntax elements that are coded by trees.

use crate::modes::{ChromaMode, LumaMode, PartMode, SplitKind, SubMode, Token, VectorMode};
use vp_tree::TreeEntry::{self, Leaf, Pair};

/// Tree of segment ids, 0 to 3 (RFC 6386, chapter 10).
pub const SEGMENT_TREE: [TreeEntry<u8>; 6] = [Pair(2), Pair(4), Leaf(0), Leaf(1), Leaf(2), Leaf(3)];

/// Tree of luma modes in key frames (chapter 11.2).
pub const KEY_LUMA_TREE: [TreeEntry<LumaMode>; 8] = [
    Leaf(LumaMode::B),
    Pair(2),
    Pair(4),
    Pair(6),
    Leaf(LumaMode::Dc),
    Leaf(LumaMode::V),
    Leaf(LumaMode::H),
    Leaf(LumaMode::Tm),
];

/// Tree of luma modes of intra macroblocks in inter frames (chapter 16.1).
pub const LUMA_TREE: [TreeEntry<LumaMode>; 8] = [
    Leaf(LumaMode::Dc),
    Pair(2),
    Pair(4),
    Pair(6),
    Leaf(LumaMode::V),
    Leaf(LumaMode::H),
    Leaf(LumaMode::Tm),
    Leaf(LumaMode::B),
];

/// Tree of chroma modes (chapter 11.4).
pub const CHROMA_TREE: [TreeEntry<ChromaMode>; 6] = [
    Leaf(ChromaMode::Dc),
    Pair(2),
    Leaf(ChromaMode::V),
    Pair(4),
    Leaf(ChromaMode::H),
    Leaf(ChromaMode::Tm),
];

/// Tree of subblock modes (chapter 11.2).
pub const SUB_TREE: [TreeEntry<SubMode>; 18] = [
    Leaf(SubMode::Dc),
    Pair(2),
    Leaf(SubMode::Tm),
    Pair(4),
    Leaf(SubMode::Ve),
    Pair(6),
    Pair(8),
    Pair(12),
    Leaf(SubMode::He),
    Pair(10),
    Leaf(SubMode::Rd),
    Leaf(SubMode::Vr),
    Leaf(SubMode::Ld),
    Pair(14),
    Leaf(SubMode::Vl),
    Pair(16),
    Leaf(SubMode::Hd),
    Leaf(SubMode::Hu),
];

/// Tree of vector modes of inter macroblocks (chapter 16.3).
pub const VECTOR_MODE_TREE: [TreeEntry<VectorMode>; 8] = [
    Leaf(VectorMode::Zero),
    Pair(2),
    Leaf(VectorMode::Nearest),
    Pair(4),
    Leaf(VectorMode::Near),
    Pair(6),
    Leaf(VectorMode::New),
    Leaf(VectorMode::Split),
];

/// Tree of split kinds (chapter 16.4).
pub const SPLIT_TREE: [TreeEntry<SplitKind>; 6] = [
    Leaf(SplitKind::Sixteenths),
    Pair(2),
    Leaf(SplitKind::Quarters),
    Pair(4),
    Leaf(SplitKind::TopBottom),
    Leaf(SplitKind::LeftRight),
];

/// Tree of vector modes of parts (chapter 16.4).
pub const PART_TREE: [TreeEntry<PartMode>; 6] = [
    Leaf(PartMode::Left),
    Pair(2),
    Leaf(PartMode::Above),
    Pair(4),
    Leaf(PartMode::Zero),
    Leaf(PartMode::New),
];

/// Tree of short magnitudes of a motion vector component, 0 to 7 (chapter 17.1).
pub const SHORT_VECTOR_TREE: [TreeEntry<u8>; 14] = [
    Pair(2),
    Pair(8),
    Pair(4),
    Pair(6),
    Leaf(0),
    Leaf(1),
    Leaf(2),
    Leaf(3),
    Pair(10),
    Pair(12),
    Leaf(4),
    Leaf(5),
    Leaf(6),
    Leaf(7),
];

/// Tree of tokens (chapter 13.2). A zero token is never followed by an end of block, so then the walk starts at entry
/// 2.
pub const TOKEN_TREE: [TreeEntry<Token>; 22] = [
    Leaf(Token::EndOfBlock),
    Pair(2),
    Leaf(Token::Zero),
    Pair(4),
    Leaf(Token::One),
    Pair(6),
    Pair(8),
    Pair(12),
    Leaf(Token::Two),
    Pair(10),
    Leaf(Token::Three),
    Leaf(Token::Four),
    Pair(14),
    Pair(16),
    Leaf(Token::Category1),
    Leaf(Token::Category2),
    Pair(18),
    Pair(20),
    Leaf(Token::Category3),
    Leaf(Token::Category4),
    Leaf(Token::Category5),
    Leaf(Token::Category6),
];
