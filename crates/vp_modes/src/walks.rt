//! Reading the leaves of the mode trees (RFC 6386, chapter 8.1). The walks are unrolled, each pair of a tree an `if`: a
//! loop over the table of a tree takes some 20 instructions more for each bool. They are inlined: a decoder that is
//! lent to a function stays in registers in none of a row's macroblocks, which costs 40 instructions for each.

ghost use Rattle.std.specs.Prelude.{◌≡◌};
ghost use Rattle.vp_tree.specs.Tree.{walk_from};

use vp_bool::BoolDecoder;
use vp_tables::{
    CHROMA_TREE, ChromaMode, KEY_LUMA_PROBABILITIES, KEY_LUMA_TREE, LUMA_TREE, LumaMode,
};

/// Reads the luma mode of a macroblock of a key frame (chapter 11.2).
#[tactic(auto, unfolding(vp_tree::specs::Tree::walk_from, vp_tree::specs::Tree::walk, vp_bool::specs::Reader::bind))]
#[inline(always)]
pub(crate) fn read_key_luma(d: &mut BoolDecoder) -> LumaMode
    ensures value { result ≡ (walk_from LumaMode.Dc KEY_LUMA_TREE KEY_LUMA_PROBABILITIES 0 d.old).0 }
    ensures rest { d.new ≡ (walk_from LumaMode.Dc KEY_LUMA_TREE KEY_LUMA_PROBABILITIES 0 d.old).1 }
{
    if !d.read(KEY_LUMA_PROBABILITIES[0]) {
        LumaMode::B
    } else if !d.read(KEY_LUMA_PROBABILITIES[1]) {
        if d.read(KEY_LUMA_PROBABILITIES[2]) {
            LumaMode::V
        } else {
            LumaMode::Dc
        }
    } else if d.read(KEY_LUMA_PROBABILITIES[3]) {
        LumaMode::Tm
    } else {
        LumaMode::H
    }
}

/// Reads the luma mode of an intra macroblock of an inter frame (chapter 16.1).
#[tactic(auto, unfolding(vp_tree::specs::Tree::walk_from, vp_tree::specs::Tree::walk, vp_bool::specs::Reader::bind))]
#[inline(always)]
pub(crate) fn read_inter_luma(probabilities: &[u8; 4], d: &mut BoolDecoder) -> LumaMode
    ensures value { result ≡ (walk_from LumaMode.Dc LUMA_TREE probabilities.now 0 d.old).0 }
    ensures rest { d.new ≡ (walk_from LumaMode.Dc LUMA_TREE probabilities.now 0 d.old).1 }
{
    if !d.read(probabilities[0]) {
        LumaMode::Dc
    } else if !d.read(probabilities[1]) {
        if d.read(probabilities[2]) {
            LumaMode::H
        } else {
            LumaMode::V
        }
    } else if d.read(probabilities[3]) {
        LumaMode::B
    } else {
        LumaMode::Tm
    }
}

/// Reads a chroma mode (chapter 11.4).
#[tactic(auto, unfolding(vp_tree::specs::Tree::walk_from, vp_tree::specs::Tree::walk, vp_bool::specs::Reader::bind))]
#[inline(always)]
pub(crate) fn read_chroma_by(probabilities: &[u8; 3], d: &mut BoolDecoder) -> ChromaMode
    ensures value { result ≡ (walk_from ChromaMode.Dc CHROMA_TREE probabilities.now 0 d.old).0 }
    ensures rest { d.new ≡ (walk_from ChromaMode.Dc CHROMA_TREE probabilities.now 0 d.old).1 }
{
    if !d.read(probabilities[0]) {
        ChromaMode::Dc
    } else if !d.read(probabilities[1]) {
        ChromaMode::V
    } else if d.read(probabilities[2]) {
        ChromaMode::Tm
    } else {
        ChromaMode::H
    }
}
