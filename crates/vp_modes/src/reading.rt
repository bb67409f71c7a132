//! Reading the modes of a macroblock.

ghost use Rattle.std.specs.Prelude.{◌≡◌, ◌<◌, replicate};
ghost use Rattle.vp_base.specs.Grid.{Has};
ghost use Rattle.vp_bool.specs.Reader.{when};
ghost use Rattle.vp_tables.specs.Modes.{is_by_subblocks};
ghost use Rattle.vp_modes.specs.Modes.{segment_of, skip_by, inter_reference, reference_of, luma_mode};
ghost use Rattle.vp_modes.specs.Pieces.{segment_id};
ghost use Rattle.vp_modes.specs.Modes.{chroma_mode, sub_probabilities, sub_modes, intra_modes};
ghost use Rattle.vp_modes.specs.Pieces.{sub_mode, prediction};
ghost use Rattle.vp_modes.specs.Modes.{modes_at};

use crate::contexts::{mode_above, mode_left};
use crate::entry::Modes;
use crate::grid::ModeGrid;
use crate::walks::{read_chroma_by, read_inter_luma, read_key_luma};
use vp_base::Place;
use vp_bool::BoolDecoder;
use vp_head::{Header, Reference, ReferenceProbabilities};
use vp_tables::{
    ChromaMode, KEY_CHROMA_PROBABILITIES, LumaMode, SEGMENT_TREE, SUB_PROBABILITIES, SUB_TREE,
    SubMode, key_sub_probabilities,
};
use vp_tree::read_tree;

/// Reads a segment id by the segment tree.
fn read_segment_id(probabilities: &[u8; 3], d: &mut BoolDecoder) -> u8
    ensures value { result ≡ (segment_id probabilities.now d.old).0 }
    ensures rest { d.new ≡ (segment_id probabilities.now d.old).1 }
    ensures small { result < 4 }
{
    read_tree(&SEGMENT_TREE, probabilities, d)
}

/// Reads the segment if the map is updated. Otherwise it is 0 in a key frame, and unchanged in an inter frame.
#[tactic(auto, unfolding(crate::specs::Modes::segment_of))]
fn read_segment(header: &Header, kept: u8, d: &mut BoolDecoder) -> u8
    requires { kept < 4 }
    ensures value { result ≡ (segment_of header.now kept d.old).0 }
    ensures rest { d.new ≡ (segment_of header.now kept d.old).1 }
    ensures small { result < 4 }
{
    if header.segmentation.update_map {
        read_segment_id(&header.segmentation.tree_probabilities, d)
    } else if header.key {
        0
    } else {
        kept
    }
}

fn read_skip(probability: Option<u8>, d: &mut BoolDecoder) -> bool
    ensures value { result ≡ (skip_by probability d.old).0 }
    ensures rest { d.new ≡ (skip_by probability d.old).1 }
{
    match probability {
        Some(p) => d.read(p),
        None => false,
    }
}

/// Reads the reference frame of an inter macroblock: last, golden or altref.
#[tactic(auto, unfolding(crate::specs::Modes::inter_reference, vp_bool::specs::Reader::bind))]
fn read_inter_reference(probabilities: &ReferenceProbabilities, d: &mut BoolDecoder) -> Reference
    ensures value { result ≡ (inter_reference probabilities.now d.old).0 }
    ensures rest { d.new ≡ (inter_reference probabilities.now d.old).1 }
{
    if !d.read(probabilities.last) {
        Reference::Last
    } else if d.read(probabilities.golden) {
        Reference::Alt
    } else {
        Reference::Golden
    }
}

/// Reads the reference frame. In a key frame it is `Intra`.
#[tactic(auto, unfolding(crate::specs::Modes::reference_of, vp_bool::specs::Reader::bind))]
fn read_reference(header: &Header, d: &mut BoolDecoder) -> Reference
    ensures value { result ≡ (reference_of header.now d.old).0 }
    ensures rest { d.new ≡ (reference_of header.now d.old).1 }
{
    if header.key {
        Reference::Intra
    } else if d.read(header.references.intra) {
        read_inter_reference(&header.references, d)
    } else {
        Reference::Intra
    }
}

/// Reads the luma mode of an intra macroblock.
#[tactic(auto, unfolding(crate::specs::Modes::luma_mode))]
fn read_luma(header: &Header, d: &mut BoolDecoder) -> LumaMode
    ensures value { result ≡ (luma_mode header.now d.old).0 }
    ensures rest { d.new ≡ (luma_mode header.now d.old).1 }
{
    if header.key {
        read_key_luma(d)
    } else {
        read_inter_luma(&header.probabilities.luma, d)
    }
}

/// Reads the chroma mode of an intra macroblock.
#[tactic(auto, unfolding(crate::specs::Modes::chroma_mode))]
fn read_chroma(header: &Header, d: &mut BoolDecoder) -> ChromaMode
    ensures value { result ≡ (chroma_mode header.now d.old).0 }
    ensures rest { d.new ≡ (chroma_mode header.now d.old).1 }
{
    let probabilities = if header.key {
        &KEY_CHROMA_PROBABILITIES
    } else {
        &header.probabilities.chroma
    };
    read_chroma_by(probabilities, d)
}

/// The mode probabilities of subblock `k` of the macroblock at `place`. `found` contains its subblock modes before
/// `k`.
#[tactic(auto, unfolding(crate::specs::Modes::sub_probabilities))]
pub(crate) fn probabilities_of<G: ModeGrid>(
    header: &Header,
    map: &G,
    place: Place,
    found: &[SubMode; 16],
    k: usize,
) -> &'static [u8; 9]
    requires place { Has (G.grid map.now) place }
    requires sub { k < 16 }
    ensures { result.now ≡ sub_probabilities header.now (G.grid map.now) place found.now k }
{
    if header.key {
        key_sub_probabilities(
            mode_above(map, place, found, k),
            mode_left(map, place, found, k),
        )
    } else {
        &SUB_PROBABILITIES
    }
}

fn read_sub(probabilities: &[u8; 9], d: &mut BoolDecoder) -> SubMode
    ensures value { result ≡ (sub_mode probabilities.now d.old).0 }
    ensures rest { d.new ≡ (sub_mode probabilities.now d.old).1 }
{
    read_tree(&SUB_TREE, probabilities, d)
}

/// Reads the subblock modes of the macroblock at `place`.
fn read_subs<G: ModeGrid>(
    header: &Header,
    map: &G,
    place: Place,
    d: &mut BoolDecoder,
) -> [SubMode; 16]
    requires { Has (G.grid map.now) place }
    ensures value { result ≡ (sub_modes header.now (G.grid map.now) place d.old).0 }
    ensures rest { d.new ≡ (sub_modes header.now (G.grid map.now) place d.old).1 }
{
    let mut found = [SubMode::Dc; 16];
    for k in 0..16 {
        let probabilities = probabilities_of(header, map, place, &found, k);
        found[k] = read_sub(probabilities, d);
    }
    found
}

/// Reads the subblock modes if the luma mode is `B`. Otherwise all are DC.
fn read_subs_of<G: ModeGrid>(
    luma: LumaMode,
    header: &Header,
    map: &G,
    place: Place,
    d: &mut BoolDecoder,
) -> [SubMode; 16]
    requires { Has (G.grid map.now) place }
    ensures value { result ≡ (when (is_by_subblocks luma) (sub_modes header.now (G.grid map.now) place)
        (replicate 16 SubMode.Dc) d.old).0 }
    ensures rest { d.new ≡ (when (is_by_subblocks luma) (sub_modes header.now (G.grid map.now) place)
        (replicate 16 SubMode.Dc) d.old).1 }
{
    if luma.is_by_subblocks() {
        read_subs(header, map, place, d)
    } else {
        [SubMode::Dc; 16]
    }
}

/// Reads the modes of an intra macroblock, and adds them to `modes`.
#[tactic(auto, unfolding(crate::specs::Modes::intra_modes, vp_bool::specs::Reader::bind))]
fn read_intra<G: ModeGrid>(
    header: &Header,
    map: &G,
    place: Place,
    modes: Modes,
    d: &mut BoolDecoder,
) -> Modes
    requires { Has (G.grid map.now) place }
    ensures value { result ≡ (intra_modes header.now (G.grid map.now) place modes d.old).0 }
    ensures rest { d.new ≡ (intra_modes header.now (G.grid map.now) place modes d.old).1 }
{
    let luma = read_luma(header, d);
    let subs = read_subs_of(luma, header, map, place, d);
    let chroma = read_chroma(header, d);
    Modes {
        luma,
        subs,
        chroma,
        ..modes
    }
}

/// Reads the modes of the macroblock at `place` if it is intra.
fn read_prediction<G: ModeGrid>(
    header: &Header,
    map: &G,
    place: Place,
    modes: Modes,
    d: &mut BoolDecoder,
) -> Modes
    requires { Has (G.grid map.now) place }
    ensures value { result ≡ (prediction header.now (G.grid map.now) place modes d.old).0 }
    ensures rest { d.new ≡ (prediction header.now (G.grid map.now) place modes d.old).1 }
{
    if modes.reference.is_intra() {
        read_intra(header, map, place, modes, d)
    } else {
        modes
    }
}

/// Reads what stands before the modes of the macroblock at `place`: segment, skip flag and reference frame. The modes
/// of the result are DC.
#[inline(always)]
#[tactic(auto, unfolding(crate::specs::Modes::modes_at, vp_bool::specs::Reader::bind))]
fn read_before_modes<G: ModeGrid>(
    header: &Header,
    map: &G,
    place: Place,
    d: &mut BoolDecoder,
) -> Modes
    requires { Has (G.grid map.now) place }
    ensures { prediction header.now (G.grid map.now) place result d.new
        ≡ modes_at header.now (G.grid map.now) place d.old }
{
    let kept = map.segment(place);
    let segment = read_segment(header, kept, d);
    let skip = read_skip(header.skip, d);
    let reference = read_reference(header, d);
    Modes {
        segment,
        skip,
        reference,
        luma: LumaMode::Dc,
        subs: [SubMode::Dc; 16],
        chroma: ChromaMode::Dc,
    }
}

/// Reads the header of the macroblock at `place`, without motion vectors (chapter 19.3). The map contains the modes of
/// this frame's earlier macroblocks, and at `place` the segment of the previous frame, which may be kept.
pub fn read_modes<G: ModeGrid>(header: &Header, map: &G, place: Place, d: &mut BoolDecoder) -> Modes
    requires { Has (G.grid map.now) place }
    ensures value { result ≡ (modes_at header.now (G.grid map.now) place d.old).0 }
    ensures rest { d.new ≡ (modes_at header.now (G.grid map.now) place d.old).1 }
{
    let modes = read_before_modes(header, map, place, d);
    read_prediction(header, map, place, modes, d)
}
