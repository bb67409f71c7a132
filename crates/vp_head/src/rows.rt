//! Reading the parts of the frame header.

ghost use Rattle.std.specs.Prelude.{◌≡◌, ◌<◌, ◌≤◌, ◌^◌, ℕ, ℤ};
ghost use Rattle.vp_bool.specs.Bools.{literal};
ghost use Rattle.vp_bool.specs.Reader.{when};
ghost use Rattle.vp_head.specs.Rows.{flag, magnitude, optional_signed, renewed, four_signed};
ghost use Rattle.vp_head.specs.Header.{segment_values, tree_probabilities, segmentation, filter, level_deltas};
ghost use Rattle.vp_head.specs.Header.{quantiser_indices, copy_of, copy, refreshes, skip, reference_probabilities};
ghost use Rattle.vp_head.specs.Header.{no_references};

use crate::fields::{
    Filter, LevelDeltas, QuantiserIndices, ReferenceCopy, ReferenceProbabilities, ReferenceUpdates,
    SegmentValues, Segmentation, SignBiases,
};
use vp_bool::BoolDecoder;

/// How a frame updates reference frames, sign biases and probabilities.
#[derive(Clone, Copy)]
pub struct Refreshes {
    /// The updates of the reference frames.
    pub updates: ReferenceUpdates,
    /// The sign biases.
    pub biases: SignBiases,
    /// Whether the probabilities are saved for the next frame.
    pub entropy: bool,
}

/// Reads an unsigned number of `bits` bits.
pub(crate) fn number(bits: u32, d: &mut BoolDecoder) -> u8
    requires { bits ≤ 8 }
    ensures value { result ≡ (literal bits d.old).0 }
    ensures rest { d.new ≡ (literal bits d.old).1 }
    ensures small { result < 2 ^ bits }
{
    d.literal(bits)
}

/// Reads a flag if `asked`. Otherwise returns `otherwise`.
pub(crate) fn flag_if(asked: bool, otherwise: bool, d: &mut BoolDecoder) -> bool
    ensures value { result ≡ (when asked flag otherwise d.old).0 }
    ensures rest { d.new ≡ (when asked flag otherwise d.old).1 }
{
    if asked { d.read(128) } else { otherwise }
}

/// Reads a number and its sign.
#[tactic(auto, unfolding(crate::specs::Rows::magnitude, vp_bool::specs::Reader::bind))]
fn read_magnitude(bits: u32, d: &mut BoolDecoder) -> i8
    requires { bits ≤ 7 }
    ensures value { result ≡ (magnitude bits d.old).0 }
    ensures rest { d.new ≡ (magnitude bits d.old).1 }
{
    let value = number(bits, d) as i8;
    if d.read(128) { -value } else { value }
}

/// Reads a flag, and if it is set, a number and its sign. Otherwise returns `otherwise`.
#[tactic(auto, unfolding(crate::specs::Rows::optional_signed, vp_bool::specs::Reader::bind))]
fn read_signed(bits: u32, otherwise: i8, d: &mut BoolDecoder) -> i8
    requires { bits ≤ 7 }
    ensures value { result ≡ (optional_signed bits otherwise d.old).0 }
    ensures rest { d.new ≡ (optional_signed bits otherwise d.old).1 }
{
    if d.read(128) {
        read_magnitude(bits, d)
    } else {
        otherwise
    }
}

/// Reads a flag of this probability, and if it is set, a probability. Otherwise returns `otherwise`. The flags of the
/// 1,056 probabilities of coefficients are seldom set, for which `read_rare` is quick; those of the three probabilities
/// of segments have probability 128.
#[inline(always)]
#[tactic(auto, unfolding(crate::specs::Rows::renewed, vp_bool::specs::Reader::bind))]
pub(crate) fn read_renewed(probability: u8, otherwise: u8, d: &mut BoolDecoder) -> u8
    ensures value { result ≡ (renewed probability otherwise d.old).0 }
    ensures rest { d.new ≡ (renewed probability otherwise d.old).1 }
{
    if d.read_rare(probability) {
        d.literal(8)
    } else {
        otherwise
    }
}

#[tactic(auto, unfolding(crate::specs::Rows::four_signed, vp_bool::specs::Reader::bind))]
fn read_four_signed(bits: u32, old: &[i8; 4], d: &mut BoolDecoder) -> [i8; 4]
    requires { bits ≤ 7 }
    ensures value { result ≡ (four_signed bits old.now d.old).0 }
    ensures rest { d.new ≡ (four_signed bits old.now d.old).1 }
{
    [
        read_signed(bits, old[0], d),
        read_signed(bits, old[1], d),
        read_signed(bits, old[2], d),
        read_signed(bits, old[3], d),
    ]
}

#[tactic(auto, unfolding(crate::specs::Header::segment_values, vp_bool::specs::Reader::bind))]
fn read_segment_values(d: &mut BoolDecoder) -> SegmentValues
    ensures value { result ≡ (segment_values d.old).0 }
    ensures rest { d.new ≡ (segment_values d.old).1 }
{
    let absolute = d.read(128);
    let quantisers = [
        read_signed(7, 0, d),
        read_signed(7, 0, d),
        read_signed(7, 0, d),
        read_signed(7, 0, d),
    ];
    let levels = [
        read_signed(6, 0, d),
        read_signed(6, 0, d),
        read_signed(6, 0, d),
        read_signed(6, 0, d),
    ];
    SegmentValues {
        absolute,
        quantisers,
        levels,
    }
}

#[tactic(auto, unfolding(crate::specs::Header::tree_probabilities, vp_bool::specs::Reader::bind))]
fn read_tree_probabilities(d: &mut BoolDecoder) -> [u8; 3]
    ensures value { result ≡ (tree_probabilities d.old).0 }
    ensures rest { d.new ≡ (tree_probabilities d.old).1 }
{
    [
        read_renewed(128, 255, d),
        read_renewed(128, 255, d),
        read_renewed(128, 255, d),
    ]
}

#[tactic(auto, unfolding(crate::specs::Header::segmentation, vp_bool::specs::Reader::bind))]
pub(crate) fn read_segmentation(kept: &SegmentValues, d: &mut BoolDecoder) -> Segmentation
    ensures value { result ≡ (segmentation kept.now d.old).0 }
    ensures rest { d.new ≡ (segmentation kept.now d.old).1 }
{
    let enabled = d.read(128);
    let update_map = flag_if(enabled, false, d);
    let update_data = flag_if(enabled, false, d);
    let values = if update_data {
        read_segment_values(d)
    } else {
        *kept
    };
    let tree_probabilities = if update_map {
        read_tree_probabilities(d)
    } else {
        [255; 3]
    };
    Segmentation {
        enabled,
        update_map,
        values,
        tree_probabilities,
    }
}

#[tactic(auto, unfolding(crate::specs::Header::filter, vp_bool::specs::Reader::bind))]
pub(crate) fn read_filter(d: &mut BoolDecoder) -> Filter
    ensures value { result ≡ (filter d.old).0 }
    ensures rest { d.new ≡ (filter d.old).1 }
    ensures level { result.level ≤ 63 }
    ensures sharpness { result.sharpness ≤ 7 }
{
    let simple = d.read(128);
    let level = number(6, d);
    let sharpness = number(3, d);
    Filter {
        simple,
        level,
        sharpness,
    }
}

/// Reads whether the filter level deltas apply, and their values.
#[tactic(auto, unfolding(crate::specs::Header::level_deltas, vp_bool::specs::Reader::bind))]
pub(crate) fn read_level_deltas(kept: &LevelDeltas, d: &mut BoolDecoder) -> (bool, LevelDeltas)
    ensures value { result ≡ (level_deltas kept.now d.old).0 }
    ensures rest { d.new ≡ (level_deltas kept.now d.old).1 }
{
    let enabled = d.read(128);
    if !flag_if(enabled, false, d) {
        return (enabled, *kept);
    }
    let reference = read_four_signed(6, &kept.reference, d);
    let mode = read_four_signed(6, &kept.mode, d);
    (enabled, LevelDeltas { reference, mode })
}

#[tactic(auto, unfolding(crate::specs::Header::quantiser_indices, vp_bool::specs::Reader::bind))]
pub(crate) fn read_quantiser_indices(d: &mut BoolDecoder) -> QuantiserIndices
    ensures value { result ≡ (quantiser_indices d.old).0 }
    ensures rest { d.new ≡ (quantiser_indices d.old).1 }
    ensures y_ac { result.y_ac ≤ 127 }
{
    QuantiserIndices {
        y_ac: number(7, d),
        y_dc: read_signed(4, 0, d),
        y2_dc: read_signed(4, 0, d),
        y2_ac: read_signed(4, 0, d),
        uv_dc: read_signed(4, 0, d),
        uv_ac: read_signed(4, 0, d),
    }
}

/// The copied reference of a code: 0 to 3.
fn copy_from(number: u8) -> ReferenceCopy
    ensures { result ≡ copy_of number }
{
    match number {
        0 => ReferenceCopy::Nothing,
        1 => ReferenceCopy::Last,
        2 => ReferenceCopy::Other,
        _ => ReferenceCopy::Unused,
    }
}

/// Reads the reference that is copied, if `asked`. Otherwise it is `Nothing`.
#[tactic(auto, unfolding(crate::specs::Header::copy, vp_bool::specs::Reader::bind))]
fn copy_if(asked: bool, d: &mut BoolDecoder) -> ReferenceCopy
    ensures value { result ≡ (when asked copy ReferenceCopy.Nothing d.old).0 }
    ensures rest { d.new ≡ (when asked copy ReferenceCopy.Nothing d.old).1 }
{
    if asked {
        copy_from(d.literal(2))
    } else {
        ReferenceCopy::Nothing
    }
}

/// Reads the updates of reference frames, sign biases and probabilities.
#[tactic(auto, unfolding(crate::specs::Header::refreshes, vp_bool::specs::Reader::bind))]
pub(crate) fn read_refreshes(key: bool, kept: &SignBiases, d: &mut BoolDecoder) -> Refreshes
    ensures value { result ≡ (refreshes key kept.now d.old).0 }
    ensures rest { d.new ≡ (refreshes key kept.now d.old).1 }
{
    let refresh_golden = flag_if(!key, true, d);
    let refresh_alt = flag_if(!key, true, d);
    let copy_to_golden = copy_if(!refresh_golden, d);
    let copy_to_alt = copy_if(!refresh_alt, d);
    let golden = flag_if(!key, kept.golden, d);
    let alt = flag_if(!key, kept.alt, d);
    let entropy = d.read(128);
    let refresh_last = flag_if(!key, true, d);
    Refreshes {
        updates: ReferenceUpdates {
            refresh_golden,
            refresh_alt,
            copy_to_golden,
            copy_to_alt,
            refresh_last,
        },
        biases: SignBiases { golden, alt },
        entropy,
    }
}

/// Reads the probability that a macroblock is not skipped, if skipping is coded.
#[tactic(auto, unfolding(crate::specs::Header::skip, vp_bool::specs::Reader::bind))]
pub(crate) fn read_skip(d: &mut BoolDecoder) -> Option<u8>
    ensures value { result ≡ (skip d.old).0 }
    ensures rest { d.new ≡ (skip d.old).1 }
{
    if d.read(128) {
        Some(d.literal(8))
    } else {
        None
    }
}

/// Reads the probabilities of reference frames if `asked`. Otherwise they are 0.
#[tactic(auto, unfolding(crate::specs::Header::reference_probabilities, vp_bool::specs::Reader::bind))]
pub(crate) fn reference_probabilities_if(asked: bool, d: &mut BoolDecoder) -> ReferenceProbabilities
    ensures value { result ≡ (when asked reference_probabilities no_references d.old).0 }
    ensures rest { d.new ≡ (when asked reference_probabilities no_references d.old).1 }
{
    if !asked {
        return ReferenceProbabilities {
            intra: 0,
            last: 0,
            golden: 0,
        };
    }
    ReferenceProbabilities {
        intra: d.literal(8),
        last: d.literal(8),
        golden: d.literal(8),
    }
}
