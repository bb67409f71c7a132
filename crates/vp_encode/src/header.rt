//! The frame header, from the encoder's settings.

ghost use Rattle.std.specs.Prelude.{◌≡◌, if◌then◌else◌};
ghost use Rattle.vp_head.specs.Header.{no_references};
ghost use Rattle.vp_encode.specs.Encoder.{no_segmentation, quantiser, updates, even, log2_of, header_over};

use crate::settings::Settings;
use vp_head::{
    Filter, Header, QuantiserIndices, ReferenceCopy, ReferenceProbabilities, ReferenceUpdates,
    Saved, Segmentation, SignBiases,
};

fn no_segmentation(saved: &Saved) -> Segmentation
    ensures { result ≡ no_segmentation saved.now }
{
    Segmentation {
        enabled: false,
        update_map: false,
        values: saved.segments,
        tree_probabilities: [255; 3],
    }
}

/// Returns quantiser indices that use one index for all factors.
pub(crate) fn quantiser(index: u8) -> QuantiserIndices
    ensures { result ≡ quantiser index }
{
    QuantiserIndices {
        y_ac: index,
        y_dc: 0,
        y2_dc: 0,
        y2_ac: 0,
        uv_dc: 0,
        uv_ac: 0,
    }
}

fn updates(key: bool, golden: bool) -> ReferenceUpdates
    ensures { result ≡ updates key golden }
{
    ReferenceUpdates {
        refresh_golden: key || golden,
        refresh_alt: key,
        copy_to_golden: ReferenceCopy::Nothing,
        copy_to_alt: ReferenceCopy::Nothing,
        refresh_last: true,
    }
}

fn log2_of(partitions: u8) -> u8
    ensures { result ≡ log2_of partitions }
{
    match partitions {
        1 => 0,
        2 => 1,
        4 => 2,
        _ => 3,
    }
}

/// Returns the probabilities of the reference frames: 128 each in an inter frame.
fn references(key: bool) -> ReferenceProbabilities
    ensures { result ≡ (if key then no_references else even) }
{
    let probability = if key { 0 } else { 128 };
    ReferenceProbabilities {
        intra: probability,
        last: probability,
        golden: probability,
    }
}

/// Returns the header of a frame, given the saved values that it is coded relative to. A key frame uses the defaults.
/// `golden` says whether an inter frame refreshes golden.
pub(crate) fn header_over(saved: &Saved, key: bool, golden: bool, settings: &Settings) -> Header
    ensures { result ≡ header_over saved.now key golden settings.now }
{
    Header {
        key,
        color_space: false,
        clamping_type: false,
        segmentation: no_segmentation(saved),
        filter: Filter {
            simple: settings.simple,
            level: settings.level,
            sharpness: settings.sharpness,
        },
        deltas_enabled: false,
        deltas: saved.deltas,
        log2_partitions: log2_of(settings.partitions),
        quantiser: quantiser(settings.qi),
        updates: updates(key, golden),
        // The motion is chosen so that it can be coded without sign biases.
        biases: SignBiases {
            golden: false,
            alt: false,
        },
        refresh_entropy: true,
        probabilities: saved.probabilities,
        skip: Some(128),
        references: references(key),
    }
}
