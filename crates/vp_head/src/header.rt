//! Reading the frame header.

ghost use Rattle.std.specs.Prelude.{◌≡◌, ◌⊎◌, is_some, IsSome};
ghost use Rattle.vp_head.specs.Saved.{defaults, kept_after};
ghost use Rattle.vp_head.specs.Header.{frame, frame_and_kept, header};
ghost use Rattle.vp_head.specs.Bounds.{IsHeaderInRange, AreFilterValuesInRange};

use crate::fields::{Header, LevelDeltas, Probabilities, Saved, SegmentValues, SignBiases, Tag};
use crate::probabilities::{read_chroma_if, read_coefficients, read_luma_if, read_vectors_if};
use crate::rows::{
    flag_if, number, read_filter, read_level_deltas, read_quantiser_indices, read_refreshes,
    read_segmentation, read_skip, reference_probabilities_if,
};
use vp_bool::BoolDecoder;
use vp_tables::{
    CHROMA_PROBABILITIES, COEFFICIENT_PROBABILITIES, LUMA_PROBABILITIES, VECTOR_PROBABILITIES,
};

static DEFAULTS: Saved = Saved {
    probabilities: Probabilities {
        coefficients: COEFFICIENT_PROBABILITIES,
        vectors: VECTOR_PROBABILITIES,
        luma: LUMA_PROBABILITIES,
        chroma: CHROMA_PROBABILITIES,
    },
    segments: SegmentValues {
        absolute: false,
        quantisers: [0; 4],
        levels: [0; 4],
    },
    deltas: LevelDeltas {
        reference: [0; 4],
        mode: [0; 4],
    },
    biases: SignBiases {
        golden: false,
        alt: false,
    },
};

#[tactic(auto, unfolding(crate::specs::Saved::defaults, vp_tables::specs::Tables::coefficient_probabilities))]
pub(crate) fn defaults() -> &'static Saved
    ensures { result.now ≡ defaults }
{
    &DEFAULTS
}

impl Saved {
    /// The saved state that a key frame starts from: the default probabilities, and 0 everywhere else.
    pub fn defaults() -> Saved
        ensures { result ≡ defaults }
    {
        *defaults()
    }
}

impl Header {
    /// Reads the frame header at the start of the first partition, and returns it with the saved state after the
    /// frame. A key frame starts from the defaults, whatever `saved` is.
    #[tactic(auto, unfolding(crate::specs::Header::header))]
    pub fn read(saved: &Saved, tag: &Tag, d: &mut BoolDecoder) -> (Header, Saved)
        ensures value { result ≡ (header saved.now tag.now d.old).0 }
        ensures rest { d.new ≡ (header saved.now tag.now d.old).1 }
        ensures bounds { IsHeaderInRange result.0 }
        ensures kind { result.0.key ≡ is_some tag.now.key }
        // The signed values are in range in a key frame; in an inter frame, if the saved ones are.
        ensures signed { IsSome tag.now.key ⊎ AreFilterValuesInRange saved.now.segments saved.now.deltas
            → AreFilterValuesInRange result.0.segmentation.values result.0.deltas }
        ensures kept { IsSome tag.now.key ⊎ AreFilterValuesInRange saved.now.segments saved.now.deltas
            → AreFilterValuesInRange result.1.segments result.1.deltas }
    {
        if tag.key.is_some() {
            read_with_kept(true, defaults(), d)
        } else {
            read_with_kept(false, saved, d)
        }
    }
}

/// Reads the header, and returns it with the saved state after the frame.
#[tactic(auto, unfolding(crate::specs::Header::frame_and_kept, vp_bool::specs::Reader::bind))]
fn read_with_kept(key: bool, kept: &Saved, d: &mut BoolDecoder) -> (Header, Saved)
    ensures value { result ≡ (frame_and_kept key kept.now d.old).0 }
    ensures rest { d.new ≡ (frame_and_kept key kept.now d.old).1 }
    ensures kind { result.0.key ≡ key }
{
    let header = read_fields(key, kept, d);
    let probabilities = if header.refresh_entropy {
        header.probabilities
    } else {
        kept.probabilities
    };
    let saved = Saved {
        probabilities,
        segments: header.segmentation.values,
        deltas: header.deltas,
        biases: header.biases,
    };
    (header, saved)
}

/// Reads all syntax elements of the header, in order.
#[tactic(auto, unfolding(crate::specs::Header::frame, vp_bool::specs::Reader::bind))]
fn read_fields(key: bool, kept: &Saved, d: &mut BoolDecoder) -> Header
    ensures value { result ≡ (frame key kept.now d.old).0 }
    ensures rest { d.new ≡ (frame key kept.now d.old).1 }
    ensures kind { result.key ≡ key }
{
    let color_space = flag_if(key, false, d);
    let clamping_type = flag_if(key, false, d);
    let segmentation = read_segmentation(&kept.segments, d);
    let filter = read_filter(d);
    let (deltas_enabled, deltas) = read_level_deltas(&kept.deltas, d);
    let log2_partitions = number(2, d);
    let quantiser = read_quantiser_indices(d);
    let refreshes = read_refreshes(key, &kept.biases, d);
    let mut probabilities = kept.probabilities;
    read_coefficients(&mut probabilities.coefficients, d);
    let skip = read_skip(d);
    let references = reference_probabilities_if(!key, d);
    read_luma_if(!key, &mut probabilities.luma, d);
    read_chroma_if(!key, &mut probabilities.chroma, d);
    read_vectors_if(!key, &mut probabilities.vectors, d);
    Header {
        key,
        color_space,
        clamping_type,
        segmentation,
        filter,
        deltas_enabled,
        deltas,
        log2_partitions,
        quantiser,
        updates: refreshes.updates,
        biases: refreshes.biases,
        refresh_entropy: refreshes.entropy,
        probabilities,
        skip,
        references,
    }
}
