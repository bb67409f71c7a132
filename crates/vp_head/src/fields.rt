//! The fields of the frame tag and the frame header.

ghost use Rattle.std.specs.Prelude.{◌≡◌};
ghost use Rattle.vp_head.specs.Reference.{is_intra};

use vp_base::Dim;

/// The frame tag (RFC 6386, chapter 9.1).
#[derive(Clone, Copy, Debug, PartialEq, Eq)]
pub struct Tag {
    /// The bitstream version, 0 to 3.
    pub version: u8,
    /// Whether the frame is shown.
    pub show: bool,
    /// The size of the first partition in bytes, below 2^19.
    pub first_partition: u32,
    /// The further fields of a key packet; None for an inter packet.
    pub key: Option<KeyTag>,
}

/// The fields that only the tag of a key packet has.
#[derive(Clone, Copy, Debug, PartialEq, Eq)]
pub struct KeyTag {
    /// The size of the picture.
    pub dim: Dim,
    /// The horizontal upscaling code, 0 to 3. It does not affect decoding.
    pub horizontal_scale: u8,
    /// The vertical upscaling code, 0 to 3. It does not affect decoding.
    pub vertical_scale: u8,
}

/// The values of the four segments (chapter 9.3).
#[derive(Clone, Copy, Debug, PartialEq, Eq)]
pub struct SegmentValues {
    /// Whether the values replace those of the frame. If false, they are added to them.
    pub absolute: bool,
    /// Quantiser indices or their deltas, -127 to 127.
    pub quantisers: [i8; 4],
    /// Loop filter levels or their deltas, -63 to 63.
    pub levels: [i8; 4],
}

/// Segmentation, with the values in force for the frame (chapter 9.3).
#[derive(Clone, Copy, Debug, PartialEq, Eq)]
pub struct Segmentation {
    /// Whether segmentation is enabled.
    pub enabled: bool,
    /// Whether the segment of each macroblock is coded.
    pub update_map: bool,
    /// The values of the segments.
    pub values: SegmentValues,
    /// The probabilities of the segment tree.
    pub tree_probabilities: [u8; 3],
}

/// The loop filter's type and strength (chapter 9.4).
#[derive(Clone, Copy, Debug, PartialEq, Eq)]
pub struct Filter {
    /// Whether the simple filter is used instead of the normal one.
    pub simple: bool,
    /// The filter level (`loop_filter_level`), 0 to 63; 0 disables the filter.
    pub level: u8,
    /// The sharpness, 0 to 7.
    pub sharpness: u8,
}

/// The filter level deltas of a macroblock's reference frame and mode (chapter 9.4).
#[derive(Clone, Copy, Debug, PartialEq, Eq)]
pub struct LevelDeltas {
    /// For intra, last, golden, altref; -63 to 63.
    pub reference: [i8; 4],
    /// For `B_PRED`; zero; nearest, near or new; split. -63 to 63.
    pub mode: [i8; 4],
}

/// The quantiser index, and the deltas that each kind of factor adds to it (chapter 9.6).
#[derive(Clone, Copy, Debug, PartialEq, Eq)]
pub struct QuantiserIndices {
    /// The quantiser index, 0 to 127.
    pub y_ac: u8,
    /// Delta of luma DC, -15 to 15, as the other deltas.
    pub y_dc: i8,
    /// Delta of Y2 DC.
    pub y2_dc: i8,
    /// Delta of Y2 AC.
    pub y2_ac: i8,
    /// Delta of chroma DC.
    pub uv_dc: i8,
    /// Delta of chroma AC.
    pub uv_ac: i8,
}

/// The reference frame that is copied to golden or altref, before the new picture is stored (chapter 9.7).
#[derive(Clone, Copy, Debug, PartialEq, Eq)]
pub enum ReferenceCopy {
    /// Nothing is copied.
    Nothing,
    /// The last frame.
    Last,
    /// Altref for golden, golden for altref.
    Other,
    /// The code 3, which copies nothing.
    Unused,
}

/// How a frame updates the reference frames (chapters 9.7 and 9.8).
#[derive(Clone, Copy, Debug, PartialEq, Eq)]
pub struct ReferenceUpdates {
    /// Whether the new picture becomes golden.
    pub refresh_golden: bool,
    /// Whether the new picture becomes altref.
    pub refresh_alt: bool,
    /// The reference that is copied to golden.
    pub copy_to_golden: ReferenceCopy,
    /// The reference that is copied to altref.
    pub copy_to_alt: ReferenceCopy,
    /// Whether the new picture becomes the last frame.
    pub refresh_last: bool,
}

/// The sign biases: whether motion vectors of golden or altref are negated as candidates (chapter 9.7).
#[derive(Clone, Copy, Debug, PartialEq, Eq)]
pub struct SignBiases {
    /// Sign bias of golden.
    pub golden: bool,
    /// Sign bias of altref.
    pub alt: bool,
}

/// The reference frame of a macroblock (chapter 5).
#[derive(Clone, Copy, Debug, PartialEq, Eq)]
pub enum Reference {
    /// None: the macroblock is intra predicted.
    Intra,
    /// The last frame.
    Last,
    /// The golden frame.
    Golden,
    /// The alternate reference frame.
    Alt,
}

impl Reference {
    /// Whether the macroblock is intra predicted.
    pub fn is_intra(self) -> bool
        ensures { result ≡ is_intra self }
    {
        matches!(self, Reference::Intra)
    }
}

/// The probabilities that persist from frame to frame (chapters 9.9, 9.10, 13.4 and 17.2).
#[derive(Clone, Copy)]
pub struct Probabilities {
    /// Of tokens, by block type, band, context and token tree entry.
    pub coefficients: [[[[u8; 11]; 3]; 8]; 4],
    /// Of motion vectors: rows, then columns.
    pub vectors: [[u8; 19]; 2],
    /// Of luma modes in inter frames.
    pub luma: [u8; 4],
    /// Of chroma modes in inter frames.
    pub chroma: [u8; 3],
}

/// The probabilities of a macroblock's reference frame in an inter frame (chapter 9.10).
#[derive(Clone, Copy, Debug, PartialEq, Eq)]
pub struct ReferenceProbabilities {
    /// That it is intra.
    pub intra: u8,
    /// That an inter macroblock uses the last frame.
    pub last: u8,
    /// That an inter macroblock that doesn't use the last frame uses golden.
    pub golden: u8,
}

/// The frame header, with the values in force for the frame (chapters 9 and 19.2).
#[derive(Clone, Copy)]
pub struct Header {
    /// Whether this is a key frame (keyframe, `key_frame`).
    pub key: bool,
    /// The color space bit of a key frame; false for an inter frame.
    pub color_space: bool,
    /// The clamping bit of a key frame; false for an inter frame. It has no effect: pixels are always clamped.
    pub clamping_type: bool,
    /// Segmentation.
    pub segmentation: Segmentation,
    /// The loop filter.
    pub filter: Filter,
    /// Whether the filter level deltas apply.
    pub deltas_enabled: bool,
    /// The filter level deltas.
    pub deltas: LevelDeltas,
    /// The binary logarithm of the number of token partitions, 0 to 3.
    pub log2_partitions: u8,
    /// The quantiser index and its deltas.
    pub quantiser: QuantiserIndices,
    /// The updates of the reference frames. A key frame refreshes all of them, and copies nothing.
    pub updates: ReferenceUpdates,
    /// The sign biases of golden and altref.
    pub biases: SignBiases,
    /// Whether this frame's probabilities are saved for the next one.
    pub refresh_entropy: bool,
    /// The probabilities in force for this frame.
    pub probabilities: Probabilities,
    /// The probability that a macroblock is not skipped (`prob_skip_false`). None if skipping is not coded: then none
    /// is skipped.
    pub skip: Option<u8>,
    /// The probabilities of reference frames; all 0 for a key frame.
    pub references: ReferenceProbabilities,
}

/// The state that persists from frame to frame (chapters 9.3, 9.4, 9.7, 9.9 and 9.10).
#[derive(Clone, Copy)]
pub struct Saved {
    /// The saved probabilities.
    pub probabilities: Probabilities,
    /// The values of the segments.
    pub segments: SegmentValues,
    /// The filter level deltas.
    pub deltas: LevelDeltas,
    /// The sign biases.
    pub biases: SignBiases,
}
