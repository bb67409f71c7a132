//! Probabilities of modes and motion vectors.

/// Luma mode probabilities of a key frame (RFC 6386, chapter 11.2).
pub const KEY_LUMA_PROBABILITIES: [u8; 4] = [145, 156, 163, 128];

/// Default luma mode probabilities of inter frames (chapter 16.1).
pub const LUMA_PROBABILITIES: [u8; 4] = [112, 86, 140, 37];

/// Chroma mode probabilities of a key frame (chapter 11.4).
pub const KEY_CHROMA_PROBABILITIES: [u8; 3] = [142, 114, 183];

/// Default chroma mode probabilities of inter frames (chapter 16.1).
pub const CHROMA_PROBABILITIES: [u8; 3] = [162, 101, 204];

/// Subblock mode probabilities of inter frames, which have no contexts (chapter 16.1).
pub const SUB_PROBABILITIES: [u8; 9] = [120, 90, 79, 133, 87, 85, 80, 111, 151];

/// Vector mode probabilities: probability `i` is entry `i` of the row that count `i` selects (chapter 16.3).
pub const VECTOR_MODE_PROBABILITIES: [[u8; 4]; 6] = [
    [7, 1, 1, 143],
    [14, 18, 14, 107],
    [135, 64, 57, 68],
    [60, 56, 128, 65],
    [159, 134, 128, 34],
    [234, 188, 128, 28],
];

/// Split kind probabilities (chapter 16.4).
pub const SPLIT_PROBABILITIES: [u8; 3] = [110, 111, 150];

/// Part mode probabilities, by the context of the vectors to the left and above (chapter 16.4).
pub const PART_PROBABILITIES: [[u8; 3]; 5] = [
    [147, 136, 18],
    [106, 145, 1],
    [179, 121, 1],
    [223, 1, 34],
    [208, 1, 1],
];

/// Default motion vector probabilities: of rows, then of columns. Each has: long flag, sign, seven of the short tree,
/// ten of the long bits (chapter 17.2).
pub const VECTOR_PROBABILITIES: [[u8; 19]; 2] = [
    [
        162, 128, 225, 146, 172, 147, 214, 39, 156, 128, 129, 132, 75, 145, 178, 206, 239, 254, 254,
    ],
    [
        164, 128, 204, 170, 119, 235, 140, 230, 228, 128, 130, 130, 74, 148, 180, 203, 236, 254,
        254,
    ],
];

/// The probabilities that a motion vector probability is not updated (chapter 17.2).
pub const VECTOR_UPDATES: [[u8; 19]; 2] = [
    [
        237, 246, 253, 253, 254, 254, 254, 254, 254, 254, 254, 254, 254, 254, 250, 250, 252, 254,
        254,
    ],
    [
        231, 243, 245, 253, 254, 254, 254, 254, 254, 254, 254, 254, 254, 254, 251, 251, 254, 254,
        254,
    ],
];
