//! Prediction modes, vector modes and tokens.

ghost use Rattle.std.specs.Prelude.{◌≡◌};
ghost use Rattle.vp_tables.specs.Modes.{is_by_subblocks, is_split};

/// The luma prediction mode of an intra macroblock (RFC 6386, chapters 8.2 and 11.2).
#[derive(Clone, Copy, Debug, PartialEq, Eq)]
pub enum LumaMode {
    /// DC: the mean of the row above and the column to the left.
    Dc,
    /// Vertical: copies the row above.
    V,
    /// Horizontal: copies the column to the left.
    H,
    /// TrueMotion: left plus above minus corner.
    Tm,
    /// `B_PRED`: each of the sixteen subblocks has its own mode.
    B,
}

impl LumaMode {
    /// Whether each luma subblock has its own mode.
    pub fn is_by_subblocks(self) -> bool
        ensures { result ≡ is_by_subblocks self }
    {
        matches!(self, LumaMode::B)
    }
}

/// The prediction mode of both chroma planes of an intra macroblock (chapters 8.2 and 11.4).
#[derive(Clone, Copy, Debug, PartialEq, Eq)]
pub enum ChromaMode {
    /// DC: the mean of the row above and the column to the left.
    Dc,
    /// Vertical: copies the row above.
    V,
    /// Horizontal: copies the column to the left.
    H,
    /// TrueMotion: left plus above minus corner.
    Tm,
}

/// The prediction mode of a 4x4 luma subblock (chapter 11.2). The order is that of the rows of
/// `KEY_SUB_PROBABILITIES`.
#[derive(Clone, Copy, Debug, PartialEq, Eq)]
pub enum SubMode {
    /// DC: the mean of the four pixels above and the four to the left.
    Dc,
    /// TrueMotion: left plus above minus corner.
    Tm,
    /// Vertical, smoothed.
    Ve,
    /// Horizontal, smoothed.
    He,
    /// Left-down: diagonal.
    Ld,
    /// Right-down: diagonal.
    Rd,
    /// Vertical-right.
    Vr,
    /// Vertical-left.
    Vl,
    /// Horizontal-down.
    Hd,
    /// Horizontal-up.
    Hu,
}

/// How an inter macroblock's motion vector is coded (chapter 16.3).
#[derive(Clone, Copy, Debug, PartialEq, Eq)]
pub enum VectorMode {
    /// The zero vector.
    Zero,
    /// The candidate `nearest`.
    Nearest,
    /// The candidate `near`.
    Near,
    /// The candidate `best` plus a coded difference.
    New,
    /// Each part has its own vector (`SPLITMV`).
    Split,
}

impl VectorMode {
    /// Whether the parts of the macroblock have their own vectors.
    pub fn is_split(self) -> bool
        ensures { result ≡ is_split self }
    {
        matches!(self, VectorMode::Split)
    }
}

/// How a macroblock with split vectors is divided into parts (chapter 16.4).
#[derive(Clone, Copy, Debug, PartialEq, Eq)]
pub enum SplitKind {
    /// 16 parts of 4x4 pixels.
    Sixteenths,
    /// 4 parts of 8x8 pixels.
    Quarters,
    /// 2 parts of 16x8 pixels: the upper and the lower half.
    TopBottom,
    /// 2 parts of 8x16 pixels: the left and the right half.
    LeftRight,
}

/// How the motion vector of a part is coded (chapter 16.4).
#[derive(Clone, Copy, Debug, PartialEq, Eq)]
pub enum PartMode {
    /// The vector of the block to the left.
    Left,
    /// The vector of the block above.
    Above,
    /// The zero vector.
    Zero,
    /// The candidate `best` plus a coded difference.
    New,
}

/// A token: a coefficient value or a range of them, or the end of block (chapter 13.2).
#[derive(Clone, Copy, Debug, PartialEq, Eq)]
pub enum Token {
    /// End of block: all remaining coefficients are 0.
    EndOfBlock,
    /// 0; never followed by an end of block.
    Zero,
    /// 1.
    One,
    /// 2.
    Two,
    /// 3.
    Three,
    /// 4.
    Four,
    /// 5 or 6, with 1 extra bit.
    Category1,
    /// 7 to 10, with 2 extra bits.
    Category2,
    /// 11 to 18, with 3 extra bits.
    Category3,
    /// 19 to 34, with 4 extra bits.
    Category4,
    /// 35 to 66, with 5 extra bits.
    Category5,
    /// 67 to 2,114, with 11 extra bits.
    Category6,
}
