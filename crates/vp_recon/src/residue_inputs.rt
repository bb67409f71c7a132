//! What the residues of a plane's subblocks are computed from. Definitions that residue.rt uses name these types.

ghost use Rattle.std.specs.Prelude.{ℕ, ◌<◌, ◌≤◌, ◌^◌, pos, length, unsigned_abs, slice_index_or};
ghost use Rattle.vp_transform.specs.Fits.{EachWithin};
ghost use Rattle.vp_quant.specs.Short.{IsShortFactor};

use vp_quant::ShortFactor;
use vp_tokens::Tokens;

/// The inputs of the residues of a plane's subblocks, with small DC coefficients.
#[derive(Clone, Copy)]
pub(crate) struct SmallInputs<'a> {
    pub(crate) tokens: &'a Tokens,
    /// The number of the first subblock's block among all 25.
    pub(crate) first: usize,
    /// The DC coefficients, from -2,200 to 2,200.
    pub(crate) dcs: &'a [i16],
    /// The factor of the AC levels.
    pub(crate) ac: u16,
    /// That factor, made ready.
    pub(crate) factor: ShortFactor,
    ghost small: { (k : ℕ) → k < length dcs.now → unsigned_abs (slice_index_or dcs.now k (pos 0)) ≤ 2200 },
    ghost ready: { IsShortFactor factor ac 2200 },
}

/// The inputs of the residues of a plane's subblocks, with DC coefficients of any size.
#[derive(Clone, Copy)]
pub(crate) struct LargeInputs<'a> {
    pub(crate) tokens: &'a Tokens,
    /// The number of the first subblock's block among all 25.
    pub(crate) first: usize,
    /// The DC coefficients.
    pub(crate) dcs: [i64; 16],
    /// The factor of the AC levels.
    pub(crate) ac: u16,
    /// That factor, made ready.
    pub(crate) factor: ShortFactor,
    ghost ready: { IsShortFactor factor ac 2200 },
    ghost within: { EachWithin (2 ^ 40) dcs },
}
