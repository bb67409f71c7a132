//! The dequantisation factors of a segment, made ready for its macroblocks.

ghost use Rattle.std.specs.Prelude.{◌≡◌};

use std::marker::Model;
use vp_quant::{Factors, ShortFactor};

/// The greatest magnitude of the coefficients that `idct_short` and `idct_interleaved` compute in 16 bits.
pub(crate) const IDCT_MOST: u64 = 2200;

/// The greatest magnitude of the coefficients that `iwht_short` computes in 16 bits.
pub(crate) const IWHT_MOST: u64 = 8191;

/// The dequantisation factors of a segment, made ready once for all its macroblocks (RFC 6386, chapter 14.1).
#[derive(Drop)]
pub struct SegmentFactors {
    /// The factors themselves.
    pub(crate) raw: Factors,
    pub(crate) y2_ac: ShortFactor,
    pub(crate) y_dc: ShortFactor,
    pub(crate) y_ac: ShortFactor,
    pub(crate) uv_dc: ShortFactor,
    pub(crate) uv_ac: ShortFactor,
}

impl Model for SegmentFactors {
    ghost use Rattle.vp_quant.specs.declared.factors.Factors.{Factors};
    ghost use Rattle.vp_recon.specs.SegmentFactors.{IsReady};

    ghost Value = { Factors };

    ghost view = { λ s. s.raw };

    ghost invariant = { IsReady };
}

impl SegmentFactors {
    /// Makes factors ready: those of Y2's AC levels for the coefficients that `iwht_short` takes, the others for those
    /// that `idct_interleaved` takes.
    pub fn of(factors: &Factors) -> SegmentFactors
        ensures { result ≡ factors.now }
    {
        SegmentFactors {
            raw: *factors,
            y2_ac: ShortFactor::of(factors.y2_ac, IWHT_MOST as u16),
            y_dc: ShortFactor::of(factors.y_dc, IDCT_MOST as u16),
            y_ac: ShortFactor::of(factors.y_ac, IDCT_MOST as u16),
            uv_dc: ShortFactor::of(factors.uv_dc, IDCT_MOST as u16),
            uv_ac: ShortFactor::of(factors.uv_ac, IDCT_MOST as u16),
        }
    }

    /// Returns the same factors.
    pub fn copy(&self) -> SegmentFactors
        ensures { result ≡ self.now }
    {
        SegmentFactors {
            raw: self.raw,
            y2_ac: self.y2_ac,
            y_dc: self.y_dc,
            y_ac: self.y_ac,
            uv_dc: self.uv_dc,
            uv_ac: self.uv_ac,
        }
    }

    /// Returns the factors themselves.
    pub fn raw(&self) -> &Factors
        ensures { result.now ≡ self.now }
    {
        &self.raw
    }
}
