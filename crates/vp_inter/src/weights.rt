//! Filter weights and indices in vectors, for multiply-add of bytes (RFC 6386, chapter 18.3).

ghost use Rattle.vp_inter.specs.Narrow.{SumsFitI16};
ghost use Rattle.vp_inter.specs.Turns.{first_weights, AreByTurns, AreLanes};

use std::simd::prelude::*;

/// The weights of six pixels, in a row or a column. Each vector has two alternating weights: of pixels 0 and 3, of 1
/// and 4, and of 2 and 5.
#[derive(Clone, Copy)]
pub(crate) struct PairWeights {
    pub(crate) first: i8x16,
    pub(crate) second: i8x16,
    pub(crate) third: i8x16,
    ghost turns: { AreByTurns first × AreByTurns second × AreByTurns third },
    ghost gentle: { SumsFitI16 (first_weights first second third) },
}

/// How eight pixels of a row are filtered: from sixteen pixels of the plane, which begin at column `start`. Each
/// vector selects pairs of them, a pixel and the one three to the right: from the first, the second and the third of
/// the six pixels on. The indices come from memory: the compiler would see through constant ones, and then doesn't
/// select the multiply-add instruction.
#[derive(Clone, Copy)]
pub(crate) struct HorizontalFilter {
    pub(crate) start: usize,
    pub(crate) first: u8x16,
    pub(crate) second: u8x16,
    pub(crate) third: u8x16,
    pub(crate) weights: PairWeights,
    ghost lanes: { AreLanes first second third },
}

/// How sixteen pixels of a row are filtered: the left eight, and the right eight.
#[derive(Clone, Copy)]
pub(crate) struct WideFilter {
    pub(crate) left: HorizontalFilter,
    pub(crate) right: HorizontalFilter,
}
