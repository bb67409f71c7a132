//! The neighbours above and to the left of a 4x4 block.

ghost use Rattle.std.specs.Prelude.{◌≡◌, ◌<◌};
ghost use Rattle.vp_base.specs.Place.{above, left};
ghost use Rattle.vp_base.specs.Near.{block_place, seen_from, IsBefore};

use crate::place::Place;

/// The location of a 4x4 block relative to a macroblock. The blocks of a macroblock are numbered 0 to 15, in raster
/// order.
#[derive(Clone, Copy, Debug, PartialEq, Eq)]
pub enum Near {
    /// In the macroblock itself, by block number.
    Here(usize),
    /// In the macroblock at another place, by block number.
    There(Place, usize),
    /// Outside the frame.
    Outside,
}

impl Place {
    /// The location of the block above block `k` of this macroblock.
    #[tactic(auto, using(crate::proofs::NearLemmas::above_here, crate::proofs::NearLemmas::above_there, crate::proofs::NearLemmas::above_outside))]
    pub fn above_block(self, k: usize) -> Near
        requires { k < 16 }
        ensures value { result ≡ seen_from 4 self (above (block_place 4 self k)) }
        ensures before { IsBefore self result }
    {
        if k >= 4 {
            return Near::Here(k - 4);
        }
        match self.above() {
            Some(above) => Near::There(above, k + 12),
            None => Near::Outside,
        }
    }

    /// The location of the block to the left of block `k` of this macroblock.
    #[tactic(auto, using(crate::proofs::NearLemmas::left_here, crate::proofs::NearLemmas::left_there, crate::proofs::NearLemmas::left_outside))]
    pub fn left_block(self, k: usize) -> Near
        requires { k < 16 }
        ensures value { result ≡ seen_from 4 self (left (block_place 4 self k)) }
        ensures before { IsBefore self result }
    {
        if k % 4 > 0 {
            return Near::Here(k - 1);
        }
        match self.left() {
            Some(left) => Near::There(left, k + 3),
            None => Near::Outside,
        }
    }
}
