//! Laws of all smaller pictures, each the contract of an empty function.

ghost use Rattle.std.specs.Prelude.{◌≡◌, ℕ, List, length};
ghost use Rattle.vp_scale.specs.Scale.{IsFactor, scaled_side};
ghost use Rattle.vp_scale.specs.Planes.{half, i420_size};
ghost use Rattle.vp_scale.specs.Means.{scaled_i420};

/// The smaller chroma planes have half the sides of the smaller luma plane, rounded up. So the planes of a picture that
/// is made smaller are those of a picture.
#[tactic(auto, using(crate::proofs::SideLemmas::halves))]
pub fn smaller_planes_fit()
    ensures { (k side : ℕ) → IsFactor k → scaled_side k (half side) ≡ half (scaled_side k side) }
{}

/// A picture in its own size stays as it is.
#[tactic(auto, using(crate::proofs::FullLemmas::full))]
pub fn full_size_changes_nothing()
    ensures { (w h : ℕ) (pixels : List ℕ) → length pixels ≡ i420_size w h → scaled_i420 1 w h pixels ≡ pixels }
{}
