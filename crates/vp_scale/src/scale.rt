//! How much smaller a picture is made.

ghost use Rattle.std.specs.Prelude.{◌≡◌};
ghost use Rattle.vp_scale.specs.Scale.{IsFactor, factor_of, scaled_side};

use vp_base::Dim;

/// How much smaller a picture is made.
#[derive(Clone, Copy, Debug, PartialEq, Eq)]
pub enum Scale {
    /// Not at all.
    Full,
    /// Half the width and height.
    Half,
    /// A quarter of the width and height.
    Quarter,
    /// An eighth of the width and height.
    Eighth,
}

impl Scale {
    /// The width and height of the square of pixels that becomes one: 1, 2, 4 or 8.
    pub fn factor(self) -> usize
        ensures value { result ≡ factor_of self }
        ensures known { IsFactor result }
    {
        match self {
            Scale::Full => 1,
            Scale::Half => 2,
            Scale::Quarter => 4,
            Scale::Eighth => 8,
        }
    }

    /// The size of a picture of this size that is made smaller: its sides divided by the factor, rounded up.
    pub fn size(self, dim: Dim) -> Dim
        ensures width { result.w ≡ scaled_side (factor_of self) dim.w }
        ensures height { result.h ≡ scaled_side (factor_of self) dim.h }
    {
        match self {
            Scale::Full => dim,
            Scale::Half => Dim {
                w: (dim.w + 1) / 2,
                h: (dim.h + 1) / 2,
            },
            Scale::Quarter => Dim {
                w: (dim.w + 3) / 4,
                h: (dim.h + 3) / 4,
            },
            Scale::Eighth => Dim {
                w: (dim.w + 7) / 8,
                h: (dim.h + 7) / 8,
            },
        }
    }
}
