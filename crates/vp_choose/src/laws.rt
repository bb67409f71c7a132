//! Theorems about the encoder's choice.

ghost use Rattle.vp_choose.specs.One.{ChoiceIsOne};

/// The choice for a macroblock is unique.
pub fn choice_is_one()
    ensures { ChoiceIsOne }
{}
