//! Theorems about all files. Each is the contract of a function that does nothing.

ghost use Rattle.std.specs.Prelude.{◌≡◌, ℕ, List, map};
ghost use Rattle.vp_base.specs.declared.limits.Limits.{Limits};
ghost use Rattle.vp_decode.specs.Step.{outcome};
ghost use Rattle.vp_stream.specs.Answers.{answers_of};
ghost use Rattle.vp_check.specs.declared.checked.CheckedPacket.{CheckedPacket};
ghost use Rattle.vp_check.specs.Checks.{checks_of};

/// A checked packet has the outcome that decoding the file gives it.
pub fn outcomes_are_those_of_decoding()
    ensures { (limits : Limits) (file : List ℕ)
        → map (λ (c : CheckedPacket). c.outcome) (checks_of limits file) ≡ map outcome (answers_of limits file) }
{}
