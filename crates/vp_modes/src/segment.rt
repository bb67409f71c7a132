//! The segment of a macroblock.

use std::marker::Model;

/// The segment of a macroblock (RFC 6386, chapter 9.3).
#[derive(Clone, Copy, Debug, PartialEq, Eq)]
pub struct Segment {
    /// The segment number, 0 to 3.
    pub number: u8,
}

impl Model for Segment {
    ghost use Rattle.std.specs.Prelude.{ℕ, ◌<◌};

    ghost Value = { ℕ };

    ghost view = { λ s. s.number };

    ghost invariant = { λ s. s.number < 4 };

    ghost inverse = { λ n. record { number = n } };
}
