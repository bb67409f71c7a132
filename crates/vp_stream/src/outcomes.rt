//! The survey of a file: its packets and their outcomes.

ghost use Rattle.std.specs.Prelude.{◌≡◌, ◌++◌, ◌∷◌, [], OnOk, OnErr};

use std::alloc::{AllocError, Global};
use std::marker::Model;
use vp_decode::Outcome;
use vp_ivf::{FileFault, IvfHead};

/// The packets of a file in order: the length of each in bytes, and the outcome of decoding it. Its model is a list.
#[derive(Debug, Drop)]
pub struct OutcomeList {
    packets: Vec<(usize, Outcome)>,
}

impl Model for OutcomeList {
    ghost use Rattle.std.specs.Prelude.{List, ℕ};
    ghost use Rattle.vp_decode.specs.declared.decoder.Outcome.{Outcome};

    ghost Value = { List (ℕ × Outcome) };

    ghost view = { λ a. a.packets.items };
}

impl OutcomeList {
    /// Creates an empty list.
    pub(crate) fn new(alloc: Global) -> OutcomeList
        ensures { result ≡ [] }
    {
        OutcomeList {
            packets: Vec::new(alloc),
        }
    }

    /// Returns the packets, in order.
    pub fn as_slice(&self) -> &[(usize, Outcome)]
        ensures { result.now ≡ self.now }
    {
        self.packets.as_slice()
    }

    /// Appends a packet. If memory runs out, the list is unchanged.
    pub(crate) fn push(&mut self, bytes: usize, outcome: Outcome) -> Result<(), AllocError>
        ensures ok { OnOk result (self.new ≡ self.old ++ (bytes, outcome) ∷ []) }
        ensures err { OnErr result (self.new ≡ self.old) }
    {
        self.packets.push((bytes, outcome))?;
        Ok(())
    }
}

/// The survey of a file: its head, its packets, and its fault.
#[derive(Debug, Drop)]
pub struct Survey {
    /// The file's head, if it is whole and valid.
    pub head: Option<IvfHead>,
    /// The packets in order: the length of each in bytes, and the outcome of decoding it.
    pub packets: OutcomeList,
    /// The fault that follows these packets, if there is one.
    pub fault: Option<FileFault>,
}
