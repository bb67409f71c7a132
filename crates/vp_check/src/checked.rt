//! What is found when a file is checked.

ghost use Rattle.std.specs.Prelude.{◌≡◌, ◌++◌, ◌∷◌, [], count_by, length, OnOk, OnErr};
ghost use Rattle.vp_check.specs.Checks.{is_corrupt_check, is_fault_check, is_hidden_check, is_shown_check};

use std::alloc::{AllocError, Global};
use std::marker::Model;
use vp_decode::Outcome;
use vp_ivf::{FileFault, IvfHead};

/// What is found of a packet.
#[derive(Clone, Copy, Debug, PartialEq, Eq)]
pub struct CheckedPacket {
    /// Its length in bytes.
    pub bytes: usize,
    /// The outcome of decoding it.
    pub outcome: Outcome,
    /// Whether it is decoded, but read past the end of a partition.
    pub corrupt: bool,
}

/// The packets of a file in order: the length of each, the outcome of decoding it, and whether it is corrupt. Its model
/// is a list.
#[derive(Debug, Drop)]
pub struct CheckList {
    packets: Vec<CheckedPacket>,
}

impl Model for CheckList {
    ghost use Rattle.std.specs.Prelude.{List};
    ghost use Rattle.vp_check.specs.declared.checked.CheckedPacket.{CheckedPacket};

    ghost Value = { List CheckedPacket };

    ghost view = { λ a. a.packets.items };
}

impl CheckList {
    /// Creates an empty list.
    pub(crate) fn new(alloc: Global) -> CheckList
        ensures { result ≡ [] }
    {
        CheckList {
            packets: Vec::new(alloc),
        }
    }

    /// Appends a packet. If memory runs out, the list is unchanged.
    pub(crate) fn push(&mut self, packet: CheckedPacket) -> Result<(), AllocError>
        ensures ok { OnOk result (self.new ≡ self.old ++ packet ∷ []) }
        ensures err { OnErr result (self.new ≡ self.old) }
    {
        self.packets.push(packet)?;
        Ok(())
    }

    /// Returns the packets, in order.
    pub fn as_slice(&self) -> &[CheckedPacket]
        ensures { result.now ≡ self.now }
    {
        self.packets.as_slice()
    }

    /// Returns the number of packets.
    pub fn len(&self) -> usize
        ensures { result ≡ length self.now }
    {
        self.packets.len()
    }

    /// Returns the number of packets whose picture is shown.
    pub fn shown(&self) -> usize
        ensures { result ≡ count_by is_shown_check self.now }
    {
        self.packets
            .iter()
            .filter(|packet| matches!(packet.outcome, Outcome::Shown))
            .count()
    }

    /// Returns the number of packets that are decoded and not shown.
    pub fn hidden(&self) -> usize
        ensures { result ≡ count_by is_hidden_check self.now }
    {
        self.packets
            .iter()
            .filter(|packet| matches!(packet.outcome, Outcome::Hidden))
            .count()
    }

    /// Returns the number of packets that can't be decoded.
    pub fn faults(&self) -> usize
        ensures { result ≡ count_by is_fault_check self.now }
    {
        self.packets
            .iter()
            .filter(|packet| matches!(packet.outcome, Outcome::Fault(_)))
            .count()
    }

    /// Returns the number of packets that are decoded, but read past the end of a partition.
    pub fn corrupt(&self) -> usize
        ensures { result ≡ count_by is_corrupt_check self.now }
    {
        self.packets.iter().filter(|packet| packet.corrupt).count()
    }
}

/// What is found in a file: its head, its packets, and its fault.
#[derive(Debug, Drop)]
pub struct Checked {
    /// The file's head, if it is whole and valid.
    pub head: Option<IvfHead>,
    /// The packets in order, with the length, the outcome and the damage of each.
    pub packets: CheckList,
    /// The fault that follows these packets, if there is one.
    pub fault: Option<FileFault>,
}

impl Checked {
    ghost use Rattle.vp_check.specs.Checks.{is_sound};

    /// Returns whether nothing is wrong: no packet has a fault or is corrupt, and the file has no fault.
    pub fn is_sound(&self) -> bool
        ensures { result ≡ is_sound self.now }
    {
        self.fault.is_none() && self.packets.faults() == 0 && self.packets.corrupt() == 0
    }
}
