//! The report of decoding a range of packets.

ghost use Rattle.std.specs.Prelude.{◌≡◌, ◌++◌, ◌∷◌, ◌↔◌, [], IsTrue, OnOk, OnErr};

use std::alloc::{AllocError, Global};
use std::marker::Model;
use vp_head::PacketFault;

/// The faulty packets of a range: the number of each in its file, and its fault. Its model is a list.
#[derive(Debug, Drop)]
pub struct RangeFaults {
    faults: Vec<(u32, PacketFault)>,
}

impl Model for RangeFaults {
    ghost use Rattle.std.specs.Prelude.{List, ℕ};
    ghost use Rattle.vp_head.specs.declared.fault.PacketFault.{PacketFault};

    ghost Value = { List (ℕ × PacketFault) };

    ghost view = { λ a. a.faults.items };
}

impl RangeFaults {
    /// Creates an empty list.
    pub(crate) fn new(alloc: Global) -> RangeFaults
        ensures { result ≡ [] }
    {
        RangeFaults {
            faults: Vec::new(alloc),
        }
    }

    /// Returns the packets' numbers and faults, in order.
    pub fn as_slice(&self) -> &[(u32, PacketFault)]
        ensures { result.now ≡ self.now }
    {
        self.faults.as_slice()
    }

    /// Returns whether there are no faults.
    pub fn is_empty(&self) -> bool
        ensures { IsTrue result ↔ (self.now ≡ []) }
    {
        self.faults.is_empty()
    }

    /// Appends a packet. If memory runs out, the list is unchanged.
    pub(crate) fn push(&mut self, packet: u32, fault: PacketFault) -> Result<(), AllocError>
        ensures ok { OnOk result (self.new ≡ self.old ++ (packet, fault) ∷ []) }
        ensures err { OnErr result (self.new ≡ self.old) }
    {
        self.faults.push((packet, fault))?;
        Ok(())
    }
}

/// The report of decoding a range of packets.
#[derive(Debug, Drop)]
pub struct RangeReport {
    /// The number of packets in the file.
    pub count: u32,
    /// The number of packets decoded, each once: those of the range, and those before it from the last key packet on.
    pub decoded: u64,
    /// The packets of the range that can't be decoded.
    pub faults: RangeFaults,
}
