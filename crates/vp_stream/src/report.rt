//! The report of decoding a file: counts and faults.

ghost use Rattle.std.specs.Prelude.{◌≡◌, ◌+◌, ◌-◌, ◌^◌, ◌<◌, ◌≤◌, ◌++◌, ◌∷◌, ◌↔◌, [], IsTrue, OnOk, OnErr};

use std::alloc::{AllocError, Global};
use std::marker::Model;
use vp_decode::Outcome;
use vp_head::PacketFault;

/// The faulty packets of a file: the number of each, and its fault. Its model is a list.
#[derive(Debug, Drop)]
pub struct FaultList {
    faults: Vec<(u32, PacketFault)>,
}

impl Model for FaultList {
    ghost use Rattle.std.specs.Prelude.{List, ℕ};
    ghost use Rattle.vp_head.specs.declared.fault.PacketFault.{PacketFault};

    ghost Value = { List (ℕ × PacketFault) };

    ghost view = { λ a. a.faults.items };
}

impl FaultList {
    /// Creates an empty list.
    pub(crate) fn new(alloc: Global) -> FaultList
        ensures { result ≡ [] }
    {
        FaultList {
            faults: Vec::new(alloc),
        }
    }

    /// Returns the packets' numbers and faults, in order.
    pub fn as_slice(&self) -> &[(u32, PacketFault)]
        ensures { result.now ≡ self.now }
    {
        self.faults.as_slice()
    }

    /// Returns whether there are no faults.
    pub fn is_empty(&self) -> bool
        ensures { IsTrue result ↔ (self.now ≡ []) }
    {
        self.faults.is_empty()
    }

    /// Appends a packet. If memory runs out, the list is unchanged.
    pub(crate) fn push(&mut self, packet: u32, fault: PacketFault) -> Result<(), AllocError>
        ensures ok { OnOk result (self.new ≡ self.old ++ (packet, fault) ∷ []) }
        ensures err { OnErr result (self.new ≡ self.old) }
    {
        self.faults.push((packet, fault))?;
        Ok(())
    }
}

/// The report of decoding a file.
#[derive(Debug, Drop)]
pub struct Report {
    /// The number of packets.
    pub packets: u32,
    /// The number of pictures shown.
    pub shown: u32,
    /// The number of packets that are decoded and not shown.
    pub hidden: u32,
    /// The packets that can't be decoded: their numbers, from 0, and their faults.
    pub faults: FaultList,
}

impl Report {
    ghost use Rattle.vp_stream.specs.Transcode.{with_outcome};

    /// Creates the report of no packets.
    pub(crate) fn new(alloc: Global) -> Report
        ensures { result ≡ record { packets = 0; shown = 0; hidden = 0; faults = [] } }
    {
        Report {
            packets: 0,
            shown: 0,
            hidden: 0,
            faults: FaultList::new(alloc),
        }
    }

    /// Counts one more packet. If memory runs out, the report is unchanged.
    pub(crate) fn count(&mut self, outcome: Outcome) -> Result<(), AllocError>
        requires room { self.old.packets + 1 < 2 ^ 32 }
        requires numbers { self.old.shown + self.old.hidden ≤ self.old.packets }
        ensures ok { OnOk result (self.new ≡ with_outcome self.old outcome) }
        ensures err { OnErr result (self.new ≡ self.old) }
    {
        match outcome {
            Outcome::Shown => self.shown += 1,
            Outcome::Hidden => self.hidden += 1,
            Outcome::Fault(fault) => self.faults.push(self.packets, fault)?,
        }
        self.packets += 1;
        Ok(())
    }
}
