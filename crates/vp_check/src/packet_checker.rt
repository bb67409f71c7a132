//! Checks packets, one after another.

ghost use Rattle.std.specs.Prelude.{◌≡◌, [], None, OnOk};
ghost use Rattle.vp_check.specs.Checking.{after_packet, after_packets, before_packets};

use crate::checked::{CheckList, Checked, CheckedPacket};
use std::alloc::{AllocError, Global};
use std::marker::Model;
use vp_base::Limits;
use vp_decode::{Decoder, OnFault};
use vp_ivf::{FileFault, IvfHead, Reader};

/// A decoder, and what is found in the packets so far.
#[derive(Drop)]
pub struct PacketChecker {
    decoder: Decoder,
    packets: CheckList,
}

impl Model for PacketChecker {
    ghost use Rattle.vp_check.specs.Checking.{PacketChecker};

    ghost Value = { PacketChecker };

    ghost view = { λ a. record { limits = a.decoder.limits; state = a.decoder.state; checks = a.packets } };
}

impl PacketChecker {
    /// Creates the state before the first packet.
    pub(crate) fn new(alloc: Global, limits: Limits) -> PacketChecker
        ensures { result ≡ before_packets limits }
    {
        PacketChecker {
            decoder: Decoder::new(alloc, limits),
            packets: CheckList::new(alloc),
        }
    }

    /// Decodes a packet, as `decode_all` does: a fault drops the decoder's state.
    fn packet(&mut self, packet: &[u8]) -> Result<(), AllocError>
        ensures { OnOk result (self.new ≡ after_packet self.old packet.now) }
    {
        let checked = self.decoder.decode_checked(packet, OnFault::Forget)?;
        self.packets.push(CheckedPacket {
            bytes: packet.len(),
            outcome: checked.outcome,
            corrupt: checked.corrupt,
        })
    }

    /// Takes all packets that a reader has found, and decodes them.
    pub(crate) fn take_packets(&mut self, file: &mut Reader) -> Result<(), AllocError>
        ensures checked { OnOk result (self.new ≡ after_packets self.old file.old.reading.packets) }
        ensures taken { OnOk result (file.new ≡
            record file.old { reading = record file.old.reading { packets = [] } }) }
    {
        while let Some(packet) = file.next_packet() {
            self.packet(packet.bytes.as_slice())?;
        }
        Ok(())
    }

    /// Returns what is found in a file of these packets, with this head and this fault.
    pub(crate) fn into_checked(self, head: Option<IvfHead>, fault: Option<FileFault>) -> Checked
        ensures { result ≡ record { head = head; packets = self.checks; fault = fault } }
    {
        let PacketChecker {
            decoder: _,
            packets,
        } = self;
        Checked {
            head,
            packets,
            fault,
        }
    }
}
