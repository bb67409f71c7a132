//! What was seen of a file's bytes.

ghost use Rattle.std.specs.Prelude.{◌≡◌, ◌++◌, take};
ghost use Rattle.vp_hints.specs.Kinds.{kind_of};
ghost use Rattle.vp_hints.specs.Seen.{head_fault, more_seen, nothing_seen};
ghost use Rattle.vp_hints.specs.Seen.{seen_bytes, seen_head, seen_packets, seen_view};

use crate::kinds::{FileKind, kind_of};
use crate::packets::PacketCount;
use arrayvec::ArrayVec;
use vp_ivf::FileFault;

// The number of bytes that are kept.
const KEPT: usize = 128;

/// A file's first 128 bytes, the number of its bytes that have passed, and of its packets, if it is an IVF file.
#[derive(Drop)]
pub struct Seen {
    head: ArrayVec<u8, KEPT>,
    bytes: u64,
    packets: PacketCount,
}

impl Seen {
    /// Nothing was seen yet.
    pub fn new() -> Seen
        ensures { seen_view result ≡ nothing_seen }
    {
        Seen {
            head: ArrayVec::new(),
            bytes: 0,
            packets: PacketCount::new(),
        }
    }

    /// The first bytes, up to 128.
    pub fn head(&self) -> &[u8]
        ensures { result.now ≡ seen_head self.now }
    {
        self.head.as_slice()
    }

    /// The number of bytes; saturates at `u64::MAX`.
    pub fn bytes(&self) -> u64
        ensures { result ≡ seen_bytes self.now }
    {
        self.bytes
    }

    /// The packets, counted as those of an IVF file.
    pub fn packets(&self) -> PacketCount
        ensures { result ≡ seen_packets self.now }
    {
        self.packets
    }

    /// The kind of the file.
    pub fn kind(&self) -> FileKind
        ensures { result ≡ kind_of (seen_head self.now) }
    {
        kind_of(self.head.as_slice())
    }

    /// Sees the next bytes.
    pub fn pass(&mut self, bytes: &[u8])
        ensures { seen_view self.new ≡ more_seen (seen_view self.old) bytes.now }
    {
        keep(&mut self.head, bytes);
        self.bytes = self.bytes.saturating_add(bytes.len() as u64);
        self.packets.pass(bytes);
    }
}

/// Returns the fault that a file's first 32 bytes show, as those of an IVF file.
#[tactic(auto, unfolding(vp_ivf::specs::Ivf::next_head))]
pub fn head_fault(head: &[u8]) -> Option<FileFault>
    ensures { result ≡ head_fault head.now }
{
    if head.len() < 32 {
        return None;
    }
    if !head.starts_with(b"DKIF") {
        return Some(FileFault::Signature);
    }
    if !head.split_at(8).1.starts_with(b"VP80") {
        return Some(FileFault::Codec);
    }
    None
}

// Keeps the next bytes, as far as there is room.
fn keep(head: &mut ArrayVec<u8, KEPT>, bytes: &[u8])
    ensures { head.new.items ≡ take 128 (head.old.items ++ bytes.now) }
{
    let room = head.remaining_capacity().min(bytes.len());
    let _ = head.try_extend_from_slice(&bytes[..room]);
}
