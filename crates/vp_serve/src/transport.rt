//! What carries the bytes of the connections, and reads the files.

ghost use Rattle.std.specs.Prelude.{◌≡◌, ◌≢◌, ◌≤◌, ◌<◌, ◌∷◌, [], ℕ, List, Option, length, take, if◌then◌else◌, nat_eq};
ghost use Rattle.std.specs.Prelude.{◌==◌, false};
ghost use Rattle.vp_serve.specs.Readiness.{Readiness, AreNoReadier};
ghost use Rattle.vp_serve.specs.Transfer.{Transfer, Accepts, Closes, Grows, Logs, Waits};
ghost use Rattle.vp_serve.specs.Transport.{read_count, written_count, read_transfers, write_transfers, grown_transfers};

use crate::reason::CloseReason;
use vp_hub::HubFault;

/// What a read did.
#[derive(Clone, Copy, Debug, PartialEq, Eq)]
pub enum ReadOutcome {
    /// It read this many bytes.
    Bytes(usize),
    /// There are no bytes for now.
    WouldBlock,
    /// The peer sends no more.
    EndOfInput,
    /// It failed.
    Failed,
}

/// What a write did.
#[derive(Clone, Copy, Debug, PartialEq, Eq)]
pub enum WriteOutcome {
    /// It wrote this many bytes.
    Bytes(usize),
    /// Nothing can be written for now.
    WouldBlock,
    /// It failed.
    Failed,
}

/// Connections by their numbers, and files that grow. A connection becomes ready for a read or a write in `wait` and
/// `accept` alone.
pub trait Transport {
    /// What passed so far, if that is known.
    ghost log: { Self → Option (List Transfer) };

    /// What each connection is ready for.
    ghost readiness: { Self → ℕ → Readiness };

    /// Waits until something is ready or a short time is over, or just looks what is ready if the server is busy.
    /// Returns the milliseconds since a fixed start.
    fn wait(&mut self, is_busy: bool) -> u64
        ensures { Logs (log self.old) (log self.new) (Waits is_busy result ∷ []) };

    /// Accepts a connection under this number, if one is there. What the others are ready for stays.
    fn accept(&mut self, number: u32) -> bool
        ensures logs { Logs (log self.old) (log self.new) (if result then Accepts number ∷ [] else []) }
        ensures others { (c : ℕ) → c ≢ number → readiness self.new c ≡ readiness self.old c };

    /// Whether a read of a connection may do something.
    fn can_read(&self, number: u32) -> bool
        ensures { result ≡ (readiness self.now number).read };

    /// Whether a write of a connection may do something.
    fn can_write(&self, number: u32) -> bool
        ensures { result ≡ (readiness self.now number).write };

    /// Reads from a connection into a buffer of 4,096 bytes. If that would block, it is no longer ready for a read.
    fn read(&mut self, number: u32, buffer: &mut [u8]) -> ReadOutcome
        requires room { length buffer.old ≡ 4096 }
        ensures within { read_count result ≤ length buffer.new }
        ensures logs { Logs (log self.old) (log self.new) (read_transfers number result buffer.new) }
        ensures no_readier { AreNoReadier (readiness self.old) (readiness self.new) }
        ensures blocks { result ≡ ReadOutcome.WouldBlock → (readiness self.new number).read ≡ false };

    /// Writes bytes, at least one, to a connection. If that would block, it is no longer ready for a write.
    fn write(&mut self, number: u32, bytes: &[u8]) -> WriteOutcome
        requires some { bytes.now ≢ [] }
        ensures within { written_count result ≤ length bytes.now }
        ensures logs { Logs (log self.old) (log self.new) (write_transfers number result bytes.now) }
        ensures no_readier { AreNoReadier (readiness self.old) (readiness self.new) }
        ensures blocks { result ≡ WriteOutcome.WouldBlock → (readiness self.new number).write ≡ false };

    /// Notes that a reply was made for a connection: when, the line of the request, the bytes of the reply, all of them
    /// still unwritten, and how many packets were decoded for it. Nothing passes by it.
    fn replied(&mut self, number: u32, now: u64, request: &[u8], reply: &[u8], packets: u64)
        ensures logs { log self.new ≡ log self.old }
        ensures no_readier { AreNoReadier (readiness self.old) (readiness self.new) };

    /// Closes a connection.
    fn close(&mut self, number: u32, reason: CloseReason)
        ensures logs { Logs (log self.old) (log self.new) (Closes number reason ∷ []) }
        ensures no_readier { AreNoReadier (readiness self.old) (readiness self.new) };

    /// Reads the next bytes of the file at an index, the file of the stream of this name. Returns their number.
    fn read_file(&mut self, place: usize, name: &[u8], buffer: &mut [u8]) -> usize
        ensures within { result ≤ length buffer.new }
        ensures logs { Logs (log self.old) (log self.new) (grown_transfers place name.now result buffer.new) }
        ensures no_readier { AreNoReadier (readiness self.old) (readiness self.new) };

    /// Reports that a stream takes no more of its file.
    fn stop_file(&mut self, place: usize, fault: HubFault)
        ensures logs { log self.new ≡ log self.old }
        ensures no_readier { AreNoReadier (readiness self.old) (readiness self.new) };
}
