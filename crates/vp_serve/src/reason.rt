//! Why a connection is closed.

ghost use Rattle.std.specs.Prelude.{◌≡◌};
ghost use Rattle.vp_serve.specs.Reasons.{reason_by};

use vp_hub::HubFault;

/// Why a connection is closed.
#[derive(Clone, Copy, Debug, PartialEq, Eq)]
pub enum CloseReason {
    /// The last reply asked for it, and all of that reply was written.
    Finished,
    /// The peer sends no more, and every reply was written.
    PeerEnded,
    /// No reply was made and no byte was written for the idle timeout.
    IdleTimeout,
    /// Memory was refused, here or in the hub.
    OutOfMemory,
    /// A read or a write failed.
    TransferFailed,
    /// The hub refused the connection or its bytes.
    HubRefused,
}

/// The reason that a fault of the hub gives; without a fault the connection is finished.
pub fn reason_of(fault: Option<HubFault>) -> CloseReason
    ensures { result ≡ reason_by fault }
{
    match fault {
        None => CloseReason::Finished,
        Some(HubFault::Memory) => CloseReason::OutOfMemory,
        Some(_) => CloseReason::HubRefused,
    }
}
