//! The events that a hub handles, and its answers.

ghost use Rattle.std.specs.Prelude.{Some};
ghost use Rattle.vp_hub.specs.Names.{hub_fault_name};

use std::fmt;
use vp_base::ByteList;

/// An event that a hub handles.
#[derive(Drop)]
pub enum Event {
    /// A piece of the stream with this name.
    Feed(ByteList, ByteList),
    /// The end of the stream with this name.
    End(ByteList),
    /// A connection with this number opens.
    Open(u32),
    /// A piece of the bytes that the connection with this number has received.
    Bytes(u32, ByteList),
    /// The connection with this number is gone.
    Shut(u32),
}

/// The answer to an event.
#[derive(Debug, Drop)]
pub struct Reply {
    /// The bytes to be sent on the connection.
    pub bytes: ByteList,
    /// Whether the connection is to be closed after they are sent.
    pub close: bool,
}

/// The reasons for which an event is refused.
#[derive(Clone, Copy, Debug, PartialEq, Eq, Drop)]
pub enum HubFault {
    /// There is no stream with this name.
    UnknownStream,
    /// The stream has ended.
    Ended,
    /// There is no connection with this number.
    UnknownConn,
    /// There is a connection with this number already.
    AlreadyOpen,
    /// There are 64 other connections.
    TooMany,
    /// The stream has a fault, or the hub has closed the connection.
    Failed,
    /// Out of memory.
    Memory,
}

/// Writes the fault's name.
impl fmt::Display for HubFault {
    ghost output = { λ fault. Some (hub_fault_name fault) };

    fn fmt<W: fmt::Write>(&self, f: &mut fmt::Formatter<W>) -> fmt::Result {
        f.write_str(match self {
            HubFault::UnknownStream => "UnknownStream",
            HubFault::Ended => "Ended",
            HubFault::UnknownConn => "UnknownConn",
            HubFault::AlreadyOpen => "AlreadyOpen",
            HubFault::TooMany => "TooMany",
            HubFault::Failed => "Failed",
            HubFault::Memory => "Memory",
        })
    }
}
