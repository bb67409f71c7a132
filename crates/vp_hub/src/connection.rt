//! The connections of a hub, by number.

ghost use Rattle.std.specs.Prelude.{◌≡◌, ◌≢◌, ◌==◌, ◌<◌, Ok, Err, None, IsOk, IfSome, length, position};
ghost use Rattle.vp_hub.specs.declared.event.HubFault.TheVariants.{Memory};
ghost use Rattle.vp_hub.specs.Hub.{IsPlaceOf, connection_state_of, without_connection, opened, shut};

use crate::event::{HubFault, Reply};
use crate::source::nothing;
use std::alloc::Global;
use vp_heads::Buffer;

/// The state of a connection.
#[derive(Drop)]
pub struct ConnectionState {
    /// The bytes received after the last whole request head.
    pub pending: Buffer,
    /// Whether the hub has closed it.
    pub closed: bool,
}

/// A connection and its number.
#[derive(Drop)]
pub struct Connection {
    /// The connection's number.
    pub number: u32,
    /// The connection's state.
    pub state_of_connection: ConnectionState,
}

fn place_of(connections: &[Connection], number: u32) -> Option<usize>
    ensures place { result ≡ position (λ x. x.number == number) connections.now }
    ensures there { IfSome result (λ i. i < length connections.now) }
{
    connections.iter().position(|x| x.number == number)
}

/// Returns the index of the connection with this number.
pub(crate) fn find(connections: &[Connection], number: u32) -> Option<usize>
    ensures none { result ≡ None → connection_state_of number connections.now ≡ None }
    ensures some { IfSome result (IsPlaceOf number connections.now) }
{
    place_of(connections, number)
}

/// Opens a connection with this number.
pub(crate) fn open_one(
    alloc: Global,
    connections: &mut Vec<Connection>,
    number: u32,
) -> Result<Reply, HubFault>
    ensures memory { result ≡ Err Memory → connections.new.items ≡ connections.old.items }
    ensures fine { result ≡ Err Memory → IsOk (opened number connections.old.items
        (connection_state_of number connections.old.items)).1 }
    ensures step { result ≢ Err Memory → (connections.new.items, result)
        ≡ opened number connections.old.items (connection_state_of number connections.old.items) }
{
    if let Some(_) = find(connections, number) {
        return Err(HubFault::AlreadyOpen);
    }
    if connections.len() >= 64 {
        return Err(HubFault::TooMany);
    }
    let state_of_connection = ConnectionState {
        pending: Buffer::new(alloc),
        closed: false,
    };
    let Ok(()) = connections.push(Connection {
        number,
        state_of_connection,
    }) else {
        return Err(HubFault::Memory);
    };
    Ok(nothing(alloc))
}

/// Removes the connection with this number.
pub(crate) fn shut_one(
    alloc: Global,
    connections: &mut Vec<Connection>,
    number: u32,
) -> Result<Reply, HubFault>
    ensures memory { result ≢ Err Memory }
    ensures step { (connections.new.items, result)
        ≡ shut number connections.old.items (connection_state_of number connections.old.items) }
{
    let Some(_) = find(connections, number) else {
        return Err(HubFault::UnknownConn);
    };
    remove_all(connections, number);
    Ok(nothing(alloc))
}

/// Removes all connections with this number; the others keep their order.
fn remove_all(connections: &mut Vec<Connection>, number: u32)
    ensures { connections.new.items ≡ without_connection number connections.old.items }
{
    connections.retain(|x| x.number != number);
}
