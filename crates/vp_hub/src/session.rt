//! Serves one connection over a reader and a writer.

ghost use Rattle.std.specs.Prelude.{◌≡◌, ◌≢◌, ◌⊎◌, ◌≤◌, ◌+◌, ◌^◌, ℕ, List, Some, Ok, Err, OnOk, IfErr};
ghost use Rattle.std.specs.Io.KnownBytes.{Consumes};
ghost use Rattle.vp_base.specs.Counted.{counted_remaining, counted_contents, counted_failures, counted_reads, one_more};
ghost use Rattle.vp_base.specs.Counted.{HasFailed, HasRisenBy};
ghost use Rattle.vp_hub.specs.declared.event.Event.{Event};
ghost use Rattle.vp_hub.specs.declared.event.Reply.{Reply};
ghost use Rattle.vp_hub.specs.declared.session.ServeFault.{ServeFault};
ghost use Rattle.vp_hub.specs.Hub.{IsStep, Outcome, connection_state_of, new_connection_state};
ghost use Rattle.vp_hub.specs.Names.{serve_fault_name};
ghost use Rattle.vp_hub.specs.Lines.{IsLine};
ghost use Rattle.vp_hub.specs.Sessions.{AnswersLine, AnswersPiece, Exchanges, IsOpenSession, IsPiece, IsSession};
ghost use Rattle.vp_hub.specs.Sessions.{IsTurnedAway, IsUnchangedApart};
ghost use Rattle.vp_hub.specs.Work.{IsWorked};

use crate::event::{Event, HubFault};
use crate::hub::Hub;
use crate::lines::first_line;
use std::fmt;
use std::io::{Read, Write};
use vp_base::{Counted, put_all};

/// The reasons for which a connection isn't served to its end.
#[derive(Clone, Copy, Debug, PartialEq, Eq)]
pub enum ServeFault {
    /// The hub refused an event.
    Hub(HubFault),
    /// A read or a write failed.
    Device,
    /// The connection did not end within 1,048,576 reads.
    ReadTurns,
}

/// Writes the fault's name.
impl fmt::Display for ServeFault {
    ghost output = { λ fault. Some (serve_fault_name fault) };

    fn fmt<W: fmt::Write>(&self, f: &mut fmt::Formatter<W>) -> fmt::Result {
        let name = match self {
            ServeFault::Hub(fault) => return write!(f, "{fault}"),
            ServeFault::Device => "Device",
            ServeFault::ReadTurns => "ReadTurns",
        };
        f.write_str(name)
    }
}

/// Serves one connection. It is opened in the hub, and each piece read (at most 4,096 bytes) is handed to the hub line
/// by line. The response to a line is written before the next line is handed in and before the next read. So at most
/// one response is in memory, and there is back-pressure. The connection is shut after a response that closes it, at
/// the reader's end, or after a fault; the rest of the piece isn't handed in then. Failed reads and writes are not
/// retried.
///
/// Errors: `ServeFault`.
pub fn serve_one<R: Read, W: Write>(
    hub: &mut Hub,
    conn: u32,
    reader: &mut Counted<R>,
    writer: &mut Counted<W>,
) -> Result<(), ServeFault>
    // If the opening is refused, nothing is read, written or decoded, and cache and cursors are unchanged. Else these
    // and the decoded packets are those of the events.
    ensures served { (IsTurnedAway conn hub.old.state hub.new.state result × (hub.new.cache ≡ hub.old.cache)
        × (hub.new.cursors ≡ hub.old.cursors) × (reader.new ≡ reader.old) × (writer.new ≡ writer.old) × (hub.new.work ≡ 0))
        ⊎ ((read : List ℕ)
        × Consumes (counted_remaining R.remaining reader.old) (counted_remaining R.remaining reader.new) read
        × IsSession conn hub.old hub.new result read (counted_remaining R.remaining reader.new)
        (counted_contents W.contents writer.old) (counted_contents W.contents writer.new)
        (HasFailed (counted_failures writer.old) (counted_failures writer.new))) }

    // Afterwards the streams and connections are as before: the connection is gone.
    ensures stays { hub.new.state ≡ hub.old.state }

    // `Device` is returned only after a failed read or write, and always after one.
    ensures device { result ≡ Err ServeFault.Device →
        HasFailed (counted_failures reader.old) (counted_failures reader.new)
        ⊎ HasFailed (counted_failures writer.old) (counted_failures writer.new) }
    ensures quiet { result ≢ Err ServeFault.Device →
        (counted_failures reader.new ≡ counted_failures reader.old)
        × (counted_failures writer.new ≡ counted_failures writer.old) }

    // In all cases at most 2^20 reads are made. `ReadTurns` is returned after exactly that many.
    ensures reads { counted_reads reader.new ≤ counted_reads reader.old + 2 ^ 20 }
    ensures turns { result ≡ Err ServeFault.ReadTurns →
        HasRisenBy (2 ^ 20) (counted_reads reader.old) (counted_reads reader.new) }
{
    if let Err(fault) = open_connection(hub, conn) {
        return Err(ServeFault::Hub(fault));
    }
    let served = serve_open(hub, conn, reader, writer);
    shut_connection(hub, conn);
    served
}

// Opens the connection in the hub.
fn open_connection(hub: &mut Hub, conn: u32) -> Result<(), HubFault>
    ensures opened { OnOk result ((reply : Reply) × IsStep hub.old.state (Event.Open conn) (Ok reply) hub.new.state
        × IsWorked hub.old (Event.Open conn) (Ok reply) hub.new) }
    ensures refused { IfErr result (λ fault. IsStep hub.old.state (Event.Open conn) (Err fault) hub.new.state
        × IsWorked hub.old (Event.Open conn) (Err fault) hub.new) }
{
    match hub.step(&Event::Open(conn)) {
        Ok(_) => Ok(()),
        Err(fault) => Err(fault),
    }
}

// Shuts the connection in the hub.
fn shut_connection(hub: &mut Hub, conn: u32)
    ensures { (o : Outcome) × IsStep hub.old.state (Event.Shut conn) o hub.new.state
        × IsWorked hub.old (Event.Shut conn) o hub.new }
{
    let _ = hub.step(&Event::Shut(conn));
}

// Reads and responds until the end, a response that closes the connection, or a fault.
fn serve_open<R: Read, W: Write>(
    hub: &mut Hub,
    conn: u32,
    reader: &mut Counted<R>,
    writer: &mut Counted<W>,
) -> Result<(), ServeFault>
    requires { connection_state_of conn hub.old.state.connections ≡ Some new_connection_state }
    ensures talked { (read : List ℕ)
        × Consumes (counted_remaining R.remaining reader.old) (counted_remaining R.remaining reader.new) read
        × IsOpenSession conn hub.old hub.new result read (counted_remaining R.remaining reader.new)
        (counted_contents W.contents writer.old) (counted_contents W.contents writer.new)
        (HasFailed (counted_failures writer.old) (counted_failures writer.new)) }
    ensures apart { IsUnchangedApart conn hub.old.state hub.new.state }
    ensures device { result ≡ Err ServeFault.Device →
        HasFailed (counted_failures reader.old) (counted_failures reader.new)
        ⊎ HasFailed (counted_failures writer.old) (counted_failures writer.new) }
    ensures quiet { result ≢ Err ServeFault.Device →
        (counted_failures reader.new ≡ counted_failures reader.old)
        × (counted_failures writer.new ≡ counted_failures writer.old) }
    ensures reads { counted_reads reader.new ≤ counted_reads reader.old + 2 ^ 20 }
    ensures turns { result ≡ Err ServeFault.ReadTurns →
        HasRisenBy (2 ^ 20) (counted_reads reader.old) (counted_reads reader.new) }
{
    // Cleared once, not for each read: that would cost more than taking in a short piece.
    let mut buffer = [0; 4096];
    for _turn in 0..1_048_576u32 {
        if !exchange(hub, conn, reader, writer, &mut buffer)? {
            return Ok(());
        }
    }
    Err(ServeFault::ReadTurns)
}

// Reads once into the buffer, and answers what was read. Returns false at the reader's end, and after a response that
// closes the connection.
fn exchange<R: Read, W: Write>(
    hub: &mut Hub,
    conn: u32,
    reader: &mut Counted<R>,
    writer: &mut Counted<W>,
    buffer: &mut [u8; 4096],
) -> Result<bool, ServeFault>
    ensures exchanged { (piece : List ℕ)
        × Consumes (counted_remaining R.remaining reader.old) (counted_remaining R.remaining reader.new) piece
        × Exchanges conn hub.old hub.new result piece (counted_remaining R.remaining reader.new)
        (counted_contents W.contents writer.old) (counted_contents W.contents writer.new)
        (HasFailed (counted_failures writer.old) (counted_failures writer.new)) }
    ensures device { result ≡ Err ServeFault.Device →
        HasFailed (counted_failures reader.old) (counted_failures reader.new)
        ⊎ HasFailed (counted_failures writer.old) (counted_failures writer.new) }
    ensures quiet { result ≢ Err ServeFault.Device →
        (counted_failures reader.new ≡ counted_failures reader.old)
        × (counted_failures writer.new ≡ counted_failures writer.old) }
    ensures counts { counted_reads reader.new ≡ one_more (counted_reads reader.old) }
{
    let Ok(count) = reader.read(buffer) else {
        return Err(ServeFault::Device);
    };
    if count == 0 {
        return Ok(false);
    }
    answer_lines(hub, conn, &buffer[..count], writer)
}

// Hands a piece to the hub line by line, and writes each response before the next line. Returns false after a response
// that closes the connection; then, and after a fault, the rest of the piece isn't handed in.
fn answer_lines<W: Write>(
    hub: &mut Hub,
    conn: u32,
    piece: &[u8],
    writer: &mut Counted<W>,
) -> Result<bool, ServeFault>
    requires { IsPiece piece.now }
    ensures answered { AnswersPiece conn hub.old hub.new result piece.now
        (counted_contents W.contents writer.old) (counted_contents W.contents writer.new)
        (HasFailed (counted_failures writer.old) (counted_failures writer.new)) }
    ensures device { result ≡ Err ServeFault.Device →
        HasFailed (counted_failures writer.old) (counted_failures writer.new) }
    ensures quiet { result ≢ Err ServeFault.Device → counted_failures writer.new ≡ counted_failures writer.old }
{
    let mut rest = piece;
    while !rest.is_empty() {
        let count = first_line(rest);
        if !answer_line(hub, conn, &rest[..count], writer)? {
            return Ok(false);
        }
        rest = &rest[count..];
    }
    Ok(true)
}

// Hands a line to the hub, and writes the response. Returns false after a response that closes the connection.
fn answer_line<W: Write>(
    hub: &mut Hub,
    conn: u32,
    line: &[u8],
    writer: &mut Counted<W>,
) -> Result<bool, ServeFault>
    requires small { IsPiece line.now }
    requires is_line { IsLine line.now }
    ensures answered { AnswersLine conn hub.old hub.new result line.now
        (counted_contents W.contents writer.old) (counted_contents W.contents writer.new)
        (HasFailed (counted_failures writer.old) (counted_failures writer.new)) }
    ensures device { result ≡ Err ServeFault.Device →
        HasFailed (counted_failures writer.old) (counted_failures writer.new) }
    ensures quiet { result ≢ Err ServeFault.Device → counted_failures writer.new ≡ counted_failures writer.old }
{
    let reply = match hub.bytes(conn, line) {
        Ok(reply) => reply,
        Err(fault) => return Err(ServeFault::Hub(fault)),
    };
    let Ok(()) = put_all(writer, reply.bytes.as_slice()) else {
        return Err(ServeFault::Device);
    };
    Ok(!reply.close)
}
