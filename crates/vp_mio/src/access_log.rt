//! A line for each reply, for whoever runs the server.

ghost use Rattle.std.specs.Prelude.{◌≡◌, ◌≤◌, ◌++◌, ℕ, List, IfSome, true, codes, flat_map, length};
ghost use Rattle.vp_mio.specs.AccessLine.{IsAccessLine, IsTimeText, numbers_text, peer_text, status_text};
ghost use Rattle.vp_mio.specs.Growth.{GrowsBy};
ghost use Rattle.vp_mio.specs.Lines.{IsPlainLine, printed};

use crate::line::Line;
use httpdate::HttpDate;
use std::alloc::Global;
use std::io::Write;
use std::net::SocketAddr;

/// A reply that was made.
#[derive(Drop)]
pub struct Access<'a> {
    /// The seconds since 1970.
    pub seconds: u64,
    /// The number of its connection.
    pub number: u32,
    /// The address of the peer, if it is known.
    pub peer: Option<SocketAddr>,
    /// The line of the request.
    pub request: &'a [u8],
    /// The bytes of the reply.
    pub reply: &'a [u8],
    /// How many packets were decoded for it.
    pub packets: u64,
}

/// A line about a reply: the time, the connection, its peer, the line of the request, the status, the number of bytes
/// after the reply's head, and the number of decoded packets. `None` if memory was refused.
pub fn access_line(alloc: Global, access: &Access<'_>) -> Option<Vec<u8>>
    ensures plain { IfSome result (λ line. IsPlainLine line.items) }
    ensures fields { IfSome result (λ line. IsAccessLine access.now line.items) }
{
    let mut line = Line::new(alloc);
    line.put(b"[");
    put_time(&mut line, access.seconds);
    if !put_peer(alloc, &mut line, access) {
        return None;
    }
    line.put_quoted(access.request);
    if !put_reply(alloc, &mut line, access) {
        return None;
    }
    line.end()
}

// Appends a time as HTTP writes it. Behind the year 9999 it appends nothing.
fn put_time(line: &mut Line, seconds: u64)
    ensures { (time : List ℕ) × IsTimeText seconds time × GrowsBy line.old line.new (flat_map printed time) }
{
    if let Ok(date) = HttpDate::from_unix_secs(seconds) {
        line.put(&date.to_bytes());
    }
}

// Appends the number of a connection, and its peer. False if memory was refused.
fn put_peer(alloc: Global, line: &mut Line, access: &Access<'_>) -> bool
    ensures { result ≡ true →
        GrowsBy line.old line.new (flat_map printed (peer_text access.now.number access.now.peer)) }
{
    let mut text = Vec::new(alloc);
    let written = match access.peer {
        Some(peer) => write!(text, "] {} {peer} ", access.number),
        None => write!(text, "] {} - ", access.number),
    };
    line.put(&text);
    written.is_ok()
}

// Appends the status of a reply, the bytes after its head, and the number of packets. False if memory was refused.
fn put_reply(alloc: Global, line: &mut Line, access: &Access<'_>) -> bool
    ensures { result ≡ true → (count : ℕ) × (count ≤ length access.now.reply.now)
        × GrowsBy line.old line.new (codes " " ++ (flat_map printed (status_text access.now.reply.now)
        ++ flat_map printed (numbers_text count access.now.packets))) }
{
    line.put(b" ");
    line.put(status_of(access.reply));
    let mut text = Vec::new(alloc);
    let written = write!(text, " {} {}", body_length(access.reply), access.packets);
    line.put(&text);
    written.is_ok()
}

// The three digits after `HTTP/1.1 `.
fn status_of(reply: &[u8]) -> &[u8]
    ensures { result.now ≡ status_text reply.now }
{
    if reply.len() < 12 {
        b"-"
    } else {
        &reply[9..12]
    }
}

// How many bytes follow the blank line that ends the head.
fn body_length(reply: &[u8]) -> usize
    ensures { result ≤ length reply.now }
{
    match reply
        .windows(4)
        .position(|four| four == b"\r\n\r\n".as_slice())
    {
        Some(place) => reply.len().saturating_sub(place).saturating_sub(4),
        None => 0,
    }
}
