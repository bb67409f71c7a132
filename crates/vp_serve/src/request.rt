//! The request of a connection that the next reply answers.

ghost use Rattle.vp_serve.specs.Bounds.{IsKeptLine};

use std::alloc::Global;
use vp_base::ByteList;

/// The most bytes of a request's line that are kept, as many as a head may have.
const MAX_LINE: usize = 8192;

/// What was handed to the hub for one connection since its last reply: the first line that isn't blank, and the number
/// of packets that were decoded.
#[derive(Drop)]
pub struct PendingRequest {
    // Without its line end, once all of it is there.
    line: Vec<u8>,
    is_whole: bool,
    packets: u64,
    // Whether the reply was made, so that what comes next belongs to another request.
    is_answered: bool,
    ghost short: { IsKeptLine line.items },
}

impl PendingRequest {
    /// Nothing was handed to the hub yet.
    pub fn new(alloc: Global) -> PendingRequest {
        PendingRequest {
            line: Vec::new(alloc),
            is_whole: false,
            packets: 0,
            is_answered: false,
        }
    }

    /// The first line that isn't blank, without its line end, as far as it was handed to the hub: at most 8,192 bytes.
    pub fn line(&self) -> &[u8]
        ensures { IsKeptLine result.now }
    {
        self.line.as_slice()
    }

    /// The number of packets that were decoded. It saturates.
    pub fn packets(&self) -> u64 {
        self.packets
    }

    /// A line, or a piece of one, was handed to the hub, and packets were decoded for it.
    pub fn add(&mut self, piece: ByteList, packets: u64) {
        if self.is_answered {
            self.line.clear();
            self.is_whole = false;
            self.packets = 0;
            self.is_answered = false;
        }
        self.packets = self.packets.saturating_add(packets);
        if !self.is_whole {
            self.join(piece.into_vec());
        }
    }

    // Appends a piece to the line, as far as there is room. If memory is refused for that, the line stays shorter.
    fn join(&mut self, mut piece: Vec<u8>) {
        let ends = ends_line(&piece);
        piece.truncate(MAX_LINE - self.line.len());
        if self.line.is_empty() {
            self.line = piece;
        } else {
            let _ = self.line.extend_from_slice(&piece);
        }
        if ends {
            let length = without_line_end(&self.line).len();
            self.line.truncate(length);
            self.is_whole = length > 0;
        }
    }

    /// The reply was made.
    pub fn answer(&mut self) {
        self.is_answered = true;
    }
}

fn ends_line(piece: &[u8]) -> bool {
    piece.last() == Some(&b'\n')
}

fn without_line_end(line: &[u8]) -> &[u8] {
    let text = line.strip_suffix(b"\n").unwrap_or(line);
    text.strip_suffix(b"\r").unwrap_or(text)
}
