//! The IVF file of a handle with its cursor: a file that grows, and requests for its packets.

ghost use Rattle.std.specs.Prelude.{◌≡◌, IfOk};
ghost use Rattle.vp_stream.specs.Cursor.{IsCursorOf};

use crate::file_handle::{FileHandle, answer_number};
use crate::status::MEMORY;
use std::alloc::{AllocError, Global};
use vp_base::Limits;
use vp_stream::{Answer, Cursor, Stream};

/// A file, a cursor of its stream, and the number of packets decoded for requests.
#[derive(Drop)]
pub struct StreamHandle {
    /// The file, and the answer for the last requested packet.
    pub file: FileHandle,
    /// A decoder that is past packets of the file, so that packets in order are decoded once each.
    pub cursor: Cursor,
    /// The number of packets decoded for all requests. It saturates at 2^64 - 1.
    pub decoded: u64,
    ghost own: { IsCursorOf cursor file.stream },
}

impl StreamHandle {
    ghost use Rattle.vp8_c.specs.FileHandle.{AnswersPacket, Feeds, Finishes, IsFile};
    ghost use Rattle.vp8_c.specs.StreamHandle.{IsEmpty, IsUnasked, KeepsCursor, Seeks};

    /// Creates a handle's file without any bytes.
    pub fn empty(alloc: Global) -> StreamHandle
        ensures { IsEmpty result }
    {
        let limits = Limits::usual();
        StreamHandle {
            file: FileHandle {
                stream: Stream::new(alloc, limits),
                ended: Ok(()),
                answer: Answer::NoPacket,
            },
            cursor: Cursor::new(alloc, limits),
            decoded: 0,
        }
    }

    /// Creates a handle's file from all its bytes.
    pub fn of_file(alloc: Global, bytes: &[u8]) -> Result<StreamHandle, AllocError>
        ensures file { IfOk result (λ a. IsFile bytes.now a.file) }
        ensures unasked { IfOk result IsUnasked }
    {
        let mut whole = StreamHandle::empty(alloc);
        if whole.feed(bytes) == MEMORY {
            return Err(AllocError);
        }
        let _fault = whole.finish();
        Ok(whole)
    }

    /// Takes the next piece of the file.
    pub fn feed(&mut self, piece: &[u8]) -> u32
        ensures fed { Feeds piece.now result self.old.file self.new.file }
        ensures cursor { KeepsCursor self.old self.new }
    {
        self.file.feed(piece)
    }

    /// Marks the end of the file.
    pub fn finish(&mut self) -> u32
        ensures finished { Finishes result self.old.file self.new.file }
        ensures cursor { KeepsCursor self.old self.new }
    {
        self.file.finish()
    }

    /// Decodes packet `n`, from the cursor on or from the last key packet on, and keeps the answer.
    pub fn ask(&mut self, n: u32) -> u32
        ensures answered { AnswersPacket n result self.old.file self.new.file }
        ensures cost { Seeks n result self.old self.new }
    {
        let file = &self.file;
        let found = file
            .stream
            .picture_from(n, &mut self.cursor, &mut self.decoded);
        match found {
            Ok(answer) => {
                let number = answer_number(&answer);
                self.file.answer = answer;
                number
            }
            Err(_) => MEMORY,
        }
    }
}
