//! The IVF file of a handle.

ghost use Rattle.std.specs.Prelude.{◌≡◌, option_map};
ghost use Rattle.vp_stream.specs.Seeking.{answer_value};
ghost use Rattle.vp_stream.specs.Cursor.{Cursor, IsCursorOf};
ghost use Rattle.vp8_c.specs.Status.{answer_status, ending_number};
ghost use Rattle.vp8_c.specs.Ending.{ending_of};

use crate::status::{HIDDEN, MEMORY, NO_PACKET, OK, fault_number, file_number};
use vp_base::Dim;
use vp_ivf::{FeedError, FileFault};
use vp_stream::{Answer, Stream};

/// A file, its fault if it has one, and the answer for the last requested packet.
#[derive(Drop)]
pub struct FileHandle {
    /// The stream that the bytes of the file are fed to.
    pub stream: Stream,
    /// The file's fault so far, or the result of marking its end.
    pub ended: Result<(), FileFault>,
    /// The answer for the last requested packet.
    pub answer: Answer,
    ghost ending: { ended ≡ ending_of stream },
}

/// Information about a file.
#[repr(C)]
#[derive(Clone, Copy)]
pub struct StreamInfo {
    /// The width in pixels in the file's head.
    pub width: u32,
    /// The height in pixels in the file's head.
    pub height: u32,
    /// The numerator of the frame rate: `rate / scale` pictures a second.
    pub rate: u32,
    /// The denominator of the frame rate.
    pub scale: u32,
    /// The number of whole packets.
    pub packets: u32,
    /// `OK`, or the fault of the file.
    pub fault: u32,
}

/// The picture of a packet: its size in pixels, and its I420 pixels.
#[derive(Clone, Copy)]
pub struct KeptPicture<'a> {
    /// The size in pixels.
    pub dim: Dim,
    /// The pixels of Y, U and V, without gaps between rows.
    pub i420: &'a [u8],
}

/// Returns the status number of an answer.
pub(crate) fn answer_number(answer: &Answer) -> u32
    ensures { result ≡ answer_status (answer_value answer.now) }
{
    match answer {
        Answer::Shown(_, _) => OK,
        Answer::Hidden => HIDDEN,
        Answer::Fault(fault) => fault_number(*fault),
        Answer::NoPacket => NO_PACKET,
    }
}

impl FileHandle {
    ghost use Rattle.vp8_c.specs.FileHandle.{Feeds, Finishes, stream_info, shown_picture, i420_picture};

    /// Takes the next piece of the file.
    pub fn feed(&mut self, piece: &[u8]) -> u32
        ensures fed { Feeds piece.now result self.old self.new }
        ensures cursors { (cursor : Cursor) → IsCursorOf cursor self.old.stream → IsCursorOf cursor self.new.stream }
    {
        if let Some(fault) = self.stream.refusal() {
            return file_number(fault);
        }
        match self.stream.feed(piece) {
            Ok(()) => OK,
            Err(FeedError::Fault(fault)) => {
                self.ended = Err(fault);
                file_number(fault)
            }
            Err(FeedError::Memory) => MEMORY,
        }
    }

    /// Marks the end of the file.
    pub fn finish(&mut self) -> u32
        ensures finished { Finishes result self.old self.new }
        ensures cursors { (cursor : Cursor) → IsCursorOf cursor self.old.stream → IsCursorOf cursor self.new.stream }
    {
        self.ended = self.stream.finish();
        match self.ended {
            Ok(()) => OK,
            Err(fault) => file_number(fault),
        }
    }

    /// Returns information about the file.
    pub fn info(&self) -> StreamInfo
        ensures info { result ≡ stream_info self.now }
        ensures fault { result.fault ≡ ending_number (ending_of self.now.stream) }
    {
        let fault = match self.ended {
            Ok(()) => OK,
            Err(fault) => file_number(fault),
        };
        let packets = self.stream.count();
        match self.stream.head() {
            Some(head) => StreamInfo {
                width: u32::from(head.w),
                height: u32::from(head.h),
                rate: head.rate,
                scale: head.scale,
                packets,
                fault,
            },
            None => StreamInfo {
                width: 0,
                height: 0,
                rate: 0,
                scale: 0,
                packets,
                fault,
            },
        }
    }

    /// Returns the kept picture.
    pub fn picture(&self) -> Option<KeptPicture<'_>>
        ensures { option_map i420_picture result ≡ shown_picture (answer_value self.now.answer) }
    {
        match &self.answer {
            Answer::Shown(dim, bytes) => Some(KeptPicture {
                dim: *dim,
                i420: bytes.as_slice(),
            }),
            Answer::Hidden | Answer::Fault(_) | Answer::NoPacket => None,
        }
    }
}
