//! The C functions for an IVF file in memory, whole or growing, whose pictures are requested by number.

ghost use Rattle.std.specs.Prelude.{◌≡◌, ◌⊎◌, None, IfSome, IsSomeAnd};
ghost use Rattle.vp8_c.specs.Handle.{handle_value_in};
ghost use Rattle.vp8_c.specs.Arguments.{CopiesBytes, GivesOrFails, IsClosed, Opens, Puts, size_of};
ghost use Rattle.vp8_c.specs.FileHandle.{AnswersPacket, Feeds, Finishes, IsFile, info_in, kept_i420_in, kept_size_in};
ghost use Rattle.vp8_c.specs.FileHandle.{stream_in};
ghost use Rattle.vp8_c.specs.StreamHandle.{IsEmpty, IsUnasked, KeepsCursor, Seeks, stream_handle_in};
ghost use Rattle.vp8_c.specs.Ending.{ending_of};
ghost use Rattle.vp8_c.specs.Status.{ending_number};

use crate::bytes::put_front;
use crate::file_handle::StreamInfo;
use crate::handle::Handle;
use crate::handle_value::HandleValue;
use crate::rows::put_size;
use crate::status::{CLOSED, MEMORY, OK, OPEN};
use crate::stream_handle::StreamHandle;
use std::alloc::Global;

/// Opens a stream, and copies the bytes of a whole IVF file into it.
///
/// Status: `OPEN`, `MEMORY`.
#[unsafe(no_mangle)]
pub extern "C" fn vp8_stream_new(alloc: Global, stream: &mut Handle, bytes: &[u8]) -> u32
    ensures answer { (result ≡ OK) ⊎ (result ≡ OPEN) ⊎ (result ≡ MEMORY) }
    ensures opens { Opens (λ h. IsSomeAnd (stream_in h) (IsFile bytes.now)) result stream.old stream.new }
    ensures unasked { result ≡ OK → IsSomeAnd (stream_handle_in stream.new) IsUnasked }
{
    if stream.is_open() {
        return OPEN;
    }
    let Ok(asked) = StreamHandle::of_file(alloc, bytes) else {
        return MEMORY;
    };
    stream.open(alloc, HandleValue::Stream(asked))
}

/// Opens a stream without any bytes, for a file that is fed in pieces.
///
/// Status: `OPEN`, `MEMORY`.
#[unsafe(no_mangle)]
pub extern "C" fn vp8_stream_new_empty(alloc: Global, stream: &mut Handle) -> u32
    ensures answer { (result ≡ OK) ⊎ (result ≡ OPEN) ⊎ (result ≡ MEMORY) }
    ensures opens { Opens (λ h. IsSomeAnd (stream_handle_in h) IsEmpty) result stream.old stream.new }
{
    if stream.is_open() {
        return OPEN;
    }
    stream.open(alloc, HandleValue::Stream(StreamHandle::empty(alloc)))
}

/// Takes the next piece of the file, of any length.
///
/// Status: the file's fault, if it has one; `ENDED` after its end is marked; `MEMORY`, `CLOSED`.
#[unsafe(no_mangle)]
pub extern "C" fn vp8_stream_feed(alloc: Global, stream: &mut Handle, bytes: &[u8]) -> u32
    ensures closed { stream_in stream.old ≡ None → IsClosed result stream.old stream.new }
    ensures fed { IfSome (stream_in stream.old) (λ a. IsSomeAnd (stream_in stream.new) (Feeds bytes.now result a)) }

    // The picture that is kept and the cursor stay.
    ensures cursor { IfSome (stream_handle_in stream.old) (λ a. IsSomeAnd (stream_handle_in stream.new)
        (KeepsCursor a)) }
{
    let Some(mut held) = stream.take(alloc) else {
        return CLOSED;
    };
    let status = held.feed(bytes);
    stream.put(held);
    status
}

/// Marks the end of the file. Later calls return the same status, and no more pieces are taken.
///
/// Status: the file's fault, if it has one; `CLOSED`.
#[unsafe(no_mangle)]
pub extern "C" fn vp8_stream_finish(alloc: Global, stream: &mut Handle) -> u32
    ensures closed { stream_in stream.old ≡ None → IsClosed result stream.old stream.new }
    ensures finished { IfSome (stream_in stream.old) (λ a. IsSomeAnd (stream_in stream.new) (Finishes result a)) }
    ensures cursor { IfSome (stream_handle_in stream.old) (λ a. IsSomeAnd (stream_handle_in stream.new)
        (KeepsCursor a)) }
{
    let Some(mut held) = stream.take(alloc) else {
        return CLOSED;
    };
    let status = held.finish();
    stream.put(held);
    status
}

/// Writes information about the file.
///
/// Status: `CLOSED`.
#[unsafe(no_mangle)]
pub extern "C" fn vp8_stream_get_info(
    alloc: Global,
    stream: &mut Handle,
    info: &mut StreamInfo,
) -> u32
    ensures held { handle_value_in stream.new ≡ handle_value_in stream.old }
    ensures info { GivesOrFails Puts (info_in stream.old) result info.old info.new }
    ensures fault { IfSome (stream_in stream.old) (λ a. info.new.fault ≡ ending_number (ending_of a.stream)) }
{
    let Some(held) = stream.take(alloc) else {
        return CLOSED;
    };
    let status = match held.asked() {
        Some(asked) => {
            *info = asked.info();
            OK
        }
        None => CLOSED,
    };
    stream.put(held);
    status
}

/// Decodes packet `n`, and keeps its picture. Decoding goes on after the packet requested before, or starts at the
/// last key packet up to `n`: packets in order are decoded once each.
///
/// Status: `HIDDEN`, the faults of a packet, `NO_PACKET`, `MEMORY`, `CLOSED`.
#[unsafe(no_mangle)]
pub extern "C" fn vp8_stream_picture_at(alloc: Global, stream: &mut Handle, n: u32) -> u32
    ensures closed { stream_in stream.old ≡ None → IsClosed result stream.old stream.new }
    ensures answered { IfSome (stream_in stream.old) (λ a. IsSomeAnd (stream_in stream.new)
        (AnswersPacket n result a)) }

    // From where packets are decoded, and how many.
    ensures cost { IfSome (stream_handle_in stream.old) (λ a. IsSomeAnd (stream_handle_in stream.new)
        (Seeks n result a)) }
{
    let Some(mut held) = stream.take(alloc) else {
        return CLOSED;
    };
    let status = held.ask(n);
    stream.put(held);
    status
}

/// Writes the size in pixels of the kept picture.
///
/// Status: `NO_PICTURE`, `CLOSED`.
#[unsafe(no_mangle)]
pub extern "C" fn vp8_stream_size(
    alloc: Global,
    stream: &mut Handle,
    width: &mut u32,
    height: &mut u32,
) -> u32
    ensures held { handle_value_in stream.new ≡ handle_value_in stream.old }
    ensures size { GivesOrFails Puts (kept_size_in stream.old) result (size_of width.old height.old)
        (size_of width.new height.new) }
{
    let Some(held) = stream.take(alloc) else {
        return CLOSED;
    };
    let status = match held.kept() {
        Ok(picture) => put_size(picture.dim, width, height),
        Err(why) => why,
    };
    stream.put(held);
    status
}

/// Copies the kept picture as I420: Y, U and V, without gaps between rows.
///
/// Status: `NO_PICTURE`, `BUFFER`, `CLOSED`.
#[unsafe(no_mangle)]
pub extern "C" fn vp8_stream_copy_i420(alloc: Global, stream: &mut Handle, out: &mut [u8]) -> u32
    ensures held { handle_value_in stream.new ≡ handle_value_in stream.old }
    ensures i420 { GivesOrFails CopiesBytes (kept_i420_in stream.old) result out.old out.new }
{
    let Some(held) = stream.take(alloc) else {
        return CLOSED;
    };
    let status = match held.kept() {
        Ok(picture) => put_front(out, picture.i420),
        Err(why) => why,
    };
    stream.put(held);
    status
}

/// Frees the stream's memory, and closes the handle.
#[unsafe(no_mangle)]
pub extern "C" fn vp8_stream_free(alloc: Global, stream: &mut Handle)
    ensures { handle_value_in stream.new ≡ None }
{
    let _known = stream.take(alloc);
}
