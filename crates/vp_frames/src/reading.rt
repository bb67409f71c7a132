//! Reads a whole file into a stream.

ghost use Rattle.std.specs.Prelude.{◌≡◌, ◌≢◌, ◌+◌, ◌-◌, ◌^◌, ◌<◌, ◌≤◌, ℕ, List, length, None, Err};
ghost use Rattle.std.specs.Io.KnownBytes.{Consumes};
ghost use Rattle.vp_base.specs.Counted.{counted_remaining, counted_failures, counted_reads, one_more};
ghost use Rattle.vp_base.specs.Counted.{HasFailed, HasRisenBy};
ghost use Rattle.vp_stream.specs.declared.fault.SurveyFault.{SurveyFault};
ghost use Rattle.vp_stream.specs.Stream.{initial_stream, stream_refusal};
ghost use Rattle.vp_frames.specs.Reading.{ReadsPiece, ReadsFile};

use std::alloc::Global;
use std::io::Read;
use vp_base::Counted;
use vp_ivf::{FeedError, FileFault};
use vp_stream::{Stream, SurveyFault};

/// The most bytes that a read takes in. A file is read to its end before anything is decoded, so the fewer reads the
/// better.
const PIECE: usize = 65_536;

/// Reads a file to its end or its fault into a new stream. Returns the fault.
pub(crate) fn read_file<R: Read>(
    alloc: Global,
    stream: &mut Stream,
    reader: &mut Counted<R>,
) -> Result<Option<FileFault>, SurveyFault>
    requires { stream.old ≡ initial_stream stream.old.limits }
    ensures limits { stream.new.limits ≡ stream.old.limits }
    ensures read { (file : List ℕ)
        × Consumes (counted_remaining R.remaining reader.old) (counted_remaining R.remaining reader.new) file
        × ReadsFile stream.old.limits result stream.new file (counted_remaining R.remaining reader.new) }
    ensures device { result ≡ Err SurveyFault.Device →
        HasFailed (counted_failures reader.old) (counted_failures reader.new) }
    ensures quiet { result ≢ Err SurveyFault.Device →
        counted_failures reader.new ≡ counted_failures reader.old }
    ensures reads { counted_reads reader.new ≤ counted_reads reader.old + (2 ^ 32 - 1) }
    ensures turns { result ≡ Err SurveyFault.ReadTurns →
        HasRisenBy (2 ^ 32 - 1) (counted_reads reader.old) (counted_reads reader.new) }
{
    let mut buffer = vec![in alloc; 0; PIECE]?;
    read_pieces(stream, reader, &mut buffer)
}

// Reads a file as `read_file` does, each piece into `buffer`.
fn read_pieces<R: Read>(
    stream: &mut Stream,
    reader: &mut Counted<R>,
    buffer: &mut [u8],
) -> Result<Option<FileFault>, SurveyFault>
    requires unread { stream.old ≡ initial_stream stream.old.limits }
    requires room { 0 < length buffer.old }
    ensures limits { stream.new.limits ≡ stream.old.limits }
    ensures read { (file : List ℕ)
        × Consumes (counted_remaining R.remaining reader.old) (counted_remaining R.remaining reader.new) file
        × ReadsFile stream.old.limits result stream.new file (counted_remaining R.remaining reader.new) }
    ensures device { result ≡ Err SurveyFault.Device →
        HasFailed (counted_failures reader.old) (counted_failures reader.new) }
    ensures quiet { result ≢ Err SurveyFault.Device →
        counted_failures reader.new ≡ counted_failures reader.old }
    ensures reads { counted_reads reader.new ≤ counted_reads reader.old + (2 ^ 32 - 1) }
    ensures turns { result ≡ Err SurveyFault.ReadTurns →
        HasRisenBy (2 ^ 32 - 1) (counted_reads reader.old) (counted_reads reader.new) }
{
    for _turn in 0..u32::MAX {
        if !read_piece(stream, reader, buffer)? {
            return Ok(stream.finish().err());
        }
    }
    Err(SurveyFault::ReadTurns)
}

// Reads a piece into `buffer`, and feeds it. Returns false at the reader's end, and at the file's fault.
fn read_piece<R: Read>(
    stream: &mut Stream,
    reader: &mut Counted<R>,
    buffer: &mut [u8],
) -> Result<bool, SurveyFault>
    requires fed { stream_refusal stream.old ≡ None }
    requires room { 0 < length buffer.old }
    ensures limits { stream.new.limits ≡ stream.old.limits }
    ensures fed { (piece : List ℕ)
        × Consumes (counted_remaining R.remaining reader.old) (counted_remaining R.remaining reader.new) piece
        × ReadsPiece result stream.old stream.new piece (counted_remaining R.remaining reader.new) }
    ensures device { result ≡ Err SurveyFault.Device →
        HasFailed (counted_failures reader.old) (counted_failures reader.new) }
    ensures quiet { result ≢ Err SurveyFault.Device →
        counted_failures reader.new ≡ counted_failures reader.old }
    ensures reads { counted_reads reader.new ≡ one_more (counted_reads reader.old) }
{
    let Ok(count) = reader.read(buffer) else {
        return Err(SurveyFault::Device);
    };
    if count == 0 {
        return Ok(false);
    }
    match stream.feed(&buffer[..count]) {
        Ok(()) => Ok(true),
        Err(FeedError::Fault(_)) => Ok(false),
        Err(FeedError::Memory) => Err(SurveyFault::Memory),
    }
}
