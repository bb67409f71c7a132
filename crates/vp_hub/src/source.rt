//! One stream of a hub.

ghost use Rattle.std.specs.Prelude.{◌≡◌, ◌≢◌, Ok, Err, IsOk};
ghost use Rattle.vp_hub.specs.declared.event.HubFault.TheVariants.{Memory};
ghost use Rattle.vp_cache.specs.Streams.{IsGrown, KeepsCursors};
ghost use Rattle.vp_hub.specs.Hub.{fed, ended_source, is_open_end, no_bytes};

use crate::event::{HubFault, Reply};
use std::alloc::Global;
use vp_base::ByteList;
use vp_cache::feeding_keeps_answers;
use vp_ivf::{FeedError, FileFault};
use vp_stream::Stream;

/// The end of a stream.
#[derive(Clone, Copy, Debug, PartialEq, Eq, Drop)]
pub enum StreamEnd {
    /// The end isn't marked yet.
    Open,
    /// The stream has ended without a fault.
    Good,
    /// The stream has ended with this fault.
    Faulty(FileFault),
}

/// A stream and its end.
#[derive(Drop)]
pub struct Source {
    /// The stream.
    pub stream: Stream,
    /// Whether and how the stream has ended.
    pub end: StreamEnd,
}

/// Returns a response of no bytes.
pub(crate) fn nothing(alloc: Global) -> Reply
    ensures { result ≡ no_bytes }
{
    Reply {
        bytes: ByteList::from_vec(Vec::new(alloc)),
        close: false,
    }
}

fn is_open(end: StreamEnd) -> bool
    ensures { result ≡ is_open_end end }
{
    matches!(end, StreamEnd::Open)
}

/// Feeds a piece to a stream. It is refused if the stream has ended or has a fault.
pub(crate) fn feed_source(
    alloc: Global,
    source: &mut Source,
    piece: &[u8],
) -> Result<Reply, HubFault>
    ensures memory { result ≡ Err Memory → source.new ≡ source.old }
    ensures fine { result ≡ Err Memory → IsOk (fed piece.now source.old).1 }
    ensures step { result ≢ Err Memory → (source.new, result) ≡ fed piece.now source.old }
    ensures grown { IsGrown source.old.stream source.new.stream }
    ensures cursors { KeepsCursors source.old.stream source.new.stream }
    ensures limits { source.new.stream.limits ≡ source.old.stream.limits }
{
    feeding_keeps_answers();
    if !is_open(source.end) {
        return Err(HubFault::Ended);
    }
    match source.stream.refusal() {
        Some(FileFault::Ended) => Err(HubFault::Ended),
        Some(_) => Err(HubFault::Failed),
        None => match source.stream.feed(piece) {
            Err(FeedError::Memory) => Err(HubFault::Memory),
            _ => Ok(nothing(alloc)),
        },
    }
}

/// Marks the end of a stream. It is refused if the stream has ended.
pub(crate) fn end_source(alloc: Global, source: &mut Source) -> Result<Reply, HubFault>
    ensures memory { result ≢ Err Memory }
    ensures step { (source.new, result) ≡ ended_source source.old }
    ensures grown { IsGrown source.old.stream source.new.stream }
    ensures cursors { KeepsCursors source.old.stream source.new.stream }
    ensures limits { source.new.stream.limits ≡ source.old.stream.limits }
{
    feeding_keeps_answers();
    if !is_open(source.end) {
        return Err(HubFault::Ended);
    }
    source.end = match source.stream.finish() {
        Ok(()) => StreamEnd::Good,
        Err(fault) => StreamEnd::Faulty(fault),
    };
    Ok(nothing(alloc))
}
