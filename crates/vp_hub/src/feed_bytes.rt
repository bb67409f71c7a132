//! Handles the bytes of one connection.

ghost use Rattle.std.specs.Prelude.{◌≡◌, ◌≤◌, ◌++◌, ◌∷◌, [], ℕ, List, OnOk, OnErr, false};
ghost use Rattle.vp_stream.specs.Seeking.{saturating_count};
ghost use Rattle.vp_hub.specs.Hub.{AreKept, TakesByte, Serves, ends_head};
ghost use Rattle.vp_hub.specs.Work.{HaveCursors, CostsByte, Costs, CostsAtMost, CostsByteAtMost};

use crate::connection::ConnectionState;
use crate::pages::put_reply;
use crate::picture_cache::PictureCache;
use crate::streams::Streams;
use std::alloc::{AllocError, Global};
use vp_heads::{Buffer, put_too_long};

/// Returns whether the bytes end as a request head does: with an empty line.
#[tactic(auto, unfolding(crate::specs::Hub::ends_head))]
fn is_head(bytes: &[u8]) -> bool
    ensures { result ≡ ends_head bytes.now }
{
    bytes.ends_with(b"\r\n\r\n")
}

/// Handles one byte. If it completes a request head, the response is appended to `out`.
fn take(
    alloc: Global,
    streams: &Streams,
    pictures: &mut PictureCache,
    byte: u8,
    state_of_connection: &mut ConnectionState,
    out: &mut Buffer,
) -> Result<(), AllocError>
    requires fresh { state_of_connection.old.closed ≡ false }
    requires kept { AreKept streams.now.sources pictures.old.kept.cache.entries }
    requires cursors { HaveCursors streams.now.sources pictures.old.kept.cursors }
    ensures kept { AreKept streams.now.sources pictures.new.kept.cache.entries }
    ensures cursors { HaveCursors streams.now.sources pictures.new.kept.cursors }
    ensures took { OnOk result (TakesByte streams.now byte (state_of_connection.old, out.old)
        (state_of_connection.new, out.new)) }
    ensures work { OnOk result ((cost : ℕ)
        × CostsByte streams.now byte state_of_connection.old pictures.old.kept pictures.new.kept cost
        × (pictures.new.work ≡ saturating_count pictures.old.work cost)) }
    ensures most { OnErr result ((cost : ℕ)
        × CostsByteAtMost streams.now byte state_of_connection.old pictures.old.kept pictures.new.kept cost
        × (pictures.old.work ≤ pictures.new.work) × (pictures.new.work ≤ saturating_count pictures.old.work cost)) }
{
    let _known = pictures.work;
    state_of_connection.pending.push(byte)?;
    if is_head(state_of_connection.pending.as_slice()) {
        let close = put_reply(
            alloc,
            streams,
            pictures,
            state_of_connection.pending.as_slice(),
            out,
        )?;
        state_of_connection.closed = close;
        state_of_connection.pending.clear();
    } else if state_of_connection.pending.len() >= 8192 {
        put_too_long(alloc, out)?;
        state_of_connection.closed = true;
        state_of_connection.pending.clear();
    }
    Ok(())
}

/// Handles a piece, and appends the responses to `out`.
pub(crate) fn feed_bytes(
    alloc: Global,
    streams: &Streams,
    pictures: &mut PictureCache,
    piece: &[u8],
    state_of_connection: &mut ConnectionState,
    out: &mut Buffer,
) -> Result<(), AllocError>
    requires kept { AreKept streams.now.sources pictures.old.kept.cache.entries }
    requires cursors { HaveCursors streams.now.sources pictures.old.kept.cursors }
    requires idle { pictures.old.work ≡ 0 }
    ensures kept { AreKept streams.now.sources pictures.new.kept.cache.entries }
    ensures cursors { HaveCursors streams.now.sources pictures.new.kept.cursors }
    ensures served { OnOk result (Serves streams.now piece.now (state_of_connection.old, out.old)
        (state_of_connection.new, out.new)) }
    ensures work { OnOk result ((cost : ℕ)
        × Costs streams.now piece.now (state_of_connection.old, out.old)
        (state_of_connection.new, out.new) pictures.old.kept pictures.new.kept cost
        × (pictures.new.work ≡ saturating_count 0 cost)) }
    ensures most { OnErr result (CostsAtMost streams.now piece.now
        (state_of_connection.old, out.old) pictures.old.kept pictures.new.kept pictures.new.work) }
{
    for byte in piece {
        if state_of_connection.closed {
            break;
        }
        take(alloc, streams, pictures, *byte, state_of_connection, out)?;
    }
    Ok(())
}
