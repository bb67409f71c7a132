//! The chunks of a RIFF file.

ghost use Rattle.std.specs.Prelude.{◌≡◌, ◌≤◌, ◌+◌, length, IfOk};
ghost use Rattle.vp_webp.specs.Chunks.{chunk_kind, chunk, next_chunk, riff_body};

use crate::bytes::{Cut, take_bytes, take_letters};
use crate::fault::WebPFault;
use byteorder::{ByteOrder, LittleEndian};
use std::marker::Model;

/// What the name of a chunk means to a reader of still images.
#[derive(Clone, Copy)]
pub(crate) enum ChunkKind {
    /// `VP8 `: a picture.
    Vp8,
    /// `VP8L`: a picture that is compressed losslessly.
    Vp8L,
    /// `VP8X`: the features of an extended file.
    Vp8X,
    /// `ALPH`: the alpha of the picture.
    Alph,
    /// `ANMF`: a frame of an animation.
    Anmf,
    /// Any other name: a colour profile, metadata, or a chunk that is not known.
    Other,
}

/// A chunk, and the bytes after its padding.
#[derive(Drop)]
pub(crate) struct Chunk<'a> {
    pub kind: ChunkKind,
    pub payload: &'a [u8],
    pub rest: &'a [u8],
}

impl<'a> Model for Chunk<'a> {
    ghost use Rattle.std.specs.Prelude.{List, ℕ};
    ghost use Rattle.vp_webp.specs.Chunks.{Chunk};

    ghost Value = { Chunk × List ℕ };

    ghost view = { λ o. (record { kind = o.kind; payload = o.payload.now }, o.rest.now) };
}

/// What a name means.
fn chunk_kind(name: &[u8]) -> ChunkKind
    ensures { result ≡ chunk_kind name.now }
{
    if name.starts_with(b"VP8 ") {
        ChunkKind::Vp8
    } else if name.starts_with(b"VP8L") {
        ChunkKind::Vp8L
    } else if name.starts_with(b"VP8X") {
        ChunkKind::Vp8X
    } else if name.starts_with(b"ALPH") {
        ChunkKind::Alph
    } else if name.starts_with(b"ANMF") {
        ChunkKind::Anmf
    } else {
        ChunkKind::Other
    }
}

// A chunk. `Torn` if the bytes end inside it.
#[tactic(auto, unfolding(crate::specs::Chunks::chunk))]
fn read_chunk(bytes: &[u8]) -> Result<Chunk<'_>, WebPFault>
    ensures value { result ≡ chunk bytes.now }
    ensures shorter { IfOk result (λ c. 8 + length c.1 ≤ length bytes.now) }
{
    let name = take_bytes(4, bytes)?;
    let digits = take_bytes(4, name.rest)?;
    let size = LittleEndian::read_u32(digits.taken) as usize;
    let payload = take_bytes(size, digits.rest)?;
    let padding = (size % 2).min(payload.rest.len());
    Ok(Chunk {
        kind: chunk_kind(name.taken),
        payload: payload.taken,
        rest: payload.rest.split_at(padding).1,
    })
}

/// The next chunk. `NoPicture` at the end of the bytes, `Torn` if they end inside the chunk.
#[tactic(auto, unfolding(crate::specs::Chunks::next_chunk))]
pub(crate) fn next_chunk(bytes: &[u8]) -> Result<Chunk<'_>, WebPFault>
    ensures value { result ≡ next_chunk bytes.now }
    ensures shorter { IfOk result (λ c. 8 + length c.1 ≤ length bytes.now) }
{
    if bytes.is_empty() {
        return Err(WebPFault::NoPicture);
    }
    read_chunk(bytes)
}

/// The bytes of the chunks of a file, and the bytes after its end.
#[tactic(auto, unfolding(crate::specs::Chunks::riff_body))]
pub(crate) fn riff_body(file: &[u8]) -> Result<Cut<'_>, WebPFault>
    ensures { result ≡ riff_body file.now }
{
    let riff = take_letters(b"RIFF", file)?;
    let digits = take_bytes(4, riff.rest)?;
    let form = take_letters(b"WEBP", digits.rest)?;
    let size = LittleEndian::read_u32(digits.taken) as usize;
    if size < 4 {
        return Err(WebPFault::Torn);
    }
    take_bytes(size - 4, form.rest)
}
