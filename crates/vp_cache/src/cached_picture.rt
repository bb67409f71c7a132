//! A cached picture.

ghost use Rattle.std.specs.Prelude.{◌≡◌, IfOk};
ghost use Rattle.vp_cache.specs.Cache.{cached_answer};
ghost use Rattle.vp_stream.specs.Seeking.{answer_value};

use std::alloc::{AllocError, Global};
use std::marker::Model;
use vp_base::{ByteList, Dim};
use vp_stream::Answer;

/// A shown picture: its size in pixels, and its I420 pixels.
#[derive(Drop)]
pub struct CachedPicture {
    dim: Dim,
    bytes: ByteList,
}

impl Model for CachedPicture {
    ghost use Rattle.vp_cache.specs.Cache.{CachedPicture};

    ghost Value = { CachedPicture };

    ghost view = { λ a. record { width = a.dim.w; height = a.dim.h; pixels = a.bytes } };
}

impl CachedPicture {
    /// Returns the picture's size.
    pub fn dim(&self) -> Dim
        ensures { (result.w ≡ self.now.width) × (result.h ≡ self.now.height) }
    {
        self.dim
    }

    /// Returns the pixels as I420 (Y, U, V, each plane by rows, cropped to the size).
    pub fn as_slice(&self) -> &[u8]
        ensures { result.now ≡ self.now.pixels }
    {
        self.bytes.as_slice()
    }

    /// Copies a picture.
    pub(crate) fn copied(
        alloc: Global,
        dim: Dim,
        bytes: &ByteList,
    ) -> Result<CachedPicture, AllocError>
        ensures { IfOk result (λ k. (k.width ≡ dim.w) × (k.height ≡ dim.h) × (k.pixels ≡ bytes.now)) }
    {
        let copy = bytes.as_slice().to_vec(alloc)?;
        Ok(CachedPicture {
            dim,
            bytes: ByteList::from_vec(copy),
        })
    }

    /// Returns the picture as an answer, in newly allocated memory.
    pub(crate) fn answer(&self, alloc: Global) -> Result<Answer, AllocError>
        ensures { IfOk result (λ a. answer_value a ≡ cached_answer self.now) }
    {
        let copy = self.bytes.as_slice().to_vec(alloc)?;
        Ok(Answer::Shown(self.dim, ByteList::from_vec(copy)))
    }
}
