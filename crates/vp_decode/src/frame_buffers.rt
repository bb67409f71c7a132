//! Memory that is reused from frame to frame.

ghost use Rattle.std.specs.Prelude.{◌≡◌, ◌≤◌, None, IfOk};
ghost use Rattle.vp_base.specs.Image.{AreWhole};
ghost use Rattle.vp_decode.specs.RowBands.{IsShaped};

use crate::macroblocks::Macroblock;
use std::alloc::{AllocError, Global};
use std::mem;
use vp_base::{Dim, Grid, Picture};
use vp_loop::Level;
use vp_modes::Segment;
use vp_tokens::Contexts;

/// The filter limits of a macroblock that is not filtered.
const NO_LEVEL: Level = Level {
    edge: 0,
    inner: 0,
    interior: 0,
    hev: 0,
};

/// The memory of earlier frames, for reuse by the next one. Its contents have no meaning.
#[derive(Drop)]
pub(crate) struct FrameBuffers {
    pub macroblocks: Vec<Macroblock>,
    pub segments: Grid<Segment>,
    pub contexts: Contexts,
    pub levels: Grid<Level>,
    /// A picture that nothing refers to any more.
    pub picture: Option<Picture>,
    /// Another one: a frame that refreshes golden leaves two, and the frame after it none.
    pub other_picture: Option<Picture>,
}

/// Proves that the planes of a picture hold as many bytes as their sizes say.
fn are_whole(picture: &Picture)
    ensures { AreWhole picture.now }
{
    let _known = picture.plane(0).width();
    let _known = picture.plane(1).width();
    let _known = picture.plane(2).width();
}

impl FrameBuffers {
    /// Creates buffers that hold no memory yet.
    pub(crate) fn new(alloc: Global) -> FrameBuffers
        ensures picture { result.picture ≡ None }
        ensures other_picture { result.other_picture ≡ None }
    {
        FrameBuffers {
            macroblocks: Vec::new(alloc),
            segments: Grid::empty(alloc),
            contexts: Contexts::empty(alloc),
            levels: Grid::empty(alloc),
            picture: None,
            other_picture: None,
        }
    }

    /// Keeps the memory of pictures that nothing refers to any more, of at most two.
    pub(crate) fn keep(&mut self, unshared: [Option<Picture>; 4]) {
        let [last, golden, alt, newest] = unshared;
        self.keep_one(last);
        self.keep_one(golden);
        self.keep_one(alt);
        self.keep_one(newest);
    }

    /// Keeps the memory of a picture, if there is one.
    fn keep_one(&mut self, unshared: Option<Picture>) {
        let Some(picture) = unshared else {
            return;
        };
        if self.picture.is_none() {
            self.picture = Some(picture);
        } else {
            self.other_picture = Some(picture);
        }
    }

    /// Returns a picture of this size, whose pixels are arbitrary. Reuses a kept picture if it has the size.
    pub(crate) fn picture(&mut self, alloc: Global, dim: Dim) -> Result<Picture, AllocError>
        ensures width { IfOk result (λ p. p.width ≡ dim.w) }
        ensures height { IfOk result (λ p. p.height ≡ dim.h) }
        ensures shaped { IfOk result (λ p. IsShaped p.width p.height p) }
        // A kept picture is taken; the other buffers are unchanged.
        ensures used { self.new ≡ record self.old { picture = self.old.other_picture; other_picture = None } }
    {
        let other = self.other_picture.take();
        let picture = match mem::replace(&mut self.picture, other) {
            Some(picture) if picture.dim() == dim => picture,
            _ => Picture::new(alloc, dim, 0)?,
        };
        are_whole(&picture);
        let _known = picture.dim();
        Ok(picture)
    }

    /// Returns a grid of arbitrary filter levels for this many columns and rows of macroblocks. Reuses the kept levels
    /// if there are as many, else their memory.
    pub(crate) fn levels(
        &mut self,
        alloc: Global,
        columns: usize,
        rows: usize,
    ) -> Result<Grid<Level>, AllocError>
        requires columns { columns ≤ 1024 }
        requires rows { rows ≤ 1024 }
        ensures columns { IfOk result (λ g. g.columns ≡ columns) }
        ensures rows { IfOk result (λ g. g.rows ≡ rows) }
    {
        let levels = mem::replace(&mut self.levels, Grid::empty(alloc));
        if levels.columns() == columns && levels.rows() == rows {
            return Ok(levels);
        }
        levels.refill(columns, rows, NO_LEVEL)
    }
}
