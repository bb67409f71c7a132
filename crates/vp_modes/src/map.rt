//! The modes of all macroblocks of a frame.

ghost use Rattle.std.specs.Prelude.{◌≡◌, ◌≢◌, ◌*◌, ◌<◌, ◌≤◌, Some, IfOk, [], length};
ghost use Rattle.vp_base.specs.declared.place.Place.{Place};
ghost use Rattle.vp_base.specs.Grid.{Has, all, entry, with_entry};
ghost use Rattle.vp_base.specs.Image.{macroblocks};
ghost use Rattle.vp_modes.specs.Entry.{plain, plain_of};
ghost use Rattle.vp_modes.specs.Map.{of_segments, segments_of};

use crate::entry::Modes;
use crate::grid::ModeGrid;
use crate::segment::Segment;
use std::alloc::{AllocError, Global};
use std::marker::Model;
use vp_base::{Dim, Grid, Place};
use vp_head::Reference;
use vp_tables::{ChromaMode, LumaMode, SubMode};

const PLAIN: Modes = Modes {
    segment: 0,
    skip: false,
    reference: Reference::Intra,
    luma: LumaMode::Dc,
    subs: [SubMode::Dc; 16],
    chroma: ChromaMode::Dc,
};

/// The modes of each macroblock of a frame.
#[derive(Drop)]
pub struct ModeMap {
    grid: Grid<Modes>,
}

impl Model for ModeMap {
    ghost use Rattle.vp_base.specs.Grid.{Grid};
    ghost use Rattle.vp_modes.specs.Entry.{Modes};

    ghost Value = { Grid Modes };

    ghost view = { λ m. m.grid };
}

/// The default modes, with this segment.
#[tactic(auto, unfolding(crate::specs::Entry::plain))]
fn plain_of(segment: Segment) -> Modes
    ensures { result ≡ plain_of segment }
{
    Modes {
        segment: segment.number,
        ..PLAIN
    }
}

impl ModeMap {
    /// A map without macroblocks. Allocates nothing.
    pub fn empty(alloc: Global) -> ModeMap
        ensures { result ≡ record { columns = 0; rows = 0; entries = [] } }
    {
        ModeMap {
            grid: Grid::empty(alloc),
        }
    }

    /// Allocates a map for frames of this size. Every macroblock has the default modes: intra, not skipped, segment 0,
    /// DC.
    pub fn new(alloc: Global, dim: Dim) -> Result<ModeMap, AllocError>
        ensures { IfOk result (λ m. m ≡ all (macroblocks dim.w) (macroblocks dim.h) plain) }
    {
        ModeMap::empty(alloc).refill(dim)
    }

    /// Resets the map to `new(dim)`. Allocates only if its buffer is too small.
    #[tactic(auto, unfolding(crate::specs::Entry::plain))]
    pub fn refill(self, dim: Dim) -> Result<ModeMap, AllocError>
        ensures { IfOk result (λ m. m ≡ all (macroblocks dim.w) (macroblocks dim.h) plain) }
    {
        let columns = usize::from(dim.mb_cols());
        let rows = usize::from(dim.mb_rows());
        let grid = self.grid.refill(columns, rows, PLAIN)?;
        Ok(ModeMap { grid })
    }

    /// Copies the map into new memory.
    pub fn copy(&self, alloc: Global) -> Result<ModeMap, AllocError>
        ensures { IfOk result (λ m. m ≡ self.now) }
    {
        let grid = self.grid.copy(alloc)?;
        Ok(ModeMap { grid })
    }

    /// Allocates a map for the next frame: default modes, with these segments (chapter 9.3).
    pub fn of_segments(alloc: Global, segments: &Grid<Segment>) -> Result<ModeMap, AllocError>
        ensures { IfOk result (λ m. m ≡ of_segments segments.now) }
    {
        let kept = segments.as_slice();
        let mut entries = Vec::with_capacity(alloc, kept.len())?;
        for segment in kept {
            entries.push_reserved(plain_of(*segment));
        }
        let grid = Grid::of(segments.columns(), segments.rows(), entries);
        Ok(ModeMap { grid })
    }

    /// Allocates a grid with the segments of the macroblocks.
    pub fn segments(&self, alloc: Global) -> Result<Grid<Segment>, AllocError>
        ensures { IfOk result (λ g. g ≡ segments_of self.now) }
    {
        let entries = self.grid.as_slice();
        let mut segments = Vec::with_capacity(alloc, entries.len())?;
        for modes in entries {
            segments.push_reserved(Segment {
                number: modes.segment,
            });
        }
        Ok(Grid::of(self.columns(), self.rows(), segments))
    }

    /// The number of macroblock columns, at most 1,024.
    pub fn columns(&self) -> usize
        ensures value { result ≡ self.now.columns }
        ensures bound { result ≤ 1024 }
    {
        self.grid.columns()
    }

    /// The number of macroblock rows, at most 1,024.
    pub fn rows(&self) -> usize
        ensures value { result ≡ self.now.rows }
        ensures bound { result ≤ 1024 }
    {
        self.grid.rows()
    }

    /// The modes of the macroblock at a place.
    pub fn get(&self, place: Place) -> &Modes
        requires { Has self.now place }
        ensures { entry self.now place ≡ Some result.now }
    {
        self.grid.get(place)
    }

    /// Borrows the modes of all macroblocks, in raster order.
    pub fn as_slice(&self) -> &[Modes]
        ensures value { result.now ≡ self.now.entries }
        ensures whole { length result.now ≡ self.now.rows * self.now.columns }
    {
        self.grid.as_slice()
    }

    /// Replaces the modes of the macroblock at a place.
    pub fn set(&mut self, place: Place, modes: &Modes)
        requires { Has self.old place }
        ensures changed { self.new ≡ with_entry self.old place modes.now }
        ensures here { entry self.new place ≡ Some modes.now }
        ensures elsewhere { (p : Place) → p ≢ place → entry self.new p ≡ entry self.old p }
    {
        self.grid.set(place, *modes);
    }
}

impl ModeGrid for ModeMap {
    ghost grid = { λ m. m };

    fn segment(&self, place: Place) -> u8 {
        self.grid.get(place).segment
    }

    fn sub_mode(&self, place: Place, k: usize) -> SubMode {
        self.grid.get(place).sub_mode(k)
    }
}
