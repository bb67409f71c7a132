//! The macroblocks of a frame, read from the first partition: their modes and their motion, in one grid.

ghost use Rattle.std.specs.Prelude.{◌≡◌, ◌*◌, ◌<◌, ◌≤◌, IfOk, length};
ghost use Rattle.vp_modes.specs.Map.{segments_of};
ghost use Rattle.vp_decode.specs.FrameDecoder.{IsMacroblockRow};
ghost use Rattle.vp_decode.specs.MacroblockReader.{maps_of};

use std::alloc::AllocError;
use std::marker::Model;
use vp_base::Grid;
use vp_modes::{Modes, Segment};
use vp_motion::MacroblockMotion;

/// The modes and the motion of a macroblock, as they are read from the first partition.
#[derive(Clone, Copy)]
pub(crate) struct Macroblock {
    pub modes: Modes,
    pub motion: MacroblockMotion,
}

/// The modes and the motion of a frame's macroblocks, by place.
#[derive(Drop)]
pub(crate) struct Macroblocks {
    grid: Grid<Macroblock>,
}

impl Model for Macroblocks {
    ghost use Rattle.vp_base.specs.Grid.{mapped};
    ghost use Rattle.vp_decode.specs.MacroblockMaps.{MacroblockMaps};

    ghost Value = { MacroblockMaps };

    ghost view = { λ m. record { modes = mapped (λ a. a.modes) m.grid; motion = mapped (λ a. a.motion) m.grid } };
}

impl Macroblocks {
    /// Builds the macroblocks of a frame from their list in raster order.
    pub(crate) fn of(columns: usize, rows: usize, macroblocks: Vec<Macroblock>) -> Macroblocks
        requires columns { columns ≤ 1024 }
        requires rows { rows ≤ 1024 }
        requires whole { length macroblocks.items ≡ rows * columns }
        ensures { result ≡ maps_of columns rows macroblocks.items }
    {
        Macroblocks {
            grid: Grid::of(columns, rows, macroblocks),
        }
    }

    /// Unwraps the list of macroblocks, for its memory.
    pub(crate) fn into_list(self) -> Vec<Macroblock> {
        self.grid.into_entries()
    }

    /// The width of the frame in macroblocks, at most 1,024.
    pub(crate) fn columns(&self) -> usize
        ensures value { result ≡ self.now.modes.columns }
        ensures bound { result ≤ 1024 }
    {
        self.grid.columns()
    }

    /// The height of the frame in macroblocks, at most 1,024.
    pub(crate) fn rows(&self) -> usize
        ensures value { result ≡ self.now.modes.rows }
        ensures bound { result ≤ 1024 }
    {
        self.grid.rows()
    }

    /// Borrows a row of macroblocks, from left to right.
    pub(crate) fn row(&self, row: usize) -> &[Macroblock]
        requires { row < self.now.modes.rows }
        ensures { IsMacroblockRow self.now row result.now }
    {
        let _known = self.grid.rows();
        let columns = self.grid.columns();
        let from = row * columns;
        &self.grid.as_slice()[from..from + columns]
    }

    /// Stores the segments of the macroblocks in the memory of `buffer`. Allocates only if it is too small.
    pub(crate) fn segments_in(&self, buffer: Grid<Segment>) -> Result<Grid<Segment>, AllocError>
        ensures { IfOk result (λ g. g ≡ segments_of self.now.modes) }
    {
        let macroblocks = self.grid.as_slice();
        let mut segments = buffer.into_entries();
        segments.truncate(0);
        segments.reserve(macroblocks.len())?;
        for macroblock in macroblocks {
            segments.push_reserved(Segment {
                number: macroblock.modes.segment,
            });
        }
        Ok(Grid::of(self.columns(), self.rows(), segments))
    }
}
