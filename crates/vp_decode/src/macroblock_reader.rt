//! Reads the macroblocks of a frame from the first partition.

ghost use Rattle.std.specs.Prelude.{◌≡◌, ◌+◌, ◌*◌, ◌<◌, [], length, option_map, slice_get};
ghost use Rattle.std.specs.Prelude.{IfOk};
ghost use Rattle.vp_base.specs.declared.place.Place.{Place};
ghost use Rattle.vp_base.specs.Grid.{Has};
ghost use Rattle.vp_motion.specs.Vector.{IsWithin};
ghost use Rattle.vp_motion.specs.Motion.{split_vectors};
ghost use Rattle.vp_decode.specs.MacroblockMaps.{motion_in, macroblock_read, row_read, maps_read};
ghost use Rattle.vp_decode.specs.MacroblockReader.{maps_so_far, modes_before, with_macroblock, IsAhead, IsNext};
ghost use Rattle.vp_decode.specs.Step.{maps_before};

use crate::frame_context::FrameContext;
use crate::macroblocks::{Macroblock, Macroblocks};
use std::alloc::AllocError;
use std::marker::Model;
use vp_base::Place;
use vp_bool::BoolDecoder;
use vp_head::{Header, Reference};
use vp_modes::{ModeGrid, Modes, Segment, read_modes};
use vp_motion::{
    MacroblockMotion, MotionGrid, MotionStart, STILL, Vector, read_motion_start, read_split,
};
use vp_tables::{SubMode, VectorMode};

/// The macroblocks of a frame while they are read, in raster order. One that is not read yet has no motion, and default
/// modes, with its segment of the frame before if segments are kept. Made and read by `read_macroblocks`.
#[derive(Drop)]
pub(crate) struct MacroblockReader<'a> {
    columns: usize,
    rows: usize,
    /// The segments of the frame before, in raster order. None for a key frame, whose macroblocks start with segment 0.
    kept_segments: Option<&'a [Segment]>,
    /// The macroblocks that are read. There is memory for all of the frame.
    macroblocks: Vec<Macroblock>,
    /// The motion of a macroblock that is not read, and outside the frame: that of an intra macroblock.
    outside: MacroblockMotion,
}

impl<'a> Model for MacroblockReader<'a> {
    ghost use Rattle.std.specs.Prelude.{◌≡◌, ◌*◌, ◌≤◌, length, option_map, vec_capacity, IfSome};
    ghost use Rattle.vp_motion.specs.Map.{intra};
    ghost use Rattle.vp_decode.specs.MacroblockReader.{MacroblockReader};

    ghost Value = { MacroblockReader };

    ghost view = { λ r. record {
      columns = r.columns;
      rows = r.rows;
      kept_segments = option_map (λ s. s.now) r.kept_segments;
      read = r.macroblocks.items;
    } };

    ghost invariant = { λ r. (r.columns ≤ 1024) × (r.rows ≤ 1024)
        × IfSome r.kept_segments (λ s. length s.now ≡ r.rows * r.columns)
        × (r.rows * r.columns ≤ vec_capacity r.macroblocks) × (r.outside ≡ intra) };
}

impl<'a> MacroblockReader<'a> {
    /// Starts to read the macroblocks of a frame. Reuses the memory of `buffer`, and allocates only if it is too small.
    pub(crate) fn new(
        context: &FrameContext<'a>,
        buffer: Vec<Macroblock>,
    ) -> Result<MacroblockReader<'a>, AllocError>
        ensures before { IfOk result (λ r. modes_before r ≡ context.now.modes) }
        ensures none_read { IfOk result (λ r. r.read ≡ []) }
    {
        let columns = usize::from(context.dim.mb_cols());
        let rows = usize::from(context.dim.mb_rows());
        let mut macroblocks = buffer;
        macroblocks.truncate(0);
        macroblocks.reserve(rows * columns)?;
        let kept_segments = match context.segments {
            Some(segments) => Some(segments.as_slice()),
            None => None,
        };
        Ok(MacroblockReader {
            columns,
            rows,
            kept_segments,
            macroblocks,
            outside: MacroblockMotion::INTRA,
        })
    }

    /// Returns the macroblock at a place, if it is read.
    #[inline(always)]
    fn get(&self, place: Place) -> Option<&Macroblock>
        requires { Has (modes_before self.now) place }
        ensures { option_map (λ m. m.now) result
            ≡ slice_get self.now.read (place.row * self.now.columns + place.column) }
    {
        self.macroblocks
            .get(place.row * self.columns + place.column)
    }

    /// Returns the motion of the macroblock at a place.
    #[inline(always)]
    fn motion(&self, place: Place) -> &MacroblockMotion
        requires { Has (modes_before self.now) place }
        ensures { result.now ≡ motion_in (maps_so_far self.now) place }
    {
        match self.get(place) {
            Some(macroblock) => &macroblock.motion,
            None => &self.outside,
        }
    }

    /// Appends the next macroblock.
    #[inline(always)]
    fn push(&mut self, macroblock: Macroblock)
        requires { length self.old.read < self.old.rows * self.old.columns }
        ensures ahead { IsAhead self.old self.new 1 }
        ensures maps { (place : Place) → IsNext self.old place
            → maps_so_far self.new ≡ with_macroblock (maps_so_far self.old) place macroblock }
    {
        self.macroblocks.push_reserved(macroblock);
    }

    /// Reads the split vectors of the next macroblock, and appends it. Not inlined, so that the memory of its vectors
    /// is cleared only for a split macroblock.
    #[inline(never)]
    fn read_split(
        &mut self,
        header: &Header,
        place: Place,
        modes: &Modes,
        best: Vector,
        d: &mut BoolDecoder,
    )
        requires next { IsNext self.old place }
        requires best { IsWithin 65536 best }
        ensures maps { maps_so_far self.new ≡ with_macroblock (maps_so_far self.old) place (record {
          modes = modes.now;
          motion = record {
            reference = modes.now.reference;
            mode = VectorMode.Split;
            vectors = (split_vectors header.now.probabilities.vectors (maps_so_far self.old).motion place best d.old).0;
          };
        }) }
        ensures rest { d.new
            ≡ (split_vectors header.now.probabilities.vectors (maps_so_far self.old).motion place best d.old).1 }
        ensures ahead { IsAhead self.old self.new 1 }
    {
        let vectors = read_split(&header.probabilities.vectors, self, place, best, d);
        self.push(Macroblock {
            modes: *modes,
            motion: MacroblockMotion {
                reference: modes.reference,
                mode: VectorMode::Split,
                vectors,
            },
        });
    }

    /// Reads the modes of the next macroblock, and its motion if it is an inter macroblock, and appends it.
    #[tactic(auto, unfolding(crate::specs::MacroblockMaps::macroblock_read, crate::specs::MacroblockMaps::motion_read, vp_bool::specs::Reader::bind))]
    fn read_next(&mut self, header: &Header, place: Place, d: &mut BoolDecoder)
        requires { IsNext self.old place }
        ensures maps { maps_so_far self.new ≡ (macroblock_read header.now place (maps_so_far self.old) d.old).0 }
        ensures rest { d.new ≡ (macroblock_read header.now place (maps_so_far self.old) d.old).1 }
        ensures ahead { IsAhead self.old self.new 1 }
    {
        let modes = read_modes(header, self, place, d);
        let reference = modes.reference;
        // Each kind of macroblock is stored by itself: its modes and its motion aren't joined with those of another.
        if reference.is_intra() {
            let motion = MacroblockMotion::of_one(Reference::Intra, VectorMode::Zero, STILL);
            self.push(Macroblock { modes, motion });
            return;
        }
        let MotionStart { mode, vector } = read_motion_start(header, self, place, reference, d);
        if mode.is_split() {
            // The caller's decoder and modes stay in registers: only these are lent.
            let mut own = d.copy();
            let lent = modes;
            self.read_split(header, place, &lent, vector, &mut own);
            *d = own;
            return;
        }
        let motion = MacroblockMotion::of_one(reference, mode, vector);
        self.push(Macroblock { modes, motion });
    }

    /// Reads a row of macroblocks, from left to right.
    fn read_row(&mut self, header: &Header, row: usize, d: &mut BoolDecoder)
        requires row { row < self.old.rows }
        requires next { length self.old.read ≡ row * self.old.columns }
        ensures maps { maps_so_far self.new
            ≡ (row_read header.now self.old.columns row (maps_so_far self.old) d.old).0 }
        ensures rest { d.new ≡ (row_read header.now self.old.columns row (maps_so_far self.old) d.old).1 }
        ensures ahead { IsAhead self.old self.new self.old.columns }
    {
        // The compiler keeps a local decoder in registers.
        let mut own = d.copy();
        for column in 0..self.columns() {
            self.read_next(header, Place { column, row }, &mut own);
        }
        *d = own;
    }

    /// Reads all macroblocks of the frame, in raster order. It is not inlined: its loop then has registers of its own.
    #[inline(never)]
    pub(crate) fn read(self, header: &Header, d: &mut BoolDecoder) -> Macroblocks
        requires { self.read ≡ [] }
        ensures value { result ≡ (maps_read header.now (maps_before (modes_before self.entry)) d.old).0 }
        ensures rest { d.new ≡ (maps_read header.now (maps_before (modes_before self.entry)) d.old).1 }
    {
        let mut reader = self;
        for row in 0..reader.rows() {
            reader.read_row(header, row, d);
        }
        Macroblocks::of(reader.columns, reader.rows, reader.macroblocks)
    }
}

impl<'a> ModeGrid for MacroblockReader<'a> {
    ghost grid = { λ r. (maps_so_far r).modes };

    fn segment(&self, place: Place) -> u8 {
        if let Some(macroblock) = self.get(place) {
            let modes = &macroblock.modes;
            return modes.segment;
        }
        match self.kept_segments {
            Some(segments) => {
                let segment = &segments[place.row * self.columns + place.column];
                segment.number
            }
            None => 0,
        }
    }

    fn sub_mode(&self, place: Place, k: usize) -> SubMode {
        match self.get(place) {
            Some(macroblock) => macroblock.modes.sub_mode(k),
            None => SubMode::Dc,
        }
    }
}

impl<'a> MotionGrid for MacroblockReader<'a> {
    ghost grid = { λ r. (maps_so_far r).motion };

    #[inline(always)]
    fn columns(&self) -> usize {
        self.columns
    }

    #[inline(always)]
    fn rows(&self) -> usize {
        self.rows
    }

    #[inline(always)]
    fn left(&self, place: Place) -> &MacroblockMotion {
        match place.left() {
            Some(left) => self.motion(left),
            None => &self.outside,
        }
    }

    #[inline(always)]
    fn row_above(&self, place: Place) -> (&MacroblockMotion, &MacroblockMotion) {
        match place.above() {
            Some(up) => (self.motion(up), self.left(up)),
            None => (&self.outside, &self.outside),
        }
    }

    fn vector(&self, place: Place, b: usize) -> Vector {
        self.motion(place).vector(b)
    }
}
