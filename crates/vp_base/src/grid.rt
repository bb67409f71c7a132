//! Grids: one entry for each macroblock of a frame.

ghost use Rattle.std.specs.Prelude.{◌≡◌, ◌≢◌, ◌≤◌, ◌<◌, ◌*◌, length, Some, IfOk, []};
ghost use Rattle.vp_base.specs.Grid.{Has, all, entry, with_entry};
ghost use Rattle.vp_base.specs.declared.place.Place.{Place};

use crate::place::Place;
use std::alloc::{AllocError, Global};
use std::marker::Model;

/// Entries in columns and rows, stored in raster order.
#[derive(Drop)]
pub struct Grid<T> {
    columns: usize,
    rows: usize,
    entries: Vec<T>,
}

impl<T> Model for Grid<T> {
    ghost use Rattle.std.specs.Prelude.{◌≡◌, ◌*◌, ◌≤◌, length};
    ghost use Rattle.vp_base.specs.Grid.{Grid};

    ghost Value = { Grid T };

    ghost view = { λ g. record { columns = g.columns; rows = g.rows; entries = g.entries.items } };

    ghost invariant = { λ g. (length g.entries.items ≡ g.rows * g.columns) × (g.columns ≤ 1024) × (g.rows ≤ 1024) };
}

impl<T: Copy> Grid<T> {
    /// Allocates a grid with `value` at each place.
    pub fn new(alloc: Global, columns: usize, rows: usize, value: T) -> Result<Grid<T>, AllocError>
        requires columns { columns ≤ 1024 }
        requires rows { rows ≤ 1024 }
        ensures { IfOk result (λ g. g ≡ all columns rows value) }
    {
        Grid::empty(alloc).refill(columns, rows, value)
    }

    /// Fills the grid with `value` at a new size. Allocates only if its buffer is too small.
    #[tactic(auto, unfolding(crate::specs::Grid::repeated))]
    pub fn refill(self, columns: usize, rows: usize, value: T) -> Result<Grid<T>, AllocError>
        requires columns { columns ≤ 1024 }
        requires rows { rows ≤ 1024 }
        ensures { IfOk result (λ g. g ≡ all columns rows value) }
    {
        let mut entries = self.entries;
        entries.truncate(0);
        entries.resize(rows * columns, value)?;
        Ok(Grid {
            columns,
            rows,
            entries,
        })
    }

    /// Copies the grid into new memory.
    pub fn copy(&self, alloc: Global) -> Result<Grid<T>, AllocError>
        ensures { IfOk result (λ g. g ≡ self.now) }
    {
        let entries = Vec::from_slice(alloc, &self.entries)?;
        Ok(Grid {
            columns: self.columns,
            rows: self.rows,
            entries,
        })
    }

    /// Replaces the entry at one place.
    #[tactic(auto, unfolding(crate::specs::Grid::changed))]
    pub fn set(&mut self, place: Place, value: T)
        requires { Has self.old place }
        ensures changed { self.new ≡ with_entry self.old place value }
        ensures here { entry self.new place ≡ Some value }
        ensures elsewhere { (p : Place) → p ≢ place → entry self.new p ≡ entry self.old p }
    {
        let at = place.row * self.columns + place.column;
        self.entries[at] = value;
    }
}

impl<T> Grid<T> {
    /// A grid of 0 columns and 0 rows. Allocates nothing.
    pub fn empty(alloc: Global) -> Grid<T>
        ensures { result ≡ record { columns = 0; rows = 0; entries = [] } }
    {
        Grid {
            columns: 0,
            rows: 0,
            entries: Vec::new(alloc),
        }
    }

    /// Unwraps the entries, in raster order.
    pub fn into_entries(self) -> Vec<T>
        ensures { result.items ≡ self.entries }
    {
        self.entries
    }

    /// The number of columns, at most 1,024.
    pub fn columns(&self) -> usize
        ensures value { result ≡ self.now.columns }
        ensures bound { result ≤ 1024 }
    {
        self.columns
    }

    /// The number of rows, at most 1,024.
    pub fn rows(&self) -> usize
        ensures value { result ≡ self.now.rows }
        ensures bound { result ≤ 1024 }
    {
        self.rows
    }

    /// Builds a grid from its entries in raster order.
    pub fn of(columns: usize, rows: usize, entries: Vec<T>) -> Grid<T>
        requires columns { columns ≤ 1024 }
        requires rows { rows ≤ 1024 }
        requires whole { length entries.items ≡ rows * columns }
        ensures { result ≡ record { columns = columns; rows = rows; entries = entries.items } }
    {
        Grid {
            columns,
            rows,
            entries,
        }
    }

    /// Borrows the entries, in raster order.
    pub fn as_slice(&self) -> &[T]
        ensures value { result.now ≡ self.now.entries }
        ensures whole { length result.now ≡ self.now.rows * self.now.columns }
    {
        &self.entries
    }

    /// Borrows the entry at a place.
    #[tactic(auto, unfolding(crate::specs::Grid::entry))]
    pub fn get(&self, place: Place) -> &T
        requires { Has self.now place }
        ensures { entry self.now place ≡ Some result.now }
    {
        &self.entries[place.row * self.columns + place.column]
    }
}
