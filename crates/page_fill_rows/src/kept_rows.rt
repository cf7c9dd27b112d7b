//! What a filler keeps of its open row, for those who look at its cells.

ghost use Rattle.std.specs.Prelude.{◌≡◌, ◌≤◌, length, IfOk};
ghost use Rattle.page_core_base.specs.declared.limits.TheConstants.{CELLS};

use crate::open_rows::OpenRow;
use page_core_base::{CELLS, Cell, Font};
use std::alloc::{AllocError, Global};
use std::marker::Model;

/// What a filler keeps of its open row beside the row itself: nothing ([`NoCells`]) or its cells ([`OpenCells`]).
pub trait KeepsRow {
    ghost use Rattle.page_fill_rows.specs.OpenRows.{Sheet};

    // It shows an open row.
    ghost shows: { Self → Sheet → Type 0 };

    /// What is kept of an open row. It reserves all memory that it will ever hold.
    fn of(alloc: Global, row: &OpenRow) -> Result<Self, AllocError>
        ensures { IfOk result (λ kept. shows kept row.now) };

    /// The open row has changed.
    fn keep(&mut self, row: &OpenRow)
        ensures { shows self.new row.now };
}

/// Nothing is kept of the open row: it costs nothing.
#[derive(Drop)]
pub struct NoCells;

impl KeepsRow for NoCells {
    ghost shows = { λ _ _. Unit {0} };

    #[inline(always)]
    fn of(_alloc: Global, _row: &OpenRow) -> Result<NoCells, AllocError> {
        Ok(NoCells)
    }

    #[inline(always)]
    fn keep(&mut self, _row: &OpenRow) {}
}

/// The cells of the open row, at most [`CELLS`].
#[derive(Drop)]
pub struct OpenCells {
    // The row's cells come first; what is after them means nothing.
    places: Vec<Cell>,
    len: usize,
}

impl Model for OpenCells {
    ghost use Rattle.std.specs.Prelude.{◌≡◌, ◌≤◌, List, length, take};
    ghost use Rattle.page_core_base.specs.declared.cells.Cell.{Cell};
    ghost use Rattle.page_core_base.specs.declared.limits.TheConstants.{CELLS};

    ghost Value = { List Cell };

    ghost view = { λ o. take o.len o.places.items };

    ghost invariant = { λ o. (length o.places.items ≡ CELLS) × (o.len ≤ CELLS) };
}

impl OpenCells {
    /// The cells.
    pub fn as_slice(&self) -> &[Cell]
        ensures cells { result.now ≡ self.now }
        ensures bound { length result.now ≤ CELLS }
    {
        &self.places[..self.len]
    }
}

impl KeepsRow for OpenCells {
    ghost shows = { λ o s. o ≡ s.cells };

    fn of(alloc: Global, row: &OpenRow) -> Result<OpenCells, AllocError> {
        let mut places = Vec::with_capacity(alloc, CELLS)?;
        let blank = Cell {
            c: ' ',
            font: Font::R,
        };
        places.resize(CELLS, blank)?;
        let len = row.copy_cells(&mut places);
        Ok(OpenCells { places, len })
    }

    fn keep(&mut self, row: &OpenRow) {
        self.len = row.copy_cells(&mut self.places);
    }
}
