//! The places of a row's cells.

ghost use Rattle.std.specs.Prelude.{◌≡◌, ◌+◌, ◌-◌, ◌*◌, ◌<◌, ◌≤◌, [], ◌∷◌, ◌++◌, length, take, drop, set, replicate, IfOk, true, vec_capacity};
ghost use Rattle.page_core_base.specs.laws.Views.{CameRows, cells_in};
ghost use Rattle.page_core_base.specs.Rows.{is_blank_row, row_of};
ghost use Rattle.page_fill_cells.specs.Cells as cells;
ghost use Rattle.page_core_base.specs.laws.Views as cells_laws;
ghost use Rattle.page_fill_cells.specs.machine.BlankRuns.{put_at};

use crate::ascii_places::AsciiPlaces;
use crate::cell_places::{move_to_front, put_blanks, put_cells, put_cells_in};
use crate::cell_widths::{BLANK, columns, is_blank};
use page_core_base::{CELLS, Cell, Font, RowOut};
use std::alloc::{AllocError, Global};
use std::marker::Model;

/// The places of a row's cells, [`CELLS`] of them. Printable characters of ASCII are kept as such; a row has cells from the first other character on.
#[derive(Drop)]
pub(crate) struct Places {
    ascii: AsciiPlaces,
    // The cells of a row that has them; else there is room for them, for a sink that looks at cells.
    cells: Vec<Cell>,
    has_cells: bool,
}

impl Model for Places {
    ghost use Rattle.std.specs.Prelude.{◌≡◌, ◌≤◌, List, length, true, if◌then◌else◌, vec_capacity};
    ghost use Rattle.page_core_base.specs.declared.cells.Cell.{Cell};
    ghost use Rattle.page_core_base.specs.declared.limits.TheConstants.{CELLS};

    ghost Value = { List Cell };

    ghost view = { λ p. if p.has_cells then p.cells.items else p.ascii };

    ghost invariant = { λ p. (length p.ascii ≡ CELLS) × (CELLS ≤ vec_capacity p.cells) × (p.has_cells ≡ true → length p.cells.items ≡ CELLS) };
}

// Whether a cell is a printable character of ASCII.
fn is_ascii_cell(cell: Cell) -> bool
    ensures { result ≡ cells_laws.is_printable cell.c }
{
    ' ' <= cell.c && cell.c <= '~'
}

// Makes the cells of the first characters in the first of all places of a row.
#[inline(never)]
fn make_cells(places: &mut Vec<Cell>, ascii: &AsciiPlaces, len: usize)
    requires room { CELLS ≤ vec_capacity places.old }
    requires within { (len ≤ length ascii.now) × (len ≤ CELLS) }
    ensures cells { take len places.new.items ≡ take len ascii.now }
    ensures all { length places.new.items ≡ CELLS }
    ensures room { vec_capacity places.new ≡ vec_capacity places.old }
{
    places.truncate(CELLS);
    while places.len() < CELLS {
        places.push_reserved(BLANK);
    }
    ascii.copy_cells(len, places);
}

impl Places {
    /// Places of blanks.
    pub(crate) fn new(alloc: Global) -> Result<Places, AllocError>
        ensures { IfOk result (λ p. length p ≡ CELLS) }
    {
        Ok(Places {
            ascii: AsciiPlaces::new(alloc)?,
            cells: Vec::with_capacity(alloc, CELLS)?,
            has_cells: false,
        })
    }

    /// The same places, with all memory that they will ever have.
    pub(crate) fn copy(&self, alloc: Global) -> Result<Places, AllocError>
        ensures { IfOk result (λ p. p ≡ self.now) }
    {
        let mut cells = Vec::with_capacity(alloc, CELLS)?;
        if self.has_cells {
            cells.extend_from_slice(&self.cells)?;
        }
        Ok(Places {
            ascii: self.ascii.copy(alloc)?,
            cells,
            has_cells: self.has_cells,
        })
    }

    /// No place is needed any longer: another row may begin. Answers whether they are as they were.
    pub(crate) fn begin(&mut self) -> bool
        ensures same { result ≡ true → self.new ≡ self.old }
        ensures len { length self.new ≡ length self.old }
    {
        let had_cells = self.has_cells;
        self.has_cells = false;
        !had_cells
    }

    /// Puts a cell at a place. Those before it stay; answers whether those after it do.
    pub(crate) fn put(&mut self, place: usize, cell: Cell) -> bool
        requires { place < length self.old }
        ensures front { take (place + 1) self.new ≡ take place self.old ++ cell ∷ [] }
        ensures same { result ≡ true → self.new ≡ set self.old place cell }
        ensures len { length self.new ≡ length self.old }
    {
        if self.has_cells {
            self.cells[place] = cell;
            return true;
        }
        if is_ascii_cell(cell) {
            self.ascii.put(place, cell.c as u8, cell.font);
            return true;
        }
        make_cells(&mut self.cells, &self.ascii, place);
        self.cells[place] = cell;
        self.has_cells = true;
        false
    }

    /// Puts a cell of each byte at a start and after it.
    pub(crate) fn put_plain(&mut self, start: usize, bytes: &[u8], font: Font)
        requires plain { cells_laws.is_printable_ascii bytes.now ≡ true }
        requires room { start + length bytes.now ≤ length self.old }
        ensures { self.new ≡ put_at self.old start (cells.cells_of font bytes.now) }
    {
        if self.has_cells {
            put_cells(&mut self.cells, start, bytes, font);
        } else {
            self.ascii.put_text(start, bytes, font);
        }
    }

    /// Puts a cell of each byte, in the font beside it, at a start and after it.
    pub(crate) fn put_letters(&mut self, start: usize, bytes: &[u8], fonts: &[Font])
        requires plain { cells_laws.is_printable_ascii bytes.now ≡ true }
        requires fonts { length fonts.now ≡ length bytes.now }
        requires room { start + length bytes.now ≤ length self.old }
        ensures { self.new ≡ put_at self.old start (cells_in bytes.now fonts.now) }
    {
        if self.has_cells {
            put_cells_in(&mut self.cells, start, bytes, fonts);
        } else {
            self.ascii.put_letters(start, bytes, fonts);
        }
    }

    /// Puts a count of blanks at a start and after it.
    pub(crate) fn put_blanks(&mut self, start: usize, count: usize, font: Font)
        requires { start + count ≤ length self.old }
        ensures { self.new ≡ put_at self.old start (replicate count (cells.cell_of font 32)) }
    {
        if self.has_cells {
            put_blanks(&mut self.cells, start, count, font);
        } else {
            self.ascii.put_blanks(start, count, font);
        }
    }

    /// The cells from a start up to an end come to the front.
    pub(crate) fn move_to_front(&mut self, start: usize, end: usize)
        requires { (start ≤ end) × (end ≤ length self.old) }
        ensures { self.new ≡ put_at self.old 0 (take (end - start) (drop start self.old)) }
    {
        if self.has_cells {
            move_to_front(&mut self.cells, start, end);
        } else {
            self.ascii.move_to_front(start, end);
        }
    }

    /// Whether none of the first cells prints anything.
    pub(crate) fn is_blank(&self, end: usize) -> bool
        requires { end ≤ length self.now }
        ensures { result ≡ is_blank_row (row_of 0 (take end self.now)) }
    {
        if self.has_cells {
            is_blank(&self.cells[..end])
        } else {
            self.ascii.is_blank(end)
        }
    }

    /// The columns of the first cells.
    pub(crate) fn columns(&self, end: usize) -> u32
        requires { end ≤ length self.now }
        ensures value { result ≡ cells.columns (take end self.now) }
        ensures bound { result ≤ 3 * end }
    {
        if self.has_cells {
            columns(&self.cells[..end])
        } else {
            self.ascii.columns(end)
        }
    }

    /// Puts the first cells in the first of other places.
    pub(crate) fn copy_cells(&self, end: usize, places: &mut [Cell])
        requires { (end ≤ length self.now) × (end ≤ length places.old) }
        ensures { take end places.new ≡ take end self.now }
    {
        if self.has_cells {
            places[..end].copy_from_slice(&self.cells[..end]);
        } else {
            self.ascii.copy_cells(end, places);
        }
    }

    /// Gives the first cells as a row, of blanks alone or not.
    pub(crate) fn give<O: RowOut>(&mut self, end: usize, margin: u32, is_blank: bool, out: &mut O)
        requires within { end ≤ length self.old }
        requires blank { is_blank ≡ true → is_blank_row (row_of margin (take end self.old)) ≡ true }
        ensures gives { CameRows O.left out.old (row_of margin (take end self.old) ∷ []) [] out.new }
        ensures same { self.new ≡ self.old }
    {
        if !self.has_cells {
            self.ascii.give(end, margin, is_blank, &mut self.cells, out);
        } else if is_blank {
            out.give_blank(margin, &self.cells[..end]);
        } else {
            out.give(margin, &self.cells[..end]);
        }
    }
}
