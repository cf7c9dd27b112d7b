//! The cells of a row, in places that are reserved for good.

ghost use Rattle.std.specs.Prelude.{◌≡◌, ◌+◌, ◌*◌, ◌<◌, ◌≤◌, [], ◌∷◌, ◌++◌, ◌==◌, length, take, drop, replicate, IfOk, true, if◌then◌else◌};
ghost use Rattle.page_core_base.specs.laws.Views.{CameRows, cells_in};
ghost use Rattle.page_core_base.specs.Rows.{is_blank_row, row_of};
ghost use Rattle.page_fill_cells.specs.Cells as cells;
ghost use Rattle.page_core_base.specs.laws.Views as cells_laws;
ghost use Rattle.page_fill_cells.specs.machine.BlankRuns.{HasRun};

use crate::blank_runs::{BlankRun, NO_RUN, is_long_run};
use crate::cell_widths::BLANK;
use crate::places::Places;
use crate::printable::is_printable_ascii;
use page_core_base::{CELLS, Cell, Font, RowOut};
use std::alloc::{AllocError, Global};
use std::marker::Model;

// The blanks before a word that are put one by one.
const FEW: u32 = 4;

/// The cells of a row, at most [`CELLS`].
#[derive(Drop)]
pub struct RowCells {
    // The row's cells come first; what is after them means nothing.
    places: Places,
    len: usize,
    // Places that have blanks, be they of the row or of an earlier one.
    run: BlankRun,
    // How many of the first places have blanks, in whatever fonts.
    blanks: usize,
}

impl Model for RowCells {
    ghost use Rattle.std.specs.Prelude.{◌≡◌, ◌≤◌, List, length, take, true};
    ghost use Rattle.page_core_base.specs.Rows.{is_blank_row, row_of};
    ghost use Rattle.page_core_base.specs.declared.cells.Cell.{Cell};
    ghost use Rattle.page_core_base.specs.declared.limits.TheConstants.{CELLS};
    ghost use Rattle.page_fill_cells.specs.machine.BlankRuns.{HasRun};

    ghost Value = { List Cell };

    ghost view = { λ r. take r.len r.places };

    ghost invariant = { λ r. (length r.places ≡ CELLS) × (r.len ≤ CELLS)
        × HasRun r.places r.run.start r.run.end r.run.font
        × (is_blank_row (row_of 0 (take r.blanks r.places)) ≡ true) };
}

impl RowCells {
    /// No cells. It reserves all memory that it will ever hold.
    pub fn new(alloc: Global) -> Result<RowCells, AllocError>
        ensures { IfOk result (λ r. r ≡ []) }
    {
        Ok(RowCells {
            places: Places::new(alloc)?,
            len: 0,
            run: NO_RUN,
            blanks: 0,
        })
    }

    /// The same cells, with all memory that they will ever have.
    pub fn copy(&self, alloc: Global) -> Result<RowCells, AllocError>
        ensures { IfOk result (λ r. r ≡ self.now) }
    {
        Ok(RowCells {
            places: self.places.copy(alloc)?,
            len: self.len,
            run: self.run,
            blanks: self.blanks,
        })
    }

    /// Puts the cells in the first of other places.
    pub fn copy_cells(&self, places: &mut [Cell])
        requires { length self.now ≤ length places.old }
        ensures { take (length self.now) places.new ≡ self.now }
    {
        self.places.copy_cells(self.len, places);
    }

    /// The columns of the cells.
    pub fn columns(&self) -> u32
        ensures value { result ≡ cells.columns self.now }
        ensures bound { result ≤ 3 * length self.now }
    {
        self.places.columns(self.len)
    }

    /// How many cells there are.
    pub fn len(&self) -> usize
        ensures value { result ≡ length self.now }
        ensures bound { result ≤ CELLS }
    {
        self.len
    }

    /// Whether there is no cell.
    pub fn is_empty(&self) -> bool
        ensures { result ≡ (length self.now == 0) }
    {
        self.len == 0
    }

    /// Whether no cell of a front prints anything.
    pub fn is_blank(&self, end: usize) -> bool
        requires { end ≤ length self.now }
        ensures { result ≡ is_blank_row (row_of 0 (take end self.now)) }
    {
        if end <= self.blanks {
            return true;
        }
        if self.run.start == 0 && end <= self.run.end {
            return true;
        }
        self.places.is_blank(end)
    }

    /// Gives a front of the cells as a row, and answers whether nothing of it prints.
    pub fn give<O: RowOut>(&mut self, end: usize, margin: u32, out: &mut O) -> bool
        requires { end ≤ length self.old }
        ensures answer { result ≡ is_blank_row (row_of 0 (take end self.old)) }
        ensures gives { CameRows O.left out.old (row_of margin (take end self.old) ∷ []) [] out.new }
        ensures same { self.new ≡ self.old }
    {
        let is_blank = self.is_blank(end);
        self.places.give(end, margin, is_blank, out);
        is_blank
    }

    /// Takes all cells away.
    pub fn clear(&mut self)
        ensures { self.new ≡ [] }
    {
        self.len = 0;
        if !self.places.begin() {
            self.run = NO_RUN;
            self.blanks = 0;
        }
    }

    /// Appends a cell.
    pub fn push(&mut self, cell: Cell)
        requires { length self.old < CELLS }
        ensures { self.new ≡ self.old ++ cell ∷ [] }
    {
        let stays = self.places.put(self.len, cell);
        self.len += 1;
        if stays {
            self.run.cut(self.len);
        } else {
            self.run = NO_RUN;
        }
        self.blanks = 0;
    }

    /// Takes all cells away, and appends a cell.
    pub fn begin(&mut self, cell: Cell)
        ensures { self.new ≡ cell ∷ [] }
    {
        let stays = self.places.begin() & self.places.put(0, cell);
        self.run = if stays {
            self.run.after_first(cell)
        } else {
            NO_RUN
        };
        self.len = 1;
        self.blanks = usize::from(cell.c == ' ');
    }

    // Takes the cells before a start away. Blanks that are known stay where they are, and the places before them get blanks too.
    fn keep_from(&mut self, start: usize)
        requires { start ≤ length self.old }
        ensures { self.new ≡ drop start self.old }
    {
        let end = self.len;
        self.len = end - start;
        self.blanks = 0;
        if self.run.start <= start && end <= self.run.end {
            self.places.put_blanks(0, self.run.start, self.run.font);
            self.run.start = 0;
            return;
        }
        self.places.move_to_front(start, end);
        self.run = NO_RUN;
    }

    /// Takes the cells before a start away, and appends a cell. Where all of these are blanks, they stay known as such.
    pub fn carry(&mut self, start: usize, cell: Cell)
        requires within { start ≤ length self.old }
        requires room { length (drop start self.old) < CELLS }
        ensures { self.new ≡ drop start self.old ++ cell ∷ [] }
    {
        self.keep_from(start);
        if cell.c == ' ' {
            self.add_blanks(1, cell.font);
        } else {
            self.push(cell);
        }
    }

    /// Appends a count of blanks.
    pub fn add_blanks(&mut self, count: usize, font: Font)
        requires { length self.old + count ≤ CELLS }
        ensures { self.new ≡ self.old ++ replicate count (cells.cell_of font 32) }
    {
        let start = self.len;
        let end = start + count;
        if self.run.has(start, end, font) {
            self.len = end;
            return;
        }
        self.places.put_blanks(start, count, font);
        self.run = self.run.with(start, end, font);
        self.blanks = if start <= self.blanks { end } else { 0 };
        self.len = end;
    }

    /// Appends a cell of each byte.
    pub fn add_plain(&mut self, bytes: &[u8], font: Font)
        requires plain { cells_laws.is_printable_ascii bytes.now ≡ true }
        requires room { length self.old + length bytes.now ≤ CELLS }
        ensures { self.new ≡ self.old ++ cells.cells_of font bytes.now }
    {
        let end = self.len + bytes.len();
        self.places.put_plain(self.len, bytes, font);
        self.run.cut(end);
        self.blanks = 0;
        self.len = end;
    }

    /// Appends a cell of each byte, in the font beside it.
    pub fn add_letters(&mut self, bytes: &[u8], fonts: &[Font])
        requires plain { cells_laws.is_printable_ascii bytes.now ≡ true }
        requires fonts { length fonts.now ≡ length bytes.now }
        requires room { length self.old + length bytes.now ≤ CELLS }
        ensures { self.new ≡ self.old ++ cells_in bytes.now fonts.now }
    {
        let end = self.len + bytes.len();
        self.places.put_letters(self.len, bytes, fonts);
        self.run.cut(end);
        self.blanks = 0;
        self.len = end;
    }

    /// Appends a cell of each byte, if all bytes are printable ASCII, and says whether they are.
    pub fn add_part(&mut self, bytes: &[u8], font: Font) -> bool
        requires { length self.old + length bytes.now ≤ CELLS }
        ensures answer { result ≡ cells_laws.is_printable_ascii bytes.now }
        ensures cells { self.new ≡ (if result then self.old ++ cells.cells_of font bytes.now else self.old) }
    {
        if is_long_run(bytes) {
            self.add_blanks(bytes.len(), font);
            return true;
        }
        if !is_printable_ascii(bytes) {
            return false;
        }
        self.add_plain(bytes, font);
        true
    }

    /// Appends blanks before a word, of which there are few, mostly one.
    pub fn add_spaces(&mut self, count: u32)
        requires { length self.old + count ≤ CELLS }
        ensures { self.new ≡ self.old ++ replicate count cells.blank }
    {
        if count == 1 {
            self.push(BLANK);
            return;
        }
        if count > FEW {
            self.add_blanks(count as usize, Font::R);
            return;
        }
        for _ in 0..count {
            self.push(BLANK);
        }
    }
}
