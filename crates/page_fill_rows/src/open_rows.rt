//! The open row, cell by cell.

ghost use Rattle.std.specs.Prelude.{◌≡◌, ◌+◌, ◌-◌, ◌<◌, ◌≤◌, ◌==◌, [], ◌∷◌, ◌++◌, length, take, drop, replicate, IfOk, true, false, if◌then◌else◌};
ghost use Rattle.page_core_base.specs.laws.Views.{CameRows, LaysOut, message_of, cells_in};
ghost use Rattle.page_core_base.specs.Rows.{row_of};
ghost use Rattle.page_fill_rows.specs.OpenRows as shown;
ghost use Rattle.page_fill_rows.specs.laws.Views.{IsHeld};
ghost use Rattle.page_fill_rows.specs.machine.Plain as plain;
ghost use Rattle.page_fill_rows.specs.machine.Sheets as sheet;

use crate::{BLANK_ROWS, TAG_COLUMNS};
use arrayvec::ArrayString;
use page_core_base::{CELLS, Cell, Font, Limit, Note, NoteKind, Place, RowOut};
use page_fill_cells::{BLANK, RowCells, cell_columns};
use std::alloc::{AllocError, Global};
use std::marker::Model;

// The report that a row has too many cells.
fn cells_note(place: Place) -> Note
    ensures { message_of result ≡ sheet.cells_note place }
{
    let mut detail = ArrayString::new();
    detail.push_str(Limit::Cells.name());
    Note {
        kind: NoteKind::Limit,
        line: place.line,
        column: place.column,
        detail,
    }
}

/// The open row, and what is known of the rows above it.
#[derive(Drop)]
pub struct OpenRow {
    width: u32,
    is_literal: bool,
    first: u32,
    rest: u32,
    margin: u32,
    row: RowCells,
    columns: u32,
    gap: usize,
    word: usize,
    blank_rows: u32,
    has_heading: bool,
    tag_columns: u32,
    has_tag_cell: bool,
}

impl Model for OpenRow {
    ghost use Rattle.page_fill_rows.specs.machine.RowPlans.{IsSound};
    ghost use Rattle.page_fill_rows.specs.OpenRows.{Sheet};

    ghost Value = { Sheet };

    ghost view = { λ a. record {
      width = a.width;
      literal = a.is_literal;
      first = a.first;
      rest = a.rest;
      margin = a.margin;
      cells = a.row;
      gap = a.gap;
      word = a.word;
      blank_rows = a.blank_rows;
      heading = a.has_heading;
      tag_columns = a.tag_columns;
      tag_begun = a.has_tag_cell;
    } };

    ghost invariant = { λ a. IsSound a.row a.columns a.gap a.word a.tag_columns a.blank_rows };
}

impl OpenRow {
    /// No open row, below one blank row, on a page of this width in columns. It reserves all memory that it will ever hold.
    pub fn new(alloc: Global, width: u32) -> Result<OpenRow, AllocError>
        ensures { IfOk result (λ s. s ≡ sheet.fresh width) }
    {
        let row = RowCells::new(alloc)?;
        Ok(OpenRow {
            width,
            is_literal: false,
            first: 0,
            rest: 0,
            margin: 0,
            row,
            columns: 0,
            gap: 0,
            word: 0,
            blank_rows: 1,
            has_heading: false,
            tag_columns: 0,
            has_tag_cell: false,
        })
    }

    /// This row on a page of another width in columns, with all memory that it will ever hold.
    pub fn copy(&self, alloc: Global, width: u32) -> Result<OpenRow, AllocError>
        ensures { IfOk result (λ s. s ≡ record self.now { width = width }) }
    {
        let row = self.row.copy(alloc)?;
        Ok(OpenRow {
            width,
            is_literal: self.is_literal,
            first: self.first,
            rest: self.rest,
            margin: self.margin,
            row,
            columns: self.columns,
            gap: self.gap,
            word: self.word,
            blank_rows: self.blank_rows,
            has_heading: self.has_heading,
            tag_columns: self.tag_columns,
            has_tag_cell: self.has_tag_cell,
        })
    }

    /// The columns of a row with its margin.
    pub fn width(&self) -> u32
        ensures { result ≡ self.now.width }
    {
        self.width
    }

    /// Whether the open row has no cell.
    pub fn is_empty(&self) -> bool
        ensures { result ≡ (length self.now.cells == 0) }
    {
        self.row.is_empty()
    }

    /// How many cells the open row has.
    pub fn len(&self) -> usize
        ensures value { result ≡ length self.now.cells }
        ensures bound { result ≤ CELLS }
    {
        self.row.len()
    }

    /// Puts the cells of the open row in the first places, and answers how many they are.
    pub fn copy_cells(&self, places: &mut [Cell]) -> usize
        requires { CELLS ≤ length places.old }
        ensures cells { take result places.new ≡ self.now.cells }
        ensures bound { result ≤ CELLS }
        ensures len { length places.new ≡ length places.old }
    {
        self.row.copy_cells(places);
        self.row.len()
    }

    /// The columns of the open row's cells.
    pub fn columns(&self) -> u32
        ensures { result ≡ sheet.columns self.now.cells }
    {
        self.columns
    }

    /// The places of the last word lie within the row. Nothing is done: the row keeps to it.
    #[inline(always)]
    pub fn held_law(&self)
        ensures { IsHeld self.now }
    {
        let _gap = self.gap;
    }

    /// Whether rows are kept as they are.
    pub fn is_literal(&self) -> bool
        ensures { result ≡ self.now.literal }
    {
        self.is_literal
    }

    /// How many blank rows are at the end, up to [`BLANK_ROWS`].
    pub fn blank_rows(&self) -> u32
        ensures value { result ≡ self.now.blank_rows }
        ensures bound { result ≤ BLANK_ROWS }
    {
        self.blank_rows
    }

    /// How many blank rows are missing to a count of them; none after a heading's row.
    pub fn missing_rows(&self, count: u32) -> u32
        ensures { result ≡ (if self.now.heading then 0 else count - self.now.blank_rows) }
    {
        if self.has_heading {
            0
        } else {
            count.saturating_sub(self.blank_rows)
        }
    }

    /// The columns of the open tag, up to [`TAG_COLUMNS`].
    pub fn tag_columns(&self) -> u32
        ensures value { result ≡ self.now.tag_columns }
        ensures bound { result ≤ TAG_COLUMNS }
    {
        self.tag_columns
    }

    /// Whether the open tag has a cell.
    pub fn has_tag_cell(&self) -> bool
        ensures { result ≡ self.now.tag_begun }
    {
        self.has_tag_cell
    }

    /// Counts the cells of a new tag.
    pub fn count_anew(&mut self)
        ensures { self.new ≡ record self.old { tag_columns = 0; tag_begun = false } }
    {
        self.tag_columns = 0;
        self.has_tag_cell = false;
    }

    /// The last row is a heading's.
    pub fn set_heading(&mut self)
        ensures { self.new ≡ record self.old { heading = true } }
    {
        self.has_heading = true;
    }

    /// Sets the margin of the row that begins next, and of those after it, in columns.
    pub fn set_margins(&mut self, first: u32, rest: u32)
        ensures { self.new ≡ record self.old { first = first; rest = rest } }
    {
        self.first = first;
        self.rest = rest;
    }

    /// Keeps rows as they are, or fills them.
    pub fn set_literal(&mut self, is_literal: bool)
        ensures { self.new ≡ record self.old { literal = is_literal } }
    {
        self.is_literal = is_literal;
    }

    // Whether a cell passes the width and its word isn't the row's first.
    fn passes(&self, cell: Cell) -> bool
        ensures { result ≡ sheet.passes self.now cell }
    {
        let columns = u64::from(self.margin)
            + u64::from(self.columns)
            + u64::from(cell_columns(cell));
        !self.is_literal && 0 < self.gap && u64::from(self.width) < columns
    }

    // Counts a cell for the open tag.
    fn count(&mut self, cell: Cell)
        ensures { self.new ≡ sheet.counted self.old cell }
    {
        let columns = self.tag_columns.saturating_add(cell_columns(cell));
        self.tag_columns = columns.min(TAG_COLUMNS);
        self.has_tag_cell = true;
    }

    // Gives a front of the open row as a row.
    fn give<O: RowOut>(&mut self, end: usize, out: &mut O)
        requires { end ≤ length self.old.cells }
        ensures { LaysOut O.left out.old (sheet.gives self.old (take end self.old.cells)) out.new self.new }
    {
        self.blank_rows = if self.row.give(end, self.margin, out) {
            self.blank_rows.saturating_add(1).min(BLANK_ROWS)
        } else {
            0
        };
        self.has_heading = false;
    }

    // Gives a front of the open row as a row, and reports that it has too many cells.
    fn give_full<O: RowOut>(&mut self, end: usize, place: Place, out: &mut O)
        requires { end ≤ length self.old.cells }
        ensures { LaysOut O.left out.old
            (sheet.gives_full self.old (take end self.old.cells) place) out.new self.new }
    {
        self.give(end, out);
        out.report(&cells_note(place));
    }

    // The last word and a cell begin a row.
    fn carry_word(&mut self, cell: Cell)
        requires { 0 < self.old.gap }
        ensures { self.new ≡ sheet.begins self.old (drop self.old.word self.old.cells ++ cell ∷ []) }
    {
        self.row.carry(self.word, cell);
        self.columns = self.row.columns();
        self.margin = self.first;
        self.first = self.rest;
        self.gap = 0;
        self.word = 0;
    }

    // A cell begins a row.
    fn begin_row(&mut self, cell: Cell)
        ensures { self.new ≡ sheet.begins self.old (cell ∷ []) }
    {
        self.row.begin(cell);
        self.columns = cell_columns(cell);
        self.margin = self.first;
        self.first = self.rest;
        self.gap = 0;
        self.word = 0;
    }

    // A row begins without cells.
    fn open_row(&mut self)
        ensures { self.new ≡ sheet.begins self.old [] }
    {
        self.row.clear();
        self.columns = 0;
        self.margin = self.first;
        self.first = self.rest;
        self.gap = 0;
        self.word = 0;
    }

    // The open row takes a cell.
    fn add(&mut self, cell: Cell)
        requires { length self.old.cells < CELLS }
        ensures { self.new ≡ record self.old { cells = self.old.cells ++ cell ∷ [] } }
    {
        self.columns += cell_columns(cell);
        self.row.push(cell);
    }

    // The open row takes a blank before its next word.
    fn add_space(&mut self)
        requires { length self.old.cells < CELLS }
        ensures { self.new ≡ record self.old {
          cells = self.old.cells ++ sheet.blank ∷ [];
          word = length
              self.old.cells + 1;
        } }
    {
        self.columns += cell_columns(BLANK);
        self.row.push(BLANK);
        self.word = self.row.len();
    }

    // No row is open.
    fn empty(&mut self)
        ensures { self.new ≡ sheet.emptied self.old }
    {
        self.row.clear();
        self.columns = 0;
        self.gap = 0;
        self.word = 0;
    }

    // The row ends before its last word, which goes on in the next row with a cell.
    fn wrap_word<O: RowOut>(&mut self, cell: Cell, out: &mut O)
        requires { 0 < self.old.gap }
        ensures { LaysOut O.left out.old (sheet.wraps self.old cell) out.new self.new }
    {
        let gap = self.gap;
        self.give(gap, out);
        self.carry_word(cell);
    }

    // The full row ends, and a cell begins the next one.
    fn split_row<O: RowOut>(&mut self, cell: Cell, place: Place, out: &mut O)
        ensures { LaysOut O.left out.old (sheet.splits self.old cell place) out.new self.new }
    {
        let end = self.row.len();
        self.give_full(end, place, out);
        self.begin_row(cell);
    }

    // The row ends before a blank that passes the width.
    fn end_before_space<O: RowOut>(&mut self, out: &mut O)
        ensures { LaysOut O.left out.old
            (sheet.over (sheet.gives self.old (take self.old.gap self.old.cells)) sheet.emptied)
            out.new self.new }
    {
        let gap = self.gap;
        self.give(gap, out);
        self.empty();
    }

    // The full row ends before a blank.
    fn split_before_space<O: RowOut>(&mut self, place: Place, out: &mut O)
        ensures { LaysOut O.left out.old
            (sheet.over (sheet.gives_full self.old (take self.old.gap self.old.cells) place) sheet.emptied)
            out.new self.new }
    {
        let gap = self.gap;
        self.give_full(gap, place, out);
        self.empty();
    }

    /// Whether the row takes this count of cells of a column each before it ends.
    pub(crate) fn has_room(&self, count: usize) -> bool
        ensures { result ≡ plain.has_room self.now count }
    {
        if CELLS - self.row.len() < count {
            return false;
        }
        let columns = u64::from(self.margin) + u64::from(self.columns) + count as u64;
        self.is_literal || self.gap == 0 || columns <= u64::from(self.width)
    }

    // How many cells of a column each the row takes before it ends.
    fn room(&self) -> usize
        ensures value { result ≡ plain.room self.now }
        ensures bound { length self.now.cells + result ≤ CELLS }
    {
        let free = CELLS - self.row.len();
        if self.is_literal || self.gap == 0 {
            return free;
        }
        let columns = self
            .width
            .saturating_sub(self.margin)
            .saturating_sub(self.columns);
        free.min(columns as usize)
    }

    /// How many of some cells of a column each are put together: those that the row takes before it ends, or the one before which it ends.
    pub(crate) fn part_len(&self, count: usize) -> usize
        requires { 0 < count }
        ensures some { 0 < result }
        ensures within { result ≤ count }
    {
        self.room().max(1).min(count)
    }

    /// Whether the row has a cell, and takes this count of cells of a column each after it before it ends.
    pub fn has_part_room(&self, count: usize) -> bool
        ensures { result ≡ plain.has_part_room self.now count }
    {
        !self.row.is_empty() && self.has_room(count)
    }

    /// Whether a filled row takes blanks and this count of cells of a column each after them before it ends.
    pub fn has_word_room(&self, blanks: u32, count: usize) -> bool
        ensures { result ≡ plain.has_word_room self.now blanks count }
    {
        let free = CELLS - self.row.len();
        if self.is_literal
            || self.row.is_empty()
            || free < count
            || free - count < blanks as usize
        {
            return false;
        }
        let columns = u64::from(self.margin)
            + u64::from(self.columns)
            + u64::from(blanks)
            + count as u64;
        columns <= u64::from(self.width)
    }

    // A word begins after the row's cells, and the blank before it counts for the open tag where it has room.
    fn count_blank(&mut self)
        ensures { self.new ≡ plain.blank_counted self.old }
    {
        self.open_word();
        if !self.passes(BLANK) {
            self.count(BLANK);
        }
    }

    // The row ends before a word after one blank.
    fn end_before_word<O: RowOut>(&mut self, out: &mut O)
        ensures { LaysOut O.left out.old
            (sheet.over (sheet.gives (plain.blank_counted self.old) self.old.cells) sheet.emptied)
            out.new self.new }
    {
        self.count_blank();
        let end = self.row.len();
        self.give(end, out);
        self.empty();
    }

    // A row begins with words of bytes that are a column each, in the fonts beside them, of which the last starts at a place of them.
    fn begin_words(&mut self, bytes: &[u8], fonts: &[Font], start: usize)
        requires plain { plain.is_printable_ascii bytes.now ≡ true }
        requires fonts { length fonts.now ≡ length bytes.now }
        requires room { length bytes.now ≤ CELLS }
        requires start { start ≤ length bytes.now }
        ensures { self.new ≡ plain.begun_with self.old (cells_in bytes.now fonts.now) start }
    {
        self.open_row();
        self.row.add_letters(bytes, fonts);
        self.gap = start.saturating_sub(1);
        self.word = start;
        let count = bytes.len() as u32;
        self.columns = count;
        self.tag_columns = self.tag_columns.saturating_add(count).min(TAG_COLUMNS);
        self.has_tag_cell = true;
    }

    /// The row ends, and words of letters in fonts, with a blank between two, begin the next one, which fits them; the last of them starts at a place
    /// of the text.
    #[inline(always)]
    pub fn wrap_words<O: RowOut>(&mut self, text: &[u8], fonts: &[Font], start: usize, out: &mut O)
        requires plain { plain.is_printable_ascii text.now ≡ true }
        requires fonts { length fonts.now ≡ length text.now }
        requires room { length text.now ≤ CELLS }
        requires start { start ≤ length text.now }
        ensures { LaysOut O.left out.old
            (plain.wraps_words self.old (cells_in text.now fonts.now) start) out.new self.new }
    {
        self.end_before_word(out);
        self.begin_words(text, fonts, start);
    }

    /// The row, which has a cell and room, takes more bytes of its last word, if these are printable ASCII; says whether they are.
    pub fn add_part(&mut self, bytes: &[u8], font: Font) -> bool
        requires some { (length self.old.cells == 0) ≡ false }
        requires room { length self.old.cells + length bytes.now ≤ CELLS }
        ensures answer { result ≡ plain.is_printable_ascii bytes.now }
        ensures part { result ≡ true → self.new ≡ plain.taken self.old (shown.cells_of font bytes.now) }
        ensures same { result ≡ false → self.new ≡ self.old }
    {
        if !self.row.add_part(bytes, font) {
            return false;
        }
        let count = bytes.len() as u32;
        self.columns += count;
        self.tag_columns = self.tag_columns.saturating_add(count).min(TAG_COLUMNS);
        self.has_tag_cell = true;
        true
    }

    // The row, which has room, takes a count of blanks of its last word.
    fn add_blanks(&mut self, count: usize, font: Font)
        requires { length self.old.cells + count ≤ CELLS }
        ensures { self.new ≡ plain.taken self.old (replicate count (shown.cell_of font 32)) }
    {
        if self.row.is_empty() {
            self.open_row();
        }
        self.row.add_blanks(count, font);
        self.columns += count as u32;
        self.tag_columns = self
            .tag_columns
            .saturating_add(count as u32)
            .min(TAG_COLUMNS);
        self.has_tag_cell = true;
    }

    /// How many cells of a column each a filled row that has a cell takes before it ends; 0 for any other row.
    pub fn free_cells(&self) -> usize
        ensures value { result ≡ plain.free_cells self.now }
        ensures bound { length self.now.cells + result ≤ CELLS }
    {
        if self.is_literal || self.row.is_empty() {
            return 0;
        }
        let free = self
            .width
            .saturating_sub(self.margin)
            .saturating_sub(self.columns);
        (CELLS - self.row.len()).min(free as usize)
    }

    /// How many cells of a column each the next row takes before it ends, if it is filled.
    pub fn next_free_cells(&self) -> usize
        ensures value { result ≡ plain.next_free_cells self.now }
        ensures bound { result ≤ CELLS }
    {
        let free = self.width.saturating_sub(self.first);
        CELLS.min(free as usize)
    }

    /// The row, which has room, takes blanks and after them words of letters in fonts, with a blank between two, of which the last starts at a place
    /// of the text.
    #[inline(always)]
    pub fn add_words(&mut self, blanks: u32, text: &[u8], fonts: &[Font], start: usize)
        requires plain { plain.is_printable_ascii text.now ≡ true }
        requires fonts { length fonts.now ≡ length text.now }
        requires room { length self.old.cells + blanks + length text.now ≤ CELLS }
        requires start { start ≤ length text.now }
        ensures { self.new ≡ plain.words_taken self.old blanks (cells_in text.now fonts.now) start }
    {
        let end = self.row.len();
        self.word = end + blanks as usize + start;
        self.gap = if start == 0 { end } else { self.word - 1 };
        self.row.add_spaces(blanks);
        self.row.add_letters(text, fonts);
        let count = blanks + text.len() as u32;
        self.columns += count;
        self.tag_columns = (self.tag_columns + count).min(TAG_COLUMNS);
        self.has_tag_cell = true;
    }

    /// The row takes cells of bytes that are a column each.
    pub(crate) fn add_plain(&mut self, bytes: &[u8], font: Font)
        requires plain { plain.is_printable_ascii bytes.now ≡ true }
        requires room { length self.old.cells + length bytes.now ≤ CELLS }
        ensures { self.new ≡ plain.taken self.old (shown.cells_of font bytes.now) }
    {
        if self.row.is_empty() {
            self.open_row();
        }
        self.row.add_plain(bytes, font);
        let count = bytes.len() as u32;
        self.columns += count;
        self.tag_columns = self.tag_columns.saturating_add(count).min(TAG_COLUMNS);
        self.has_tag_cell = true;
    }

    /// Puts a cell of the row's last word.
    #[tactic(auto, unfolding(crate::specs::machine::Sheets::letter))]
    pub fn put_letter<O: RowOut>(&mut self, cell: Cell, place: Place, out: &mut O)
        ensures { LaysOut O.left out.old (sheet.letter self.old cell place) out.new self.new }
    {
        self.count(cell);
        if self.passes(cell) {
            self.wrap_word(cell, out);
        } else if self.row.len() == CELLS {
            self.split_row(cell, place, out);
        } else if self.row.is_empty() {
            self.begin_row(cell);
        } else {
            self.add(cell);
        }
    }

    // Puts a blank before the row's next word.
    #[tactic(auto, unfolding(crate::specs::machine::Sheets::space))]
    fn put_space<O: RowOut>(&mut self, place: Place, out: &mut O)
        ensures { LaysOut O.left out.old (sheet.space self.old place) out.new self.new }
    {
        if self.row.is_empty() {
            return;
        }
        if self.passes(BLANK) {
            self.end_before_space(out);
        } else if self.row.len() == CELLS {
            self.split_before_space(place, out);
        } else {
            self.count(BLANK);
            self.add_space();
        }
    }

    /// The open row ends, if there is one.
    #[tactic(auto, unfolding(crate::specs::machine::Sheets::broken))]
    pub fn end_row<O: RowOut>(&mut self, out: &mut O)
        ensures { LaysOut O.left out.old (sheet.broken self.old) out.new self.new }
    {
        if self.row.is_empty() {
            return;
        }
        let end = self.row.len();
        self.give(end, out);
        self.empty();
    }

    /// A word begins after the row's cells.
    pub fn open_word(&mut self)
        ensures { self.new ≡ sheet.opens self.old }
    {
        self.gap = self.row.len();
        self.word = self.row.len();
    }

    // Puts blanks before the row's next word: up to one before which the row ends, since those after it are dropped.
    fn put_spaces<O: RowOut>(&mut self, count: u32, place: Place, out: &mut O)
        ensures { LaysOut O.left out.old (sheet.spaces self.old count place) out.new self.new }
    {
        for _ in 0..count {
            if self.row.is_empty() {
                return;
            }
            self.put_space(place, out);
        }
    }

    /// Puts a count of blanks that are cells of the row's last word: together those that the row has room for.
    pub fn put_blanks<O: RowOut>(&mut self, count: usize, font: Font, place: Place, out: &mut O)
        ensures { LaysOut O.left out.old (sheet.letters self.old (replicate count (shown.cell_of font 32)) place) out.new self.new }
    {
        let mut left = count;
        while left > 0 {
            let part = self.room().min(left);
            if part > 0 {
                self.add_blanks(part, font);
                left -= part;
            } else {
                self.put_letter(Cell { c: ' ', font }, place, out);
                left -= 1;
            }
        }
    }

    /// A new word begins with the blanks before it, which are cells of it or not.
    pub fn begin_word<O: RowOut>(&mut self, blanks: u32, stands: bool, place: Place, out: &mut O)
        ensures { LaysOut O.left out.old (sheet.new_word self.old blanks stands place) out.new self.new }
    {
        self.open_word();
        if stands {
            self.put_blanks(blanks as usize, Font::R, place, out);
        } else {
            self.put_spaces(blanks, place, out);
        }
    }

    /// Gives rows without cells.
    #[tactic(auto, unfolding(crate::specs::machine::Sheets::empty_rows))]
    pub fn give_empty_rows<O: RowOut>(&mut self, count: u32, out: &mut O)
        ensures { LaysOut O.left out.old (sheet.empty_rows self.old count) out.new self.new }
    {
        give_empty(count, out);
        self.blank_rows = self.blank_rows.saturating_add(count).min(BLANK_ROWS);
        self.has_heading = self.has_heading && count == 0;
    }
}

// Gives rows without cells.
fn give_empty<O: RowOut>(count: u32, out: &mut O)
    ensures { CameRows O.left out.old (replicate count (row_of 0 [])) [] out.new }
{
    for _ in 0..count {
        if out.has_failed() {
            return;
        }
        out.give(0, &[]);
    }
}
