//! Cells: the characters of a row with their fonts.

ghost use Rattle.std.specs.Prelude.{◌≡◌, ◌≤◌, length, vec_capacity};
ghost use Rattle.std.specs.List.{list_all};
ghost use Rattle.page_core_base.specs.laws.Views.{cells_in};
ghost use Rattle.page_core_base.specs.Rows.{is_blank, is_blank_row, row_of};

/// The font of a cell: roman, bold, italic, or bold and italic (mandoc_char(7), roff(7) `ft`).
#[derive(Clone, Copy, Debug, PartialEq, Eq)]
pub enum Font {
    R,
    B,
    I,
    BI,
}

/// A character of a row in its font.
#[derive(Clone, Copy, Debug, PartialEq, Eq)]
pub struct Cell {
    pub c: char,
    pub font: Font,
}

/// More cells than a row of words has: those that are blanks are looked for in groups.
pub const LONG_ROW: usize = 512;

/// The cells of a long row that are looked at together: so many that the compiler makes a loop for them that tests several at once.
pub const BLANK_GROUP: usize = 64;

/// Whether a few cells are blanks. All of them are read.
#[inline(always)]
pub fn are_blank(cells: &[Cell]) -> bool
    ensures cells { result ≡ list_all is_blank cells.now }
    ensures row { result ≡ is_blank_row (row_of 0 cells.now) }
{
    let mut all = true;
    for cell in cells {
        all &= cell.c == ' ';
    }
    all
}

/// Puts the cells of characters of ASCII, each in its font, in the place of the cells that are there.
pub fn put_ascii(cells: &mut Vec<Cell>, bytes: &[u8], fonts: &[Font])
    requires { (length fonts.now ≡ length bytes.now) × (length bytes.now ≤ vec_capacity cells.old) }
    ensures cells { cells.new.items ≡ cells_in bytes.now fonts.now }
    ensures room { vec_capacity cells.new ≡ vec_capacity cells.old }
{
    cells.clear();
    for i in 0..bytes.len() {
        cells.push_reserved(Cell {
            c: bytes[i] as char,
            font: fonts[i],
        });
    }
}
