//! The columns of cells.

ghost use Rattle.std.specs.Prelude.{◌≡◌, ◌*◌, ◌≤◌, length};
ghost use Rattle.page_fill_cells.specs.Cells.{cell_columns, columns};
ghost use Rattle.page_core_base.specs.Rows.{is_blank_row, row_of};

use page_core_base::{BLANK_GROUP, Cell, Font, LONG_ROW, are_blank};
use page_core_tables::char_columns;

/// A blank.
pub const BLANK: Cell = Cell {
    c: ' ',
    font: Font::R,
};

/// The columns of a cell.
pub fn cell_columns(cell: Cell) -> u32
    ensures value { result ≡ cell_columns cell }
    ensures bound { result ≤ 3 }
{
    char_columns(cell.c)
}

/// The columns of cells, at most as many as a row holds.
pub fn columns(cells: &[Cell]) -> u32
    requires { length cells.now ≤ 4096 }
    ensures value { result ≡ columns cells.now }
    ensures bound { result ≤ 3 * length cells.now }
{
    let mut sum = 0u32;
    for cell in cells {
        sum += cell_columns(*cell);
    }
    sum
}

// Whether no cell of a long row prints anything.
#[inline(never)]
fn is_long_blank(cells: &[Cell]) -> bool
    ensures { result ≡ is_blank_row (row_of 0 cells.now) }
{
    let mut rest = cells;
    while rest.len() >= BLANK_GROUP {
        let (group, later) = rest.split_at(BLANK_GROUP);
        if !are_blank(group) {
            return false;
        }
        rest = later;
    }
    are_blank(rest)
}

// Whether no cell of a row prints anything, cell by cell up to the first that does.
fn is_short_blank(cells: &[Cell]) -> bool
    ensures { result ≡ is_blank_row (row_of 0 cells.now) }
{
    for cell in cells {
        if cell.c != ' ' {
            return false;
        }
    }
    true
}

/// Whether no cell prints anything.
pub(crate) fn is_blank(cells: &[Cell]) -> bool
    ensures { result ≡ is_blank_row (row_of 0 cells.now) }
{
    if cells.len() < LONG_ROW {
        is_short_blank(cells)
    } else {
        is_long_blank(cells)
    }
}
