//! The cells of a row (mandoc(1), "ASCII Output"): what `page_fill_rows` fills.
//!
//! In the pipeline (bytes, lines, roff, macro set, scopes, filling, rows) it is where the characters of the open row are. Most of them are printable
//! ASCII: their bytes and fonts are in two arrays, so that a text is copied as it is, and goes to a sink of rows so. A row has cells from the first
//! other character on (`Places`). Blanks that are there already are known (`BlankRun`), so that rows of blanks cost little. Read `specs/Cells.antt`
//! first, and then [`RowCells`].
//!
//! Proved: `RowCells`: the cells after each call, and the row that is given. `columns`, `cell_columns`: the columns of cells. `is_printable_ascii`,
//! `is_long_run`: what is known of a text.
#![tactic(auto)]

mod ascii_places;
mod blank_runs;
mod cell_places;
mod cell_widths;
mod places;
mod printable;
mod row_cells;

pub use blank_runs::is_long_run;
pub use cell_widths::{BLANK, cell_columns, columns};
pub use printable::is_printable_ascii;
pub use row_cells::RowCells;
