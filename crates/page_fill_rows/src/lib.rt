//! The open row, cell by cell, and the characters, glyphs and plain texts that go into it (roff(7), "Filling and adjusting").
//!
//! In the pipeline (bytes, lines, roff, macro set, scopes, filling, rows) it is the last step: an [`OpenRow`] takes cells and blanks, and
//! gives each row to a sink as soon as no later cell can change it. It knows words only by their places in the row; what a word is is
//! in `page_fill`. Read `specs/OpenRows.antt` first, and in it `Sheet`, which is all that a row holds.
//!
//! Proved: `OpenRow`, `put_character`, `put_characters`, `put_glyph`, `put_plain`, `word_start`, `word_end`: what the open row is after each call, and the rows and
//! messages that the call settles (`specs/OpenRows.antt`, `specs/machine/Sheets.antt`, `Plain.antt`). `RowLatch`: the rows and messages that two sinks were given, and the fault of the first that failed. `KeepsRow`: what is kept beside an open row
//! shows its cells (`OpenCells`), or nothing (`NoCells`). `plain_law`: printable ASCII that is put into the row as a whole settles what its cells settle
//! one by one. `constants_law`: the constants are those that the definitions cite.
#![tactic(auto)]

ghost use Rattle.std.specs.Prelude.{◌≡◌};
ghost use Rattle.page_fill_rows.specs.OpenRows as rows;

mod characters;
mod kept_rows;
mod laws;
mod open_rows;
mod plain_texts;
mod row_latches;

/// The columns up to which those of a tag are counted. The greatest hang is 1,000 columns, so more of them make no difference.
pub const TAG_COLUMNS: u32 = 1002;

/// The count up to which blank rows at the end are counted. No macro asks for more, so more of them make no difference.
pub const BLANK_ROWS: u32 = 100;

/// The constants are those of the definitions.
pub fn constants_law()
    ensures { (TAG_COLUMNS ≡ rows.TAG_COLUMNS) × (BLANK_ROWS ≡ rows.BLANK_ROWS) }
{}

pub use characters::{put_character, put_characters, put_glyph};
pub use kept_rows::{KeepsRow, NoCells, OpenCells};
pub use laws::plain_law;
pub use open_rows::OpenRow;
pub use page_fill_cells::{columns, is_long_run, is_printable_ascii};
pub use plain_texts::{put_plain, word_end, word_start};
pub use row_latches::RowLatch;
