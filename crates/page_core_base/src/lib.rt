//! What the layers of the formatter share: limits, tables of names, messages and their levels, settings, faults, cells, what is filled, texts within
//! a limit, the traits of the sinks that take rows, messages and pieces, and the latches through which inner functions give to them.
//!
//! Every layer uses it: what one gives and the next one takes is a type of this crate. A table of names is a `static` of lists of rows by their first
//! letter, and its look-up is `row_named(list_for(&TABLE, name), name)`; its definition is one list of the same rows (`specs/Messages.antt`:
//! `row_in` says what rows say of a name, and `row_of_rows` in `proofs/RowLemmas.antt` that the program's list of the letter says the same).
//!
//! Read first: `specs/Limits.antt`, the limits that definitions cite, with their names; `Piece` and `PieceSink` in `pieces.rt`; then `RowSink`,
//! `NoteSink`, and `PieceLatch` for how inner functions give.
//!
//! Proved: `limits_law`, `Limit::name`: the constants and the names of limits are those of `specs/Limits.antt`. `list_for`, `row_named`: the list of a
//! name's first letter, and what the first row of the name says (`specs/Messages.antt`). `is_line`, `after_byte`, `unpaired_front`, `Level::is_below`, `NoteKind::level`, `NoteKind::text`, `Note::about`: what a line may hold, what a quoted argument says, and the level and the text of each
//! kind of message (`specs/Texts.antt`, `Messages.antt`). `Settings::check`, `Settings::set_os`: settings are refused exactly where a bound is
//! passed, the first one first (`specs/Settings.antt`). `BoundedText`, `append`: bytes are added whole or not at all, within the limit or what is reserved. `PieceLatch`,
//! `NoteLatch`: all that is given came to the sink, or a front of it and then its fault (`specs/laws/Views.antt`).
#![tactic(auto)]

mod blank_texts;
mod bounded_texts;
mod cells;
mod faults;
mod limits;
mod lines_taken;
mod named_rows;
mod note_kinds;
mod note_latches;
mod note_sinks;
mod notes;
mod page_settings;
mod piece_latches;
mod pieces;
mod places;
mod quotes;
mod room;
mod row_outs;
mod row_sinks;
mod texts;
mod word_parts;

pub use blank_texts::{BLANK_TEXT, blank_text};
pub use bounded_texts::BoundedText;
pub use cells::{BLANK_GROUP, Cell, Font, LONG_ROW, are_blank, put_ascii};
pub use faults::Fault;
pub use limits::{
    ARGS, BLANKS, BODY, CALLS, CELLS, COLUMNS, CONDS, DEFS, EXPAND, FIELD, LINE, Limit, NAME,
    NAMES, NEST, PARENS, REREAD, SCOPES, limits_law,
};
pub use lines_taken::{Form, Taken};
pub use named_rows::{list_for, row_named};
pub use note_kinds::{Level, NoteKind};
pub use note_latches::{NoteLatch, NoteOut};
pub use note_sinks::NoteSink;
pub use notes::{DETAIL, Note, text_front};
pub use page_settings::{Encoding, Language, Output, SettingFault, Settings};
pub use piece_latches::{PieceLatch, PieceOut};
pub use pieces::{Piece, PieceSink, TagForm};
pub use places::Place;
pub use quotes::{after_byte, unpaired_front};
pub use room::append;
pub use row_outs::RowOut;
pub use row_sinks::RowSink;
pub use texts::{has_no_control, is_line};
pub use word_parts::first_part_len;
