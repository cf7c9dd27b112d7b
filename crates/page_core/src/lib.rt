//! The door to what the layers of the formatter share: settings, messages, sinks, cells, glyphs, escapes, columns and numbers.
//!
//! It is for users of the layers; no crate of the program uses it. There is nothing to read but these names.
#![tactic(auto)]

pub use page_core_base::{
    CELLS, Cell, Encoding, FIELD, Fault, Font, Form, LINE, Language, Level, Limit, Note, NoteKind,
    NoteSink, Output, PARENS, Piece, PieceSink, Place, RowSink, SettingFault, Settings, TagForm,
    Taken, is_line,
};
pub use page_core_escapes::{Escape, FontName, escape};
pub use page_core_numbers::{Evaluation, EvaluationNotes, Scale, columns, evaluate, number};
pub use page_core_streams::{
    KeptNotes, KeptRows, Row, TextNotes, TextRows, cell_bytes, write_note,
};
pub use page_core_tables::{
    Glyph, Printed, char_columns, glyph, printed_char, printed_glyph, spelling,
};
