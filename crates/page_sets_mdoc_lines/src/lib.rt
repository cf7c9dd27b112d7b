//! A control line of mdoc(7) parted, before any macro means anything: which macros are in it, and the words of each.
//!
//! First of the crates of that set. Which macro a name names is one table: read `macros.rt`, then
//! `specs/Rows.antt`. How a line is parted is `parts` in `specs/Parts.antt`; the code reads a line with a cursor, and finds the words of a macro, and where its
//! line goes on after them, before it gives any, so that each argument is read a few times, whatever the line.
//!
//! Proved: `row_of`, `called`, `delimiter_of`: what a macro of mdoc(7) does, which names a word can call, and in which lines words
//! call, by one table (`specs/Rows.antt`), with which the rows of the program are compared; and which words are delimiters
//! (`Parts.antt`). `Cursor`, `Words`, `find_words`, `parts_law`, `front_law`, `few_law`: a line of mdoc(7) is parted into its macros and the words
//! of each by one fold over its arguments (`specs/Parts.antt`): each argument is in one part, in order.
#![tactic(auto)]

mod blocks;
mod cursors;
mod delimiters;
mod laws;
mod line_words;
mod macros;
mod rests;
mod rows;
mod word_spans;
mod words;

pub use blocks::{BlockMacro, LineMacro, Sentence};
pub use cursors::Cursor;
pub use delimiters::{Delimiter, delimiter_of};
pub use laws::{few_law, front_law, parts_law};
pub use line_words::{is_closing, is_real, word_call, word_delimiter};
pub use macros::{Defaulted, Inline, Pair, System};
pub use rests::{Call, Rest};
pub use rows::{MacroRow, called, row_of};
pub use word_spans::{ReadWord, WordSpan};
pub use words::{MacroWords, Words, find_words};
