//! The sets of macros: those of man(7), by one table; those of mdoc(7); and the set of a page, which is one of the two.
//!
//! A finished line of roff comes in, its events go out to the scopes. It is the door to the macro sets, and gives out what `page_sets_lines` holds too,
//! and the lines that they take (`page_core_base`). For man(7) read the table in `specs/Man.antt` first (one row a macro; the proof compares the rows
//! of `src/man_rows.rt` with it), then the events that a row stands for. A line of mdoc(7) has the events of its front
//! (`page_sets_mdoc_blocks`), its words and the macros that these call (`page_sets_mdoc_words`), and its last delimiters: `specs/Mdoc.antt`, then
//! `mdoc_lines.rt` and `mdoc_line_words.rt`.
//!
//! Proved: `Either`, which is `Man` or `Mdoc` (`give`, `start`, `next`, `indent`): the events of a line of man(7) are those of its table
//! (`specs/Man.antt`), those of a line of mdoc(7) are those of `specs/Mdoc.antt`: what its macro does first, its words, the macros that these call, and the
//! delimiters at its end, outside of its enclosures; and the set of a page acts as the one of the two that it is (`specs/Mdoc.antt`). All with the laws
//! of `MacroSet`.
#![tactic(auto)]

mod either;
mod man_effects;
mod man_gives;
mod man_rows;
mod mdoc_line_words;
mod mdoc_lines;

pub use either::Either::{self, Man, Mdoc};
pub use page_core_base::{Form, Taken};
pub use page_sets_lines::{
    Block, BlockCloser, BlockOpener, BodyParagraphName, Closer, Event, EventKind, FontMacro,
    GeneratedText, GeneratedWord, HeadingName, Join, Leaf, LineOpener, LineStep, Link, MacroSet,
    Marks, OneLineName, Opener, ParagraphName, Prologue, Quotation, RequestLeaf, Role,
    SynopsisStep, TagName, Word,
};
