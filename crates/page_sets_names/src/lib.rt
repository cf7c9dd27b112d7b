//! The names of macros, the marks around enclosed words, and the texts that macros print themselves (man(7), mdoc(7)).
//!
//! It is below the sets of macros and the scopes: the events of a line carry these names and texts (`page_sets_lines`), the scopes put them
//! into messages and rows. Read `specs/Names.antt` first (names and texts), then `Marks.antt` (which texts are around words).
//!
//! Proved: The names of macros, of marks and of the texts that macros print themselves are those of one table each (`specs/Names.antt`,
//! `Marks.antt`).
#![tactic(auto)]

mod generated_texts;
mod macro_names;
mod marks;

pub use generated_texts::GeneratedText;
pub use macro_names::{
    BodyParagraphName, FontMacro, HeadingName, Link, OneLineName, ParagraphName, Prologue, TagName,
};
pub use marks::{Marks, Quotation};
