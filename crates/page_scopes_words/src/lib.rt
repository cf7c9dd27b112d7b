//! What layers that read texts share: what a token says, prints and does to the font, what is known between two tokens, white space that is
//! kept, where a sentence ends, values that requests set, and what numbers and widths are worth (roff(7), mdoc(7)).
//!
//! `page_scopes_text` reads the words of a text by these, and `page_engine_header` the fields of a title. Read `specs/Words.antt`
//! first. Widths are the columns of what a text prints, and those that an argument of a list or a display asks for
//! (`specs/Widths.antt`). `Letters` and `going_len` are for the fast ways of `page_scopes_text`, and their definitions are
//! in `specs/machine/`.
//!
//! Proved: `report_token`, `give_token`, `token_prints`, `fonts_after`, `give_white_cells`, and what they call: what a token reports and prints, and
//! the fonts after it (`specs/Words.antt`, `Fonts.antt`). `Pen`: what is known after a token, a word and white space
//! and `ends_sentence`, where a sentence ends (`specs/Words.antt`). `Setting`: a value that a request sets holds after the
//! scope in which it was set (`specs/Fonts.antt`). `give_number`, `give_columns`, `give_rows`: the value of a number in basic units, columns or
//! rows, with its messages (`specs/Words.antt`). `name_columns`, `give_width`: the columns of a text, and those that an argument of mdoc(7) asks
//! for: by a name, an expression or a text that is as wide (`specs/Widths.antt`).
#![tactic(auto)]

mod fonts;
mod letter_fonts;
mod letters;
mod names;
mod numbers;
mod pens;
mod run_ends;
mod sentences;
mod settings;
mod tokens;
mod white_cells;
mod widths;

pub use fonts::{Fonts, ROMAN, fonts_after};
pub use letter_fonts::{ROOM, equal_fonts};
pub use letters::{Letters, give_after_blanks};
pub use names::name_columns;
pub use numbers::{give_columns, give_number, give_rows};
pub use pens::{Pen, TextStyle};
pub use run_ends::{blank_before, going_len};
pub use sentences::ends_sentence;
pub use settings::Setting;
pub use tokens::{
    blank_count, give_blank_cells, give_blank_text, give_glyph, give_letters, give_token, is_glue,
    report, report_escape, report_font, report_part, report_token, token_piece, token_prints,
};
pub use white_cells::{give_white_cells, has_tab};
pub use widths::give_width;
