//! Words of events as pieces and messages, and what a page is formatted by (man(7), mdoc(7)).
//!
//! A word comes in, where the page is formatted by the context of the open scopes and by what is known along it; it gives an outcome: items, and by what
//! the page is formatted after it. In columns a text is parted into cells first. What it says of a heading, and what is kept of a name, is followed
//! beside. The end of a function is words with what is round them. Read `src/formatting.rt` first, then `specs/Phrases.antt` (one
//! text) and `LineWords.antt` (a word of a line).
//!
//! Proved: `give_line_word`, `give_generated_word`, `give_phrase`, `give_column_step`, `give_white_columns`: a word of a line and a word of a macro's
//! own, in rows and in columns: its pieces and messages, and by what the page is formatted after it (`specs/LineWords.antt`,
//! `Phrases.antt`). `give_manual_name`, `keep_name`, `ManualName::of`, `KeptText::of`, `give_kept`: what is kept of a name, and what it
//! gives (`specs/Names.antt`). `give_function_end`: what closes the arguments of a function (`specs/Names.antt`).
#![tactic(auto)]

mod cells;
mod formatting;
mod function_ends;
mod kept_names;
mod kept_texts;
mod kept_words;
mod line_words;
mod manual_names;
mod phrases;

pub use cells::{give_column_step, give_white_columns, in_columns};
pub use formatting::{Formatting, LineSoFar};
pub use function_ends::give_function_end;
pub use kept_names::ManualName;
pub use kept_texts::{FieldText, KeptText};
pub use kept_words::{give_kept, give_kept_gap, report_cut};
pub use line_words::{argument_word, give_generated_word, give_line_word};
pub use manual_names::{give_manual_name, keep_name};
pub use phrases::{Phrase, blanks_part, give_phrase, joined_gap};
