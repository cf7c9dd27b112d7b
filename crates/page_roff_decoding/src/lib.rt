//! The characters of a line's bytes, and the text of a line decoded (mandoc(1), -K).
//!
//! It is below the lines (`page_roff_lines`), which cut the bytes. Read `specs/Decoding.antt` first, then `decoding.rt`.
//!
//! Proved: `decode`: the text is the bytes of `line_characters` (`specs/Decoding.antt`), UTF-8 without control characters, and whether less than all
//! of it fits. `report`, `report_limit`: the messages about a line that is cut (`bad_notes`, `limit_notes`). `choose`: what the first byte above 0x7F of
//! a text decides (`choice_of`). `text_len`, `stops`: the front of printable bytes without a backslash, and the bytes of a vector that are none such.
#![tactic(auto)]

mod characters;
mod choosing;
mod decoding;
mod reporting;
mod texts;

pub use characters::is_printable;
pub use choosing::{choose, is_printable_ascii};
pub use decoding::decode;
pub use reporting::{report, report_limit};
pub use texts::{LANES, stops, text_len};
