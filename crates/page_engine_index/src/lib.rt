//! An index of pages by their names: how a record of a page is written into it, and which of its entries match words (makewhatis(8), whatis(1)).
//!
//! It is independent of the pipeline of a page, and knows nothing of pages. Read [`whatis`] first, then `entries` and `matches`.
//!
//! Proved: `search_index`, `whatis`: the rows of all entries of which a word matches a name, in the order of the index, and their number; at a fault
//! the rows before it, and a bad line is the first one (`specs/Searches.antt`, `Entries.antt`, `Whatis.antt`). `match_law`: a word matches where it
//! is in the name but for the case of letters, with no letter, digit or underscore on either side. `write_record`, `print_record`, `is_field`,
//! `read_back_law`: the bytes of a record, and that an index of such records has exactly these entries (`specs/Records.antt`); `first_line_law`: its
//! first line.
#![tactic(auto)]

mod entries;
mod fields;
mod laws;
mod line_sinks;
mod matches;
mod queries;
mod records;
mod searches;
mod visible_rows;

pub use fields::is_field;
pub use laws::{first_line_law, match_law, read_back_law};
pub use line_sinks::{LineSink, TextLines};
pub use queries::{Query, Show};
pub use records::{FIRST_LINE, Record, Text, print_record, write_record};
pub use searches::{search_index, whatis};
