//! Strings and macros, and number registers, by name (roff(7)), in memory that is reserved once.
//!
//! Interpolations (`page_roff_values`) and calls look names up here; `page_roff_definitions` and the regions of `page_roff_effects` change
//! them. Read `specs/Names.antt` first, then `Names` in `names.rt`.
//!
//! Proved: `Names` (`new`, `copy`, `string`, `body`, `seek_body`, `register`, `define_string`, `define_macro`, `append_string`, `append_macro`,
//! `rename`, `set_register`, `remove`, `remove_register`): what a name stands for, and exactly what a definition changes; one that passes a limit
//! answers the first limit that it passes, and changes nothing (`specs/Names.antt`).
#![tactic(auto)]

mod changes;
mod names;
mod places;
mod predefined;
mod rows;

pub use names::Names;
