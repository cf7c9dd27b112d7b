//! The record of a page: its names, its section and what it is for, read off its section NAME (mandoc(1), `makewhatis`).
//!
//! It is above the source lines of a page (`page_engine_lines`), whose pieces it reads in place of filling them, and beside the page
//! (`page_engine`). An index is made of its records (`page_engine_index`).
//!
//! Read first: `name_record` in `runs.rt`, with `specs/Runs.antt`; then `names.rt` with `specs/Records.antt`, and `NameReader` with
//! `specs/NameTexts.antt`, whose steps are in `specs/machine/NameTexts.antt`.
//!
//! Proved: `read_record`, over any source, and `name_record`, over a reader: the record of the page of all bytes, or none where it has none:
//! `page_record` (`specs/PageRecords.antt`), read off the pieces of the whole page (`name_text` in `NameTexts.antt`, `Records.antt`). Each fault of `read_record`
//! has its cause; refused settings and want of memory come before anything is read (`specs/Runs.antt`). `text_law`: the
//! bytes of a text at most are those of the definition.
#![tactic(auto)]

mod fronts;
mod name_readers;
mod names;
mod runs;
mod texts;

pub use runs::{name_record, read_record};
pub use texts::{TEXT, text_law};
