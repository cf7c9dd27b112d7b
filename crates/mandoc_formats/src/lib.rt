//! Pages that a command line asks for, formatted over any files, reader and writers; with what all commands share: bytes that wait for a writer, names
//! as messages have them, and what is reported of files that fail (mandoc(1)).
//!
//! Each file is one run (`page_engine`). What opens files is a trait (`Finds`), which the program has for the system's files (`mandoc_runs`).
//!
//! Proved: `format_all`: for each file in turn the rows and messages of the run over the bytes that were found under its name, or the line that it
//! can't be opened, up to one after which nothing can be written; a fault of the run has its cause, where what is read and written counts; below the
//! status 6 nothing waits in a buffer (`specs/Formats.antt`). `Waiting`: no byte that it takes is lost, or written twice. `report_fault`, `report_fault_at`, `report_unopened`: the line about a fault, and what it leaves.
//! `shown_char`: which characters a name doesn't show (`ShownNames.antt`).
//!
//! Read first: `format_all` in `formatting.rt`, with `specs/Formats.antt`.
#![tactic(auto)]

mod faults;
mod finding;
mod formatting;
mod names;
mod waiting;

pub use faults::{
    Done, SYSTEM_FAILURE, put_front, put_line_at, report_fault, report_fault_at, report_unopened,
};
pub use finding::Finds;
pub use formatting::format_all;
pub use names::{put_name, shown_char, shown_name};
pub use waiting::{Buffered, Waiting};
