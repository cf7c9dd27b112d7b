//! The command lines of the formatter and of the programs on indexes of pages: what their words ask for, and the status that a run ends with
//! (mandoc(1), makewhatis(8), whatis(1)).
//!
//! It is independent of the layers of a page: the program (`mandoc_cli`) asks it what to do, and runs pages by its settings.
//!
//! Read first: `command` in `line.rt`, with `specs/Line.antt` and `specs/Asked.antt`; then `status_of`.
//!
//! Proved: `command`, `status_of`: a command is the one that `wanted` defines, by the words that `clap` finds (`specs/Line.antt`), and a status the
//! one of its table; a refusal is for bad words or for want of memory.
#![tactic(auto)]

mod commands;
mod given;
mod line;
mod measures;
mod names;
mod programs;
mod settings;
mod status;
mod texts;

pub use commands::{Command, Format, Makewhatis, Refusal, Whatis};
pub use line::command;
pub use status::status_of;
pub use texts::Texts;
