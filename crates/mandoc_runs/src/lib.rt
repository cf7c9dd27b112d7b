//! What is trusted of the program: the system's files, as `mandoc_programs` takes them.
//!
//! What a command does with files and streams is proved there (`run_command`). Nothing is proved of what the system does: which files a name opens
//! and a folder lists (`RegularFiles`), how an index takes its name, its lock and its mode (`IndexFiles`, `unfinished.rt`), and the numbers of the
//! standard streams. Runs of the program test that (`tools/program_cases`).
//!
//! Proved: `run_command`: what comes to both streams (`Ran` of `mandoc_programs`). `kept_mode`: the mode of an index (`specs/IndexModes.antt`).
//!
//! Read first: `run_command` in `commands.rt`, then `host_files.rt`.
#![tactic(auto)]

mod commands;
mod host_files;
mod standard_numbers;
mod unfinished;

pub use commands::run_command;
pub use standard_numbers::{NULL_DEVICE, hold_standard_numbers};
pub use unfinished::LockedFiles;
