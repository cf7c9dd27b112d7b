//! What a command does, over any files, reader and writers: pages are formatted (mandoc(1)), and indexes of pages made and searched (makewhatis(8),
//! whatis(1)).
//!
//! A page is formatted by `mandoc_formats`; indexes are those of `page_engine_index` and `page_engine_records`. What lists folders, and where an index
//! takes its name, are traits (`Folders`, `IndexPlaces`), which the program has for the system's files (`mandoc_runs`).
//!
//! Proved: `run_command`: what came to the output and beside it, the indexes that took their names, and the status (`specs/Commands.antt`).
//! `makewhatis`: of each directory in turn the entries of its pages, folder by folder, in the order of their names, printed, or in an index that takes
//! its name once it is whole; and the lines about what can't be read or is compressed (`Indexes.antt`). `search`: the rows of an index for the words
//! and the section, or a line about it, whose fault has its cause where entries are printed (`Searches.antt`). `bearing_of_folder`, `bearing_of_file`, `bearing_of_page`: which faults keep an old index
//! (`Bearings.antt`).
//!
//! Read first: `run_command` in `commands.rt`, with `specs/Commands.antt`; then `makewhatis` and `search`.
#![tactic(auto)]

mod bearings;
mod commands;
mod compressed;
mod folders;
mod index_places;
mod indexing;
mod page_records;
mod pages;
mod searching;
mod shown_rows;

pub use commands::run_command;
pub use folders::Folders;
pub use index_places::IndexPlaces;
pub use indexing::makewhatis;
pub use searching::search;
