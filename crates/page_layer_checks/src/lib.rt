//! Tests of the layers below a page, on public calls, where no file can hold the case; `page_roff_cases` and `page_fill_cases` have the others.
//!
//! - Settings, and writers that fail or take few bytes, through the door `page_core` (`core_..`).
//! - Roff: a thousand changes of the names of a page, messages that are refused or not taken, calls after an end, and lines that are known to be free
//!   (`roff_..`).
//! - Filling where a sink of rows or of messages fails (`fill_sinks.rt`).
#![tactic(auto)]

#[cfg(test)]
mod checks;
#[cfg(test)]
mod core_ascii_rows;
#[cfg(test)]
mod core_notes;
#[cfg(test)]
mod core_numbers;
#[cfg(test)]
mod core_rows;
#[cfg(test)]
mod core_settings;
#[cfg(test)]
mod fill_sinks;
#[cfg(test)]
mod roff_lines;
#[cfg(test)]
mod roff_messages;
#[cfg(test)]
mod roff_names;
#[cfg(test)]
mod writers;
