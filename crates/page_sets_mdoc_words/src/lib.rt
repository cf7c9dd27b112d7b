//! The words of a control line of mdoc(7): the events of each macro that can occur among words, given one after another.
//!
//! The definition is `inline_events` in `specs/Inlines.antt`, one case for each macro; read it first, then `src/macros.rt`, where each
//! case has its line, and `src/flags.rt`, the shortest of the macros.
//!
//! Proved: `give_macro`, `give_printed`, `give_found`, `give_sentence`, `give_include`: what each macro of mdoc(7) makes of its words is its case of
//! `inline_events` (`specs/Inlines.antt`), with what it does in the SYNOPSIS (`Sentences.antt`); so are the sentences of `Ex` and `Rv`, and the file of
//! `In` (`Sentences.antt`).
#![tactic(auto)]

mod enclosures;
mod flags;
mod functions;
mod includes;
mod links;
mod macros;
mod names;
mod plain;
mod printed;
mod references;
mod sentences;
mod synopses;
mod systems;
mod taken_words;

pub use includes::give_include;
pub use macros::give_macro;
pub use plain::{MacroName, give_found, give_printed};
pub use printed::step_event;
pub use sentences::give_sentence;
