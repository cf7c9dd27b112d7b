//! What a macro of mdoc(7) that begins a line does before its words, and the requests that change rows.
//!
//! The definition is `specs/Fronts.antt`; read `fronts.rt`.
//!
//! Proved: `give_front`, `give_request`: what a macro of mdoc(7) that begins its line gives before its words, block or not, is `block_front`
//! (`specs/Fronts.antt`).
#![tactic(auto)]

mod displays;
mod fronts;
mod line_arguments;
mod lists;
mod macros;
mod sentences;

pub use fronts::{give_front, give_refusal, give_request};
pub use line_arguments::has_real_word;
pub use macros::has_phrase;
pub use sentences::is_standard;
