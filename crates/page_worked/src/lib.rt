//! Worked pages, as theorems: the checker computes the definitions on them, from bytes to bytes.
//!
//! Read `specs/Pages.antt`, the words in which they are written, and then any chapter. Each clause has the sentence of the manual that its page
//! shows. The chapters and their proofs are not kept: the gate has `tools/worked` write them from the cases of
//! `page_cases`. `layers.rt` is written by hand: single layers, from the bytes of lines to rows.
//!
//! Proved: `Shows`: what each page prints, and the messages about it (`specs/Pages.antt`).
#![tactic(auto)]

pub mod command_lines;
pub mod layers;
pub mod limits;
pub mod lines;
pub mod lists;
pub mod macros;
pub mod messages;
pub mod names;
pub mod requests;
pub mod texts;
pub mod titles;
pub mod words;
