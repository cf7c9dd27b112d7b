//! What an open scope is, and what is known of it by that alone (man(7), mdoc(7)).
//!
//! It is between the events of the sets of macros and the scopes: `page_scopes_tree` finds by labels what ends what, `page_scopes_layout` and
//! the crates on it what a scope begins with and gives. Read `specs/Labels.antt` first: a row for each scope.
//!
//! Proved: `Label::row`, and what is asked of a label alone: each open scope by one row of one table, its names, how it ends, and what ends with it
//! (`specs/Labels.antt`).
#![tactic(auto)]

mod labels;

pub use labels::{Explicit, Label, LabelRow, ScopeEnd};
