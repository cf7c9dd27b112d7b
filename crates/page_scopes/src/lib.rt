//! The scopes of a page, laid out: events in, pieces and messages out (man(7), mdoc(7)).
//!
//! It puts together the tree of scopes (`page_scopes_tree`), and what they begin and end with and what the other events give
//! (`page_scopes_nodes`). Read `specs/Bodies.antt` first (what events give, and what decides the rest).
//!
//! Proved: `OpenScopes` (`new`, `copy`, `restart`, `give_event`, `give_end`, `begins_body`, `has_begun`, `depth`): over any set of macros, an event
//! and the page's end give the layout of the block tree of the events so far, and leave what decides the rest (`specs/Bodies.antt`). `Scopes` (`new`, `apply`, `finish`, `depth`): the same over any sink of pieces, or a front of it and the fault; then, and after
//! the end, each call fails. `Scopes::part`, `Scopes::from_part`: what is held between two lines (`specs/laws/Views.antt`). `scopes_law`: events may be
//! cut anywhere.
#![tactic(auto)]

mod bodies;
mod laws;
mod layouts;
mod open_scopes;
mod sinks;

pub use laws::scopes_law;
pub use layouts::{Kept, LayoutState};
pub use open_scopes::OpenScopes;
pub use page_core_base::{Piece, PieceSink};
pub use page_scopes_nodes::PageLayout;
pub use sinks::{Scopes, ScopesPart};
