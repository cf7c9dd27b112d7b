//! The source lines of a page, through roff and the macros, as pieces and messages; the body of a page between its header and its footer (man(7)).
//!
//! It is above roff (`page_roff_source`), the sets of macros and the scopes, and below the page (`page_engine`), which fills what it gives. A source
//! line goes to roff; the finished lines that it gives become events, and these pieces and messages, with the header before the first of them and the
//! fields of the title kept for the footer.
//!
//! Read first: `specs/Trees.antt` (the block tree of a body) and `Acts.antt`; `Body` in `bodies.rt`, with `specs/Bodies.antt`; then `PageLines` in `page_lines.rt`, with `specs/Edges.antt` and
//! `specs/machine/Lines.antt`, and the loop of `taking.rt`, with `specs/machine/Given.antt`.
//!
//! Proved: `Body` (`copy`, `give_line`, `give_plain`, `give_end`, `give_footer`): the pieces and messages of a line's events are `events_items`, with
//! the header before the event that begins the body; those of the page's end are `end_items` and `footer_items` (`specs/Bodies.antt`).
//! `Body::decide`: the language of a page is that of its first line that decides one (`specs/Bodies.antt`). `body_tree_law`, `body_cut_law`: the block
//! tree of all events, laid out, with messages, title and header where they are in it, is what the events give one after another
//! (`specs/Trees.antt`), cut anywhere. `machine_law`: so is the tree by which the stack of scopes is proved (`specs/machine/Trees.antt`). `PageLines` (`line`, `end`, `footer`, `counts`): what a source line gives: the message of white space at its end,
//! roff's messages, and the items of the lines that roff takes of it, in their order (`source_items` in `specs/machine/Lines.antt`). `tree_law`,
//! `cut_law`: the forest of all lines gives the acts of one block tree (`lines_items` in `specs/Acts.antt`); these are what the lines give one after
//! another, and a page may be cut between any two lines.
#![tactic(auto)]

mod bodies;
mod body_laws;
mod item_outs;
mod languages;
mod laws;
mod page_lines;
mod taking;
mod titles;

pub use bodies::Body;
pub use body_laws::{body_cut_law, body_tree_law, machine_law};
pub use item_outs::ItemOut;
pub use laws::{cut_law, tree_law};
pub use page_lines::{LinesPart, PageLines};
