//! What the nodes of a page give, words and all (man(7), mdoc(7)): its leaves, which open and close nothing, and what scopes begin with and end
//! with: tags, names, targets of links, headings and fonts.
//!
//! Each event gives an outcome in the context of the open scopes: leaves, raw lines and the ends of lines by themselves, and where an event opens or
//! ends a scope, macro by macro. Words go to `page_scopes_phrases`. Read `specs/Leaves.antt` first (a row for each leaf),
//! then `Begins.antt` and `Ends.antt`.
//!
//! Proved: `give_kind`, `give_leaf`, `give_raw_line`, `end_line`: what each blank line, request and raw line gives, with the context and what is known
//! after it (`specs/Leaves.antt`). `give_begun`, `give_ended`: what each scope of man(7) and
//! mdoc(7) begins and ends with, words and all: paragraphs and their tags, relative margins, the name of a synopsis, headings, fonts, the target of a
//! link (`specs/Begins.antt`, `Ends.antt`).
#![tactic(auto)]

mod begins;
mod ends;
mod event_kinds;
mod leaves;
mod line_ends;
mod margins;
mod openers;
mod page_layouts;
mod raw_lines;
mod requests;
mod steps;
mod targets;

pub use begins::give_begun;
pub use ends::give_ended;
pub use event_kinds::give_kind;
pub use leaves::give_leaf;
pub use line_ends::end_line;
pub use page_layouts::PageLayout;
pub use raw_lines::give_raw_line;
