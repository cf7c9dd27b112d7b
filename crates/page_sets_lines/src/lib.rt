//! What every set of macros shares: the events of a line, the trait of macro sets, and the lines and requests of
//! which all sets give the same events.
//!
//! A finished line of roff comes in, its events go out to the scopes. Read `src/events.rt` first (what an event is), then
//! `src/macro_sets.rt` (what a set must keep to). A control line goes through a set as a `ControlLine`, whose name is found once.
//!
//! Proved: `MacroSet`: the events of a line are those of the set's own table; each text is a slice of its line, words are in order, and a line
//! gives at most two events a byte and two (`specs/laws/Sets.antt`). `MacroSet::give` gives them in this order to an `EventOut`; its default body pulls
//! them by `start` and `next`.
#![tactic(auto)]

mod blocks;
mod control_lines;
mod event_outs;
mod events;
mod leaves;
mod line_steps;
mod lists;
mod macro_sets;
mod openers;
mod plain_lines;
mod requests;

pub use blocks::{Block, BlockCloser, BlockOpener};
pub use control_lines::{ControlLine, first_of, open_quote, read_after};
pub use event_outs::{EventOut, EventTaker, Handed, Nth};
pub use events::{
    Event, EventKind, Join, Role, Word, event_at, generated_word, line_start, word_event,
    word_place,
};
pub use leaves::{GeneratedWord, Leaf, RequestLeaf};
pub use line_steps::{LineStep, SynopsisStep};
pub use lists::{Awaited, ListKind, ListOptions, ListWord, read_list_options};
pub use macro_sets::MacroSet;
pub use openers::{Closer, LineOpener, Opener};
pub use page_sets_names::{
    BodyParagraphName, FontMacro, GeneratedText, HeadingName, Link, Marks, OneLineName,
    ParagraphName, Prologue, Quotation, TagName,
};
pub use plain_lines::PlainLine;
pub use requests::{layout_request, with_argument};
