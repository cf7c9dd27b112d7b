//! Tags, and what blocks, lists and line scopes of mdoc(7) begin with, with the words that they print themselves: marks, and the dash of a
//! description.
//!
//! A scope's context and its last pieces are in `page_scopes_layout`, with what is known of an open list and its items; `page_scopes_nodes` puts both
//! together. Read `specs/Blocks.antt` first, and `Lists.antt` for lists and tags.
//!
//! Proved: `give_block`, `give_line_words`, `give_last_words`: what the blocks of mdoc(7) begin with, and the words that its scopes print themselves:
//! the marks of enclosures, the dash of a description, the full stop of a reference (`specs/Blocks.antt`). `give_list`, `give_item`:
//! what a list begins with, with the messages of its widths, and its items: a blank row or none, and the mark or the number before the text
//! (`specs/Lists.antt`). `give_tag`, `give_phrase_tag`: a tag and the text that hangs after it (`specs/Lists.antt`).
#![tactic(auto)]

mod block_words;
mod blocks;
mod items;
mod name_hangs;
mod open_lists;
mod tags;
mod widths;

pub use block_words::{give_last_words, give_line_words};
pub use blocks::give_block;
pub use items::give_item;
pub use name_hangs::count_name;
pub use open_lists::give_list;
pub use tags::{TagPlace, give_phrase_tag, give_tag};
