//! The logical lines of a page: physical lines cut from its bytes, read pairwise, joined and decoded.
//!
//! The front of the pipeline: `Cutter` takes chunks of bytes and lends lines, which go to `page_roff_source`. `page_roff_decoding` decodes them. Read
//! `specs/Lines.antt` first, then `cutter.rt`.
//!
//! Proved: `Cutter::new`, `feed`, `end`, `line`: in whatever chunks the bytes of a page come, the lines are those of `lines` (`specs/Lines.antt`);
//! those of the bytes so far come first in the page, whatever follows (`IsFed` in `specs/laws/Cutting.antt`). `is_free`: in a line of which it says so no comment, no end of a block and no interpolation begins.
//! `one_by_one_law`, `cut_law`, `held_law`: this definition agrees with the step from point to point, a page may be cut anywhere, and an open line holds at
//! most its limit. `whole_law`: what is whole at a point is said by lists of lines alone (`specs/Lines.antt`).
#![tactic(auto)]

mod cutter;
mod held;
mod open;
mod scanning;

pub use cutter::{Cutter, cut_law, held_law, one_by_one_law, whole_law};
pub use held::HeldText;
pub use open::OpenLine;

/// How the next byte of a physical line is read.
#[derive(Clone, Copy)]
pub enum Mode {
    /// It stands for itself.
    Plain,
    /// It follows a backslash, and perhaps a carriage return between them.
    Backslash,
    /// In a comment, where a backslash is a byte like any other.
    Comment,
    /// It is dropped with the rest of its physical line.
    Dropped,
}

/// How much of a byte order mark the page begins with.
#[derive(Clone, Copy)]
pub enum Mark {
    /// No byte came yet.
    Unread,
    /// Its first byte came.
    First,
    /// Its first two bytes came.
    Second,
    /// The page begins otherwise.
    Absent,
    /// The page begins with one.
    Present,
}
