//! What roff gives of a page's lines, one finished line at a time (roff(7), "LANGUAGE SYNTAX").
//!
//! The top of roff: it takes the lines of `page_roff_lines`, runs them on `page_roff_machine`, and lends finished lines to the sets of macros:
//! `RoffLines` to the page, `Roff` over a sink of messages. Read `specs/Runs.antt` (what a source does, all
//! lines, and what decides the rest) first, then `specs/machine/RoffLines.antt` (one line at a time) with `roff_lines.rt`.
//!
//! Proved: `Roff::new`, `source`, `take`, `end`, `idle`, `counts`, and `RoffLines`, the same without a sink that fails: what a source line gives
//! up to its end is `line_given`, from the edge where the lines before it left the page (`specs/Runs.antt`, `specs/machine/RoffLines.antt`), in
//! lines of at most 65,536 bytes; after a fault of the sink and after the end the answer is `Failed`. `Roff::part`, `Roff::from_part`: roff's part of what is
//! held between two lines (`specs/laws/Views.antt`), and roff that goes on from it. `caps_law`: what is held, and what runs, is within its limits
//! (`specs/laws/Views.antt`). `forest_law`, `cut_law`, `count_law`, `room_law`: the forest of all lines gives what the lines give one after another
//! (`specs/Runs.antt`); a line takes at most 1,001 lines, with at most 1,000 interpolations for each.
#![tactic(auto)]

mod counts;
mod laws;
mod parts;
mod roff_lines;
mod roffs;

pub use counts::Counts;
pub use laws::{count_law, cut_law, forest_law, room_law};
pub use parts::RoffPart;
pub use roff_lines::RoffLines;
pub use roffs::Roff;
