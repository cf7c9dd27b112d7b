//! The raw lines of a source as a forest of leaves, regions and blocks: what heads and ends them is found from the raw text alone (roff(7),
//! "if", "ie", "el", "while", "de", "am", "ig"). And how such lines run with calls of macros and with loops, over any meaning of their parts, as the
//! machine is proved by it (`page_roff_source` defines what a page does), with its laws, and the count of a budget.
//!
//! It is between the heads of conditionals and loops (`page_roff_heads`) and what the parts of lines do (`page_roff_effects`). It runs nothing:
//! `page_roff_machine` does. Read `specs/Parts.antt` first, then `Forest.antt` and the laws in `laws.rt`; the code begins in `parts.rt`.
//!
//! Proved: `LinePlace` (`next_line_part`, `pass_line_part`, `opens_block`), `loop_text`, `Levels`, `OpenRegion`, `BlockCursor`,
//! `Standing`: the parts of a raw line, what of it belongs to a loop, and the open and skipped blocks, the open loop and the open region of a
//! source. `line_parts_law`, `loop_law`, `room_law`: the parts of a line, and of what is left of it. `machine_law`, `budget_law`, `spending_law`,
//! `each_line_law`, `calls_law`, `measure_law`, `turns_law`, `front_law`: how lines run, with calls of macros and with loops
//! (`specs/machine/Languages.antt`), over any meaning of their parts: a stack of sources gives the same, it ends, and the lines
//! taken and the macros and loops that run stay within their budgets. `Budget`: the re-read lines of a source line are
//! counted there, too.
#![tactic(auto)]

mod block_cursors;
mod budgets;
mod language_laws;
mod laws;
mod levels;
mod line_parts;
mod line_places;
mod loops;
mod parts;
mod standings;

pub use block_cursors::{BlockCursor, Pass, Reached};
pub use budgets::Budget;
pub use language_laws::{
    budget_law, calls_law, each_line_law, front_law, machine_law, measure_law, spending_law,
    turns_law,
};
pub use laws::{line_parts_law, loop_law, room_law};
pub use levels::{Answer, Ended, Levels, Way};
pub use line_parts::{Branch, Head, LinePart, Opening};
pub use line_places::LinePlace;
pub use loops::loop_text;
pub use standings::Standing;
