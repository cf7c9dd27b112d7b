//! The heads of conditionals and loops as they are written: what `if`, `ie`, `el` and `while` test and guard, and where
//! blocks end (roff(7), "Conditional expressions"). All of it is read from the raw line alone.
//!
//! It is above `page_roff_syntax`; `page_roff_blocks` parts lines by it, and `page_roff_values` answers the conditions that it reads.
//! Read `specs/Heads.antt` and `Conditions.antt` first.
//!
//! Proved: `read_conditional`, `read_loop`, `read_guarded`, `block_end`, `remainder`: the condition of a conditional or a loop, whether it opens a
//! block, what it guards, and where a line ends a block, all by the raw text alone (`specs/Heads.antt`, `Conditions.antt`).
#![tactic(auto)]

mod conditions;
mod expressions;
mod heads;
mod loops;
mod texts;

pub use conditions::{Condition, Test, read_condition};
pub use heads::{BlockEnd, Conditional, Guarded, block_end, read_conditional, read_guarded};
pub use loops::{LoopHead, LoopRead, read_loop};
pub use texts::{Placed, remainder};
