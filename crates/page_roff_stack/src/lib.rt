//! The input stack (mandoc(1), "input stack limit exceeded, infinite loop?"): a line of the page, and the bodies of the macros and loops that
//! run, one inside another, each read part by part in memory that is reserved once.
//!
//! `page_roff_machine` asks it what comes next, and moves it on. Read `specs/machine/Stacks.antt` first, then `input_stacks.rt`.
//!
//! Proved: `InputStack` (`peek`, `part`, `read_part`, `go` and its other changes), `stack_law`: what comes next in the sources that run is what the steps of
//! `page_roff_blocks` take next, and each change leaves what the step leaves. No call but `new` and `at` asks for memory.
#![tactic(auto)]

mod ahead;
mod input_frames;
mod input_stacks;
mod laws;
mod movements;
mod next;
mod source_kinds;
mod spans;
mod turns;

pub use input_stacks::InputStack;
pub use laws::stack_law;
pub use movements::Movement;
pub use next::Next;
