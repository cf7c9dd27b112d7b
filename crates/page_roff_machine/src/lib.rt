//! The machine that runs a page's lines: what comes next in its sources is done, and the input stack moves on (roff(7)).
//!
//! It drives the input stack (`page_roff_stack`), what the parts of lines do (`page_roff_effects`) and the budget (`page_roff_blocks`), a
//! finished line at a time, for `page_roff_source`. Read `specs/Giving.antt` first, then `Machine` in `machines.rt` and the steps in
//! `runners.rt`.
//!
//! Proved: `Machine::begin`, `Machine::advance`, `idle_law`: a source line runs as `page_roff_blocks` says, with the effects of
//! `page_roff_effects`. `begin` takes a line at once that needs no step, and that is then all that its run gives; where the line calls a macro as it
//! is written, the macro is entered at once. Of what is left each `advance` gives the messages before the next line for the macros and lends that
//! line. It ends, whatever a page defines.
#![tactic(auto)]

mod acts;
mod budgeted_actions;
mod laws;
mod machines;
mod runners;

pub use laws::idle_law;
pub use machines::Machine;
