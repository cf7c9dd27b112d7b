//! What requests define, and what is gathered for a definition or a call: strings and registers; lines, bodies of regions and loops, and calls of
//! macros, in memory that is reserved once (roff(7), `ds`, `as`, `nr`, `rm`, `rn`, `rr`; "MACRO SYNTAX").
//!
//! `define` reads an expanded line of such a request and changes the names (`page_roff_names`); macros are defined in `page_roff_effects`, since their
//! bodies are regions. Its `Actions` holds one of each buffer, and lends what they hold to the machine of `page_roff_machine`. Read
//! `specs/Definitions.antt` first, then `define` in `definitions.rt`; for the buffers `specs/Definitions.antt`, then `buffers.rt` and `calls.rt`.
//!
//! Proved: `define`: what `ds`, `as`, `nr`, `rm`, `rr` and `rn` change and report (`specs/Definitions.antt`). `LineBuffer`, `BodyBuffer`, `CallBuffer`:
//! what was put in last is what is lent: a line; a body with each line that was added, unless that passed its limit; a call with its arguments packed
//! (`specs/Definitions.antt`). No call but `new` and `copy` asks for memory.
#![tactic(auto)]

mod arguments;
mod buffers;
mod calls;
mod definitions;

pub use arguments::report_closings;
pub use buffers::{BodyBuffer, LineBuffer};
pub use calls::{CallBuffer, Packing};
pub use definitions::{RequestLine, define, is_in_copy_mode};
