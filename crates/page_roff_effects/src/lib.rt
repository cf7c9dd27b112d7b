//! What the parts of a source do (roff(7)): lines are expanded and taken, conditions are tested, requests define names, macros are
//! called, regions define macros, and loops are collected.
//!
//! It gives `page_roff_blocks` the meaning of parts, and the machine of `page_roff_machine` calls `Actions` for each of them; what was taken last is
//! in `page_roff_definitions`. Read `specs/Lines.antt` first, then `Regions.antt` and `States.antt`; begin in `actions.rt`.
//!
//! Proved: `Actions` (`leaf`, `take_at_once`, `test`, `open_region`, `read_line`, `end_region`, `finish`, `exhaust`, `refuse`, `report_unopened`):
//! what each part of a source does, with its messages and what is remembered after it: a text line is finished, a request defines, a macro is called,
//! the lines of a region are collected (`specs/States.antt`, `Lines.antt`, `Regions.antt`). `expansions_law`, `given_law`: a
//! line makes no more interpolations than its limit, and nothing depends on what was given before.
#![tactic(auto)]

mod actions;
mod at_once;
mod commands;
mod free_lines;
mod laws;
mod leaves;
mod loops;
mod memories;
mod regions;

pub use actions::Actions;
pub use at_once::AtOnce;
pub use commands::ProductKind;
pub use laws::{expansions_law, given_law};
pub use memories::Remembered;
