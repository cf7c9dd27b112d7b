//! Tests of whole pages, and of records as an index has them (makewhatis(8)), on public calls; and what follows from the contracts of two calls
//! of a page in turn. What words find in an index is shown by `page_cases`.
//!
//! Beside them is how a page ends whose lines come one by one, and roff alone so, for `page_engine_cases`: it may go on after some of them from what is
//! held of it, and memory may be refused to it there. Of that read `Feed` (`lines.rt`) first, what takes lines, then `PutDown` (`cuts.rt`) and `run`
//! (`endings.rt`).
#![tactic(auto)]

mod cuts;
mod edges;
mod endings;
mod lines;

pub use cuts::{CutFeed, Cuts, Lack, PutDown};
pub use edges::edge_again;
pub use endings::{Ending, run};
pub use lines::{BYTES, FILE, Feed, Lines};

#[cfg(test)]
mod checks;
#[cfg(test)]
mod page_tests;
#[cfg(test)]
mod record_tests;
#[cfg(test)]
mod sink_tests;
