//! From the bytes of a page to the lines that its macro set reads.
//!
//! A door for users of roff alone, which adds nothing: `Cutter` cuts and decodes lines (`page_roff_lines`), `Roff` runs them
//! (`page_roff_source`), and lends each finished line as a `Taken` of a `Form` (`page_core_base`). Read those crates.
#![tactic(auto)]

pub use page_core_base::{Form, Taken};
pub use page_roff_lines::{Cutter, cut_law, held_law, one_by_one_law};
pub use page_roff_source::{Counts, Roff, RoffPart};
