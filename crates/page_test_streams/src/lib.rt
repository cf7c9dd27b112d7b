//! What the programs and crates of tests share: readers and writers that take a few bytes a call and fail where they are to, a sink of rows and
//! messages that does so, a sink that shows the pieces and messages that it is given, the notation of their cases for bytes, fonts and what comes
//! many times, and memory that is refused.
#![tactic(auto)]

mod brief;
mod bytes;
mod fonts;
mod names;
mod notation;
mod refusals;
mod scarcity;
mod shown_sinks;
mod sinks;
mod streams;

pub use brief::{Brief, Shown};
pub use bytes::{are_ascii, bytes_of, show_messages, show_rows, show_runs, shown};
pub use fonts::font_named;
pub use notation::{repeated, shortened};
pub use refusals::{Ended, Scarce, is_cheap, scarce_difference};
pub use scarcity::Scarcity;
pub use shown_sinks::{Notation, ShownBy};
pub use sinks::CountingSink;
pub use streams::{Chunks, Fails, Store};
