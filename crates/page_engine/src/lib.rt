//! A page from its bytes, at once or in pieces, to its rows and messages, and the page itself, whose lines come one by one.
//!
//! It is above all layers: each line goes through roff and the macros (`page_engine_lines`), and what they give is filled (`page_fill`). Below it
//! are the lines of the bytes (`page_roff_lines`), above it the program. It gives out the calls on indexes (`page_engine_index`), too.
//!
//! Read first `run_page`, `run_sinks` and `PageRun` in `runs.rt`, with `specs/Runs.antt`; then `pages.rt`, with `specs/Page.antt` and `specs/laws/States.antt`.
//!
//! Proved: `run_sinks`, over any source and any two sinks, `run_page`, over a reader and two writers, and `run_bytes`: rows, messages, worst level
//! and counts are those of `page` over the page's lines (`specs/Page.antt`, `Runs.antt`), in bytes where they are written; each fault has its cause,
//! where failures are counted, and each stream then holds a stated front. `PageRun` (`new`, `feed`, `end`, `outcome`): when a piece of the bytes is
//! fed, exactly what it settles has come, and is put out (`specs/laws/Reads.antt`, `pieces_law`). `Page` (`new`, `feed_line`, `take_line`, `end`, `phase`, `worst`,
//! `counts`): a line gives exactly `settled`, and leaves `edge`, which is within its limits (`specs/laws/States.antt`, `laws/Within.antt`). `Page::edge`,
//! `Page::resume`: that edge as an object, and a page open at it. `cut_law`, `line_by_line_law`, `reached_law`, `count_law`, `texts_law`: a page may
//! be cut between any two lines; lines and interpolations are counted and capped; what is held has at most 100,224 bytes of texts.
#![tactic(auto)]

mod edges;
mod laws;
mod layers;
mod level_filters;
mod page_sinks;
mod pages;
mod runs;
mod shown;

pub use edges::Edge;
pub use laws::{count_law, cut_law, line_by_line_law, pieces_law, reached_law, texts_law};
pub use page_core_streams::{
    BYTES, Counted, CountedWriter, Input, READS, Reading, SliceSource, Source, Target,
};
pub use page_engine_index::{Record, Show, Text, is_field, whatis, write_record};
pub use page_roff_source::Counts;
pub use pages::{LINES, Page, Phase};
pub use runs::{Outcome, PageRun, run_bytes, run_page, run_sinks};
