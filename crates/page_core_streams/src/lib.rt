//! Streams: sources of bytes, and sinks that write bytes or keep items (mandoc(1), "ASCII Output" and "DIAGNOSTICS").
//!
//! The two ends of the pipeline: a run over a page, or a search of an index, reads its bytes in chunks from a source that counts calls, failures and
//! bytes, so that it can say why it stopped; the rows that filling settles, and the messages of all layers, become bytes here.
//!
//! Read first: the trait `Source` in `sources.rt`, with `specs/Streams.antt`, then `Counted`, a reader as a source; `TextRows` in `text_rows.rt` and
//! `TextNotes` in `text_notes.rt`.
//!
//! Proved: `Counted`, `SliceSource`: a source counts its calls and its failures, and gives the bytes of its reader, or of its slice, in their order
//! (`specs/Streams.antt`). `Chunks`: the chunks of a source are its bytes, up to both bounds, and why there are no more
//! (`specs/laws/Views.antt`). `write_note`, `cell_bytes`, `TextRows`, `TextNotes`: a writer gets exactly the bytes of each message, cell and row; at a fault, a front.
#![tactic(auto)]

mod ascii_rows;
mod cells;
mod chunks;
mod inputs;
mod kept;
mod message_bytes;
mod sources;
mod targets;
mod text_notes;
mod text_rows;
mod writing;

pub use cells::cell_bytes;
pub use chunks::Chunks;
pub use inputs::Input;
pub use kept::{KeptNotes, KeptRows, Row};
pub use message_bytes::write_note;
pub use sources::{BYTES, Counted, READS, Reading, SliceSource, Source};
pub use targets::{CountedWriter, Nowhere, Target};
pub use text_notes::TextNotes;
pub use text_rows::TextRows;
pub use writing::put_all;
