//! Filling: pieces become rows (roff(7), "Filling and adjusting").
//!
//! In the pipeline (bytes, lines, roff, macro set, scopes, filling, rows) it takes the pieces that the scopes give, and gives rows to a
//! sink. Between two breaks there is a list of words, each with the blanks before it; a row takes them up to the first one that passes its
//! width. So says the definition in words that all contracts here cite: read `filled` in `specs/Filling.antt` first, and then [`FillerWith`].
//!
//! What the code does is a machine: one piece after another goes into the open row ([`FillEdge`], which is all that is held between two pieces), and rows
//! go out as they are settled (`specs/machine/Fill.antt`, which you need not read to trust the result).
//!
//! Proved: `FillerWith` (`new`, `piece`, `take_blanks`, `takes_words`, `words`, `take_kept`, `finish`), which is a `PieceFiller` in a page, and a `Filler` where the cells of the open
//! row are shown (`pending`): what a piece settles is `filled` (`specs/Filling.antt`), and the end is `row_end`: groups of words fill rows by recursion on
//! words, each row up to its first offending cell. `part`, `from_part`: what is held between two pieces. `caps_law`: it is within its limits. `words_law`:
//! piece by piece is `filled` of the whole list, cut anywhere. `word_law`, `part_law`, `glue_law`: where a row ends; no row is wider unless its first part
//! is; glued texts are one word. `stops_law`: the constants are those that the definitions cite.
#![tactic(auto)]

mod edges;
mod fillers;
mod kept_texts;
mod laws;
mod lettered_words;
mod pieces;
mod stops;

pub use edges::FillEdge;
pub use fillers::{Filler, FillerPart, FillerWith, PieceFiller};
pub use laws::{glue_law, part_law, word_law, words_law};
pub use page_core_base::{Piece, PieceSink, TagForm};
pub use page_fill_rows::{KeepsRow, NoCells, OpenCells};
pub use stops::{HANG_MAX, TAB_STOP, stops_law};
