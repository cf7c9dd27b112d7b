//! Rows of the table of macros of mdoc(7), and delimiters.

use page_sets_mdoc_lines::{Delimiter, called, delimiter_of, row_of};

/// Shows whether words call a macro, and whether words of its line call others.
pub(crate) fn show_row(rt: &HostRuntime, name: &str) {
    let is_callable = called(name.as_bytes()).is_some();
    let row = row_of(name.as_bytes());
    let is_parsed = row.is_some_and(|row| row.is_parsed);
    let word = match (row.is_some() || is_callable, is_callable, is_parsed) {
        (false, _, _) => "no macro",
        (_, true, true) => "callable, parsed",
        (_, true, false) => "callable",
        (_, false, true) => "parsed",
        (_, false, false) => "neither callable nor parsed",
    };
    let _ = print!(rt; " -> {word}");
}

/// Shows what a word is, if it is a delimiter.
pub(crate) fn show_delimiter(rt: &HostRuntime, word: &str) {
    let word = match delimiter_of(word.as_bytes()) {
        Some(Delimiter::Opening) => "opening",
        Some(Delimiter::Middle) => "middle",
        Some(Delimiter::Closing) => "closing",
        None => "none",
    };
    let _ = print!(rt; " -> {word}");
}
