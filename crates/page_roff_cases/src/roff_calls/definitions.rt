//! The requests for definitions.

use super::names::Roff;
use page_core_base::{LINE, NoteLatch, Place};
use page_core_streams::TextNotes;
use page_roff_definitions::{RequestLine, define, is_in_copy_mode};
use page_roff_syntax::Request;
use page_test_streams::show_messages;

/// Does a request in line 7, of which the name and the expanded rest are given, and shows its messages.
pub(crate) fn show_request(rt: &HostRuntime, roff: &mut Roff, text: &str) {
    let (name, rest) = text.split_at(text.find(' ').unwrap_or(text.len()));
    if rest.len() > LINE / 2 {
        return;
    }
    let Some(Request::Definition(request)) = Request::of(name.as_bytes()) else {
        return;
    };
    let line = RequestLine {
        place: Place { line: 7, column: 2 },
        rest: rest.as_bytes(),
        rest_column: 4,
    };
    let mut messages = Vec::new(rt.alloc());
    let mut notes = TextNotes::new(&mut messages, "roff");
    let mut latch = NoteLatch::new(&mut notes);
    define(request, line, &mut roff.names, &mut latch);
    drop(latch);
    drop(notes);
    show_messages(rt, messages.as_slice());
}

/// Shows whether a name is that of a request for definitions, and whether its rest is expanded in copy mode.
pub(crate) fn show_mode(rt: &HostRuntime, name: &str) {
    let word = match Request::of(name.as_bytes()) {
        Some(Request::Definition(request)) if is_in_copy_mode(request) => "copy mode",
        Some(Request::Definition(_)) => "no copy mode",
        _ => "none",
    };
    let _ = print!(rt; " -> {word}");
}
