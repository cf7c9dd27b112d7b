//! What a line may hold, and messages.

use page_core::{Note, NoteKind, Place, is_line, write_note};
use page_test_streams::{bytes_of, show_messages};

/// Shows whether bytes are a line of a page.
pub(crate) fn show_line(rt: &HostRuntime, text: &str) {
    if let Ok(bytes) = bytes_of(rt.alloc(), text) {
        let word = if is_line(bytes.as_slice()) {
            "a line"
        } else {
            "none"
        };
        let _ = print!(rt; " -> {word}");
    }
}

/// Shows a message about an escape, whose line, column and detail are given.
pub(crate) fn show_message(rt: &HostRuntime, text: &str) {
    let (line, text) = text.split_once(' ').unwrap_or((text, ""));
    let (column, detail) = text.split_once(' ').unwrap_or((text, ""));
    let place = Place {
        line: line.parse().unwrap_or(0),
        column: column.parse().unwrap_or(0),
    };
    let Ok(detail) = bytes_of(rt.alloc(), detail) else {
        return;
    };
    let note = Note::about(NoteKind::UndefEscape, place, detail.as_slice());
    let mut out = Vec::new(rt.alloc());
    let _ = write_note(&mut out, "a.1", &note);
    show_messages(rt, out.as_slice());
}
