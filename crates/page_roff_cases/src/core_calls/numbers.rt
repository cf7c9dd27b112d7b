//! Numbers and columns.

use page_core::{LINE, Output, Scale, TextNotes, columns, number};
use page_test_streams::show_messages;

/// Shows the columns of a text in ASCII, for lint and in UTF-8.
pub(crate) fn show_columns(rt: &HostRuntime, text: &str) {
    if text.len() > LINE {
        return;
    }
    let ascii = columns(text.as_bytes(), Output::Ascii);
    let lint = columns(text.as_bytes(), Output::Lint);
    let utf8 = columns(text.as_bytes(), Output::Utf8);
    let _ = print!(rt; " -> {ascii} {lint} {utf8}");
}

/// Shows the value of the expression after a unit's letter and a blank, the number of its bytes, and after it its messages, a line for each.
pub(crate) fn show_number(rt: &HostRuntime, text: &str) {
    let (letter, text) = text.split_once(' ').unwrap_or(("", text));
    let mut messages = Vec::new(rt.alloc());
    let mut notes = TextNotes::new(&mut messages, "number");
    if let Ok((value, len)) = number(text.as_bytes(), unit_of(letter), 3, 7, &mut notes) {
        let _ = print!(rt; " -> {value} of {len} bytes");
    }
    drop(notes);
    show_messages(rt, messages.as_slice());
}

// The unit of a letter; any other stands for the basic unit.
fn unit_of(letter: &str) -> Scale {
    match letter {
        "n" => Scale::En,
        "m" => Scale::Em,
        "v" => Scale::Vertical,
        "P" => Scale::Pica,
        "i" => Scale::Inch,
        "p" => Scale::Point,
        "c" => Scale::Centimeter,
        _ => Scale::Basic,
    }
}
