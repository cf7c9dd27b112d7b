//! Glyphs and characters: their spellings, what they print, and their columns.

use page_core::{Output, Printed, char_columns, glyph, printed_char, printed_glyph, spelling};
use page_test_streams::shown;

/// Shows the glyph of a name: its character, its spelling, that of its character, and what it prints in ASCII, for lint and in UTF-8.
pub(crate) fn show_glyph(rt: &HostRuntime, name: &str) {
    let _ = match glyph(name.as_bytes()) {
        Some(found) => print!(rt;
            " -> {} [{}] [{}]",
            found.code,
            found.ascii,
            spelling(found.code)
        ),
        None => print!(rt; " -> none"),
    };
    for output in [Output::Ascii, Output::Lint, Output::Utf8] {
        show_printed(rt, printed_glyph(output, name.as_bytes()));
    }
}

/// Shows a text's first character: its spelling, what it prints in ASCII, for lint and in UTF-8, and its columns.
pub(crate) fn show_char(rt: &HostRuntime, text: &str) {
    let c = text.chars().next().unwrap_or(' ');
    let _ = print!(rt; " -> [{}]", spelling(c));
    for output in [Output::Ascii, Output::Lint, Output::Utf8] {
        show_printed(rt, printed_char(output, c));
    }
    let _ = print!(rt; " {}", char_columns(c));
}

fn show_printed(rt: &HostRuntime, printed: Printed<'_>) {
    let _ = match printed {
        Printed::Char(c) => print!(rt; " [{c}]"),
        Printed::Spelling(spelling) => print!(rt; " [{spelling}]"),
        Printed::NoSpelling(c) => print!(rt; " no spelling of {c}"),
        Printed::NoGlyph(name) => print!(rt; " no glyph {}", shown(name)),
    };
}
