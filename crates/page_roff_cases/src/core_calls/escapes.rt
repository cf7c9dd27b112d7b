//! Escapes: what each means, and how many bytes it takes.

use page_core::{Escape, FontName, LINE, escape};
use page_core_escapes::{Token, read_token};
use page_test_streams::shown;

/// Shows the escape at a text's front: the number of its bytes, what it means, and its argument or character.
pub(crate) fn show_escape(rt: &HostRuntime, text: &str) {
    let bytes = text.as_bytes();
    if bytes.is_empty() || bytes[0] != b'\\' || bytes.len() > LINE {
        return;
    }
    let (found, len) = escape(bytes);
    show_found(rt, found, len);
}

/// Shows the escape at the front of a text in a quoted argument of a macro.
pub(crate) fn show_quoted(rt: &HostRuntime, text: &str) {
    if text.len() > LINE {
        return;
    }
    if let Token::Escaped { bytes, meaning } = read_token(true, text.as_bytes()) {
        show_found(rt, meaning, bytes.len());
    }
}

fn show_found(rt: &HostRuntime, found: Escape<'_>, len: usize) {
    let _ = print!(rt; " -> {len} {}", word(found));
    let argument = shown(argument(found));
    if let Some(c) = char_of(found) {
        let _ = print!(rt; " {c}");
    } else if !argument.is_empty() {
        let _ = print!(rt; " {argument}");
    }
}

fn word(found: Escape<'_>) -> &'static str {
    match found {
        Escape::Glyph(_) => "glyph",
        Escape::Char(_) => "character",
        Escape::Tab => "tab",
        Escape::Blank => "blank",
        Escape::Blanks(_) => "blanks",
        Escape::Nothing => "nothing",
        Escape::Glue => "glue",
        Escape::Font(name) => font_word(name),
        Escape::Undefined(_) => "undefined",
        Escape::Unsupported => "unsupported",
        Escape::Bad => "bad",
    }
}

fn font_word(name: FontName<'_>) -> &'static str {
    match name {
        FontName::R => "roman",
        FontName::I => "italic",
        FontName::B => "bold",
        FontName::BI => "bold italic",
        FontName::Former => "former",
        FontName::Unknown(_) => "font",
    }
}

fn argument(found: Escape<'_>) -> &[u8] {
    match found {
        Escape::Glyph(text) | Escape::Blanks(text) | Escape::Font(FontName::Unknown(text)) => text,
        _ => b"",
    }
}

fn char_of(found: Escape<'_>) -> Option<char> {
    match found {
        Escape::Char(c) | Escape::Undefined(c) => Some(c),
        _ => None,
    }
}
