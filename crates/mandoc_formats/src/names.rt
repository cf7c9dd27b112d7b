//! The names of files as messages have them (mandoc(1), DIAGNOSTICS).

ghost use Rattle.std.specs.Prelude.{◌≡◌, false, IfOk, string_bytes, encode_utf8, if◌then◌else◌};
ghost use Rattle.page_core_streams.specs.laws.Views.{Writes};
ghost use Rattle.mandoc_formats.specs.Formats.{HasFailed, shown};
ghost use Rattle.mandoc_formats.specs.ShownNames.{is_hidden};

use page_core_streams::Target;
use std::alloc::{AllocError, Global};

/// What stands for a character that is hidden.
const HIDDEN: char = '?';

/// The name of a file as messages have it: each hidden character is a `?`, so that no name forges a line, turns text or changes a terminal.
pub fn shown_name(alloc: Global, name: &str) -> Result<String, AllocError>
    ensures { IfOk result (λ text. string_bytes text ≡ shown name.now) }
{
    let mut text = String::new(alloc);
    for c in name.chars() {
        text.push(shown_char(c))?;
    }
    Ok(text)
}

/// Writes that name with no memory of its own.
pub fn put_name<V: Target>(err: &mut V, name: &str) -> bool
    ensures failed { result ≡ false → HasFailed V.counts V.failures }
    ensures writes { Writes result (V.contents err.old) (V.contents err.new) (shown name.now) }
{
    let mut is_written = true;
    for c in name.chars() {
        if is_written {
            is_written = put_char(err, shown_char(c));
        }
    }
    is_written
}

// Writes a character.
fn put_char<V: Target>(err: &mut V, c: char) -> bool
    ensures failed { result ≡ false → HasFailed V.counts V.failures }
    ensures writes { Writes result (V.contents err.old) (V.contents err.new) (encode_utf8 c) }
{
    let mut bytes = [0; 4];
    err.put(c.encode_utf8(&mut bytes).as_bytes())
}

/// A character as messages have it: one that is hidden is a `?`.
pub fn shown_char(c: char) -> char
    ensures { result ≡ (if is_hidden c then 63 else c) }
{
    if is_hidden(c) { HIDDEN } else { c }
}

// Whether a character is hidden: a control character, one that turns the direction of text or ends a line, or a tag character.
fn is_hidden(c: char) -> bool
    ensures { result ≡ is_hidden c }
{
    c.is_control()
        || matches!(
            c,
            '\u{61C}' | '\u{2028}'..='\u{202E}' | '\u{2066}'..='\u{2069}' | '\u{E0000}'..='\u{E007F}'
        )
}
