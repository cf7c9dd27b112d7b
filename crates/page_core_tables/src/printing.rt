//! What a character, and the glyph of a name, print in an output (mandoc_char(7); mandoc(1), -T).
ghost use Rattle.std.specs.Prelude.{◌≡◌, ◌≤◌, length};
ghost use Rattle.page_core_tables.specs.Glyphs.{prints_ascii, by_spelling, char_printed, glyph_printed, char_columns};
ghost use Rattle.page_core_tables.specs.laws.Views.{printed_view};

use crate::{glyph, spelling};
use page_core_base::Output;
use unicode_width::UnicodeWidthChar;

/// What is printed for a character or for the glyph of a name.
#[derive(Clone, Copy)]
pub enum Printed<'a> {
    /// This character.
    Char(char),
    /// This spelling in ASCII, which has a character at least.
    Spelling(&'static str),
    /// `<?>`, since this character has no spelling in ASCII.
    NoSpelling(char),
    /// `<?>`, since no glyph has this name; a control character has an empty one.
    NoGlyph(&'a [u8]),
}

// Whether characters above ASCII are spelled in ASCII.
fn prints_ascii(output: Output) -> bool
    ensures { result ≡ prints_ascii output }
{
    match output {
        Output::Ascii | Output::Lint => true,
        Output::Utf8 => false,
    }
}

// A character by its spelling, which is empty where it has none.
fn by_spelling<'a>(spelling: &'static str, c: char) -> Printed<'a>
    ensures { printed_view result ≡ by_spelling spelling.now c }
{
    if spelling.is_empty() {
        return Printed::NoSpelling(c);
    }
    Printed::Spelling(spelling)
}

/// What a character prints. A tab, and a blank that no row breaks at (U+00A0), print a blank; of another control character
/// there is `<?>`, with no name.
pub fn printed_char(output: Output, c: char) -> Printed<'static>
    ensures value { printed_view result ≡ char_printed output c }
    ensures short { length (printed_view result).characters ≤ 8 }
{
    match c {
        ' '..='~' => Printed::Char(c),
        '\t' | '\u{A0}' => Printed::Char(' '),
        '\0'..'\u{A0}' => Printed::NoGlyph(b""),
        _ if prints_ascii(output) => by_spelling(spelling(c), c),
        _ => Printed::Char(c),
    }
}

/// What the glyph of a name prints.
pub fn printed_glyph(output: Output, name: &[u8]) -> Printed<'_>
    ensures value { printed_view result ≡ glyph_printed output name.now }
    ensures short { length (printed_view result).characters ≤ 8 }
{
    match glyph(name) {
        None => Printed::NoGlyph(name),
        Some(found) if prints_ascii(output) => by_spelling(found.ascii, found.code),
        Some(found) => Printed::Char(found.code),
    }
}

/// The columns of a character that is printed, none where it has no width.
#[tactic(auto, unfolding(unicode_width::specs::Width::char_width))]
pub fn char_columns(c: char) -> u32
    ensures value { result ≡ char_columns c }
    ensures bound { result ≤ 3 }
{
    match c {
        ' '..='~' => 1,
        _ => c.width().unwrap_or(0) as u32,
    }
}
