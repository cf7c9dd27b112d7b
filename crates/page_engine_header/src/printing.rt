//! What the text of a field prints, and its columns (roff(7), "ESCAPE SEQUENCES"; mandoc_char(7)). It gives no
//! message.

ghost use Rattle.std.specs.Prelude.{◌≡◌, ◌≤◌, ◌<◌, ◌*◌, [], ◌∷◌, false, length, replicate, chars};
ghost use Rattle.page_core_base.specs.laws.Views.{Came, is_printable_ascii};
ghost use Rattle.page_core_escapes.specs.laws.Views.{meaning_view, token_view};
ghost use Rattle.page_core_escapes.specs.Tokens.{token_bytes, tokens_of};
ghost use Rattle.page_core_numbers.specs.Columns.{characters_columns, printed_escape};
ghost use Rattle.page_core_tables.specs.laws.Views.{printed_view};
ghost use Rattle.page_scopes_words.specs.Words.{plain_printed, token_printed};
ghost use Rattle.page_engine_header.specs.Header.{tokens_columns, in_font, tokens_items};
ghost use Rattle.page_engine_header.specs.laws.Views.{fonts_after};

use crate::RunOut;
use page_core_base::{BLANK_TEXT, Font, Output, Piece, Place, blank_text};
use page_core_escapes::{Escape, Token, Tokens};
use page_core_numbers::{escape_columns, printed_columns};
use page_core_tables::{Printed, printed_char, printed_glyph};
use page_scopes_words::Fonts;

// The columns of characters that print themselves.
fn plain_columns(output: Output, text: &str) -> u32
    requires { length text.now ≤ 256 }
    ensures value { result ≡ characters_columns (plain_printed output (chars text.now)) }
    ensures bound { result ≤ 24 * length text.now }
{
    let mut sum = 0;
    for c in text.chars() {
        sum += printed_columns(printed_char(output, c));
    }
    sum
}

// The columns of what a token prints.
fn token_columns(output: Output, token: &Token<'_>) -> u32
    requires some { 0 < length (token_bytes (token_view token.now)) }
    requires short { length (token_bytes (token_view token.now)) ≤ 256 }
    ensures value { result ≡ characters_columns (token_printed output (token_view token.now)) }
    ensures bound { result ≤ 1000 * length (token_bytes (token_view token.now)) }
{
    match *token {
        Token::White(white) => white.len() as u32,
        Token::Plain(text) => match str::from_utf8(text) {
            Ok(text) => plain_columns(output, text),
            Err(_) => 0,
        },
        Token::Quotes(_) => 1,
        Token::Escaped { meaning, .. } => escape_columns(meaning, output),
    }
}

/// The columns of what a text prints.
pub(crate) fn text_columns(output: Output, text: &[u8]) -> u32
    requires { length text.now ≤ 256 }
    ensures value { result ≡ tokens_columns output (tokens_of false text.now) }
    ensures bound { result ≤ 1000 * length text.now }
{
    let mut sum = 0;
    let mut tokens = Tokens::new(false, text);
    while let Some(token) = tokens.read() {
        sum += token_columns(output, &token);
    }
    sum
}

/// Gives a character.
pub(crate) fn give_char<O: RunOut>(out: &mut O, font: Font, place: Place, c: char)
    ensures { Came O.left out.old (in_font font place (c ∷ [])) out.new }
{
    out.give(Piece::Char { c, font, place });
}

/// Gives blanks.
pub(crate) fn give_blanks<O: RunOut>(out: &mut O, font: Font, place: Place, count: u32)
    ensures { Came O.left out.old (in_font font place (replicate count 32)) out.new }
{
    let mut left = count as usize;
    while left > 0 {
        let run = left.min(BLANK_TEXT);
        out.give_run(font, place, blank_text(run));
        left -= run;
    }
}

// Gives what a character or a glyph prints.
fn give_printed<O: RunOut>(out: &mut O, font: Font, place: Place, printed: Printed<'_>)
    ensures { Came O.left out.old (in_font font place (printed_view printed.entry).characters) out.new }
{
    match printed {
        Printed::Char(c) => give_char(out, font, place, c),
        Printed::Spelling(spelling) => out.give_run(font, place, spelling.as_bytes()),
        Printed::NoSpelling(_) | Printed::NoGlyph(_) => out.give_run(font, place, b"<?>"),
    }
}

// Whether bytes are printable ASCII, of which each is a character in every output.
fn are_printable(bytes: &[u8]) -> bool
    ensures { result ≡ is_printable_ascii bytes.now }
{
    bytes.iter().all(|byte| b' ' <= *byte && *byte <= b'~')
}

// Gives characters that print themselves.
fn give_plain<O: RunOut>(out: &mut O, output: Output, font: Font, place: Place, text: &str)
    ensures { Came O.left out.old (in_font font place (plain_printed output (chars text.now))) out.new }
{
    if are_printable(text.as_bytes()) {
        out.give_run(font, place, text.as_bytes());
        return;
    }
    for c in text.chars() {
        give_printed(out, font, place, printed_char(output, c));
    }
}

// Gives what an escape prints.
fn give_escape<O: RunOut>(
    out: &mut O,
    output: Output,
    font: Font,
    place: Place,
    meaning: Escape<'_>,
)
    ensures { Came O.left out.old
        (in_font font place (printed_escape output (meaning_view meaning.entry))) out.new }
{
    match meaning {
        Escape::Glyph(name) => give_printed(out, font, place, printed_glyph(output, name)),
        Escape::Char(c) | Escape::Undefined(c) => give_printed(
            out,
            font,
            place,
            printed_char(output, c),
        ),
        Escape::Tab | Escape::Blank => give_char(out, font, place, ' '),
        Escape::Blanks(_) => give_blanks(out, font, place, escape_columns(meaning, output)),
        Escape::Nothing | Escape::Glue | Escape::Font(_) | Escape::Unsupported | Escape::Bad => {}
    }
}

// Gives what a token prints.
fn give_token<O: RunOut>(out: &mut O, output: Output, font: Font, place: Place, token: &Token<'_>)
    requires { length (token_bytes (token_view token.now)) ≤ 256 }
    ensures { Came O.left out.old (in_font font place (token_printed output (token_view token.now))) out.new }
{
    match *token {
        Token::White(white) => give_blanks(out, font, place, white.len() as u32),
        Token::Plain(text) => {
            if let Ok(text) = str::from_utf8(text) {
                give_plain(out, output, font, place, text);
            }
        }
        Token::Quotes(_) => give_char(out, font, place, '"'),
        Token::Escaped { meaning, .. } => give_escape(out, output, font, place, meaning),
    }
}

/// Gives what a text prints, from the fonts before it; the fonts after it.
pub(crate) fn give_text<O: RunOut>(
    out: &mut O,
    output: Output,
    fonts: Fonts,
    place: Place,
    text: &[u8],
) -> Fonts
    requires { length text.now ≤ 256 }
    ensures came { Came O.left out.old (tokens_items output place fonts (tokens_of false text.now)) out.new }
    ensures fonts { result ≡ fonts_after fonts (tokens_of false text.now) }
{
    let mut fonts = fonts;
    let mut tokens = Tokens::new(false, text);
    while let Some(token) = tokens.read() {
        give_token(out, output, fonts.font, place, &token);
        fonts = fonts.after(&token);
    }
    fonts
}
