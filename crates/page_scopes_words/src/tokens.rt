//! Tokens of words: their messages, and what they print (roff(7), "ESCAPE SEQUENCES").

ghost use Rattle.std.specs.Prelude.{◌≡◌, ℕ, List, ◌==◌, ◌∷◌, [], ◌≤◌, false, if◌then◌else◌, option_map};
ghost use Rattle.page_core_base.specs.laws.Views.{Came, piece_of};
ghost use Rattle.page_core_base.specs.Rows.{shown, says};
ghost use Rattle.page_core_escapes.specs.laws.Views.{face_view, meaning_view, token_view};
ghost use Rattle.page_core_escapes.specs.Tokens.{escaped, is_space};
ghost use Rattle.page_scopes_words.specs.Words as tokens;
ghost use Rattle.std.specs.List.{list_any};

use crate::numbers::give_number;
use page_core_base::{
    DETAIL, Font, Note, NoteKind, Output, Piece, PieceOut, Place, unpaired_front,
};
use page_core_escapes::{Escape, FontName, Token};
use page_core_numbers::{Scale, escape_columns};

/// Gives a message about a place, with a detail that is cut to 64 bytes.
#[inline(never)]
pub fn report<O: PieceOut>(out: &mut O, kind: NoteKind, place: Place, detail: &[u8])
    ensures { Came O.left out.old (says kind place detail.now ∷ []) out.new }
{
    out.report(&Note::about(kind, place, detail));
}

/// Gives a message about a part of a text; `quoted` says whether it is that of a quoted argument, where a pair of quotes is one quote.
#[inline(never)]
pub fn report_part<O: PieceOut>(
    out: &mut O,
    quoted: bool,
    kind: NoteKind,
    place: Place,
    part: &[u8],
)
    ensures { Came O.left out.old (says kind place (tokens.shown_part quoted part.now) ∷ []) out.new }
{
    if quoted {
        report(out, kind, place, unpaired_front::<DETAIL>(part).as_slice());
    } else {
        report(out, kind, place, part);
    }
}

/// Reports a name that no font has; `quoted` says whether it is in a quoted argument.
#[inline(always)]
pub fn report_font<O: PieceOut>(out: &mut O, quoted: bool, place: Place, name: FontName<'_>)
    ensures { Came O.left out.old (tokens.face_notes quoted place (face_view name.entry)) out.new }
{
    match name {
        FontName::R | FontName::I | FontName::B | FontName::BI | FontName::Former => {}
        FontName::Unknown(name) => report_part(out, quoted, NoteKind::UnknownFont, place, name),
    }
}

/// Gives the message of an escape; `\h` has none here, since its number is read where its value is. In a quoted argument a pair
/// of quotes is shown as one.
#[inline(always)]
pub fn report_escape<O: PieceOut>(
    out: &mut O,
    quoted: bool,
    place: Place,
    bytes: &[u8],
    meaning: Escape<'_>,
)
    ensures { Came O.left out.old
        (tokens.meaning_notes quoted place bytes.now (meaning_view meaning.entry)) out.new }
{
    match meaning {
        Escape::Undefined(_) => report_part(out, quoted, NoteKind::UndefEscape, place, bytes),
        Escape::Bad => report_part(out, quoted, NoteKind::BadEscape, place, bytes),
        Escape::Unsupported => {
            report(
                out,
                NoteKind::UnsuppEscape,
                place,
                &bytes[..bytes.len().min(2)],
            )
        }
        Escape::Font(name) => report_font(out, quoted, place, name),
        _ => {}
    }
}

// Whether there is a quote.
fn has_quote(bytes: &[u8]) -> bool
    ensures { result ≡ list_any (λ byte. byte == 34) bytes.now }
{
    bytes.iter().any(|byte| *byte == b'"')
}

/// Gives the glyph of a name; `quoted` says whether it is in a quoted argument, where a pair of quotes is one quote.
pub fn give_glyph<O: PieceOut>(out: &mut O, quoted: bool, font: Font, place: Place, name: &[u8])
    ensures { Came O.left out.old
        (shown (Piece.Glyph (tokens.glyph_name quoted name.now) font place) ∷ []) out.new }
{
    if quoted && has_quote(name) {
        let front = unpaired_front::<DETAIL>(name);
        let name = front.as_slice();
        out.give(Piece::Glyph { name, font, place });
    } else {
        out.give(Piece::Glyph { name, font, place });
    }
}

// What an escape prints, but for a glyph and the blanks of `\h`.
fn escape_piece(font: Font, place: Place, meaning: Escape<'_>) -> Option<Piece<&[u8]>>
    ensures { (bytes : List ℕ) → option_map piece_of result ≡ tokens.token_piece font place (escaped bytes (meaning_view meaning.entry)) }
{
    match meaning {
        Escape::Char(c) => Some(Piece::Char { c, font, place }),
        Escape::Undefined(c) => Some(undefined_piece(font, place, c)),
        Escape::Tab => Some(Piece::Tab { font, place }),
        Escape::Blank => Some(Piece::Text {
            text: b" ",
            font,
            place,
        }),
        _ => None,
    }
}

// What an undefined escape prints.
fn undefined_piece<'a>(font: Font, place: Place, c: char) -> Piece<&'a [u8]>
    ensures { piece_of result ≡ (if c == 9 then Piece.Tab font place else Piece.Char c font place) }
{
    if c == '\t' {
        return Piece::Tab { font, place };
    }
    Piece::Char { c, font, place }
}

/// What a token of a word prints, if it does, but for a glyph and the blanks of `\h`.
#[inline(always)]
pub fn token_piece<'a>(font: Font, place: Place, token: &Token<'a>) -> Option<Piece<&'a [u8]>>
    ensures { option_map piece_of result ≡ tokens.token_piece font place (token_view token.now) }
{
    match *token {
        Token::White(_) => None,
        Token::Plain(text) => Some(Piece::Text { text, font, place }),
        Token::Quotes(_) => Some(Piece::Char {
            c: '"',
            font,
            place,
        }),
        Token::Escaped { meaning, .. } => escape_piece(font, place, meaning),
    }
}

/// Gives the messages of a token; `quoted` says whether it is that of a quoted argument.
#[inline(always)]
pub fn report_token<O: PieceOut>(out: &mut O, quoted: bool, place: Place, token: &Token<'_>)
    ensures { Came O.left out.old (tokens.token_notes quoted place (token_view token.now)) out.new }
{
    if let Token::Escaped {
        meaning: Escape::Blanks(expression),
        ..
    } = *token
    {
        let _ = give_number(out, Scale::Em, place, expression);
    } else if let Token::Escaped { bytes, meaning } = *token {
        report_escape(out, quoted, place, bytes, meaning);
    }
}

/// Gives bytes that print themselves.
#[inline(always)]
pub fn give_letters<O: PieceOut>(out: &mut O, font: Font, place: Place, text: &[u8])
    ensures { Came O.left out.old (shown (Piece.Text text.now font place) ∷ []) out.new }
{
    out.give(Piece::Text { text, font, place });
}

/// Gives a count of blanks that are cells.
pub fn give_blank_cells<O: PieceOut>(out: &mut O, count: u32, font: Font, place: Place)
    ensures { Came O.left out.old (tokens.blank_cells count font place) out.new }
{
    for _i in 0..count {
        give_letters(out, font, place, b" ");
    }
}

/// Gives a count of blanks that are cells as one text.
pub fn give_blank_text<O: PieceOut>(out: &mut O, count: u32, font: Font, place: Place)
    requires { count ≤ 1000 }
    ensures { Came O.left out.old (tokens.blank_text count font place) out.new }
{
    if count != 0 {
        out.give_blanks(count as usize, 1, font, place);
    }
}

/// The count of blanks of `\h`.
pub fn blank_count(expression: &[u8]) -> u32
    ensures value { result ≡ tokens.blank_count expression.now }
    ensures bound { result ≤ 1000 }
{
    escape_columns(Escape::Blanks(expression), Output::Ascii)
}

/// Gives what a token prints; `quoted` says whether it is that of a quoted argument.
#[inline(always)]
pub fn give_token<O: PieceOut>(
    out: &mut O,
    quoted: bool,
    font: Font,
    place: Place,
    token: &Token<'_>,
)
    requires { is_space (token_view token.now) ≡ false }
    ensures { Came O.left out.old (tokens.token_items quoted font place (token_view token.now)) out.new }
{
    if let Token::Escaped {
        meaning: Escape::Blanks(expression),
        ..
    } = *token
    {
        give_blank_text(out, blank_count(expression), font, place);
    } else if let Token::Escaped {
        meaning: Escape::Glyph(name),
        ..
    } = *token
    {
        give_glyph(out, quoted, font, place, name);
    } else if let Some(piece) = token_piece(font, place, token) {
        out.give(piece);
    }
}

// Whether an escape prints a cell.
fn escape_prints(meaning: Escape<'_>) -> bool
    ensures { (bytes : List ℕ) → result ≡ tokens.token_prints (escaped bytes (meaning_view meaning.entry)) }
{
    match meaning {
        Escape::Glyph(_) | Escape::Char(_) | Escape::Tab | Escape::Blank | Escape::Undefined(_) =>
            true,
        Escape::Blanks(expression) => blank_count(expression) > 0,
        _ => false,
    }
}

/// Whether a token prints a cell.
#[inline(always)]
pub fn token_prints(token: &Token<'_>) -> bool
    ensures { result ≡ tokens.token_prints (token_view token.now) }
{
    match *token {
        Token::White(_) | Token::Plain(_) | Token::Quotes(_) => true,
        Token::Escaped { meaning, .. } => escape_prints(meaning),
    }
}

/// Whether an escape glues the next line's text.
#[inline(always)]
pub fn is_glue(token: &Token<'_>) -> bool
    ensures { result ≡ tokens.is_glue (token_view token.now) }
{
    match *token {
        Token::Escaped { meaning, .. } => matches!(meaning, Escape::Glue),
        _ => false,
    }
}
