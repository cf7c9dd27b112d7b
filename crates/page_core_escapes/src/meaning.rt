//! What an escape means.
ghost use Rattle.std.specs.Prelude.{◌≡◌, ◌<◌, ◌≤◌, length, drop, if◌then◌else◌, MatchOption, [], ◌∷◌};
ghost use Rattle.std.specs.List.{list_all, list_any};
ghost use Rattle.std.specs.Str.{bytes_eq};
ghost use Rattle.page_core_escapes.specs.Meanings.{meaning_of, argument_of, meaning_by, bare_name, bare_quoted, without_last, bracketed, names_code_point, is_hex_digit, hex_number, hex_value, face_of, is_known, unknown, first_char};
ghost use Rattle.page_core_escapes.specs.laws.Views.{meaning_view, face_view};
ghost use Rattle.page_core_escapes.specs.machine.Steps.{FontLetter};

use crate::extents::written_len;
use crate::letters::{LetterKind, Shape, letter_of};
use std::str;

/// The font that an escape asks for.
#[derive(Clone, Copy)]
pub enum FontName<'a> {
    R,
    I,
    B,
    BI,
    /// The one before the present font.
    Former,
    /// A name that no font has.
    Unknown(&'a [u8]),
}

impl<'a> FontName<'a> {
    /// Whether there is such a font.
    #[inline(always)]
    pub fn is_known(self) -> bool
        ensures { result ≡ is_known (face_view self.entry) }
    {
        !matches!(self, FontName::Unknown(_))
    }
}

/// What an escape means: roff(7), "Escape sequences", and mandoc_char(7).
#[derive(Clone, Copy)]
pub enum Escape<'a> {
    /// The glyph of this name, which there may be or not.
    Glyph(&'a [u8]),
    Char(char),
    Tab,
    /// A blank where no row is broken.
    Blank,
    /// Blanks of that kind, as many as this expression says.
    Blanks(&'a [u8]),
    /// Nothing is printed.
    Nothing,
    /// At a line's end: the next line's text is glued to it.
    Glue,
    Font(FontName<'a>),
    /// There is no such escape: the character itself is printed.
    Undefined(char),
    /// An escape of roff that has no effect here.
    Unsupported,
    /// The text ends before the escape does.
    Bad,
}

// The meaning of a text that is one escape.
pub(crate) fn read_meaning(pairs: bool, escape: &[u8]) -> Escape<'_>
    ensures { meaning_view result ≡ meaning_of pairs escape.now }
{
    if escape.len() < 2 {
        return Escape::Nothing;
    }
    let letter = letter_of(escape[1]);
    let text = &escape[1..];
    meaning_by(letter.kind, argument(pairs, letter.shape, text), text)
}

// The argument of an escape by its text from its letter on.
fn argument(pairs: bool, shape: Shape, text: &[u8]) -> &[u8]
    requires { 0 < length text.now }
    ensures { result.now ≡ argument_of pairs shape text.now }
{
    match shape {
        Shape::Alone => b"",
        Shape::Glyph => bare_name(text),
        Shape::Name => bare_name(&text[1..]),
        Shape::Size => &text[1..],
        Shape::Quoted => bare_quoted(pairs, &text[1..]),
    }
}

// The meaning of an escape by its kind, its argument and its text from its letter on.
fn meaning_by<'a>(kind: LetterKind, argument: &'a [u8], text: &[u8]) -> Escape<'a>
    requires { 0 < length text.now }
    ensures { meaning_view result ≡ meaning_by kind argument.now text.now }
{
    match kind {
        LetterKind::Glyph => Escape::Glyph(argument),
        LetterKind::CodePoint => read_bracketed(argument),
        LetterKind::Char(c) => Escape::Char(c),
        LetterKind::Tab => Escape::Tab,
        LetterKind::Blank => Escape::Blank,
        LetterKind::Blanks => Escape::Blanks(argument),
        LetterKind::Nothing => Escape::Nothing,
        LetterKind::Size if argument.is_empty() => Escape::Undefined(first_char(text)),
        LetterKind::Size => Escape::Nothing,
        LetterKind::Glue => Escape::Glue,
        LetterKind::Font => Escape::Font(read_font(argument)),
        LetterKind::Undefined => Escape::Undefined(first_char(text)),
        LetterKind::Unsupported => Escape::Unsupported,
    }
}

// A name in brackets: a character's code point, or a glyph's name.
fn read_bracketed(name: &[u8]) -> Escape<'_>
    ensures { meaning_view result ≡ bracketed name.now }
{
    match code_point(name) {
        Some(c) => Escape::Char(c),
        None => Escape::Glyph(name),
    }
}

// The character of a name such as `u2014`.
fn code_point(name: &[u8]) -> Option<char>
    ensures { result ≡ (if names_code_point name.now then Some (hex_number (drop 1 name.now)) else None) }
{
    let (first, digits) = name.split_first()?;
    if *first != b'u' || digits.len() < 4 || 6 < digits.len() || !are_hex_digits(digits) {
        return None;
    }
    let code = hex_number(digits);
    if code < 0xA0 {
        return None;
    }
    char::from_u32(code)
}

// Whether all are hexadecimal digits in upper case.
fn are_hex_digits(digits: &[u8]) -> bool
    ensures { result ≡ list_all is_hex_digit digits.now }
{
    digits
        .iter()
        .all(|digit| matches!(digit, b'0'..=b'9' | b'A'..=b'F'))
}

// The number that a few hexadecimal digits spell.
fn hex_number(digits: &[u8]) -> u32
    requires { length digits.now ≤ 6 }
    ensures { result ≡ hex_number digits.now }
{
    let mut number = 0;
    for digit in digits {
        number = number * 16 + hex_value(*digit);
    }
    number
}

fn hex_value(digit: u8) -> u32
    ensures value { result ≡ hex_value digit }
    ensures bound { result < 256 }
{
    let value = if digit.is_ascii_digit() {
        digit - b'0'
    } else {
        digit.saturating_sub(b'A' - 10)
    };
    value as u32
}

/// The font that one letter names.
#[inline(always)]
pub(crate) fn font_by_letter<'a>(letter: u8) -> Option<FontName<'a>>
    ensures { MatchOption result (face_of (letter ∷ []) ≡ unknown (letter ∷ []))
        (λ name. FontLetter letter (face_view name)) }
{
    match letter {
        b'R' | b'1' => Some(FontName::R),
        b'I' | b'2' => Some(FontName::I),
        b'B' | b'3' => Some(FontName::B),
        b'4' => Some(FontName::BI),
        b'P' => Some(FontName::Former),
        _ => None,
    }
}

/// The font of a name: roff(7), `\f` and `ft`.
pub fn read_font(name: &[u8]) -> FontName<'_>
    ensures { face_view result ≡ face_of name.now }
{
    match *name {
        [] => FontName::Former,
        [letter] => match font_by_letter(letter) {
            Some(font) => font,
            None => FontName::Unknown(name),
        },
        _ => font_by_letters(name),
    }
}

// The font that several letters name.
fn font_by_letters(name: &[u8]) -> FontName<'_>
    requires { 2 ≤ length name.now }
    ensures { face_view result ≡ face_of name.now }
{
    if is_one_of(name, &["CW", "CR"]) {
        FontName::R
    } else if is_one_of(name, &["CI"]) {
        FontName::I
    } else if is_one_of(name, &["CB"]) {
        FontName::B
    } else if is_one_of(name, &["BI"]) {
        FontName::BI
    } else {
        FontName::Unknown(name)
    }
}

fn is_one_of(name: &[u8], names: &[&str]) -> bool
    ensures { result ≡ list_any (λ other. bytes_eq name.now other.now) names.now }
{
    names.iter().any(|other| name == other.as_bytes())
}

// A name that was written as `x`, `(xx` or `[name]`.
fn bare_name(written: &[u8]) -> &[u8]
    ensures { result.now ≡ bare_name written.now }
{
    match written.first() {
        Some(b'(') => &written[1..],
        Some(b'[') => without_last(&written[1..]),
        _ => written,
    }
}

// An argument that was written between two delimiters.
fn bare_quoted(pairs: bool, written: &[u8]) -> &[u8]
    ensures { result.now ≡ bare_quoted pairs written.now }
{
    let mark = written_len(pairs, written).unwrap_or(0);
    let rest = &written[mark..];
    &rest[..rest.len().saturating_sub(mark)]
}

fn without_last(bytes: &[u8]) -> &[u8]
    ensures { result.now ≡ without_last bytes.now }
{
    &bytes[..bytes.len().saturating_sub(1)]
}

// The first character of a text; one that is not UTF-8 has the replacement character.
fn first_char(text: &[u8]) -> char
    requires { 0 < length text.now }
    ensures { result ≡ first_char text.now }
{
    match str::from_utf8(text) {
        Ok(text) => text.chars().next().unwrap_or(char::REPLACEMENT_CHARACTER),
        Err(_) => char::REPLACEMENT_CHARACTER,
    }
}
