//! What is read before an escape's quoted argument, or the whole escape where it has none.
ghost use Rattle.std.specs.Prelude.{◌≡◌, ◌<◌, ◌≤◌, ◌+◌, ◌==◌, length, position, IfSome};
ghost use Rattle.page_core_escapes.specs.Lengths.{after_sign, begins_size, shape_of, sign_len, character_len, written_len, two_characters_len, bracketed_len, name_len, number_len, number_extent, extent_of};
ghost use Rattle.page_core_escapes.specs.laws.Views.{ExtentFits};

use crate::letters::{Shape, letter_of};

/// An escape as far as its quoted argument.
#[derive(Clone, Copy)]
pub(crate) enum Extent {
    /// It has no such argument and takes this many bytes.
    Whole(usize),
    /// Its quoted argument begins after this many bytes.
    QuotedFrom(usize),
}

// The bytes of a text's first character.
fn character_len(text: &[u8]) -> Option<usize>
    ensures value { result ≡ character_len text.now }
    ensures bound { IfSome result (λ len. (0 < len) × (len ≤ length text.now)) }
{
    let len = match *text.first()? {
        0..=0x7F => 1,
        0x80..=0xDF => 2,
        0xE0..=0xEF => 3,
        _ => 4,
    };
    if len <= text.len() { Some(len) } else { None }
}

/// The bytes of a text's first character, as it is written. With `pairs`, as in a quoted argument of a macro, two quotes are one.
pub(crate) fn written_len(pairs: bool, text: &[u8]) -> Option<usize>
    ensures value { result ≡ written_len pairs text.now }
    ensures bound { IfSome result (λ len. (0 < len) × (len ≤ length text.now)) }
{
    if pairs && text.starts_with(b"\"\"") {
        return Some(2);
    }
    character_len(text)
}

// The bytes of a text's first two characters.
fn two_characters_len(pairs: bool, text: &[u8]) -> Option<usize>
    ensures value { result ≡ two_characters_len pairs text.now }
    ensures bound { IfSome result (λ len. len ≤ length text.now) }
{
    let first = written_len(pairs, text)?;
    let second = written_len(pairs, &text[first..])?;
    Some(first + second)
}

// The bytes up to and with the first bracket that closes.
fn bracketed_len(text: &[u8]) -> Option<usize>
    ensures value { result ≡ bracketed_len text.now }
    ensures bound { IfSome result (λ len. len ≤ length text.now) }
{
    Some(bracket_place(text)? + 1)
}

// Where the first bracket that closes is.
fn bracket_place(text: &[u8]) -> Option<usize>
    ensures value { result ≡ position (λ b. b == 0x5D) text.now }
    ensures bound { IfSome result (λ place. place < length text.now) }
{
    text.iter().position(|b| *b == b']')
}

// A name as it is written: `x`, `(xx` or `[name]`.
fn name_len(pairs: bool, text: &[u8]) -> Option<usize>
    ensures value { result ≡ name_len pairs text.now }
    ensures bound { IfSome result (λ len. (0 < len) × (len ≤ length text.now)) }
{
    let rest = match *text.first()? {
        b'(' => two_characters_len(pairs, &text[1..])?,
        b'[' => bracketed_len(&text[1..])?,
        _ => return written_len(pairs, text),
    };
    Some(rest + 1)
}

// A size that isn't quoted.
fn number_len(pairs: bool, text: &[u8]) -> Option<usize>
    ensures value { result ≡ number_len pairs text.now }
    ensures bound { IfSome result (λ len. len ≤ length text.now) }
{
    match *text {
        [] => None,
        [b'(' | b'[', ..] => name_len(pairs, text),
        [b'1'..=b'3', b'0'..=b'9', ..] => Some(2),
        _ => Some(1),
    }
}

// A size without its sign.
fn without_sign(text: &[u8]) -> &[u8]
    ensures { result.now ≡ after_sign text.now }
{
    match text.first() {
        Some(b'+' | b'-') => &text[1..],
        _ => text,
    }
}

// Whether a size begins here, or the text ends.
fn begins_size(text: &[u8]) -> bool
    ensures { result ≡ begins_size text.now }
{
    match text.first() {
        Some(first) => matches!(first, b'(' | b'[' | b'\'' | b'0'..=b'9'),
        None => true,
    }
}

// What follows an escape's letter, where `rest` is after that.
fn shape_of(key: u8, rest: &[u8]) -> Shape
    ensures { result ≡ shape_of key rest.now }
{
    match letter_of(key).shape {
        Shape::Size if !begins_size(without_sign(rest)) => Shape::Alone,
        shape => shape,
    }
}

// An escape with a size, where what follows the escape's letter is `rest`.
fn size_extent(pairs: bool, rest: &[u8]) -> Option<Extent>
    ensures value { result ≡ number_extent pairs (2 + sign_len rest.now) (after_sign rest.now) }
    ensures bound { IfSome result (ExtentFits (2 + length rest.now)) }
{
    let number = without_sign(rest);
    let before = 2 + rest.len() - number.len();
    if number.first() == Some(&b'\'') {
        return Some(Extent::QuotedFrom(before));
    }
    Some(Extent::Whole(before + number_len(pairs, number)?))
}

/// Reads an escape as far as its quoted argument; none where the text ends before.
pub(crate) fn read_extent(pairs: bool, text: &[u8]) -> Option<Extent>
    requires { 0 < length text.now }
    ensures value { result ≡ extent_of pairs text.now }
    ensures bound { IfSome result (ExtentFits (length text.now)) }
{
    if text.len() == 1 {
        return Some(Extent::Whole(1));
    }
    let rest = &text[2..];
    let len = match shape_of(text[1], rest) {
        Shape::Alone => written_len(pairs, &text[1..])? + 1,
        Shape::Glyph => name_len(pairs, &text[1..])? + 1,
        Shape::Name => name_len(pairs, rest)? + 2,
        Shape::Size => return size_extent(pairs, rest),
        Shape::Quoted => return Some(Extent::QuotedFrom(2)),
    };
    Some(Extent::Whole(len))
}
