//! The tokens of a text: white space, characters that print themselves, quotes and escapes (roff(7), "LANGUAGE SYNTAX").

ghost use Rattle.std.specs.Prelude.{◌≡◌, ◌≤◌, ◌<◌, length, map, not, slice_index, if◌then◌else◌, IfSome};
ghost use Rattle.std.specs.List.{prefix_len};
ghost use Rattle.std.specs.Simd.Lanes.{mask_l};
ghost use Rattle.page_core_base.specs.Bytes.{is_white, begins_white, begins_escape, begins_quote};
ghost use Rattle.page_core_escapes.specs.laws.Views.{face_view, meaning_view, begins_word, token_view};
ghost use Rattle.page_core_escapes.specs.machine.Steps.{ShortEscape, ShortFont};
ghost use Rattle.page_core_escapes.specs.Tokens.{prints_itself, token_at, token_bytes};

use crate::meaning::font_by_letter;
use crate::{Escape, FontName, read_escape};
use page_core_base::LINE;
use std::simd::prelude::*;

// The bytes that are tested at a time.
const LANES: usize = 16;

/// A token of a text, as it is written.
#[derive(Clone, Copy)]
pub enum Token<'a> {
    /// Blanks and tabs.
    White(&'a [u8]),
    /// Characters that print themselves.
    Plain(&'a [u8]),
    /// Two quotes in a quoted argument, which print one.
    Quotes(&'a [u8]),
    /// An escape, and what it means.
    Escaped {
        bytes: &'a [u8],
        meaning: Escape<'a>,
    },
}

impl<'a> Token<'a> {
    // The bytes of the token.
    fn bytes(&self) -> &'a [u8]
        ensures { result.now ≡ token_bytes (token_view self.now) }
    {
        match *self {
            Token::White(bytes) | Token::Plain(bytes) | Token::Quotes(bytes) => bytes,
            Token::Escaped { bytes, .. } => bytes,
        }
    }

    /// The number of bytes of the token.
    pub fn len(&self) -> usize
        ensures { result ≡ length (token_bytes (token_view self.now)) }
    {
        self.bytes().len()
    }
}

// Whether a byte is a blank or a tab.
fn is_white(byte: u8) -> bool
    ensures { result ≡ is_white byte }
{
    byte == b' ' || byte == b'\t'
}

// The number of blanks and tabs at a text's front.
fn white_len(text: &[u8]) -> usize
    ensures value { result ≡ prefix_len is_white text.now }
    ensures within { result ≤ length text.now }
{
    text.iter().take_while(|byte| is_white(**byte)).count()
}

// Whether a text begins with a blank or a tab.
fn begins_white(text: &[u8]) -> bool
    ensures { result ≡ begins_white text.now }
{
    match text {
        [] => false,
        [first, ..] => is_white(*first),
    }
}

/// Whether a text begins with a word.
pub fn begins_word(text: &[u8]) -> bool
    ensures { result ≡ begins_word text.now }
{
    match text {
        [] => false,
        [first, ..] => !is_white(*first),
    }
}

// Whether a text begins with a backslash.
fn begins_escape(text: &[u8]) -> bool
    ensures { result ≡ begins_escape text.now }
{
    match text {
        [] => false,
        [first, ..] => *first == b'\\',
    }
}

// Whether a text begins with a quote.
fn begins_quote(text: &[u8]) -> bool
    ensures { result ≡ begins_quote text.now }
{
    match text {
        [] => false,
        [first, ..] => *first == b'"',
    }
}

// Whether a byte prints itself. Most bytes are above blanks and quotes, so that two looks are enough.
#[inline(always)]
fn prints_itself(quoted: bool, byte: u8) -> bool
    ensures { result ≡ prints_itself quoted byte }
{
    if byte > b'"' {
        return byte != b'\\';
    }
    !(is_white(byte) || (quoted && byte == b'"'))
}

// What ends a run of bytes that print themselves besides white space and escapes: in a quoted argument a quote, else nothing more.
fn mark(quoted: bool) -> u8
    ensures { result ≡ (if quoted then 34 else 32) }
{
    if quoted { b'"' } else { b' ' }
}

// The bytes of a vector that do not print themselves, as the bits of a number.
#[inline(always)]
fn stops(quoted: bool, bytes: u8x16) -> u64
    ensures { result ≡ mask_l (map (λ byte. not (prints_itself quoted byte)) bytes) }
{
    let white = bytes.simd_eq(u8x16::splat(b' ')) | bytes.simd_eq(u8x16::splat(b'\t'));
    let others = bytes.simd_eq(u8x16::splat(b'\\')) | bytes.simd_eq(u8x16::splat(mark(quoted)));
    (white | others).to_bitmask()
}

/// The number of bytes at a text's front that print themselves. Most words end within one vector.
#[inline(always)]
pub fn plain_len(quoted: bool, text: &[u8]) -> usize
    ensures value { result ≡ prefix_len (prints_itself quoted) text.now }
    ensures within { result ≤ length text.now }
{
    if text.len() >= LANES {
        let found = stops(quoted, u8x16::from_slice(text));
        if found != 0 {
            return found.trailing_zeros() as usize;
        }
    }
    text.iter()
        .take_while(|byte| prints_itself(quoted, **byte))
        .count()
}

// The font of `\f(CW`, as most pages write code: it prints as roman.
#[inline(always)]
fn code_font(text: &[u8]) -> Option<(FontName<'_>, usize)>
    requires backslash { slice_index text.now 0 ≡ 0x5C }
    requires letter { slice_index text.now 1 ≡ 0x66 }
    ensures { IfSome result (λ found. ShortFont text.now (face_view found.0) found.1) }
{
    if text.len() < 5 || text[2] != b'(' || text[3] != b'C' || text[4] != b'W' {
        return None;
    }
    Some((FontName::R, 5))
}

/// The font that an escape at a text's front asks for and how many bytes it takes, where few bytes say so, as in `\fB`.
#[inline(always)]
pub fn short_font(text: &[u8]) -> Option<(FontName<'_>, usize)>
    ensures { IfSome result (λ found. ShortFont text.now (face_view found.0) found.1) }
{
    if text.len() < 3 || text[0] != b'\\' || text[1] != b'f' {
        return None;
    }
    match font_by_letter(text[2]) {
        Some(name) => Some((name, 3)),
        None => code_font(text),
    }
}

// What an escape at a text's front means and how many bytes it takes, where few bytes say so: these are the most frequent ones.
#[inline(always)]
fn short_escape(text: &[u8]) -> Option<(Escape<'_>, usize)>
    requires { slice_index text.now 0 ≡ 0x5C }
    ensures { IfSome result (λ found. ShortEscape text.now (meaning_view found.0) found.1) }
{
    if let Some((name, len)) = short_font(text) {
        return Some((Escape::Font(name), len));
    }
    if text.len() < 2 {
        return None;
    }
    match text[1] {
        b'&' => Some((Escape::Nothing, 2)),
        b'-' => Some((Escape::Char('-'), 2)),
        b'e' => Some((Escape::Char('\\'), 2)),
        b't' => Some((Escape::Tab, 2)),
        b'~' | b' ' | b'0' => Some((Escape::Blank, 2)),
        _ => None,
    }
}

/// The token at a text's front; `quoted` says whether it is that of a quoted argument.
#[inline(always)]
#[tactic(auto, unfolding(crate::specs::Tokens::token_at))]
pub fn read_token(quoted: bool, text: &[u8]) -> Token<'_>
    requires { length text.now ≤ LINE }
    ensures value { token_view result ≡ token_at quoted text.now }
    ensures some { 0 < length text.now → 0 < length (token_bytes (token_view result)) }
    ensures within { length (token_bytes (token_view result)) ≤ length text.now }
{
    if begins_white(text) {
        return Token::White(&text[..white_len(text)]);
    }
    if begins_escape(text) {
        if let Some((meaning, len)) = short_escape(text) {
            return Token::Escaped {
                bytes: &text[..len],
                meaning,
            };
        }
        let (meaning, len) = read_escape(quoted, text);
        return Token::Escaped {
            bytes: &text[..len],
            meaning,
        };
    }
    if quoted && begins_quote(text) {
        return Token::Quotes(&text[..text.len().min(2)]);
    }
    Token::Plain(&text[..plain_len(quoted, text)])
}
