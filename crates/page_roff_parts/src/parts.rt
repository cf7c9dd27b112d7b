//! What a text is made of (roff(7), "Escape sequences").

ghost use Rattle.std.specs.Prelude.{◌≡◌, ◌<◌, ◌≤◌, ◌+◌, ◌==◌, length, Some, None, IsTrue, option_map, take, drop, get_or};
ghost use Rattle.page_core_base.specs.Bytes.{begins_escape};
ghost use Rattle.page_roff_parts.specs.machine.Verbatim.{IsKnown, seen_of, cut_of, call_of};
ghost use Rattle.page_roff_parts.specs.Parts as reading;

use crate::endings::after;
use memchr::memchr;
use page_roff_syntax::{character_len, width_content_len};

/// An interpolation: of a string, a number register, an argument (the escape as it is written), or the width of a text.
#[derive(Drop)]
pub enum Call<W> {
    String(W),
    Register(W),
    Argument(W),
    Width(W),
}

/// A part of a text: bytes that are copied, or an interpolation.
#[derive(Drop)]
pub enum Part<W> {
    Copied(W),
    Called(Call<W>),
}

/// The first part of a text, and what follows it.
#[derive(Drop)]
pub struct Seen<'e> {
    pub part: Part<&'e [u8]>,
    pub rest: &'e [u8],
}

/// What was read of a text, and what follows that.
#[derive(Drop)]
pub struct Cut<'e> {
    pub front: &'e [u8],
    pub rest: &'e [u8],
}

// This many bytes of a text; some more after them are passed over.
fn cut_at(text: &[u8], len: usize, over: usize) -> Cut<'_>
    requires { len + over ≤ length text.now }
    ensures { cut_of result ≡ reading.cut len over text.now }
{
    Cut {
        front: &text[..len],
        rest: after(text, len + over),
    }
}

// A name of two characters.
fn two_characters(text: &[u8]) -> Option<Cut<'_>>
    ensures { option_map cut_of result ≡ reading.two_characters text.now }
{
    let first = character_len(text);
    let second = character_len(after(text, first));
    if second == 0 {
        return None;
    }
    Some(cut_at(text, first + second, 0))
}

// A name up to its bracket.
fn bracketed<'e>(text: &'e [u8], is_unclosed: &mut bool) -> Option<Cut<'e>>
    requires { IsKnown is_unclosed.old text.now }
    ensures cut { option_map cut_of result ≡ reading.bracketed text.now }
    ensures known { IsKnown is_unclosed.new text.now }
{
    if *is_unclosed {
        return None;
    }
    match memchr(b']', text) {
        None => {
            *is_unclosed = true;
            None
        }
        Some(place) => Some(cut_at(text, place, 1)),
    }
}

// The name at a text's front: `x`, `(xx` or `[name]`. None where the text ends before the name does.
fn read_name<'e>(text: &'e [u8], is_unclosed: &mut bool) -> Option<Cut<'e>>
    requires { IsKnown is_unclosed.old text.now }
    ensures cut { option_map cut_of result ≡ reading.name_cut text.now }
    ensures known { IsKnown is_unclosed.new text.now }
{
    match text {
        [] => None,
        [b'(', rest @ ..] => two_characters(rest),
        [b'[', rest @ ..] => bracketed(rest, is_unclosed),
        _ => Some(cut_at(text, character_len(text), 0)),
    }
}

// The text between a width's delimiters.
fn read_width(text: &[u8]) -> Option<Cut<'_>>
    ensures { option_map cut_of result ≡ reading.width_cut text.now }
{
    let mark = character_len(text);
    match width_content_len(text) {
        None => None,
        Some(len) => Some(cut_at(after(text, mark), len, mark)),
    }
}

/// Whether a backslash and this byte make one backslash.
pub(crate) fn is_doubled(copy: bool, letter: u8) -> bool
    ensures { result ≡ reading.is_doubled copy letter }
{
    copy && letter == b'\\'
}

// An interpolation that was read, and what follows it.
fn called<'e>(call: Call<&'e [u8]>, rest: &'e [u8]) -> Seen<'e>
    ensures { seen_of result ≡ reading.calls (call_of call.entry) rest.entry.now }
{
    Seen {
        part: Part::Called(call),
        rest,
    }
}

// The interpolation at a text's front, where a backslash and a letter are.
fn read_call<'e>(text: &'e [u8], copy: bool, is_unclosed: &mut bool) -> Option<Seen<'e>>
    requires some { 2 ≤ length text.now }
    requires escape { IsTrue (begins_escape text.now) }
    requires known { IsKnown is_unclosed.old text.now }
    ensures seen { option_map seen_of result
        ≡ reading.call_cut copy (get_or text.now 1 0) (drop 2 text.now) }
    ensures known { IsKnown is_unclosed.new text.now }
{
    let rest = after(text, 2);
    match text[1] {
        b'*' => match read_name(rest, is_unclosed) {
            None => None,
            Some(name) => Some(called(Call::String(name.front), name.rest)),
        },
        b'n' => match read_name(rest, is_unclosed) {
            None => None,
            Some(name) => Some(called(Call::Register(name.front), name.rest)),
        },
        b'$' => {
            let end = 2 + character_len(rest);
            Some(called(Call::Argument(&text[..end]), after(text, end)))
        }
        b'w' if !copy => match read_width(rest) {
            None => None,
            Some(inner) => Some(called(Call::Width(inner.front), inner.rest)),
        },
        _ => None,
    }
}

// The first part of a text that begins with a backslash.
fn read_escape<'e>(text: &'e [u8], copy: bool, is_unclosed: &mut bool) -> Seen<'e>
    requires some { 0 < length text.now }
    requires escape { IsTrue (begins_escape text.now) }
    requires known { IsKnown is_unclosed.old text.now }
    ensures seen { seen_of result ≡ reading.seen copy text.now }
    ensures known { IsKnown is_unclosed.new text.now }
{
    if text.len() < 2 {
        return copied(text, text.len(), 0);
    }
    if is_doubled(copy, text[1]) {
        return copied(text, 1, 1);
    }
    match read_call(text, copy, is_unclosed) {
        Some(seen) => seen,
        None => copied(text, 1 + character_len(after(text, 1)), 0),
    }
}

// This many bytes that are copied; some more after them are passed over.
fn copied(text: &[u8], len: usize, over: usize) -> Seen<'_>
    requires { len + over ≤ length text.now }
    ensures { seen_of result ≡ reading.copies (take len text.now) (drop (len + over) text.now) }
{
    Seen {
        part: Part::Copied(&text[..len]),
        rest: after(text, len + over),
    }
}

/// Reads the first part of a text, in copy mode or not. Where `is_unclosed` is set, no bracket closes in the text, and none is looked for;
/// it is set where none was found.
pub(crate) fn read<'e>(text: &'e [u8], copy: bool, is_unclosed: &mut bool) -> Seen<'e>
    requires some { 0 < length text.now }
    requires known { IsKnown is_unclosed.old text.now }
    ensures seen { seen_of result ≡ reading.seen copy text.now }
    ensures known { IsKnown is_unclosed.new result.rest.now }
{
    let end = memchr(b'\\', text).unwrap_or(text.len());
    if end == 0 {
        return read_escape(text, copy, is_unclosed);
    }
    copied(text, end, 0)
}
