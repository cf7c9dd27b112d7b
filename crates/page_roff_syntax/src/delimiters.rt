//! Texts between delimiters.

ghost use Rattle.std.specs.Prelude.{◌≡◌, ◌≤◌, ◌<◌, ◌+◌, IfSome, length};
ghost use Rattle.std.specs.Str.{continuation_len};
ghost use Rattle.page_core_base.specs.Bytes.{begins_escape};
ghost use Rattle.page_roff_syntax.specs.Delimiters.{character_len, place_of, content_len, width_content_len, width_len};
ghost use Rattle.page_roff_syntax.specs.machine.Closed.{is_outside};

use memchr::memmem;

// The number of bytes of a character with this first byte.
fn len_by(first: u8) -> usize
    ensures { result ≡ continuation_len first + 1 }
{
    match first {
        0..=0x7F => 1,
        0x80..=0xDF => 2,
        0xE0..=0xEF => 3,
        _ => 4,
    }
}

/// The number of bytes of a text's first character.
pub fn character_len(text: &[u8]) -> usize
    ensures value { result ≡ character_len text.now }
    ensures within { result ≤ length text.now }
{
    match text.first() {
        None => 0,
        Some(first) => text.len().min(len_by(*first)),
    }
}

/// Whether a place is outside pairs: an even number of backslashes is before it, one after another.
pub(crate) fn is_outside(text: &[u8], at: usize) -> bool
    requires { at ≤ length text.now }
    ensures { result ≡ is_outside at text.now }
{
    let mut place = at;
    let mut is_even = true;
    while 0 < place && text[place - 1] == b'\\' {
        place -= 1;
        is_even = !is_even;
    }
    is_even
}

/// The number of bytes before a delimiter, or of all of them where it is missing. A backslash and its next byte are a pair, and none is there.
pub fn place_of(delimiter: &[u8], text: &[u8]) -> usize
    ensures value { result ≡ place_of delimiter.now text.now }
    ensures within { result ≤ length text.now }
    ensures fits { result < length text.now → result + length delimiter.now ≤ length text.now }
{
    let mut place = 0;
    while place < text.len() {
        let rest = &text[place..];
        match memmem::find(rest, delimiter) {
            None => return text.len(),
            Some(found) => {
                if is_outside(rest, found) {
                    return place + found;
                }
                // It is the second half of a pair.
                place += found + 1;
            }
        }
    }
    place
}

// How many bytes are before a delimiter's next occurrence outside pairs.
fn content_len(delimiter: &[u8], text: &[u8]) -> Option<usize>
    ensures value { result ≡ content_len delimiter.now text.now }
    ensures within { IfSome result (λ len. len + length delimiter.now ≤ length text.now) }
{
    let place = place_of(delimiter, text);
    if place < text.len() {
        Some(place)
    } else {
        None
    }
}

/// Whether a text begins with a backslash.
pub fn begins_escape(text: &[u8]) -> bool
    ensures { result ≡ begins_escape text.now }
{
    matches!(text, [b'\\', ..])
}

/// How many bytes are between a width's delimiters, of which the first character is one (roff(7), `\w`). None where the second is missing;
/// a backslash begins a pair, so it is none.
pub fn width_content_len(text: &[u8]) -> Option<usize>
    ensures value { result ≡ width_content_len text.now }
    ensures within { IfSome result (λ len. character_len text.now + len + character_len text.now ≤ length text.now) }
{
    if begins_escape(text) {
        return None;
    }
    let (delimiter, inner) = text.split_at(character_len(text));
    content_len(delimiter, inner)
}

/// The number of bytes of a width with its delimiters, or 0 where the second is missing.
pub fn width_len(text: &[u8]) -> usize
    ensures value { result ≡ width_len text.now }
    ensures within { result ≤ length text.now }
{
    let mark = character_len(text);
    match width_content_len(text) {
        None => 0,
        Some(len) => mark + len + mark,
    }
}
