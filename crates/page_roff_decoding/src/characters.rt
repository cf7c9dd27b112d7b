//! The characters of a line's bytes (mandoc(1), -K).
ghost use Rattle.std.specs.Prelude.{◌≡◌, ◌<◌, ◌≤◌, length, slice_index, IsTrue};
ghost use Rattle.page_roff_decoding.specs.Decoding.{sequence_length, is_second, is_later, is_printable, character, later_length};
ghost use Rattle.page_roff_decoding.specs.machine.Fronts.{as_character, later_of, width_of, size_of};

use page_core_base::Encoding;

/// The character at the front of some bytes.
#[derive(Clone, Copy)]
pub enum Front {
    /// This many bytes, which are UTF-8.
    Same(usize),
    /// A byte of Latin-1 that has two bytes in UTF-8.
    Latin1(u8),
    /// A byte that is no character.
    Bad(u8),
}

// The byte at a place, or 0 after the end.
fn byte_at(text: &[u8], at: usize) -> u8
    ensures value { result ≡ slice_index text.now at }
    ensures within { 0 < result → at < length text.now }
{
    if at < text.len() { text[at] } else { 0 }
}

// Whether a byte may be a later one of a UTF-8 sequence.
fn is_later(byte: u8) -> bool
    ensures { result ≡ is_later byte }
{
    (0x80..=0xBF).contains(&byte)
}

// Whether a byte may be the second one after a first one, of a character of U+00A0 or above.
#[tactic(auto, unfolding(crate::specs::Decoding::is_second))]
fn is_second(first: u8, byte: u8) -> bool
    ensures value { result ≡ is_second first byte }
    ensures later { IsTrue result → 128 ≤ byte }
{
    match first {
        0xC2 | 0xE0 => (0xA0..=0xBF).contains(&byte),
        0xED => (0x80..=0x9F).contains(&byte),
        0xF0 => (0x90..=0xBF).contains(&byte),
        0xF4 => (0x80..=0x8F).contains(&byte),
        _ => is_later(byte),
    }
}

/// How many bytes the well-formed UTF-8 sequence of a character of U+00A0 or above takes at the front of
/// `text`; 0 where none does.
#[tactic(auto, unfolding(crate::specs::Decoding::sequence_length))]
pub fn sequence_len(text: &[u8]) -> usize
    ensures value { result ≡ sequence_length text.now }
    ensures within { result ≤ length text.now }
    ensures high { 0 < result → 128 ≤ slice_index text.now 0 }
{
    let first = byte_at(text, 0);
    if !is_second(first, byte_at(text, 1)) {
        return 0;
    }
    match first {
        0xC2..=0xDF => 2,
        0xE0..=0xEF if is_later(byte_at(text, 2)) => 3,
        0xF0..=0xF4 if is_later(byte_at(text, 2)) && is_later(byte_at(text, 3)) => 4,
        _ => 0,
    }
}

/// Whether a byte is a character of a line by itself.
pub fn is_printable(byte: u8) -> bool
    ensures { result ≡ is_printable byte }
{
    (byte >= b' ' && byte <= b'~') || byte == b'\t'
}

impl Front {
    /// The character at the front of `text`.
    #[inline(always)]
    #[tactic(auto, unfolding(crate::specs::Decoding::character, crate::specs::Decoding::high_character, crate::specs::Decoding::later_length, crate::specs::Decoding::high_later_length))]
    pub fn of(text: &[u8], encoding: Encoding) -> Front
        requires { 0 < length text.now }
        ensures value { as_character result text.now ≡ character encoding (slice_index text.now 0) text.now }
        ensures later { later_of result ≡ later_length encoding (slice_index text.now 0) text.now }
        ensures within { width_of result ≤ length text.now }
        ensures some { 0 < width_of result }
    {
        let first = text[0];
        if is_printable(first) {
            return Front::Same(1);
        }
        match encoding {
            Encoding::Utf8 => match sequence_len(text) {
                0 => Front::Bad(first),
                len => Front::Same(len),
            },
            Encoding::Latin1 if first >= 0xA0 => Front::Latin1(first),
            _ => Front::Bad(first),
        }
    }

    /// How many bytes it takes of the text, from 1 to 4.
    pub fn width(self) -> usize
        ensures { result ≡ width_of self }
    {
        match self {
            Front::Same(len) => len,
            Front::Latin1(_) | Front::Bad(_) => 1,
        }
    }

    /// How many bytes it has in the decoded line, from 1 to 4.
    pub fn size(self) -> usize
        ensures { result ≡ size_of self }
    {
        match self {
            Front::Same(len) => len,
            Front::Latin1(_) => 2,
            Front::Bad(_) => 1,
        }
    }
}
