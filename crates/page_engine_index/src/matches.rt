//! When a word matches a name of an entry (whatis(1)).

ghost use Rattle.std.specs.Prelude.{◌≡◌, ◌+◌, ◌<◌, ◌≤◌, length};
ghost use Rattle.page_engine_index.specs.Matches.{begins_blank, begins_word, ends_name, has_match, is_match, is_word_byte, matches_here};
ghost use Rattle.page_engine_index.specs.machine.Steps.{name_len};

/// Whether a word matches one of the names, which are separated by `, ` (whatis(1)).
pub(crate) fn has_match(word: &[u8], names: &[u8]) -> bool
    ensures { result ≡ has_match word.now names.now }
{
    let mut rest = names;
    loop {
        let (name, after) = rest.split_at(name_len(rest));
        if is_match(word, name) {
            return true;
        }
        if after.len() < 2 {
            return false;
        }
        rest = &after[2..];
    }
}

// The bytes of the first of the names, up to a comma and a blank.
fn name_len(names: &[u8]) -> usize
    ensures value { result ≡ name_len names.now }
    ensures bound { result ≤ length names.now }
    ensures room { result < length names.now → result + 2 ≤ length names.now }
{
    let mut rest = names;
    while let Some((byte, after)) = rest.split_first() {
        if ends_name(*byte, after) {
            return names.len() - rest.len();
        }
        rest = after;
    }
    names.len()
}

// Whether a byte and those after it are a comma and a blank.
fn ends_name(byte: u8, after: &[u8]) -> bool
    ensures { result ≡ ends_name byte after.now }
{
    byte == b',' && begins_blank(after)
}

// Whether a blank is at the front of a text.
fn begins_blank(text: &[u8]) -> bool
    ensures { result ≡ begins_blank text.now }
{
    match text.first() {
        Some(byte) => *byte == b' ',
        None => false,
    }
}

// Whether a word occurs in a name, but for the case of letters, with no letter, digit or underscore on either side.
fn is_match(word: &[u8], name: &[u8]) -> bool
    ensures { result ≡ is_match word.now name.now }
{
    let mut before = false;
    let mut rest = name;
    while let Some((byte, after)) = rest.split_first() {
        if matches_here(word, before, rest) {
            return true;
        }
        before = is_word_byte(*byte);
        rest = after;
    }
    matches_here(word, before, rest)
}

// The same at the front of a text, after a byte that is one of a word or not.
fn matches_here(word: &[u8], before: bool, text: &[u8]) -> bool
    ensures { result ≡ matches_here word.now before text.now }
{
    if before || text.len() < word.len() {
        return false;
    }
    let (found, after) = text.split_at(word.len());
    found.eq_ignore_ascii_case(word) && !begins_word(after)
}

// Whether a letter, a digit or an underscore is at the front of a text.
fn begins_word(text: &[u8]) -> bool
    ensures { result ≡ begins_word text.now }
{
    match text.first() {
        Some(byte) => is_word_byte(*byte),
        None => false,
    }
}

// Whether a byte is a letter or a digit of ASCII, or an underscore.
fn is_word_byte(byte: u8) -> bool
    ensures { result ≡ is_word_byte byte }
{
    byte.is_ascii_alphanumeric() || byte == b'_'
}
