//! The parts of a word: a row may end after a hyphen between two letters (roff(7), "Filling and adjusting").

ghost use Rattle.std.specs.Prelude.{◌≡◌, ◌<◌, ◌≤◌, false, ◌==◌, ◌∷◌, length, take, drop};
ghost use Rattle.page_core_base.specs.Rows.{starts_with_letter, ends_part, parts_of};

const HYPHEN: u8 = b'-';

// Whether a text begins with a letter.
#[inline(always)]
fn starts_with_letter(text: &[u8]) -> bool
    ensures { result ≡ starts_with_letter text.now }
{
    !text.is_empty() && text[0].is_ascii_alphabetic()
}

// Whether a part ends after a byte, between the one before it and those after it.
#[inline(always)]
fn ends_part(before: u8, byte: u8, after: &[u8]) -> bool
    ensures { result ≡ ends_part before byte after.now }
{
    byte == HYPHEN && before.is_ascii_alphabetic() && starts_with_letter(after)
}

/// How many bytes the first part of a word has.
pub fn first_part_len(word: &[u8]) -> usize
    requires some { (length word.now == 0) ≡ false }
    ensures first { parts_of word.now ≡ take result word.now ∷ parts_of (drop result word.now) }
    ensures some { 0 < result }
    ensures within { result ≤ length word.now }
{
    let mut len = 0;
    let mut before = HYPHEN;
    while len < word.len() {
        let byte = word[len];
        len += 1;
        if ends_part(before, byte, &word[len..]) {
            return len;
        }
        before = byte;
    }
    len
}
