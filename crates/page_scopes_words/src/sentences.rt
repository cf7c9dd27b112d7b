//! Sentences that end with their line (roff(7), "Sentences").

ghost use Rattle.std.specs.Prelude.{◌≡◌, if◌then◌else◌};
ghost use Rattle.page_core_base.specs.Bytes.{is_white};
ghost use Rattle.page_roff_syntax.specs.Delimiters.{kept};
ghost use Rattle.page_scopes_words.specs.Words.{ends_with, is_closer, is_end, ends_sentence};

use page_roff_syntax::{is_white, kept_len};

// Whether a byte ends a sentence.
fn is_end(byte: u8) -> bool
    ensures { result ≡ is_end byte }
{
    byte == b'.' || byte == b'!' || byte == b'?'
}

// Whether a byte may be after a sentence's end.
fn is_closer(byte: u8) -> bool
    ensures { result ≡ is_closer byte }
{
    (byte == b')' || byte == b']') || (byte == b'\'' || byte == b'"')
}

// Whether a text ends with a byte that ends a sentence.
fn ends_with_end(text: &[u8]) -> bool
    ensures { result ≡ ends_with is_end text.now }
{
    match text.last() {
        Some(last) => is_end(*last),
        None => false,
    }
}

// A text without the blanks at its end.
fn without_blanks(ends_blank: bool, text: &[u8]) -> &[u8]
    ensures { result.now ≡ (if ends_blank then kept is_white text.now else text.now) }
{
    if ends_blank {
        &text[..kept_len(text, |byte| is_white(byte))]
    } else {
        text
    }
}

/// Whether a text ends with a sentence. `ends_blank` says whether white space ends it: a blank there can be an escape's, too, and then it
/// is the last byte of the text's last word.
#[inline(always)]
pub fn ends_sentence(ends_blank: bool, text: &[u8]) -> bool
    ensures { result ≡ ends_sentence ends_blank text.now }
{
    let line = without_blanks(ends_blank, text);
    ends_with_end(&line[..kept_len(line, |byte| is_closer(byte))])
}
