//! Where the last word of a text is: white space that no word follows is reported there (roff(7), "LANGUAGE SYNTAX").

ghost use Rattle.std.specs.Prelude.{◌≡◌, ◌≤◌, ◌<◌, ◌+◌, ◌^◌, false, if◌then◌else◌, length};
ghost use Rattle.page_core_base.specs.Bytes.{begins_white};
ghost use Rattle.page_core_escapes.specs.Tokens.{tokens_len};
ghost use Rattle.page_core_escapes.specs.laws.Views.{begins_word};
ghost use Rattle.page_scopes_text.specs.Texts.{words_of};
ghost use Rattle.page_scopes_text.specs.Texts as texts;

use page_core_base::LINE;
use page_core_escapes::{begins_word, read_token};
use std::marker::Model;

// What is left of a text after the word at its front, which is empty where white space is there.
fn after_word(quoted: bool, text: &[u8]) -> &[u8]
    requires { length text.now ≤ LINE }
    ensures len { length result.now + tokens_len (words_of quoted text.now).word ≡ length text.now }
    ensures ends { begins_word result.now ≡ false }
    ensures others { (words_of quoted result.now).others ≡ (words_of quoted text.now).others }
{
    let mut rest = text;
    while begins_word(rest) {
        rest = &rest[read_token(quoted, rest).len()..];
    }
    rest
}

// The column of the word at a text's front; where white space is there, that of the last word before it.
fn first_column(column: u32, last: u32, text: &[u8]) -> u32
    ensures { result ≡ (if begins_white text.now then last else column) }
{
    if text.is_empty() || begins_word(text) {
        column
    } else {
        last
    }
}

/// The column of the last word of a text at a column; where it is white space alone, that of the last word before it.
pub fn last_word(quoted: bool, column: u32, last: u32, text: &[u8]) -> u32
    requires short { length text.now ≤ LINE }
    requires room { column + length text.now < 2 ^ 32 }
    ensures { result ≡ texts.last_word column last (words_of quoted text.now) }
{
    let mut found = first_column(column, last, text);
    let mut rest = after_word(quoted, text);
    while !rest.is_empty() {
        let word = &rest[read_token(quoted, rest).len()..];
        rest = after_word(quoted, word);
        if begins_word(word) {
            found = column + (text.len() - word.len()) as u32;
        }
    }
    found
}

/// A text from its front. Contracts see the column of its last word.
#[derive(Drop)]
pub(crate) struct Front<'a> {
    quoted: bool,
    text: &'a [u8],
    column: u32,
    // The column of the last word before it.
    last: u32,
}

impl<'a> Model for Front<'a> {
    ghost use Rattle.std.specs.Prelude.{ℕ, ◌≤◌, ◌<◌, ◌+◌, ◌^◌, length};

    ghost Value = { ℕ };

    ghost use Rattle.page_core_base.specs.declared.limits.TheConstants.{LINE};
    ghost use Rattle.page_scopes_text.specs.Texts.{words_of, last_word};

    ghost view = { λ f. last_word f.column f.last (words_of f.quoted f.text.now) };

    ghost invariant = { λ f. (length f.text.now ≤ LINE) × (f.column + length f.text.now < 2 ^ 32) };
}

impl<'a> Front<'a> {
    /// A text at a column, and the column of the last word before it.
    pub(crate) fn new(quoted: bool, column: u32, last: u32, text: &'a [u8]) -> Front<'a>
        requires short { length text.now ≤ LINE }
        requires room { column + length text.now < 2 ^ 32 }
        ensures { result ≡ texts.last_word column last (words_of quoted text.now) }
    {
        Front {
            quoted,
            text,
            column,
            last,
        }
    }

    /// The column of its last word.
    pub(crate) fn last_word(&self) -> u32
        ensures { result ≡ self.now }
    {
        last_word(self.quoted, self.column, self.last, self.text)
    }
}
