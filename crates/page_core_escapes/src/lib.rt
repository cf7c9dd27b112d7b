//! The escapes of a finished line: roff(7), "Escape sequences", and mandoc_char(7).
//!
//! It is below roff, which finds the escapes that it interpolates, and below the scopes, which read a text token by token.
//!
//! Read first: `escape` below, with the table of letters in `specs/Lengths.antt`; then `read_token` in `tokens.rt`.
//!
//! Proved: `escape`, `read_token`, `Tokens`: what the escape at the front of a text is, and how long it is, by one table of letters (`specs/Lengths.antt`,
//! `Meanings.antt`); the tokens of a text; `tokens_law`: of which there are as many as the text has. `read_font`, `short_font`: the font of a name.
#![tactic(auto)]

ghost use Rattle.std.specs.Prelude.{◌≡◌, ◌+◌, ◌<◌, ◌≤◌, false, length, slice_index, IfSome};
ghost use Rattle.std.specs.Str.{IsUtf8, IsCharBoundary};
ghost use Rattle.page_core_escapes.specs.Lengths.{escape_len};
ghost use Rattle.page_core_escapes.specs.Meanings.{escape_of};
ghost use Rattle.page_core_escapes.specs.laws.Views.{meaning_view, HasTexts};

use extents::{Extent, read_extent};
use meaning::read_meaning;
use page_core_base::LINE;
use quoted::quoted_len;

mod extents;
mod laws;
mod letters;
mod meaning;
mod quoted;
mod token_readers;
mod tokens;

pub use laws::tokens_law;
pub use meaning::{Escape, FontName, read_font};
pub use token_readers::Tokens;
pub use tokens::{Token, begins_word, plain_len, read_token, short_font};

/// The escape at the front of a text, where a backslash is, and how many bytes it takes: roff(7),
/// "Escape sequences". One that has no end takes the rest of the text. What it lends of
/// a text in UTF-8 is in UTF-8, too.
pub fn escape(text: &[u8]) -> (Escape<'_>, usize)
    requires backslash { slice_index text.now 0 ≡ 0x5C }
    requires line { length text.now ≤ LINE }

    ensures meaning { meaning_view result.0 ≡ (escape_of false text.now).0 }
    ensures len { result.1 ≡ (escape_of false text.now).1 }
    ensures some { 0 < result.1 }
    ensures within { result.1 ≤ length text.now }
    ensures whole_characters { IsUtf8 text.now → IsCharBoundary text.now result.1 }
    ensures texts { IsUtf8 text.now → HasTexts (meaning_view result.0) }
{
    read_escape(false, text)
}

// Reads an escape; with `pairs` a pair of quotes is one character, as in a quoted argument of a macro.
fn read_escape(pairs: bool, text: &[u8]) -> (Escape<'_>, usize)
    requires backslash { slice_index text.now 0 ≡ 0x5C }
    requires line { length text.now ≤ LINE }

    ensures meaning { meaning_view result.0 ≡ (escape_of pairs text.now).0 }
    ensures len { result.1 ≡ (escape_of pairs text.now).1 }
    ensures some { 0 < result.1 }
    ensures within { result.1 ≤ length text.now }
{
    match escape_len(pairs, text) {
        Some(len) => (read_meaning(pairs, &text[..len]), len),
        None => (Escape::Bad, text.len()),
    }
}

// The bytes of the escape at a text's front, none where the text ends before it does.
fn escape_len(pairs: bool, text: &[u8]) -> Option<usize>
    requires some { 0 < length text.now }
    requires line { length text.now ≤ LINE }
    ensures value { result ≡ escape_len pairs text.now }
    ensures bound { IfSome result (λ len. len ≤ length text.now) }
{
    match read_extent(pairs, text)? {
        Extent::Whole(len) => Some(len),
        Extent::QuotedFrom(from) => Some(from + quoted_len(pairs, &text[from..])?),
    }
}
