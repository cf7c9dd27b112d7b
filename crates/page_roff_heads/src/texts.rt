//! Texts at their places in a line.

ghost use Rattle.std.specs.Prelude.{◌≡◌, ◌≤◌, ◌+◌, length, IfSome};
ghost use Rattle.page_roff_heads.specs.laws.Views.{placed_view, FitsPlaced, remainder_view};
ghost use Rattle.page_roff_heads.specs.Conditions.{begins_pair, is_some_line, remainder_at, remainder_of};

use page_core_base::LINE;
use page_roff_syntax::blank_len;

/// A text that is at a column of its line; `W` is a text.
#[derive(Clone, Copy)]
pub struct Placed<W> {
    pub text: W,
    /// The column of the text's first byte.
    pub column: u32,
}

/// Whether a text begins with the pair of a backslash and this byte.
pub(crate) fn begins_pair(key: u8, text: &[u8]) -> bool
    ensures { result ≡ begins_pair key text.now }
{
    match text {
        [first, second, ..] => *first == b'\\' && *second == key,
        _ => false,
    }
}

// Whether a text is a line of its own: neither empty nor a comment.
fn is_some_line(text: &[u8]) -> bool
    ensures { result ≡ is_some_line text.now }
{
    match text {
        [] => false,
        [b'\\', b'"' | b'#', ..] => false,
        _ => true,
    }
}

// The remainder that begins at a column, if it is a line.
fn remainder_at(text: &[u8], column: u32) -> Option<Placed<&[u8]>>
    ensures { remainder_view result ≡ remainder_at column text.now }
{
    if is_some_line(text) {
        Some(Placed { text, column })
    } else {
        None
    }
}

/// The remainder of a line, without the blanks before it: a line of its own, unless it is empty or a comment. The
/// first byte is at a column.
#[tactic(auto, unfolding(crate::specs::Conditions::remainder_of))]
pub fn remainder(text: &[u8], column: u32) -> Option<Placed<&[u8]>>
    requires short { length text.now ≤ LINE }
    requires room { column + length text.now ≤ LINE + 1 }
    ensures value { remainder_view result ≡ remainder_of column text.now }
    ensures fits { IfSome result (λ line. FitsPlaced (placed_view line)) }
{
    let blanks = blank_len(text);
    remainder_at(&text[blanks..], column + blanks as u32)
}
