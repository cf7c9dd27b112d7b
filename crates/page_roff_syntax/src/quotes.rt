//! The first argument of a text (roff(7), "Macro syntax").

ghost use Rattle.std.specs.Prelude.{◌≡◌, ◌≢◌, ◌≤◌, ◌<◌, ◌+◌, ◌^◌, ◌==◌, ◌&&◌, not, length, min, drop, get_or};
ghost use Rattle.std.specs.List.{prefix_len};
ghost use Rattle.page_core_base.specs.Bytes.{begins_quote};
ghost use Rattle.page_roff_syntax.specs.laws.Views.{argument_view};
ghost use Rattle.page_roff_syntax.specs.Arguments.{is_quoted, bare_len, quoted_len, quoted_argument, first_argument, argument_len};

use memchr::memchr2;

/// How an argument is quoted.
#[derive(Clone, Copy)]
pub enum Quoting {
    /// It is not.
    Bare,
    /// It has its last quote. A pair of quotes in its text is one quote.
    Closed,
    /// It ends with its line. A pair of quotes in its text is one quote.
    Unclosed,
}

/// An argument; `W` is a text.
#[derive(Clone, Copy)]
pub struct Argument<W> {
    /// The argument without the quotes around it.
    pub text: W,
    /// The column of the text's first byte.
    pub column: u32,
    pub quoting: Quoting,
}

impl<W> Argument<W> {
    /// Whether a pair of quotes in the text is one quote.
    pub fn is_quoted(&self) -> bool
        ensures { result ≡ is_quoted self.now.quoting }
    {
        !matches!(self.quoting, Quoting::Bare)
    }
}

// The number of bytes before a text's first blank or backslash, or of all of them. Most are few: they are read one by one.
fn unescaped_len(text: &[u8]) -> usize
    ensures value { result ≡ prefix_len (λ byte. not (byte == 32) && not (byte == 92)) text.now }
    ensures within { result ≤ length text.now }
{
    text.iter()
        .take_while(|byte| **byte != b' ' && **byte != b'\\')
        .count()
}

// The number of bytes of an argument without quotes at a text's front.
fn bare_len(text: &[u8]) -> usize
    ensures value { result ≡ bare_len text.now }
    ensures within { result ≤ length text.now }
{
    let mut len = 0;
    while len < text.len() && text[len] != b' ' {
        if text[len] != b'\\' {
            len += unescaped_len(&text[len..]);
        } else if len + 1 < text.len() {
            len += 2;
        } else {
            len += 1;
        }
    }
    len
}

// The number of bytes before a text's first quote or backslash, or of all of them.
fn unquoted_len(text: &[u8]) -> usize
    ensures value { quoted_len text.now ≡ result + quoted_len (drop result text.now) }
    ensures within { result ≤ length text.now }
    ensures some { 0 < length text.now → get_or text.now 0 0 ≢ 34 → get_or text.now 0 0 ≢ 92 → 0 < result }
{
    memchr2(b'"', b'\\', text).unwrap_or(text.len())
}

// The number of bytes that a backslash takes at a place of a quoted argument: its own and the next one, if there is one.
fn pair_len(text: &[u8], at: usize) -> usize
    requires at { at < length text.now }
    requires backslash { get_or text.now at 0 ≡ 92 }
    ensures value { quoted_len (drop at text.now) ≡ result + quoted_len (drop (at + result) text.now) }
    ensures within { at + result ≤ length text.now }
    ensures some { 0 < result }
{
    if at + 1 < text.len() { 2 } else { 1 }
}

// The number of bytes of a quoted argument after its first quote, up to the next lone quote or the end.
fn quoted_len(text: &[u8]) -> usize
    ensures value { result ≡ quoted_len text.now }
    ensures within { result ≤ length text.now }
{
    let mut len = 0;
    while len < text.len() {
        if text[len] == b'\\' {
            len += pair_len(text, len);
        } else if text[len] != b'"' {
            len += unquoted_len(&text[len..]);
        } else if len + 1 < text.len() && text[len + 1] == b'"' {
            len += 2;
        } else {
            return len;
        }
    }
    len
}

// Whether a text begins with a quote.
fn begins_quote(text: &[u8]) -> bool
    ensures { result ≡ begins_quote text.now }
{
    match text {
        [] => false,
        [first, ..] => *first == b'"',
    }
}

// The argument whose first quote is at a column, and whose bytes after it are given; and the number of its bytes
// with its quotes.
fn quoted_argument(inner: &[u8], column: u32) -> (Argument<&[u8]>, usize)
    requires { column + 1 + length inner.now < 2 ^ 32 }
    ensures value { argument_view result.0 ≡ quoted_argument column inner.now }
    ensures len { result.1 ≡ min (length inner.now + 1) (quoted_len inner.now + 2) }
    ensures within { result.0.column + length result.0.text.now ≤ column + 1 + length inner.now }
{
    let len = quoted_len(inner);
    let argument = Argument {
        text: &inner[..len],
        column: column + 1,
        quoting: if len < inner.len() {
            Quoting::Closed
        } else {
            Quoting::Unclosed
        },
    };
    (argument, (inner.len() + 1).min(len + 2))
}

/// The argument that a text begins with, of which the first byte is at a column, and the number of its bytes
/// with its quotes.
pub(crate) fn first_argument(text: &[u8], column: u32) -> (Argument<&[u8]>, usize)
    requires { column + length text.now < 2 ^ 32 }
    ensures value { argument_view result.0 ≡ first_argument column text.now }
    ensures len { result.1 ≡ argument_len text.now }
    ensures size { result.1 ≤ length text.now }
    ensures within { result.0.column + length result.0.text.now ≤ column + length text.now }
{
    if begins_quote(text) {
        return quoted_argument(&text[1..], column);
    }
    let len = bare_len(text);
    let argument = Argument {
        text: &text[..len],
        column,
        quoting: Quoting::Bare,
    };
    (argument, len)
}
