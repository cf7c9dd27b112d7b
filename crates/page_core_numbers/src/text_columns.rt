//! The columns of a finished text: mandoc_char(7); roff(7), "Escape sequences". It is read escape by escape, and the expressions in `\h`
//! (`expressions`) count.

ghost use Rattle.std.specs.Prelude.{◌*◌, ◌++◌, ◌≡◌, ◌≤◌, ◌<◌, length, take, slice_index, encode_utf8, MatchOption, true, false};
ghost use Rattle.std.specs.Str.{IsUtf8};
ghost use Rattle.page_core_base.specs.Bytes.{ascii};
ghost use Rattle.page_core_escapes.specs.laws.Views.{meaning_view};
ghost use Rattle.page_core_tables.specs.Glyphs.{prints_ascii, by_spelling, char_printed, spelling_of};
ghost use Rattle.page_core_tables.specs.laws.Views.{printed_view};
ghost use Rattle.page_core_numbers.specs.laws.Views.{BeginsWith};
ghost use Rattle.page_core_numbers.specs.Columns.{characters_columns, printed_escape, blanks_in, columns_of};
ghost use Rattle.page_core_numbers.specs.machine.Signs.{Front, Past, is_plain, are_plain};

use crate::expressions::read_expression;
use crate::scales::Scale;
use page_core_base::{LINE, Output, PARENS};
use page_core_escapes::{Escape, escape};
use page_core_tables::{Printed, char_columns, printed_char, printed_glyph, spelling};

// The columns of `\h` at most.
const WIDEST: u32 = 1000;

// The basic units of a column.
const COLUMN: u32 = 24;

// The last character that has a spelling in ASCII.
const LAST_SPELLED: char = '\u{27E9}';

// The columns of `<?>`.
const UNSPELLED: u32 = 3;

// The bytes that are tested at a time.
const GROUP: usize = 32;

// The columns of a spelling.
fn spelling_columns(spelling: &str) -> u32
    requires { length spelling.now ≤ 8 }
    ensures value { result ≡ characters_columns spelling.now }
    ensures bound { result ≤ 24 }
{
    let mut sum = 0u32;
    for byte in spelling.as_bytes() {
        sum += char_columns(*byte as char);
    }
    sum
}

/// The columns of what a character or a glyph prints.
pub fn printed_columns(printed: Printed<'_>) -> u32
    requires { length (printed_view printed).characters ≤ 8 }
    ensures value { result ≡ characters_columns (printed_view printed.entry).characters }
    ensures bound { result ≤ 24 }
{
    match printed {
        Printed::Char(c) => char_columns(c),
        Printed::Spelling(spelling) => spelling_columns(spelling),
        Printed::NoSpelling(_) | Printed::NoGlyph(_) => spelling_columns("<?>"),
    }
}

// The blanks that a number of basic units is worth, one a column.
fn blanks_in(units: i32) -> u32
    ensures value { result ≡ blanks_in units }
    ensures bound { result ≤ WIDEST }
{
    if units <= 0 {
        return 0;
    }
    (units as u32 / COLUMN).min(WIDEST)
}

/// The columns of what an escape prints.
pub fn escape_columns(escape: Escape<'_>, output: Output) -> u32
    ensures value { result ≡ characters_columns (printed_escape output (meaning_view escape.entry)) }
    ensures bound { result ≤ WIDEST }
{
    match escape {
        Escape::Glyph(name) => printed_columns(printed_glyph(output, name)),
        Escape::Char(c) => printed_columns(printed_char(output, c)),
        Escape::Undefined(c) => printed_columns(printed_char(output, c)),
        Escape::Tab | Escape::Blank => 1,
        Escape::Blanks(expression) => {
            blanks_in(read_expression(expression, Scale::Em, PARENS).value)
        }
        Escape::Nothing | Escape::Glue | Escape::Font(_) | Escape::Unsupported | Escape::Bad => 0,
    }
}

// Whether a byte is a character of one column by itself: printable ASCII, and no backslash.
#[inline(always)]
fn is_plain(byte: u8) -> bool
    ensures { result ≡ is_plain byte }
{
    b' ' <= byte && byte <= b'~' && byte != b'\\'
}

// Whether bytes are so. All of them are read, so that the compiler can test many at once.
#[inline(always)]
fn are_plain(bytes: &[u8]) -> bool
    ensures { result ≡ are_plain bytes.now }
{
    let mut all = true;
    for byte in bytes {
        all &= is_plain(*byte);
    }
    all
}

// How many bytes at a text's front are so, in whole groups.
#[inline(always)]
fn groups_len(text: &[u8]) -> usize
    ensures within { result ≤ length text.now }
    ensures plain { are_plain (take result text.now) ≡ true }
{
    let mut at = 0;
    while GROUP <= text.len() - at && are_plain(&text[at..at + GROUP]) {
        at += GROUP;
    }
    at
}

// How many bytes at a text's front are so. It is the place of a backslash, or of a character above ASCII or below blanks, or the text's end.
fn plain_len(text: &[u8]) -> usize
    ensures within { result ≤ length text.now }
    ensures plain { are_plain (take result text.now) ≡ true }
    ensures all { result < length text.now → is_plain (slice_index text.now result) ≡ false }
{
    let mut at = groups_len(text);
    while at < text.len() && is_plain(text[at]) {
        at += 1;
    }
    at
}

// The columns of the escape at a text's front, and how many bytes it takes.
#[inline(never)]
fn escape_front(text: &[u8], output: Output) -> (u32, usize)
    requires utf8 { IsUtf8 text.now }
    requires first { BeginsWith text.now (ascii "\\") }
    requires line { length text.now ≤ LINE }
    ensures { Front output text.now result.0 result.1 }
{
    let (found, len) = escape(text);
    (escape_columns(found, output), len)
}

// The columns of the spelling of a character above ASCII. CJK is above all that have one.
fn spelled_columns(c: char) -> u32
    requires { 128 ≤ c }
    ensures value { result ≡ characters_columns (by_spelling (spelling_of c) c).characters }
    ensures bound { result ≤ 8 }
{
    if c > LAST_SPELLED {
        return UNSPELLED;
    }
    let spelling = spelling(c);
    if spelling.is_empty() {
        return UNSPELLED;
    }
    spelling.len() as u32
}

// The columns of what a character prints, without the detour of what that is.
#[inline(always)]
fn character_columns(output: Output, c: char) -> u32
    ensures value { result ≡ characters_columns (char_printed output c).characters }
    ensures bound { result ≤ 24 }
{
    match c {
        '\t' | '\u{A0}' => 1,
        ' '..='~' => 1,
        '\0'..'\u{A0}' => UNSPELLED,
        _ if prints_ascii(output) => spelled_columns(c),
        _ => char_columns(c),
    }
}

// Whether characters above ASCII are spelled in ASCII.
#[inline(always)]
fn prints_ascii(output: Output) -> bool
    ensures { result ≡ prints_ascii output }
{
    !matches!(output, Output::Utf8)
}

// The first character of a text, and what follows it.
#[inline(always)]
fn split_first(text: &str) -> Option<(char, &str)>
    ensures { MatchOption result (length text.now ≡ 0) (λ found. text.now ≡ encode_utf8 found.0 ++ found.1.now) }
{
    let mut chars = text.chars();
    let first = chars.next()?;
    Some((first, chars.as_str()))
}

// The columns of the front of a text (an escape, characters of one column each, or a character), and the text that follows it;
// `after` is what follows the first character.
#[inline(always)]
fn front_columns<'a>(text: &'a str, first: char, after: &'a str, output: Output) -> (u32, &'a str)
    requires first { text.now ≡ encode_utf8 first ++ after.now }
    requires line { length text.now ≤ LINE }
    ensures { Past output text.now result.0 result.1.now }
{
    match first {
        '\\' => {
            let (columns, len) = escape_front(text.as_bytes(), output);
            (columns, &text[len..])
        }
        ' '..='~' => {
            let len = plain_len(text.as_bytes());
            (len as u32, &text[len..])
        }
        _ => (character_columns(output, first), after),
    }
}

// The columns of a text.
fn text_columns(text: &str, output: Output) -> u32
    requires { length text.now ≤ LINE }
    ensures value { result ≡ columns_of output text.now }
    ensures bound { result ≤ 1000 * length text.now }
{
    let mut sum = 0u32;
    let mut rest = text;
    while let Some((first, after)) = split_first(rest) {
        let (columns, left) = front_columns(rest, first, after, output);
        sum += columns;
        rest = left;
    }
    sum
}

/// The columns of what a finished text prints: mandoc_char(7); roff(7), "Escape sequences". A character has the columns that
/// `unicode_width` gives it, or none. In ASCII, and where messages alone are wanted, a character above ASCII has those of its
/// spelling; `<?>` stands for what has none, and for a glyph that there is not. A tab counts as a blank. `\h` has 0 to 1,000.
pub fn columns(text: &[u8], output: Output) -> u32
    requires utf8 { IsUtf8 text.now }
    requires line { length text.now ≤ LINE }
    ensures value { result ≡ columns_of output text.now }
    ensures bound { result ≤ 1000 * length text.now }
{
    // Safety: the text is in UTF-8, as the contract requires, and each call is proved to keep that.
    text_columns(unsafe { str::from_utf8_unchecked(text) }, output)
}
