//! Conditions as they are written (roff(7), "Conditional expressions").

ghost use Rattle.std.specs.Prelude.{◌≡◌, ◌≤◌, ◌<◌, ◌+◌, ◌^◌, length, IsTrue};
ghost use Rattle.std.specs.List.{prefix_len};
ghost use Rattle.page_roff_syntax.specs.Arguments.{blank_len};
ghost use Rattle.page_roff_syntax.specs.LineForms.{is_name, without_comment};
ghost use Rattle.page_roff_heads.specs.Conditions as written;
ghost use Rattle.page_roff_heads.specs.laws.Views.{read_view, test_view, condition_view, FitsTest};
ghost use Rattle.page_roff_heads.specs.declared.conditions.ConditionKind.TheVariants as kinds;
ghost use Rattle.page_roff_heads.specs.declared.conditions.Test.TheVariants as tests;

use crate::expressions::expression_len;
use crate::texts::Placed;
use page_core_base::LINE;
use page_roff_syntax::{blank_len, character_len, is_white, place_of, uncommented_len};

/// What a condition asks; `W` is a text.
#[derive(Clone, Copy)]
pub enum Test<W> {
    /// A letter that is always true, `n` or `o`, or always false, `t`, `e` or `v`.
    Always(bool),
    /// Another letter.
    Unknown(W),
    /// Whether this is the name of a string, macro or request.
    IsDefined(W),
    /// Whether this is the name of a register.
    IsRegister(W),
    /// Whether this expression is above 0.
    Expression(Placed<W>),
    /// Whether two texts are equal.
    Texts { first: Placed<W>, second: Placed<W> },
    /// Nothing, or a delimiter is missing: the condition is false, whatever turns it.
    Missing,
}

/// A condition.
#[derive(Clone, Copy)]
pub struct Condition<W> {
    /// The column of its first byte.
    pub column: u32,
    /// Whether `!` turns its test.
    pub is_turned: bool,
    pub test: Test<W>,
}

/// What a test is, by its first byte.
#[derive(Clone, Copy)]
pub(crate) enum ConditionKind {
    True,
    False,
    Defined,
    Register,
    Expression,
    Letter,
    Delimiter,
}

/// A test, and the number of its bytes.
#[derive(Clone, Copy)]
pub(crate) struct TestRead<W> {
    pub(crate) test: Test<W>,
    pub(crate) len: usize,
}

#[tactic(auto, unfolding(crate::specs::Conditions::kind_of))]
fn kind_of(byte: u8) -> ConditionKind
    ensures { result ≡ written.kind_of byte }
{
    match byte {
        b'n' | b'o' => ConditionKind::True,
        b't' | b'e' | b'v' => ConditionKind::False,
        b'd' => ConditionKind::Defined,
        b'r' => ConditionKind::Register,
        b'0'..=b'9' | b'(' | b'\\' | b'+' | b'-' | b'.' => ConditionKind::Expression,
        b'A'..=b'Z' | b'a'..=b'z' => ConditionKind::Letter,
        _ => ConditionKind::Delimiter,
    }
}

// A name after blanks, and how many bytes both have.
fn name_after(text: &[u8]) -> (&[u8], usize)
    ensures name { result.0.now ≡ written.name_after text.now }
    ensures len { result.1 ≡ blank_len text.now + written.name_len text.now }
    ensures within { result.1 ≤ length text.now }
    ensures short { length result.0.now ≤ length text.now }
{
    let blanks = blank_len(text);
    let named = &text[blanks..];
    let len = name_len(named);
    (&named[..len], blanks + len)
}

// The number of bytes of the name at a text's front.
fn name_len(text: &[u8]) -> usize
    ensures value { result ≡ prefix_len is_name text.now }
    ensures within { result ≤ length text.now }
{
    text.iter()
        .take_while(|byte| !(is_white(**byte) || **byte == b'\\'))
        .count()
}

// A test of one letter.
fn letter(test: Test<&[u8]>) -> TestRead<&[u8]>
    ensures { read_view result ≡ written.reads (test_view test.entry) 1 }
{
    TestRead { test, len: 1 }
}

// A test of a letter and a name after it.
fn named(test: Test<&[u8]>, len: usize) -> TestRead<&[u8]>
    requires { len < 2 ^ 63 }
    ensures { read_view result ≡ written.reads (test_view test.entry) (1 + len) }
{
    TestRead { test, len: 1 + len }
}

// The number of `!` at a text's front.
fn turn_len(text: &[u8]) -> usize
    ensures value { result ≡ written.turn_len text.now }
    ensures within { result ≤ length text.now }
{
    text.iter().take_while(|byte| **byte == b'!').count()
}

// No condition: it takes the whole rest of a line.
fn missing(text: &[u8]) -> TestRead<&[u8]>
    ensures { read_view result ≡ written.reads tests.Missing (length text.now) }
{
    TestRead {
        test: Test::Missing,
        len: text.len(),
    }
}

// Two texts after the first delimiter.
fn texts_after<'a>(delimiter: &[u8], text: &'a [u8], column: u32) -> TestRead<&'a [u8]>
    requires short { length text.now ≤ LINE }
    requires room { column + length text.now ≤ LINE + 1 }
    ensures value { read_view result ≡ written.texts_after delimiter.now column text.now }
    ensures within { result.len ≤ length text.now }
    ensures fits { FitsTest (test_view result.test) }
{
    let end = place_of(delimiter, text);
    if end == text.len() {
        return missing(text);
    }
    let start = end + delimiter.len();
    let second = &text[start..];
    let second_end = place_of(delimiter, second);
    if second_end == second.len() {
        return missing(text);
    }
    TestRead {
        test: Test::Texts {
            first: Placed {
                text: &text[..end],
                column,
            },
            second: Placed {
                text: &second[..second_end],
                column: column + start as u32,
            },
        },
        len: start + second_end + delimiter.len(),
    }
}

// Two texts with their delimiters.
fn read_texts(text: &[u8], column: u32) -> TestRead<&[u8]>
    requires short { length text.now ≤ LINE }
    requires room { column + length text.now ≤ LINE + 1 }
    ensures value { read_view result ≡ written.texts_at column text.now }
    ensures within { result.len ≤ length text.now }
    ensures fits { FitsTest (test_view result.test) }
{
    let len = character_len(text);
    let (delimiter, rest) = text.split_at(len);
    let read = texts_after(delimiter, rest, column + len as u32);
    TestRead {
        test: read.test,
        len: len + read.len,
    }
}

// An expression at a column.
fn read_expression(text: &[u8], column: u32) -> TestRead<&[u8]>
    requires short { length text.now ≤ LINE }
    requires room { column + length text.now ≤ LINE + 1 }
    ensures value { read_view result ≡ written.read_kind kinds.Expression column text.now }
    ensures within { result.len ≤ length text.now }
    ensures fits { FitsTest (test_view result.test) }
{
    let len = expression_len(text);
    TestRead {
        test: Test::Expression(Placed {
            text: &text[..len],
            column,
        }),
        len,
    }
}

// A test of a kind, of which the first byte is at a column.
fn read_kind(kind: ConditionKind, text: &[u8], column: u32) -> TestRead<&[u8]>
    requires some { 0 < length text.now }
    requires short { length text.now ≤ LINE }
    requires room { column + length text.now ≤ LINE + 1 }
    ensures value { read_view result ≡ written.read_kind kind column text.now }
    ensures within { result.len ≤ length text.now }
    ensures fits { FitsTest (test_view result.test) }
{
    let (name, len) = name_after(&text[1..]);
    match kind {
        ConditionKind::True => letter(Test::Always(true)),
        ConditionKind::False => letter(Test::Always(false)),
        ConditionKind::Letter => letter(Test::Unknown(&text[..1])),
        ConditionKind::Defined => named(Test::IsDefined(name), len),
        ConditionKind::Register => named(Test::IsRegister(name), len),
        ConditionKind::Expression => read_expression(text, column),
        ConditionKind::Delimiter => read_texts(text, column),
    }
}

// The test at a text's front, of which the first byte is at a column.
#[tactic(auto, unfolding(crate::specs::Conditions::read_test))]
fn read_test(text: &[u8], column: u32) -> TestRead<&[u8]>
    requires short { length text.now ≤ LINE }
    requires room { column + length text.now ≤ LINE + 1 }
    ensures value { read_view result ≡ written.read_test column text.now }
    ensures within { result.len ≤ length text.now }
    ensures fits { FitsTest (test_view result.test) }
{
    match text {
        [] => missing(text),
        [first, ..] => read_kind(kind_of(*first), text, column),
    }
}

/// The condition at a text's front, and how many bytes it takes. Its first byte is at a column.
#[tactic(auto, unfolding(crate::specs::Conditions::condition_of, crate::specs::Conditions::condition_len))]
pub fn read_condition(text: &[u8], column: u32) -> (Condition<&[u8]>, usize)
    requires short { length text.now ≤ LINE }
    requires room { column + length text.now ≤ LINE + 1 }
    ensures value { condition_view result.0 ≡ written.condition_of column text.now }
    ensures len { result.1 ≡ written.condition_len column text.now }
    ensures within { result.1 ≤ length text.now }
    ensures fits { FitsTest (test_view result.0.test) }
{
    let turns = turn_len(text);
    let read = read_test(&text[turns..], column + turns as u32);
    let condition = Condition {
        column,
        is_turned: turns % 2 == 1,
        test: read.test,
    };
    (condition, turns + read.len)
}

// The bytes that are looked at beyond a condition: what follows them decides nothing of it.
const AHEAD: usize = 3;

// Whether a text has no comment in its first bytes, this many and some more.
fn is_uncommented(text: &[u8], len: usize) -> bool
    requires { len ≤ length text.now }
    ensures { IsTrue result → len + 1 < length (without_comment text.now) }
{
    let end = len + AHEAD;
    end <= text.len() && uncommented_len(&text[..end]) == end
}

/// The condition at the front of a text that may have a comment, before which it ends, and how many bytes
/// it takes. Its first byte is at a column. Only where it may reach to the comment it is read once more, up to
/// the comment: a line of many heads is looked through once.
pub(crate) fn read_before_comment(text: &[u8], column: u32) -> (Condition<&[u8]>, usize)
    requires short { length text.now ≤ LINE }
    requires room { column + length text.now ≤ LINE + 1 }
    ensures value { condition_view result.0 ≡ written.condition_of column (without_comment text.now) }
    ensures len { result.1 ≡ written.condition_len column (without_comment text.now) }
    ensures within { result.1 ≤ length text.now }
    ensures fits { FitsTest (test_view result.0.test) }
{
    let (condition, len) = read_condition(text, column);
    if is_uncommented(text, len) {
        return (condition, len);
    }
    read_condition(&text[..uncommented_len(text)], column)
}
