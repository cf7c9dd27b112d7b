//! How many bytes a quoted argument takes.
ghost use Rattle.std.specs.Prelude.{◌≡◌, ◌+◌, ◌<◌, ◌≤◌, length, nat_eq, IfSome, IfOk, IsOk, option_and_then};
ghost use Rattle.std.specs.List.{prefix_len, starts_with};
ghost use Rattle.page_core_escapes.specs.Lengths.{written_len, extent_of, quoted_len, content_len};
ghost use Rattle.page_core_escapes.specs.machine.Steps.{first_character, is_inner, opening_of, step_of, step_over, StepFits};

use crate::extents::{Extent, read_extent, written_len};
use arrayvec::ArrayVec;
use page_core_base::LINE;

// The places that are kept first, as a function pays for all of them, and one more than the arguments that can be inside one another on a
// line: each takes three bytes at least.
const FEW: usize = 256;

const NESTING: usize = 21_846;

// More arguments are inside one another than there are places for.
struct TooDeep;

/// What is read in a quoted argument.
#[derive(Clone, Copy)]
pub(crate) enum Step {
    /// This many bytes that belong to it.
    Passes(usize),
    /// An argument inside it: after the first number of bytes comes its delimiter, of as many bytes as the second says.
    Opens(usize, usize),
    /// The delimiter at its end, of this many bytes.
    Closes(usize),
}

// The first character of a text, as it is written.
fn first_character(pairs: bool, text: &[u8]) -> &[u8]
    ensures { result.now ≡ first_character pairs text.now }
{
    &text[..written_len(pairs, text).unwrap_or(0)]
}

// Whether a text begins with a delimiter, which mostly is one byte.
#[inline(always)]
fn begins_with(text: &[u8], delimiter: &[u8]) -> bool
    requires { 0 < length text.now }
    ensures { result ≡ starts_with nat_eq text.now delimiter.now }
{
    if delimiter.len() == 1 {
        return delimiter[0] == text[0];
    }
    text.starts_with(delimiter)
}

// What is read next in an argument with this delimiter, none where an escape there has no end. A backslash begins an escape, also where it
// is the delimiter.
fn next_step(pairs: bool, delimiter: &[u8], text: &[u8]) -> Option<Step>
    ensures value { result ≡ step_of pairs delimiter.now text.now }
    ensures bound { IfSome result (StepFits (length text.now)) }
{
    if *text.first()? == b'\\' {
        return escape_step(pairs, text);
    }
    if begins_with(text, delimiter) {
        return Some(Step::Closes(delimiter.len()));
    }
    Some(Step::Passes(1))
}

// The step over an escape, or into its argument.
fn escape_step(pairs: bool, text: &[u8]) -> Option<Step>
    requires { 0 < length text.now }
    ensures value { result ≡ option_and_then (step_over pairs text.now) (extent_of pairs text.now) }
    ensures bound { IfSome result (StepFits (length text.now)) }
{
    match read_extent(pairs, text)? {
        Extent::Whole(len) => Some(Step::Passes(len)),
        Extent::QuotedFrom(from) => opening(pairs, text, from),
    }
}

// The step into an argument that begins after `from` bytes.
fn opening(pairs: bool, text: &[u8], from: usize) -> Option<Step>
    requires after_letter { 2 ≤ from }
    requires inside { from ≤ length text.now }
    ensures value { result ≡ opening_of pairs text.now from }
    ensures bound { IfSome result (StepFits (length text.now)) }
{
    let mark = written_len(pairs, &text[from..])?;
    Some(Step::Opens(from, mark))
}

// Whether a byte begins neither an escape nor a delimiter, of which this is the first byte.
#[inline(always)]
fn is_inner(delimiter: u8, byte: u8) -> bool
    ensures { result ≡ is_inner delimiter byte }
{
    byte != b'\\' && byte != delimiter
}

// How many bytes at a text's front begin neither an escape nor a delimiter, of which this is the first byte.
#[inline(always)]
fn inner_len(delimiter: u8, text: &[u8]) -> usize
    ensures value { result ≡ prefix_len (is_inner delimiter) text.now }
    ensures within { result ≤ length text.now }
{
    text.iter()
        .take_while(|byte| is_inner(delimiter, **byte))
        .count()
}

/// The bytes of a quoted argument with its delimiters: it begins with any character and ends at its next occurrence outside
/// escapes. None where it has no end.
pub(crate) fn quoted_len(pairs: bool, text: &[u8]) -> Option<usize>
    requires { length text.now ≤ LINE }
    ensures value { result ≡ quoted_len pairs (content_len pairs) text.now }
    ensures bound { IfSome result (λ len. len ≤ length text.now) }
{
    let mut at = written_len(pairs, text)?;
    let delimiter = &text[..at];
    loop {
        at += inner_len(text[0], &text[at..]);
        match next_step(pairs, delimiter, &text[at..])? {
            Step::Passes(len) => at += len,
            Step::Opens(_, _) => return nested_len(pairs, text),
            Step::Closes(len) => return Some(at + len),
        }
    }
}

// The length of a quoted argument with arguments inside it: a few places are enough for nearly all.
fn nested_len(pairs: bool, text: &[u8]) -> Option<usize>
    requires { length text.now ≤ LINE }
    ensures value { result ≡ quoted_len pairs (content_len pairs) text.now }
    ensures bound { IfSome result (λ len. len ≤ length text.now) }
{
    match nested_len_in::<FEW>(pairs, text) {
        Ok(len) => len,
        Err(TooDeep) => deep_len(pairs, text),
    }
}

// The length of a quoted argument with many arguments inside one another.
fn deep_len(pairs: bool, text: &[u8]) -> Option<usize>
    requires { length text.now ≤ LINE }
    ensures value { result ≡ quoted_len pairs (content_len pairs) text.now }
    ensures bound { IfSome result (λ len. len ≤ length text.now) }
{
    match nested_len_in::<NESTING>(pairs, text) {
        Ok(len) => len,
        Err(TooDeep) => None,
    }
}

// The length of a quoted argument, with places for the delimiters of the arguments that are open, from the outside in. Only a call that needs
// these places pays for them.
#[inline(never)]
fn nested_len_in<const PLACES: usize>(pairs: bool, text: &[u8]) -> Result<Option<usize>, TooDeep>
    requires line { length text.now ≤ LINE }
    requires some { (0 < PLACES) × (PLACES ≤ NESTING) }
    ensures value { IfOk result (λ len. len ≡ quoted_len pairs (content_len pairs) text.now) }
    ensures bound { IfOk result (λ len. IfSome len (λ n. n ≤ length text.now)) }
    ensures room { PLACES ≡ NESTING → IsOk result }
{
    let Some(mark) = written_len(pairs, text) else {
        return Ok(None);
    };
    let mut at = mark;
    let mut open = ArrayVec::<u16, PLACES>::new();
    open.push(0);
    while let Some(place) = open.last() {
        let delimiter = first_character(pairs, &text[*place as usize..]);
        let Some(step) = next_step(pairs, delimiter, &text[at..]) else {
            return Ok(None);
        };
        match step {
            Step::Passes(len) => at += len,
            Step::Opens(_, _) if open.is_full() => return Err(TooDeep),
            Step::Opens(from, mark) => {
                open.push((at + from) as u16);
                at += from + mark;
            }
            Step::Closes(len) => {
                open.pop();
                at += len;
            }
        }
    }
    Ok(Some(at))
}
