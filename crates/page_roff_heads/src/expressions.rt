//! Where an expression ends.

ghost use Rattle.std.specs.Prelude.{◌≡◌, ◌+◌, ◌<◌, ◌≤◌, length, drop, IsTrue, MatchOption};
ghost use Rattle.page_core_base.specs.declared.limits.TheConstants.{LINE};
ghost use Rattle.page_roff_heads.specs.Conditions.{argument_len, expression_len};
ghost use Rattle.page_roff_syntax.specs.Delimiters as written;

use page_core_base::LINE;
use page_roff_syntax::{MET_WORDS, is_lone, is_white, mark_closed, width_len};

// How many widths without their ends are searched for, before the rest of a long expression is read from its end.
const SEARCHES: usize = 8;

// The bytes of a rest for which that is worth it.
const LONG: usize = 2_048;

// The number of bytes of the argument of an escape with this letter, if it is `\w`.
fn argument_len(letter: u8, text: &[u8]) -> usize
    ensures value { result ≡ argument_len letter text.now }
    ensures within { result ≤ length text.now }
{
    if letter == b'w' { width_len(text) } else { 0 }
}

// How many bytes of a text belong to the expression from a place on, up to the next byte outside pairs and widths; none where it ends. It may
// be known that a width there has no end.
fn step_len(text: &[u8], at: usize, is_lone: bool) -> Option<usize>
    requires within { at ≤ length text.now }
    requires lone { IsTrue is_lone → written.width_len (drop (at + 2) text.now) ≡ 0 }
    ensures { MatchOption result (expression_len (drop at text.now) ≡ 0) (λ n. (0 < n) × (at + n ≤ length text.now)
        × (expression_len (drop at text.now) ≡ n + expression_len (drop (at + n) text.now))) }
{
    if text.len() == at {
        return None;
    }
    if is_white(text[at]) {
        return None;
    }
    if text.len() == at + 1 {
        return Some(1);
    }
    if text[at] != b'\\' {
        return Some(1);
    }
    if text[at + 1] == b'{' {
        return None;
    }
    if is_lone {
        return Some(2);
    }
    Some(2 + argument_len(text[at + 1], &text[at + 2..]))
}

// What `expression_len` answers, by one reading of the text from its end.
#[inline(never)]
fn marked_len(text: &[u8]) -> usize
    requires { length text.now ≤ LINE }
    ensures value { result ≡ expression_len text.now }
    ensures within { result ≤ length text.now }
{
    let mut met = [0u64; MET_WORDS];
    let mut marks = [0u8; LINE];
    mark_closed(text, &mut met, &mut marks);
    let mut len = 0;
    while let Some(step) = step_len(text, len, is_lone(text, &marks, len + 2)) {
        len += step;
    }
    len
}

/// The number of bytes of an expression: it goes up to a blank, a tab or `\{` outside the argument of `\w`.
pub(crate) fn expression_len(text: &[u8]) -> usize
    ensures value { result ≡ expression_len text.now }
    ensures within { result ≤ length text.now }
{
    let mut len = 0;
    let mut searches = 0;
    while let Some(step) = step_len(text, len, false) {
        if step == 2 && text[len + 1] == b'w' {
            searches += 1;
        }
        len += step;
        if SEARCHES <= searches && LONG <= text.len() - len && text.len() - len <= LINE {
            return len + marked_len(&text[len..]);
        }
    }
    len
}
