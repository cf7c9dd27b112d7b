//! The fronts of texts of which the rest is known (roff(7), "Escape sequences").

ghost use Rattle.std.specs.Prelude.{◌*◌, ◌≤◌, length, IfSome};
ghost use Rattle.page_core_base.specs.declared.limits.TheConstants.{LINE};
ghost use Rattle.page_core_numbers.specs.machine.Signs.{Left, Past};

use page_core_base::Output;
use page_core_escapes::{Escape, escape};
use page_core_numbers::escape_columns;

// The bytes that a front may have more than another, that it has before what may be common, and that an escape in it has, at most.
const FRONT: usize = 64;

// The bytes at the ends of two texts that are compared first.
const END: usize = 16;

/// What is before a place in a text where an escape or a character begins: its columns, and the text from there on.
#[derive(Clone, Copy)]
pub(crate) struct Front<'a> {
    pub(crate) columns: u32,
    pub(crate) rest: &'a str,
}

// The columns of the escape or the character at a text's front, and what follows it. None at the text's end, and of a long escape.
fn read_first(text: &str, output: Output) -> Option<Front<'_>>
    requires { length text.now ≤ LINE }
    ensures { IfSome result (λ front. Past output text.now front.columns front.rest.now) }
{
    let mut chars = text.chars();
    let first = chars.next()?;
    if first != '\\' {
        return Some(Front {
            columns: escape_columns(Escape::Char(first), output),
            rest: chars.as_str(),
        });
    }
    let (found, len) = escape(text.as_bytes());
    if FRONT < len {
        return None;
    }
    Some(Front {
        columns: escape_columns(found, output),
        rest: &text[len..],
    })
}

/// Reads a text to the first place where an escape or a character begins and this many bytes are left, or fewer. None where an escape before
/// it is long.
pub(crate) fn read_front(text: &str, left: usize, output: Output) -> Option<Front<'_>>
    requires { length text.now ≤ LINE }
    ensures columns { IfSome result (λ front. Left output text.now front.columns front.rest.now) }
    ensures bound { IfSome result (λ front. front.columns ≤ 1000 * length text.now) }
{
    let mut columns = 0;
    let mut rest = text;
    while left < rest.len() {
        let first = read_first(rest, output)?;
        columns += first.columns;
        rest = first.rest;
    }
    Some(Front { columns, rest })
}

/// How many bytes two texts may have in common at their ends, if few are before those. Those in the middle are not compared.
pub(crate) fn common_len(one: &[u8], other: &[u8]) -> Option<usize> {
    let shorter = one.len().min(other.len());
    if shorter < FRONT + END
        || FRONT < one.len().abs_diff(other.len())
        || one[one.len() - END..] != other[other.len() - END..]
    {
        return None;
    }
    let mut common = shorter - FRONT;
    while common < shorter && one[one.len() - common - 1] == other[other.len() - common - 1] {
        common += 1;
    }
    Some(common)
}
