//! The heads of conditionals, and the ends of their blocks (roff(7), `if`, `ie`, `el` and `\}`).

ghost use Rattle.std.specs.Prelude.{◌≡◌, ◌≤◌, ◌<◌, ◌+◌, length, IfSome};
ghost use Rattle.page_roff_heads.specs.Heads.{guarded_of, conditional_at, conditional_of, end_place, block_end_of};
ghost use Rattle.page_roff_heads.specs.laws.Views.{guarded_view, conditional_view, block_end_view, FitsGuarded, FitsConditional, FitsBlockEnd};

use crate::conditions::{Condition, read_before_comment};
use crate::texts::{Placed, begins_pair, remainder};
use page_core_base::LINE;
use page_roff_syntax::{begins_comment, blank_len, lacks_pair, plain_len};

/// What the head of a conditional guards; `W` is a text.
#[derive(Clone, Copy)]
pub struct Guarded<W> {
    /// Whether `\{` opens a block.
    pub opens_block: bool,
    /// What follows on the line, if that is a line of its own.
    pub remainder: Option<Placed<W>>,
}

/// The head of a conditional with a condition.
#[derive(Clone, Copy)]
pub struct Conditional<W> {
    pub condition: Condition<W>,
    pub guarded: Guarded<W>,
}

/// A line that ends a block; `W` is a text.
#[derive(Clone, Copy)]
pub struct BlockEnd<W> {
    /// What is before `\}`, which is a line unless it is empty.
    pub before: W,
    /// What follows it, if that is a line of its own.
    pub remainder: Option<Placed<W>>,
}

/// Reads what is after a condition, or after the name of `el`: an optional `\{` and a remainder. The first byte
/// is at a column.
#[tactic(auto, unfolding(crate::specs::Heads::guarded_of))]
pub fn read_guarded(text: &[u8], column: u32) -> Guarded<&[u8]>
    requires short { length text.now ≤ LINE }
    requires room { column + length text.now ≤ LINE + 1 }
    ensures value { guarded_view result ≡ guarded_of column text.now }
    ensures fits { FitsGuarded (guarded_view result) }
{
    let blanks = blank_len(text);
    let body = &text[blanks..];
    if !begins_pair(b'{', body) {
        return Guarded {
            opens_block: false,
            remainder: remainder(text, column),
        };
    }
    Guarded {
        opens_block: true,
        remainder: remainder(&body[2..], column + blanks as u32 + 2),
    }
}

// A condition, of which the first byte is at a column, and what it guards.
fn conditional_at(text: &[u8], column: u32) -> Conditional<&[u8]>
    requires short { length text.now ≤ LINE }
    requires room { column + length text.now ≤ LINE + 1 }
    ensures value { conditional_view result ≡ conditional_at column text.now }
    ensures fits { FitsConditional (conditional_view result) }
{
    let (condition, len) = read_before_comment(text, column);
    Conditional {
        condition,
        guarded: read_guarded(&text[len..], column + len as u32),
    }
}

/// Reads the rest of a control line `if` or `ie` with its comment: what follows its name. The first byte is at a
/// column.
#[tactic(auto, unfolding(crate::specs::Heads::conditional_of))]
pub fn read_conditional(rest: &[u8], column: u32) -> Conditional<&[u8]>
    requires short { length rest.now ≤ LINE }
    requires room { column + length rest.now ≤ LINE + 1 }
    ensures value { conditional_view result ≡ conditional_of column rest.now }
    ensures fits { FitsConditional (conditional_view result) }
{
    let blanks = blank_len(rest);
    conditional_at(&rest[blanks..], column + blanks as u32)
}

// The number of a line's bytes before its first `\}` outside its comment, or of all of them where there is none.
fn end_place(line: &[u8]) -> usize
    ensures value { result ≡ end_place line.now }
    ensures fits { result < length line.now → result + 2 ≤ length line.now }
    ensures within { result ≤ length line.now }
{
    if lacks_pair(line, b'}', b'}') {
        return line.len();
    }
    let mut place = plain_len(line);
    while place + 1 < line.len() {
        if line[place + 1] == b'}' {
            return place;
        }
        if begins_comment(line[place + 1]) {
            return line.len();
        }
        place += 2;
        place += plain_len(&line[place..]);
    }
    line.len()
}

/// Where a line, its comment with it, ends a block.
#[tactic(auto, unfolding(crate::specs::Heads::block_end_of))]
pub fn block_end(line: &[u8]) -> Option<BlockEnd<&[u8]>>
    requires { length line.now ≤ LINE }
    ensures value { block_end_view result ≡ block_end_of line.now }
    ensures fits { IfSome (block_end_view result) FitsBlockEnd }
{
    let place = end_place(line);
    if place == line.len() {
        return None;
    }
    Some(BlockEnd {
        before: &line[..place],
        remainder: remainder(&line[place + 2..], place as u32 + 3),
    })
}
