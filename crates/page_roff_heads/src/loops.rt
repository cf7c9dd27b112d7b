//! The heads of loops (roff(7), `while`).

ghost use Rattle.std.specs.Prelude.{◌≡◌, ◌≤◌, ◌+◌, length};
ghost use Rattle.page_roff_heads.specs.Heads.{first_of, loop_at, loop_of};
ghost use Rattle.page_roff_heads.specs.laws.Views.{loop_view, FitsLoop};

use crate::conditions::read_before_comment;
use crate::heads::{Guarded, read_guarded};
use crate::texts::begins_pair;
use page_core_base::LINE;
use page_roff_syntax::blank_len;

/// The head of a loop; `W` is a text.
#[derive(Clone, Copy)]
pub struct LoopHead<W> {
    /// The condition as it is written, from its first `!` on.
    pub condition: W,
    /// What of the head's line belongs to the loop: with a block, what follows `\{`, up to the `\}` that
    /// ends the loop if it is on the line; without one, the remainder.
    pub body: Option<W>,
}

/// What is after the name of a loop; `W` is a text.
#[derive(Clone, Copy)]
pub struct LoopRead<W> {
    /// The condition as it is written, from its first `!` on.
    pub condition: W,
    pub guarded: Guarded<W>,
    /// All that follows `\{`, without the blanks before it. Nothing where no block is opened.
    pub first: W,
}

// What follows the `\{` that opens a block, without the blanks before it.
#[tactic(auto, unfolding(crate::specs::Heads::first_of))]
fn first_of(text: &[u8]) -> &[u8]
    ensures value { result.now ≡ first_of text.now }
    ensures short { length result.now ≤ length text.now }
{
    let body = &text[blank_len(text)..];
    if !begins_pair(b'{', body) {
        return b"";
    }
    let first = &body[2..];
    &first[blank_len(first)..]
}

// A condition, of which the first byte is at a column, and what it guards.
fn loop_at(text: &[u8], column: u32) -> LoopRead<&[u8]>
    requires short { length text.now ≤ LINE }
    requires room { column + length text.now ≤ LINE + 1 }
    ensures value { loop_view result ≡ loop_at column text.now }
    ensures fits { FitsLoop (loop_view result) }
{
    let (_, len) = read_before_comment(text, column);
    let guarded = &text[len..];
    LoopRead {
        condition: &text[..len],
        guarded: read_guarded(guarded, column + len as u32),
        first: first_of(guarded),
    }
}

/// Reads the rest of a control line `while` with its comment: what follows its name. The first byte is at a column.
#[tactic(auto, unfolding(crate::specs::Heads::loop_of))]
pub fn read_loop(rest: &[u8], column: u32) -> LoopRead<&[u8]>
    requires short { length rest.now ≤ LINE }
    requires room { column + length rest.now ≤ LINE + 1 }
    ensures value { loop_view result ≡ loop_of column rest.now }
    ensures fits { FitsLoop (loop_view result) }
{
    let blanks = blank_len(rest);
    loop_at(&rest[blanks..], column + blanks as u32)
}
