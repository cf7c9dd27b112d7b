//! What of a raw line belongs to a loop (roff(7), "while").

ghost use Rattle.std.specs.Prelude.{◌≡◌, ◌≤◌, ◌<◌, ◌+◌, ◌^◌, true, length, IfSome};
ghost use Rattle.page_core_base.specs.declared.limits.TheConstants.{LINE};
ghost use Rattle.page_roff_blocks.specs.laws.Views.{line_part_view, opening_view, part_view, FitsOpening, FitsPart, FitsRest};
ghost use Rattle.page_roff_blocks.specs.Parts.{part_of, whole_opening, blocks_left, blocks_after, before_end, some_text, len_of, loop_text, first_text};
ghost use Rattle.page_roff_syntax.specs.laws.Views.{text_view};

use crate::line_parts::{LinePart, Opening};
use crate::line_places::place_after;
use crate::parts::{RawPart, written_part};
use page_core_base::LINE;
use page_roff_heads::LoopHead;

// The blocks that are open in a loop after the end of one, or none where the loop itself ends.
fn blocks_left(blocks: u64) -> Option<u64>
    ensures { result ≡ blocks_left true blocks }
{
    blocks.checked_sub(1)
}

// Those after a part, which the end of a block may follow.
fn blocks_after(line_part: &LinePart<&[u8]>, is_end: bool, blocks: u64) -> Option<u64>
    requires { blocks < 2 ^ 63 + LINE }
    ensures { result ≡ blocks_after (line_part_view line_part.now) is_end blocks }
{
    match line_part {
        LinePart::Leaf(_) if is_end => blocks_left(blocks),
        LinePart::End => blocks_left(blocks),
        LinePart::Block(_) => Some(blocks + 1),
        _ => Some(blocks),
    }
}

// The number of a part's bytes before the end of a block.
fn before_end(line_part: &LinePart<&[u8]>) -> usize
    ensures { result ≡ before_end (line_part_view line_part.now) }
{
    match line_part {
        LinePart::Leaf(text) => text.len(),
        _ => 0,
    }
}

// The number of a line's bytes before the `\}` that ends a loop in which this many blocks are open, if one does.
fn len_of(line: &[u8], open_blocks: u64) -> Option<usize>
    requires short { length line.now ≤ LINE }
    requires room { open_blocks < 2 ^ 63 }
    ensures value { result ≡ len_of open_blocks line.now }
    ensures within { IfSome result (λ len. len ≤ length line.now) }
{
    let mut blocks = open_blocks;
    let mut start = 0;
    loop {
        let part = written_part(&line[start..]);
        match blocks_after(&part.line_part, part.is_end, blocks) {
            None => return Some(start + before_end(&part.line_part)),
            Some(left) => blocks = left,
        }
        match place_after(line, part.rest) {
            None => return None,
            Some(next) => start = next,
        }
    }
}

// A text that is not empty.
fn some_text(text: &[u8]) -> Option<&[u8]>
    ensures { text_view result ≡ some_text text.now }
{
    if text.is_empty() { None } else { Some(text) }
}

/// What of a line belongs to a loop in which this many blocks are open: what is before the `\}` that ends it, if
/// that is more than nothing; else all of the line, be it empty.
#[tactic(auto, unfolding(crate::specs::Parts::loop_text))]
pub fn loop_text(line: &[u8], open_blocks: u64) -> Option<&[u8]>
    requires short { length line.now ≤ LINE }
    requires room { open_blocks < 2 ^ 63 }
    ensures value { text_view result ≡ loop_text open_blocks line.now }
    ensures fits { FitsRest (text_view result) }
{
    match len_of(line, open_blocks) {
        None => Some(line),
        Some(len) => some_text(&line[..len]),
    }
}

// What of the text after its block belongs to a loop.
#[tactic(auto, unfolding(crate::specs::Parts::first_text))]
fn first_text(first: &[u8]) -> Option<&[u8]>
    requires { length first.now ≤ LINE }
    ensures value { text_view result ≡ first_text first.now }
    ensures fits { FitsRest (text_view result) }
{
    match loop_text(first, 0) {
        None => None,
        Some(text) => some_text(text),
    }
}

// A head with its block: of what follows that on its line, only what belongs to a loop is its body.
fn whole_opening(opening: Opening<&[u8]>) -> Opening<&[u8]>
    requires { FitsOpening (opening_view opening) }
    ensures value { opening_view result ≡ whole_opening (opening_view opening.entry) }
    ensures fits { FitsOpening (opening_view result) }
{
    match opening {
        Opening::Loop(
            LoopHead {
                condition,
                body: Some(first),
            },
        ) => Opening::Loop(LoopHead {
            condition,
            body: first_text(first),
        }),
        _ => opening,
    }
}

/// The first part of a line.
#[tactic(auto, unfolding(crate::specs::Parts::part_of))]
pub(crate) fn part_of(line: &[u8]) -> RawPart<&[u8]>
    requires { length line.now ≤ LINE }
    ensures value { part_view result ≡ part_of line.now }
    ensures fits { FitsPart (part_view result) }
{
    let part = written_part(line);
    match part.line_part {
        LinePart::Block(opening) => RawPart {
            line_part: LinePart::Block(whole_opening(opening)),
            is_end: part.is_end,
            rest: part.rest,
        },
        _ => part,
    }
}
