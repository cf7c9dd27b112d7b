//! The parts of lines, and what of a line belongs to a loop.

use super::texts::show_word;
use page_core_base::LINE;
use page_roff_blocks::{Branch, Head, LinePart, LinePlace, Opening, loop_text};
use page_roff_heads::LoopHead;
use page_roff_syntax::RegionHead;
use page_test_streams::shown;

/// Shows the parts of a line, each with a bar after it: a leaf's text, `if`, `ie` or `el`, a loop's condition and the front of its body, `{` after
/// what opens a block, `}`, or a region's name, the macro that it defines and its end name, after `!` where one was asked for that is too long.
pub(crate) fn show_parts(rt: &HostRuntime, line: &str) {
    let line = line.as_bytes();
    if line.len() > LINE {
        return;
    }
    show_word(rt, "");
    let mut place = LinePlace::start(line);
    'parts: for _ in 0..u64::MAX {
        match place.next_line_part(line) {
            Some(part) => show_part(rt, part),
            None => break 'parts,
        }
    }
}

fn show_part(rt: &HostRuntime, part: LinePart<&[u8]>) {
    match part {
        LinePart::Leaf(text) => show_text(rt, text),
        LinePart::Guard(head) => show_head(rt, head),
        LinePart::Block(opening) => show_opening(rt, opening),
        LinePart::Loop(head) => show_loop(rt, head),
        LinePart::End => show_text(rt, b"}"),
        LinePart::Region(head) => show_region(rt, head),
    }
    show_text(rt, b"|");
}

fn show_text(rt: &HostRuntime, text: &[u8]) {
    let _ = print!(rt; "{}", shown(text));
}

fn show_head(rt: &HostRuntime, head: Head<&[u8]>) {
    match head.branch {
        Branch::If(_) => show_text(rt, b"if"),
        Branch::IfElse(_) => show_text(rt, b"ie"),
        Branch::Else => show_text(rt, b"el"),
    }
}

// A loop's condition, and what of its line belongs to it.
fn show_loop(rt: &HostRuntime, head: LoopHead<&[u8]>) {
    let body = head.body.unwrap_or(b"none");
    let _ = print!(rt; "while({}){}", shown(head.condition), shown(body));
}

fn show_opening(rt: &HostRuntime, opening: Opening<&[u8]>) {
    match opening {
        Opening::Conditional(head) => show_head(rt, head),
        Opening::Loop(head) => show_loop(rt, head),
    }
    show_text(rt, b"{");
}

fn show_region(rt: &HostRuntime, head: RegionHead<&[u8]>) {
    show_text(rt, head.kind.name());
    show_text(rt, b"(");
    match head.name {
        Some(name) => show_text(rt, name.name().as_slice()),
        None => show_text(rt, b"none"),
    }
    show_text(rt, if has_long_ending(head) { b")!" } else { b")" });
    show_text(rt, head.end_name().as_slice());
}

// Whether a longer end name was asked for than names may be.
fn has_long_ending(head: RegionHead<&[u8]>) -> bool {
    match head.ending {
        Some(ending) => ending.name().len() > 64,
        None => false,
    }
}

/// Shows what of a line belongs to a loop, of which so many blocks are open as are given before it.
pub(crate) fn show_loop_text(rt: &HostRuntime, text: &str) {
    let (open_blocks, line) = text.split_once(' ').unwrap_or((text, ""));
    if line.len() > LINE {
        return;
    }
    let open_blocks: u32 = open_blocks.parse().unwrap_or(0);
    let text = loop_text(line.as_bytes(), u64::from(open_blocks)).unwrap_or(b"none");
    show_word(rt, shown(text));
}
