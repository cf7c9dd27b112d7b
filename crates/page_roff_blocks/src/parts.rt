//! The first part of a raw line (roff(7), "if", "ie", "el", "while").

ghost use Rattle.std.specs.Prelude.{◌≡◌, ◌≤◌, ◌+◌, true, [], ◌∷◌, length, Some};
ghost use Rattle.page_core_base.specs.declared.limits.TheConstants.{LINE};
ghost use Rattle.page_roff_syntax.specs.LineForms.{form_of};
ghost use Rattle.page_roff_syntax.specs.laws.Views.{name_of, text_view};
ghost use Rattle.page_roff_heads.specs.Heads.{conditional_of, guarded_of};
ghost use Rattle.page_roff_heads.specs.laws.Views.{guarded_view, FitsGuarded, loop_view, FitsLoop, remainder_view};
ghost use Rattle.page_roff_blocks.specs.declared.line_parts.LinePart.TheVariants.{Leaf};
ghost use Rattle.page_roff_blocks.specs.declared.line_parts.Branch.TheVariants.{If, IfElse, Else};
ghost use Rattle.page_roff_blocks.specs.laws.Views.{head_view, part_view, IsWithin, FitsBranch, FitsRest, FitsPart, columns_of, named_part};
ghost use Rattle.page_roff_blocks.specs.Parts.{line_parts, keyword_of, rest_text, head_part, conditional_part, loop_part, end_part, plain_part, written_part};
ghost use Rattle.page_roff_blocks.specs.declared.parts.Keyword.TheVariants as keywords;

use crate::line_parts::{Branch, Head, LinePart, Opening};
use page_core_base::LINE;
use page_roff_heads::{
    Guarded, LoopHead, LoopRead, Placed, block_end, read_conditional, read_guarded, read_loop,
};
use page_roff_syntax::{
    LineForm, RegionKind, Request, control_name, form_of, region_head, white_len,
};
use std::alloc::AllocError;

// What a control line heads.
#[derive(Clone, Copy)]
pub(crate) enum Keyword {
    If,
    IfElse,
    Else,
    While,
    Region(RegionKind),
    Other,
}

// The columns of a control line's name and of its rest.
#[derive(Clone, Copy)]
pub(crate) struct Columns {
    name: u32,
    rest: u32,
}

// The first part of a line; `W` is a text.
#[derive(Copy)]
pub(crate) struct RawPart<W> {
    pub(crate) line_part: LinePart<W>,
    // Whether the end of a block follows it.
    pub(crate) is_end: bool,
    // What is left of the line after both, if that is a line.
    pub(crate) rest: Option<W>,
}

impl<W: Copy> Clone for RawPart<W> {
    fn clone(&self) -> Result<RawPart<W>, AllocError> {
        Ok(*self)
    }
}

// What a control line of a name heads.
fn keyword_of(name: &[u8]) -> Keyword
    ensures { result ≡ keyword_of name.now }
{
    match Request::of(name) {
        Some(Request::If) => Keyword::If,
        Some(Request::IfElse) => Keyword::IfElse,
        Some(Request::Else) => Keyword::Else,
        Some(Request::While) => Keyword::While,
        Some(Request::Region(kind)) => Keyword::Region(kind),
        _ => Keyword::Other,
    }
}

// What is left of a line, as a text.
fn rest_text(remainder: Option<Placed<&[u8]>>) -> Option<&[u8]>
    requires { FitsRest (rest_text (remainder_view remainder)) }
    ensures value { text_view result ≡ rest_text (remainder_view remainder.entry) }
    ensures fits { FitsRest (text_view result) }
{
    match remainder {
        Some(line) => Some(line.text),
        None => None,
    }
}

// A head, and what it guards.
fn head_part<'a>(head: Head<&'a [u8]>, guarded: Guarded<&'a [u8]>) -> RawPart<&'a [u8]>
    requires head { FitsBranch (head_view head).branch }
    requires guarded { FitsGuarded (guarded_view guarded) }
    ensures value { part_view result ≡ head_part (head_view head.entry) (guarded_view guarded.entry) }
    ensures fits { FitsPart (part_view result) }
{
    RawPart {
        line_part: if guarded.opens_block {
            LinePart::Block(Opening::Conditional(head))
        } else {
            LinePart::Guard(head)
        },
        is_end: false,
        rest: rest_text(guarded.remainder),
    }
}

// The head of a loop. With a block, all that follows it on its line is its body as yet.
fn loop_part<'a>(read: LoopRead<&'a [u8]>) -> RawPart<&'a [u8]>
    requires { FitsLoop (loop_view read) }
    ensures value { part_view result ≡ loop_part (loop_view read.entry) }
    ensures fits { FitsPart (part_view result) }
{
    let rest = rest_text(read.guarded.remainder);
    if read.guarded.opens_block {
        return RawPart {
            line_part: LinePart::Block(Opening::Loop(LoopHead {
                condition: read.condition,
                body: Some(read.first),
            })),
            is_end: false,
            rest,
        };
    }
    RawPart {
        line_part: LinePart::Loop(LoopHead {
            condition: read.condition,
            body: rest,
        }),
        is_end: false,
        rest: None,
    }
}

// What is before the end of a block, and what is left after it.
fn end_part<'a>(before: &'a [u8], rest: Option<&'a [u8]>) -> RawPart<&'a [u8]>
    requires before { length before.now ≤ LINE }
    requires rest { FitsRest (text_view rest) }
    ensures value { part_view result ≡ end_part before.now (text_view rest.entry) }
    ensures fits { FitsPart (part_view result) }
{
    if before.is_empty() {
        return RawPart {
            line_part: LinePart::End,
            is_end: false,
            rest,
        };
    }
    RawPart {
        line_part: LinePart::Leaf(before),
        is_end: true,
        rest,
    }
}

// The first part of a line that heads nothing.
fn plain_part(line: &[u8]) -> RawPart<&[u8]>
    requires { length line.now ≤ LINE }
    ensures value { part_view result ≡ plain_part line.now }
    ensures fits { FitsPart (part_view result) }
{
    match block_end(line) {
        Some(end) => end_part(end.before, rest_text(end.remainder)),
        None => RawPart {
            line_part: LinePart::Leaf(line),
            is_end: false,
            rest: None,
        },
    }
}

// The columns of a control line of this name. No comment is looked for.
fn columns_of(line: &[u8], name: &[u8]) -> Columns
    requires short { length line.now ≤ LINE }
    requires named { name_of (form_of line.now) ≡ Some name.now }
    ensures value { columns_of (form_of line.now) ≡ Some result }
    ensures within { IsWithin result.rest line.now }
{
    let column = 2 + white_len(&line[1..]) as u32;
    Columns {
        name: column,
        rest: column + name.len() as u32,
    }
}

// The first part of a control line that heads a region.
fn region_part(kind: RegionKind, line: &[u8]) -> RawPart<&[u8]>
    requires { length line.now ≤ LINE }
    ensures value { part_view result ≡ named_part (keywords.Region kind) line.now (form_of line.now) }
    ensures fits { FitsPart (part_view result) }
{
    match form_of(line) {
        LineForm::Control {
            column,
            rest,
            rest_column,
            ..
        } => RawPart {
            line_part: LinePart::Region(region_head(kind, column, rest, rest_column)),
            is_end: false,
            rest: None,
        },
        LineForm::Comment | LineForm::BlankLine | LineForm::Text(_) => plain_part(line),
    }
}

// The first part of a control line with these columns that heads this.
fn keyword_part(keyword: Keyword, line: &[u8], columns: Columns) -> RawPart<&[u8]>
    requires line { length line.now ≤ LINE }
    requires columns { columns_of (form_of line.now) ≡ Some columns }
    requires within { IsWithin columns.rest line.now }
    ensures value { part_view result ≡ named_part keyword line.now (form_of line.now) }
    ensures fits { FitsPart (part_view result) }
{
    let raw_rest = &line[columns.rest as usize - 1..];
    match keyword {
        Keyword::If => if_part(raw_rest, columns.name, columns.rest),
        Keyword::IfElse => if_else_part(raw_rest, columns.name, columns.rest),
        Keyword::Else => else_part(raw_rest, columns.name, columns.rest),
        Keyword::While => loop_part(read_loop(raw_rest, columns.rest)),
        Keyword::Region(kind) => region_part(kind, line),
        Keyword::Other => plain_part(line),
    }
}

// The head of an `if`.
fn if_part(raw_rest: &[u8], column: u32, rest_column: u32) -> RawPart<&[u8]>
    requires short { length raw_rest.now ≤ LINE }
    requires room { rest_column + length raw_rest.now ≤ LINE + 1 }
    ensures value { part_view result
        ≡ conditional_part If column (conditional_of rest_column raw_rest.now) }
    ensures fits { FitsPart (part_view result) }
{
    let read = read_conditional(raw_rest, rest_column);
    let branch = Branch::If(read.condition);
    head_part(Head { column, branch }, read.guarded)
}

// The head of an `ie`.
fn if_else_part(raw_rest: &[u8], column: u32, rest_column: u32) -> RawPart<&[u8]>
    requires short { length raw_rest.now ≤ LINE }
    requires room { rest_column + length raw_rest.now ≤ LINE + 1 }
    ensures value { part_view result
        ≡ conditional_part IfElse column (conditional_of rest_column raw_rest.now) }
    ensures fits { FitsPart (part_view result) }
{
    let read = read_conditional(raw_rest, rest_column);
    let branch = Branch::IfElse(read.condition);
    head_part(Head { column, branch }, read.guarded)
}

// The head of an `el`.
fn else_part(raw_rest: &[u8], column: u32, rest_column: u32) -> RawPart<&[u8]>
    requires short { length raw_rest.now ≤ LINE }
    requires room { rest_column + length raw_rest.now ≤ LINE + 1 }
    ensures value { part_view result ≡ head_part (record { column = column; branch = Else }) (guarded_of rest_column raw_rest.now) }
    ensures fits { FitsPart (part_view result) }
{
    let branch = Branch::Else;
    head_part(Head { column, branch }, read_guarded(raw_rest, rest_column))
}

/// The first part of a line as it is written. Only the head of a region is parted from its comment.
pub(crate) fn written_part(line: &[u8]) -> RawPart<&[u8]>
    requires { length line.now ≤ LINE }
    ensures value { part_view result ≡ written_part line.now }
    ensures fits { FitsPart (part_view result) }
{
    match control_name(line) {
        Some(name) => keyword_part(keyword_of(name), line, columns_of(line, name)),
        None => plain_part(line),
    }
}

// Whether a line heads no conditional, no loop and no region.
fn heads_nothing(line: &[u8]) -> bool
    ensures { result ≡ true → written_part line.now ≡ plain_part line.now }
{
    match control_name(line) {
        Some(name) => matches!(keyword_of(name), Keyword::Other),
        None => true,
    }
}

// Whether a line of at most `LINE` bytes is one part, a leaf.
pub(crate) fn is_leaf(line: &[u8]) -> bool
    requires { length line.now ≤ LINE }
    ensures { result ≡ true → line_parts line.now ≡ Leaf line.now ∷ [] }
{
    if !heads_nothing(line) {
        return false;
    }
    match block_end(line) {
        Some(_) => false,
        None => true,
    }
}
