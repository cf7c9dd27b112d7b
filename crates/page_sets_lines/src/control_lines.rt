//! The name and the arguments of a finished control line (roff(7), "LANGUAGE SYNTAX").

ghost use Rattle.std.specs.Prelude.{◌≡◌, ◌≤◌, ◌==◌, length, IfSome};
ghost use Rattle.std.specs.List.{list_any};
ghost use Rattle.page_core_base.specs.laws.Views.{line_view};
ghost use Rattle.page_roff_syntax.specs.laws.Views.{argument_view};
ghost use Rattle.page_roff_syntax.specs.Arguments.{has_arguments};
ghost use Rattle.page_sets_lines.specs.laws.Events.{given_view};
ghost use Rattle.page_sets_lines.specs.laws.Views.{ArgumentFits, GivenFits, is_quote, ReadsAfter};
ghost use Rattle.page_sets_lines.specs.Lines.{before_name, name_end, name_of, name_place, is_nameless, rest_of, arguments_after, first_of, open_quote};

use page_core_base::{LINE, Place, Taken};
use page_roff_syntax::{Argument, Arguments, Quoting, has_arguments, read_argument, white_len};
use std::marker::Model;

// Where the name of a control line begins and ends, in bytes.
#[derive(Clone, Copy)]
struct NameSpan {
    start: usize,
    end: usize,
}

// The bytes before the name of a control line.
fn before_name(text: &[u8]) -> usize
    ensures value { result ≡ before_name text.now }
    ensures within { result ≤ length text.now }
{
    match text {
        [] => 0,
        [_control, bytes @ ..] => 1 + white_len(bytes),
    }
}

// Finds the name of a control line.
fn find_name(line: Taken<'_>) -> NameSpan
    ensures start { result.start ≡ before_name line.entry.text.now }
    ensures end { result.end ≡ name_end (line_view line.entry) }
    ensures within { (result.start ≤ result.end) × (result.end ≤ length line.entry.text.now) }
{
    let start = before_name(line.text);
    let end = line.text.len().min(line.name_end as usize);
    NameSpan {
        start,
        end: end.max(start),
    }
}

/// A control line, whose name is found once. Contracts see the line.
#[derive(Drop)]
pub struct ControlLine<'a> {
    line: Taken<'a>,
    name: NameSpan,
}

impl<'a> Model for ControlLine<'a> {
    ghost use Rattle.page_core_base.specs.Texts.{TakenLine};

    ghost Value = { TakenLine };

    ghost use Rattle.std.specs.Prelude.{◌≡◌, ◌≤◌, length};
    ghost use Rattle.page_core_base.specs.laws.Views.{line_view};
    ghost use Rattle.page_core_base.specs.declared.limits.TheConstants.{LINE};
    ghost use Rattle.page_sets_lines.specs.Lines.{before_name, name_end};

    ghost view = { λ c. line_view c.line };

    ghost invariant = { λ c. (length c.line.text.now ≤ LINE)
        × (c.name.start ≡ before_name c.line.text.now)
        × (c.name.end ≡ name_end (line_view c.line))
        × (c.name.start ≤ c.name.end)
        × (c.name.end ≤ length c.line.text.now) };
}

impl<'a> ControlLine<'a> {
    /// Finds the name of a line.
    pub fn new(line: Taken<'a>) -> ControlLine<'a>
        requires { length line.text.now ≤ LINE }
        ensures { result ≡ line_view line.entry }
    {
        ControlLine {
            line,
            name: find_name(line),
        }
    }

    /// It has no more bytes than a line may have.
    pub fn len_law(&self)
        ensures { length self.now.text ≤ LINE }
    {
        let _ = &self.line;
    }

    /// The whole line, with its name.
    pub fn text(&self) -> &'a [u8]
        ensures text { result.now ≡ self.now.text }
        ensures short { length self.now.text ≤ LINE }
    {
        self.line.text
    }

    /// The number of its source line.
    pub fn number(&self) -> u32
        ensures { result ≡ self.now.number }
    {
        self.line.line
    }

    /// Whether its name has no byte.
    pub fn is_nameless(&self) -> bool
        ensures { result ≡ is_nameless self.now }
    {
        self.name.start == self.name.end
    }

    /// Its name.
    pub fn name(&self) -> &'a [u8]
        ensures { result.now ≡ name_of self.now }
    {
        &self.line.text[self.name.start..self.name.end]
    }

    /// Where its name is.
    pub fn name_place(&self) -> Place
        ensures { result ≡ name_place self.now }
    {
        Place {
            line: self.line.line,
            column: self.name.start as u32 + 1,
        }
    }

    /// How many bytes there are up to the end of its name; arguments begin after them.
    pub fn name_end(&self) -> usize
        ensures end { result ≡ name_end self.now }
        ensures within { result ≤ length self.now.text }
    {
        self.name.end
    }

    /// What comes after its name.
    pub fn rest(&self) -> &'a [u8]
        ensures rest { result.now ≡ rest_of self.now }
        ensures short { length result.now ≤ LINE }
    {
        &self.line.text[self.name.end..]
    }

    /// Its arguments.
    pub fn arguments(&self) -> Arguments<'a>
        ensures { result ≡ arguments_after (name_end self.now) self.now.text }
    {
        arguments_after(self.line.text, self.name.end)
    }

    /// Whether it has an argument.
    pub fn has_arguments(&self) -> bool
        ensures { result ≡ has_arguments (rest_of self.now) }
    {
        has_arguments(self.rest())
    }

    /// Its first argument, if it has one.
    pub fn first_argument(&self) -> Option<Argument<&'a [u8]>>
        ensures first { given_view result ≡ first_of (arguments_after (name_end self.now) self.now.text) }
        ensures fits { GivenFits (given_view result) }
    {
        first_of(self.line.text, self.name.end)
    }

    /// The column of the quote of an argument that lacks its last one, where no argument is printed.
    pub fn missing_quote(&self) -> Option<u32>
        ensures { result ≡ open_quote 0 (arguments_after (name_end self.now) self.now.text) }
    {
        open_quote(self.line.text, self.name.end, 0)
    }
}

// The arguments of a line that begin after this many bytes.
fn arguments_after(text: &[u8], start: usize) -> Arguments<'_>
    requires short { length text.now ≤ LINE }
    requires within { start ≤ length text.now }
    ensures { result ≡ arguments_after start text.now }
{
    Arguments::new(&text[start..], start as u32 + 1)
}

// Whether there is a quote in a text.
#[inline(always)]
fn has_quote(text: &[u8]) -> bool
    ensures { result ≡ list_any is_quote text.now }
{
    text.iter().any(|byte| *byte == b'"')
}

// The column of the first quote of an argument that lacks its last one, but for this many arguments at the front.
#[inline(never)]
fn unclosed_quote(text: &[u8], start: usize, printed: usize) -> Option<u32>
    requires short { length text.now ≤ LINE }
    requires within { start ≤ length text.now }
    ensures { result ≡ open_quote printed (arguments_after start text.now) }
{
    let mut arguments = arguments_after(text, start);
    let mut printed = printed;
    while let Some(argument) = arguments.next_argument() {
        if printed > 0 {
            printed -= 1;
        } else if let Quoting::Unclosed = argument.quoting {
            return Some(argument.column.saturating_sub(1));
        }
    }
    None
}

/// The column of the quote of an argument that lacks its last one, unless the argument is one of the first, which are
/// printed. The arguments are read only where there is a quote in them.
#[inline(always)]
pub fn open_quote(text: &[u8], start: usize, printed: usize) -> Option<u32>
    requires short { length text.now ≤ LINE }
    requires within { start ≤ length text.now }
    ensures { result ≡ open_quote printed (arguments_after start text.now) }
{
    if has_quote(&text[start..]) {
        unclosed_quote(text, start, printed)
    } else {
        None
    }
}

/// Reads the first argument that begins after this many bytes, and says after how many the others begin.
#[tactic(auto, using(crate::proofs::ArgumentLaws::read_from, crate::proofs::FitLemmas::read_fits))]
pub fn read_after(text: &[u8], start: usize) -> Option<(Argument<&[u8]>, usize)>
    requires short { length text.now ≤ LINE }
    requires within { start ≤ length text.now }
    ensures reads { ReadsAfter start text.now result }
    ensures fits { IfSome result (λ read. ArgumentFits (argument_view read.0)) }
{
    let (argument, len) = read_argument(&text[start..], start as u32 + 1)?;
    Some((argument, start + len))
}

/// The first argument that begins after this many bytes.
#[tactic(auto, using(crate::proofs::FitLemmas::first_after_fits))]
pub fn first_of(text: &[u8], start: usize) -> Option<Argument<&[u8]>>
    requires short { length text.now ≤ LINE }
    requires within { start ≤ length text.now }
    ensures first { given_view result ≡ first_of (arguments_after start text.now) }
    ensures fits { GivenFits (given_view result) }
{
    arguments_after(text, start).next_argument()
}
