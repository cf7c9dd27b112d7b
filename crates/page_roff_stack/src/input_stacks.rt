//! The input stack (mandoc(1), "input stack limit exceeded, infinite loop?").

ghost use Rattle.std.specs.Prelude.{◌≡◌, ⊤, [], ◌∷◌, ◌+◌, ◌*◌, ◌≤◌, ◌<◌, ◌^◌, true, length, drop, sum_by, IfOk, IfSome, None, Some, option_map};
ghost use mathlib.Core.Option.{none};
ghost use Rattle.std.specs.Borrow.{sem, follows_so};
ghost use Rattle.page_core_base.specs.Texts.{IsLine};
ghost use Rattle.page_core_base.specs.declared.limits.TheConstants.{ARGS, BODY, CALLS};
ghost use Rattle.page_roff_blocks.specs.declared.line_parts.LinePart.TheVariants.{Leaf};
ghost use Rattle.page_roff_blocks.specs.laws.Views.{line_part_view, FitsLinePart, PlaceFits, reached};
ghost use Rattle.page_roff_syntax.specs.laws.Views.{opened_view, text_view};
ghost use Rattle.page_roff_blocks.specs.machine.Languages.{arguments_of, is_some};
ghost use Rattle.page_roff_blocks.specs.machine.Machine.{depth};
ghost use Rattle.page_roff_stack.specs.machine.Stacks.{page_line, page_passed, is_page, went, first_stack, stack_at, standing_of, with_top, call_of, loop_of, next_around, next_of, part_in, opens_block, is_line, may_end, is_nothing, Suits, packed_text, unpacked, next_view, FitsNext};

use crate::input_frames::InputFrame;
use crate::movements::Movement;
use crate::next::Next;
use page_core_base::{ARGS, BODY, CALLS, LINE};
use page_roff_blocks::{Levels, LinePart, Reached, Standing};
use page_roff_syntax::OpenRegion;
use std::alloc::{AllocError, Global};
use std::marker::Model;
use std::mem;

// A source around another, and where its text ends.
#[derive(Drop)]
struct Caller {
    source: InputFrame,
    end: usize,
}

/// The sources that run, one inside another: the page, and the macros and loops in it. Contracts see them without their state.
///
/// [`InputStack::peek`] lends what comes next, and [`InputStack::go`] then goes past it.
#[derive(Drop)]
pub struct InputStack {
    // The texts of all of them, one after another. That of the innermost source is all of it, and begins with those of the sources around.
    text: Vec<u8>,
    top: InputFrame,
    // The sources around it, from the page on.
    callers: Vec<Caller>,
}

// The bytes of a line of the page with its end, and of a body and its arguments in each macro or loop.
const TEXT: usize = LINE + 1 + (BODY + ARGS) * CALLS;

impl Model for InputStack {
    ghost use Rattle.page_roff_stack.specs.machine.Stacks.{Stack};

    ghost Value = { Stack };

    ghost use Rattle.page_roff_stack.specs.machine.InputStacks.{stack_of, IsStack};

    ghost view = { stack_of };

    ghost invariant = { IsStack };
}

impl InputStack {
    ghost use Rattle.page_roff_stack.specs.contracts.input_stacks.InputStack.{the_row};

    /// The page, before its first line. All memory is reserved here.
    pub fn new(alloc: Global) -> Result<InputStack, AllocError>
        ensures { IfOk result (λ stack. stack ≡ first_stack) }
    {
        Ok(InputStack {
            text: Vec::with_capacity(alloc, TEXT)?,
            top: InputFrame::page(),
            callers: Vec::with_capacity(alloc, CALLS)?,
        })
    }

    /// The page between two lines, where it is so. All memory is reserved here.
    pub fn at(alloc: Global, standing: &Standing) -> Result<InputStack, AllocError>
        requires { standing.now.levels.skipped < 2 ^ 62 }
        ensures { IfOk result (λ stack. stack ≡ stack_at standing.now) }
    {
        let text = Vec::with_capacity(alloc, TEXT)?;
        let callers = Vec::with_capacity(alloc, CALLS)?;
        Ok(InputStack {
            text,
            top: InputFrame::at(standing),
            callers,
        })
    }

    /// Where the innermost source is.
    pub fn standing(&self) -> Standing
        ensures { result ≡ standing_of self.now }
    {
        self.top.standing()
    }

    /// Whether the page's line is done, or none came.
    pub fn is_idle(&self) -> bool
        ensures { result ≡ is_nothing (next_of self.now) }
    {
        self.callers.is_empty() && self.top.is_over()
    }

    // What comes next where nothing is left of the innermost source.
    fn next_around<'a>(&'a self, region: Option<&'a OpenRegion>) -> Next<&'a [u8], &'a OpenRegion>
        ensures value { next_view result ≡ next_around self.now.top.turning (opened_view region.entry) self.now.under }
        ensures fits { FitsNext (next_view result) }
    {
        if self.callers.is_empty() {
            return Next::Nothing;
        }
        match self.top.turn(&self.text) {
            Some(condition) => Next::Turn {
                region,
                has_begun: self.top.has_begun(),
                condition,
            },
            None => Next::SourceEnd {
                region,
                has_begun: self.top.has_begun(),
            },
        }
    }

    /// What comes next.
    pub fn peek(&self) -> Next<&[u8], &OpenRegion>
        ensures value { next_view result ≡ next_of self.now }
        ensures fits { FitsNext (next_view result) }
    {
        match self.top.region() {
            Some(region) => self.peek_in_region(region),
            None => self.peek_outside(),
        }
    }

    // What comes next in an open region.
    fn peek_in_region<'a>(&'a self, region: &'a OpenRegion) -> Next<&'a [u8], &'a OpenRegion>
        requires { self.now.top.region ≡ Some region.now }
        ensures value { next_view result ≡ next_of self.now }
        ensures fits { FitsNext (next_view result) }
    {
        match self.top.line(&self.text) {
            Some(line) => Next::RegionLine {
                region,
                line,
                is_end: region.is_ended_by(line),
            },
            None => self.next_around(Some(region)),
        }
    }

    // What comes next outside of regions.
    fn peek_outside(&self) -> Next<&[u8], &OpenRegion>
        requires { self.now.top.region ≡ None }
        ensures value { next_view result ≡ next_of self.now }
        ensures fits { FitsNext (next_view result) }
    {
        if let Some(part) = self.top.part(&self.text) {
            return Next::Part(part);
        }
        match self.top.line(&self.text) {
            Some(line) => Next::Line(line),
            None => self.next_around(None),
        }
    }

    /// The part of a line that comes next, if one does.
    #[inline(always)]
    pub fn part(&self) -> Option<LinePart<&[u8]>>
        ensures value { option_map line_part_view result ≡ part_in (next_of self.now) }
        ensures fits { IfSome result (λ part. FitsLinePart (line_part_view part)) }
    {
        if self.top.region().is_some() {
            return None;
        }
        self.top.part(&self.text)
    }

    /// The line that comes next, if all of it is one part, a leaf.
    pub fn whole_line(&self) -> Option<&[u8]>
        ensures value { IfSome result (λ line. part_in (next_of self.now) ≡ Some (Leaf line.now)) }
        ensures short { IfSome result (λ line. length line.now ≤ LINE) }
    {
        if self.top.region().is_some() {
            return None;
        }
        self.top.whole_line(&self.text)
    }

    /// The part of a line that comes next, if one does. Remembers where the line goes on after it: to go past it then takes less.
    #[inline(always)]
    pub fn read_part(&mut self) -> Option<LinePart<&[u8]>>
        ensures value { option_map line_part_view result ≡ part_in (next_of self.old) }
        ensures fits { IfSome result (λ part. FitsLinePart (line_part_view part)) }
        ensures* after { sem 𝓛 (follows_so the_row the_row self.entry.ghost_name none (λ _ _. ⊤) (λ v. v ≡ self.old)) }
    {
        if self.top.region().is_some() {
            return None;
        }
        self.top.read_part(&self.text)
    }

    /// Whether the part of a line that comes next, if one does, opens a block. What of a line belongs to a loop is not looked for.
    pub fn opens_block(&self) -> bool
        ensures { result ≡ opens_block (next_of self.now) }
    {
        if self.top.region().is_some() {
            return false;
        }
        self.top.opens_block(&self.text)
    }

    /// Whether a line begins next, outside of regions.
    pub fn begins_line(&self) -> bool
        ensures { result ≡ is_line (next_of self.now) }
    {
        self.top.begins_line()
    }

    /// How the part that comes next is reached.
    pub fn reached(&self) -> Reached
        ensures { result ≡ reached self.now.top.cursor }
    {
        self.top.cursor.reached()
    }

    /// The levels of the blocks of the innermost source.
    pub fn levels(&self) -> &Levels
        ensures value { result.now ≡ self.now.top.cursor.levels }
        ensures room { result.now.skipped < 2 ^ 63 }
    {
        self.top.cursor.levels()
    }

    /// Whether one more macro or loop may run inside the innermost source.
    pub fn may_call(&self) -> bool
        ensures { result ≡ is_some (depth self.now.under) }
    {
        self.callers.len() < CALLS
    }

    /// Whether the innermost source is the page.
    pub fn is_page(&self) -> bool
        ensures { result ≡ is_page self.now.top.kind }
    {
        self.top.is_page()
    }

    /// The arguments of the innermost macro, each with a line feed at its end; none on the page, and in its loops.
    pub fn arguments(&self) -> Option<&[u8]>
        ensures value { unpacked (text_view result) ≡ arguments_of self.now.top.kind }
        ensures short { IfSome result (λ packed. length packed.now ≤ ARGS) }
    {
        self.top.arguments(&self.text)
    }

    /// The open region of the innermost source.
    pub fn region(&self) -> Option<&OpenRegion>
        ensures { opened_view result ≡ self.now.top.region }
    {
        self.top.region()
    }

    /// A line of the page is to come, after the last one is done.
    pub fn set_line(&mut self, line: &[u8])
        requires idle { is_nothing (next_of self.old) ≡ true }
        requires line { IsLine line.now }
        requires skips { self.old.top.cursor.levels.skipped < 2 ^ 62 }
        ensures { self.new ≡ record { top = page_line line.now self.old.top; under = []; texts = [] } }
    {
        self.top.set_line(&mut self.text, line);
    }

    /// A line of the page came that is one part, after the last one is done, and is passed.
    pub fn pass_page_line(&mut self)
        requires idle { is_nothing (next_of self.old) ≡ true }
        requires skips { self.old.top.cursor.levels.skipped < 2 ^ 62 }
        ensures { self.new ≡ record { top = page_passed self.old.top; under = []; texts = [] } }
    {
        self.top.pass_page_line();
    }

    /// The innermost source goes past what comes next.
    #[inline(always)]
    pub fn go(&mut self, movement: Movement)
        requires { Suits movement (next_of self.old) }
        ensures { self.new ≡ with_top (went movement self.old.top) self.old }
    {
        self.top.go(&self.text, movement);
    }

    /// Calls a macro: a copy of its body runs, with arguments that have a line feed at the end of each.
    pub fn call(&mut self, body: &[u8], arguments: &[u8])
        requires room { is_some (depth self.old.under) ≡ true }
        requires body { length body.now ≤ BODY }
        requires arguments { length arguments.now ≤ ARGS }
        ensures { self.new ≡ call_of body.now arguments.now self.old }
    {
        let end = self.text.len();
        let callee = InputFrame::enter(&mut self.text, body, arguments);
        let source = mem::replace(&mut self.top, callee);
        self.callers.push_reserved(Caller { source, end });
    }

    /// Runs a loop: a copy of its text, which is its condition and the lines of its body, each with a line feed at its end, and of the arguments
    /// of the macro in which it is, if it is in one. A turn of it comes next.
    pub fn repeat(&mut self, text: &[u8], arguments: Option<&[u8]>)
        requires room { is_some (depth self.old.under) ≡ true }
        requires text { length text.now ≤ BODY }
        requires arguments { length (packed_text (text_view arguments)) ≤ ARGS }
        ensures { self.new ≡ loop_of text.now (text_view arguments.entry) self.old }
    {
        let end = self.text.len();
        let body = InputFrame::repeat(&mut self.text, text, arguments);
        let source = mem::replace(&mut self.top, body);
        self.callers.push_reserved(Caller { source, end });
    }

    /// The innermost source ends: a macro, or a loop of which no turn begins.
    pub fn end_source(&mut self)
        requires { may_end (next_of self.old) ≡ true }
        ensures sources { self.old.under ≡ self.new.top ∷ self.new.under }
        ensures texts { self.new.texts ≡ drop 1 self.old.texts }
    {
        let Caller { source, end } = self.callers.pop().unwrap();
        self.text.truncate(end);
        self.top = source;
    }

    /// Where the innermost source is, and what is held of the macros and loops that run, their bodies and arguments, is within its limits. Nothing
    /// is done: the source and those around it show it.
    pub fn caps_law(&self)
        ensures place { PlaceFits (record { region = self.now.top.region; levels = self.now.top.cursor.levels }) }
        ensures macros { length self.now.texts ≡ length self.now.under }
        ensures count { length self.now.texts ≤ CALLS }
        ensures bytes { sum_by length self.now.texts ≤ CALLS * (BODY + ARGS) }
    {
        self.top.caps_law();
    }
}
