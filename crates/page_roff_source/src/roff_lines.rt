//! The source lines of a page, run one after another.

ghost use Rattle.std.specs.Prelude.{◌≡◌, ◌≤◌, ◌<◌, ◌^◌, ⊤, true, [], length, IfOk, IfSome, None, option_map};
ghost use mathlib.Core.Option.{none};
ghost use Rattle.std.specs.Borrow.{sem, follows_so};
ghost use Rattle.page_core_base.specs.laws.Views.{line_view, IsFreeLine, Came};
ghost use Rattle.page_core_base.specs.Texts.{IsLine};
ghost use Rattle.page_core_base.specs.declared.limits.TheConstants.{LINE};
ghost use Rattle.page_roff_machine.specs.Giving.{notes_before, next_line};
ghost use Rattle.page_roff_source.specs.laws.Views.{RoffFits, RunsWithin, given_of, line_taken, is_idle, edge_at, part_of};
ghost use Rattle.page_roff_source.specs.Runs.{first_edge, end_notes, counts_of};
ghost use Rattle.page_roff_source.specs.machine.RoffLines.{run_begun, TakesSource, RunsOn, run_if};

use crate::counts::Counts;
use crate::parts::RoffPart;
use page_core_base::{NoteOut, Output, Taken};
use page_roff_machine::Machine;
use std::alloc::{AllocError, Global};
use std::marker::Model;

/// What of the present source line is still to be given.
#[derive(Clone, Copy)]
pub(crate) enum Remaining {
    /// Nothing: it is done, or none came.
    Nothing,
    /// The line that was taken of it at once, and nothing else.
    Line,
    /// No line, but its end has not been reported yet.
    End,
    /// What the machine runs.
    Run,
}

// What remains after the machine ran on up to a line, or up to the end.
fn run_if(is_taken: bool) -> Remaining
    ensures { result ≡ run_if is_taken }
{
    if is_taken {
        Remaining::Run
    } else {
        Remaining::Nothing
    }
}

/// Runs the source lines of a page one after another, with their macros and loops, and lends the finished lines that they give.
///
/// It reports to what never fails; [`Roff`](crate::Roff) reports to a sink. All memory is reserved by [`RoffLines::new`] and
/// [`RoffLines::at`].
#[derive(Drop)]
pub struct RoffLines {
    machine: Machine,
    source: u64,
    remaining: Remaining,
}

impl Model for RoffLines {
    ghost use Rattle.page_roff_source.specs.machine.RoffLines.{LinesState, state_of, IsAtEdge};

    ghost Value = { LinesState };

    ghost view = { λ l. state_of l.machine l.source l.remaining };

    ghost invariant = { λ l. IsAtEdge l.machine l.source l.remaining };
}

impl RoffLines {
    ghost use Rattle.page_roff_source.specs.contracts.roff_lines.RoffLines.{the_row};

    /// Roff before the first line of a page, for an output.
    pub fn new(alloc: Global, output: Output) -> Result<RoffLines, AllocError>
        ensures edge { IfOk result (λ l. l.edge ≡ first_edge output) }
        ensures running { IfOk result (λ l. l.running ≡ []) }
    {
        Ok(RoffLines {
            machine: Machine::new(alloc, output)?,
            source: 0,
            remaining: Remaining::Nothing,
        })
    }

    /// Roff between two lines of a page, for an output. All memory is reserved here.
    pub fn at(alloc: Global, output: Output, part: &RoffPart) -> Result<RoffLines, AllocError>
        ensures edge { IfOk result (λ l. l.edge ≡ edge_at output part.now) }
        ensures running { IfOk result (λ l. l.running ≡ []) }
    {
        let machine = Machine::at(alloc, output, &part.standing, &part.remembered, part.taken)?;
        Ok(RoffLines {
            machine,
            source: part.source,
            remaining: Remaining::Nothing,
        })
    }

    /// Roff's part of what is held of the page, in memory of its own.
    pub fn part(&self, alloc: Global) -> Result<RoffPart, AllocError>
        requires { self.now.edge.to_come ≡ None }
        ensures { IfOk result (λ part. part ≡ part_of self.now.edge) }
    {
        let remembered = self.machine.remembered(alloc)?;
        self.machine.passed_law();
        Ok(RoffPart {
            standing: self.machine.standing(),
            remembered,
            source: self.source,
            taken: self.machine.taken(),
        })
    }

    /// Begins the source line of a number; a page has at most 2^31 of them. What it gives is asked for by
    /// [`RoffLines::take_into`], up to its end, before another one.
    pub fn source(&mut self, line: &[u8], number: u32)
        requires idle { self.old.edge.to_come ≡ None }
        requires line { IsLine line.now }
        requires count { self.old.edge.source < 2 ^ 31 }
        ensures { self.new.edge ≡ run_begun self.old.edge (record { text = line.now; number = number; notes = [] }) }
    {
        self.source += 1;
        match self.machine.begin(line, number, false) {
            Some(taken) => {
                self.machine.keep(taken);
                self.remaining = Remaining::Line;
            }
            None => self.remaining = Remaining::Run,
        }
    }

    /// A source line begins as by [`RoffLines::source`], which may be known to be free: no comment, no end of a block and no
    /// interpolation begins in it. Where all that it gives is itself, as it is written, it is lent, and is done.
    pub fn take_source<'l>(&mut self, line: &'l [u8], number: u32, free: bool) -> Option<Taken<'l>>
        requires idle { self.old.edge.to_come ≡ None }
        requires line { IsLine line.now }
        requires free { free ≡ true → IsFreeLine line.now }
        requires count { self.old.edge.source < 2 ^ 31 }
        ensures takes { TakesSource (option_map line_view result) (record { text = line.now; number = number; notes = [] })
            self.old.edge self.new.edge }
        ensures text { IfSome result (λ taken. length taken.text.now ≤ LINE) }
    {
        self.source += 1;
        let taken = self.machine.begin(line, number, free);
        if taken.is_none() {
            self.remaining = Remaining::Run;
        }
        taken
    }

    /// Runs on up to the next finished line; whether there is one.
    pub(crate) fn advance<O: NoteOut>(&mut self, out: &mut O) -> bool
        ensures { RunsOn O.left self.old out.old result self.new out.new }
    {
        match self.remaining {
            Remaining::Nothing => false,
            Remaining::End => {
                self.remaining = Remaining::Nothing;
                false
            }
            Remaining::Line => {
                self.remaining = Remaining::End;
                true
            }
            Remaining::Run => {
                let is_taken = self.machine.advance(out);
                self.remaining = run_if(is_taken);
                is_taken
            }
        }
    }

    /// The finished line that was given last.
    pub(crate) fn line(&self) -> Taken<'_>
        ensures line { line_view result ≡ self.now.line }
        ensures short { length result.text.now ≤ LINE }
    {
        self.machine.line()
    }

    /// The next finished line of the source line, of at most `LINE` bytes; none where the source line is done. The messages before it are reported first.
    pub fn take_into<O: NoteOut>(&mut self, out: &mut O) -> Option<Taken<'_>>
        ensures came { Came O.left out.old (notes_before (given_of self.old.edge)) out.new }
        ensures line { option_map line_view result ≡ next_line (given_of self.old.edge) }
        ensures text { IfSome result (λ taken. length taken.text.now ≤ LINE) }
        ensures* after { sem 𝓛 (follows_so the_row the_row self.entry.ghost_name none (λ _ _. ⊤)
            (λ v. v.edge ≡ line_taken self.old.edge)) }
    {
        if self.advance(out) {
            Some(self.line())
        } else {
            None
        }
    }

    /// The page ends after a line that is done: an open region, or an open loop, is reported.
    pub fn end_into<O: NoteOut>(&mut self, out: &mut O)
        requires { self.old.edge.to_come ≡ None }
        ensures came { Came O.left out.old (end_notes self.old.edge) out.new }
        ensures idle { self.new.edge.to_come ≡ None }
    {
        self.machine.end(out);
    }

    /// Whether the last source line is done, or none came.
    pub(crate) fn is_idle(&self) -> bool
        ensures { result ≡ is_idle self.now.edge }
    {
        matches!(self.remaining, Remaining::Nothing)
    }

    /// What was counted up to the last line that is done.
    pub fn counts(&self) -> Counts
        ensures { self.now.edge.to_come ≡ None → result ≡ counts_of self.now.edge }
    {
        Counts {
            source: self.source,
            taken: self.machine.taken(),
            expansions: self.machine.expansions(),
        }
    }

    /// What is held, between two lines and in a line, is within its limits. Nothing is done: the machine shows it.
    pub fn caps_law(&self)
        ensures fits { self.now.edge.to_come ≡ None → RoffFits self.now.edge }
        ensures running { RunsWithin self.now.running }
    {
        self.machine.caps_law();
    }
}
