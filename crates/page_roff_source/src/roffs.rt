//! Roff over a sink of messages.

ghost use Rattle.std.specs.Prelude.{◌≡◌, ◌≤◌, true, ◌<◌, ◌^◌, length, ⊤, [], None, Some, Ok, Err, IfOk, IfErr, IfSome, MatchResult, option_map};
ghost use mathlib.Core.Option.{none};
ghost use Rattle.std.specs.Borrow.{sem, follows_so};
ghost use Rattle.page_core_base.specs.laws.Views.{line_view};
ghost use Rattle.page_core_base.specs.Texts.{IsLine};
ghost use Rattle.page_core_base.specs.declared.limits.TheConstants.{LINE};
ghost use Rattle.page_roff_machine.specs.Giving.{notes_before, next_line};
ghost use Rattle.page_roff_source.specs.laws.Views.{RoffFits, RunsWithin, line_begun, given_of, line_taken, part_of, first_state, state_at, is_idle_at, counts_from, Reports};
ghost use Rattle.page_roff_source.specs.Runs.{RoffEdge, end_notes, counts_of};
ghost use Rattle.page_roff_machine.specs.machine.Machines.{taken_if};

use crate::counts::Counts;
use crate::parts::RoffPart;
use crate::roff_lines::RoffLines;
use page_core_base::{Fault, NoteLatch, NoteSink, Settings, Taken};
use std::alloc::Global;
use std::marker::Model;

/// Runs the source lines of a page one after another, and lends the finished lines that they give (roff(7)).
///
/// After a failure of the sink, and after the end, it is of no use. All memory is reserved by [`Roff::new`] and
/// [`Roff::from_part`]; no other call but [`Roff::part`] asks for any.
#[derive(Drop)]
pub struct Roff {
    lines: RoffLines,
    // What was counted up to the last line that is done.
    counts: Counts,
    is_going: bool,
}

impl Model for Roff {
    ghost use Rattle.std.specs.Prelude.{◌≡◌, true, Some, None, if◌then◌else◌};
    ghost use Rattle.page_roff_source.specs.laws.Views.{RoffState};

    ghost Value = { RoffState };

    ghost view = { λ r. record {
      edge = if r.is_going then Some r.lines.edge else None;
      running = r.lines.running;
      counts = r.counts;
    } };

    ghost use Rattle.page_roff_source.specs.Runs.{counts_of};

    ghost invariant = { λ r. r.is_going ≡ true → r.lines.edge.to_come ≡ None → r.counts ≡ counts_of r.lines.edge };
}

// Runs on up to the next finished line over a sink; whether there is one.
fn advance<N: NoteSink>(lines: &mut RoffLines, notes: &mut N) -> Result<bool, Fault>
    ensures reports { Reports N.gave N.within N.failed result notes.old
        (notes_before (given_of lines.old.edge)) notes.new }
    ensures line { IfOk result (λ is_taken. next_line (given_of lines.old.edge)
        ≡ taken_if is_taken lines.new.line) }
    ensures edge { lines.new.edge ≡ line_taken lines.old.edge }
    ensures same { N.loans notes.new ≡ N.loans notes.old }
{
    let mut latch = NoteLatch::new(notes);
    let is_taken = lines.advance(&mut latch);
    match latch.done() {
        Ok(()) => Ok(is_taken),
        Err(fault) => Err(fault),
    }
}

// Ends the page over a sink.
fn end<N: NoteSink>(lines: &mut RoffLines, notes: &mut N) -> Result<(), Fault>
    requires { lines.old.edge.to_come ≡ None }
    ensures reports { Reports N.gave N.within N.failed result notes.old (end_notes lines.old.edge) notes.new }
    ensures same { N.loans notes.new ≡ N.loans notes.old }
{
    let mut latch = NoteLatch::new(notes);
    lines.end_into(&mut latch);
    latch.done()
}

impl Roff {
    ghost use Rattle.page_roff_source.specs.contracts.roffs.Roff.{the_row};

    /// Before the first line of a page of settings that pass their check. Its fault is [`Fault::Memory`].
    pub fn new(alloc: Global, settings: &Settings) -> Result<Roff, Fault>
        ensures ok { IfOk result (λ r. r ≡ first_state settings.now.output) }
        ensures fault { IfErr result (λ fault. fault ≡ Fault.Memory) }
    {
        let Ok(lines) = RoffLines::new(alloc, settings.output) else {
            return Err(Fault::Memory);
        };
        Ok(Roff {
            lines,
            counts: Counts {
                source: 0,
                taken: 0,
                expansions: 0,
            },
            is_going: true,
        })
    }

    /// Roff's part of what is held of the page between two of its lines, in memory of its own.
    ///
    /// Its fault is [`Fault::Failed`] after a failure of the sink and after the end; else [`Fault::Memory`].
    pub fn part(&self, alloc: Global) -> Result<RoffPart, Fault>
        requires { IfSome self.now.edge (λ e. e.to_come ≡ None) }
        ensures open { (e : RoffEdge) → self.now.edge ≡ Some e
            → MatchResult result (λ part. part ≡ part_of e) (λ fault. fault ≡ Fault.Memory) }
        ensures closed { self.now.edge ≡ None → result ≡ Err Fault.Failed }
    {
        if !self.is_going {
            return Err(Fault::Failed);
        }
        match self.lines.part(alloc) {
            Ok(part) => Ok(part),
            Err(_) => Err(Fault::Memory),
        }
    }

    /// Roff between two lines of a page of settings that pass their check, where it holds this part of it. Its fault is [`Fault::Memory`], with the
    /// part as it came.
    pub fn from_part(
        alloc: Global,
        settings: &Settings,
        part: RoffPart,
    ) -> Result<Roff, (RoffPart, Fault)>
        ensures { MatchResult result
            (λ r. r ≡ state_at settings.now.output part)
            (λ refused. (refused.0 ≡ part) × (refused.1 ≡ Fault.Memory)) }
    {
        match RoffLines::at(alloc, settings.output, &part) {
            Ok(lines) => {
                let counts = lines.counts();
                Ok(Roff {
                    lines,
                    counts,
                    is_going: true,
                })
            }
            Err(_) => Err((part, Fault::Memory)),
        }
    }

    /// Begins the source line of a number; a page has at most 2^31 of them. What it gives is asked for by [`Roff::take`], up to
    /// its end, before another one.
    pub fn source(&mut self, line: &[u8], number: u32)
        requires idle { IfSome self.old.edge (λ e. e.to_come ≡ None) }
        requires line { IsLine line.now }
        requires count { IfSome self.old.edge (λ e. e.source < 2 ^ 31) }
        ensures edge { self.new.edge ≡ option_map
            (λ e. line_begun e (record { text = line.now; number = number; notes = [] })) self.old.edge }
        ensures counts { self.new.counts ≡ self.old.counts }
    {
        if self.is_going {
            self.lines.source(line, number);
        }
    }

    /// The next finished line of the source line, of at most `LINE` bytes; none where the source line is done. The messages before it are given first.
    ///
    /// Its fault is [`Fault::WriteNotes`]; after it, and after the end, it is [`Fault::Failed`].
    pub fn take<N: NoteSink>(&mut self, notes: &mut N) -> Result<Option<Taken<'_>>, Fault>
        ensures reports { (e : RoffEdge) → self.old.edge ≡ Some e
            → Reports N.gave N.within N.failed result notes.old (notes_before (given_of e)) notes.new }
        ensures line { (e : RoffEdge) → self.old.edge ≡ Some e
            → IfOk result (λ taken. option_map line_view taken ≡ next_line (given_of e)) }
        ensures text { IfOk result (λ taken. IfSome taken (λ t. length t.text.now ≤ LINE)) }
        ensures closed { self.old.edge ≡ None → (result ≡ Err Fault.Failed) × (notes.new ≡ notes.old) }
        ensures same { N.loans notes.new ≡ N.loans notes.old }
        ensures* after { sem 𝓛 (follows_so the_row the_row self.entry.ghost_name none (λ _ _. ⊤)
            (λ v. MatchResult result
            (λ _. (v.edge ≡ option_map line_taken self.old.edge) × (v.counts ≡ counts_from self.old.counts v.edge)
            × RunsWithin v.running)
            (λ _. (v.edge ≡ None) × (v.counts ≡ self.old.counts)))) }
    {
        if !self.is_going {
            return Err(Fault::Failed);
        }
        let advanced = advance(&mut self.lines, notes);
        self.lines.caps_law();
        match advanced {
            Ok(true) => Ok(Some(self.lines.line())),
            Ok(false) => {
                self.counts = self.lines.counts();
                Ok(None)
            }
            Err(fault) => {
                self.is_going = false;
                Err(fault)
            }
        }
    }

    /// The page ends after a line that is done: an open region, or an open loop, is reported. From then on nothing is taken.
    ///
    /// Its fault is [`Fault::WriteNotes`]; after it, and after an earlier end, it is [`Fault::Failed`].
    pub fn end<N: NoteSink>(&mut self, notes: &mut N) -> Result<(), Fault>
        requires { IfSome self.old.edge (λ e. e.to_come ≡ None) }
        ensures reports { (e : RoffEdge) → self.old.edge ≡ Some e
            → Reports N.gave N.within N.failed result notes.old (end_notes e) notes.new }
        ensures closed { self.old.edge ≡ None → (result ≡ Err Fault.Failed) × (notes.new ≡ notes.old) }
        ensures ended { (self.new.edge ≡ None) × (self.new.counts ≡ self.old.counts) }
        ensures same { N.loans notes.new ≡ N.loans notes.old }
    {
        if !self.is_going {
            return Err(Fault::Failed);
        }
        self.is_going = false;
        end(&mut self.lines, notes)
    }

    /// Whether the last source line is done, or none came; after a failure and the end there is none.
    pub fn idle(&self) -> bool
        ensures { result ≡ is_idle_at self.now.edge }
    {
        !self.is_going || self.lines.is_idle()
    }

    /// What was counted up to the last line that is done: inside a line, and after a failure and the end too.
    pub fn counts(&self) -> Counts
        ensures value { result ≡ self.now.counts }
        ensures done { IfSome self.now.edge (λ e. e.to_come ≡ None → result ≡ counts_of e) }
    {
        self.counts
    }

    /// What is held, between two lines and in a line, is within its limits. Nothing is done: the lines show it.
    pub fn caps_law(&self)
        ensures fits { IfSome self.now.edge (λ e. e.to_come ≡ None → RoffFits e) }
        ensures running { RunsWithin self.now.running }
    {
        self.lines.caps_law();
    }
}
