//! The scopes of a page over a sink of pieces (man(7), mdoc(7)).

ghost use Rattle.std.specs.Prelude.{◌≡◌, ◌≤◌, None, Some, Err, IfSome, MatchResult, length, option_map};
ghost use Rattle.page_core_base.specs.laws.Views.{FailsByPieces};
ghost use Rattle.page_scopes.specs.laws.Views.{end_items, event_items, GoesOn, Settles, SinkEdge, after_event, chosen, layout_of, part_of, resumed, start_of};
ghost use Rattle.page_scopes.specs.Bodies.{start_edge};
ghost use Rattle.page_sets_lines.specs.laws.Views.{KindFits};
ghost use Rattle.page_sets_lines.specs.laws.Events.{kind_view, event_view};

use crate::OpenScopes;
use page_core_base::{Fault, PieceLatch, PieceSink, SCOPES, Settings};
use page_scopes_nodes::PageLayout;
use page_sets_lines::{Event, MacroSet};
use std::alloc::Global;
use std::marker::Model;

/// The scopes of a page: events in, pieces and messages out. After a fault, and after the page's end, each call fails with
/// [`Fault::Failed`].
#[derive(Drop)]
pub struct Scopes {
    scopes: OpenScopes,
    // The line of the last event, 1 before the first.
    line: u32,
    // The indent that the settings give.
    indent: Option<u32>,
    is_over: bool,
}

impl Model for Scopes {
    ghost use Rattle.std.specs.Prelude.{Option, None, Some, if◌then◌else◌};
    ghost use Rattle.page_scopes.specs.laws.Views.{SinkEdge};

    ghost Value = { Option SinkEdge };

    ghost view = { λ s. if s.is_over then None
        else Some (record { page = s.scopes; line = s.line; indent = s.indent }) };
}

/// What the scopes hold of a page between two of its lines, without the settings and the set of macros.
#[derive(Drop)]
pub struct ScopesPart {
    scopes: OpenScopes,
    line: u32,
}

impl Model for ScopesPart {
    ghost use Rattle.page_scopes.specs.laws.Views.{Part};

    ghost Value = { Part };

    ghost view = { λ p. record { page = p.scopes; line = p.line } };
}

// What of settings scopes are laid out by; the indent is that of a set of macros where they give none.
fn layout_of(settings: &Settings, indent: u32) -> PageLayout
    ensures { result ≡ layout_of settings.now indent }
{
    PageLayout {
        indent: settings.indent.unwrap_or(indent),
        output: settings.output,
    }
}

impl Scopes {
    /// The scopes of a page before its first line. Its fault is [`Fault::Memory`].
    pub fn new<S: MacroSet>(alloc: Global, settings: &Settings, set: &S) -> Result<Scopes, Fault>
        ensures { MatchResult result
            (λ scopes. scopes ≡ Some (start_of settings.now (S.page_indent set.now)))
            (λ fault. fault ≡ Fault.Memory) }
    {
        match OpenScopes::new(alloc, layout_of(settings, set.indent())) {
            Ok(scopes) => Ok(Scopes {
                scopes,
                line: 1,
                indent: settings.indent,
                is_over: false,
            }),
            Err(_) => Err(Fault::Memory),
        }
    }

    /// What the scopes hold of the page between two of its lines, in memory of its own.
    ///
    /// Its fault is [`Fault::Failed`] after a fault and after the page's end; else [`Fault::Memory`].
    pub fn part(&self, alloc: Global) -> Result<ScopesPart, Fault>
        ensures open { (sink : SinkEdge) → self.now ≡ Some sink
            → MatchResult result (λ part. part ≡ part_of sink) (λ fault. fault ≡ Fault.Memory) }
        ensures closed { self.now ≡ None → result ≡ Err Fault.Failed }
    {
        if self.is_over {
            return Err(Fault::Failed);
        }
        match self.scopes.copy(alloc, self.scopes.page()) {
            Ok(scopes) => Ok(ScopesPart {
                scopes,
                line: self.line,
            }),
            Err(_) => Err(Fault::Memory),
        }
    }

    /// The scopes between two lines of a page of settings that pass their check and of a set of macros, where they hold this part of it. Its fault is
    /// [`Fault::Memory`], with the part as it came.
    pub fn from_part<S: MacroSet>(
        alloc: Global,
        settings: &Settings,
        set: &S,
        part: ScopesPart,
    ) -> Result<Scopes, (ScopesPart, Fault)>
        ensures { MatchResult result
            (λ scopes. scopes ≡ Some (resumed settings.now (S.page_indent set.now) part))
            (λ refused. (refused.0 ≡ part) × (refused.1 ≡ Fault.Memory)) }
    {
        match part.scopes.copy(alloc, layout_of(settings, set.indent())) {
            Ok(scopes) => Ok(Scopes {
                scopes,
                line: part.line,
                indent: settings.indent,
                is_over: false,
            }),
            Err(_) => Err((part, Fault::Memory)),
        }
    }

    /// The page is one of a set of macros from here on, and is at its indent, unless the settings give another. Nothing
    /// has come of it yet.
    pub fn choose<S: MacroSet>(&mut self, set: &S)
        requires { IfSome self.old (λ sink. sink.page ≡ start_edge sink.page.state.page) }
        ensures { self.new ≡ option_map (chosen (S.page_indent set.now)) self.old }
    {
        let page = PageLayout {
            indent: self.indent.unwrap_or(set.indent()),
            output: self.scopes.page().output,
        };
        self.scopes.restart(page);
    }

    /// The number of open scopes.
    pub fn depth(&self) -> usize
        ensures is { IfSome self.now (λ sink. result ≡ length sink.page.scopes) }
        ensures within { result ≤ SCOPES }
    {
        self.scopes.depth()
    }

    /// Takes an event of a line, and gives what it settles. Its faults are those of the sink: [`Fault::WriteText`] where rows
    /// failed, [`Fault::WriteNotes`] where messages did.
    pub fn apply<O: PieceSink>(&mut self, event: Event<&[u8]>, out: &mut O) -> Result<(), Fault>
        requires { KindFits (kind_view event.kind) }
        ensures gives { Settles result O.took O.broke self.old
            (λ sink. event_items sink.page (event_view event.entry)) out.old out.new }
        ensures faults { FailsByPieces result (O.row_failed out.old) (O.row_failed out.new)
            (O.failed out.old) (O.failed out.new) }
        ensures edge { GoesOn result self.old (after_event (event_view event.entry)) self.new }
        ensures same { O.loans out.new ≡ O.loans out.old }
    {
        if self.is_over {
            return Err(Fault::Failed);
        }
        let mut latch = PieceLatch::new(out);
        self.scopes.give_event(&event, &mut latch);
        self.line = event.place.line;
        let done = latch.done();
        self.is_over = done.is_err();
        done
    }

    /// Ends the page on the line of its last event: all scopes end, and the row. Its faults are those of the sink.
    pub fn finish<O: PieceSink>(&mut self, out: &mut O) -> Result<(), Fault>
        ensures gives { Settles result O.took O.broke self.old
            (λ sink. end_items sink.page sink.line) out.old out.new }
        ensures faults { FailsByPieces result (O.row_failed out.old) (O.row_failed out.new)
            (O.failed out.old) (O.failed out.new) }
        ensures over { self.new ≡ None }
        ensures same { O.loans out.new ≡ O.loans out.old }
    {
        if self.is_over {
            return Err(Fault::Failed);
        }
        let mut latch = PieceLatch::new(out);
        self.scopes.give_end(self.line, &mut latch);
        self.is_over = true;
        latch.done()
    }
}
