//! The layers of a page: lines become rows and messages.

ghost use Rattle.std.specs.Prelude.{◌≡◌, ◌<◌, ◌+◌, ◌^◌, true, false, OnOk, IfOk, IfErr, MatchResult, Some, None};
ghost use Rattle.page_core_base.specs.laws.Views.{FailsBySink, Gets, IsFreeLine};
ghost use Rattle.page_core_base.specs.Texts.{IsLine};
ghost use Rattle.page_roff_lines.specs.laws.Cutting.{line_of};
ghost use Rattle.page_roff_source.specs.Runs.{counts_of};
ghost use Rattle.page_fill.specs.declared.edges.FillEdge.{FillEdge};
ghost use Rattle.page_engine.specs.machine.Layers.{IsAt};
ghost use Rattle.page_engine.specs.laws.Within.{IsWithin};
ghost use Rattle.page_engine.specs.machine.PageSinks.{settled_text, settled_line, ended, end_laid, Ends};
ghost use Rattle.page_engine.specs.Edges.{Edge, last_line, start};
ghost use Rattle.page_engine.specs.laws.Views.{IsReached};

use crate::edges::Edge as PageEdge;
use crate::level_filters::LevelFilter;
use crate::page_sinks::PageSink;
use crate::shown::{Shown, is_silent};
use page_core_base::{Fault, Level, NoteSink, Output, RowSink, Settings};
use page_engine_lines::PageLines;
use page_fill::PieceFiller;
use page_roff_lines::Cutter;
use page_roff_source::Counts;
use std::alloc::{AllocError, Global};

/// The layers of a page, and what it keeps beside them.
#[derive(Drop)]
pub(crate) struct Layers {
    pub(crate) filler: PieceFiller,
    pub(crate) lines: PageLines,
    pub(crate) output: Output,
    pub(crate) least: Option<Level>,
    pub(crate) worst: Option<Level>,
    /// The number of the last line.
    pub(crate) last: Option<u32>,
}

// Messages come to a sink by their level.
macro_rules! level_filter {
    ($layers:expr, $notes:expr) => {
        LevelFilter {
            notes: $notes,
            least: $layers.least,
            worst: $layers.worst,
        }
    };
}

// What the lines give goes to the filler, its rows and the messages to sinks.
macro_rules! page_sink {
    ($layers:expr, $rows:expr, $notes:expr) => {
        PageSink {
            filler: &mut $layers.filler,
            rows: Shown {
                rows: $rows,
                is_silent: is_silent($layers.output),
            },
            notes: level_filter!($layers, $notes),
        }
    };
}

impl<R: RowSink, N: NoteSink> PageSink<'_, '_, '_, R, N> {
    // Ends the body after a line, gives the footer, and ends the filling.
    fn end(&mut self, lines: &mut PageLines, last: u32) -> Result<(), Fault>
        ensures ends { (f : FillEdge) (e : Edge) → self.old.filler.now ≡ Some f → f ≡ e.fill
            → lines.old ≡ e.lines → last ≡ last_line e →
            Ends result ⟦<Shown<'static, R> as RowSink>⟧.gave ⟦<Shown<'static, R> as RowSink>⟧.within
            ⟦<Shown<'static, R> as RowSink>⟧.failed ⟦<LevelFilter<'static, N> as NoteSink>⟧.gave
            ⟦<LevelFilter<'static, N> as NoteSink>⟧.within ⟦<LevelFilter<'static, N> as NoteSink>⟧.failed
            self.old.rows self.new.rows self.old.notes self.new.notes (end_laid e) }
        ensures filler { self.new.filler.ghost_name ≡ self.old.filler.ghost_name }
        ensures rows { self.new.rows.rows.ghost_name ≡ self.old.rows.rows.ghost_name }
        ensures notes { self.new.notes.notes.ghost_name ≡ self.old.notes.notes.ghost_name }
        ensures rows_same { R.loans self.new.rows.rows.now ≡ R.loans self.old.rows.rows.now }
        ensures notes_same { N.loans self.new.notes.notes.now ≡ N.loans self.old.notes.notes.now }
    {
        if let Err(fault) = lines.end(self, last) {
            return Err(fault);
        }
        let blank_rows = self.filler.blank_rows();
        if let Err(fault) = lines.footer(self, last, blank_rows) {
            return Err(fault);
        }
        self.filler.finish(&mut self.rows, &mut self.notes)
    }
}

impl Layers {
    /// The layers of a page between two of its lines, where this is held.
    pub(crate) fn at(alloc: Global, edge: &PageEdge) -> Result<Layers, AllocError>
        ensures { IfOk result (λ p. IsAt p edge.now) }
    {
        let filler = edge.fill.filler(alloc)?;
        let lines = PageLines::at(alloc, &edge.lines)?;
        let output = edge.fill.output();
        Ok(Layers {
            filler,
            lines,
            output,
            least: edge.least,
            worst: edge.worst,
            last: edge.last,
        })
    }

    /// All that is held, in memory of its own. Its fault is [`Fault::Memory`].
    pub(crate) fn edge(&self, alloc: Global) -> Result<PageEdge, Fault>
        requires { (e : Edge) × IsAt self.now e × IsReached e }
        ensures { (e : Edge) → IsAt self.now e → MatchResult result (λ x. x ≡ e) (λ fault. fault ≡ Fault.Memory) }
    {
        let fill = self.filler.part(alloc)?;
        let Ok(lines) = self.lines.part(alloc) else {
            return Err(Fault::Memory);
        };
        Ok(PageEdge {
            fill,
            lines,
            least: self.least,
            worst: self.worst,
            last: self.last,
        })
    }

    /// The start of a page of settings that pass their check. Its fault is [`Fault::Memory`].
    pub(crate) fn new(alloc: Global, settings: &Settings) -> Result<Layers, Fault>
        ensures ok { IfOk result (λ p. IsAt p (start settings.now)) }
        ensures fault { IfErr result (λ fault. fault ≡ Fault.Memory) }
    {
        let filler = PieceFiller::new(alloc, settings)?;
        let lines = PageLines::new(alloc, settings)?;
        Ok(Layers {
            filler,
            lines,
            output: settings.output,
            least: settings.least,
            worst: None,
            last: None,
        })
    }

    /// Takes a line, which may be known to be free, and gives what it settles. After a fault, which is one of a sink, the layers are not
    /// to be used again.
    pub(crate) fn feed<R: RowSink, N: NoteSink>(
        &mut self,
        text: &[u8],
        number: u32,
        free: bool,
        rows: &mut R,
        notes: &mut N,
    ) -> Result<(), Fault>
        requires line { IsLine text.now }
        requires free { free ≡ true → IsFreeLine text.now }
        requires count { self.old.lines.roff.source < 2 ^ 31 }
        ensures gets { (e : Edge) → IsAt self.old e →
            Gets result R.gave R.within N.gave N.within rows.old rows.new notes.old notes.new
            (settled_text e text.now number) }
        ensures edge { (e : Edge) → IsAt self.old e →
            OnOk result (IsAt self.new (settled_text e text.now number).edge) }
        ensures source { self.new.lines.roff.source ≡ self.old.lines.roff.source + 1 }
        ensures faults { (e : Edge) → IsAt self.old e →
            FailsBySink result (R.failed rows.old) (R.failed rows.new)
            (N.failed notes.old) (N.failed notes.new) }
        ensures rows_same { R.loans rows.new ≡ R.loans rows.old }
        ensures notes_same { N.loans notes.new ≡ N.loans notes.old }
    {
        let mut sink = page_sink!(self, rows, notes);
        let result = self.lines.line(&mut sink, number, text, free);
        self.worst = sink.notes.worst;
        self.last = Some(number);
        result
    }
}

impl Layers {
    /// Takes the line that a cutter has, and gives what it settles. After a fault, which is one of a sink, the
    /// layers are not to be used again.
    pub(crate) fn take_line<R: RowSink, N: NoteSink>(
        &mut self,
        cutter: &mut Cutter,
        rows: &mut R,
        notes: &mut N,
    ) -> Result<(), Fault>
        requires ready { cutter.old.ready ≡ true }
        requires count { self.old.lines.roff.source < 2 ^ 31 }
        ensures gets { (e : Edge) → IsAt self.old e →
            Gets result R.gave R.within N.gave N.within rows.old rows.new notes.old notes.new
            (settled_line e (line_of cutter.old.point)) }
        ensures edge { (e : Edge) → IsAt self.old e →
            OnOk result (IsAt self.new (settled_line e (line_of cutter.old.point)).edge) }
        ensures source { OnOk result (self.new.lines.roff.source ≡ self.old.lines.roff.source + 1) }
        ensures faults { (e : Edge) → IsAt self.old e →
            FailsBySink result (R.failed rows.old) (R.failed rows.new)
            (N.failed notes.old) (N.failed notes.new) }
        ensures point { cutter.new.point ≡ cutter.old.point }
        ensures ready { cutter.new.ready ≡ false }
        ensures rows_same { R.loans rows.new ≡ R.loans rows.old }
        ensures notes_same { N.loans notes.new ≡ N.loans notes.old }
    {
        let free = cutter.is_free();
        let mut filter = level_filter!(self, &mut *notes);
        let line = cutter.line(&mut filter);
        self.worst = filter.worst;
        let (text, number) = line?;
        self.feed(text, number, free, rows, notes)
    }
}

impl Layers {
    /// Ends the page. After that the layers are not to be used again.
    pub(crate) fn end<R: RowSink, N: NoteSink>(
        &mut self,
        rows: &mut R,
        notes: &mut N,
    ) -> Result<(), Fault>
        ensures gets { (e : Edge) → IsAt self.old e →
            Gets result R.gave R.within N.gave N.within rows.old rows.new notes.old notes.new (ended e) }
        ensures worst { (e : Edge) → IsAt self.old e → OnOk result (self.new.worst ≡ (ended e).edge.worst) }
        ensures faults { (e : Edge) → IsAt self.old e →
            FailsBySink result (R.failed rows.old) (R.failed rows.new)
            (N.failed notes.old) (N.failed notes.new) }
        ensures rows_same { R.loans rows.new ≡ R.loans rows.old }
        ensures notes_same { N.loans notes.new ≡ N.loans notes.old }
    {
        let last = self.last.unwrap_or(1);
        let mut sink = page_sink!(self, rows, notes);
        let result = sink.end(&mut self.lines, last);
        self.worst = sink.notes.worst;
        result
    }

    /// What was counted so far.
    pub(crate) fn counts(&self) -> Counts
        ensures { result ≡ counts_of self.now.lines.roff }
    {
        self.lines.counts()
    }

    /// What is held between two lines is within its limits.
    pub(crate) fn caps_law(&self)
        ensures { (e : Edge) → IsAt self.now e → IsReached e → IsWithin e }
    {
        self.filler.caps_law();
        self.lines.caps_law();
    }
}
