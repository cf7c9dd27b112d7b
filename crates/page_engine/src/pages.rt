//! A page that streams: lines come one by one, and what they settle goes out at once.

ghost use Rattle.std.specs.Prelude.{◌≡◌, ◌<◌, ◌+◌, ◌-◌, ◌^◌, true, false, [], ◌∷◌, None, Some, Err, IfOk, OnOk, OnErr, MatchOption, MatchResult};
ghost use Rattle.page_core_base.specs.Settings.{IsGood};
ghost use Rattle.page_core_base.specs.Texts.{IsLine};
ghost use Rattle.page_core_base.specs.declared.faults.Fault.{Fault};
ghost use Rattle.page_roff_lines.specs.laws.Cutting.{line_of};
ghost use Rattle.page_engine.specs.Edges.{Edge, start};
ghost use Rattle.page_engine.specs.laws.Views.{text_line, AreWell, sinks};
ghost use Rattle.page_engine.specs.Page.{settled, page};
ghost use Rattle.page_engine.specs.laws.Within.{HoldsWithin, IsWithin};
ghost use Rattle.page_engine.specs.laws.States.{IsOpenAt, CannotStart, closed, line_fault, line_fault_of, IsRefused, Takes, Ends};

use crate::edges::Edge as PageEdge;
use crate::layers::Layers;
use page_core_base::{Fault, Level, NoteSink, RowSink, Settings};
use page_roff_lines::Cutter;
use page_roff_source::Counts;
use std::alloc::Global;
use std::marker::Model;

/// The source lines of a page at most.
pub const LINES: u64 = 2_147_483_647;

/// Whether a page takes lines.
#[derive(Clone, Copy)]
pub enum Phase {
    /// It takes lines, and its end.
    Open,
    /// A sink failed.
    Failed,
    /// It has ended well.
    Ended,
}

impl Phase {
    // The fault of each call on a page that is not open.
    pub(crate) fn fault(self) -> Option<Fault>
        ensures is { result ≡ closed self }
        ensures open { result ≡ None → self ≡ Phase.Open }
    {
        match self {
            Phase::Open => None,
            Phase::Failed => Some(Fault::Failed),
            Phase::Ended => Some(Fault::Ended),
        }
    }

    // A line begins after a count of lines: the page counts as failed until all of it was given. Or the line is
    // refused with a fault, and nothing changes.
    fn begin_line(&mut self, source: u64) -> Option<Fault>
        ensures is { result ≡ line_fault_of self.old source }
        ensures begins { MatchOption result
            ((self.old ≡ Phase.Open) × (source < 2 ^ 31 - 1) × (self.new ≡ Phase.Failed))
            (λ _. self.new ≡ self.old) }
    {
        match *self {
            Phase::Open if source >= LINES => Some(Fault::TooLong),
            Phase::Open => {
                *self = Phase::Failed;
                None
            }
            Phase::Failed => Some(Fault::Failed),
            Phase::Ended => Some(Fault::Ended),
        }
    }
}

/// A page whose lines come one by one. What a line settles is given before the call returns; what is held
/// between two lines is the page's edge.
#[derive(Drop)]
pub struct Page {
    layers: Layers,
    phase: Phase,
    counts: Counts,
}

impl Model for Page {
    ghost use Rattle.page_engine.specs.machine.Layers.{edge_of, IsKept};
    ghost use Rattle.page_engine.specs.laws.States.{PageState};

    ghost Value = { PageState };

    ghost view = { λ p. record {
      phase = p.phase;
      edge = edge_of p.layers;
      worst = p.layers.worst;
      counts = p.counts;
    } };

    ghost invariant = { λ p. IsKept p.phase p.counts p.layers };
}

// What the two ways to take a line have in common. The page counts as failed until all of the line was given.
macro_rules! takes_line {
    ($page:ident, $taken:expr) => {{
        if let Some(fault) = $page.phase.begin_line($page.counts.source) {
            return Err(fault);
        }
        let worst = $page.layers.worst;
        if let Err(fault) = $taken {
            $page.layers.worst = worst;
            return Err(fault);
        }
        $page.layers.caps_law();
        $page.counts = $page.layers.counts();
        $page.phase = Phase::Open;
        Ok(())
    }};
}

impl Page {
    /// The start of a page. The settings are checked first, with [`Fault::Settings`]; then memory is reserved for
    /// all that the page will ever hold, with [`Fault::Memory`].
    pub fn new(alloc: Global, settings: Settings) -> Result<Page, Fault>
        ensures starts { MatchResult result (λ p. IsGood settings × IsOpenAt p (start settings))
            (λ fault. CannotStart settings fault) }
        ensures within { IfOk result HoldsWithin }
    {
        if let Err(fault) = settings.check() {
            return Err(Fault::Settings(fault));
        }
        let layers = Layers::new(alloc, &settings)?;
        let counts = layers.counts();
        layers.caps_law();
        Ok(Page {
            layers,
            phase: Phase::Open,
            counts,
        })
    }

    /// All that is held of the page between two of its lines, in memory of its own; the page stays as it is.
    ///
    /// Its faults are in this order: [`Fault::Ended`] after a good end, [`Fault::Failed`] after a fault of a sink; then [`Fault::Memory`].
    pub fn edge(&self, alloc: Global) -> Result<PageEdge, Fault>
        ensures open { (e : Edge) → IsOpenAt self.now e → MatchResult result (λ x. x ≡ e) (λ fault. fault ≡ Fault.Memory) }
        ensures within { IfOk result IsWithin }
        ensures refused { (fault : Fault) → closed self.now.phase ≡ Some fault → result ≡ Err fault }
    {
        if let Some(fault) = self.phase.fault() {
            return Err(fault);
        }
        self.layers.caps_law();
        self.layers.edge(alloc)
    }

    /// A page that goes on from what is held of one between two of its lines. Its fault is [`Fault::Memory`], with the edge as it came.
    pub fn resume(alloc: Global, edge: PageEdge) -> Result<Page, (PageEdge, Fault)>
        ensures resumes { MatchResult result (λ p. IsOpenAt p edge)
            (λ refused. (refused.0 ≡ edge) × (refused.1 ≡ Fault.Memory)) }
        ensures within { IfOk result HoldsWithin }
    {
        edge.reached_law();
        match Layers::at(alloc, &edge) {
            Ok(layers) => {
                let open = Phase::Open;
                let counts = layers.counts();
                layers.caps_law();
                Ok(Page {
                    layers,
                    phase: open,
                    counts,
                })
            }
            Err(_) => Err((edge, Fault::Memory)),
        }
    }

    /// Takes a line with its number, and gives what it settles.
    ///
    /// Its faults are in this order: [`Fault::Ended`] after a good end, [`Fault::Failed`] after a fault of a sink,
    /// [`Fault::TooLong`] after [`LINES`] lines, by which nothing changes; then [`Fault::WriteText`] and
    /// [`Fault::WriteNotes`], of the sink that failed.
    pub fn feed_line<R: RowSink, N: NoteSink>(
        &mut self,
        text: &[u8],
        number: u32,
        rows: &mut R,
        notes: &mut N,
    ) -> Result<(), Fault>
        requires { IsLine text.now }
        ensures takes { (e : Edge) → IsOpenAt self.old e → line_fault self.old ≡ None →
            Takes result (sinks R.gave R.within R.failed N.gave N.within N.failed)
            rows.old rows.new notes.old notes.new e (settled e (text_line text.now number ∷ [])) self.new }
        ensures within { OnOk result (HoldsWithin self.new) }
        ensures works { (e : Edge) → IsOpenAt self.old e → line_fault self.old ≡ None →
            AreWell (sinks R.gave R.within R.failed N.gave N.within N.failed) rows.old rows.new notes.old notes.new
            → OnErr result ⊥ }
        ensures refused { (fault : Fault) → line_fault self.old ≡ Some fault →
            IsRefused result fault self.old self.new rows.old rows.new notes.old notes.new }
        ensures rows_same { R.loans rows.new ≡ R.loans rows.old }
        ensures notes_same { N.loans notes.new ≡ N.loans notes.old }
    {
        takes_line!(self, self.layers.feed(text, number, false, rows, notes))
    }
}

impl Page {
    /// Takes the line that a cutter has, after the messages of its cutting, and gives what it settles. Its faults
    /// are those of [`Page::feed_line`], in the same order.
    pub fn take_line<R: RowSink, N: NoteSink>(
        &mut self,
        cutter: &mut Cutter,
        rows: &mut R,
        notes: &mut N,
    ) -> Result<(), Fault>
        requires { cutter.old.ready ≡ true }
        ensures takes { (e : Edge) → IsOpenAt self.old e → line_fault self.old ≡ None →
            Takes result (sinks R.gave R.within R.failed N.gave N.within N.failed)
            rows.old rows.new notes.old notes.new e (settled e (line_of cutter.old.point ∷ [])) self.new }
        ensures refused { (fault : Fault) → line_fault self.old ≡ Some fault →
            IsRefused result fault self.old self.new rows.old rows.new notes.old notes.new }
        ensures within { OnOk result (HoldsWithin self.new) }
        ensures works { (e : Edge) → IsOpenAt self.old e → line_fault self.old ≡ None →
            AreWell (sinks R.gave R.within R.failed N.gave N.within N.failed) rows.old rows.new notes.old notes.new
            → OnErr result ⊥ }
        ensures source { OnOk result (self.new.counts.source ≡ self.old.counts.source + 1) }
        ensures point { OnOk result (cutter.new.point ≡ cutter.old.point) }
        ensures ready { OnOk result (cutter.new.ready ≡ false) }
        ensures taken { line_fault self.old ≡ None
            → (cutter.new.point ≡ cutter.old.point) × (cutter.new.ready ≡ false) }
        ensures waits { (fault : Fault) → line_fault self.old ≡ Some fault → cutter.new ≡ cutter.old }
        ensures rows_same { R.loans rows.new ≡ R.loans rows.old }
        ensures notes_same { N.loans notes.new ≡ N.loans notes.old }
    {
        takes_line!(self, self.layers.take_line(cutter, rows, notes))
    }
}

impl Page {
    /// Ends the page, and gives the rest. Its faults are in this order: [`Fault::Ended`] after a good end,
    /// [`Fault::Failed`] after a fault of a sink; then [`Fault::WriteText`] and [`Fault::WriteNotes`], of the sink
    /// that failed.
    pub fn end<R: RowSink, N: NoteSink>(&mut self, rows: &mut R, notes: &mut N) -> Result<(), Fault>
        ensures ends { (e : Edge) → IsOpenAt self.old e →
            Ends result (sinks R.gave R.within R.failed N.gave N.within N.failed)
            rows.old rows.new notes.old notes.new e (page e []) self.new }
        ensures works { (e : Edge) → IsOpenAt self.old e →
            AreWell (sinks R.gave R.within R.failed N.gave N.within N.failed) rows.old rows.new notes.old notes.new
            → OnErr result ⊥ }
        ensures refused { (fault : Fault) → closed self.old.phase ≡ Some fault →
            IsRefused result fault self.old self.new rows.old rows.new notes.old notes.new }
        ensures rows_same { R.loans rows.new ≡ R.loans rows.old }
        ensures notes_same { N.loans notes.new ≡ N.loans notes.old }
    {
        if let Some(fault) = self.phase.fault() {
            return Err(fault);
        }
        self.phase = Phase::Failed;
        let worst = self.layers.worst;
        if let Err(fault) = self.layers.end(rows, notes) {
            self.layers.worst = worst;
            return Err(fault);
        }
        self.phase = Phase::Ended;
        Ok(())
    }

    /// Whether the page takes lines. While it does, it is at an edge, one that a page comes to.
    pub fn phase(&self) -> Phase
        ensures is { result ≡ self.now.phase }
        ensures open { self.now.phase ≡ Phase.Open → (e : Edge) × IsOpenAt self.now e }
    {
        self.phase
    }

    /// What was counted up to the last line that came whole.
    pub fn counts(&self) -> Counts
        ensures { result ≡ self.now.counts }
    {
        self.counts
    }

    /// The worst level of the messages that were given; after a fault of a sink, of those before the line, or the end, at which it failed.
    pub fn worst(&self) -> Option<Level>
        ensures { result ≡ self.now.worst }
    {
        self.layers.worst
    }
}
