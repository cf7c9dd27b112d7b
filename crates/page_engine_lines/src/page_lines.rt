//! The layers of a page that make pieces of its source lines: roff, and the macros.

ghost use Rattle.std.specs.Prelude.{◌≡◌, ◌<◌, ◌^◌, true, IfOk, IfErr};
ghost use Rattle.page_core_base.specs.Texts.{IsLine};
ghost use Rattle.page_core_base.specs.laws.Views.{IsFreeLine, Came, Emits};
ghost use Rattle.page_roff_source.specs.laws.Views.{RoffFits};
ghost use Rattle.page_roff_source.specs.Runs.{counts_of};
ghost use Rattle.page_engine_lines.specs.laws.Views.{has_title, BodyFits};
ghost use Rattle.page_engine_lines.specs.Bodies.{start_of};
ghost use Rattle.page_engine_lines.specs.Edges as edges;
ghost use Rattle.page_engine_lines.specs.machine.Lines as lines;

use crate::Body;
use crate::item_outs::ItemOut;
use crate::taking::{give_finished, give_taken, report_trailing};
use page_core_base::{Fault, PieceLatch, PieceOut, PieceSink, Settings};
use page_engine_header::Fields;
use page_roff_source::{Counts, RoffLines, RoffPart};
use std::alloc::{AllocError, Global};
use std::marker::Model;

/// What decides the pieces of the source lines to come.
#[derive(Drop)]
pub struct PageLines {
    roff: RoffLines,
    // in memory of its own, so that little is copied when a page is made
    body: Box<Body>,
}

impl Model for PageLines {
    ghost use Rattle.std.specs.Prelude.{◌≡◌, None};
    ghost use Rattle.page_engine_lines.specs.Edges.{LinesEdge};

    ghost Value = { LinesEdge };

    ghost view = { λ l. record { roff = l.roff.edge; body = l.body.value } };

    ghost invariant = { λ l. l.roff.edge.to_come ≡ None };
}

/// What is held between two source lines of a page, in memory of its own.
#[derive(Drop)]
pub struct LinesPart {
    roff: RoffPart,
    body: Body,
}

impl Model for LinesPart {
    ghost use Rattle.page_roff_source.specs.laws.Views.{edge_at};
    ghost use Rattle.page_engine_lines.specs.Edges.{LinesEdge};

    ghost Value = { LinesEdge };

    ghost view = { λ p. record { roff = edge_at p.body.header.measure.output p.roff; body = p.body } };
}

// The body of a page that begins, in memory of its own. It is a call, so that what comes after it reuses the stack pages that it touched.
#[inline(never)]
fn boxed_body(alloc: Global, settings: &Settings) -> Result<Box<Body>, AllocError>
    ensures { IfOk result (λ body. body.value ≡ start_of settings.now) }
{
    let body = Box::new(alloc, Body::new(alloc, settings)?)?;
    Ok(body)
}

// A copy of the body of a page, in memory of its own.
fn boxed_copy(alloc: Global, body: &Body) -> Result<Box<Body>, AllocError>
    ensures { IfOk result (λ copy. copy.value ≡ body.now) }
{
    let copy = Box::new(alloc, body.copy(alloc)?)?;
    Ok(copy)
}

impl PageLines {
    /// Between two source lines, where this is held. All memory is reserved here.
    pub fn at(alloc: Global, part: &LinesPart) -> Result<PageLines, AllocError>
        ensures { IfOk result (λ l. l ≡ part.now) }
    {
        let body = boxed_copy(alloc, &part.body)?;
        let roff = RoffLines::at(alloc, part.body.output(), &part.roff)?;
        Ok(PageLines { roff, body })
    }

    /// What is held between two source lines, where roff and the body agree on the output.
    pub fn part(&self, alloc: Global) -> Result<LinesPart, AllocError>
        ensures { self.now.roff.output ≡ self.now.body.header.measure.output → IfOk result (λ part. part ≡ self.now) }
    {
        let roff = self.roff.part(alloc)?;
        let body = self.body.copy(alloc)?;
        Ok(LinesPart { roff, body })
    }

    /// The start of a page of settings that pass their check. Its fault is [`Fault::Memory`].
    pub fn new(alloc: Global, settings: &Settings) -> Result<PageLines, Fault>
        ensures ok { IfOk result (λ l. l ≡ edges.start_of settings.now) }
        ensures fault { IfErr result (λ fault. fault ≡ Fault.Memory) }
    {
        let Ok(body) = boxed_body(alloc, settings) else {
            return Err(Fault::Memory);
        };
        let Ok(roff) = RoffLines::new(alloc, settings.output) else {
            return Err(Fault::Memory);
        };
        Ok(PageLines { roff, body })
    }

    /// Whether the title is settled, whatever lines come.
    pub fn has_title(&self) -> bool
        ensures { result ≡ has_title self.now.body }
    {
        self.body.has_title()
    }

    // Gives a source line, which may be known to be free, and keeps what it leaves.
    #[tactic(auto, unfolding(crate::specs::machine::Lines::source_items))]
    fn give_line<L: PieceOut>(&mut self, out: &mut ItemOut<L>, number: u32, text: &[u8], free: bool)
        requires line { IsLine text.now }
        requires free { free ≡ true → IsFreeLine text.now }
        requires count { self.old.roff.source < 2 ^ 31 }
        ensures came { Came L.left out.old.latch (lines.source_items self.old number text.now) out.new.latch }
        ensures after { self.new ≡ lines.source_after self.old number text.now }
    {
        report_trailing(out, number, text);
        match self.roff.take_source(text, number, free) {
            Some(taken) => give_finished(&mut self.body, taken, out),
            None => give_taken(&mut self.roff, &mut self.body, out),
        }
    }

    // Gives what roff left open, and the end of the body.
    #[tactic(auto, unfolding(crate::specs::machine::Lines::end_items))]
    fn give_end<L: PieceOut>(&mut self, out: &mut ItemOut<L>, number: u32)
        ensures came { Came L.left out.old.latch (lines.end_items self.old number) out.new.latch }
        ensures header { self.new.body.header ≡ self.old.body.header }
    {
        self.roff.end_into(out);
        self.body.give_end(number, out);
    }

    // Gives the footer.
    fn give_footer<L: PieceOut>(&self, out: &mut ItemOut<L>, number: u32, blank_rows: u32)
        ensures { Came L.left out.old.latch (edges.footer_items self.now number blank_rows) out.new.latch }
    {
        self.body.give_footer(number, blank_rows, out);
    }
}

impl PageLines {
    /// Takes a source line, which may be known to be free, and gives its pieces and messages.
    pub fn line<O: PieceSink>(
        &mut self,
        out: &mut O,
        number: u32,
        text: &[u8],
        free: bool,
    ) -> Result<(), Fault>
        requires line { IsLine text.now }
        requires free { free ≡ true → IsFreeLine text.now }
        requires count { self.old.roff.source < 2 ^ 31 }
        ensures gives { Emits result O.took O.broke out.old
            (lines.source_items self.old number text.now) out.new }
        ensures after { self.new ≡ lines.source_after self.old number text.now }
        ensures same { O.loans out.new ≡ O.loans out.old }
    {
        let mut items = ItemOut {
            latch: PieceLatch::new(out),
        };
        self.give_line(&mut items, number, text, free);
        items.latch.done()
    }

    /// Ends the source and the body after a line: what roff left open, the header and a message where no body
    /// began, and the end of the row. After that it is not to be used again.
    pub fn end<O: PieceSink>(&mut self, out: &mut O, number: u32) -> Result<(), Fault>
        ensures gives { Emits result O.took O.broke out.old (lines.end_items self.old number) out.new }
        ensures header { self.new.body.header ≡ self.old.body.header }
        ensures same { O.loans out.new ≡ O.loans out.old }
    {
        let mut items = ItemOut {
            latch: PieceLatch::new(out),
        };
        self.give_end(&mut items, number);
        items.latch.done()
    }

    /// Gives the footer, and before it a blank row, unless one is there.
    pub fn footer<O: PieceSink>(
        &self,
        out: &mut O,
        number: u32,
        blank_rows: u32,
    ) -> Result<(), Fault>
        ensures gives { Emits result O.took O.broke out.old
            (edges.footer_items self.now number blank_rows) out.new }
        ensures same { O.loans out.new ≡ O.loans out.old }
    {
        let mut items = ItemOut {
            latch: PieceLatch::new(out),
        };
        self.give_footer(&mut items, number, blank_rows);
        items.latch.done()
    }

    /// The fields of header and footer, as the lines so far set them.
    pub fn fields(&self) -> &Fields
        ensures { result.now ≡ self.now.body.header.fields }
    {
        self.body.fields()
    }

    /// What was counted so far.
    pub fn counts(&self) -> Counts
        ensures { result ≡ counts_of self.now.roff }
    {
        self.roff.counts()
    }

    /// What is held between two lines is within its limits. Nothing is done: roff and the body show it.
    pub fn caps_law(&self)
        ensures roff { RoffFits self.now.roff }
        ensures body { BodyFits self.now.body }
    {
        self.roff.caps_law();
        self.body.caps_law();
    }
}
