//! The lines of a page up to the one that ends its section NAME.

ghost use Rattle.std.specs.Prelude.{◌≡◌, ◌<◌, ◌+◌, ◌^◌, None, false, true, IfOk, IfErr};
ghost use Rattle.page_core_base.specs.Texts.{IsLine};
ghost use Rattle.page_roff_lines.specs.laws.Cutting.{line_of};
ghost use Rattle.page_engine_lines.specs.machine.Lines.{source_after, source_items};
ghost use Rattle.page_engine_records.specs.machine.NameTexts as fronts;
ghost use Rattle.page_engine_records.specs.machine.NameTexts.{read, end_read, front_of};

use crate::name_readers::{NameReader, Side};
use page_core_base::{Fault, Settings};
use page_engine_lines::PageLines;
use page_roff_lines::Cutter;
use std::alloc::Global;

/// What decides the record of a page: where its lines are, and what was read of the section NAME.
#[derive(Drop)]
pub(crate) struct PageFront {
    pub(crate) lines: PageLines,
    pub(crate) name: NameReader,
}

impl PageFront {
    /// The start of a page of settings that pass their check. Its fault is [`Fault::Memory`].
    pub(crate) fn new(alloc: Global, settings: &Settings) -> Result<PageFront, Fault>
        ensures ok { IfOk result (λ page. front_of page ≡ fronts.start settings.now) }
        ensures fault { IfErr result (λ fault. fault ≡ Fault.Memory) }
    {
        let Ok(name) = NameReader::new(alloc, Side::Before) else {
            return Err(Fault::Memory);
        };
        let lines = PageLines::new(alloc, settings)?;
        Ok(PageFront { lines, name })
    }

    /// Whether the record is settled: the section NAME has ended, and no line changes the title any more.
    pub(crate) fn is_settled(&self) -> bool
        ensures { result ≡ fronts.is_settled (front_of self.now) }
    {
        self.name.has_ended() && self.lines.has_title()
    }

    // Reads the pieces of a line.
    fn read_text(&mut self, text: &[u8], number: u32)
        requires line { IsLine text.now }
        requires count { self.old.lines.roff.source < 2 ^ 31 }
        ensures lines { self.new.lines ≡ source_after self.old.lines number text.now }
        ensures name { self.new.name ≡ read self.old.name (source_items self.old.lines number text.now) }
    {
        let _ = self.lines.line(&mut self.name, number, text, false);
    }

    /// Reads the line that a cutter has.
    pub(crate) fn read_line(&mut self, cutter: &mut Cutter)
        requires ready { cutter.old.ready ≡ true }
        requires count { self.old.lines.roff.source < 2 ^ 31 }
        requires idle { self.old.lines.roff.to_come ≡ None }
        requires inside { fronts.is_settled (front_of self.old) ≡ false }
        ensures front { front_of self.new ≡ fronts.after_line (front_of self.old) (line_of cutter.old.point) }
        ensures source { self.new.lines.roff.source ≡ self.old.lines.roff.source + 1 }
        ensures idle { self.new.lines.roff.to_come ≡ None }
        ensures point { cutter.new.point ≡ cutter.old.point }
        ensures ready { cutter.new.ready ≡ false }
    {
        if let Ok((text, number)) = cutter.line(&mut self.name) {
            self.read_text(text, number);
        }
    }

    /// Ends the page.
    pub(crate) fn end(&mut self)
        ensures name { self.new.name ≡ end_read (front_of self.old) }
        ensures header { self.new.lines.body.header ≡ self.old.lines.body.header }
    {
        if !self.is_settled() {
            let _ = self.lines.end(&mut self.name, 1);
        }
    }
}
