//! A run over a page that reads its record.

ghost use Rattle.std.specs.Prelude.{◌≡◌, ◌<◌, ◌≤◌, ℕ, List, None, false, true, length, IfOk, IfErr};
ghost use Rattle.std.specs.Io.KnownBytes.{Consumes};
ghost use Rattle.page_core_base.specs.laws.Views.{Emits};
ghost use Rattle.page_core_escapes.specs.Tokens.{tokens_of};
ghost use Rattle.page_engine_header.specs.Header.{tokens_items};
ghost use Rattle.page_scopes_words.specs.Fonts.{roman_fonts};
ghost use Rattle.page_scopes_words.specs.Words.{at};
ghost use Rattle.page_engine_records.specs.Records.{record_by, section_text};
ghost use Rattle.page_engine_records.specs.Runs.{ReadsRecord, ReadsRecordOver};
ghost use Rattle.page_engine_records.specs.machine.NameTexts.{kept_of, reader_at, Finished, HasRoom, HoldsNothing, IsFresh, ReadsAll, StartsAt, Through, TookLast, TookPart};

use crate::fronts::PageFront;
use crate::name_readers::{NameReader, Side};
use crate::names::record_of;
use crate::texts::NAMES;
use page_core_base::{BoundedText, Fault, Output, PieceLatch, PieceSink, Place, Settings};
use page_core_streams::{Chunks, Counted, Input, Source};
use page_engine_header::Part;
use page_engine_index::Record;
use page_roff_lines::Cutter;
use std::alloc::{AllocError, Global};

/// A page whose record is read, and the cutter of its bytes.
#[derive(Drop)]
struct RecordRun {
    page: PageFront,
    cutter: Cutter,
}

/// Memory for what a record has beside the text of the section NAME.
#[derive(Drop)]
struct RecordRoom {
    section: NameReader,
    names: BoundedText<NAMES>,
}

impl RecordRoom {
    // Room that holds nothing.
    fn new(alloc: Global) -> Result<RecordRoom, AllocError>
        ensures { IfOk result HoldsNothing }
    {
        Ok(RecordRoom {
            section: NameReader::new(alloc, Side::Inside)?,
            names: BoundedText::new(alloc)?,
        })
    }
}

impl RecordRun {
    // Before the first byte of a page of settings that pass their check. Its fault is [`Fault::Memory`].
    fn new(alloc: Global, settings: &Settings) -> Result<RecordRun, Fault>
        ensures ok { IfOk result (λ run. StartsAt run settings.now) }
        ensures fault { IfErr result (λ fault. fault ≡ Fault.Memory) }
    {
        let Ok(cutter) = Cutter::new(alloc, settings.encoding) else {
            return Err(Fault::Memory);
        };
        let page = PageFront::new(alloc, settings)?;
        Ok(RecordRun { page, cutter })
    }

    // Takes bytes up to the end of a line, or all of a chunk, and reads a line that is whole. It answers how many bytes it took. Once the
    // record is settled bytes are passed over.
    fn take_part(&mut self, chunk: &[u8]) -> usize
        requires some { 0 < length chunk.now }
        requires room { HasRoom self.old (length chunk.now) }
        requires idle { self.old.page.lines.roff.to_come ≡ None }
        ensures { TookPart self.old self.new chunk.now result }
    {
        if self.page.is_settled() {
            return chunk.len();
        }
        let (count, is_whole) = self.cutter.feed(chunk);
        if !is_whole {
            return count;
        }
        self.page.read_line(&mut self.cutter);
        count
    }

    // Takes a chunk of the bytes, and reads its lines.
    fn take_chunk(&mut self, chunk: &[u8])
        requires room { HasRoom self.old (length chunk.now) }
        requires idle { self.old.page.lines.roff.to_come ≡ None }
        ensures { Through self.old self.new chunk.now }
    {
        let mut rest = chunk;
        while !rest.is_empty() {
            let count = self.take_part(rest);
            rest = &rest[count..];
        }
    }

    // Reads the last line, where there is one.
    fn take_last(&mut self)
        requires room { HasRoom self.old 0 }
        requires idle { self.old.page.lines.roff.to_come ≡ None }
        ensures { TookLast self.old self.new }
    {
        if self.page.is_settled() {
            return;
        }
        if !self.cutter.end() {
            return;
        }
        self.page.read_line(&mut self.cutter);
    }

    // Reads the last line, where there is one, and ends the page.
    fn finish(&mut self)
        requires room { HasRoom self.old 0 }
        requires idle { self.old.page.lines.roff.to_come ≡ None }
        ensures { Finished self.old self.new }
    {
        self.take_last();
        self.page.end();
    }

    // Reads all there is, in chunks of any size. It is a call of its own, so that it reuses the stack pages that `RecordRun::new` touched.
    #[inline(never)]
    fn read_all<S: Source>(&mut self, source: &mut S) -> Result<(), Fault>
        requires { IsFresh self.old }
        ensures reads { (bytes : List ℕ) × ReadsAll result self.old self.new (S.state source.old) (S.state source.new) bytes }
        ensures same { S.loans source.new ≡ S.loans source.old }
    {
        let mut chunks = Chunks::new();
        while chunks.read(source)? {
            self.take_chunk(chunks.chunk());
        }
        self.finish();
        Ok(())
    }

    // The record that was read, of a page that has ended.
    fn into_record(self, room: RecordRoom) -> Option<Record>
        requires { HoldsNothing room }
        ensures { result ≡ record_by (kept_of self.page.name) self.page.lines.body.header.fields.section }
    {
        if matches!(self.page.name.side, Side::Before) {
            return None;
        }
        let mut section = room.section;
        read_section(&mut section, self.page.lines.fields().section.text());
        record_of(self.page.name.text, section.text.into_bytes(), room.names)
    }
}

// Gives the section of the manual of a title, as the header prints it in ASCII.
fn give_section<O: PieceSink>(out: &mut O, section: &[u8]) -> Result<(), Fault>
    requires { length section.now ≤ 256 }
    ensures { Emits result O.took O.broke out.old
        (tokens_items Output.Ascii (at 1 1) roman_fonts (tokens_of false section.now)) out.new }
{
    let mut latch = PieceLatch::new(out);
    let place = Place { line: 1, column: 1 };
    Part::Text(section).give(&mut latch, Output::Ascii, place);
    latch.done()
}

// Reads the section of the manual of a title.
fn read_section(reader: &mut NameReader, section: &[u8])
    requires start { reader.old ≡ reader_at Side.Inside }
    requires short { length section.now ≤ 256 }
    ensures { reader.new.text ≡ section_text section.now }
{
    let _ = give_section(reader, section);
}

/// Reads the record of a page: its names, its section and what it is for, off its section NAME (mandoc(1), `makewhatis`). It reads all bytes of a
/// source, in chunks of any size. A page without such a section, or whose section has no name, has no record.
///
/// The settings are checked first, and memory is reserved before the first read: with [`Fault::Settings`] and [`Fault::Memory`] nothing is read.
/// [`Fault::Read`] comes where the source failed, and [`Fault::TooLong`] for a page of more than [`page_core_streams::BYTES`] bytes or after [`page_core_streams::READS`] read calls.
pub fn read_record<S: Source>(
    alloc: Global,
    source: &mut S,
    settings: &Settings,
) -> Result<Option<Record>, Fault>
    ensures reads { (bytes : List ℕ)
        × ReadsRecordOver result (S.state source.old) (S.state source.new) settings.now bytes }
    ensures same { S.loans source.new ≡ S.loans source.old }
{
    if let Err(fault) = settings.check() {
        return Err(Fault::Settings(fault));
    }
    let Ok(room) = RecordRoom::new(alloc) else {
        return Err(Fault::Memory);
    };
    let Ok(run) = RecordRun::new(alloc, settings) else {
        return Err(Fault::Memory);
    };
    let mut run = run;
    let read = run.read_all(source);
    let record = run.into_record(room);
    match read {
        Ok(()) => Ok(record),
        Err(fault) => Err(fault),
    }
}

/// Reads the record of a page as [`read_record`] does, of a reader. Where this counts its failures, each fault has its cause.
pub fn name_record<I: Input>(
    alloc: Global,
    reader: &mut I,
    settings: &Settings,
) -> Result<Option<Record>, Fault>
    ensures reads { (bytes : List ℕ) × Consumes (I.state reader.old).remaining (I.state reader.new).remaining bytes
        × ReadsRecord result settings.now bytes (I.state reader.new).remaining }
    ensures causes { I.counts ≡ true → (bytes : List ℕ)
        × ReadsRecordOver result (I.state reader.old) (I.state reader.new) settings.now bytes }
{
    let mut source = Counted::new(reader);
    read_record(alloc, &mut source, settings)
}
