//! A run: the bytes of a source become the rows and messages of a page.

ghost use Rattle.std.specs.Prelude.{◌≡◌, ◌<◌, ◌≤◌, ◌+◌, ◌^◌, ℕ, List, [], length, OnOk, MatchResult, Some, true};
ghost use Rattle.std.specs.Io.KnownBytes.{Consumes};
ghost use Rattle.page_core_streams.specs.Streams.{SourceState};
ghost use Rattle.page_core_streams.specs.laws.Views.{AreRead, IsFewer, ReadsOn, source_state};
ghost use Rattle.page_core_base.specs.Settings.{IsGood};
ghost use Rattle.page_core_base.specs.declared.faults.Fault.{Fault};
ghost use Rattle.page_core_base.specs.declared.page_settings.Settings.{Settings as PageSettings};
ghost use Rattle.page_engine.specs.laws.Reads.{HasTaken, Feeds, Closes, MayRead};
ghost use Rattle.page_engine.specs.laws.States.{CannotStart, closed, IsRefused};
ghost use Rattle.page_engine.specs.Runs.{writers, Runs, RunsOver};
ghost use Rattle.page_engine.specs.laws.Views.{RunsIn, sinks};
ghost use Rattle.page_engine.specs.machine.Steps.{CanTake, TakesPart, TakesChunk, TakesLast, PutsOut, Finishes};

use crate::pages::{Page, Phase};
use page_core_base::{Fault, Level, NoteSink, RowSink, Settings};
use page_core_streams::{
    BYTES, Chunks, Counted, Input, SliceSource, Source, Target, TextNotes, TextRows,
};
use page_roff_lines::Cutter;
use page_roff_source::Counts;
use std::alloc::Global;
use std::marker::Model;

/// How a run ended: the worst level of the messages that were given, and the counts.
#[derive(Clone, Copy, Debug, PartialEq, Eq)]
pub struct Outcome {
    pub worst: Option<Level>,
    pub counts: Counts,
}

// Has both sinks put out what waits, the rows first; the messages also where that failed.
fn put_out<R: RowSink, N: NoteSink>(rows: &mut R, notes: &mut N) -> Result<(), Fault>
    ensures puts { PutsOut result (sinks R.gave R.within R.failed N.gave N.within N.failed)
        rows.old rows.new notes.old notes.new }
    ensures out { OnOk result (R.is_out rows.new × N.is_out notes.new) }
    ensures rows_same { R.loans rows.new ≡ R.loans rows.old }
    ensures notes_same { N.loans notes.new ≡ N.loans notes.old }
{
    let of_rows = rows.put_out();
    let of_notes = notes.put_out();
    match of_rows {
        Ok(()) => of_notes,
        Err(fault) => Err(fault),
    }
}

// A page, and the cutter of its bytes.
#[derive(Drop)]
struct Run {
    page: Page,
    cutter: Cutter,
}

impl Run {
    // Takes bytes up to the end of a line, or all of a chunk, and gives what a line that is whole settles. It
    // answers how many bytes it took.
    fn take_part<R: RowSink, N: NoteSink>(
        &mut self,
        chunk: &[u8],
        rows: &mut R,
        notes: &mut N,
    ) -> Result<usize, Fault>
        requires some { 0 < length chunk.now }
        requires room { CanTake self.old (length chunk.now) }
        ensures takes { TakesPart result (sinks R.gave R.within R.failed N.gave N.within N.failed)
            self.old self.new rows.old rows.new notes.old notes.new chunk.now }
        ensures rows_same { R.loans rows.new ≡ R.loans rows.old }
        ensures notes_same { N.loans notes.new ≡ N.loans notes.old }
    {
        let (count, is_whole) = self.cutter.feed(chunk);
        if !is_whole {
            return Ok(count);
        }
        self.page.take_line(&mut self.cutter, rows, notes)?;
        Ok(count)
    }

    // Takes a chunk of the bytes, and gives what its lines settle.
    fn take_chunk<R: RowSink, N: NoteSink>(
        &mut self,
        chunk: &[u8],
        rows: &mut R,
        notes: &mut N,
    ) -> Result<(), Fault>
        requires { CanTake self.old (length chunk.now) }
        ensures takes { TakesChunk result (sinks R.gave R.within R.failed N.gave N.within N.failed)
            self.old self.new rows.old rows.new notes.old notes.new chunk.now }
        ensures rows_same { R.loans rows.new ≡ R.loans rows.old }
        ensures notes_same { N.loans notes.new ≡ N.loans notes.old }
    {
        let mut rest = chunk;
        while !rest.is_empty() {
            let count = self.take_part(rest, rows, notes)?;
            rest = &rest[count..];
        }
        Ok(())
    }

    // Takes the last line, where there is one, and gives what it settles.
    fn take_last<R: RowSink, N: NoteSink>(
        &mut self,
        rows: &mut R,
        notes: &mut N,
    ) -> Result<(), Fault>
        requires { CanTake self.old 0 }
        ensures takes { TakesLast result (sinks R.gave R.within R.failed N.gave N.within N.failed)
            self.old self.new rows.old rows.new notes.old notes.new }
        ensures rows_same { R.loans rows.new ≡ R.loans rows.old }
        ensures notes_same { N.loans notes.new ≡ N.loans notes.old }
    {
        if !self.cutter.end() {
            return Ok(());
        }
        self.page.take_line(&mut self.cutter, rows, notes)?;
        Ok(())
    }

    // Takes the last line, where there is one, ends the page, and has it put out.
    fn finish<R: RowSink, N: NoteSink>(&mut self, rows: &mut R, notes: &mut N) -> Result<(), Fault>
        requires { CanTake self.old 0 }
        ensures ends { Finishes result (sinks R.gave R.within R.failed N.gave N.within N.failed)
            self.old self.new rows.old rows.new notes.old notes.new }
        ensures out { OnOk result (R.is_out rows.new × N.is_out notes.new) }
        ensures rows_same { R.loans rows.new ≡ R.loans rows.old }
        ensures notes_same { N.loans notes.new ≡ N.loans notes.old }
    {
        self.take_last(rows, notes)?;
        self.page.end(rows, notes)?;
        put_out(rows, notes)
    }
}

/// A page whose bytes come in pieces, in any cut: a pipe, a socket, the output of a build. What a piece settles is in the sinks, and put out, when
/// [`PageRun::feed`] returns. After any pieces that is `settled_page` of all their bytes, by [`crate::pieces_law`].
#[derive(Drop)]
pub struct PageRun {
    run: Run,
    bytes_left: u32,
    phase: Phase,
}

impl Model for PageRun {
    ghost use Rattle.page_engine.specs.laws.Reads.{RunState};
    ghost use Rattle.page_engine.specs.machine.Steps.{HasRoom};

    ghost Value = { RunState };

    ghost view = { λ r. record { phase = r.phase; page = r.run.page; point = r.run.cutter.point } };

    ghost invariant = { λ r. HasRoom r.phase r.run r.bytes_left };
}

impl PageRun {
    /// Before the first byte of a page. Its fault is [`Fault::Settings`], or else [`Fault::Memory`].
    pub fn new(alloc: Global, settings: &Settings) -> Result<PageRun, Fault>
        ensures starts { MatchResult result (λ run. IsGood settings.now × HasTaken run settings.now [])
            (λ fault. CannotStart settings.now fault) }
    {
        let page = Page::new(alloc, *settings)?;
        let Ok(cutter) = Cutter::new(alloc, settings.encoding) else {
            return Err(Fault::Memory);
        };
        Ok(PageRun {
            run: Run { page, cutter },
            bytes_left: BYTES,
            phase: Phase::Open,
        })
    }

    /// Takes a piece of the bytes, of any length, gives what the lines settle that it makes whole, and has it put out.
    ///
    /// Its faults are in this order: [`Fault::Ended`] after a good end, [`Fault::Failed`] after a fault of a sink, [`Fault::TooLong`] for more than
    /// [`BYTES`] bytes with those before, by which nothing changes; then [`Fault::WriteText`] and [`Fault::WriteNotes`], of the sink that failed.
    pub fn feed<R: RowSink, N: NoteSink>(
        &mut self,
        piece: &[u8],
        rows: &mut R,
        notes: &mut N,
    ) -> Result<(), Fault>
        ensures feeds { (settings : PageSettings) (bytes : List ℕ) → HasTaken self.old settings bytes
            → length bytes + length piece.now < 2 ^ 31
            → Feeds result (sinks R.gave R.within R.failed N.gave N.within N.failed)
            rows.old rows.new notes.old notes.new settings bytes piece.now self.new }
        ensures out { OnOk result (R.is_out rows.new × N.is_out notes.new) }
        ensures too_long { (settings : PageSettings) (bytes : List ℕ) → HasTaken self.old settings bytes
            → 2 ^ 31 ≤ length bytes + length piece.now
            → IsRefused result Fault.TooLong self.old self.new rows.old rows.new notes.old notes.new }
        ensures refused { (fault : Fault) → closed self.old.phase ≡ Some fault →
            IsRefused result fault self.old self.new rows.old rows.new notes.old notes.new }
        ensures rows_same { R.loans rows.new ≡ R.loans rows.old }
        ensures notes_same { N.loans notes.new ≡ N.loans notes.old }
    {
        if let Some(fault) = self.phase.fault() {
            return Err(fault);
        }
        if piece.len() > self.bytes_left as usize {
            return Err(Fault::TooLong);
        }
        self.phase = Phase::Failed;
        self.run.take_chunk(piece, rows, notes)?;
        put_out(rows, notes)?;
        self.bytes_left -= piece.len() as u32;
        self.phase = Phase::Open;
        Ok(())
    }

    /// Ends the page: gives the rest, and has it put out. Its faults are in this order: [`Fault::Ended`] after a good end, [`Fault::Failed`] after a
    /// fault of a sink; then [`Fault::WriteText`] and [`Fault::WriteNotes`], of the sink that failed.
    pub fn end<R: RowSink, N: NoteSink>(&mut self, rows: &mut R, notes: &mut N) -> Result<(), Fault>
        ensures ends { (settings : PageSettings) (bytes : List ℕ) → HasTaken self.old settings bytes
            → Closes result (sinks R.gave R.within R.failed N.gave N.within N.failed)
            rows.old rows.new notes.old notes.new settings bytes self.new }
        ensures out { OnOk result (R.is_out rows.new × N.is_out notes.new) }
        ensures refused { (fault : Fault) → closed self.old.phase ≡ Some fault →
            IsRefused result fault self.old self.new rows.old rows.new notes.old notes.new }
        ensures rows_same { R.loans rows.new ≡ R.loans rows.old }
        ensures notes_same { N.loans notes.new ≡ N.loans notes.old }
    {
        if let Some(fault) = self.phase.fault() {
            return Err(fault);
        }
        self.phase = Phase::Failed;
        self.run.finish(rows, notes)?;
        self.phase = Phase::Ended;
        Ok(())
    }

    /// What the page came to so far.
    pub fn outcome(&self) -> Outcome
        ensures worst { result.worst ≡ self.now.page.worst }
        ensures counts { result.counts ≡ self.now.page.counts }
    {
        Outcome {
            worst: self.run.page.worst(),
            counts: self.run.page.counts(),
        }
    }

    // Reads the next chunk of a source, and answers whether there was one. Nothing else reads: since nobody knows how long a read waits, all that the
    // bytes before it settle has to have come to the sinks by then, and to be put out there.
    fn next<S: Source, R: RowSink, N: NoteSink>(
        &self,
        chunks: &mut Chunks,
        source: &mut S,
        rows: &R,
        notes: &N,
    ) -> Result<bool, Fault>
        requires { MayRead (sinks R.gave R.within R.failed N.gave N.within N.failed).to R.is_out N.is_out
            self.now chunks.old (S.state source.old) rows.now notes.now }
        ensures reads { (a : SourceState) (bytes : List ℕ) → AreRead a (S.state source.old) chunks.old bytes
            → ReadsOn result a (S.state source.new) chunks.new bytes }
        ensures fewer { IsFewer result chunks.old chunks.new }
        ensures same { S.loans source.new ≡ S.loans source.old }
    {
        let _ = rows;
        let _ = notes;
        chunks.read(source)
    }

    // Reads all there is, in chunks of any size, and gives the rows and messages of the page. It is a call of its own, so that it reuses the
    // stack pages that `PageRun::new` touched.
    #[inline(never)]
    fn read_all<S: Source, R: RowSink, N: NoteSink>(
        &mut self,
        source: &mut S,
        rows: &mut R,
        notes: &mut N,
    ) -> Result<Outcome, Fault>
        requires { (settings : PageSettings) × HasTaken self.old settings [] }
        ensures runs { (settings : PageSettings) → IsGood settings → HasTaken self.old settings [] → (bytes : List ℕ)
            × RunsOver result (sinks R.gave R.within R.failed N.gave N.within N.failed)
            (S.state source.old) (S.state source.new) rows.old rows.new notes.old notes.new settings bytes }
        ensures source_same { S.loans source.new ≡ S.loans source.old }
        ensures rows_same { R.loans rows.new ≡ R.loans rows.old }
        ensures notes_same { N.loans notes.new ≡ N.loans notes.old }
    {
        let mut chunks = Chunks::new();
        while self.next(&mut chunks, source, rows, notes)? {
            self.feed(chunks.chunk(), rows, notes)?;
        }
        self.end(rows, notes)?;
        Ok(self.outcome())
    }
}

/// Formats a page: reads all bytes of a source, in chunks of any size, gives the rows to one sink and the
/// messages to another, and answers the worst level of the messages and the counts.
///
/// The settings are checked first, and memory is reserved before the first read: with [`Fault::Settings`] and
/// [`Fault::Memory`] nothing is read and nothing is given. [`Fault::Read`] comes where the source failed,
/// [`Fault::WriteText`] and [`Fault::WriteNotes`] where that sink failed, and [`Fault::TooLong`] for a page of
/// more than [`crate::BYTES`] bytes or after [`crate::READS`] read calls. After the fault of a sink nothing more is read, and
/// of the lines after the one at which it came nothing is given to the other. Where a sink has a buffer, what waits there is put out
/// before each further read, and at the end.
pub fn run_sinks<S: Source, R: RowSink, N: NoteSink>(
    alloc: Global,
    source: &mut S,
    rows: &mut R,
    notes: &mut N,
    settings: &Settings,
) -> Result<Outcome, Fault>
    ensures runs { (bytes : List ℕ)
        × RunsOver result (sinks R.gave R.within R.failed N.gave N.within N.failed)
        (S.state source.old) (S.state source.new) rows.old rows.new notes.old notes.new settings.now bytes }
    ensures source_same { S.loans source.new ≡ S.loans source.old }
    ensures rows_same { R.loans rows.new ≡ R.loans rows.old }
    ensures notes_same { N.loans notes.new ≡ N.loans notes.old }
{
    let mut run = PageRun::new(alloc, settings)?;
    run.read_all(source, rows, notes)
}

/// Formats a page as [`run_sinks`] does: reads a reader, and writes the rows to one writer and the messages,
/// about a file, to another. Where these count their failures, each fault has its cause.
pub fn run_page<I: Input, W: Target, V: Target>(
    alloc: Global,
    reader: &mut I,
    out: &mut W,
    notes: &mut V,
    file: &str,
    settings: &Settings,
) -> Result<Outcome, Fault>
    ensures runs { (bytes : List ℕ) × Consumes (I.state reader.old).remaining (I.state reader.new).remaining bytes
        × Runs result (writers W.contents V.contents file.now)
        out.old out.new notes.old notes.new settings.now bytes (I.state reader.new).remaining }
    ensures causes { I.counts ≡ true → W.counts ≡ true → V.counts ≡ true → (bytes : List ℕ)
        × RunsOver result
        (record { to = writers W.contents V.contents file.now; rows_failed = W.failures; notes_failed = V.failures })
        (I.state reader.old) (I.state reader.new) out.old out.new notes.old notes.new settings.now bytes }
{
    let mut source = Counted::new(reader);
    let mut rows = TextRows::new(out);
    let mut messages = TextNotes::new(notes, file);
    run_sinks(alloc, &mut source, &mut rows, &mut messages, settings)
}

/// Formats a page that is in memory, as [`run_page`] does one that is read. Its faults are those of [`run_page`], but never [`Fault::Read`], and
/// [`Fault::TooLong`] only for more than [`crate::BYTES`] bytes. Where the writers count their failures, each fault has its cause.
pub fn run_bytes<W: Target, V: Target>(
    alloc: Global,
    bytes: &[u8],
    out: &mut W,
    notes: &mut V,
    file: &str,
    settings: &Settings,
) -> Result<Outcome, Fault>
    ensures runs { RunsIn result (writers W.contents V.contents file.now)
        out.old out.new notes.old notes.new settings.now bytes.now }
    ensures causes { W.counts ≡ true → V.counts ≡ true → (after : SourceState) × (taken : List ℕ)
        × RunsOver result
        (record { to = writers W.contents V.contents file.now; rows_failed = W.failures; notes_failed = V.failures })
        (source_state (Some bytes.now) 0 0 0 0) after out.old out.new notes.old notes.new settings.now taken }
{
    let mut slice = SliceSource::new(bytes);
    let mut rows = TextRows::new(out);
    let mut messages = TextNotes::new(notes, file);
    run_sinks(alloc, &mut slice, &mut rows, &mut messages, settings)
}
