//! A search of an index: its lines are read one after another, in the memory of one line (whatis(1)).

ghost use Rattle.std.specs.Prelude.{◌≡◌, ◌+◌, ◌<◌, ◌≤◌, ◌^◌, ℕ, List, length, IfOk, IfErr, true};
ghost use Rattle.std.specs.Io.KnownBytes.{Consumes};
ghost use Rattle.page_engine_index.specs.Searches.{Searches, SearchesOver, counting, rows_to};
ghost use Rattle.page_engine_index.specs.machine.Steps.{IsFresh, TakesLine, TakesOpen, TakesPart, TakesChunk, Finishes};
ghost use Rattle.page_engine_index.specs.Whatis.{asked, asked_of};
ghost use Rattle.page_engine_index.specs.Written.{written};

use crate::entries::Place;
use crate::line_sinks::{LineSink, TextLines};
use crate::queries::{Query, Show};
use memchr::memchr;
use page_core_base::{BoundedText, Fault, LINE};
use page_core_streams::{Chunks, Counted, Input, Source, Target};
use std::alloc::Global;

// A search: how far the index was read, the line that is open, and the rows that were given.
#[derive(Drop)]
struct Search {
    place: Place,
    held: BoundedText<LINE>,
    rows: u64,
}

impl Search {
    // Before the first byte.
    fn new(alloc: Global) -> Result<Search, Fault>
        ensures ok { IfOk result IsFresh }
        ensures fault { IfErr result (λ fault. fault ≡ Fault.Memory) }
    {
        let Ok(held) = BoundedText::new(alloc) else {
            return Err(Fault::Memory);
        };
        Ok(Search {
            place: Place::start(),
            held,
            rows: 0,
        })
    }

    // Takes the line that is open, which is whole, and gives its row.
    fn take_line<L: LineSink>(&mut self, query: &Query, out: &mut L) -> Result<(), Fault>
        requires count { self.old.place.lines < 2 ^ 31 }
        requires few { self.old.rows ≤ self.old.place.lines }
        ensures takes { TakesLine result (rows_to L.gave L.within L.failed) (asked_of query.now)
            self.old self.new out.old out.new }
        ensures same { L.loans out.new ≡ L.loans out.old }
    {
        let fields = match self.place.next(self.held.bytes()) {
            Ok(fields) => fields,
            Err(fault) => return Err(fault),
        };
        match query.give_rows(out, fields) {
            Ok(count) => self.rows += count,
            Err(fault) => return Err(fault),
        }
        self.held.clear();
        Ok(())
    }

    // Takes bytes up to the end of a line, or all of a chunk, and gives the row of a line that is whole. It answers how many bytes it took.
    fn take_part<L: LineSink>(
        &mut self,
        chunk: &[u8],
        query: &Query,
        out: &mut L,
    ) -> Result<usize, Fault>
        requires some { 0 < length chunk.now }
        requires count { self.old.place.lines < 2 ^ 31 }
        requires few { self.old.rows ≤ self.old.place.lines }
        ensures takes { TakesPart result (rows_to L.gave L.within L.failed) (asked_of query.now)
            self.old self.new out.old out.new chunk.now }
        ensures same { L.loans out.new ≡ L.loans out.old }
    {
        let Some(end) = memchr(b'\n', chunk) else {
            return self.take_open(chunk);
        };
        if !self.held.add(&chunk[..end]) {
            return Err(Fault::BadIndex(self.place.lines + 1));
        }
        match self.take_line(query, out) {
            Ok(()) => Ok(end + 1),
            Err(fault) => Err(fault),
        }
    }

    // Takes bytes without the end of a line.
    fn take_open(&mut self, chunk: &[u8]) -> Result<usize, Fault>
        requires { self.old.place.lines < 2 ^ 31 }
        ensures { TakesOpen result self.old self.new chunk.now }
    {
        if self.held.add(chunk) {
            Ok(chunk.len())
        } else {
            Err(Fault::BadIndex(self.place.lines + 1))
        }
    }

    // Takes a chunk of the bytes, and gives the rows of its lines.
    fn take_chunk<L: LineSink>(
        &mut self,
        chunk: &[u8],
        query: &Query,
        out: &mut L,
    ) -> Result<(), Fault>
        requires count { self.old.place.lines + length chunk.now < 2 ^ 31 }
        requires few { self.old.rows ≤ self.old.place.lines }
        ensures takes { TakesChunk result (rows_to L.gave L.within L.failed) (asked_of query.now)
            self.old self.new out.old out.new chunk.now }
        ensures same { L.loans out.new ≡ L.loans out.old }
    {
        let mut rest = chunk;
        while !rest.is_empty() {
            match self.take_part(rest, query, out) {
                Ok(count) => rest = &rest[count..],
                Err(fault) => return Err(fault),
            }
        }
        Ok(())
    }

    // Takes the last line, where it lacks its end, and answers how many rows were given.
    fn finish<L: LineSink>(&mut self, query: &Query, out: &mut L) -> Result<u64, Fault>
        requires count { self.old.place.lines < 2 ^ 31 }
        requires few { self.old.rows ≤ self.old.place.lines }
        ensures ends { Finishes result (rows_to L.gave L.within L.failed) (asked_of query.now)
            self.old out.old out.new }
        ensures same { L.loans out.new ≡ L.loans out.old }
    {
        if self.held.bytes().is_empty() {
            return Ok(self.rows);
        }
        match self.take_line(query, out) {
            Ok(()) => Ok(self.rows),
            Err(fault) => Err(fault),
        }
    }

    // Reads all there is, in chunks of any size, and gives the rows of the index. As a call it has the buffer on the stack for itself.
    #[inline(never)]
    fn read_all<S: Source, L: LineSink>(
        &mut self,
        source: &mut S,
        query: &Query,
        out: &mut L,
    ) -> Result<u64, Fault>
        requires { IsFresh self.old }
        ensures searches { (bytes : List ℕ)
            × SearchesOver result (rows_to L.gave L.within L.failed) (S.state source.old) (S.state source.new)
            out.old out.new (asked_of query.now) bytes }
        ensures source_same { S.loans source.new ≡ S.loans source.old }
        ensures rows_same { L.loans out.new ≡ L.loans out.old }
    {
        let mut chunks = Chunks::new();
        while chunks.read(source)? {
            self.take_chunk(chunks.chunk(), query, out)?;
        }
        self.finish(query, out)
    }
}

/// Looks for words in an index (whatis(1)): reads all bytes of a source, in chunks of any size, gives a row for each entry that one of the
/// words matches, in the order of the index, and answers their number.
///
/// The memory of one line is reserved before the first read: with [`Fault::Memory`] nothing is read and nothing is given.
/// [`Fault::BadIndex`] names the first bad line: a first line that names no version, one with another number of fields, or of more than
/// [`page_core_base::LINE`] bytes; the rows of the lines before it were given then. [`Fault::Read`] comes where the source failed,
/// [`Fault::WriteText`] where the sink failed, and [`Fault::TooLong`] for an index of more than [`page_core_streams::BYTES`] bytes or after [`page_core_streams::READS`] read calls.
pub fn search_index<S: Source, L: LineSink>(
    alloc: Global,
    source: &mut S,
    out: &mut L,
    query: &Query,
) -> Result<u64, Fault>
    ensures searches { (bytes : List ℕ)
        × SearchesOver result (rows_to L.gave L.within L.failed) (S.state source.old) (S.state source.new)
        out.old out.new (asked_of query.now) bytes }
    ensures source_same { S.loans source.new ≡ S.loans source.old }
    ensures rows_same { L.loans out.new ≡ L.loans out.old }
{
    let mut search = match Search::new(alloc) {
        Ok(search) => search,
        Err(fault) => return Err(fault),
    };
    search.read_all(source, query, out)
}

/// Looks for words in an index as [`search_index`] does: reads a reader, and writes the rows to a writer, with `?` for each control character in them.
/// Where these count their failures, each fault has its cause.
pub fn whatis<I: Input, W: Target>(
    alloc: Global,
    index: &mut I,
    out: &mut W,
    words: &[&str],
    section: Option<&str>,
    show: Show,
) -> Result<u64, Fault>
    ensures searches { (bytes : List ℕ) × Consumes (I.state index.old).remaining (I.state index.new).remaining bytes
        × Searches result (written W.contents) out.old out.new
        (asked words.now section.entry show) bytes (I.state index.new).remaining }
    ensures causes { I.counts ≡ true → W.counts ≡ true → (bytes : List ℕ)
        × SearchesOver result (counting (written W.contents) W.failures) (I.state index.old) (I.state index.new)
        out.old out.new (asked words.now section.entry show) bytes }
{
    let mut source = Counted::new(index);
    let mut lines = TextLines::new(out);
    let query = Query {
        words,
        section,
        show,
    };
    search_index(alloc, &mut source, &mut lines, &query)
}
