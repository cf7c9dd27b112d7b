//! Words looked for in the index of a directory (whatis(1)).

ghost use Rattle.std.specs.Prelude.{◌≡◌, ◌==◌, ◌<◌, ℕ, List, [], map, option_map, IfOk, string_bytes, if◌then◌else◌};
ghost use Rattle.std.specs.Io.KnownBytes.{Consumes};
ghost use Rattle.page_core_streams.specs.Streams.{Grows};
ghost use Rattle.page_engine_index.specs.Searches.{Searches};
ghost use Rattle.page_engine_index.specs.Whatis.{asked};
ghost use Rattle.mandoc_command.specs.Line.{searches_of};
ghost use Rattle.mandoc_formats.specs.Formats.{Did, File, HasCause, HasFailed, IsFound, shown};
ghost use Rattle.mandoc_programs.specs.Searches.{IsOf, IsSearch, IsAnswered, Search, Searched, SearchesFor, asked_by, index_causes, index_in, prints};

use crate::shown_rows::ShownRows;
use mandoc_command::Whatis;
use mandoc_formats::{
    Buffered, Done, Finds, report_fault, report_fault_at, report_unopened, shown_name,
};
use page_core_base::Fault;
use page_core_streams::{Counted, Input, Target};
use page_engine_index::{Query, Show, search_index, whatis};
use std::alloc::{AllocError, Global};

/// The name of an index, below its directory.
pub(crate) const INDEX: &str = "/whatis.idx";

/// The status where a row was printed.
const FOUND: u8 = 0;

/// The status where none was.
const NOT_FOUND: u8 = 1;

/// Prints the rows of an index that words match, and answers the status (whatis(1), EXIT STATUS).
///
/// What was printed is put out before a fault is reported on `err`.
#[inline(never)]
pub fn search<R: Finds, W: Buffered, V: Buffered>(
    rt: &R,
    alloc: Global,
    asked: &Whatis,
    out: &mut W,
    err: &mut V,
) -> u8
    ensures came { (file : File) × SearchesFor (R.finds rt.now) (HasFailed V.counts V.failures) (index_causes R.File.counts W.counts R.File.state W.failures) (searches_of asked.now) file
        × Grows (W.contents out.old) (W.contents out.new) file.out × Grows (V.contents err.old) (V.contents err.new) file.err
        × (result ≡ file.end.status) }
    ensures put_out { result < 6 → (W.waits out.new ≡ []) × (err.new ≡ err.old) }
{
    match &asked.dir {
        Some(dir) => search_in(rt, alloc, dir.as_str(), asked, out, err).status,
        None => search_in(rt, alloc, ".", asked, out, err).status,
    }
}

// Searches the index of a directory.
fn search_in<R: Finds, W: Buffered, V: Buffered>(
    rt: &R,
    alloc: Global,
    dir: &str,
    asked: &Whatis,
    out: &mut W,
    err: &mut V,
) -> Done
    ensures { Did (IsSearch (R.finds rt.now) (HasFailed V.counts V.failures) (index_causes R.File.counts W.counts R.File.state W.failures) dir.now (asked_by (searches_of asked.now))) result
        (W.contents out.old) (W.contents out.new) (V.contents err.old) (V.contents err.new) ((W.waits out.new ≡ []) × (err.new ≡ err.old)) }
{
    match names_of_index(alloc, dir) {
        Ok((name, shown)) => search_named(
            rt,
            alloc,
            name.as_str(),
            shown.as_str(),
            asked,
            out,
            err,
        ),
        Err(_) => report_fault_at(err, dir, INDEX, Fault::Memory),
    }
}

// The name of the index of a directory, and as messages have it.
fn names_of_index(alloc: Global, dir: &str) -> Result<(String, String), AllocError>
    ensures { IfOk result (λ names. (string_bytes names.0 ≡ index_in dir.now) × (string_bytes names.1 ≡ index_in (shown dir.now))) }
{
    let mut name = String::from_str(alloc, dir)?;
    name.push_str(INDEX)?;
    let mut shown = shown_name(alloc, dir)?;
    shown.push_str(INDEX)?;
    Ok((name, shown))
}

// Searches an index that messages have by another name.
fn search_named<R: Finds, W: Buffered, V: Buffered>(
    rt: &R,
    alloc: Global,
    name: &str,
    shown: &str,
    asked: &Whatis,
    out: &mut W,
    err: &mut V,
) -> Done
    ensures { Did (IsFound (R.finds rt.now) (HasFailed V.counts V.failures) (Searched (HasFailed V.counts V.failures) (index_causes R.File.counts W.counts R.File.state W.failures) (asked_by (searches_of asked.now)) shown.now) name.now shown.now) result
        (W.contents out.old) (W.contents out.new) (V.contents err.old) (V.contents err.new) ((W.waits out.new ≡ []) × (err.new ≡ err.old)) }
{
    match rt.find(name) {
        Some(mut index) => search_found(alloc, &mut index, shown, asked, out, err),
        None => report_unopened(err, shown),
    }
}

// Searches an index, and reports its fault.
fn search_found<I: Input, W: Buffered, V: Buffered>(
    alloc: Global,
    index: &mut I,
    shown: &str,
    asked: &Whatis,
    out: &mut W,
    err: &mut V,
) -> Done
    ensures { Did (Searched (HasFailed V.counts V.failures) (index_causes I.counts W.counts I.state W.failures) (asked_by (searches_of asked.now)) shown.now (I.state index.old).remaining) result
        (W.contents out.old) (W.contents out.new) (V.contents err.old) (V.contents err.new) ((W.waits out.new ≡ []) × (err.new ≡ err.old)) }
{
    match print_waiting(alloc, index, asked, out) {
        Ok(count) => Done::with(status_by(count)),
        Err(fault) => report_fault(err, shown, fault),
    }
}

// The status by the number of rows that were printed.
fn status_by(count: u64) -> u8
    ensures { result ≡ (if count == 0 then 1 else 0) }
{
    if count == 0 { NOT_FOUND } else { FOUND }
}

// Prints the rows of an index, puts out what waits of them, and answers their number.
fn print_waiting<I: Input, W: Buffered>(
    alloc: Global,
    index: &mut I,
    asked: &Whatis,
    out: &mut W,
) -> Result<u64, Fault>
    ensures ran { (search : Search) × IsOf (asked_by (searches_of asked.now)) search
        × Consumes (I.state index.old).remaining search.left search.bytes
        × IsAnswered search.end result × Grows (W.contents out.old) (W.contents out.new) search.rows }
    ensures cause { (asked_by (searches_of asked.now)).show ≡ Show.Entry → HasCause (index_causes I.counts W.counts I.state W.failures) result }
    ensures empty { IfOk result (λ _. W.waits out.new ≡ []) }
{
    let found = print_rows(alloc, index, asked, out);
    let is_put_out = out.put_all_out();
    let count = found?;
    if is_put_out {
        Ok(count)
    } else {
        Err(Fault::WriteText)
    }
}

// Prints the rows of an index, and answers their number.
fn print_rows<I: Input, W: Target>(
    alloc: Global,
    index: &mut I,
    asked: &Whatis,
    out: &mut W,
) -> Result<u64, Fault>
    ensures ran { (search : Search) × IsOf (asked_by (searches_of asked.now)) search
        × Consumes (I.state index.old).remaining search.left search.bytes
        × (search.end ≡ result) × Grows (W.contents out.old) (W.contents out.new) search.rows }
    ensures cause { (asked_by (searches_of asked.now)).show ≡ Show.Entry → HasCause (index_causes I.counts W.counts I.state W.failures) result }
{
    give_rows(alloc, index, asked, out)
}

// `print_rows`, by what came to the writer.
fn give_rows<I: Input, W: Target>(
    alloc: Global,
    index: &mut I,
    asked: &Whatis,
    out: &mut W,
) -> Result<u64, Fault>
    ensures searches { (bytes : List ℕ) × Consumes (I.state index.old).remaining (I.state index.new).remaining bytes
        × Searches result (prints (asked_by (searches_of asked.now)).show W.contents) out.old out.new
        (asked_by (searches_of asked.now)) bytes (I.state index.new).remaining }
    ensures cause { (asked_by (searches_of asked.now)).show ≡ Show.Entry → HasCause (index_causes I.counts W.counts I.state W.failures) result }
{
    let Ok(words) = borrowed(alloc, asked.words.as_slice()) else {
        return Err(Fault::Memory);
    };
    let section = section_of(asked);
    if asked.shows_files {
        return give_files(alloc, index, out, words.as_slice(), section);
    }
    whatis(alloc, index, out, words.as_slice(), section, Show::Entry)
}

// The section that is wanted, where it is one alone.
fn section_of(asked: &Whatis) -> Option<&str>
    ensures { option_map (λ section. section.now) result ≡ option_map string_bytes asked.now.section }
{
    match &asked.section {
        Some(section) => Some(section.as_str()),
        None => None,
    }
}

// Texts that are borrowed.
fn borrowed(alloc: Global, texts: &[String]) -> Result<Vec<&str>, AllocError>
    ensures { IfOk result (λ all. map (λ text. text.now) all.items ≡ map string_bytes texts.now) }
{
    let mut all = Vec::with_capacity(alloc, texts.len())?;
    for text in texts {
        all.push(text.as_str())?;
    }
    Ok(all)
}

// Gives the files of the entries that words match, and answers their number.
fn give_files<I: Input, W: Target>(
    alloc: Global,
    index: &mut I,
    out: &mut W,
    words: &[&str],
    section: Option<&str>,
) -> Result<u64, Fault>
    ensures { (bytes : List ℕ) × Consumes (I.state index.old).remaining (I.state index.new).remaining bytes
        × Searches result (prints Show.File W.contents) out.old out.new
        (asked words.now section.entry Show.File) bytes (I.state index.new).remaining }
{
    let query = Query {
        words,
        section,
        show: Show::File,
    };
    search_index(
        alloc,
        &mut Counted::new(index),
        &mut ShownRows::new(out),
        &query,
    )
}
