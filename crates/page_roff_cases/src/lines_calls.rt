//! Pages that are cut into lines. A call is the name of an encoding, `auto`, `ascii`, `latin1` or `utf8`, and its text the page, in which `^` and two
//! digits of base 16 stand for a byte, and `~N*TEXT~` for the text N times.
//!
//! Each line that is given follows, with its messages before it, its number, and a bar after it. A page is cut whole, byte by byte and in two
//! chunks at each point; a page of more than 200 bytes in chunks of 3 bytes after 65,530 ones, and one of more than 100,000 bytes in chunks of the
//! longest line. Where lines are others than those of the whole page, a word says so.

ghost use Rattle.std.specs.Prelude.{◌≡◌, ◌+◌, ◌^◌, ◌<◌, ◌≤◌, length, false, true, OnOk};

use page_core_base::{Encoding, Fault, LINE, Note, NoteKind};
use page_core_streams::KeptNotes;
use page_roff::Cutter;
use page_test_streams::{bytes_of, show_runs, shown};
use std::alloc::Global;

/// The bytes of a page at most.
const BYTES: usize = 20_000_000;

/// Shows the lines of a page.
pub(crate) fn show_call(rt: &HostRuntime, call: &str, text: &str) {
    let encoding = match call {
        "auto" => Encoding::Auto,
        "ascii" => Encoding::Ascii,
        "latin1" => Encoding::Latin1,
        "utf8" => Encoding::Utf8,
        _ => return,
    };
    if let Ok(page) = bytes_of(rt.alloc(), text) {
        let _ = show_page(rt, encoding, page.as_slice());
    }
}

// Shows the lines of a whole page, and whether they are those of its chunks.
fn show_page(rt: &HostRuntime, encoding: Encoding, page: &[u8]) -> Result<(), Fault> {
    let alloc = rt.alloc();
    let whole = lines_of(alloc, encoding, page, page.len(), 1)?;
    let _ = print!(rt; " -> ");
    show_runs(rt, whole.as_str());
    if !is_given(alloc, encoding, page, whole.as_str())? {
        let _ = print!(rt; " others");
    }
    Ok(())
}

// Whether these are the lines of a page that comes in chunks.
fn is_given(alloc: Global, encoding: Encoding, page: &[u8], lines: &str) -> Result<bool, Fault> {
    let (first, size) = match page.len() {
        0..=200 => (0, 1),
        201..=100_000 => (65_530, 3),
        _ => (0, LINE),
    };
    let cut = lines_of(alloc, encoding, page, first, size)?;
    let mut is_given = cut.as_str() == lines;
    if page.len() <= 200 {
        for first in 0..page.len() {
            let cut = lines_of(alloc, encoding, page, first, BYTES)?;
            is_given &= cut.as_str() == lines;
        }
    }
    Ok(is_given)
}

// The lines of a page that comes in chunks of a size, the first of another one.
fn lines_of(
    alloc: Global,
    encoding: Encoding,
    page: &[u8],
    first: usize,
    size: usize,
) -> Result<String, Fault> {
    let mut lines = String::new(alloc);
    if page.len() > BYTES {
        return Ok(lines);
    }
    let mut cutter = Cutter::new(alloc, encoding)?;
    let mut at = first.min(page.len());
    feed_all(alloc, &mut cutter, &page[..at], &mut lines)?;
    'chunks: for _ in 0..page.len() {
        let end = page.len().min(at.saturating_add(size));
        feed_all(alloc, &mut cutter, &page[at..end], &mut lines)?;
        at = end;
    }
    if cutter.end() {
        add_line(alloc, &mut cutter, &mut lines)?;
    }
    Ok(lines)
}

// Feeds a chunk, and adds the lines that are whole in it.
fn feed_all(
    alloc: Global,
    cutter: &mut Cutter,
    chunk: &[u8],
    lines: &mut String,
) -> Result<(), Fault>
    requires ready { cutter.old.ready ≡ false }
    requires consumed { cutter.old.point.line.consumed + length chunk.now < 2 ^ 31 }
    ensures ready { OnOk result (cutter.new.ready ≡ false) }
    ensures consumed { OnOk result (cutter.new.point.line.consumed
        ≤ cutter.old.point.line.consumed + length chunk.now) }
{
    let mut at = 0;
    'parts: for _ in 0..chunk.len() {
        if at < chunk.len() {
            let (consumed, whole) = cutter.feed(&chunk[at..]);
            at += consumed;
            if whole {
                add_line(alloc, cutter, lines)?;
            }
        }
    }
    Ok(())
}

// Adds the line that waits, with its messages before it.
fn add_line(alloc: Global, cutter: &mut Cutter, lines: &mut String) -> Result<(), Fault>
    requires { cutter.old.ready ≡ true }
    ensures ready { OnOk result (cutter.new.ready ≡ false) }
    ensures point { OnOk result (cutter.new.point ≡ cutter.old.point) }
{
    let mut notes = KeptNotes::new(alloc);
    let (text, number) = cutter.line(&mut notes)?;
    for note in &notes.notes {
        add_note(alloc, note, lines);
    }
    if let Ok(line) = format!(in alloc; "{number} {}|", shown(text)) {
        let _ = lines.push_str(line.as_str());
    }
    Ok(())
}

// Adds a message: its kind, line, column and detail.
fn add_note(alloc: Global, note: &Note, lines: &mut String) {
    let kind = match note.kind {
        NoteKind::BadChar => "bad",
        NoteKind::Limit => "limit",
        _ => "other",
    };
    if let Ok(message) = format!(in alloc;
        "{kind} {}:{} {}, ",
        note.line, note.column, note.detail
    ) {
        let _ = lines.push_str(message.as_str());
    }
}
