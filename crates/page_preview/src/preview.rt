//! What is kept of a page, so that a change lets only what follows it be formatted anew.

ghost use Rattle.std.specs.Prelude.{◌≡◌, ◌+◌, ◌^◌, ◌<◌, length, true, false, OnOk};

use page_core::{Fault, Settings, TextNotes, TextRows};
use page_engine::{Edge, Page};
use page_roff::Cutter;
use std::alloc::Global;
use std::io;

/// The bytes of a text at most.
const BYTES: usize = 1_000_000_000;

/// An edge is kept after so many lines.
const STEP: u64 = 10;

/// The name of the file in messages.
const FILE: &str = "x.1";

// An edge, the place in the text where it is, and the bytes of rows and of messages that came before it.
#[derive(Drop)]
struct Mark {
    edge: Edge,
    place: usize,
    rows: usize,
    messages: usize,
}

/// The rows and messages of a page, and edges of it, the first one first.
#[derive(Drop)]
pub(crate) struct Preview {
    alloc: Global,
    settings: Settings,
    marks: Vec<Mark>,
    rows: Vec<u8>,
    messages: Vec<u8>,
    // How many bytes of them are not new.
    old_rows: usize,
    old_messages: usize,
}

impl Preview {
    /// A preview with no page yet.
    pub(crate) fn new(alloc: Global, settings: Settings) -> Preview {
        Preview {
            alloc,
            settings,
            marks: Vec::new(alloc),
            rows: Vec::new(alloc),
            messages: Vec::new(alloc),
            old_rows: 0,
            old_messages: 0,
        }
    }

    /// Formats a text, whose first bytes, `same` of them, are as they were the last time, and answers up to where it was kept.
    pub(crate) fn format(&mut self, text: &[u8], same: usize) -> Result<usize, Fault> {
        if text.len() > BYTES {
            return Err(Fault::TooLong);
        }
        let mut cutter = Cutter::new(self.alloc, self.settings.encoding)?;
        match self.start(same) {
            Ok((mut page, place)) => {
                let fed = self.feed(&mut page, &mut cutter, text, place);
                fed.map(|()| place)
            }
            Err(fault) => Err(fault),
        }
    }

    /// The rows that came anew.
    pub(crate) fn new_rows(&self) -> &str {
        text_after(self.rows.as_slice(), self.old_rows)
    }

    /// The messages that came anew.
    pub(crate) fn new_messages(&self) -> &str {
        text_after(self.messages.as_slice(), self.old_messages)
    }

    /// Whether another has the same rows and messages.
    pub(crate) fn is_same(&self, other: &Preview) -> bool {
        self.rows == other.rows && self.messages == other.messages
    }

    // The page at the last edge of those in front of a place, and where that is; before its first line, where there is none.
    fn start(&mut self, same: usize) -> Result<(Page, usize), Fault> {
        while let Some(mark) = self.marks.pop() {
            if mark.place <= same {
                return self.resume(mark);
            }
        }
        self.keep(0, 0);
        match Page::new(self.alloc, self.settings) {
            Ok(page) => Ok((page, 0)),
            Err(fault) => Err(fault),
        }
    }

    // The page at an edge. `Page::resume` takes the edge, and so it is asked for once more; where memory lacks, it comes back.
    fn resume(&mut self, mark: Mark) -> Result<(Page, usize), Fault> {
        let place = mark.place;
        self.keep(mark.rows, mark.messages);
        match Page::resume(self.alloc, mark.edge) {
            Ok(page) => match self.push_edge(&page, place) {
                Ok(()) => Ok((page, place)),
                Err(fault) => Err(fault),
            },
            Err((edge, fault)) => {
                let _ = self.push_mark(edge, place);
                Err(fault)
            }
        }
    }

    // Keeps so many bytes of the rows and of the messages.
    fn keep(&mut self, rows: usize, messages: usize) {
        self.rows.truncate(rows);
        self.messages.truncate(messages);
        self.old_rows = rows;
        self.old_messages = messages;
    }

    fn push_edge(&mut self, page: &Page, place: usize) -> Result<(), Fault> {
        let edge = page.edge(self.alloc)?;
        self.push_mark(edge, place)
    }

    fn push_mark(&mut self, edge: Edge, place: usize) -> Result<(), Fault> {
        let mark = Mark {
            edge,
            place,
            rows: self.rows.len(),
            messages: self.messages.len(),
        };
        match self.marks.push(mark) {
            Ok(()) => Ok(()),
            Err(_) => Err(Fault::Memory),
        }
    }

    // Feeds the lines below a place to a page, and its end. The text is cut from its first byte on, so that lines have their numbers, and their bytes
    // the encoding that is chosen in front of them; those of the front are passed over.
    fn feed(
        &mut self,
        page: &mut Page,
        cutter: &mut Cutter,
        text: &[u8],
        start: usize,
    ) -> Result<(), Fault>
        requires ready { cutter.old.ready ≡ false }
        requires consumed { cutter.old.point.line.consumed + length text.now < 2 ^ 31 }
    {
        let mut place = 0;
        'parts: for _ in 0..text.len() {
            if place < text.len() {
                let (count, is_whole) = cutter.feed(&text[place..]);
                place += count;
                if is_whole {
                    self.give_line(page, cutter, place, start)?;
                }
            }
        }
        if cutter.end() {
            self.take_line(page, cutter)?;
        }
        self.end(page)
    }

    // Gives the line that ends at a place, and keeps an edge where it is time; or passes it over, where it ends in front of the start.
    fn give_line(
        &mut self,
        page: &mut Page,
        cutter: &mut Cutter,
        place: usize,
        start: usize,
    ) -> Result<(), Fault>
        requires { cutter.old.ready ≡ true }
        ensures ready { OnOk result (cutter.new.ready ≡ false) }
        ensures point { OnOk result (cutter.new.point ≡ cutter.old.point) }
    {
        if place <= start {
            return pass_line(cutter);
        }
        self.take_line(page, cutter)?;
        if page.counts().source % STEP == 0 {
            self.push_edge(page, place)?;
        }
        Ok(())
    }

    // Gives a line to the page.
    fn take_line(&mut self, page: &mut Page, cutter: &mut Cutter) -> Result<(), Fault>
        requires { cutter.old.ready ≡ true }
        ensures ready { OnOk result (cutter.new.ready ≡ false) }
        ensures point { OnOk result (cutter.new.point ≡ cutter.old.point) }
    {
        let mut rows = TextRows::new(&mut self.rows);
        let mut notes = TextNotes::new(&mut self.messages, FILE);
        page.take_line(cutter, &mut rows, &mut notes)
    }

    fn end(&mut self, page: &mut Page) -> Result<(), Fault> {
        let mut rows = TextRows::new(&mut self.rows);
        let mut notes = TextNotes::new(&mut self.messages, FILE);
        page.end(&mut rows, &mut notes)
    }
}

// Passes a line over: its messages came before.
fn pass_line(cutter: &mut Cutter) -> Result<(), Fault>
    requires { cutter.old.ready ≡ true }
    ensures ready { OnOk result (cutter.new.ready ≡ false) }
    ensures point { OnOk result (cutter.new.point ≡ cutter.old.point) }
{
    let mut nowhere = io::sink();
    let mut notes = TextNotes::new(&mut nowhere, FILE);
    cutter.line(&mut notes)?;
    Ok(())
}

// What comes after some bytes.
fn text_after(bytes: &[u8], count: usize) -> &str {
    match bytes.get(count..) {
        Some(rest) => std::str::from_utf8(rest).unwrap_or("not UTF-8"),
        None => "",
    }
}
