//! A page whose lines come one by one.

ghost use Rattle.page_core_base.specs.Texts.{IsLine};

use crate::streams::Streams;
use page_checks::{BYTES, CutFeed, Cuts, Ending, FILE, Feed, Lack, Lines, PutDown, run};
use page_core::{Fault, Settings, TextNotes, TextRows};
use page_engine::{Edge, Outcome, Page};
use page_test_streams::Scarcity;
use std::alloc::Global;

// A page, and where its rows and messages go.
#[derive(Drop)]
struct PageFeed<'a, 'b> {
    page: Page,
    streams: &'a mut Streams<'b>,
    alloc: Global,
}

// A page before its first line. No caller here has to know its state, so that this says nothing of it: their proofs stay short.
fn new_page(alloc: Global, settings: &Settings) -> Result<Page, Fault> {
    Page::new(alloc, *settings)
}

// Feeds a line to a page.
fn give_line(page: &mut Page, streams: &mut Streams, text: &[u8], number: u32) -> Result<(), Fault>
    requires { IsLine text.now }
{
    let mut rows = TextRows::new(&mut streams.rows);
    let mut notes = TextNotes::new(&mut streams.messages, FILE);
    page.feed_line(text, number, &mut rows, &mut notes)
}

// Ends a page.
fn give_end(page: &mut Page, streams: &mut Streams) -> Result<(), Fault> {
    let mut rows = TextRows::new(&mut streams.rows);
    let mut notes = TextNotes::new(&mut streams.messages, FILE);
    page.end(&mut rows, &mut notes)
}

// What is held of a page.
fn edge_of(alloc: Global, page: &Page) -> Result<Edge, Fault> {
    page.edge(alloc)
}

// The page goes on from an edge, or is as it was and hands this back.
fn resume(alloc: Global, page: &mut Page, edge: Edge) -> Result<(), (Edge, Fault)> {
    match Page::resume(alloc, edge) {
        Ok(next) => {
            *page = next;
            Ok(())
        }
        Err(refused) => Err(refused),
    }
}

// The fault of a further line, of a further end and of an edge, where all have the same and nothing is written.
fn fault_after(alloc: Global, page: &mut Page, streams: &mut Streams) -> Option<Fault> {
    let calls = streams.calls();
    let of_line = give_line(page, streams, b".ZZ", 1).err()?;
    let of_end = give_end(page, streams).err()?;
    let of_edge = edge_of(alloc, page).err()?;
    if of_line == of_end && of_end == of_edge && calls == streams.calls() {
        Some(of_edge)
    } else {
        None
    }
}

impl Feed for PageFeed<'_, '_> {
    fn line(&mut self, text: &[u8], number: u32) -> Result<(), Fault> {
        give_line(&mut self.page, self.streams, text, number)?;
        self.streams.show_line(number);
        Ok(())
    }

    fn end(&mut self) -> Result<(), Fault> {
        give_end(&mut self.page, self.streams)
    }

    fn outcome(&self) -> Outcome {
        Outcome {
            worst: self.page.worst(),
            counts: self.page.counts(),
        }
    }

    fn later(&mut self) -> Option<Fault> {
        fault_after(self.alloc, &mut self.page, self.streams)
    }

    // It is not cut by itself.
    fn lack(&self) -> Option<Lack> {
        None
    }
}

impl PutDown for PageFeed<'_, '_> {
    type Held = Edge;

    fn put_down(&self, alloc: Global) -> Result<Edge, Fault> {
        edge_of(alloc, &self.page)
    }

    fn go_on(&mut self, alloc: Global, held: Edge) -> Result<(), (Edge, Fault)> {
        resume(alloc, &mut self.page, held)
    }
}

/// Feeds a page line by line. What is not the page's has its memory before the page is made. Nothing, where the page is too long. Where it is given
/// memory to take, none is left between its cuts.
pub(crate) fn run_lines(
    alloc: Global,
    bytes: &[u8],
    settings: &Settings,
    streams: &mut Streams,
    cuts: Cuts,
    memory: Option<Scarcity>,
) -> Option<Ending> {
    if bytes.len() > BYTES {
        return None;
    }
    let lines = match Lines::new(alloc, settings.encoding) {
        Ok(lines) => lines,
        Err(fault) => return Some(Ending::without_lines(fault)),
    };
    let ending = match new_page(alloc, settings) {
        Ok(page) => {
            let feed = PageFeed {
                page,
                streams,
                alloc,
            };
            let feed = CutFeed {
                feed,
                alloc,
                cuts,
                is_cut: false,
                lack: None,
                memory,
            };
            run(alloc, bytes, lines, feed)
        }
        Err(fault) => Ending::without_lines(fault),
    };
    Some(ending)
}
