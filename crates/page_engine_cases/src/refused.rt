//! A page that is refused memory: where it is made, where it is put down after a line, and where it goes on from what is held of it; and so roff and
//! other layers of it, each alone.

use crate::layers::layer_difference;
use crate::pages::run_lines;
use crate::roffs::run_roff;
use crate::streams::{Shows, Streams};
use page_checks::{Cuts, Ending, Lack};
use page_core::{Fault, Settings};
use page_test_streams::{Ended, Fails, Scarce, Scarcity, scarce_difference};
use std::alloc::Global;

/// A page, the line after which it goes on from what is held of it, and how it ends with ample memory.
#[derive(Clone, Copy)]
pub(crate) struct Case<'a> {
    pub(crate) page: &'a [u8],
    pub(crate) settings: &'a Settings,
    pub(crate) line: u32,
    pub(crate) ending: Ending,
}

// The bytes of messages that there is memory for where roff is run alone.
const ROFF_ROOM: usize = 2_000;

/// What was refused memory.
#[derive(Clone, Copy)]
pub(crate) struct Refusals {
    start: bool,
    putting_down: bool,
    going_on: bool,
}

impl Refusals {
    /// Nothing was refused yet.
    pub(crate) fn new() -> Refusals {
        Refusals {
            start: false,
            putting_down: false,
            going_on: false,
        }
    }

    /// Memory lacked for this; for the start where it is nothing else.
    pub(crate) fn add(&mut self, lack: Option<Lack>) {
        match lack {
            None => self.start = true,
            Some(Lack::PuttingDown) => self.putting_down = true,
            Some(Lack::GoingOn) => self.going_on = true,
        }
    }

    /// Whether all of it was.
    pub(crate) fn are_all(&self) -> bool {
        self.start && self.putting_down && self.going_on
    }
}

// A page that comes line by line, into streams that have their room.
#[derive(Drop)]
struct Run<'a> {
    case: Case<'a>,
    whole: &'a Streams<'a>,
    streams: Streams<'a>,
    refusals: Refusals,
}

impl<'a> Run<'a> {
    // Room for what the page gives.
    fn new(alloc: Global, case: Case<'a>, whole: &'a Streams<'a>) -> Option<Run<'a>> {
        let room = whole.rows.kept.len().max(whole.messages.kept.len());
        let fails = (Fails::Never, Fails::Never);
        let streams = Streams::new(alloc, room, fails, Shows::Nothing)?;
        Some(Run {
            case,
            whole,
            streams,
            refusals: Refusals::new(),
        })
    }

    // Feeds the page from its first line, with no memory left between its cuts where it is given memory to take.
    fn feed(&mut self, alloc: Global, memory: Option<Scarcity>) -> Option<Ending> {
        self.streams.clear();
        run_lines(
            alloc,
            self.case.page,
            self.case.settings,
            &mut self.streams,
            Cuts::From(self.case.line),
            memory,
        )
    }

    // Whether the page ended as it does with ample memory, and gave the same.
    fn is_whole(&self, ending: &Ending) -> bool {
        ending.result == self.case.ending.result
            && ending.later == self.case.ending.later
            && self.streams.are(self.whole)
    }

    // How it ended, where memory is refused: before its first line, at the cut, after which it goes on as it is, or not.
    fn ended(&mut self, ending: &Ending) -> Ended {
        if ending.result == Err(Fault::Memory) && self.streams.calls() == (0, 0) {
            self.refusals.add(None);
            return Ended::Refused;
        }
        if !self.is_whole(ending) {
            return Ended::Otherwise;
        }
        if ending.lack.is_none() {
            return Ended::Whole;
        }
        self.refusals.add(ending.lack);
        Ended::Refused
    }

    // In which way the page asks for memory once it is made, and once it goes on from what is held of it, or is not right, if in any.
    fn bare_difference(&mut self, alloc: Global) -> Option<&'static str> {
        let Some(memory) = Scarcity::new(alloc) else {
            return Some("scarce");
        };
        let lack = if self.case.page.is_empty() {
            None
        } else {
            Some(Lack::GoingOn)
        };
        let Some(ending) = self.feed(alloc, Some(memory)) else {
            return Some("as long as a page may be");
        };
        if !self.is_whole(&ending) {
            Some("without memory")
        } else if ending.lack != lack {
            Some("refused memory where it goes on")
        } else if ending.has_memory {
            Some("without memory after the page")
        } else {
            None
        }
    }
}

impl Scarce for Run<'_> {
    fn once(&mut self, alloc: Global) -> Ended {
        match self.feed(alloc, None) {
            Some(ending) => self.ended(&ending),
            None => Ended::Otherwise,
        }
    }
}

// Roff alone over the lines of a page.
#[derive(Drop)]
struct RoffRun<'a> {
    case: Case<'a>,
}

impl RoffRun<'_> {
    // Runs roff over all lines, and it goes on after one from what is held of it.
    fn feed(&self, alloc: Global, memory: Option<Scarcity>) -> Option<Ending> {
        let cuts = Cuts::From(self.case.line);
        run_roff(
            alloc,
            self.case.page,
            self.case.settings,
            ROFF_ROOM,
            cuts,
            memory,
        )
    }

    // Whether it counted what the page counts.
    fn is_whole(&self, ending: &Ending) -> bool {
        match (ending.result, self.case.ending.result) {
            (Ok(roff), Ok(page)) => roff.counts == page.counts,
            _ => false,
        }
    }

    // How it ended, where memory is refused: before the first line, at the cut, or not.
    fn ended(&self, ending: &Ending) -> Ended {
        if ending.result == Err(Fault::Memory) {
            Ended::Refused
        } else if !self.is_whole(ending) {
            Ended::Otherwise
        } else if ending.lack.is_none() {
            Ended::Whole
        } else {
            Ended::Refused
        }
    }

    // Whether it asks for nothing but where it is made and goes on, where each growth was refused in turn.
    fn is_whole_without_memory(&self, alloc: Global) -> bool {
        let Some(memory) = Scarcity::new(alloc) else {
            return false;
        };
        match self.feed(alloc, Some(memory)) {
            Some(ending) => {
                self.is_whole(&ending) && ending.lack == Some(Lack::GoingOn) && !ending.has_memory
            }
            None => false,
        }
    }
}

impl Scarce for RoffRun<'_> {
    fn once(&mut self, alloc: Global) -> Ended {
        match self.feed(alloc, None) {
            Some(ending) => self.ended(&ending),
            None => Ended::Otherwise,
        }
    }
}

/// In which way a page that comes line by line is not right that has no memory but where it is made, put down and goes on, if in any: there each growth
/// is refused in turn. `whole` got what it gives.
pub(crate) fn bare_difference<'a>(
    alloc: Global,
    case: Case<'a>,
    whole: &'a Streams<'a>,
) -> Option<&'static str> {
    match Run::new(alloc, case, whole) {
        Some(mut run) => run.bare_difference(alloc),
        None => Some("scarce"),
    }
}

/// In which way a page is not right where memory is refused to it, each growth in turn, if in any; and so its layers.
pub(crate) fn refusal_difference<'a>(
    alloc: Global,
    case: Case<'a>,
    whole: &'a Streams<'a>,
) -> Option<&'static str> {
    let Some(mut run) = Run::new(alloc, case, whole) else {
        return Some("scarce");
    };
    let way = scarce_difference(alloc, &mut run);
    if way.is_some() {
        return way;
    }
    if !run.refusals.are_all() {
        return Some("refused memory at each call");
    }
    let way = roff_difference(alloc, case);
    if way.is_some() {
        return way;
    }
    layer_difference(alloc, case.settings)
}

// What goes another way where memory is refused to roff alone.
fn roff_difference(alloc: Global, case: Case) -> Option<&'static str> {
    let mut run = RoffRun { case };
    let way = scarce_difference(alloc, &mut run);
    if way.is_some() {
        return way;
    }
    if !run.is_whole_without_memory(alloc) {
        return Some("by roff without memory");
    }
    None
}
