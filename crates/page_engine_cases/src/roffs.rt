//! Roff alone over the lines of a page.

ghost use Rattle.page_core_base.specs.Texts.{IsLine};

use page_checks::{BYTES, CutFeed, Cuts, Ending, FILE, Feed, Lack, Lines, PutDown, run};
use page_core::{Fault, Settings, TextNotes};
use page_engine::Outcome;
use page_roff::{Roff, RoffPart};
use page_test_streams::{Fails, Scarcity, Store};
use std::alloc::Global;

/// What a source line may give at most: its finished lines, and that there are no more.
const MOST: usize = 1_002;

/// The source lines of a page at most.
const LINES: u64 = 1_000_000;

// Roff, and where its messages go.
#[derive(Drop)]
struct RoffFeed {
    messages: Store,
    roff: Roff,
    settings: Settings,
}

// Roff before the first line. No caller here has to know its state, so that this says nothing of it: their proofs stay short.
fn new_roff(alloc: Global, settings: &Settings) -> Result<Roff, Fault> {
    Roff::new(alloc, settings)
}

// Begins a source line, and says whether it did: the one before it has to be done.
fn begin_line(roff: &mut Roff, text: &[u8], number: u32) -> bool
    requires { IsLine text.now }
{
    if !roff.idle() || roff.counts().source > LINES {
        return false;
    }
    roff.source(text, number);
    true
}

// Takes the next finished line, and says whether there was one.
fn take_line(roff: &mut Roff, messages: &mut Store) -> Result<bool, Fault> {
    let mut notes = TextNotes::new(messages, FILE);
    match roff.take(&mut notes)? {
        Some(_) => Ok(true),
        None => Ok(false),
    }
}

// Takes all finished lines of a source line.
fn take_lines(roff: &mut Roff, messages: &mut Store) -> Result<(), Fault> {
    'takes: for _ in 0..MOST {
        if !take_line(roff, messages)? {
            return Ok(());
        }
    }
    Err(Fault::TooLong)
}

// Roff's part of what is held of the page, where it is between two lines.
fn part_of(alloc: Global, roff: &Roff) -> Result<RoffPart, Fault> {
    if roff.idle() {
        roff.part(alloc)
    } else {
        Err(Fault::TooLong)
    }
}

// Roff goes on from a part, or is as it was and hands this back.
fn resume(
    alloc: Global,
    settings: &Settings,
    roff: &mut Roff,
    part: RoffPart,
) -> Result<(), (RoffPart, Fault)> {
    match Roff::from_part(alloc, settings, part) {
        Ok(next) => {
            *roff = next;
            Ok(())
        }
        Err(refused) => Err(refused),
    }
}

impl Feed for RoffFeed {
    fn line(&mut self, text: &[u8], number: u32) -> Result<(), Fault> {
        if !begin_line(&mut self.roff, text, number) {
            return Err(Fault::TooLong);
        }
        take_lines(&mut self.roff, &mut self.messages)
    }

    fn end(&mut self) -> Result<(), Fault> {
        if !self.roff.idle() {
            return Err(Fault::TooLong);
        }
        let mut notes = TextNotes::new(&mut self.messages, FILE);
        self.roff.end(&mut notes)
    }

    // Roff keeps no level.
    fn outcome(&self) -> Outcome {
        Outcome {
            worst: None,
            counts: self.roff.counts(),
        }
    }

    // Only a page is asked for that.
    fn later(&mut self) -> Option<Fault> {
        None
    }

    // It is not cut by itself.
    fn lack(&self) -> Option<Lack> {
        None
    }
}

impl PutDown for RoffFeed {
    type Held = RoffPart;

    fn put_down(&self, alloc: Global) -> Result<RoffPart, Fault> {
        part_of(alloc, &self.roff)
    }

    fn go_on(&mut self, alloc: Global, held: RoffPart) -> Result<(), (RoffPart, Fault)> {
        resume(alloc, &self.settings, &mut self.roff, held)
    }
}

/// Runs roff alone over the lines of a page, and keeps its messages in memory for a count of bytes. What is not roff's has its memory before
/// roff is made. Nothing, where the page is too long.
pub(crate) fn run_roff(
    alloc: Global,
    bytes: &[u8],
    settings: &Settings,
    room: usize,
    cuts: Cuts,
    memory: Option<Scarcity>,
) -> Option<Ending> {
    if bytes.len() > BYTES {
        return None;
    }
    let Ok(messages) = Store::with_room(alloc, room, Fails::Never) else {
        return Some(Ending::without_lines(Fault::Memory));
    };
    let lines = match Lines::new(alloc, settings.encoding) {
        Ok(lines) => lines,
        Err(fault) => return Some(Ending::without_lines(fault)),
    };
    let ending = match new_roff(alloc, settings) {
        Ok(roff) => {
            let feed = RoffFeed {
                messages,
                roff,
                settings: *settings,
            };
            let feed = CutFeed {
                feed,
                alloc,
                cuts,
                is_cut: false,
                lack: None,
                memory,
            };
            run(alloc, bytes, lines, feed)
        }
        Err(fault) => Ending::without_lines(fault),
    };
    Some(ending)
}
