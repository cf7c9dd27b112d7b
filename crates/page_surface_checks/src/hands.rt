//! A page put together by hand: each line goes through roff, a macro set and the scopes to a sink of pieces.

ghost use Rattle.std.specs.Prelude.{◌≤◌, length};

use crate::lines::FedPage;
use crate::sheets::Sheet;
use crate::sinks::{Kept, Notes};
use page_core::{Fault, LINE, PieceSink, Settings, Taken, is_line};
use page_roff::{Counts, Roff};
use page_scopes::Scopes;
use page_sets::{MacroSet, Man};
use std::alloc::Global;

// The lines that roff takes of one source line at most, and one call more.
const TAKES: usize = 1_002;

// The source lines of a page here at most.
const LINES: u64 = 1_000_000;

// ---- roff

/// Roff before the first line. No caller here has to know its state, so that this says nothing of it: their proofs stay short.
pub(crate) fn new_roff(alloc: Global, settings: &Settings) -> Result<Roff, Fault> {
    Roff::new(alloc, settings)
}

// Begins a source line, and says whether it did: it has to be a line, and the one before it has to be done.
fn begin_line(roff: &mut Roff, text: &[u8], number: u32) -> bool {
    if !roff.idle() || !is_line(text) || roff.counts().source > LINES {
        return false;
    }
    roff.source(text, number);
    true
}

// Takes the next finished line of roff, and says whether there was one.
fn take_line<S: MacroSet>(roff: &mut Roff, body: &mut Body<S>) -> Result<bool, Fault>
where
    S::Place: Drop,
{
    match roff.take(&mut body.sheet.kept.notes)? {
        Some(line) => {
            apply_line(&body.set, line, &mut body.scopes, &mut body.sheet)?;
            Ok(true)
        }
        None => Ok(false),
    }
}

// Runs a source line to its end, up to which roff may not be idle.
fn run_line<S: MacroSet>(
    roff: &mut Roff,
    text: &[u8],
    number: u32,
    body: &mut Body<S>,
) -> Result<(), Fault>
where
    S::Place: Drop,
{
    if !begin_line(roff, text, number) {
        return Err(Fault::TooLong);
    }
    let was_idle = roff.idle();
    'takes: for _ in 0..TAKES {
        if !take_line(roff, body)? {
            break 'takes;
        }
    }
    if was_idle {
        return Err(Fault::TooLong);
    }
    Ok(())
}

// Roff goes on from its part of what is held of the page, where it is between two lines.
fn cut_roff(alloc: Global, settings: &Settings, roff: &mut Roff) -> Result<(), Fault> {
    if !roff.idle() {
        return Err(Fault::TooLong);
    }
    let part = roff.part(alloc)?;
    match Roff::from_part(alloc, settings, part) {
        Ok(next) => {
            *roff = next;
            Ok(())
        }
        Err((_, fault)) => Err(fault),
    }
}

// Ends roff.
fn end_roff(roff: &mut Roff, notes: &mut Notes) -> Result<(), Fault> {
    if roff.idle() {
        roff.end(notes)
    } else {
        Err(Fault::TooLong)
    }
}

// ---- what is below roff

/// The scopes before the first line: the set of the page is chosen once they are made. Nothing is said of their state.
pub(crate) fn new_scopes<S: MacroSet>(
    alloc: Global,
    settings: &Settings,
    set: &S,
) -> Result<Scopes, Fault> {
    let mut scopes = Scopes::new(alloc, settings, &Man)?;
    scopes.choose(set);
    Ok(scopes)
}

// The scopes go on from their part of what is held of the page.
fn cut_scopes<S: MacroSet>(
    alloc: Global,
    settings: &Settings,
    set: &S,
    scopes: &mut Scopes,
) -> Result<(), Fault> {
    let part = scopes.part(alloc)?;
    match Scopes::from_part(alloc, settings, set, part) {
        Ok(next) => {
            *scopes = next;
            Ok(())
        }
        Err((_, fault)) => Err(fault),
    }
}

// Applies the events of a finished line.
fn apply_line<S: MacroSet, O: PieceSink>(
    set: &S,
    line: Taken<'_>,
    scopes: &mut Scopes,
    out: &mut O,
) -> Result<(), Fault>
where
    S::Place: Drop,
    requires { length line.text.now ≤ LINE }
{
    let mut place = set.start(line);
    while let Some(event) = set.next(line, &mut place) {
        scopes.apply(event, out)?;
    }
    Ok(())
}

// A macro set, the scopes and a sheet: what takes the finished lines of a page.
#[derive(Drop)]
struct Body<S> {
    set: S,
    scopes: Scopes,
    sheet: Sheet,
}

impl<S: MacroSet + Drop> Body<S> {
    // Before the first line.
    fn new(alloc: Global, settings: &Settings, set: S, kept: Kept) -> Result<Body<S>, Fault> {
        let scopes = new_scopes(alloc, settings, &set)?;
        let sheet = Sheet::new(alloc, settings, kept)?;
        Ok(Body { set, scopes, sheet })
    }

    // The scopes and the filler go on from what they hold.
    fn cut(&mut self, alloc: Global, settings: &Settings) -> Result<(), Fault> {
        cut_scopes(alloc, settings, &self.set, &mut self.scopes)?;
        self.sheet.cut(alloc, settings)
    }

    // Ends all scopes and the open row.
    fn finish(&mut self) -> Result<(), Fault> {
        self.scopes.finish(&mut self.sheet)?;
        self.sheet.finish()
    }
}

// ---- the page

/// A page of a macro set.
#[derive(Drop)]
pub(crate) struct ByHand<S> {
    alloc: Global,
    settings: Settings,
    roff: Roff,
    body: Body<S>,
}

impl<S: MacroSet + Drop> ByHand<S> {
    /// A page before its first line.
    pub(crate) fn new(
        alloc: Global,
        settings: &Settings,
        set: S,
        kept: Kept,
    ) -> Result<ByHand<S>, Fault> {
        let roff = new_roff(alloc, settings)?;
        let body = Body::new(alloc, settings, set, kept)?;
        Ok(ByHand {
            alloc,
            settings: *settings,
            roff,
            body,
        })
    }
}

impl<S: MacroSet + Drop> FedPage for ByHand<S>
where
    S::Place: Drop,
{
    fn line(&mut self, text: &[u8], number: u32) -> Result<(), Fault> {
        run_line(&mut self.roff, text, number, &mut self.body)
    }

    fn cut(&mut self) -> Result<(), Fault> {
        cut_roff(self.alloc, &self.settings, &mut self.roff)?;
        self.body.cut(self.alloc, &self.settings)
    }

    fn end(&mut self) -> Result<(), Fault> {
        end_roff(&mut self.roff, &mut self.body.sheet.kept.notes)?;
        self.body.finish()
    }

    fn kept(&self) -> &Kept {
        &self.body.sheet.kept
    }

    fn counts(&self) -> Counts {
        self.roff.counts()
    }

    fn open(&self) -> (usize, usize) {
        (self.body.scopes.depth(), self.body.sheet.pending())
    }
}
