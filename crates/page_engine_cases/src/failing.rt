//! A page at once, in pieces, and with each of its writes failing in turn.

ghost use Rattle.std.specs.Prelude.{◌<◌};

use crate::pages::run_lines;
use crate::streams::{Shows, Streams};
use page_checks::{Cuts, Ending, FILE};
use page_core::{Fault, Settings, TextNotes, TextRows};
use page_engine::{Outcome, PageRun, run_page};
use page_test_streams::{Fails, Store};
use std::alloc::Global;

/// The first writes that fail in turn, of each sink.
const WRITES: usize = 100;

/// What a run over a whole page gives.
#[derive(Drop)]
pub(crate) struct Whole {
    rows: Store,
    messages: Store,
    result: Result<Outcome, Fault>,
}

// Runs a whole page at once. No caller here has to know what is proved of that, so that this says nothing of it: their proofs stay short.
fn run_whole(
    alloc: Global,
    bytes: &[u8],
    rows: &mut Store,
    messages: &mut Store,
    settings: &Settings,
) -> Result<Outcome, Fault> {
    let mut reader = bytes;
    run_page(alloc, &mut reader, rows, messages, FILE, settings)
}

// Runs a page whose bytes come in pieces of a size. What a piece settles is in the sinks when it is fed.
fn run_in_pieces(
    alloc: Global,
    bytes: &[u8],
    size: usize,
    rows: &mut Store,
    messages: &mut Store,
    settings: &Settings,
) -> Result<Outcome, Fault>
    requires { 0 < size }
{
    let mut rows = TextRows::new(rows);
    let mut notes = TextNotes::new(messages, FILE);
    let mut run = PageRun::new(alloc, settings)?;
    for piece in bytes.chunks(size) {
        run.feed(piece, &mut rows, &mut notes)?;
    }
    run.end(&mut rows, &mut notes)?;
    Ok(run.outcome())
}

impl Whole {
    /// A run over a page.
    pub(crate) fn new(alloc: Global, bytes: &[u8], settings: &Settings) -> Whole {
        let mut rows = Store::new(alloc, usize::MAX, Fails::Never);
        let mut messages = Store::new(alloc, usize::MAX, Fails::Never);
        let result = run_whole(alloc, bytes, &mut rows, &mut messages, settings);
        Whole {
            rows,
            messages,
            result,
        }
    }

    /// Whether streams got the same, and the result is the same.
    pub(crate) fn is(&self, streams: &Streams, other: Result<Outcome, Fault>) -> bool {
        other == self.result
            && streams.rows.kept == self.rows.kept
            && streams.messages.kept == self.messages.kept
    }

    /// Whether a run whose bytes come in pieces of a size gives the same.
    pub(crate) fn is_in_pieces(
        &self,
        alloc: Global,
        bytes: &[u8],
        size: usize,
        settings: &Settings,
    ) -> bool
        requires { 0 < size }
    {
        let mut rows = Store::new(alloc, usize::MAX, Fails::Never);
        let mut messages = Store::new(alloc, usize::MAX, Fails::Never);
        let result = run_in_pieces(alloc, bytes, size, &mut rows, &mut messages, settings);
        result == self.result && rows.kept == self.rows.kept && messages.kept == self.messages.kept
    }

    // Whether streams got a front of the same.
    fn begins_with(&self, streams: &Streams) -> bool {
        self.rows.kept.starts_with(streams.rows.kept.as_slice())
            && self
                .messages
                .kept
                .starts_with(streams.messages.kept.as_slice())
    }

    /// Whether the page that comes line by line ends by the fault of the sink, wherever a write fails, with a front of what the run gives,
    /// and is closed then.
    pub(crate) fn stands_failures(&self, alloc: Global, bytes: &[u8], settings: &Settings) -> bool {
        let writes = self.rows.calls.max(self.messages.calls).min(WRITES);
        for calls in 0..writes.saturating_add(1) {
            for fails in [Fails::After(calls), Fails::TakesNothing(calls)] {
                if !self.stands(alloc, bytes, settings, (fails, Fails::Never))
                    || !self.stands(alloc, bytes, settings, (Fails::Never, fails))
                {
                    return false;
                }
            }
        }
        true
    }

    // Whether the page ends as it should where the writers fail so.
    fn stands(
        &self,
        alloc: Global,
        bytes: &[u8],
        settings: &Settings,
        fails: (Fails, Fails),
    ) -> bool {
        let Some(mut streams) = Streams::new(alloc, 0, fails, Shows::Nothing) else {
            return false;
        };
        let ending = run_lines(alloc, bytes, settings, &mut streams, Cuts::Never, None);
        match ending {
            Some(ending) => self.is_met(&streams, ending),
            None => false,
        }
    }

    // Whether the page ended by the fault of the stream that failed, or as the run did.
    fn is_met(&self, streams: &Streams, ending: Ending) -> bool {
        match (streams.fault(), ending.result) {
            (Some(failed), Err(fault)) => {
                fault == failed && ending.later == Some(Fault::Failed) && self.begins_with(streams)
            }
            (None, other) => self.is(streams, other) && ending.later == Some(Fault::Ended),
            _ => false,
        }
    }
}
