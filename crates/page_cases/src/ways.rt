//! The same page in other ways: by parts, cut, and with a read or a write that fails.

ghost use Rattle.std.specs.Prelude.{◌<◌};

use page_core_base::{Fault, Settings};
use page_engine::{Outcome, run_page};
use page_test_streams::{Chunks, Fails, Store};
use std::alloc::Global;

/// The name of the file in messages.
pub(crate) const FILE: &str = "x.1";

/// The places, of reads, of writes and of ends, that are tried of a page: about as many at most.
const PLACES: usize = 1_000;

/// A page and its settings.
#[derive(Clone, Copy)]
pub(crate) struct Case<'a> {
    pub(crate) page: &'a [u8],
    pub(crate) settings: &'a Settings,
}

/// What a run over a page gives.
#[derive(Drop)]
pub(crate) struct Given {
    pub(crate) rows: Store,
    pub(crate) messages: Store,
    pub(crate) result: Result<Outcome, Fault>,
}

impl Given {
    /// A run over the page of a reader, into these stores.
    pub(crate) fn of_run(
        alloc: Global,
        mut reader: Chunks,
        mut rows: Store,
        mut messages: Store,
        settings: &Settings,
    ) -> Given {
        let result = run_page(alloc, &mut reader, &mut rows, &mut messages, FILE, settings);
        Given {
            rows,
            messages,
            result,
        }
    }

    fn is_same(&self, other: &Given) -> bool {
        self.result == other.result
            && self.rows.kept == other.rows.kept
            && self.messages.kept == other.messages.kept
    }

    // Whether this ended by a fault, with a front of what the whole page gives.
    fn is_front(&self, whole: &Given, fault: Fault) -> bool {
        self.result == Err(fault)
            && whole.rows.kept.starts_with(self.rows.kept.as_slice())
            && whole
                .messages
                .kept
                .starts_with(self.messages.kept.as_slice())
    }
}

/// The sink whose writes fail.
#[derive(Clone, Copy)]
enum Sink {
    Rows,
    Messages,
}

/// A step by which no more than `PLACES` of a number of places are tried, and a few.
pub(crate) fn step_of(places: usize) -> usize
    ensures { 0 < result }
{
    places / PLACES + 1
}

// A run that takes and gives at most this count of bytes a call.
fn run_by(alloc: Global, case: Case, read: usize, written: usize) -> Given {
    let rows = Store::new(alloc, written, Fails::Never);
    let messages = Store::new(alloc, written, Fails::Never);
    Given::of_run(
        alloc,
        Chunks::new(case.page, read, None),
        rows,
        messages,
        case.settings,
    )
}

/// A run over a page at once.
pub(crate) fn run_whole(alloc: Global, case: Case) -> Given {
    run_by(alloc, case, usize::MAX, usize::MAX)
}

// Whether a byte a call gives the same.
fn is_same_by_bytes(alloc: Global, case: Case, whole: &Given) -> bool {
    run_by(alloc, case, 1, 1).is_same(whole)
}

// Whether a page that is cut anywhere is a page.
fn ends_anywhere(alloc: Global, case: Case) -> bool {
    let step = step_of(case.page.len());
    for place in 0..PLACES {
        let end = place.saturating_mul(step);
        if end > case.page.len() {
            return true;
        }
        let cut = Case {
            page: &case.page[..end],
            settings: case.settings,
        };
        let given = run_whole(alloc, cut);
        if given.result.is_err() || !is_same_by_bytes(alloc, cut, &given) {
            return false;
        }
    }
    true
}

// Whether each read, where it fails, leaves a front of the page, and no less than the read before it.
fn stands_failing_reads(alloc: Global, case: Case, whole: &Given) -> bool {
    let size = step_of(case.page.len());
    let mut settled = 0;
    for calls in 0..PLACES.saturating_mul(2) {
        let reader = Chunks::new(case.page, size, Some(calls));
        let rows = Store::new(alloc, usize::MAX, Fails::Never);
        let messages = Store::new(alloc, usize::MAX, Fails::Never);
        let given = Given::of_run(alloc, reader, rows, messages, case.settings);
        if given.result == whole.result {
            return given.is_same(whole);
        }
        if !given.is_front(whole, Fault::Read) || given.rows.kept.len() < settled {
            return false;
        }
        settled = given.rows.kept.len();
    }
    false
}

/// How a write fails.
#[derive(Clone, Copy)]
enum Failure {
    Error,
    TakesNothing,
}

impl Failure {
    // Of a store, that it fails so after this count of calls.
    fn after(self, calls: usize) -> Fails {
        match self {
            Failure::Error => Fails::After(calls),
            Failure::TakesNothing => Fails::TakesNothing(calls),
        }
    }
}

/// The writes that fail in turn: of a sink, of which each takes so many bytes.
#[derive(Clone, Copy)]
struct Writes {
    sink: Sink,
    size: usize,
    failure: Failure,
}

impl Writes {
    // The step by which they fail: of writes of a byte, which are many, no more than a quarter of `PLACES` do.
    fn step(&self, calls: usize) -> usize {
        match self.size {
            1 => step_of(calls.saturating_mul(4)),
            _ => step_of(calls),
        }
    }
}

// A run in which writes to a sink fail, and the number of its writes.
fn run_failing(alloc: Global, case: Case, writes: Writes, fails: Fails) -> (Given, usize) {
    let reader = Chunks::new(case.page, usize::MAX, None);
    let bad = Store::new(alloc, writes.size, fails);
    let good = Store::new(alloc, usize::MAX, Fails::Never);
    match writes.sink {
        Sink::Rows => {
            let given = Given::of_run(alloc, reader, bad, good, case.settings);
            let calls = given.rows.calls;
            (given, calls)
        }
        Sink::Messages => {
            let given = Given::of_run(alloc, reader, good, bad, case.settings);
            let calls = given.messages.calls;
            (given, calls)
        }
    }
}

// Whether each write to a sink, where it fails, is the last one, and leaves a front of the page.
fn stands_failing_writes(alloc: Global, case: Case, whole: &Given, writes: Writes) -> bool {
    let fault = match writes.sink {
        Sink::Rows => Fault::WriteText,
        Sink::Messages => Fault::WriteNotes,
    };
    let (given, calls) = run_failing(alloc, case, writes, Fails::Never);
    let step = writes.step(calls);
    for place in 0..PLACES {
        let before = place.saturating_mul(step);
        if before >= calls {
            return given.is_same(whole);
        }
        let (given, made) = run_failing(alloc, case, writes, writes.failure.after(before));
        if !given.is_front(whole, fault) || made != before.saturating_add(1) {
            return false;
        }
    }
    true
}

// Whether each write fails well, also where it is one of a byte.
fn stands_each_failing_write(alloc: Global, case: Case, whole: &Given) -> bool {
    for sink in [Sink::Rows, Sink::Messages] {
        for failure in [Failure::Error, Failure::TakesNothing] {
            for size in [usize::MAX, 1] {
                let writes = Writes {
                    sink,
                    size,
                    failure,
                };
                if !stands_failing_writes(alloc, case, whole, writes) {
                    return false;
                }
            }
        }
    }
    true
}

/// In which other way a page gives something else than at once, if in any.
pub(crate) fn difference(alloc: Global, case: Case, whole: &Given) -> Option<&'static str> {
    if !is_same_by_bytes(alloc, case, whole) {
        return Some("by bytes");
    }
    if !ends_anywhere(alloc, case) {
        return Some("cut");
    }
    if !stands_failing_reads(alloc, case, whole) {
        return Some("at a failing read");
    }
    if !stands_each_failing_write(alloc, case, whole) {
        return Some("at a failing write");
    }
    None
}
