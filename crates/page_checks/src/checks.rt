//! What the tests share: their assertions, one for each type, settings, and a page's frame.

use page_core_base::{Fault, Level, Settings};
use page_engine::{Counts, Outcome, run_page};
use std::alloc::{AllocError, Global};
use std::io::Read;
use std::process::Abort;
use std::test::Fail;

/// The header of the pages that begin by `.TH T 1 2020-01-01 S`.
pub(crate) const HEADER: &str =
    "T(1)                       General Commands Manual                        T(1)\n\n";

/// Their footer.
pub(crate) const FOOTER: &str =
    "\nS                                 2020-01-01                              T(1)\n";

pub(crate) fn check_text(rt: &impl Abort, text: &[u8], want: &str) -> Result<(), Fail> {
    assert_eq!(rt; std::str::from_utf8(text)?, want);
    Ok(())
}

pub(crate) fn check_outcome(
    rt: &impl Abort,
    outcome: Result<Outcome, Fault>,
    want: Result<Outcome, Fault>,
) {
    assert_eq!(rt; outcome, want);
}

pub(crate) fn check_count(rt: &impl Abort, count: u64, want: u64) {
    assert_eq!(rt; count, want);
}

pub(crate) fn check(rt: &impl Abort, holds: bool) {
    assert!(rt; holds);
}

/// Settings by which each message is given.
pub(crate) fn all_messages() -> Settings {
    Settings {
        least: Some(Level::Base),
        ..Settings::new()
    }
}

/// A body between its header and its footer.
pub(crate) fn framed(alloc: Global, body: &str) -> Result<String, AllocError> {
    format!(in alloc; "{HEADER}{body}{FOOTER}")
}

/// The outcome of a run of a number of lines.
pub(crate) fn outcome(worst: Option<Level>, source: u64) -> Result<Outcome, Fault> {
    Ok(Outcome {
        worst,
        counts: Counts {
            source,
            taken: source,
            expansions: 0,
        },
    })
}

/// A run over a page gives these rows and messages.
pub(crate) fn gives<I: Read, R: Abort + AllocGlobal>(
    rt: &R,
    reader: &mut I,
    settings: &Settings,
    rows: &str,
    notes: &str,
    want: Result<Outcome, Fault>,
) -> Result<(), Fail> {
    let mut out = Vec::new(rt.alloc());
    let mut messages = Vec::new(rt.alloc());
    let result = run_page(rt.alloc(), reader, &mut out, &mut messages, "x.1", settings);
    check_text(rt, out.as_slice(), rows)?;
    check_text(rt, messages.as_slice(), notes)?;
    check_outcome(rt, result, want);
    Ok(())
}
