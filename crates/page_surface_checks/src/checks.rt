//! What the tests share: their assertions, one for each type, and settings.

use page_core::{Fault, Level, Settings};
use page_roff::Counts;
use std::process::Abort;

pub(crate) fn check_text(rt: &impl Abort, got: &[u8], want: &str) {
    assert_eq!(rt; std::str::from_utf8(got).unwrap_or("not UTF-8"), want);
}

pub(crate) fn check_answer(rt: &impl Abort, got: Result<(), Fault>, want: Result<(), Fault>) {
    assert_eq!(rt; got, want);
}

pub(crate) fn check_counts(rt: &impl Abort, got: Counts, want: Counts) {
    assert_eq!(rt; got, want);
}

pub(crate) fn check(rt: &impl Abort, holds: bool) {
    assert!(rt; holds);
}

/// Settings by which each message is given.
pub(crate) fn all_messages() -> Settings {
    Settings {
        least: Some(Level::Base),
        ..Settings::new()
    }
}

/// What is counted of a page, each of whose lines is taken once and interpolates nothing.
pub(crate) fn counts_of(lines: u64) -> Counts {
    Counts {
        source: lines,
        taken: lines,
        expansions: 0,
    }
}
