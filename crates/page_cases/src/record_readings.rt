//! The record of a page, read at once and in other ways.

use crate::ways::{Case, step_of};
use page_core_base::Fault;
use page_engine_index::Record;
use page_engine_records::name_record;
use page_test_streams::{Chunks, Ended, Scarce};
use std::alloc::Global;

/// What reading a page answers.
pub(crate) type Reading = Result<Option<Record>, Fault>;

/// The record, where all bytes come at once.
pub(crate) fn read(alloc: Global, case: Case) -> Reading {
    read_by(alloc, case, usize::MAX, None)
}

// The record, where at most this count of bytes comes a call, and calls fail after so many of them.
fn read_by(alloc: Global, case: Case, size: usize, fails: Option<usize>) -> Reading {
    let mut reader = Chunks::new(case.page, size, fails);
    name_record(alloc, &mut reader, case.settings)
}

// Whether a page that is cut anywhere is a page, and has a record that is the same byte by byte.
fn ends_anywhere(alloc: Global, case: Case) -> bool {
    for end in (0..case.page.len()).step_by(step_of(case.page.len())) {
        let cut = Case {
            page: &case.page[..end],
            settings: case.settings,
        };
        let reading = read(alloc, cut);
        if reading.is_err() || !is_same(&read_by(alloc, cut, 1, None), &reading) {
            return false;
        }
    }
    true
}

// Whether each read, where it fails, is what is reported: there is one for each piece of the page, and one that finds its end.
fn stands_failing_reads(alloc: Global, case: Case) -> bool {
    let size = step_of(case.page.len());
    for calls in 0..(case.page.len() / size).saturating_add(1) {
        if !matches!(read_by(alloc, case, size, Some(calls)), Err(Fault::Read)) {
            return false;
        }
    }
    true
}

/// The first way to read a page in which something else is answered.
pub(crate) fn difference(alloc: Global, case: Case, whole: &Reading) -> Option<&'static str> {
    if !is_same(&read_by(alloc, case, 1, None), whole) {
        return Some("byte by byte");
    }
    if whole.is_err() {
        return None;
    }
    if !ends_anywhere(alloc, case) {
        return Some("cut");
    }
    if !stands_failing_reads(alloc, case) {
        return Some("with a read that fails");
    }
    None
}

/// A page whose record is read with memory refused.
#[derive(Drop)]
pub(crate) struct RefusedReading<'a> {
    pub(crate) case: Case<'a>,
    pub(crate) whole: &'a Reading,
}

impl Scarce for RefusedReading<'_> {
    fn once(&mut self, alloc: Global) -> Ended {
        let mut reader = Chunks::new(self.case.page, usize::MAX, None);
        let reading = name_record(alloc, &mut reader, self.case.settings);
        if matches!(reading, Err(Fault::Memory)) && reader.calls == 0 {
            Ended::Refused
        } else if is_same(&reading, self.whole) {
            Ended::Whole
        } else {
            Ended::Otherwise
        }
    }
}

fn is_same(one: &Reading, other: &Reading) -> bool {
    match (one, other) {
        (Ok(Some(one)), Ok(Some(other))) => has_same_texts(one, other),
        (Ok(None), Ok(None)) => true,
        (Err(one), Err(other)) => one == other,
        _ => false,
    }
}

fn has_same_texts(one: &Record, other: &Record) -> bool {
    one.names.bytes() == other.names.bytes()
        && one.section.bytes() == other.section.bytes()
        && one.description.bytes() == other.description.bytes()
}
