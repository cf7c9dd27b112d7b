//! What words find in an index, at once and in other ways.

use crate::ways::step_of;
use page_core_base::Fault;
use page_engine_index::{Show, whatis};
use page_test_streams::{Chunks, Ended, Fails, Scarce, Store};
use std::alloc::Global;

/// An index, and what is looked for in it.
#[derive(Clone, Copy)]
pub(crate) struct Query<'a> {
    pub(crate) index: &'a [u8],
    pub(crate) words: &'a [&'a str],
    pub(crate) section: Option<&'a str>,
    pub(crate) show: Show,
}

/// What was found: the rows, and their number or a fault.
#[derive(Drop)]
pub(crate) struct Found {
    pub(crate) rows: Store,
    pub(crate) answer: Result<u64, Fault>,
}

impl Found {
    fn is_same(&self, other: &Found) -> bool {
        self.answer == other.answer && self.rows.kept == other.rows.kept
    }

    // Whether the rows are a front of all rows.
    fn is_front(&self, whole: &Found) -> bool {
        whole.rows.kept.starts_with(self.rows.kept.as_slice())
    }
}

impl Query<'_> {
    /// What is found, where all bytes come at once.
    pub(crate) fn find(&self, alloc: Global) -> Found {
        let rows = Store::new(alloc, usize::MAX, Fails::Never);
        self.find_by(alloc, Chunks::new(self.index, usize::MAX, None), rows)
    }

    fn find_by(&self, alloc: Global, mut index: Chunks, mut rows: Store) -> Found {
        let answer = whatis(
            alloc,
            &mut index,
            &mut rows,
            self.words,
            self.section,
            self.show,
        );
        Found { rows, answer }
    }

    // Whether a few bytes a call find the same, with calls that are interrupted.
    fn is_same_by(&self, alloc: Global, size: usize, whole: &Found) -> bool {
        let mut index = Chunks::new(self.index, size, None);
        index.is_interrupted = true;
        let rows = Store::new(alloc, size, Fails::Never);
        self.find_by(alloc, index, rows).is_same(whole)
    }

    // Whether each read, where it fails, leaves a front of the rows, and no less than the read before it.
    fn stands_failing_reads(&self, alloc: Global, whole: &Found) -> bool {
        let size = step_of(self.index.len());
        let mut settled = 0;
        for calls in 0..self.index.len().saturating_add(2) {
            let index = Chunks::new(self.index, size, Some(calls));
            let rows = Store::new(alloc, usize::MAX, Fails::Never);
            let found = self.find_by(alloc, index, rows);
            if found.answer != Err(Fault::Read) {
                return found.is_same(whole);
            }
            if !found.is_front(whole) || found.rows.kept.len() < settled {
                return false;
            }
            settled = found.rows.kept.len();
        }
        false
    }

    // Whether a write that fails after a number of bytes is the last one, and leaves these bytes.
    fn stands_failing_writes(&self, alloc: Global, whole: &Found) -> bool {
        for before in 0..whole.rows.kept.len() {
            for rows in [
                Store::new(alloc, 1, Fails::After(before)),
                Store::new(alloc, 1, Fails::TakesNothing(before)),
                Store::new(alloc, usize::MAX, Fails::Past(before)),
            ] {
                let index = Chunks::new(self.index, usize::MAX, None);
                let found = self.find_by(alloc, index, rows);
                let is_front = found.is_front(whole) && found.rows.kept.len() == before;
                if found.answer != Err(Fault::WriteText) || !is_front {
                    return false;
                }
            }
        }
        true
    }

    // Whether an index that is cut anywhere has a front of the rows, or of them and of a last line that is bad.
    fn ends_anywhere(&self, alloc: Global) -> bool {
        for end in (0..self.index.len()).step_by(step_of(self.index.len())) {
            let cut = Query {
                index: &self.index[..end],
                words: self.words,
                section: self.section,
                show: self.show,
            };
            let found = cut.find(alloc);
            if !matches!(found.answer, Ok(_) | Err(Fault::BadIndex(_)))
                || !cut.is_same_by(alloc, 1, &found)
            {
                return false;
            }
        }
        true
    }

    /// The first way in which something else is found.
    pub(crate) fn difference(&self, alloc: Global, whole: &Found) -> Option<&'static str> {
        for size in [1, 2, 7, 100_000] {
            if !self.is_same_by(alloc, size, whole) {
                return Some("a few bytes a call");
            }
        }
        if !self.stands_failing_reads(alloc, whole) {
            return Some("with a read that fails");
        }
        if !self.stands_failing_writes(alloc, whole) {
            return Some("with a write that fails");
        }
        if !self.ends_anywhere(alloc) {
            return Some("cut");
        }
        None
    }
}

/// A search with memory refused, into a store that has its room.
#[derive(Drop)]
pub(crate) struct RefusedSearch<'a> {
    pub(crate) query: Query<'a>,
    pub(crate) whole: &'a Found,
    pub(crate) rows: Store,
}

impl Scarce for RefusedSearch<'_> {
    fn once(&mut self, alloc: Global) -> Ended {
        self.rows.clear();
        let query = self.query;
        let mut index = Chunks::new(query.index, usize::MAX, None);
        let answer = whatis(
            alloc,
            &mut index,
            &mut self.rows,
            query.words,
            query.section,
            query.show,
        );
        if answer == Err(Fault::Memory) && index.calls == 0 && self.rows.calls == 0 {
            Ended::Refused
        } else if answer == self.whole.answer && self.rows.kept == self.whole.rows.kept {
            Ended::Whole
        } else {
            Ended::Otherwise
        }
    }
}
