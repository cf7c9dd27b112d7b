//! Sinks of rows and of messages: they keep what is printed of what they are given, and fail at the call of a number.

use page_core::{Cell, Fault, Note, NoteSink, RowSink, cell_bytes, write_note};
use std::alloc::Global;

/// Keeps rows as they are printed.
#[derive(Drop)]
pub(crate) struct Rows {
    pub(crate) text: Vec<u8>,
    // The call that fails; 0: none.
    failing: u64,
    calls: u64,
    failures: u64,
}

/// Keeps messages as they are printed.
#[derive(Drop)]
pub(crate) struct Notes {
    pub(crate) text: Vec<u8>,
    // The call that fails; 0: none.
    failing: u64,
    calls: u64,
    failures: u64,
}

impl Rows {
    /// Nothing was given yet, and the call of a number fails; 0: none.
    pub(crate) fn new(alloc: Global, failing: u64) -> Rows {
        Rows {
            text: Vec::new(alloc),
            failing,
            calls: 0,
            failures: 0,
        }
    }
}

impl Notes {
    /// Nothing was given yet, and the call of a number fails; 0: none.
    pub(crate) fn new(alloc: Global, failing: u64) -> Notes {
        Notes {
            text: Vec::new(alloc),
            failing,
            calls: 0,
            failures: 0,
        }
    }
}

/// Rows and messages as they are printed.
#[derive(Drop)]
pub(crate) struct Kept {
    pub(crate) rows: Rows,
    pub(crate) notes: Notes,
}

impl Kept {
    /// Nothing was given yet, and the row and the message of these numbers fail; 0: none.
    pub(crate) fn new(alloc: Global, failing: (u64, u64)) -> Kept {
        Kept {
            rows: Rows::new(alloc, failing.0),
            notes: Notes::new(alloc, failing.1),
        }
    }
}

// Adds the blanks of a margin.
fn put_margin(text: &mut Vec<u8>, margin: u32) {
    for _ in 0..margin {
        let _ = text.push(b' ');
    }
}

// Adds a row: a row without a cell has no margin.
fn put_row(text: &mut Vec<u8>, margin: u32, cells: &[Cell]) {
    if !cells.is_empty() {
        put_margin(text, margin);
    }
    for cell in cells {
        let _ = text.extend_from_slice(cell_bytes(*cell).as_slice());
    }
    let _ = text.push(b'\n');
}

impl RowSink for Rows {
    ghost gave = { λ _ _ _. Unit {0} };

    ghost within = { λ _ _ _. Unit {0} };

    ghost failed = { λ s. s.failures };

    ghost Loans = { Unit {0} };

    ghost loans = { λ _. tt };

    ghost is_out = { λ _. Unit {0} };

    ghost laws = { record {
      none = λ _. tt;
      more = λ _ _ _ _ _ _ _. tt;
      after = λ _ _ _ _ _ _ _. tt;
      before = λ _ _ _ _ _. tt;
    } };

    ghost whole = { λ _ _ _ _. tt };

    fn row(&mut self, margin: u32, cells: &[Cell]) -> Result<(), Fault> {
        self.calls = self.calls.saturating_add(1);
        if self.calls == self.failing {
            self.failures = self.failures.saturating_add(1);
            return Err(Fault::WriteText);
        }
        put_row(&mut self.text, margin, cells);
        Ok(())
    }

    fn put_out(&mut self) -> Result<(), Fault> {
        Ok(())
    }
}

impl NoteSink for Notes {
    ghost gave = { λ _ _ _. Unit {0} };

    ghost within = { λ _ _ _. Unit {0} };

    ghost failed = { λ s. s.failures };

    ghost Loans = { Unit {0} };

    ghost loans = { λ _. tt };

    ghost is_out = { λ _. Unit {0} };

    ghost laws = { record {
      none = λ _. tt;
      more = λ _ _ _ _ _ _ _. tt;
      after = λ _ _ _ _ _ _ _. tt;
      before = λ _ _ _ _ _. tt;
    } };

    ghost whole = { λ _ _ _ _. tt };

    fn note(&mut self, note: &Note) -> Result<(), Fault> {
        self.calls = self.calls.saturating_add(1);
        if self.calls == self.failing {
            self.failures = self.failures.saturating_add(1);
            return Err(Fault::WriteNotes);
        }
        let _ = write_note(&mut self.text, "x.1", note);
        Ok(())
    }

    fn put_out(&mut self) -> Result<(), Fault> {
        Ok(())
    }
}
