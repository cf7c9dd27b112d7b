//! The latch over a sink of rows and a sink of messages, through which the filler gives.

ghost use Rattle.std.specs.Prelude.{◌≡◌, None, Some, MatchResult};
ghost use Rattle.page_fill_rows.specs.machine.RowPlans.{Planned, Left, seen};

use page_core_base::{Cell, Fault, Font, Note, NoteSink, RowOut, RowSink};

/// Two sinks, and the fault of the one that has failed.
#[derive(Drop)]
pub struct RowLatch<'r, 'n, R, N> {
    rows: &'r mut R,
    notes: &'n mut N,
    fault: Option<Fault>,
}

impl<'r, 'n, R: RowSink, N: NoteSink> RowLatch<'r, 'n, R, N> {
    /// A latch over two sinks.
    pub fn new(rows: &'r mut R, notes: &'n mut N) -> RowLatch<'r, 'n, R, N>
        ensures rows_loan { result.rows.ghost_name ≡ rows.entry.ghost_name }
        ensures rows { result.rows.now ≡ rows.entry.now }
        ensures notes_loan { result.notes.ghost_name ≡ notes.entry.ghost_name }
        ensures notes { result.notes.now ≡ notes.entry.now }
        ensures fault { result.fault ≡ None }
    {
        RowLatch {
            rows,
            notes,
            fault: None,
        }
    }

    /// The fault that came, if one did.
    pub fn done(&self) -> Result<(), Fault>
        ensures { MatchResult result (λ _. self.now.fault ≡ None) (λ fault. self.now.fault ≡ Some fault) }
    {
        self.fault.map_or(Ok(()), Err)
    }
}

impl<R: RowSink, N: NoteSink> RowOut for RowLatch<'_, '_, R, N> {
    ghost Plan = { Planned R N R.Loans N.Loans };

    ghost left = { λ plan s rows notes. Left
        (seen R.gave R.within R.failed R.loans) (seen N.gave N.within N.failed N.loans) plan
        s.rows.ghost_name s.notes.ghost_name s.rows.now s.notes.now s.fault rows notes };

    fn give(&mut self, margin: u32, cells: &[Cell]) {
        if self.fault.is_none() {
            self.fault = self.rows.row(margin, cells).err();
        }
    }

    fn give_blank(&mut self, margin: u32, cells: &[Cell]) {
        if self.fault.is_none() {
            self.fault = self.rows.blank_row(margin, cells).err();
        }
    }

    fn give_ascii(
        &mut self,
        margin: u32,
        bytes: &[u8],
        fonts: &[Font],
        is_blank: bool,
        places: &mut Vec<Cell>,
    ) {
        if self.fault.is_none() {
            self.fault = self
                .rows
                .ascii_row(margin, bytes, fonts, is_blank, places)
                .err();
        }
    }

    fn report(&mut self, note: &Note) {
        if self.fault.is_none() {
            self.fault = self.notes.note(note).err();
        }
    }

    fn has_failed(&self) -> bool {
        self.fault.is_some()
    }
}
