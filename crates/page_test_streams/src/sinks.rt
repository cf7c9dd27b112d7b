//! A sink that counts what it is given.

ghost use Rattle.std.specs.Prelude.{◌≡◌};
ghost use Rattle.std.specs.Bool.{MatchBool};
ghost use Rattle.page_core_base.specs.Messages.{Rose};

use page_core_base::{Cell, Fault, Note, NoteKind, NoteSink, RowSink};

/// Counts the rows or the messages that it is given, keeps none of them, and fails at one.
#[derive(Drop)]
pub struct CountingSink {
    failing: u64,
    pub calls: u64,
    /// Messages of this kind are not given to it.
    pub passed_over: Option<NoteKind>,
    failures: u64,
}

impl CountingSink {
    /// A sink that fails at its call of this number, from 1; with 0 it never fails.
    pub fn new(failing: u64) -> CountingSink {
        CountingSink {
            failing,
            calls: 0,
            passed_over: None,
            failures: 0,
        }
    }

    // Counts a call, and answers whether it succeeds.
    fn counts(&mut self) -> bool
        ensures { MatchBool result (self.new.failures ≡ self.old.failures) (Rose self.old.failures self.new.failures) }
    {
        self.calls = self.calls.saturating_add(1);
        if self.calls != self.failing {
            return true;
        }
        self.failures = self.failures.saturating_add(1);
        false
    }
}

impl RowSink for CountingSink {
    ghost gave = { λ _ _ _. Unit {0} };

    ghost within = { λ _ _ _. Unit {0} };

    ghost failed = { λ s. s.failures };

    ghost Loans = { Unit {0} };

    ghost loans = { λ _. tt };

    ghost is_out = { λ _. Unit {0} };

    ghost laws = { record {
      none = λ _. tt;
      more = λ _ _ _ _ _ _ _. tt;
      after = λ _ _ _ _ _ _ _. tt;
      before = λ _ _ _ _ _. tt;
    } };

    ghost whole = { λ _ _ _ _. tt };

    fn row(&mut self, margin: u32, cells: &[Cell]) -> Result<(), Fault> {
        let _ = (margin, cells.len());
        if self.counts() {
            Ok(())
        } else {
            Err(Fault::WriteText)
        }
    }

    fn put_out(&mut self) -> Result<(), Fault> {
        Ok(())
    }
}

impl NoteSink for CountingSink {
    ghost gave = { λ _ _ _. Unit {0} };

    ghost within = { λ _ _ _. Unit {0} };

    ghost failed = { λ s. s.failures };

    ghost Loans = { Unit {0} };

    ghost loans = { λ _. tt };

    ghost is_out = { λ _. Unit {0} };

    ghost laws = { record {
      none = λ _. tt;
      more = λ _ _ _ _ _ _ _. tt;
      after = λ _ _ _ _ _ _ _. tt;
      before = λ _ _ _ _ _. tt;
    } };

    ghost whole = { λ _ _ _ _. tt };

    fn note(&mut self, note: &Note) -> Result<(), Fault> {
        let _ = note.kind;
        if self.counts() {
            Ok(())
        } else {
            Err(Fault::WriteNotes)
        }
    }

    fn takes(&self, kind: NoteKind) -> bool {
        self.passed_over != Some(kind)
    }

    fn put_out(&mut self) -> Result<(), Fault> {
        Ok(())
    }
}
