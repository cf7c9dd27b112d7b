//! A sink of pieces that fills them: rows and messages go to sinks of this crate's own.

ghost use Rattle.std.proofs.Common.{refl};

use crate::sinks::Kept;
use page_core::{Fault, Note, NoteSink, Piece, PieceSink, Settings};
use page_fill::Filler;
use std::alloc::Global;

/// A filler with its rows and messages. It takes all pieces: a fault of its sinks is kept aside.
#[derive(Drop)]
pub(crate) struct Sheet {
    filler: Filler,
    pub(crate) kept: Kept,
    has_failed: bool,
}

/// A filler before the first piece. No caller here has to know its state, so that this says nothing of it: their proofs stay short.
pub(crate) fn new_filler(alloc: Global, settings: &Settings) -> Result<Filler, Fault> {
    Filler::new(alloc, settings)
}

// Fills a piece, and says whether that went well.
fn fill(filler: &mut Filler, kept: &mut Kept, piece: Piece<&[u8]>) -> bool {
    filler.piece(piece, &mut kept.rows, &mut kept.notes).is_ok()
}

// The filler goes on from its part.
fn cut(alloc: Global, settings: &Settings, filler: &mut Filler) -> Result<(), Fault> {
    let part = filler.part(alloc)?;
    match Filler::from_part(alloc, settings, part) {
        Ok(next) => {
            *filler = next;
            Ok(())
        }
        Err((_, fault)) => Err(fault),
    }
}

impl Sheet {
    /// A sheet without a row.
    pub(crate) fn new(alloc: Global, settings: &Settings, kept: Kept) -> Result<Sheet, Fault> {
        let filler = new_filler(alloc, settings)?;
        Ok(Sheet {
            filler,
            kept,
            has_failed: false,
        })
    }

    /// The filler goes on from what it holds.
    pub(crate) fn cut(&mut self, alloc: Global, settings: &Settings) -> Result<(), Fault> {
        cut(alloc, settings, &mut self.filler)
    }

    /// Ends the open row, and fails where the filler did or still has an open row.
    pub(crate) fn finish(&mut self) -> Result<(), Fault> {
        self.filler
            .finish(&mut self.kept.rows, &mut self.kept.notes)?;
        if self.has_failed || self.pending() != 0 {
            return Err(Fault::Failed);
        }
        Ok(())
    }

    /// How many cells the open row has.
    pub(crate) fn pending(&self) -> usize {
        self.filler.pending().len()
    }
}

impl NoteSink for Sheet {
    ghost gave = { λ _ _ _. Unit {0} };

    ghost within = { λ _ _ _. Unit {0} };

    ghost failed = { λ _. 0 };

    ghost Loans = { Unit {0} };

    ghost loans = { λ _. tt };

    ghost is_out = { λ _. Unit {0} };

    ghost laws = { record {
      none = λ _. tt;
      more = λ _ _ _ _ _ _ _. tt;
      after = λ _ _ _ _ _ _ _. tt;
      before = λ _ _ _ _ _. tt;
    } };

    ghost whole = { λ _ _ _ _. tt };

    fn note(&mut self, note: &Note) -> Result<(), Fault> {
        let _ = self.kept.notes.note(note);
        Ok(())
    }

    fn put_out(&mut self) -> Result<(), Fault> {
        Ok(())
    }
}

impl PieceSink for Sheet {
    ghost use Rattle.page_core_base.specs.laws.Views.{IsPieceFault};

    ghost took = { λ _ _ _. Unit {0} };

    ghost broke = { λ _ fault _ _. IsPieceFault fault 0 0 0 0 };

    ghost row_failed = { λ _. 0 };

    ghost items = { λ _. record {
      none = λ _. tt;
      more = λ _ _ _ _ _ _ _. tt;
      after = λ _ _ _ _ _ _ broke. broke;
      before = λ _ _ _ _ broke. broke;
    } };

    ghost messages = { λ _ _ _ _. tt };

    ghost message_fault = { λ _ _ _ _ rose. rose };

    ghost quiet = { λ _ _ _ _. (refl, refl) };

    ghost causes = { λ _ _ _ _ broke. broke };

    fn piece(&mut self, piece: Piece<&[u8]>) -> Result<(), Fault> {
        if !fill(&mut self.filler, &mut self.kept, piece) {
            self.has_failed = true;
        }
        Ok(())
    }
}
