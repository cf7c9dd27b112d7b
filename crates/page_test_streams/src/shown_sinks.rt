//! The sink of tests.

ghost use Rattle.std.proofs.Common.{refl};

use page_core_base::{Fault, Note, NoteSink, Piece, PieceOut, PieceSink};

/// How pieces and messages are shown.
pub trait Notation {
    /// Shows a piece.
    fn show_piece(&mut self, piece: Piece<&[u8]>);

    /// Shows a message.
    fn show_message(&mut self, note: &Note);
}

/// Shows what it is given in a notation. It takes words one by one, and never fails.
#[derive(Drop)]
pub struct ShownBy<N> {
    pub notation: N,
}

impl<N: Notation> PieceOut for ShownBy<N> {
    ghost Plan = { Unit {0} };

    ghost left = { λ plan s rest. Unit {0} };

    fn give(&mut self, piece: Piece<&[u8]>) {
        self.notation.show_piece(piece);
    }

    fn report(&mut self, note: &Note) {
        self.notation.show_message(note);
    }
}

impl<N: Notation> NoteSink for ShownBy<N> {
    ghost gave = { λ _ _ _. Unit {0} };

    ghost within = { λ _ _ _. Unit {0} };

    ghost failed = { λ _. 0 };

    ghost Loans = { Unit {0} };

    ghost loans = { λ _. tt };

    ghost is_out = { λ _. Unit {0} };

    ghost laws = { record {
      none = λ _. tt;
      more = λ _ _ _ _ _ _ _. tt;
      after = λ _ _ _ _ _ _ _. tt;
      before = λ _ _ _ _ _. tt;
    } };

    ghost whole = { λ _ _ _ _. tt };

    fn note(&mut self, note: &Note) -> Result<(), Fault> {
        self.notation.show_message(note);
        Ok(())
    }

    fn put_out(&mut self) -> Result<(), Fault> {
        Ok(())
    }
}

impl<N: Notation> PieceSink for ShownBy<N> {
    ghost use Rattle.page_core_base.specs.laws.Views.{IsPieceFault};

    ghost took = { λ _ _ _. Unit {0} };

    ghost broke = { λ _ fault _ _. IsPieceFault fault 0 0 0 0 };

    ghost row_failed = { λ _. 0 };

    ghost items = { λ _. record {
      none = λ _. tt;
      more = λ _ _ _ _ _ _ _. tt;
      after = λ _ _ _ _ _ _ broke. broke;
      before = λ _ _ _ _ broke. broke;
    } };

    ghost messages = { λ _ _ _ _. tt };

    ghost message_fault = { λ _ _ _ _ rose. rose };

    ghost quiet = { λ _ _ _ _. (refl, refl) };

    ghost causes = { λ _ _ _ _ broke. broke };

    fn piece(&mut self, piece: Piece<&[u8]>) -> Result<(), Fault> {
        self.notation.show_piece(piece);
        Ok(())
    }
}
