//! A latch that ends rows that are full (roff(7), "Filling and adjusting").

ghost use Rattle.std.specs.Prelude.{◌≡◌};
ghost use Rattle.page_core_base.specs.declared.limits.TheConstants.{CELLS};
ghost use Rattle.page_engine_header.specs.machine.RowPlans.{RowPlanned, RowLeft};

use crate::run_outs::{RunOut, give_each};
use page_core_base::{CELLS, Font, Note, Piece, PieceOut, Place};

/// Hands on the characters of a row, each a piece, and ends the row before one that it has no room for.
#[derive(Drop)]
pub(crate) struct FullRows<'a, O> {
    out: &'a mut O,
    room: usize,
}

impl<'a, O: PieceOut> FullRows<'a, O> {
    /// At the front of a row.
    pub(crate) fn new(out: &'a mut O) -> FullRows<'a, O>
        ensures loan { result.out.ghost_name ≡ out.entry.ghost_name }
        ensures out { result.out.now ≡ out.entry.now }
        ensures room { result.room ≡ CELLS }
    {
        FullRows { out, room: CELLS }
    }
}

impl<O: PieceOut> PieceOut for FullRows<'_, O> {
    ghost Plan = { RowPlanned O.Plan };

    ghost left = { λ plan s rest. RowLeft O.left plan s.out.ghost_name s.out.now s.room rest };

    fn give(&mut self, piece: Piece<&[u8]>) {
        if self.room > 0 {
            self.room -= 1;
            self.out.give(piece);
        } else {
            self.room = CELLS - 1;
            self.out.give(Piece::Break);
            self.out.give(piece);
        }
    }

    fn report(&mut self, note: &Note) {
        if self.room > 0 {
            self.room -= 1;
            self.out.report(note);
        } else {
            self.room = CELLS - 1;
            self.out.give(Piece::Break);
            self.out.report(note);
        }
    }
}

impl<O: PieceOut> RunOut for FullRows<'_, O> {
    // At once, where the row has room for all of them and they are taken so.
    fn give_run(&mut self, font: Font, place: Place, text: &[u8]) {
        if text.len() <= self.room && self.out.give_kept(text, font) {
            self.room -= text.len();
        } else {
            give_each(self, font, place, text);
        }
    }
}
