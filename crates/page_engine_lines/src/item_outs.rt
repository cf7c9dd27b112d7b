//! A latch that takes the pieces and messages of the macros, and the messages of roff between them.

ghost use Rattle.std.specs.Prelude.{List, ◌++◌, map};
ghost use Rattle.page_core_base.specs.Rows.{Item, noted};

use page_core_base::{Font, Note, NoteOut, Piece, PieceOut, Place};

/// Takes pieces and messages into a latch of pieces, for those who give messages alone too.
#[derive(Drop)]
pub struct ItemOut<L> {
    pub(crate) latch: L,
}

impl<L: PieceOut> PieceOut for ItemOut<L> {
    ghost Plan = { L.Plan };

    ghost left = { λ plan s rest. L.left plan s.latch rest };

    #[inline(always)]
    fn give(&mut self, piece: Piece<&[u8]>) {
        self.latch.give(piece);
    }

    #[inline(always)]
    fn give_blanks(&mut self, count: usize, times: usize, font: Font, place: Place) {
        self.latch.give_blanks(count, times, font, place);
    }

    #[inline(always)]
    fn give_words(&mut self, blanks: u32, text: &[u8], fonts: &[Font]) -> bool {
        self.latch.give_words(blanks, text, fonts)
    }

    #[inline(always)]
    fn give_kept(&mut self, text: &[u8], font: Font) -> bool {
        self.latch.give_kept(text, font)
    }

    fn report(&mut self, note: &Note) {
        self.latch.report(note);
    }
}

impl<L: PieceOut> NoteOut for ItemOut<L> {
    // What comes after the messages belongs to the plan.
    ghost Plan = { L.Plan × List Item };

    ghost left = { λ plan s notes. L.left plan.0 s.latch (map noted notes ++ plan.1) };

    fn report(&mut self, note: &Note) {
        self.latch.report(note);
    }
}
