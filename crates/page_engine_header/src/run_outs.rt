//! Latches of pieces that take runs of characters (roff(7), "Filling and adjusting").

ghost use Rattle.page_core_base.specs.laws.Views.{Came};
ghost use Rattle.page_engine_header.specs.Header.{in_font};

use page_core_base::{Font, Piece, PieceLatch, PieceOut, PieceSink, Place};

/// Takes pieces, and runs of characters.
pub trait RunOut: PieceOut {
    /// Takes characters of one byte each, in a font.
    fn give_run(&mut self, font: Font, place: Place, text: &[u8])
        ensures { Came Self.left self.old (in_font font place text.now) self.new }
    {
        give_each(self, font, place, text);
    }
}

impl<O: PieceSink> RunOut for PieceLatch<'_, O> {}

/// Gives characters of one byte each, in a font, one by one.
pub(crate) fn give_each<O: PieceOut>(out: &mut O, font: Font, place: Place, text: &[u8])
    ensures { Came O.left out.old (in_font font place text.now) out.new }
{
    for byte in text {
        out.give(Piece::Char {
            c: *byte as char,
            font,
            place,
        });
    }
}
