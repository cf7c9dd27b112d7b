//! What inner functions give rows and messages to, so that they need not hand on the faults of sinks.

ghost use Rattle.std.specs.Prelude.{◌≡◌, ◌≤◌, List, [], ◌∷◌, IsTrue, length, true, vec_capacity};
ghost use Rattle.page_core_base.specs.laws.Views.{CameRows, message_of, AreAscii, cells_in};
ghost use Rattle.page_core_base.specs.Messages.{Message};
ghost use Rattle.page_core_base.specs.Rows.{LaidRow, is_blank_row, row_of};

use crate::{Cell, Font, Note};

/// Takes rows and messages, and never fails: after a fault of a sink below it takes nothing.
pub trait RowOut {
    ghost use Rattle.page_core_base.specs.Messages.{Message};
    ghost use Rattle.page_core_base.specs.Rows.{LaidRow};

    // What is planned; the rows and the messages of a plan that are still to come.
    ghost Plan: { Type 0 };

    ghost left: { Plan → Self → List LaidRow → List Message → Type 0 };

    /// Takes a row: its margin in columns, and its cells.
    fn give(&mut self, margin: u32, cells: &[Cell])
        ensures { CameRows left self.old (row_of margin cells.now ∷ []) [] self.new };

    /// Takes a row of blanks alone, as [`give`](RowOut::give) does.
    fn give_blank(&mut self, margin: u32, cells: &[Cell])
        requires { is_blank_row (row_of margin cells.now) ≡ true }
        ensures { CameRows left self.old (row_of margin cells.now ∷ []) [] self.new }
    {
        self.give(margin, cells);
    }

    /// Takes a row of characters of ASCII, as [`ascii_row`](crate::RowSink::ascii_row) does.
    fn give_ascii(
        &mut self,
        margin: u32,
        bytes: &[u8],
        fonts: &[Font],
        is_blank: bool,
        places: &mut Vec<Cell>,
    )
        requires { AreAscii bytes.now fonts.now is_blank × (length bytes.now ≤ vec_capacity places.old) }
        ensures rows { CameRows left self.old (row_of margin (cells_in bytes.now fonts.now) ∷ []) [] self.new }
        ensures room { vec_capacity places.new ≡ vec_capacity places.old };

    /// Takes a message.
    fn report(&mut self, note: &Note)
        ensures { CameRows left self.old [] (message_of note.now ∷ []) self.new };

    /// Whether a fault has come. Then a caller may stop early.
    fn has_failed(&self) -> bool
        ensures { IsTrue result → (plan : Plan) (rows more : List LaidRow) (notes said : List Message)
            → left plan self.now rows notes → left plan self.now more said };
}
