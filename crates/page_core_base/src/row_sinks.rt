//! Sinks that take finished rows.

ghost use Rattle.std.specs.Prelude.{◌≡◌, ◌≤◌, ℕ, List, [], ◌∷◌, length, true, vec_capacity, OnOk};
ghost use Rattle.page_core_base.specs.laws.Views.{IsSink, Gives, FailsAs, AreAscii, cells_in};
ghost use Rattle.page_core_base.specs.Rows.{LaidRow, is_blank_row, row_of};

use crate::{Cell, Fault, Font, put_ascii};

/// Takes finished rows.
pub trait RowSink {
    ghost use Rattle.page_core_base.specs.Rows.{LaidRow};

    // These rows came, and no other; a front of them came, perhaps with a part of the next.
    ghost gave: { Self → List LaidRow → Self → Type 0 };

    ghost within: { Self → List LaidRow → Self → Type 0 };

    // How often the sink has failed, up to the greatest number.
    ghost failed: { Self → ℕ };

    // The loans that the sink holds, which stay.
    ghost Loans: { Type 0 };

    ghost loans: { Self → Loans };

    // Nothing waits in a buffer.
    ghost is_out: { Self → Type 0 };

    /// Takes a row: its margin in columns, and its cells. Its fault is [`Fault::WriteText`].
    fn row(&mut self, margin: u32, cells: &[Cell]) -> Result<(), Fault>
        ensures gives { Gives result gave within self.old (row_of margin cells.now ∷ []) self.new }
        ensures fault { FailsAs Fault.WriteText result (failed self.old) (failed self.new) }
        ensures same { loans self.new ≡ loans self.old };

    /// Takes a row of blanks alone, as [`row`](RowSink::row) does: a sink need not look at its cells.
    fn blank_row(&mut self, margin: u32, cells: &[Cell]) -> Result<(), Fault>
        requires { is_blank_row (row_of margin cells.now) ≡ true }
        ensures gives { Gives result gave within self.old (row_of margin cells.now ∷ []) self.new }
        ensures fault { FailsAs Fault.WriteText result (failed self.old) (failed self.new) }
        ensures same { loans self.new ≡ loans self.old }
    {
        self.row(margin, cells)
    }

    /// Takes a row of characters of ASCII, each in its font, as [`row`](RowSink::row) does. A sink that looks at cells makes them in `places`, which
    /// has room for them; what is there before and after means nothing. Where `is_blank`, all of them are blanks.
    fn ascii_row(
        &mut self,
        margin: u32,
        bytes: &[u8],
        fonts: &[Font],
        is_blank: bool,
        places: &mut Vec<Cell>,
    ) -> Result<(), Fault>
        requires { AreAscii bytes.now fonts.now is_blank × (length bytes.now ≤ vec_capacity places.old) }
        ensures gives { Gives result gave within self.old (row_of margin (cells_in bytes.now fonts.now) ∷ []) self.new }
        ensures fault { FailsAs Fault.WriteText result (failed self.old) (failed self.new) }
        ensures same { loans self.new ≡ loans self.old }
        ensures room { vec_capacity places.new ≡ vec_capacity places.old }
    {
        put_ascii(places, bytes, fonts);
        self.row(margin, places)
    }

    /// Puts out what waits in a buffer, where the sink has one. Its fault is [`Fault::WriteText`].
    fn put_out(&mut self) -> Result<(), Fault>
        ensures gives { Gives result gave within self.old [] self.new }
        ensures fault { FailsAs Fault.WriteText result (failed self.old) (failed self.new) }
        ensures same { loans self.new ≡ loans self.old }
        ensures out { OnOk result (is_out self.new) };

    ghost laws: { IsSink gave within };

    ghost whole: { (s t : Self) (xs : List LaidRow) → gave s xs t → within s xs t };
}
