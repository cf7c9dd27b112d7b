//! Laws of the open row.

ghost use Rattle.std.specs.Prelude.{◌≡◌, ◌<◌, ℕ, List, length, true};
ghost use Rattle.page_core_base.specs.Rows.{nothing};
ghost use Rattle.page_core_base.specs.declared.cells.Font.{Font};
ghost use Rattle.page_core_base.specs.declared.places.Place.{Place};
ghost use Rattle.page_fill_rows.specs.OpenRows as shown;
ghost use Rattle.page_fill_rows.specs.machine.Plain as plain;
ghost use Rattle.page_fill_rows.specs.machine.Sheets as sheet;
ghost use Rattle.page_fill_rows.specs.OpenRows.{Sheet};

/// The fast way for plain texts settles what their cells settle one by one, in a row that has room for them.
pub fn plain_law()
    ensures { (s : Sheet) (bytes : List ℕ) (font : Font) (place : Place)
        → plain.is_printable_ascii bytes ≡ true → 0 < length bytes → plain.has_room s (length bytes) ≡ true
        → sheet.letters s (shown.cells_of font bytes) place
        ≡ nothing (plain.taken s (shown.cells_of font bytes)) }
{}
