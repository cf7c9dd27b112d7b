//! What characters and glyphs print (mandoc_char(7)).

ghost use Rattle.std.specs.Prelude.{[], ◌∷◌};
ghost use Rattle.std.specs.Str.{chars};
ghost use Rattle.page_core_base.specs.laws.Views.{LaysOut};
ghost use Rattle.page_core_tables.specs.laws.Views.{printed_view};
ghost use Rattle.page_core_tables.specs.Glyphs.{unknown_text};
ghost use Rattle.page_fill_rows.specs.machine.Sheets as sheet;
ghost use Rattle.page_fill_rows.specs.OpenRows as shown;
ghost use Rattle.page_fill_rows.specs.laws.Views as shown_laws;

use crate::open_rows::OpenRow;
use crate::plain_texts::put_bytes;
use page_core_base::{Cell, Font, Note, NoteKind, Output, Place, RowOut};
use page_core_tables::{Printed, printed_char, printed_glyph};

// Reports that there is no glyph, and puts what stands for it.
fn put_unknown<O: RowOut>(row: &mut OpenRow, detail: &[u8], font: Font, place: Place, out: &mut O)
    ensures { LaysOut O.left out.old (shown_laws.put row.old
        (unknown_text detail.now) font place) out.new row.new }
{
    out.report(&Note::about(NoteKind::NoGlyph, place, detail));
    put_bytes(row, b"<?>", font, place, out);
}

// Puts a cell of a character.
fn put_char<O: RowOut>(row: &mut OpenRow, c: char, font: Font, place: Place, out: &mut O)
    ensures { LaysOut O.left out.old (sheet.letters row.old (shown.cells_of font
        (c ∷ [])) place) out.new row.new }
{
    row.put_letter(Cell { c, font }, place, out);
}

// Puts what is printed.
fn put_printed<O: RowOut>(
    row: &mut OpenRow,
    printed: Printed<'_>,
    font: Font,
    place: Place,
    out: &mut O,
)
    ensures { LaysOut O.left out.old (shown_laws.put row.old
        (printed_view printed.entry) font place) out.new row.new }
{
    match printed {
        Printed::Char(c) => put_char(row, c, font, place, out),
        Printed::Spelling(text) => put_bytes(row, text.as_bytes(), font, place, out),
        Printed::NoSpelling(c) => {
            let mut buffer = [0; 4];
            put_unknown(row, c.encode_utf8(&mut buffer).as_bytes(), font, place, out);
        }
        Printed::NoGlyph(name) => put_unknown(row, name, font, place, out),
    }
}

/// Puts a character.
#[tactic(auto, unfolding(crate::specs::laws::Views::character))]
pub fn put_character<O: RowOut>(
    row: &mut OpenRow,
    output: Output,
    c: char,
    font: Font,
    place: Place,
    out: &mut O,
)
    ensures { LaysOut O.left out.old (shown_laws.character output row.old c font place) out.new row.new }
{
    put_printed(row, printed_char(output, c), font, place, out);
}

/// Puts the characters of a text.
pub fn put_characters<O: RowOut>(
    row: &mut OpenRow,
    output: Output,
    text: &str,
    font: Font,
    place: Place,
    out: &mut O,
)
    ensures { LaysOut O.left out.old (shown_laws.characters output row.old
        (chars text.now) font place) out.new row.new }
{
    for c in text.chars() {
        put_character(row, output, c, font, place, out);
    }
}

/// Puts the glyph of a name.
#[tactic(auto, unfolding(crate::specs::laws::Views::glyph))]
pub fn put_glyph<O: RowOut>(
    row: &mut OpenRow,
    output: Output,
    name: &[u8],
    font: Font,
    place: Place,
    out: &mut O,
)
    ensures { LaysOut O.left out.old (shown_laws.glyph output row.old name.now font place) out.new row.new }
{
    put_printed(row, printed_glyph(output, name), font, place, out);
}
