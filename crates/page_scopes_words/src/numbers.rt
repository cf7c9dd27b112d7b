//! The value of an expression in basic units, in columns and in rows, with its messages (roff(7), "Numerical expressions",
//! "Scaling Widths").

ghost use Rattle.std.specs.Prelude.{◌≡◌, [], nat_lt, ◌∷◌, if◌then◌else◌};
ghost use Rattle.page_core_base.specs.Rows.{says};
ghost use Rattle.page_core_base.specs.laws.Views.{Came};
ghost use Rattle.page_scopes_words.specs.Words as numbers;
ghost use Rattle.page_scopes_words.specs.Words.{number_notes, number_value};
ghost use Rattle.page_core_base.specs.Limits.{BLANKS as spec_BLANKS, name_of};
ghost use Rattle.page_core_base.specs.declared.note_kinds.NoteKind.TheVariants.{Limit as spec_Limit};
ghost use Rattle.page_core_base.specs.declared.limits.Limit.TheVariants as limits;

use crate::report;
use page_core_base::{BLANKS, Limit, NoteKind, PieceOut, Place};
use page_core_numbers::{Scale, evaluate};

// The basic units of a column.
const COLUMN: i32 = 24;

// The basic units of a row.
const ROW: u32 = 40;

/// The value of the expression at a text's front, with its messages at a place; a number without a unit is in `scale`.
pub fn give_number<O: PieceOut>(out: &mut O, scale: Scale, place: Place, text: &[u8]) -> i32
    ensures value { result ≡ number_value scale text.now }
    ensures came { Came O.left out.old (number_notes scale place text.now) out.new }
{
    let found = evaluate(text, scale);
    let mut notes = found.notes(place);
    while let Some(note) = notes.next_note() {
        out.report(&note);
    }
    found.value
}

// The columns that a number of basic units is worth.
fn columns_in(units: i32) -> i32
    ensures { result ≡ numbers.columns_in units }
{
    units / COLUMN
}

/// The columns that the expression at a text's front says, with its messages at a place; a number without a unit is in `n`.
pub fn give_columns<O: PieceOut>(out: &mut O, place: Place, text: &[u8]) -> i32
    ensures value { result ≡ numbers.columns_value text.now }
    ensures came { Came O.left out.old (numbers.columns_notes place text.now) out.new }
{
    columns_in(give_number(out, Scale::En, place, text))
}

// The rows that a number of basic units is worth.
fn rows_in(units: i32) -> u32
    ensures { result ≡ numbers.rows_in units }
{
    if units <= 0 {
        return 0;
    }
    units as u32 / ROW
}

// Reports a count of rows that is cut.
fn report_rows<O: PieceOut>(out: &mut O, place: Place, rows: u32)
    ensures { Came O.left out.old (if nat_lt spec_BLANKS rows then says spec_Limit place (name_of limits.Blanks) ∷ [] else []) out.new }
{
    if rows > BLANKS {
        report(out, NoteKind::Limit, place, Limit::Blanks.name().as_bytes());
    }
}

/// The rows that the expression at a text's front says, at most [`BLANKS`], with its messages at a place; a number without a
/// unit is in `v`.
pub fn give_rows<O: PieceOut>(out: &mut O, place: Place, text: &[u8]) -> u32
    ensures value { result ≡ numbers.rows_value text.now }
    ensures came { Came O.left out.old (numbers.rows_notes place text.now) out.new }
{
    let rows = rows_in(give_number(out, Scale::Vertical, place, text));
    report_rows(out, place, rows);
    rows.min(BLANKS)
}
