//! The columns that a width or an offset asks for (mdoc(7), `Bl` and `Bd`).

ghost use Rattle.std.specs.Prelude.{◌≡◌, ◌≤◌, [], length, if◌then◌else◌};
ghost use Rattle.std.specs.List.{list_any};
ghost use Rattle.page_core_base.specs.laws.Views.{Came};
ghost use Rattle.page_roff_syntax.specs.laws.Views.{argument_view};
ghost use Rattle.page_core_numbers.specs.declared.scales.Scale.TheVariants.{Basic};
ghost use Rattle.page_scopes_words.specs.Words.{number_notes};
ghost use Rattle.page_scopes_words.specs.Widths as widths;

use crate::give_number;
use crate::names::name_columns;
use page_core_base::{LINE, NoteKind, Output, PieceOut, Place};
use page_core_numbers::{EvaluationNotes, Scale, evaluate};
use page_roff_syntax::Argument;

// The basic units of a column.
const COLUMN: i32 = 24;

// The columns of a width that has a name.
#[tactic(auto, unfolding(crate::specs::Widths::named_width))]
fn named_width(text: &[u8]) -> Option<i32>
    ensures { result ≡ widths.named_width text.now }
{
    if text == b"indent".as_slice() || text == b"Ds".as_slice() {
        Some(6)
    } else if text == b"indent-two".as_slice() {
        Some(12)
    } else if text == b"left".as_slice()
        || text == b"center".as_slice()
        || text == b"right".as_slice()
    {
        Some(0)
    } else {
        None
    }
}

// Whether an operand is missing in an expression, by its messages.
fn lacks_operand(mut notes: EvaluationNotes) -> bool
    ensures { result ≡ list_any (λ message. widths.is_missing message.kind) notes }
{
    while let Some(note) = notes.next_note() {
        if matches!(note.kind, NoteKind::NotNumeric) {
            return true;
        }
    }
    false
}

// Whether a text is an expression, up to its end. Its messages would be at a place.
#[tactic(auto, unfolding(crate::specs::Widths::is_expression))]
fn is_expression(place: Place, text: &[u8]) -> bool
    ensures { result ≡ widths.is_expression text.now }
{
    let found = evaluate(text, Scale::Basic);
    found.len == text.len() && !lacks_operand(found.notes(place))
}

// Gives the columns of a width that has no name.
fn give_measured<O: PieceOut>(
    out: &mut O,
    output: Output,
    place: Place,
    width: Argument<&[u8]>,
) -> i32
    requires { length width.text.now ≤ LINE }
    ensures columns { result ≡ widths.measured (widths.is_expression width.entry.text.now) output (argument_view width.entry) }
    ensures came { Came O.left out.old (if widths.is_expression width.entry.text.now then number_notes Basic place width.entry.text.now else []) out.new }
{
    if is_expression(place, width.text) {
        give_number(out, Scale::Basic, place, width.text) / COLUMN
    } else {
        name_columns(output, width.is_quoted(), width.text) as i32
    }
}

/// Gives the columns that an argument of a macro at a place asks for, with the messages of an expression.
pub fn give_width<O: PieceOut>(
    out: &mut O,
    output: Output,
    place: Place,
    width: Argument<&[u8]>,
) -> i32
    requires { length width.text.now ≤ LINE }
    ensures columns { result ≡ widths.width_columns output (argument_view width.entry) }
    ensures came { Came O.left out.old (widths.width_notes place (argument_view width.entry)) out.new }
{
    match named_width(width.text) {
        Some(columns) => columns,
        None => give_measured(out, output, place, width),
    }
}
