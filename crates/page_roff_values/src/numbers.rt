//! Numerical expressions in the lines of a page: their values, with messages to a latch (roff(7), "Numerical expressions").

ghost use Rattle.std.specs.Prelude.{◌≡◌};
ghost use Rattle.page_roff_values.specs.Answers.{value_of, messages_of};
ghost use Rattle.page_core_base.specs.laws.Views.{Came};

use page_core_base::{NoteOut, Place};
use page_core_numbers::{Scale, evaluate};

/// The value of the expression at a text's front, with its messages at a place. A number without a unit is in basic
/// units.
pub fn expression<O: NoteOut>(text: &[u8], place: Place, out: &mut O) -> i32
    ensures value { result ≡ value_of text.now }
    ensures came { Came O.left out.old (messages_of place text.now) out.new }
{
    let found = evaluate(text, Scale::Basic);
    let mut notes = found.notes(place);
    while let Some(note) = notes.next_note() {
        out.report(&note);
    }
    found.value
}
