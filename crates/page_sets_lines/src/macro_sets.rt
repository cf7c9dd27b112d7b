//! The trait of macro sets: what events a line has (man(7), mdoc(7)).

ghost use Rattle.std.specs.Prelude.{◌≡◌, ◌≤◌, ◌+◌, ◌*◌, List, ℕ, length};
ghost use Rattle.page_sets_lines.specs.declared.events.Event.{Event};
ghost use Rattle.page_core_base.specs.Texts.{TakenLine};
ghost use Rattle.page_core_base.specs.laws.Views.{line_view, Came};
ghost use Rattle.page_sets_lines.specs.laws.Events.{TakesNext};
ghost use Rattle.page_sets_lines.specs.laws.Sets.{AreSlices, AreInOrder};

use crate::event_outs::EventOut;
use crate::events::Event;
use page_core_base::{LINE, Taken};

/// A set of macros: what events a line has. They are given one by one, from [`MacroSet::start`] on, by
/// [`MacroSet::next`], and their texts are lent by the line.
pub trait MacroSet {
    /// How far the events of a line were given.
    type Place: Drop;

    // the columns of a page's indent
    ghost page_indent: { Self → ℕ };

    // the table of the set: the events of a line
    ghost table: { Self → TakenLine → List (Event (List ℕ)) };

    // whether a place is of a line
    ghost IsPlaceOf: { Self → TakenLine → Self.Place → Type 0 };

    // the events of a line from a place on
    ghost events_from: { Self → TakenLine → Self.Place → List (Event (List ℕ)) };

    /// The indent of a page, in columns.
    fn indent(&self) -> u32
        ensures { result ≡ page_indent self.now };

    /// The place before the line's events.
    fn start(&self, line: Taken<'_>) -> Self::Place
        requires { length line.text.now ≤ LINE }
        ensures place { IsPlaceOf self.now (line_view line.entry) result }
        ensures events { events_from self.now (line_view line.entry) result
            ≡ table self.now (line_view line.entry) };

    /// The next event of the line, if there is one more. Once there is none, there is none from then on.
    fn next<'a>(&self, line: Taken<'a>, place: &mut Self::Place) -> Option<Event<&'a [u8]>>
        requires short { length line.text.now ≤ LINE }
        requires place { IsPlaceOf self.now (line_view line) place.old }
        ensures place { IsPlaceOf self.now (line_view line.entry) place.new }
        ensures events { TakesNext (events_from self.now (line_view line.entry) place.old) result
            (events_from self.now (line_view line.entry) place.new) };

    /// Gives the events of the line, one after another.
    fn give<O: EventOut>(&self, line: Taken<'_>, out: &mut O)
        requires { length line.text.now ≤ LINE }
        ensures { Came O.left out.old (table self.now (line_view line.entry)) out.new }
    {
        let mut place = self.start(line);
        while let Some(event) = self.next(line, &mut place) {
            out.give(event);
        }
    }

    // each argument is the slice of the line at its column, and each other text a slice of it
    ghost slices: { (set : Self) (line : TakenLine) → AreSlices line.text (table set line) };

    // the same of the events from a place on
    ghost slices_from: { (set : Self) (line : TakenLine) (place : Self.Place) →
        IsPlaceOf set line place → AreSlices line.text (events_from set line place) };

    // the words are in order
    ghost in_order: { (set : Self) (line : TakenLine) → AreInOrder 0 (table set line) };

    // at most two events a byte, and two
    ghost few: { (set : Self) (line : TakenLine) → length (table set line) ≤ 2 * length line.text + 2 };
}
