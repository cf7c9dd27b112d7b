//! What happens to the open scopes of a page: events, and its end (man(7)).

ghost use Rattle.std.specs.Prelude.{◌≡◌};
ghost use Rattle.page_scopes_tree.specs.laws.Views.{act_view};
ghost use Rattle.page_scopes_tree.specs.Ends.{event_of};

use page_core_base::Place;
use page_sets_lines::Event;

/// What happens to the open scopes of a page; `E` is an event.
#[derive(Clone, Copy)]
pub enum Act<E> {
    /// An event of a line.
    Event(E),
    /// The end of the page, on the line of this number.
    PageEnd(u32),
}

impl Act<&Event<&[u8]>> {
    /// The place that its messages name.
    pub fn place(&self) -> Place
        ensures { result ≡ (event_of (act_view self.now)).place }
    {
        match *self {
            Act::Event(event) => event.place,
            Act::PageEnd(line) => Place { line, column: 1 },
        }
    }
}
