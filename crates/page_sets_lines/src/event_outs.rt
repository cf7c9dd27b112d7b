//! What takes the events of a line, one after another.

ghost use Rattle.std.specs.Prelude.{◌≡◌, List, [], ◌∷◌, ℕ, Option};
ghost use Rattle.page_sets_lines.specs.laws.Events.{event_view};
ghost use Rattle.page_core_base.specs.laws.Views.{Came};
ghost use Rattle.page_sets_lines.specs.machine.EventOuts.{found, nth, kept_view};
ghost use Rattle.page_sets_lines.specs.laws.Views.{IsShort};

use crate::events::Event;

/// Takes events, whose texts are lent for the call.
pub trait EventOut {
    ghost use Rattle.page_sets_lines.specs.declared.events.Event.{Event};

    // What is planned; what of a plan is still to come.
    ghost Plan: { Type 0 };

    ghost left: { Plan → Self → List (Event (List ℕ)) → Type 0 };

    /// Takes an event.
    fn give(&mut self, event: Event<&[u8]>)
        requires { IsShort (event_view event) }
        ensures { Came left self.old (event_view event.entry ∷ []) self.new };
}

/// Takes events whose texts live as long as `'a`, so that it may keep them.
pub trait EventTaker<'a> {
    ghost use Rattle.page_sets_lines.specs.declared.events.Event.{Event};

    // What is planned; what of a plan is still to come.
    ghost Plan: { Type 0 };

    ghost left: { Plan → Self → List (Event (List ℕ)) → Type 0 };

    /// Takes an event.
    fn give(&mut self, event: Event<&'a [u8]>)
        requires { IsShort (event_view event) }
        ensures { Came left self.old (event_view event.entry ∷ []) self.new };
}

/// Hands events on to what takes them for the call.
#[derive(Drop)]
pub struct Handed<'o, O> {
    pub out: &'o mut O,
}

impl<'a, O: EventOut> EventTaker<'a> for Handed<'_, O> {
    ghost use Rattle.page_sets_lines.specs.machine.EventOuts.{LeftHanded, PlannedHanded};

    ghost Plan = { PlannedHanded O.Plan };

    ghost left = { λ plan s events. LeftHanded O.left plan s.out.ghost_name s.out.now events };

    #[inline(always)]
    fn give(&mut self, event: Event<&'a [u8]>) {
        self.out.give(event);
    }
}

/// Keeps the event of a line that comes after this many others.
#[derive(Drop)]
pub struct Nth<'a> {
    skipped: usize,
    kept: Option<Event<&'a [u8]>>,
}

impl<'a> Nth<'a> {
    /// Before the line's first event.
    pub fn new(skipped: usize) -> Nth<'a>
        ensures { found result.skipped result.kept ≡ nth skipped }
    {
        Nth {
            skipped,
            kept: None,
        }
    }

    /// The event, if it came.
    pub fn event(self) -> Option<Event<&'a [u8]>>
        ensures { kept_view result ≡ kept_view self.entry.kept }
    {
        self.kept
    }
}

impl<'a> EventTaker<'a> for Nth<'a> {
    ghost use Rattle.page_sets_lines.specs.declared.events.Event.{Event};

    ghost Plan = { Option (Event (List ℕ)) };

    ghost left = { λ plan s events. found s.skipped s.kept events ≡ plan };

    #[inline(always)]
    fn give(&mut self, event: Event<&'a [u8]>) {
        if self.kept.is_none() {
            if self.skipped == 0 {
                self.kept = Some(event);
            } else {
                self.skipped -= 1;
            }
        }
    }
}
