//! A layout: what scopes and leaves give, over a state (man(7)).

ghost use Rattle.std.specs.Prelude.{◌≡◌, ◌<◌, List, ◌∷◌, ℕ, reverse, vec_capacity, vec_len};
ghost use Rattle.page_core_base.specs.laws.Views.{Came};
ghost use Rattle.page_scopes_tree.specs.laws.Views.{TakesAct, act_view};
ghost use Rattle.page_scopes_tree.specs.machine.Stacks.{Tables, Keeps};
ghost use Rattle.page_sets_lines.specs.laws.Events.{event_view};
ghost use Rattle.page_sets_lines.specs.declared.events.Event.{Event};

use crate::{Act, Scope};
use page_core_base::{PieceOut, Place};
use page_scopes_labels::Label;
use page_sets_lines::Event;

/// The state of a layout, which says what scopes and leaves give.
pub trait Renderer: Drop {
    /// What a scope keeps of the state before it.
    type Kept: Drop;

    // The tables of the layout.
    ghost tables: { Tables Self Self.Kept };

    // the events that the layout takes
    ghost Takes: { Event (List ℕ) → Type 0 };

    /// A copy of what a scope keeps.
    fn copy_kept(kept: &Self::Kept) -> Self::Kept
        ensures { result ≡ kept.now };

    /// Puts the scope that an event opens on the stack of those that are open, the outermost first, with what it keeps of the state.
    fn keep(&self, label: Label, event: &Event<&[u8]>, scopes: &mut Vec<Scope<Label, Self::Kept>>)
        requires { vec_len scopes.old < vec_capacity scopes.old }
        ensures { Keeps scopes.old scopes.new
            (record { label = label; before = tables.keep label (event_view event.now) self.now }
            ∷ reverse scopes.old.items) };

    /// A scope begins.
    fn begin<O: PieceOut>(&mut self, label: Label, event: &Event<&[u8]>, out: &mut O)
        requires { Takes (event_view event.now) }
        ensures came { Came O.left out.old
            (tables.begin_items label (event_view event.now) self.old) out.new }
        ensures state { self.new ≡ tables.begin_state label (event_view event.now) self.old };

    /// An event comes, before it ends or opens anything.
    fn come<O: PieceOut>(&mut self, event: &Event<&[u8]>, out: &mut O)
        ensures came { Came O.left out.old (tables.coming_items (event_view event.now) self.old) out.new }
        ensures state { self.new ≡ tables.coming_state (event_view event.now) self.old };

    /// An act that opens and closes nothing itself.
    fn leaf<O: PieceOut>(&mut self, act: &Act<&Event<&[u8]>>, out: &mut O)
        requires { TakesAct Takes (act_view act.now) }
        ensures came { Came O.left out.old (tables.leaf_items (act_view act.now) self.old) out.new }
        ensures state { self.new ≡ tables.leaf_state (act_view act.now) self.old };

    /// A scope ends, with what it kept, at a place.
    fn end<O: PieceOut>(&mut self, label: Label, before: &Self::Kept, place: Place, out: &mut O)
        ensures came { Came O.left out.old (tables.end_items label before.now place self.old) out.new }
        ensures state { self.new ≡ tables.end_state label before.now place self.old };
}
