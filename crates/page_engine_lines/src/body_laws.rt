//! Laws of a page's body as one block tree (man(7)).

ghost use Rattle.std.specs.Prelude.{◌≡◌, ℕ, List, [], ◌∷◌, ◌++◌, map};
ghost use Rattle.page_core_base.specs.Messages.{Message};
ghost use Rattle.page_core_base.specs.Rows.{noted};
ghost use Rattle.page_sets_lines.specs.declared.events.Event.{Event};
ghost use Rattle.page_engine_lines.specs.Bodies.{BodyEdge};
ghost use Rattle.page_engine_lines.specs.laws.Views.{end_items, events_after, events_items};
ghost use Rattle.page_engine_lines.specs.Trees.{Step, events_steps, page_end_steps, reports, tree_after, tree_items};
ghost use Rattle.page_engine_lines.specs.machine.Lines as machine;

/// The block tree of all events of a body, with the header before the event that begins it, gives what they give one after another, and leaves the
/// same; messages are given where they are; and at the page's end come a missing header and the end of all scopes.
pub fn body_tree_law()
    ensures items { (b : BodyEdge) (events : List (Event (List ℕ))) → tree_items b (events_steps events) ≡ events_items b events }
    ensures after { (b : BodyEdge) (events : List (Event (List ℕ))) → tree_after b (events_steps events) ≡ events_after b events }
    ensures message { (b : BodyEdge) (m : Message)
        → (tree_items b (reports m ∷ []) ≡ noted m ∷ []) × (tree_after b (reports m ∷ []) ≡ b) }
    ensures end { (b : BodyEdge) (line : ℕ) → tree_items b (page_end_steps line) ≡ end_items b line }
{}

/// A body may be cut anywhere between two acts, whatever scopes are open there.
pub fn body_cut_law()
    ensures items { (b : BodyEdge) (above below : List Step)
        → tree_items b (above ++ below) ≡ tree_items b above ++ tree_items (tree_after b above) below }
    ensures after { (b : BodyEdge) (above below : List Step)
        → tree_after b (above ++ below) ≡ tree_after (tree_after b above) below }
{}

/// What the machine's own block tree gives of the steps of a body, and leaves, is what the definitions say.
pub fn machine_law()
    ensures items { (b : BodyEdge) (steps : List Step) → tree_items b steps ≡ machine.tree_items b (map machine.as_act steps) }
    ensures after { (b : BodyEdge) (steps : List Step) → tree_after b steps ≡ machine.tree_after b (map machine.as_act steps) }
{}
