//! Laws of scopes, whatever the layout is (man(7)).

ghost use Rattle.std.specs.Prelude.{◌≡◌, ℕ, ◌+◌, ◌*◌, ◌≤◌, Bool, List, ◌++◌, length};
ghost use Rattle.page_scopes_tree.specs.machine.Nestings.{tree, on, rest_by};
ghost use Rattle.page_sets_lines.specs.declared.events.Event.{Event};
ghost use Rattle.page_scopes_tree.specs.laws.Views.{Step};
ghost use Rattle.page_scopes_tree.specs.Placements.{ScopesEdge};
ghost use Rattle.page_scopes_tree.specs.laws.Edges.{events_edge, events_items, page_end_items, page_items};
ghost use Rattle.page_scopes_tree.specs.machine.Stacks.{scopes_nesting};
ghost use Rattle.page_scopes_labels.specs.declared.labels.Label.{Label};

use crate::Renderer;
use page_core_base::SCOPES;

/// Events cut anywhere between two of them give what those before the cut give, and then what those after it give from the edge at the cut, the page's
/// end too; and they leave the same.
pub fn events_law<Y: Renderer>()
    ensures given { (d : ScopesEdge Y Y.Kept) (events more : List (Event (List ℕ)))
        → events_items Y.tables d (events ++ more)
        ≡ events_items Y.tables d events ++ events_items Y.tables (events_edge Y.tables d events) more }
    ensures edge { (d : ScopesEdge Y Y.Kept) (events more : List (Event (List ℕ)))
        → events_edge Y.tables d (events ++ more)
        ≡ events_edge Y.tables (events_edge Y.tables d events) more }
    ensures page { (d : ScopesEdge Y Y.Kept) (events : List (Event (List ℕ))) (line : ℕ)
        → page_items Y.tables d events line
        ≡ events_items Y.tables d events ++ page_end_items Y.tables (events_edge Y.tables d events) line }
    ensures depth { (d : ScopesEdge Y Y.Kept) (events : List (Event (List ℕ)))
        → length d.scopes ≤ SCOPES → length (events_edge Y.tables d events).scopes ≤ SCOPES }
{}

/// The whole tree of scopes is what is found scope by scope: a scope opens a forest one deeper, and what lies ahead of that goes to the enclosing one.
pub fn tree_law()
    ensures { (skips : Bool) (nodes : List Label) (steps : List Step)
        → tree scopes_nesting skips nodes steps
        ≡ rest_by scopes_nesting (2 * length steps + 1) nodes (on skips steps) }
{}
