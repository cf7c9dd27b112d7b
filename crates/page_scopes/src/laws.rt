//! Laws of the scopes of a page (man(7), mdoc(7)).

ghost use Rattle.std.specs.Prelude.{◌≡◌, ℕ, ◌≤◌, List, ◌++◌, length};
ghost use Rattle.page_scopes.specs.Bodies.{PageEdge};
ghost use Rattle.page_scopes.specs.laws.Views.{end_items, scopes_after, scopes_items, layout_tables};
ghost use Rattle.page_scopes_tree.specs.laws.Edges.{page_items};
ghost use Rattle.page_sets_lines.specs.declared.events.Event.{Event};

use crate::LayoutState;
use page_core_base::SCOPES;
use page_scopes_tree::events_law;

/// A page cut anywhere between two events: what all events give is what those before the cut give, and then what those after it give from the edge at
/// the cut; the edge at the end is the same, and never more than [`SCOPES`] scopes are open.
pub fn scopes_law()
    ensures given { (edge : PageEdge) (events more : List (Event (List ℕ)))
        → scopes_items edge (events ++ more)
        ≡ scopes_items edge events ++ scopes_items (scopes_after edge events) more }
    ensures edge { (edge : PageEdge) (events more : List (Event (List ℕ)))
        → scopes_after edge (events ++ more) ≡ scopes_after (scopes_after edge events) more }
    ensures page { (edge : PageEdge) (events : List (Event (List ℕ))) (line : ℕ)
        → page_items layout_tables edge events line
        ≡ scopes_items edge events ++ end_items (scopes_after edge events) line }
    ensures depth { (edge : PageEdge) (events : List (Event (List ℕ)))
        → length edge.scopes ≤ SCOPES → length (scopes_after edge events).scopes ≤ SCOPES }
{
    events_law::<LayoutState>();
}
