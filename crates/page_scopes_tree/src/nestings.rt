//! Laws of the block tree of a page, for the tables of any language (man(7), mdoc(7)): a stack that takes event by event gives what the tree gives.

ghost use Rattle.std.specs.Prelude.{◌≡◌, ℕ, ◌+◌, ◌*◌, ◌≤◌, List, ◌++◌, length};
ghost use Rattle.page_scopes_tree.specs.machine.Nestings.{tree, act, aside, before_leaf, beside, layout_with, Sides, with_asides, edge, Layout, settled, count_ended, ended_items, placed_items, run, run_items, state_left, step, step_items, IsSound, Nesting, standing_of, on, rest_by};
ghost use Rattle.page_scopes_tree.specs.Ends.{TreeEdge};
ghost use Rattle.page_scopes_tree.specs.laws.Views.{labels};

/// An open node, with what it keeps of the state before it.
#[derive(Drop)]
pub struct Scope<L, B> {
    pub label: L,
    pub before: B,
}

/// A page cut anywhere between two acts: what all acts give is what those before the cut give, and then what those after it give from the edge at the
/// cut; and the edge at the end is the same.
pub fn cut_law<M, L, A, F, S, B, I>()
    ensures given { (nests : Nesting M L A F) (most : ℕ) → IsSound nests most
        → (lays : Layout L A F S B I) (d : TreeEdge M L S B) (acts more : List A)
        → settled nests lays d (acts ++ more)
        ≡ settled nests lays d acts ++ settled nests lays (edge nests lays d acts) more }
    ensures edge { (nests : Nesting M L A F) (most : ℕ) → IsSound nests most
        → (lays : Layout L A F S B I) (d : TreeEdge M L S B) (acts more : List A)
        → edge nests lays d (acts ++ more) ≡ edge nests lays (edge nests lays d acts) more }
{}

/// A stack of open nodes, each with what it keeps of the state before it, gives act by act what the tree gives.
pub fn stack_law<M, L, A, F, S, B, I>()
    ensures given { (nests : Nesting M L A F) (most : ℕ) → IsSound nests most
        → (lays : Layout L A F S B I) (d : TreeEdge M L S B) (acts : List A)
        → settled nests lays d acts ≡ run_items nests lays d acts }
    ensures edge { (nests : Nesting M L A F) (most : ℕ) → IsSound nests most
        → (lays : Layout L A F S B I) (d : TreeEdge M L S B) (acts : List A)
        → edge nests lays d acts ≡ run nests lays d acts }
    ensures depth { (nests : Nesting M L A F) (most : ℕ) → IsSound nests most
        → (lays : Layout L A F S B I) (d : TreeEdge M L S B) (acts : List A)
        → length d.scopes ≤ most → length (edge nests lays d acts).scopes ≤ most }
{}

/// The whole tree is what is found node by node, where what lies ahead of an inner forest goes to the enclosing one.
pub fn part_law<M, L, A, F>()
    ensures { (nests : Nesting M L A F) (most : ℕ) → IsSound nests most
        → (m : M) (nodes : List L) (acts : List A)
        → tree nests m nodes acts ≡ rest_by nests (2 * length acts + 1) nodes (on m acts) }
{}

/// Asides end and open nothing, and acts beside them do what they do alone.
pub fn asides_law<Y, M, L, A, F, H, S, B, I>()
    ensures sound { (nests : Nesting M L A F) (most : ℕ) → IsSound nests most → IsSound (with_asides {Y = Y} nests) most }
    ensures act_items { (nests : Nesting M L A F) (lays : Layout L A F S B I) (sides : Sides Y A F H S I) (own : H) (d : TreeEdge M L S B) (a : A)
        → step_items (with_asides nests) (layout_with lays sides) (beside own d) (act a)
        ≡ ended_items lays (count_ended nests d a) a d.scopes d.state
        ++ (before_leaf sides (standing_of nests d.mode a (labels d.scopes)) own (state_left nests lays d a)
        ++ placed_items lays (standing_of nests d.mode a (labels d.scopes)) a (state_left nests lays d a)) }
    ensures act_step { (nests : Nesting M L A F) (lays : Layout L A F S B I) (sides : Sides Y A F H S I) (own : H) (d : TreeEdge M L S B) (a : A)
        → step (with_asides nests) (layout_with lays sides) (beside own d) (act a) ≡ beside own (step nests lays d a) }
    ensures aside_items { (nests : Nesting M L A F) (lays : Layout L A F S B I) (sides : Sides Y A F H S I) (own : H) (d : TreeEdge M L S B) (y : Y)
        → step_items (with_asides nests) (layout_with lays sides) (beside own d) (aside y) ≡ sides.items y own d.state }
    ensures aside_step { (nests : Nesting M L A F) (lays : Layout L A F S B I) (sides : Sides Y A F H S I) (own : H) (d : TreeEdge M L S B) (y : Y)
        → step (with_asides nests) (layout_with lays sides) (beside own d) (aside y) ≡ beside (sides.own y own d.state) d }
{}
