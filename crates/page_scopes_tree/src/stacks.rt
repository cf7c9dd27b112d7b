//! A stack of open scopes: each act ends the innermost of them, and opens one more or is a leaf (man(7)).

ghost use Rattle.std.specs.Prelude.{◌≡◌, ◌≤◌, ◌<◌, ◌+◌, true, ◌∷◌, length, drop, reverse, vec_capacity, vec_len};
ghost use Rattle.page_core_base.specs.laws.Views.{Came};
ghost use Rattle.page_scopes_tree.specs.laws.Views.{labels, TakesAct, act_view, comes, does};
ghost use Rattle.page_scopes_tree.specs.machine.Nestings.{ended_items, ended_state, placed_items, placed_scopes, placed_state, step, step_items};
ghost use Rattle.page_scopes_tree.specs.machine.Stacks.{framed, scopes_nesting, Keeps, TakesStep, is_idle, stack_edge, stack_standing, stands_alone};
ghost use Rattle.page_sets_lines.specs.laws.Events.{event_view};

use crate::broken::{report_broken, report_obstacle};
use crate::ends::count_ended;
use crate::placements::{
    Placement, is_idle, is_passed_over, placement_of, skips_after, stands_alone,
};
use crate::{Act, Renderer, Scope};
use page_core_base::{PieceOut, SCOPES};
use page_scopes_labels::Label;
use page_sets_lines::Event;

// Gives the end of the innermost scope, which an act ends.
#[inline(always)]
fn give_innermost<Y: Renderer, O: PieceOut>(
    scopes: &[Scope<Label, Y::Kept>],
    state: &mut Y,
    act: &Act<&Event<&[u8]>>,
    out: &mut O,
)
    ensures came { Came O.left out.old
        (ended_items (framed Y.tables) 1 (does (act_view act.now)) (reverse scopes.now) state.old) out.new }
    ensures state { state.new
        ≡ ended_state (framed Y.tables) 1 (does (act_view act.now)) (reverse scopes.now) state.old }
{
    if let Some(scope) = scopes.last() {
        report_broken(out, act, scope.label);
        state.end(scope.label, &scope.before, act.place(), out);
    }
}

// An act ends the innermost scope.
#[inline(never)]
fn end_innermost<Y: Renderer, O: PieceOut>(
    scopes: &mut Vec<Scope<Label, Y::Kept>>,
    state: &mut Y,
    act: &Act<&Event<&[u8]>>,
    out: &mut O,
)
    requires { 0 < vec_len scopes.old }
    ensures came { Came O.left out.old
        (ended_items (framed Y.tables) 1 (does (act_view act.now)) (reverse scopes.old.items) state.old)
        out.new }
    ensures state { state.new
        ≡ ended_state (framed Y.tables) 1 (does (act_view act.now)) (reverse scopes.old.items) state.old }
    ensures scopes { Keeps scopes.old scopes.new (drop 1 (reverse scopes.old.items)) }
    ensures len { vec_len scopes.new + 1 ≡ vec_len scopes.old }
{
    give_innermost(scopes.as_slice(), state, act, out);
    drop(scopes.pop());
}

// An act ends this many of the innermost scopes.
#[inline(always)]
fn end_scopes<Y: Renderer, O: PieceOut>(
    scopes: &mut Vec<Scope<Label, Y::Kept>>,
    state: &mut Y,
    count: usize,
    act: &Act<&Event<&[u8]>>,
    out: &mut O,
)
    requires { count ≤ vec_len scopes.old }
    ensures came { Came O.left out.old
        (ended_items (framed Y.tables) count (does (act_view act.now)) (reverse scopes.old.items) state.old)
        out.new }
    ensures state { state.new
        ≡ ended_state (framed Y.tables) count (does (act_view act.now)) (reverse scopes.old.items) state.old }
    ensures scopes { Keeps scopes.old scopes.new (drop count (reverse scopes.old.items)) }
{
    for _i in 0..count {
        end_innermost(scopes, state, act, out);
    }
}

// A scope opens.
#[inline(never)]
fn open_scope<Y: Renderer, O: PieceOut>(
    scopes: &mut Vec<Scope<Label, Y::Kept>>,
    state: &mut Y,
    label: Label,
    event: &Event<&[u8]>,
    out: &mut O,
)
    requires room { vec_len scopes.old < vec_capacity scopes.old }
    requires takes { Y.Takes (event_view event.now) }
    ensures came { Came O.left out.old (Y.tables.begin_items label (event_view event.now) state.old) out.new }
    ensures state { state.new ≡ Y.tables.begin_state label (event_view event.now) state.old }
    ensures scopes { Keeps scopes.old scopes.new
        (record { label = label; before = Y.tables.keep label (event_view event.now) state.old }
        ∷ reverse scopes.old.items) }
{
    state.keep(label, event, scopes);
    state.begin(label, event, out);
}

// An event itself, after it ended this many scopes.
#[inline(always)]
fn place_event<Y: Renderer, O: PieceOut>(
    scopes: &mut Vec<Scope<Label, Y::Kept>>,
    state: &mut Y,
    count: usize,
    event: &Event<&[u8]>,
    out: &mut O,
)
    requires depth { vec_len scopes.old ≤ SCOPES }
    requires reserved { SCOPES ≤ vec_capacity scopes.old }
    requires takes { Y.Takes (event_view event.now) }
    ensures came { let seen = Act.Event (event_view event.now) in let st = stack_standing seen count scopes.old
        in Came O.left out.old (placed_items (framed Y.tables) st (does seen) state.old) out.new }
    ensures state { let seen = Act.Event (event_view event.now) in let st = stack_standing seen count scopes.old
        in state.new ≡ placed_state (framed Y.tables) st (does seen) state.old }
    ensures scopes { let seen = Act.Event (event_view event.now) in let st = stack_standing seen count scopes.old
        in Keeps scopes.old scopes.new
        (placed_scopes (framed Y.tables) st (does seen) (reverse scopes.old.items) state.old) }
{
    let act = Act::Event(event);
    match placement_of(&act, count, scopes.as_slice()) {
        Placement::Node(label) => open_scope(scopes, state, label, event, out),
        Placement::Leaf => state.leaf(&act, out),
        Placement::Refused(obstacle) => report_obstacle(out, obstacle, &act),
        Placement::Nothing => {}
    }
}

// The act itself, after it ended this many scopes.
#[inline(always)]
fn place_act<Y: Renderer, O: PieceOut>(
    scopes: &mut Vec<Scope<Label, Y::Kept>>,
    state: &mut Y,
    count: usize,
    act: &Act<&Event<&[u8]>>,
    out: &mut O,
)
    requires depth { vec_len scopes.old ≤ SCOPES }
    requires reserved { SCOPES ≤ vec_capacity scopes.old }
    requires takes { TakesAct Y.Takes (act_view act.now) }
    ensures came { let st = stack_standing (act_view act.now) count scopes.old
        in Came O.left out.old (placed_items (framed Y.tables) st (does (act_view act.now)) state.old)
        out.new }
    ensures state { let st = stack_standing (act_view act.now) count scopes.old
        in state.new ≡ placed_state (framed Y.tables) st (does (act_view act.now)) state.old }
    ensures scopes { let st = stack_standing (act_view act.now) count scopes.old
        in Keeps scopes.old scopes.new
        (placed_scopes (framed Y.tables) st (does (act_view act.now)) (reverse scopes.old.items) state.old) }
{
    match act {
        Act::Event(event) => place_event(scopes, state, count, event, out),
        Act::PageEnd(_) => state.leaf(act, out),
    }
}

// Takes an act: ends the scopes that it ends, and then opens a scope or gives a leaf.
#[inline(never)]
fn take_nesting<Y: Renderer, O: PieceOut>(
    scopes: &mut Vec<Scope<Label, Y::Kept>>,
    skips: &mut bool,
    state: &mut Y,
    act: &Act<&Event<&[u8]>>,
    out: &mut O,
)
    requires depth { vec_len scopes.old ≤ SCOPES }
    requires reserved { SCOPES ≤ vec_capacity scopes.old }
    requires takes { TakesAct Y.Takes (act_view act.now) }
    ensures stepped { TakesStep O.left Y.tables (does (act_view act.now))
        (stack_edge skips.old scopes.old state.old) out.old
        (stack_edge skips.new scopes.new state.new) out.new }
    ensures kept { vec_capacity scopes.new ≡ vec_capacity scopes.old }
{
    if is_passed_over(*skips, act) {
        return;
    }
    let count = count_ended(act, scopes.as_slice());
    end_scopes(scopes, state, count, act, out);
    *skips = skips_after(*skips, act, count, scopes.as_slice());
    place_act(scopes, state, count, act, out);
}

// An act that is alone, unless it is passed over.
#[inline(always)]
fn take_alone<Y: Renderer, O: PieceOut>(
    scopes: &[Scope<Label, Y::Kept>],
    skips: &mut bool,
    state: &mut Y,
    act: &Act<&Event<&[u8]>>,
    out: &mut O,
)
    requires depth { length scopes.now ≤ SCOPES }
    requires takes { TakesAct Y.Takes (act_view act.now) }
    requires alone { stands_alone (act_view act.now) (labels (reverse scopes.now)) ≡ true }
    ensures { TakesStep O.left Y.tables (does (act_view act.now))
        (record { mode = skips.old; scopes = reverse scopes.now; state = state.old }) out.old
        (record { mode = skips.new; scopes = reverse scopes.now; state = state.new }) out.new }
{
    if !is_passed_over(*skips, act) {
        *skips = skips_after(*skips, act, 0, scopes);
        state.leaf(act, out);
    }
}

// Nothing is done for an act that does nothing, and the edge stays.
#[inline(always)]
fn take_idle<Y: Renderer, O: PieceOut>(
    scopes: &[Scope<Label, Y::Kept>],
    skips: bool,
    state: &Y,
    act: &Act<&Event<&[u8]>>,
    out: &O,
)
    requires { is_idle (act_view act.now) (labels (reverse scopes.now)) ≡ true }
    ensures { TakesStep O.left Y.tables (does (act_view act.now))
        (record { mode = skips; scopes = reverse scopes.now; state = state.now }) out.now
        (record { mode = skips; scopes = reverse scopes.now; state = state.now }) out.now }
{}

// `take_nesting` with an event of its own, so that the event that is asked about stays in registers.
#[inline(always)]
fn take_nested<Y: Renderer, O: PieceOut>(
    scopes: &mut Vec<Scope<Label, Y::Kept>>,
    skips: &mut bool,
    state: &mut Y,
    act: &Act<&Event<&[u8]>>,
    out: &mut O,
)
    requires depth { vec_len scopes.old ≤ SCOPES }
    requires reserved { SCOPES ≤ vec_capacity scopes.old }
    requires takes { TakesAct Y.Takes (act_view act.now) }
    ensures stepped { TakesStep O.left Y.tables (does (act_view act.now))
        (stack_edge skips.old scopes.old state.old) out.old
        (stack_edge skips.new scopes.new state.new) out.new }
    ensures kept { vec_capacity scopes.new ≡ vec_capacity scopes.old }
{
    match act {
        Act::Event(event) => {
            let event = **event;
            take_nesting(scopes, skips, state, &Act::Event(&event), out);
        }
        Act::PageEnd(_) => take_nesting(scopes, skips, state, act, out),
    }
}

/// Takes an act: ends the scopes that it ends, and then opens a scope or gives a leaf.
#[inline(always)]
pub(crate) fn take_act<Y: Renderer, O: PieceOut>(
    scopes: &mut Vec<Scope<Label, Y::Kept>>,
    skips: &mut bool,
    state: &mut Y,
    act: &Act<&Event<&[u8]>>,
    out: &mut O,
)
    requires depth { vec_len scopes.old ≤ SCOPES }
    requires reserved { SCOPES ≤ vec_capacity scopes.old }
    requires takes { TakesAct Y.Takes (act_view act.now) }
    ensures stepped { TakesStep O.left Y.tables (does (act_view act.now))
        (stack_edge skips.old scopes.old state.old) out.old
        (stack_edge skips.new scopes.new state.new) out.new }
    ensures kept { vec_capacity scopes.new ≡ vec_capacity scopes.old }
{
    if stands_alone(act, scopes.as_slice()) {
        take_alone(scopes.as_slice(), skips, state, act, out);
    } else if is_idle(act, scopes.as_slice()) {
        take_idle(scopes.as_slice(), *skips, state, act, out);
    } else {
        take_nested(scopes, skips, state, act, out);
    }
}

/// Takes an event.
#[inline(always)]
pub(crate) fn take_coming<Y: Renderer, O: PieceOut>(
    scopes: &[Scope<Label, Y::Kept>],
    skips: bool,
    state: &mut Y,
    event: &Event<&[u8]>,
    out: &mut O,
)
    ensures came { Came O.left out.old (step_items scopes_nesting (framed Y.tables)
        (record { mode = skips; scopes = reverse scopes.now; state = state.old })
        (comes (event_view event.now))) out.new }
    ensures edge { record { mode = skips; scopes = reverse scopes.now; state = state.new }
        ≡ step scopes_nesting (framed Y.tables)
        (record { mode = skips; scopes = reverse scopes.now; state = state.old })
        (comes (event_view event.now)) }
{
    if !skips {
        state.come(event, out);
    }
}
