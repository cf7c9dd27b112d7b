//! The front of a page's body, and what events give that open no scope (man(7), mdoc(7)).

ghost use Rattle.std.specs.Prelude.{◌≡◌};
ghost use Rattle.page_core_base.specs.laws.Views.{Came};
ghost use Rattle.page_scopes.specs.Bodies as bodies;
ghost use Rattle.page_scopes_nodes.specs.Leaves.{name_after};
ghost use Rattle.page_sets_lines.specs.laws.Views.{CloserFits, KindFits};
ghost use Rattle.page_scopes_phrases.specs.laws.Views.{GivesOutcome};
ghost use Rattle.page_scopes_tree.specs.laws.Views.{TakesAct, act_view};
ghost use Rattle.page_sets_lines.specs.laws.Events.{closer_view, kind_view, given_view, leaf_view, opener_view, step_view};
ghost use Rattle.page_sets_lines.specs.declared.events.EventKind.TheVariants as kinds;
ghost use Rattle.page_sets_lines.specs.declared.leaves.Leaf.TheVariants as leaves;

use page_core_base::{NoteKind, Output, Piece, PieceOut, Place};
use page_core_numbers::Scale;
use page_roff_syntax::Argument;
use page_scopes_blocks::count_name;
use page_scopes_layout::{Context, give_margins};
use page_scopes_nodes::give_kind;
use page_scopes_phrases::{Formatting, ManualName, argument_word, give_line_word};
use page_scopes_tree::Act;
use page_scopes_words::{give_number, report};
use page_sets_lines::{
    BlockCloser, Closer, Event, EventKind, Join, Leaf, LineOpener, LineStep, Opener,
};

// Whether a step of a line may begin the body: the address of `Lk`, the name of the manual, and the end of a function.
fn step_begins(step: &LineStep<&[u8]>) -> bool
    ensures { result ≡ bodies.kind_begins (kinds.Leaf (leaves.Step (step_view step.now))) }
{
    matches!(
        step,
        LineStep::Uri(_) | LineStep::ManualName | LineStep::FunctionEnd
    )
}

// Whether a leaf may begin the body.
fn leaf_begins(leaf: &Leaf<&[u8]>) -> bool
    ensures { result ≡ bodies.kind_begins (kinds.Leaf (leaf_view leaf.now)) }
{
    match leaf {
        Leaf::Generated(_) | Leaf::FurtherTag => true,
        Leaf::Step(step) => step_begins(step),
        _ => false,
    }
}

// Whether an opener may begin the body: an item needs a list that has begun it.
fn opener_begins(opener: &Opener<&[u8]>) -> bool
    ensures { result ≡ bodies.kind_begins (kinds.Open (opener_view opener.now)) }
{
    !matches!(opener, Opener::Item)
}

// Whether what opens a line scope may begin the body: the head of an item does not.
fn line_begins(opener: LineOpener) -> bool
    ensures { result ≡ bodies.kind_begins (kinds.LineScope opener) }
{
    !matches!(opener, LineOpener::Head)
}

// Whether an event may begin the body.
fn kind_begins(kind: &EventKind<&[u8]>) -> bool
    ensures { result ≡ bodies.kind_begins (kind_view kind.now) }
{
    match kind {
        EventKind::Word(_) | EventKind::Raw(_) => true,
        EventKind::Open(opener) => opener_begins(opener),
        EventKind::LineScope(opener) => line_begins(*opener),
        EventKind::Leaf(leaf) => leaf_begins(leaf),
        EventKind::Note { begins_body, .. } => *begins_body,
        EventKind::Close(_) | EventKind::End { .. } => false,
    }
}

/// Whether an event begins the body.
pub(crate) fn begins(kind: &EventKind<&[u8]>, has_begun: bool) -> bool
    ensures { result ≡ bodies.begins (kind_view kind.now) has_begun }
{
    !has_begun && kind_begins(kind)
}

// Whether an event opens a section.
fn is_section(kind: &EventKind<&[u8]>) -> bool
    ensures { result ≡ bodies.is_section (kind_view kind.now) }
{
    matches!(kind, EventKind::Open(Opener::Section))
}

// Gives the front of the body, which an event begins.
#[inline(never)]
fn give_front<O: PieceOut>(out: &mut O, place: Place, kind: &EventKind<&[u8]>, context: &Context)
    ensures { Came O.left out.old
        (bodies.front_items place (kind_view kind.now) context.now) out.new }
{
    if !is_section(kind) {
        let front = Place {
            line: place.line,
            column: 1,
        };
        report(out, NoteKind::BeforeSection, front, b"");
    }
    out.give(Piece::Literal(context.is_literal.value));
    give_margins(out, context);
}

// Gives the messages of a closer's number.
#[inline(always)]
fn report_number<O: PieceOut>(out: &mut O, place: Place, kind: &EventKind<&[u8]>)
    ensures { Came O.left out.old (bodies.kind_notes place (kind_view kind.now)) out.new }
{
    if let EventKind::Close(Closer::RelativeMargin(Some(number))) = kind {
        let _ = give_number(out, Scale::Basic, place, number);
    }
}

/// Gives what comes before what an event ends: the front of the body, and the messages of a closer's number.
#[tactic(auto, unfolding(crate::specs::Bodies::coming))]
#[inline(always)]
pub(crate) fn give_coming<O: PieceOut>(
    out: &mut O,
    place: Place,
    kind: &EventKind<&[u8]>,
    context: &Context,
    has_begun: &mut bool,
)
    ensures came { Came O.left out.old
        (bodies.coming place (kind_view kind.now) context.now has_begun.old) out.new }
    ensures begun { has_begun.new ≡ bodies.begun_after (kind_view kind.now) has_begun.old }
{
    if begins(kind, *has_begun) {
        // (a copy keeps the event in registers; so do those below)
        let begun_by = *kind;
        give_front(out, place, &begun_by, context);
        *has_begun = true;
    }
    report_number(out, place, kind);
}

// What follows the end of a closer's scope: the suffix of `UE` and `ME`, and the mark of `Ec`.
fn closer_suffix<'a>(closer: &Closer<&'a [u8]>) -> Option<Argument<&'a [u8]>>
    ensures { given_view result ≡ bodies.closer_suffix (closer_view closer.now) }
{
    match *closer {
        Closer::Target(_, suffix) => suffix,
        Closer::Block(BlockCloser::Custom(mark)) => mark,
        _ => None,
    }
}

// Gives the suffix of a closer.
#[inline(never)]
fn give_suffix<O: PieceOut>(out: &mut O, line: u32, closer: &Closer<&[u8]>, state: &mut Formatting)
    requires { CloserFits (closer_view closer.now) }
    ensures { GivesOutcome O.left out.old (bodies.given_suffix line (bodies.closer_suffix (closer_view closer.now)) state.old) out.new state.new }
{
    if let Some(suffix) = closer_suffix(closer) {
        let word = argument_word(None, Join::Glued, suffix);
        give_line_word(out, line, &word, state);
    }
}

// Whether a leaf comes before the body and gives nothing there.
fn is_early(leaf: &Leaf<&[u8]>, has_begun: bool) -> bool
    ensures { result ≡ bodies.is_early (leaf_view leaf.now) has_begun }
{
    !has_begun && matches!(leaf, Leaf::BlankLine | Leaf::Wordless(_) | Leaf::Request(_))
}

// Gives an event that opens nothing. The name is that of the manual.
#[inline(always)]
fn give_kind_standing<O: PieceOut>(
    out: &mut O,
    place: Place,
    kind: &EventKind<&[u8]>,
    name: &mut Option<ManualName>,
    has_begun: bool,
    state: &mut Formatting,
)
    requires { KindFits (kind_view kind.now) }
    ensures gives { GivesOutcome O.left out.old (bodies.kind_stands place (kind_view kind.now) name.old has_begun state.old)
        out.new state.new }
    ensures name { name.new ≡ name_after (kind_view kind.now) name.old }
{
    match kind {
        EventKind::Close(closer) => {
            let closer = *closer;
            give_suffix(out, place.line, &closer, state);
        }
        EventKind::Leaf(leaf) => {
            if !is_early(leaf, has_begun) {
                give_kind(out, place, kind, name, state);
            }
        }
        _ => give_kind(out, place, kind, name, state),
    }
}

/// Gives an act that opens nothing. The name is that of the manual.
#[tactic(auto, unfolding(crate::specs::Bodies::stands))]
#[inline(always)]
pub(crate) fn give_standing<O: PieceOut>(
    out: &mut O,
    output: Output,
    act: &Act<&Event<&[u8]>>,
    name: &mut Option<ManualName>,
    has_begun: bool,
    state: &mut Formatting,
)
    requires { TakesAct (λ event. KindFits event.kind) (act_view act.now) }
    ensures gives { GivesOutcome O.left out.old (bodies.stands output (act_view act.now) name.old has_begun state.old)
        out.new state.new }
    ensures name { name.new ≡ bodies.act_name (act_view act.now) name.old }
{
    match act {
        Act::Event(event) => {
            count_name(output, &event.kind, name, state);
            give_kind_standing(out, event.place, &event.kind, name, has_begun, state);
        }
        Act::PageEnd(_) => {
            out.give(Piece::Break);
            state.end_row();
        }
    }
}
