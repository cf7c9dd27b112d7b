//! Messages of scopes that end otherwise than by their own closer, and of events that are refused (mandoc(1), "DIAGNOSTICS").

ghost use Rattle.std.specs.Prelude.{◌≡◌, [], ◌∷◌};
ghost use Rattle.page_core_base.specs.Rows.{says};
ghost use Rattle.page_core_base.specs.laws.Views.{Came};
ghost use Rattle.page_scopes_tree.specs.laws.Views.{act_view};
ghost use Rattle.page_scopes_tree.specs.Ends.{event_of};
ghost use Rattle.page_scopes_tree.specs.Placements as broken;
ghost use Rattle.page_scopes_labels.specs.laws.Views.{end_view};
ghost use Rattle.page_sets_lines.specs.laws.Events.{closer_view, kind_view, opener_view};

use crate::Act;
use crate::placements::Obstacle;
use page_core_base::{Limit, Note, NoteKind, PieceOut, Place};
use page_scopes_labels::{Label, ScopeEnd};
use page_sets_lines::{Closer, Event, EventKind, Leaf, Opener};

// Gives a message about a place.
fn report<O: PieceOut>(out: &mut O, kind: NoteKind, place: Place, detail: &[u8])
    ensures { Came O.left out.old (says kind place detail.now ∷ []) out.new }
{
    out.report(&Note::about(kind, place, detail));
}

// The name of a closer.
fn closer_name(closer: &Closer<&[u8]>) -> &'static str
    ensures { result.now ≡ broken.closer_name (closer_view closer.now) }
{
    match *closer {
        Closer::Line | Closer::Enclosures => "",
        Closer::RelativeMargin(_) => "RE",
        Closer::Target(link, _) => link.closer_name(),
        Closer::Syntax => "YS",
        Closer::Block(ref closer) => closer.block().closer_name(),
    }
}

// The name of the closer that an opener does the work of.
fn opener_closer_name(opener: &Opener<&[u8]>) -> &'static str
    ensures { result.now ≡ broken.opener_closer_name (opener_view opener.now) }
{
    match *opener {
        Opener::Syntax(_) => "YS",
        _ => "",
    }
}

// The message of a scope, unless it ends by its own closer.
fn broken_unless(is_generated: bool, kind: NoteKind) -> Option<NoteKind>
    ensures { result ≡ broken.broken_unless is_generated kind }
{
    if is_generated { None } else { Some(kind) }
}

// The message of a scope with a closer of this name that an event ends.
fn explicit_broken(kind: &EventKind<&[u8]>, own: &str) -> Option<NoteKind>
    ensures { result ≡ broken.explicit_broken (kind_view kind.now) own.now }
{
    match kind {
        EventKind::Close(closer) => broken_unless(closer_name(closer) == own, NoteKind::BadNest),
        EventKind::Open(opener) => {
            broken_unless(opener_closer_name(opener) == own, NoteKind::MissingEnd)
        }
        _ => Some(NoteKind::MissingEnd),
    }
}

// The message of a line scope that an event ends.
fn line_broken(kind: &EventKind<&[u8]>) -> Option<NoteKind>
    ensures { result ≡ broken.line_broken (kind_view kind.now) }
{
    match kind {
        EventKind::Close(Closer::Line) | EventKind::Leaf(Leaf::BlankLine) | EventKind::Raw(_) => {
            Some(NoteKind::LineScope)
        }
        _ => None,
    }
}

// The message of a scope that an event ends, by how the scope ends.
fn end_broken(kind: &EventKind<&[u8]>, end: ScopeEnd<&'static str>) -> Option<NoteKind>
    ensures { result ≡ broken.end_broken (kind_view kind.now) (end_view end.entry) }
{
    match end {
        ScopeEnd::Implied => None,
        ScopeEnd::Line => line_broken(kind),
        ScopeEnd::Closer(own) => explicit_broken(kind, own),
    }
}

// The message of a scope that the page's end ends.
fn page_end_broken(end: ScopeEnd<&'static str>) -> Option<NoteKind>
    ensures { result ≡ broken.page_end_broken (end_view end.entry) }
{
    match end {
        ScopeEnd::Closer(_) => Some(NoteKind::MissingEnd),
        _ => None,
    }
}

// The message of a scope that an act ends.
fn broken(act: &Act<&Event<&[u8]>>, label: Label) -> Option<NoteKind>
    ensures { result ≡ broken.broken (act_view act.now) label }
{
    let end = label.row().end;
    match act {
        Act::Event(event) => end_broken(&event.kind, end),
        Act::PageEnd(_) => page_end_broken(end),
    }
}

/// Gives the message of a scope that an act ends, if there is one.
pub(crate) fn report_broken<O: PieceOut>(out: &mut O, act: &Act<&Event<&[u8]>>, label: Label)
    ensures { Came O.left out.old (broken.broken_notes (act_view act.now) label) out.new }
{
    if let Some(kind) = broken(act, label) {
        report(out, kind, act.place(), label.name().as_bytes());
    }
}

// The name of the closer that an act is.
fn act_closer_name(act: &Act<&Event<&[u8]>>) -> &'static str
    ensures { result.now ≡ broken.kind_closer_name (event_of (act_view act.now)).kind }
{
    match act {
        Act::Event(event) => match &event.kind {
            EventKind::Close(closer) => closer_name(closer),
            _ => "",
        },
        Act::PageEnd(_) => "",
    }
}

/// Gives the message of an act that is refused.
#[inline(never)]
pub(crate) fn report_obstacle<O: PieceOut>(
    out: &mut O,
    obstacle: Obstacle,
    act: &Act<&Event<&[u8]>>,
)
    ensures { Came O.left out.old (broken.obstacle_notes obstacle (act_view act.now)) out.new }
{
    let place = act.place();
    match obstacle {
        Obstacle::OutsideList => report(out, NoteKind::ItemOutside, place, b""),
        Obstacle::Scopes => report(out, NoteKind::Limit, place, Limit::Scopes.name().as_bytes()),
        Obstacle::NotOpen => report(
            out,
            NoteKind::NotOpen,
            place,
            act_closer_name(act).as_bytes(),
        ),
        Obstacle::FewerMargins => report(out, NoteKind::FewerRs, place, b""),
    }
}
