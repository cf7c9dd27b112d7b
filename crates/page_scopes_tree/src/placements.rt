//! What becomes of an event itself, once it ended what it ends (man(7)). Open scopes are in a list with the outermost first.

ghost use Rattle.std.specs.Prelude.{◌≡◌, ◌≤◌, length, reverse};
ghost use Rattle.page_scopes_tree.specs.laws.Views.{labels, act_view};
ghost use Rattle.page_scopes_tree.specs.machine.Stacks as stacks;
ghost use Rattle.page_scopes_tree.specs.Placements as placements;
ghost use Rattle.page_scopes_tree.specs.laws.Views as placements_laws;
ghost use Rattle.page_sets_lines.specs.laws.Events.{closer_view, kind_view, opener_view, request_view};

use crate::runs::{Run, run_len};
use crate::{Act, Scope};
use page_core_base::SCOPES;
use page_scopes_labels::{Explicit, Label};
use page_sets_lines::{
    BlockOpener, Closer, Event, EventKind, Leaf, LineOpener, Opener, RequestLeaf,
};

/// Why an event is refused.
#[derive(Clone, Copy, PartialEq, Eq)]
pub enum Obstacle {
    /// No list is open for an item.
    OutsideList,
    /// [`SCOPES`] scopes are open.
    Scopes,
    /// No scope of the closer is open.
    NotOpen,
    /// Fewer relative margins are open than the number of `RE` says.
    FewerMargins,
}

/// What becomes of an event.
#[derive(Clone, Copy, PartialEq, Eq)]
pub enum Placement {
    /// A scope opens.
    Node(Label),
    /// It opens none.
    Leaf,
    /// It is reported, and does nothing.
    Refused(Obstacle),
    /// It does nothing.
    Nothing,
}

// The scope that an opener opens.
fn opener_label(opener: &Opener<&[u8]>) -> Label
    ensures { result ≡ placements.opener_label (opener_view opener.now) }
{
    match *opener {
        Opener::Item => Label::Item,
        Opener::Section => Label::Section,
        Opener::Subsection => Label::Subsection,
        Opener::Paragraph(_) | Opener::Tagged(_) | Opener::Indented { .. } | Opener::Hanging(_) => {
            Label::Paragraph
        }
        Opener::RelativeMargin(_) => Label::Explicit(Explicit::RelativeMargin),
        Opener::Target(link, _) => Label::Explicit(Explicit::Target(link)),
        Opener::Syntax(_) => Label::Explicit(Explicit::Syntax),
        Opener::Block(ref opener) => Label::Explicit(Explicit::Block(opener.block())),
    }
}

// Whether a scope more may open.
fn has_room<B>(remaining: &[Scope<Label, B>]) -> bool
    requires { length remaining.now ≤ SCOPES }
    ensures { result ≡ placements.has_room (labels (reverse remaining.now)) }
{
    remaining.len() < SCOPES
}

// A scope opens where there is room.
#[inline(never)]
fn opened<B>(remaining: &[Scope<Label, B>], label: Label) -> Placement
    requires { length remaining.now ≤ SCOPES }
    ensures { result ≡ placements.opened (labels (reverse remaining.now)) label }
{
    if has_room(remaining) {
        Placement::Node(label)
    } else {
        Placement::Refused(Obstacle::Scopes)
    }
}

// Whether a list is open.
fn in_list<B>(remaining: &[Scope<Label, B>]) -> bool
    requires { length remaining.now ≤ SCOPES }
    ensures { result ≡ placements.in_list (labels (reverse remaining.now)) }
{
    run_len(Run::InsideList, remaining) < remaining.len()
}

// Whether a list is open, and the items of the innermost one have heads.
fn in_headed_list<B>(remaining: &[Scope<Label, B>]) -> bool
    requires { length remaining.now ≤ SCOPES }
    ensures { result ≡ placements.in_headed_list (labels (reverse remaining.now)) }
{
    let inside = run_len(Run::InsideHeadedList, remaining);
    inside < remaining.len() && inside <= run_len(Run::InsideList, remaining)
}

// What becomes of an opener: an item needs a list.
#[tactic(auto, unfolding(crate::specs::Placements::opener_placement))]
#[inline(always)]
fn opener_placement<B>(opener: &Opener<&[u8]>, remaining: &[Scope<Label, B>]) -> Placement
    requires { length remaining.now ≤ SCOPES }
    ensures { result ≡ placements.opener_placement (opener_view opener.now) (labels (reverse remaining.now)) }
{
    match opener {
        Opener::Item if !in_list(remaining) => Placement::Refused(Obstacle::OutsideList),
        _ => opened(remaining, opener_label(opener)),
    }
}

// What becomes of what opens a line scope: a head (`It`) is one where the items of the list have heads.
#[tactic(auto, unfolding(crate::specs::Placements::line_placement))]
#[inline(always)]
fn line_placement<B>(opener: LineOpener, remaining: &[Scope<Label, B>]) -> Placement
    requires { length remaining.now ≤ SCOPES }
    ensures { result ≡ placements.line_placement opener (labels (reverse remaining.now)) }
{
    match opener {
        LineOpener::Head if !in_headed_list(remaining) => Placement::Nothing,
        _ => opened(remaining, Label::Line(opener)),
    }
}

// A closer that ended no scope is refused.
fn closed(obstacle: Obstacle, count: usize) -> Placement
    ensures { result ≡ placements.closed obstacle count }
{
    if count == 0 {
        Placement::Refused(obstacle)
    } else {
        Placement::Leaf
    }
}

// What becomes of a closer.
#[inline(never)]
fn closer_placement(closer: &Closer<&[u8]>, count: usize) -> Placement
    ensures { result ≡ placements.closer_placement (closer_view closer.now) count }
{
    match *closer {
        Closer::Line | Closer::Enclosures => Placement::Nothing,
        Closer::RelativeMargin(Some(_)) => closed(Obstacle::FewerMargins, count),
        _ => closed(Obstacle::NotOpen, count),
    }
}

// Whether the innermost scope is a line scope.
fn in_line_scope<B>(remaining: &[Scope<Label, B>]) -> bool
    requires { length remaining.now ≤ SCOPES }
    ensures { result ≡ placements.in_line_scope (labels (reverse remaining.now)) }
{
    match remaining.last() {
        Some(scope) => scope.label.is_line(),
        None => false,
    }
}

// Whether the innermost scope is an enclosure that ends with a line.
fn in_enclosure<B>(remaining: &[Scope<Label, B>]) -> bool
    requires { length remaining.now ≤ SCOPES }
    ensures { result ≡ placements_laws.in_enclosure (labels (reverse remaining.now)) }
{
    match remaining.last() {
        Some(scope) => scope.label.is_enclosure(),
        None => false,
    }
}

// Whether a line scope drops a request.
fn is_dropped(request: &RequestLeaf<&[u8]>) -> bool
    ensures { result ≡ placements.is_dropped (request_view request.now) }
{
    matches!(request, RequestLeaf::Break | RequestLeaf::Space(_))
}

// What becomes of an event that ended this many scopes and leaves these.
#[inline(always)]
fn kind_placement<B>(
    kind: &EventKind<&[u8]>,
    count: usize,
    remaining: &[Scope<Label, B>],
) -> Placement
    requires { length remaining.now ≤ SCOPES }
    ensures { result ≡ placements.kind_placement (kind_view kind.now) count (labels (reverse remaining.now)) }
{
    match kind {
        EventKind::Open(opener) => opener_placement(opener, remaining),
        EventKind::Close(closer) => closer_placement(closer, count),
        EventKind::LineScope(opener) => line_placement(*opener, remaining),
        EventKind::Leaf(Leaf::Request(request))
            if is_dropped(request) && in_line_scope(remaining) => Placement::Nothing,
        _ => Placement::Leaf,
    }
}

/// What becomes of an act that ended this many scopes and leaves these.
#[inline(always)]
pub(crate) fn placement_of<B>(
    act: &Act<&Event<&[u8]>>,
    count: usize,
    remaining: &[Scope<Label, B>],
) -> Placement
    requires { length remaining.now ≤ SCOPES }
    ensures { result ≡ placements.act_placement (act_view act.now) count (labels (reverse remaining.now)) }
{
    match act {
        Act::Event(event) => kind_placement(&event.kind, count, remaining),
        Act::PageEnd(_) => Placement::Leaf,
    }
}

// Whether an event ends no scope and opens none, and is a leaf: a word, and the end of a line where the innermost
// scope is no line scope.
#[inline(always)]
fn kind_stands_alone<B>(kind: &EventKind<&[u8]>, scopes: &[Scope<Label, B>]) -> bool
    requires { length scopes.now ≤ SCOPES }
    ensures { result ≡ stacks.kind_stands_alone (kind_view kind.now) (labels (reverse scopes.now)) }
{
    match kind {
        EventKind::Word(_) => true,
        EventKind::End { .. } => !in_line_scope(scopes),
        _ => false,
    }
}

/// Whether an act ends no scope and opens none, and is a leaf, as most acts of a page do.
#[inline(always)]
pub(crate) fn stands_alone<B>(act: &Act<&Event<&[u8]>>, scopes: &[Scope<Label, B>]) -> bool
    requires { length scopes.now ≤ SCOPES }
    ensures { result ≡ stacks.stands_alone (act_view act.now) (labels (reverse scopes.now)) }
{
    match act {
        Act::Event(event) => kind_stands_alone(&event.kind, scopes),
        Act::PageEnd(_) => false,
    }
}

// Whether an event does nothing: a break of line scopes where the innermost scope is none, and an end of enclosures alike.
#[inline(always)]
fn kind_is_idle<B>(kind: &EventKind<&[u8]>, scopes: &[Scope<Label, B>]) -> bool
    requires { length scopes.now ≤ SCOPES }
    ensures { result ≡ stacks.kind_is_idle (kind_view kind.now) (labels (reverse scopes.now)) }
{
    match kind {
        EventKind::Close(Closer::Line) => !in_line_scope(scopes),
        EventKind::Close(Closer::Enclosures) => !in_enclosure(scopes),
        _ => false,
    }
}

/// Whether an act does nothing, as most breaks of line scopes and most ends of enclosures do.
#[inline(always)]
pub(crate) fn is_idle<B>(act: &Act<&Event<&[u8]>>, scopes: &[Scope<Label, B>]) -> bool
    requires { length scopes.now ≤ SCOPES }
    ensures { result ≡ stacks.is_idle (act_view act.now) (labels (reverse scopes.now)) }
{
    match act {
        Act::Event(event) => kind_is_idle(&event.kind, scopes),
        Act::PageEnd(_) => false,
    }
}

// Whether an opener is of a paragraph, a list or an item.
fn opens_paragraph(opener: &Opener<&[u8]>) -> bool
    ensures { result ≡ placements.opens_paragraph (opener_view opener.now) }
{
    matches!(
        opener,
        Opener::Item
            | Opener::Block(BlockOpener::List { .. })
            | Opener::Paragraph(_)
            | Opener::Tagged(_)
            | Opener::Indented { .. }
            | Opener::Hanging(_)
    )
}

// Whether the rest of an opener's line is passed over.
#[tactic(auto, unfolding(crate::specs::Placements::opener_skips))]
fn opener_skips<B>(opener: &Opener<&[u8]>, remaining: &[Scope<Label, B>]) -> bool
    requires { length remaining.now ≤ SCOPES }
    ensures { result ≡ placements.opener_skips (opener_view opener.now) (labels (reverse remaining.now)) }
{
    match opener {
        Opener::Item if !in_list(remaining) => true,
        _ => opens_paragraph(opener) && !has_room(remaining),
    }
}

// Whether an opener is of a description or of a row that is alone.
fn opens_row(opener: LineOpener) -> bool
    ensures { result ≡ placements.opens_row opener }
{
    matches!(opener, LineOpener::Description | LineOpener::OneLine(_))
}

// Whether a closer of a link that ended none, after which the rest of its line is passed over.
fn closer_skips(closer: &Closer<&[u8]>, count: usize) -> bool
    ensures { result ≡ placements.closer_skips (closer_view closer.now) count }
{
    match closer {
        Closer::Target(_, _) => count == 0,
        _ => false,
    }
}

// Whether the rest of the line is passed over after an event that ended this many scopes.
#[inline(always)]
fn kind_skips<B>(
    skips: bool,
    kind: &EventKind<&[u8]>,
    count: usize,
    remaining: &[Scope<Label, B>],
) -> bool
    requires { length remaining.now ≤ SCOPES }
    ensures { result ≡ placements.kind_skips skips (kind_view kind.now) count (labels (reverse remaining.now)) }
{
    match kind {
        EventKind::End { .. } => false,
        EventKind::Open(opener) => skips || opener_skips(opener, remaining),
        EventKind::LineScope(opener) => skips || (opens_row(*opener) && !has_room(remaining)),
        EventKind::Close(closer) => closer_skips(closer, count) || skips,
        _ => skips,
    }
}

/// Whether the rest of the line is passed over after an act that ended this many scopes and leaves these.
#[inline(always)]
pub(crate) fn skips_after<B>(
    skips: bool,
    act: &Act<&Event<&[u8]>>,
    count: usize,
    remaining: &[Scope<Label, B>],
) -> bool
    requires { length remaining.now ≤ SCOPES }
    ensures { result ≡ placements.act_skips skips (act_view act.now) count (labels (reverse remaining.now)) }
{
    match act {
        Act::Event(event) => kind_skips(skips, &event.kind, count, remaining),
        Act::PageEnd(_) => skips,
    }
}

/// Whether an act is passed over.
#[inline(always)]
pub(crate) fn is_passed_over(skips: bool, act: &Act<&Event<&[u8]>>) -> bool
    ensures { result ≡ placements.is_passed_over skips (act_view act.now) }
{
    match act {
        Act::Event(event) => skips && !matches!(event.kind, EventKind::End { .. }),
        Act::PageEnd(_) => false,
    }
}
