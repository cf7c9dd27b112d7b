//! How many of the open scopes an event ends (man(7)). Open scopes are in a list with the outermost first.

ghost use Rattle.std.specs.Prelude.{◌≡◌, ◌≤◌, ◌<◌, length, reverse};
ghost use Rattle.page_scopes_tree.specs.laws.Views.{labels, act_view};
ghost use Rattle.page_scopes_tree.specs.Ends as ends;
ghost use Rattle.page_sets_lines.specs.laws.Events.{closer_view, kind_view, opener_view, text_view};
ghost use Rattle.page_scopes_labels.specs.Labels.{is_item, is_list};

use crate::numbers::basic_number;
use crate::runs::{Run, run_len};
use crate::{Act, Scope};
use page_core_base::SCOPES;
use page_scopes_labels::{Explicit, Label};
use page_sets_lines::{Closer, Event, EventKind, Leaf, Opener};

// All scopes up to one that was found and with it, and none where it does not come before an end.
fn up_to(found: usize, end: usize) -> usize
    requires { end ≤ SCOPES }
    ensures { result ≡ ends.up_to found end }
{
    if found < end { found + 1 } else { 0 }
}

// Up to the open paragraph (`PP LP P TP IP HP`) of the same relative margin or section.
fn up_to_paragraph<B>(scopes: &[Scope<Label, B>]) -> usize
    requires { length scopes.now ≤ SCOPES }
    ensures { result ≡ ends.up_to_paragraph (labels (reverse scopes.now)) }
{
    up_to(
        run_len(Run::InsideParagraph, scopes),
        run_len(Run::InsideLevel, scopes),
    )
}

// Up to the open item (`It`) of the innermost list.
fn up_to_item<B>(scopes: &[Scope<Label, B>]) -> usize
    requires { length scopes.now ≤ SCOPES }
    ensures { result ≡ ends.up_to (ends.inside is_item (labels (reverse scopes.now))) (ends.inside is_list (labels (reverse scopes.now))) }
{
    up_to(
        run_len(Run::InsideItem, scopes),
        run_len(Run::InsideList, scopes),
    )
}

// Up to the innermost scope of a closer.
fn up_to_explicit<B>(explicit: Explicit, scopes: &[Scope<Label, B>]) -> usize
    requires { length scopes.now ≤ SCOPES }
    ensures { result ≡ ends.up_to_explicit explicit (labels (reverse scopes.now)) }
{
    up_to(run_len(Run::InsideExplicit(explicit), scopes), scopes.len())
}

// Where the relative margin of a number is, from the outside.
fn find_margin_of<B>(number: usize, scopes: &[Scope<Label, B>]) -> Option<usize>
    requires some { 0 < number }
    requires few { length scopes.now ≤ SCOPES }
    ensures { result ≡ ends.place_of_margin number (labels scopes.now) }
{
    let mut more = number;
    for (outside, scope) in scopes.iter().enumerate() {
        if scope.label.is_margin() {
            if more == 1 {
                return Some(outside);
            }
            more -= 1;
        }
    }
    None
}

// Up to the relative margin of a number, which `RE` names.
fn up_to_margin<B>(number: i32, scopes: &[Scope<Label, B>]) -> usize
    requires { length scopes.now ≤ SCOPES }
    ensures { result ≡ ends.up_to_margin number (labels (reverse scopes.now)) }
{
    if number < 1 {
        return 0;
    }
    match find_margin_of(number as usize, scopes) {
        Some(outside) => scopes.len().saturating_sub(outside),
        None => 0,
    }
}

// What `RE` ends.
fn margin_ends<B>(number: Option<&[u8]>, scopes: &[Scope<Label, B>]) -> usize
    requires { length scopes.now ≤ SCOPES }
    ensures { result ≡ ends.closer_ends (Closer.RelativeMargin (text_view number.entry)) (labels (reverse scopes.now)) }
{
    match number {
        None => up_to_explicit(Explicit::RelativeMargin, scopes),
        Some(number) => up_to_margin(basic_number(number), scopes),
    }
}

// What an opener ends: `SH` and `Sh` all, `SS` and `Ss` all inside the section, a paragraph (`PP LP P TP IP HP`), an item (`It`) and
// a synopsis (`SY`) the one before it.
#[inline(never)]
fn opener_ends<B>(opener: &Opener<&[u8]>, scopes: &[Scope<Label, B>]) -> usize
    requires { length scopes.now ≤ SCOPES }
    ensures { result ≡ ends.opener_ends (opener_view opener.now) (labels (reverse scopes.now)) }
{
    match opener {
        Opener::Item => up_to_item(scopes),
        Opener::Section => scopes.len(),
        Opener::Subsection => run_len(Run::InsideSection, scopes),
        Opener::Paragraph(_) | Opener::Tagged(_) | Opener::Indented { .. } | Opener::Hanging(_) => {
            up_to_paragraph(scopes)
        }
        Opener::RelativeMargin(_) | Opener::Target(_, _) | Opener::Block(_) => 0,
        Opener::Syntax(_) => up_to_explicit(Explicit::Syntax, scopes),
    }
}

// What a closer ends: `RE`, `UE`, `ME`, `YS`, a macro that breaks line scopes, the last delimiters of a line, or `Ac` to `Xc`.
#[inline(never)]
fn closer_ends<B>(closer: &Closer<&[u8]>, scopes: &[Scope<Label, B>]) -> usize
    requires { length scopes.now ≤ SCOPES }
    ensures { result ≡ ends.closer_ends (closer_view closer.now) (labels (reverse scopes.now)) }
{
    match closer {
        Closer::Line => run_len(Run::Lines, scopes),
        Closer::RelativeMargin(number) => margin_ends(*number, scopes),
        Closer::Target(link, _) => up_to_explicit(Explicit::Target(*link), scopes),
        Closer::Syntax => up_to_explicit(Explicit::Syntax, scopes),
        Closer::Enclosures => run_len(Run::Enclosures, scopes),
        Closer::Block(closer) => up_to_explicit(Explicit::Block(closer.block()), scopes),
    }
}

// What an event ends.
#[inline(always)]
fn kind_ends<B>(kind: &EventKind<&[u8]>, scopes: &[Scope<Label, B>]) -> usize
    requires { length scopes.now ≤ SCOPES }
    ensures { result ≡ ends.kind_ends (kind_view kind.now) (labels (reverse scopes.now)) }
{
    match kind {
        EventKind::Open(opener) => opener_ends(opener, scopes),
        EventKind::Close(closer) => closer_ends(closer, scopes),
        EventKind::Leaf(Leaf::BlankLine) | EventKind::Raw(_) | EventKind::End { fills: true } => {
            run_len(Run::Lines, scopes)
        }
        _ => 0,
    }
}

/// How many of the innermost scopes an act ends.
#[inline(always)]
pub(crate) fn count_ended<B>(act: &Act<&Event<&[u8]>>, scopes: &[Scope<Label, B>]) -> usize
    requires { length scopes.now ≤ SCOPES }
    ensures { result ≡ ends.act_ends (act_view act.now) (labels (reverse scopes.now)) }
{
    match act {
        Act::Event(event) => kind_ends(&event.kind, scopes),
        Act::PageEnd(_) => scopes.len(),
    }
}
