//! The layout of man(7) and mdoc(7).

ghost use Rattle.std.specs.Prelude.{◌≡◌, ◌<◌, ◌∷◌, reverse, vec_capacity, vec_len};
ghost use Rattle.page_roff_syntax.specs.laws.Views.{argument_view};
ghost use Rattle.page_scopes.specs.Bodies.{start};
ghost use Rattle.page_scopes_phrases.specs.Names.{kept_of};
ghost use Rattle.page_scopes_tree.specs.machine.Stacks.{Keeps};

use crate::bodies::{give_coming, give_standing};
use page_core_base::{PieceOut, Place};
use page_roff_syntax::Argument;
use page_scopes_labels::Label;
use page_scopes_layout::Context;
use page_scopes_nodes::{PageLayout, give_begun, give_ended};
use page_scopes_phrases::{Formatting, KeptText, ManualName};
use page_scopes_tree::{Act, Renderer, Scope};
use page_sets_lines::{Event, EventKind, Opener};

/// What scopes and other events are laid out by.
#[derive(Drop)]
pub struct LayoutState {
    pub page: PageLayout,
    /// What the page is formatted by.
    pub formatting: Formatting,
    /// The body of the page has begun.
    pub has_begun: bool,
    /// The name of the manual, which `Nm` gives.
    pub name: Option<ManualName>,
}

/// What a scope keeps: the context before it, and the target of a link.
#[derive(Drop)]
pub struct Kept {
    pub context: Context,
    pub target: Option<KeptText>,
}

// The same text, if there is one.
fn text_copy(text: &Option<KeptText>) -> Option<KeptText>
    ensures { result ≡ text.now }
{
    match text {
        Some(text) => Some(text.copy()),
        None => None,
    }
}

// The same name, if there is one.
fn name_copy(name: &Option<ManualName>) -> Option<ManualName>
    ensures { result ≡ name.now }
{
    match name {
        Some(name) => Some(name.copy()),
        None => None,
    }
}

impl Kept {
    // A copy.
    fn copy(&self) -> Kept
        ensures { result ≡ self.now }
    {
        Kept {
            context: self.context,
            target: text_copy(&self.target),
        }
    }
}

impl LayoutState {
    /// This state on a page of another layout.
    pub fn copy(&self, page: PageLayout) -> LayoutState
        ensures { result ≡ record self.now { page = page } }
    {
        LayoutState {
            page,
            formatting: self.formatting,
            has_begun: self.has_begun,
            name: name_copy(&self.name),
        }
    }

    /// The state before a page's first line.
    pub fn start(page: PageLayout) -> LayoutState
        ensures { result ≡ start page }
    {
        LayoutState {
            page,
            formatting: Formatting::start(page.indent),
            has_begun: false,
            name: None,
        }
    }

    // Puts the scope of a link on the open ones. It is apart, so that the others are put there without the room of a target.
    #[inline(never)]
    fn keep_link(&self, label: Label, target: Argument<&[u8]>, scopes: &mut Vec<Scope<Label, Kept>>)
        requires { vec_len scopes.old < vec_capacity scopes.old }
        ensures { Keeps scopes.old scopes.new
            (record { label = label; before = record { context = self.now.formatting.context; target = Some (kept_of (argument_view target.entry)) } }
            ∷ reverse scopes.old.items) }
    {
        scopes.push_reserved(Scope {
            label,
            before: Kept {
                context: self.formatting.context,
                target: Some(KeptText::of(target)),
            },
        });
    }
}

impl Renderer for LayoutState {
    ghost use Rattle.page_scopes.specs.laws.Views.{layout_tables};
    ghost use Rattle.page_sets_lines.specs.laws.Views.{KindFits};

    type Kept = Kept;

    ghost tables = { layout_tables };

    ghost Takes = { λ event. KindFits event.kind };

    fn copy_kept(kept: &Kept) -> Kept {
        kept.copy()
    }

    #[inline(always)]
    fn keep(&self, label: Label, event: &Event<&[u8]>, scopes: &mut Vec<Scope<Label, Kept>>) {
        match event.kind {
            EventKind::Open(Opener::Target(_, target)) => self.keep_link(label, target, scopes),
            _ => scopes.push_reserved(Scope {
                label,
                before: Kept {
                    context: self.formatting.context,
                    target: None,
                },
            }),
        }
    }

    fn begin<O: PieceOut>(&mut self, _label: Label, event: &Event<&[u8]>, out: &mut O) {
        give_begun(out, &self.page, event, &mut self.formatting);
    }

    #[inline(always)]
    fn come<O: PieceOut>(&mut self, event: &Event<&[u8]>, out: &mut O) {
        give_coming(
            out,
            event.place,
            &event.kind,
            &self.formatting.context,
            &mut self.has_begun,
        );
    }

    #[inline(always)]
    fn leaf<O: PieceOut>(&mut self, act: &Act<&Event<&[u8]>>, out: &mut O) {
        give_standing(
            out,
            self.page.output,
            act,
            &mut self.name,
            self.has_begun,
            &mut self.formatting,
        );
    }

    fn end<O: PieceOut>(&mut self, label: Label, before: &Kept, place: Place, out: &mut O) {
        give_ended(
            out,
            label,
            &before.context,
            &before.target,
            place,
            &mut self.formatting,
        );
    }
}
