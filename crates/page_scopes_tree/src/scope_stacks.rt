//! The open scopes of a page (man(7)).

ghost use Rattle.std.specs.Prelude.{◌≡◌, ◌≤◌, [], ◌∷◌, length, false, IfOk, vec_capacity};
ghost use Rattle.page_core_base.specs.laws.Views.{Came};
ghost use Rattle.page_scopes_tree.specs.laws.Edges.{events_edge, events_items, page_end_edge, page_end_items};
ghost use Rattle.page_sets_lines.specs.laws.Events.{event_view};

use crate::stacks::{take_act, take_coming};
use crate::{Act, Renderer, Scope};
use page_core_base::{PieceOut, SCOPES};
use page_scopes_labels::Label;
use page_sets_lines::Event;
use std::alloc::{AllocError, Global};
use std::marker::Model;

/// The open scopes of a page, with the state of its layout. Its room is reserved when it is made.
#[derive(Drop)]
pub struct ScopeStack<Y: Renderer> {
    scopes: Vec<Scope<Label, Y::Kept>>,
    skips: bool,
    state: Y,
}

impl<Y: Renderer> Model for ScopeStack<Y> {
    ghost use Rattle.std.specs.Prelude.{◌≤◌, vec_capacity, vec_len};
    ghost use Rattle.page_scopes_tree.specs.Placements.{ScopesEdge};
    ghost use Rattle.page_scopes_tree.specs.machine.Stacks.{stack_edge};
    ghost use Rattle.page_core_base.specs.declared.limits.TheConstants.{SCOPES};

    ghost Value = { ScopesEdge Y Y.Kept };

    ghost view = { λ s. stack_edge s.skips s.scopes s.state };

    ghost invariant = { λ s. (vec_len s.scopes ≤ SCOPES) × (SCOPES ≤ vec_capacity s.scopes) };
}

// The same scopes, the outermost first, with room for as many as may be open.
fn copy_scopes<Y: Renderer>(
    alloc: Global,
    scopes: &[Scope<Label, Y::Kept>],
) -> Result<Vec<Scope<Label, Y::Kept>>, AllocError>
    requires { length scopes.now ≤ SCOPES }
    ensures items { IfOk result (λ copy. copy.items ≡ scopes.now) }
    ensures room { IfOk result (λ copy. SCOPES ≤ vec_capacity copy) }
{
    let mut copy = Vec::with_capacity(alloc, SCOPES)?;
    for scope in scopes {
        copy.push_reserved(Scope {
            label: scope.label,
            before: Y::copy_kept(&scope.before),
        });
    }
    Ok(copy)
}

impl<Y: Renderer> ScopeStack<Y> {
    /// The same open scopes, with this state of the layout.
    pub fn copy(&self, alloc: Global, state: Y) -> Result<ScopeStack<Y>, AllocError>
        ensures { IfOk result (λ stack. stack ≡ record { mode = self.now.mode; scopes = self.now.scopes; state = state }) }
    {
        let scopes = copy_scopes::<Y>(alloc, self.scopes.as_slice())?;
        Ok(ScopeStack {
            scopes,
            skips: self.skips,
            state,
        })
    }

    /// No scope is open.
    pub fn new(alloc: Global, state: Y) -> Result<ScopeStack<Y>, AllocError>
        ensures { IfOk result (λ stack. stack ≡ record { mode = false; scopes = []; state = state }) }
    {
        Ok(ScopeStack {
            scopes: Vec::with_capacity(alloc, SCOPES)?,
            skips: false,
            state,
        })
    }

    /// All is as before a page's first event, at this state of the layout: no scope is open.
    pub fn restart(&mut self, state: Y)
        ensures { self.new ≡ record { mode = false; scopes = []; state = state } }
    {
        self.scopes.clear();
        self.skips = false;
        self.state = state;
    }

    /// The number of open scopes.
    pub fn depth(&self) -> usize
        ensures is { result ≡ length self.now.scopes }
        ensures within { result ≤ SCOPES }
    {
        self.scopes.len()
    }

    /// The state of the layout.
    pub fn state(&self) -> &Y
        ensures { result.now ≡ self.now.state }
    {
        &self.state
    }

    /// Whether the rest of the line is passed over.
    pub fn skips(&self) -> bool
        ensures { result ≡ self.now.mode }
    {
        self.skips
    }

    /// Takes an event, and gives what it settles.
    #[inline(always)]
    pub fn apply<O: PieceOut>(&mut self, event: &Event<&[u8]>, out: &mut O)
        requires { Y.Takes (event_view event.now) }
        ensures came { Came O.left out.old
            (events_items Y.tables self.old (event_view event.now ∷ [])) out.new }
        ensures edge { self.new ≡ events_edge Y.tables self.old (event_view event.now ∷ []) }
    {
        take_coming(
            self.scopes.as_slice(),
            self.skips,
            &mut self.state,
            event,
            out,
        );
        take_act(
            &mut self.scopes,
            &mut self.skips,
            &mut self.state,
            &Act::Event(event),
            out,
        );
    }

    /// Ends the page on the line of a number, and gives what that settles.
    pub fn finish<O: PieceOut>(&mut self, line: u32, out: &mut O)
        ensures came { Came O.left out.old (page_end_items Y.tables self.old line) out.new }
        ensures edge { self.new ≡ page_end_edge Y.tables self.old line }
    {
        take_act(
            &mut self.scopes,
            &mut self.skips,
            &mut self.state,
            &Act::PageEnd(line),
            out,
        );
    }
}
