//! The open scopes of a page, laid out into a latch (man(7), mdoc(7)).

ghost use Rattle.std.specs.Prelude.{◌≡◌, ◌≤◌, IfOk, length};
ghost use Rattle.page_core_base.specs.laws.Views.{Came};
ghost use Rattle.page_scopes.specs.laws.Views.{ScopesFit, begins_body, end_after, end_items, event_after, event_items, under};
ghost use Rattle.page_scopes.specs.Bodies.{start_edge};
ghost use Rattle.page_sets_lines.specs.laws.Views.{KindFits};
ghost use Rattle.page_sets_lines.specs.laws.Events.{kind_view, event_view};

use crate::LayoutState;
use crate::bodies::begins;
use page_core_base::{PieceOut, SCOPES};
use page_scopes_nodes::PageLayout;
use page_scopes_tree::ScopeStack;
use page_sets_lines::Event;
use std::alloc::{AllocError, Global};
use std::marker::Model;

/// The open scopes of a page, laid out. What they are given to never fails.
#[derive(Drop)]
pub struct OpenScopes {
    stack: ScopeStack<LayoutState>,
}

impl Model for OpenScopes {
    ghost use Rattle.page_scopes.specs.Bodies.{PageEdge};

    ghost Value = { PageEdge };

    ghost view = { λ s. s.stack };
}

impl OpenScopes {
    /// The scopes of a page before its first line: none is open.
    pub fn new(alloc: Global, page: PageLayout) -> Result<OpenScopes, AllocError>
        ensures { IfOk result (λ scopes. scopes ≡ start_edge page) }
    {
        Ok(OpenScopes {
            stack: ScopeStack::new(alloc, LayoutState::start(page))?,
        })
    }

    /// These scopes on a page of another layout. All memory is reserved here.
    pub fn copy(&self, alloc: Global, page: PageLayout) -> Result<OpenScopes, AllocError>
        ensures { IfOk result (λ scopes. scopes ≡ under page self.now) }
    {
        let state = self.stack.state().copy(page);
        let stack = self.stack.copy(alloc, state)?;
        Ok(OpenScopes { stack })
    }

    /// All is as before a page's first line, for this layout: no scope is open.
    pub fn restart(&mut self, page: PageLayout)
        ensures { self.new ≡ start_edge page }
    {
        self.stack.restart(LayoutState::start(page));
    }

    /// What of the page's settings it is laid out by.
    pub fn page(&self) -> PageLayout
        ensures { result ≡ self.now.state.page }
    {
        self.stack.state().page
    }

    /// The number of open scopes.
    pub fn depth(&self) -> usize
        ensures is { result ≡ length self.now.scopes }
        ensures within { result ≤ SCOPES }
    {
        self.stack.depth()
    }

    /// Whether the body of the page has begun.
    pub fn has_begun(&self) -> bool
        ensures { result ≡ self.now.state.has_begun }
    {
        self.stack.state().has_begun
    }

    /// Whether an event begins the body of the page.
    #[inline(always)]
    pub fn begins_body(&self, event: &Event<&[u8]>) -> bool
        ensures { result ≡ begins_body self.now (event_view event.now) }
    {
        !self.stack.skips() && begins(&event.kind, self.stack.state().has_begun)
    }

    /// Takes an event of a line, and gives what it settles.
    #[inline(always)]
    pub fn give_event<O: PieceOut>(&mut self, event: &Event<&[u8]>, out: &mut O)
        requires { KindFits (kind_view event.now.kind) }
        ensures came { Came O.left out.old (event_items self.old (event_view event.now)) out.new }
        ensures edge { self.new ≡ event_after self.old (event_view event.now) }
    {
        self.stack.apply(event, out);
    }

    /// Ends the page on the line of a number: all scopes end, and the row.
    pub fn give_end<O: PieceOut>(&mut self, line: u32, out: &mut O)
        ensures came { Came O.left out.old (end_items self.old line) out.new }
        ensures edge { self.new ≡ end_after self.old line }
    {
        self.stack.finish(line, out);
    }

    /// What is held of the scopes between two lines is within its limits. Nothing is done: what is kept has its limit by itself.
    pub fn caps_law(&self)
        ensures { ScopesFit self.now }
    {
        self.depth();
    }
}
