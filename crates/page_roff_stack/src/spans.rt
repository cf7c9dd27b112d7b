//! Spans of a text.

ghost use Rattle.std.specs.Prelude.{◌≡◌};
ghost use Rattle.page_roff_stack.specs.machine.Stacks.{span_text, IsSpanIn};

/// Where a piece of a text begins, and where it ends.
#[derive(Clone, Copy)]
pub(crate) struct Span {
    pub(crate) start: usize,
    pub(crate) end: usize,
}

/// Nothing of a text.
pub(crate) const NOWHERE: Span = Span { start: 0, end: 0 };

impl Span {
    /// The piece of the text.
    pub(crate) fn of(self, text: &[u8]) -> &[u8]
        requires { IsSpanIn self text.now }
        ensures { result.now ≡ span_text self text.now }
    {
        &text[self.start..self.end]
    }
}
