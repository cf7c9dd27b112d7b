//! The turns of a loop, as places in its text.

ghost use Rattle.std.specs.Prelude.{◌≡◌, ◌-◌, true};

use crate::spans::Span;

/// The turns of a loop.
#[derive(Clone, Copy)]
pub(crate) struct Turns {
    /// Its condition, and all lines of its body.
    pub(crate) condition: Span,
    pub(crate) lines: Span,
    /// How many turns may still come.
    pub(crate) left: usize,
    /// Whether one has come.
    pub(crate) begun: bool,
}

impl Turns {
    /// One of them begins.
    pub(crate) fn begin(self) -> Turns
        ensures { result ≡ record self { left = self.left - 1; begun = true } }
    {
        Turns {
            left: self.left.saturating_sub(1),
            begun: true,
            ..self
        }
    }
}
