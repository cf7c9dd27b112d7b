//! The texts that are being read.

ghost use Rattle.std.specs.Prelude.{◌≡◌, ℕ, ◌<◌, ◌≤◌, ◌+◌, ◌^◌, [], ◌∷◌, length, Some, None, MatchOption};
ghost use Rattle.page_roff_values.specs.machine.Rest.{texts_of, size, Reads};

use arrayvec::ArrayVec;
use page_core_base::NEST;
use page_roff_parts::{LoneWidths, Part, Unread};

/// What is left of the innermost text, and of those around it, the outermost first.
#[derive(Drop)]
pub(crate) struct Sources<'e> {
    pub(crate) inner: Unread<'e>,
    pub(crate) outer: ArrayVec<&'e [u8], NEST>,
}

impl<'e> Sources<'e> {
    /// A text alone.
    pub(crate) fn new(text: &'e [u8]) -> Sources<'e>
        ensures { texts_of result ≡ text.now ∷ [] }
    {
        Sources {
            inner: Unread::new(text),
            outer: ArrayVec::new(),
        }
    }

    /// The next part of the innermost text that isn't at its end. Parts that are copied come as one as far as they have at most `fits` bytes,
    /// for which there must be room.
    #[inline(always)]
    pub(crate) fn next(
        &mut self,
        copy: bool,
        fits: usize,
        lone_widths: &mut LoneWidths,
    ) -> Option<Part<&'e [u8]>>
        ensures reads { Reads copy fits (texts_of self.old) result (texts_of self.new) }
        ensures falls { MatchOption result ℕ (λ p. size (texts_of self.new) < size (texts_of self.old)) }
    {
        while self.inner.is_empty() {
            match self.outer.pop() {
                None => return None,
                Some(text) => self.inner = Unread::new(text),
            }
        }
        let front = self.inner.take_front(copy, fits);
        if !front.is_empty() {
            return Some(Part::Copied(front));
        }
        let lone = self.inner.take_lone(copy, fits, lone_widths);
        if !lone.is_empty() {
            return Some(Part::Copied(lone));
        }
        Some(self.inner.next(copy))
    }

    /// How many texts are around the innermost.
    pub(crate) fn depth(&self) -> usize
        ensures value { result + 1 ≡ length (texts_of self.now) }
        ensures fits { result ≤ NEST }
    {
        self.outer.len()
    }

    /// A value is read before the rest.
    pub(crate) fn enter(&mut self, value: &'e [u8])
        requires { length (texts_of self.old) < NEST + 1 }
        ensures texts { texts_of self.new ≡ value.now ∷ texts_of self.old }
        ensures fits { length value.now < 2 ^ 64 }
    {
        self.outer.push(self.inner.text());
        self.inner = Unread::new(value);
    }
}
