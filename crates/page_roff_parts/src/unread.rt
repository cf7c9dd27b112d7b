//! What is left of a text.

ghost use Rattle.std.specs.Prelude.{◌≡◌, ◌==◌, ◌<◌, ◌≤◌, length, take, drop};
ghost use Rattle.page_roff_parts.specs.machine.Verbatim.{IsFront, part_of};
ghost use Rattle.page_roff_parts.specs.Parts as reading;

use crate::endings::after;
use crate::fronts::front_len;
use crate::lone_widths::LoneWidths;
use crate::parts::{Part, read};
use std::marker::Model;

/// What is left of a text, and whether it is known that no bracket closes in it: then no name that lacks its bracket costs a search up to the
/// end. Contracts see what is left.
#[derive(Drop)]
pub struct Unread<'e> {
    text: &'e [u8],
    is_unclosed: bool,
}

impl<'e> Model for Unread<'e> {
    ghost use Rattle.std.specs.Prelude.{ℕ, List};
    ghost use Rattle.page_roff_parts.specs.machine.Verbatim.{IsKnown};

    ghost Value = { List ℕ };

    ghost view = { λ u. u.text.now };

    ghost invariant = { λ u. IsKnown u.is_unclosed u.text.now };
}

impl<'e> Unread<'e> {
    /// A text of which nothing is read.
    pub fn new(text: &'e [u8]) -> Unread<'e>
        ensures { result ≡ text.now }
    {
        Unread {
            text,
            is_unclosed: false,
        }
    }

    /// What is left.
    pub fn text(&self) -> &'e [u8]
        ensures { result.now ≡ self.now }
    {
        self.text
    }

    /// Whether nothing is left.
    #[inline(always)]
    pub fn is_empty(&self) -> bool
        ensures { result ≡ (length self.now == 0) }
    {
        self.text.is_empty()
    }

    /// Takes the bytes of the front that are copied as they are, up to this many.
    #[inline(always)]
    pub fn take_front(&mut self, copy: bool, fits: usize) -> &'e [u8]
        ensures value { result.now ≡ take (length result.now) self.old }
        ensures rest { self.new ≡ drop (length result.now) self.old }
        ensures front { IsFront copy (length result.now) self.old }
        ensures within { length result.now ≤ length self.old }
        ensures fits { length result.now ≤ fits }
    {
        let len = front_len(self.text, copy, self.is_unclosed, fits);
        let front = &self.text[..len];
        self.text = after(self.text, len);
        front
    }

    /// Takes the bytes of the front that are copied as they are, up to this many, where a width without its end is there and some such widths
    /// were searched for.
    pub fn take_lone(&mut self, copy: bool, fits: usize, lone_widths: &mut LoneWidths) -> &'e [u8]
        ensures value { result.now ≡ take (length result.now) self.old }
        ensures rest { self.new ≡ drop (length result.now) self.old }
        ensures front { IsFront copy (length result.now) self.old }
        ensures within { length result.now ≤ length self.old }
        ensures fits { length result.now ≤ fits }
    {
        let len = lone_widths.front_len(self.text, copy, fits);
        let front = &self.text[..len];
        self.text = after(self.text, len);
        front
    }

    /// Reads the next part.
    pub fn next(&mut self, copy: bool) -> Part<&'e [u8]>
        requires { 0 < length self.old }
        ensures { record { part = part_of result; rest = self.new }
            ≡ reading.seen copy self.old }
    {
        let mut is_unclosed = self.is_unclosed;
        let seen = read(self.text, copy, &mut is_unclosed);
        self.text = seen.rest;
        self.is_unclosed = is_unclosed;
        seen.part
    }
}
