//! The bytes at a text's front that are copied, where widths without their ends are among them (roff(7), `\w`).
//!
//! That a width has no end is seen by a search up to the text's end, and a text of nothing but such widths would be searched for each of them.
//! After some searches in vain a text is read once from its end to its front, which tells of each of its places how many bytes are copied from
//! there on. This is remembered, since a line may read a value many times.

ghost use Rattle.std.specs.Prelude.{◌≤◌, length, false};
ghost use Rattle.page_roff_parts.specs.machine.Verbatim.{IsFront};

use crate::endings::after;
use crate::known_fronts::KnownFronts;
use page_roff_syntax::width_len;
use std::alloc::{AllocError, Global};

// How many searches in vain are made in a line, before texts are read from their ends.
const SEARCHES: u32 = 8;

// The bytes of a text for which that is worth it.
const LONG: usize = 256;

/// What is known of widths without their ends: the fronts of texts.
#[derive(Drop)]
pub struct LoneWidths {
    known: KnownFronts,
    // The searches in vain that the line made.
    searches: u32,
    // Whether the line ends in the text that is read, as there is no room for what is copied.
    is_ending: bool,
}

impl LoneWidths {
    /// Nothing is known. All memory is reserved here.
    pub fn new(alloc: Global) -> Result<LoneWidths, AllocError> {
        Ok(LoneWidths {
            known: KnownFronts::new(alloc)?,
            searches: 0,
            is_ending: false,
        })
    }

    /// A line begins.
    pub fn begin(&mut self) {
        self.searches = 0;
        self.is_ending = false;
    }

    // How many bytes at the front of a text are copied, where a width is there. Where it has an end, or few were searched in vain, none is
    // known of.
    fn width_front(&mut self, text: &[u8]) -> usize
        requires { 2 ≤ length text.now }
        ensures front { IsFront false result text.now }
        ensures within { result ≤ length text.now }
    {
        if let Some(front) = self.known.find(text) {
            return front;
        }
        if 0 < width_len(after(text, 2)) {
            return 0;
        }
        if self.searches < SEARCHES {
            self.searches += 1;
            return 0;
        }
        self.known.add(text).unwrap_or(0)
    }

    /// How many bytes at the front of a long text are copied, where a width is there, if they are no more than these. In copy mode there is
    /// none. A width with a backslash behind it has no end, and is not searched for.
    pub(crate) fn front_len(&mut self, text: &[u8], copy: bool, fits: usize) -> usize
        ensures front { IsFront copy result text.now }
        ensures within { result ≤ length text.now }
        ensures fits { result ≤ fits }
    {
        if copy || self.is_ending || text.len() < LONG {
            return 0;
        }
        if text[0] != b'\\' || text[1] != b'w' || text[2] == b'\\' {
            return 0;
        }
        let front = self.width_front(text);
        if fits < front {
            self.is_ending = true;
            return 0;
        }
        front
    }
}
