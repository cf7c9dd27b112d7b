//! The logical lines of a page, one by one, and what takes them.

ghost use Rattle.std.specs.Prelude.{◌≡◌, ◌+◌, ◌^◌, ◌<◌, length, false, true, OnOk, IfOk};
ghost use Rattle.page_core_base.specs.Texts.{IsLine};

use crate::cuts::Lack;
use page_core::{Encoding, Fault, KeptNotes};
use page_engine::Outcome;
use page_roff::Cutter;
use std::alloc::Global;

/// The bytes of a page at most.
pub const BYTES: usize = 1_000_000;

// The messages of cutting that there is memory for.
const NOTES: usize = 16;

/// The name of the file in messages.
pub const FILE: &str = "x.1";

/// What takes the lines of a page one by one, and its end.
pub trait Feed {
    /// A line comes, of a number.
    fn line(&mut self, text: &[u8], number: u32) -> Result<(), Fault>
        requires { IsLine text.now };

    /// No more lines come.
    fn end(&mut self) -> Result<(), Fault>;

    /// What came of the lines.
    fn outcome(&self) -> Outcome;

    /// The fault of a further line and of a further end, where both have the same and nothing is written.
    fn later(&mut self) -> Option<Fault>;

    /// What memory lacked for at a cut, if for anything.
    fn lack(&self) -> Option<Lack>;
}

/// Cuts the bytes of a page into lines, with the messages of the cutting.
#[derive(Drop)]
pub struct Lines {
    pub cutter: Cutter,
    cuts: KeptNotes,
}

impl Lines {
    /// Before the first byte.
    pub fn new(alloc: Global, encoding: Encoding) -> Result<Lines, Fault>
        ensures ready { IfOk result (λ lines. lines.cutter.ready ≡ false) }
        ensures consumed { IfOk result (λ lines. lines.cutter.point.line.consumed ≡ 0) }
    {
        let cutter = Cutter::new(alloc, encoding)?;
        let mut cuts = KeptNotes::new(alloc);
        match Vec::with_capacity(alloc, NOTES) {
            Ok(notes) => cuts.notes = notes,
            Err(_) => return Err(Fault::Memory),
        }
        Ok(Lines { cutter, cuts })
    }

    /// Whether nothing is reported of how the lines are cut.
    pub fn are_plain(&self) -> bool {
        self.cuts.notes.is_empty()
    }

    // Feeds the line that waits.
    fn feed_line<F: Feed>(&mut self, feed: &mut F) -> Result<(), Fault>
        requires { self.old.cutter.ready ≡ true }
        ensures ready { OnOk result (self.new.cutter.ready ≡ false) }
        ensures point { OnOk result (self.new.cutter.point ≡ self.old.cutter.point) }
    {
        let (text, number) = self.cutter.line(&mut self.cuts)?;
        feed.line(text, number)
    }

    /// Feeds all lines, and the end.
    pub fn feed_all<F: Feed>(&mut self, feed: &mut F, bytes: &[u8]) -> Result<(), Fault>
        requires ready { self.old.cutter.ready ≡ false }
        requires consumed { self.old.cutter.point.line.consumed + length bytes.now < 2 ^ 31 }
    {
        let mut at = 0;
        'parts: for _ in 0..bytes.len() {
            if at < bytes.len() {
                let (consumed, whole) = self.cutter.feed(&bytes[at..]);
                at += consumed;
                if whole {
                    self.feed_line(feed)?;
                }
            }
        }
        if self.cutter.end() {
            self.feed_line(feed)?;
        }
        feed.end()
    }
}
