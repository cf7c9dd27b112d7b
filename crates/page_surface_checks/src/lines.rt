//! The logical lines of a page, cut by hand.

ghost use Rattle.std.specs.Prelude.{◌≡◌, ◌+◌, ◌^◌, ◌<◌, length, false, true, OnOk};

use crate::sinks::{Kept, Notes};
use page_core::{Encoding, Fault};
use page_roff::{Counts, Cutter};
use std::alloc::Global;

/// The bytes of a page at most.
const BYTES: usize = 1_000_000;

/// A page that takes lines one by one, and then its end, and keeps what comes of them.
///
/// The tests are written over this trait: so the states of the layers, which are large, are in the proofs of these few methods alone.
pub(crate) trait FedPage {
    /// A line comes, of a number.
    fn line(&mut self, text: &[u8], number: u32) -> Result<(), Fault>;

    /// Its layers go on from what they hold between two lines, in memory of its own.
    fn cut(&mut self) -> Result<(), Fault>;

    /// No more lines come.
    fn end(&mut self) -> Result<(), Fault>;

    /// The rows and messages so far.
    fn kept(&self) -> &Kept;

    /// What is counted.
    fn counts(&self) -> Counts;

    /// How many scopes are open, and how many cells the open row has, of a page that has these to show.
    fn open(&self) -> (usize, usize);
}

// Feeds the line that is whole.
fn feed_line<F: FedPage>(cutter: &mut Cutter, notes: &mut Notes, feed: &mut F) -> Result<(), Fault>
    requires { cutter.old.ready ≡ true }
    ensures ready { OnOk result (cutter.new.ready ≡ false) }
    ensures point { OnOk result (cutter.new.point ≡ cutter.old.point) }
{
    let (text, number) = cutter.line(notes)?;
    feed.line(text, number)
}

// Feeds all lines of a page, and its end.
fn feed_all<F: FedPage>(
    cutter: &mut Cutter,
    page: &[u8],
    notes: &mut Notes,
    feed: &mut F,
) -> Result<(), Fault>
    requires ready { cutter.old.ready ≡ false }
    requires consumed { cutter.old.point.line.consumed + length page.now < 2 ^ 31 }
{
    let mut at = 0;
    'parts: for _ in 0..page.len() {
        if at < page.len() {
            let (consumed, whole) = cutter.feed(&page[at..]);
            at += consumed;
            if whole {
                feed_line(cutter, notes, feed)?;
            }
        }
    }
    if cutter.end() {
        feed_line(cutter, notes, feed)?;
    }
    feed.end()
}

/// Cuts a page, and feeds its lines and its end. The messages of the cutting come apart.
pub(crate) fn cut<F: FedPage>(
    alloc: Global,
    encoding: Encoding,
    page: &[u8],
    notes: &mut Notes,
    feed: &mut F,
) -> Result<(), Fault> {
    if page.len() > BYTES {
        return Err(Fault::TooLong);
    }
    let mut cutter = Cutter::new(alloc, encoding)?;
    feed_all(&mut cutter, page, notes, feed)
}
