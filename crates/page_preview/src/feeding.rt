//! The lines of a page, through roff and the macros to a sink of pieces.

ghost use Rattle.std.specs.Prelude.{◌≡◌, ◌+◌, ◌^◌, ◌<◌, length, false, true, OnOk};

use crate::outline::Outline;
use page_core::{Fault, Settings};
use page_engine_lines::PageLines;
use page_roff::Cutter;
use std::alloc::Global;

/// The bytes of a page at most.
const BYTES: usize = 1_000_000_000;

/// The outline of a page.
pub(crate) fn outline_of(alloc: Global, text: &[u8]) -> Result<Outline, Fault> {
    if text.len() > BYTES {
        return Err(Fault::TooLong);
    }
    let settings = Settings::new();
    let mut outline = Outline::new(alloc);
    let mut cutter = Cutter::new(alloc, settings.encoding)?;
    let mut lines = PageLines::new(alloc, &settings)?;
    let fed = feed(&mut cutter, text, &mut lines, &mut outline);
    fed.map(|()| outline)
}

// Feeds all lines of a page, and its end.
fn feed(
    cutter: &mut Cutter,
    text: &[u8],
    lines: &mut PageLines,
    outline: &mut Outline,
) -> Result<(), Fault>
    requires ready { cutter.old.ready ≡ false }
    requires consumed { cutter.old.point.line.consumed + length text.now < 2 ^ 31 }
{
    let mut place = 0;
    'parts: for _ in 0..text.len() {
        if place < text.len() {
            let (count, is_whole) = cutter.feed(&text[place..]);
            place += count;
            if is_whole {
                give_line(cutter, lines, outline)?;
            }
        }
    }
    if cutter.end() {
        give_line(cutter, lines, outline)?;
    }
    // (the number is for messages, which the sink leaves out)
    lines.end(outline, 0)
}

// Gives the line that the cutter has.
fn give_line(cutter: &mut Cutter, lines: &mut PageLines, outline: &mut Outline) -> Result<(), Fault>
    requires { cutter.old.ready ≡ true }
    ensures ready { OnOk result (cutter.new.ready ≡ false) }
    ensures point { OnOk result (cutter.new.point ≡ cutter.old.point) }
{
    let (text, number) = cutter.line(outline)?;
    if lines.counts().source < BYTES as u64 {
        lines.line(outline, number, text, false)
    } else {
        Err(Fault::TooLong)
    }
}
