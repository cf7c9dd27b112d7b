//! What comes next in the sources that run.

use page_roff_blocks::LinePart;
use std::alloc::AllocError;

/// What comes next in the sources that run; `W` is a text, and `R` an open region.
#[derive(Copy)]
pub enum Next<W, R> {
    /// A part of the innermost source's present line.
    Part(LinePart<W>),
    /// A line begins there, outside of regions.
    Line(W),
    /// A line in its open region.
    RegionLine {
        region: R,
        line: W,
        /// Whether it ends the region.
        is_end: bool,
    },
    /// A turn of the loop comes that is the innermost source, after the turn before it ended.
    Turn {
        /// The region in which that ended.
        region: Option<R>,
        /// Whether there was one.
        has_begun: bool,
        condition: W,
    },
    /// The innermost source ends: a macro, or a loop that has no more turns.
    SourceEnd {
        /// The region in which it ends.
        region: Option<R>,
        /// Whether it was begun: a macro is, and a loop by its first turn.
        has_begun: bool,
    },
    /// The page's line is done.
    Nothing,
}

impl<W: Copy, R: Copy> Clone for Next<W, R> {
    fn clone(&self) -> Result<Next<W, R>, AllocError> {
        Ok(*self)
    }
}
