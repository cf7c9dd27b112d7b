//! What was done of what comes next, and how the input stack moves on.

use page_roff_blocks::Answer;
use page_roff_effects::ProductKind;
use page_roff_stack::Movement;

/// What was done of what comes next, and how the input stack then moves on.
#[derive(Clone, Copy)]
pub(crate) enum Act {
    /// It goes past what comes next, and nothing else is to be done.
    Move(Movement),
    /// Past a line that heads nothing, or past a loop without a block; this came of it.
    Leaf(ProductKind),
    /// Into the block of a conditional; what its head leaves, if it was run, and the column of the head.
    Block(Option<Answer>, u32),
    /// Out of a block, or of the loop that is collected.
    BlockEnd,
    /// Past a line of a region; this came of it.
    RegionLine(ProductKind),
    /// Back to the source around the innermost one.
    SourceEnd,
}

/// What one step came to.
#[derive(Clone, Copy)]
pub(crate) enum Progress {
    /// There may be more to come.
    More,
    /// A line was taken.
    Line,
    /// The source line is done.
    Done,
}
