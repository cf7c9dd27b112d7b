//! How the innermost source goes past what comes next in it.

use page_roff_blocks::Pass;

/// How the innermost source goes past what comes next in it.
#[derive(Clone, Copy)]
pub enum Movement {
    /// Past a part of its line.
    Part(Pass),
    /// Past the head of a region, which opens, and is run or not.
    Region(bool),
    /// Into a line, outside of regions.
    Line,
    /// Past a line in the open region.
    RegionLine,
    /// Past the end of the open region.
    RegionEnd,
    /// Into a turn of the loop that it is: all lines of its body are to come.
    Turn,
}
