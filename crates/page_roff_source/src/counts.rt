//! What was counted of a page.

/// The source lines of a page that came, the lines that were taken of them, and the interpolations.
#[derive(Clone, Copy, Debug, PartialEq, Eq)]
pub struct Counts {
    pub source: u64,
    /// Each source line, each line of a macro or a loop that ran, each turn of a loop, and each remainder that was run.
    pub taken: u64,
    pub expansions: u64,
}
