//! Places of a page.

/// Where a word is: the number of its source line, and the place of its first byte in the line, both from 1.
#[derive(Clone, Copy, Debug, PartialEq, Eq)]
pub struct Place {
    pub line: u32,
    pub column: u32,
}
