//! What of a page's settings scopes are laid out by (mandoc(1), -O and -T).

use page_core_base::Output;

/// What of a page's settings scopes are laid out by.
#[derive(Clone, Copy)]
pub struct PageLayout {
    /// The indent of text, in columns.
    pub indent: u32,
    pub output: Output,
}
